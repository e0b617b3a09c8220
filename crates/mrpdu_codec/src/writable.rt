//! Which PDUs can be written, and in how many octets.

ghost use Rattle.std.specs.Prelude.{◌≡◌, ◌-◌, ◌^◌, min, map, length, nat_le, Some};
ghost use Rattle.std.specs.List.{list_all};
ghost use Rattle.mrpdu_codec.specs.Tree.{vector_octets, vectors_octets, message_octets, messages_octets};
ghost use Rattle.mrpdu_codec.specs.Canonical.{vector_for, vectors_for, message_for, spelling, list_fits, message_fits, well_formed};
ghost use Rattle.mrpdu_codec.specs.Shape.{params_fit, vector_fits, vectors_fit, has_form};

use crate::fields::{quarters, thirds};
use crate::form::{AppForm, TypeForm};
use crate::pdu::{Message, Pdu, VectorAttr};

/// The octets of a vector, or the greatest usize where they are more.
#[tactic(auto, using(crate::proofs::Sizes::vector_length))]
fn vector_size(v: &VectorAttr) -> usize
    ensures { result ≡ min (length (vector_octets (vector_for v.now))) (2 ^ 64 - 1) }
{
    let events = thirds(v.events.len());
    let params = quarters(v.params.len());
    let values = v.first.len().saturating_add(events).saturating_add(params);
    values.saturating_add(2)
}

/// The octets of vectors, or the greatest usize where they are more.
pub(crate) fn vectors_size(vs: &[VectorAttr]) -> usize
    ensures { result ≡ min (length (vectors_octets (vectors_for vs.now))) (2 ^ 64 - 1) }
{
    let mut size = 0usize;
    for v in vs {
        size = size.saturating_add(vector_size(v));
    }
    size
}

/// The octets of a Message: with its EndMark 4 beside the vectors, and in MSRP 2 more.
fn message_size(form: AppForm, message: &Message) -> usize
    ensures { result ≡ min (length (message_octets (message_for form message.now))) (2 ^ 64 - 1) }
{
    let vectors = vectors_size(message.vectors.as_slice());
    match form {
        AppForm::Mvrp => vectors.saturating_add(4),
        AppForm::Msrp => vectors.saturating_add(6),
        AppForm::Mmrp => vectors.saturating_add(4),
    }
}

/// The octets of Messages, or the greatest usize where they are more.
fn messages_size(form: AppForm, messages: &[Message]) -> usize
    ensures { result
        ≡ min (length (messages_octets (map (message_for form) messages.now))) (2 ^ 64 - 1) }
{
    let mut size = 0usize;
    for message in messages {
        size = size.saturating_add(message_size(form, message));
    }
    size
}

/// How many octets `encode` writes of a PDU; the greatest usize where they are more.
pub fn size_of(form: AppForm, pdu: &Pdu) -> usize
    ensures { result ≡ min (length (spelling form pdu.now)) (2 ^ 64 - 1) }
{
    messages_size(form, pdu.messages.as_slice()).saturating_add(3)
}

/// Numbers from 0 to 3.
fn are_params(params: &[u8]) -> bool
    ensures { result ≡ list_all (λ p. nat_le p 3) params.now }
{
    params.iter().all(|p| *p <= 3)
}

/// A parameter from 0 to 3 for each event of a four-packed type, and else none.
fn params_fit(row: TypeForm, v: &VectorAttr) -> bool
    ensures { result ≡ params_fit row v.now }
{
    if !row.four_packed {
        return v.params.len() == 0;
    }
    let small = are_params(v.params.as_slice());
    v.params.len() == v.events.len() && small
}

/// A FirstValue of the type's length, and a LeaveAll or an event, and at most 8,191 events.
fn vector_fits(row: TypeForm, v: &VectorAttr) -> bool
    ensures { result ≡ vector_fits row v.now }
{
    let params = params_fit(row, v);
    let n = v.events.len();
    v.first.len() == usize::from(row.length) && (v.leave_all || 0 < n) && n <= 8191 && params
}

/// The vectors of a Message of a known type.
fn vectors_fit(row: TypeForm, vs: &[VectorAttr]) -> bool
    ensures { result ≡ vectors_fit (Some row) vs.now }
{
    vs.iter().all(|v| vector_fits(row, v))
}

/// A Message of a known type whose vectors fit it.
fn has_form(form: AppForm, message: &Message) -> bool
    ensures { result ≡ has_form form message.now }
{
    match form.known(message.kind) {
        None => false,
        Some(row) => vectors_fit(row, message.vectors.as_slice()),
    }
}

/// Vectors that fit in a list whose AttributeListLength has two octets.
fn list_fits(form: AppForm, vs: &[VectorAttr]) -> bool
    ensures { result ≡ list_fits form vs.now }
{
    match form {
        AppForm::Mvrp => true,
        AppForm::Msrp => vectors_size(vs) <= 65533,
        AppForm::Mmrp => true,
    }
}

/// A Message that can be written.
fn message_fits(form: AppForm, message: &Message) -> bool
    ensures { result ≡ message_fits form message.now }
{
    let known = has_form(form, message);
    let list = list_fits(form, message.vectors.as_slice());
    known && list
}

/// Messages that can be written.
fn messages_fit(form: AppForm, messages: &[Message]) -> bool
    ensures { result ≡ list_all (message_fits form) messages.now }
{
    messages.iter().all(|m| message_fits(form, m))
}

/// Whether `encode` can write a PDU: its version is 0, it has a Message, each type is known, each
/// FirstValue has the type's length, each vector has a LeaveAll or an event and at most 8,191
/// events, the parameters fit the type, and a list of MSRP has at most 65,535 octets with its
/// EndMark.
pub fn well_formed(form: AppForm, pdu: &Pdu) -> bool
    ensures exact { result ≡ well_formed form pdu.now }
{
    let each = messages_fit(form, pdu.messages.as_slice());
    pdu.version == 0 && 0 < pdu.messages.len() && each
}
