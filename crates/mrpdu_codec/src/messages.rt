//! Messages as they stand in the octets.

ghost use Rattle.std.specs.Prelude.{◌≡◌, ◌<◌, ◌++◌, ◌+◌, [], take, drop, map, IfOk, OnOk, Some, option_map};
ghost use Rattle.srp_base.specs.Results.{Gives};
ghost use Rattle.mrpdu_codec.specs.Tree.{length_fits};
ghost use Rattle.mrpdu_codec.specs.Raw.{attrs_in, message_in, messages_in};
ghost use Rattle.mrpdu_codec.specs.ReadErr.{left_of, list_kept};
ghost use Rattle.mrpdu_codec.specs.Reading.{region_at, known_at, unknown_at, size_at, sized_at, counted_at, body_at, length_at, message_at, type_at, end_at, messages_of};

use crate::error::ReadErr;
use crate::form::{AppForm, TypeForm};
use crate::numbers::number;
use crate::raw::{RawMessage, RawVector};
use crate::vectors::{list, mark, vectors};
use std::alloc::{AllocError, Global};

/// A region of MSRP, of which these octets are here: vectors in exactly so many octets.
#[tactic(auto, using(crate::proofs::Kept::kept_some), unfolding(crate::specs::Reading::region_at))]
fn region(
    alloc: Global,
    octets: &[u8],
    row: TypeForm,
    len: u8,
    size: usize,
) -> Result<Vec<RawVector<'_>>, ReadErr>
    ensures { Gives (λ v. attrs_in v.items) left_of result
        (region_at (Some row) len size octets.now) }
{
    let (found, rest) = vectors(alloc, octets, Some(row), len)?;
    if rest.len() != 0 {
        return Err(ReadErr::Left(rest.len()));
    }
    if octets.len() < size {
        return Err(ReadErr::Left(0));
    }
    Ok(found)
}

/// The first octets, as many as are there up to so many, and the octets beyond.
fn cut(octets: &[u8], size: usize) -> (&[u8], &[u8])
    ensures front { result.0.now ≡ take size octets.now }
    ensures beyond { result.1.now ≡ drop size octets.now }
{
    octets.split_at(size.min(octets.len()))
}

/// The vectors of a known type in MSRP, and the octets behind their EndMark.
#[tactic(auto, unfolding(crate::specs::Reading::known_at))]
fn read_known(
    alloc: Global,
    octets: &[u8],
    row: TypeForm,
    len: u8,
    size: usize,
) -> Result<(Vec<RawVector<'_>>, &[u8]), ReadErr>
    ensures { Gives (λ x. (attrs_in x.0.items, x.1.now)) left_of result
        (known_at row len size octets.now) }
{
    let (here, beyond) = cut(octets, size);
    match region(alloc, here, row, len, size) {
        Err(error) => Err(error.behind(here.len(), octets.len())),
        Ok(found) => {
            let rest = mark(beyond)?;
            Ok((found, rest))
        }
    }
}

/// Passes over the octets of an unknown type in MSRP.
#[tactic(auto, unfolding(crate::specs::Reading::unknown_at))]
fn pass_over(octets: &[u8], size: usize) -> Result<&[u8], ReadErr>
    requires { size < 65536 }
    ensures { Gives (λ x. x.now) left_of result (unknown_at size octets.now) }
{
    if size + 2 <= octets.len() {
        return Ok(&octets[size + 2..]);
    }
    if octets.len() == size {
        return Ok(&[]);
    }
    Err(ReadErr::Left(octets.len()))
}

/// MSRP's AttributeListLength without the EndMark that it counts.
#[tactic(auto, unfolding(crate::specs::Reading::size_at))]
fn read_size(octets: &[u8]) -> Result<(usize, &[u8]), ReadErr>
    ensures size { Gives (λ x. (x.0, x.1.now)) left_of result (size_at octets.now) }
    ensures small { IfOk result (λ x. x.0 < 65536) }
{
    match octets {
        [] => Err(ReadErr::Left(0)),
        [_] => Err(ReadErr::Left(1)),
        [high, low, rest @ ..] => {
            let counted = usize::from(number(*high, *low));
            if counted < 2 {
                Err(ReadErr::Left(octets.len()))
            } else {
                Ok((counted - 2, rest))
            }
        }
    }
}

/// What AttributeListLength counts, and its EndMark. The octets of an unknown type are passed over.
fn sized(
    alloc: Global,
    octets: &[u8],
    row: Option<TypeForm>,
    len: u8,
    size: usize,
) -> Result<(Vec<RawVector<'_>>, &[u8]), ReadErr>
    requires { size < 65536 }
    ensures { Gives (λ x. (attrs_in x.0.items, x.1.now)) left_of result
        (list_kept row (sized_at row len size octets.now)) }
{
    match row {
        Some(row) => read_known(alloc, octets, row, len, size),
        None => {
            let rest = pass_over(octets, size)?;
            Ok((Vec::new(alloc), rest))
        }
    }
}

/// AttributeListLength, and what it counts.
#[tactic(auto, unfolding(crate::specs::Reading::counted_at))]
fn counted(
    alloc: Global,
    octets: &[u8],
    row: Option<TypeForm>,
    len: u8,
) -> Result<(Vec<RawVector<'_>>, &[u8]), ReadErr>
    ensures { Gives (λ x. (attrs_in x.0.items, x.1.now)) left_of result
        (list_kept row (counted_at row len octets.now)) }
{
    let (size, rest) = read_size(octets)?;
    let (found, rest) = sized(alloc, rest, row, len, size)?;
    Ok((found, rest))
}

/// What stands after AttributeLength.
fn body(
    alloc: Global,
    form: AppForm,
    octets: &[u8],
    row: Option<TypeForm>,
    len: u8,
) -> Result<(Vec<RawVector<'_>>, &[u8]), ReadErr>
    ensures { Gives (λ x. (attrs_in x.0.items, x.1.now)) left_of result
        (list_kept row (body_at form row len octets.now)) }
{
    match form {
        AppForm::Mvrp => list(alloc, octets, row, len),
        AppForm::Msrp => counted(alloc, octets, row, len),
        AppForm::Mmrp => list(alloc, octets, row, len),
    }
}

/// Whether an AttributeLength is the type's; of an unknown type it is any but 0.
fn length_fits(row: Option<TypeForm>, len: u8) -> bool
    ensures { result ≡ length_fits row len }
{
    match row {
        Some(row) => len == row.length,
        None => 0 < len,
    }
}

/// AttributeLength.
#[tactic(auto, unfolding(crate::specs::Reading::length_at))]
fn attribute_length(octets: &[u8], row: Option<TypeForm>) -> Result<(u8, &[u8]), ReadErr>
    ensures { Gives (λ x. (x.0, x.1.now)) left_of result (length_at row octets.now) }
{
    match octets {
        [] => Err(ReadErr::Left(0)),
        [len, rest @ ..] => {
            if length_fits(row, *len) {
                Ok((*len, rest))
            } else {
                Err(ReadErr::Left(octets.len()))
            }
        }
    }
}

/// A Message after its AttributeType, if its type is known.
#[tactic(auto, using(crate::proofs::Kept::message_kept))]
fn read_message(
    alloc: Global,
    form: AppForm,
    kind: u8,
    octets: &[u8],
) -> Result<(Option<RawMessage<'_>>, &[u8]), ReadErr>
    ensures { Gives (λ x. (messages_in x.0, x.1.now)) left_of result
        (message_at form kind octets.now) }
{
    let row = form.known(kind);
    let (len, rest) = attribute_length(octets, row)?;
    let (vectors, rest) = body(alloc, form, rest, row, len)?;
    let message = row.and(Some(RawMessage { kind, vectors }));
    Ok((message, rest))
}

/// The octet behind a 0 in the place of a later Message, which is 0 too in an EndMark.
#[tactic(auto, unfolding(crate::specs::Reading::end_at))]
fn end_mark(octets: &[u8]) -> Result<(), ReadErr>
    ensures { Gives (λ _. []) left_of result (end_at octets.now) }
{
    match octets {
        [] => Err(ReadErr::Left(1)),
        [next, ..] => {
            if *next == 0 {
                Ok(())
            } else {
                Err(ReadErr::Left(octets.len() + 1))
            }
        }
    }
}

/// The AttributeType of a later Message; none at the PDU's EndMark and at the octets' end.
#[tactic(auto, unfolding(crate::specs::Reading::type_at))]
fn next_type(octets: &[u8]) -> Result<Option<(u8, &[u8])>, ReadErr>
    ensures { Gives (option_map (λ x. (x.0, x.1.now))) left_of result (type_at octets.now) }
{
    match octets {
        [] => Ok(None),
        [kind, rest @ ..] => {
            if *kind == 0 {
                end_mark(rest)?;
                Ok(None)
            } else {
                Ok(Some((*kind, rest)))
            }
        }
    }
}

/// Puts a Message at the end, if there is one.
fn push_some<'a>(
    found: &mut Vec<RawMessage<'a>>,
    message: Option<RawMessage<'a>>,
) -> Result<(), AllocError>
    ensures { OnOk result (map message_in found.new.items
        ≡ map message_in found.old.items ++ messages_in message.entry) }
{
    if let Some(message) = message {
        found.push(message)?;
    }
    Ok(())
}

/// The Messages of known types, up to the PDU's EndMark or the octets' end.
pub(crate) fn read_messages(
    alloc: Global,
    form: AppForm,
    octets: &[u8],
) -> Result<Vec<RawMessage<'_>>, ReadErr>
    ensures { Gives (λ v. map message_in v.items) left_of result (messages_of form octets.now) }
{
    let mut found = Vec::new(alloc);
    let mut rest = octets;
    'more: loop {
        match next_type(rest)? {
            None => return Ok(found),
            Some((kind, after)) => {
                let (message, after) = read_message(alloc, form, kind, after)?;
                push_some(&mut found, message)?;
                rest = after;
            }
        }
    }
}
