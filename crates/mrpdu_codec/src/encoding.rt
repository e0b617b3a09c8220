//! A PDU written as octets.

ghost use Rattle.std.specs.Prelude.{◌≡◌, ◌++◌, ◌∷◌, ◌≤◌, ◌<◌, ◌+◌, length, drop, map, nat_le, slice_index, slice_index_or, if◌then◌else◌, IsTrue, IfOk, OnOk, OnErr};
ghost use Rattle.std.specs.List.{list_all, AllByRecursion};
ghost use Rattle.mrpdu_codec.specs.Types.{row_of};
ghost use Rattle.mrpdu_codec.specs.Grammar.{Spells};
ghost use Rattle.srp_base.specs.declared.mrp.MrpEvent.TheVariants.{New};
ghost use Rattle.mrpdu_codec.specs.Octets.{event_number};
ghost use Rattle.mrpdu_codec.specs.Tree.{vectors_octets, message_octets, messages_octets};
ghost use Rattle.mrpdu_codec.specs.Canonical.{three, pack_events, four, pack_params, vectors_for, message_for, spelling, well_formed, message_fits, list_length_for, list_fits, length_for, octets_for, CanPut};

use crate::form::AppForm;
use crate::numbers::put_two;
use crate::pdu::{Message, Pdu, VectorAttr};
use crate::writable::{size_of, vectors_size};
use srp_base::{MrpEvent, NoMemory};
use std::alloc::{AllocError, Global};

/// An event's number.
fn number_of(event: MrpEvent) -> u8
    ensures value { result ≡ event_number event }
    ensures limit { result ≤ 5 }
{
    match event {
        MrpEvent::New => 0,
        MrpEvent::JoinIn => 1,
        MrpEvent::OnlyIn => 2,
        MrpEvent::JoinMt => 3,
        MrpEvent::OnlyMt => 4,
        MrpEvent::Lv => 5,
    }
}

/// Three events in an octet.
fn three(a: MrpEvent, b: MrpEvent, c: MrpEvent) -> u8
    ensures { result ≡ three a b c }
{
    (number_of(a) * 6 + number_of(b)) * 6 + number_of(c)
}

/// The event at a place; New past the last.
fn event_at(events: &[MrpEvent], place: usize) -> MrpEvent
    ensures { result ≡ slice_index_or events.now place New }
{
    events.get(place).copied().unwrap_or(MrpEvent::New)
}

/// The octet of the first three events, and the events after them.
fn first_three(events: &[MrpEvent]) -> (u8, &[MrpEvent])
    requires { 0 < length events.now }
    ensures packed { pack_events events.now ≡ result.0 ∷ pack_events result.1.now }
    ensures fewer { length result.1.now < length events.now }
{
    let octet = three(
        event_at(events, 0),
        event_at(events, 1),
        event_at(events, 2),
    );
    (octet, &events[events.len().min(3)..])
}

/// Writes the packed events of a vector.
fn put_events(out: &mut Vec<u8>, events: &[MrpEvent]) -> Result<(), AllocError>
    ensures { OnOk result (out.new.items ≡ out.old.items ++ pack_events events.now) }
{
    let mut rest = events;
    'more: while !rest.is_empty() {
        let (octet, after) = first_three(rest);
        out.push(octet)?;
        rest = after;
    }
    Ok(())
}

/// Four parameters in an octet.
fn four(a: u8, b: u8, c: u8, d: u8) -> u8
    requires first { a ≤ 3 }
    requires second { b ≤ 3 }
    requires third { c ≤ 3 }
    requires last { d ≤ 3 }
    ensures { result ≡ four a b c d }
{
    a * 64 + b * 16 + c * 4 + d
}

/// The parameter at a place; 0 past the last.
fn param_at(params: &[u8], place: usize) -> u8
    ensures { result ≡ slice_index params.now place }
{
    params.get(place).copied().unwrap_or(0)
}

/// The octet of the first four parameters, and the parameters after them.
fn first_four(params: &[u8]) -> (u8, &[u8])
    requires some { 0 < length params.now }
    requires small { IsTrue (list_all (λ p. nat_le p 3) params.now) }
    ensures packed { pack_params params.now ≡ result.0 ∷ pack_params result.1.now }
    ensures fewer { length result.1.now < length params.now }
    ensures small { IsTrue (list_all (λ p. nat_le p 3) result.1.now) }
{
    let octet = four(
        param_at(params, 0),
        param_at(params, 1),
        param_at(params, 2),
        param_at(params, 3),
    );
    (octet, &params[params.len().min(4)..])
}

/// Writes the FourPackedEvents of a vector.
fn put_params(out: &mut Vec<u8>, params: &[u8]) -> Result<(), AllocError>
    requires { IsTrue (list_all (λ p. nat_le p 3) params.now) }
    ensures { OnOk result (out.new.items ≡ out.old.items ++ pack_params params.now) }
{
    let mut rest = params;
    'more: while !rest.is_empty() {
        let (octet, after) = first_four(rest);
        out.push(octet)?;
        rest = after;
    }
    Ok(())
}

/// A vector's header.
fn header_for(leave_all: bool, events: &[MrpEvent]) -> u16
    requires { length events.now ≤ 8191 }
    ensures { result ≡ (if leave_all then 8192 else 0) + length events.now }
{
    let n = events.len() as u16;
    if leave_all { 8192 + n } else { n }
}

/// Writes a vector at the end of `out`, from parts that needn't lie in one: a crate that knows its
/// values writes them so into one buffer, in place of making a PDU first. There are at most 8,191
/// events, and the parameters are at most 3.
///
/// # Errors
///
/// `NoMemory` where memory for the octets runs out; `out` then may have some of them at its end.
pub fn put_vector(
    out: &mut Vec<u8>,
    leave_all: bool,
    first: &[u8],
    events: &[MrpEvent],
    params: &[u8],
) -> Result<(), NoMemory>
    requires few { length events.now ≤ 8191 }
    requires small { IsTrue (list_all (λ p. nat_le p 3) params.now) }
    ensures { OnOk result (out.new.items
        ≡ out.old.items ++ octets_for leave_all first.now events.now params.now) }
{
    put_two(out, header_for(leave_all, events))?;
    out.extend_from_slice(first)?;
    put_events(out, events)?;
    put_params(out, params)?;
    Ok(())
}

/// Writes vectors.
fn put_vectors(out: &mut Vec<u8>, vs: &[VectorAttr]) -> Result<(), NoMemory>
    requires { AllByRecursion CanPut vs.now }
    ensures { OnOk result (out.new.items ≡ out.old.items ++ vectors_octets (vectors_for vs.now)) }
{
    for v in vs {
        put_vector(
            out,
            v.leave_all,
            v.first.as_slice(),
            v.events.as_slice(),
            v.params.as_slice(),
        )?;
    }
    Ok(())
}

/// Writes MSRP's AttributeListLength.
fn put_list_length(out: &mut Vec<u8>, form: AppForm, vs: &[VectorAttr]) -> Result<(), AllocError>
    requires { IsTrue (list_fits form vs.now) }
    ensures { OnOk result (out.new.items ≡ out.old.items ++ list_length_for form vs.now) }
{
    match form {
        AppForm::Mvrp => Ok(()),
        AppForm::Msrp => put_two(out, (vectors_size(vs) + 2) as u16),
        AppForm::Mmrp => Ok(()),
    }
}

/// AttributeLength of a Message.
fn length_for(form: AppForm, message: &Message) -> u8
    ensures { result ≡ length_for (row_of form message.now.kind) }
{
    match form.known(message.kind) {
        Some(row) => row.length,
        None => 0,
    }
}

/// Writes a Message.
fn put_message(out: &mut Vec<u8>, form: AppForm, message: &Message) -> Result<(), NoMemory>
    requires { IsTrue (message_fits form message.now) }
    ensures { OnOk result (out.new.items
        ≡ out.old.items ++ message_octets (message_for form message.now)) }
{
    out.extend_from_slice(&[message.kind, length_for(form, message)])?;
    put_list_length(out, form, message.vectors.as_slice())?;
    put_vectors(out, message.vectors.as_slice())?;
    put_two(out, 0)?;
    Ok(())
}

/// Writes Messages.
fn put_messages(out: &mut Vec<u8>, form: AppForm, messages: &[Message]) -> Result<(), NoMemory>
    requires { IsTrue (list_all (message_fits form) messages.now) }
    ensures { OnOk result (out.new.items
        ≡ out.old.items ++ messages_octets (map (message_for form) messages.now)) }
{
    for message in messages {
        put_message(out, form, message)?;
    }
    Ok(())
}

/// The octets of a PDU.
fn written(alloc: Global, form: AppForm, pdu: &Pdu) -> Result<Vec<u8>, NoMemory>
    requires { IsTrue (well_formed form pdu.now) }
    ensures { IfOk result (λ v. v.items ≡ spelling form pdu.now) }
{
    let mut out = Vec::with_capacity(alloc, size_of(form, pdu))?;
    out.push(pdu.version)?;
    put_messages(&mut out, form, pdu.messages.as_slice())?;
    put_two(&mut out, 0)?;
    Ok(out)
}

/// Writes a PDU at the end of `out`, in its one canonical spelling: with every EndMark, and with 0
/// in the places past the last value of a vector (IEEE Std 802.1Q-2018, 10.8.1.2). The PDU is
/// `well_formed`. The octets are `size_of` many.
///
/// # Errors
///
/// `NoMemory` where memory for the octets runs out; `out` is then as it was.
#[tactic(auto, using(crate::proofs::RoundTrip::spells_behind))]
pub fn encode(form: AppForm, pdu: &Pdu, out: &mut Vec<u8>) -> Result<(), NoMemory>
    requires well_formed { IsTrue (well_formed form pdu.now) }
    ensures ok { OnOk result (out.new.items ≡ out.old.items ++ spelling form pdu.now) }
    ensures err { OnErr result (out.new.items ≡ out.old.items) }

    // What now stands behind the old octets spells the PDU.
    ensures spelled { OnOk result
        (Spells form (drop (length out.old.items) out.new.items) pdu.now) }
{
    let octets = written(*out.allocator(), form, pdu)?;
    out.extend_from_slice(&octets)?;
    Ok(())
}
