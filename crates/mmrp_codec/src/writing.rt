//! The events of MAC addresses written as octets.

ghost use Rattle.std.specs.Prelude.{◌≡◌, ◌++◌, ◌≤◌, ◌<◌, ◌^◌, ◌∷◌, [], length, Ok, IfOk, OnOk};
ghost use Rattle.std.specs.Int.{bytes_high_first};
ghost use Rattle.mrpdu_codec.specs.{Tree.vector_octets, Tree.vectors_octets, Canonical.vector_for, Canonical.vectors_for};
ghost use Rattle.mmrp_codec.specs.Meaning.{AreMacs, mmrp_reading};
ghost use Rattle.mmrp_codec.specs.Writing.{IsWritable, event_vector, event_vectors, mmrp_spelling};

use crate::pdu::GroupPdu;
use mrpdu_codec::{put_number, put_vector};
use srp_base::{Mac, MrpEvent, NoMemory, Seq};
use std::alloc::Global;

/// Writes the vector of an event alone. Its FirstValue is put together in a buffer.
fn put_event(
    out: &mut Vec<u8>,
    first: &mut Vec<u8>,
    leave_all: bool,
    event: &(MrpEvent, Mac),
) -> Result<(), NoMemory>
    ensures vector { OnOk result (out.new.items
        ≡ out.old.items ++ vector_octets (vector_for (event_vector leave_all event.now))) }
    ensures mac { OnOk result (event.now.1 < 2 ^ 48) }
{
    first.clear();
    put_number(first, event.1.get(), 6)?;
    put_vector(out, leave_all, first, &[event.0], &[])
}

/// Writes the vectors of events.
fn put_events(
    out: &mut Vec<u8>,
    first: &mut Vec<u8>,
    leave_all: bool,
    events: &[(MrpEvent, Mac)],
) -> Result<(), NoMemory>
    ensures vectors { OnOk result (out.new.items
        ≡ out.old.items ++ vectors_octets (vectors_for (event_vectors leave_all events.now))) }
    ensures macs { OnOk result (AreMacs events.now) }
{
    let mut leave = leave_all;
    for event in events {
        put_event(out, first, leave, event)?;
        leave = false;
    }
    if leave {
        put_vector(out, true, &[0; 6], &[], &[])?;
    }
    Ok(())
}

/// The octets of a PDU.
fn written(alloc: Global, leave_all: bool, events: &[(MrpEvent, Mac)]) -> Result<Vec<u8>, NoMemory>
    requires { length events.now ≤ 164 }
    ensures octets { IfOk result (λ v. v.items
        ≡ mmrp_spelling (record { leave_all = leave_all; events = events.now })) }
    ensures macs { OnOk result (AreMacs events.now) }
{
    let mut out = Vec::with_capacity(alloc, 22 + 9 * events.len())?;
    let mut first = Vec::with_capacity(alloc, 6)?;
    out.push(0)?;
    if leave_all {
        out.extend_from_slice(&[1, 1, 32, 0, 0, 0, 0])?;
    }
    out.extend_from_slice(&[2, 6])?;
    put_events(&mut out, &mut first, leave_all, events)?;
    out.extend_from_slice(&[0, 0, 0, 0])?;
    Ok(out)
}

/// The octets that say a LeaveAll and the events of MAC addresses (IEEE Std 802.1Q-2018, 10.8.1.2,
/// 10.12.1), in the order given: each address is a vector of one. With a LeaveAll both types have a
/// Message, whose first vector has it; a type without a value has a vector without values. Where
/// the addresses ascend this is the canonical encoding. There has to be a LeaveAll or an event, and
/// there have to be at most 164 events, so that the octets are at most 1,500.
///
/// # Errors
///
/// `NoMemory` where memory for the octets runs out.
pub fn encode(alloc: Global, pdu: &GroupPdu) -> Result<Seq<u8>, NoMemory>
    requires { IsWritable pdu.now }
    ensures spelled { IfOk result (λ octets. octets ≡ mmrp_spelling pdu.now) }

    // They read as what was written.
    ensures read_back { IfOk result (λ octets. mmrp_reading octets ≡ Ok pdu.now) }
    ensures few { IfOk result (λ octets. length octets ≤ 1500) }
{
    let octets = written(alloc, pdu.leave_all, pdu.events.as_slice())?;
    mrpdu_codec::written_is_read();
    mrpdu_codec::written_size();
    mrpdu_codec::numbers_are_read_back();
    Ok(Seq::from_vec(octets))
}
