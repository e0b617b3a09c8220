//! Octets read as the events of VIDs.

ghost use Rattle.std.specs.Prelude.{◌≡◌, ◌++◌, ◌<◌, ◌≤◌, ◌^◌, ℕ, Ok, Err, length, take, OnOk, IfOk};
ghost use Rattle.std.specs.List.{flat_map};
ghost use Rattle.mrpdu_codec.specs.declared.error.DecodeErr.TheVariants as errors;
ghost use Rattle.mrpdu_codec.specs.declared.form.AppForm.TheVariants.{Mvrp};
ghost use Rattle.mrpdu_codec.specs.{Grammar.Breaks, Octets.three_events, Raw.pdu_in, Reading.Answers};
ghost use Rattle.mvrp_codec.specs.declared.pdu.MvrpPdu.{MvrpPdu};
ghost use Rattle.mvrp_codec.specs.Meaning.{first_vid, event_at, events_from, events_in_place, meaning, SaysMvrp, mvrp_reading};

use crate::pdu::MvrpPdu;
use mrpdu_codec::{AppForm, DecodeErr, RawMessage, RawPdu, RawVector, events_in};
use srp_base::{MrpEvent, NoMemory, Seq, Vid};
use std::alloc::{AllocError, Global};

/// The VID in the two octets of a FirstValue.
fn first_vid(first: &[u8]) -> u16
    ensures { result ≡ first_vid first.now }
{
    match first {
        [high, low] => 256 * u16::from(*high) + u16::from(*low),
        _ => 0,
    }
}

/// Puts the event of a VID at the end, if the VID is one.
fn push_event(
    out: &mut Vec<(MrpEvent, Vid)>,
    event: MrpEvent,
    number: u16,
) -> Result<(), AllocError>
    ensures { OnOk result (out.new.items ≡ out.old.items ++ event_at event number) }
{
    if let Some(vid) = Vid::new(number) {
        out.push((event, vid))?;
    }
    Ok(())
}

/// Puts the events of consecutive VIDs at the end, at most n of an octet.
fn push_octet(
    out: &mut Vec<(MrpEvent, Vid)>,
    first: u16,
    octet: u8,
    n: usize,
) -> Result<(), AllocError>
    requires { first ≤ 4094 }
    ensures { OnOk result (out.new.items
        ≡ out.old.items ++ events_from first (take n (three_events octet))) }
{
    let events = events_in(octet);
    let mut number = first;
    for event in &events[..n.min(3)] {
        push_event(out, *event, number)?;
        number += 1;
    }
    Ok(())
}

/// Puts the first n events of packed octets at the end, with consecutive VIDs. Those past 4,094
/// give none.
fn push_events(
    out: &mut Vec<(MrpEvent, Vid)>,
    first: u16,
    packed: &[u8],
    n: usize,
) -> Result<(), AllocError>
    ensures { OnOk result (out.new.items
        ≡ out.old.items ++ events_from first (take n (flat_map three_events packed.now))) }
{
    let mut number = first;
    let mut left = n;
    for octet in packed {
        if 4094 < number {
            return Ok(());
        }
        push_octet(out, number, *octet, left)?;
        number += 3;
        left = left.saturating_sub(3);
    }
    Ok(())
}

/// Puts the events of vectors at the end.
fn push_vectors(out: &mut Vec<(MrpEvent, Vid)>, vectors: &[RawVector<'_>]) -> Result<(), AllocError>
    ensures { OnOk result (out.new.items ≡ out.old.items ++ flat_map events_in_place vectors.now) }
{
    for v in vectors {
        push_events(out, first_vid(v.first), v.three_packed, v.count())?;
    }
    Ok(())
}

/// The events of Messages, in the order of their octets.
fn events_of(alloc: Global, messages: &[RawMessage<'_>]) -> Result<Vec<(MrpEvent, Vid)>, AllocError>
    ensures { IfOk result (λ v. v.items
        ≡ flat_map (λ m. flat_map events_in_place m.vectors.items) messages.now) }
{
    let mut out = Vec::new(alloc);
    for message in messages {
        push_vectors(&mut out, &message.vectors)?;
    }
    Ok(out)
}

/// What a PDU says.
#[tactic(auto, using(crate::proofs::ReadingLemmas::events_meant))]
fn meaning(alloc: Global, raw: &RawPdu<'_>) -> Result<MvrpPdu, NoMemory>
    ensures { IfOk result (λ read. read ≡ meaning (pdu_in raw.now)) }
{
    let leave_all = raw.has_leave_all();
    let events = events_of(alloc, &raw.messages)?;
    Ok(MvrpPdu {
        leave_all,
        events: Seq::from_vec(events),
    })
}

/// What the octets of an MRPDU of MVRP say: whether any vector has a LeaveAll, and the events of
/// VIDs in the order of the octets. VIDs outside 1 to 4,094 give none (IEEE Std 802.1Q-2018,
/// 11.2.3.1). There are fewer than 2^32 octets.
///
/// # Errors
///
/// `Malformed` carries the offset, in octets from 0, of the first field that breaks its rule or
/// that the octets are too short for. `NoMemory` comes where memory for the events runs out.
pub fn decode(alloc: Global, octets: &[u8]) -> Result<MvrpPdu, DecodeErr>
    requires { length octets.now < 2 ^ 32 }

    // What it answers holds.
    ensures reads { (read : MvrpPdu) → result ≡ Ok read → SaysMvrp octets.now read }
    ensures broken { (place : ℕ)
        → result ≡ Err (errors.Malformed place) → Breaks Mvrp octets.now place }

    // Want of memory alone is free: else the answer is the reading, which the law
    // `reading_is_the_grammar` says is all that the octets read as and each place where they break.
    ensures exact { Answers result (mvrp_reading octets.now) }
{
    let raw = mrpdu_codec::decode_in_place(alloc, AppForm::Mvrp, octets)?;
    let read = meaning(alloc, &raw)?;
    Ok(read)
}
