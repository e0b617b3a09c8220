//! The events of VIDs written as octets.

ghost use Rattle.std.specs.Prelude.{◌≡◌, ◌++◌, ◌<◌, ◌≤◌, ◌+◌, length, map, take, Ok, IfOk, OnOk};
ghost use Rattle.mvrp_codec.specs.Meaning.{mvrp_reading};
ghost use Rattle.mrpdu_codec.specs.{Tree.vector_octets, Canonical.vector_for};
ghost use Rattle.mvrp_codec.specs.Writing.{streaks, first_for, streak_vector, streaks_octets, pdu_around, mvrp_spelling, IsWritable, streak_len, AreVids};

use crate::pdu::MvrpPdu;
use mrpdu_codec::put_vector;
use srp_base::{MrpEvent, NoMemory, Seq, Vid};
use std::alloc::{AllocError, Global};

/// How many of the events have consecutive VIDs from the first on.
fn streak_len(events: &[(MrpEvent, Vid)]) -> usize
    requires { 0 < length events.now }
    ensures len { result ≡ streak_len events.now }
    ensures vids { AreVids (take result events.now) }
    ensures some { 0 < result }
    ensures within { result ≤ length events.now }
{
    let mut at = 0usize;
    'more: loop {
        let this = events[at].1.get();
        if at + 1 == events.len() {
            return at + 1;
        }
        let next = events[at + 1].1.get();
        if this + 1 != next {
            return at + 1;
        }
        at += 1;
    }
}

/// The FirstValue of a streak: the octets of its first VID, or zeros where there is none.
fn first_of(streak: &[(MrpEvent, Vid)]) -> [u8; 2]
    ensures { result ≡ first_for streak.now }
{
    let number = match streak {
        [] => 0,
        [first, ..] => first.1.get(),
    };
    [(number / 256) as u8, (number % 256) as u8]
}

/// Writes the vector of a streak, of which these are the events alone.
fn put_streak(
    out: &mut Vec<u8>,
    leave_all: bool,
    streak: &[(MrpEvent, Vid)],
    alone: &[MrpEvent],
) -> Result<(), NoMemory>
    requires alone { alone.now ≡ map (λ x. x.0) streak.now }
    requires few { length alone.now ≤ 8191 }
    ensures { OnOk result (out.new.items
        ≡ out.old.items ++ vector_octets (vector_for (streak_vector leave_all streak.now))) }
{
    put_vector(out, leave_all, &first_of(streak), alone, &[])
}

/// Writes the vectors of events that have VIDs, of which these are the events alone.
fn put_streaks(
    out: &mut Vec<u8>,
    leave_all: bool,
    events: &[(MrpEvent, Vid)],
    alone: &[MrpEvent],
) -> Result<(), NoMemory>
    requires alone { alone.now ≡ map (λ x. x.0) events.now }
    requires few { length alone.now ≤ 8191 }
    ensures vectors { OnOk result (out.new.items
        ≡ out.old.items ++ streaks_octets leave_all (streaks events.now)) }
    ensures vids { OnOk result (AreVids events.now) }
{
    let mut leave = leave_all;
    let mut rest = events;
    let mut rest_alone = alone;
    'more: while !rest.is_empty() {
        let n = streak_len(rest);
        let (streak, after) = rest.split_at(n);
        let (streak_alone, after_alone) = rest_alone.split_at(n);
        put_streak(out, leave, streak, streak_alone)?;
        leave = false;
        rest = after;
        rest_alone = after_alone;
    }
    if leave {
        put_streak(out, true, &[], &[])?;
    }
    Ok(())
}

/// The events without their VIDs.
fn events_alone(alloc: Global, events: &[(MrpEvent, Vid)]) -> Result<Vec<MrpEvent>, AllocError>
    ensures { IfOk result (λ v. v.items ≡ map (λ x. x.0) events.now) }
{
    events.iter().map(|x| x.0).collect(alloc)
}

/// The octets of a PDU of one Message, in a buffer with room for a vector of each event.
fn written(alloc: Global, leave_all: bool, events: &[(MrpEvent, Vid)]) -> Result<Vec<u8>, NoMemory>
    requires { length events.now ≤ 8191 }
    ensures octets { IfOk result (λ v. v.items ≡ pdu_around (streaks_octets leave_all (streaks events.now))) }
    ensures vids { OnOk result (AreVids events.now) }
{
    let alone = events_alone(alloc, events)?;
    let mut out = Vec::with_capacity(alloc, 11 + 5 * events.len())?;
    out.extend_from_slice(&[0, 1, 2])?;
    put_streaks(&mut out, leave_all, events, &alone)?;
    out.extend_from_slice(&[0, 0, 0, 0])?;
    Ok(out)
}

/// The octets that say a LeaveAll and the events of VIDs (IEEE Std 802.1Q-2018, 10.8.1.2,
/// 11.2.3.1), in the order given: each maximal streak of consecutive VIDs is one vector, and a
/// LeaveAll stands in the first. Where the VIDs ascend this is the canonical encoding. There has to
/// be a LeaveAll or an event, and there have to be at most 297 events, so that the octets are at
/// most 1,500.
///
/// # Errors
///
/// `NoMemory` where memory for the octets runs out.
pub fn encode(alloc: Global, pdu: &MvrpPdu) -> Result<Seq<u8>, NoMemory>
    requires { IsWritable pdu.now }
    ensures spelled { IfOk result (λ octets. octets ≡ mvrp_spelling pdu.now) }

    // They read as what was written.
    ensures read_back { IfOk result (λ octets. mvrp_reading octets ≡ Ok pdu.now) }
    ensures few { IfOk result (λ octets. length octets ≤ 1500) }
{
    let octets = written(alloc, pdu.leave_all, pdu.events.as_slice())?;
    mrpdu_codec::written_is_read();
    mrpdu_codec::written_size();
    Ok(Seq::from_vec(octets))
}
