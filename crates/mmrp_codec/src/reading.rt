//! Octets read as the events of MAC addresses.

ghost use Rattle.std.specs.Prelude.{◌≡◌, ◌++◌, ◌<◌, ◌≤◌, ◌+◌, ◌^◌, ◌==◌, ℕ, Ok, Err, None, length, get_or, map, OnOk, IfOk, IsTrue};
ghost use Rattle.std.specs.List.{flat_map, list_all};
ghost use Rattle.mrpdu_codec.specs.declared.error.DecodeErr.TheVariants as errors;
ghost use Rattle.mrpdu_codec.specs.declared.form.AppForm.TheVariants.{Mmrp};
ghost use Rattle.mrpdu_codec.specs.{Raw.attr_in, Raw.attrs_in, Raw.message_in, Raw.pdu_in, Reading.Answers, Shape.has_form};
ghost use Rattle.srp_base.specs.declared.mrp.MrpEvent.TheVariants.{New};
ghost use Rattle.mmrp_codec.specs.declared.pdu.GroupPdu.{GroupPdu};
ghost use Rattle.mmrp_codec.specs.InPlace.{fits_in_place, is_in_range_in_place, events_in_place};
ghost use Rattle.mmrp_codec.specs.Meaning.{events_from, values_fit as values_fit_spec, message_events, first_past_in, message_past, first_past, meaning, place_in, SaysMmrp, MmrpBreaks, mmrp_reading};

use crate::pdu::GroupPdu;
use mrpdu_codec::{AppForm, DecodeErr, RawMessage, RawPdu, RawVector, events_in, number_in};
use srp_base::{Mac, MrpEvent, NoMemory, Seq};
use std::alloc::{AllocError, Global};

/// The MAC address of a number that 48 bits hold.
fn mac_of(number: u64) -> Mac
    requires { number < 2 ^ 48 }
    ensures { result ≡ number }
{
    match Mac::new(number) {
        Some(mac) => mac,
        None => unreachable!(),
    }
}

/// How many values a vector has.
#[tactic(auto, using(crate::proofs::PlaceLemmas::count_of_values))]
fn values_in(raw: &RawVector<'_>) -> usize
    ensures value { result ≡ length (attr_in raw.now).events }
    ensures few { result ≤ 8191 }
{
    raw.count().min(raw.three_packed.len().saturating_mul(3))
}

/// The event of a value.
#[tactic(auto, using(crate::proofs::PlaceLemmas::is_within, crate::proofs::PlaceLemmas::event_at_place))]
fn event_in(raw: &RawVector<'_>, i: usize) -> MrpEvent
    requires { i < length (attr_in raw.now).events }
    ensures { result ≡ get_or (attr_in raw.now).events i New }
{
    events_in(raw.three_packed[i / 3])[i % 3]
}

/// Whether so many consecutive values from a number of 48 bits on stay within these.
fn values_fit(first: u64, n: usize) -> bool
    requires first { first < 2 ^ 48 }
    requires few { n ≤ 8191 }
    ensures { result ≡ values_fit_spec first n }
{
    first + n as u64 <= 0x1_0000_0000_0000
}

/// Puts the events of a vector's n values at the end, of MAC addresses from a number on.
fn push_values(
    out: &mut Vec<(MrpEvent, Mac)>,
    first: u64,
    raw: &RawVector<'_>,
    n: usize,
) -> Result<(), AllocError>
    requires count { n ≡ length (attr_in raw.now).events }
    requires fits { first + n ≤ 2 ^ 48 }
    ensures { OnOk result (out.new.items
        ≡ out.old.items ++ events_from first (attr_in raw.now).events) }
{
    for i in 0..n {
        out.push((event_in(raw, i), mac_of(first + i as u64)))?;
    }
    Ok(())
}

/// Puts the events of a vector at the end, where its values stay within 48 bits. What is answered
/// is whether they do.
fn push_vector(out: &mut Vec<(MrpEvent, Mac)>, raw: &RawVector<'_>) -> Result<bool, AllocError>
    requires { IsTrue (fits_in_place raw.now) }
    ensures fits { IfOk result (λ fits. fits ≡ is_in_range_in_place raw.now) }
    ensures events { IfOk result (λ fits. IsTrue fits
        → out.new.items ≡ out.old.items ++ events_in_place raw.now) }
{
    let first = number_in(raw.first);
    let n = values_in(raw);
    if !values_fit(first, n) {
        return Ok(false);
    }
    push_values(out, first, raw, n)?;
    Ok(true)
}

/// Puts the events of vectors at the end, up to the first whose values pass 48 bits. What is
/// answered is its number.
fn push_vectors(
    out: &mut Vec<(MrpEvent, Mac)>,
    raws: &[RawVector<'_>],
) -> Result<Option<usize>, AllocError>
    requires { IsTrue (list_all fits_in_place raws.now) }
    ensures past { IfOk result (λ past. past ≡ first_past_in 0 (attrs_in raws.now)) }
    ensures events { IfOk result (λ past. past ≡ None
        → out.new.items ≡ out.old.items ++ flat_map events_in_place raws.now) }
{
    for (i, raw) in raws.iter().enumerate() {
        if !push_vector(out, raw)? {
            return Ok(Some(i));
        }
    }
    Ok(None)
}

/// Puts the events of a Message at the end, up to the first vector whose values pass 48 bits. What
/// is answered is its number. A Message of service requirements has none.
#[tactic(auto, using(crate::proofs::ReadingLemmas::macs_in_place, crate::proofs::ReadingLemmas::events_meant))]
fn push_message(
    out: &mut Vec<(MrpEvent, Mac)>,
    raw: &RawMessage<'_>,
) -> Result<Option<usize>, AllocError>
    requires { IsTrue (has_form Mmrp (message_in raw.now)) }
    ensures past { IfOk result (λ past. past ≡ message_past (message_in raw.now)) }
    ensures events { IfOk result (λ past. past ≡ None
        → out.new.items ≡ out.old.items ++ message_events (message_in raw.now)) }
{
    if raw.kind == 2 {
        push_vectors(out, &raw.vectors)
    } else {
        Ok(None)
    }
}

/// Puts the events of Messages at the end, in the order of their octets, up to the first vector
/// whose values pass 48 bits. What is answered is the number of its Message and its own number
/// there.
fn push_messages(
    out: &mut Vec<(MrpEvent, Mac)>,
    raws: &[RawMessage<'_>],
) -> Result<Option<(usize, usize)>, AllocError>
    requires { IsTrue (list_all (λ m. has_form Mmrp (message_in m)) raws.now) }
    ensures past { IfOk result (λ past. past ≡ first_past 0 (map message_in raws.now)) }
    ensures events { IfOk result (λ past. past ≡ None → out.new.items
        ≡ out.old.items ++ flat_map (λ m. message_events (message_in m)) raws.now) }
{
    for (i, raw) in raws.iter().enumerate() {
        if let Some(vector) = push_message(out, raw)? {
            return Ok(Some((i, vector)));
        }
    }
    Ok(None)
}

/// How many vectors Messages have: room for as many events spares most moves of what is read. No
/// clause speaks of room.
fn room_for(raws: &[RawMessage<'_>]) -> usize {
    let mut room: usize = 0;
    for raw in raws {
        room = room.saturating_add(raw.vectors.len());
    }
    room
}

/// The events of a PDU. Where the values of a vector pass 48 bits, the first such vector comes with
/// those before it.
#[tactic(auto, using(crate::proofs::ReadingLemmas::forms_in_place, crate::proofs::ReadingLemmas::messages_meant))]
fn events_of(
    alloc: Global,
    raw: &RawPdu<'_>,
) -> Result<(Vec<(MrpEvent, Mac)>, Option<(usize, usize)>), NoMemory>
    requires { IsTrue (list_all (has_form Mmrp) (pdu_in raw.now).messages) }
    ensures past { IfOk result (λ x. x.1 ≡ first_past 0 (pdu_in raw.now).messages) }
    ensures events { IfOk result (λ x. x.1 ≡ None
        → x.0.items ≡ flat_map message_events (pdu_in raw.now).messages) }
{
    let mut out = Vec::with_capacity(alloc, room_for(&raw.messages))?;
    let past = push_messages(&mut out, &raw.messages)?;
    Ok((out, past))
}

/// What a PDU says, of which these are the events.
fn meaning(raw: &RawPdu<'_>, events: Vec<(MrpEvent, Mac)>) -> GroupPdu
    requires { events.items ≡ flat_map message_events (pdu_in raw.now).messages }
    ensures { result ≡ meaning (pdu_in raw.now) }
{
    GroupPdu {
        leave_all: raw.has_leave_all(),
        events: Seq::from_vec(events),
    }
}

/// The place of the FirstValue of a vector.
fn place_in(octets: &[u8], vector: (usize, usize)) -> u32
    requires { length octets.now < 2 ^ 32 }
    ensures { result ≡ place_in octets.now vector }
{
    mrpdu_codec::first_value_at(AppForm::Mmrp, octets, vector.0, vector.1).unwrap_or(0)
}

/// What the octets of an MRPDU of MMRP say: whether any vector of either type has a LeaveAll, and
/// the events of MAC addresses in the order of the octets. The i-th value of a vector is the
/// FirstValue with i added, as one number of 48 bits. Values of the service requirement type are
/// read, and give no event (IEEE Std 802.1Q-2018, 10.12.1). There are fewer than 2^32 octets.
///
/// # Errors
///
/// `Malformed` carries the offset, in octets from 0, of the first field that breaks its rule or
/// that the octets are too short for; where there is none, that of the first FirstValue whose
/// values pass 2^48 - 1. `NoMemory` comes where memory for the events runs out.
pub fn decode(alloc: Global, octets: &[u8]) -> Result<GroupPdu, DecodeErr>
    requires { length octets.now < 2 ^ 32 }

    // What it answers holds.
    ensures reads { (read : GroupPdu) → result ≡ Ok read → SaysMmrp octets.now read }
    ensures broken { (place : ℕ) → result ≡ Err (errors.Malformed place)
        → MmrpBreaks octets.now place }

    // Want of memory alone is free: else the answer is the reading, which the law
    // `reading_is_the_grammar` says is all that the octets read as and each place where they are
    // malformed.
    ensures exact { Answers result (mmrp_reading octets.now) }
{
    mrpdu_codec::first_values_have_places();
    let raw = mrpdu_codec::decode_in_place(alloc, AppForm::Mmrp, octets)?;
    let (events, past) = events_of(alloc, &raw)?;
    if let Some(vector) = past {
        return Err(DecodeErr::Malformed(place_in(octets, vector)));
    }
    Ok(meaning(&raw, events))
}
