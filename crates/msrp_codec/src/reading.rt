//! Octets read as the events of keys.

ghost use Rattle.std.specs.Prelude.{◌≡◌, ◌++◌, ◌≤◌, ◌<◌, ◌+◌, ◌^◌, ℕ, Ok, Err, length, get_or, slice_index, map, OnOk, IfOk, IsTrue};
ghost use Rattle.std.specs.{List.flat_map, List.list_all, Option.unwrap_or};
ghost use Rattle.mrpdu_codec.specs.declared.error.DecodeErr.TheVariants as errors;
ghost use Rattle.mrpdu_codec.specs.declared.form.AppForm.TheVariants.{Msrp};
ghost use Rattle.mrpdu_codec.specs.{Octets.four_params, Reading.Answers, Raw.attr_in, Raw.attrs_in, Raw.message_in, Raw.pdu_in, Shape.has_form};
ghost use Rattle.srp_base.specs.declared.mrp.MrpEvent.TheVariants.{New};
ghost use Rattle.msrp_codec.specs.InPlace.{fits_in_place, is_in_range_in_place, events_in_place, event_in_place, values_from, IsSilent};
ghost use Rattle.msrp_codec.specs.declared.pdu.MsrpPdu.{MsrpPdu};
ghost use Rattle.msrp_codec.specs.FirstValue.{first_value_of, talkers_fit, values_fit, talker_after};
ghost use Rattle.msrp_codec.specs.Meaning.{kind_of, events_from, message_events, meaning, first_past_in, message_past, first_past, place_in, SaysMsrp, MsrpBreaks, msrp_reading};

use crate::attribute_type::AttributeType;
use crate::first_value::{FirstValue, first_value_of};
use crate::pdu::{MsrpContent, MsrpKey, MsrpPdu};
use mrpdu_codec::{AppForm, DecodeErr, RawMessage, RawPdu, RawVector, events_in};
use srp_base::{ListenerKind, Mac, MrpEvent, NoMemory, Seq, StreamId, Talker};
use std::alloc::{AllocError, Global};

/// What a Listener declares by a FourPackedEvent.
fn kind_of(four_packed: u8) -> Option<ListenerKind>
    ensures { result ≡ kind_of four_packed }
{
    match four_packed {
        1 => Some(ListenerKind::AskingFailed),
        2 => Some(ListenerKind::Ready),
        3 => Some(ListenerKind::ReadyFailed),
        _ => None,
    }
}

/// A Talker so many values later.
fn talker_after(t: &Talker, i: usize) -> Talker
    requires { IsTrue (talkers_fit t.now (i + 1)) }
    ensures { result ≡ talker_after t.now i }
{
    match Mac::new(t.dest.get() + i as u64) {
        Some(dest) => Talker {
            stream: StreamId(t.stream.0 + i as u64),
            dest,
            ..*t
        },
        None => unreachable!(),
    }
}

/// How many values a vector has.
#[tactic(auto, using(crate::proofs::PlaceLemmas::count_of_values))]
fn values_in(raw: &RawVector<'_>) -> usize
    ensures value { result ≡ length (attr_in raw.now).events }
    ensures few { result ≤ 8191 }
{
    raw.count().min(raw.three_packed.len().saturating_mul(3))
}

/// The event of a value.
#[tactic(auto, using(crate::proofs::PlaceLemmas::is_within, crate::proofs::PlaceLemmas::event_at_place))]
fn event_in(raw: &RawVector<'_>, i: usize) -> MrpEvent
    requires { i < length (attr_in raw.now).events }
    ensures { result ≡ get_or (attr_in raw.now).events i New }
{
    events_in(raw.three_packed[i / 3])[i % 3]
}

/// The four parameters of an octet of FourPackedEvents.
fn four_in(octet: u8) -> [u8; 4]
    ensures { result ≡ four_params octet }
{
    [octet / 64, octet / 16 % 4, octet / 4 % 4, octet % 4]
}

/// The FourPackedEvent of a value; where a vector has none it is 0.
#[tactic(auto, using(crate::proofs::PlaceLemmas::four_at_place, crate::proofs::PlaceLemmas::no_four))]
fn four_packed_in(raw: &RawVector<'_>, i: usize) -> u8
    requires { i < length (attr_in raw.now).events }
    ensures { result ≡ slice_index (attr_in raw.now).params i }
{
    if i / 4 < raw.four_packed.len() {
        four_in(raw.four_packed[i / 4])[i % 4]
    } else {
        0
    }
}

/// Puts the event of a value at the end, if it declares something.
fn push_event(
    out: &mut Vec<(MrpEvent, MsrpKey, MsrpContent)>,
    first: &FirstValue,
    raw: &RawVector<'_>,
    i: usize,
) -> Result<(), AllocError>
    requires place { i < length (attr_in raw.now).events }
    requires fits { IsTrue (values_fit first.now (i + 1)) }
    ensures { OnOk result (out.new.items
        ≡ out.old.items ++ event_in_place first.now raw.now i) }
{
    let event = event_in(raw, i);
    match first {
        FirstValue::Advertise(t) => {
            let t = talker_after(t, i);
            out.push((event, MsrpKey::Talker(t.stream), MsrpContent::Advertise(t)))?;
            Ok(())
        }
        FirstValue::Failed(t, failure) => {
            let t = talker_after(t, i);
            let key = MsrpKey::Talker(t.stream);
            out.push((event, key, MsrpContent::Failed(t, *failure)))?;
            Ok(())
        }
        FirstValue::Listener(stream) => {
            let Some(kind) = kind_of(four_packed_in(raw, i)) else {
                return Ok(());
            };
            let key = MsrpKey::Listener(StreamId(stream.0 + i as u64));
            out.push((event, key, MsrpContent::Listener(kind)))?;
            Ok(())
        }
        FirstValue::Domain(class, priority, vid) => {
            let key = MsrpKey::Domain(*class + i as u8);
            let priority = *priority + i as u8;
            let vid = *vid;
            out.push((event, key, MsrpContent::Domain { priority, vid }))?;
            Ok(())
        }
    }
}

/// Whether a value stands in an octet of FourPackedEvents whose four Listeners are all ignored.
fn is_silent(first: &FirstValue, raw: &RawVector<'_>, i: usize) -> bool
    ensures { IsTrue result → IsSilent first.now raw.now i }
{
    match first {
        FirstValue::Listener(_) => i / 4 < raw.four_packed.len() && raw.four_packed[i / 4] == 0,
        _ => false,
    }
}

/// Puts the event of a value at the end, and answers the place of the next value. Four Listeners
/// that are all ignored are passed over at once.
#[tactic(auto, using(crate::proofs::SilentLemmas::value_first, crate::proofs::SilentLemmas::silent_octet, crate::proofs::ReadingLemmas::fits_fewer))]
fn push_value(
    out: &mut Vec<(MrpEvent, MsrpKey, MsrpContent)>,
    first: &FirstValue,
    raw: &RawVector<'_>,
    i: usize,
) -> Result<usize, AllocError>
    requires place { i < length (attr_in raw.now).events }
    requires fits { IsTrue (values_fit first.now (length (attr_in raw.now).events)) }
    ensures events { IfOk result (λ next. out.new.items ++ values_from first.now raw.now next
        ≡ out.old.items ++ values_from first.now raw.now i) }
    ensures later { IfOk result (λ next. i < next) }
    ensures near { IfOk result (λ next. next ≤ i + 4) }
{
    if is_silent(first, raw, i) {
        return Ok(i / 4 * 4 + 4);
    }
    push_event(out, first, raw, i)?;
    Ok(i + 1)
}

/// Puts the events of a vector's n values at the end.
fn push_values(
    out: &mut Vec<(MrpEvent, MsrpKey, MsrpContent)>,
    first: &FirstValue,
    raw: &RawVector<'_>,
    n: usize,
) -> Result<(), AllocError>
    requires count { n ≡ length (attr_in raw.now).events }
    requires fits { IsTrue (values_fit first.now (length (attr_in raw.now).events)) }
    ensures { OnOk result (out.new.items ≡ out.old.items
        ++ events_from first.now (attr_in raw.now).params 0 (attr_in raw.now).events) }
{
    let mut i = 0;
    while i < n {
        i = push_value(out, first, raw, i)?;
    }
    Ok(())
}

/// Puts the events of a vector at the end, where its values stay within the fields that are counted
/// up. What is answered is whether they do.
fn push_vector(
    out: &mut Vec<(MrpEvent, MsrpKey, MsrpContent)>,
    t: AttributeType,
    raw: &RawVector<'_>,
) -> Result<bool, AllocError>
    requires { IsTrue (fits_in_place t raw.now) }
    ensures fits { IfOk result (λ fits. fits ≡ is_in_range_in_place t raw.now) }
    ensures events { IfOk result (λ fits. IsTrue fits
        → out.new.items ≡ out.old.items ++ events_in_place t raw.now) }
{
    let first = first_value_of(t, raw.first);
    let n = values_in(raw);
    if !first.values_fit(n) {
        return Ok(false);
    }
    push_values(out, &first, raw, n)?;
    Ok(true)
}

/// Puts the events of vectors of a type at the end, up to the first whose values pass the end of a
/// field. What is answered is its number.
fn push_vectors(
    out: &mut Vec<(MrpEvent, MsrpKey, MsrpContent)>,
    t: AttributeType,
    raws: &[RawVector<'_>],
) -> Result<Option<usize>, AllocError>
    requires { IsTrue (list_all (fits_in_place t) raws.now) }
    ensures past { IfOk result (λ past. past ≡ first_past_in t 0 (attrs_in raws.now)) }
    ensures events { IfOk result (λ past. past ≡ None
        → out.new.items ≡ out.old.items ++ flat_map (events_in_place t) raws.now) }
{
    for (i, raw) in raws.iter().enumerate() {
        if !push_vector(out, t, raw)? {
            return Ok(Some(i));
        }
    }
    Ok(None)
}

/// Puts the events of a Message at the end, up to the first vector whose values pass the end of a
/// field. What is answered is its number.
#[tactic(auto, using(crate::proofs::ReadingLemmas::typed_in_place, crate::proofs::ReadingLemmas::events_meant))]
fn push_message(
    out: &mut Vec<(MrpEvent, MsrpKey, MsrpContent)>,
    raw: &RawMessage<'_>,
) -> Result<Option<usize>, AllocError>
    requires { IsTrue (has_form Msrp (message_in raw.now)) }
    ensures past { IfOk result (λ past. past ≡ message_past (message_in raw.now)) }
    ensures events { IfOk result (λ past. past ≡ None
        → out.new.items ≡ out.old.items ++ message_events (message_in raw.now)) }
{
    match AttributeType::of(raw.kind) {
        None => Ok(None),
        Some(t) => push_vectors(out, t, &raw.vectors),
    }
}

/// Puts the events of Messages at the end, in the order of their octets, up to the first vector
/// whose values pass the end of a field. What is answered is the number of its Message and its own
/// number there.
fn push_messages(
    out: &mut Vec<(MrpEvent, MsrpKey, MsrpContent)>,
    raws: &[RawMessage<'_>],
) -> Result<Option<(usize, usize)>, AllocError>
    requires { IsTrue (list_all (λ m. has_form Msrp (message_in m)) raws.now) }
    ensures past { IfOk result (λ past. past ≡ first_past 0 (map message_in raws.now)) }
    ensures events { IfOk result (λ past. past ≡ None → out.new.items
        ≡ out.old.items ++ flat_map (λ m. message_events (message_in m)) raws.now) }
{
    for (i, raw) in raws.iter().enumerate() {
        if let Some(vector) = push_message(out, raw)? {
            return Ok(Some((i, vector)));
        }
    }
    Ok(None)
}

/// How many vectors Messages have: room for as many events spares most moves of what is read. No
/// clause speaks of room.
fn room_for(raws: &[RawMessage<'_>]) -> usize {
    let mut room: usize = 0;
    for raw in raws {
        room = room.saturating_add(raw.vectors.len());
    }
    room
}

/// The events of a PDU. Where the values of a vector pass the end of a field, the first such vector
/// comes with those before it.
#[tactic(auto, using(crate::proofs::ReadingLemmas::forms_in_place, crate::proofs::ReadingLemmas::messages_meant))]
fn events_of(
    alloc: Global,
    raw: &RawPdu<'_>,
) -> Result<
    (
        Vec<(MrpEvent, MsrpKey, MsrpContent)>,
        Option<(usize, usize)>,
    ),
    NoMemory,
>
    requires { IsTrue (list_all (has_form Msrp) (pdu_in raw.now).messages) }
    ensures past { IfOk result (λ x. x.1 ≡ first_past 0 (pdu_in raw.now).messages) }
    ensures events { IfOk result (λ x. x.1 ≡ None
        → x.0.items ≡ flat_map message_events (pdu_in raw.now).messages) }
{
    let mut out = Vec::with_capacity(alloc, room_for(&raw.messages))?;
    let past = push_messages(&mut out, &raw.messages)?;
    Ok((out, past))
}

/// What a PDU says, of which these are the events.
fn meaning(raw: &RawPdu<'_>, events: Vec<(MrpEvent, MsrpKey, MsrpContent)>) -> MsrpPdu
    requires { events.items ≡ flat_map message_events (pdu_in raw.now).messages }
    ensures { result ≡ meaning (pdu_in raw.now) }
{
    MsrpPdu {
        leave_all: raw.has_leave_all(),
        events: Seq::from_vec(events),
    }
}

/// The place of the FirstValue of a vector.
fn place_in(octets: &[u8], vector: (usize, usize)) -> u32
    requires { length octets.now < 2 ^ 32 }
    ensures { result ≡ place_in octets.now vector }
{
    mrpdu_codec::first_value_at(AppForm::Msrp, octets, vector.0, vector.1).unwrap_or(0)
}

/// What the octets of an MRPDU of MSRP say: whether any vector has a LeaveAll, and the events of
/// keys in the order of the octets. Consecutive values count up through the whole StreamID and the
/// whole destination address, with carry, and through the SRclassID and the SRclassPriority. A
/// Listener whose FourPackedEvent is Ignore gives no event (IEEE Std 802.1Q-2018, 35.2.2). There
/// are fewer than 2^32 octets.
///
/// # Errors
///
/// `Malformed` carries the offset, in octets from 0, of the first field that breaks its rule or
/// that the octets are too short for; where there is none, that of the first FirstValue whose
/// values pass the end of a field that is counted up. `NoMemory` comes where memory for the events
/// runs out.
pub fn decode(alloc: Global, octets: &[u8]) -> Result<MsrpPdu, DecodeErr>
    requires { length octets.now < 2 ^ 32 }

    // What it answers holds.
    ensures reads { (read : MsrpPdu) → result ≡ Ok read → SaysMsrp octets.now read }
    ensures broken { (place : ℕ) → result ≡ Err (errors.Malformed place)
        → MsrpBreaks octets.now place }

    // Want of memory alone is free: else the answer is the reading, which the law
    // `reading_is_the_grammar` says is all that the octets read as and each place where they are
    // malformed.
    ensures exact { Answers result (msrp_reading octets.now) }
{
    mrpdu_codec::first_values_have_places();
    let raw = mrpdu_codec::decode_in_place(alloc, AppForm::Msrp, octets)?;
    let (events, past) = events_of(alloc, &raw)?;
    if let Some(vector) = past {
        return Err(DecodeErr::Malformed(place_in(octets, vector)));
    }
    Ok(meaning(&raw, events))
}
