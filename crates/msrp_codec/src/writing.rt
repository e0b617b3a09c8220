//! The events of keys written as octets.

ghost use Rattle.std.specs.Prelude.{◌≡◌, ◌++◌, [], ◌<◌, ◌≤◌, ◌+◌, ◌*◌, false, List, Ok, ◌==◌, length, map, OnOk, IfOk, if◌then◌else◌};
ghost use Rattle.std.specs.{List.AllByRecursion, Int.bytes_high_first};
ghost use Rattle.mrpdu_codec.specs.declared.form.AppForm.TheVariants.{Msrp};
ghost use Rattle.mrpdu_codec.specs.{Tree.vector_octets, Tree.vectors_octets, Tree.messages_octets, Canonical.vector_for, Canonical.vectors_for, Canonical.message_for};
ghost use Rattle.msrp_codec.specs.AttributeType.{number_of_type, length_of};
ghost use Rattle.msrp_codec.specs.declared.first_value.FirstValue.TheVariants as firsts;
ghost use Rattle.msrp_codec.specs.FirstValue.{IsFirst, rank_bit, talker_octets, failure_octets, first_octets};
ghost use Rattle.msrp_codec.specs.Content.{type_of_content, value_of, kind_number};
ghost use Rattle.msrp_codec.specs.Meaning.{msrp_reading};
ghost use Rattle.msrp_codec.specs.Writing.{has_type, of_type, event_vector, leave_vector, type_vectors, type_messages, list_size, stated_octets, msrp_spelling, as_written, IsWritable};

use crate::attribute_type::AttributeType;
use crate::counts::counts_of;
use crate::pdu::{MsrpContent, MsrpKey, MsrpPdu, class_of, stream_of};
use mrpdu_codec::{put_number, put_vector};
use srp_base::{Failure, ListenerKind, MrpEvent, NoMemory, Rank, Seq, StreamId, Talker};
use std::alloc::Global;

/// PriorityAndRank.
fn priority_and_rank(t: &Talker) -> u8
    ensures { result ≡ t.now.priority * 32 + rank_bit t.now.rank * 16 }
{
    let priority = t.priority.get() * 32;
    match t.rank {
        Rank::Emergency => priority,
        Rank::Normal => priority + 16,
    }
}

/// Writes an octet.
#[tactic(auto, using(crate::proofs::WritingLemmas::one_octet))]
fn put_octet(out: &mut Vec<u8>, octet: u8) -> Result<(), NoMemory>
    ensures { OnOk result (out.new.items ≡ out.old.items ++ bytes_high_first 1 octet) }
{
    out.push(octet)?;
    Ok(())
}

/// Writes a number in two octets.
fn put_two(out: &mut Vec<u8>, number: u16) -> Result<(), NoMemory>
    ensures { OnOk result (out.new.items ≡ out.old.items ++ bytes_high_first 2 number) }
{
    out.extend_from_slice(&number.to_be_bytes())?;
    Ok(())
}

/// Writes a number in four octets.
fn put_four(out: &mut Vec<u8>, number: u32) -> Result<(), NoMemory>
    ensures { OnOk result (out.new.items ≡ out.old.items ++ bytes_high_first 4 number) }
{
    out.extend_from_slice(&number.to_be_bytes())?;
    Ok(())
}

/// Writes a number in eight octets.
fn put_eight(out: &mut Vec<u8>, number: u64) -> Result<(), NoMemory>
    ensures { OnOk result (out.new.items ≡ out.old.items ++ bytes_high_first 8 number) }
{
    out.extend_from_slice(&number.to_be_bytes())?;
    Ok(())
}

/// Writes the fields of a Talker.
fn put_talker(out: &mut Vec<u8>, t: &Talker) -> Result<(), NoMemory>
    ensures { OnOk result (out.new.items ≡ out.old.items ++ talker_octets t.now) }
{
    put_eight(out, t.stream.0)?;
    put_number(out, t.dest.get(), 6)?;
    put_two(out, t.vid)?;
    put_two(out, t.max_frame)?;
    put_two(out, t.frames)?;
    put_octet(out, priority_and_rank(t))?;
    put_four(out, t.latency)?;
    Ok(())
}

/// Writes the fields of a Talker and FailureInformation.
fn put_failed(out: &mut Vec<u8>, t: &Talker, failure: &Failure) -> Result<(), NoMemory>
    ensures { OnOk result (out.new.items
        ≡ out.old.items ++ (talker_octets t.now ++ failure_octets failure.now)) }
{
    put_talker(out, t)?;
    put_eight(out, failure.bridge.0)?;
    put_octet(out, failure.code)?;
    Ok(())
}

/// The FirstValue of a Listener.
fn listener_octets(stream: StreamId) -> [u8; 8]
    ensures { result ≡ first_octets (firsts.Listener stream) }
{
    stream.0.to_be_bytes()
}

/// The FirstValue of a Domain.
#[tactic(auto, using(crate::proofs::WritingLemmas::domain_octets))]
fn domain_octets(class: u8, priority: u8, vid: u16) -> [u8; 4]
    ensures { result ≡ first_octets (firsts.Domain class priority vid) }
{
    let [high, low] = vid.to_be_bytes();
    [class, priority, high, low]
}

/// The FourPackedEvent of what a Listener declares.
fn kind_number(kind: ListenerKind) -> u8
    ensures value { result ≡ kind_number kind }
    ensures small { result ≤ 3 }
{
    match kind {
        ListenerKind::AskingFailed => 1,
        ListenerKind::Ready => 2,
        ListenerKind::ReadyFailed => 3,
    }
}

/// The octets of a FirstValue.
fn length_of(t: AttributeType) -> usize
    ensures { result ≡ length_of t }
{
    match t {
        AttributeType::Advertise => 25,
        AttributeType::Failed => 34,
        AttributeType::Listener => 8,
        AttributeType::Domain => 4,
    }
}

/// Whether an event is of a type.
fn has_type(t: AttributeType, content: &MsrpContent) -> bool
    ensures { result ≡ (number_of_type (type_of_content content.now) == number_of_type t) }
{
    content.attribute_type().number() == t.number()
}

/// Writes the vector of an event alone. The FirstValue of a Talker is put together in a buffer.
fn put_event(
    out: &mut Vec<u8>,
    first: &mut Vec<u8>,
    leave_all: bool,
    event: &(MrpEvent, MsrpKey, MsrpContent),
) -> Result<(), NoMemory>
    ensures { OnOk result (out.new.items
        ≡ out.old.items ++ vector_octets (vector_for (event_vector leave_all event.now))) }
{
    first.clear();
    match event.2 {
        MsrpContent::Advertise(t) => {
            put_talker(first, &t)?;
            put_vector(out, leave_all, first, &[event.0], &[])
        }
        MsrpContent::Failed(t, failure) => {
            put_failed(first, &t, &failure)?;
            put_vector(out, leave_all, first, &[event.0], &[])
        }
        MsrpContent::Listener(kind) => {
            let stream = listener_octets(stream_of(event.1));
            put_vector(out, leave_all, &stream, &[event.0], &[kind_number(kind)])
        }
        MsrpContent::Domain { priority, vid } => {
            let domain = domain_octets(class_of(event.1), priority, vid);
            put_vector(out, leave_all, &domain, &[event.0], &[])
        }
    }
}

/// Writes the vector of a LeaveAll alone.
fn put_leave(out: &mut Vec<u8>, t: AttributeType) -> Result<(), NoMemory>
    ensures { OnOk result (out.new.items
        ≡ out.old.items ++ vector_octets (vector_for (leave_vector t))) }
{
    match t {
        AttributeType::Advertise => put_vector(out, true, &[0; 25], &[], &[]),
        AttributeType::Failed => put_vector(out, true, &[0; 34], &[], &[]),
        AttributeType::Listener => put_vector(out, true, &[0; 8], &[], &[]),
        AttributeType::Domain => put_vector(out, true, &[0; 4], &[], &[]),
    }
}

/// Writes the vector of an event, if it is of a type. What is answered is whether the LeaveAll is
/// still to be written.
fn put_if_typed(
    out: &mut Vec<u8>,
    first: &mut Vec<u8>,
    leave_all: bool,
    t: AttributeType,
    event: &(MrpEvent, MsrpKey, MsrpContent),
) -> Result<bool, NoMemory>
    ensures octets { OnOk result (out.new.items
        ≡ out.old.items
        ++ (if has_type t event.now then vector_octets
        (vector_for (event_vector leave_all event.now)) else [])) }
    ensures leave { IfOk result (λ leave. leave
        ≡ if has_type t event.now then false else leave_all) }
{
    if !has_type(t, &event.2) {
        return Ok(leave_all);
    }
    put_event(out, first, leave_all, event)?;
    Ok(false)
}

/// Writes the vectors of a type's events.
fn put_vectors(
    out: &mut Vec<u8>,
    first: &mut Vec<u8>,
    leave_all: bool,
    t: AttributeType,
    events: &[(MrpEvent, MsrpKey, MsrpContent)],
) -> Result<(), NoMemory>
    ensures { OnOk result (out.new.items
        ≡ out.old.items
        ++ vectors_octets (vectors_for (type_vectors leave_all t (of_type t events.now)))) }
{
    let mut leave = leave_all;
    for event in events {
        leave = put_if_typed(out, first, leave, t, event)?;
    }
    if leave {
        put_leave(out, t)?;
    }
    Ok(())
}

/// The events to look through for those of a type, of which there are n.
#[tactic(auto, using(crate::proofs::CountLemmas::none_typed))]
fn where_typed<'a>(
    t: AttributeType,
    n: usize,
    events: &'a [(MrpEvent, MsrpKey, MsrpContent)],
) -> &'a [(MrpEvent, MsrpKey, MsrpContent)]
    requires { n ≡ length (of_type t events.now) }
    ensures { of_type t result.now ≡ of_type t events.now }
{
    if n == 0 { &[] } else { events }
}

/// How many octets the vectors of a type's events take, where so many events are of the type.
fn list_size(leave_all: bool, t: AttributeType, n: usize) -> usize
    requires { n ≤ 1500 }
    ensures size { result ≡ list_size leave_all t n }
    ensures small { result ≤ 60000 }
{
    if n == 0 {
        return if leave_all { 2 + length_of(t) } else { 0 };
    }
    match t {
        AttributeType::Advertise => n * 28,
        AttributeType::Failed => n * 37,
        AttributeType::Listener => n * 12,
        AttributeType::Domain => n * 7,
    }
}

/// Writes the Message of a type, of which there are n events, if it has one.
fn put_type(
    out: &mut Vec<u8>,
    first: &mut Vec<u8>,
    leave_all: bool,
    t: AttributeType,
    n: usize,
    events: &[(MrpEvent, MsrpKey, MsrpContent)],
) -> Result<(), NoMemory>
    requires count { n ≡ length (of_type t events.now) }
    requires few { n ≤ 1500 }
    ensures { OnOk result (out.new.items
        ≡ out.old.items
        ++ messages_octets (map (message_for Msrp) (type_messages leave_all events.now t))) }
{
    mrpdu_codec::written_list_size();
    mrpdu_codec::numbers_are_read_back();
    let size = list_size(leave_all, t, n);
    if size == 0 {
        return Ok(());
    }
    out.push(t.number())?;
    out.push(length_of(t) as u8)?;
    put_number(out, (size + 2) as u64, 2)?;
    put_vectors(out, first, leave_all, t, where_typed(t, n, events))?;
    out.extend_from_slice(&[0, 0])?;
    Ok(())
}

/// The octets of a PDU.
fn written(
    alloc: Global,
    leave_all: bool,
    events: &[(MrpEvent, MsrpKey, MsrpContent)],
) -> Result<Vec<u8>, NoMemory>
    requires { stated_octets events.now ≤ 1500 }
    ensures octets { IfOk result (λ v. v.items
        ≡ msrp_spelling (record { leave_all = leave_all; events = events.now })) }
    ensures in_range { OnOk result (AllByRecursion (λ x. IsFirst (value_of x.1 x.2)) events.now) }
{
    let counts = counts_of(events);
    let mut out = Vec::with_capacity(alloc, counts.room())?;
    let mut first = Vec::with_capacity(alloc, 34)?;
    out.push(0)?;
    put_type(
        &mut out,
        &mut first,
        leave_all,
        AttributeType::Advertise,
        counts.advertised,
        events,
    )?;
    put_type(
        &mut out,
        &mut first,
        leave_all,
        AttributeType::Failed,
        counts.failed,
        events,
    )?;
    put_type(
        &mut out,
        &mut first,
        leave_all,
        AttributeType::Listener,
        counts.listeners,
        events,
    )?;
    put_type(
        &mut out,
        &mut first,
        leave_all,
        AttributeType::Domain,
        counts.domains,
        events,
    )?;
    out.extend_from_slice(&[0, 0])?;
    Ok(out)
}

/// The octets that say a LeaveAll and the events of keys (IEEE Std 802.1Q-2018, 10.8.1.2, 35.2.2):
/// a Message for each type that has an event or that the LeaveAll asks for, types ascending, and in
/// it a vector for each event, in the order given. Where keys ascend this is the canonical
/// encoding. With a LeaveAll the first vector of each of the four types has it. There has to be a
/// LeaveAll or an event, each content has to belong to its key, and the stated octets of all events
/// may be at most 1,500 with the base of 106.
///
/// # Errors
///
/// `NoMemory` where memory for the octets runs out.
pub fn encode(alloc: Global, pdu: &MsrpPdu) -> Result<Seq<u8>, NoMemory>
    requires { IsWritable pdu.now }
    ensures spelled { IfOk result (λ octets. octets ≡ msrp_spelling pdu.now) }

    // They read as what was written: the same LeaveAll, and the same events in the order of types.
    ensures read_back { IfOk result (λ octets. msrp_reading octets ≡ Ok (as_written pdu.now)) }
    ensures few { IfOk result (λ octets. length octets ≤ 1500) }
{
    let octets = written(alloc, pdu.leave_all, pdu.events.as_slice())?;
    mrpdu_codec::written_is_read();
    mrpdu_codec::written_size();
    mrpdu_codec::written_list_size();
    mrpdu_codec::numbers_are_read_back();
    Ok(Seq::from_vec(octets))
}
