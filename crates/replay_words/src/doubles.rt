//! Streams of which one PDU declares a Talker Advertise and a Talker Failed.

ghost use Rattle.std.specs.Prelude.{◌≡◌, ◌++◌, if◌then◌else◌, length, filter, flat_map, IfOk, OnOk, string_bytes};
ghost use Rattle.attribute_propagation.specs.Dirty.{all_marked};
ghost use Rattle.msrp.specs.Part.{stream_cmp};
ghost use Rattle.replay_words.specs.Doubles.{is_declaring, advertised_in, advertised, is_failed_of, is_double, double_text, doubles_text, doubles_count};

use crate::lines::write_double;
use attribute_propagation::Dirty;
use link_replay::End;
use msrp_codec::{MsrpContent, MsrpKey};
use srp_base::{Cs, MrpEvent, NoMemory, StreamId};
use std::alloc::Global;

/// An event of MSRP: of a key, with what it declares.
pub(crate) type StreamEvent = (MrpEvent, MsrpKey, MsrpContent);

/// Says of which streams the events of a PDU of an end declare both. Answers how many there are.
#[tactic(auto, unfolding(crate::specs::Doubles::doubles_text, crate::specs::Doubles::doubles_count))]
pub(crate) fn write_doubles(
    alloc: Global,
    out: &mut String,
    at: Cs,
    who: End,
    events: &[StreamEvent],
) -> Result<u64, NoMemory>
    ensures text { OnOk result (string_bytes out.new
        ≡ string_bytes out.old ++ doubles_text at who events.now) }
    ensures count { IfOk result (λ n. n ≡ doubles_count events.now) }
{
    let streams = advertised(alloc, events)?;
    write_among(out, at, who, &streams, events)
}

// Says which events declare a Talker Failed of one of some streams. Answers how many do.
fn write_among(
    out: &mut String,
    at: Cs,
    who: End,
    streams: &Dirty<StreamId>,
    events: &[StreamEvent],
) -> Result<u64, NoMemory>
    ensures text { OnOk result (string_bytes out.new ≡ string_bytes out.old
        ++ flat_map (double_text at who streams.now.keys) events.now) }
    ensures count { IfOk result (λ n. n
        ≡ length (filter (is_double streams.now.keys) events.now)) }
{
    let mut count: u64 = 0;
    for event in events {
        count += write_one(out, at, who, streams, event)?;
    }
    Ok(count)
}

// The same of one event. Answers 1 where it does, else 0.
fn write_one(
    out: &mut String,
    at: Cs,
    who: End,
    streams: &Dirty<StreamId>,
    event: &StreamEvent,
) -> Result<u64, NoMemory>
    ensures text { OnOk result (string_bytes out.new
        ≡ string_bytes out.old ++ double_text at who streams.now.keys event.now) }
    ensures count { IfOk result (λ n. n
        ≡ (if is_double streams.now.keys event.now then 1 else 0)) }
{
    if !is_double(streams, event) {
        return Ok(0);
    }
    write_double(out, at, who, event.1)?;
    Ok(1)
}

// Whether an event declares a Talker Failed of one of some streams.
#[tactic(auto, unfolding(crate::specs::Doubles::is_double))]
fn is_double(streams: &Dirty<StreamId>, event: &StreamEvent) -> bool
    ensures { result ≡ is_double streams.now.keys event.now }
{
    is_declaring(event.0) && is_failed_of(streams, event.2)
}

// Whether a content is a Talker Failed of one of some streams.
fn is_failed_of(streams: &Dirty<StreamId>, content: MsrpContent) -> bool
    ensures { result ≡ is_failed_of streams.now.keys content }
{
    match content {
        MsrpContent::Failed(talker, _) => streams.awaits(talker.stream),
        MsrpContent::Advertise(_) => false,
        MsrpContent::Listener(_) => false,
        MsrpContent::Domain { .. } => false,
    }
}

/// Whether an event declares its attribute.
pub(crate) fn is_declaring(event: MrpEvent) -> bool
    ensures { result ≡ is_declaring event }
{
    match event {
        MrpEvent::New | MrpEvent::JoinIn | MrpEvent::JoinMt => true,
        MrpEvent::OnlyIn | MrpEvent::OnlyMt | MrpEvent::Lv => false,
    }
}

/// The streams that the events of a PDU advertise, each once.
pub(crate) fn advertised(alloc: Global, events: &[StreamEvent]) -> Result<Dirty<StreamId>, NoMemory>
    ensures { IfOk result (λ streams. streams.keys ≡ advertised events.now) }
{
    let mut streams = Dirty::new(alloc);
    for event in events {
        mark_advertised(&mut streams, event)?;
    }
    Ok(streams)
}

// Keeps the stream that an event advertises.
#[tactic(auto, unfolding(crate::specs::Doubles::advertised_in))]
fn mark_advertised(streams: &mut Dirty<StreamId>, event: &StreamEvent) -> Result<(), NoMemory>
    ensures { OnOk result (streams.new.keys
        ≡ all_marked stream_cmp (advertised_in event.now) streams.old.keys) }
{
    if !is_declaring(event.0) {
        return Ok(());
    }
    match event.2 {
        MsrpContent::Advertise(talker) => streams.mark(talker.stream),
        MsrpContent::Failed(_, _) => Ok(()),
        MsrpContent::Listener(_) => Ok(()),
        MsrpContent::Domain { .. } => Ok(()),
    }
}
