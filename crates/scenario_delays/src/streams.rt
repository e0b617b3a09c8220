//! The streams of a scenario by their classes.

ghost use Rattle.std.specs.Prelude.{◌≡◌, ◌<◌, ◌^◌, min, IfOk, IfSome, IfNone};
ghost use Rattle.scenario_frames.specs.PlanFrames.{line_bits as line_bits_spec, plan_frames};
ghost use Rattle.scenario_delays.specs.Streams.{is_of_class as is_of_class_spec, least_bits as least_bits_spec, frames_of_stream, limits_of as limits_of_spec, stream_in as stream_in_spec, streams_in as streams_in_spec};

use crate::conform::is_of_stream;
use delay_bound::{ClassStream, StreamLimits};
use frame_flow::Frame;
use msrp_talker::class_of;
use srp_base::{Class, NoMemory, StreamId};
use std::alloc::Global;
use stream_importance::slope_of;
use topology_file::{Scenario, StreamEntry};

/// The streams of a class, in the order of the file: what the Talker of each may send, and the bits
/// of the least of its frames among those of the scenario, or of the longest that it may send where
/// it has none.
pub fn streams_in(
    alloc: Global,
    scenario: &Scenario,
    frames: &[Frame],
    class: Class,
) -> Result<Vec<ClassStream>, NoMemory>
    requires { frames.now ≡ plan_frames scenario.now }
    ensures { IfOk result (λ v. v.items ≡ streams_in_spec class scenario.now) }
{
    let mut found = Vec::new(alloc);
    for entry in scenario.streams.as_slice() {
        if is_of_class(entry, class) {
            found.push(stream_in(class, frames, entry))?;
        }
    }
    Ok(found)
}

/// Whether a stream is of a class, by its priority (IEEE Std 802.1Q-2018, 34.5).
fn is_of_class(entry: &StreamEntry, class: Class) -> bool
    ensures { result ≡ is_of_class_spec class entry.now }
{
    match (class, class_of(entry.priority.get())) {
        (Class::A, Some(Class::A)) | (Class::B, Some(Class::B)) => true,
        _ => false,
    }
}

/// A stream of a class, with the least of its frames among some.
pub(crate) fn stream_in(class: Class, frames: &[Frame], entry: &StreamEntry) -> ClassStream
    ensures { result ≡ stream_in_spec class frames.now entry.now }
{
    let limits = limits_of(class, entry);
    ClassStream {
        id: entry.id,
        talker: entry.talker,
        limits,
        least: least_bits(limits.most, entry.id, frames),
    }
}

/// What the Talker of a stream may send of it (35.2.2.8.4, 34.4).
fn limits_of(class: Class, entry: &StreamEntry) -> StreamLimits
    ensures { result ≡ limits_of_spec class entry.now }
{
    let most = line_bits(entry.octets);
    StreamLimits {
        most,
        burst: u64::from(entry.frames) * most,
        slope: slope_of(class, entry.octets, entry.frames),
    }
}

/// The bits on the line of the longest frame of so many octets (34.4).
fn line_bits(octets: u16) -> u64
    ensures value { result ≡ line_bits_spec octets }
    ensures small { result < 2 ^ 20 }
{
    (u64::from(octets) + 42) * 8
}

/// The bits of the least of a stream's frames among some; so many where it has none.
fn least_bits(most: u64, id: StreamId, frames: &[Frame]) -> u64
    ensures { result ≡ least_bits_spec most (frames_of_stream id frames.now) }
{
    let mut least = None;
    for frame in frames {
        if is_of_stream(frame, id) {
            least = Some(lesser(least, frame.bits));
        }
    }
    match least {
        Some(bits) => u64::from(bits),
        None => most,
    }
}

/// The lesser of two numbers, where there is a first.
fn lesser(one: Option<u32>, other: u32) -> u32
    ensures some { IfSome one (λ n. result ≡ min n other) }
    ensures none { IfNone one (result ≡ other) }
{
    match one {
        Some(n) => n.min(other),
        None => other,
    }
}
