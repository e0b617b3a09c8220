//! How long frames of a stream took from their moments through a port.

ghost use Rattle.std.specs.Prelude.{◌≡◌, length, map, option_map, filter_map};
ghost use Rattle.std.specs.List.{range_with_len};
ghost use Rattle.frame_flow.specs.{Copies.frame_of as frame_of_spec, Moments.moment_of as moment_of_spec};
ghost use Rattle.delay_report.specs.Seen.{longest_of, taken_by as taken_by_spec, taken_in as taken_in_spec};

use frame_flow::{Fate, Frame, PortFlow};
use scenario_delays::is_of_stream;
use srp_base::{Rate, StreamId};

/// How many frames of a stream departed at a port, and how long the longest of them took, in ps.
#[derive(Clone, Copy)]
pub(crate) struct Seen {
    /// How many.
    pub(crate) frames: usize,
    /// The longest time, or 0.
    pub(crate) longest: u128,
}

impl Seen {
    /// None departed.
    pub(crate) fn none() -> Seen
        ensures frames { result.frames ≡ 0 }
        ensures longest { result.longest ≡ 0 }
    {
        Seen {
            frames: 0,
            longest: 0,
        }
    }
}

/// How many frames of a stream departed at a port, and how long they took; the frames are numbered
/// from 1.
pub(crate) fn seen_in(stream: StreamId, frames: &[Frame], flow: &PortFlow) -> Seen
    requires { map (λ f. f.number) frames.now ≡ range_with_len 1 (length frames.now) }
    ensures frames { result.frames
        ≡ length (filter_map (taken_in_spec stream frames.now flow.now.input.rate) flow.now.fates) }
    ensures longest { result.longest
        ≡ longest_of (filter_map (taken_in_spec stream frames.now flow.now.input.rate) flow.now.fates) }
{
    let mut seen = Seen::none();
    for (number, fate) in flow.fates.as_slice() {
        if let Some(time) = taken_in(stream, frames, flow.input.rate, *number, *fate) {
            seen = Seen {
                frames: seen.frames + 1,
                longest: seen.longest.max(time),
            };
        }
    }
    seen
}

/// How long a copy took, where its frame is one of a stream and it departed.
fn taken_in(stream: StreamId, frames: &[Frame], rate: Rate, number: u32, fate: Fate) -> Option<u128>
    requires { map (λ f. f.number) frames.now ≡ range_with_len 1 (length frames.now) }
    ensures { result ≡ taken_in_spec stream frames.now rate (number, fate) }
{
    match fate {
        Fate::Departed { start: _, end } => {
            taken_by(stream, moment_of(rate, end), frame_of(frames, number)?)
        }
        Fate::Unbooked | Fate::NoVlan | Fate::Left => None,
    }
}

/// How long a frame took until a moment, where it is one of a stream.
fn taken_by(stream: StreamId, moment: u128, frame: &Frame) -> Option<u128>
    ensures { result ≡ taken_by_spec stream moment frame.now }
{
    if is_of_stream(frame, stream) {
        Some(moment.saturating_sub(u128::from(frame.at.0)))
    } else {
        None
    }
}

/// The moment at which a bit time begins, in ps.
fn moment_of(rate: Rate, bit: u64) -> u128
    ensures { result ≡ moment_of_spec rate bit }
{
    u128::from(bit) * u128::from(rate.bit_ps())
}

/// The frame of a number.
fn frame_of(frames: &[Frame], number: u32) -> Option<&Frame>
    requires { map (λ f. f.number) frames.now ≡ range_with_len 1 (length frames.now) }
    ensures { option_map (λ f. f.now) result ≡ frame_of_spec frames.now number }
{
    let place = (number as usize).checked_sub(1)?;
    frames.get(place)
}
