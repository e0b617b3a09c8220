//! Whether a stream's frames conform to what its Talker may send.

ghost use Rattle.std.specs.Prelude.{◌≡◌, map, IfOk};
ghost use Rattle.delay_bound.specs.Frames.{IsInOrder};
ghost use Rattle.delay_flow.specs.{Streams.is_route_of, Ways.sent_frame as sent_frame_spec};
ghost use Rattle.scenario_delays.specs.Conform.{AreInOrder, IsConformity};
ghost use Rattle.scenario_delays.specs.Streams.{frames_of_stream};

use delay_bound::{SentFrame, StreamLimits, conforms};
use frame_flow::{Frame, Route};
use srp_base::{NoMemory, StreamId};
use std::alloc::Global;

/// Whether the frames of a stream among some, which ascend by number, conform to its limits, in
/// order of moment, then number; None where it has none.
pub fn conformity(
    alloc: Global,
    id: StreamId,
    limits: &StreamLimits,
    frames: &[Frame],
) -> Result<Option<bool>, NoMemory>
    ensures { IfOk result (IsConformity limits.now (frames_of_stream id frames.now)) }
{
    let frames = sent_of_stream(alloc, id, frames)?;
    if frames.is_empty() {
        return Ok(None);
    }
    let sent = in_order(frames)?;
    Ok(Some(conforms(limits, &sent)))
}

/// The frames of a stream, as they are sent.
fn sent_of_stream(alloc: Global, id: StreamId, frames: &[Frame]) -> Result<Vec<SentFrame>, NoMemory>
    ensures { IfOk result (λ v. v.items ≡ map sent_frame_spec (frames_of_stream id frames.now)) }
{
    let mut found = Vec::new(alloc);
    for frame in frames {
        if is_of_stream(frame, id) {
            found.push(sent_frame(frame))?;
        }
    }
    Ok(found)
}

/// Frames in order of moment, those of one moment as they stand.
fn in_order(frames: Vec<SentFrame>) -> Result<Vec<SentFrame>, NoMemory>
    ensures order { IfOk result (λ v. AreInOrder frames.items v.items) }
    ensures moments { IfOk result (λ v. IsInOrder v.items) }
{
    let mut sent = frames;
    sent.sort_by_key(|f| f.at.0)?;
    Ok(sent)
}

/// Whether a frame is one of a stream.
pub fn is_of_stream(frame: &Frame, id: StreamId) -> bool
    ensures { result ≡ is_route_of id frame.now.route }
{
    match frame.route {
        Route::Stream(stream, _) => stream == id,
        Route::To(_) => false,
    }
}

/// A frame as it is sent.
fn sent_frame(frame: &Frame) -> SentFrame
    ensures { result ≡ sent_frame_spec frame.now }
{
    SentFrame {
        at: frame.at,
        bits: u64::from(frame.bits),
    }
}
