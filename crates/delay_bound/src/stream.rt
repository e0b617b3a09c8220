//! What a Talker may send of a stream, and whether it did.

ghost use Rattle.std.specs.Prelude.{◌≡◌, ◌*◌, ◌^◌, ◌<◌, ◌≤◌, ◌↔◌, IsTrue};
ghost use Rattle.delay_bound.specs.Bounds.{second};
ghost use Rattle.delay_bound.specs.Frames.{IsInOrder, DoConform};
ghost use Rattle.delay_bound.specs.Levels.{IsNext};

use srp_base::{NodeNo, Ps, StreamId};

/// What a Talker may send of a stream (IEEE Std 802.1Q-2018, 35.2.2.8.4: the TSpec, in bits on the
/// line).
#[derive(Clone, Copy, PartialEq, Eq)]
pub struct StreamLimits {
    /// The bits of its longest frame.
    pub most: u64,
    /// The bits that it may send at once: its frames of one interval.
    pub burst: u64,
    /// What it may send in time, in bit/s.
    pub slope: u64,
}

/// A stream of a class, as bounds are reckoned for it.
#[derive(Clone, Copy, PartialEq, Eq)]
pub struct ClassStream {
    /// Its StreamID.
    pub id: StreamId,
    /// Its Talker's station.
    pub talker: NodeNo,
    /// What its Talker may send.
    pub limits: StreamLimits,
    /// The bits of the least of its frames.
    pub least: u64,
}

/// A frame of a stream as its Talker sent it.
#[derive(Clone, Copy, PartialEq, Eq)]
pub struct SentFrame {
    /// The moment, in ps.
    pub at: Ps,
    /// Its length on the line in bits.
    pub bits: u64,
}

/// Whether frames stand in order of moment.
pub fn are_in_order(frames: &[SentFrame]) -> bool
    ensures { IsTrue result ↔ IsInOrder frames.now }
{
    for i in 1..frames.len() {
        if frames[i].at.0 < frames[i - 1].at.0 {
            return false;
        }
    }
    true
}

/// Whether a stream's frames, in order of moment, conform to its limits: none is longer than the
/// longest, and from each of them through itself or a later one the bits of both and of those
/// between are at most the burst and what the slope gives between the two moments. It is exact, and
/// reads each frame once.
pub fn conforms(limits: &StreamLimits, frames: &[SentFrame]) -> bool
    requires { IsInOrder frames.now }
    ensures { IsTrue result ↔ DoConform limits.now frames.now }
{
    let mut bucket = Bucket { level: 0, at: 0 };
    for frame in frames {
        match bucket.with(limits, frame) {
            Some(next) => bucket = next,
            None => return false,
        }
    }
    true
}

/// A bucket into which a stream's frames go and out of which its slope runs: the most that any
/// frames next to each other up to now have over what the slope gave since the first of them.
#[derive(Clone, Copy)]
pub(crate) struct Bucket {
    /// In bits × 10^12.
    level: u128,
    /// The moment of the last frame, in ps.
    at: u64,
}

impl Bucket {
    /// The bucket with one frame more; None where the frame is longer than the longest, or makes it
    /// higher than the burst.
    fn with(self, limits: &StreamLimits, frame: &SentFrame) -> Option<Bucket>
        requires { self.level ≤ limits.now.burst * second }
        ensures { IsNext limits.now self frame.now result }
    {
        let most = weighed(limits.burst);
        let own = weighed(frame.bits);
        let run_out = u128::from(limits.slope) * u128::from(frame.at.0.saturating_sub(self.at));
        let level = own + self.level.saturating_sub(run_out);
        if frame.bits <= limits.most && level <= most {
            Some(Bucket {
                level,
                at: frame.at.0,
            })
        } else {
            None
        }
    }
}

/// So many bits, in bits × 10^12.
fn weighed(bits: u64) -> u128
    ensures value { result ≡ bits * second }
    ensures small { result < 2 ^ 104 }
{
    u128::from(bits) * 1_000_000_000_000
}
