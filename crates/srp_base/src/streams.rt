//! What Talkers and Listeners declare of a stream (IEEE Std 802.1Q-2018, 35.2.2.8).

ghost use Rattle.std.specs.Prelude.{◌≡◌, ◌≤◌, ◌↔◌, IsSome, IfSome};

use crate::bandwidth::Rank;
use crate::numbers::{BridgeId, Mac, StreamId};
use std::marker::Model;

/// A priority, 0 to 7: the three high bits of PriorityAndRank (IEEE Std 802.1Q-2018, 35.2.2.8.5).
/// Contracts see the number.
#[derive(Clone, Copy, PartialEq, Eq, PartialOrd, Ord)]
pub struct Priority {
    number: u8,
}

impl Model for Priority {
    ghost use Rattle.std.specs.Prelude.{ℕ, ◌≤◌};

    ghost Value = { ℕ };

    ghost view = { λ p. p.number };

    ghost invariant = { λ p. p.number ≤ 7 };

    ghost inverse = { λ n. record { number = n } };
}

impl Priority {
    /// The priority of this number; None exactly above 7.
    pub fn new(number: u8) -> Option<Priority>
        ensures valid { IsSome result ↔ (number ≤ 7) }
        ensures value { IfSome result (λ p. p ≡ number) }
    {
        if number <= 7 {
            Some(Priority { number })
        } else {
            None
        }
    }

    /// The number, 0 to 7.
    pub fn get(self) -> u8
        ensures value { result ≡ self }
        ensures in_range { result ≤ 7 }
    {
        self.number
    }
}

/// What a Listener declares of a stream: FourPackedEvents 1 to 3 (IEEE Std 802.1Q-2018,
/// 35.2.2.7.2).
#[derive(Clone, Copy, PartialEq, Eq, PartialOrd, Ord)]
pub enum ListenerKind {
    /// No Listener behind can have the stream.
    AskingFailed,
    /// Every Listener behind can have it.
    Ready,
    /// Some can and some can't.
    ReadyFailed,
}

/// What a Talker declares of its stream (IEEE Std 802.1Q-2018, 35.2.2.8.2 to 35.2.2.8.6).
#[derive(Clone, Copy, PartialEq, Eq)]
pub struct Talker {
    /// The StreamID.
    pub stream: StreamId,
    /// The destination address of the stream's frames.
    pub dest: Mac,
    /// The VID of the stream's frames, any number of 16 bits.
    pub vid: u16,
    /// MaxFrameSize, the most octets of a frame's data.
    pub max_frame: u16,
    /// MaxIntervalFrames, the most frames in a class measurement interval.
    pub frames: u16,
    /// The priority of the stream's frames.
    pub priority: Priority,
    /// The rank.
    pub rank: Rank,
    /// The accumulated latency in ns.
    pub latency: u32,
}

/// Why a Talker failed, and where (IEEE Std 802.1Q-2018, 35.2.2.8.7).
#[derive(Clone, Copy, PartialEq, Eq)]
pub struct Failure {
    /// The bridge that refused.
    pub bridge: BridgeId,
    /// The failure code; any number is carried.
    pub code: u8,
}

/// What is registered, or declared, of a Talker at a port.
#[derive(Clone, Copy, PartialEq, Eq)]
pub enum TalkerReg {
    /// No Talker.
    Absent,
    /// Talker Advertise.
    Advertise(Talker),
    /// Talker Failed, with why.
    Failed(Talker, Failure),
}
