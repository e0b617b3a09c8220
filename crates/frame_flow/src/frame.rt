//! The frames that a flow is of, and their copies at ports.

ghost use Rattle.std.specs.Prelude.{◌≡◌};

use credit_shaper::Traffic;
use srp_base::{NodeNo, Ps, StreamId};
use std::marker::Model;

/// Where a frame goes.
#[derive(Clone, Copy, PartialEq, Eq)]
pub enum Route {
    /// A frame of a stream, with the traffic of the stream's priority: wherever the stream is
    /// booked.
    Stream(StreamId, Traffic),
    /// A frame to a station: along the path to it. It is of no SR class.
    To(NodeNo),
}

/// A frame that a station sends. The wider fields stand first, so that a list of many frames stays
/// small.
#[derive(Clone, Copy, PartialEq, Eq)]
pub struct Frame {
    /// The moment at which it reaches the station's own port, in ps from the run's start.
    pub at: Ps,
    /// Where it goes.
    pub route: Route,
    /// Its number; no two frames have one.
    pub number: u32,
    /// Its length on the line in bits, with preamble and gap: 336 to 12,336.
    pub bits: u32,
    /// The station.
    pub from: NodeNo,
    /// Its VID.
    pub vid: u16,
}

/// A copy of a frame at a port.
#[derive(Clone, Copy, PartialEq, Eq)]
pub struct FrameCopy {
    /// The bit time in which it arrives, in bit times of that port from the run's start.
    pub bit: u64,
    /// The frame.
    pub frame: Frame,
}

/// A copy of a frame at a port, by a reference to the frame, so that a list of many copies stays
/// small. Contracts see a `FrameCopy`.
#[derive(Drop)]
pub(crate) struct CopyOf<'a> {
    bit: u64,
    frame: &'a Frame,
}

impl<'a> Model for CopyOf<'a> {
    ghost use Rattle.frame_flow.specs.declared.frame.FrameCopy.{FrameCopy};

    ghost Value = { FrameCopy };

    ghost view = { λ c. record { bit = c.bit; frame = c.frame.now } };
}

impl<'a> CopyOf<'a> {
    /// The copy of a frame that arrives in this bit time.
    pub(crate) fn new(bit: u64, frame: &'a Frame) -> CopyOf<'a>
        ensures { result ≡ record { bit = bit; frame = frame.now } }
    {
        CopyOf { bit, frame }
    }

    /// The bit time in which it arrives.
    pub(crate) fn bit(&self) -> u64
        ensures { result ≡ self.now.bit }
    {
        self.bit
    }

    /// The frame.
    pub(crate) fn frame(&self) -> &'a Frame
        ensures { result.now ≡ self.now.frame }
    {
        self.frame
    }
}
