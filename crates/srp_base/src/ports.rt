//! What a port is set up with, and what it has had in force over a run.

use crate::bandwidth::{Percent, Rate};
use crate::list::Seq;
use crate::numbers::{Cs, EgressPort, StreamId, Vid};

/// What a port of a node is set up with.
#[derive(Clone, Copy, PartialEq, Eq)]
pub struct PortSetup {
    /// The rate of the port's link.
    pub rate: Rate,
    /// The share of the rate that class A may take (IEEE Std 802.1Q-2018, 34.3).
    pub delta_a: Percent,
    /// The share that class B may take beside it.
    pub delta_b: Percent,
    /// The latency in ns that the port adds to a Talker's.
    pub latency: u32,
    /// The time between two LeaveAlls, in cs (IEEE Std 802.1Q-2018, 10.7.4.3).
    pub period: Cs,
}

/// What is in force at a port from one tick's steps on: the streams that are booked there, their
/// slopes, and the VIDs that are registered there.
#[derive(Clone, PartialEq, Eq, Drop)]
pub struct PortChange {
    /// The port.
    pub at: EgressPort,
    /// The tick.
    pub tick: u64,
    /// The booked streams, ascending.
    pub booked: Seq<StreamId>,
    /// The booked slopes of class A together, in bit/s.
    pub slope_a: u64,
    /// The booked slopes of class B together, in bit/s.
    pub slope_b: u64,
    /// The registered VIDs, ascending.
    pub vids: Seq<Vid>,
}

/// The changes of all ports over a run, ascending by port and tick. A port without a change so far
/// has nothing booked and no VID.
#[derive(Clone, PartialEq, Eq, Drop)]
pub struct Timeline {
    /// The changes.
    pub changes: Seq<PortChange>,
}
