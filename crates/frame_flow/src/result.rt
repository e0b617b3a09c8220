//! What a flow is: of each port what its shaper is given, and what becomes of each copy.

use credit_shaper::PortInput;
use srp_base::{EgressPort, Seq};

/// What becomes of a copy of a frame at a port.
#[derive(Clone, Copy, PartialEq, Eq)]
pub enum Fate {
    /// It is a stream's, and the port hasn't booked the stream; it is dropped.
    Unbooked,
    /// Its VID isn't registered at the port; it is dropped.
    NoVlan,
    /// The port sends it, from one bit time to before another, in bit times of the port.
    Departed {
        /// The bit time of its first bit.
        start: u64,
        /// The bit time after its last bit.
        end: u64,
    },
    /// It hasn't started at the run's end.
    Left,
}

/// The flow at a port.
#[derive(Clone, PartialEq, Eq, Drop)]
pub struct PortFlow {
    /// The port.
    pub at: EgressPort,
    /// What its shaper is given.
    pub input: PortInput,
    /// The number and the fate of each copy that arrives, by bit time and then by number.
    pub fates: Seq<(u32, Fate)>,
}

/// The flow at every port, link by link, the end `a` first.
#[derive(Clone, PartialEq, Eq, Drop)]
pub struct FlowResult {
    /// The ports' flows.
    pub ports: Seq<PortFlow>,
}
