//! What happens in a network, and what it answers.

use node_core::{AppRequest, PortStep, StepReply, Wire};
use srp_base::{EgressPort, NodeNo, PortNo};

/// What happens in a network. The port of a loss, of a copy and of a forgery is the receiving one.
#[derive(Clone, PartialEq, Eq, Drop)]
pub enum WorldEvent {
    /// The application of a station asks for something.
    Request(NodeNo, AppRequest),
    /// A link port of a node makes a step.
    Port(NodeNo, PortNo, PortStep),
    /// The PDU with this index, counted from 0, is lost from a port's inbox.
    Lose(EgressPort, u32),
    /// The PDU with this index is in a port's inbox twice.
    Repeat(EgressPort, u32),
    /// A PDU of at most 1,500 octets that no neighbour sent stands at this index in a port's inbox,
    /// before the one that had it.
    Forge(EgressPort, u32, Wire),
    /// The PDUs of a port's outbox come in at its peer.
    Carry(EgressPort),
    /// The clock of every node goes on by 1 cs.
    Clock,
}

/// What a network answers.
#[derive(Clone, Copy, PartialEq, Eq)]
pub enum WorldReply {
    /// A node made a step, and answered this.
    Step(StepReply),
    /// It was done.
    Done,
    /// There was no PDU with that index, or, for a forged one, the inbox doesn't reach to it.
    Missed,
}
