//! What happens in a network, and what it answers.

use srp_base::{EgressPort, NodeNo};

/// What happens in a network, of requests `R`, steps `S` and PDUs `P`. The port of a loss, of a
/// copy and of a forgery is the receiving one.
#[derive(Drop)]
pub enum NetEvent<R, S, P> {
    /// The application of a station asks for something.
    Request(NodeNo, R),
    /// A link port makes a step.
    Port(EgressPort, S),
    /// The PDU with this index, counted from 0, is lost from a port's inbox.
    Lose(EgressPort, u32),
    /// The PDU with this index is in a port's inbox twice, the copy right behind its original.
    Repeat(EgressPort, u32),
    /// A PDU that no neighbour sent stands at the place of this index in a port's inbox.
    Forge(EgressPort, u32, P),
    /// The PDUs of a port's outbox come in at its peer.
    Carry(EgressPort),
    /// The clock goes on by 1 cs.
    Clock,
}

/// What a network answers, where a node answers `R`.
#[derive(Clone, Copy, PartialEq, Eq)]
pub enum NetReply<R> {
    /// What the node answers of which something was asked, or whose port made a step.
    Node(R),
    /// It was done.
    Done,
    /// There was no PDU with that index, or the inbox doesn't reach to that of a forged one.
    Missed,
}
