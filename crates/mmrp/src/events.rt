//! What happens in a network that runs MMRP, and what it answers.

use srp_base::{EgressPort, Mac, NodeNo};

/// A step of a link port.
#[derive(Clone, Copy, PartialEq, Eq)]
pub enum GroupStep {
    /// Takes the front PDU of the port's inbox.
    Work,
    /// Fires all timers that are due.
    Due,
    /// Settles the MAC addresses that await at the port.
    Settle,
    /// Sends what there is to say: the PDU goes to the end of the outbox.
    Send,
}

/// What happens in a network that runs MMRP. The port of a loss and of a copy is the receiving one.
#[derive(Clone, Copy, PartialEq, Eq)]
pub enum GroupEvent {
    /// The application of a station joins the group of a MAC address.
    Join(NodeNo, Mac),
    /// It parts from it.
    Part(NodeNo, Mac),
    /// A link port makes a step.
    Port(EgressPort, GroupStep),
    /// The PDU with this index, counted from 0, is lost from a port's inbox.
    Lose(EgressPort, u32),
    /// The PDU with this index is in a port's inbox twice, the copy right behind its original.
    Repeat(EgressPort, u32),
    /// The PDUs of a port's outbox come in at its peer.
    Carry(EgressPort),
    /// The clock goes on by 1 cs.
    Clock,
}

/// What a network that runs MMRP answers. A number that would pass the greatest u32 is that
/// greatest number.
#[derive(Clone, Copy, PartialEq, Eq)]
pub enum GroupReply {
    /// The inbox was empty.
    Nothing,
    /// The PDU was malformed at this offset, in octets from 0; it was taken out.
    Discarded(u32),
    /// The PDU had so many events of MAC addresses.
    Received(u32),
    /// So many timers fired.
    Fired(u32),
    /// So many MAC addresses awaited at the port.
    Settled(u32),
    /// There was nothing to say.
    Silent,
    /// A PDU of so many octets was sent.
    Sent(u32),
    /// It was done.
    Done,
    /// There was no PDU with that index.
    Missed,
}
