//! The steps of a link port, and what a node answers.

/// A step of a link port, of applications that are told apart by a name `N`, and whose attributes
/// have keys `K`.
#[derive(Clone, Copy, PartialEq, Eq)]
pub enum PortStep<N: Copy, K: Copy> {
    /// Takes the front PDU of the port's inbox.
    Work,
    /// Ends the leave timer of one attribute.
    LeaveNow(K),
    /// Fires the LeaveAll timer of an application.
    LeaveAllNow(N),
    /// Fires the periodic timer of an application.
    PeriodicNow(N),
    /// Fires all timers that are due.
    Due,
    /// Settles the attributes that await at the port.
    Settle,
    /// Sends what an application has to say: the PDU goes to the end of the outbox.
    Send(N),
}

/// What a node answers. A number that would pass the greatest u32 is that greatest number.
#[derive(Clone, Copy, PartialEq, Eq)]
pub enum StepReply {
    /// The inbox was empty.
    Nothing,
    /// The front PDU was malformed at this offset, in octets from 0; it was taken out.
    Discarded(u32),
    /// The front PDU had so many attribute events.
    Received(u32),
    /// So many timers fired.
    Fired(u32),
    /// So many attributes awaited at the port.
    Settled(u32),
    /// There was nothing to say.
    Silent,
    /// A PDU of so many octets was sent.
    Sent(u32),
    /// What was asked for is taken.
    Taken,
}
