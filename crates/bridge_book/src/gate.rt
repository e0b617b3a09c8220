//! What port threads tell of where they are.

use srp_base::{NodeNo, PortNo};

/// What a port's thread calls on its way through a tick. A gate may hold the thread that calls it.
pub trait Gate: Sync {
    /// Before the port's first step of a tick.
    fn arrive(&self, node: NodeNo, port: PortNo);

    /// Inside each critical section, before the step.
    fn within(&self, node: NodeNo, port: PortNo);

    /// After the port's last step of a tick.
    fn answered(&self, node: NodeNo, port: PortNo);
}

/// The gate that does nothing.
pub struct NoGate;

impl Gate for NoGate {
    fn arrive(&self, _node: NodeNo, _port: PortNo) {}

    fn within(&self, _node: NodeNo, _port: PortNo) {}

    fn answered(&self, _node: NodeNo, _port: PortNo) {}
}
