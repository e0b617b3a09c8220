//! What a node hands out that says what is in force at a port: where frames of a VLAN go (IEEE Std
//! 802.1Q-2018, 8.8), and which streams have bandwidth there.

ghost use Rattle.std.specs.Prelude.{◌≡◌, slice_get, Some, IfSome};
ghost use Rattle.attribute_propagation.specs.Ports.{IsLinkPort, place_of};
ghost use Rattle.node_core.specs.State.{ports_of};

use crate::node::Node;
use mrp_participant::Participant;
use mvrp::MvrpApp;
use port_ledger::Ledger;
use srp_base::PortNo;

impl Node {
    /// The participant of MVRP at a port.
    pub fn vlan_part(&self, port: PortNo) -> &Participant<MvrpApp>
        requires { IsLinkPort port (ports_of self.now.state) }
        ensures { slice_get self.now.state.vlans.parts (place_of port) ≡ Some result.now.state }
    {
        self.mvrp.participant(port)
    }

    /// The ledger of a port.
    pub fn ledger(&self, port: PortNo) -> &Ledger
        requires { IsLinkPort port (ports_of self.now.state) }
        ensures { IfSome (slice_get self.now.state.streams.ports (place_of port))
            (λ p. result.now.book ≡ p.ledger) }
    {
        self.msrp.ledger(port)
    }
}
