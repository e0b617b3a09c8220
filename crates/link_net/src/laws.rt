//! What every network keeps, whatever happens in it. Each is a function that does nothing; calling
//! it brings the law to a proof.

ghost use Rattle.std.specs.Prelude.{◌≡◌, ◌≢◌, ◌-◌, List};
ghost use Rattle.std.specs.{List.AllByRecursion};
ghost use Rattle.srp_base.specs.declared.{numbers.EgressPort.EgressPort, numbers.NodeNo.NodeNo};
ghost use Rattle.tree_topology.specs.Topology.{Topology};
ghost use Rattle.link_net.specs.declared.events.NetEvent.{NetEvent};
ghost use Rattle.link_net.specs.Net.{NetState, CanAllHappen, CanHappen, IsEventInRange, net_after, net_step, net_with, node_at};
ghost use Rattle.link_net.specs.Kept.{AreNew, IsKeptNet};

use crate::node::LinkNode;
use tree_topology::laws::ports;

/// A network of new nodes, at moment 0, keeps what every network keeps.
pub fn a_network_begins_well<N: LinkNode>()
    ensures { (tree : Topology) (nodes : List N.meaning.State) → AreNew N.meaning tree nodes
        → IsKeptNet N.meaning (net_with tree (record { 0 = 0 }) nodes) }
{
    ports();
    N::keeps_laws();
}

/// Whatever happens in a network keeps what every network keeps: what each node of its kind keeps,
/// and both duties of each link in each application.
pub fn every_event_keeps_it<N: LinkNode>()
    ensures event { (e : NetEvent N.Request N.Step N.Pdu) (w : NetState N.meaning.State)
        → CanHappen N.meaning e w → IsEventInRange N.meaning e → IsKeptNet N.meaning w
        → IsKeptNet N.meaning (net_step N.meaning e w).0 }
    ensures events { (es : List (NetEvent N.Request N.Step N.Pdu)) (w : NetState N.meaning.State)
        → CanAllHappen N.meaning es w → AllByRecursion (IsEventInRange N.meaning) es
        → IsKeptNet N.meaning w → IsKeptNet N.meaning (net_after N.meaning es w) }
{
    ports();
    N::keeps_laws();
}

/// No event changes the tree, none but the clock's the clock; and a step of a port changes its own
/// node alone.
pub fn what_events_leave_alone<N: LinkNode>()
    ensures tree { (e : NetEvent N.Request N.Step N.Pdu) (w : NetState N.meaning.State)
        → (net_step N.meaning e w).0.tree ≡ w.tree }
    ensures clock { (e : NetEvent N.Request N.Step N.Pdu) (w : NetState N.meaning.State)
        → e ≢ NetEvent.Clock → (net_step N.meaning e w).0.clock ≡ w.clock }
    ensures nodes { (p : EgressPort) (step : N.Step) (n : NodeNo) (w : NetState N.meaning.State)
        → p.node.0 - 1 ≢ n.0 - 1
        → node_at n (net_step N.meaning (NetEvent.Port p step) w).0 ≡ node_at n w }
{}
