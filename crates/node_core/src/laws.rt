//! What every node keeps: laws over the states that contracts see. Each is a function that does
//! nothing; calling it brings the law to a proof.

ghost use Rattle.std.specs.Prelude.{◌≡◌, ◌<◌, ◌≤◌, ◌^◌, ℕ, Bool, true, false, List, [], length};
ghost use Rattle.srp_base.specs.declared.{numbers.Cs.Cs, numbers.BridgeId.BridgeId, numbers.PortNo.PortNo, mrp.App.App, ports.PortSetup.PortSetup};
ghost use Rattle.tree_topology.specs.declared.graph.NodeKind.{NodeKind};
ghost use Rattle.mrpdu_codec.specs.Octets.{AreOctets};
ghost use Rattle.node_core.specs.declared.types.AppRequest.{AppRequest};
ghost use Rattle.node_core.specs.declared.types.NodeEvent.{NodeEvent};
ghost use Rattle.node_core.specs.declared.types.PortStep.{PortStep};
ghost use Rattle.node_core.specs.declared.types.Wire.{Wire};
ghost use Rattle.node_core.specs.Wires.{IsShort, AreShort};
ghost use Rattle.node_core.specs.State.{NodeState, ports_of, new_node, is_at_rest, is_busy_node};
ghost use Rattle.node_core.specs.Step.{CanStep, node_step};
ghost use Rattle.node_core.specs.Links.{IsKeptNode, with_outbox, with_carried, lost_at, repeated_at, forged_at, spoilt_at};
ghost use Rattle.msrp.specs.declared.domain.DomainSet.{DomainSet};
ghost use Rattle.node_core.specs.Proper.{IsProperNode, IsProperWire, AreProperWires, IsInRange, port_setups};

use crate::types::NodeEvent;
use msrp::laws as of_streams;
use mvrp::laws as of_vlans;

/// A new node keeps what every node keeps, where its BridgeID is a number of 64 bits.
pub fn a_new_node_is_proper()
    ensures { (kind : NodeKind) (bridge : BridgeId) (leave_time : Cs) (periodic : Bool)
        (domain : DomainSet) (ports : List PortSetup)
        → length ports ≤ 255 → bridge.0 < 2 ^ 64
        → IsProperNode (new_node kind bridge leave_time periodic domain ports) }
{
    of_vlans::a_new_side_is_proper();
    of_streams::a_new_side_is_proper();
}

/// Each step that may be made keeps it, where what a request asks for fits: of a bridge that it
/// asks for nothing, since a request is made at a station.
pub fn every_step_keeps_a_node_proper()
    ensures { (event : NodeEvent) (s : NodeState)
        → CanStep event s → IsInRange event → IsProperNode s → IsProperNode (node_step event s).0 }
{
    of_vlans::every_call_keeps_a_side_proper();
    of_vlans::settling_and_requests_keep_a_side_proper();
    of_vlans::what_is_sent_is_read();
    mvrp_codec::what_is_read_has_vids();
    of_streams::every_call_keeps_a_side_proper();
    of_streams::settling_and_requests_keep_a_side_proper();
    of_streams::what_is_sent_is_read();
    of_streams::calls_keep_the_ports();
    msrp_codec::laws::reading_is_the_grammar();
    msrp_codec::laws::what_is_read_belongs_to_its_keys();
}

/// So does what happens to the PDUs that wait: an outbox is taken out or becomes short PDUs that
/// say what fits, such PDUs come in, one is lost, there twice or forged, and a participant is
/// spoilt.
pub fn links_keep_a_node_proper()
    ensures taken { (at : ℕ) (s : NodeState) → IsProperNode s → IsProperNode (with_outbox at [] s) }
    ensures given { (at : ℕ) (wires : List Wire) (s : NodeState) → AreShort wires
        → AreProperWires wires → IsProperNode s → IsProperNode (with_outbox at wires s) }
    ensures carried { (at : ℕ) (wires : List Wire) (s : NodeState) → AreShort wires
        → AreProperWires wires → IsProperNode s → IsProperNode (with_carried at wires s) }
    ensures lost { (at index : ℕ) (s : NodeState) → IsProperNode s
        → IsProperNode (lost_at at index s) }
    ensures repeated { (at index : ℕ) (s : NodeState) → IsProperNode s
        → IsProperNode (repeated_at at index s) }
    ensures forged { (at index : ℕ) (wire : Wire) (s : NodeState) → IsShort wire
        → IsProperWire wire → IsProperNode s → IsProperNode (forged_at at index wire s) }
    ensures spoilt { (app : App) (at : ℕ) (s : NodeState) → IsProperNode s
        → IsProperNode (spoilt_at app at s) }
{
    of_vlans::every_call_keeps_a_side_proper();
    of_streams::every_call_keeps_a_side_proper();
    of_streams::calls_keep_the_ports();
}

/// What octets say fits, whoever wrote them.
pub fn octets_say_what_fits()
    ensures { (wire : Wire) → AreOctets wire.octets → IsProperWire wire }
{
    msrp_codec::laws::what_is_read_is_in_range();
}

/// A step keeps what a node is, and how many link ports it has; and no step but the clock's moves
/// the clock.
pub fn steps_keep_what_a_node_is()
    ensures kind { (event : NodeEvent) (s : NodeState) → (node_step event s).0.kind ≡ s.kind }
    ensures ports { (event : NodeEvent) (s : NodeState) → ports_of (node_step event s).0
        ≡ ports_of s }
    ensures clock { (port : PortNo) (step : PortStep) (s : NodeState)
        → (node_step (NodeEvent.Port port step) s).0.clock ≡ s.clock }
    ensures asked { (request : AppRequest) (s : NodeState)
        → (node_step (NodeEvent.Request request) s).0.clock ≡ s.clock }
{
    of_streams::calls_keep_the_ports();
}

/// A step keeps the node's BridgeID, and how each link port is set up: its BridgeID, its latency,
/// the caps of its ledger and the Domain values that it declares.
pub fn a_port_stays_set_up()
    ensures bridge { (event : NodeEvent) (s : NodeState) → (node_step event s).0.bridge ≡ s.bridge }
    ensures ports { (event : NodeEvent) (s : NodeState) → port_setups (node_step event s).0
        ≡ port_setups s }
{
    of_streams::calls_keep_the_ports();
}

/// A node that is at rest at its own moment isn't busy; one that is at rest up to a moment is so up
/// to an earlier one, and stays so while the clock goes on. So it isn't busy at any moment up to
/// then, while its clock alone goes on.
pub fn a_node_at_rest_stays_so()
    ensures idle { (s : NodeState) → is_at_rest s.clock s ≡ true → is_busy_node s ≡ false }
    ensures sooner { (soon late : Cs) (s : NodeState) → soon.0 ≤ late.0 → is_at_rest late s ≡ true
        → is_at_rest soon s ≡ true }
    ensures clock { (until : Cs) (s : NodeState) → IsKeptNode s → is_at_rest until s ≡ true
        → is_at_rest until (node_step NodeEvent.Clock s).0 ≡ true }
{}
