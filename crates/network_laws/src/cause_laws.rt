//! What a network at rest says of causes. Each law is a function that does nothing; calling it
//! brings the law to a proof.

ghost use Rattle.std.specs.Prelude.{◌≡◌, ℕ, false, true, List, Some, slice_get};
ghost use Rattle.srp_base.specs.declared.{bandwidth.Class.Class, numbers.EgressPort.EgressPort, numbers.StreamId.StreamId, streams.Failure.Failure, streams.Talker.Talker, streams.TalkerReg.TalkerReg};
ghost use Rattle.srp_base.specs.declared.streams.TalkerReg.TheVariants.{Failed};
ghost use Rattle.stream_importance.specs.declared.entry.Want.{Want};
ghost use Rattle.port_ledger.specs.Book.{want_of};
ghost use Rattle.tree_topology.specs.Topology.{HasNode, HasPort};
ghost use Rattle.topology_file.specs.{Plan.Plan, Scenario.KeepsRules};
ghost use Rattle.world_core.specs.declared.journal.Tick.{Tick};
ghost use Rattle.world_core.specs.{Kept.IsKeptWorld, Limits.caps_at, Moments.IsMoment, Ticks.AreLegalTicks, World.WorldState, World.node_at};
ghost use Rattle.attribute_propagation.specs.Ports.{place_of};
ghost use Rattle.msrp.specs.{PortState.PortState, Domain.class_in, Domain.is_boundary, Domain.is_edge};
ghost use Rattle.node_core.specs.State.{NodeState};
ghost use Rattle.network_laws.specs.Vlans.{IsAtRest};
ghost use Rattle.network_laws.specs.Streams.{hears_ready, is_listened_at, is_talked_at, talking_node, IsTalkedOnce};
ghost use Rattle.network_laws.specs.Causes.{is_boundary_in, talker_at_node, HasCause, HasFailure, IsWantedBehind};

use mrp_participant::marked_link_laws::a_still_marked_link_registers_what_is_declared;
use msrp::MsrpApp;
use port_ledger::laws::decisions_stand;
use tree_topology::laws::{ports, the_walk};
use world_core::laws::{
    a_scenario_begins_well, every_moment_is_set_up_by_the_plan, every_moment_keeps_it,
    what_is_allowed_may_happen,
};

/// In every network at rest, of each stream that at most one station talks: where a node's first
/// port has a Talker Failed, and the node isn't the Talker's, a port on the path from the station
/// that talks refuses the stream with that failure. It is of the node that the failure names, and
/// bookings there leave no place, it is at the boundary of the domain of the stream's class, or no
/// port can serve what the station talks (IEEE Std 802.1Q-2018, 35.2.2.8.7, 35.2.4.3).
pub fn each_failure_has_its_cause()
    ensures { (w : WorldState) (stream : StreamId) (l : ℕ) (talker : Talker) (failure : Failure)
        → IsKeptWorld w → IsAtRest w → IsTalkedOnce w stream
        → HasNode w.tree l → is_talked_at w stream l ≡ false
        → talker_at_node w stream l ≡ Failed talker failure → HasCause w stream l failure }
{
    a_still_marked_link_registers_what_is_declared::<MsrpApp>();
    decisions_stand();
    ports();
    the_walk();
}

/// In every network at rest, of each stream that at most one station talks: what a port's ledger
/// keeps as wanted is what that station asks for, which isn't behind the port, and a station behind
/// the port listens to the stream and hears Ready (IEEE Std 802.1Q-2018, 35.2.4.4).
pub fn what_a_port_keeps_is_wanted_behind()
    ensures { (w : WorldState) (stream : StreamId) (p : EgressPort) (s : NodeState)
        (port : PortState) (want : Want)
        → IsKeptWorld w → IsAtRest w → IsTalkedOnce w stream → HasPort w.tree p
        → node_at p.node w ≡ Some s → slice_get s.streams.ports (place_of p.port) ≡ Some port
        → want_of port.ledger.entries stream ≡ Some want → IsWantedBehind w stream p want }
{
    a_still_marked_link_registers_what_is_declared::<MsrpApp>();
    decisions_stand();
    ports();
}

/// At every moment of every legal run of a scenario, at rest or not, the caps of each port's ledger
/// are those of its link's entry, in bit/s (IEEE Std 802.1Q-2018, 34.3).
pub fn caps_are_those_of_the_scenario()
    ensures { (plan : Plan) (ticks : List Tick) (end w : WorldState) (p : EgressPort)
        (s : NodeState) (port : PortState)
        → KeepsRules plan → AreLegalTicks plan ticks end → IsMoment plan ticks w
        → HasPort w.tree p → node_at p.node w ≡ Some s
        → slice_get s.streams.ports (place_of p.port) ≡ Some port
        → port.ledger.caps ≡ caps_at plan p }
{
    every_moment_is_set_up_by_the_plan();
}

/// At every moment of every legal run of a scenario at which the network is at rest, a port is at
/// the boundary of the domain of a class exactly where the scenario has domains and the node at one
/// of the ends of its link doesn't declare the class's Domain value; so it is for a registered
/// Talker of the class (IEEE Std 802.1Q-2018, 35.1.4, 35.2.2.9).
pub fn edges_are_those_of_the_scenario()
    ensures class { (plan : Plan) (ticks : List Tick) (end w : WorldState) (p : EgressPort)
        (s : NodeState) (port : PortState) (class : Class)
        → KeepsRules plan → AreLegalTicks plan ticks end → IsMoment plan ticks w → IsAtRest w
        → HasPort w.tree p → node_at p.node w ≡ Some s
        → slice_get s.streams.ports (place_of p.port) ≡ Some port
        → is_boundary port.domain port.part class ≡ is_boundary_in plan class p }
    ensures talker { (plan : Plan) (ticks : List Tick) (end w : WorldState) (p : EgressPort)
        (s : NodeState) (port : PortState) (reg : TalkerReg) (class : Class)
        → KeepsRules plan → AreLegalTicks plan ticks end → IsMoment plan ticks w → IsAtRest w
        → HasPort w.tree p → node_at p.node w ≡ Some s
        → slice_get s.streams.ports (place_of p.port) ≡ Some port → class_in reg ≡ Some class
        → is_edge port.domain port.part reg ≡ is_boundary_in plan class p }
{
    a_still_marked_link_registers_what_is_declared::<MsrpApp>();
    a_scenario_begins_well();
    decisions_stand();
    every_moment_is_set_up_by_the_plan();
    every_moment_keeps_it();
    ports();
    what_is_allowed_may_happen();
}

/// In every network at rest, of each stream that one station talks: another station that listens to
/// it and doesn't hear Ready has a Talker Failed registered at its port (IEEE Std 802.1Q-2018,
/// 35.2.4).
pub fn who_misses_a_stream_has_a_failure()
    ensures { (w : WorldState) (stream : StreamId) (l t : ℕ) → IsKeptWorld w → IsAtRest w
        → IsTalkedOnce w stream → talking_node w stream ≡ Some t
        → HasNode w.tree l → is_listened_at w stream l ≡ true → is_talked_at w stream l ≡ false
        → hears_ready w stream l ≡ false → HasFailure w stream l }
{
    a_still_marked_link_registers_what_is_declared::<MsrpApp>();
    decisions_stand();
    ports();
}
