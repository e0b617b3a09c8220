//! The laws of a network at rest. Each is a function that does nothing; calling it brings the law
//! to a proof.

ghost use Rattle.std.specs.Prelude.{◌≡◌, ◌↔◌, ℕ, true, false, List, Some, IsSome, slice_get};
ghost use Rattle.std.specs.List.{AllByRecursion};
ghost use Rattle.srp_base.specs.declared.{numbers.EgressPort.EgressPort, numbers.StreamId.StreamId};
ghost use Rattle.tree_topology.specs.Topology.{HasNode, HasPort};
ghost use Rattle.topology_file.specs.{Plan.Plan, Scenario.KeepsRules};
ghost use Rattle.world_core.specs.declared.{events.WorldEvent.WorldEvent, journal.Tick.Tick};
ghost use Rattle.world_core.specs.{World.WorldState, World.CanAllHappen, World.IsEventInRange, World.is_quiet, World.world_after, Start.world_of, Duty.AreStreamDutiesMet, Duty.AreVlanDutiesMet, Kept.IsKeptWorld, Moments.IsMoment, Ticks.AreLegalTicks};
ghost use Rattle.attribute_propagation.specs.Dirty.{is_awaiting};
ghost use Rattle.msrp.specs.{PortState.PortState, Part.key_cmp, Side.awaiting_at};
ghost use Rattle.node_core.specs.{Links.IsKeptNode, State.NodeState};
ghost use Rattle.network_laws.specs.Bookings.{BookingsMatch, IsBookedAsAdvertised};
ghost use Rattle.network_laws.specs.Vlans.{VlansMatch, IsAtRest, is_registered, is_declared_behind};
ghost use Rattle.network_laws.specs.declared.streams.Refusal.{Refusal};
ghost use Rattle.network_laws.specs.Streams.{failure_at, hears_ready, is_listened_at, is_path_booked, is_talked_at, refusal_to, IsNamedAt, IsRefusalTo, IsTalkedOnce, KeepsStreamLaws};

use mrp_participant::marked_link_laws::a_still_marked_link_registers_what_is_declared;
use msrp::MsrpApp;
use msrp_codec::MsrpKey;
use mvrp::MvrpApp;
use port_ledger::laws::decisions_stand;
use tree_topology::laws::{ports, the_walk};
use world_core::laws::{
    a_scenario_begins_well, every_event_keeps_it, every_moment_keeps_it,
    every_moment_talks_by_the_plan,
};

/// In every network at rest a VID is registered at a port exactly where a station behind the port,
/// in the words of the tree's walks, has declared it (IEEE Std 802.1Q-2018, 11.2); so both sides
/// that `vlans_match` answers are equal.
pub fn vlans_are_those_declared_behind()
    ensures law { (w : WorldState) → IsKeptWorld w → IsAtRest w → VlansMatch w }
    ensures sides { (w : WorldState) (p : EgressPort) (vid : ℕ) → IsKeptWorld w → IsAtRest w
        → HasPort w.tree p
        → is_registered w vid p ≡ is_declared_behind w vid p }
{
    a_still_marked_link_registers_what_is_declared::<MvrpApp>();
    ports();
    the_walk();
}

/// At every moment of every legal run of a scenario at which the network is at rest, a VID is
/// registered at a port exactly where a station behind the port has declared it.
pub fn vlans_match_whenever_at_rest()
    ensures { (plan : Plan) (ticks : List Tick) (end w : WorldState) → KeepsRules plan
        → AreLegalTicks plan ticks end
        → IsMoment plan ticks w → IsAtRest w → VlansMatch w }
{
    vlans_are_those_declared_behind();
    every_moment_keeps_it();
}

/// At every moment of every legal run of a scenario, at rest or not, each sound end of each link
/// meets its duty: what the neighbour's registrar will hold, once it has heard all that is in
/// flight, is what this end declares. Both ends are sound until a PDU is lost or forged on the
/// link, and each is again from the next LeaveAll that it sends.
pub fn duties_are_met_in_every_run()
    ensures { (plan : Plan) (ticks : List Tick) (end w : WorldState) → KeepsRules plan
        → AreLegalTicks plan ticks end
        → IsMoment plan ticks w → AreVlanDutiesMet w }
{
    every_moment_keeps_it();
}

/// From the start of a scenario on, after every list of events that may happen, whatever is lost,
/// repeated or forged and in whatever order the ports make their steps: where the network is then
/// at rest, a VID is registered at a port exactly where a station behind the port has declared it.
pub fn vlans_match_after_every_list_of_events()
    ensures { (plan : Plan) (events : List WorldEvent) → KeepsRules plan
        → CanAllHappen events (world_of plan)
        → AllByRecursion IsEventInRange events → IsAtRest (world_after events (world_of plan))
        → VlansMatch (world_after events (world_of plan)) }
{
    vlans_are_those_declared_behind();
    a_scenario_begins_well();
    every_event_keeps_it();
}

/// In every network at rest, of each stream that at most one station talks: its Talker is
/// registered at a port exactly where that station is behind the port; each other station that
/// listens to it hears Ready exactly where every egress port on the path from there has booked it;
/// and where a station's port has a Talker Failed for want of bandwidth, it is because more
/// important bookings at a port of the named bridge on that path leave no place for it (IEEE Std
/// 802.1Q-2018, 35.2.4). So both sides that `ready_on_path` answers are equal, and `refusal_shown`
/// shows such a port.
pub fn streams_keep_their_laws()
    ensures law { (w : WorldState) (stream : StreamId) → IsKeptWorld w → IsAtRest w
        → IsTalkedOnce w stream
        → KeepsStreamLaws w stream }
    ensures sides { (w : WorldState) (stream : StreamId) (l : ℕ) → IsKeptWorld w → IsAtRest w
        → IsTalkedOnce w stream
        → HasNode w.tree l → is_listened_at w stream l ≡ true → is_talked_at w stream l ≡ false
        → hears_ready w stream l ≡ is_path_booked w stream l }
    ensures shown { (w : WorldState) (stream : StreamId) (l : ℕ) → IsKeptWorld w → IsAtRest w
        → IsTalkedOnce w stream
        → HasNode w.tree l → IsSome (failure_at w stream l) → IsSome (refusal_to w stream l) }
{
    a_still_marked_link_registers_what_is_declared::<MsrpApp>();
    decisions_stand();
    ports();
    the_walk();
}

/// In every network a refusal is shown exactly where a port is named: the listener's port has a
/// Talker Failed with a code of bandwidth, the port is on the path from the Talker's station, its
/// node has the failure's BridgeID, and its ledger refuses the stream with that code. What is shown
/// is such a port with what its ledger says, and what is more important there, with the stream's
/// own slope, passes the cap.
pub fn a_refusal_says_why()
    ensures says { (w : WorldState) (stream : StreamId) (l : ℕ) (refusal : Refusal)
        → refusal_to w stream l ≡ Some refusal → IsRefusalTo w stream l refusal }
    ensures exactly { (w : WorldState) (stream : StreamId) (l : ℕ)
        → IsSome (refusal_to w stream l) ↔ ((p : EgressPort) × IsNamedAt w stream l p) }
{}

/// At every moment of every legal run of a scenario at which the network is at rest, the laws of
/// streams hold of each stream.
pub fn streams_keep_their_laws_whenever_at_rest()
    ensures { (plan : Plan) (ticks : List Tick) (end w : WorldState) (stream : StreamId)
        → KeepsRules plan → AreLegalTicks plan ticks end
        → IsMoment plan ticks w → IsAtRest w → KeepsStreamLaws w stream }
{
    streams_keep_their_laws();
    every_moment_keeps_it();
    every_moment_talks_by_the_plan();
}

/// From the start of a scenario on, after every list of events that may happen: where the network
/// is then at rest, the laws of streams hold of each stream that at most one station then talks.
pub fn streams_keep_their_laws_after_every_list_of_events()
    ensures { (plan : Plan) (events : List WorldEvent) (stream : StreamId) → KeepsRules plan
        → CanAllHappen events (world_of plan)
        → AllByRecursion IsEventInRange events → IsAtRest (world_after events (world_of plan))
        → IsTalkedOnce (world_after events (world_of plan)) stream
        → KeepsStreamLaws (world_after events (world_of plan)) stream }
{
    streams_keep_their_laws();
    a_scenario_begins_well();
    every_event_keeps_it();
}

/// At every moment of every legal run of a scenario, at rest or not, each sound end of each link
/// meets its duty in MSRP too.
pub fn stream_duties_are_met_in_every_run()
    ensures { (plan : Plan) (ticks : List Tick) (end w : WorldState) → KeepsRules plan
        → AreLegalTicks plan ticks end
        → IsMoment plan ticks w → AreStreamDutiesMet w }
{
    every_moment_keeps_it();
}

/// At every link port of every node a stream of which neither key awaits there is booked, and so
/// goes out there, exactly where the port declares a Talker Advertise of it and has Listener Ready
/// or Ready Failed of it registered (IEEE Std 802.1Q-2018, 35.2.4). In a network in which nothing
/// is pending, whatever was lost, it is so of every stream at every port.
pub fn booked_where_advertised_and_ready()
    ensures port { (s : NodeState) (at : ℕ) (port : PortState) (stream : StreamId) → IsKeptNode s
        → slice_get s.streams.ports at ≡ Some port
        → is_awaiting key_cmp (MsrpKey.Talker stream) (awaiting_at at s.streams) ≡ false
        → is_awaiting key_cmp (MsrpKey.Listener stream) (awaiting_at at s.streams) ≡ false
        → IsBookedAsAdvertised stream port }
    ensures network { (w : WorldState) (stream : StreamId) → IsKeptWorld w → is_quiet w ≡ true
        → BookingsMatch w stream }
{
    decisions_stand();
}
