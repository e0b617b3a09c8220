//! What every network that runs MMRP keeps, whatever happens in it, and the law of a network at
//! rest. Each is a function that does nothing; calling it brings the law to a proof.

ghost use Rattle.std.specs.Prelude.{◌≡◌, ◌≢◌, ◌-◌, ℕ, Bool, false, List};
ghost use Rattle.std.specs.{List.AllByRecursion, Ordering.nat_cmp};
ghost use Rattle.srp_base.specs.declared.{numbers.Cs.Cs, numbers.EgressPort.EgressPort, numbers.NodeNo.NodeNo};
ghost use Rattle.tree_topology.specs.Topology.{Topology, HasPort};
ghost use Rattle.topology_file.specs.declared.{entries.LinkEntry.LinkEntry, entries.NodeEntry.NodeEntry};
ghost use Rattle.topology_file.specs.Network.{KeepsNetworkRules};
ghost use Rattle.mmrp_codec.specs.Writing.{mmrp_spelling};
ghost use Rattle.mrp_participant.specs.State.{AreRows, is_silent};
ghost use Rattle.mmrp.specs.declared.events.GroupEvent.{GroupEvent};
ghost use Rattle.mmrp.specs.declared.events.GroupStep.{GroupStep};
ghost use Rattle.mmrp.specs.Macs.{Part, HasMacRows, IsWritten, pdu_sent};
ghost use Rattle.mmrp.specs.Net.{NetGroups, CanAllHappen, CanHappen, IsEventInRange, group_step, groups_after, node_at};
ghost use Rattle.mmrp.specs.Node.{group_meaning};
ghost use Rattle.mmrp.specs.Start.{net_of, nodes_from};
ghost use Rattle.link_net.specs.Kept.{AreNew};
ghost use Rattle.mmrp.specs.Kept.{IsKeptNet};
ghost use Rattle.mmrp.specs.Match.{GroupsMatch, IsAtRest, is_joined_behind, is_registered};

use crate::app::{GroupNode, MmrpApp};
use flat_side::laws as of_flat;
use link_net::laws as of_nets;
use mmrp_codec::laws::what_is_written_is_read;
use mrp_participant::link_laws::a_still_link_registers_what_is_declared;
use tree_topology::laws::{ports, the_walk};

/// What a participant sends, where it isn't silent, is written in octets that read as it, at most
/// 1,500.
pub fn what_is_sent_is_read()
    ensures { (now : Cs) (s : Part) → AreRows nat_cmp s.rows → HasMacRows s → is_silent s ≡ false
        → IsWritten (pdu_sent now s) (mmrp_spelling (pdu_sent now s)) }
{
    of_flat::what_is_sent_can_be_written::<MmrpApp>();
    what_is_written_is_read();
}

// The nodes of a file's network are new ones of its tree.
pub(crate) fn file_nodes_are_new()
    ensures { (ticks : ℕ) (tree : Topology) (leave_time : Cs) (periodic : Bool)
        (nodes : List NodeEntry) (links : List LinkEntry)
        → KeepsNetworkRules ticks leave_time.0 tree nodes links
        → AreNew group_meaning tree (nodes_from leave_time periodic links 1 nodes) }
{}

/// The network of a file's nodes and links keeps, at its start, what every network keeps.
pub fn a_network_begins_well()
    ensures { (ticks : ℕ) (tree : Topology) (leave_time : Cs) (periodic : Bool)
        (nodes : List NodeEntry) (links : List LinkEntry)
        → KeepsNetworkRules ticks leave_time.0 tree nodes links
        → IsKeptNet (net_of tree leave_time periodic nodes links) }
{
    file_nodes_are_new();
    of_nets::a_network_begins_well::<GroupNode>();
}

/// Whatever happens in a network keeps what every network keeps: both duties of each link, and at
/// each port each MAC address that doesn't await is declared exactly where another port or the
/// application has it registered.
pub fn every_event_keeps_it()
    ensures event { (e : GroupEvent) (w : NetGroups) → CanHappen e w → IsEventInRange e
        → IsKeptNet w → IsKeptNet (group_step e w).0 }
    ensures events { (es : List GroupEvent) (w : NetGroups) → CanAllHappen es w
        → AllByRecursion IsEventInRange es → IsKeptNet w → IsKeptNet (groups_after es w) }
{
    of_nets::every_event_keeps_it::<GroupNode>();
}

/// No event changes the tree, none but the clock's the clock; and a step of a port changes its own
/// node alone.
pub fn what_events_leave_alone()
    ensures tree { (e : GroupEvent) (w : NetGroups) → (group_step e w).0.tree ≡ w.tree }
    ensures clock { (e : GroupEvent) (w : NetGroups) → e ≢ GroupEvent.Clock
        → (group_step e w).0.clock ≡ w.clock }
    ensures nodes { (p : EgressPort) (step : GroupStep) (n : NodeNo) (w : NetGroups)
        → p.node.0 - 1 ≢ n.0 - 1
        → node_at n (group_step (GroupEvent.Port p step) w).0 ≡ node_at n w }
{
    of_nets::what_events_leave_alone::<GroupNode>();
}

/// In every network at rest a MAC address is registered at a port exactly where a station behind
/// the port, in the words of the tree's walks, has joined it (IEEE Std 802.1Q-2018, 10.12); so both
/// sides that `groups_match` answers are equal.
pub fn groups_are_those_joined_behind()
    ensures law { (w : NetGroups) → IsKeptNet w → IsAtRest w → GroupsMatch w }
    ensures sides { (w : NetGroups) (p : EgressPort) (mac : ℕ) → IsKeptNet w → IsAtRest w
        → HasPort w.tree p
        → is_registered w mac p ≡ is_joined_behind w mac p }
{
    a_still_link_registers_what_is_declared::<MmrpApp>();
    ports();
    the_walk();
}

/// From the start of a file's network on, after every list of events that may happen, whatever is
/// lost or repeated and in whatever order the ports make their steps, the network keeps both duties
/// of each link and the flat rule at every port; and where it is then at rest, a MAC address is
/// registered at a port exactly where a station behind the port has joined it.
pub fn groups_match_after_every_list_of_events()
    ensures kept { (ticks : ℕ) (tree : Topology) (leave_time : Cs) (periodic : Bool)
        (nodes : List NodeEntry) (links : List LinkEntry) (es : List GroupEvent)
        → KeepsNetworkRules ticks leave_time.0 tree nodes links
        → CanAllHappen es (net_of tree leave_time periodic nodes links)
        → AllByRecursion IsEventInRange es
        → IsKeptNet (groups_after es (net_of tree leave_time periodic nodes links)) }
    ensures at_rest { (ticks : ℕ) (tree : Topology) (leave_time : Cs) (periodic : Bool)
        (nodes : List NodeEntry) (links : List LinkEntry) (es : List GroupEvent)
        → KeepsNetworkRules ticks leave_time.0 tree nodes links
        → CanAllHappen es (net_of tree leave_time periodic nodes links)
        → AllByRecursion IsEventInRange es
        → IsAtRest (groups_after es (net_of tree leave_time periodic nodes links))
        → GroupsMatch (groups_after es (net_of tree leave_time periodic nodes links)) }
{
    a_network_begins_well();
    every_event_keeps_it();
    groups_are_those_joined_behind();
}
