//! What every network keeps, whatever happens in it: laws over the states that contracts see. Each
//! is a function that does nothing; calling it brings the law to a proof.

ghost use Rattle.std.specs.Prelude.{◌≡◌, ◌≢◌, ◌<◌, ◌+◌, ◌-◌, ◌^◌, ◌++◌, ◌∷◌, [], ℕ, suc, List, map, take, drop, slice_get, Some, IfSome, false};
ghost use Rattle.srp_base.specs.declared.{numbers.NodeNo.NodeNo, numbers.PortNo.PortNo};
ghost use Rattle.node_core.specs.declared.{types.NodeStep.NodeStep, types.PortStep.PortStep, types.NodeEvent.TheVariants.Port as port_step};
ghost use Rattle.msrp.specs.Proper.{Setup};
ghost use Rattle.node_core.specs.{Proper.IsProperNode, Proper.port_setups, State.NodeState, Step.node_step};
ghost use Rattle.std.specs.List.{AllByRecursion};
ghost use Rattle.tree_topology.specs.Topology.{Topology, link_ports};
ghost use Rattle.topology_file.specs.declared.{entries.EventKind.EventKind, entries.NodeEntry.NodeEntry};
ghost use Rattle.topology_file.specs.{Kinds.IsKnownKind, Plan.Plan, Scenario.KeepsRules};
ghost use Rattle.world_core.specs.declared.events.WorldEvent.{WorldEvent};
ghost use Rattle.world_core.specs.declared.events.WorldEvent.TheVariants.{Port as port_event};
ghost use Rattle.world_core.specs.declared.events.WorldReply.TheVariants.{Step as step_reply};
ghost use Rattle.world_core.specs.declared.journal.NodeSteps.{NodeSteps};
ghost use Rattle.world_core.specs.declared.journal.Tick.{Tick};
ghost use Rattle.world_core.specs.World.{WorldState, CanHappen, CanAllHappen, IsEventInRange, node_at, world_step, world_after, replies_to};
ghost use Rattle.world_core.specs.Start.{world_of, domain_rows, domain_set, IsAtStart};
ghost use Rattle.world_core.specs.Kept.{IsKeptWorld, IsWhole};
ghost use Rattle.world_core.specs.Apart.{events_of, replies_of, HaveOwnReplies, after_own, after_nodes, AreMadeApart};
ghost use Rattle.world_core.specs.Ticks.{event_of, script_at, step_events, step_replies, after_steps, LeadTo, AreLegalTicks, AreCanonicalTicks, IsLegalTick, IsCanonicalTick, tick_events};
ghost use Rattle.world_core.specs.During.{IsDuring, IsAllowed, NamesNeighbours};
ghost use Rattle.world_core.specs.Carrying.{NothingWaits, has_send};
ghost use Rattle.world_core.specs.Moments.{IsMoment, events_from};
ghost use Rattle.world_core.specs.Limits.{IsWithinLimits, caps_of_link, links_of};
ghost use Rattle.world_core.specs.Talks.{AreTalksOfPlan, HasOneTalker};

use mrp_participant::duty_laws::spoiling_keeps_duties;
use mrp_participant::marked_link_laws::{
    a_new_marked_link_meets_both_duties, every_event_keeps_marked_duties,
    fewer_marks_keep_marked_duties,
};
use msrp::MsrpApp;
use mvrp::MvrpApp;
use node_core::laws::{
    a_new_node_is_proper, a_port_stays_set_up, every_step_keeps_a_node_proper,
    links_keep_a_node_proper, octets_say_what_fits, steps_keep_what_a_node_is,
};
use port_ledger::laws::bookings_are_within_caps;
use tree_topology::laws::ports;

/// A list of events that stopped after the first of them goes on with the rest, which may happen
/// then: the network ends, and answers, as after all of them at once.
pub fn a_run_goes_on_where_it_stopped()
    ensures can { (done : ℕ) (es : List WorldEvent) (w : WorldState) → CanAllHappen es w
        → CanAllHappen (drop done es) (world_after (take done es) w) }
    ensures after { (done : ℕ) (es : List WorldEvent) (w : WorldState)
        → world_after (drop done es) (world_after (take done es) w) ≡ world_after es w }
    ensures replies { (done : ℕ) (es : List WorldEvent) (w : WorldState)
        → replies_to (take done es) w ++ replies_to (drop done es) (world_after (take done es) w)
        ≡ replies_to es w }
{}

/// The network of a scenario keeps what every network keeps.
pub fn a_scenario_begins_well()
    ensures { (plan : Plan) → KeepsRules plan → IsKeptWorld (world_of plan) }
{
    ports();
    a_new_marked_link_meets_both_duties::<MvrpApp>();
    a_new_marked_link_meets_both_duties::<MsrpApp>();
    every_event_keeps_marked_duties::<MsrpApp>();
    a_new_node_is_proper();
}

/// It begins with nothing but the Domain values that its nodes declare, none of them said yet:
/// where the scenario has domains, each link port of a node has the rows that the word of the
/// node's entry names, and no port has any other row.
pub fn a_scenario_begins_with_domains_alone()
    ensures { (plan : Plan) (x : ℕ) (entry : NodeEntry) (s : NodeState)
        → slice_get plan.nodes x ≡ Some entry → slice_get (world_of plan).nodes x ≡ Some s
        → IsAtStart (domain_rows plan.domains entry.domain) s }
{}

/// Each event that may happen keeps it, where what a request asks for fits, and so does each list
/// of such events.
pub fn every_event_keeps_it()
    ensures event { (e : WorldEvent) (w : WorldState) → CanHappen e w → IsEventInRange e
        → IsKeptWorld w → IsKeptWorld (world_step e w).0 }
    ensures events { (es : List WorldEvent) (w : WorldState)
        → CanAllHappen es w → AllByRecursion IsEventInRange es → IsKeptWorld w
        → IsKeptWorld (world_after es w) }
{
    ports();
    a_new_marked_link_meets_both_duties::<MvrpApp>();
    every_event_keeps_marked_duties::<MvrpApp>();
    fewer_marks_keep_marked_duties::<MvrpApp>();
    spoiling_keeps_duties::<MvrpApp>();
    mvrp::laws::what_is_sent_is_read();
    a_new_marked_link_meets_both_duties::<MsrpApp>();
    every_event_keeps_marked_duties::<MsrpApp>();
    fewer_marks_keep_marked_duties::<MsrpApp>();
    spoiling_keeps_duties::<MsrpApp>();
    msrp::laws::what_is_sent_is_read();
    every_step_keeps_a_node_proper();
    links_keep_a_node_proper();
    octets_say_what_fits();
    steps_keep_what_a_node_is();
}

/// Each event of a legal run of a scenario may happen in its turn, and what a request of it asks
/// for fits.
pub fn every_event_of_a_run_may_happen()
    ensures can { (plan : Plan) (ticks : List Tick) (end : WorldState) → KeepsRules plan
        → AreLegalTicks plan ticks end
        → CanAllHappen (events_from plan 0 ticks) (world_of plan) }
    ensures named { (plan : Plan) (ticks : List Tick) (end : WorldState) → KeepsRules plan
        → AreLegalTicks plan ticks end
        → AllByRecursion IsEventInRange (events_from plan 0 ticks) }
{
    a_scenario_begins_well();
    every_event_keeps_it();
    ports();
    steps_keep_what_a_node_is();
}

/// What a tick of a scenario may have can happen, whatever happened before in the tick, and doesn't
/// end the tick: each event of the file, a loss, a repeat and a forgery between neighbours, each
/// step of a port, and the carrying of each port's PDUs. The clock can go on, and then the next
/// tick begins. The tree stays in any case.
pub fn what_is_allowed_may_happen()
    ensures begins { (plan : Plan) → KeepsRules plan → IsDuring plan.tree 0 (world_of plan) }
    ensures can { (tree : Topology) (t : ℕ) (e : WorldEvent) (w : WorldState)
        → IsAllowed tree e → IsDuring tree t w → CanHappen e w }
    ensures stays { (tree : Topology) (t : ℕ) (e : WorldEvent) (w : WorldState)
        → IsAllowed tree e → IsDuring tree t w
        → IsDuring tree t (world_step e w).0 }
    ensures all_can { (tree : Topology) (t : ℕ) (es : List WorldEvent) (w : WorldState)
        → AllByRecursion (IsAllowed tree) es → IsDuring tree t w → CanAllHappen es w }
    ensures all_stay { (tree : Topology) (t : ℕ) (es : List WorldEvent) (w : WorldState)
        → AllByRecursion (IsAllowed tree) es → IsDuring tree t w
        → IsDuring tree t (world_after es w) }
    ensures clock { (tree : Topology) (t : ℕ) (w : WorldState) → t < 2 ^ 61 → IsDuring tree t w
        → CanHappen WorldEvent.Clock w }
    ensures next { (tree : Topology) (t : ℕ) (w : WorldState) → t < 2 ^ 61 → IsDuring tree t w
        → IsDuring tree (suc t) (world_step WorldEvent.Clock w).0 }
    ensures known { (plan : Plan) (kind : EventKind) → KeepsRules plan
        → IsKnownKind plan.nodes plan.links plan.streams kind
        → IfSome (event_of plan.tree.links plan.streams kind) (IsAllowed plan.tree) }
    ensures neighbours { (plan : Plan) (kind : EventKind) → KeepsRules plan
        → IsKnownKind plan.nodes plan.links plan.streams kind
        → NamesNeighbours plan.tree.links kind }
    ensures scripted { (plan : Plan) (t : ℕ) → KeepsRules plan
        → AllByRecursion (IsAllowed plan.tree) (map (λ e. e.1) (script_at plan t)) }
    ensures carried { (plan : Plan) → KeepsRules plan
        → AllByRecursion (IsAllowed plan.tree) (map WorldEvent.Carry (link_ports plan.tree)) }
    ensures tree { (e : WorldEvent) (w : WorldState) → (world_step e w).0.tree ≡ w.tree }
    ensures trees { (es : List WorldEvent) (w : WorldState) → (world_after es w).tree ≡ w.tree }
{
    a_scenario_begins_well();
    every_event_keeps_it();
    ports();
    steps_keep_what_a_node_is();
}

/// Ticks that lead to a state go on by each legal tick from there, and in the canonical order by
/// each canonical one.
pub fn ticks_go_on()
    ensures legal { (plan : Plan) (t t' : ℕ) (w v : WorldState) (ticks : List Tick) (tick : Tick)
        → LeadTo (IsLegalTick plan) plan t w ticks t' v → IsLegalTick plan t' v tick
        → LeadTo (IsLegalTick plan) plan t w (ticks ++ tick ∷ []) (suc t')
        (world_after (tick_events plan t' tick) v) }
    ensures canonical { (plan : Plan) (t t' : ℕ) (w v : WorldState) (ticks : List Tick)
        (tick : Tick)
        → LeadTo (IsCanonicalTick plan) plan t w ticks t' v → IsCanonicalTick plan t' v tick
        → LeadTo (IsCanonicalTick plan) plan t w (ticks ++ tick ∷ []) (suc t')
        (world_after (tick_events plan t' tick) v) }
{}

/// Every moment of a legal run of a scenario keeps it.
pub fn every_moment_keeps_it()
    ensures { (plan : Plan) (ticks : List Tick) (end w : WorldState) → KeepsRules plan
        → AreLegalTicks plan ticks end
        → IsMoment plan ticks w → IsKeptWorld w }
{
    a_scenario_begins_well();
    every_event_keeps_it();
    every_event_of_a_run_may_happen();
}

/// After every list of events that may happen, losses, repeats and forgeries included, no port has
/// booked more than its link's entry allows.
pub fn every_list_of_events_keeps_limits()
    ensures { (plan : Plan) (es : List WorldEvent) → KeepsRules plan
        → CanAllHappen es (world_of plan) → AllByRecursion IsEventInRange es
        → IsWithinLimits plan (world_after es (world_of plan)) }
{
    a_scenario_begins_well();
    every_event_keeps_it();
    a_port_stays_set_up();
    bookings_are_within_caps();
}

/// So it is at every moment of a legal run.
pub fn every_moment_is_within_limits()
    ensures { (plan : Plan) (ticks : List Tick) (end w : WorldState) → KeepsRules plan
        → AreLegalTicks plan ticks end
        → IsMoment plan ticks w → IsWithinLimits plan w }
{
    every_list_of_events_keeps_limits();
    every_event_of_a_run_may_happen();
}

/// At every moment of every run each link port of a node is set up by the scenario: the caps of its
/// ledger are those of its link's entry, and it declares the Domain values of its node's word (IEEE
/// Std 802.1Q-2018, 34.3, 35.2.2.9).
pub fn every_moment_is_set_up_by_the_plan()
    ensures caps { (plan : Plan) (ticks : List Tick) (w : WorldState) (x : ℕ) (s : NodeState)
        → IsMoment plan ticks w → slice_get w.nodes x ≡ Some s
        → map (λ (setup : Setup). setup.caps) (port_setups s)
        ≡ map caps_of_link (links_of (x + 1) plan) }
    ensures domains { (plan : Plan) (ticks : List Tick) (w : WorldState) (x : ℕ) (s : NodeState)
        (entry : NodeEntry)
        → IsMoment plan ticks w → slice_get w.nodes x ≡ Some s
        → slice_get plan.nodes x ≡ Some entry
        → AllByRecursion (λ (setup : Setup). setup.domain ≡ domain_set plan.domains entry.domain)
        (port_setups s) }
{
    a_port_stays_set_up();
}

/// At every moment of a legal run the stations talk only what the scenario has them talk, so that
/// no two talk one stream.
pub fn every_moment_talks_by_the_plan()
    ensures talks { (plan : Plan) (ticks : List Tick) (end w : WorldState) → KeepsRules plan
        → AreLegalTicks plan ticks end
        → IsMoment plan ticks w → AreTalksOfPlan plan w }
    ensures one { (plan : Plan) (ticks : List Tick) (end w : WorldState) → KeepsRules plan
        → AreLegalTicks plan ticks end
        → IsMoment plan ticks w → HasOneTalker w }
{}

/// Ticks in the canonical order are legal.
pub fn canonical_ticks_are_legal()
    ensures { (plan : Plan) (ticks : List Tick) (end : WorldState)
        → AreCanonicalTicks plan ticks end → AreLegalTicks plan ticks end }
{}

/// A port's step is of its node alone: the node becomes, and answers, what its own step says, and
/// each other node stays as it is. So steps of a node's ports each see the node that the steps
/// before left, and steps of different nodes don't see each other.
pub fn a_step_is_of_its_node_alone()
    ensures own { (n : NodeNo) (port : PortNo) (step : PortStep) (w : WorldState) (s : NodeState)
        → node_at n w ≡ Some s
        → node_at n (world_step (port_event n port step) w).0
        ≡ Some (node_step (port_step port step) s).0 }
    ensures answer { (n : NodeNo) (port : PortNo) (step : PortStep) (w : WorldState) (s : NodeState)
        → node_at n w ≡ Some s
        → (world_step (port_event n port step) w).1
        ≡ step_reply (node_step (port_step port step) s).1 }
    ensures others { (n m : NodeNo) (port : PortNo) (step : PortStep) (w : WorldState)
        → n.0 - 1 ≢ m.0 - 1
        → node_at m (world_step (port_event n port step) w).0 ≡ node_at m w }
{}

/// Nodes may make the steps of their ports apart from the network, each from the state that it had
/// there and by itself: with its own answers, such a node is what the same steps as events make of
/// the network, and the marks have followed what its ports took and sent (`marks_of_steps`). So it
/// is with steps of all nodes, nodes ascending: nodes and marks after them are the network after
/// these events, with the answers that these have, and keep what every network keeps.
pub fn steps_made_apart_keep_it()
    ensures one { (n : NodeNo) (made : List NodeStep) (w : WorldState) (s : NodeState)
        → node_at n w ≡ Some s → HaveOwnReplies made s
        → world_after (events_of n made) w ≡ after_own n made s w }
    ensures own { (n : NodeNo) (made : List NodeStep) (w : WorldState) (s : NodeState)
        → node_at n w ≡ Some s → HaveOwnReplies made s
        → replies_of made ≡ replies_to (events_of n made) w }
    ensures all { (made : List NodeSteps) (w : WorldState) → AreMadeApart w made
        → world_after (step_events made) w ≡ after_nodes made w }
    ensures replies { (made : List NodeSteps) (w : WorldState) → AreMadeApart w made
        → step_replies made ≡ replies_to (step_events made) w }
    ensures keeps { (made : List NodeSteps) (w : WorldState) → AreMadeApart w made
        → IsKeptWorld w → IsKeptWorld (after_nodes made w) }
{
    every_event_keeps_it();
}

/// What every network keeps is what it keeps beside its nodes, and what each of them keeps by
/// itself, which its type says.
pub fn what_is_kept_is_whole()
    ensures whole { (w : WorldState) → IsKeptWorld w → IsWhole w }
    ensures kept { (w : WorldState) → IsWhole w → AllByRecursion IsProperNode w.nodes
        → IsKeptWorld w }
{}

/// Nothing waits to be carried when a network begins, nor at the end of a tick at whose beginning
/// nothing did. Where no step of such a tick was Send, the carrying at its end changes nothing,
/// since a Send alone puts a PDU in an outbox.
pub fn a_tick_carries_what_it_has_sent()
    ensures begins { (plan : Plan) → NothingWaits (world_of plan) }
    ensures nothing { (plan : Plan) (t : ℕ) (w : WorldState) (tick : Tick)
        → IsDuring plan.tree t w → NothingWaits w → has_send tick.steps ≡ false
        → world_after (map WorldEvent.Carry (link_ports plan.tree)) (after_steps plan t tick w)
        ≡ after_steps plan t tick w }
    ensures next { (plan : Plan) (t : ℕ) (w : WorldState) (tick : Tick)
        → IsDuring plan.tree t w → NothingWaits (world_after (tick_events plan t tick) w) }
{
    ports();
}
