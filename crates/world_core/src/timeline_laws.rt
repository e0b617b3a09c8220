//! What noting a tick makes of a timeline, and what a timeline says of a run: laws over the states
//! that contracts see. Each is a function that does nothing; calling it brings the law to a proof.

ghost use Rattle.std.specs.Prelude.{◌≡◌, ◌<◌, ◌≤◌, ◌+◌, ◌++◌, ◌∷◌, [], ℕ, suc, false, List, length, map, All};
ghost use Rattle.srp_base.specs.declared.{numbers.EgressPort.EgressPort, ports.PortChange.PortChange};
ghost use Rattle.tree_topology.specs.Topology.{Topology, HasPort};
ghost use Rattle.frame_flow.specs.{Force.changes_at, Force.in_force, Copies.all_places, Given.HasSlopesBelow};
ghost use Rattle.topology_file.specs.{Plan.Plan, Scenario.KeepsRules};
ghost use Rattle.world_core.specs.declared.journal.NodeSteps.{NodeSteps};
ghost use Rattle.world_core.specs.declared.journal.Tick.{Tick};
ghost use Rattle.world_core.specs.World.{WorldState, world_after};
ghost use Rattle.world_core.specs.Start.{world_of};
ghost use Rattle.world_core.specs.Ticks.{after_steps, closing_events, IsLegalTick, AreLegalTicks};
ghost use Rattle.world_core.specs.Moments.{IsMoment};
ghost use Rattle.world_core.specs.Limits.{caps_at};
ghost use Rattle.world_core.specs.Timeline.{force_at, with_notes, AreChanges, Says, SaysFrom, world_after_ticks, IsAfterSteps, IsTimelineOf};
ghost use Rattle.world_core.specs.History.{has_acted, acts_noted};

use crate::laws::every_moment_is_within_limits;

/// Once a tick is noted, the changes are again in order and of the tree's ports, and none is after
/// that tick.
pub fn noting_keeps_changes()
    ensures { (tick : ℕ) (w : WorldState) (changes : List PortChange)
        → AreChanges w.tree tick changes
        → AreChanges w.tree (suc tick) (with_notes tick w changes) }
{}

/// Once a tick is noted, what was in force at a port in an earlier tick is so still, and from that
/// tick on what is in force is what the network has.
pub fn what_is_noted_is_in_force()
    ensures before { (tick t : ℕ) (w : WorldState) (changes : List PortChange) (p : EgressPort)
        → AreChanges w.tree tick changes → HasPort w.tree p → t < tick
        → in_force t (changes_at (with_notes tick w changes) p)
        ≡ in_force t (changes_at changes p) }
    ensures from { (tick : ℕ) (w : WorldState) (changes : List PortChange)
        → AreChanges w.tree tick changes
        → SaysFrom tick (with_notes tick w changes) w }
{}

/// Nothing is in force at a network's start, and what ends a tick, the carrying of PDUs and the
/// clock, changes nothing that is in force.
pub fn what_ends_a_tick_changes_nothing_in_force()
    ensures start { (plan : Plan) → SaysFrom 0 [] (world_of plan) }
    ensures closing { (tree : Topology) (w : WorldState) (p : EgressPort)
        → force_at p (world_after (closing_events tree) w) ≡ force_at p w }
{}

/// In a legal tick, what is in force at a port changes only where the port's node makes a step
/// other than Send: requests, losses, repeats and forgeries change nothing in force, a step is of
/// its node alone, and what a node sends leaves its ledgers and what is registered of each VID.
pub fn only_a_node_that_acts_changes_what_is_in_force()
    ensures { (plan : Plan) (t : ℕ) (w : WorldState) (tick : Tick) (p : EgressPort)
        → IsLegalTick plan t w tick
        → HasPort plan.tree p → has_acted p.node tick.steps ≡ false
        → force_at p (after_steps plan t tick w) ≡ force_at p w }
{}

/// Noting the nodes that have acted in a tick notes the tick, where the changes say already what is
/// in force at the others.
pub fn noting_who_has_acted_notes_a_tick()
    ensures { (tick : ℕ) (steps : List NodeSteps) (w : WorldState) (changes : List PortChange)
        → ((p : EgressPort) → HasPort w.tree p → has_acted p.node steps ≡ false
        → Says tick changes p (force_at p w))
        → acts_noted tick steps w changes ≡ with_notes tick w changes }
{}

/// A timeline begins with no change. It goes on by a tick: its changes and what is noted of the
/// network after the tick's steps; or the same changes, where these say already what that network
/// has.
pub fn a_timeline_goes_on()
    ensures begins { (plan : Plan) → IsTimelineOf plan [] [] }
    ensures noted { (plan : Plan) (ticks : List Tick) (tick : Tick) (changes : List PortChange)
        (w : WorldState)
        → IsTimelineOf plan ticks changes
        → w ≡ after_steps plan (length ticks) tick (world_after_ticks plan ticks) → w.tree
        ≡ plan.tree
        → IsTimelineOf plan (ticks ++ tick ∷ []) (with_notes (length ticks) w changes) }
    ensures same { (plan : Plan) (ticks : List Tick) (tick : Tick) (changes : List PortChange)
        (w : WorldState)
        → IsTimelineOf plan ticks changes
        → w ≡ after_steps plan (length ticks) tick (world_after_ticks plan ticks) → w.tree
        ≡ plan.tree
        → SaysFrom (length ticks) changes w
        → IsTimelineOf plan (ticks ++ tick ∷ []) changes }
    ensures next { (plan : Plan) (ticks : List Tick) (tick : Tick)
        → world_after_ticks plan (ticks ++ tick ∷ [])
        ≡ world_after (closing_events plan.tree)
        (after_steps plan (length ticks) tick (world_after_ticks plan ticks)) }
{}

/// The network after a tick's steps is a moment of the run.
pub fn a_moment_follows_each_ticks_steps()
    ensures { (plan : Plan) (ticks : List Tick) (t : ℕ) (w : WorldState)
        → IsAfterSteps plan ticks t w
        → IsMoment plan ticks w }
{}

/// In the timeline of a legal run the slopes of each change are within what its port may give away,
/// to class A and to both classes, so that at each port both together are below the link's rate.
pub fn slopes_stay_within_limits()
    ensures class_a { (plan : Plan) (ticks : List Tick) (end : WorldState)
        (changes : List PortChange)
        → KeepsRules plan → AreLegalTicks plan ticks end → IsTimelineOf plan ticks changes
        → All (λ c. c.slope_a ≤ (caps_at plan c.at).class_a) changes }
    ensures both { (plan : Plan) (ticks : List Tick) (end : WorldState) (changes : List PortChange)
        → KeepsRules plan → AreLegalTicks plan ticks end → IsTimelineOf plan ticks changes
        → All (λ c. c.slope_a + c.slope_b ≤ (caps_at plan c.at).both) changes }
    ensures rates { (plan : Plan) (ticks : List Tick) (end : WorldState) (changes : List PortChange)
        → KeepsRules plan → AreLegalTicks plan ticks end → IsTimelineOf plan ticks changes
        → All (HasSlopesBelow changes) (all_places plan.tree.links (map (λ l. l.rate) plan.links)) }
{
    every_moment_is_within_limits();
}
