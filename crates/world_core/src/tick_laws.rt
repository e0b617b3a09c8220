//! What makes a tick legal, step by step, and that a legal run goes on from each network during a
//! tick: laws over the states that contracts see. Each is a function that does nothing; calling it
//! brings the law to a proof.

ghost use Rattle.std.specs.Prelude.{◌≡◌, ◌+◌, ◌<◌, ◌≤◌, [], ◌∷◌, ◌++◌, ℕ, suc, List, length};
ghost use Rattle.srp_base.specs.declared.ports.PortChange.{PortChange};
ghost use Rattle.tree_topology.specs.{Topology.Topology, Topology.HasNode, Ports.neighbours};
ghost use Rattle.topology_file.specs.{Plan.Plan, Scenario.KeepsRules};
ghost use Rattle.node_core.specs.declared.{types.NodeStep.NodeStep, types.PortStep.PortStep};
ghost use Rattle.world_core.specs.declared.journal.NodeSteps.{NodeSteps};
ghost use Rattle.world_core.specs.declared.journal.Tick.{Tick};
ghost use Rattle.world_core.specs.World.{WorldState, world_after};
ghost use Rattle.world_core.specs.Start.{world_of};
ghost use Rattle.world_core.specs.Ticks.{after_steps, step_events, tick_events, IsLegalTick, LeadTo};
ghost use Rattle.world_core.specs.During.{IsDuring};
ghost use Rattle.world_core.specs.Timeline.{AreChanges};
ghost use Rattle.world_core.specs.History.{acts_noted};
ghost use Rattle.world_core.specs.NotedRuns.{IsNotedRun};
ghost use Rattle.world_core.specs.Apart.{events_of};
ghost use Rattle.world_core.specs.OneByOne.{node_jobs, MakeLeft, MakeAll, IsOneByOne};

use crate::laws::{ticks_go_on, what_is_allowed_may_happen};
use crate::timeline_laws::{
    a_timeline_goes_on, noting_who_has_acted_notes_a_tick,
    only_a_node_that_acts_changes_what_is_in_force, what_ends_a_tick_changes_nothing_in_force,
    what_is_noted_is_in_force,
};

/// A tick is legal exactly where its events have their answers, and each node in its turn makes the
/// jobs of its ports one by one: each step is the next of the jobs that some port has left, with
/// the network's answer, until no port has any.
pub fn a_legal_tick_is_made_one_by_one()
    ensures made { (plan : Plan) (t : ℕ) (w : WorldState) (tick : Tick) → KeepsRules plan
        → IsDuring plan.tree t w → IsLegalTick plan t w tick → IsOneByOne plan t w tick }
    ensures legal { (plan : Plan) (t : ℕ) (w : WorldState) (tick : Tick) → KeepsRules plan
        → IsDuring plan.tree t w → IsOneByOne plan t w tick → IsLegalTick plan t w tick }
{
    what_is_allowed_may_happen();
}

/// From each network during a tick a legal tick can be made, behind it the next tick begins, and so
/// a run can be made legally to the scenario's end.
pub fn a_legal_run_goes_on()
    ensures tick { (plan : Plan) (t : ℕ) (w : WorldState) → KeepsRules plan
        → IsDuring plan.tree t w → (tick : Tick) × IsLegalTick plan t w tick }
    ensures next { (plan : Plan) (t : ℕ) (w : WorldState) (tick : Tick) → KeepsRules plan
        → t < plan.ticks → IsDuring plan.tree t w → IsLegalTick plan t w tick
        → IsDuring plan.tree (suc t) (world_after (tick_events plan t tick) w) }
    ensures rest { (plan : Plan) (t : ℕ) (w : WorldState) → KeepsRules plan
        → t ≤ plan.ticks → IsDuring plan.tree t w
        → (ticks : List Tick)
        × ((end : WorldState) × LeadTo (IsLegalTick plan) plan t w ticks plan.ticks end) }
{
    what_is_allowed_may_happen();
}

/// So can the rest of a tick: what a node's ports have left of their jobs, and all jobs of the
/// nodes from some number on. A node has jobs for each of its ports.
pub fn a_tick_can_be_made_to_its_end()
    ensures count { (tree : Topology) (t x : ℕ) (w : WorldState) → IsDuring tree t w
        → HasNode tree x
        → length (node_jobs (record { 0 = x }) w) ≡ length (neighbours tree.links x) }
    ensures jobs { (plan : Plan) (t x : ℕ) (left : List (List PortStep)) (w : WorldState)
        → KeepsRules plan → IsDuring plan.tree t w → HasNode plan.tree x
        → length left ≡ length (neighbours plan.tree.links x)
        → (made : List NodeStep) × MakeLeft (record { 0 = x }) left w made
        × IsDuring plan.tree t (world_after (events_of (record { 0 = x }) made) w) }
    ensures nodes { (plan : Plan) (t x count : ℕ) (w : WorldState) → KeepsRules plan
        → IsDuring plan.tree t w → 1 ≤ x → x + count ≡ suc (length plan.tree.kinds)
        → (steps : List NodeSteps) × MakeAll x count w steps
        × IsDuring plan.tree t (world_after (step_events steps) w) }
{
    what_is_allowed_may_happen();
}

/// A legal run with what it has noted goes on by each legal tick, once the tick is noted: the ticks
/// lead on, the next tick begins, and the timeline is theirs.
pub fn a_noted_run_goes_on()
    ensures begins { (plan : Plan) → KeepsRules plan → IsNotedRun plan 0 [] (world_of plan) [] }
    ensures changes { (plan : Plan) (t : ℕ) (ticks : List Tick) (w : WorldState)
        (changes : List PortChange)
        → IsNotedRun plan t ticks w changes → AreChanges plan.tree t changes }
    ensures next { (plan : Plan) (t : ℕ) (ticks : List Tick) (w : WorldState) (tick : Tick)
        (changes : List PortChange)
        → KeepsRules plan → t < plan.ticks → IsNotedRun plan t ticks w changes
        → IsLegalTick plan t w tick
        → IsNotedRun plan (suc t) (ticks ++ tick ∷ []) (world_after (tick_events plan t tick) w)
        (acts_noted t tick.steps (after_steps plan t tick w) changes) }
{
    what_is_allowed_may_happen();
    ticks_go_on();
    a_legal_run_goes_on();
    a_timeline_goes_on();
    what_ends_a_tick_changes_nothing_in_force();
    what_is_noted_is_in_force();
    only_a_node_that_acts_changes_what_is_in_force();
    noting_who_has_acted_notes_a_tick();
}
