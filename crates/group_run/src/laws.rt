//! What may happen in the ticks of a run. Each is a function that does nothing; calling it brings
//! the law to a proof.

ghost use Rattle.std.specs.Prelude.{ℕ};
ghost use Rattle.tree_topology.specs.Topology.{Topology};
ghost use Rattle.group_file.specs.declared.entries.GroupKind.{GroupKind};
ghost use Rattle.group_file.specs.{Events.IsKnownGroup, Plan.GroupPlan, Scenario.KeepsGroupRules};
ghost use Rattle.mmrp.specs.declared.events.GroupEvent.{GroupEvent};
ghost use Rattle.mmrp.specs.Net.{CanHappen, NetGroups, group_step};
ghost use Rattle.group_run.specs.Allowed.{AreAllowed, IsAllowed, IsInTick, NamesNeighbours};
ghost use Rattle.group_run.specs.Ticks.{carries, net_steps, script_at};

use mmrp::laws::what_events_leave_alone;
use tree_topology::laws::ports;

/// What a tick may have can happen, whatever happened before in it, and doesn't end the tick.
pub fn what_is_allowed_may_happen()
    ensures can { (tree : Topology) (t : ℕ) (e : GroupEvent) (w : NetGroups) → IsAllowed tree e
        → IsInTick tree t w → CanHappen e w }
    ensures stays { (tree : Topology) (t : ℕ) (e : GroupEvent) (w : NetGroups) → IsAllowed tree e
        → IsInTick tree t w → IsInTick tree t (group_step e w).0 }
{
    what_events_leave_alone();
}

/// The nodes between which a file's event has a PDU lost, or come twice, are neighbours.
pub fn what_events_name_are_neighbours()
    ensures { (plan : GroupPlan) (kind : GroupKind) → KeepsGroupRules plan
        → IsKnownGroup plan.nodes plan.links kind → NamesNeighbours plan.tree.links kind }
{}

/// What happens in a tick of a scenario may: the events of its file, the steps of the nodes of a
/// network over its tree, and the carrying of each port's PDUs.
pub fn what_happens_in_a_tick_is_allowed()
    ensures scripted { (plan : GroupPlan) (t : ℕ) → KeepsGroupRules plan
        → AreAllowed plan.tree (script_at plan t) }
    ensures steps { (w : NetGroups) → AreAllowed w.tree (net_steps w) }
    ensures carried { (plan : GroupPlan) → KeepsGroupRules plan
        → AreAllowed plan.tree (carries plan.tree) }
{
    ports();
}
