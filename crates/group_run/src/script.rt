//! The events of a file in one tick.

ghost use Rattle.std.specs.Prelude.{◌≡◌, suc, IfOk, OnOk};
ghost use Rattle.tree_topology.specs.{Graph.Joined, Ports.port_to};
ghost use Rattle.group_run.specs.Allowed.{NamesNeighbours};
ghost use Rattle.group_run.specs.Cursor.{IsCursor};
ghost use Rattle.group_run.specs.Ticks.{event_of, script_at};

use crate::laws::what_events_name_are_neighbours;
use group_file::{GroupKind, GroupScenario};
use mmrp::GroupEvent;
use srp_base::{Cs, EgressPort, NoMemory, NodeNo};
use std::alloc::Global;
use tree_topology::Tree;

/// The events of a scenario in the tick of this moment, in the order of the file, from the cursor
/// on. The cursor then stands at the first event of a later tick.
pub(crate) fn script_of(
    alloc: Global,
    scenario: &GroupScenario,
    now: Cs,
    cursor: &mut usize,
) -> Result<Vec<GroupEvent>, NoMemory>
    requires { IsCursor scenario.now.events now.0 cursor.old }
    ensures events { IfOk result (λ v. v.items ≡ script_at scenario.now now.0) }
    ensures cursor { OnOk result (IsCursor scenario.now.events (suc now.0) cursor.new) }
{
    what_events_name_are_neighbours();
    scenario.keeps_rules();
    let events = scenario.events.as_slice();
    let first = *cursor;
    let mut script = Vec::new(alloc);
    for i in first..events.len() {
        let entry = &events[i];
        if entry.tick != now.0 {
            *cursor = i;
            return Ok(script);
        }
        script.push(event_of(&scenario.tree, &entry.kind))?;
    }
    *cursor = events.len();
    Ok(script)
}

// What the file's event is in the network.
fn event_of(tree: &Tree, kind: &GroupKind) -> GroupEvent
    requires { NamesNeighbours tree.now.links kind.now }
    ensures { result ≡ event_of tree.now.links kind.now }
{
    match kind {
        GroupKind::Join { station, mac } => GroupEvent::Join(*station, *mac),
        GroupKind::Part { station, mac } => GroupEvent::Part(*station, *mac),
        GroupKind::Lose { from, to, index } => {
            GroupEvent::Lose(receiving_port(tree, *to, *from), *index)
        }
        GroupKind::Repeat { from, to, index } => {
            GroupEvent::Repeat(receiving_port(tree, *to, *from), *index)
        }
    }
}

// The port of a node at which the PDUs of its neighbour come in.
fn receiving_port(tree: &Tree, node: NodeNo, neighbour: NodeNo) -> EgressPort
    requires { Joined tree.now.links node.0 neighbour.0 }
    ensures { result ≡ port_to tree.now.links node.0 neighbour.0 }
{
    match tree.port_to(node, neighbour) {
        Some(port) => port,
        None => unreachable!(),
    }
}
