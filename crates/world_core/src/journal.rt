//! What happened in a run, tick by tick.

ghost use Rattle.std.specs.Prelude.{◌≡◌, OnOk};
ghost use Rattle.world_core.specs.Ticks.{with_steps};

use crate::events::WorldReply;
use crate::world::World;
use node_core::{NodeStep, no_key};
use srp_base::{NoMemory, NodeNo, Seq, Timeline};

/// The steps that a node made in a tick, in order.
#[derive(PartialEq, Eq, Drop)]
pub struct NodeSteps {
    pub node: NodeNo,
    pub steps: Seq<NodeStep>,
}

/// A tick: the scripted events with the numbers of their entries in the file, and the steps of the
/// nodes that made some, ascending by node.
#[derive(PartialEq, Eq, Drop)]
pub struct Tick {
    pub events: Seq<(u32, WorldReply)>,
    pub steps: Seq<NodeSteps>,
}

/// All ticks of a run, in order.
#[derive(PartialEq, Eq, Drop)]
pub struct Journal {
    pub ticks: Seq<Tick>,
}

/// A run of a scenario: the network at its end, what happened, and what was in force at the ports
/// after each tick's steps.
#[derive(Drop)]
pub struct Run {
    pub world: World,
    pub journal: Journal,
    pub timeline: Timeline,
}

/// Puts the steps of a node behind those of the nodes before it, where it has made some.
pub fn push_steps(
    made: &mut Vec<NodeSteps>,
    node: NodeNo,
    steps: Vec<NodeStep>,
) -> Result<(), NoMemory>
    ensures { OnOk result (made.new.items ≡ with_steps node steps.items made.old.items) }
{
    let _ = no_key();
    if !steps.is_empty() {
        let steps = Seq::from_vec(steps);
        made.push(NodeSteps { node, steps })?;
    }
    Ok(())
}
