//! The steps of all nodes in one tick.

ghost use Rattle.std.specs.Prelude.{◌≡◌, length, IfOk, OnOk};
ghost use Rattle.tree_topology.specs.Topology.{HasNode};
ghost use Rattle.world_core.specs.{Ticks.step_events, World.world_after, World.replies_to, Apart.events_of, Apart.replies_of, Apart.HavePorts};
ghost use Rattle.srp_schedule.specs.Made.{AreSteps, HaveJobPorts, IsNodeMade, jobs_done};
ghost use Rattle.srp_schedule.specs.Rest.{AreRests, IsRestAt};

use crate::order::jobs_in_order;
use crate::rest::{Rest, rest_after, rests_now};
use node_core::{NodeStep, PortStep, no_key};
use srp_base::{NoMemory, NodeNo, PortNo};
use std::alloc::Global;
use world_core::laws::what_is_allowed_may_happen;
use world_core::{NodeSteps, World, push_steps};

/// Lets every node make its steps of one tick, and answers them: nodes ascending, those of each in
/// the canonical order, and none of a node that has nothing to do. A node that is known to rest
/// isn't asked.
pub(crate) fn make_steps(
    alloc: Global,
    world: &mut World,
    rests: &mut Vec<Rest>,
) -> Result<Vec<NodeSteps>, NoMemory>
    requires { AreRests world.old rests.old.items }
    ensures steps { IfOk result
        (λ made. AreSteps (length world.old.tree.kinds) world.old made.items) }
    ensures after { IfOk result
        (λ made. world.new ≡ world_after (step_events made.items) world.old) }
    ensures rests { OnOk result (AreRests world.new rests.new.items) }
{
    world.keeps();
    let mut made = Vec::new(alloc);
    for x in 0..world.tree().nodes() {
        let number = NodeNo(x + 1);
        let steps = make_or_rest(alloc, world, number, &mut rests[usize::from(x)])?;
        push_steps(&mut made, number, steps)?;
    }
    Ok(made)
}

// Lets a node make its steps of one tick, none where it is known to rest, and keeps what is known
// of it behind them.
fn make_or_rest(
    alloc: Global,
    world: &mut World,
    number: NodeNo,
    rest: &mut Rest,
) -> Result<Vec<NodeStep>, NoMemory>
    requires node { HasNode world.old.tree number.0 }
    requires rest { IsRestAt number world.old rest.old }
    ensures made { IfOk result (λ made. IsNodeMade number world.old world.new made.items) }
    ensures rest { OnOk result (IsRestAt number world.new rest.new) }
{
    if rests_now(world.node(number), *rest) {
        return Ok(Vec::new(alloc));
    }
    let made = make_steps_of(alloc, world, number)?;
    *rest = rest_after(world.node(number), *rest, !made.is_empty());
    Ok(made)
}

// Lets a node make its steps of one tick, in the canonical order.
fn make_steps_of(
    alloc: Global,
    world: &mut World,
    number: NodeNo,
) -> Result<Vec<NodeStep>, NoMemory>
    requires { HasNode world.old.tree number.0 }
    ensures { IfOk result (λ made. IsNodeMade number world.old world.new made.items) }
{
    let _ = no_key();
    world.keeps();
    let jobs = jobs_in_order(alloc, world, number)?;
    make_all(alloc, world, number, jobs.as_slice())
}

// Lets the ports of a node make these steps, in order.
fn make_all(
    alloc: Global,
    world: &mut World,
    node: NodeNo,
    jobs: &[(PortNo, PortStep)],
) -> Result<Vec<NodeStep>, NoMemory>
    requires { HaveJobPorts world.old.tree node jobs.now }
    ensures order { IfOk result (λ made. jobs_done made.items ≡ jobs.now) }
    ensures known { IfOk result (λ made. HavePorts world.old.tree node made.items) }
    ensures replies { IfOk result
        (λ made. replies_of made.items ≡ replies_to (events_of node made.items) world.old) }
    ensures after { IfOk result
        (λ made. world.new ≡ world_after (events_of node made.items) world.old) }
    ensures tree { OnOk result (world.new.tree ≡ world.old.tree) }
{
    let _ = no_key();
    what_is_allowed_may_happen();
    let mut made = Vec::with_capacity(alloc, jobs.len())?;
    for job in jobs {
        made.push(world.make_step(node, job)?)?;
    }
    Ok(made)
}
