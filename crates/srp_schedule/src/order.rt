//! The jobs of a node in one tick, in the canonical order.

ghost use Rattle.std.specs.Prelude.{◌≡◌, ◌≤◌, ◌++◌, ◌∷◌, [], false, length, map, filter, replicate, IfOk, OnOk};
ghost use Rattle.std.specs.List.{range_with_len};
ghost use Rattle.tree_topology.specs.Topology.{HasNode};
ghost use Rattle.srp_base.specs.declared.mrp.App.TheVariants.{Mvrp, Msrp};
ghost use Rattle.node_core.specs.declared.types.PortStep.TheVariants.{Send};
ghost use Rattle.node_core.specs.State.{ports_of, job_list, is_busy_node};
ghost use Rattle.world_core.specs.Ticks.{canonical_order};
ghost use Rattle.srp_schedule.specs.Order.{is_in_turn, turn_from, order_of};

use node_core::{Node, PortStep, is_sending_time, no_key};
use srp_base::{App, NoMemory, NodeNo, PortNo, Seq};
use std::alloc::Global;
use world_core::World;

/// The four turns of a node's ports in a tick.
#[derive(Clone, Copy)]
pub(crate) enum Turn {
    Works,
    Dues,
    Settles,
    Sends,
}

/// The jobs of a node in one tick, each with its port: all Works, then all Dues, then all Settles,
/// then all Sends, ports ascending in each.
pub(crate) fn jobs_in_order(
    alloc: Global,
    world: &World,
    number: NodeNo,
) -> Result<Vec<(PortNo, PortStep)>, NoMemory>
    requires { HasNode world.now.tree number.0 }
    ensures { IfOk result (λ jobs. jobs.items ≡ canonical_order number world.now) }
{
    let _ = no_key();
    let node = world.node(number);
    if !node.is_busy() {
        return quiet_jobs(alloc, node);
    }
    let jobs = jobs_by_port(alloc, node)?;
    in_turns(alloc, jobs.as_slice())
}

// The jobs of a node that isn't busy: it has nothing to do but send, at a moment of sending.
fn quiet_jobs(alloc: Global, node: &Node) -> Result<Vec<(PortNo, PortStep)>, NoMemory>
    requires { is_busy_node node.now.state ≡ false }
    ensures { IfOk result (λ v. v.items ≡ order_of (map (λ at. job_list at node.now.state)
        (range_with_len 0 (ports_of node.now.state)))) }
{
    let _ = no_key();
    if is_sending_time(node.now()) {
        sends(alloc, node.ports())
    } else {
        Ok(Vec::new(alloc))
    }
}

// A Send of each application at each of so many ports.
fn sends(alloc: Global, ports: u8) -> Result<Vec<(PortNo, PortStep)>, NoMemory>
    ensures { IfOk result (λ v. v.items
        ≡ turn_from Turn.Sends 1 (replicate ports (Send Mvrp ∷ Send Msrp ∷ []))) }
{
    let _ = no_key();
    let mut order = Vec::with_capacity(alloc, usize::from(ports) * 2)?;
    for at in 0..ports {
        order.push((PortNo(at + 1), PortStep::Send(App::Mvrp)))?;
        order.push((PortNo(at + 1), PortStep::Send(App::Msrp)))?;
    }
    Ok(order)
}

// The jobs of each of a node's ports, ports ascending.
fn jobs_by_port(alloc: Global, node: &Node) -> Result<Vec<Seq<PortStep>>, NoMemory>
    ensures jobs { IfOk result (λ v. v.items ≡ map (λ at. job_list at node.now.state)
        (range_with_len 0 (ports_of node.now.state))) }
    ensures few { IfOk result (λ v. length v.items ≤ 255) }
{
    let _ = no_key();
    let mut jobs = Vec::new(alloc);
    for at in 0..node.ports() {
        jobs.push(node.jobs(PortNo(at + 1))?)?;
    }
    Ok(jobs)
}

// The jobs of all ports, turn by turn.
fn in_turns(alloc: Global, jobs: &[Seq<PortStep>]) -> Result<Vec<(PortNo, PortStep)>, NoMemory>
    requires { length jobs.now ≤ 255 }
    ensures { IfOk result (λ v. v.items ≡ order_of jobs.now) }
{
    let _ = no_key();
    let mut order = Vec::new(alloc);
    push_turn(&mut order, jobs, Turn::Works)?;
    push_turn(&mut order, jobs, Turn::Dues)?;
    push_turn(&mut order, jobs, Turn::Settles)?;
    push_turn(&mut order, jobs, Turn::Sends)?;
    Ok(order)
}

// One turn of all ports.
fn push_turn(
    order: &mut Vec<(PortNo, PortStep)>,
    jobs: &[Seq<PortStep>],
    turn: Turn,
) -> Result<(), NoMemory>
    requires { length jobs.now ≤ 255 }
    ensures { OnOk result (order.new.items ≡ order.old.items ++ turn_from turn 1 jobs.now) }
{
    let _ = no_key();
    for (at, steps) in jobs.iter().enumerate() {
        push_steps(order, PortNo(at as u8 + 1), steps.as_slice(), turn)?;
    }
    Ok(())
}

// One turn of a port.
fn push_steps(
    order: &mut Vec<(PortNo, PortStep)>,
    port: PortNo,
    steps: &[PortStep],
    turn: Turn,
) -> Result<(), NoMemory>
    ensures { OnOk result (order.new.items
        ≡ order.old.items ++ map (λ step. (port, step)) (filter (is_in_turn turn) steps.now)) }
{
    let _ = no_key();
    for step in steps {
        if is_of(turn, *step) {
            order.push((port, *step))?;
        }
    }
    Ok(())
}

// Whether a step is made in a turn.
fn is_of(turn: Turn, step: PortStep) -> bool
    ensures { result ≡ is_in_turn turn step }
{
    match turn {
        Turn::Works => matches!(step, PortStep::Work),
        Turn::Dues => matches!(step, PortStep::Due),
        Turn::Settles => matches!(step, PortStep::Settle),
        Turn::Sends => matches!(step, PortStep::Send(_)),
    }
}
