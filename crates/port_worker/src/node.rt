//! The steps of one node in a tick, which its port threads make.

ghost use Rattle.std.specs.Prelude.{◌≡◌, ◌<◌, ◌^◌, false, true, length, map, IfOk};
ghost use Rattle.std.specs.List.{range_with_len};
ghost use Rattle.node_core.specs.State.{NodeState, ports_of, job_list};
ghost use Rattle.turn_lock.specs.Passes.{first_passes};
ghost use Rattle.bridge_book.specs.Hub.{first_node};
ghost use Rattle.port_worker.specs.Turns.{AreTurns, AreDone};
ghost use Rattle.port_worker.specs.Worked.{has_jobs, IsNodeWorked, IsWorked};

use crate::port_threads::take_turns;
use crate::turn::{Turn, finish};
use bridge_book::laws::ports_make_their_steps;
use bridge_book::{Gate, HubCloseErr, HubClosed, NodeHub, Notice, PortPass};
use node_core::laws::steps_keep_what_a_node_is;
use node_core::{Node, NodeStep, PortStep, is_sending_time, no_key};
use srp_base::{NoMemory, NodeNo, PortNo, Seq};
use std::alloc::Global;
use std::sync::Wait;
use std::thread::Threads;

/// A node with its number.
#[derive(Drop)]
pub(crate) struct Task {
    pub(crate) number: NodeNo,
    pub(crate) node: Node,
}

/// A node after its steps of a tick, with these steps and what each did to the PDUs on its port's
/// link.
#[derive(Drop)]
pub(crate) struct Worked {
    pub(crate) number: NodeNo,
    pub(crate) node: Node,
    pub(crate) steps: Seq<NodeStep>,
    pub(crate) notices: Seq<Notice>,
}

/// Whether a port of a node has something to do.
pub(crate) fn has_jobs(node: &Node) -> bool
    ensures { result ≡ has_jobs node.now.state }
{
    node.ports() > 0 && (node.is_busy() || is_sending_time(node.now()))
}

/// Lets the ports of a node make their jobs of a tick, each in a thread of its own. A node that has
/// nothing to do stays as it is.
pub(crate) fn work<R: Threads + Wait + Sync, G: Gate>(
    rt: &R,
    alloc: Global,
    gate: &G,
    task: Task,
) -> Result<Worked, NoMemory>
    ensures { IfOk result (λ worked. IsWorked task worked) }
{
    let Task { number, node } = task;
    if has_jobs(&node) {
        work_by_ports(rt, alloc, gate, number, node)
    } else {
        Ok(idle(alloc, number, node))
    }
}

// Lets the ports of a node that has something to do make their jobs.
fn work_by_ports<R: Threads + Wait + Sync, G: Gate>(
    rt: &R,
    alloc: Global,
    gate: &G,
    number: NodeNo,
    node: Node,
) -> Result<Worked, NoMemory>
    requires { has_jobs node.state ≡ true }
    ensures { IfOk result (λ worked. IsWorked (record { number = number; node = node }) worked) }
{
    let lists = jobs_by_port(alloc, &node)?;
    let jobs = lists.as_slice();
    let (hub, passes) = begin(alloc, number, node)?;
    let turns = take_turns(rt, gate, &hub, number, jobs, passes)?;
    let done = finish_all(rt, alloc, gate, &hub, number, jobs, turns)?;
    let closed = close(hub, jobs, done)?;
    Ok(worked_of(number, closed))
}

// A node that has made no step.
fn idle(alloc: Global, number: NodeNo, node: Node) -> Worked
    requires { has_jobs node.state ≡ false }
    ensures number { result.number ≡ number }
    ensures few { length result.steps < 2 ^ 64 }
    ensures made { IsNodeWorked node.state result.node.state result.steps result.notices }
{
    Worked {
        number,
        node,
        steps: Seq::new(alloc),
        notices: Seq::new(alloc),
    }
}

// A node as its hub has left it.
fn worked_of(number: NodeNo, closed: HubClosed) -> Worked
    ensures number { result.number ≡ number }
    ensures few { length result.steps < 2 ^ 64 }
    ensures made { (s : NodeState) → IsNodeWorked s closed.node.state closed.steps closed.notices
        → IsNodeWorked s result.node.state result.steps result.notices }
{
    let HubClosed {
        node,
        steps,
        notices,
    } = closed;
    let _count = steps.len();
    Worked {
        number,
        node,
        steps,
        notices,
    }
}

// The jobs of each of a node's ports, ports ascending.
fn jobs_by_port(alloc: Global, node: &Node) -> Result<Vec<Seq<PortStep>>, NoMemory>
    ensures { IfOk result (λ v. v.items ≡ map (λ at. job_list at node.now.state)
        (range_with_len 0 (ports_of node.now.state))) }
{
    let _ = no_key();
    let mut jobs = Vec::new(alloc);
    for at in 0..node.ports() {
        jobs.push(node.jobs(PortNo(at + 1))?)?;
    }
    Ok(jobs)
}

// A hub round a node.
fn begin(alloc: Global, number: NodeNo, node: Node) -> Result<(NodeHub, Vec<PortPass>), NoMemory>
    requires { 0 < ports_of node.state }
    ensures node { IfOk result (λ r. first_node r.0 ≡ node.state) }
    ensures count { IfOk result (λ r. r.0.lock.passes ≡ ports_of node.state) }
    ensures passes { IfOk result (λ r. r.1.items ≡ first_passes r.0.lock (ports_of node.state)) }
{
    match NodeHub::begin(alloc, number, node) {
        Ok((hub, passes)) => Ok((hub, passes.into_vec())),
        Err(_) => Err(NoMemory),
    }
}

// Finishes the turn of each port.
fn finish_all<R: Wait, G: Gate>(
    rt: &R,
    alloc: Global,
    gate: &G,
    hub: &NodeHub,
    number: NodeNo,
    jobs: &[Seq<PortStep>],
    turns: Vec<Turn>,
) -> Result<Vec<PortPass>, NoMemory>
    requires { AreTurns hub.now jobs.now turns.items }
    ensures done { IfOk result (λ passes. AreDone hub.now jobs.now passes.items) }
    ensures count { IfOk result (λ passes. length passes.items ≡ hub.now.lock.passes) }
{
    let mut passes = Vec::new(alloc);
    for turn in turns {
        passes.push(finish(rt, gate, hub, number, jobs, turn)?)?;
    }
    Ok(passes)
}

// Closes a hub whose ports have done all their jobs.
fn close(hub: NodeHub, jobs: &[Seq<PortStep>], passes: Vec<PortPass>) -> Result<HubClosed, NoMemory>
    requires jobs { jobs.now
        ≡ map (λ at. job_list at (first_node hub)) (range_with_len 0 (ports_of (first_node hub))) }
    requires ports { hub.lock.passes ≡ ports_of (first_node hub) }
    requires done { AreDone hub jobs.now passes.items }
    requires count { length passes.items ≡ hub.lock.passes }
    ensures { IfOk result (λ c. IsNodeWorked (first_node hub) c.node.state c.steps c.notices) }
{
    ports_make_their_steps();
    steps_keep_what_a_node_is();
    match hub.close(Seq::from_vec(passes)) {
        Ok(closed) => Ok(closed),
        Err(HubCloseErr::NoMemory { hub: _, passes: _ }) => Err(NoMemory),
        Err(
            HubCloseErr::MissingPass {
                number: _,
                hub: _,
                passes: _,
            },
        ) => unreachable!(),
    }
}
