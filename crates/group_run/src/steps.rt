//! The steps of all nodes in one tick, and what is carried at its end.

ghost use Rattle.std.specs.Prelude.{◌≡◌, ◌++◌, flat_map, IfOk, OnOk};
ghost use Rattle.tree_topology.specs.Topology.{HasNode, HasPort};
ghost use Rattle.group_run.specs.Ticks.{busy_steps, carries, each_makes, is_sending_time as is_sending_time_spec, net_steps, node_ports, node_steps, port_at, works_at};

use mmrp::{GroupEvent, GroupNet, GroupStep};
use report_words::ports_of_links;
use srp_base::{Cs, EgressPort, NoMemory, NodeNo, PortNo};
use std::alloc::Global;
use tree_topology::Tree;

/// Ports send at moments divisible by this, in cs.
const JOIN_TIME: u64 = 20;

/// The steps of all nodes, as the network stands: nodes ascending.
pub(crate) fn steps_of(alloc: Global, net: &GroupNet) -> Result<Vec<GroupEvent>, NoMemory>
    ensures { IfOk result (λ v. v.items ≡ net_steps net.now) }
{
    let mut steps = Vec::new(alloc);
    for x in 0..net.tree().nodes() {
        push_node(&mut steps, net, NodeNo(x + 1))?;
    }
    Ok(steps)
}

// Those of a node go to the end of a list.
fn push_node(steps: &mut Vec<GroupEvent>, net: &GroupNet, node: NodeNo) -> Result<(), NoMemory>
    requires { HasNode net.now.tree node.0 }
    ensures { OnOk result (steps.new.items ≡ steps.old.items ++ node_steps net.now node) }
{
    if net.is_busy(node) {
        push_busy(steps, net, node)?;
    }
    if is_sending_time(net.now()) {
        push_each(steps, net.tree(), node, GroupStep::Send)?;
    }
    Ok(())
}

// Whether a moment is one at which ports send.
fn is_sending_time(now: Cs) -> bool
    ensures { result ≡ is_sending_time_spec now }
{
    now.0 % JOIN_TIME == 0
}

// Those of a busy node.
fn push_busy(steps: &mut Vec<GroupEvent>, net: &GroupNet, node: NodeNo) -> Result<(), NoMemory>
    requires { HasNode net.now.tree node.0 }
    ensures { OnOk result (steps.new.items
        ≡ steps.old.items ++ busy_steps net.now (node_ports net.now.tree node)) }
{
    push_works(steps, net, node)?;
    push_each(steps, net.tree(), node, GroupStep::Due)?;
    push_each(steps, net.tree(), node, GroupStep::Settle)
}

// One step of each port of a node.
fn push_each(
    steps: &mut Vec<GroupEvent>,
    tree: &Tree,
    node: NodeNo,
    step: GroupStep,
) -> Result<(), NoMemory>
    requires { HasNode tree.now node.0 }
    ensures { OnOk result (steps.new.items
        ≡ steps.old.items ++ each_makes step (node_ports tree.now node)) }
{
    for k in 0..tree.ports(node) {
        steps.push(GroupEvent::Port(port_at(node, k + 1), step))?;
    }
    Ok(())
}

// The port of a number at a node.
fn port_at(node: NodeNo, number: u8) -> EgressPort
    ensures { result ≡ port_at node number }
{
    EgressPort {
        node,
        port: PortNo(number),
    }
}

// A Work for each PDU that came in at a port of a node.
fn push_works(steps: &mut Vec<GroupEvent>, net: &GroupNet, node: NodeNo) -> Result<(), NoMemory>
    requires { HasNode net.now.tree node.0 }
    ensures { OnOk result (steps.new.items
        ≡ steps.old.items ++ flat_map (works_at net.now) (node_ports net.now.tree node)) }
{
    for k in 0..net.tree().ports(node) {
        push_works_at(steps, net, port_at(node, k + 1))?;
    }
    Ok(())
}

// Those of one port.
fn push_works_at(
    steps: &mut Vec<GroupEvent>,
    net: &GroupNet,
    at: EgressPort,
) -> Result<(), NoMemory>
    requires { HasPort net.now.tree at }
    ensures { OnOk result (steps.new.items ≡ steps.old.items ++ works_at net.now at) }
{
    for _ in 0..net.pending(at) {
        steps.push(GroupEvent::Port(at, GroupStep::Work))?;
    }
    Ok(())
}

/// The carrying of each port's PDUs, link by link, those of end `a` first.
pub(crate) fn carries_of(alloc: Global, tree: &Tree) -> Result<Vec<GroupEvent>, NoMemory>
    ensures { IfOk result (λ v. v.items ≡ carries tree.now) }
{
    let ports = ports_of_links(alloc, tree)?;
    let mut carried = Vec::new(alloc);
    for port in ports.as_slice() {
        carried.push(GroupEvent::Carry(*port))?;
    }
    Ok(carried)
}
