//! The nodes of a network at its start, each with its ports.

ghost use Rattle.std.specs.Prelude.{◌≡◌, ◌≤◌, ◌++◌, length, map, IfOk};
ghost use Rattle.link_node.specs.State.{state_of};
ghost use Rattle.mrp_participant.specs.State.{IsTime};
ghost use Rattle.mmrp.specs.Node.{new_node};
ghost use Rattle.mmrp.specs.Start.{end_setup, nodes_from, setup_of, setups_from};

use crate::app::GroupNode;
use flat_side::FlatSide;
use link_node::Node;
use srp_base::{Cs, NoMemory, PortSetup};
use std::alloc::Global;
use topology_file::{LinkEntry, NodeEntry};

/// The nodes of all entries, at most 64, in the order of their numbers.
pub(crate) fn new_nodes(
    alloc: Global,
    leave_time: Cs,
    periodic: bool,
    entries: &[NodeEntry],
    links: &[LinkEntry],
) -> Result<Vec<GroupNode>, NoMemory>
    requires leave_time { IsTime leave_time }
    requires few { length entries.now ≤ 64 }
    requires links { length links.now ≤ 65535 }
    ensures { IfOk result (λ nodes. map (state_of (λ side. side.state)) nodes.items
        ≡ nodes_from leave_time periodic links.now 1 entries.now) }
{
    let mut nodes = Vec::with_capacity(alloc, entries.len())?;
    for (i, entry) in entries.iter().enumerate() {
        let _ = entry;
        nodes.push(new_node_of(alloc, leave_time, periodic, links, i as u16 + 1)?)?;
    }
    Ok(nodes)
}

/// The node of this number, with a port for each of its links.
fn new_node_of(
    alloc: Global,
    leave_time: Cs,
    periodic: bool,
    links: &[LinkEntry],
    number: u16,
) -> Result<GroupNode, NoMemory>
    requires leave_time { IsTime leave_time }
    requires links { length links.now ≤ 65535 }
    ensures { IfOk result (λ node. state_of (λ side. side.state) node
        ≡ new_node leave_time periodic (setups_from 1 number links.now)) }
{
    let setups = new_setups(alloc, links, number)?;
    let side = FlatSide::new(alloc, leave_time, periodic, setups.as_slice())?;
    Node::new(alloc, side)
}

/// The ports of a node in the order of its links, of all links.
fn new_setups(alloc: Global, links: &[LinkEntry], node: u16) -> Result<Vec<PortSetup>, NoMemory>
    requires { length links.now ≤ 65535 }
    ensures { IfOk result (λ setups. setups.items ≡ setups_from 1 node links.now) }
{
    let mut setups = Vec::new(alloc);
    for i in 0..links.len() {
        add_end(&mut setups, i as u64 + 1, node, &links[i])?;
    }
    Ok(setups)
}

/// Adds the port of a node on the link of this number, if the link has the node as an end.
fn add_end(
    setups: &mut Vec<PortSetup>,
    number: u64,
    node: u16,
    link: &LinkEntry,
) -> Result<(), NoMemory>
    requires some { 1 ≤ number }
    requires few { number ≤ 65535 }
    ensures { IfOk result
        (λ _. setups.new.items ≡ setups.old.items ++ end_setup number node link.now) }
{
    if link.a.0 == node {
        setups.push(new_setup(2 * number - 1, link))?;
    } else if link.b.0 == node {
        setups.push(new_setup(2 * number, link))?;
    }
    Ok(())
}

/// What the end of a link with this number is set up with.
fn new_setup(end: u64, link: &LinkEntry) -> PortSetup
    ensures { result ≡ setup_of end link.now }
{
    PortSetup {
        rate: link.rate,
        delta_a: link.delta_a,
        delta_b: link.delta_b,
        latency: link.latency,
        period: Cs(1001 + 7 * (end % 64)),
    }
}
