//! The changes of a run that goes on, in a list for each port: a tick costs only the ports of the
//! nodes that acted.

ghost use Rattle.std.specs.Prelude.{◌≡◌, ◌++◌, [], ℕ, List, length, map, option_map, IfOk, OnOk};
ghost use Rattle.std.specs.List.{AllByRecursion, range_with_len};
ghost use Rattle.srp_base.specs.declared.{numbers.EgressPort.EgressPort, ports.PortChange.PortChange};
ghost use Rattle.tree_topology.specs.Topology.{HasNode};
ghost use Rattle.frame_flow.specs.{Force.changes_at, Force.in_force, Copies.port_of};
ghost use Rattle.attribute_propagation.specs.Ports.{IsLinkPort, place_of};
ghost use Rattle.node_core.specs.State.{ports_of};
ghost use Rattle.world_core.specs.Timeline.{node_force, changes_noted, AreChanges};
ghost use Rattle.world_core.specs.History.{by_port, joined_ports, all_changes_of, IsByPort, HasPortsOf, ComeUpTo, is_act, act_noted, acts_noted, node_noted, ports_noted};

use crate::journal::NodeSteps;
use crate::timeline::lacking_change;
use crate::world::World;
use node_core::{Node, PortStep, no_key};
use srp_base::{EgressPort, NoMemory, NodeNo, PortChange, PortNo, Seq, Timeline};
use std::alloc::Global;
use std::collections::VecDeque;
use std::marker::Model;
use tree_topology::Tree;

/// The changes of a run that goes on, each at the end of its port's. Contracts see a tree and the
/// changes of its ports.
#[derive(Drop)]
pub struct History {
    tree: Tree,
    nodes: Vec<NodeChanges>,
}

impl Model for History {
    ghost use Rattle.world_core.specs.History.{HistoryState, all_changes_of, IsByPort};

    ghost Value = { HistoryState };

    ghost view = { λ h. record { tree = h.tree; changes = all_changes_of h.nodes.items } };

    ghost invariant = { λ h. IsByPort h.tree h.nodes.items };
}

// The changes of each port of a node.
#[derive(Drop)]
struct NodeChanges {
    ports: Vec<Seq<PortChange>>,
}

impl Model for NodeChanges {
    ghost use Rattle.std.specs.Prelude.{List};
    ghost use Rattle.srp_base.specs.declared.ports.PortChange.{PortChange};

    ghost Value = { List (List PortChange) };

    ghost view = { λ n. n.ports.items };
}

impl History {
    /// No change at the ports of a network's tree.
    pub fn of(alloc: Global, world: &World) -> Result<History, NoMemory>
        ensures tree { IfOk result (λ h. h.tree ≡ world.now.tree) }
        ensures none { IfOk result (λ h. h.changes ≡ []) }
    {
        let tree = world.tree().copy()?;
        let nodes = empty_nodes(alloc, &tree)?;
        Ok(History { tree, nodes })
    }

    /// Enters a change at a tick for each port of a node that has made a step other than Send among
    /// these, where something else is in force now than the changes have of it. The changes are of
    /// the tree's ports, and none is at that tick or after it. After want of memory nothing is
    /// left.
    pub fn note_steps(
        self,
        world: &World,
        tick: u64,
        steps: &[NodeSteps],
    ) -> Result<History, NoMemory>
        requires tree { self.tree ≡ world.now.tree }
        requires changes { AreChanges self.tree tick self.changes }
        requires ports { AllByRecursion (HasPortsOf self.tree) steps.now }
        ensures tree { IfOk result (λ h. h.tree ≡ self.tree) }
        ensures noted { IfOk result
            (λ h. h.changes ≡ acts_noted tick steps.now world.now self.changes) }
    {
        let History { tree, mut nodes } = self;
        note_acts(world, tick, steps, &mut nodes)?;
        Ok(History { tree, nodes })
    }

    /// All changes as a timeline: ascending by port, and those of a port in the order in which they
    /// were entered.
    pub fn into_timeline(self) -> Result<Timeline, NoMemory>
        ensures { IfOk result (λ timeline. timeline.changes ≡ self.changes) }
    {
        let changes = join(*self.nodes.allocator(), self.nodes)?;
        Ok(Timeline {
            changes: Seq::from_vec(changes),
        })
    }
}

// No change at each port of each node.
fn empty_nodes(alloc: Global, tree: &Tree) -> Result<Vec<NodeChanges>, NoMemory>
    ensures { IfOk result (λ nodes. nodes.items ≡ by_port tree.now (λ _. [])) }
{
    let mut nodes = Vec::with_capacity(alloc, usize::from(tree.nodes()))?;
    for x in 0..tree.nodes() {
        nodes.push(empty_ports(alloc, tree.ports(NodeNo(x + 1)))?)?;
    }
    Ok(nodes)
}

// No change at each of so many ports.
fn empty_ports(alloc: Global, count: u8) -> Result<NodeChanges, NoMemory>
    ensures { IfOk result (λ node. (x : ℕ) → node
        ≡ map (λ _. []) (map (port_of x) (range_with_len 1 count))) }
{
    let mut ports = Vec::with_capacity(alloc, usize::from(count))?;
    for _ in 0..count {
        ports.push(Seq::new(alloc))?;
    }
    Ok(NodeChanges { ports })
}

// Notes a tick at the nodes that have acted.
fn note_acts(
    world: &World,
    tick: u64,
    steps: &[NodeSteps],
    nodes: &mut Vec<NodeChanges>,
) -> Result<(), NoMemory>
    requires by_port { IsByPort world.now.tree nodes.old.items }
    requires changes { AreChanges world.now.tree tick (all_changes_of nodes.old.items) }
    requires ports { AllByRecursion (HasPortsOf world.now.tree) steps.now }
    ensures { OnOk result (nodes.new.items ≡ by_port world.now.tree (λ p.
        act_noted tick steps.now world.now p (changes_at (all_changes_of nodes.old.items) p))) }
{
    let _ = no_key();
    for made in steps {
        if has_act(made) {
            note_node(world, tick, made.node, nodes)?;
        }
    }
    Ok(())
}

// Whether among the steps that a node made there is one other than Send.
fn has_act(made: &NodeSteps) -> bool
    ensures { result ≡ is_act made.now }
{
    made.steps
        .as_slice()
        .iter()
        .any(|st| !matches!(st.step, PortStep::Send(_)))
}

// Notes a tick at a node.
fn note_node(
    world: &World,
    tick: u64,
    number: NodeNo,
    nodes: &mut Vec<NodeChanges>,
) -> Result<(), NoMemory>
    requires node { HasNode world.now.tree number.0 }
    requires upto { AllByRecursion (AllByRecursion (ComeUpTo tick)) nodes.old.items }
    requires shape { (own : EgressPort → List PortChange)
        × (nodes.old.items ≡ by_port world.now.tree own) }
    ensures { OnOk result ((own : EgressPort → List PortChange) → nodes.old.items
        ≡ by_port world.now.tree own
        → nodes.new.items
        ≡ by_port world.now.tree (λ p. node_noted tick number world.now p (own p))) }
{
    world.keeps();
    let alloc = *world.nodes.allocator();
    let node = world.node(number);
    nodes[usize::from(number.0) - 1].note(alloc, node, number, tick)
}

impl NodeChanges {
    // Notes a tick at each port of the node of a number.
    fn note(
        &mut self,
        alloc: Global,
        node: &Node,
        number: NodeNo,
        tick: u64,
    ) -> Result<(), NoMemory>
        requires ports { length self.old ≡ ports_of node.now.state }
        requires upto { AllByRecursion (ComeUpTo tick) self.old }
        ensures { OnOk result (self.new
            ≡ ports_noted tick node.now.state number 1 (length self.old) self.old) }
    {
        for k in 0..node.ports() {
            let at = EgressPort {
                node: number,
                port: PortNo(k + 1),
            };
            note_port(alloc, node, at, tick, &mut self.ports[usize::from(k)])?;
        }
        Ok(())
    }
}

// Notes a tick at a node's port.
fn note_port(
    alloc: Global,
    node: &Node,
    at: EgressPort,
    tick: u64,
    changes: &mut Seq<PortChange>,
) -> Result<(), NoMemory>
    requires port { IsLinkPort at.port (ports_of node.now.state) }
    requires upto { ComeUpTo tick changes.old }
    ensures { OnOk result (changes.new
        ≡ changes_noted tick at (node_force (place_of at.port) node.now.state) changes.old) }
{
    let last = last_of(changes.as_slice());
    if let Some(change) = lacking_change(alloc, node, at, tick, last)? {
        changes.push(change)?;
    }
    Ok(())
}

// The last of a port's changes: what is in force there in each tick from then on.
fn last_of(changes: &[PortChange]) -> Option<&PortChange>
    ensures { (tick : ℕ) → ComeUpTo tick changes.now → option_map (λ c. c.now) result
        ≡ in_force tick changes.now }
{
    let count = changes.len();
    if count == 0 {
        return None;
    }
    Some(&changes[count - 1])
}

// All changes, node by node.
fn join(alloc: Global, nodes: Vec<NodeChanges>) -> Result<Vec<PortChange>, NoMemory>
    ensures { IfOk result (λ all. all.items ≡ all_changes_of nodes.items) }
{
    let mut all = Vec::new(alloc);
    let mut rest = VecDeque::from(nodes);
    while let Some(node) = rest.pop_front() {
        join_ports(&mut all, node.ports)?;
    }
    Ok(all)
}

// Those of a node's ports, port by port, behind others.
fn join_ports(all: &mut Vec<PortChange>, ports: Vec<Seq<PortChange>>) -> Result<(), NoMemory>
    ensures { OnOk result (all.new.items ≡ all.old.items ++ joined_ports ports.items) }
{
    let mut rest = VecDeque::from(ports);
    while let Some(changes) = rest.pop_front() {
        let mut more = changes.into_vec();
        all.append(&mut more)?;
    }
    Ok(())
}
