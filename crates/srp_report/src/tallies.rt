//! The tallies of all ports, from one reading of the journal.

ghost use Rattle.std.specs.Prelude.{◌≡◌, ◌≤◌, ◌<◌, IfOk, Some, slice_get};
ghost use Rattle.srp_base.specs.declared.numbers.EgressPort.{EgressPort};
ghost use Rattle.srp_report.specs.Counts.{replies_of, tally_of};
ghost use Rattle.srp_report.specs.Tallies.{zero_row, zero_rows, step_counted, steps_counted, node_counted, nodes_counted, ticks_counted, tally_at};

use crate::tally::counted;
use node_core::{NodeStep, no_key};
use report_words::Tally;
use srp_base::{EgressPort, NoMemory, PortNo};
use std::alloc::Global;
use std::marker::Model;
use world_core::{NodeSteps, Tick};

/// The tallies of a node's ports, each at the place of its number. Contracts see a list.
#[derive(Drop)]
pub(crate) struct NodeTallies {
    ports: Vec<Tally>,
}

impl Model for NodeTallies {
    ghost use Rattle.std.specs.Prelude.{List};
    ghost use Rattle.report_words.specs.declared.tally.Tally.{Tally};

    ghost Value = { List Tally };

    ghost view = { λ t. t.ports.items };
}

/// The tallies of all ports: those of each node at the place of its number. Contracts see a list of
/// lists.
#[derive(Drop)]
pub(crate) struct Tallies {
    nodes: Vec<NodeTallies>,
}

impl Model for Tallies {
    ghost use Rattle.std.specs.Prelude.{List};
    ghost use Rattle.report_words.specs.declared.tally.Tally.{Tally};

    ghost Value = { List (List Tally) };

    ghost view = { λ t. t.nodes.items };
}

impl NodeTallies {
    /// No port has sent or discarded anything.
    fn new(alloc: Global) -> Result<NodeTallies, NoMemory>
        ensures { IfOk result (λ t. t ≡ zero_row) }
    {
        let ports = vec![in alloc; Tally::zero(); 256]?;
        Ok(NodeTallies { ports })
    }

    /// Counts what the node's steps of a tick answered.
    fn count(&mut self, made: &[NodeStep])
        ensures { self.new ≡ steps_counted self.old made.now }
    {
        count_steps(&mut self.ports, made);
    }

    /// The tally of a port, where there is a place for it.
    fn at(&self, port: PortNo) -> Option<Tally>
        ensures { result ≡ slice_get self.now port.0 }
    {
        tally_of_port(&self.ports, port)
    }
}

impl Tallies {
    /// The tallies of a network of so many nodes, after these ticks.
    pub(crate) fn of(alloc: Global, nodes: u16, ticks: &[Tick]) -> Result<Tallies, NoMemory>
        ensures { IfOk result (λ t. (p : EgressPort) → p.node.0 ≤ nodes → p.port.0 < 256
            → tally_at p t ≡ Some (tally_of (replies_of p ticks.now))) }
    {
        let mut nodes = new_nodes(alloc, nodes)?;
        count_ticks(&mut nodes, ticks);
        Ok(Tallies { nodes })
    }

    /// The tally of a port, where there is a place for it.
    pub(crate) fn at(&self, at: EgressPort) -> Option<Tally>
        ensures { result ≡ tally_at at self.now }
    {
        self.nodes.get(usize::from(at.node.0))?.at(at.port)
    }
}

// Tallies for nodes of the numbers 0 to this one.
fn new_nodes(alloc: Global, last: u16) -> Result<Vec<NodeTallies>, NoMemory>
    ensures { IfOk result (λ v. v.items ≡ zero_rows last) }
{
    let mut nodes = Vec::new(alloc);
    for _ in 0..usize::from(last) + 1 {
        nodes.push(NodeTallies::new(alloc)?)?;
    }
    Ok(nodes)
}

// Counts what a node's steps answered.
fn count_steps(ports: &mut Vec<Tally>, made: &[NodeStep])
    ensures { ports.new.items ≡ steps_counted ports.old.items made.now }
{
    let _ = no_key();
    for step in made {
        count_step(ports, step);
    }
}

// Counts what a step answered.
fn count_step(ports: &mut Vec<Tally>, made: &NodeStep)
    ensures { ports.new.items ≡ step_counted ports.old.items made.now }
{
    let _ = no_key();
    let place = usize::from(made.port.0);
    if place < ports.len() {
        ports[place] = counted(ports[place], made.reply);
    }
}

// The tally of a port.
fn tally_of_port(ports: &Vec<Tally>, port: PortNo) -> Option<Tally>
    ensures { result ≡ slice_get ports.now.items port.0 }
{
    ports.get(usize::from(port.0)).copied()
}

// Counts what the nodes' steps answered in all ticks.
fn count_ticks(nodes: &mut Vec<NodeTallies>, ticks: &[Tick])
    ensures { nodes.new.items ≡ ticks_counted nodes.old.items ticks.now }
{
    let _ = no_key();
    for tick in ticks {
        count_nodes(nodes, tick.steps.as_slice());
    }
}

// Counts what they answered in a tick.
fn count_nodes(nodes: &mut Vec<NodeTallies>, made: &[NodeSteps])
    ensures { nodes.new.items ≡ nodes_counted nodes.old.items made.now }
{
    let _ = no_key();
    for steps in made {
        count_node(nodes, steps);
    }
}

// Counts what the steps of one node answered.
fn count_node(nodes: &mut Vec<NodeTallies>, made: &NodeSteps)
    ensures { nodes.new.items ≡ node_counted nodes.old.items made.now }
{
    let _ = no_key();
    let place = usize::from(made.node.0);
    if place < nodes.len() {
        nodes[place].count(made.steps.as_slice());
    }
}
