//! A network, how it begins, and what it shows.

ghost use Rattle.std.specs.Prelude.{◌≡◌, IfOk, Some};
ghost use Rattle.std.specs.List.{list_all};
ghost use Rattle.tree_topology.specs.Topology.{HasNode};
ghost use Rattle.node_core.specs.State.{is_still_node};
ghost use Rattle.world_core.specs.World.{node_at, is_quiet, is_in_step};
ghost use Rattle.world_core.specs.Start.{world_of};
ghost use Rattle.world_core.specs.Kept.{IsKeptWorld};

use crate::laws::a_scenario_begins_well;
use crate::marking::are_nodes_in_step;
use crate::marks::Marks;
use crate::start::new_nodes;
use node_core::Node;
use srp_base::{NoMemory, NodeNo};
use std::alloc::Global;
use std::marker::Model;
use topology_file::Scenario;
use tree_topology::Tree;

/// A network: a tree, and a node for each of its nodes. Contracts see a `WorldState`.
#[derive(Drop)]
pub struct World {
    pub(crate) tree: Tree,
    pub(crate) nodes: Vec<Node>,
    pub(crate) marks: Marks,
}

impl Model for World {
    ghost use Rattle.node_core.specs.Holding.{states_in};
    ghost use Rattle.world_core.specs.World.{WorldState, world_with};
    ghost use Rattle.world_core.specs.Kept.{IsKeptWorld};

    ghost Value = { WorldState };

    ghost view = { λ w. world_with w.tree (states_in w.nodes.items) w.marks };

    ghost invariant = { λ w. IsKeptWorld (world_with w.tree (states_in w.nodes.items) w.marks) };
}

impl World {
    /// The network of a scenario at its start: nothing is declared but the Domain values of its
    /// nodes, where it has domains, no PDU waits, the clock is at 0.
    pub fn of(alloc: Global, scenario: &Scenario) -> Result<World, NoMemory>
        ensures { IfOk result (λ world. world ≡ world_of scenario.now) }
    {
        a_scenario_begins_well();
        scenario.keeps_rules();
        let tree = scenario.tree.copy()?;
        let nodes = new_nodes(alloc, scenario)?;
        let marks = Marks::of(alloc, &tree)?;
        Ok(World { tree, nodes, marks })
    }

    /// What every network keeps, whatever has happened in it: the nodes of its tree, one clock, and
    /// on each link both duties in each application. It is a law, and does nothing.
    pub fn keeps(&self)
        ensures { IsKeptWorld self.now }
    {
        let _ = &self.tree;
    }

    /// The node of a number.
    pub fn node(&self, number: NodeNo) -> &Node
        requires { HasNode self.now.tree number.0 }
        ensures { node_at number self.now ≡ Some result.now.state }
    {
        &self.nodes[usize::from(number.0) - 1]
    }

    /// The tree of the nodes and links.
    pub fn tree(&self) -> &Tree
        ensures { result.now ≡ self.now.tree }
    {
        &self.tree
    }

    /// Whether nothing is pending: no PDU is on its way, every Applicant is VO or QA, every
    /// Registrar IN or MT, every LeaveAll machine Passive, and no attribute awaits.
    pub fn quiet(&self) -> bool
        ensures { result ≡ is_quiet self.now }
    {
        are_still(self.nodes.as_slice())
    }

    /// Whether both applications of every port are sound: each has sent a LeaveAll since a PDU of
    /// it was last lost or forged on the port's link, if one was; or since then it took one of its
    /// neighbour's on a clear way: the neighbour had sent one while nothing was on the way to it,
    /// and the port hadn't said anything since.
    pub fn in_step(&self) -> bool
        ensures { result ≡ is_in_step self.now }
    {
        are_nodes_in_step(&self.nodes, self.tree.nodes(), &self.marks)
    }
}

// Whether nothing is pending at any of these nodes.
fn are_still(nodes: &[Node]) -> bool
    ensures { result ≡ list_all (λ n. is_still_node n.state) nodes.now }
{
    nodes.iter().all(|node| node.still())
}
