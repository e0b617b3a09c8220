//! A network taken apart: its nodes, each of which may make the steps of its ports by itself, and
//! what is left of it.

ghost use Rattle.std.specs.Prelude.{◌≡◌};
ghost use Rattle.std.specs.List.{AllByRecursion};
ghost use Rattle.node_core.specs.{Holding.states_in, Proper.IsProperNode};
ghost use Rattle.world_core.specs.Kept.{IsKeptWorld, IsWhole};
ghost use Rattle.world_core.specs.World.{world_with};

use crate::laws::what_is_kept_is_whole;
use crate::marks::Marks;
use crate::world::World;
use node_core::Node;
use srp_base::Seq;
use tree_topology::Tree;

/// What is left of a network without its nodes: its tree, and the marks of its ports, which whoever
/// lets the nodes make their steps has to follow up.
#[derive(Drop)]
pub struct WorldRest {
    pub tree: Tree,
    pub marks: Marks,
}

impl World {
    /// Takes a network apart: what is left without its nodes, and the nodes, ascending by number.
    /// Nothing is changed in them, and no memory is taken.
    pub fn part(self) -> (WorldRest, Seq<Node>)
        ensures tree { result.0.tree ≡ self.tree }
        ensures marks { result.0.marks ≡ self.marks }
        ensures nodes { states_in result.1 ≡ self.nodes }
        ensures kept { IsKeptWorld (world_with result.0.tree (states_in result.1) result.0.marks) }
        ensures whole { IsWhole (world_with result.0.tree (states_in result.1) result.0.marks) }
    {
        what_is_kept_is_whole();
        let World { tree, nodes, marks } = self;
        (WorldRest { tree, marks }, Seq::from_vec(nodes))
    }

    /// Puts a network together from what was left and nodes ascending by number, which stand in the
    /// tree and with it and the marks keep one clock and what each link keeps; what each node keeps
    /// by itself is known of it. That they do after steps which the nodes have made apart is the
    /// law `steps_made_apart_keep_it`. Nothing is changed in them, and no memory is taken.
    pub fn join(rest: WorldRest, nodes: Seq<Node>) -> World
        requires { IsWhole (world_with rest.tree (states_in nodes) rest.marks) }
        ensures { result ≡ world_with rest.tree (states_in nodes) rest.marks }
    {
        what_is_kept_is_whole();
        each_is_proper(nodes.as_slice());
        let WorldRest { tree, marks } = rest;
        World {
            tree,
            nodes: nodes.into_vec(),
            marks,
        }
    }
}

// What each of these nodes keeps, by its type.
fn each_is_proper(nodes: &[Node])
    ensures { AllByRecursion IsProperNode (states_in nodes.now) }
{
    for node in nodes {
        node.keeps_all();
    }
}
