//! Whether numbers may be asked for.

ghost use Rattle.std.specs.Prelude.{◌↔◌, IsTrue, All};
ghost use Rattle.tree_topology.specs.Topology.{HasNode};

use delay_bound::ClassStream;
use srp_base::NodeNo;
use tree_topology::Tree;

/// Whether the streams' Talkers are nodes of a tree.
pub fn have_talkers(tree: &Tree, streams: &[ClassStream]) -> bool
    ensures { IsTrue result ↔ All (λ x. HasNode tree.now x.talker.0) streams.now }
{
    streams.iter().all(|x| is_node(tree, x.talker))
}

fn is_node(tree: &Tree, node: NodeNo) -> bool
    ensures { IsTrue result ↔ HasNode tree.now node.0 }
{
    1 <= node.0 && node.0 <= tree.nodes()
}
