//! The checks of links and nodes that need no memory. Each names the first one at fault.

ghost use Rattle.std.specs.Prelude.{◌<◌, ◌↔◌, length, IsTrue, OnOk, IfErr};
ghost use Rattle.tree_topology.specs.Graph.{IsNode, HasKnownEnds, HasNoSelfLink};
ghost use Rattle.tree_topology.specs.Refusal.{IsRefusal};

use crate::graph::{Link, NodeKind, TreeErr};
use srp_base::{LinkNo, NodeNo};

/// Whether so many nodes have this number.
fn is_node(count: usize, node: NodeNo) -> bool
    ensures { IsTrue result ↔ IsNode count node.0 }
{
    1 <= node.0 && usize::from(node.0) <= count
}

/// Whether both ends of a link are nodes.
fn is_known(count: usize, link: &Link) -> bool
    ensures { IsTrue result ↔ (IsNode count link.now.a.0 × IsNode count link.now.b.0) }
{
    is_node(count, link.a) && is_node(count, link.b)
}

/// Both ends of each link are nodes.
pub(crate) fn check_ends(nodes: &[NodeKind], links: &[Link]) -> Result<(), TreeErr>
    requires { length links.now < 65536 }
    ensures ok { OnOk result (HasKnownEnds (length nodes.now) links.now) }
    ensures err { IfErr result (λ e. IsRefusal nodes.now links.now e) }
{
    for (i, link) in links.iter().enumerate() {
        if !is_known(nodes.len(), link) {
            return Err(TreeErr::UnknownNode(LinkNo((i + 1) as u16)));
        }
    }
    Ok(())
}

/// No link joins a node with itself.
pub(crate) fn check_self_links(nodes: &[NodeKind], links: &[Link]) -> Result<(), TreeErr>
    requires few { length links.now < 65536 }
    requires known { HasKnownEnds (length nodes.now) links.now }
    ensures ok { OnOk result (HasNoSelfLink links.now) }
    ensures err { IfErr result (λ e. IsRefusal nodes.now links.now e) }
{
    for (i, link) in links.iter().enumerate() {
        if link.a == link.b {
            return Err(TreeErr::SelfLink(LinkNo((i + 1) as u16)));
        }
    }
    Ok(())
}
