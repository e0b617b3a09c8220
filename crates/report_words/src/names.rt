//! The names of nodes and ports.

ghost use Rattle.std.specs.Prelude.{◌≡◌, ◌++◌, ◌↔◌, IfOk, OnOk, IsTrue};
ghost use Rattle.tree_topology.specs.{Topology.HasPort, Ports.peer_of};
ghost use Rattle.report_words.specs.Names.{name_of, port_name as port_name_spec};

use crate::text::{put, put_octets};
use srp_base::{EgressPort, NoMemory, NodeNo, PortNo};
use std::alloc::Global;
use topology_file::NodeEntry;
use tree_topology::Tree;

/// The name of a port of a network as it is printed, `x>y`: those of its node and of its peer's.
pub fn port_name(
    alloc: Global,
    nodes: &[NodeEntry],
    tree: &Tree,
    at: EgressPort,
) -> Result<Vec<u8>, NoMemory>
    ensures { IfOk result (λ v. v.items ≡ port_name_spec nodes.now tree.now.links at) }
{
    let mut name = Vec::new(alloc);
    put_port_name(&mut name, nodes, tree, at)?;
    Ok(name)
}

/// Puts the name of a port at the end of a text.
pub fn put_port_name(
    out: &mut Vec<u8>,
    nodes: &[NodeEntry],
    tree: &Tree,
    at: EgressPort,
) -> Result<(), NoMemory>
    ensures { OnOk result (out.new.items
        ≡ out.old.items ++ port_name_spec nodes.now tree.now.links at) }
{
    put_octets(out, node_name(nodes, at.node))?;
    put(out, ">")?;
    put_octets(out, node_name(nodes, peer_node(tree, at)))
}

// The node of a port's peer. A port that the tree hasn't has node 0, and port 0 of a node has that
// of port 1.
fn peer_node(tree: &Tree, at: EgressPort) -> NodeNo
    ensures { result ≡ (peer_of tree.now.links at).node }
{
    tree.keeps();
    let port = EgressPort {
        node: at.node,
        port: PortNo(at.port.0.max(1)),
    };
    if has_port(tree, port) {
        tree.peer(port).node
    } else {
        NodeNo(0)
    }
}

// Whether the tree has a port.
fn has_port(tree: &Tree, at: EgressPort) -> bool
    ensures { IsTrue result ↔ HasPort tree.now at }
{
    1 <= at.node.0
        && at.node.0 <= tree.nodes()
        && 1 <= at.port.0
        && at.port.0 <= tree.ports(at.node)
}

/// The name of a node, which is empty where the number has no entry.
pub fn node_name(nodes: &[NodeEntry], number: NodeNo) -> &[u8]
    ensures { result.now ≡ name_of nodes.now number }
{
    if number.0 == 0 {
        return [].as_slice();
    }
    match nodes.get(usize::from(number.0) - 1) {
        Some(node) => node.name.as_slice(),
        None => [].as_slice(),
    }
}
