//! Worked networks: refusals, ports and a path over two bridges, and the largest ones. Each refusal
//! by itself is a file of examples/rules/.
//!
//! The calls stand in functions of their own, each of which asks first whether the tree has the
//! node, the port or the link, so that a test's own proof is short.

ghost use Rattle.std.specs.Prelude.{◌≡◌, true};
ghost use Rattle.tree_topology.specs.Topology.{HasNode, HasLink, HasPort};

use srp_base::{EgressPort, LinkNo, NoMemory, NodeNo, PortNo};
use std::alloc::Global;
use tree_topology::NodeKind::{Bridge, Station};
use tree_topology::TreeErr::{Loop, TooManyLinks, Unconnected};
use tree_topology::{Link, NodeKind, Tree, TreeErr};

fn links_of(alloc: Global, ends: &[(u16, u16)]) -> Result<Vec<Link>, NoMemory> {
    let mut links = Vec::new(alloc);
    for (a, b) in ends {
        links.push(Link {
            a: NodeNo(*a),
            b: NodeNo(*b),
        })?;
    }
    Ok(links)
}

/// The tree of these nodes and of links given by the numbers of their ends.
fn tree_of(alloc: Global, nodes: &[NodeKind], ends: &[(u16, u16)]) -> Result<Tree, TreeErr> {
    let links = links_of(alloc, ends)?;
    if nodes.len() < 65_536 && links.len() < 65_536 {
        Tree::new(alloc, nodes, &links)
    } else {
        Err(TreeErr::NoMemory)
    }
}

/// Whether these nodes and links are refused, with this refusal.
fn is_refused(alloc: Global, nodes: &[NodeKind], ends: &[(u16, u16)], refusal: TreeErr) -> bool {
    tree_of(alloc, nodes, ends).err() == Some(refusal)
}

const SQUARE: [(u16, u16); 4] = [(1, 2), (3, 4), (2, 3), (4, 1)];

/// Whether there is a tree of no nodes.
fn is_empty_tree(alloc: Global) -> bool {
    tree_of(alloc, &[], &[]).is_ok()
}

#[test]
fn the_first_refused_link_or_node_is_named(rt: HostRuntime) {
    assert!(rt; is_refused(rt.alloc(), &[Bridge; 4], &SQUARE, Loop(LinkNo(4))));
    assert!(rt; is_refused(rt.alloc(), &[Bridge; 3], &[(2, 3)], Unconnected(NodeNo(2))));
    assert!(rt; is_empty_tree(rt.alloc()));
}

/// Two bridges, of which the first has two stations and the second two.
fn two_bridges(alloc: Global) -> Result<Tree, TreeErr> {
    let nodes = [Station, Bridge, Bridge, Station, Station, Station];
    tree_of(alloc, &nodes, &[(1, 2), (2, 3), (2, 4), (3, 5), (3, 6)])
}

fn port(node: u16, port: u8) -> EgressPort {
    EgressPort {
        node: NodeNo(node),
        port: PortNo(port),
    }
}

fn has_node(tree: &Tree, node: NodeNo) -> bool
    ensures { result ≡ true → HasNode tree.now node.0 }
{
    1 <= node.0 && node.0 <= tree.nodes()
}

fn has_link(tree: &Tree, link: LinkNo) -> bool
    ensures { result ≡ true → HasLink tree.now link.0 }
{
    1 <= link.0 && link.0 <= tree.links()
}

fn has_port(tree: &Tree, at: EgressPort) -> bool
    ensures { result ≡ true → HasPort tree.now at }
{
    has_node(tree, at.node) && 1 <= at.port.0 && at.port.0 <= tree.ports(at.node)
}

/// Whether a node has so many ports.
fn has_ports(tree: &Tree, node: NodeNo, count: u8) -> bool {
    has_node(tree, node) && tree.ports(node) == count
}

/// Whether a link joins these two ports.
fn joins(tree: &Tree, link: LinkNo, ends: (EgressPort, EgressPort)) -> bool {
    has_link(tree, link) && tree.ends(link) == ends
}

/// Whether a port's link ends at another port.
fn ends_at(tree: &Tree, at: EgressPort, peer: EgressPort) -> bool {
    has_port(tree, at) && tree.peer(at) == peer
}

/// Whether one node's port leads to another node.
fn leads_to(tree: &Tree, from: NodeNo, to: NodeNo, at: EgressPort) -> bool {
    tree.port_to(from, to) == Some(at)
}

/// Whether no port leads from one node to another.
fn is_apart(tree: &Tree, from: NodeNo, to: NodeNo) -> bool {
    tree.port_to(from, to).is_none()
}

/// Whether nothing but the far nodes, of nodes numbered from 1 on, lies behind a port.
fn parts(tree: &Tree, at: EgressPort, far: &[bool]) -> bool {
    let mut node: u16 = 0;
    for far in far {
        node = node.saturating_add(1);
        if !is_there(tree, at, NodeNo(node), *far) {
            return false;
        }
    }
    true
}

/// Whether a node lies behind a port, where it is far, and not, where it is near.
fn is_there(tree: &Tree, at: EgressPort, node: NodeNo, far: bool) -> bool {
    has_port(tree, at) && has_node(tree, node) && tree.behind(at, node) == far
}

/// Whether the path between two nodes has these ports.
fn goes_over(alloc: Global, tree: &Tree, from: NodeNo, to: NodeNo, ports: &[EgressPort]) -> bool {
    if !has_node(tree, from) || !has_node(tree, to) {
        return false;
    }
    match tree.path(alloc, from, to) {
        Ok(path) => path.as_slice() == ports,
        Err(_) => false,
    }
}

fn has_ports_over_links(tree: &Tree) -> bool {
    tree.nodes() == 6
        && tree.links() == 5
        && has_ports(tree, NodeNo(2), 3)
        && ends_at(tree, port(2, 2), port(3, 1))
}

/// Whether the fourth link has its ends.
fn has_ends(tree: &Tree) -> bool {
    joins(tree, LinkNo(4), (port(3, 2), port(5, 1)))
}

/// Whether the tree and its copy have the same ends of a link.
fn has_copy(tree: &Tree) -> bool {
    match tree.copy() {
        Ok(copy) => has_ends(tree) && has_ends(&copy),
        Err(_) => false,
    }
}

fn leads_to_neighbours(tree: &Tree) -> bool {
    leads_to(tree, NodeNo(3), NodeNo(6), port(3, 3))
        && is_apart(tree, NodeNo(1), NodeNo(6))
        && is_apart(tree, NodeNo(7), NodeNo(0))
}

/// Whether a path goes over both bridges, and one from a node to itself over none.
fn has_paths(alloc: Global, tree: &Tree) -> bool {
    let ports = [port(1, 1), port(2, 2), port(3, 3)];
    goes_over(alloc, tree, NodeNo(1), NodeNo(6), &ports)
        && goes_over(alloc, tree, NodeNo(4), NodeNo(4), &[])
}

fn has_all(alloc: Global, tree: &Tree) -> bool {
    has_ports_over_links(tree)
        && leads_to_neighbours(tree)
        && parts(tree, port(2, 2), &[false, false, true, false, true, true])
        && has_copy(tree)
        && has_paths(alloc, tree)
}

// Who owns a tree does nothing else, so that its proof is short.
fn two_bridges_have_all(alloc: Global) -> bool {
    match two_bridges(alloc) {
        Ok(tree) => has_all(alloc, &tree),
        Err(_) => false,
    }
}

#[test]
fn two_bridges_have_their_ports_neighbours_and_paths(rt: HostRuntime) {
    assert!(rt; two_bridges_have_all(rt.alloc()));
}

/// Links from node 1 to each other node up to the last.
fn star(alloc: Global, last: u16) -> Result<Vec<(u16, u16)>, NoMemory> {
    let mut ends = Vec::new(alloc);
    for i in 1..last {
        ends.push((1, i + 1))?;
    }
    Ok(ends)
}

/// Links from each node up to the last to the one before it.
fn chain(alloc: Global, last: u16) -> Result<Vec<(u16, u16)>, NoMemory> {
    let mut ends = Vec::new(alloc);
    for i in 1..last {
        ends.push((i + 1, i))?;
    }
    Ok(ends)
}

/// Node 1 is a bridge, and so many stations follow.
fn bridge_with_stations(alloc: Global, count: u16) -> Result<Vec<NodeKind>, NoMemory> {
    let mut nodes = Vec::new(alloc);
    nodes.push(Bridge)?;
    for _ in 0..count {
        nodes.push(Station)?;
    }
    Ok(nodes)
}

/// Whether a star of these nodes up to the last is refused, since node 1 has too many links.
fn is_too_large(alloc: Global, nodes: &[NodeKind], last: u16) -> bool {
    match star(alloc, last) {
        Ok(ends) => is_refused(alloc, nodes, &ends, TooManyLinks(NodeNo(1))),
        Err(_) => false,
    }
}

fn is_bridge_too_large(alloc: Global) -> bool {
    match bridge_with_stations(alloc, 256) {
        Ok(nodes) => is_too_large(alloc, &nodes, 257),
        Err(_) => false,
    }
}

#[test]
fn a_bridge_with_256_stations_has_too_many_links(rt: HostRuntime) {
    assert!(rt; is_bridge_too_large(rt.alloc()));
}

/// Whether the path between two nodes has so many ports.
fn has_path(alloc: Global, tree: &Tree, from: NodeNo, to: NodeNo, len: usize) -> bool {
    if !has_node(tree, from) || !has_node(tree, to) {
        return false;
    }
    match tree.path(alloc, from, to) {
        Ok(path) => path.len() == len,
        Err(_) => false,
    }
}

/// The tree of a chain of these nodes up to the last.
fn chain_of(alloc: Global, nodes: &[NodeKind], last: u16) -> Result<Tree, TreeErr> {
    match chain(alloc, last) {
        Ok(ends) => tree_of(alloc, nodes, &ends),
        Err(_) => Err(TreeErr::NoMemory),
    }
}

/// Whether a chain of all 65,535 nodes is a tree, with a path from the first to the last.
fn has_chain(alloc: Global, nodes: &[NodeKind]) -> bool {
    match chain_of(alloc, nodes, 65_535) {
        Ok(tree) => {
            tree.nodes() == 65_535 && has_path(alloc, &tree, NodeNo(1), NodeNo(65_535), 65_534)
        }
        Err(_) => false,
    }
}

fn are_judged(alloc: Global) -> bool {
    match vec![in alloc; Bridge; 65_535] {
        Ok(nodes) => is_too_large(alloc, &nodes, 65_535) && has_chain(alloc, &nodes),
        Err(_) => false,
    }
}

#[test]
fn a_chain_and_a_star_of_65535_bridges_are_judged_soon(rt: HostRuntime) {
    assert!(rt; are_judged(rt.alloc()));
}
