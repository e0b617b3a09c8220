//! A tree with the parent and the depth of each node, by which ways through it are found.

ghost use Rattle.std.specs.Prelude.{◌≡◌, ◌≢◌, ◌<◌, ◌≤◌, ◌↔◌, length, IsSome, IfSome, OnOk, IfOk, IfErr, slice_index};
ghost use Rattle.tree_topology.specs.Graph.{IsNode, Joined};
ghost use Rattle.tree_topology.specs.Ports.{IsPort, far_node, neighbours, index_in, port_to, peer_of, ends_of};
ghost use Rattle.tree_topology.specs.Walk.{begins_with, walk_between, is_behind};
ghost use Rattle.tree_topology.specs.Refusal.{IsAccepted, IsRefusal};

use crate::adjacency::Graph;
use crate::graph::{Link, NodeKind, TreeErr};
use crate::span::Span;
use srp_base::{EgressPort, LinkNo, NoMemory, NodeNo, PortNo};
use std::alloc::Global;
use std::marker::Model;

/// A tree with each node's parent and depth. Node 1 is the top.
#[derive(Drop)]
pub(crate) struct Routes {
    graph: Graph,
    parents: Vec<u16>,
    depths: Vec<u32>,
}

impl Model for Routes {
    ghost use Rattle.tree_topology.specs.Routes.{Routed, IsRouted};

    ghost Value = { Routed };

    ghost view = { λ r. record {
      kinds = r.graph.kinds.items;
      links = r.graph.links.items;
      parents = r.parents.items;
      depths = r.depths.items;
    } };

    ghost invariant = { λ r. IsRouted r.graph.kinds.items r.graph.links.items
        r.parents.items r.depths.items };
}

impl Routes {
    ghost use Rattle.tree_topology.specs.Routes.{IsRouted};

    /// The tree of these nodes and links, or why they are none.
    pub(crate) fn new(alloc: Global, nodes: &[NodeKind], links: &[Link]) -> Result<Routes, TreeErr>
        requires few_nodes { length nodes.now < 65536 }
        requires few_links { length links.now < 65536 }
        ensures kinds { IfOk result (λ r. r.kinds ≡ nodes.now) }
        ensures links { IfOk result (λ r. r.links ≡ links.now) }
        ensures accepted { OnOk result (IsAccepted nodes.now links.now) }
        ensures err { IfErr result (λ e. IsRefusal nodes.now links.now e) }
    {
        let graph = Graph::new(alloc, nodes, links)?;
        let Span {
            parents,
            depths,
            ..
        } = Span::of_tree(alloc, &graph)?;
        Ok(Routes {
            graph,
            parents,
            depths,
        })
    }

    /// The same tree once more.
    pub(crate) fn copy(&self) -> Result<Routes, NoMemory>
        ensures { IfOk result (λ routes. routes ≡ self.now) }
    {
        Ok(Routes {
            graph: self.graph.copy()?,
            parents: self.parents.clone()?,
            depths: self.depths.clone()?,
        })
    }

    /// The number of nodes.
    pub(crate) fn node_count(&self) -> u16
        ensures { result ≡ length self.now.kinds }
    {
        self.graph.kinds.len() as u16
    }

    /// The number of links.
    pub(crate) fn link_count(&self) -> u16
        ensures { result ≡ length self.now.links }
    {
        self.graph.links.len() as u16
    }

    /// The number of a node's links.
    pub(crate) fn port_count(&self, node: NodeNo) -> u8
        requires { IsNode (length self.now.kinds) node.0 }
        ensures { result ≡ length (neighbours self.now.links node.0) }
    {
        self.graph.neighbours(node.0).len() as u8
    }

    /// The node at the far end of a port's link.
    fn far_node(&self, at: EgressPort) -> u16
        requires { IsPort (length self.now.kinds) self.now.links at }
        ensures far { result ≡ far_node self.now.links at }
        ensures node { IsNode (length self.now.kinds) result }
        ensures joined { Joined self.now.links at.node.0 result }
    {
        self.graph.neighbours(at.node.0)[usize::from(at.port.0) - 1]
    }

    /// The port of a node towards its neighbour.
    pub(crate) fn port_to(&self, node: u16, neighbour: u16) -> EgressPort
        requires { Joined self.now.links node neighbour }
        ensures { result ≡ port_to self.now.links node neighbour }
    {
        let place = place_of(self.graph.neighbours(node), neighbour);
        EgressPort {
            node: NodeNo(node),
            port: PortNo((place + 1) as u8),
        }
    }

    /// The port of a node towards another, where a link joins them.
    pub(crate) fn find_port(&self, node: u16, other: u16) -> Option<EgressPort>
        ensures port { IfSome result (λ p. p ≡ port_to self.now.links node other) }
        ensures joined { IsSome result ↔ Joined self.now.links node other }
    {
        if self.graph.joins(node, other) {
            Some(self.port_to(node, other))
        } else {
            None
        }
    }

    /// The other end of a port's link.
    pub(crate) fn peer(&self, at: EgressPort) -> EgressPort
        requires { IsPort (length self.now.kinds) self.now.links at }
        ensures { result ≡ peer_of self.now.links at }
    {
        self.port_to(self.far_node(at), at.node.0)
    }

    /// The ports of a link's ends, `a` first.
    pub(crate) fn ends(&self, link: LinkNo) -> (EgressPort, EgressPort)
        requires first { 1 ≤ link.0 }
        requires last { link.0 ≤ length self.now.links }
        ensures { result ≡ ends_of self.now.links link.0 }
    {
        let Link { a, b } = self.graph.links[usize::from(link.0) - 1];
        (self.port_to(a.0, b.0), self.port_to(b.0, a.0))
    }

    /// A node's depth.
    pub(crate) fn depth(&self, node: u16) -> u32
        requires { IsNode (length self.now.kinds) node }
        ensures depth { result ≡ slice_index self.now.depths node }
        ensures routed { IsRouted self.now.kinds self.now.links self.now.parents self.now.depths }
    {
        self.depths[usize::from(node)]
    }

    /// The parent of a node that isn't the first.
    pub(crate) fn parent(&self, node: u16) -> u16
        requires node { IsNode (length self.now.kinds) node }
        requires not_first { node ≢ 1 }
        ensures parent { result ≡ slice_index self.now.parents node }
        ensures node { IsNode (length self.now.kinds) result }
        ensures joined { Joined self.now.links node result }
        ensures higher { slice_index self.now.depths result < slice_index self.now.depths node }
        ensures routed { IsRouted self.now.kinds self.now.links self.now.parents self.now.depths }
    {
        self.parents[usize::from(node)]
    }

    /// Whether a node lies on a node's side of the link to the latter's parent.
    fn is_below(&self, node: u16, top: u16) -> bool
        requires node { IsNode (length self.now.kinds) node }
        requires top { IsNode (length self.now.kinds) top }
        requires not_first { top ≢ 1 }
        ensures { result
            ≡ begins_with top
            (walk_between self.now.links (slice_index self.now.parents top) node) }
    {
        let depth = self.depth(top);
        let mut at = node;
        while self.depth(at) > depth {
            at = self.parent(at);
        }
        at == top
    }

    /// Whether a node lies behind a port.
    pub(crate) fn behind(&self, at: EgressPort, node: NodeNo) -> bool
        requires port { IsPort (length self.now.kinds) self.now.links at }
        requires node { IsNode (length self.now.kinds) node.0 }
        ensures { result ≡ is_behind self.now.links at node.0 }
    {
        let near = at.node.0;
        let far = self.far_node(at);
        if self.depth(near) < self.depth(far) {
            self.is_below(node.0, far)
        } else {
            !self.is_below(node.0, near)
        }
    }
}

/// The place of a node in a list.
fn place_of(nodes: &[u16], node: u16) -> usize
    ensures { result ≡ index_in node nodes.now }
{
    for (i, u) in nodes.iter().enumerate() {
        if *u == node {
            return i;
        }
    }
    nodes.len()
}
