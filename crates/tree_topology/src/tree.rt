//! The tree of a network: its nodes and links, the egress ports along a path, and what lies behind
//! a port.

ghost use Rattle.std.specs.Prelude.{◌≡◌, ◌≢◌, ◌<◌, ◌↔◌, length, Some, None, IsTrue, IsSome, IfSome, OnOk, IfOk, IfErr, IsOkUnless};
ghost use Rattle.tree_topology.specs.Graph.{Joined};
ghost use Rattle.tree_topology.specs.Ports.{neighbours, port_to, peer_of, ends_of, IsPortPath, LiesBehind};
ghost use Rattle.tree_topology.specs.PortLaws.{HasPortLaws};
ghost use Rattle.tree_topology.specs.Walk.{path_between, is_behind};
ghost use Rattle.tree_topology.specs.Refusal.{IsAccepted, IsRefusal, refusal};

use crate::climb::find_path;
use crate::graph::{Link, NodeKind, TreeErr};
use crate::laws;
use crate::routes::Routes;
use srp_base::{EgressPort, LinkNo, NoMemory, NodeNo, Seq};
use std::alloc::Global;
use std::marker::Model;

/// A tree of stations and bridges, in which each station has exactly one link and each node at most
/// 255. Nodes and links are numbered from 1 in the order of their lists, and a node's ports from 1
///      in
/// the order of its links. Contracts see the kinds of the nodes and the links.
#[derive(Drop)]
pub struct Tree {
    routes: Routes,
}

impl Model for Tree {
    ghost use Rattle.tree_topology.specs.Topology.{Topology};
    ghost use Rattle.tree_topology.specs.Refusal.{IsAccepted};

    ghost Value = { Topology };

    ghost view = { λ t. record { kinds = t.routes.kinds; links = t.routes.links } };

    ghost invariant = { λ t. IsAccepted t.routes.kinds t.routes.links };
}

impl Tree {
    ghost use Rattle.tree_topology.specs.Topology.{HasNode, HasLink, HasPort};

    /// The tree of these nodes and links, each fewer than 65,536.
    ///
    /// # Errors
    ///
    /// The first refusal in the order of `TreeErr` that fits, with the first link or node that it
    /// fits.
    pub fn new(alloc: Global, nodes: &[NodeKind], links: &[Link]) -> Result<Tree, TreeErr>
        requires few_nodes { length nodes.now < 65536 }
        requires few_links { length links.now < 65536 }
        ensures kinds { IfOk result (λ tree. tree.kinds ≡ nodes.now) }
        ensures links { IfOk result (λ tree. tree.links ≡ links.now) }
        ensures accepted { OnOk result (IsAccepted nodes.now links.now) }
        ensures refused { IfErr result (λ e. IsRefusal nodes.now links.now e) }
        ensures refusal { IfErr result (λ e. e ≢ TreeErr.NoMemory → refusal nodes.now links.now
            ≡ Some e) }
        ensures none { OnOk result (refusal nodes.now links.now ≡ None) }
        ensures accepts { IsAccepted nodes.now links.now → IsOkUnless result TreeErr.NoMemory }
    {
        let routes = Routes::new(alloc, nodes, links)?;
        Ok(Tree { routes })
    }

    /// The egress ports of the walk from one node to another, in order; none where the two are
    /// equal.
    pub fn path(&self, alloc: Global, from: NodeNo, to: NodeNo) -> Result<Seq<EgressPort>, NoMemory>
        requires from { HasNode self.now from.0 }
        requires to { HasNode self.now to.0 }
        ensures walk { IfOk result (λ ports. IsPortPath self.now.links from.0 to.0 ports) }
        ensures value { IfOk result (λ ports. ports ≡ path_between self.now.links from.0 to.0) }
    {
        find_path(alloc, &self.routes, from, to)
    }

    /// The same tree once more.
    pub fn copy(&self) -> Result<Tree, NoMemory>
        ensures { IfOk result (λ tree. tree ≡ self.now) }
    {
        let routes = self.routes.copy()?;
        Ok(Tree { routes })
    }

    /// The port of the link that joins two nodes, at the first of them; None where no link does.
    pub fn port_to(&self, from: NodeNo, to: NodeNo) -> Option<EgressPort>
        ensures port { IfSome result (λ p. p ≡ port_to self.now.links from.0 to.0) }
        ensures joined { IsSome result ↔ Joined self.now.links from.0 to.0 }
    {
        self.routes.find_port(from.0, to.0)
    }

    /// The other end of a port's link.
    pub fn peer(&self, at: EgressPort) -> EgressPort
        requires { HasPort self.now at }
        ensures { result ≡ peer_of self.now.links at }
    {
        self.routes.peer(at)
    }

    /// Whether a node lies on the far side of a port's link.
    pub fn behind(&self, at: EgressPort, node: NodeNo) -> bool
        requires port { HasPort self.now at }
        requires node { HasNode self.now node.0 }
        ensures walk { IsTrue result ↔ LiesBehind self.now.links at node.0 }
        ensures value { result ≡ is_behind self.now.links at node.0 }
    {
        self.routes.behind(at, node)
    }

    /// The number of a node's ports.
    pub fn ports(&self, node: NodeNo) -> u8
        requires { HasNode self.now node.0 }
        ensures { result ≡ length (neighbours self.now.links node.0) }
    {
        self.routes.port_count(node)
    }

    /// The number of nodes.
    pub fn nodes(&self) -> u16
        ensures { result ≡ length self.now.kinds }
    {
        self.routes.node_count()
    }

    /// The number of links.
    pub fn links(&self) -> u16
        ensures { result ≡ length self.now.links }
    {
        self.routes.link_count()
    }

    /// The ports of a link's ends, the end `a` first.
    pub fn ends(&self, link: LinkNo) -> (EgressPort, EgressPort)
        requires { HasLink self.now link.0 }
        ensures { result ≡ ends_of self.now.links link.0 }
    {
        self.routes.ends(link)
    }

    /// What every tree keeps, and the laws of its ports.
    pub fn keeps(&self)
        ensures accepted { IsAccepted self.now.kinds self.now.links }
        ensures ports { HasPortLaws self.now }
    {
        laws::ports();
        let _routes = &self.routes;
    }
}
