//! The components of a graph link by link, and the first link that closes a loop.

ghost use Rattle.std.specs.Prelude.{◌≡◌, ◌+◌, ◌<◌, length, List, OnOk, IfOk, IfErr, slice_index, vec_len, replicate};
ghost use Rattle.std.specs.List.{range_with_len};
ghost use Rattle.tree_topology.specs.declared.graph.Link.{Link};
ghost use Rattle.tree_topology.specs.Graph.{Connected, IsGraph};
ghost use Rattle.tree_topology.specs.Tables.{HasLeaders, LeadsAlong, joined_leaders, joined_ranks};
ghost use Rattle.tree_topology.specs.Refusal.{HasNoLoop, IsRefusal};

use crate::graph::{Link, NodeKind, TreeErr};
use srp_base::{LinkNo, NoMemory};
use std::alloc::Global;

/// The components of nodes. Each node leads to another one of its component or is its leader. A
/// node that leads to another has the lower rank, so that the way to a leader is short.
#[derive(Drop)]
struct Components {
    leaders: Vec<u16>,
    ranks: Vec<u16>,
}

impl Components {
    /// Each node by itself.
    fn new(alloc: Global, count: usize) -> Result<Components, NoMemory>
        requires { count < 65536 }
        ensures leaders { IfOk result (λ c. c.leaders.items ≡ range_with_len 0 (count + 1)) }
        ensures ranks { IfOk result (λ c. c.ranks.items ≡ replicate (count + 1) 0) }
    {
        let mut leaders = Vec::new(alloc);
        for i in 0..count + 1 {
            leaders.push(i as u16)?;
        }
        let ranks = vec![in alloc; 0; count + 1]?;
        Ok(Components { leaders, ranks })
    }

    /// The leader of a node's component.
    fn leader(&self, node: u16) -> u16
        requires led { HasLeaders self.now.leaders.items self.now.ranks.items }
        requires node { node < vec_len self.now.leaders }
        ensures within { result < vec_len self.now.leaders }
        ensures leader { slice_index self.now.leaders.items result ≡ result }
        ensures connected { (links : List Link) → LeadsAlong links self.now.leaders.items
            → Connected links node result }
    {
        let mut at = node;
        let mut next = self.leaders[usize::from(at)];
        while next != at {
            at = next;
            next = self.leaders[usize::from(at)];
        }
        at
    }

    /// Makes the components of two leaders one.
    fn join(&mut self, a: u16, b: u16)
        requires size { vec_len self.old.ranks ≡ vec_len self.old.leaders }
        requires a { a < vec_len self.old.leaders }
        requires b { b < vec_len self.old.leaders }
        requires low { slice_index self.old.ranks.items b < 65535 }
        ensures leaders { self.new.leaders.items
            ≡ joined_leaders self.old.leaders.items self.old.ranks.items a b }
        ensures ranks { self.new.ranks.items ≡ joined_ranks self.old.ranks.items a b }
    {
        let rank_a = self.ranks[usize::from(a)];
        let rank_b = self.ranks[usize::from(b)];
        if rank_a < rank_b {
            self.leaders[usize::from(a)] = b;
        } else {
            self.leaders[usize::from(b)] = a;
            self.ranks[usize::from(a)] = rank_a.max(rank_b + 1);
        }
    }
}

/// No link joins two nodes that earlier links connect.
pub(crate) fn check_loops(alloc: Global, nodes: &[NodeKind], links: &[Link]) -> Result<(), TreeErr>
    requires few_nodes { length nodes.now < 65536 }
    requires few_links { length links.now < 65536 }
    requires graph { IsGraph (length nodes.now) links.now }
    ensures ok { OnOk result (HasNoLoop links.now) }
    ensures err { IfErr result (λ e. IsRefusal nodes.now links.now e) }
{
    let mut components = Components::new(alloc, nodes.len())?;
    for (i, link) in links.iter().enumerate() {
        let a = components.leader(link.a.0);
        let b = components.leader(link.b.0);
        if a == b {
            return Err(TreeErr::Loop(LinkNo((i + 1) as u16)));
        }
        components.join(a, b);
    }
    Ok(())
}
