//! The search from node 1, which gives each node its parent and its depth.

ghost use Rattle.std.specs.Prelude.{◌≡◌, ◌≢◌, ◌==◌, ◌+◌, ◌<◌, ℕ, length, OnOk, IfOk, IfErr, slice_index, slice_set, [], ◌∷◌, ◌++◌, if◌then◌else◌};
ghost use Rattle.tree_topology.specs.Graph.{IsNode, Joined, IsTree};
ghost use Rattle.tree_topology.specs.Tables.{IsSpan, Grows, IsClosed, HasReachedAll};
ghost use Rattle.tree_topology.specs.Refusal.{HasNoLoop, IsAccepted, IsRefusal};

use crate::adjacency::Graph;
use crate::components::check_loops;
use crate::graph::TreeErr;
use srp_base::{NoMemory, NodeNo};
use std::alloc::Global;

/// What a search from node 1 has reached. A node that it hasn't reached has parent 0, node 1 is its
/// own.
#[derive(Drop)]
pub(crate) struct Span {
    pub(crate) parents: Vec<u16>,
    pub(crate) depths: Vec<u32>,
    pub(crate) order: Vec<u16>,
}

impl Span {
    /// All nodes of an accepted tree, or why the graph is none.
    pub(crate) fn of_tree(alloc: Global, graph: &Graph) -> Result<Span, TreeErr>
        ensures span { IfOk result (λ s.
            IsSpan (length graph.now.kinds.items) graph.now.links.items
            s.parents.items s.depths.items s.order.items) }
        ensures reached { IfOk result (λ s.
            HasReachedAll (length graph.now.kinds.items) s.parents.items) }
        ensures accepted { OnOk result (IsAccepted graph.now.kinds.items graph.now.links.items) }
        ensures err { IfErr result (λ e. IsRefusal graph.now.kinds.items graph.now.links.items e) }
    {
        check_loops(alloc, &graph.kinds, &graph.links)?;
        let span = Span::new(alloc, graph)?;
        span.check_tree(graph)?;
        Ok(span)
    }

    /// All that can be reached.
    fn new(alloc: Global, graph: &Graph) -> Result<Span, NoMemory>
        ensures span { IfOk result (λ s.
            IsSpan (length graph.now.kinds.items) graph.now.links.items
            s.parents.items s.depths.items s.order.items) }
        ensures closed { IfOk result (λ s.
            IsClosed (length graph.now.kinds.items) graph.now.links.items s.parents.items) }
    {
        let mut span = Span::start(alloc, graph)?;
        let mut done = 0;
        while done < span.order.len() {
            let node = span.order[done];
            span.visit(graph, node)?;
            done += 1;
        }
        Ok(span)
    }

    /// A graph without loops is a tree that is accepted.
    fn check_tree(&self, graph: &Graph) -> Result<(), TreeErr>
        requires span { IsSpan (length graph.now.kinds.items) graph.now.links.items
            self.now.parents.items self.now.depths.items self.now.order.items }
        requires closed { IsClosed (length graph.now.kinds.items) graph.now.links.items
            self.now.parents.items }
        requires no_loop { HasNoLoop graph.now.links.items }
        ensures reached { OnOk result
            (HasReachedAll (length graph.now.kinds.items) self.now.parents.items) }
        ensures accepted { OnOk result (IsAccepted graph.now.kinds.items graph.now.links.items) }
        ensures err { IfErr result (λ e. IsRefusal graph.now.kinds.items graph.now.links.items e) }
    {
        self.check_connected(graph)?;
        graph.check_stations()?;
        graph.check_port_counts()
    }

    /// Each node is connected with node 1.
    fn check_connected(&self, graph: &Graph) -> Result<(), TreeErr>
        requires span { IsSpan (length graph.now.kinds.items) graph.now.links.items
            self.now.parents.items self.now.depths.items self.now.order.items }
        requires closed { IsClosed (length graph.now.kinds.items) graph.now.links.items
            self.now.parents.items }
        requires no_loop { HasNoLoop graph.now.links.items }
        ensures tree { OnOk result (IsTree (length graph.now.kinds.items) graph.now.links.items) }
        ensures reached { OnOk result
            (HasReachedAll (length graph.now.kinds.items) self.now.parents.items) }
        ensures err { IfErr result (λ e. IsRefusal graph.now.kinds.items graph.now.links.items e) }
    {
        for i in 0..graph.kinds.len() {
            if self.parents[i + 1] == 0 {
                return Err(TreeErr::Unconnected(NodeNo((i + 1) as u16)));
            }
        }
        Ok(())
    }

    /// Node 1 alone, where there is a node.
    fn start(alloc: Global, graph: &Graph) -> Result<Span, NoMemory>
        ensures { IfOk result (λ s.
            IsSpan (length graph.now.kinds.items) graph.now.links.items
            s.parents.items s.depths.items s.order.items) }
    {
        let count = graph.kinds.len();
        let mut parents = vec![in alloc; 0; count + 1]?;
        let depths = vec![in alloc; 0; count + 1]?;
        let mut order = Vec::new(alloc);
        if count > 0 {
            parents[1] = 1;
            order.push(1)?;
        }
        Ok(Span {
            parents,
            depths,
            order,
        })
    }

    /// Reaches the neighbours of a node that is reached.
    fn visit(&mut self, graph: &Graph, node: u16) -> Result<(), NoMemory>
        requires span { IsSpan (length graph.now.kinds.items) graph.now.links.items
            self.old.parents.items self.old.depths.items self.old.order.items }
        requires node { IsNode (length graph.now.kinds.items) node }
        requires reached { slice_index self.old.parents.items node ≢ 0 }
        ensures span { OnOk result (IsSpan (length graph.now.kinds.items) graph.now.links.items
            self.new.parents.items self.new.depths.items self.new.order.items) }
        ensures grows { OnOk result (Grows self.old.parents.items self.old.order.items
            self.new.parents.items self.new.order.items) }
        ensures neighbours { OnOk result ((v : ℕ) → Joined graph.now.links.items node v
            → slice_index self.new.parents.items v ≢ 0) }
    {
        for neighbour in graph.neighbours(node) {
            self.reach(node, *neighbour)?;
        }
        Ok(())
    }

    /// Reaches a neighbour of a node, unless it is reached already.
    fn reach(&mut self, node: u16, neighbour: u16) -> Result<(), NoMemory>
        requires node { node < length self.old.depths.items }
        requires parents { neighbour < length self.old.parents.items }
        requires depths { neighbour < length self.old.depths.items }
        requires shallow { slice_index self.old.depths.items node < 65537 }
        ensures parents { OnOk result (self.new.parents.items ≡
            (if slice_index self.old.parents.items neighbour == 0
            then slice_set self.old.parents.items neighbour node else self.old.parents.items)) }
        ensures depths { OnOk result (self.new.depths.items ≡
            (if slice_index self.old.parents.items neighbour == 0
            then slice_set self.old.depths.items neighbour
            (slice_index self.old.depths.items node + 1)
            else self.old.depths.items)) }
        ensures order { OnOk result (self.new.order.items ≡
            (if slice_index self.old.parents.items neighbour == 0
            then self.old.order.items ++ neighbour ∷ [] else self.old.order.items)) }
    {
        if self.parents[usize::from(neighbour)] != 0 {
            return Ok(());
        }
        self.order.push(neighbour)?;
        self.parents[usize::from(neighbour)] = node;
        self.depths[usize::from(neighbour)] = self.depths[usize::from(node)] + 1;
        Ok(())
    }
}
