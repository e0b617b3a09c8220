//! Nodes and links as a graph, with each node's neighbours in the order of its links.

ghost use Rattle.std.specs.Prelude.{◌≡◌, ◌==◌, ◌+◌, ◌↔◌, ◌<◌, ◌≤◌, ◌⊎◌, length, IsTrue, OnOk, IfOk, IfErr, slice_index_or, [], vec_len};
ghost use Rattle.std.specs.List.{list_any};
ghost use Rattle.std.specs.Prelude.{replicate};
ghost use Rattle.tree_topology.specs.Graph.{Joined, HasKnownEnds, HasNoSelfLink, HasNoSecondLink, IsGraph, IsTree};
ghost use Rattle.tree_topology.specs.Ports.{neighbours};
ghost use Rattle.tree_topology.specs.Tables.{HasRows, with_neighbour, with_link};
ghost use Rattle.tree_topology.specs.Refusal.{IsStationWithLinks, HasLeafStations, HasCountedPorts, IsRefusal};

use crate::checks::{check_ends, check_self_links};
use crate::graph::{Link, NodeKind, TreeErr};
use srp_base::{LinkNo, NoMemory, NodeNo, Seq};
use std::alloc::Global;

/// A graph: both ends of each link are nodes, no link joins a node with itself, and no two join the
/// same nodes. `rows[x]` has the neighbours of node x in the order of its links, `rows[0]` none.
#[derive(Drop)]
pub(crate) struct Graph {
    pub(crate) kinds: Vec<NodeKind>,
    pub(crate) links: Vec<Link>,
    pub(crate) rows: Vec<Seq<u16>>,
    ghost few_nodes: { vec_len kinds < 65536 },
    ghost few_links: { vec_len links < 65536 },
    ghost is_graph: { IsGraph (length kinds.items) links.items },
    ghost has_rows: { HasRows (length kinds.items) links.items rows.items },
}

impl Graph {
    /// The graph of these nodes and links, or why they are none.
    pub(crate) fn new(alloc: Global, nodes: &[NodeKind], links: &[Link]) -> Result<Graph, TreeErr>
        requires few_nodes { length nodes.now < 65536 }
        requires few_links { length links.now < 65536 }
        ensures ok { IfOk result (λ g. (g.kinds.items ≡ nodes.now) × (g.links.items ≡ links.now)) }
        ensures err { IfErr result (λ e. IsRefusal nodes.now links.now e) }
    {
        check_ends(nodes, links)?;
        check_self_links(nodes, links)?;
        let rows = neighbour_rows(alloc, nodes, links)?;
        let kinds = nodes.to_vec(alloc)?;
        let links = links.to_vec(alloc)?;
        Ok(Graph { kinds, links, rows })
    }

    /// The same graph once more.
    pub(crate) fn copy(&self) -> Result<Graph, NoMemory>
        ensures kinds { IfOk result (λ g. g.kinds.items ≡ self.now.kinds.items) }
        ensures links { IfOk result (λ g. g.links.items ≡ self.now.links.items) }
    {
        Ok(Graph {
            kinds: self.kinds.clone()?,
            links: self.links.clone()?,
            rows: self.rows.clone()?,
        })
    }

    /// Whether a link joins two nodes.
    pub(crate) fn joins(&self, node: u16, other: u16) -> bool
        ensures { IsTrue result ↔ Joined self.now.links.items node other }
    {
        usize::from(node) <= self.kinds.len() && is_among(self.neighbours(node), other)
    }

    /// A node's neighbours in the order of its links.
    pub(crate) fn neighbours(&self, node: u16) -> &[u16]
        requires { node ≤ length self.now.kinds.items }
        ensures { result.now ≡ neighbours self.now.links.items node }
    {
        let row = &self.rows[usize::from(node)];
        row.as_slice()
    }

    /// Each station has exactly one link.
    pub(crate) fn check_stations(&self) -> Result<(), TreeErr>
        requires { IsTree (length self.now.kinds.items) self.now.links.items }
        ensures ok { OnOk result (HasLeafStations self.now.kinds.items self.now.links.items) }
        ensures err { IfErr result (λ e. IsRefusal self.now.kinds.items self.now.links.items e) }
    {
        for i in 0..self.kinds.len() {
            if self.is_stray_station(i) {
                return Err(TreeErr::StationWithLinks(NodeNo((i + 1) as u16)));
            }
        }
        Ok(())
    }

    /// Whether the node at this place is a station that hasn't exactly one link.
    fn is_stray_station(&self, place: usize) -> bool
        requires { place < length self.now.kinds.items }
        ensures { IsTrue result ↔ IsStationWithLinks
            self.now.kinds.items self.now.links.items (place + 1) }
    {
        self.kinds[place] == NodeKind::Station && self.neighbours((place + 1) as u16).len() != 1
    }

    /// Each node has at most 255 links.
    pub(crate) fn check_port_counts(&self) -> Result<(), TreeErr>
        requires tree { IsTree (length self.now.kinds.items) self.now.links.items }
        requires stations { HasLeafStations self.now.kinds.items self.now.links.items }
        ensures ok { OnOk result (HasCountedPorts self.now.kinds.items self.now.links.items) }
        ensures err { IfErr result (λ e. IsRefusal self.now.kinds.items self.now.links.items e) }
    {
        for i in 0..self.kinds.len() {
            if self.neighbours((i + 1) as u16).len() > 255 {
                return Err(TreeErr::TooManyLinks(NodeNo((i + 1) as u16)));
            }
        }
        Ok(())
    }
}

/// So many empty rows.
fn empty_rows(alloc: Global, count: usize) -> Result<Vec<Seq<u16>>, NoMemory>
    ensures { IfOk result (λ rows. rows.items ≡ replicate count []) }
{
    let mut rows = Vec::new(alloc);
    for _ in 0..count {
        rows.push(Seq::new(alloc))?;
    }
    Ok(rows)
}

/// Whether this node is among these.
fn is_among(nodes: &[u16], node: u16) -> bool
    ensures { result ≡ list_any (λ u. u == node) nodes.now }
{
    nodes.iter().any(|u| *u == node)
}

/// Whether a node's row has this neighbour.
fn has_neighbour(rows: &[Seq<u16>], node: u16, neighbour: u16) -> bool
    requires { node < length rows.now }
    ensures { result ≡ list_any (λ u. u == neighbour) (slice_index_or rows.now node []) }
{
    let row = &rows[usize::from(node)];
    is_among(row.as_slice(), neighbour)
}

/// Whether the shorter row of a link's ends has the other end.
fn is_joined(rows: &[Seq<u16>], link: &Link) -> bool
    requires a { link.now.a.0 < length rows.now }
    requires b { link.now.b.0 < length rows.now }
    ensures { (result ≡ list_any (λ u. u == link.now.b.0) (slice_index_or rows.now link.now.a.0 []))
        ⊎ (result ≡ list_any (λ u. u == link.now.a.0) (slice_index_or rows.now link.now.b.0 [])) }
{
    if rows[usize::from(link.a.0)].len() <= rows[usize::from(link.b.0)].len() {
        has_neighbour(rows, link.a.0, link.b.0)
    } else {
        has_neighbour(rows, link.b.0, link.a.0)
    }
}

/// Puts a neighbour at the end of a node's row.
fn add_neighbour(rows: &mut Vec<Seq<u16>>, node: u16, neighbour: u16) -> Result<(), NoMemory>
    requires { node < vec_len rows.old }
    ensures { OnOk result (rows.new.items ≡ with_neighbour rows.old.items node neighbour) }
{
    let row = &mut rows[usize::from(node)];
    row.push(neighbour)?;
    Ok(())
}

/// Puts each end of a link into the other's row.
fn add_link(rows: &mut Vec<Seq<u16>>, link: &Link) -> Result<(), NoMemory>
    requires a { link.now.a.0 < vec_len rows.old }
    requires b { link.now.b.0 < vec_len rows.old }
    ensures { OnOk result (rows.new.items ≡ with_link rows.old.items link.now) }
{
    add_neighbour(rows, link.a.0, link.b.0)?;
    add_neighbour(rows, link.b.0, link.a.0)
}

/// The neighbours of each node, unless two links join the same nodes.
fn neighbour_rows(
    alloc: Global,
    nodes: &[NodeKind],
    links: &[Link],
) -> Result<Vec<Seq<u16>>, TreeErr>
    requires few_nodes { length nodes.now < 65536 }
    requires few_links { length links.now < 65536 }
    requires known { HasKnownEnds (length nodes.now) links.now }
    requires no_self { HasNoSelfLink links.now }
    ensures rows { IfOk result (λ rows. HasRows (length nodes.now) links.now rows.items) }
    ensures ok { OnOk result (HasNoSecondLink links.now) }
    ensures err { IfErr result (λ e. IsRefusal nodes.now links.now e) }
{
    let mut rows = empty_rows(alloc, nodes.len() + 1)?;
    for (i, link) in links.iter().enumerate() {
        if is_joined(&rows, link) {
            return Err(TreeErr::SecondLink(LinkNo((i + 1) as u16)));
        }
        add_link(&mut rows, link)?;
    }
    Ok(rows)
}
