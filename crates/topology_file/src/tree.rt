//! The tree of a scenario: rules 10 to 15.

ghost use Rattle.std.specs.Prelude.{◌≡◌, ◌≤◌, [], length, All, None, IfOk};
ghost use Rattle.srp_base.specs.Firsts.{first_where as first_where_spec};
ghost use Rattle.toml_rules.specs.Rules.{Reads};
ghost use Rattle.tree_topology.specs.{Graph.IsNode, Refusal.refusal, Refusal.has_unknown_end, Refusal.is_self_link, Refusal.joins_both as joins_both_spec, Refusal.is_second_link as is_second_link_spec};
ghost use Rattle.topology_file.specs.Scenario.{is_crowded as is_crowded_spec, node_kinds, ends_of_entry, tree_links, proper_ends, tree_of, unless_refused, rule_of as rule_of_spec};

use crate::entries::{LinkEntry, NodeEntry};
use srp_base::NodeNo;
use std::alloc::{AllocError, Global};
use toml_rules::{RuleErr, fails_at, first_where, no_entry};
use tree_topology::{Link, NodeKind, Tree, TreeErr, laws};

/// The rule that a refusal of the tree breaks.
fn rule_of(refusal: TreeErr) -> RuleErr
    ensures { result ≡ rule_of_spec refusal }
{
    match refusal {
        TreeErr::UnknownNode(link) => fails_at(9, usize::from(link.0)),
        TreeErr::SelfLink(link) => fails_at(10, usize::from(link.0)),
        TreeErr::SecondLink(link) => fails_at(11, usize::from(link.0)),
        TreeErr::Loop(link) => fails_at(12, usize::from(link.0)),
        TreeErr::Unconnected(node) => fails_at(13, usize::from(node.0)),
        TreeErr::StationWithLinks(node) => fails_at(14, usize::from(node.0)),
        TreeErr::TooManyLinks(node) => fails_at(15, usize::from(node.0)),
        TreeErr::NoMemory => RuleErr::NoMemory,
    }
}

/// The kinds of the nodes.
fn kinds_of(alloc: Global, nodes: &[NodeEntry]) -> Result<Vec<NodeKind>, AllocError>
    ensures { IfOk result (λ v. v.items ≡ node_kinds nodes.now) }
{
    nodes.iter().map(|node| node.kind).collect(alloc)
}

fn link_of(entry: &LinkEntry) -> Link
    ensures { result ≡ ends_of_entry entry.now }
{
    Link {
        a: entry.a,
        b: entry.b,
    }
}

/// The ends of the links.
fn ends_of(alloc: Global, links: &[LinkEntry]) -> Result<Vec<Link>, AllocError>
    ensures { IfOk result (λ v. v.items ≡ tree_links links.now) }
{
    links.iter().map(|link| link_of(link)).collect(alloc)
}

/// The first link of a node with itself.
fn self_link(ends: &[Link]) -> Option<usize>
    ensures { result ≡ first_where_spec is_self_link [] ends.now }
{
    first_where(ends, |_, link| link.a.0 == link.b.0)
}

/// Whether a link joins two nodes.
fn joins_both(x: u16, y: u16, link: &Link) -> bool
    ensures { result ≡ joins_both_spec x y link.now }
{
    link.a.0 == x && link.b.0 == y || link.a.0 == y && link.b.0 == x
}

/// Whether one of the links joins the ends of a link.
fn is_second_link(earlier: &[Link], link: &Link) -> bool
    ensures { result ≡ is_second_link_spec earlier.now link.now }
{
    earlier
        .iter()
        .any(|other| joins_both(link.a.0, link.b.0, other))
}

/// The first link that joins the same nodes as an earlier one.
fn second_link(ends: &[Link]) -> Option<usize>
    ensures { result ≡ first_where_spec is_second_link_spec [] ends.now }
{
    first_where(ends, |earlier, link| is_second_link(earlier, link))
}

/// Rules 10 and 11, which are judged by the ends alone: a file may have more links than a tree, but
/// few of them keep these rules.
fn check_ends(ends: &[Link]) -> Result<(), RuleErr>
    ensures { result ≡ proper_ends ends.now }
{
    no_entry(10, self_link(ends))?;
    no_entry(11, second_link(ends))
}

/// The tree of kinds and ends.
fn tree_of_ends(alloc: Global, kinds: &[NodeKind], ends: &[Link]) -> Result<Tree, RuleErr>
    requires few { length kinds.now ≤ 64 }
    requires known { first_where_spec (has_unknown_end (length kinds.now)) [] ends.now ≡ None }
    ensures { Reads (λ t. t) result
        (unless_refused (record { kinds = kinds.now; links = ends.now })
        (refusal kinds.now ends.now)) }
{
    laws::refusals();
    laws::few_links();
    check_ends(ends)?;
    match Tree::new(alloc, kinds, ends) {
        Ok(tree) => Ok(tree),
        Err(refusal) => Err(rule_of(refusal)),
    }
}

/// The tree of the nodes and links: rules 10 to 14.
pub(crate) fn make_tree(
    alloc: Global,
    nodes: &[NodeEntry],
    links: &[LinkEntry],
) -> Result<Tree, RuleErr>
    requires few { length nodes.now ≤ 64 }
    requires known { All (λ l. IsNode (length nodes.now) l.a.0
        × IsNode (length nodes.now) l.b.0) links.now }
    ensures tree { Reads (λ t. t) result (tree_of nodes.now links.now) }
    ensures size { IfOk result (λ t. length t.kinds ≡ length nodes.now) }
{
    let kinds = kinds_of(alloc, nodes)?;
    let ends = ends_of(alloc, links)?;
    tree_of_ends(alloc, &kinds, &ends)
}

/// The first node with more than 16 links.
pub(crate) fn crowded_node(nodes: &[NodeEntry], tree: &Tree) -> Option<usize>
    requires few { length nodes.now ≤ 64 }
    requires size { length tree.now.kinds ≡ length nodes.now }
    ensures { result ≡ first_where_spec (is_crowded_spec tree.now.links) [] nodes.now }
{
    for i in 0..nodes.len() {
        if tree.ports(NodeNo((i + 1) as u16)) > 16 {
            return Some(i + 1);
        }
    }
    None
}
