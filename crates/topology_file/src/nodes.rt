//! The nodes of a scenario: rules 4 to 7.

ghost use Rattle.std.specs.Prelude.{◌≡◌, ◌&&◌, ◌≤◌, [], map, length, option_map, IfOk, IfSome};
ghost use Rattle.srp_base.specs.Firsts.{first_where as first_where_spec};
ghost use Rattle.toml.specs.View.{table_view};
ghost use Rattle.toml_rules.specs.{Fields.has_only as has_only_spec, Rules.Reads, Rules.each_entry};
ghost use Rattle.tree_topology.specs.Refusal.{is_station as is_station_spec};
ghost use Rattle.topology_file.specs.Entries.{node_keys, node_entry, has_name as has_name_spec, node_no as node_no_spec, node_named as node_named_spec, station_named as station_named_spec};
ghost use Rattle.topology_file.specs.Scenario.{has_name_of as has_name_of_spec, has_id_of as has_id_of_spec, is_small as is_small_spec, nodes_of};

use crate::entries::NodeEntry;
use crate::forms::{read_domain, read_id, read_kind, read_name};
use crate::names::Names;
use srp_base::{BridgeId, NoMemory, NodeNo, Seq};
use std::alloc::Global;
use toml::Table;
use toml_rules::{RuleErr, each_table, first_where, has_only, holds, no_entry};
use tree_topology::NodeKind;

/// A name as a list of its bytes.
pub(crate) fn copy_name(alloc: Global, name: &[u8]) -> Result<Seq<u8>, NoMemory>
    ensures { IfOk result (λ bytes. bytes ≡ name.now) }
{
    let bytes = name.to_vec(alloc)?;
    Ok(Seq::from_vec(bytes))
}

const NODE_KEYS: [&str; 3] = ["name", "kind", "id"];

const DOMAIN_NODE_KEYS: [&str; 4] = ["name", "kind", "id", "domain"];

/// Whether a node's entry has no other keys than it may have; its domain is one where the file has
/// domains.
fn has_node_keys(domains: bool, table: &Table) -> bool
    ensures { result ≡ has_only_spec (node_keys domains) (table_view table.now) }
{
    if domains {
        has_only(table, &DOMAIN_NODE_KEYS)
    } else {
        has_only(table, &NODE_KEYS)
    }
}

/// The node of an entry with this number, where it has its form.
fn read_node(
    alloc: Global,
    domains: bool,
    number: usize,
    table: &Table,
) -> Result<Option<NodeEntry>, NoMemory>
    ensures { IfOk result (λ node. node ≡ node_entry domains number (table_view table.now)) }
{
    if !has_node_keys(domains, table) {
        return Ok(None);
    }
    let Some(name) = read_name(table, "name") else {
        return Ok(None);
    };
    let Some(kind) = read_kind(table) else {
        return Ok(None);
    };
    let Some(id) = read_id(number, table) else {
        return Ok(None);
    };
    let Some(domain) = read_domain(table) else {
        return Ok(None);
    };
    let name = copy_name(alloc, name.as_bytes())?;
    Ok(Some(NodeEntry {
        name,
        kind,
        id: BridgeId(id),
        domain,
    }))
}

/// Rule 4: each node has its form.
fn read_forms(alloc: Global, domains: bool, entries: &[&Table]) -> Result<Vec<NodeEntry>, RuleErr>
    ensures { Reads (λ v. v.items) result (each_entry 4 (node_entry domains) 1 (map
        (λ t. table_view t.now) entries.now)) }
{
    each_table(
        alloc,
        4,
        entries,
        |number, table| read_node(alloc, domains, number, table),
    )
}

/// Whether there are 2 to 64 nodes, and at most 400,000 nodes times ticks.
fn is_small(ticks: u64, nodes: &[NodeEntry]) -> bool
    requires { ticks ≤ 12000 }
    ensures { result ≡ is_small_spec ticks nodes.now }
{
    2 <= nodes.len() && nodes.len() <= 64 && nodes.len() as u64 * ticks <= 400_000
}

fn has_name_of(earlier: &[NodeEntry], node: &NodeEntry) -> bool
    ensures { result ≡ has_name_of_spec earlier.now node.now }
{
    earlier.iter().any(|other| other.name == node.name)
}

/// The first node whose name an earlier one has.
fn repeated_name(nodes: &[NodeEntry]) -> Option<usize>
    ensures { result ≡ first_where_spec has_name_of_spec [] nodes.now }
{
    first_where(nodes, |earlier, node| has_name_of(earlier, node))
}

fn has_id_of(earlier: &[NodeEntry], node: &NodeEntry) -> bool
    ensures { result ≡ has_id_of_spec earlier.now node.now }
{
    earlier.iter().any(|other| other.id.0 == node.id.0)
}

/// The first node whose id an earlier one has.
fn repeated_id(nodes: &[NodeEntry]) -> Option<usize>
    ensures { result ≡ first_where_spec has_id_of_spec [] nodes.now }
{
    first_where(nodes, |earlier, node| has_id_of(earlier, node))
}

/// The nodes of the entries: rules 4 to 7.
pub(crate) fn read_nodes(
    alloc: Global,
    ticks: u64,
    domains: bool,
    entries: &[&Table],
) -> Result<Vec<NodeEntry>, RuleErr>
    requires { ticks ≤ 12000 }
    ensures nodes { Reads (λ v. v.items) result (nodes_of ticks domains (map
        (λ t. table_view t.now) entries.now)) }
    ensures few { IfOk result (λ v. length v.items ≤ 64) }
{
    let nodes = read_forms(alloc, domains, entries)?;
    holds(5, is_small(ticks, &nodes))?;
    no_entry(6, repeated_name(&nodes))?;
    no_entry(7, repeated_id(&nodes))?;
    Ok(nodes)
}

fn is_station(kind: NodeKind) -> bool
    ensures { result ≡ is_station_spec kind }
{
    kind == NodeKind::Station
}

fn has_name(name: &str, node: &NodeEntry) -> bool
    ensures { result ≡ has_name_spec name.now node.now }
{
    node.name.as_slice() == name.as_bytes()
}

fn is_station_named(name: &str, node: &NodeEntry) -> bool
    ensures { result ≡ (has_name_spec name.now node.now && is_station_spec node.now.kind) }
{
    has_name(name, node) && is_station(node.kind)
}

/// A number of a node that is known to be small.
fn node_no(number: Option<usize>) -> Option<NodeNo>
    requires { IfSome number (λ n. n ≤ 65535) }
    ensures { result ≡ option_map node_no_spec number }
{
    match number {
        Some(n) => Some(NodeNo(n as u16)),
        None => None,
    }
}

/// The node of this name.
pub(crate) fn node_named(names: &Names, name: &str) -> Option<NodeNo>
    ensures { result ≡ node_named_spec names.now.nodes name.now }
{
    node_no(first_where(names.nodes, |_, node| has_name(name, node)))
}

/// The station of this name. None where no station has it.
pub fn station_named(names: &Names, name: &str) -> Option<NodeNo>
    ensures { result ≡ station_named_spec names.now.nodes name.now }
{
    node_no(first_where(names.nodes, |_, node| is_station_named(name, node)))
}
