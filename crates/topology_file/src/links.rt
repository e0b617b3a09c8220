//! The links of a scenario: rules 8 and 9.

ghost use Rattle.std.specs.Prelude.{◌≡◌, map, length, All, IfOk};
ghost use Rattle.std.specs.List.{list_any};
ghost use Rattle.toml.specs.View.{table_view};
ghost use Rattle.toml_rules.specs.Rules.{Reads, each_entry as each_entry_spec};
ghost use Rattle.tree_topology.specs.Graph.{IsNode};
ghost use Rattle.topology_file.specs.Entries.{link_between as link_between_spec, known_link, link_form, joins_both as joins_both_spec};
ghost use Rattle.topology_file.specs.Scenario.{links_of};

use crate::entries::LinkEntry;
use crate::forms::{read_latency, read_name, read_rate};
use crate::names::Names;
use crate::nodes::node_named;
use srp_base::{Percent, Rate};
use std::alloc::Global;
use toml::Table;
use toml_rules::{RuleErr, each_entry, each_table, has_only, read_shares};

/// The link between nodes of these names, where there are such nodes.
fn link_between(
    names: &Names,
    from: &str,
    to: &str,
    rate: Rate,
    shares: (Percent, Percent),
    latency: u32,
) -> Option<LinkEntry>
    ensures { result ≡ link_between_spec names.now.nodes from.now to.now rate shares latency }
{
    let a = node_named(names, from)?;
    let b = node_named(names, to)?;
    let (delta_a, delta_b) = shares;
    Some(LinkEntry {
        a,
        b,
        rate,
        delta_a,
        delta_b,
        latency,
    })
}

/// The link of an entry whose keys are known, where their values have their form.
fn read_known_link(names: &Names, table: &Table) -> Option<Option<LinkEntry>>
    ensures { result ≡ known_link names.now.nodes (table_view table.now) }
{
    let a = read_name(table, "a")?;
    let b = read_name(table, "b")?;
    let rate = read_rate(table)?;
    let shares = read_shares(table)?;
    let latency = read_latency(table)?;
    Some(link_between(names, a, b, rate, shares, latency))
}

const LINK_KEYS: [&str; 6] = ["a", "b", "rate", "delta_a", "delta_b", "latency"];

/// The link of an entry, where it has its form; there is none in it where it names no node.
fn read_link(names: &Names, table: &Table) -> Option<Option<LinkEntry>>
    ensures { result ≡ link_form names.now.nodes 0 (table_view table.now) }
{
    if has_only(table, &LINK_KEYS) {
        read_known_link(names, table)
    } else {
        None
    }
}

/// Rule 8: each link has its form.
fn read_forms(
    alloc: Global,
    names: &Names,
    entries: &[&Table],
) -> Result<Vec<Option<LinkEntry>>, RuleErr>
    ensures { Reads (λ v. v.items) result (each_entry_spec 8 (link_form names.now.nodes) 1 (map
        (λ t. table_view t.now) entries.now)) }
{
    each_table(alloc, 8, entries, |_, table| Ok(read_link(names, table)))
}

/// Rule 9: the names of each link's ends are nodes.
fn named_links(alloc: Global, forms: &[Option<LinkEntry>]) -> Result<Vec<LinkEntry>, RuleErr>
    ensures { Reads (λ v. v.items) result (each_entry_spec 9 (λ n form. form) 1 forms.now) }
{
    each_entry(alloc, 9, forms, |_, form| Ok(*form))
}

/// The links of the entries: rules 8 and 9.
pub(crate) fn read_links(
    alloc: Global,
    names: &Names,
    entries: &[&Table],
) -> Result<Vec<LinkEntry>, RuleErr>
    ensures links { Reads (λ v. v.items) result (links_of names.now.nodes (map
        (λ t. table_view t.now) entries.now)) }
    ensures known { IfOk result (λ v. All (λ l. IsNode (length names.now.nodes) l.a.0
        × IsNode (length names.now.nodes) l.b.0) v.items) }
{
    let forms = read_forms(alloc, names, entries)?;
    let links = named_links(alloc, &forms)?;
    Ok(links)
}

/// Whether a link joins these two nodes.
fn joins_both(x: u16, y: u16, link: &LinkEntry) -> bool
    ensures { result ≡ joins_both_spec x y link.now }
{
    link.a.0 == x && link.b.0 == y || link.a.0 == y && link.b.0 == x
}

/// Whether one of the links joins these two nodes.
pub(crate) fn are_joined(names: &Names, x: u16, y: u16) -> bool
    ensures { result ≡ list_any (joins_both_spec x y) names.now.links }
{
    names.links.iter().any(|link| joins_both(x, y, link))
}
