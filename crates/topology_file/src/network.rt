//! The network of a file, and its times: rules 1 and 3 to 15.

ghost use Rattle.std.specs.Prelude.{◌≡◌, ◌≤◌, map, length, IfOk};
ghost use Rattle.toml.specs.View.{table_view};
ghost use Rattle.toml_rules.specs.Rules.{Reads};
ghost use Rattle.topology_file.specs.Network.{IsKeptNetwork, timed_network_of};
ghost use Rattle.topology_file.specs.Parts.{network_of, times_of};
ghost use Rattle.topology_file.specs.Scenario.{ticks_at, leave_time_at};

use crate::entries::{LinkEntry, NodeEntry};
use crate::links::read_links;
use crate::names::Names;
use crate::nodes::read_nodes;
use crate::tree::{crowded_node, make_tree};
use srp_base::Seq;
use std::alloc::Global;
use toml::Table;
use toml_rules::{RuleErr, needs, needs_tables, no_entry, number, number_or, truth_or, within};
use tree_topology::{Tree, laws};

/// The times of a file.
#[derive(Clone, Copy)]
pub struct Times {
    /// How many ticks of 1 cs it runs: 1 to 12,000.
    pub ticks: u64,
    /// LeaveTime in cs, 60 to 100 (IEEE Std 802.1Q-2018, 10.7.11).
    pub leave_time: u64,
    /// Whether participants transmit periodically.
    pub periodic: bool,
}

/// The nodes and links of a file, and their tree.
#[derive(Drop)]
pub struct Network {
    /// The tree of the nodes and links.
    pub tree: Tree,
    /// The nodes in the order of their numbers, 2 to 64.
    pub nodes: Seq<NodeEntry>,
    /// The links in the order of the file.
    pub links: Seq<LinkEntry>,
}

/// A network with its times.
#[derive(Drop)]
pub struct TimedNetwork {
    pub times: Times,
    pub network: Network,
}

/// The ticks of a file: rule 1.
pub(crate) fn read_ticks(table: &Table) -> Option<u64>
    ensures { result ≡ ticks_at (table_view table.now) }
{
    within(1, 12_000, number(table, "ticks"))
}

fn read_leave_time(table: &Table) -> Option<u64>
    ensures { result ≡ leave_time_at (table_view table.now) }
{
    within(60, 100, number_or(table, "leave_time", 60))
}

/// The times of a scenario of so many ticks: rule 3.
pub(crate) fn read_times(ticks: u64, table: &Table) -> Result<Times, RuleErr>
    ensures times { result ≡ times_of ticks (table_view table.now) }
    ensures ticks { IfOk result (λ t. t.ticks ≡ ticks) }
    ensures least_leave { IfOk result (λ t. 60 ≤ t.leave_time) }
    ensures leave { IfOk result (λ t. t.leave_time ≤ 100) }
{
    let leave_time = needs(3, read_leave_time(table))?;
    let periodic = needs(3, truth_or(table, "periodic", false))?;
    Ok(Times {
        ticks,
        leave_time,
        periodic,
    })
}

/// The network of these entries: rules 4 to 15.
pub(crate) fn read_network(
    alloc: Global,
    ticks: u64,
    domains: bool,
    node_tables: &[&Table],
    link_tables: &[&Table],
) -> Result<Network, RuleErr>
    requires { ticks ≤ 12000 }
    ensures reads { Reads (λ n. n) result (network_of ticks domains
        (map (λ t. table_view t.now) node_tables.now)
        (map (λ t. table_view t.now) link_tables.now)) }
    ensures few_nodes { IfOk result (λ n. length n.nodes ≤ 64) }
{
    let nodes = Seq::from_vec(read_nodes(alloc, ticks, domains, node_tables)?);
    let names = Names::of_network(nodes.as_slice(), &[]);
    let links = Seq::from_vec(read_links(alloc, &names, link_tables)?);
    let tree = make_tree(alloc, nodes.as_slice(), links.as_slice())?;
    no_entry(15, crowded_node(nodes.as_slice(), &tree))?;
    Ok(Network { tree, nodes, links })
}

/// The network of a table with its times, or the first rule that fails with its first failing
/// entry: rules 1 to 15, of the keys `ticks`, `leave_time`, `periodic`, `node` and `link` alone,
/// without SRP domains. What else the table may have is judged by whoever reads it.
///
/// # Errors
///
/// `Rule` names the rule and the entry, counted from 1; entry 0 is the file as a whole.
pub fn read_timed_network(alloc: Global, table: &Table) -> Result<TimedNetwork, RuleErr>
    ensures reads { Reads (λ n. n) result (timed_network_of (table_view table.now)) }
    ensures kept { IfOk result IsKeptNetwork }
{
    laws::refusals();
    let ticks = needs(1, read_ticks(table))?;
    let nodes = needs_tables(alloc, 2, table, "node")?;
    let links = needs_tables(alloc, 2, table, "link")?;
    let times = read_times(ticks, table)?;
    let network = read_network(alloc, times.ticks, false, &nodes, &links)?;
    Ok(TimedNetwork { times, network })
}
