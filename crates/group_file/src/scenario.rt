//! A group scenario: a network, its times, and what happens in it.

ghost use Rattle.std.specs.Prelude.{map};
ghost use Rattle.toml.specs.View.{table_view};
ghost use Rattle.toml_rules.specs.Rules.{Reads};
ghost use Rattle.group_file.specs.Scenario.{KeepsGroupRules, group_scenario_of, rest_of};

use crate::entries::GroupEntry;
use crate::events::read_events;
use srp_base::{Cs, Seq};
use std::alloc::Global;
use std::marker::Model;
use toml::Table;
use toml_rules::{RuleErr, has_only, holds, needs_tables};
use topology_file::laws::what_events_name_is_known;
use topology_file::{LinkEntry, Names, NodeEntry, read_timed_network};
use tree_topology::Tree;

/// A group scenario: a network, its times, and which stations join and part from which groups.
#[derive(Drop)]
pub struct GroupScenario {
    /// How many ticks of 1 cs it runs: 1 to 12,000.
    pub ticks: u64,
    /// LeaveTime in cs, 60 to 100 (IEEE Std 802.1Q-2018, 10.7.11).
    pub leave_time: Cs,
    /// Whether participants transmit periodically.
    pub periodic: bool,
    /// The tree of the nodes and links.
    pub tree: Tree,
    /// The nodes in the order of their numbers, 2 to 64.
    pub nodes: Seq<NodeEntry>,
    /// The links in the order of the file.
    pub links: Seq<LinkEntry>,
    /// The events in the order of the file, which their ticks ascend in: 10,000 at most.
    pub events: Seq<GroupEntry>,
}

impl Model for GroupScenario {
    ghost use Rattle.group_file.specs.Plan.{GroupPlan};

    ghost Value = { GroupPlan };

    ghost use Rattle.group_file.specs.Fields.{plan_of_fields};
    ghost use Rattle.group_file.specs.Scenario.{KeepsGroupRules};

    ghost view = { plan_of_fields };

    ghost invariant = { λ s. KeepsGroupRules (plan_of_fields s) };
}

impl GroupScenario {
    /// Every group scenario keeps the rules of its file, and its tree is that of its nodes and
    /// links. It is a law, and does nothing.
    pub fn keeps_rules(&self)
        ensures { KeepsGroupRules self.now }
    {
        let _ = &self.nodes;
    }
}

const GROUP_KEYS: [&str; 6] = ["ticks", "leave_time", "periodic", "node", "link", "event"];

/// The group scenario of these event tables and of the network of a table: rules 1 to 15 and 41 to
/// 43.
fn read_groups(
    alloc: Global,
    table: &Table,
    event_tables: &[&Table],
) -> Result<GroupScenario, RuleErr>
    ensures { Reads (λ s. s) result (rest_of (table_view table.now)
        (map (λ t. table_view t.now) event_tables.now)) }
{
    what_events_name_is_known();
    let read = read_timed_network(alloc, table)?;
    let nodes = read.network.nodes.as_slice();
    let names = Names::of_network(nodes, read.network.links.as_slice());
    let events = read_events(alloc, read.times.ticks, &names, event_tables)?;
    Ok(GroupScenario {
        ticks: read.times.ticks,
        leave_time: Cs(read.times.leave_time),
        periodic: read.times.periodic,
        tree: read.network.tree,
        nodes: read.network.nodes,
        links: read.network.links,
        events: Seq::from_vec(events),
    })
}

/// The group scenario of a table, or the first rule that fails with its first failing entry: rules
/// 40, 1 to 15 and 41 to 43, in this order.
///
/// # Errors
///
/// `Rule` names the rule and the entry, counted from 1; entry 0 is the file as a whole.
pub fn group_scenario(alloc: Global, table: &Table) -> Result<GroupScenario, RuleErr>
    ensures { Reads (λ s. s) result (group_scenario_of (table_view table.now)) }
{
    holds(40, has_only(table, &GROUP_KEYS))?;
    let events = needs_tables(alloc, 40, table, "event")?;
    read_groups(alloc, table, &events)
}
