//! A plan: a network, and what streams are wanted in it.

ghost use Rattle.std.specs.Prelude.{◌≡◌, ◌≤◌, nat_le, map, length, Some, IfOk, string_bytes};
ghost use Rattle.toml.specs.Parse.{parse_document};
ghost use Rattle.toml.specs.View.{table_view};
ghost use Rattle.toml_rules.specs.Rules.{Reads};
ghost use Rattle.topology_file.specs.Scenario.{scenario_of};
ghost use Rattle.plan_file.specs.Events.{events_of as events_of_spec};
ghost use Rattle.plan_file.specs.Rules.{KeepsPlanRules, expanded_document, if_few as if_few_spec, is_plan as is_plan_spec, plan_of, plan_scenario_of, stream_tables_of, streams_of, wanted_of};
ghost use Rattle.plan_file.specs.Tables.{expanded, network_members as network_members_spec};

use crate::entries::PlanStream;
use crate::events::events_of;
use crate::members::{put_copy, put_number};
use crate::streams::read_streams;
use crate::tables::{PLAN_TICKS, expanded_table};
use srp_base::{NoMemory, Seq};
use std::alloc::Global;
use std::marker::Model;
use toml::Table;
use toml::ser::Error;
use toml_rules::{RuleErr, has_only, holds, needs_tables, value_at};
use topology_file::{LinkEntry, Names, NodeEntry, Scenario, read_scenario};

/// A plan: a network, and what streams are wanted in it.
#[derive(Drop)]
pub struct Plan {
    /// The scenario of the network alone, in which nothing happens.
    pub network: Scenario,
    /// The streams in the order of their numbers, 128 at most.
    pub streams: Seq<PlanStream>,
}

impl Model for Plan {
    ghost use Rattle.plan_file.specs.Plan.{NetworkPlan};

    ghost Value = { NetworkPlan };

    ghost use Rattle.plan_file.specs.Fields.{plan_of_fields};
    ghost use Rattle.plan_file.specs.Rules.{KeepsPlanRules};

    ghost view = { plan_of_fields };

    ghost invariant = { λ p. KeepsPlanRules (plan_of_fields p) };
}

impl Plan {
    /// Every plan keeps the rules of its file. It is a law, and does nothing.
    pub fn keeps_rules(&self)
        ensures { KeepsPlanRules self.now }
    {
        let _ = &self.streams;
    }
}

/// Whether a file is a plan: it says neither how long it runs nor what happens.
pub fn is_plan(table: &Table) -> bool
    ensures { result ≡ is_plan_spec (table_view table.now) }
{
    !value_at(table, "ticks").is_some() && !value_at(table, "event").is_some()
}

/// The table of a plan's network alone.
fn network_table(alloc: Global, table: &Table) -> Result<Table, NoMemory>
    ensures { IfOk result (λ t. table_view t ≡ network_members_spec (table_view table.now)) }
{
    let mut network = Table::new(alloc);
    put_number(alloc, &mut network, "ticks", PLAN_TICKS)?;
    put_copy(alloc, &mut network, "node", table)?;
    put_copy(alloc, &mut network, "link", table)?;
    put_copy(alloc, &mut network, "domains", table)?;
    Ok(network)
}

/// The network of a plan: rules 1 to 15.
fn read_network(alloc: Global, table: &Table) -> Result<Scenario, RuleErr>
    ensures { Reads (λ s. s) result (scenario_of (network_members_spec (table_view table.now))) }
{
    let network = network_table(alloc, table)?;
    read_scenario(alloc, &network)
}

/// Whether the events that come of a plan are at most 10,000: rule 54.
fn has_few_events(
    alloc: Global,
    nodes: &[NodeEntry],
    streams: &[PlanStream],
) -> Result<bool, NoMemory>
    requires nodes { length nodes.now ≤ 64 }
    requires streams { length streams.now ≤ 128 }
    ensures { IfOk result (λ few. few
        ≡ nat_le (length (events_of_spec nodes.now streams.now)) 10000) }
{
    let events = events_of(alloc, nodes, streams)?;
    Ok(events.len() <= MOST_EVENTS)
}

/// The most events of a scenario.
const MOST_EVENTS: usize = 10_000;

/// The most streams of a scenario.
const MOST_STREAMS: usize = 128;

/// The tables of the streams: rule 50.
fn stream_tables(alloc: Global, table: &Table) -> Result<Vec<&Table>, RuleErr>
    ensures tables { Reads (λ v. map (λ t. table_view t.now) v.items) result
        (stream_tables_of (table_view table.now)) }
    ensures few { IfOk result (λ v. length v.items ≤ 128) }
{
    holds(50, has_only(table, &PLAN_KEYS))?;
    let entries = needs_tables(alloc, 50, table, "stream")?;
    holds(50, entries.len() <= MOST_STREAMS)?;
    Ok(entries)
}

const PLAN_KEYS: [&str; 4] = ["node", "link", "stream", "domains"];

/// The streams of these entries: rules 51 to 53.
fn read_known(
    alloc: Global,
    nodes: &[NodeEntry],
    links: &[LinkEntry],
    entries: &[&Table],
) -> Result<Vec<PlanStream>, RuleErr>
    requires nodes { length nodes.now ≤ 64 }
    requires entries { length entries.now ≤ 128 }
    ensures streams { Reads (λ v. v.items) result (streams_of nodes.now
        (map (λ t. table_view t.now) entries.now)) }
    ensures few { IfOk result (λ v. length v.items ≤ 128) }
{
    let names = Names::of_network(nodes, links);
    read_streams(alloc, &names, entries)
}

/// The streams of these entries, of which few events come: rules 51 to 54.
fn read_wanted(
    alloc: Global,
    nodes: &[NodeEntry],
    links: &[LinkEntry],
    entries: &[&Table],
) -> Result<Vec<PlanStream>, RuleErr>
    requires nodes { length nodes.now ≤ 64 }
    requires entries { length entries.now ≤ 128 }
    ensures { Reads (λ v. v.items) result (wanted_of nodes.now
        (map (λ t. table_view t.now) entries.now)) }
{
    let streams = read_known(alloc, nodes, links, entries)?;
    let few = has_few_events(alloc, nodes, &streams)?;
    if_few(few, streams)
}

/// Rule 54: the streams, where few events come of them.
fn if_few(few: bool, streams: Vec<PlanStream>) -> Result<Vec<PlanStream>, RuleErr>
    ensures { Reads (λ v. v.items) result (if_few_spec few streams.items) }
{
    if few {
        Ok(streams)
    } else {
        Err(RuleErr::Rule { rule: 54, entry: 0 })
    }
}

/// The plan of a table, or the first rule that fails with its first failing entry: rules 1 to 15 of
/// its network, and 50 to 54.
///
/// # Errors
///
/// `Rule` names the rule and the entry, counted from 1; entry 0 is the file as a whole.
pub fn read_plan(alloc: Global, table: &Table) -> Result<Plan, RuleErr>
    ensures { Reads (λ p. p) result (plan_of (table_view table.now)) }
{
    let network = read_network(alloc, table)?;
    network.keeps_rules();
    let entries = stream_tables(alloc, table)?;
    let nodes = network.nodes.as_slice();
    let wanted = read_wanted(alloc, nodes, network.links.as_slice(), &entries)?;
    let streams = Seq::from_vec(wanted);
    Ok(Plan { network, streams })
}

/// The scenario that a plan stands for, or the first rule that its table breaks, as `read_plan`
/// says it.
///
/// # Errors
///
/// `Rule` names the rule and the entry, counted from 1; entry 0 is the file as a whole.
pub fn plan_scenario(alloc: Global, table: &Table) -> Result<Scenario, RuleErr>
    ensures { Reads (λ s. s) result (plan_scenario_of (table_view table.now)) }
{
    let plan = read_plan(alloc, table)?;
    let expanded = expanded_table(alloc, &plan)?;
    read_scenario(alloc, &expanded)
}

/// The scenario that a plan stands for as the text of a TOML file.
///
/// # Errors
///
/// `Rule` names the rule and the entry, counted from 1; entry 0 is the file as a whole.
pub fn expanded_text(alloc: Global, table: &Table) -> Result<String, RuleErr>
    ensures { Reads (λ s. parse_document (string_bytes s)) result
        (expanded_document (table_view table.now)) }
{
    let plan = read_plan(alloc, table)?;
    let expanded = expanded_table(alloc, &plan)?;
    Ok(print(alloc, &plan, &expanded)?)
}

/// The table of a plan as a text, which is read back as it.
#[tactic(auto, using(crate::proofs::TableLemmas::shallow, crate::proofs::TableLemmas::dateless))]
fn print(alloc: Global, plan: &Plan, table: &Table) -> Result<String, NoMemory>
    requires { table_view table.now ≡ expanded plan.now }
    ensures { IfOk result (λ s. parse_document (string_bytes s) ≡ Some (expanded plan.now)) }
{
    match toml::table_to_string(alloc, table) {
        Ok(text) => Ok(text),
        Err(Error::OutOfMemory) => Err(NoMemory),
        Err(Error::DateInvalid) => unreachable!(),
    }
}
