//! A scenario: a network, its times, and what happens in it.

ghost use Rattle.std.specs.Prelude.{◌≡◌, ◌≤◌, map, length, Ok, IfOk};
ghost use Rattle.toml.specs.Data.{Members};
ghost use Rattle.toml.specs.View.{table_view};
ghost use Rattle.toml_rules.specs.Rules.{Reads};
ghost use Rattle.topology_file.specs.Frames.{frame_copies};
ghost use Rattle.topology_file.specs.Parts.{traffic_of, rest_plan, entries_plan};
ghost use Rattle.topology_file.specs.Plan.{Plan};
ghost use Rattle.topology_file.specs.Scenario.{KeepsRules, plan_of, scenario_of};

use crate::entries::{EventEntry, FrameEntry, LinkEntry, NodeEntry, StreamEntry};
use crate::events::read_events;
use crate::frames::{copies_of, read_frames};
use crate::names::Names;
use crate::network::{Network, Times, read_network, read_ticks, read_times};
use crate::streams::read_streams;
use srp_base::{Cs, Seq};
use std::alloc::Global;
use std::marker::Model;
use toml::Table;
use toml_rules::{RuleErr, has_only, holds, needs, needs_tables, truth_or};
use tree_topology::{Tree, laws};

/// A scenario: a network, its times, and what happens in it.
#[derive(Drop)]
pub struct Scenario {
    /// How many ticks of 1 cs it runs: 1 to 12,000.
    pub ticks: u64,
    /// LeaveTime in cs, 60 to 100 (IEEE Std 802.1Q-2018, 10.7.11).
    pub leave_time: Cs,
    /// Whether participants transmit periodically.
    pub periodic: bool,
    /// Whether nodes say which SRP domain they are in, and ports at its edge refuse streams.
    pub domains: bool,
    /// The tree of the nodes and links.
    pub tree: Tree,
    /// The nodes in the order of their numbers, 2 to 64.
    pub nodes: Seq<NodeEntry>,
    /// The links in the order of the file.
    pub links: Seq<LinkEntry>,
    /// The streams in the order of their numbers, 128 at most.
    pub streams: Seq<StreamEntry>,
    /// The events in the order of the file, which their ticks ascend in: 10,000 at most.
    pub events: Seq<EventEntry>,
    /// The frames in the order of the file, of 100,000 copies at most.
    pub frames: Seq<FrameEntry>,
}

impl Model for Scenario {
    ghost use Rattle.topology_file.specs.Plan.{Plan};

    ghost Value = { Plan };

    ghost use Rattle.topology_file.specs.Fields.{plan_of_fields};
    ghost use Rattle.topology_file.specs.Scenario.{KeepsRules};

    ghost view = { plan_of_fields };

    ghost invariant = { λ s. KeepsRules (plan_of_fields s) };
}

impl Scenario {
    /// Every scenario keeps the rules of its file, and its tree is that of its nodes and links.
    pub fn keeps_rules(&self)
        ensures { KeepsRules self.now }
    {
        let _ = &self.nodes;
    }

    /// How many copies of frames it has, 100,000 at most.
    pub fn copies(&self) -> u64
        ensures { result ≡ frame_copies self.now.frames }
    {
        self.keeps_rules();
        copies_of(self.frames.as_slice())
    }
}

/// Every scenario that a table is read as keeps the rules of its file, in plain words.
pub fn read_scenarios_keep_the_rules()
    ensures { (ms : Members) (plan : Plan) → scenario_of ms ≡ Ok plan → KeepsRules plan }
{
    laws::refusals();
}

/// What happens in a network.
#[derive(Drop)]
struct Traffic {
    streams: Seq<StreamEntry>,
    events: Seq<EventEntry>,
    frames: Seq<FrameEntry>,
}

/// What happens in a network, by these entries: rules 16 to 24.
fn read_traffic(
    alloc: Global,
    ticks: u64,
    network: &Network,
    stream_tables: &[&Table],
    event_tables: &[&Table],
    frame_tables: &[&Table],
) -> Result<Traffic, RuleErr>
    requires ticks { ticks ≤ 12000 }
    requires few_nodes { length network.now.nodes ≤ 64 }
    ensures { Reads (λ t. t) result (traffic_of ticks network.now.nodes network.now.links
        (map (λ t. table_view t.now) stream_tables.now)
        (map (λ t. table_view t.now) event_tables.now)
        (map (λ t. table_view t.now) frame_tables.now)) }
{
    let network = Names::of_network(network.nodes.as_slice(), network.links.as_slice());
    let streams = Seq::from_vec(read_streams(alloc, &network, stream_tables)?);
    let names = network.with_streams(streams.as_slice());
    let events = Seq::from_vec(read_events(alloc, ticks, &names, event_tables)?);
    let frames = Seq::from_vec(read_frames(alloc, ticks, &names, frame_tables)?);
    Ok(Traffic {
        streams,
        events,
        frames,
    })
}

/// The scenario of these times and entries: rules 4 to 24.
fn read_plan(
    alloc: Global,
    times: Times,
    domains: bool,
    node_tables: &[&Table],
    link_tables: &[&Table],
    stream_tables: &[&Table],
    event_tables: &[&Table],
    frame_tables: &[&Table],
) -> Result<Scenario, RuleErr>
    requires some_ticks { 1 ≤ times.ticks }
    requires ticks { times.ticks ≤ 12000 }
    requires least_leave { 60 ≤ times.leave_time }
    requires leave { times.leave_time ≤ 100 }
    ensures { Reads (λ s. s) result (plan_of times.ticks times.leave_time times.periodic domains
        (map (λ t. table_view t.now) node_tables.now) (map (λ t. table_view t.now) link_tables.now)
        (map (λ t. table_view t.now) stream_tables.now)
        (map (λ t. table_view t.now) event_tables.now)
        (map (λ t. table_view t.now) frame_tables.now)) }
{
    laws::refusals();
    let network = read_network(alloc, times.ticks, domains, node_tables, link_tables)?;
    let traffic = read_traffic(
        alloc,
        times.ticks,
        &network,
        stream_tables,
        event_tables,
        frame_tables,
    )?;
    Ok(Scenario {
        ticks: times.ticks,
        leave_time: Cs(times.leave_time),
        periodic: times.periodic,
        domains,
        tree: network.tree,
        nodes: network.nodes,
        links: network.links,
        streams: traffic.streams,
        events: traffic.events,
        frames: traffic.frames,
    })
}

const FILE_KEYS: [&str; 9] = [
    "ticks",
    "leave_time",
    "periodic",
    "domains",
    "node",
    "link",
    "stream",
    "event",
    "frame",
];

/// The scenario of these nodes, links and streams, and of the times, events and frames of a table:
/// rules 2 to 24.
fn read_events_and_frames(
    alloc: Global,
    ticks: u64,
    table: &Table,
    node_tables: &[&Table],
    link_tables: &[&Table],
    stream_tables: &[&Table],
) -> Result<Scenario, RuleErr>
    requires some_ticks { 1 ≤ ticks }
    requires ticks { ticks ≤ 12000 }
    ensures { Reads (λ s. s) result (rest_plan ticks (table_view table.now)
        (map (λ t. table_view t.now) node_tables.now) (map (λ t. table_view t.now) link_tables.now)
        (map (λ t. table_view t.now) stream_tables.now)) }
{
    let event_tables = needs_tables(alloc, 2, table, "event")?;
    let frame_tables = needs_tables(alloc, 2, table, "frame")?;
    let times = read_times(ticks, table)?;
    let domains = needs(3, truth_or(table, "domains", false))?;
    read_plan(
        alloc,
        times,
        domains,
        node_tables,
        link_tables,
        stream_tables,
        &event_tables,
        &frame_tables,
    )
}

/// The scenario of so many ticks, of a table whose keys are known: rules 2 to 24.
fn read_entries(alloc: Global, ticks: u64, table: &Table) -> Result<Scenario, RuleErr>
    requires some_ticks { 1 ≤ ticks }
    requires ticks { ticks ≤ 12000 }
    ensures { Reads (λ s. s) result (entries_plan ticks (table_view table.now)) }
{
    let nodes = needs_tables(alloc, 2, table, "node")?;
    let links = needs_tables(alloc, 2, table, "link")?;
    let streams = needs_tables(alloc, 2, table, "stream")?;
    read_events_and_frames(alloc, ticks, table, &nodes, &links, &streams)
}

/// The scenario of a table, or the first rule that fails with its first failing entry: rules 1 to
/// 24.
///
/// # Errors
///
/// `Rule` names the rule and the entry, counted from 1; entry 0 is the file as a whole.
pub fn read_scenario(alloc: Global, table: &Table) -> Result<Scenario, RuleErr>
    ensures { Reads (λ s. s) result (scenario_of (table_view table.now)) }
{
    let ticks = needs(1, read_ticks(table))?;
    holds(2, has_only(table, &FILE_KEYS))?;
    read_entries(alloc, ticks, table)
}
