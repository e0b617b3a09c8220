//! The tables that a plan stands for.

ghost use Rattle.std.specs.Prelude.{◌≡◌, ◌≤◌, ◌<◌, ◌^◌, List, map, length, IfOk, OnOk};
ghost use Rattle.toml.specs.Data.{table};
ghost use Rattle.toml.specs.View.{table_view, view};
ghost use Rattle.topology_file.specs.declared.entries.NodeEntry.{NodeEntry};
ghost use Rattle.plan_file.specs.declared.entries.PlanStream.{PlanStream};
ghost use Rattle.plan_file.specs.declared.events.PlanEvent.TheVariants.{Declare, Listen, Talk};
ghost use Rattle.plan_file.specs.Events.{events_of as events_of_spec};
ghost use Rattle.plan_file.specs.Numbers.{dests_of as dests_of_spec, ids_of as ids_of_spec};
ghost use Rattle.plan_file.specs.Tables.{domain_word as domain_word_spec, event_members, expanded, happening as happening_spec, head_members, kind_word as kind_word_spec, link_members, mbit_of as mbit_of_spec, network_table as network_table_spec, node_members, node_name as node_name_spec, priority_of as priority_of_spec, rank_number as rank_number_spec, stream_members, stream_name as stream_name_spec, streams_members, with_domain, with_events, with_streams};

use crate::entries::PlanStream;
use crate::events::{PlanEvent, events_of};
use crate::members::{
    push_table, put, put_array, put_dest, put_id, put_name, put_number, put_word,
};
use crate::numbers::{dests_of, ids_of};
use crate::plan::Plan;
use srp_base::{Class, NoMemory, NodeNo, Rank, Rate};
use std::alloc::Global;
use toml::{Table, Value};
use topology_file::{DomainWord, LinkEntry, NodeEntry, Scenario};
use tree_topology::NodeKind;

fn kind_word(kind: NodeKind) -> &'static str
    ensures { result.now ≡ kind_word_spec kind }
{
    match kind {
        NodeKind::Station => "station",
        NodeKind::Bridge => "bridge",
    }
}

fn domain_word(domain: DomainWord) -> &'static str
    ensures { result.now ≡ domain_word_spec domain }
{
    match domain {
        DomainWord::Both => "both",
        DomainWord::OnlyA => "a",
        DomainWord::Nothing => "none",
    }
}

fn put_domain(
    alloc: Global,
    table: &mut Table,
    domains: bool,
    domain: DomainWord,
) -> Result<(), NoMemory>
    ensures { OnOk result (table_view table.new
        ≡ with_domain domains domain (table_view table.old)) }
{
    if domains {
        put_word(alloc, table, "domain", domain_word(domain))
    } else {
        Ok(())
    }
}

/// The table of a node.
fn node_table(alloc: Global, domains: bool, node: &NodeEntry) -> Result<Table, NoMemory>
    ensures { IfOk result (λ t. table_view t ≡ node_members domains node.now) }
{
    let mut table = Table::new(alloc);
    put_name(alloc, &mut table, "name", node.name.as_slice())?;
    put_word(alloc, &mut table, "kind", kind_word(node.kind))?;
    put_id(alloc, &mut table, "id", node.id.0)?;
    put_domain(alloc, &mut table, domains, node.domain)?;
    Ok(table)
}

fn mbit_of(rate: Rate) -> u64
    ensures mbit { result ≡ mbit_of_spec rate }
    ensures small { result ≤ 10000 }
{
    match rate {
        Rate::M100 => 100,
        Rate::G1 => 1_000,
        Rate::G10 => 10_000,
    }
}

/// The name of the node of a number, from 1 on.
fn node_name(nodes: &[NodeEntry], x: NodeNo) -> &[u8]
    ensures { result.now ≡ node_name_spec nodes.now x }
{
    match nodes.get(usize::from(x.0.saturating_sub(1))) {
        Some(node) => node.name.as_slice(),
        None => &[],
    }
}

/// A number with more room.
fn wide(number: u32) -> u64
    ensures value { result ≡ number }
    ensures small { result < 2 ^ 32 }
{
    u64::from(number)
}

/// The table of a link.
fn link_table(alloc: Global, nodes: &[NodeEntry], link: &LinkEntry) -> Result<Table, NoMemory>
    ensures { IfOk result (λ t. table_view t ≡ link_members nodes.now link.now) }
{
    let mut table = Table::new(alloc);
    put_name(alloc, &mut table, "a", node_name(nodes, link.a))?;
    put_name(alloc, &mut table, "b", node_name(nodes, link.b))?;
    put_number(alloc, &mut table, "rate", mbit_of(link.rate))?;
    put_number(alloc, &mut table, "delta_a", link.delta_a.get())?;
    put_number(alloc, &mut table, "delta_b", link.delta_b.get())?;
    put_number(alloc, &mut table, "latency", wide(link.latency))?;
    Ok(table)
}

fn priority_of(class: Class) -> u64
    ensures priority { result ≡ priority_of_spec class }
    ensures small { result ≤ 3 }
{
    match class {
        Class::A => 3,
        Class::B => 2,
    }
}

fn rank_number(rank: Rank) -> u64
    ensures number { result ≡ rank_number_spec rank }
    ensures small { result ≤ 1 }
{
    match rank {
        Rank::Emergency => 0,
        Rank::Normal => 1,
    }
}

/// Who talks in a stream, and in what.
fn stream_head(
    alloc: Global,
    nodes: &[NodeEntry],
    stream: &PlanStream,
    id: u64,
    dest: u64,
) -> Result<Table, NoMemory>
    ensures { IfOk result (λ t. table_view t ≡ head_members nodes.now stream.now id dest) }
{
    let mut table = Table::new(alloc);
    put_name(alloc, &mut table, "name", stream.name.as_slice())?;
    put_id(alloc, &mut table, "id", id)?;
    put_name(
        alloc,
        &mut table,
        "talker",
        node_name(nodes, stream.ends.talker),
    )?;
    put_dest(alloc, &mut table, "dest", dest)?;
    Ok(table)
}

/// The table of a stream of this StreamID and this address.
fn stream_table(
    alloc: Global,
    nodes: &[NodeEntry],
    stream: &PlanStream,
    id: u64,
    dest: u64,
) -> Result<Table, NoMemory>
    ensures { IfOk result (λ t. table_view t ≡ stream_members nodes.now stream.now id dest) }
{
    let values = stream.values;
    let mut table = stream_head(alloc, nodes, stream, id, dest)?;
    put_number(alloc, &mut table, "octets", wide(u32::from(values.octets)))?;
    put_number(alloc, &mut table, "frames", wide(u32::from(values.frames)))?;
    put_number(alloc, &mut table, "vid", u64::from(values.vid.get()))?;
    put_number(alloc, &mut table, "priority", priority_of(values.class))?;
    put_number(alloc, &mut table, "rank", rank_number(values.rank))?;
    Ok(table)
}

/// The name of the stream of a number, from 1 on.
fn stream_name(streams: &[PlanStream], n: u16) -> &[u8]
    ensures { result.now ≡ stream_name_spec streams.now n }
{
    match streams.get(usize::from(n.saturating_sub(1))) {
        Some(stream) => stream.name.as_slice(),
        None => &[],
    }
}

/// The table of an event of a kind at a tick.
fn happening(alloc: Global, kind: &str, tick: u64) -> Result<Table, NoMemory>
    requires { tick ≤ 1000 }
    ensures { IfOk result (λ t. table_view t ≡ happening_spec kind.now tick) }
{
    let mut table = Table::new(alloc);
    put_number(alloc, &mut table, "tick", tick)?;
    put_word(alloc, &mut table, "kind", kind)?;
    Ok(table)
}

fn declare_table(
    alloc: Global,
    nodes: &[NodeEntry],
    station: NodeNo,
    vid: u16,
) -> Result<Table, NoMemory>
    ensures { (streams : List PlanStream) → IfOk result (λ t. table_view t
        ≡ event_members nodes.now streams (Declare station vid)) }
{
    let mut table = happening(alloc, "declare", 0)?;
    put_name(alloc, &mut table, "station", node_name(nodes, station))?;
    put_number(alloc, &mut table, "vid", u64::from(vid))?;
    Ok(table)
}

fn talk_table(alloc: Global, streams: &[PlanStream], stream: u16) -> Result<Table, NoMemory>
    ensures { (nodes : List NodeEntry) → IfOk result (λ t. table_view t
        ≡ event_members nodes streams.now (Talk stream)) }
{
    let mut table = happening(alloc, "talk", 10)?;
    put_name(alloc, &mut table, "stream", stream_name(streams, stream))?;
    Ok(table)
}

fn listen_table(
    alloc: Global,
    nodes: &[NodeEntry],
    streams: &[PlanStream],
    station: NodeNo,
    stream: u16,
) -> Result<Table, NoMemory>
    ensures { IfOk result (λ t. table_view t
        ≡ event_members nodes.now streams.now (Listen station stream)) }
{
    let mut table = happening(alloc, "listen", 20)?;
    put_name(alloc, &mut table, "station", node_name(nodes, station))?;
    put_name(alloc, &mut table, "stream", stream_name(streams, stream))?;
    Ok(table)
}

/// The table of an event.
fn event_table(
    alloc: Global,
    nodes: &[NodeEntry],
    streams: &[PlanStream],
    event: &PlanEvent,
) -> Result<Table, NoMemory>
    ensures { IfOk result (λ t. table_view t
        ≡ event_members nodes.now streams.now event.now) }
{
    match event {
        PlanEvent::Declare { station, vid } => declare_table(alloc, nodes, *station, *vid),
        PlanEvent::Talk { stream } => talk_table(alloc, streams, *stream),
        PlanEvent::Listen { station, stream } => {
            listen_table(alloc, nodes, streams, *station, *stream)
        }
    }
}

fn node_values(alloc: Global, domains: bool, nodes: &[NodeEntry]) -> Result<Vec<Value>, NoMemory>
    ensures { IfOk result (λ v. map view v.items ≡ map (λ x. table (node_members domains x)) nodes.now) }
{
    let mut values = Vec::new(alloc);
    for node in nodes {
        let table = node_table(alloc, domains, node)?;
        push_table(&mut values, table)?;
    }
    Ok(values)
}

fn link_values(
    alloc: Global,
    nodes: &[NodeEntry],
    links: &[LinkEntry],
) -> Result<Vec<Value>, NoMemory>
    ensures { IfOk result (λ v. map view v.items ≡ map (λ x. table (link_members nodes.now x)) links.now) }
{
    let mut values = Vec::new(alloc);
    for link in links {
        let table = link_table(alloc, nodes, link)?;
        push_table(&mut values, table)?;
    }
    Ok(values)
}

/// The tables of streams of these StreamIDs and addresses, one of each for each stream.
fn stream_values(
    alloc: Global,
    nodes: &[NodeEntry],
    streams: &[PlanStream],
    ids: &[u64],
    dests: &[u64],
) -> Result<Vec<Value>, NoMemory>
    requires ids { length ids.now ≡ length streams.now }
    requires dests { length dests.now ≡ length streams.now }
    ensures { IfOk result (λ v. map view v.items
        ≡ map (λ ms. table ms) (streams_members nodes.now streams.now ids.now dests.now)) }
{
    let mut values = Vec::new(alloc);
    for i in 0..streams.len() {
        let table = stream_table(alloc, nodes, &streams[i], ids[i], dests[i])?;
        push_table(&mut values, table)?;
    }
    Ok(values)
}

fn event_values(
    alloc: Global,
    nodes: &[NodeEntry],
    streams: &[PlanStream],
    events: &[PlanEvent],
) -> Result<Vec<Value>, NoMemory>
    ensures { IfOk result (λ v. map view v.items
        ≡ map (λ x. table (event_members nodes.now streams.now x)) events.now) }
{
    let mut values = Vec::new(alloc);
    for event in events {
        let table = event_table(alloc, nodes, streams, event)?;
        push_table(&mut values, table)?;
    }
    Ok(values)
}

/// The table of a network's nodes and links, with a run's length.
fn network_table(alloc: Global, network: &Scenario) -> Result<Table, NoMemory>
    ensures { IfOk result (λ t. table_view t ≡ network_table_spec network.now) }
{
    let nodes = network.nodes.as_slice();
    let node_values = node_values(alloc, network.domains, nodes)?;
    let link_values = link_values(alloc, nodes, network.links.as_slice())?;
    let mut table = Table::new(alloc);
    put_number(alloc, &mut table, "ticks", PLAN_TICKS)?;
    put(alloc, &mut table, "domains", Value::from(network.domains))?;
    put_array(alloc, &mut table, "node", node_values)?;
    put_array(alloc, &mut table, "link", link_values)?;
    Ok(table)
}

/// How long a plan runs, in cs.
pub(crate) const PLAN_TICKS: u64 = 1_000;

/// The table of the streams of a plan.
fn all_stream_values(
    alloc: Global,
    nodes: &[NodeEntry],
    streams: &[PlanStream],
) -> Result<Vec<Value>, NoMemory>
    ensures { IfOk result (λ v. map view v.items
        ≡ map (λ ms. table ms) (streams_members nodes.now streams.now
        (ids_of_spec streams.now) (dests_of_spec streams.now))) }
{
    let ids = ids_of(alloc, streams)?;
    let dests = dests_of(alloc, streams)?;
    stream_values(alloc, nodes, streams, &ids, &dests)
}

/// Puts the streams of a plan.
fn put_streams(
    alloc: Global,
    table: &mut Table,
    nodes: &[NodeEntry],
    streams: &[PlanStream],
) -> Result<(), NoMemory>
    ensures { OnOk result (table_view table.new
        ≡ with_streams nodes.now streams.now (table_view table.old)) }
{
    let values = all_stream_values(alloc, nodes, streams)?;
    put_array(alloc, table, "stream", values)
}

/// The tables of all that happens in a plan.
fn all_event_values(
    alloc: Global,
    nodes: &[NodeEntry],
    streams: &[PlanStream],
) -> Result<Vec<Value>, NoMemory>
    requires nodes { length nodes.now ≤ 64 }
    requires streams { length streams.now ≤ 128 }
    ensures { IfOk result (λ v. map view v.items
        ≡ map (λ x. table (event_members nodes.now streams.now x))
        (events_of_spec nodes.now streams.now)) }
{
    let events = events_of(alloc, nodes, streams)?;
    event_values(alloc, nodes, streams, &events)
}

/// Puts what happens in a plan.
fn put_events(
    alloc: Global,
    table: &mut Table,
    nodes: &[NodeEntry],
    streams: &[PlanStream],
) -> Result<(), NoMemory>
    requires nodes { length nodes.now ≤ 64 }
    requires streams { length streams.now ≤ 128 }
    ensures { OnOk result (table_view table.new
        ≡ with_events nodes.now streams.now (table_view table.old)) }
{
    let values = all_event_values(alloc, nodes, streams)?;
    put_array(alloc, table, "event", values)
}

/// The table of a network with these streams and all that happens.
fn whole_table(alloc: Global, network: &Scenario, streams: &[PlanStream]) -> Result<Table, NoMemory>
    requires { length streams.now ≤ 128 }
    ensures { IfOk result (λ t. table_view t
        ≡ expanded (record { network = network.now; streams = streams.now })) }
{
    network.keeps_rules();
    let nodes = network.nodes.as_slice();
    let mut table = network_table(alloc, network)?;
    put_streams(alloc, &mut table, nodes, streams)?;
    put_events(alloc, &mut table, nodes, streams)?;
    Ok(table)
}

/// The scenario that a plan stands for, as a table.
pub(crate) fn expanded_table(alloc: Global, plan: &Plan) -> Result<Table, NoMemory>
    ensures { IfOk result (λ t. table_view t ≡ expanded plan.now) }
{
    plan.keeps_rules();
    whole_table(alloc, &plan.network, plan.streams.as_slice())
}
