//! What is wished of a network, and what the streams want of its ports for it.

ghost use Rattle.std.specs.Prelude.{◌≡◌, IfOk, IfSome, OnOk};
ghost use Rattle.std.specs.List.{AllByRecursion, list_any};
ghost use Rattle.tree_topology.specs.Topology.{HasNode, HasPort, link_ports};
ghost use Rattle.port_needs.specs.Demands.{class_of_entry as class_of_entry_spec, code_of_entry as code_of_entry_spec, demand_in as demand_in_spec, demand_of as demand_of_spec, demands as demands_spec, demands_from, is_asked_at as is_asked_at_spec, is_barred as is_barred_spec, is_blocked as is_blocked_spec, is_node as is_node_spec, is_wish_of as is_wish_of_spec, leads_to as leads_to_spec, leads_to_any as leads_to_any_spec, served_of as served_of_spec, stations_of as stations_of_spec, talker_of_entry as talker_of_entry_spec, want_of_entry as want_of_entry_spec, wants_among as wants_among_spec, AreNodes, IsKnownDemand};

use crate::domains::is_edge;
use msrp_talker::{check, class_of};
use srp_base::{Class, EgressPort, NoMemory, NodeNo, Seq, Talker};
use std::alloc::Global;
use stream_importance::{Want, slope_of};
use topology_file::{Scenario, StreamEntry};
use tree_topology::Tree;

/// A stream that is talked, and a station that listens to it.
#[derive(Clone, Copy)]
pub struct Wish {
    /// The number of the stream's entry, from 1.
    pub stream: u16,
    /// The station.
    pub station: NodeNo,
}

/// What is wished of a stream that some port may serve.
#[derive(Drop)]
pub(crate) struct Demand {
    /// What it wants of each port that it leaves by.
    pub(crate) want: Want,
    /// The station that talks.
    pub(crate) talker: NodeNo,
    /// The stations that wish it and to which no boundary keeps it from coming.
    pub(crate) stations: Seq<NodeNo>,
}

// ---- what a stream asks

// What the Talker of a stream states (IEEE Std 802.1Q-2018, 35.2.2.8).
fn talker_of_entry(entry: &StreamEntry) -> Talker
    ensures { result ≡ talker_of_entry_spec entry.now }
{
    Talker {
        stream: entry.id,
        dest: entry.dest,
        vid: entry.vid.get(),
        max_frame: entry.octets,
        frames: entry.frames,
        priority: entry.priority,
        rank: entry.rank,
        latency: 0,
    }
}

/// Why every port refuses a stream, by its failure code: 13 or 14 (35.2.2.8.7).
pub(crate) fn code_of_entry(entry: &StreamEntry) -> Option<u8>
    ensures { result ≡ code_of_entry_spec entry.now }
{
    check(&talker_of_entry(entry))
}

/// The SR class of a stream that some port may serve.
pub(crate) fn class_of_entry(entry: &StreamEntry) -> Option<Class>
    ensures { result ≡ class_of_entry_spec entry.now }
{
    if code_of_entry(entry).is_none() {
        class_of(entry.priority.get())
    } else {
        None
    }
}

// What a stream of a class wants of a port.
fn want_of_entry(entry: &StreamEntry, class: Class) -> Want
    ensures { result ≡ want_of_entry_spec entry.now class }
{
    Want {
        stream: entry.id,
        class,
        rank: entry.rank,
        slope: slope_of(class, entry.octets, entry.frames),
    }
}

// ---- the ports of a wish

// Whether the tree has a node of this number.
fn is_node(tree: &Tree, node: NodeNo) -> bool
    ensures { result ≡ is_node_spec tree.now node.0 }
{
    1 <= node.0 && node.0 <= tree.nodes()
}

// Whether frames leave by a port on their way from one node to another.
fn leads_to(tree: &Tree, at: EgressPort, from: NodeNo, to: NodeNo) -> bool
    requires port { HasPort tree.now at }
    requires from { HasNode tree.now from.0 }
    requires to { HasNode tree.now to.0 }
    ensures { result ≡ leads_to_spec tree.now at from.0 to.0 }
{
    tree.behind(at, to) && !tree.behind(at, from)
}

/// Whether they do on their way to one of these nodes.
pub(crate) fn leads_to_any(tree: &Tree, at: EgressPort, from: NodeNo, nodes: &[NodeNo]) -> bool
    requires port { HasPort tree.now at }
    requires from { HasNode tree.now from.0 }
    requires nodes { AreNodes tree.now nodes.now }
    ensures { result ≡ leads_to_any_spec tree.now at from.0 nodes.now }
{
    for i in 0..nodes.len() {
        if leads_to(tree, at, from, nodes[i]) {
            return true;
        }
    }
    false
}

// Whether a port at the boundary of a class's domain stands on the way from one node to another.
fn is_barred(scenario: &Scenario, class: Class, at: EgressPort, from: NodeNo, to: NodeNo) -> bool
    requires port { HasPort scenario.now.tree at }
    requires from { HasNode scenario.now.tree from.0 }
    requires to { HasNode scenario.now.tree to.0 }
    ensures { result ≡ is_barred_spec scenario.now class from.0 to.0 at }
{
    is_edge(scenario, class, at) && leads_to(&scenario.tree, at, from, to)
}

// Whether one of these ports does.
fn is_blocked(
    scenario: &Scenario,
    ports: &[EgressPort],
    class: Class,
    from: NodeNo,
    to: NodeNo,
) -> bool
    requires ports { AllByRecursion (HasPort scenario.now.tree) ports.now }
    requires from { HasNode scenario.now.tree from.0 }
    requires to { HasNode scenario.now.tree to.0 }
    ensures { result ≡ is_blocked_spec scenario.now ports.now class from.0 to.0 }
{
    for i in 0..ports.len() {
        if is_barred(scenario, class, ports[i], from, to) {
            return true;
        }
    }
    false
}

// ---- the wishes of a stream

// Whether a wish is of the stream of this number, and its station a node.
fn is_wish_of(tree: &Tree, number: usize, wish: &Wish) -> bool
    ensures { result ≡ is_wish_of_spec tree.now number wish.now }
{
    usize::from(wish.stream) == number && is_node(tree, wish.station)
}

/// The stations that wish the stream of a number, counted from 1.
pub(crate) fn stations_of(
    alloc: Global,
    tree: &Tree,
    wishes: &[Wish],
    number: usize,
) -> Result<Vec<NodeNo>, NoMemory>
    ensures stations { IfOk result (λ v. v.items ≡ stations_of_spec tree.now wishes.now number) }
    ensures known { IfOk result (λ v. AreNodes tree.now v.items) }
{
    let mut found = Vec::new(alloc);
    for wish in wishes {
        if is_wish_of(tree, number, wish) {
            found.push(wish.station)?;
        }
    }
    Ok(found)
}

// Those of them that no boundary of the class's domain keeps the stream from.
fn served_of(
    alloc: Global,
    scenario: &Scenario,
    ports: &[EgressPort],
    class: Class,
    talker: NodeNo,
    stations: &[NodeNo],
) -> Result<Vec<NodeNo>, NoMemory>
    requires ports { AllByRecursion (HasPort scenario.now.tree) ports.now }
    requires talker { HasNode scenario.now.tree talker.0 }
    requires stations { AreNodes scenario.now.tree stations.now }
    ensures stations { IfOk result (λ v. v.items
        ≡ served_of_spec scenario.now ports.now class talker stations.now) }
    ensures known { IfOk result (λ v. AreNodes scenario.now.tree v.items) }
{
    let mut served = Vec::new(alloc);
    for i in 0..stations.len() {
        if !is_blocked(scenario, ports, class, talker, stations[i]) {
            served.push(stations[i])?;
        }
    }
    Ok(served)
}

// What is wished of a stream of a class.
fn demand_in(
    alloc: Global,
    scenario: &Scenario,
    ports: &[EgressPort],
    stations: &[NodeNo],
    entry: &StreamEntry,
    class: Class,
) -> Result<Demand, NoMemory>
    requires ports { AllByRecursion (HasPort scenario.now.tree) ports.now }
    requires talker { HasNode scenario.now.tree entry.now.talker.0 }
    requires stations { AreNodes scenario.now.tree stations.now }
    ensures demand { IfOk result (λ d. d
        ≡ demand_in_spec scenario.now ports.now stations.now entry.now class) }
    ensures known { IfOk result (IsKnownDemand scenario.now.tree) }
{
    let served = served_of(alloc, scenario, ports, class, entry.talker, stations)?;
    Ok(Demand {
        want: want_of_entry(entry, class),
        talker: entry.talker,
        stations: Seq::from_vec(served),
    })
}

// What is wished of the stream of a number; None where each port refuses it.
fn demand_of(
    alloc: Global,
    scenario: &Scenario,
    ports: &[EgressPort],
    wishes: &[Wish],
    number: usize,
    entry: &StreamEntry,
) -> Result<Option<Demand>, NoMemory>
    requires ports { AllByRecursion (HasPort scenario.now.tree) ports.now }
    requires talker { HasNode scenario.now.tree entry.now.talker.0 }
    ensures demand { IfOk result (λ d. d
        ≡ demand_of_spec scenario.now ports.now wishes.now number entry.now) }
    ensures known { IfOk result (λ d. IfSome d (IsKnownDemand scenario.now.tree)) }
{
    let stations = stations_of(alloc, &scenario.tree, wishes, number)?;
    match class_of_entry(entry) {
        Some(class) => {
            let demand = demand_in(alloc, scenario, ports, &stations, entry, class)?;
            Ok(Some(demand))
        }
        None => Ok(None),
    }
}

/// What is wished of a scenario's streams, in the order of the file; the ports are those of its
/// links.
pub(crate) fn demands_of(
    alloc: Global,
    scenario: &Scenario,
    ports: &[EgressPort],
    wishes: &[Wish],
) -> Result<Vec<Demand>, NoMemory>
    requires ports { AllByRecursion (HasPort scenario.now.tree) ports.now }
    ensures demands { IfOk result (λ v. v.items
        ≡ demands_from scenario.now ports.now wishes.now 1 scenario.now.streams) }
    ensures known { IfOk result (λ v. AllByRecursion (IsKnownDemand scenario.now.tree) v.items) }
{
    scenario.keeps_rules();
    let streams = scenario.streams.as_slice();
    let mut found = Vec::new(alloc);
    for i in 0..streams.len() {
        if let Some(demand) = demand_of(alloc, scenario, ports, wishes, i + 1, &streams[i])? {
            found.push(demand)?;
        }
    }
    Ok(found)
}

// ---- what is wished at a port

// Whether a stream leaves by a port to a station that wishes it.
fn is_asked_at(tree: &Tree, at: EgressPort, demand: &Demand) -> bool
    requires port { HasPort tree.now at }
    requires known { IsKnownDemand tree.now demand.now }
    ensures { result ≡ is_asked_at_spec tree.now at demand.now }
{
    leads_to_any(tree, at, demand.talker, demand.stations.as_slice())
}

/// What the streams that do want there, each once.
pub(crate) fn wants_among(
    alloc: Global,
    tree: &Tree,
    demands: &[Demand],
    at: EgressPort,
) -> Result<Vec<Want>, NoMemory>
    requires port { HasPort tree.now at }
    requires known { AllByRecursion (IsKnownDemand tree.now) demands.now }
    ensures { IfOk result (λ v. v.items ≡ wants_among_spec tree.now demands.now at) }
{
    let mut wants = Vec::new(alloc);
    for i in 0..demands.len() {
        if is_asked_at(tree, at, &demands[i]) {
            wants.push(demands[i].want)?;
        }
    }
    Ok(wants)
}
