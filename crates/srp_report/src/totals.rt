//! The sums of a summary, over all ports and all stations.

ghost use Rattle.std.specs.Prelude.{◌≡◌, count_by, sum_by, IfOk};
ghost use Rattle.std.specs.List.{AllByRecursion};
ghost use Rattle.tree_topology.specs.Topology.{HasPort};
ghost use Rattle.report_words.specs.Tally.{count_of};
ghost use Rattle.srp_report.specs.Counts.{replies_of, tally_of};
ghost use Rattle.srp_report.specs.Summary.{replies_of_ports, total_of, booked_at as booked_at_spec, booked_count, hears_ready as hears_ready_spec, ready_at as ready_at_spec, ready_count};
ghost use Rattle.srp_report.specs.Tallies.{AreTallies};

use crate::tallies::Tallies;
use node_core::Node;
use report_words::{Tally, ports_of_links};
use srp_base::{EgressPort, ListenerKind, NoMemory, NodeNo};
use std::alloc::Global;
use topology_file::{Scenario, StreamEntry};
use tree_topology::NodeKind;
use world_core::{Tick, World};

/// What the ports of all links sent and discarded together.
pub(crate) fn total_of_all(alloc: Global, world: &World, ticks: &[Tick]) -> Result<Tally, NoMemory>
    ensures { IfOk result (λ total. total ≡ total_of world.now.tree ticks.now) }
{
    world.keeps();
    let tallies = Tallies::of(alloc, world.tree().nodes(), ticks)?;
    let ports = ports_of_links(alloc, world.tree())?;
    Ok(total_at(world, ticks, &tallies, ports.as_slice()))
}

// What these ports sent and discarded together.
fn total_at(world: &World, ticks: &[Tick], tallies: &Tallies, ports: &[EgressPort]) -> Tally
    requires tallies { AreTallies world.now.tree ticks.now tallies.now }
    requires ports { AllByRecursion (HasPort world.now.tree) ports.now }
    ensures { result ≡ tally_of (replies_of_ports ports.now ticks.now) }
{
    let mut total = Tally::zero();
    for i in 0..ports.len() {
        total = total.with(tally_of_port(world, ticks, tallies, ports[i]));
    }
    total
}

// What a port sent and discarded.
fn tally_of_port(world: &World, ticks: &[Tick], tallies: &Tallies, at: EgressPort) -> Tally
    requires tallies { AreTallies world.now.tree ticks.now tallies.now }
    requires port { HasPort world.now.tree at }
    ensures { result ≡ tally_of (replies_of at ticks.now) }
{
    tallies.at(at).unwrap_or(Tally::zero())
}

/// How many streams are booked at the ports of all links, each counted at each port that has booked
/// it.
pub(crate) fn booked_in_all(alloc: Global, world: &World) -> Result<u64, NoMemory>
    ensures { IfOk result (λ count. count ≡ booked_count world.now) }
{
    let ports = ports_of_links(alloc, world.tree())?;
    booked_at_ports(world, ports.as_slice())
}

// How many are booked at these ports.
fn booked_at_ports(world: &World, ports: &[EgressPort]) -> Result<u64, NoMemory>
    requires { AllByRecursion (HasPort world.now.tree) ports.now }
    ensures { IfOk result (λ count. count
        ≡ count_of (sum_by (booked_at_spec world.now) ports.now)) }
{
    let mut count: u64 = 0;
    for i in 0..ports.len() {
        count = count.saturating_add(booked_at(world, ports[i])?);
    }
    Ok(count)
}

// How many are booked at a port.
fn booked_at(world: &World, at: EgressPort) -> Result<u64, NoMemory>
    requires { HasPort world.now.tree at }
    ensures { IfOk result (λ count. count ≡ booked_at_spec world.now at) }
{
    world.keeps();
    let node = world.node(at.node);
    let entries = node.bookings(at.port)?;
    Ok(entries.len() as u64)
}

/// For how many pairs of a station and a stream of the scenario the station hears Ready.
pub(crate) fn ready_in_all(scenario: &Scenario, world: &World) -> u64
    ensures { result ≡ ready_count scenario.now world.now }
{
    world.keeps();
    let streams = scenario.streams.as_slice();
    let mut count: u64 = 0;
    for i in 0..world.tree().nodes() {
        count = count.saturating_add(ready_at(world.node(NodeNo(i + 1)), streams));
    }
    count
}

// Of how many of these streams a node hears Ready, where it is a station.
fn ready_at(node: &Node, streams: &[StreamEntry]) -> u64
    ensures { result ≡ ready_at_spec streams.now node.now.state }
{
    match node.kind() {
        NodeKind::Station => ready_of(node, streams),
        NodeKind::Bridge => 0,
    }
}

// Of how many of these streams a station hears Ready.
fn ready_of(node: &Node, streams: &[StreamEntry]) -> u64
    ensures { result ≡ count_by (hears_ready_spec node.now.state) streams.now }
{
    let mut count: u64 = 0;
    for entry in streams {
        if hears_ready(node, entry) {
            count += 1;
        }
    }
    count
}

// Whether a node's application listens to a stream and hears Ready.
fn hears_ready(node: &Node, entry: &StreamEntry) -> bool
    ensures { result ≡ hears_ready_spec node.now.state entry.now }
{
    let stream = entry.id;
    node.listens(stream) && matches!(node.heard(stream), Some(ListenerKind::Ready))
}
