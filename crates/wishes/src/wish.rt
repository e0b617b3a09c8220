//! What the stations of a network want of its streams, and what came of it.

ghost use Rattle.std.specs.Prelude.{◌≡◌, ◌++◌, map, option_map, IfOk, OnOk};
ghost use Rattle.std.specs.List.{AllByRecursion};
ghost use Rattle.tree_topology.specs.Topology.{HasNode, HasPort};
ghost use Rattle.wishes.specs.Wishes.{answer_by, answer_to as answer_to_spec, shortfall as shortfall_spec, stream_wishes, way_to as way_to_spec, wish_of, wishes_in as wishes_in_spec};

use crate::listeners::{is_talked, listeners_of};
use crate::way::{are_registered, failure_of_listener, port_of_bridge, way_to};
use network_laws::{Refusal, ready_on_path, refusal_shown};
use srp_base::{EgressPort, Failure, NoMemory, NodeNo, StreamId};
use std::alloc::Global;
use topology_file::{Scenario, StreamEntry};
use world_core::World;

/// What came of a wish.
#[derive(Clone, Copy, PartialEq, Eq)]
pub enum Answer {
    /// The station's application hears Ready, and each egress port of the way from the Talker has
    /// booked the stream.
    Granted {
        /// How many egress ports the way has.
        ports: usize,
        /// Whether the stream's VID is registered at each of them.
        vlan: bool,
    },
    /// The station's port has a Talker Failed (IEEE Std 802.1Q-2018, 35.2.2.8.7).
    Refused {
        /// The port of the way whose node the failure names, if one of its nodes has that BridgeID.
        at: Option<EgressPort>,
        /// The failure code.
        code: u8,
        /// Where a port of that node refuses the stream for want of bandwidth, by how much the
        /// stream's slope passes what more important bookings leave of the cap, in bit/s.
        short: Option<u64>,
    },
    /// Neither: the application hears nothing of the stream, or it hears Ready and the way isn't
    /// booked whole.
    Silent,
}

/// A wish: a stream and a station that listens to it, with what came of it.
#[derive(Clone, Copy, PartialEq, Eq)]
pub struct Wish {
    /// The place of the stream's entry in the file, from 0.
    pub stream: usize,
    /// The station.
    pub station: NodeNo,
    /// Whether some station talks the stream.
    pub talked: bool,
    /// What came of it.
    pub answer: Answer,
}

/// The wishes in a network for the streams of a scenario, in the order of the file's streams, then
/// of the nodes, each with what came of it.
pub fn wishes_in(alloc: Global, scenario: &Scenario, world: &World) -> Result<Vec<Wish>, NoMemory>
    ensures wishes { IfOk result (λ wishes. wishes.items ≡ wishes_in_spec scenario.now world.now) }
    ensures stations { IfOk result (λ wishes.
        AllByRecursion (λ wish. HasNode world.now.tree wish.station.0) wishes.items) }
{
    let wishes = all_wishes(alloc, scenario, world)?;
    Ok(wishes)
}

// The same, stream by stream.
fn all_wishes(alloc: Global, scenario: &Scenario, world: &World) -> Result<Vec<Wish>, NoMemory>
    ensures { IfOk result (λ wishes. wishes.items ≡ wishes_in_spec scenario.now world.now) }
{
    let streams = scenario.streams.as_slice();
    let mut wishes = Vec::new(alloc);
    for i in 0..streams.len() {
        push_stream(&mut wishes, world, i, &streams[i])?;
    }
    Ok(wishes)
}

// The wishes for the stream whose entry has this place.
fn push_stream(
    wishes: &mut Vec<Wish>,
    world: &World,
    place: usize,
    entry: &StreamEntry,
) -> Result<(), NoMemory>
    ensures { OnOk result (wishes.new.items
        ≡ wishes.old.items ++ stream_wishes world.now place entry.now) }
{
    let alloc = *wishes.allocator();
    let stations = listeners_of(alloc, world, entry.id)?;
    push_each(wishes, world, place, entry, stations.as_slice())
}

// Those of these stations.
fn push_each(
    wishes: &mut Vec<Wish>,
    world: &World,
    place: usize,
    entry: &StreamEntry,
    stations: &[NodeNo],
) -> Result<(), NoMemory>
    requires { AllByRecursion (λ l. HasNode world.now.tree l.0) stations.now }
    ensures { OnOk result (wishes.new.items
        ≡ wishes.old.items ++ map (wish_of world.now place entry.now) stations.now) }
{
    let alloc = *wishes.allocator();
    for i in 0..stations.len() {
        let wish = wish_by(alloc, world, place, entry, stations[i])?;
        wishes.push(wish)?;
    }
    Ok(())
}

// That of a station.
fn wish_by(
    alloc: Global,
    world: &World,
    place: usize,
    entry: &StreamEntry,
    station: NodeNo,
) -> Result<Wish, NoMemory>
    requires { HasNode world.now.tree station.0 }
    ensures { IfOk result (λ wish. wish ≡ wish_of world.now place entry.now station) }
{
    let answer = answer_to(alloc, world, entry, station)?;
    Ok(Wish {
        stream: place,
        station,
        talked: is_talked(world, entry.id),
        answer,
    })
}

// What came of a station's wish for a stream.
fn answer_to(
    alloc: Global,
    world: &World,
    entry: &StreamEntry,
    station: NodeNo,
) -> Result<Answer, NoMemory>
    requires { HasNode world.now.tree station.0 }
    ensures { IfOk result (λ answer. answer ≡ answer_to_spec world.now entry.now station.0) }
{
    let sides = ready_on_path(alloc, world, station, entry.id)?;
    let way = way_to(alloc, world, station, entry.id)?;
    if sides.found && sides.expected {
        return Ok(Answer::Granted {
            ports: way.len(),
            vlan: are_registered(world, way.as_slice(), entry.vid),
        });
    }
    let failure = failure_of_listener(world, station, entry.id);
    answer_without(alloc, world, way.as_slice(), entry.id, station, failure)
}

// What came of one that isn't granted, by the failure at the station's port.
fn answer_without(
    alloc: Global,
    world: &World,
    way: &[EgressPort],
    stream: StreamId,
    station: NodeNo,
    failure: Option<Failure>,
) -> Result<Answer, NoMemory>
    requires node { HasNode world.now.tree station.0 }
    requires ports { AllByRecursion (HasPort world.now.tree) way.now }
    requires way { way.now ≡ way_to_spec world.now stream station.0 }
    ensures { IfOk result (λ answer. answer ≡ answer_by world.now stream station.0 failure) }
{
    let Some(failure) = failure else {
        return Ok(Answer::Silent);
    };
    let refusal = refusal_shown(alloc, world, station, stream)?;
    Ok(Answer::Refused {
        at: port_of_bridge(world, way, failure.bridge),
        code: failure.code,
        short: shortfall_of(refusal),
    })
}

// By how much a refused stream misses.
fn shortfall_of(refusal: Option<Refusal>) -> Option<u64>
    ensures { result ≡ option_map shortfall_spec refusal }
{
    match refusal {
        Some(refusal) => Some(shortfall(refusal)),
        None => None,
    }
}

fn shortfall(refusal: Refusal) -> u64
    ensures { result ≡ shortfall_spec refusal }
{
    let left = refusal.cap.saturating_sub(refusal.more_important);
    u128::from(refusal.slope).saturating_sub(left) as u64
}
