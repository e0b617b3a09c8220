//! Plans with their numbers.
//!
//! The calls stand in functions of their own without contracts, so that a test's own proof is
//! short.

use class_delays::{FedStream, PortDelays, class_delays, have_talkers};
use delay_bound::{ClassStream, StreamLimits};
use frame_flow::is_valid;
use srp_base::{
    Class, EgressPort, NoMemory, NodeNo, PortChange, PortNo, Rate, Seq, StreamId, Timeline,
};
use std::alloc::Global;
use tree_topology::NodeKind::{Bridge, Station};
use tree_topology::{Link, Tree};

/// A stream of one frame of 976 bits each 125 us, from the first station.
const STREAM: ClassStream = ClassStream {
    id: StreamId(0x0200_0000_0001_0001),
    talker: NodeNo(1),
    limits: StreamLimits {
        most: 976,
        burst: 976,
        slope: 7_808_000,
    },
    least: 976,
};

fn link(a: u16, b: u16) -> Link {
    Link {
        a: NodeNo(a),
        b: NodeNo(b),
    }
}

fn port(node: u16, port: u8) -> EgressPort {
    EgressPort {
        node: NodeNo(node),
        port: PortNo(port),
    }
}

/// The stream is booked at a port from tick 1 on.
fn change(alloc: Global, at: EgressPort) -> Result<PortChange, NoMemory> {
    let booked = Vec::from_slice(alloc, [STREAM.id].as_slice())?;
    Ok(PortChange {
        at,
        tick: 1,
        booked: Seq::from_vec(booked),
        slope_a: 7_808_000,
        slope_b: 0,
        vids: Seq::new(alloc),
    })
}

fn timeline_of(alloc: Global, booked: &[EgressPort]) -> Result<Timeline, NoMemory> {
    let mut changes = Vec::new(alloc);
    for at in booked {
        changes.push(change(alloc, *at)?)?;
    }
    Ok(Timeline {
        changes: Seq::from_vec(changes),
    })
}

/// The numbers of the stream, where it is booked at these ports.
fn delays_of(alloc: Global, tree: &Tree, booked: &[EgressPort]) -> Option<Seq<PortDelays>> {
    let rates = [Rate::M100, Rate::M100];
    let timeline = timeline_of(alloc, booked).ok()?;
    let streams = [STREAM];
    let valid = is_valid(alloc, tree, &rates, &timeline, &[], 100).ok()?;
    if !valid || !have_talkers(tree, &streams) {
        return None;
    }
    class_delays(alloc, tree, &rates, &timeline, 100, Class::A, &streams).ok()
}

/// Whether at the port of an index the stream has these numbers.
fn has_numbers(ports: &[PortDelays], at: usize, late: u128, wait: u128, spent: u128) -> bool {
    let wanted = [FedStream {
        stream: STREAM,
        late,
        wait,
        spent,
    }];
    match ports.get(at) {
        Some(e) => e.fed.as_slice() == wanted.as_slice(),
        None => false,
    }
}

/// At the first port the peak is 976 bits and what comes in a bit time, 976.07808 bits: the wait is
/// 12,336 and 1. At the second the stream is late by a bit time, a wait and a bit time, and its
/// frames come within 13,314 bit times at most at the first.
fn are_by_hand(ports: &[PortDelays]) -> bool {
    ports.len() == 4
        && has_numbers(ports, 0, 10_000, 12_337, 133_140_000)
        && has_numbers(ports, 2, 123_390_000, 24_675, 389_660_000)
}

/// Nothing goes back.
fn are_empty_back(ports: &[PortDelays]) -> bool {
    match (ports.get(1), ports.get(3)) {
        (Some(one), Some(other)) => one.fed.is_empty() && other.fed.is_empty(),
        _ => false,
    }
}

fn are_reckoned_over(alloc: Global, tree: &Tree) -> bool {
    match delays_of(alloc, tree, &[port(1, 1), port(2, 2)]) {
        Some(ports) => are_by_hand(ports.as_slice()) && are_empty_back(ports.as_slice()),
        None => false,
    }
}

fn are_reckoned(alloc: Global) -> bool {
    match Tree::new(
        alloc,
        &[Station, Bridge, Station],
        &[link(1, 2), link(2, 3)],
    ) {
        Ok(tree) => are_reckoned_over(alloc, &tree),
        Err(_) => false,
    }
}

#[test]
fn the_numbers_of_a_stream_over_a_bridge_are_those_by_hand(rt: HostRuntime) {
    assert!(rt; are_reckoned(rt.alloc()));
}
