//! Worked flows: two stations on one link, and a bridge between them.
//!
//! The calls stand in functions of their own without contracts, so that a test's own proof is
//! short.

use credit_shaper::Traffic;
use frame_flow::{Fate, FlowResult, Frame, Route, flow, is_valid};
use srp_base::{
    EgressPort, NoMemory, NodeNo, PortChange, PortNo, Ps, Rate, Seq, StreamId, Timeline, Vid,
};
use std::alloc::Global;
use tree_topology::NodeKind::{Bridge, Station};
use tree_topology::{Link, NodeKind, Tree};

const STREAM: StreamId = StreamId(0x0200_0000_0001_0001);

const OF_STREAM: Route = Route::Stream(STREAM, Traffic::A);

fn link(a: u16, b: u16) -> Link {
    Link {
        a: NodeNo(a),
        b: NodeNo(b),
    }
}

fn port(node: u16, port: u8) -> EgressPort {
    EgressPort {
        node: NodeNo(node),
        port: PortNo(port),
    }
}

/// From tick 21 on the stream is booked at a port, and a VID is registered there.
fn change(alloc: Global, at: EgressPort, vid: Vid) -> Result<PortChange, NoMemory> {
    let booked = Vec::from_slice(alloc, [STREAM].as_slice())?;
    let vids = Vec::from_slice(alloc, [vid].as_slice())?;
    Ok(PortChange {
        at,
        tick: 21,
        booked: Seq::from_vec(booked),
        slope_a: 6_400_000,
        slope_b: 0,
        vids: Seq::from_vec(vids),
    })
}

fn timeline_of(alloc: Global, booked: &[EgressPort], vid: Vid) -> Result<Timeline, NoMemory> {
    let mut changes = Vec::new(alloc);
    for at in booked {
        changes.push(change(alloc, *at, vid)?)?;
    }
    Ok(Timeline {
        changes: Seq::from_vec(changes),
    })
}

/// The stream is booked at these ports from tick 21 on, and VID 2 is registered there.
fn new_timeline(alloc: Global, booked: &[EgressPort]) -> Option<Timeline> {
    let vid = Vid::new(2)?;
    timeline_of(alloc, booked, vid).ok()
}

/// A frame of 800 bits of node 1, at a moment in ps.
fn frame(number: u32, at: u64, route: Route, vid: u16) -> Frame {
    Frame {
        number,
        at: Ps(at),
        from: NodeNo(1),
        route,
        vid,
        bits: 800,
    }
}

/// Frames numbered from 1 on, each by its moment in ps, its route and its VID.
fn frames_of(alloc: Global, rows: &[(u64, Route, u16)]) -> Result<Vec<Frame>, NoMemory> {
    let mut frames = Vec::new(alloc);
    let mut number: u32 = 0;
    for (at, route, vid) in rows {
        number = number.saturating_add(1);
        frames.push(frame(number, *at, *route, *vid))?;
    }
    Ok(frames)
}

/// The flow of frames over a tree; None where it can't be asked for, or memory runs out.
fn run(
    alloc: Global,
    tree: &Tree,
    rates: &[Rate],
    timeline: &Timeline,
    frames: &[Frame],
    ticks: u64,
) -> Option<FlowResult> {
    match is_valid(alloc, tree, rates, timeline, frames, ticks) {
        Ok(true) => flow(alloc, tree, rates, timeline, frames, ticks).ok(),
        _ => None,
    }
}

/// The flow of frames where the stream is booked at some ports. Who owns a timeline or a tree does
/// little else, and drops it by a call, so that his proof is short.
fn run_booked(
    alloc: Global,
    tree: &Tree,
    rates: &[Rate],
    booked: &[EgressPort],
    frames: &[Frame],
    ticks: u64,
) -> Option<FlowResult> {
    let timeline = new_timeline(alloc, booked)?;
    let flow = run(alloc, tree, rates, &timeline, frames, ticks);
    drop(timeline);
    flow
}

/// Whether the fates at the port of this place are these.
fn has_fates(flow: &FlowResult, place: usize, fates: &[(u32, Fate)]) -> bool {
    match flow.ports.as_slice().get(place) {
        Some(port) => port.fates.as_slice() == fates,
        None => false,
    }
}

/// A port sends 800 bits from a bit time on.
fn departed(start: u64) -> Fate {
    Fate::Departed {
        start,
        end: start.saturating_add(800),
    }
}

// When the stream has been booked, and near the end of the second, in ps.
const AT: u64 = 900_000_000_000;

const LATE: u64 = 999_990_000_000;

/// Frames of the stream, and two others.
const ROWS: [(u64, Route, u16); 8] = [
    (0, OF_STREAM, 2),
    (AT, OF_STREAM, 2),
    (AT, Route::Stream(StreamId(1), Traffic::A), 2),
    (AT, Route::To(NodeNo(2)), 3),
    (AT, OF_STREAM, 2),
    (AT, OF_STREAM, 2),
    (LATE, OF_STREAM, 2),
    (LATE, OF_STREAM, 2),
];

/// What becomes of those frames at the port of the first of two stations.
fn wanted() -> [(u32, Fate); 8] {
    [
        (1, Fate::Unbooked),
        (2, departed(90_000_000)),
        (3, Fate::Unbooked),
        (4, Fate::NoVlan),
        (5, departed(90_012_500)),
        (6, departed(90_025_000)),
        (7, departed(99_999_000)),
        (8, Fate::Left),
    ]
}

/// Those frames between two stations, of which the first has the stream booked.
fn between_stations(alloc: Global, tree: &Tree) -> Option<FlowResult> {
    let frames = frames_of(alloc, &ROWS).ok()?;
    run_booked(alloc, tree, &[Rate::M100], &[port(1, 1)], &frames, 100)
}

/// Whether so becomes of them, and nothing goes back.
fn are_sent(alloc: Global, tree: &Tree) -> bool {
    match between_stations(alloc, tree) {
        Some(flow) => has_fates(&flow, 0, &wanted()) && has_fates(&flow, 1, &[]),
        None => false,
    }
}

fn are_sent_between_two(alloc: Global) -> bool {
    match Tree::new(alloc, &[Station, Station], &[link(1, 2)]) {
        Ok(tree) => are_sent(alloc, &tree),
        Err(_) => false,
    }
}

#[test]
fn a_copy_departs_by_its_credit_or_is_dropped_or_left(rt: HostRuntime) {
    assert!(rt; are_sent_between_two(rt.alloc()));
}

/// A frame over a bridge between two stations, with the stream booked but at the last port.
fn over_a_bridge(alloc: Global, tree: &Tree) -> Option<FlowResult> {
    let rates = [Rate::G10, Rate::M100];
    let booked = [port(1, 1), port(2, 1), port(2, 2)];
    let frames = [frame(7, 119_000_000_005_000, OF_STREAM, 2)];
    run_booked(alloc, tree, &rates, &booked, &frames, 12_000)
}

/// Whether a copy goes over the first port of a link each, and none back.
fn goes_on(flow: &FlowResult) -> bool {
    let sent = (7, departed(1_190_000_000_050));
    let passed = (7, departed(11_900_000_009));
    has_fates(flow, 0, &[sent])
        && has_fates(flow, 1, &[])
        && has_fates(flow, 2, &[passed])
        && has_fates(flow, 3, &[])
}

fn goes_on_over(alloc: Global, tree: &Tree) -> bool {
    match over_a_bridge(alloc, tree) {
        Some(flow) => goes_on(&flow),
        None => false,
    }
}

fn goes_on_over_a_bridge(alloc: Global) -> bool {
    let links = [link(1, 2), link(2, 3)];
    match Tree::new(alloc, &[Station, Bridge, Station], &links) {
        Ok(tree) => goes_on_over(alloc, &tree),
        Err(_) => false,
    }
}

#[test]
fn copies_go_on_and_never_back_in_a_long_run(rt: HostRuntime) {
    assert!(rt; goes_on_over_a_bridge(rt.alloc()));
}
