//! Runs with a gate that want memory: each ends with no run, and at a second try as it should.
//!
//! In the gate nothing is refused. `tools/memory` runs the tests once for each growth, and refuses
//! just that one. A thread that can't be started then is none that a gate could wait for, and its
//! port goes on once all looks were spent.

use crate::ports::gate::{Holding, Place};
use crate::ports::listeners::{FIRST_TICK, is_held};
use crate::ports::pair::{SCENE, are_one};
use crate::ports::scene::{by_ports, plainly};
use std::alloc::Global;
use std::sync::Wait;
use std::thread::Threads;
use world_core::Run;

fn are_alike(ports: &Option<Run>, plain: &Option<Run>) -> Option<bool> {
    match (ports, plain) {
        (Some(ports), Some(plain)) => Some(are_one(ports, plain)),
        _ => None,
    }
}

// Whether a run in which a station is held in its turn until the other one has answered is the
// plain one; None where memory ran out.
fn is_plain<R: Threads + Wait + Sync>(
    rt: &R,
    alloc: Global,
    held: u16,
    other: u16,
) -> Option<bool> {
    let gate = Holding::new(Place::Within, (held, 1), (other, 1));
    let ports = by_ports(rt, alloc, SCENE, &gate);
    let plain = plainly(alloc, SCENE);
    let alike = are_alike(&ports, &plain);
    drop(ports);
    drop(plain);
    alike
}

fn is_plain_in_the_end<R: Threads + Wait + Sync>(
    rt: &R,
    alloc: Global,
    held: u16,
    other: u16,
) -> bool {
    match is_plain(rt, alloc, held, other) {
        Some(plain) => plain,
        None => is_plain(rt, alloc, held, other) == Some(true),
    }
}

#[test]
fn a_held_station_runs_plainly_after_want_of_memory(rt: HostRuntime) {
    assert!(rt; is_plain_in_the_end(&rt, rt.alloc(), 1, 2));
}

#[test]
fn the_other_station_held_runs_plainly_after_want_of_memory(rt: HostRuntime) {
    assert!(rt; is_plain_in_the_end(&rt, rt.alloc(), 2, 1));
}

// Whether the steps of a port of bridge 2, which is held until another has answered, come after
// those of that one, where not all looks were spent; None where memory ran out.
fn comes_later<R: Threads + Wait + Sync>(
    rt: &R,
    alloc: Global,
    held: u8,
    other: u8,
) -> Option<bool> {
    let gate = Holding::new(Place::Arriving, (2, held), (2, other));
    let run = by_ports(rt, alloc, FIRST_TICK, &gate);
    let later = match run {
        Some(_) => Some(is_held(&run, held, other) || !gate.was_let_go()),
        None => None,
    };
    drop(run);
    later
}

fn comes_later_in_the_end<R: Threads + Wait + Sync>(
    rt: &R,
    alloc: Global,
    held: u8,
    other: u8,
) -> bool {
    match comes_later(rt, alloc, held, other) {
        Some(later) => later,
        None => comes_later(rt, alloc, held, other) == Some(true),
    }
}

#[test]
fn a_held_port_comes_later_after_want_of_memory(rt: HostRuntime) {
    assert!(rt; comes_later_in_the_end(&rt, rt.alloc(), 1, 2));
}

#[test]
fn the_other_port_held_comes_later_after_want_of_memory(rt: HostRuntime) {
    assert!(rt; comes_later_in_the_end(&rt, rt.alloc(), 2, 1));
}
