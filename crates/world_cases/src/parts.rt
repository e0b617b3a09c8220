//! A list of events in two parts: what a run leaves, and answers, is what one run of all of them
//! does.
//!
//! The events are steps of ports and the carrying of PDUs, which may happen at any time.

use crate::allowed::{can_run, step_of};
use crate::world::{SCENE, declares, has_node, ours, port, theirs, world_of};
use node_core::NodeKey;
use node_core::PortStep::{Send, Settle, Work};
use node_core::StepReply::{Received, Sent, Settled};
use srp_base::{App, EgressPort, NodeNo, Seq, Vid};
use std::alloc::Global;
use stream_importance::Entry;
use world_core::WorldEvent::Carry;
use world_core::WorldReply::{Done, Step};
use world_core::{World, WorldEvent, WorldReply};

// Whether a run of these events has these answers.
fn runs(alloc: Global, world: &mut World, events: &[WorldEvent], replies: &[WorldReply]) -> bool {
    if !can_run(world, events) {
        return false;
    }
    match world.run(alloc, events) {
        Ok(answers) => answers.as_slice() == replies,
        Err(_) => false,
    }
}

// A declaration that waits at the bridge goes on to station 3.
fn going_on() -> [WorldEvent; 5] {
    let far = port(2, 2);
    let end = port(3, 1);
    [
        step_of(theirs(), Work),
        step_of(far, Settle),
        step_of(far, Send(App::Mvrp)),
        Carry(far),
        step_of(end, Work),
    ]
}

fn going_on_replies() -> [WorldReply; 5] {
    [
        Step(Received(1)),
        Step(Settled(1)),
        Step(Sent(12)),
        Done,
        Step(Received(1)),
    ]
}

// Whether all of them at once, or the first two and then the rest, have their answers.
fn runs_whole(alloc: Global, world: &mut World) -> bool {
    runs(
        alloc,
        world,
        going_on().as_slice(),
        going_on_replies().as_slice(),
    )
}

fn runs_in_parts(alloc: Global, world: &mut World) -> bool {
    let events = going_on();
    let replies = going_on_replies();
    let events = events.as_slice();
    let replies = replies.as_slice();
    runs(alloc, world, &events[..2], &replies[..2])
        && runs(alloc, world, &events[2..], &replies[2..])
}

// What is registered at a port of a node, and what is booked there.
fn shown_at(world: &World, at: EgressPort) -> Option<(Seq<NodeKey>, Seq<Entry>)> {
    if !has_node(world, at.node) {
        return None;
    }
    let node = world.node(at.node);
    if at.port.0 == 0 || node.ports() < at.port.0 {
        return None;
    }
    match (node.keys(at.port), node.bookings(at.port)) {
        (Ok(keys), Ok(entries)) => Some((keys, entries)),
        _ => None,
    }
}

// Whether two networks show the same at a port, and something is registered there or not.
fn show_same_at(one: &World, other: &World, at: EgressPort, registered: bool) -> bool {
    match (shown_at(one, at), shown_at(other, at)) {
        (Some(here), Some(there)) => here == there && here.0.is_empty() != registered,
        _ => false,
    }
}

// Whether they show the same everywhere: the VID is registered on its way alone.
fn show_same(one: &World, other: &World) -> bool {
    show_same_at(one, other, ours(), false)
        && show_same_at(one, other, theirs(), true)
        && show_same_at(one, other, port(2, 2), false)
        && show_same_at(one, other, port(3, 1), true)
        && one.quiet() == other.quiet()
        && one.in_step() == other.in_step()
}

// Whether a declaration in one network goes on at once, in the other in two parts, and they end
// alike.
fn end_alike(alloc: Global, one: &mut World, other: &mut World, vid: Vid) -> bool {
    declares(one, vid)
        && declares(other, vid)
        && runs_whole(alloc, one)
        && runs_in_parts(alloc, other)
        && show_same(one, other)
}

fn new_ones_end_alike(alloc: Global) -> bool {
    let mut one = world_of(alloc, SCENE);
    let mut other = world_of(alloc, SCENE);
    let alike = match (&mut one, &mut other, Vid::new(10)) {
        (Some(one), Some(other), Some(vid)) => end_alike(alloc, one, other, vid),
        _ => false,
    };
    drop(one);
    drop(other);
    alike
}

#[test]
fn a_run_in_two_parts_ends_as_one_run_does(rt: HostRuntime) {
    assert!(rt; new_ones_end_alike(rt.alloc()));
}
