//! A Talker and three Listeners behind two bridges: with a thread for each port all three hear the
//! stream in the end, as in the plain run; and the ports of a bridge go on beside each other, so
//! that one may be held until another has answered.

ghost use Rattle.std.specs.Prelude.{IsTrue};
ghost use Rattle.tree_topology.specs.Topology.{HasNode};

use crate::ports::gate::{Alone, Holding, Place};
use crate::ports::scene::{by_ports, plainly};
use bridge_book::{Gate, NoGate};
use node_core::{NodeStep, no_key};
use srp_base::{ListenerKind, NodeNo, StreamId};
use std::alloc::Global;
use std::sync::Wait;
use std::thread::Threads;
use world_core::{NodeSteps, Run, Tick, World};

const SCENE: &str = "ticks = 3000\n\
    node = [{ name = 't1', kind = 'station' }, { name = 'b1', kind = 'bridge' }, \
    { name = 'b2', kind = 'bridge' }, { name = 'l1', kind = 'station' }, \
    { name = 'l2', kind = 'station' }, { name = 'l3', kind = 'station' }]\n\
    link = [{ a = 't1', b = 'b1' }, { a = 'b1', b = 'b2' }, { a = 'b1', b = 'l1' }, \
    { a = 'b2', b = 'l2' }, { a = 'b2', b = 'l3' }]\n\
    stream = [{ name = 'k', id = '0200000000010001', talker = 't1', dest = '91e0f0000001', \
    octets = 200, frames = 1 }]\n\
    event = [{ tick = 0, kind = 'declare', station = 'l1', vid = 2 }, \
    { tick = 0, kind = 'declare', station = 'l2', vid = 2 }, \
    { tick = 0, kind = 'declare', station = 'l3', vid = 2 }, \
    { tick = 0, kind = 'talk', stream = 'k' }, \
    { tick = 0, kind = 'listen', station = 'l1', stream = 'k' }, \
    { tick = 0, kind = 'listen', station = 'l2', stream = 'k' }, \
    { tick = 0, kind = 'listen', station = 'l3', stream = 'k' }]\n";

pub(crate) const FIRST_TICK: &str = "ticks = 1\n\
    node = [{ name = 't1', kind = 'station' }, { name = 'b1', kind = 'bridge' }, \
    { name = 'b2', kind = 'bridge' }, { name = 'l1', kind = 'station' }, \
    { name = 'l2', kind = 'station' }, { name = 'l3', kind = 'station' }]\n\
    link = [{ a = 't1', b = 'b1' }, { a = 'b1', b = 'b2' }, { a = 'b1', b = 'l1' }, \
    { a = 'b2', b = 'l2' }, { a = 'b2', b = 'l3' }]\n\
    stream = [{ name = 'k', id = '0200000000010001', talker = 't1', dest = '91e0f0000001', \
    octets = 200, frames = 1 }]\n\
    event = [{ tick = 0, kind = 'declare', station = 'l1', vid = 2 }, \
    { tick = 0, kind = 'declare', station = 'l2', vid = 2 }, \
    { tick = 0, kind = 'declare', station = 'l3', vid = 2 }, \
    { tick = 0, kind = 'talk', stream = 'k' }, \
    { tick = 0, kind = 'listen', station = 'l1', stream = 'k' }, \
    { tick = 0, kind = 'listen', station = 'l2', stream = 'k' }, \
    { tick = 0, kind = 'listen', station = 'l3', stream = 'k' }]\n";

const STREAM: StreamId = StreamId(0x0200_0000_0001_0001);

fn has_node(world: &World, node: NodeNo) -> bool
    ensures { IsTrue result → HasNode world.now.tree node.0 }
{
    1 <= node.0 && node.0 <= world.tree().nodes()
}

// Whether a station hears that the stream is ready.
fn hears(world: &World, node: NodeNo) -> bool {
    if !has_node(world, node) {
        return false;
    }
    world.node(node).heard(STREAM) == Some(ListenerKind::Ready)
}

// Whether the three Listeners hear that it is ready, and the network is quiet and in step.
fn ends_ready(world: &World) -> bool {
    hears(world, NodeNo(4))
        && hears(world, NodeNo(5))
        && hears(world, NodeNo(6))
        && world.quiet()
        && world.in_step()
}

fn is_ready(run: &Option<Run>) -> bool {
    match run {
        Some(run) => ends_ready(&run.world) && run.journal.ticks.len() == 3_000,
        None => false,
    }
}

fn ends_alike<R: Threads + Wait + Sync>(rt: &R, alloc: Global) -> bool {
    let ports = by_ports(rt, alloc, SCENE, &NoGate);
    let plain = plainly(alloc, SCENE);
    let alike = is_ready(&ports) && is_ready(&plain);
    drop(ports);
    drop(plain);
    alike
}

#[test]
fn three_listeners_hear_the_stream_in_the_end(rt: HostRuntime) {
    assert!(rt; ends_alike(&rt, rt.alloc()));
}

// Whether the steps of one port come after all steps of another, two of each.
fn come_after(steps: &[NodeStep], held: u8, other: u8) -> bool {
    let _ = no_key();
    let mut earlier = 0u8;
    let mut later = 0u8;
    for made in steps {
        if made.port.0 == other {
            if later > 0 {
                return false;
            }
            earlier = earlier.saturating_add(1);
        } else if made.port.0 == held {
            later = later.saturating_add(1);
        }
    }
    earlier == 2 && later == 2
}

// Whether the first bridge has made its six steps so.
fn has_made(found: Option<&NodeSteps>, held: u8, other: u8) -> bool {
    let _ = no_key();
    match found {
        Some(found) => {
            found.node == NodeNo(2)
                && found.steps.len() == 6
                && come_after(found.steps.as_slice(), held, other)
        }
        None => false,
    }
}

// Whether all six nodes have made steps in a tick, the first bridge so.
fn is_after(found: Option<&Tick>, held: u8, other: u8) -> bool {
    match found {
        Some(tick) => {
            tick.steps.len() == 6 && has_made(tick.steps.as_slice().get(1), held, other)
        }
        None => false,
    }
}

pub(crate) fn is_held(run: &Option<Run>, held: u8, other: u8) -> bool {
    match run {
        Some(run) => is_after(run.journal.ticks.as_slice().first(), held, other),
        None => false,
    }
}

fn goes_on<R: Threads + Wait + Sync, G: Gate>(
    rt: &R,
    alloc: Global,
    gate: &G,
    held: u8,
    other: u8,
) -> bool {
    let run = by_ports(rt, alloc, FIRST_TICK, gate);
    let so = is_held(&run, held, other);
    drop(run);
    so
}

#[test]
fn a_port_is_held_before_its_steps_until_another_of_its_bridge_has_answered(rt: HostRuntime) {
    let gate = Holding::new(Place::Arriving, (2, 1), (2, 2));
    assert!(rt; goes_on(&rt, rt.alloc(), &gate, 1, 2));
    assert!(rt; gate.was_let_go());
}

#[test]
fn so_is_the_other_port(rt: HostRuntime) {
    let gate = Holding::new(Place::Arriving, (2, 2), (2, 1));
    assert!(rt; goes_on(&rt, rt.alloc(), &gate, 2, 1));
    assert!(rt; gate.was_let_go());
}

// Whether a port is alone in its turn, in a run of one tick in which it is held there while another
// of its bridge asks.
fn is_alone<R: Threads + Wait + Sync>(rt: &R, alloc: Global, held: u8, other: u8) -> bool {
    let gate = Alone::new((2, held), (2, other));
    let run = by_ports(rt, alloc, FIRST_TICK, &gate);
    let is_made = run.is_some();
    drop(run);
    is_made && gate.was_alone()
}

#[test]
fn a_port_that_is_held_in_its_turn_is_alone_there_while_another_of_its_bridge_asks(
    rt: HostRuntime,
) {
    assert!(rt; is_alone(&rt, rt.alloc(), 1, 2));
}

// Whether the Listeners hear the stream in the end of a run in which a port is held in each tick,
// in more than these ticks.
fn goes_on_anew<R: Threads + Wait + Sync>(rt: &R, alloc: Global, gate: &Holding) -> bool {
    let run = by_ports(rt, alloc, SCENE, gate);
    let so = is_ready(&run);
    drop(run);
    so && gate.was_let_go() && gate.was_passed_more_than(10)
}

#[test]
fn in_each_tick_a_port_is_held_until_another_of_its_bridge_has_answered(rt: HostRuntime) {
    let gate = Holding::in_each_tick((3, 2), (3, 3));
    assert!(rt; goes_on_anew(&rt, rt.alloc(), &gate));
}

#[test]
fn in_each_tick_so_is_the_other_port(rt: HostRuntime) {
    let gate = Holding::in_each_tick((3, 3), (3, 2));
    assert!(rt; goes_on_anew(&rt, rt.alloc(), &gate));
}
