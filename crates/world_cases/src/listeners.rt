//! A Talker, two bridges and three listeners, run by the clock. In the end the stream is ready at
//! all three. In the tick in which bridge 2 books the stream, its next clock shows that, and goes
//! on once the bridge is ready for it.

ghost use Rattle.std.specs.Prelude.{◌≡◌, true};
ghost use Rattle.attribute_propagation.specs.Ports.{IsLinkPort};
ghost use Rattle.node_core.specs.State.{ports_of};

use crate::schedule::run_of_text;
use crate::streams::is_ready;
use node_core::StepReply::Taken;
use node_core::{Node, NodeEvent, PortStep, no_key};
use srp_base::{Cs, NoMemory, NodeNo, PortNo, StreamId};
use std::alloc::Global;
use world_core::{Run, World};

/// Station 1 talks, and stations 4, 5 and 6 listen: station 4 at port 3 of bridge 2, the others
/// behind bridge 3.
const HALL: &str = "node = [{ name = 't1', kind = 'station' }, { name = 'b1', kind = 'bridge' }, \
    { name = 'b2', kind = 'bridge' }, { name = 'l1', kind = 'station' }, \
    { name = 'l2', kind = 'station' }, { name = 'l3', kind = 'station' }]\n\
    link = [{ a = 't1', b = 'b1' }, { a = 'b1', b = 'b2' }, { a = 'b1', b = 'l1' }, \
    { a = 'b2', b = 'l2' }, { a = 'b2', b = 'l3' }]\n\
    stream = [{ name = 'k', id = '0200000000010001', talker = 't1', dest = '91e0f0000001', \
    octets = 200, frames = 1 }]\n\
    event = [{ tick = 0, kind = 'declare', station = 'l1', vid = 2 }, \
    { tick = 0, kind = 'declare', station = 'l2', vid = 2 }, \
    { tick = 0, kind = 'declare', station = 'l3', vid = 2 }, \
    { tick = 0, kind = 'talk', stream = 'k' }, \
    { tick = 0, kind = 'listen', station = 'l1', stream = 'k' }, \
    { tick = 0, kind = 'listen', station = 'l2', stream = 'k' }, \
    { tick = 0, kind = 'listen', station = 'l3', stream = 'k' }]\n";

// The run of the hall for so many ticks, as the file's first line says it.
fn run_of_hall(alloc: Global, ticks: &str) -> Option<Run> {
    let mut text = String::new(alloc);
    text.push_str(ticks).ok()?;
    text.push_str(HALL).ok()?;
    run_of_text(alloc, text.as_str())
}

const STREAM: StreamId = StreamId(0x0200_0000_0001_0001);

// ---- all are ready

fn are_ready(alloc: Global, world: &World) -> Result<bool, NoMemory> {
    Ok(
        is_ready(alloc, world, NodeNo(4), true)?
            && is_ready(alloc, world, NodeNo(5), true)?
            && is_ready(alloc, world, NodeNo(6), true)?,
    )
}

// Whether nothing is pending at the end of a run, and all are ready; an error where there is no
// run.
fn ends_ready(alloc: Global, run: &Option<Run>) -> Result<bool, NoMemory> {
    match run {
        Some(run) => Ok(run.world.quiet() && are_ready(alloc, &run.world)?),
        None => Err(NoMemory),
    }
}

fn new_one_ends_ready(alloc: Global) -> Result<bool, NoMemory> {
    let run = run_of_hall(alloc, "ticks = 3000\n");
    let ready = ends_ready(alloc, &run);
    drop(run);
    ready
}

// The same, at a second try where memory ran out: `tools/memory` refuses each growth in turn.
fn is_ready_in_the_end(alloc: Global) -> bool {
    match new_one_ends_ready(alloc) {
        Ok(ready) => ready,
        Err(_) => new_one_ends_ready(alloc) == Ok(true),
    }
}

#[test]
fn each_listener_is_ready_in_the_end(rt: HostRuntime) {
    assert!(rt; is_ready_in_the_end(rt.alloc()));
}

// ---- the clock that shows a booking

// Whether a node has a link port of this number.
fn has(node: &Node, port: PortNo) -> bool
    ensures { result ≡ true → IsLinkPort port (ports_of node.now.state) }
{
    1 <= port.0 && port.0 <= node.ports()
}

// Lets a link port of a node make its jobs.
fn work(node: &mut Node, port: PortNo) -> Result<bool, NoMemory> {
    let _ = no_key();
    if !has(node, port) {
        return Ok(false);
    }
    let jobs = node.jobs(port)?;
    for step in jobs.as_slice() {
        step_at(node, port, *step)?;
    }
    Ok(true)
}

fn step_at(node: &mut Node, port: PortNo, step: PortStep) -> Result<(), NoMemory> {
    if has(node, port) {
        node.step(NodeEvent::Port(port, step))?;
    }
    Ok(())
}

// Whether a stream is booked at a port since a moment.
fn books(node: &Node, port: PortNo, since: Cs) -> bool {
    if !has(node, port) {
        return false;
    }
    match node.booked(port, STREAM) {
        Some(entry) => entry.since == Some(since),
        None => false,
    }
}

// Whether the clock of a node that is made ready goes on.
fn ticks_when_ready(node: &mut Node) -> bool {
    if node.clock_room().is_err() || 1_000_000 < node.now().0 {
        return false;
    }
    node.step(NodeEvent::Clock).ok() == Some(Taken)
}

// Whether a bridge whose ports make their jobs books at port 3 in this tick, and its clock goes on
// then.
fn books_and_ticks(node: &mut Node) -> Result<bool, NoMemory> {
    let moment = node.now();
    let worked = work(node, PortNo(1))? && work(node, PortNo(2))? && work(node, PortNo(3))?;
    Ok(
        worked
            && moment == Cs(41)
            && books(node, PortNo(3), moment)
            && ticks_when_ready(node)
            && node.now() == Cs(42),
    )
}

fn second_of(run: Option<Run>) -> Option<Node> {
    let (_, nodes) = run?.world.part();
    let mut nodes = nodes.into_vec();
    if nodes.len() < 2 {
        return None;
    }
    Some(nodes.swap_remove(1))
}

fn bridge_ticks(alloc: Global) -> bool {
    match second_of(run_of_hall(alloc, "ticks = 41\n")) {
        Some(mut bridge) => books_and_ticks(&mut bridge) == Ok(true),
        None => false,
    }
}

#[test]
fn a_clock_that_shows_a_booking_goes_on_where_the_bridge_is_ready(rt: HostRuntime) {
    assert!(rt; bridge_ticks(rt.alloc()));
}
