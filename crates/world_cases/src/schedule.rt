//! A pair of stations. One declares a VID in the last tick: what the journal has of it. One talks a
//! stream and the other listens: what the timeline has of it.

use crate::world::scenario_of;
use node_core::PortStep::{Due, Send, Settle};
use node_core::StepReply::{Fired, Sent, Settled, Silent, Taken};
use node_core::{NodeStep, PortStep, StepReply, no_key};
use srp_base::{App, EgressPort, NodeNo, PortChange, PortNo, StreamId, Vid};
use srp_schedule::plain_run;
use std::alloc::Global;
use topology_file::Scenario;
use world_core::WorldReply::Step;
use world_core::{NodeSteps, Run, Tick};

const SCENE: &str = "ticks = 21\n\
    node = [{ name = 'a', kind = 'station' }, { name = 'b', kind = 'station' }]\n\
    link = [{ a = 'a', b = 'b' }]\n\
    event = [{ tick = 20, kind = 'declare', station = 'a', vid = 5 }]\n";

// What the one port of a station made.
fn made(step: PortStep, reply: StepReply) -> NodeStep {
    NodeStep {
        port: PortNo(1),
        step,
        reply,
    }
}

// What the station that declares makes, and what the other makes.
fn declaring() -> [NodeStep; 4] {
    [
        made(Due, Fired(0)),
        made(Settle, Settled(1)),
        made(Send(App::Mvrp), Sent(12)),
        made(Send(App::Msrp), Silent),
    ]
}

fn silent() -> [NodeStep; 2] {
    [made(Send(App::Mvrp), Silent), made(Send(App::Msrp), Silent)]
}

// Whether these are the steps of this node.
fn has_made(found: Option<&NodeSteps>, node: NodeNo, steps: &[NodeStep]) -> bool {
    let _ = no_key();
    match found {
        Some(found) => found.node == node && found.steps.as_slice() == steps,
        None => false,
    }
}

// Whether the nodes have made all that, and no others are there.
fn have_made(nodes: &[NodeSteps]) -> bool {
    nodes.len() == 2
        && has_made(nodes.first(), NodeNo(1), declaring().as_slice())
        && has_made(nodes.last(), NodeNo(2), silent().as_slice())
}

// Whether nothing happens in a tick.
fn is_idle(found: Option<&Tick>) -> bool {
    let _ = no_key();
    match found {
        Some(tick) => tick.events.is_empty() && tick.steps.is_empty(),
        None => false,
    }
}

// Whether the first event is taken in a tick, and the nodes act.
fn is_taken(found: Option<&Tick>) -> bool {
    let _ = no_key();
    match found {
        Some(tick) => {
            tick.events.as_slice() == [(1, Step(Taken))].as_slice()
                && have_made(tick.steps.as_slice())
        }
        None => false,
    }
}

// Whether the second tick is idle, and the VID is declared in the last.
fn declares_last(ticks: &[Tick]) -> bool {
    ticks.len() == 21 && is_idle(ticks.get(1)) && is_taken(ticks.last())
}

fn run_of(alloc: Global, read: &Option<Scenario>) -> Option<Run> {
    match read {
        Some(scenario) => plain_run(alloc, scenario).ok(),
        None => None,
    }
}

// The run of a scenario that a text is.
pub(crate) fn run_of_text(alloc: Global, text: &str) -> Option<Run> {
    let read = scenario_of(alloc, text);
    let run = run_of(alloc, &read);
    drop(read);
    run
}

// Whether the run of the first text ends with that declaration, and isn't quiet.
fn ends_with_it(alloc: Global) -> bool {
    let run = run_of_text(alloc, SCENE);
    let ended = match &run {
        Some(run) => !run.world.quiet() && declares_last(run.journal.ticks.as_slice()),
        None => false,
    };
    drop(run);
    ended
}

#[test]
fn a_declaration_is_settled_and_sent_in_its_tick(rt: HostRuntime) {
    assert!(rt; ends_with_it(rt.alloc()));
}

// VID 2 comes to a's port in tick 1, and the listener's declaration in tick 21.
const STREAM: &str = "ticks = 22\n\
    node = [{ name = 'a', kind = 'station' }, { name = 'b', kind = 'station' }]\n\
    link = [{ a = 'a', b = 'b' }]\n\
    stream = [{ name = 'k', id = '00000000000000ab', talker = 'a', dest = '91e0f0000001', \
    octets = 80, frames = 1 }]\n\
    event = [{ tick = 0, kind = 'talk', stream = 'k' }, \
    { tick = 0, kind = 'listen', station = 'b', stream = 'k' }, \
    { tick = 0, kind = 'declare', station = 'b', vid = 2 }]\n";

// Whether a change is in a tick at the one port of station a, with this slope of class A and none
// of class B.
fn is_in(change: &PortChange, tick: u64, slope_a: u64) -> bool {
    let at = EgressPort {
        node: NodeNo(1),
        port: PortNo(1),
    };
    change.at == at && change.tick == tick && change.slope_a == slope_a && change.slope_b == 0
}

// Whether a change is to these streams and VID 2.
fn is_to(change: &PortChange, booked: &[StreamId]) -> bool {
    match Vid::new(2) {
        Some(vid) => {
            change.booked.as_slice() == booked && change.vids.as_slice() == [vid].as_slice()
        }
        None => false,
    }
}

// Whether there is a change that says all this.
fn says(found: Option<&PortChange>, tick: u64, booked: &[StreamId], slope_a: u64) -> bool {
    match found {
        Some(change) => is_in(change, tick, slope_a) && is_to(change, booked),
        None => false,
    }
}

// Whether the VID comes first, and then the stream with its slope.
fn books_second(changes: &[PortChange]) -> bool {
    changes.len() == 2
        && says(changes.first(), 1, [].as_slice(), 0)
        && says(changes.last(), 21, [StreamId(0xab)].as_slice(), 7_808_000)
}

fn books_in_run(alloc: Global) -> bool {
    let run = run_of_text(alloc, STREAM);
    let booked = match &run {
        Some(run) => books_second(run.timeline.changes.as_slice()),
        None => false,
    };
    drop(run);
    booked
}

#[test]
fn what_is_booked_and_registered_is_in_the_timeline(rt: HostRuntime) {
    assert!(rt; books_in_run(rt.alloc()));
}
