//! A Talker, two bridges and three listeners, the third behind a link of little bandwidth: the
//! first two hear Ready, and why the third doesn't is shown.

use crate::world::{answer, has_node, world_of};
use network_laws::{Refusal, ready_on_path, refusal_shown};
use node_core::PortStep::{Send, Settle, Work};
use node_core::StepReply::Taken;
use node_core::{AppRequest, PortStep};
use srp_base::{App, EgressPort, Mac, NoMemory, NodeNo, PortNo, Priority, Rank, StreamId, Talker};
use std::alloc::Global;
use world_core::WorldEvent::{Carry, Port, Request};
use world_core::WorldReply::Step;
use world_core::{World, WorldEvent, WorldReply};

/// Station 1 talks; bridges 2 and 3; stations 4, 5 and 6 listen, the last behind port 3 of bridge
/// 3.
const HALL: &str = "ticks = 1\n\
    node = [{ name = 't1', kind = 'station' }, { name = 'b1', kind = 'bridge' }, \
    { name = 'b2', kind = 'bridge' }, { name = 'l1', kind = 'station' }, \
    { name = 'l2', kind = 'station' }, { name = 'l3', kind = 'station' }]\n\
    link = [{ a = 't1', b = 'b1' }, { a = 'b1', b = 'b2' }, { a = 'b1', b = 'l1' }, \
    { a = 'b2', b = 'l2' }, { a = 'b2', b = 'l3', delta_a = 10 }]\n";

/// Its ports.
const PORTS: [(u16, u8); 10] = [
    (1, 1),
    (2, 1),
    (2, 2),
    (2, 3),
    (3, 1),
    (3, 2),
    (3, 3),
    (4, 1),
    (5, 1),
    (6, 1),
];

const STREAM: StreamId = StreamId(0x0200_0000_0001_0001);

fn egress(at: (u16, u8)) -> EgressPort {
    EgressPort {
        node: NodeNo(at.0),
        port: PortNo(at.1),
    }
}

// A Talker of one frame of 200 octets in 125 microseconds.
fn new_talker() -> Option<Talker> {
    let dest = Mac::new(0x91e0_f000_fe01)?;
    let priority = Priority::new(3)?;
    Some(Talker {
        stream: STREAM,
        dest,
        vid: 2,
        max_frame: 200,
        frames: 1,
        priority,
        rank: Rank::Normal,
        latency: 0,
    })
}

// What an event answers, which happens once more in the same network where memory ran out:
// `tools/memory` refuses each growth in turn.
fn again(world: &mut World, event: &WorldEvent) -> Result<Option<WorldReply>, NoMemory> {
    match answer(world, event.clone()?) {
        Ok(reply) => Ok(reply),
        Err(_) => answer(world, event.clone()?),
    }
}

// Each port makes a step.
fn make(world: &mut World, step: &PortStep) -> Result<(), NoMemory> {
    for at in PORTS.as_slice() {
        again(world, &Port(NodeNo(at.0), PortNo(at.1), *step))?;
    }
    Ok(())
}

// The PDUs of each port come in at its peer.
fn carry(world: &mut World) -> Result<(), NoMemory> {
    for at in PORTS.as_slice() {
        again(world, &Carry(egress(*at)))?;
    }
    Ok(())
}

// What came in acts, what awaits is settled, and what there is to say comes in at the other end.
fn exchange(world: &mut World) -> Result<(), NoMemory> {
    make(world, &Work)?;
    make(world, &Work)?;
    make(world, &Settle)?;
    make(world, &Send(App::Msrp))?;
    carry(world)
}

// So often that all is said.
fn come_to_rest(world: &mut World) -> Result<(), NoMemory> {
    for _ in 0..12 {
        exchange(world)?;
    }
    Ok(())
}

// Station 1 talks, and stations 4 to 6 listen.
fn asking(talker: Talker) -> [WorldEvent; 4] {
    [
        Request(NodeNo(1), AppRequest::Talk(talker)),
        Request(NodeNo(4), AppRequest::Listen(STREAM)),
        Request(NodeNo(5), AppRequest::Listen(STREAM)),
        Request(NodeNo(6), AppRequest::Listen(STREAM)),
    ]
}

// Whether each of these is taken.
fn are_taken(world: &mut World, events: &[WorldEvent]) -> Result<bool, NoMemory> {
    for event in events {
        if again(world, event)? != Some(Step(Taken)) {
            return Ok(false);
        }
    }
    Ok(true)
}

// Whether both sides of the law are so at a listener.
pub(crate) fn is_ready(
    alloc: Global,
    world: &World,
    listener: NodeNo,
    ready: bool,
) -> Result<bool, NoMemory> {
    if !has_node(world, listener) {
        return Ok(false);
    }
    let sides = ready_on_path(alloc, world, listener, STREAM)?;
    Ok(sides.found == ready && sides.expected == ready)
}

// Whether this refusal is shown for a listener.
fn is_refused(
    alloc: Global,
    world: &World,
    listener: NodeNo,
    refusal: Option<Refusal>,
) -> Result<bool, NoMemory> {
    if !has_node(world, listener) {
        return Ok(false);
    }
    Ok(refusal_shown(alloc, world, listener, STREAM)? == refusal)
}

// Whether at a listener both sides are so, and this refusal is shown.
fn shows(
    alloc: Global,
    world: &World,
    listener: NodeNo,
    ready: bool,
    refusal: Option<Refusal>,
) -> Result<bool, NoMemory> {
    Ok(is_ready(alloc, world, listener, ready)? && is_refused(alloc, world, listener, refusal)?)
}

// The port of bridge 3 that leads to station 6 has 10 percent of 100 Mb/s for class A, and the
// stream takes 15,488,000 bit/s.
fn too_little() -> Refusal {
    Refusal {
        at: egress((3, 3)),
        more_important: 0,
        slope: 15_488_000,
        cap: 10_000_000,
        code: 1,
    }
}

// Whether the hall comes to rest once all have asked.
fn rests(world: &mut World, talker: Talker) -> Result<bool, NoMemory> {
    let asked = are_taken(world, asking(talker).as_slice())?;
    come_to_rest(world)?;
    Ok(asked && world.quiet() && world.in_step())
}

// Whether the first two listeners are ready then, and for the third the refusal is shown.
fn is_shown(alloc: Global, world: &World) -> Result<bool, NoMemory> {
    Ok(
        shows(alloc, world, NodeNo(4), true, None)?
            && shows(alloc, world, NodeNo(5), true, None)?
            && shows(alloc, world, NodeNo(6), false, Some(too_little()))?,
    )
}

// Whether all that is so in the hall, and nobody is ready before.
fn is_served(alloc: Global, world: &mut World, talker: Talker) -> Result<bool, NoMemory> {
    Ok(
        shows(alloc, world, NodeNo(4), false, None)?
            && rests(world, talker)?
            && is_shown(alloc, world)?,
    )
}

fn new_one_is_served(alloc: Global) -> Result<bool, NoMemory> {
    let mut world = world_of(alloc, HALL);
    let served = match (&mut world, new_talker()) {
        (Some(world), Some(talker)) => is_served(alloc, world, talker),
        _ => Err(NoMemory),
    };
    drop(world);
    served
}

// The same, at a second try where what stands around the events wanted memory.
fn is_served_in_the_end(alloc: Global) -> bool {
    match new_one_is_served(alloc) {
        Ok(served) => served,
        Err(_) => new_one_is_served(alloc) == Ok(true),
    }
}

#[test]
fn ready_comes_where_the_path_has_booked_and_a_refusal_is_shown(rt: HostRuntime) {
    assert!(rt; is_served_in_the_end(rt.alloc()));
}
