//! Two stations on a link that are taken apart and put together again, while a LeaveAll that will
//! put them in step is on its way: they are as before, and go on.

use crate::leaving::{calling, hears, says_again};
use crate::vlans::{PAIR, S1, S2, carries, makes, takes};
use crate::world::{has_answers, has_node, world_of};
use node_core::AppRequest;
use node_core::PortStep::{Send, Settle};
use node_core::StepReply::{Sent, Settled};
use srp_base::{App, EgressPort, NodeNo, PortNo, Vid};
use std::alloc::Global;
use world_core::WorldEvent::Lose;
use world_core::WorldReply::Done;
use world_core::{World, WorldEvent, WorldReply};

// What comes in at station 2 is lost.
fn loses() -> (WorldEvent, WorldReply) {
    let at = EgressPort {
        node: S2,
        port: PortNo(1),
    };
    (Lose(at, 0), Done)
}

// Station 1 declares a VID, and both PDUs that say it are lost.
fn losing(vid: Vid) -> [(WorldEvent, WorldReply); 8] {
    [
        takes(AppRequest::Declare(vid)),
        makes(S1, Settle, Settled(1)),
        makes(S1, Send(App::Mvrp), Sent(12)),
        carries(S1),
        loses(),
        makes(S1, Send(App::Mvrp), Sent(12)),
        carries(S1),
        loses(),
    ]
}

// Whether neither is in step after the losses.
fn is_out_of_step(world: &mut World, vid: Vid) -> bool {
    has_answers(world, losing(vid).as_slice()) && !world.in_step()
}

// Whether neither is in step after the losses, and then station 2 sends its LeaveAll.
fn begins(world: &mut World, vid: Vid) -> bool {
    is_out_of_step(world, vid) && has_answers(world, calling().as_slice())
}

// The network again, once it has been taken apart.
fn put_together(world: World) -> World {
    let (rest, nodes) = world.part();
    World::join(rest, nodes)
}

// How many PDUs wait at a station, and how many are to go out from it.
fn pdus_of(world: &World, node: NodeNo) -> Option<(usize, usize)> {
    if !has_node(world, node) {
        return None;
    }
    let station = world.node(node);
    if station.ports() == 0 {
        return None;
    }
    Some((
        station.pending_pdus(PortNo(1)),
        station.outgoing_pdus(PortNo(1)),
    ))
}

// What a network shows of itself.
#[derive(Clone, Copy, PartialEq, Eq)]
struct Shown {
    quiet: bool,
    in_step: bool,
    first: Option<(usize, usize)>,
    second: Option<(usize, usize)>,
}

fn shown_by(world: &World) -> Shown {
    Shown {
        quiet: world.quiet(),
        in_step: world.in_step(),
        first: pdus_of(world, S1),
        second: pdus_of(world, S2),
    }
}

// What it shows while the LeaveAll is to go out.
const BEFORE: Shown = Shown {
    quiet: false,
    in_step: false,
    first: Some((0, 0)),
    second: Some((0, 1)),
};

// Whether it goes on as it would have: the LeaveAll is taken, and then both are in step.
fn goes_on(world: &mut World, vid: Vid) -> bool {
    hears(world) && world.in_step() && says_again(world, vid)
}

// Whether a network is the same after it was taken apart.
fn is_same_after(world: World, vid: Vid) -> bool {
    let mut world = world;
    let has_begun = begins(&mut world, vid) && shown_by(&world) == BEFORE;
    let mut again = put_together(world);
    let is_same = shown_by(&again) == BEFORE && goes_on(&mut again, vid);
    drop(again);
    has_begun && is_same
}

fn goes_on_after_it_was_apart(alloc: Global) -> bool {
    match (world_of(alloc, PAIR), Vid::new(7)) {
        (Some(world), Some(vid)) => is_same_after(world, vid),
        _ => false,
    }
}

#[test]
fn a_network_that_was_taken_apart_goes_on_as_it_was(rt: HostRuntime) {
    assert!(rt; goes_on_after_it_was_apart(rt.alloc()));
}
