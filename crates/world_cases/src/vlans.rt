//! Two stations on a link: one declares a VID, the other's LeaveAll crosses its PDU, and it
//! withdraws the VID.

use crate::world::{has_answers, has_port, world_of};
use network_laws::vlans_match;
use node_core::PortStep::{LeaveAllNow, LeaveNow, Send, Settle, Work};
use node_core::StepReply::{Fired, Received, Sent, Settled, Taken};
use node_core::{AppRequest, NodeKey, PortStep, StepReply};
use srp_base::{App, EgressPort, NodeNo, PortNo, Vid};
use std::alloc::Global;
use world_core::WorldEvent::{Carry, Port, Request};
use world_core::WorldReply::{Done, Step};
use world_core::{World, WorldEvent, WorldReply};

pub(crate) const PAIR: &str = "ticks = 1\n\
    node = [{ name = 's1', kind = 'station' }, { name = 's2', kind = 'station' }]\n\
    link = [{ a = 's1', b = 's2' }]\n";

/// The stations, and the link port of either.
pub(crate) const S1: NodeNo = NodeNo(1);

pub(crate) const S2: NodeNo = NodeNo(2);

const ONE: PortNo = PortNo(1);

// Whether at the port of a station so much is found and expected of a VID.
pub(crate) fn has_sides(
    world: &World,
    node: NodeNo,
    vid: Vid,
    found: bool,
    expected: bool,
) -> bool {
    let at = EgressPort { node, port: ONE };
    if !has_port(world, at) {
        return false;
    }
    match vlans_match(world, at, vid) {
        Ok(sides) => sides.found == found && sides.expected == expected,
        Err(_) => false,
    }
}

// Whether at the port of station 2 so much is found and expected, and at that of station 1 neither.
fn shows(world: &World, vid: Vid, found: bool, expected: bool) -> bool {
    has_sides(world, S1, vid, false, false) && has_sides(world, S2, vid, found, expected)
}

// A step of a station with its answer, and what its PDU answers that comes in at the other.
pub(crate) fn makes(node: NodeNo, step: PortStep, reply: StepReply) -> (WorldEvent, WorldReply) {
    (Port(node, ONE, step), Step(reply))
}

pub(crate) fn carries(node: NodeNo) -> (WorldEvent, WorldReply) {
    (Carry(EgressPort { node, port: ONE }), Done)
}

// Station 1 is asked for something, and takes it.
pub(crate) fn takes(request: AppRequest) -> (WorldEvent, WorldReply) {
    (Request(S1, request), Step(Taken))
}

// Station 1 says that it declares a VID, and hears a LeaveAll of station 2 before that comes in.
fn crossing() -> [(WorldEvent, WorldReply); 6] {
    [
        makes(S1, Settle, Settled(1)),
        makes(S1, Send(App::Mvrp), Sent(12)),
        makes(S2, LeaveAllNow(App::Mvrp), Fired(1)),
        makes(S2, Send(App::Mvrp), Sent(11)),
        carries(S2),
        makes(S1, Work, Received(0)),
    ]
}

// It withdraws the VID, and what it said first comes in.
fn withdrawing(vid: Vid) -> [(WorldEvent, WorldReply); 4] {
    [
        takes(AppRequest::Withdraw(vid)),
        makes(S1, Settle, Settled(1)),
        carries(S1),
        makes(S2, Work, Received(1)),
    ]
}

// What station 1 says of its withdrawal comes in, and the leave timer ends.
fn leaving(vid: Vid) -> [(WorldEvent, WorldReply); 4] {
    [
        makes(S1, Send(App::Mvrp), Sent(12)),
        carries(S1),
        makes(S2, Work, Received(1)),
        makes(S2, LeaveNow(NodeKey::Vlan(vid)), Fired(1)),
    ]
}

// Whether a VID that is declared is expected.
fn declares(world: &mut World, vid: Vid) -> bool {
    has_answers(world, [takes(AppRequest::Declare(vid))].as_slice())
        && shows(world, vid, false, true)
}

// Whether it is found after all that, and no more expected.
fn crosses(world: &mut World, vid: Vid) -> bool {
    has_answers(world, crossing().as_slice())
        && has_answers(world, withdrawing(vid).as_slice())
        && !world.quiet()
        && shows(world, vid, true, false)
}

// Whether it is gone in the end, and all is quiet.
fn leaves(world: &mut World, vid: Vid) -> bool {
    has_answers(world, leaving(vid).as_slice())
        && world.quiet()
        && world.in_step()
        && shows(world, vid, false, false)
}

// Whether all that is so, and nothing is found or expected before.
fn comes_and_goes(world: &mut World, vid: Vid) -> bool {
    shows(world, vid, false, false)
        && declares(world, vid)
        && crosses(world, vid)
        && leaves(world, vid)
}

fn comes_and_goes_in_new(alloc: Global) -> bool {
    let mut world = world_of(alloc, PAIR);
    let gone = match (&mut world, Vid::new(7)) {
        (Some(world), Some(vid)) => comes_and_goes(world, vid),
        _ => false,
    };
    drop(world);
    gone
}

#[test]
fn a_withdrawal_behind_a_join_in_flight_is_said(rt: HostRuntime) {
    assert!(rt; comes_and_goes_in_new(rt.alloc()));
}
