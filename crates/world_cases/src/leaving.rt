//! Two stations on a link, at the end of a run in which both PDUs by which one said what it
//! declares were lost: the other's LeaveAll alone puts both in step, unless the first has said
//! something before it takes it.

use crate::schedule::run_of_text;
use crate::vlans::{S1, S2, carries, has_sides, makes, takes};
use crate::world::{has_answers, has_node};
use node_core::PortStep::{LeaveAllNow, Send, Settle, Work};
use node_core::StepReply::{Fired, Received, Sent, Settled};
use node_core::{AppRequest, Wire, wire_leaves};
use srp_base::{App, PortNo, Seq, Vid};
use std::alloc::Global;
use world_core::{World, WorldEvent, WorldReply};

// Station 1 declares a VID, and both PDUs that say it are lost.
const LOSING: &str = "ticks = 22\n\
    node = [{ name = 's1', kind = 'station' }, { name = 's2', kind = 'station' }]\n\
    link = [{ a = 's1', b = 's2' }]\n\
    event = [{ tick = 0, kind = 'declare', station = 's1', vid = 7 }, \
    { tick = 1, kind = 'lose', from = 's1', to = 's2', index = 0 }, \
    { tick = 21, kind = 'lose', from = 's1', to = 's2', index = 0 }]\n";

// Station 2 sends a LeaveAll.
pub(crate) fn calling() -> [(WorldEvent, WorldReply); 2] {
    [
        makes(S2, LeaveAllNow(App::Mvrp), Fired(1)),
        makes(S2, Send(App::Mvrp), Sent(11)),
    ]
}

// Station 1 declares one more VID and says so.
fn speaking(vid: Vid) -> [(WorldEvent, WorldReply); 3] {
    [
        takes(AppRequest::Declare(vid)),
        makes(S1, Settle, Settled(1)),
        makes(S1, Send(App::Mvrp), Sent(12)),
    ]
}

// Station 1 says again what it declares, and station 2 takes it.
fn saying() -> [(WorldEvent, WorldReply); 3] {
    [
        makes(S1, Send(App::Mvrp), Sent(12)),
        carries(S1),
        makes(S2, Work, Received(1)),
    ]
}

// Whether one PDU waits at station 1.
fn has_one_waiting(world: &World) -> bool {
    if !has_node(world, S1) {
        return false;
    }
    let node = world.node(S1);
    if node.ports() == 0 {
        return false;
    }
    match node.waiting(PortNo(1)) {
        Ok(wires) => wires.len() == 1,
        Err(_) => false,
    }
}

// Whether the LeaveAll waits at station 1, and is taken.
pub(crate) fn hears(world: &mut World) -> bool {
    has_answers(world, [carries(S2)].as_slice())
        && has_one_waiting(world)
        && has_answers(world, [makes(S1, Work, Received(0))].as_slice())
}

// Whether nothing is pending and an end is out of step, and then station 2 sends its LeaveAll.
fn calls(world: &mut World) -> bool {
    world.quiet() && !world.in_step() && has_answers(world, calling().as_slice())
}

// Whether station 1 says again what it declares, so that the VID is registered in the end.
pub(crate) fn says_again(world: &mut World, vid: Vid) -> bool {
    has_answers(world, saying().as_slice())
        && has_answers(world, saying().as_slice())
        && world.quiet()
        && has_sides(world, S2, vid, true, true)
}

// Whether both are in step once the LeaveAll is taken, and the VID is registered in the end.
fn comes_in_step(world: &mut World, vid: Vid) -> bool {
    calls(world) && hears(world) && world.in_step() && says_again(world, vid)
}

// Whether they aren't where station 1 has spoken before it takes it.
fn stays_out_of_step(world: &mut World, other: Vid) -> bool {
    calls(world)
        && has_answers(world, speaking(other).as_slice())
        && hears(world)
        && !world.in_step()
}

fn comes_in_step_after_the_losses(alloc: Global) -> bool {
    let mut run = run_of_text(alloc, LOSING);
    let shown = match (&mut run, Vid::new(7)) {
        (Some(run), Some(vid)) => comes_in_step(&mut run.world, vid),
        _ => false,
    };
    drop(run);
    shown
}

fn stays_out_of_step_after_the_losses(alloc: Global) -> bool {
    let mut run = run_of_text(alloc, LOSING);
    let shown = match (&mut run, Vid::new(8)) {
        (Some(run), Some(other)) => stays_out_of_step(&mut run.world, other),
        _ => false,
    };
    drop(run);
    shown
}

// Whether a PDU of MVRP with these octets has LeaveAll.
fn leaves(alloc: Global, octets: &[u8]) -> Option<bool> {
    if octets.len() > 1_500 {
        return None;
    }
    let octets = Seq::from_vec(Vec::from_slice(alloc, octets).ok()?);
    let wire = Wire {
        app: App::Mvrp,
        octets,
    };
    wire_leaves(alloc, &wire).ok()
}

#[test]
fn a_neighbours_leave_all_alone_puts_both_ends_in_step(rt: HostRuntime) {
    assert!(rt; comes_in_step_after_the_losses(rt.alloc()));
}

#[test]
fn what_was_said_before_a_leave_all_is_taken_keeps_an_end_out_of_step(rt: HostRuntime) {
    assert!(rt; stays_out_of_step_after_the_losses(rt.alloc()));
}

#[test]
fn a_pdu_has_leave_all_where_its_octets_say_so(rt: HostRuntime) {
    let with = leaves(rt.alloc(), &[0, 1, 2, 0x20, 0, 0, 0, 0, 0, 0, 0]);
    let without = leaves(rt.alloc(), &[0, 1, 2, 0, 1, 0, 2, 0x6c, 0, 0, 0, 0]);
    assert!(rt; with == Some(true) && without == Some(false));
}
