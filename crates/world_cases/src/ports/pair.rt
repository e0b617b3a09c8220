//! Two stations, one of which declares a VID, and the first two PDUs that say so are lost: each
//! port has a thread, and whichever of the two is held until the other has answered, the run is the
//! plain one, since a node of one port has one order.

use crate::ports::gate::{Holding, Place};
use crate::ports::scene::{by_ports, plainly};
use bridge_book::{Gate, NoGate};
use std::alloc::Global;
use std::sync::Wait;
use std::thread::Threads;
use world_core::Run;

pub(crate) const SCENE: &str = "ticks = 22\n\
    node = [{ name = 's1', kind = 'station' }, { name = 's2', kind = 'station' }]\n\
    link = [{ a = 's1', b = 's2' }]\n\
    event = [{ tick = 0, kind = 'declare', station = 's1', vid = 7 }, \
    { tick = 1, kind = 'lose', from = 's1', to = 's2', index = 0 }, \
    { tick = 21, kind = 'lose', from = 's1', to = 's2', index = 0 }]\n";

// Whether two runs have one journal of 22 ticks, one timeline, and a quiet network out of step at
// the end.
pub(crate) fn are_one(ports: &Run, plain: &Run) -> bool {
    ports.journal.ticks.len() == 22
        && ports.journal == plain.journal
        && ports.timeline == plain.timeline
        && ports.world.quiet()
        && !ports.world.in_step()
}

fn are_both_one(ports: &Option<Run>, plain: &Option<Run>) -> bool {
    match (ports, plain) {
        (Some(ports), Some(plain)) => are_one(ports, plain),
        _ => false,
    }
}

fn is_plain<R: Threads + Wait + Sync, G: Gate>(rt: &R, alloc: Global, gate: &G) -> bool {
    let ports = by_ports(rt, alloc, SCENE, gate);
    let plain = plainly(alloc, SCENE);
    let same = are_both_one(&ports, &plain);
    drop(ports);
    drop(plain);
    same
}

#[test]
fn two_stations_run_as_plainly(rt: HostRuntime) {
    assert!(rt; is_plain(&rt, rt.alloc(), &NoGate));
}

#[test]
fn a_station_is_held_in_its_turn_until_the_other_has_answered(rt: HostRuntime) {
    let gate = Holding::new(Place::Within, (1, 1), (2, 1));
    assert!(rt; is_plain(&rt, rt.alloc(), &gate));
    assert!(rt; gate.was_let_go());
}

#[test]
fn so_is_the_other_station(rt: HostRuntime) {
    let gate = Holding::new(Place::Within, (2, 1), (1, 1));
    assert!(rt; is_plain(&rt, rt.alloc(), &gate));
    assert!(rt; gate.was_let_go());
}
