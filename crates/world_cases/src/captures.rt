//! A pair of stations that both declare a VID in the last tick: what the capture of their link has.

ghost use Rattle.tree_topology.specs.Topology.{HasLink};
ghost use Rattle.world_core.specs.Ticks.{AreLegalTicks};

use crate::world::scenario_of;
use link_capture::link_capture;
use srp_base::LinkNo;
use srp_schedule::plain_run;
use std::alloc::Global;
use topology_file::Scenario;
use world_core::Run;
use world_core::laws::canonical_ticks_are_legal;

const SCENE: &str = "ticks = 21\n\
    node = [{ name = 'a', kind = 'station' }, { name = 'b', kind = 'station' }]\n\
    link = [{ a = 'a', b = 'b' }]\n\
    event = [{ tick = 20, kind = 'declare', station = 'b', vid = 6 }, \
    { tick = 20, kind = 'declare', station = 'a', vid = 5 }]\n";

// The file by hand: end a's frame stands first, though b's event does in the scene, and zeros fill
// each PDU up to 46 octets.
const FILE: [u8; 176] = [
    // the head: magic of ns, version 2.4, zone, accuracy, snap length, link type
    0xa1, 0xb2, 0x3c, 0x4d, 0, 2, 0, 4, 0, 0, 0, 0, 0, 0, 0, 0, 0, 4, 0, 0, 0, 0, 0, 1,
    // 0 s and 200,000,000 ns, 60 octets of 60
    0, 0, 0, 0, 0x0b, 0xeb, 0xc2, 0, 0, 0, 0, 60, 0, 0, 0, 60,
    // from a's port 1 to MVRP's group address: JoinMt of VID 5
    1, 0x80, 0xc2, 0, 0, 0x21, 2, 0, 0, 0, 1, 1, 0x88, 0xf5, 0, 1, 2, 0, 1, 0, 5, 108, 0, 0, 0, 0,
    0, 0, 0, 0, 0, 0, 0, 0, 0, 0, 0, 0, 0, 0, 0, 0, 0, 0, 0, 0, 0, 0, 0, 0, 0, 0, 0, 0, 0, 0, 0, 0,
    0, 0,
    // the same moment and size
    0, 0, 0, 0, 0x0b, 0xeb, 0xc2, 0, 0, 0, 0, 60, 0, 0, 0, 60,
    // from b's port 1: JoinMt of VID 6
    1, 0x80, 0xc2, 0, 0, 0x21, 2, 0, 0, 0, 2, 1, 0x88, 0xf5, 0, 1, 2, 0, 1, 0, 6, 108, 0, 0, 0, 0,
    0, 0, 0, 0, 0, 0, 0, 0, 0, 0, 0, 0, 0, 0, 0, 0, 0, 0, 0, 0, 0, 0, 0, 0, 0, 0, 0, 0, 0, 0, 0, 0,
    0, 0,
];

// Whether the capture of the first link in a run is that file.
fn has_file(alloc: Global, scenario: &Scenario, run: &Run) -> bool
    requires link { HasLink scenario.now.tree 1 }
    requires legal { AreLegalTicks scenario.now run.now.journal.ticks run.now.world }
{
    match link_capture(alloc, scenario, run, LinkNo(1)) {
        Ok(file) => file.as_slice() == FILE.as_slice(),
        Err(_) => false,
    }
}

// Whether it is so in the run of a scenario.
fn is_captured(alloc: Global, scenario: &Scenario) -> bool {
    canonical_ticks_are_legal();
    scenario.keeps_rules();
    if scenario.tree.links() == 0 {
        return false;
    }
    match plain_run(alloc, scenario) {
        Ok(run) => has_file(alloc, scenario, &run),
        Err(_) => false,
    }
}

// Whether it is so in the run of that scene.
fn scene_is_captured(alloc: Global) -> bool {
    let read = scenario_of(alloc, SCENE);
    let captured = match &read {
        Some(scenario) => is_captured(alloc, scenario),
        None => false,
    };
    drop(read);
    captured
}

#[test]
fn what_both_ends_send_is_in_the_file(rt: HostRuntime) {
    assert!(rt; scene_is_captured(rt.alloc()));
}
