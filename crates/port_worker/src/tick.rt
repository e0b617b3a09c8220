//! One tick of a run with a thread for each port.

ghost use Rattle.std.specs.Prelude.{◌≡◌, ◌<◌, IfOk, OnOk};
ghost use Rattle.world_core.specs.{World.CanHappen, World.world_step, During.IsDuring, Carrying.NothingWaits, Cursor.IsCursor, Timeline.AreChanges};
ghost use Rattle.port_worker.specs.Tick.{AreSteps, DuringLaws, IsTickMade, StepLaws};

use crate::gather::{few_are_on_their_way, gather, numbered};
use crate::node_threads::work_all;
use bridge_book::Gate;
use srp_base::{NoMemory, Seq};
use std::alloc::Global;
use std::sync::Wait;
use std::thread::Threads;
use topology_file::Scenario;
use tree_topology::laws::ports;
use world_core::laws::{
    a_tick_carries_what_it_has_sent, every_event_keeps_it, steps_made_apart_keep_it,
    what_is_allowed_may_happen, what_is_kept_is_whole,
};
use world_core::{History, NodeSteps, Tick, World, WorldEvent, WorldRest, carry_sent, make_events};

/// Runs tick t, whose first event stands at the cursor, if it has one, and notes it behind the
/// ticks before.
pub(crate) fn make_tick<R: Threads + Wait + Sync, G: Gate>(
    rt: &R,
    alloc: Global,
    gate: &G,
    scenario: &Scenario,
    t: u64,
    world: World,
    cursor: &mut usize,
    history: History,
) -> Result<(World, Tick, History), NoMemory>
    requires within { t < scenario.now.ticks }
    requires during { IsDuring scenario.now.tree t world }
    requires cursor { IsCursor scenario.now.events t cursor.old }
    requires waits { NothingWaits world }
    requires tree { history.tree ≡ scenario.now.tree }
    requires changes { AreChanges scenario.now.tree t history.changes }
    ensures { IfOk result
        (λ made. IsTickMade scenario.now t world made.0 cursor.new history made.2 made.1) }
{
    laws_of_a_tick();
    a_tick_carries_what_it_has_sent();
    scenario.keeps_rules();
    let mut begun = world;
    let events = make_events(alloc, scenario, t, &mut begun, cursor)?;
    let (mut stepped, steps) = make_steps(rt, alloc, gate, begun)?;
    let noted = history.note_steps(&stepped, t, steps.as_slice())?;
    let _has_carried = carry_sent(&mut stepped, steps.as_slice())?;
    let_clocks_go_on(&mut stepped)?;
    let tick = Tick {
        events: Seq::from_vec(events),
        steps: Seq::from_vec(steps),
    };
    Ok((stepped, tick, noted))
}

// Lets every node make its steps of a tick: the network is taken apart, its nodes work by
// themselves, and it is put together again.
fn make_steps<R: Threads + Wait + Sync, G: Gate>(
    rt: &R,
    alloc: Global,
    gate: &G,
    world: World,
) -> Result<(World, Vec<NodeSteps>), NoMemory>
    ensures { IfOk result (λ made. AreSteps world made.0 made.1.items) }
{
    laws_of_steps();
    what_is_kept_is_whole();
    world.keeps();
    few_are_on_their_way(&world);
    let count = world.tree().nodes();
    let (rest, nodes) = world.part();
    let WorldRest { tree, mut marks } = rest;
    let tasks = numbered(alloc, nodes.into_vec(), count)?;
    let all = work_all(rt, alloc, gate, tasks)?;
    let (after, steps) = gather(alloc, &mut marks, all)?;
    let joined = World::join(WorldRest { tree, marks }, Seq::from_vec(after));
    Ok((joined, steps))
}

// Lets the clock of every node go on.
fn let_clocks_go_on(world: &mut World) -> Result<(), NoMemory>
    requires { CanHappen WorldEvent.Clock world.old }
    ensures { OnOk result (world.new ≡ (world_step WorldEvent.Clock world.old).0) }
{
    world.step(WorldEvent::Clock)?;
    Ok(())
}

// What happens in a tick leaves it as it is until the clock goes on. It does nothing.
fn laws_of_a_tick()
    ensures { DuringLaws }
{
    what_is_allowed_may_happen();
}

// Nodes make their steps by themselves, and each keeps what every network keeps. It does nothing.
fn laws_of_steps()
    ensures { StepLaws }
{
    ports();
    every_event_keeps_it();
    steps_made_apart_keep_it();
}
