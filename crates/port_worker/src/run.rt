//! The run of a scenario with a thread for each port.

ghost use Rattle.std.specs.Prelude.{IfOk};
ghost use Rattle.world_core.specs.{Ticks.AreLegalTicks, Timeline.IsTimelineOf};

use crate::tick::make_tick;
use bridge_book::Gate;
use srp_base::{NoMemory, Seq};
use std::alloc::Global;
use std::sync::Wait;
use std::thread::Threads;
use topology_file::Scenario;
use world_core::laws::a_tick_carries_what_it_has_sent;
use world_core::tick_laws::a_noted_run_goes_on;
use world_core::{History, Journal, Run, World};

/// Runs a scenario to its end, each tick with a thread for each port that has something to do: in
/// each tick its events, the jobs of each node's ports in the interleaving that the threads come
/// to, the carrying of each port's PDUs, and the clock. Answers the network at the end, the journal
/// of all ticks, nodes ascending in each, and the timeline of what was in force at each port after
/// each tick's steps. The gate is told where each port is, mostly on a thread with a stack of
/// 256 KiB. It may wait; its one failure is want of memory.
pub fn run_ports<R: Threads + Wait + Sync, G: Gate>(
    rt: &R,
    alloc: Global,
    scenario: &Scenario,
    gate: &G,
) -> Result<Run, NoMemory>
    ensures ticks { IfOk result (λ run. AreLegalTicks scenario.now run.journal.ticks run.world) }
    ensures timeline { IfOk result
        (λ run. IsTimelineOf scenario.now run.journal.ticks run.timeline.changes) }
{
    a_tick_carries_what_it_has_sent();
    a_noted_run_goes_on();
    scenario.keeps_rules();
    let mut world = World::of(alloc, scenario)?;
    let mut history = History::of(alloc, &world)?;
    let mut ticks = Vec::new(alloc);
    let mut cursor = 0;
    for t in 0..scenario.ticks {
        let (next, tick, noted) = make_tick(
            rt,
            alloc,
            gate,
            scenario,
            t,
            world,
            &mut cursor,
            history,
        )?;
        world = next;
        history = noted;
        ticks.push(tick)?;
    }
    let timeline = history.into_timeline()?;
    let journal = Journal {
        ticks: Seq::from_vec(ticks),
    };
    Ok(Run {
        world,
        journal,
        timeline,
    })
}
