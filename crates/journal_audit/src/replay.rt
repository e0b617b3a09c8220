//! The replay of a journal: tick by tick its lines are read as the run makes them.

ghost use Rattle.std.specs.Prelude.{◌≡◌, ◌<◌, suc, false, map, IfOk, IfSome, IfNone, OnOk};
ghost use Rattle.tree_topology.specs.Topology.{link_ports};
ghost use Rattle.world_core.specs.{World.world_after, Ticks.closing_events, During.IsDuring, Carrying.has_send, Cursor.IsCursor, Start.world_of};
ghost use Rattle.journal_audit.specs.Reading.{IsStuck};
ghost use Rattle.journal_audit.specs.Follow.{FollowTicks};
ghost use Rattle.journal_audit.specs.Replay.{IsTickRead, IsRunRead};

use crate::laws::laws_of_replay;
use crate::reading::Reader;
use crate::steps::{read_answers, read_nodes};
use srp_base::{NoMemory, Seq};
use std::alloc::Global;
use topology_file::Scenario;
use world_core::laws::a_tick_carries_what_it_has_sent;
use world_core::tick_laws::a_noted_run_goes_on;
use world_core::{History, Journal, Run, Tick, World, WorldEvent, carry_sent, make_events};

// Reads tick t up to its last step; None where the next line isn't one that a legal run has there.
fn read_tick(
    alloc: Global,
    scenario: &Scenario,
    t: u64,
    world: &mut World,
    cursor: &mut usize,
    lines: &mut Reader<'_>,
) -> Result<Option<Tick>, NoMemory>
    requires within { t < scenario.now.ticks }
    requires during { IsDuring scenario.now.tree t world.old }
    requires cursor { IsCursor scenario.now.events t cursor.old }
    ensures read { IfOk result (λ o. IfSome o (λ tick. IsTickRead scenario.now t world.old
        lines.old tick world.new lines.new)) }
    ensures cursor { IfOk result (λ o. IfSome o (λ _. IsCursor scenario.now.events (suc t)
        cursor.new)) }
    ensures stuck { IfOk result (λ o. IfNone o (IsStuck (FollowTicks scenario.now t world.old)
        lines.old lines.new)) }
{
    laws_of_replay(scenario);
    let events = make_events(alloc, scenario, t, world, cursor)?;
    if !read_answers(alloc, t, events.as_slice(), lines)? {
        return Ok(None);
    }
    let Some(steps) = read_nodes(alloc, scenario, t, world, lines)? else {
        return Ok(None);
    };
    Ok(Some(Tick {
        events: Seq::from_vec(events),
        steps: Seq::from_vec(steps),
    }))
}

// Ends tick t: the PDUs of each port are carried, where some were sent, and every clock goes on.
fn end_tick(scenario: &Scenario, t: u64, world: &mut World, tick: &Tick) -> Result<(), NoMemory>
    requires within { t < scenario.now.ticks }
    requires during { IsDuring scenario.now.tree t world.old }
    requires waits { has_send tick.now.steps ≡ false
        → world_after (map WorldEvent.Carry (link_ports scenario.now.tree)) world.old ≡ world.old }
    ensures { OnOk result
        (world.new ≡ world_after (closing_events scenario.now.tree) world.old) }
{
    laws_of_replay(scenario);
    carry_sent(world, tick.steps.as_slice())?;
    world.step(WorldEvent::Clock)?;
    Ok(())
}

/// Reads a text as the journal of a scenario: the run that has it, where a legal one has; else
/// None, when as many lines are read as the first of them have that agree with a legal journal.
pub(crate) fn replay(
    alloc: Global,
    scenario: &Scenario,
    lines: &mut Reader<'_>,
) -> Result<Option<Run>, NoMemory>
    ensures read { IfOk result (λ o. IfSome o (λ run. IsRunRead scenario.now lines.old run
        lines.new)) }
    ensures stuck { IfOk result (λ o. IfNone o (IsStuck
        (FollowTicks scenario.now 0 (world_of scenario.now)) lines.old lines.new)) }
{
    laws_of_replay(scenario);
    a_tick_carries_what_it_has_sent();
    a_noted_run_goes_on();
    let mut world = World::of(alloc, scenario)?;
    let mut history = History::of(alloc, &world)?;
    let mut ticks = Vec::new(alloc);
    let mut cursor = 0;
    for t in 0..scenario.ticks {
        let Some(tick) = read_tick(alloc, scenario, t, &mut world, &mut cursor, lines)? else {
            return Ok(None);
        };
        history = history.note_steps(&world, t, tick.steps.as_slice())?;
        end_tick(scenario, t, &mut world, &tick)?;
        ticks.push(tick)?;
    }
    if !lines.is_at_end() {
        lines.want_nothing();
        return Ok(None);
    }
    Ok(Some(run_of(world, ticks, history)?))
}

// A run, by its parts.
fn run_of(world: World, ticks: Vec<Tick>, history: History) -> Result<Run, NoMemory>
    ensures world { IfOk result (λ run. run.world ≡ world) }
    ensures ticks { IfOk result (λ run. run.journal.ticks ≡ ticks.items) }
    ensures changes { IfOk result (λ run. run.timeline.changes ≡ history.changes) }
{
    let timeline = history.into_timeline()?;
    let journal = Journal {
        ticks: Seq::from_vec(ticks),
    };
    Ok(Run {
        world,
        journal,
        timeline,
    })
}
