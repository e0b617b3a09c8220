//! The run of a scenario, tick by tick.

ghost use Rattle.std.specs.Prelude.{◌≡◌, ◌<◌, List, IfOk, OnOk};
ghost use Rattle.world_core.specs.{Ticks.AreCanonicalTicks, World.CanHappen, World.world_step, During.IsDuring, Carrying.NothingWaits, Cursor.IsCursor, Timeline.AreChanges, Timeline.IsTimelineOf};
ghost use Rattle.srp_schedule.specs.Rest.{AreRests};
ghost use Rattle.srp_schedule.specs.Tick.{DuringLaws, IsTickMade};
ghost use Rattle.srp_schedule.specs.Watch.{ends_of, having_seen};

use crate::rest::{Rest, forget_if, nothing_known};
use crate::steps::make_steps;
use crate::watch::{Nobody, RunWatcher};
use node_core::laws::a_node_at_rest_stays_so;
use srp_base::{NoMemory, Seq};
use std::alloc::Global;
use topology_file::Scenario;
use world_core::laws::{a_tick_carries_what_it_has_sent, ticks_go_on, what_is_allowed_may_happen};
use world_core::timeline_laws::{
    a_timeline_goes_on, noting_who_has_acted_notes_a_tick,
    only_a_node_that_acts_changes_what_is_in_force, what_ends_a_tick_changes_nothing_in_force,
    what_is_noted_is_in_force,
};
use world_core::{History, Journal, Run, Tick, World, WorldEvent, carry_sent, make_events};

/// Runs a scenario to its end: in each tick its events, each node's steps in the canonical order
/// (all Works, then all Dues, then all Settles, then all Sends, ports ascending in each), the
/// carrying of each port's PDUs, and the clock. Answers the network at the end, the journal of all
/// ticks, and the timeline of what was in force at each port after each tick's steps.
pub fn plain_run(alloc: Global, scenario: &Scenario) -> Result<Run, NoMemory>
    ensures ticks { IfOk result (λ run. AreCanonicalTicks scenario.now run.journal.ticks
        run.world) }
    ensures timeline { IfOk result
        (λ run. IsTimelineOf scenario.now run.journal.ticks run.timeline.changes) }
{
    let mut nobody = Nobody;
    watched_run(alloc, scenario, &mut nobody)
}

/// Runs a scenario as `plain_run` does, and shows the network at the end of each tick to one who
/// watches.
pub fn watched_run<W: RunWatcher>(
    alloc: Global,
    scenario: &Scenario,
    watcher: &mut W,
) -> Result<Run, NoMemory>
    ensures ticks { IfOk result (λ run. AreCanonicalTicks scenario.now run.journal.ticks
        run.world) }
    ensures timeline { IfOk result
        (λ run. IsTimelineOf scenario.now run.journal.ticks run.timeline.changes) }
    ensures watched { IfOk result (λ run. watcher.new
        ≡ having_seen W.after watcher.old (ends_of scenario.now run.journal.ticks)) }
{
    what_is_allowed_may_happen();
    a_tick_carries_what_it_has_sent();
    ticks_go_on();
    a_timeline_goes_on();
    what_ends_a_tick_changes_nothing_in_force();
    what_is_noted_is_in_force();
    only_a_node_that_acts_changes_what_is_in_force();
    noting_who_has_acted_notes_a_tick();
    scenario.keeps_rules();
    let mut world = World::of(alloc, scenario)?;
    let mut history = History::of(alloc, &world)?;
    let mut ticks = Vec::new(alloc);
    let mut rests = nothing_known(alloc, &world)?;
    let mut cursor = 0;
    for t in 0..scenario.ticks {
        let (tick, noted) = make_tick(
            alloc,
            scenario,
            t,
            &mut world,
            &mut cursor,
            &mut rests,
            history,
        )?;
        history = noted;
        watcher.see(t, &world)?;
        ticks.push(tick)?;
    }
    let timeline = history.into_timeline()?;
    let journal = Journal {
        ticks: Seq::from_vec(ticks),
    };
    Ok(Run {
        world,
        journal,
        timeline,
    })
}

// Runs tick t, whose first event stands at the cursor, if it has one, and notes it behind the ticks
// before.
fn make_tick(
    alloc: Global,
    scenario: &Scenario,
    t: u64,
    world: &mut World,
    cursor: &mut usize,
    rests: &mut Vec<Rest>,
    history: History,
) -> Result<(Tick, History), NoMemory>
    requires within { t < scenario.now.ticks }
    requires during { IsDuring scenario.now.tree t world.old }
    requires cursor { IsCursor scenario.now.events t cursor.old }
    requires waits { NothingWaits world.old }
    requires rests { AreRests world.old rests.old.items }
    requires tree { history.tree ≡ scenario.now.tree }
    requires changes { AreChanges scenario.now.tree t history.changes }
    ensures made { IfOk result
        (λ made. IsTickMade scenario.now t world.old world.new cursor.new history made) }
    ensures rests { OnOk result (AreRests world.new rests.new.items) }
{
    laws_of_a_tick();
    a_tick_carries_what_it_has_sent();
    scenario.keeps_rules();
    let events = make_events(alloc, scenario, t, world, cursor)?;
    forget_if(!events.is_empty(), Rest::Awake, rests);
    let steps = make_steps(alloc, world, rests)?;
    let noted = history.note_steps(world, t, steps.as_slice())?;
    let has_carried = carry_sent(world, steps.as_slice())?;
    // Of a node with a link nothing is known here in any case: it has sent.
    forget_if(has_carried, Rest::Unknown, rests);
    let_clocks_go_on(world)?;
    let tick = Tick {
        events: Seq::from_vec(events),
        steps: Seq::from_vec(steps),
    };
    Ok((tick, noted))
}

// Lets the clock of every node go on. What is known of nodes that rest stays so.
fn let_clocks_go_on(world: &mut World) -> Result<(), NoMemory>
    requires { CanHappen WorldEvent.Clock world.old }
    ensures after { OnOk result (world.new ≡ (world_step WorldEvent.Clock world.old).0) }
    ensures rests { OnOk result ((rests : List Rest) → AreRests world.old rests
        → AreRests world.new rests) }
{
    a_node_at_rest_stays_so();
    world.keeps();
    world.step(WorldEvent::Clock)?;
    Ok(())
}

// What happens in a tick leaves it as it is until the clock goes on. It does nothing.
fn laws_of_a_tick()
    ensures { DuringLaws }
{
    what_is_allowed_may_happen();
}
