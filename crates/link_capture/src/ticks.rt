//! The ticks of a run, made again.

ghost use Rattle.std.specs.Prelude.{◌≡◌, ◌<◌, ◌++◌, suc, map, false, IfOk, OnOk};
ghost use Rattle.tree_topology.specs.Topology.{HasPort, link_ports};
ghost use Rattle.world_core.specs.{World.CanAllHappen, World.CanHappen, World.world_after, Ticks.step_events, Ticks.after_steps, Ticks.tick_events, Ticks.closing_events, Ticks.IsLegalTick, During.IsDuring, Cursor.IsCursor, Carrying.NothingWaits, Carrying.has_send};
ghost use Rattle.link_capture.specs.Crossings.{crossed_at};
ghost use Rattle.link_capture.specs.Captured.{records_of};

use crate::ends::put_crossings;
use crate::laws::laws_of_ticks;
use node_core::NodeStep;
use srp_base::{EgressPort, NoMemory, NodeNo};
use std::alloc::Global;
use topology_file::Scenario;
use world_core::{NodeSteps, Tick, World, WorldEvent, carry_sent, make_events};

/// Puts down the steps of a node as events of the network.
fn put_steps(events: &mut Vec<WorldEvent>, node: NodeNo, steps: &[NodeStep]) -> Result<(), NoMemory>
    ensures { OnOk result (events.new.items ≡ events.old.items
        ++ map (λ st. WorldEvent.Port node st.port st.step) steps.now) }
{
    for st in steps {
        events.push(WorldEvent::Port(node, st.port, st.step))?;
    }
    Ok(())
}

/// The steps of a tick as events of the network.
fn step_events(alloc: Global, steps: &[NodeSteps]) -> Result<Vec<WorldEvent>, NoMemory>
    ensures { IfOk result (λ events. events.items ≡ step_events steps.now) }
{
    let mut events = Vec::new(alloc);
    for made in steps {
        put_steps(&mut events, made.node, made.steps.as_slice())?;
    }
    Ok(events)
}

/// Makes the steps of a tick.
fn make_steps(alloc: Global, world: &mut World, steps: &[NodeSteps]) -> Result<(), NoMemory>
    requires { CanAllHappen (step_events steps.now) world.old }
    ensures { OnOk result (world.new ≡ world_after (step_events steps.now) world.old) }
{
    let events = step_events(alloc, steps)?;
    match world.run(alloc, events.as_slice()) {
        Ok(_) => Ok(()),
        Err(_) => Err(NoMemory),
    }
}

/// Ends a tick: the PDUs of each port are carried, where some were sent, and every clock goes on.
fn end_tick(world: &mut World, steps: &[NodeSteps]) -> Result<(), NoMemory>
    requires waits { has_send steps.now ≡ false
        → world_after (map WorldEvent.Carry (link_ports world.old.tree)) world.old ≡ world.old }
    requires clock { CanHappen WorldEvent.Clock
        (world_after (map WorldEvent.Carry (link_ports world.old.tree)) world.old) }
    ensures { OnOk result
        (world.new ≡ world_after (closing_events world.old.tree) world.old) }
{
    carry_sent(world, steps)?;
    world.step(WorldEvent::Clock)?;
    Ok(())
}

/// Makes tick t of a journal again, and writes the records of what crosses in it between two ports.
pub(crate) fn put_tick(
    out: &mut Vec<u8>,
    scenario: &Scenario,
    t: u64,
    tick: &Tick,
    ends: (EgressPort, EgressPort),
    world: World,
    cursor: &mut usize,
) -> Result<World, NoMemory>
    requires within { t < scenario.now.ticks }
    requires a { HasPort scenario.now.tree ends.0 }
    requires b { HasPort scenario.now.tree ends.1 }
    requires legal { IsLegalTick scenario.now t world tick.now }
    requires during { IsDuring scenario.now.tree t world }
    requires waits { NothingWaits world }
    requires cursor { IsCursor scenario.now.events t cursor.old }
    ensures after { IfOk result (λ w. w
        ≡ world_after (tick_events scenario.now t tick.now) world) }
    ensures put { OnOk result (out.new.items ≡ out.old.items
        ++ records_of (crossed_at t ends (after_steps scenario.now t tick.now world))) }
    ensures cursor { OnOk result (IsCursor scenario.now.events (suc t) cursor.new) }
{
    laws_of_ticks(scenario);
    let alloc = *out.allocator();
    let mut stepped = world;
    make_events(alloc, scenario, t, &mut stepped, cursor)?;
    make_steps(alloc, &mut stepped, tick.steps.as_slice())?;
    let mut carried = put_crossings(out, t, ends, stepped)?;
    end_tick(&mut carried, tick.steps.as_slice())?;
    Ok(carried)
}
