//! The text of a run's journal.

ghost use Rattle.std.specs.Prelude.{◌≡◌, ◌++◌, flat_map, IfOk, OnOk};
ghost use Rattle.journal_lines.specs.Lines.{line_at};
ghost use Rattle.srp_report.specs.JournalText.{answer_line, step_lines, tick_lines, ticks_lines, journal_text as journal_text_spec};

use journal_lines::{put_event, put_step};
use node_core::NodeStep;
use report_words::put;
use srp_base::{NoMemory, NodeNo};
use std::alloc::Global;
use topology_file::Scenario;
use world_core::{Journal, NodeSteps, Tick, WorldReply};

/// The journal of a run of a scenario, in octets: after a first line `journal`, for each tick its
/// scripted events, each with its entry's number and `done` or `missed`, and then its steps in the
/// journal's order, each with its port and its answer.
pub fn journal_text(
    alloc: Global,
    scenario: &Scenario,
    journal: &Journal,
) -> Result<Vec<u8>, NoMemory>
    ensures { IfOk result (λ text. text.items ≡ journal_text_spec scenario.now journal.now.ticks) }
{
    let mut out = Vec::new(alloc);
    put(&mut out, "journal\n")?;
    put_ticks(&mut out, scenario, journal.ticks.as_slice())?;
    Ok(out)
}

// The lines of all ticks.
fn put_ticks(out: &mut Vec<u8>, scenario: &Scenario, ticks: &[Tick]) -> Result<(), NoMemory>
    ensures { OnOk result (out.new.items
        ≡ out.old.items ++ ticks_lines scenario.now 0 ticks.now) }
{
    for i in 0..ticks.len() {
        put_tick(out, scenario, i as u64, &ticks[i])?;
    }
    Ok(())
}

// The lines of a tick.
fn put_tick(out: &mut Vec<u8>, scenario: &Scenario, t: u64, tick: &Tick) -> Result<(), NoMemory>
    ensures { OnOk result (out.new.items ≡ out.old.items ++ tick_lines scenario.now t tick.now) }
{
    put_events(out, t, tick.events.as_slice())?;
    put_nodes(out, scenario, t, tick.steps.as_slice())
}

// The lines of a tick's events.
fn put_events(out: &mut Vec<u8>, t: u64, events: &[(u32, WorldReply)]) -> Result<(), NoMemory>
    ensures { OnOk result (out.new.items
        ≡ out.old.items ++ flat_map (answer_line t) events.now) }
{
    for event in events {
        put_answer(out, t, *event)?;
    }
    Ok(())
}

// The line of an event with its answer.
fn put_answer(out: &mut Vec<u8>, t: u64, event: (u32, WorldReply)) -> Result<(), NoMemory>
    ensures { OnOk result (out.new.items ≡ out.old.items ++ answer_line t event) }
{
    let (entry, reply) = event;
    let missed = matches!(reply, WorldReply::Missed);
    put_event(out, t, entry, missed)
}

// The lines of the steps of a tick.
fn put_nodes(
    out: &mut Vec<u8>,
    scenario: &Scenario,
    t: u64,
    nodes: &[NodeSteps],
) -> Result<(), NoMemory>
    ensures { OnOk result (out.new.items
        ≡ out.old.items ++ flat_map (step_lines scenario.now t) nodes.now) }
{
    for made in nodes {
        put_steps(out, scenario, t, made.node, made.steps.as_slice())?;
    }
    Ok(())
}

// The lines of a node's steps in a tick.
fn put_steps(
    out: &mut Vec<u8>,
    scenario: &Scenario,
    t: u64,
    node: NodeNo,
    steps: &[NodeStep],
) -> Result<(), NoMemory>
    ensures { OnOk result (out.new.items
        ≡ out.old.items ++ flat_map (line_at scenario.now t node) steps.now) }
{
    for step in steps {
        put_step(out, scenario, t, node, step)?;
    }
    Ok(())
}
