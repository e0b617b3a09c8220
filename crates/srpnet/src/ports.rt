//! The commands `ports` and `ports journal`: a network through the ticks of a scenario with a
//! thread for each port that has something to do, and of that run what `run` and `run journal`
//! print of theirs.

ghost use Rattle.std.specs.Prelude.{◌≡◌, IfOk, IfErr};
ghost use Rattle.world_core.specs.Ticks.{AreLegalTicks};
ghost use Rattle.srpnet.specs.Input.{ending};
ghost use Rattle.srpnet.specs.Outcomes.{EndsAs};
ghost use Rattle.srpnet.specs.RunText.{RunOutput, IsReported, IsRun, HoldsThroughout, report_alone, report_and_journal};
ghost use Rattle.srpnet.specs.ScenarioInput.{scenario_input as scenario_input_spec};

use crate::commands::CommandOutput;
use crate::outcome::Cause;
use crate::run::text::{run_journal_text, run_text};
use crate::run::{RunWithFlow, output_of, with_flow};
use crate::scenario::scenario_input;
use bridge_book::NoGate;
use port_worker::run_ports;
use srp_base::NoMemory;
use std::alloc::Global;
use std::sync::Wait;
use std::thread::Threads;
use topology_file::Scenario;

/// What `ports` prints with its journal, or why there is none.
pub fn output<R: Threads + Wait + Sync>(
    rt: &R,
    alloc: Global,
    octets: &[u8],
) -> Result<CommandOutput, Cause>
    ensures output { IfOk result
        (λ o. RunOutput AreLegalTicks report_alone octets.now o.journal.ticks o.text) }
    ensures ends { EndsAs (ending (scenario_input_spec octets.now)) result }
    ensures not_done { IfErr result (λ c. c ≡ Cause.Done → ⊥) }
{
    let scenario = scenario_input(alloc, octets)?;
    reported(rt, alloc, &scenario)
}

/// What `ports journal` prints with its journal, or why there is none.
pub fn output_with_journal<R: Threads + Wait + Sync>(
    rt: &R,
    alloc: Global,
    octets: &[u8],
) -> Result<CommandOutput, Cause>
    ensures output { IfOk result
        (λ o. RunOutput AreLegalTicks report_and_journal octets.now o.journal.ticks o.text) }
    ensures ends { EndsAs (ending (scenario_input_spec octets.now)) result }
    ensures not_done { IfErr result (λ c. c ≡ Cause.Done → ⊥) }
{
    let scenario = scenario_input(alloc, octets)?;
    reported_with_journal(rt, alloc, &scenario)
}

// Runs a scenario with its port threads, and its frames through the shapers by what was in force.
fn run_of<R: Threads + Wait + Sync>(
    rt: &R,
    alloc: Global,
    scenario: &Scenario,
) -> Result<RunWithFlow, NoMemory>
    ensures run { IfOk result (λ r. IsRun AreLegalTicks scenario.now r.run.journal.ticks
        r.run.world r.run.timeline.changes r.flow.ports) }
    ensures holds { IfOk result
        (λ r. HoldsThroughout scenario.now r.run.journal.ticks r.flow.ports) }
{
    let run = run_ports(rt, alloc, scenario, &NoGate)?;
    with_flow(alloc, scenario, run)
}

// The report of a scenario's run with port threads.
fn reported<R: Threads + Wait + Sync>(
    rt: &R,
    alloc: Global,
    scenario: &Scenario,
) -> Result<CommandOutput, Cause>
    ensures output { IfOk result
        (λ o. IsReported AreLegalTicks report_alone scenario.now o.journal.ticks o.text) }
    ensures memory { IfErr result (λ c. c ≡ Cause.NoMemory) }
{
    let ran = run_of(rt, alloc, scenario)?;
    let flow = ran.flow;
    let text = run_text(alloc, scenario, &ran.run, flow)?;
    Ok(output_of(ran.run, text))
}

// The report, and behind it the journal's text.
fn reported_with_journal<R: Threads + Wait + Sync>(
    rt: &R,
    alloc: Global,
    scenario: &Scenario,
) -> Result<CommandOutput, Cause>
    ensures output { IfOk result
        (λ o. IsReported AreLegalTicks report_and_journal scenario.now o.journal.ticks o.text) }
    ensures memory { IfErr result (λ c. c ≡ Cause.NoMemory) }
{
    let ran = run_of(rt, alloc, scenario)?;
    let flow = ran.flow;
    let text = run_journal_text(alloc, scenario, &ran.run, flow)?;
    Ok(output_of(ran.run, text))
}
