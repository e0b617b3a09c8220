//! The printed text of a run.

ghost use Rattle.std.specs.Prelude.{◌≡◌, IfOk};
ghost use Rattle.srpnet.specs.RunText.{report_alone, report_and_journal};

use frame_flow::FlowResult;
use srp_base::NoMemory;
use srp_report::{Printout, journal_text};
use std::alloc::Global;
use topology_file::Scenario;
use world_core::Run;

/// The report of a run.
pub fn run_text(
    alloc: Global,
    scenario: &Scenario,
    run: &Run,
    flow: FlowResult,
) -> Result<Printout, NoMemory>
    ensures { IfOk result (λ text. text
        ≡ report_alone scenario.now run.now.journal.ticks run.now.world flow.ports) }
{
    Printout::of_run(alloc, scenario, run, flow)
}

/// The report of a run, and behind it what happened.
pub fn run_journal_text(
    alloc: Global,
    scenario: &Scenario,
    run: &Run,
    flow: FlowResult,
) -> Result<Printout, NoMemory>
    ensures { IfOk result (λ text. text
        ≡ report_and_journal scenario.now run.now.journal.ticks run.now.world flow.ports) }
{
    let journal = journal_text(alloc, scenario, &run.journal)?;
    let mut text = Printout::of_run(alloc, scenario, run, flow)?;
    text.add(journal.as_slice())?;
    Ok(text)
}
