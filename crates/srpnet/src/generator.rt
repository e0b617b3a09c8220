//! The command `gen`: the scenario of a number, through its run, to the summary of that run; or the
//! scenario as a file.

ghost use Rattle.std.specs.Prelude.{◌≡◌, IfOk, IfErr};
ghost use Rattle.world_core.specs.Ticks.{AreCanonicalTicks};
ghost use Rattle.srpnet.specs.GeneratedText.{GeneratedOutput, IsGeneratedPlan, summary_alone};
ghost use Rattle.srpnet.specs.Outcomes.{EndsAs};
ghost use Rattle.srpnet.specs.RunText.{IsReported};

use crate::commands::CommandOutput;
use crate::outcome::Cause;
use crate::run::{output_of, run_of};
use plan_text::file_text;
use srp_base::Seq;
use srp_report::{Printout, summary};
use srp_schedule::generate;
use std::alloc::Global;
use topology_file::Scenario;

/// What `gen` prints for a number with the journal of its run, or that memory ran out: every number
/// has a scenario.
pub fn output(alloc: Global, number: u32) -> Result<CommandOutput, Cause>
    ensures output { IfOk result (λ o. GeneratedOutput number o.journal.ticks o.text) }
    ensures ends { EndsAs Cause.Done result }
    ensures not_done { IfErr result (λ c. c ≡ Cause.Done → ⊥) }
{
    let scenario = generate(alloc, number)?;
    summed_up(alloc, &scenario)
}

// The summary of a scenario's run.
fn summed_up(alloc: Global, scenario: &Scenario) -> Result<CommandOutput, Cause>
    ensures output { IfOk result
        (λ o. IsReported AreCanonicalTicks summary_alone scenario.now o.journal.ticks o.text) }
    ensures memory { IfErr result (λ c. c ≡ Cause.NoMemory) }
{
    let ran = run_of(alloc, scenario)?;
    let text = summary(alloc, scenario, &ran.run)?;
    Ok(output_of(ran.run, Printout::of(text)))
}

/// What `gen` prints for a number and `plan`: the scenario as a file.
pub fn plan_output(alloc: Global, number: u32) -> Result<Seq<u8>, Cause>
    ensures output { IfOk result (IsGeneratedPlan number) }
    ensures ends { EndsAs Cause.Done result }
    ensures not_done { IfErr result (λ c. c ≡ Cause.Done → ⊥) }
{
    let drawn = generate(alloc, number)?;
    Ok(Seq::from_vec(file_text(alloc, &drawn)?))
}
