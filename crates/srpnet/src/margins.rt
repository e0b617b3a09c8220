//! The command `margins`: what each port of the network at the end of a run has left, and the
//! shapers of its classes.

ghost use Rattle.std.specs.Prelude.{◌≡◌, IfOk, IfErr};
ghost use Rattle.world_core.specs.Ticks.{AreCanonicalTicks};
ghost use Rattle.srpnet.specs.Input.{ending};
ghost use Rattle.srpnet.specs.MarginsText.{margins_alone};
ghost use Rattle.srpnet.specs.Outcomes.{EndsAs};
ghost use Rattle.srpnet.specs.RunText.{RunOutput, IsReported};
ghost use Rattle.srpnet.specs.ScenarioInput.{scenario_input as scenario_input_spec};

use crate::commands::CommandOutput;
use crate::outcome::Cause;
use crate::run::{output_of, run_of};
use crate::scenario::scenario_input;
use port_margins::margins_text;
use srp_report::Printout;
use std::alloc::Global;
use topology_file::Scenario;
use world_core::laws::what_is_allowed_may_happen;

/// What `margins` prints with the journal of its run, or why there is none.
pub fn output(alloc: Global, octets: &[u8]) -> Result<CommandOutput, Cause>
    ensures output { IfOk result
        (λ o. RunOutput AreCanonicalTicks margins_alone octets.now o.journal.ticks o.text) }
    ensures ends { EndsAs (ending (scenario_input_spec octets.now)) result }
    ensures not_done { IfErr result (λ c. c ≡ Cause.Done → ⊥) }
{
    let scenario = scenario_input(alloc, octets)?;
    margined(alloc, &scenario)
}

// What the ports have left at the end of a scenario's run.
fn margined(alloc: Global, scenario: &Scenario) -> Result<CommandOutput, Cause>
    ensures output { IfOk result
        (λ o. IsReported AreCanonicalTicks margins_alone scenario.now o.journal.ticks o.text) }
    ensures memory { IfErr result (λ c. c ≡ Cause.NoMemory) }
{
    what_is_allowed_may_happen();
    let ran = run_of(alloc, scenario)?;
    let text = margins_text(alloc, scenario, &ran.run.world)?;
    Ok(output_of(ran.run, Printout::of(text)))
}
