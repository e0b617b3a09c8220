//! The command `run bounds`: the report of a run, and behind it how long class B waits at each
//! port, at most and at worst.

pub mod text;

ghost use Rattle.std.specs.Prelude.{◌≡◌, IfOk, IfErr};
ghost use Rattle.world_core.specs.Ticks.{AreCanonicalTicks};
ghost use Rattle.srpnet.specs.Input.{ending};
ghost use Rattle.srpnet.specs.Outcomes.{EndsAs};
ghost use Rattle.srpnet.specs.RunText.{RunOutput, IsReported, report_and_bounds};
ghost use Rattle.srpnet.specs.ScenarioInput.{scenario_input as scenario_input_spec};

use crate::commands::CommandOutput;
use crate::outcome::Cause;
use crate::run::{output_of, run_of};
use crate::scenario::scenario_input;
use std::alloc::Global;
use text::run_bounds_text;
use topology_file::Scenario;

/// What `run bounds` prints with its journal, or why there is none.
pub fn output(alloc: Global, octets: &[u8]) -> Result<CommandOutput, Cause>
    ensures output { IfOk result
        (λ o. RunOutput AreCanonicalTicks report_and_bounds octets.now o.journal.ticks o.text) }
    ensures ends { EndsAs (ending (scenario_input_spec octets.now)) result }
    ensures not_done { IfErr result (λ c. c ≡ Cause.Done → ⊥) }
{
    let scenario = scenario_input(alloc, octets)?;
    bounded(alloc, &scenario)
}

// The report, and behind it class B's bounds.
fn bounded(alloc: Global, scenario: &Scenario) -> Result<CommandOutput, Cause>
    ensures output { IfOk result
        (λ o. IsReported AreCanonicalTicks report_and_bounds scenario.now o.journal.ticks o.text) }
    ensures memory { IfErr result (λ c. c ≡ Cause.NoMemory) }
{
    let ran = run_of(alloc, scenario)?;
    let flow = ran.flow;
    let text = run_bounds_text(alloc, scenario, &ran.run, flow)?;
    Ok(output_of(ran.run, text))
}
