//! The command `check`: what a scenario holds, by its counts.

pub mod text;

ghost use Rattle.std.specs.Prelude.{◌≡◌, IfOk, IfErr};
ghost use Rattle.srpnet.specs.CheckText.{CheckOutput, check_text as check_text_spec};
ghost use Rattle.srpnet.specs.Input.{ending};
ghost use Rattle.srpnet.specs.Outcomes.{EndsAs};
ghost use Rattle.srpnet.specs.ScenarioInput.{scenario_input as scenario_input_spec};

use crate::outcome::Cause;
use crate::scenario::scenario_input;
use srp_base::Seq;
use std::alloc::Global;
use text::check_text;
use topology_file::Scenario;

/// The text of a scenario's counts, or why there is none.
pub fn output(alloc: Global, octets: &[u8]) -> Result<Seq<u8>, Cause>
    ensures output { IfOk result (CheckOutput octets.now) }
    ensures ends { EndsAs (ending (scenario_input_spec octets.now)) result }
    ensures not_done { IfErr result (λ c. c ≡ Cause.Done → ⊥) }
{
    let scenario = scenario_input(alloc, octets)?;
    counted(alloc, &scenario)
}

// The text of a scenario's counts.
fn counted(alloc: Global, scenario: &Scenario) -> Result<Seq<u8>, Cause>
    ensures text { IfOk result (λ text. text ≡ check_text_spec scenario.now) }
    ensures memory { IfErr result (λ c. c ≡ Cause.NoMemory) }
{
    let text = check_text(alloc, scenario)?;
    Ok(Seq::from_vec(text.into_bytes()))
}
