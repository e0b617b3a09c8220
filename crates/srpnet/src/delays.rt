//! The command `delays`: how long frames of each stream wait at each port and take to each
//! Listener, at most, and how long those of a run took.

ghost use Rattle.std.specs.Prelude.{◌≡◌, IfOk, IfErr};
ghost use Rattle.srpnet.specs.DelaysText.{DelaysOutput, IsDelayed};
ghost use Rattle.srpnet.specs.Input.{ending};
ghost use Rattle.srpnet.specs.Outcomes.{EndsAs};
ghost use Rattle.srpnet.specs.ScenarioInput.{scenario_input as scenario_input_spec};

use crate::commands::CommandOutput;
use crate::outcome::Cause;
use crate::run::{output_of, run_of};
use crate::scenario::scenario_input;
use delay_report::delays_text;
use delay_report::laws::what_was_seen_is_within;
use scenario_delays::delay_facts;
use scenario_delays::laws::{frames_go_in_time, talkers_are_nodes};
use srp_report::Printout;
use std::alloc::Global;
use topology_file::Scenario;
use world_core::laws::{canonical_ticks_are_legal, what_is_allowed_may_happen};
use world_core::timeline_laws::slopes_stay_within_limits;

/// What `delays` prints with the journal of its run, or why there is none.
pub fn output(alloc: Global, octets: &[u8]) -> Result<CommandOutput, Cause>
    ensures output { IfOk result (λ o. DelaysOutput octets.now o.journal.ticks o.text) }
    ensures ends { EndsAs (ending (scenario_input_spec octets.now)) result }
    ensures not_done { IfErr result (λ c. c ≡ Cause.Done → ⊥) }
{
    let scenario = scenario_input(alloc, octets)?;
    delayed(alloc, &scenario)
}

// What is known of the delays in a scenario's run.
fn delayed(alloc: Global, scenario: &Scenario) -> Result<CommandOutput, Cause>
    ensures output { IfOk result (λ o. IsDelayed scenario.now o.journal.ticks o.text) }
    ensures memory { IfErr result (λ c. c ≡ Cause.NoMemory) }
{
    canonical_ticks_are_legal();
    what_is_allowed_may_happen();
    slopes_stay_within_limits();
    frames_go_in_time();
    what_was_seen_is_within();
    talkers_are_nodes();
    scenario.keeps_rules();
    let ran = run_of(alloc, scenario)?;
    let facts = delay_facts(alloc, scenario, &ran.run.timeline)?;
    let text = delays_text(alloc, scenario, &ran.run.world, &facts, &ran.flow)?;
    Ok(output_of(ran.run, Printout::of(text)))
}
