//! From octets to a scenario, for the commands that read one, or a plan that stands for one.

ghost use Rattle.std.specs.Prelude.{◌≡◌, IfErr};
ghost use Rattle.toml.specs.View.{table_view};
ghost use Rattle.toml_rules.specs.Rules.{Reads};
ghost use Rattle.srpnet.specs.Input.{GivesInput};
ghost use Rattle.srpnet.specs.PlanInput.{any_scenario_input as any_scenario_input_spec, any_scenario_of};
ghost use Rattle.srpnet.specs.ScenarioInput.{scenario_input as scenario_input_spec};

use crate::document::table_of;
use crate::outcome::Cause;
use plan_file::{is_plan, plan_scenario};
use std::alloc::Global;
use toml::Table;
use toml_rules::RuleErr;
use topology_file::{Scenario, read_scenario};

/// The scenario of the octets, or the cause of its refusal.
pub fn scenario_input(alloc: Global, octets: &[u8]) -> Result<Scenario, Cause>
    ensures scenario { GivesInput (λ s. s) result (scenario_input_spec octets.now) }
    ensures not_done { IfErr result (λ c. c ≡ Cause.Done → ⊥) }
{
    let table = table_of(alloc, octets)?;
    Ok(read_scenario(alloc, &table)?)
}

/// The scenario of the octets, or that which their plan stands for, or the cause of their refusal.
pub fn any_scenario_input(alloc: Global, octets: &[u8]) -> Result<Scenario, Cause>
    ensures scenario { GivesInput (λ s. s) result (any_scenario_input_spec octets.now) }
    ensures not_done { IfErr result (λ c. c ≡ Cause.Done → ⊥) }
{
    let table = table_of(alloc, octets)?;
    Ok(any_scenario(alloc, &table)?)
}

// The scenario of a table, or that which its plan stands for.
fn any_scenario(alloc: Global, table: &Table) -> Result<Scenario, RuleErr>
    ensures { Reads (λ s. s) result (any_scenario_of (table_view table.now)) }
{
    if is_plan(table) {
        plan_scenario(alloc, table)
    } else {
        read_scenario(alloc, table)
    }
}
