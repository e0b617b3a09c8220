//! Laws of plans. Each is a function that does nothing and whose clauses are the law.

ghost use Rattle.std.specs.Prelude.{◌≡◌, Ok};
ghost use Rattle.toml.specs.Data.{Members};
ghost use Rattle.topology_file.specs.Scenario.{KeepsRules, scenario_of};
ghost use Rattle.plan_file.specs.Plan.{NetworkPlan};
ghost use Rattle.plan_file.specs.Rules.{KeepsPlanRules, plan_of};
ghost use Rattle.plan_file.specs.Scenario.{scenario_for};
ghost use Rattle.plan_file.specs.Tables.{expanded};

use topology_file::read_scenarios_keep_the_rules;
use tree_topology::laws;

/// Every plan that a table is read as keeps the rules of its file, in plain words.
pub fn read_plans_keep_the_rules()
    ensures { (ms : Members) (p : NetworkPlan) → plan_of ms ≡ Ok p → KeepsPlanRules p }
{
    laws::refusals();
}

/// The table that a plan stands for reads as a scenario with exactly its nodes, links, streams and
/// events, which keeps the rules of a scenario's file.
pub fn plans_stand_for_scenarios()
    ensures reads { (p : NetworkPlan) → KeepsPlanRules p → scenario_of (expanded p) ≡ Ok (scenario_for p) }
    ensures kept { (p : NetworkPlan) → KeepsPlanRules p → KeepsRules (scenario_for p) }
{
    laws::refusals();
    read_scenarios_keep_the_rules();
}
