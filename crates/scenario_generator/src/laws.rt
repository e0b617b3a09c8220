//! The laws of what is drawn.

ghost use Rattle.std.specs.Prelude.{◌≡◌, ℕ};
ghost use Rattle.topology_file.specs.{Plan.Plan, Scenario.KeepsRules};
ghost use Rattle.scenario_generator.specs.Generated.{IsDrawn};

/// The scenario of every number keeps the rules of a scenario's file.
pub fn drawn_scenarios_keep_the_rules()
    ensures { (number : ℕ) (p : Plan) → IsDrawn number p → KeepsRules p }
{
    tree_topology::laws::one_component();
}

/// A number has one scenario alone: `IsDrawn` leaves nothing open, the order of the events
/// included.
pub fn one_scenario()
    ensures { (number : ℕ) (p q : Plan) → IsDrawn number p → IsDrawn number q → p ≡ q }
{}
