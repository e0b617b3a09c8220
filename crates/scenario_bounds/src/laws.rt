//! What is true of the classes in every scenario's flow. Each is a function that does nothing;
//! calling it brings the law to a proof.

ghost use Rattle.std.specs.Prelude.{ℕ, List, All, AllPairs};
ghost use Rattle.srp_base.specs.declared.{numbers.EgressPort.EgressPort, ports.PortChange.PortChange};
ghost use Rattle.class_b_bound.specs.Bound.{AreCaps};
ghost use Rattle.frame_flow.specs.declared.result.PortFlow.{PortFlow};
ghost use Rattle.frame_flow.specs.{Flow.IsFlow, Given.IsEarlier, Laws.KeepsCaps};
ghost use Rattle.topology_file.specs.{Plan.Plan, Scenario.KeepsRules};
ghost use Rattle.scenario_frames.specs.Setting.{AreBelowRates, setting_of};
ghost use Rattle.scenario_bounds.specs.Caps.{caps_at};
ghost use Rattle.scenario_bounds.specs.PortBounds.{IsWithinBoundB};
ghost use Rattle.scenario_bounds.specs.PortService.{GetsBandwidth};

use class_b_bound::laws::{
    an_input_has_one_worst_wait, class_b_waits_stay_within, class_b_windows_stay_within,
    the_longest_wait_is_that_of_a_frame,
};
use class_service::laws::a_busy_class_gets_its_bandwidth;
use credit_shaper::laws::{credits_go_on, slopes_keep_the_caps_of_changes};
use scenario_frames::laws::every_input_keeps_its_caps;

/// The caps of each port of a scenario's flow are below its rate, and class A's isn't above that of
/// both classes.
pub fn caps_are_below_the_rates()
    ensures { (plan : Plan) (changes : List PortChange) (flows : List PortFlow) → KeepsRules plan
        → IsFlow (setting_of plan changes) flows
        → All (λ x. AreCaps x.input.rate (caps_at plan x.at).class_a (caps_at plan x.at).both)
        flows }
{}

/// In a scenario's flow class B stays within its bound at every port, where the changes of the run
/// ascend by port and tick, keep each port's slopes below its rate, and keep its caps.
pub fn class_b_stays_within_at_every_port()
    ensures { (plan : Plan) (changes : List PortChange) (flows : List PortFlow) → KeepsRules plan
        → AllPairs IsEarlier changes → AreBelowRates plan changes
        → KeepsCaps (λ p. (caps_at plan p).class_a) (λ p. (caps_at plan p).both) changes
        → IsFlow (setting_of plan changes) flows → All (IsWithinBoundB plan) flows }
{
    caps_are_below_the_rates();
    every_input_keeps_its_caps();
    class_b_windows_stay_within();
    class_b_waits_stay_within();
    an_input_has_one_worst_wait();
    the_longest_wait_is_that_of_a_frame();
}

/// In a scenario's flow each class that has something to send gets its bandwidth at every port,
/// where the changes of the run ascend by port and tick, keep each port's slopes below its rate,
/// and keep its caps: the area of its idleSlope over bit times in all of which it is busy is at
/// most what its frames take of them, plus hiCredit minus loCredit.
pub fn each_class_gets_its_bandwidth_at_every_port()
    ensures { (plan : Plan) (changes : List PortChange) (flows : List PortFlow) → KeepsRules plan
        → AllPairs IsEarlier changes → AreBelowRates plan changes
        → KeepsCaps (λ p. (caps_at plan p).class_a) (λ p. (caps_at plan p).both) changes
        → IsFlow (setting_of plan changes) flows → All (GetsBandwidth plan) flows }
{
    caps_are_below_the_rates();
    every_input_keeps_its_caps();
    credits_go_on();
    slopes_keep_the_caps_of_changes();
    a_busy_class_gets_its_bandwidth();
}
