//! What is true of the flow of every scenario. Each is a function that does nothing; calling it
//! brings the law to a proof.

ghost use Rattle.std.specs.Prelude.{◌≡◌, ℕ, List, map, All, AllPairs};
ghost use Rattle.std.specs.List.{range_with_len};
ghost use Rattle.srp_base.specs.declared.{numbers.EgressPort.EgressPort, ports.PortChange.PortChange};
ghost use Rattle.frame_flow.specs.declared.result.PortFlow.{PortFlow};
ghost use Rattle.credit_shaper.specs.Port.{IsPortInput};
ghost use Rattle.frame_flow.specs.{Flow.IsFlow, Given.IsEarlier, Given.IsSetting, Laws.KeepsCapsA, Laws.KeepsCaps, Laws.HasCaps};
ghost use Rattle.topology_file.specs.{Frames.frame_copies, Plan.Plan, Scenario.KeepsRules};
ghost use Rattle.scenario_frames.specs.PlanFrames.{plan_frames};
ghost use Rattle.scenario_frames.specs.Setting.{AreBelowRates, setting_of};
ghost use Rattle.scenario_frames.specs.Laws.{HasWindowsOfSlopes, HasWindowsOfCap};

use frame_flow::laws::{
    class_a_windows_stay_within, each_input_is_valid, inputs_keep_the_caps_of_changes,
};

/// A scenario's frames are as many as its copies, and are numbered from 1 in order.
pub fn frames_are_numbered_from_one()
    ensures { (plan : Plan) → KeepsRules plan
        → map (λ f. f.number) (plan_frames plan) ≡ range_with_len 1 (frame_copies plan.frames) }
{}

/// What a scenario asks a flow of is valid, where the changes of a run ascend by port and tick and
/// at each port both slopes together stay below the rate.
pub fn a_scenario_asks_a_valid_flow()
    ensures { (plan : Plan) (changes : List PortChange) → KeepsRules plan
        → AllPairs IsEarlier changes → AreBelowRates plan changes
        → IsSetting (setting_of plan changes) }
{}

/// In a scenario's flow every window at every port stays within class A's bound (IEEE Std
/// 802.1Q-2018, 8.6.8.2): with the hiCredit of the greatest slope that the port had, and with that
/// of its cap, for any caps that the changes keep.
pub fn every_window_stays_within()
    ensures slopes { (plan : Plan) (changes : List PortChange) (flows : List PortFlow)
        → KeepsRules plan → AllPairs IsEarlier changes → AreBelowRates plan changes
        → IsFlow (setting_of plan changes) flows
        → All HasWindowsOfSlopes flows }
    ensures caps { (plan : Plan) (changes : List PortChange) (cap : EgressPort → ℕ)
        (flows : List PortFlow)
        → KeepsRules plan → AllPairs IsEarlier changes → AreBelowRates plan changes
        → KeepsCapsA cap changes → IsFlow (setting_of plan changes) flows
        → All (HasWindowsOfCap cap) flows }
{
    a_scenario_asks_a_valid_flow();
    class_a_windows_stay_within();
    inputs_keep_the_caps_of_changes();
}

/// In a scenario's flow what each port's shaper is given is in order and in its ranges, and keeps
/// whatever caps the changes keep: on class A's slope, and on both together.
pub fn every_input_keeps_its_caps()
    ensures valid { (plan : Plan) (changes : List PortChange) (flows : List PortFlow)
        → KeepsRules plan → AllPairs IsEarlier changes → AreBelowRates plan changes
        → IsFlow (setting_of plan changes) flows → All (λ x. IsPortInput x.input) flows }
    ensures caps { (plan : Plan) (changes : List PortChange) (cap_a cap_ab : EgressPort → ℕ)
        (flows : List PortFlow)
        → KeepsCaps cap_a cap_ab changes → IsFlow (setting_of plan changes) flows
        → All (HasCaps cap_a cap_ab) flows }
{
    a_scenario_asks_a_valid_flow();
    each_input_is_valid();
    inputs_keep_the_caps_of_changes();
}
