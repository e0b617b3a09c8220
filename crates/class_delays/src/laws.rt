//! What the numbers of a class say of a flow. Each is a function that does nothing; calling it
//! brings the law to a proof.

ghost use Rattle.std.specs.Prelude.{◌≡◌, ℕ, true, List, map, All, Contains};
ghost use Rattle.srp_base.specs.declared.numbers.EgressPort.{EgressPort};
ghost use Rattle.tree_topology.specs.Topology.{HasNode, HasPort, IsSound};
ghost use Rattle.frame_flow.specs.declared.{frame.Frame.Frame, result.PortFlow.PortFlow};
ghost use Rattle.frame_flow.specs.{Flow.IsFlow, Given.IsSetting};
ghost use Rattle.delay_bound.specs.declared.stream.ClassStream.{ClassStream};
ghost use Rattle.delay_bound.specs.Waits.{within_of};
ghost use Rattle.delay_flow.specs.{Streams.AreStreams, Places.IsSteady, Rules.KeepRules, Delays.HoldsAt, Ways.way_to, Ways.hop_of, Ways.is_fed};
ghost use Rattle.class_delays.specs.declared.delays.{PortDelays.PortDelays, Unbounded.Unbounded};
ghost use Rattle.class_delays.specs.declared.delays.Unbounded.TheVariants.{NoMemory};
ghost use Rattle.class_delays.specs.Causes.{AreSameAt, HasBounds, IsCoveredAt, IsSteepAt, IsUnbounded};
ghost use Rattle.class_delays.specs.Given.{ClassSetting, class_traffic, with_frames};
ghost use Rattle.class_delays.specs.Table.{numbers_of};

use delay_flow::laws::{each_frame_goes_in_time, what_is_spent_is_within};
use tree_topology::laws::ports;

/// Where the numbers that are found in what is reckoned keep the rules, as `class_delays` ensures,
/// each frame of the class goes by them in every steady run in which the class's streams conform,
/// whatever else is sent.
pub fn frames_go_in_time()
    ensures { (a : ClassSetting) (frames : List Frame) (flows : List PortFlow)
        (ports : List PortDelays) (tick : ℕ) (p : EgressPort)
        → IsSetting (with_frames frames a.setting) → IsSound a.setting.tree
        → IsFlow (with_frames frames a.setting) flows
        → IsSteady (with_frames frames a.setting) (class_traffic a.class) tick
        → AreStreams (with_frames frames a.setting) (class_traffic a.class) a.streams
        → KeepRules a.setting (class_traffic a.class) a.streams (numbers_of a ports)
        → HasPort a.setting.tree p
        → HoldsAt (with_frames frames a.setting) flows (class_traffic a.class) a.streams
        (numbers_of a ports) p }
{
    each_frame_goes_in_time();
}

/// What is spent on a stream's frames up to a port where it is fed is what they take at most on
/// their way there.
pub fn spent_is_within()
    ensures { (a : ClassSetting) (ports : List PortDelays) (x : ClassStream) (p : EgressPort)
        → IsSound a.setting.tree
        → KeepRules a.setting (class_traffic a.class) a.streams (numbers_of a ports)
        → Contains a.streams x → HasNode a.setting.tree x.talker.0 → HasPort a.setting.tree p
        → is_fed a.setting p x ≡ true
        → (numbers_of a ports).spent p x
        ≡ within_of x.least (map (hop_of (numbers_of a ports) x) (way_to a.setting x p)) }
{
    what_is_spent_is_within();
}

/// The rules fix the numbers: by two tables that both keep the rules at all ports each stream has
/// the same numbers at each port where it is fed, and what comes there the same peak.
pub fn the_rules_fix_the_numbers()
    ensures { (a : ClassSetting) (one other : List PortDelays) (p : EgressPort)
        → IsSound a.setting.tree → All (λ x. HasNode a.setting.tree x.talker.0) a.streams
        → KeepRules a.setting (class_traffic a.class) a.streams (numbers_of a one)
        → KeepRules a.setting (class_traffic a.class) a.streams (numbers_of a other)
        → HasPort a.setting.tree p → AreSameAt a (numbers_of a one) (numbers_of a other) p }
{
    ports();
}

/// A class that has bounds has no cause for none but want of memory.
pub fn a_class_with_bounds_has_no_cause()
    ensures { (a : ClassSetting) (e : Unbounded)
        → IsSound a.setting.tree → All (λ x. HasNode a.setting.tree x.talker.0) a.streams
        → HasBounds a → IsUnbounded a e → e ≡ NoMemory }
{
    ports();
}

/// Where a port's slope covers the streams of the class that are fed there, as it does where each
/// was booked with its own, it isn't too small for the groups that they come in: each comes in one.
pub fn covered_slopes_are_not_steep()
    ensures { (a : ClassSetting) (p : EgressPort)
        → IsSound a.setting.tree → HasPort a.setting.tree p → IsCoveredAt a p → IsSteepAt a p → ⊥ }
{
    ports();
}
