//! What is true of every input that keeps the condition of `PortTrace::run`, or of every input
//! where no such condition stands. Each is a function that does nothing; calling it brings the law
//! to a proof. The classes are A and B, the words the same for both.

ghost use Rattle.std.specs.Prelude.{◌≡◌, ℕ, ◌+◌, ◌*◌, ◌<◌, ◌≤◌, ◌⊎◌, true, List, ℤ, pos, ◌≤ℤ◌};
ghost use Rattle.srp_base.specs.Bandwidth.{bits_of};
ghost use Rattle.credit_shaper.specs.declared.{shaper.Traffic.Traffic, shaper.Traffic.TheVariants.A, shaper.Traffic.TheVariants.B, port.Arrival.Arrival, port.PortInput.PortInput};
ghost use Rattle.credit_shaper.specs.{Port.IsPortInput, Bounds.hi_credit, Bounds.lo_credit, Bounds.IsStretch, Departures.arrivals_before, Steps.is_waiting};
ghost use Rattle.class_b_bound.specs.Bound.{HasCaps, bound_of, tight_bound_of};
ghost use Rattle.class_service.specs.Class.{IsClass, credit_at, IsBusy, IsIdleBefore, bits_in};
ghost use Rattle.class_service.specs.Service.{IsCreditKept, IsServed, IsServedB, TakesNoMore, IsFresh, LosesNone};
ghost use Rattle.class_service.specs.Range.{HasLongest, HasLeastSlope, HaveMostSlopes, HasRoom, high_of, low_of, IsSince};
ghost use Rattle.class_service.specs.Owed.{bits_among, arrivals_from, bits_to_send, HasNoneBefore, HasPlace, HasNotStarted, StartsAt, HasOneSlope, IsWaitOwed, StartsInTime};
ghost use Rattle.class_service.specs.BitTimes.{CreditLaws, LineLaws, OrderLaws};

use class_b_bound::laws::class_b_credit_stays_within;
use credit_shaper::laws::{
    class_a_credit_stays_within, credits_go_on, departures_follow_one_another,
    each_bit_time_is_one_of_three, frames_depart_in_order, nothing_depends_on_what_comes_later,
    slopes_keep_the_caps_of_changes, the_line_goes_on,
};

/// A class that has something to send gets its bandwidth: over bit times in all of which it is busy
/// its credit is what it was, with the area of its idleSlope, less the rate for each bit that it
/// has of the line. So that area is at most the rate times these bits, plus hiCredit minus
/// loCredit: of any two numbers that the credit is between at the two ends; for class A of the
/// least and greatest slope of a stretch that begins with credit 0; for class B of both bounds by a
/// port's caps.
pub fn a_busy_class_gets_its_bandwidth()
    ensures credit { (input : PortInput) (traffic : Traffic) (a b : ℕ) → IsClass traffic → a ≤ b
        → IsBusy input traffic a b → IsCreditKept input traffic a b }
    ensures area { (input : PortInput) (traffic : Traffic) (lo hi : ℤ) (a b : ℕ) → IsClass traffic
        → a ≤ b → IsBusy input traffic a b
        → lo ≤ℤ credit_at input traffic a → credit_at input traffic b ≤ℤ hi
        → IsServed input traffic lo hi a b }
    ensures class_a { (input : PortInput) (least most from to a b : ℕ) → IsPortInput input
        → IsStretch input least most from to → from ≤ a → a ≤ b → b ≤ to → IsBusy input A a b
        → IsServed input A (lo_credit (bits_of input.rate) least) (hi_credit most) a b }
    ensures class_b { (input : PortInput) (cap_a cap_ab a b : ℕ) → HasCaps input cap_a cap_ab
        → a ≤ b → IsBusy input B a b
        → IsServedB input (bound_of input.rate cap_a cap_ab) a b }
    ensures class_b_tight { (input : PortInput) (cap_a cap_ab a b : ℕ) → HasCaps input cap_a cap_ab
        → a ≤ b → IsBusy input B a b
        → IsServedB input (tight_bound_of input.rate cap_a cap_ab) a b }
{
    credit_laws();
    class_a_credit_stays_within();
    class_b_credit_stays_within();
}

/// A class takes no more in a window, busy or not: the rate times the bits that it has of the line
/// is at most the area of its idleSlope, plus hiCredit minus loCredit of any two numbers that the
/// credit is between at the two ends.
pub fn a_class_takes_no_more_in_a_window()
    ensures { (input : PortInput) (traffic : Traffic) (lo hi : ℤ) (a b : ℕ) → IsClass traffic
        → a ≤ b → credit_at input traffic a ≤ℤ hi → lo ≤ℤ credit_at input traffic b
        → TakesNoMore input traffic lo hi a b }
{
    credit_laws();
}

/// From a bit time at which a class's credit is 0 on, it falls no lower than what the longest of
/// its frames takes, at sendSlope with the least slope since.
pub fn credit_falls_no_lower()
    ensures { (input : PortInput) (traffic : Traffic) (least longest from t : ℕ) → IsPortInput input
        → IsClass traffic → HasLongest traffic longest input.arrivals
        → credit_at input traffic from ≡ pos 0
        → HasLeastSlope input traffic least from t → from ≤ t
        → low_of (bits_of input.rate) least longest ≤ℤ credit_at input traffic t }
{
    credit_laws();
    line_laws();
}

/// From a bit time at which a class's credit is 0 on, it rises no higher than what the greatest of
/// its slopes since gives behind other traffic: 12,336 bit times for class A, and for class B as
/// many more as class A can then send for.
pub fn credit_rises_no_higher()
    ensures { (input : PortInput) (traffic : Traffic) (most_a most_b from t : ℕ)
        → IsPortInput input → HasRoom (bits_of input.rate) most_a most_b traffic
        → credit_at input traffic from ≡ pos 0
        → HaveMostSlopes input most_a most_b from t → from ≤ t
        → credit_at input traffic t ≤ℤ high_of (bits_of input.rate) most_a most_b traffic }
{
    credit_laws();
    line_laws();
    class_a_credit_stays_within();
}

/// In a stretch that begins with credit 0 a class takes no more of the line than the area of its
/// slope, and where it is busy no less, but for what its credit rises to and falls to by the frames
/// and slopes of that stretch.
pub fn a_class_is_served_by_its_frames_and_slopes()
    ensures takes { (input : PortInput) (traffic : Traffic)
        (least longest most_a most_b from to a b : ℕ) → IsPortInput input → IsClass traffic
        → IsSince input traffic least longest most_a most_b from to → from ≤ a → a ≤ b → b ≤ to
        → TakesNoMore input traffic
        (low_of (bits_of input.rate) least longest)
        (high_of (bits_of input.rate) most_a most_b traffic)
        a b }
    ensures served { (input : PortInput) (traffic : Traffic)
        (least longest most_a most_b from to a b : ℕ) → IsPortInput input → IsClass traffic
        → IsSince input traffic least longest most_a most_b from to → from ≤ a → a ≤ b → b ≤ to
        → IsBusy input traffic a b
        → IsServed input traffic
        (low_of (bits_of input.rate) least longest)
        (high_of (bits_of input.rate) most_a most_b traffic)
        a b }
{
    a_busy_class_gets_its_bandwidth();
    a_class_takes_no_more_in_a_window();
    credit_falls_no_lower();
    credit_rises_no_higher();
}

/// Bit time 0 is fresh. From a fresh bit time on there is at each later one a fresh bit time
/// between them since which no credit is lost, and none is lost while the class is busy.
pub fn no_credit_is_lost_since()
    ensures first { (input : PortInput) (traffic : Traffic) → IsClass traffic → IsFresh input traffic 0 }
    ensures some { (input : PortInput) (traffic : Traffic) (from t : ℕ) → IsClass traffic
        → IsFresh input traffic from → from ≤ t
        → (s : ℕ) × (from ≤ s) × (s ≤ t) × LosesNone input traffic s t }
    ensures busy { (input : PortInput) (traffic : Traffic) (s t u : ℕ) → IsClass traffic → s ≤ t
        → LosesNone input traffic s t → t ≤ u → IsBusy input traffic t u
        → LosesNone input traffic s u }
{
    credit_laws();
}

/// A class none of whose frames arrives before a bit time is fresh there.
pub fn a_class_without_frames_is_fresh()
    ensures { (input : PortInput) (traffic : Traffic) (from : ℕ) → IsPortInput input
        → IsClass traffic
        → HasNoneBefore traffic from input.arrivals → IsFresh input traffic from }
{
    credit_laws();
    line_laws();
}

/// What arrives of a traffic is carried, or is to send: from a bit time just before which it wasn't
/// busy, what has arrived since is what it has had of the line since and what waits or is left on
/// the line.
pub fn what_arrives_is_carried_or_to_send()
    ensures { (input : PortInput) (traffic : Traffic) (s t : ℕ) → IsPortInput input
        → IsIdleBefore input traffic s → s ≤ t
        → bits_among traffic (arrivals_before input.arrivals t)
        ≡ bits_among traffic (arrivals_before input.arrivals s) + bits_in input traffic s t
        + bits_to_send input traffic t }
{
    line_laws();
}

/// Each frame starts in a bit time before the end, once those of its traffic in front of it have,
/// or hasn't started as the input ends.
pub fn each_frame_starts_or_is_left()
    ensures { (input : PortInput) (front behind : List Arrival) (x : Arrival) → IsPortInput input
        → HasPlace input front x behind
        → ((t : ℕ) × (t < input.end) × StartsAt input front x t)
        ⊎ HasNotStarted input front x input.end }
{
    order_laws();
}

/// The line is had by those in front: a frame that hasn't started waits from its arrival on, and
/// from a bit time just before which its traffic wasn't busy the line has carried no more of it
/// than stands in front of the frame and arrived since.
pub fn the_line_is_had_by_those_in_front()
    ensures waits { (input : PortInput) (front behind : List Arrival) (x : Arrival) (u t : ℕ)
        → IsPortInput input → HasPlace input front x behind → u ≤ input.end
        → HasNotStarted input front x u → x.bit ≤ t → t < u → is_waiting input x.traffic t ≡ true }
    ensures bits { (input : PortInput) (front behind : List Arrival) (x : Arrival) (s u : ℕ)
        → IsPortInput input → HasPlace input front x behind → IsIdleBefore input x.traffic s
        → s ≤ x.bit → x.bit ≤ u → u ≤ input.end → HasNotStarted input front x u
        → bits_in input x.traffic s u ≤ bits_among x.traffic (arrivals_from front s) }
{
    line_laws();
    order_laws();
}

/// A wait is owed to those in front. With one slope of the class, and one of class A, from a bit
/// time on at which the class is fresh, or before which none of its frames arrives: for each of its
/// frames since, up to its start or the end, its slope has given no more than what those in front
/// of it take that arrived since the class was last not busy, and what its credit rises to.
pub fn a_wait_is_owed_to_those_in_front()
    ensures fresh { (input : PortInput) (front behind : List Arrival) (x : Arrival)
        (slope slope_a from u : ℕ)
        → IsPortInput input → HasPlace input front x behind → IsClass x.traffic
        → IsFresh input x.traffic from → from ≤ x.bit
        → HasOneSlope input x.traffic slope slope_a from u
        → x.bit ≤ u → u ≤ input.end → HasNotStarted input front x u
        → IsWaitOwed input front x slope slope_a from u }
    ensures none_before { (input : PortInput) (front behind : List Arrival) (x : Arrival)
        (slope slope_a from u : ℕ)
        → IsPortInput input → HasPlace input front x behind → IsClass x.traffic
        → HasNoneBefore x.traffic from input.arrivals → from ≤ x.bit
        → HasOneSlope input x.traffic slope slope_a from u → x.bit ≤ u → u ≤ input.end
        → HasNotStarted input front x u → IsWaitOwed input front x slope slope_a from u }
{
    credit_laws();
    line_laws();
    order_laws();
    class_a_credit_stays_within();
}

/// Each frame of a class starts in time: where the class is fresh in a bit time and has one slope
/// from then on, as class A has, each of its frames since starts before its wait is longer than
/// what that owes, or is waiting no longer as the input ends.
pub fn each_frame_of_a_class_starts_in_time()
    ensures { (input : PortInput) (front behind : List Arrival) (x : Arrival)
        (slope slope_a from : ℕ)
        → IsPortInput input → HasPlace input front x behind → IsClass x.traffic
        → IsFresh input x.traffic from → from ≤ x.bit
        → HasOneSlope input x.traffic slope slope_a from input.end
        → StartsInTime input front x slope slope_a from }
{
    credit_laws();
    line_laws();
    order_laws();
    class_a_credit_stays_within();
}

/// Each class's credit is 0 at first, and goes on by its step.
fn credit_laws()
    ensures { CreditLaws }
{
    credits_go_on();
}

/// What is known of the line in each bit time.
fn line_laws()
    ensures { LineLaws }
{
    each_bit_time_is_one_of_three();
    the_line_goes_on();
    slopes_keep_the_caps_of_changes();
}

/// What is known of the frames that depart.
fn order_laws()
    ensures { OrderLaws }
{
    frames_depart_in_order();
    departures_follow_one_another();
    nothing_depends_on_what_comes_later();
}
