//! What is true of every run, over the definitions that the contract of `PortTrace::run` cites.
//! Each is a function that does nothing; calling it brings the law to a proof.

ghost use Rattle.std.specs.Prelude.{◌≡◌, ℕ, suc, ◌+◌, ◌-◌, ◌*◌, ◌<◌, ◌≤◌, ◌⊎◌, true, Some, pos, List, map, filter, All, AllPairs};
ghost use Rattle.std.specs.List.{list_any};
ghost use Rattle.credit_shaper.specs.declared.shaper.Traffic.{Traffic};
ghost use Rattle.credit_shaper.specs.declared.port.Arrival.{Arrival};
ghost use Rattle.credit_shaper.specs.declared.port.PortInput.{PortInput};
ghost use Rattle.credit_shaper.specs.Port.{IsPortInput, IsNotAfter, is_of, arrivals_at};
ghost use Rattle.credit_shaper.specs.Trace.{port_at, departures_of};
ghost use Rattle.srp_base.specs.Bandwidth.{bits_of};
ghost use Rattle.credit_shaper.specs.declared.shaper.Traffic.TheVariants.{A, B};
ghost use Rattle.credit_shaper.specs.Credit.{credit_after};
ghost use Rattle.credit_shaper.specs.Bounds.{credit_a_at, credit_b_at, slope_a_at, slope_b_at, is_on_line, greatest_slope_a, IsStretch, IsCreditAWithin, IsWindowAWithin, DoesWaitA, IsWaitAWithin, KeepCaps, AreSlopesWithin};
ghost use Rattle.credit_shaper.specs.Steps.{head_at, is_waiting, was_on_line, bits_left, bits_ahead, Starts, IsOneOfThree, WaitsWithCreditA};
ghost use Rattle.credit_shaper.specs.Departures.{sent_of, DepartsAt, left_of, departs_as, DepartInOrder, is_sending, AgreeBefore, arrivals_before, started_before};

/// What leaves a port is what its trace has sent by the end, and the frames that wait then are
/// left.
pub fn what_leaves_is_sent_or_left()
    ensures sent { (input : PortInput) → (departures_of input).sent ≡ sent_of input }
    ensures left { (input : PortInput)
        → (departures_of input).left ≡ map (λ x. x.frame) (left_of input) }
{}

/// Of each traffic, the frames depart in order of arrival, each at most once and with its own bits,
/// and those that are left follow. So each frame departs once or is left.
pub fn frames_depart_in_order()
    ensures { (input : PortInput) (traffic : Traffic) → IsPortInput input
        → DepartInOrder (filter (is_of traffic) input.arrivals)
        (filter (departs_as traffic) (sent_of input))
        (filter (is_of traffic) (left_of input)) }
{}

/// The frames that are left are in order of arrival.
pub fn left_frames_are_in_order()
    ensures { (input : PortInput) → IsPortInput input → AllPairs IsNotAfter (left_of input) }
{}

/// One frame has left the line before the next starts, each takes the bits of a frame, and each
/// starts before the end.
pub fn departures_follow_one_another()
    ensures apart { (input : PortInput) → IsPortInput input
        → AllPairs (λ d e. d.end ≤ e.start) (sent_of input) }
    ensures sized { (input : PortInput) → IsPortInput input
        → All (λ d. (d.start + 336 ≤ d.end) × (d.end ≤ d.start + 12336)) (sent_of input) }
    ensures in_time { (input : PortInput) → All (λ d. d.start < input.end) (sent_of input) }
{}

/// In each bit time of the run the line sends a traffic exactly where a departure of it has the
/// line.
pub fn the_line_carries_the_departures()
    ensures { (input : PortInput) (traffic : Traffic) (t : ℕ) → IsPortInput input → t < input.end
        → is_on_line input traffic t ≡ list_any (is_sending traffic t) (sent_of input) }
{}

/// What comes at a bit time or later changes nothing before it: neither the port as the bit time
/// begins, nor the departures that start before it, whichever the ends. Inputs agree on what
/// arrives before a bit time where the arrivals before it are one list.
pub fn nothing_depends_on_what_comes_later()
    ensures arrivals { (xs ys : List Arrival) (t k : ℕ)
        → arrivals_before xs t ≡ arrivals_before ys t → k < t
        → arrivals_at xs k ≡ arrivals_at ys k }
    ensures port { (one other : PortInput) (t : ℕ) → AgreeBefore t one other
        → port_at one t ≡ port_at other t }
    ensures departures { (one other : PortInput) (t : ℕ) → AgreeBefore t one other
        → t ≤ one.end → t ≤ other.end
        → started_before t (sent_of one) ≡ started_before t (sent_of other) }
{}

/// In each bit time the frame on the line goes on; or a frame starts on the free line, of class A
/// or B with the credit of its own class not negative and each class before it short; or the line
/// rests, and no frame waits but those of classes that are short (IEEE Std 802.1Q-2018, 8.6.8).
pub fn each_bit_time_is_one_of_three()
    ensures { (input : PortInput) (t : ℕ) → IsPortInput input → IsOneOfThree input t }
{}

/// What the line does in a bit time is what it did before the next, with one bit less to go. At
/// first the line is free, and as a bit time begins no frame has more than 12,335 bits left.
pub fn the_line_goes_on()
    ensures first { (input : PortInput) → bits_left input 0 ≡ 0 }
    ensures line { (input : PortInput) (traffic : Traffic) (t : ℕ)
        → was_on_line input traffic (suc t) ≡ is_on_line input traffic t }
    ensures left { (input : PortInput) (t : ℕ) → bits_left input (suc t) ≡ bits_ahead input t - 1 }
    ensures most { (input : PortInput) (t : ℕ) → IsPortInput input → bits_left input t ≤ 12335 }
{}

/// Each class's credit is 0 at first, and goes on by the slope in force, by whether a frame of the
/// class is on the line, and by whether one waits (IEEE Std 802.1Q-2018, 8.6.8.2).
pub fn credits_go_on()
    ensures first_a { (input : PortInput) → credit_a_at input 0 ≡ pos 0 }
    ensures first_b { (input : PortInput) → credit_b_at input 0 ≡ pos 0 }
    ensures class_a { (input : PortInput) (t : ℕ)
        → credit_a_at input (suc t)
        ≡ credit_after (bits_of input.rate) (slope_a_at input t) (is_on_line input A t)
        (is_waiting input A t)
        (credit_a_at input t) }
    ensures class_b { (input : PortInput) (t : ℕ)
        → credit_b_at input (suc t)
        ≡ credit_after (bits_of input.rate) (slope_b_at input t) (is_on_line input B t)
        (is_waiting input B t)
        (credit_b_at input t) }
{}

/// What waits in a bit time waits in the next too, unless a frame of its traffic starts then.
pub fn what_waits_goes_on_waiting()
    ensures { (input : PortInput) (traffic : Traffic) (t : ℕ) → IsPortInput input
        → is_waiting input traffic t ≡ true
        → Starts input traffic (suc t) ⊎ (is_waiting input traffic (suc t) ≡ true) }
{}

/// The frame that heads a queue in a bit time heads it in the next too, unless a frame of its
/// traffic starts then; and that is the one which starts.
pub fn the_first_of_a_queue_stays_until_it_starts()
    ensures stays { (input : PortInput) (traffic : Traffic) (x : Arrival) (t : ℕ) → IsPortInput input
        → head_at input traffic t ≡ Some x
        → Starts input traffic (suc t) ⊎ (head_at input traffic (suc t) ≡ Some x) }
    ensures starts { (input : PortInput) (traffic : Traffic) (x : Arrival) (t : ℕ)
        → head_at input traffic t ≡ Some x → Starts input traffic (suc t) → suc t < input.end
        → DepartsAt input x (suc t) }
{}

/// What all slope changes of an input keep, its slopes keep in each bit time: class A's slope its
/// cap, and both together theirs. Each slope is below the rate.
pub fn slopes_keep_the_caps_of_changes()
    ensures caps { (input : PortInput) (cap_a cap_ab t : ℕ) → KeepCaps cap_a cap_ab input.slopes
        → AreSlopesWithin input cap_a cap_ab t }
    ensures below { (input : PortInput) (t : ℕ) → IsPortInput input
        → (slope_a_at input t < bits_of input.rate) × (slope_b_at input t < bits_of input.rate) }
{}

/// From a bit time at which class A's credit is 0 on, it stays between loCredit and hiCredit for
/// any two numbers that its slope stays between. At bit time 0 it is 0; 0 and the greatest slope
/// give the bounds of a whole run, and a slope that doesn't change gives those of 8.6.8.2.
pub fn class_a_credit_stays_within()
    ensures { (input : PortInput) (least most from to t : ℕ) → IsPortInput input
        → IsStretch input least most from to → from ≤ t → t ≤ to
        → IsCreditAWithin input least most t }
{}

/// Over a window in such a stretch, what class A has of the line is at most the area of its
/// idleSlope plus hiCredit minus loCredit.
pub fn class_a_windows_stay_within()
    ensures { (input : PortInput) (least most from to a b : ℕ) → IsPortInput input
        → IsStretch input least most from to → from ≤ a → a ≤ b → b ≤ to
        → IsWindowAWithin input least most a b }
{}

/// In every run class A's credit is 0 at first, so the bounds that the greatest slope gives hold of
/// each bit time and of each window.
pub fn class_a_stays_within_in_every_run()
    ensures credit { (input : PortInput) (t : ℕ) → IsPortInput input
        → IsCreditAWithin input 0 (greatest_slope_a input.slopes) t }
    ensures window { (input : PortInput) (a b : ℕ) → IsPortInput input → a ≤ b
        → IsWindowAWithin input 0 (greatest_slope_a input.slopes) a b }
{}

/// While frames of class A wait and none is on the line, the area of idleSlope is at most hiCredit
/// minus loCredit. With one slope all along, the first frame of the queue waits at most 12,336
/// times the rate over the slope, from when no frame of its class is on the line.
pub fn class_a_waits_stay_within()
    ensures { (input : PortInput) (least most from to a b : ℕ) → IsPortInput input
        → IsStretch input least most from to → from ≤ a → a ≤ b → b ≤ to
        → IsWaitAWithin input least most a b }
{}

/// How long a frame of class A waits at the head of its queue while none of its class is on the
/// line: with credit for one frame of other traffic at most, of which a bit has gone before; and in
/// all, in a stretch whose slope is at least this, for at most 12,336 times the most and the rate
/// less the least, over the least. With one slope that is 12,336 times the rate over the slope.
pub fn class_a_frames_wait_at_most()
    ensures with_credit { (input : PortInput) (from bits : ℕ) → IsPortInput input
        → WaitsWithCreditA input from bits → bits ≤ 12335 }
    ensures in_all { (input : PortInput) (least most from to a b : ℕ) → IsPortInput input
        → IsStretch input least most from to → from ≤ a → a ≤ b → b ≤ to → DoesWaitA input a b
        → least * (b - a) + 12336 * least ≤ 12336 * most + 12336 * bits_of input.rate }
{}
