//! What is true of every input whose slopes keep their caps. Each is a function that does nothing;
//! calling it brings the law to a proof.

ghost use Rattle.std.specs.Prelude.{◌≡◌, ℕ, suc, ◌+◌, ◌-◌, ◌*◌, ◌<◌, ◌≤◌, true, false, pos, ◌≤ℤ◌};
ghost use Rattle.srp_base.specs.declared.bandwidth.Rate.{Rate};
ghost use Rattle.srp_base.specs.Bandwidth.{bits_of};
ghost use Rattle.credit_shaper.specs.declared.{shaper.Traffic.TheVariants.B, port.PortInput.PortInput};
ghost use Rattle.credit_shaper.specs.{Port.IsPortInput, Bounds.credit_b_at, Steps.Starts};
ghost use Rattle.class_b_bound.specs.BitTimes.{BitLaws};
ghost use Rattle.class_b_bound.specs.Bound.{AreCaps, HasCaps, bound_of, tight_bound_of, IsCreditBWithin};
ghost use Rattle.class_b_bound.specs.Waits.{is_kept_waiting, HasWait, IsLongestWait, IsWorstWait, worst_wait_of};
ghost use Rattle.class_b_bound.specs.Window.{IsWindowBWithin};

use credit_shaper::laws::{
    credits_go_on, departures_follow_one_another, each_bit_time_is_one_of_three,
    slopes_keep_the_caps_of_changes, the_first_of_a_queue_stays_until_it_starts, the_line_goes_on,
    what_waits_goes_on_waiting,
};

/// Class B's credit stays between loCredit and hiCredit at every bit time: of the bound, and of the
/// tight one, whose hiCredit is 2 x 12,336 times the cap of both classes.
pub fn class_b_credit_stays_within()
    ensures bound { (input : PortInput) (cap_a cap_ab t : ℕ) → HasCaps input cap_a cap_ab
        → IsCreditBWithin input (bound_of input.rate cap_a cap_ab) t }
    ensures tight { (input : PortInput) (cap_a cap_ab t : ℕ) → HasCaps input cap_a cap_ab
        → IsCreditBWithin input (tight_bound_of input.rate cap_a cap_ab) t }
    ensures high { (input : PortInput) (cap_a cap_ab t : ℕ) → HasCaps input cap_a cap_ab
        → credit_b_at input t ≤ℤ pos (2 * 12336 * cap_ab) }
{
    bit_laws();
}

/// No wait of class B is longer than either bound's: a wait, times what class A's cap leaves of the
/// rate, is at most 12,336 times twice the rate less that cap.
pub fn class_b_waits_stay_within()
    ensures bound { (input : PortInput) (cap_a cap_ab bits : ℕ) → HasCaps input cap_a cap_ab
        → HasWait input bits → bits ≤ (bound_of input.rate cap_a cap_ab).wait }
    ensures tight { (input : PortInput) (cap_a cap_ab bits : ℕ) → HasCaps input cap_a cap_ab
        → HasWait input bits → bits ≤ (tight_bound_of input.rate cap_a cap_ab).wait }
    ensures product { (input : PortInput) (cap_a cap_ab bits : ℕ) → HasCaps input cap_a cap_ab
        → HasWait input bits
        → (bits_of input.rate - cap_a) * bits ≤ 12336 * (2 * bits_of input.rate - cap_a) }
{
    bit_laws();
}

/// Over each window what class B has of the line is at most the area of its idleSlope plus hiCredit
/// minus loCredit, of the bound and of the tight one.
pub fn class_b_windows_stay_within()
    ensures bound { (input : PortInput) (cap_a cap_ab a b : ℕ) → HasCaps input cap_a cap_ab → a ≤ b
        → IsWindowBWithin input (bound_of input.rate cap_a cap_ab) a b }
    ensures tight { (input : PortInput) (cap_a cap_ab a b : ℕ) → HasCaps input cap_a cap_ab → a ≤ b
        → IsWindowBWithin input (tight_bound_of input.rate cap_a cap_ab) a b }
{
    class_b_credit_stays_within();
    credits_go_on();
}

/// A bit time in which class B is kept waiting is followed by another, or by the start of a class B
/// frame. So a wait goes on up to the frame's start or the end.
pub fn a_wait_ends_with_a_start()
    ensures { (input : PortInput) (t : ℕ) → IsPortInput input → is_kept_waiting input t ≡ true
        → is_kept_waiting input (suc t) ≡ false → Starts input B (suc t) }
{
    bit_laws();
    what_waits_goes_on_waiting();
}

/// An input has one longest wait: it is the most bit times in a row, up to any up to the end, in
/// which class B was kept waiting.
pub fn an_input_has_one_worst_wait()
    ensures some { (input : PortInput) → IsWorstWait input (worst_wait_of input) }
    ensures one { (input : PortInput) (one other : ℕ) → IsWorstWait input one
        → IsWorstWait input other → one ≡ other }
{}

/// The longest wait of an input is that of one frame: no frame of class B waits longer, from the
/// first bit time in which it heads its queue with credit of at least 0 while none of its class is
/// on the line, up to its start or the end of the input; and unless it is 0 some frame waits as
/// long.
pub fn the_longest_wait_is_that_of_a_frame()
    ensures { (input : PortInput) → IsPortInput input → IsLongestWait input (worst_wait_of input) }
{
    an_input_has_one_worst_wait();
    a_wait_ends_with_a_start();
    departures_follow_one_another();
    the_first_of_a_queue_stays_until_it_starts();
}

/// The tight bound is nowhere above the other.
pub fn the_tight_bound_is_no_greater()
    ensures wait { (rate : Rate) (cap_a cap_ab : ℕ) → AreCaps rate cap_a cap_ab
        → (tight_bound_of rate cap_a cap_ab).wait ≤ (bound_of rate cap_a cap_ab).wait }
    ensures hi { (rate : Rate) (cap_a cap_ab : ℕ) → AreCaps rate cap_a cap_ab
        → (tight_bound_of rate cap_a cap_ab).hi ≤ (bound_of rate cap_a cap_ab).hi }
{}

/// What is known of each bit time.
fn bit_laws()
    ensures { BitLaws }
{
    each_bit_time_is_one_of_three();
    the_line_goes_on();
    credits_go_on();
    slopes_keep_the_caps_of_changes();
}
