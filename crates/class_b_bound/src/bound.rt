//! The bounds of class B by a port's rate and caps.

ghost use Rattle.std.specs.Prelude.{◌≡◌, ◌+◌, ◌≤◌, ◌↔◌, IsTrue};
ghost use Rattle.credit_shaper.specs.Bounds.{KeepCaps};
ghost use Rattle.class_b_bound.specs.Bound.{AreCaps, HasCaps, bound_of, tight_bound_of};

use credit_shaper::{PortInput, SlopeChange};
use srp_base::Rate;

/// How long a class B frame waits with credit, and what class B's credit stays between.
#[derive(Clone, Copy, PartialEq, Eq)]
pub struct BoundB {
    /// The bit times that a class B frame waits at most, at the head of its queue with credit of at
    /// least 0 while no class B frame is on the line.
    pub wait: u64,
    /// hiCredit of class B, in units of 1/rate bit.
    pub hi: u128,
    /// loCredit of class B, in units of 1/rate bit.
    pub lo: i128,
}

/// Class B's bound, by what class A takes in a window (IEEE Std 802.1Q-2018, 8.6.8.2): the wait is
/// that of one frame of 12,336 bits and of all that class A may send in the wait. The caps are in
/// bit/s, the first of class A and the second of both classes; the first isn't above the second,
/// and that is below the rate.
pub fn bound_b(rate: Rate, cap_a: u64, cap_ab: u64) -> BoundB
    requires { AreCaps rate cap_a cap_ab }
    ensures { result ≡ bound_of rate cap_a cap_ab }
{
    let bits = rate.bits();
    let taken = bits * 12_336 + (12_336 * cap_a + 12_336 * bits);
    let wait = taken.div_ceil(bits - cap_a);
    BoundB {
        wait,
        hi: u128::from(cap_ab) * u128::from(wait),
        lo: -i128::from(12_336 * bits),
    }
}

/// The tighter bound, under the same conditions, with the caps in bit/s. Worked cases come within
/// 10 bit times of it, but not where class A has 1 or 2 percent of the rate: at 1 percent the
/// longest wait that is known is 24,671 bit times of 24,796. Class A starts with credit only, so
/// behind another frame it takes no more than its credit at that frame's end gives.
pub fn tight_bound_b(rate: Rate, cap_a: u64, cap_ab: u64) -> BoundB
    requires { AreCaps rate cap_a cap_ab }
    ensures { result ≡ tight_bound_of rate cap_a cap_ab }
{
    let bits = rate.bits();
    let rest = bits - cap_a;
    BoundB {
        wait: 12_336 * (bits + rest) / rest,
        hi: 2 * 12_336 * u128::from(cap_ab),
        lo: -i128::from(12_336 * bits),
    }
}

/// Whether a bound may be asked for: whether class A's cap isn't above the cap of both classes, and
/// that is below the rate.
pub fn are_caps(rate: Rate, cap_a: u64, cap_ab: u64) -> bool
    ensures { IsTrue result ↔ AreCaps rate cap_a cap_ab }
{
    cap_a <= cap_ab && cap_ab < rate.bits()
}

/// Whether the bounds hold of an input: whether it is as `PortInput::is_valid` tests it, these are
/// caps, and no slope of class A is above the first and no two slopes together above the second.
pub fn has_caps(input: &PortInput, cap_a: u64, cap_ab: u64) -> bool
    ensures { IsTrue result ↔ HasCaps input.now cap_a cap_ab }
{
    input.is_valid()
        && are_caps(input.rate, cap_a, cap_ab)
        && keep_caps(input.slopes.as_slice(), cap_a, cap_ab)
}

fn keep_caps(slopes: &[SlopeChange], cap_a: u64, cap_ab: u64) -> bool
    ensures { IsTrue result ↔ KeepCaps cap_a cap_ab slopes.now }
{
    slopes.iter().all(|c| is_within(c, cap_a, cap_ab))
}

fn is_within(change: &SlopeChange, cap_a: u64, cap_ab: u64) -> bool
    ensures { IsTrue result ↔ ((change.now.slope_a ≤ cap_a)
        × (change.now.slope_a + change.now.slope_b ≤ cap_ab)) }
{
    change.slope_a <= cap_a && change.slope_a <= cap_ab && change.slope_b <= cap_ab - change.slope_a
}
