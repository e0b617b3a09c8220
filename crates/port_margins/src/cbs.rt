//! The credit-based shaper of a class, in the units of tc-cbs(8).

ghost use Rattle.std.specs.Prelude.{◌≡◌, ◌≤◌};
ghost use Rattle.srp_base.specs.Bandwidth.{bits_of};
ghost use Rattle.port_margins.specs.Cbs.{kbit_of as kbit_of_spec, idle_slope as idle_slope_spec, credit_of as credit_of_spec, cbs_of as cbs_of_spec};

use srp_base::Rate;

/// The credit-based shaper of a class at a port (IEEE Std 802.1Q-2018, 8.6.8.2). tc-cbs(8) takes
/// sendSlope and loCredit with a minus; here they are their amounts.
#[derive(Clone, Copy, PartialEq, Eq)]
pub struct Cbs {
    /// idleSlope in kbit/s.
    pub idle_slope: u64,
    /// The amount of sendSlope in kbit/s.
    pub send_slope: u64,
    /// hiCredit in octets.
    pub hi_credit: u128,
    /// The amount of loCredit in octets.
    pub lo_credit: u128,
}

/// The bits of the longest frame, with preamble, header, tag, check sequence and gap.
pub(crate) const FRAME_BITS: u64 = 12_336;

// A rate in kbit/s.
fn kbit_of(rate: Rate) -> u64
    ensures { result ≡ kbit_of_spec rate }
{
    rate.bits() / 1_000
}

// What a credit comes to, in octets, that grows by a slope in kbit/s for so many bit times of a
// port.
fn credit_of(rate: Rate, slope: u64, bits: u64) -> u128
    ensures { result ≡ credit_of_spec rate slope bits }
{
    let octet_times = match rate {
        Rate::M100 => 800_000,
        Rate::G1 => 8_000_000,
        Rate::G10 => 80_000_000,
    };
    (u128::from(slope) * u128::from(bits)).div_ceil(octet_times)
}

/// The shaper of a class that has booked so many bit/s and waits for the line so many bit times at
/// most.
pub(crate) fn cbs_of(rate: Rate, wait: u64, slope: u64) -> Cbs
    ensures { result ≡ cbs_of_spec rate wait slope }
{
    let idle_slope = slope.div_ceil(1_000);
    let send_slope = kbit_of(rate).saturating_sub(idle_slope);
    Cbs {
        idle_slope,
        send_slope,
        hi_credit: credit_of(rate, idle_slope, wait),
        lo_credit: credit_of(rate, send_slope, FRAME_BITS),
    }
}
