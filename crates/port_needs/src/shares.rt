//! What suffices for what is wished at a port.

ghost use Rattle.std.specs.Prelude.{◌≡◌};
ghost use Rattle.stream_importance.specs.Bandwidth.{caps_of};
ghost use Rattle.port_needs.specs.Shares.{is_enough as is_enough_spec, least_rate as least_rate_spec, share_for as share_for_spec, shares_for as shares_for_spec, slope_of_a as slope_of_a_spec, slope_in_a as slope_in_a_spec, slope_of_all as slope_of_all_spec};

use srp_base::{Class, Percent, Rate};
use stream_importance::{Caps, Want};

/// Shares of a link's rate, in percent (IEEE Std 802.1Q-2018, 34.3).
#[derive(Clone, Copy)]
pub struct Shares {
    /// That of class A.
    pub delta_a: u128,
    /// That of class B.
    pub delta_b: u128,
}

// The slope of a want of class A, and 0 for another.
fn slope_in_a(want: &Want) -> u64
    ensures { result ≡ slope_in_a_spec want.now }
{
    match want.class {
        Class::A => want.slope,
        Class::B => 0,
    }
}

/// The slopes of wants together, in bit/s.
pub(crate) fn slope_of_all(wants: &[Want]) -> u128
    ensures { result ≡ slope_of_all_spec wants.now }
{
    wants.iter().map(|want| u128::from(want.slope)).sum()
}

/// Those of class A.
pub(crate) fn slope_of_a(wants: &[Want]) -> u128
    ensures { result ≡ slope_of_a_spec wants.now }
{
    wants.iter().map(|want| u128::from(slope_in_a(want))).sum()
}

/// Whether caps are large enough for class A with these slopes, and both classes with those.
pub(crate) fn is_enough(caps: Caps, class_a: u128, both: u128) -> bool
    ensures { result ≡ is_enough_spec caps class_a both }
{
    class_a <= u128::from(caps.class_a) && both <= u128::from(caps.both)
}

// The least share of a rate, in percent, that comes to so many bit/s.
fn share_for(rate: Rate, slope: u128) -> u128
    ensures { result ≡ share_for_spec rate slope }
{
    slope.div_ceil(u128::from(rate.bits() / 100))
}

/// The least shares of both classes that suffice at a rate; None where they pass the 90 percent
/// that a file may give away.
pub(crate) fn shares_for(rate: Rate, class_a: u128, both: u128) -> Option<Shares>
    ensures { result ≡ shares_for_spec rate class_a both }
{
    let all = share_for(rate, both);
    if all <= 90 {
        let delta_a = share_for(rate, class_a);
        Some(Shares {
            delta_a,
            delta_b: all.saturating_sub(delta_a),
        })
    } else {
        None
    }
}

// Whether these shares of a rate suffice.
fn is_enough_of(rate: Rate, delta_a: Percent, delta_b: Percent, class_a: u128, both: u128) -> bool
    ensures { result ≡ is_enough_spec (caps_of rate delta_a delta_b) class_a both }
{
    is_enough(Caps::new(rate, delta_a, delta_b), class_a, both)
}

/// The least rate of which these shares suffice.
pub(crate) fn least_rate(
    delta_a: Percent,
    delta_b: Percent,
    class_a: u128,
    both: u128,
) -> Option<Rate>
    ensures { result ≡ least_rate_spec delta_a delta_b class_a both }
{
    if is_enough_of(Rate::M100, delta_a, delta_b, class_a, both) {
        Some(Rate::M100)
    } else if is_enough_of(Rate::G1, delta_a, delta_b, class_a, both) {
        Some(Rate::G1)
    } else if is_enough_of(Rate::G10, delta_a, delta_b, class_a, both) {
        Some(Rate::G10)
    } else {
        None
    }
}
