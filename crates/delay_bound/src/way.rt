//! How long frames of a class wait at a port, and take from port to port.

ghost use Rattle.std.specs.Prelude.{◌≡◌, ◌<◌};
ghost use Rattle.srp_base.specs.Bandwidth.{bits_of};
ghost use Rattle.delay_bound.specs.Waits.{idle_of, wait_of, late_behind, taken_at, within_of, in_u128};

use srp_base::{Class, Rate};

/// A port on a frame's way.
#[derive(Clone, Copy, PartialEq, Eq)]
pub struct Hop {
    /// Its rate.
    pub rate: Rate,
    /// The most bit times that a frame of the stream waits there.
    pub wait: u128,
}

/// The bit times in which a class that has frames to send may gain credit before it gets the line,
/// where class A has this slope at the port, in bit/s.
pub fn idle(class: Class, rate: Rate, slope_a: u64) -> u64
    requires { slope_a < bits_of rate }
    ensures { result ≡ idle_of class rate slope_a }
{
    match class {
        Class::A => 12_336,
        Class::B => {
            let rest = rate.bits() - slope_a;
            (12_336 * (rate.bits() + rest)).div_ceil(rest)
        }
    }
}

/// The most bit times that a frame waits at a port from its arrival to its start, where its class
/// has a slope in bit/s and may be idle for so many bit times with frames to send, what comes there
/// has a peak in bits × 10^12, and the frame has at least so many bits.
pub fn wait(rate: Rate, slope: u64, idle: u64, peak: u128, least: u64) -> u128
    requires { 0 < slope }
    ensures { result ≡ wait_of (bits_of rate) slope idle peak least }
{
    let bits = peak / u128::from(rate.bit_ps());
    let own = u128::from(rate.bits()) * u128::from(least);
    u128::from(idle) + bits.saturating_sub(own) / u128::from(slope)
}

/// How many ps two frames of a stream may have moved towards each other on their way to a port: by
/// how many they may at the port before it, by a frame's most bit times of waiting there, and by a
/// bit time of each. None exactly where it is 2^128 or more.
pub fn late(late: u128, wait: u128, behind: Rate, here: Rate) -> Option<u128>
    ensures { result ≡ in_u128 (late_behind late wait behind here) }
{
    let waited = wait.checked_mul(u128::from(behind.bit_ps()))?;
    late.checked_add(waited)?
        .checked_add(u128::from(here.bit_ps()))
}

/// The most ps that a stream's frame takes from its moment to the bit time after its last bit at
/// the last of some ports, where the least frame of the stream has so many bits. None exactly where
/// it is 2^128 or more.
pub fn within(least: u64, hops: &[Hop]) -> Option<u128>
    ensures { result ≡ in_u128 (within_of least hops.now) }
{
    let mut sum = 0u128;
    for hop in hops {
        sum = sum.checked_add(hop.taken(least)?)?;
    }
    Some(sum)
}

impl Hop {
    /// The most ps that a frame takes here; None exactly where it is 2^128 or more.
    fn taken(&self, least: u64) -> Option<u128>
        ensures { result ≡ in_u128 (taken_at least self.now) }
    {
        let bit = u128::from(self.rate.bit_ps());
        let bits = self.wait.checked_add(u128::from(least))?;
        bits.checked_mul(bit)?.checked_add(bit)
    }
}
