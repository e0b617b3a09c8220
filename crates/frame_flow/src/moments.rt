//! Ticks, moments and the bit times of a port. A tick is 10 ms.

ghost use Rattle.std.specs.Prelude.{◌≡◌, ◌^◌, ◌<◌, ◌≤◌};
ghost use Rattle.frame_flow.specs.Moments.{tick_bits_of, bits_of_ticks, tick_at, bit_from, moment_of};

use srp_base::Rate;

/// The bit times of a tick.
pub(crate) fn tick_bits(rate: Rate) -> u64
    ensures { result ≡ tick_bits_of rate }
{
    match rate {
        Rate::M100 => 1_000_000,
        Rate::G1 => 10_000_000,
        Rate::G10 => 100_000_000,
    }
}

/// The bit times of so many ticks, at most 12,000.
pub(crate) fn bits_of_ticks(rate: Rate, ticks: u64) -> u64
    requires { ticks ≤ 12000 }
    ensures value { result ≡ bits_of_ticks rate ticks }
    ensures few { result ≤ 2 ^ 41 }
{
    ticks * tick_bits(rate)
}

/// The tick in which a bit time begins.
pub(crate) fn tick_at(rate: Rate, bit: u64) -> u64
    ensures value { result ≡ tick_at rate bit }
    ensures few { result < 2 ^ 60 }
{
    match rate {
        Rate::M100 => bit / 1_000_000,
        Rate::G1 => bit / 10_000_000,
        Rate::G10 => bit / 100_000_000,
    }
}

/// The first bit time that begins at a moment in ps or after it.
pub(crate) fn bit_from(rate: Rate, moment: u128) -> u128
    requires { moment ≤ 2 ^ 80 }
    ensures { result ≡ bit_from rate moment }
{
    if moment < 1 << 63 {
        u128::from(near_bit_from(rate, moment as u64))
    } else {
        far_bit_from(rate, moment)
    }
}

/// The same of a moment within 106 days, in numbers of 64 bits, since it is asked of every copy.
fn near_bit_from(rate: Rate, moment: u64) -> u64
    requires { moment < 2 ^ 63 }
    ensures { result ≡ bit_from rate moment }
{
    match rate {
        Rate::M100 => (moment + 9_999) / 10_000,
        Rate::G1 => (moment + 999) / 1_000,
        Rate::G10 => (moment + 99) / 100,
    }
}

/// The same of any moment.
fn far_bit_from(rate: Rate, moment: u128) -> u128
    requires { moment ≤ 2 ^ 80 }
    ensures { result ≡ bit_from rate moment }
{
    let bit_ps = u128::from(rate.bit_ps());
    (moment + (bit_ps - 1)) / bit_ps
}

/// The moment at which a bit time begins, in ps.
pub(crate) fn moment_of(rate: Rate, bit: u64) -> u128
    ensures value { result ≡ moment_of rate bit }
    ensures within { result ≤ 2 ^ 80 }
{
    u128::from(bit) * u128::from(rate.bit_ps())
}
