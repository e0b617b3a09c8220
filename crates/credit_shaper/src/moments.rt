//! The moments at which something is given to a port: an arrival or a slope change.

ghost use Rattle.std.specs.Prelude.{◌≡◌, ℕ, ◌+◌, ◌<◌, ◌≤◌, length, take, AllPairs};
ghost use Rattle.std.specs.List.{AllWithin};
ghost use Rattle.credit_shaper.specs.Port.{IsNotAfter, no_slopes};
ghost use Rattle.credit_shaper.specs.Walk.{IsReached, arrival_bit, change_bit, newest};

use crate::port::{Arrival, SlopeChange};

/// How many arrivals there are up to a bit time, of which `came` are before it.
pub(crate) fn arrived_by(arrivals: &[Arrival], came: usize, bit: u64) -> usize
    requires order { AllPairs IsNotAfter arrivals.now }
    requires before { IsReached arrival_bit bit came arrivals.now }
    ensures { IsReached arrival_bit (bit + 1) result arrivals.now }
{
    for i in came..arrivals.len() {
        if arrivals[i].bit > bit {
            return i;
        }
    }
    arrivals.len()
}

/// How many slope changes there are up to a bit time, of which `changed` are before it.
pub(crate) fn changed_by(changes: &[SlopeChange], changed: usize, bit: u64) -> usize
    requires order { AllPairs (λ x y. x.bit < y.bit) changes.now }
    requires before { IsReached change_bit bit changed changes.now }
    ensures { IsReached change_bit (bit + 1) result changes.now }
{
    for i in changed..changes.len() {
        if changes[i].bit > bit {
            return i;
        }
    }
    changes.len()
}

/// The bit time of the next arrival, or the end where that is earlier.
pub(crate) fn next_arrival(arrivals: &[Arrival], came: usize, end: u64) -> u64
    requires { AllPairs IsNotAfter arrivals.now }
    ensures within { result ≤ end }
    ensures before { AllWithin (λ x. result ≤ x.bit) arrivals.now came (length arrivals.now) }
    ensures later { (t : ℕ) → t ≤ end
        → AllWithin (λ x. t ≤ x.bit) arrivals.now came (length arrivals.now) → t ≤ result }
{
    match arrivals.get(came) {
        Some(x) => x.bit.min(end),
        None => end,
    }
}

/// The bit time of the next slope change, or the end where that is earlier.
pub(crate) fn next_change(changes: &[SlopeChange], changed: usize, end: u64) -> u64
    requires { AllPairs (λ x y. x.bit < y.bit) changes.now }
    ensures within { result ≤ end }
    ensures before { AllWithin (λ x. result ≤ x.bit) changes.now changed (length changes.now) }
    ensures later { (t : ℕ) → t ≤ end
        → AllWithin (λ x. t ≤ x.bit) changes.now changed (length changes.now) → t ≤ result }
{
    match changes.get(changed) {
        Some(x) => x.bit.min(end),
        None => end,
    }
}

/// The slopes in force after some of the changes.
pub(crate) fn newest(changes: &[SlopeChange], changed: usize) -> SlopeChange
    requires { changed ≤ length changes.now }
    ensures { result ≡ newest no_slopes (take changed changes.now) }
{
    if changed == 0 {
        SlopeChange {
            bit: 0,
            slope_a: 0,
            slope_b: 0,
        }
    } else {
        changes[changed - 1]
    }
}
