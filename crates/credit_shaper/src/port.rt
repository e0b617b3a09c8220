//! What a port's shaper is given, and what leaves the port.

ghost use Rattle.std.specs.Prelude.{◌≡◌, ◌^◌, ◌<◌, ◌↔◌, IsTrue, All, AllPairs};
ghost use Rattle.credit_shaper.specs.Port.{BeginsAtZero, IsNotAfter, IsFrameSize, AreSlopes, AreArrivals};
ghost use Rattle.credit_shaper.specs.Trace.{departure_at};

use crate::shaper::Traffic;
use srp_base::{Rate, Seq};

/// The idleSlopes of both classes from a bit time on.
#[derive(Clone, Copy, PartialEq, Eq)]
pub struct SlopeChange {
    /// The first bit time in which they are in force.
    pub bit: u64,
    /// idleSlope of class A, in bit/s.
    pub slope_a: u64,
    /// idleSlope of class B, in bit/s.
    pub slope_b: u64,
}

/// A frame that reaches the port.
#[derive(Clone, Copy, PartialEq, Eq)]
pub struct Arrival {
    /// The bit time in which it joins its queue.
    pub bit: u64,
    /// Its traffic.
    pub traffic: Traffic,
    /// Its length on the line in bits, with preamble and gap: 336 to 12,336.
    pub bits: u32,
    /// Its number.
    pub frame: u32,
}

/// All that a port's shaper is given over a run.
#[derive(Clone, PartialEq, Eq, Drop)]
pub struct PortInput {
    /// The port's rate, which makes a bit time.
    pub rate: Rate,
    /// The slopes, ascending strictly by bit time, the first from bit time 0 on; each is below the
    /// rate.
    pub slopes: Seq<SlopeChange>,
    /// The frames, ascending by bit time and then by number, all before the end.
    pub arrivals: Seq<Arrival>,
    /// The number of bit times of the run, at most 2^41.
    pub end: u64,
}

/// A frame that the port sends.
#[derive(Clone, Copy, PartialEq, Eq)]
pub struct Departure {
    /// Its number.
    pub frame: u32,
    /// Its traffic.
    pub traffic: Traffic,
    /// The bit time of its first bit.
    pub start: u64,
    /// The bit time after its last bit.
    pub end: u64,
}

/// What becomes of a port's frames.
#[derive(Clone, PartialEq, Eq, Drop)]
pub struct Departures {
    /// Those that start before the run's end, in order of their starts.
    pub sent: Seq<Departure>,
    /// The numbers of those that don't, in order of arrival.
    pub left: Seq<u32>,
}

impl Arrival {
    /// The frame's departure, where its first bit goes in this bit time.
    pub(crate) fn departure_at(&self, bit: u64) -> Departure
        requires { bit < 2 ^ 41 }
        ensures { result ≡ departure_at bit self.now }
    {
        Departure {
            frame: self.frame,
            traffic: self.traffic,
            start: bit,
            end: bit + u64::from(self.bits),
        }
    }
}

impl PortInput {
    ghost use Rattle.credit_shaper.specs.Port.{IsPortInput};

    /// Whether a run may be asked for: whether the slopes and the arrivals are in order and in
    /// their ranges.
    pub fn is_valid(&self) -> bool
        ensures { IsTrue result ↔ IsPortInput self.now }
    {
        are_slopes(self.rate, self.slopes.as_slice())
            && are_arrivals(self.end, self.arrivals.as_slice())
            && self.end <= 1 << 41
    }
}

fn are_slopes(rate: Rate, slopes: &[SlopeChange]) -> bool
    ensures { IsTrue result ↔ AreSlopes rate slopes.now }
{
    begin_at_zero(slopes) && do_changes_ascend(slopes) && are_below(rate.bits(), slopes)
}

fn are_arrivals(end: u64, arrivals: &[Arrival]) -> bool
    ensures { IsTrue result ↔ AreArrivals end arrivals.now }
{
    do_arrivals_ascend(arrivals) && are_in_time(end, arrivals) && are_frames(arrivals)
}

fn begin_at_zero(slopes: &[SlopeChange]) -> bool
    ensures { IsTrue result ↔ BeginsAtZero slopes.now }
{
    match slopes {
        [first, ..] => first.bit == 0,
        [] => false,
    }
}

fn do_changes_ascend(slopes: &[SlopeChange]) -> bool
    ensures { IsTrue result ↔ AllPairs (λ x y. x.bit < y.bit) slopes.now }
{
    for i in 1..slopes.len() {
        if slopes[i].bit <= slopes[i - 1].bit {
            return false;
        }
    }
    true
}

fn are_below(bits: u64, slopes: &[SlopeChange]) -> bool
    ensures { IsTrue result ↔ All (λ c. (c.slope_a < bits) × (c.slope_b < bits)) slopes.now }
{
    slopes.iter().all(|c| c.slope_a < bits && c.slope_b < bits)
}

fn do_arrivals_ascend(arrivals: &[Arrival]) -> bool
    ensures { IsTrue result ↔ AllPairs IsNotAfter arrivals.now }
{
    for i in 1..arrivals.len() {
        if !is_not_after(&arrivals[i - 1], &arrivals[i]) {
            return false;
        }
    }
    true
}

fn is_not_after(x: &Arrival, y: &Arrival) -> bool
    ensures { IsTrue result ↔ IsNotAfter x.now y.now }
{
    x.bit < y.bit || x.bit == y.bit && x.frame <= y.frame
}

fn are_in_time(end: u64, arrivals: &[Arrival]) -> bool
    ensures { IsTrue result ↔ All (λ x. x.bit < end) arrivals.now }
{
    arrivals.iter().all(|x| x.bit < end)
}

fn are_frames(arrivals: &[Arrival]) -> bool
    ensures { IsTrue result ↔ All (λ x. IsFrameSize x.bits) arrivals.now }
{
    arrivals.iter().all(|x| 336 <= x.bits && x.bits <= 12_336)
}
