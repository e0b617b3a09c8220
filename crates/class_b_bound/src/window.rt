//! What class B takes of the line in a window.

ghost use Rattle.std.specs.Prelude.{◌≡◌, ◌+◌, ◌-◌, ◌*◌, ◌^◌, ◌<◌, ◌≤◌, All, AllPairs, sum_by};
ghost use Rattle.credit_shaper.specs.{Port.IsPortInput, Trace.departures_of};
ghost use Rattle.class_b_bound.specs.Overlap.{area_over, bits_over, overlap};
ghost use Rattle.class_b_bound.specs.Window.{window_of};

use credit_shaper::laws::{
    departures_follow_one_another, the_line_carries_the_departures, what_leaves_is_sent_or_left,
};
use credit_shaper::{Departure, Departures, PortInput, SlopeChange, Traffic};

/// What class B has of a window.
#[derive(Clone, Copy, PartialEq, Eq)]
pub struct WindowB {
    /// The bit times in which a class B frame is on the line.
    pub bits: u64,
    /// The sum of class B's idleSlope over the window's bit times, in units of 1/rate bit.
    pub area: u128,
}

/// What class B has of the window from one bit time to before another, in a port's input with what
/// leaves the port. The first isn't after the second, that isn't after the input's end, the input
/// is as `PortInput::is_valid` tests it, and `sent` is what `PortTrace::run` answers for it.
pub fn window_b(input: &PortInput, sent: &Departures, from: u64, to: u64) -> WindowB
    requires input { IsPortInput input.now }
    requires order { from ≤ to }
    requires within { to ≤ input.now.end }
    requires sent { sent.now ≡ departures_of input.now }
    ensures { result ≡ window_of input.now from to }
{
    what_leaves_is_sent_or_left();
    departures_follow_one_another();
    the_line_carries_the_departures();
    WindowB {
        bits: bits_over(sent.sent.as_slice(), from, to),
        area: area_over(input.slopes.as_slice(), from, to),
    }
}

/// The bit times that two stretches have in common, the first from `start` to before `end`.
fn overlap(start: u64, end: u64, from: u64, to: u64) -> u64
    ensures { result ≡ overlap start end from to }
{
    end.min(to).saturating_sub(start.max(from))
}

/// The bit times of a window that class B's departures take.
fn bits_over(sent: &[Departure], from: u64, to: u64) -> u64
    requires short { to ≤ 2 ^ 41 }
    requires order { from ≤ to }
    requires apart { AllPairs (λ d e. d.end ≤ e.start) sent.now }
    ensures { result ≡ bits_over from to sent.now }
{
    let mut bits = 0;
    for d in sent {
        if d.traffic == Traffic::B {
            bits += overlap(d.start, d.end, from, to);
        }
    }
    bits
}

/// The sum of class B's slopes over a window.
fn area_over(slopes: &[SlopeChange], from: u64, to: u64) -> u128
    requires short { to ≤ 2 ^ 41 }
    requires order { from ≤ to }
    requires below { All (λ c. c.slope_b ≤ 2 ^ 34) slopes.now }
    ensures { result ≡ area_over from to 0 slopes.now }
{
    let mut area = 0;
    let mut at = from;
    let mut slope = 0;
    for change in slopes {
        let next = change.bit.clamp(at, to);
        area += u128::from(next - at) * u128::from(slope);
        at = next;
        slope = change.slope_b;
    }
    area + u128::from(to - at) * u128::from(slope)
}
