//! The peak of what some groups bring in over what a slope takes away.

ghost use Rattle.std.specs.Prelude.{◌≡◌, ◌+◌, ◌*◌, ◌^◌, ◌<◌, ◌≤◌, ◌↔◌, ◌∷◌, min, IsOk, IfOk, IfErr};
ghost use Rattle.delay_bound.specs.Bounds.{brought_in, IsPeak, first_slopes, bases_with, bases_of};
ghost use Rattle.delay_bound.specs.Crossings.{IsCause, IsBelowIn, IsBelowAt, IsBelowWith, IsBelowOver, IsNoHigher};

use crate::bound::{Bound, Group, is_no_more, lowest};

/// Why no peak is answered.
#[derive(Clone, Copy, PartialEq, Eq)]
pub enum NoPeak {
    /// The groups' first slopes together are above the slope.
    Steep,
    /// The bases of all bounds together are 2^126 or more.
    Large,
}

/// The peak of some groups at a port where their class has a slope, in bit/s: the least height, in
/// bits × 10^12, with which what they bring in over each whole span of ps is at most the height and
/// what the slope takes away. It is there where their first slopes together are at most the slope.
///
/// It is 0 where they bring in no more than the slope takes away at any span. Else it is what they
/// bring in over it at span 0, or next to a crossing of two bounds of a group: the last whole span
/// up to the crossing, which is the crossing itself where that is whole, or the first beyond it. So
/// a walk over these finds it, in a few steps for each group and each of its crossings.
pub fn peak(groups: &[Group], slope: u64) -> Result<u128, NoPeak>
    ensures peak { IfOk result (λ height. IsPeak groups.now slope height) }
    ensures there { IsOk result
        ↔ ((first_slopes groups.now ≤ slope) × (bases_of groups.now < 2 ^ 126)) }
    ensures cause { IfErr result (λ cause. IsCause groups.now slope cause) }
{
    if slopes_upto(groups) > u128::from(slope) {
        return Err(NoPeak::Steep);
    }
    if bases_upto(groups) >= LIMIT {
        return Err(NoPeak::Large);
    }
    Ok(highest(groups, slope))
}

/// 2^126.
const LIMIT: u128 = 0x4000_0000_0000_0000_0000_0000_0000_0000;

/// The first slopes together, or 2^64 where they are more.
fn slopes_upto(groups: &[Group]) -> u128
    ensures { result ≡ min (first_slopes groups.now) (2 ^ 64) }
{
    let mut sum = 0;
    for group in groups {
        sum = (sum + u128::from(group.first.slope)).min(0x1_0000_0000_0000_0000);
    }
    sum
}

/// The bases of all bounds together, or 2^126 where they are more.
fn bases_upto(groups: &[Group]) -> u128
    ensures { result ≡ min (bases_of groups.now) (2 ^ 126) }
{
    let mut sum = 0;
    for group in groups {
        sum = (sum + bases_with_upto(&group.first, group.more.as_slice())).min(LIMIT);
    }
    sum
}

/// Those of a bound and more of them, or 2^126 where they are more.
fn bases_with_upto(first: &Bound, more: &[Bound]) -> u128
    ensures { result ≡ min (bases_with first.now more.now) (2 ^ 126) }
{
    let mut sum = first.base.min(LIMIT);
    for bound in more {
        sum = (sum + bound.base.min(LIMIT)).min(LIMIT);
    }
    sum
}

/// The bases together, and the slopes together, of the lowest bound of each group over a span.
#[derive(Clone, Copy)]
pub(crate) struct Sum {
    base: u128,
    slope: u128,
}

/// What the groups bring in over a span in ps.
fn sum_over(groups: &[Group], span: u128) -> Sum
    requires { bases_of groups.now < 2 ^ 126 }
    ensures value { result.base + result.slope * span ≡ brought_in groups.now span }
    ensures small { result.base ≤ bases_of groups.now }
{
    let mut sum = Sum { base: 0, slope: 0 };
    for group in groups {
        let lowest = lowest(group.first, group.more.as_slice(), span);
        sum = Sum {
            base: sum.base + lowest.base,
            slope: sum.slope + u128::from(lowest.slope),
        };
    }
    sum
}

/// The height at a span in ps: what the groups bring in there over what the slope takes away.
fn height_at(groups: &[Group], slope: u64, span: u128) -> u128
    requires small { bases_of groups.now < 2 ^ 126 }
    requires slopes { first_slopes groups.now ≤ slope }
    ensures stays { IsBelowIn groups.now slope result span }
    ensures least { IsNoHigher groups.now slope result }
{
    let sum = sum_over(groups, span);
    let slope = u128::from(slope);
    if slope <= sum.slope {
        return sum.base + (sum.slope - slope) * span;
    }
    if is_no_more(slope - sum.slope, span, sum.base) {
        return sum.base - (slope - sum.slope) * span;
    }
    0
}

/// The height at the crossing of a bound with a flatter one; 0 with another.
fn height_at_crossing(groups: &[Group], slope: u64, steep: &Bound, flat: &Bound) -> u128
    requires small { bases_of groups.now < 2 ^ 126 }
    requires slopes { first_slopes groups.now ≤ slope }
    requires base { flat.now.base < 2 ^ 126 }
    ensures stays { IsBelowAt groups.now slope result steep.now flat.now }
    ensures least { IsNoHigher groups.now slope result }
{
    if steep.slope <= flat.slope {
        return 0;
    }
    let crossing = flat.base.saturating_sub(steep.base) / u128::from(steep.slope - flat.slope);
    let before = height_at(groups, slope, crossing);
    before.max(height_at(groups, slope, crossing + 1))
}

/// The greatest height at the crossings of a bound with one and more.
fn highest_with(groups: &[Group], slope: u64, steep: &Bound, first: &Bound, more: &[Bound]) -> u128
    requires small { bases_of groups.now < 2 ^ 126 }
    requires slopes { first_slopes groups.now ≤ slope }
    requires bases { bases_with first.now more.now < 2 ^ 126 }
    ensures stays { IsBelowWith groups.now slope result (first.now ∷ more.now) steep.now }
    ensures least { IsNoHigher groups.now slope result }
{
    let mut height = height_at_crossing(groups, slope, steep, first);
    for flat in more {
        height = height.max(height_at_crossing(groups, slope, steep, flat));
    }
    height
}

/// The greatest height at the crossings of a group's bounds.
fn highest_over(groups: &[Group], slope: u64, first: &Bound, more: &[Bound]) -> u128
    requires small { bases_of groups.now < 2 ^ 126 }
    requires slopes { first_slopes groups.now ≤ slope }
    requires bases { bases_with first.now more.now < 2 ^ 126 }
    ensures stays { IsBelowOver groups.now slope result (first.now ∷ more.now) }
    ensures least { IsNoHigher groups.now slope result }
{
    let mut height = highest_with(groups, slope, first, first, more);
    for steep in more {
        height = height.max(highest_with(groups, slope, steep, first, more));
    }
    height
}

/// The greatest height.
fn highest(groups: &[Group], slope: u64) -> u128
    requires small { bases_of groups.now < 2 ^ 126 }
    requires slopes { first_slopes groups.now ≤ slope }
    ensures { IsPeak groups.now slope result }
{
    let mut height = height_at(groups, slope, 0);
    for group in groups {
        height = height.max(highest_over(groups, slope, &group.first, group.more.as_slice()));
    }
    height
}
