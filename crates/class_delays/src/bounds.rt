//! The bounds of what comes to a port.

ghost use Rattle.std.specs.Prelude.{◌≡◌, ◌+◌, ◌-◌, ◌*◌, sum_by, Some, if◌then◌else◌};
ghost use Rattle.srp_base.specs.Bandwidth.{bits_of, bit_ps_of};
ghost use Rattle.delay_bound.specs.{Bounds.second, Waits.in_u128};
ghost use Rattle.delay_flow.specs.Rules.{class_bound, line_bound};
ghost use Rattle.class_delays.specs.Reckoned.{comes_from, base_of, base_from, slope_from, bound_from, IfBound, IsBoundOr};

use crate::coming::Coming;
use crate::force::Service;
use delay_bound::{Bound, NoPeak};
use srp_base::{EgressPort, Rate};

/// The bound of what comes from the station itself, or by a port, by what the Talkers may send; why
/// there is none where it is too large.
pub(crate) fn bound_from(by: Option<EgressPort>, coming: &[Coming]) -> Result<Bound, NoPeak>
    ensures { IsBoundOr result (bound_from by coming.now) }
{
    let Some(base) = bases_from(by, coming) else {
        return Err(NoPeak::Large);
    };
    let Some(slope) = slopes_from(by, coming) else {
        return Err(NoPeak::Steep);
    };
    if slope < 0x1_0000_0000_0000_0000 {
        Ok(Bound {
            base,
            slope: slope as u64,
        })
    } else {
        Err(NoPeak::Steep)
    }
}

/// The bases of it together.
fn bases_from(by: Option<EgressPort>, coming: &[Coming]) -> Option<u128>
    ensures { result ≡ in_u128 (sum_by (base_from by) coming.now) }
{
    let mut sum = 0u128;
    for c in coming {
        sum = sum.checked_add(base_from(by, c)?)?;
    }
    Some(sum)
}

/// The slopes of it together.
fn slopes_from(by: Option<EgressPort>, coming: &[Coming]) -> Option<u128>
    ensures { result ≡ in_u128 (sum_by (slope_from by) coming.now) }
{
    let mut sum = 0u128;
    for c in coming {
        sum = sum.checked_add(slope_from(by, c))?;
    }
    Some(sum)
}

/// The base of what comes, where it comes so.
fn base_from(by: Option<EgressPort>, c: &Coming) -> Option<u128>
    ensures { result ≡ in_u128 (base_from by c.now) }
{
    if comes_from(by, c.by) {
        base_of(c)
    } else {
        Some(0)
    }
}

/// The slope of what comes, where it comes so.
fn slope_from(by: Option<EgressPort>, c: &Coming) -> u128
    ensures { result ≡ slope_from by c.now }
{
    if comes_from(by, c.by) {
        u128::from(c.stream.limits.slope)
    } else {
        0
    }
}

/// The base of what comes.
fn base_of(c: &Coming) -> Option<u128>
    ensures { result ≡ in_u128 (base_of c.now) }
{
    let moved = u128::from(c.stream.limits.slope).checked_mul(c.late)?;
    (u128::from(c.stream.limits.burst) * 1_000_000_000_000).checked_add(moved)
}

/// Whether two ways to come are one.
fn comes_from(by: Option<EgressPort>, other: Option<EgressPort>) -> bool
    ensures { result ≡ comes_from by other }
{
    match by {
        None => other.is_none(),
        Some(r) => match other {
            None => false,
            Some(q) => q == r,
        },
    }
}

/// The bound of what comes over a port's line to one of another rate, where no frame is longer.
pub(crate) fn line_bound(behind: Rate, here: Rate, most: u64) -> Option<Bound>
    ensures { IfBound result (line_bound behind here most) }
{
    let base = line_base(behind, here, most)?;
    Some(Bound {
        base,
        slope: behind.bits(),
    })
}

/// Its base.
fn line_base(behind: Rate, here: Rate, most: u64) -> Option<u128>
    ensures { result
        ≡ in_u128 (most * second + bits_of behind * bit_ps_of here) }
{
    (u128::from(most) * 1_000_000_000_000).checked_add(
        u128::from(behind.bits()) * u128::from(here.bit_ps()),
    )
}

/// The bound of what comes of a class by its credit at a port, where no frame is longer.
pub(crate) fn class_bound(behind: Rate, here: Rate, at: Service, most: u64) -> Option<Bound>
    ensures { IfBound result (class_bound behind here at.slope at.idle most) }
{
    let credit = credit_base(behind, at, most)?;
    let base = credit
        .checked_add(u128::from(most) * 1_000_000_000_000)?
        .checked_add(u128::from(at.slope) * u128::from(here.bit_ps()))?;
    Some(Bound {
        base,
        slope: at.slope,
    })
}

/// What the credit may be between.
fn credit_base(behind: Rate, at: Service, most: u64) -> Option<u128>
    ensures { result
        ≡ in_u128 ((at.idle * at.slope + (bits_of behind - at.slope) * most) * bit_ps_of behind) }
{
    let gained = u128::from(at.idle) * u128::from(at.slope);
    let owed = u128::from(behind.bits().saturating_sub(at.slope)) * u128::from(most);
    gained
        .checked_add(owed)?
        .checked_mul(u128::from(behind.bit_ps()))
}
