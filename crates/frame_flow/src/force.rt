//! What is in force at a port in a tick.

ghost use Rattle.std.specs.Prelude.{◌≡◌, ◌^◌, ◌<◌, ◌≤◌, ◌==◌, ℕ, length, map, option_map, IfOk};
ghost use Rattle.std.specs.{List.AllWithin, List.list_any, List.Sorted.IsNonDecreasingBy};
ghost use Rattle.frame_flow.specs.Moments.{tick_at};
ghost use Rattle.frame_flow.specs.Steps.{HaveCome};
ghost use Rattle.frame_flow.specs.Force.{changes_at, in_force, has_booked, has_vid, first_slopes, does_change, slopes_of_change, slopes_over};

use crate::moments::{bits_of_ticks, tick_at};
use crate::numbered::count_below;
use credit_shaper::SlopeChange;
use srp_base::{EgressPort, NoMemory, PortChange, Rate, Seq, StreamId};
use std::alloc::Global;

/// How many of a port's changes have come over a stretch of bit times, so that it needn't be
/// counted again for each copy.
#[derive(Clone, Copy)]
pub(crate) struct InForce {
    /// How many have come.
    pub(crate) come: usize,
    /// The stretch's first bit time.
    from: u64,
    /// The bit time after its last.
    until: u64,
}

impl InForce {
    ghost use Rattle.std.specs.Prelude.{List};
    ghost use Rattle.std.specs.Borrow.{Bor};
    ghost use Rattle.srp_base.specs.declared.{bandwidth.Rate.Rate, ports.PortChange.PortChange};
    ghost use Rattle.frame_flow.specs.Steps.{HaveCome, IsInForce};

    /// None has come over no bit time.
    pub(crate) fn nowhere() -> InForce
        ensures { (rate : Rate) (changes : List (Bor PortChange)) → IsInForce rate changes result }
    {
        InForce {
            come: 0,
            from: 0,
            until: 0,
        }
    }

    /// What has come by a bit time of a port's changes, which ascend: what has come so far, or what
    /// comes now.
    pub(crate) fn moved(self, rate: Rate, changes: &[&PortChange], bit: u64) -> InForce
        requires order { IsNonDecreasingBy (λ c. c.now.tick) changes.now }
        requires stretch { IsInForce rate changes.now self }
        ensures stretch { IsInForce rate changes.now result }
        ensures here { HaveCome changes.now (tick_at rate bit) result.come }
    {
        if self.from <= bit && bit < self.until {
            self
        } else {
            InForce::at(rate, changes, bit)
        }
    }

    /// What has come from a bit time on of a port's changes, which ascend.
    fn at(rate: Rate, changes: &[&PortChange], bit: u64) -> InForce
        requires { IsNonDecreasingBy (λ c. c.now.tick) changes.now }
        ensures stretch { IsInForce rate changes.now result }
        ensures here { HaveCome changes.now (tick_at rate bit) result.come }
    {
        let come = count_below(changes, tick_at(rate, bit) + 1);
        InForce {
            come,
            from: bit,
            until: quiet_until(rate, changes, come),
        }
    }
}

/// The last of so many changes: it is in force in each tick by which just these have come.
pub(crate) fn newest<'a>(changes: &[&'a PortChange], come: usize) -> Option<&'a PortChange>
    requires { come ≤ length changes.now }
    ensures { (tick : ℕ) → HaveCome changes.now tick come
        → option_map (λ c. c.now) result ≡ in_force tick (map (λ c. c.now) changes.now) }
{
    if come == 0 {
        None
    } else {
        Some(changes[come - 1])
    }
}

/// A bit time up to which no change from this index on comes.
fn quiet_until(rate: Rate, changes: &[&PortChange], at: usize) -> u64
    requires { IsNonDecreasingBy (λ c. c.now.tick) changes.now }
    ensures { (t : ℕ) → t < result
        → AllWithin (λ c. tick_at rate t < c.now.tick) changes.now at (length changes.now) }
{
    match changes.get(at) {
        Some(c) => bits_of_ticks(rate, c.tick.min(12_000)),
        None => u64::MAX,
    }
}

/// The changes at a port.
pub(crate) fn changes_at<'a>(
    alloc: Global,
    changes: &'a [PortChange],
    at: EgressPort,
) -> Result<Vec<&'a PortChange>, NoMemory>
    ensures { IfOk result (λ v. map (λ c. c.now) v.items ≡ changes_at changes.now at) }
{
    let mut found = Vec::new(alloc);
    for c in changes {
        if c.at == at {
            found.push(c)?;
        }
    }
    Ok(found)
}

/// What is in force in a tick by a port's changes, which ascend; None before the first of them.
pub(crate) fn in_force<'a>(tick: u64, changes: &[&'a PortChange]) -> Option<&'a PortChange>
    requires tick { tick < 2 ^ 60 }
    requires order { IsNonDecreasingBy (λ c. c.now.tick) changes.now }
    ensures { option_map (λ c. c.now) result ≡ in_force tick (map (λ c. c.now) changes.now) }
{
    newest(changes, count_below(changes, tick + 1))
}

/// Whether a stream is booked by what is in force.
pub(crate) fn has_booked(stream: StreamId, force: Option<&PortChange>) -> bool
    ensures { result ≡ has_booked stream (option_map (λ c. c.now) force.entry) }
{
    match force {
        Some(c) => books(c, stream),
        None => false,
    }
}

/// Whether a VID is registered by what is in force.
pub(crate) fn has_vid(vid: u16, force: Option<&PortChange>) -> bool
    ensures { result ≡ has_vid vid (option_map (λ c. c.now) force.entry) }
{
    match force {
        Some(c) => registers(c, vid),
        None => false,
    }
}

/// Whether a stream is booked from a change on.
fn books(c: &PortChange, stream: StreamId) -> bool
    ensures { result ≡ list_any (λ s. s.0 == stream.0) c.now.booked }
{
    c.booked.as_slice().iter().any(|s| s.0 == stream.0)
}

/// Whether a VID is registered from a change on.
fn registers(c: &PortChange, vid: u16) -> bool
    ensures { result ≡ list_any (λ v. v == vid) c.now.vids }
{
    c.vids.as_slice().iter().any(|v| v.get() == vid)
}

/// The slopes in force in tick 0.
fn first_slopes(force: Option<&PortChange>) -> SlopeChange
    ensures { result ≡ first_slopes (option_map (λ c. c.now) force.entry) }
{
    match force {
        Some(c) => SlopeChange {
            bit: 0,
            slope_a: c.slope_a,
            slope_b: c.slope_b,
        },
        None => SlopeChange {
            bit: 0,
            slope_a: 0,
            slope_b: 0,
        },
    }
}

/// Whether a change comes after tick 0 and before the run's end, with other slopes than these.
fn does_change(ticks: u64, last: &SlopeChange, c: &PortChange) -> bool
    ensures { result ≡ does_change ticks last.now c.now }
{
    0 < c.tick && c.tick < ticks && !(c.slope_a == last.slope_a && c.slope_b == last.slope_b)
}

/// The slopes of a change, from the first bit time of its tick on.
fn slopes_of_change(rate: Rate, c: &PortChange) -> SlopeChange
    requires { c.now.tick ≤ 12000 }
    ensures { result ≡ slopes_of_change rate c.now }
{
    SlopeChange {
        bit: bits_of_ticks(rate, c.tick),
        slope_a: c.slope_a,
        slope_b: c.slope_b,
    }
}

/// The slopes of a run by a port's changes: those of tick 0, and an entry where a slope changes.
pub(crate) fn slopes_over(
    alloc: Global,
    rate: Rate,
    ticks: u64,
    changes: &[&PortChange],
) -> Result<Seq<SlopeChange>, NoMemory>
    requires ticks { ticks ≤ 12000 }
    requires order { IsNonDecreasingBy (λ c. c.now.tick) changes.now }
    ensures { IfOk result (λ v. v ≡ slopes_over rate ticks (map (λ c. c.now) changes.now)) }
{
    let mut last = first_slopes(in_force(0, changes));
    let mut slopes = Vec::new(alloc);
    slopes.push(last)?;
    for c in changes {
        if does_change(ticks, &last, c) {
            last = slopes_of_change(rate, c);
            slopes.push(last)?;
        }
    }
    Ok(Seq::from_vec(slopes))
}
