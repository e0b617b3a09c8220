//! What a port has sent, and how the departure of a frame is found in it.

ghost use Rattle.std.specs.Prelude.{◌≡◌, ◌-◌, ◌<◌, ◌≤◌, ◌==◌, ℕ, List, true, find, length, slice_set, IfOk, IfSome};
ghost use Rattle.std.specs.List.Sorted.{IsNonDecreasingBy};
ghost use Rattle.frame_flow.specs.declared.verdicts.Verdict.{Verdict};
ghost use Rattle.frame_flow.specs.Steps.{ArePlaces, fates_by, sent_at};

use crate::numbered::find_first;
use credit_shaper::Departure;
use srp_base::{NoMemory, Seq};
use std::alloc::Global;
use std::marker::Model;

/// A port's departures, in which those of a frame are found.
pub(crate) trait Sent {
    ghost use Rattle.std.specs.Prelude.{List};
    ghost use Rattle.credit_shaper.specs.declared.port.Departure.{Departure};

    /// The departures.
    ghost departures: { Self → List Departure };

    /// The first departure of a frame's number.
    fn first(&self, number: u32) -> Option<Departure>
        ensures { result ≡ find (λ d. d.frame == number) (departures self.now) };
}

/// Departures with the place of the first of each number. Contracts see the departures.
#[derive(Drop)]
pub(crate) struct ByPlace<'a> {
    sent: &'a [Departure],
    least: u32,
    places: Vec<usize>,
}

impl<'a> Model for ByPlace<'a> {
    ghost use Rattle.std.specs.Prelude.{List};
    ghost use Rattle.credit_shaper.specs.declared.port.Departure.{Departure};

    ghost Value = { List Departure };

    ghost use Rattle.frame_flow.specs.Steps.{ArePlaces};

    ghost view = { λ s. s.sent.now };

    ghost invariant = { λ s. ArePlaces s.least s.sent.now s.places.items };
}

impl Sent for ByPlace<'_> {
    ghost departures = { λ s. s };

    fn first(&self, number: u32) -> Option<Departure> {
        departure_at(self.sent, self.least, self.places.as_slice(), number)
    }
}

impl<'a> ByPlace<'a> {
    /// The departures with their places, where their numbers lie close enough together.
    pub(crate) fn new(alloc: Global, sent: &'a [Departure]) -> Result<Option<ByPlace<'a>>, NoMemory>
        ensures { IfOk result (λ o. IfSome o (λ s. s ≡ sent.now)) }
    {
        let (least, size) = span(sent);
        if size / 64 > sent.len() {
            return Ok(None);
        }
        match places_of(alloc, sent, least, size)? {
            Some(places) => Ok(Some(ByPlace {
                sent,
                least,
                places,
            })),
            None => Ok(None),
        }
    }
}

/// Departures in order of their frames, those of one frame in order of departure. Contracts see
/// them.
#[derive(Drop)]
pub(crate) struct ByOrder {
    sent: Vec<Departure>,
}

impl Model for ByOrder {
    ghost use Rattle.std.specs.Prelude.{List};
    ghost use Rattle.std.specs.List.Sorted.{IsNonDecreasingBy};
    ghost use Rattle.credit_shaper.specs.declared.port.Departure.{Departure};

    ghost Value = { List Departure };

    ghost view = { λ s. s.sent.items };

    ghost invariant = { λ s. IsNonDecreasingBy (λ d. d.frame) s.sent.items };
}

impl Sent for ByOrder {
    ghost departures = { λ s. s };

    fn first(&self, number: u32) -> Option<Departure> {
        find_first(self.sent.as_slice(), u64::from(number), 0).copied()
    }
}

impl ByOrder {
    /// The departures in order of their frames: the fates by them are the same.
    pub(crate) fn new(sent: Seq<Departure>) -> Result<ByOrder, NoMemory>
        ensures { IfOk result
            (λ s. (verdicts : List (ℕ × Verdict)) → fates_by s verdicts ≡ fates_by sent verdicts) }
    {
        let sent = by_frame(sent)?;
        Ok(ByOrder { sent })
    }
}

/// The departures by frame, those of one frame in order of departure: the fates by them are the
/// same.
fn by_frame(sent: Seq<Departure>) -> Result<Vec<Departure>, NoMemory>
    ensures order { IfOk result (λ v. IsNonDecreasingBy (λ d. d.frame) v.items) }
    ensures fates { IfOk result
        (λ v. (verdicts : List (ℕ × Verdict)) → fates_by v.items verdicts
        ≡ fates_by sent verdicts) }
{
    let mut sent = sent.into_vec();
    sent.sort_by_key(|d| d.frame)?;
    Ok(sent)
}

/// The least number of some departures, and how many numbers there are up to the greatest.
fn span(sent: &[Departure]) -> (u32, usize) {
    let mut least = u32::MAX;
    let mut most = 0;
    for d in sent {
        least = least.min(d.frame);
        most = most.max(d.frame);
    }
    (least, most.saturating_sub(least) as usize + 1)
}

/// The places of the first departures, from the least number on; None where a number isn't within
/// this size.
fn places_of(
    alloc: Global,
    sent: &[Departure],
    least: u32,
    size: usize,
) -> Result<Option<Vec<usize>>, NoMemory>
    ensures { IfOk result (λ o. IfSome o (λ v. ArePlaces least sent.now v.items)) }
{
    let mut places = vec![in alloc; sent.len(); size]?;
    for i in 0..sent.len() {
        let at = sent.len() - 1 - i;
        if !put(&mut places, least, sent[at].frame, at) {
            return Ok(None);
        }
    }
    Ok(Some(places))
}

/// Puts a place at a number's index; false where there is none.
fn put(places: &mut Vec<usize>, least: u32, number: u32, place: usize) -> bool
    ensures within { result ≡ true
        → (least ≤ number) × (number - least < length places.old.items) }
    ensures new { result ≡ true
        → places.new.items ≡ slice_set places.old.items (number - least) place }
{
    if number < least {
        return false;
    }
    let at = (number - least) as usize;
    if at < places.len() {
        places[at] = place;
        true
    } else {
        false
    }
}

/// The departure at the place at a number's index.
fn departure_at(sent: &[Departure], least: u32, places: &[usize], number: u32) -> Option<Departure>
    ensures { result ≡ sent_at least sent.now places.now number }
{
    if number < least {
        return None;
    }
    let place = match places.get((number - least) as usize) {
        Some(place) => *place,
        None => sent.len(),
    };
    sent.get(place).copied()
}
