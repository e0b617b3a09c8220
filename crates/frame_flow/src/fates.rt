//! What a port's shaper is given of the copies that arrive, and what becomes of each.

ghost use Rattle.std.specs.Prelude.{◌≡◌, ◌≤◌, map, find, ◌==◌, IfOk};
ghost use Rattle.std.specs.List.Sorted.{IsNonDecreasingBy};
ghost use Rattle.credit_shaper.specs.Port.{IsPortInput};
ghost use Rattle.frame_flow.specs.Flow.{port_input, flow_of_copies, sent_fate};
ghost use Rattle.frame_flow.specs.Steps.{fate_by, fates_by};

use crate::force::slopes_over;
use crate::frame::CopyOf;
use crate::moments::bits_of_ticks;
use crate::place::Place;
use crate::result::{Fate, PortFlow};
use crate::sent::{ByOrder, ByPlace, Sent};
use crate::verdicts::{Verdict, Verdicts};
use credit_shaper::{Departure, Departures, PortInput, PortTrace};
use srp_base::{NoMemory, PortChange, Seq};
use std::alloc::Global;

/// The flow at a port, by its changes and the copies that arrive there, in order.
pub(crate) fn flow_of_copies(
    alloc: Global,
    ticks: u64,
    place: Place,
    changes: &[&PortChange],
    copies: &[CopyOf],
) -> Result<PortFlow, NoMemory>
    requires ticks { ticks ≤ 12000 }
    requires order { IsNonDecreasingBy (λ c. c.now.tick) changes.now }
    requires input { IsPortInput (port_input ticks place.rate (map
        (λ c. c.now) changes.now) copies.now) }
    ensures { IfOk result (λ x. x
        ≡ flow_of_copies ticks place (map (λ c. c.now) changes.now) copies.now) }
{
    let slopes = slopes_over(alloc, place.rate, ticks, changes)?;
    let Verdicts { all, arrivals } = Verdicts::on(alloc, place.rate, changes, copies)?;
    let input = PortInput {
        rate: place.rate,
        slopes,
        arrivals: Seq::from_vec(arrivals),
        end: bits_of_ticks(place.rate, ticks),
    };
    let Departures { sent, .. } = PortTrace::run(alloc, &input)?;
    let fates = fates_by(alloc, &all, sent)?;
    Ok(PortFlow {
        at: place.at,
        input,
        fates,
    })
}

/// The fates of a port's copies, by the verdicts on them and by what the port sends.
fn fates_by(
    alloc: Global,
    verdicts: &[(u32, Verdict)],
    sent: Seq<Departure>,
) -> Result<Seq<(u32, Fate)>, NoMemory>
    ensures { IfOk result (λ v. v ≡ fates_by sent verdicts.now) }
{
    match ByPlace::new(alloc, sent.as_slice())? {
        Some(by_place) => fates_found(alloc, verdicts, &by_place),
        None => fates_found(alloc, verdicts, &ByOrder::new(sent)?),
    }
}

/// The fates of a port's copies, by the verdicts on them and by the port's departures.
fn fates_found<S: Sent>(
    alloc: Global,
    verdicts: &[(u32, Verdict)],
    sent: &S,
) -> Result<Seq<(u32, Fate)>, NoMemory>
    ensures { IfOk result (λ v. v ≡ fates_by (S.departures sent.now) verdicts.now) }
{
    let mut fates = Vec::with_capacity(alloc, verdicts.len())?;
    for (number, verdict) in verdicts {
        fates.push((*number, fate_by(*verdict, *number, sent)))?;
    }
    Ok(Seq::from_vec(fates))
}

/// The fate of a copy, by the verdict on it and by the port's departures.
fn fate_by<S: Sent>(verdict: Verdict, number: u32, sent: &S) -> Fate
    ensures { result
        ≡ fate_by verdict (find (λ d. d.frame == number) (S.departures sent.now)) }
{
    match verdict {
        Verdict::NotBooked => Fate::Unbooked,
        Verdict::NotInVlan => Fate::NoVlan,
        Verdict::MaySend => sent_fate(sent.first(number)),
    }
}

/// The fate of a frame that the shaper was given, by its departure.
fn sent_fate(departure: Option<Departure>) -> Fate
    ensures { result ≡ sent_fate departure }
{
    match departure {
        Some(d) => Fate::Departed {
            start: d.start,
            end: d.end,
        },
        None => Fate::Left,
    }
}
