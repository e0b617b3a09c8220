//! What is known of a port's copies before it sends: which it may send, and why not the others.

ghost use Rattle.std.specs.Prelude.{◌≡◌, ◌++◌, ◌∷◌, [], map, filter, option_map, IfOk, OnOk};
ghost use Rattle.std.specs.List.Sorted.{IsNonDecreasingBy};
ghost use Rattle.frame_flow.specs.Flow.{is_unbooked, traffic_of, arrival_of, may_send};
ghost use Rattle.frame_flow.specs.Steps.{verdict_of, verdicts_of, arrivals_of};

use crate::force::{InForce, has_booked, has_vid, newest};
use crate::frame::{CopyOf, Route};
use credit_shaper::{Arrival, Traffic};
use srp_base::{NoMemory, PortChange, Rate};
use std::alloc::Global;

/// Whether a copy may be sent, or why not.
#[derive(Clone, Copy)]
pub(crate) enum Verdict {
    /// It is a stream's, and the port hasn't booked the stream.
    NotBooked,
    /// Its VID isn't registered at the port.
    NotInVlan,
    /// It may be sent.
    MaySend,
}

/// The verdicts on a port's copies with their numbers, and those that may be sent as the shaper is
/// given them.
#[derive(Drop)]
pub(crate) struct Verdicts {
    pub(crate) all: Vec<(u32, Verdict)>,
    pub(crate) arrivals: Vec<Arrival>,
}

impl Verdicts {
    /// The verdicts on the copies at a port of these changes, which ascend.
    pub(crate) fn on(
        alloc: Global,
        rate: Rate,
        changes: &[&PortChange],
        copies: &[CopyOf],
    ) -> Result<Verdicts, NoMemory>
        requires { IsNonDecreasingBy (λ c. c.now.tick) changes.now }
        ensures all { IfOk result (λ v. v.all.items
            ≡ verdicts_of rate (map (λ c. c.now) changes.now) copies.now) }
        ensures arrivals { IfOk result (λ v. v.arrivals.items
            ≡ arrivals_of rate (map (λ c. c.now) changes.now) copies.now) }
    {
        let mut verdicts = Verdicts {
            all: Vec::new(alloc),
            arrivals: Vec::new(alloc),
        };
        verdicts.all.reserve(copies.len())?;
        let mut force = InForce::nowhere();
        for c in copies {
            force = force.moved(rate, changes, c.bit());
            verdicts.add(c, newest(changes, force.come))?;
        }
        Ok(verdicts)
    }

    /// Adds the verdict on a copy, by what is in force.
    fn add(&mut self, c: &CopyOf, force: Option<&PortChange>) -> Result<(), NoMemory>
        ensures all { OnOk result (self.new.all.items ≡ self.old.all.items
            ++ (c.now.frame.number, verdict_of (option_map (λ c. c.now) force.entry) c.now) ∷ []) }
        ensures arrivals { OnOk result (self.new.arrivals.items ≡ self.old.arrivals.items
            ++ map arrival_of
            (filter (λ c. may_send c (option_map (λ c. c.now) force.entry)) (c.now ∷ []))) }
    {
        let verdict = verdict_of(c, force);
        self.all.push((c.frame().number, verdict))?;
        match verdict {
            Verdict::MaySend => Ok(self.arrivals.push(arrival_of(c))?),
            Verdict::NotBooked | Verdict::NotInVlan => Ok(()),
        }
    }
}

/// The verdict on a copy, by what is in force.
fn verdict_of(c: &CopyOf, force: Option<&PortChange>) -> Verdict
    ensures { result ≡ verdict_of (option_map (λ c. c.now) force.entry) c.now }
{
    if is_unbooked(c.frame().route, force) {
        Verdict::NotBooked
    } else if has_vid(c.frame().vid, force) {
        Verdict::MaySend
    } else {
        Verdict::NotInVlan
    }
}

/// Whether a frame is of a stream that isn't booked by what is in force.
fn is_unbooked(route: Route, force: Option<&PortChange>) -> bool
    ensures { result ≡ is_unbooked route (option_map (λ c. c.now) force.entry) }
{
    match route {
        Route::Stream(stream, _) => !has_booked(stream, force),
        Route::To(_) => false,
    }
}

/// A copy as the shaper is given it.
fn arrival_of(c: &CopyOf) -> Arrival
    ensures { result ≡ arrival_of c.now }
{
    let frame = c.frame();
    Arrival {
        bit: c.bit(),
        traffic: traffic_of(frame.route),
        bits: frame.bits,
        frame: frame.number,
    }
}

/// The traffic of a frame.
fn traffic_of(route: Route) -> Traffic
    ensures { result ≡ traffic_of route }
{
    match route {
        Route::Stream(_, traffic) => traffic,
        Route::To(_) => Traffic::Other,
    }
}
