//! What is kept of a run while it goes on.

ghost use Rattle.std.specs.Prelude.{◌≡◌, if◌then◌else◌, Some, None, IfOk, OnOk};
ghost use Rattle.wishes.specs.RunMoments.{are_same_standings as are_same_standings_spec};
ghost use Rattle.wishes.specs.Watching.{after_end, ended, going_on as going_on_spec};

use crate::disturbing::{events_past, events_to, undisturbed};
use crate::moments::{Moments, Span};
use crate::resting::{all_rest, idle_nodes};
use crate::standing::{Standing, are_same_standings, standings_since};
use srp_base::{NoMemory, Seq};
use srp_schedule::RunWatcher;
use std::alloc::Global;
use std::marker::Model;
use topology_file::{EventEntry, Scenario, StreamEntry};
use world_core::World;

/// What stands, since which tick it does, the stretches of quiet ticks that are over, and the one
/// that may go on. What a node hears and its ports have booked is looked at only where the node may
/// have changed it in a tick: where an event of the scenario asks something of it or a PDU is lost,
/// doubled or forged, where it was busy when the tick began, or sent what it had to say. Contracts
/// see a `Watched`.
#[derive(Drop)]
pub(crate) struct Watch<'a> {
    streams: &'a [StreamEntry],
    script: &'a [EventEntry],
    idle: Vec<bool>,
    standings: Vec<Standing>,
    settled: u64,
    past: Vec<Span>,
    latest: Option<Span>,
}

impl<'a> Model for Watch<'a> {
    ghost use Rattle.wishes.specs.Watching.{Watched};

    ghost Value = { Watched };

    ghost view = { λ w. record {
      streams = w.streams.now;
      script = w.script.now;
      idle = w.idle.items;
      standings = w.standings.items;
      settled = w.settled;
      past = w.past.items;
      latest = w.latest;
    } };
}

impl<'a> Watch<'a> {
    ghost use Rattle.std.specs.Prelude.{◌≡◌, IfOk, OnOk};
    ghost use Rattle.wishes.specs.Watching.{ended, looked, resting, unwatched};

    /// Nothing is known yet.
    pub(crate) fn new(alloc: Global, scenario: &'a Scenario) -> Watch<'a>
        ensures { result ≡ unwatched scenario.now.streams scenario.now.events }
    {
        Watch {
            streams: scenario.streams.as_slice(),
            script: scenario.events.as_slice(),
            idle: Vec::new(alloc),
            standings: Vec::new(alloc),
            settled: 0,
            past: Vec::new(alloc),
            latest: None,
        }
    }

    /// The moments of a run that is over.
    pub(crate) fn into_moments(self) -> Result<Moments, NoMemory>
        ensures settled { IfOk result (λ m. m.settled ≡ self.entry.settled) }
        ensures quiet { IfOk result (λ m. m.quiet ≡ ended self.entry.past self.entry.latest) }
    {
        let mut quiet = self.past;
        push_ended(&mut quiet, self.latest)?;
        Ok(Moments {
            settled: self.settled,
            quiet: Seq::from_vec(quiet),
        })
    }

    // Which nodes are known to rest in a tick.
    fn resting(&self, alloc: Global, tick: u64) -> Result<Vec<bool>, NoMemory>
        ensures { IfOk result (λ v. v.items ≡ resting self.now tick) }
    {
        let now = events_to(self.script, tick);
        undisturbed(alloc, self.streams, now, self.idle.as_slice())
    }

    // Sees what stands at the end of a tick.
    fn look(&mut self, tick: u64, world: &World) -> Result<(), NoMemory>
        ensures { OnOk result (self.new ≡ looked self.old tick world.now) }
    {
        let alloc = *self.standings.allocator();
        let rests = self.resting(alloc, tick)?;
        if all_rest(rests.as_slice()) {
            return Ok(());
        }
        let before = self.standings.as_slice();
        let now = standings_since(alloc, self.streams, rests.as_slice(), before, world)?;
        self.settled = settled_at(self.settled, tick, before, now.as_slice());
        self.standings = now;
        Ok(())
    }
}

impl<'a> RunWatcher for Watch<'a> {
    ghost after = { after_end };

    fn see(&mut self, tick: u64, world: &World) -> Result<(), NoMemory>
        ensures { OnOk result (self.new ≡ after_end self.old tick world.now) }
    {
        let alloc = *self.standings.allocator();
        self.look(tick, world)?;
        self.script = events_past(self.script, tick);
        self.idle = idle_nodes(alloc, world)?;
        self.latest = see_calm(
            &mut self.past,
            self.latest,
            tick,
            world.quiet() && world.in_step(),
        )?;
        Ok(())
    }
}

// Since which tick all stands as it does, by what stood before.
fn settled_at(settled: u64, tick: u64, before: &[Standing], now: &[Standing]) -> u64
    ensures { result ≡ (if are_same_standings_spec before.now now.now then settled else tick) }
{
    if are_same_standings(before, now) {
        settled
    } else {
        tick
    }
}

// The stretch that goes on behind a tick, if one does; one that doesn't is put behind those that
// are over.
fn see_calm(
    past: &mut Vec<Span>,
    latest: Option<Span>,
    tick: u64,
    calm: bool,
) -> Result<Option<Span>, NoMemory>
    ensures past { OnOk result (past.new.items
        ≡ (if calm then past.old.items else ended past.old.items latest)) }
    ensures latest { IfOk result
        (λ o. o ≡ (if calm then Some (going_on_spec tick latest) else None)) }
{
    if calm {
        return Ok(Some(going_on(tick, latest)));
    }
    push_ended(past, latest)?;
    Ok(None)
}

fn going_on(tick: u64, latest: Option<Span>) -> Span
    ensures { result ≡ going_on_spec tick latest }
{
    match latest {
        Some(span) => Span {
            from: span.from,
            to: tick,
        },
        None => Span {
            from: tick,
            to: tick,
        },
    }
}

fn push_ended(past: &mut Vec<Span>, latest: Option<Span>) -> Result<(), NoMemory>
    ensures { OnOk result (past.new.items ≡ ended past.old.items latest) }
{
    if let Some(span) = latest {
        past.push(span)?;
    }
    Ok(())
}
