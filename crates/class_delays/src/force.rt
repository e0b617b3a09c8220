//! What is in force at a port at the run's end.

ghost use Rattle.std.specs.Prelude.{◌≡◌, ◌+◌, ◌<◌, ◌==◌, nat_le, option_map, Some, if◌then◌else◌};
ghost use Rattle.std.specs.List.{list_any};
ghost use Rattle.srp_base.specs.Bandwidth.{bits_of};
ghost use Rattle.tree_topology.specs.Topology.{HasPort};
ghost use Rattle.frame_flow.specs.Force.{is_port, changes_at, in_force, has_booked, first_slopes};
ghost use Rattle.delay_flow.specs.Places.{class_slope, last_force};
ghost use Rattle.class_delays.specs.Given.{class_traffic};
ghost use Rattle.class_delays.specs.Table.{rate_at, slope_at, idle_at};

use crate::setting::DelaySetting;
use delay_bound::idle;
use srp_base::{Class, EgressPort, PortChange, Rate, StreamId};

/// The class's slope at a port, and in how many bit times of it the class may gain credit with
/// frames to send.
#[derive(Clone, Copy)]
pub(crate) struct Service {
    pub(crate) slope: u64,
    pub(crate) idle: u64,
}

impl<'a> DelaySetting<'a> {
    ghost use Rattle.std.specs.Prelude.{◌-◌};

    /// What is in force at a port at the run's end.
    pub(crate) fn last_force(&self, at: EgressPort) -> Option<&'a PortChange>
        ensures { option_map (λ c. c.now) result ≡ last_force self.now.setting at }
    {
        self.keeps();
        in_force(self.ticks - 1, self.changes, at)
    }

    /// What the class gets at a port then.
    pub(crate) fn service(&self, at: EgressPort, rate: Rate) -> Service
        requires port { HasPort self.now.setting.tree at }
        requires rate { rate ≡ rate_at self.now.setting at }
        ensures slope { result.slope ≡ slope_at self.now at }
        ensures idle { result.idle ≡ idle_at self.now at }
    {
        self.keeps();
        let force = self.last_force(at);
        Service {
            slope: class_slope(self.class, force),
            idle: idle(self.class, rate, slope_a(force)),
        }
    }
}

/// What is in force at a port in a tick.
fn in_force(tick: u64, changes: &[PortChange], at: EgressPort) -> Option<&PortChange>
    ensures { option_map (λ c. c.now) result ≡ in_force tick (changes_at changes.now at) }
{
    let mut newest = None;
    for c in changes {
        newest = newer(tick, at, newest, c);
    }
    newest
}

/// The later of two changes, where it is one of a port and not after a tick.
fn newer<'a>(
    tick: u64,
    at: EgressPort,
    newest: Option<&'a PortChange>,
    c: &'a PortChange,
) -> Option<&'a PortChange>
    ensures { option_map (λ c. c.now) result
        ≡ (if is_port c.now.at at
        then (if nat_le c.now.tick tick then Some c.now else option_map (λ c. c.now) newest.entry)
        else option_map (λ c. c.now) newest.entry) }
{
    if c.at == at && c.tick <= tick {
        Some(c)
    } else {
        newest
    }
}

/// Whether a stream is booked by what is in force.
pub(crate) fn has_booked(stream: StreamId, force: Option<&PortChange>) -> bool
    ensures { result ≡ has_booked stream (option_map (λ c. c.now) force.entry) }
{
    match force {
        Some(c) => books(c, stream),
        None => false,
    }
}

/// Whether a stream is booked from a change on.
fn books(c: &PortChange, stream: StreamId) -> bool
    ensures { result ≡ list_any (λ s. s.0 == stream.0) c.now.booked }
{
    c.booked.as_slice().iter().any(|s| s.0 == stream.0)
}

/// The slope of a class by what is in force, in bit/s.
fn class_slope(class: Class, force: Option<&PortChange>) -> u64
    ensures { result
        ≡ class_slope (class_traffic class) (option_map (λ c. c.now) force.entry) }
{
    match force {
        Some(c) => slope_of(class, c),
        None => 0,
    }
}

/// The slope of a class from a change on.
fn slope_of(class: Class, c: &PortChange) -> u64
    ensures { result ≡ class_slope (class_traffic class) (Some c.now) }
{
    match class {
        Class::A => c.slope_a,
        Class::B => c.slope_b,
    }
}

/// The slope of class A by what is in force.
fn slope_a(force: Option<&PortChange>) -> u64
    ensures { result ≡ (first_slopes (option_map (λ c. c.now) force.entry)).slope_a }
{
    match force {
        Some(c) => c.slope_a,
        None => 0,
    }
}
