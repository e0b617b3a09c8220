//! A flat side as contracts see it, and what it shows.

ghost use Rattle.std.specs.Prelude.{◌≡◌, ◌<◌, length, map, slice_get, None, Some, IfOk};
ghost use Rattle.std.specs.List.{AllByRecursion, list_all, list_any};
ghost use Rattle.srp_base.specs.declared.ports.PortSetup.{PortSetup};
ghost use Rattle.mrp_participant.specs.State.{IsTime, new_state, is_still, is_any_due};
ghost use Rattle.attribute_propagation.specs.Ports.{IsLinkPort, place_of};
ghost use Rattle.flat_side.specs.Side.{IsKept, are_still, is_busy, has_own, new_flat};
ghost use Rattle.flat_side.specs.Holding.{parts_in};

use crate::app::FlatApp;
use attribute_propagation::{Dirty, new_sets, none_awaits, set_at, some_awaits};
use mrp_participant::Participant;
use srp_base::{Cs, NoMemory, PortNo, PortSetup};
use std::alloc::Global;
use std::marker::Model;

/// A flat application at a node (IEEE Std 802.1Q-2018, 10.3): a participant at each link port, the
/// keys that await settling there, and the keys that the application declares. Contracts see a
/// `SideHolding`: the `FlatState`, and the link port at which the side is ready, if it is at one.
#[derive(Drop)]
pub struct FlatSide<A: FlatApp> {
    pub(crate) parts: Vec<Participant<A>>,
    pub(crate) awaiting: Vec<Dirty<A::Key>>,
    pub(crate) own: Dirty<A::Key>,
    // The place of the port for whose timers and awaiting keys all memory is taken.
    pub(crate) ready: Option<usize>,
}

impl<A: FlatApp> Model for FlatSide<A> {
    ghost use Rattle.flat_side.specs.Side.{IsKept};
    ghost use Rattle.flat_side.specs.Holding.{IsReadyAs, SideHolding, flat_of};

    ghost Value = { SideHolding A.Key };

    ghost view = { λ s. record {
      state = flat_of s.parts.items s.awaiting.items s.own.keys;
      ready = s.ready;
    } };

    ghost invariant = { λ s. IsKept A.Key.cmp (flat_of s.parts.items s.awaiting.items s.own.keys)
        × IsReadyAs s.ready s.parts.items s.awaiting.items };
}

impl<A: FlatApp> FlatSide<A> {
    /// The side of a node with these link ports: no key is declared or registered, none awaits.
    /// LeaveTime and each port's period are 1 to 10,000 cs. It is ready nowhere.
    pub fn new(
        alloc: Global,
        leave_time: Cs,
        periodic: bool,
        ports: &[PortSetup],
    ) -> Result<FlatSide<A>, NoMemory>
        requires leave_time { IsTime leave_time }
        requires periods { AllByRecursion (λ p. IsTime p.period) ports.now }
        ensures { IfOk result (λ side. side
            ≡ record { state = new_flat leave_time periodic ports.now; ready = None }) }
    {
        let parts = new_parts(alloc, leave_time, periodic, ports)?;
        let awaiting = new_sets(alloc, ports)?;
        Ok(FlatSide {
            parts,
            awaiting,
            own: Dirty::new(alloc),
            ready: None,
        })
    }

    /// What every side keeps: at each port each key that doesn't await is declared exactly where
    /// another port or the application has it registered. It is a law, and does nothing.
    pub fn keeps(&self)
        ensures { IsKept A.Key.cmp self.now.state }
    {
        let _ = &self.parts;
    }

    /// The participant of a link port.
    pub fn participant(&self, port: PortNo) -> &Participant<A>
        requires { IsLinkPort port (length self.now.state.parts) }
        ensures { slice_get self.now.state.parts (place_of port) ≡ Some result.now.state }
    {
        part_at(self.parts.as_slice(), usize::from(port.0) - 1)
    }

    /// The number of keys that await settling at a link port.
    pub fn awaiting(&self, port: PortNo) -> usize
        requires { IsLinkPort port (length self.now.state.parts) }
        ensures { slice_get (map length self.now.state.awaiting) (place_of port) ≡ Some result }
    {
        set_at(self.awaiting.as_slice(), usize::from(port.0) - 1).len()
    }

    /// The number of link ports.
    pub fn ports(&self) -> usize
        ensures { result ≡ length self.now.state.parts }
    {
        self.parts.len()
    }

    /// Whether nothing is pending at any port: every participant is at rest, and no key awaits.
    pub fn still(&self) -> bool
        ensures { result ≡ are_still self.now.state }
    {
        all_still(self.parts.as_slice()) && none_awaits(self.awaiting.as_slice())
    }

    /// Whether at some port a timer is due at the moment `now`, in cs, or a key awaits.
    pub fn is_busy(&self, now: Cs) -> bool
        ensures { result ≡ is_busy now self.now.state }
    {
        any_due(self.parts.as_slice(), now) || some_awaits(self.awaiting.as_slice())
    }

    /// Whether every participant is sound: it was never spoilt, or has sent a LeaveAll since.
    pub fn all_sound(&self) -> bool
        ensures { result ≡ list_all (λ part. part.sound) self.now.state.parts }
    {
        all_sound(self.parts.as_slice())
    }

    /// Whether the application declares a key.
    pub fn declares(&self, key: A::Key) -> bool
        ensures { result ≡ has_own A.Key.cmp key self.now.state }
    {
        self.own.awaits(key)
    }
}

// The participants of new ports.
fn new_parts<A: FlatApp>(
    alloc: Global,
    leave_time: Cs,
    periodic: bool,
    ports: &[PortSetup],
) -> Result<Vec<Participant<A>>, NoMemory>
    requires leave_time { IsTime leave_time }
    requires periods { AllByRecursion (λ p. IsTime p.period) ports.now }
    ensures { IfOk result (λ v. parts_in v.items
        ≡ map (λ p. new_state p.period leave_time periodic) ports.now) }
{
    let mut parts = Vec::with_capacity(alloc, ports.len())?;
    for port in ports {
        parts.push(Participant::new(alloc, port.period, leave_time, periodic))?;
    }
    Ok(parts)
}

// The participant at a place.
pub(crate) fn part_at<A: FlatApp>(parts: &[Participant<A>], at: usize) -> &Participant<A>
    requires { at < length parts.now }
    ensures { slice_get (parts_in parts.now) at ≡ Some result.now.state }
{
    &parts[at]
}

// Whether every participant is at rest.
fn all_still<A: FlatApp>(parts: &[Participant<A>]) -> bool
    ensures { result ≡ list_all is_still (parts_in parts.now) }
{
    each_is_still(parts)
}

fn each_is_still<A: FlatApp>(parts: &[Participant<A>]) -> bool
    ensures { result ≡ list_all (λ part. is_still part.state) parts.now }
{
    parts.iter().all(|part| part.still())
}

// Whether every participant is sound.
fn all_sound<A: FlatApp>(parts: &[Participant<A>]) -> bool
    ensures { result ≡ list_all (λ part. part.sound) (parts_in parts.now) }
{
    each_is_sound(parts)
}

fn each_is_sound<A: FlatApp>(parts: &[Participant<A>]) -> bool
    ensures { result ≡ list_all (λ part. part.state.sound) parts.now }
{
    parts.iter().all(|part| part.sound())
}

// Whether a timer of some participant is due.
fn any_due<A: FlatApp>(parts: &[Participant<A>], now: Cs) -> bool
    ensures { result ≡ list_any (is_any_due now) (parts_in parts.now) }
{
    some_is_due(parts, now)
}

fn some_is_due<A: FlatApp>(parts: &[Participant<A>], now: Cs) -> bool
    ensures { result ≡ list_any (λ part. is_any_due now part.state) parts.now }
{
    parts.iter().any(|part| part.any_due(now))
}
