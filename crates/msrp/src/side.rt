//! The side of MSRP as contracts see it, and what it shows.

ghost use Rattle.std.specs.Prelude.{◌≡◌, ◌≤◌, ◌+◌, false, length, map, slice_get, Some, IfOk, IfSome};
ghost use Rattle.std.specs.List.{AllByRecursion, list_all, list_any};
ghost use Rattle.srp_base.specs.declared.ports.PortSetup.{PortSetup};
ghost use Rattle.mrp_participant.specs.State.{IsTime, is_still, is_any_due};
ghost use Rattle.msrp.specs.Stream.{fit_at, talkers_of};
ghost use Rattle.attribute_propagation.specs.Ports.{IsLinkPort, place_of};
ghost use Rattle.msrp.specs.Holding.{ports_in};
ghost use Rattle.msrp.specs.Side.{Streams, IsKept, are_still, has_listen, has_talk, heard_of, is_busy, new_port, new_streams, talker_of};

use crate::app::MsrpApp;
use crate::domain::DomainSet;
use crate::port::Port;
use crate::stream::{fit_at, heard_of, is_listened, is_own, talk_of, talker_of};
use attribute_propagation::{Dirty, new_sets, none_awaits, set_at, some_awaits};
use mrp_participant::Participant;
use msrp_codec::MsrpKey;
use port_ledger::Ledger;
use port_ledger::laws::every_step_keeps_a_book;
use srp_base::{
    BridgeId, Cs, ListenerKind, NoMemory, PortNo, PortSetup, StreamId, Talker, TalkerReg,
};
use std::alloc::Global;
use std::marker::Model;
use stream_importance::Fit;

/// MSRP at a node (IEEE Std 802.1Q-2018, 35.2): a participant and a ledger at each link port, the
/// keys that await settling there, and what the application talks and listens to. Contracts see a
/// `SideHolding`: the `Streams`, and whether the side is ready for the clock.
#[derive(Drop)]
pub struct MsrpSide {
    pub(crate) ports: Vec<Port>,
    pub(crate) awaiting: Vec<Dirty<MsrpKey>>,
    pub(crate) talks: Vec<Talker>,
    pub(crate) listens: Vec<StreamId>,
    pub(crate) moment: Cs,
    // Whether all memory is taken that the next clock needs.
    pub(crate) ready: bool,
}

impl Model for MsrpSide {
    ghost use Rattle.msrp.specs.Side.{IsKept};
    ghost use Rattle.msrp.specs.Holding.{IsReadyAs, SideHolding, streams_of};

    ghost Value = { SideHolding };

    ghost view = { λ s. record {
      state = streams_of s.ports.items s.awaiting.items s.talks.items s.listens.items s.moment.0;
      ready = s.ready;
    } };

    ghost invariant = { λ s.
        IsKept (streams_of s.ports.items s.awaiting.items s.talks.items s.listens.items s.moment.0)
        × IsReadyAs s.ready s.talks.items s.ports.items s.awaiting.items };
}

impl MsrpSide {
    /// The side of a node with this BridgeID and these link ports, at each of which it declares
    /// these Domain values for good: nothing else is declared, nothing is registered or booked, and
    /// nothing awaits. LeaveTime and each port's period are 1 to 10,000 cs, and the two shares of
    /// each port sum to at most 90 percent.
    pub fn new(
        alloc: Global,
        bridge: BridgeId,
        leave_time: Cs,
        periodic: bool,
        ports: &[PortSetup],
        domain: DomainSet,
    ) -> Result<MsrpSide, NoMemory>
        requires leave_time { IsTime leave_time }
        requires periods { AllByRecursion (λ p. IsTime p.period) ports.now }
        requires shares { AllByRecursion (λ p. p.delta_a + p.delta_b ≤ 90) ports.now }
        ensures { IfOk result (λ side. side
            ≡ record {
              state = new_streams bridge leave_time periodic domain ports.now;
              ready =
                  false;
            }) }
    {
        every_step_keeps_a_book();
        let awaiting = new_sets(alloc, ports)?;
        let ports = new_ports(alloc, bridge, leave_time, periodic, ports, domain)?;
        Ok(MsrpSide {
            ports,
            awaiting,
            talks: Vec::new(alloc),
            listens: Vec::new(alloc),
            moment: Cs(0),
            ready: false,
        })
    }

    /// What every side keeps: at each link port each key that doesn't await is declared exactly as
    /// the rules state it of all ports, a stream of which neither key awaits is kept as wanting
    /// exactly where it wants bandwidth, and each ledger is a ledger. It is a law, and does
    /// nothing.
    pub fn keeps(&self)
        ensures { IsKept self.now.state }
    {
        let _ = &self.ports;
    }

    /// The participant of a link port.
    pub fn participant(&self, port: PortNo) -> &Participant<MsrpApp>
        requires { IsLinkPort port (length self.now.state.ports) }
        ensures { IfSome (slice_get self.now.state.ports (place_of port)) (λ p. result.now.state
            ≡ p.part) }
    {
        self.ports[usize::from(port.0) - 1].part()
    }

    /// The ledger of a link port.
    pub fn ledger(&self, port: PortNo) -> &Ledger
        requires { IsLinkPort port (length self.now.state.ports) }
        ensures { IfSome (slice_get self.now.state.ports (place_of port)) (λ p. result.now.book
            ≡ p.ledger) }
    {
        self.ports[usize::from(port.0) - 1].ledger()
    }

    /// The number of keys that await settling at a link port.
    pub fn awaiting(&self, port: PortNo) -> usize
        requires { IsLinkPort port (length self.now.state.ports) }
        ensures { slice_get (map length self.now.state.awaiting) (place_of port) ≡ Some result }
    {
        set_at(self.awaiting.as_slice(), usize::from(port.0) - 1).len()
    }

    /// The number of link ports.
    pub fn ports(&self) -> usize
        ensures { result ≡ length self.now.state.ports }
    {
        self.ports.len()
    }

    /// What is registered of a stream at the Talker's port, the lowest-numbered port where a Talker
    /// of it is registered, the application first.
    pub fn talker(&self, stream: StreamId) -> TalkerReg
        ensures { result ≡ talker_of stream self.now.state }
    {
        talker_of(&self.view(0), stream)
    }

    /// Whether the application talks a stream.
    pub fn talks(&self, stream: StreamId) -> bool
        ensures { result ≡ has_talk stream self.now.state }
    {
        talk_of(self.talks.as_slice(), stream).is_some()
    }

    /// Whether the application listens to a stream.
    pub fn listens(&self, stream: StreamId) -> bool
        ensures { result ≡ has_listen stream self.now.state }
    {
        is_listened(self.listens.as_slice(), stream)
    }

    /// What a listening application hears of a stream: Ready where the Talker at the Talker's port
    /// is advertised, AskingFailed where it failed. None exactly where it doesn't listen, or where
    /// no link port is the Talker's port.
    pub fn heard(&self, stream: StreamId) -> Option<ListenerKind>
        ensures { result ≡ heard_of stream self.now.state }
    {
        if !is_listened(self.listens.as_slice(), stream) {
            return None;
        }
        if is_own(self.talks.as_slice(), stream) {
            return None;
        }
        heard_of(talker_of(&self.view(0), stream))
    }

    /// Whether what a stream's Talker asks for fits at a link port, by its ledger, at a moment in
    /// cs that isn't before the last clock. None exactly where the stream has no Talker's port,
    /// where that is this port, or where the Talker's priority has no SR class.
    pub fn fit(&self, now: Cs, port: PortNo, stream: StreamId) -> Option<Fit>
        requires now { self.now.state.moment ≤ now.0 }
        requires port { IsLinkPort port (length self.now.state.ports) }
        ensures { IfSome (slice_get self.now.state.ports (place_of port))
            (λ p. result ≡ fit_at now.0 (place_of port) p.ledger
            (talkers_of self.now.state.talks self.now.state.ports stream)) }
    {
        self.keeps();
        let ledger = self.ledger(port);
        fit_at(&self.view(usize::from(port.0) - 1), ledger, now, stream)
    }

    /// Whether nothing is pending at any port: every participant is at rest, and no key awaits.
    pub fn still(&self) -> bool
        ensures { result ≡ are_still self.now.state }
    {
        all_still(self.ports.as_slice()) && none_awaits(self.awaiting.as_slice())
    }

    /// Whether the participant of every port is sound.
    pub fn all_sound(&self) -> bool
        ensures { result ≡ list_all (λ p. p.part.sound) self.now.state.ports }
    {
        all_sound(self.ports.as_slice())
    }

    /// Whether at some port a timer is due at the moment `now`, in cs, or a key awaits.
    pub fn is_busy(&self, now: Cs) -> bool
        ensures { result ≡ is_busy now self.now.state }
    {
        any_due(self.ports.as_slice(), now) || some_awaits(self.awaiting.as_slice())
    }
}

// The ports of a new side.
fn new_ports(
    alloc: Global,
    bridge: BridgeId,
    leave_time: Cs,
    periodic: bool,
    ports: &[PortSetup],
    domain: DomainSet,
) -> Result<Vec<Port>, NoMemory>
    requires leave_time { IsTime leave_time }
    requires periods { AllByRecursion (λ p. IsTime p.period) ports.now }
    requires shares { AllByRecursion (λ p. p.delta_a + p.delta_b ≤ 90) ports.now }
    ensures { IfOk result (λ v. ports_in v.items
        ≡ map (new_port bridge leave_time periodic domain) ports.now) }
{
    let mut all = Vec::with_capacity(alloc, ports.len())?;
    for port in ports {
        let made = Port::new(alloc, bridge, leave_time, periodic, port, domain)?;
        all.push(made)?;
    }
    Ok(all)
}

fn all_still(ports: &[Port]) -> bool
    ensures { result ≡ list_all (λ p. is_still p.part) (ports_in ports.now) }
{
    each_is_still(ports)
}

fn each_is_still(ports: &[Port]) -> bool
    ensures { result ≡ list_all (λ p. is_still p.state.part) ports.now }
{
    ports.iter().all(|port| port.part().still())
}

fn all_sound(ports: &[Port]) -> bool
    ensures { result ≡ list_all (λ p. p.part.sound) (ports_in ports.now) }
{
    each_is_sound(ports)
}

fn each_is_sound(ports: &[Port]) -> bool
    ensures { result ≡ list_all (λ p. p.state.part.sound) ports.now }
{
    ports.iter().all(|port| port.part().sound())
}

fn any_due(ports: &[Port], now: Cs) -> bool
    ensures { result ≡ list_any (λ p. is_any_due now p.part) (ports_in ports.now) }
{
    some_is_due(ports, now)
}

fn some_is_due(ports: &[Port], now: Cs) -> bool
    ensures { result ≡ list_any (λ p. is_any_due now p.state.part) ports.now }
{
    ports.iter().any(|port| port.part().any_due(now))
}
