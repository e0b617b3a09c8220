//! A node, how it is made, and what it shows.

ghost use Rattle.std.specs.Prelude.{◌≡◌, ◌≤◌, ◌+◌, [], false, length, map, slice_get, option_map, option_and_then, IfOk};
ghost use Rattle.std.specs.List.{AllByRecursion};
ghost use Rattle.mrp_participant.specs.State.{IsTime};
ghost use Rattle.port_ledger.specs.Book.{entry_of};
ghost use Rattle.attribute_propagation.specs.Ports.{IsLinkPort, place_of};
ghost use Rattle.mvrp.specs.Side.{has_own};
ghost use Rattle.msrp.specs.Side.{has_listen, has_talk, heard_of, talker_of};
ghost use Rattle.node_core.specs.State.{ports_of, new_node, box_at, are_empty, are_all_sound, is_still_node, is_sound_at, registrar_at, content_at, registered_keys, if_booked, booked_at, bookings_at, slope_at, fit_of};
ghost use Rattle.node_core.specs.Links.{IsKeptNode};
ghost use Rattle.node_core.specs.Proper.{IsProperNode};

use crate::inbox::{Inbox, all_taken};
use crate::laws::a_new_node_is_proper;
use crate::naming::push_keys;
use crate::types::{NodeKey, Wire};
use msrp::{DomainSet, MsrpSide};
use msrp_codec::{MsrpContent, MsrpKey};
use mvrp::MvrpSide;
use port_ledger::Ledger;
use registrar::Registrar;
use srp_base::{
    App, BridgeId, Class, Cs, ListenerKind, NoMemory, PortNo, PortSetup, Seq, StreamId, TalkerReg,
    Vid,
};
use std::alloc::Global;
use std::marker::Model;
use stream_importance::{Entry, Fit};
use tree_topology::NodeKind;

/// A node, a bridge or a station. Contracts see a `NodeHolding`: the `NodeState`, and whether the
/// node is ready for the clock.
#[derive(Drop)]
pub struct Node {
    pub(crate) kind: NodeKind,
    pub(crate) bridge: BridgeId,
    pub(crate) clock: Cs,
    pub(crate) mvrp: MvrpSide,
    pub(crate) msrp: MsrpSide,
    pub(crate) inboxes: Vec<Inbox>,
    pub(crate) outboxes: Vec<Seq<Wire>>,
    // Whether `clock_room` was called since the last step. Contracts see readiness by it, and
    // nothing else reads it.
    pub(crate) ready: bool,
}

impl Model for Node {
    ghost use Rattle.std.specs.Prelude.{◌+◌, ◌&&◌};
    ghost use Rattle.node_core.specs.Holding.{NodeHolding, is_ready_at};
    ghost use Rattle.node_core.specs.Proper.{IsProperNode};

    ghost Value = { NodeHolding };

    ghost view = { λ n. record {
      state = record {
        kind = n.kind;
        bridge = n.bridge;
        clock = n.clock;
        vlans = n.mvrp.state;
        streams = n.msrp.state;
        inboxes = n.inboxes.items;
        outboxes = n.outboxes.items;
      };
      ready = n.ready && is_ready_at (n.clock.0 + 1) n.msrp;
    } };

    ghost invariant = { λ n. IsProperNode (record {
      kind = n.kind;
      bridge = n.bridge;
      clock = n.clock;
      vlans = n.mvrp.state;
      streams = n.msrp.state;
      inboxes = n.inboxes.items;
      outboxes = n.outboxes.items;
    }) };
}

impl Node {
    /// A node with these link ports, at the moment 0: at each of them it declares these Domain
    /// values of MSRP for good (IEEE Std 802.1Q-2018, 35.2.2.9), nothing else is declared, nothing
    /// is registered or booked, and no PDU waits. LeaveTime and each port's period are 1 to 10,000
    /// cs, and the two shares of each port sum to at most 90 percent.
    pub fn new(
        alloc: Global,
        kind: NodeKind,
        bridge: BridgeId,
        leave_time: Cs,
        periodic: bool,
        ports: &[PortSetup],
        domain: DomainSet,
    ) -> Result<Node, NoMemory>
        requires few { length ports.now ≤ 255 }
        requires shares { AllByRecursion (λ p. p.delta_a + p.delta_b ≤ 90) ports.now }
        requires leave_time { IsTime leave_time }
        requires periods { AllByRecursion (λ p. IsTime p.period) ports.now }
        ensures { IfOk result (λ node. node
            ≡ record {
              state = new_node kind bridge leave_time periodic domain ports.now;
              ready = false;
            }) }
    {
        a_new_node_is_proper();
        let mvrp = MvrpSide::new(alloc, leave_time, periodic, ports)?;
        let msrp = MsrpSide::new(alloc, bridge, leave_time, periodic, ports, domain)?;
        let inboxes = new_inboxes(alloc, ports)?;
        let outboxes = new_outboxes(alloc, ports)?;
        Ok(Node {
            kind,
            bridge,
            clock: Cs(0),
            mvrp,
            msrp,
            inboxes,
            outboxes,
            ready: false,
        })
    }

    /// What every node keeps: its VIDs, Talkers and Listeners are settled but for those that await,
    /// and its ports have short PDUs alone. It is a law, and does nothing.
    pub fn keeps(&self)
        ensures { IsKeptNode self.now.state }
    {
        let _ = &self.mvrp;
    }

    /// All that every node keeps, that and more: each VID is one, each number that it keeps or that
    /// a PDU at a port says fits in its field, and a bridge asks for nothing. It is a law, and does
    /// nothing.
    pub fn keeps_all(&self)
        ensures { IsProperNode self.now.state }
    {
        let _ = &self.mvrp;
    }

    /// The clock, in cs.
    pub fn now(&self) -> Cs
        ensures { result ≡ self.now.state.clock }
    {
        self.clock
    }

    /// The node's identifier.
    pub fn bridge(&self) -> BridgeId
        ensures { result ≡ self.now.state.bridge }
    {
        self.bridge
    }

    /// Whether it is a bridge or a station.
    pub fn kind(&self) -> NodeKind
        ensures { result ≡ self.now.state.kind }
    {
        self.kind
    }

    /// The number of link ports.
    pub fn ports(&self) -> u8
        ensures { result ≡ ports_of self.now.state }
    {
        self.mvrp.ports() as u8
    }

    /// The application of the PDU with this index in a port's inbox, counted from 0; None exactly
    /// where no PDU has it.
    pub fn app_at(&self, port: PortNo, index: u32) -> Option<App>
        requires { IsLinkPort port (ports_of self.now.state) }
        ensures { result
            ≡ option_map (λ w. w.app)
            (slice_get (box_at (place_of port) self.now.state.inboxes) index) }
    {
        self.inboxes[usize::from(port.0) - 1]
            .get(index as usize)
            .map(|wire| wire.app)
    }

    /// The number of PDUs that wait in a port's inbox.
    pub fn pending_pdus(&self, port: PortNo) -> usize
        requires { IsLinkPort port (ports_of self.now.state) }
        ensures { result ≡ length (box_at (place_of port) self.now.state.inboxes) }
    {
        self.inboxes[usize::from(port.0) - 1].len()
    }

    /// The state of the registrar of an attribute at a port.
    pub fn registrar(&self, port: PortNo, key: NodeKey) -> Registrar
        requires { IsLinkPort port (ports_of self.now.state) }
        ensures { result ≡ registrar_at key (place_of port) self.now.state }
    {
        match key {
            NodeKey::Vlan(vid) => self.mvrp.participant(port).registrar(vid),
            NodeKey::Srp(key) => self.msrp.participant(port).registrar(key),
        }
    }

    /// What is registered of an attribute of MSRP at a port. None exactly where its registrar is
    /// MT.
    pub fn content(&self, port: PortNo, key: MsrpKey) -> Option<MsrpContent>
        requires { IsLinkPort port (ports_of self.now.state) }
        ensures { result ≡ content_at key (place_of port) self.now.state }
    {
        self.msrp.participant(port).registered(key)
    }

    /// The attributes that are registered at a port: VIDs, and then those of MSRP, each kind
    /// ascending.
    pub fn keys(&self, port: PortNo) -> Result<Seq<NodeKey>, NoMemory>
        requires { IsLinkPort port (ports_of self.now.state) }
        ensures { IfOk result (λ keys. keys ≡ registered_keys (place_of port) self.now.state) }
    {
        let mut keys = Vec::new(*self.inboxes.allocator());
        push_keys(&mut keys, self.mvrp.participant(port))?;
        push_keys(&mut keys, self.msrp.participant(port))?;
        Ok(Seq::from_vec(keys))
    }

    /// The booked entry of a stream in a port's ledger; None exactly where it isn't booked there.
    pub fn booked(&self, port: PortNo, stream: StreamId) -> Option<Entry>
        requires { IsLinkPort port (ports_of self.now.state) }
        ensures { result ≡ booked_at stream (place_of port) self.now.state }
    {
        booked_entry(self.msrp.ledger(port), stream)
    }

    /// The booked entries of a port's ledger, ascending by StreamID.
    pub fn bookings(&self, port: PortNo) -> Result<Seq<Entry>, NoMemory>
        requires { IsLinkPort port (ports_of self.now.state) }
        ensures { IfOk result (λ entries. entries ≡ bookings_at (place_of port) self.now.state) }
    {
        self.msrp.ledger(port).bookings()
    }

    /// The slopes of the streams of a class that are booked at a port together, in bit/s.
    pub fn slope(&self, port: PortNo, class: Class) -> u128
        requires { IsLinkPort port (ports_of self.now.state) }
        ensures { result ≡ slope_at class (place_of port) self.now.state }
    {
        self.msrp.ledger(port).slope(class)
    }

    /// What is registered of a stream at the Talker's port, the lowest-numbered port where a Talker
    /// of it is registered, the application first; Absent where there is none.
    pub fn talker(&self, stream: StreamId) -> TalkerReg
        ensures { result ≡ talker_of stream self.now.state.streams }
    {
        self.msrp.talker(stream)
    }

    /// Whether what a stream's Talker asks for fits at a port, by its ledger. None exactly where
    /// the stream has no Talker's port, where that is this port, or where the Talker's priority has
    /// no SR class.
    pub fn fit(&self, port: PortNo, stream: StreamId) -> Option<Fit>
        requires { IsLinkPort port (ports_of self.now.state) }
        ensures { result ≡ fit_of (place_of port) stream self.now.state }
    {
        self.msrp.fit(self.clock, port, stream)
    }

    /// Whether the application of the station declares a VID.
    pub fn declares(&self, vid: Vid) -> bool
        ensures { result ≡ has_own vid self.now.state.vlans }
    {
        self.mvrp.declares(vid)
    }

    /// Whether it talks a stream.
    pub fn talks(&self, stream: StreamId) -> bool
        ensures { result ≡ has_talk stream self.now.state.streams }
    {
        self.msrp.talks(stream)
    }

    /// Whether it listens to a stream.
    pub fn listens(&self, stream: StreamId) -> bool
        ensures { result ≡ has_listen stream self.now.state.streams }
    {
        self.msrp.listens(stream)
    }

    /// What a listening application hears of a stream: Ready where the Talker at the Talker's port
    /// is advertised, AskingFailed where it failed. None exactly where it doesn't listen, or where
    /// no link port is the Talker's port.
    pub fn heard(&self, stream: StreamId) -> Option<ListenerKind>
        ensures { result ≡ heard_of stream self.now.state.streams }
    {
        self.msrp.heard(stream)
    }

    /// Whether nothing is pending at the node: no PDU waits in an inbox or an outbox, every
    /// participant is at rest, and no attribute awaits.
    pub fn still(&self) -> bool
        ensures { result ≡ is_still_node self.now.state }
    {
        all_taken(self.inboxes.as_slice())
            && all_empty(self.outboxes.as_slice())
            && self.mvrp.still()
            && self.msrp.still()
    }

    /// Whether every port is sound, in each application.
    pub fn all_sound(&self) -> bool
        ensures { result ≡ are_all_sound self.now.state }
    {
        self.mvrp.all_sound() && self.msrp.all_sound()
    }

    /// Whether the participant of an application at a port is sound: it was never spoilt, or has
    /// sent a LeaveAll since.
    pub fn sound(&self, port: PortNo, app: App) -> bool
        requires { IsLinkPort port (ports_of self.now.state) }
        ensures { result ≡ is_sound_at app (place_of port) self.now.state }
    {
        match app {
            App::Mvrp => self.mvrp.participant(port).sound(),
            App::Msrp => self.msrp.participant(port).sound(),
        }
    }
}

// An empty inbox for each port.
fn new_inboxes(alloc: Global, ports: &[PortSetup]) -> Result<Vec<Inbox>, NoMemory>
    ensures { IfOk result (λ v. v.items ≡ map (λ _. []) ports.now) }
{
    let mut boxes = Vec::with_capacity(alloc, ports.len())?;
    for port in ports {
        let _ = port;
        boxes.push(Inbox::new(alloc))?;
    }
    Ok(boxes)
}

// An empty outbox for each port.
fn new_outboxes(alloc: Global, ports: &[PortSetup]) -> Result<Vec<Seq<Wire>>, NoMemory>
    ensures { IfOk result (λ v. v.items ≡ map (λ _. []) ports.now) }
{
    let mut boxes = Vec::with_capacity(alloc, ports.len())?;
    for port in ports {
        let _ = port;
        boxes.push(Seq::new(alloc))?;
    }
    Ok(boxes)
}

// An entry of a stream in a ledger, where it is booked.
fn booked_entry(ledger: &Ledger, stream: StreamId) -> Option<Entry>
    ensures { result ≡ option_and_then if_booked (entry_of ledger.now.book.entries stream) }
{
    ledger.entry(stream).filter(|entry| entry.since.is_some())
}

// Whether no PDU waits in any of these boxes.
fn all_empty(boxes: &[Seq<Wire>]) -> bool
    ensures { result ≡ are_empty boxes.now }
{
    boxes.iter().all(|wires| wires.len() == 0)
}
