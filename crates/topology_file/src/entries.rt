//! The entries of a scenario: nodes, links, streams, events and frames, with defaults filled in and
//! names replaced by numbers.

use srp_base::{App, BridgeId, Mac, NodeNo, Percent, Priority, Rank, Rate, Seq, StreamId, Vid};
use tree_topology::NodeKind;

/// A node.
#[derive(PartialEq, Eq, Drop)]
pub struct NodeEntry {
    /// The bytes of its name: 1 to 32 characters a to z, 0 to 9, `-` and `_`.
    pub name: Seq<u8>,
    /// An end station or a bridge.
    pub kind: NodeKind,
    /// Its identifier, the node's number where the file gives none.
    pub id: BridgeId,
    /// The SRP domain that its ports say they are in, where the scenario has domains.
    pub domain: DomainWord,
}

/// For which SR classes a node's ports are in the SRP domain (IEEE Std 802.1Q-2018, 35.1.4,
/// 35.2.2.9).
#[derive(Clone, Copy, PartialEq, Eq)]
pub enum DomainWord {
    /// For SR class A and for SR class B.
    Both,
    /// For SR class A alone.
    OnlyA,
    /// For none.
    Nothing,
}

/// A link, with values that hold in both its directions.
#[derive(Clone, Copy, PartialEq, Eq)]
pub struct LinkEntry {
    /// The node at its one end.
    pub a: NodeNo,
    /// The node at its other end.
    pub b: NodeNo,
    /// 100 Mb/s, 1 Gb/s or 10 Gb/s.
    pub rate: Rate,
    /// The share of SR class A in percent of the rate: 0 to 90, and with class B 90 at most (IEEE
    /// Std 802.1Q-2018, 34.3).
    pub delta_a: Percent,
    /// The share of SR class B in percent of the rate.
    pub delta_b: Percent,
    /// The latency in ns.
    pub latency: u32,
}

/// A stream: who talks in it, and what its Talker declares (IEEE Std 802.1Q-2018, 35.2.2.8).
#[derive(PartialEq, Eq, Drop)]
pub struct StreamEntry {
    /// The bytes of its name: 1 to 32 characters a to z, 0 to 9, `-` and `_`.
    pub name: Seq<u8>,
    pub id: StreamId,
    /// The station that talks.
    pub talker: NodeNo,
    /// The destination address of its frames.
    pub dest: Mac,
    /// MaxFrameSize, the most octets of a frame's data.
    pub octets: u16,
    /// MaxIntervalFrames, the most frames in a class measurement interval.
    pub frames: u16,
    /// The VID of its frames: 1 to 4,094.
    pub vid: Vid,
    /// The priority of its frames: 3 is SR class A, 2 SR class B, and no other is of an SR class
    /// (34.5).
    pub priority: Priority,
    /// The Rank bit: emergency traffic, or all other (35.2.2.8.5).
    pub rank: Rank,
}

/// An event of a tick.
#[derive(PartialEq, Eq, Drop)]
pub struct EventEntry {
    /// The tick in cs from the start, below the scenario's ticks.
    pub tick: u64,
    pub kind: EventKind,
}

/// What happens. A stream is named by its entry's number, from 1.
#[derive(Clone, PartialEq, Eq, Drop)]
pub enum EventKind {
    /// A station's application declares a VID.
    Declare {
        station: NodeNo,
        vid: Vid,
    },
    /// A station's application withdraws a VID.
    Withdraw {
        station: NodeNo,
        vid: Vid,
    },
    /// The application of a stream's station declares its Talker.
    Talk {
        stream: u16,
    },
    /// The application of a stream's station withdraws its Talker.
    Hush {
        stream: u16,
    },
    /// A station's application listens to a stream in which another station talks.
    Listen {
        station: NodeNo,
        stream: u16,
    },
    /// A station's application stops listening to a stream.
    Unlisten {
        station: NodeNo,
        stream: u16,
    },
    /// The PDU of this index, from 0 to 65,535, is lost: of those that wait at `to` and come from
    /// `from`.
    Lose {
        from: NodeNo,
        to: NodeNo,
        index: u32,
    },
    /// The PDU of this index comes twice.
    Repeat {
        from: NodeNo,
        to: NodeNo,
        index: u32,
    },
    /// A PDU that `from` didn't send stands at this index, of an application, of at most 1,500
    /// octets.
    Forge {
        from: NodeNo,
        to: NodeNo,
        index: u32,
        app: App,
        octets: Seq<u8>,
    },
}

/// A frame with its copies. The i-th copy, from 0, stands at `at + i * every`.
#[derive(Clone, Copy, PartialEq, Eq)]
pub struct FrameEntry {
    pub route: FrameRoute,
    /// The octets of its data, without the 42 octets of overhead: 0 to 1,500.
    pub octets: u16,
    /// The moment of its first copy in ns from the run's start.
    pub at: u64,
    /// How many copies it has, 1 to 100,000.
    pub count: u32,
    /// How far apart they are, in ns.
    pub every: u64,
}

/// Where a frame goes, and as what.
#[derive(Clone, Copy, PartialEq, Eq)]
pub enum FrameRoute {
    /// From a stream's talker, with the stream's VID and the traffic of its priority's class.
    OfStream { stream: u16 },
    /// From one station to another, as other traffic.
    Between { from: NodeNo, to: NodeNo, vid: Vid },
}

/// The values of a stream that its Talker declares.
#[derive(Clone, Copy)]
pub(crate) struct StreamValues {
    pub(crate) id: StreamId,
    pub(crate) dest: Mac,
    pub(crate) octets: u16,
    pub(crate) frames: u16,
    pub(crate) vid: Vid,
    pub(crate) priority: Priority,
    pub(crate) rank: Rank,
}

/// A stream entry that has its form; its talker is missing where there is no station of this name.
#[derive(Drop)]
pub(crate) struct StreamForm {
    pub(crate) name: Seq<u8>,
    pub(crate) talker: Option<NodeNo>,
    pub(crate) values: StreamValues,
}

/// An event entry that has its form; what happens is missing where what it names isn't there.
#[derive(Drop)]
pub(crate) struct EventForm {
    pub(crate) tick: u64,
    pub(crate) kind: Option<EventKind>,
}

/// The moments of a frame's copies in ns.
#[derive(Clone, Copy)]
pub(crate) struct FrameTimes {
    pub(crate) at: u64,
    pub(crate) count: u32,
    pub(crate) every: u64,
}

/// A frame entry that has its form; its route is missing where what it names isn't there.
#[derive(Clone, Copy)]
pub(crate) struct FrameForm {
    pub(crate) route: Option<FrameRoute>,
    pub(crate) octets: u16,
    pub(crate) times: FrameTimes,
}
