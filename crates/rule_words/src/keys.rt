//! The keys of the files: the word of each, what its value has to be, and whether it has to be
//! there.

ghost use Rattle.std.specs.Prelude.{◌≡◌};
ghost use Rattle.rule_words.specs.Keys.{word_of as word_of_spec, form_of as form_of_spec, is_needed as is_needed_spec};

use crate::forms::ValueForm;

/// A key of a file. Two keys of one word have each its own form, or only one of them has a default.
#[derive(Clone, Copy, PartialEq, Eq)]
pub(crate) enum Key {
    /// The keys of a scenario's file: how long its run is.
    Ticks,
    /// LeaveTime of MRP.
    LeaveTime,
    /// Whether participants transmit periodically.
    Periodic,
    /// Whether nodes have SRP domains.
    Domains,
    /// Its arrays of tables.
    Nodes,
    Links,
    Streams,
    Events,
    Frames,
    /// The array of tables of a ledger file.
    Wants,
    /// The name of a node or of a stream.
    Name,
    /// The keys of a node.
    NodeKind,
    /// The identifier of a node, and the StreamID of a plan's stream.
    NodeId,
    /// The SRP domain of a node.
    NodeDomain,
    /// The keys of a link: its ends.
    A,
    B,
    /// Its rate.
    LinkRate,
    /// The rate of a ledger file's port.
    PortRate,
    /// The shares of the SR classes A and B.
    DeltaA,
    DeltaB,
    /// The latency of a link.
    Latency,
    /// The keys of a stream.
    StreamId,
    Talker,
    Dest,
    StreamOctets,
    IntervalFrames,
    /// The VID of a stream, or of a frame beside the streams.
    StreamVid,
    Priority,
    Rank,
    /// The keys of an event.
    Tick,
    EventKind,
    Station,
    EventVid,
    StreamName,
    From,
    To,
    Index,
    App,
    PduOctets,
    /// The octets of a frame, of the frames of a want, and of those of a plan's stream.
    FrameOctets,
    /// The moments of a frame's copies.
    At,
    Count,
    Every,
    /// The keys of a want.
    WantStream,
    WantClass,
    WantTick,
    /// The keys of an event of groups.
    GroupEventKind,
    Mac,
    /// The keys of a plan's stream: who listens.
    Listeners,
    /// Its audio.
    Channels,
    RateKhz,
    Bits,
    PlanFrames,
    PlanClass,
    PlanDest,
}

/// The word of a key, as it stands in a file.
pub(crate) fn word_of(key: Key) -> &'static str
    ensures { result.now ≡ word_of_spec key }
{
    match key {
        Key::Ticks => "ticks",
        Key::LeaveTime => "leave_time",
        Key::Periodic => "periodic",
        Key::Domains => "domains",
        Key::Nodes => "node",
        Key::Links => "link",
        Key::Streams | Key::StreamName | Key::WantStream => "stream",
        Key::Events => "event",
        Key::Frames => "frame",
        Key::Wants => "want",
        Key::Name => "name",
        Key::NodeKind | Key::EventKind | Key::GroupEventKind => "kind",
        Key::NodeId | Key::StreamId => "id",
        Key::NodeDomain => "domain",
        Key::A => "a",
        Key::B => "b",
        Key::LinkRate | Key::PortRate => "rate",
        Key::DeltaA => "delta_a",
        Key::DeltaB => "delta_b",
        Key::Latency => "latency",
        Key::Talker => "talker",
        Key::Dest | Key::PlanDest => "dest",
        Key::StreamOctets | Key::PduOctets | Key::FrameOctets => "octets",
        Key::IntervalFrames | Key::PlanFrames => "frames",
        Key::StreamVid | Key::EventVid => "vid",
        Key::Priority => "priority",
        Key::Rank => "rank",
        Key::Tick | Key::WantTick => "tick",
        Key::Station => "station",
        Key::From => "from",
        Key::To => "to",
        Key::Index => "index",
        Key::App => "app",
        Key::At => "at",
        Key::Count => "count",
        Key::Every => "every",
        Key::WantClass | Key::PlanClass => "class",
        Key::Mac => "mac",
        Key::Listeners => "listeners",
        Key::Channels => "channels",
        Key::RateKhz => "rate_khz",
        Key::Bits => "bits",
    }
}

/// What the value at a key has to be.
pub(crate) fn form_of(key: Key) -> ValueForm
    ensures { result ≡ form_of_spec key }
{
    match key {
        Key::Ticks => ValueForm::Within {
            low: 1,
            high: 12_000,
        },
        Key::LeaveTime => ValueForm::Within { low: 60, high: 100 },
        Key::Periodic | Key::Domains => ValueForm::Truth,
        Key::Nodes | Key::Links | Key::Streams | Key::Events | Key::Frames | Key::Wants =>
            ValueForm::Tables,
        Key::Name
        | Key::A
        | Key::B
        | Key::Talker
        | Key::Station
        | Key::StreamName
        | Key::From
        | Key::To => ValueForm::Name,
        Key::NodeKind => ValueForm::NodeKind,
        Key::NodeDomain => ValueForm::Domain,
        Key::NodeId | Key::StreamId | Key::WantStream => ValueForm::Digits16,
        Key::LinkRate | Key::PortRate => ValueForm::Rate,
        Key::DeltaA | Key::DeltaB => ValueForm::Within { low: 0, high: 90 },
        Key::Latency => ValueForm::Within {
            low: 0,
            high: 4_294_967_295,
        },
        Key::Dest | Key::PlanDest | Key::Mac => ValueForm::Digits12,
        Key::StreamOctets | Key::IntervalFrames | Key::Index => ValueForm::Within {
            low: 0,
            high: 65_535,
        },
        Key::StreamVid | Key::EventVid => ValueForm::Within {
            low: 1,
            high: 4_094,
        },
        Key::Priority => ValueForm::Within { low: 0, high: 7 },
        Key::Rank => ValueForm::Within { low: 0, high: 1 },
        Key::Tick | Key::At | Key::Every => ValueForm::Number,
        Key::EventKind => ValueForm::EventKind,
        Key::App => ValueForm::App,
        Key::PduOctets => ValueForm::PduDigits,
        Key::FrameOctets => ValueForm::Within {
            low: 0,
            high: 1_500,
        },
        Key::Count => ValueForm::Within {
            low: 1,
            high: 100_000,
        },
        Key::WantClass | Key::PlanClass => ValueForm::Class,
        Key::WantTick => ValueForm::Within {
            low: 0,
            high: 11_999,
        },
        Key::GroupEventKind => ValueForm::GroupKind,
        Key::Listeners => ValueForm::Names,
        Key::Channels => ValueForm::Within { low: 1, high: 120 },
        Key::RateKhz => ValueForm::Khz,
        Key::Bits => ValueForm::Bits,
        Key::PlanFrames => ValueForm::Within { low: 1, high: 64 },
    }
}

/// Whether a key has to be there; the others have a default.
pub(crate) fn is_needed(key: Key) -> bool
    ensures { result ≡ is_needed_spec key }
{
    match key {
        Key::LeaveTime
        | Key::Periodic
        | Key::Domains
        | Key::Nodes
        | Key::Links
        | Key::Streams
        | Key::Events
        | Key::Frames
        | Key::Wants
        | Key::NodeId
        | Key::NodeDomain
        | Key::LinkRate
        | Key::DeltaA
        | Key::DeltaB
        | Key::Latency
        | Key::StreamVid
        | Key::Priority
        | Key::Rank
        | Key::Count
        | Key::Every
        | Key::WantTick
        | Key::Bits
        | Key::PlanFrames
        | Key::PlanClass
        | Key::PlanDest => false,
        _ => true,
    }
}
