//! The tables of the files: which keys each may have.

ghost use Rattle.std.specs.Prelude.{◌≡◌};
ghost use Rattle.rule_words.specs.Tables.{keys_apart as keys_apart_spec, keys_of as keys_of_spec, is_closed as is_closed_spec, keys_together as keys_together_spec};

use crate::keys::Key;

/// What a table of a file is, by the keys that it may have.
#[derive(Clone, Copy, PartialEq, Eq)]
pub(crate) enum TableForm {
    /// A scenario's file, as far as its run's length goes.
    Times,
    /// A scenario's file.
    Scenario,
    /// A scenario's file, as far as the times of MRP and the domains go.
    Timers,
    /// A node.
    Node,
    /// A node of a file with SRP domains.
    DomainNode,
    /// A link.
    Link,
    /// A stream.
    Stream,
    /// An event of no known kind.
    AnyEvent,
    /// An event of a VLAN at a station.
    VlanEvent,
    /// An event of a stream at its talker.
    TalkerEvent,
    /// An event of a stream at a station that may listen to it.
    ListenerEvent,
    /// An event of a PDU that waits at a node.
    PduEvent,
    /// An event of a PDU that no neighbour sent.
    ForgeryEvent,
    /// Frames in a stream.
    StreamFrame,
    /// Frames beside the streams.
    PairFrame,
    /// A ledger file.
    Port,
    /// A ledger file, as far as the shares of the SR classes go.
    Shares,
    /// A ledger file, as far as its array goes.
    WantArray,
    /// A want.
    Want,
    /// A file of groups.
    Groups,
    /// A file of groups or a plan, as far as its nodes and links are arrays.
    Network,
    /// A file of groups, as far as the times of MRP go.
    GroupTimers,
    /// An event of groups of no known kind.
    AnyGroupEvent,
    /// An event of a group at a station.
    MemberEvent,
    /// A plan.
    Plan,
    /// A plan, as far as its domains go.
    PlanDomains,
    /// A plan's stream of so many octets.
    SizedStream,
    /// A plan's stream of audio.
    AudioStream,
}

const TIMES_KEYS: [Key; 1] = [Key::Ticks];

const SCENARIO_KEYS: [Key; 9] = [
    Key::Nodes,
    Key::Links,
    Key::Streams,
    Key::Events,
    Key::Frames,
    Key::Ticks,
    Key::LeaveTime,
    Key::Periodic,
    Key::Domains,
];

const TIMERS_KEYS: [Key; 3] = [Key::LeaveTime, Key::Periodic, Key::Domains];

const NODE_KEYS: [Key; 3] = [Key::Name, Key::NodeKind, Key::NodeId];

const DOMAIN_NODE_KEYS: [Key; 4] = [Key::Name, Key::NodeKind, Key::NodeId, Key::NodeDomain];

const LINK_KEYS: [Key; 6] = [
    Key::A,
    Key::B,
    Key::LinkRate,
    Key::DeltaA,
    Key::DeltaB,
    Key::Latency,
];

const STREAM_KEYS: [Key; 9] = [
    Key::Name,
    Key::Talker,
    Key::StreamId,
    Key::Dest,
    Key::StreamOctets,
    Key::IntervalFrames,
    Key::StreamVid,
    Key::Priority,
    Key::Rank,
];

const ANY_EVENT_KEYS: [Key; 2] = [Key::Tick, Key::EventKind];

const VLAN_EVENT_KEYS: [Key; 4] = [Key::Tick, Key::EventKind, Key::Station, Key::EventVid];

const TALKER_EVENT_KEYS: [Key; 3] = [Key::Tick, Key::EventKind, Key::StreamName];

const LISTENER_EVENT_KEYS: [Key; 4] = [Key::Tick, Key::EventKind, Key::Station, Key::StreamName];

const PDU_EVENT_KEYS: [Key; 5] = [Key::Tick, Key::EventKind, Key::From, Key::To, Key::Index];

const FORGERY_EVENT_KEYS: [Key; 7] = [
    Key::Tick,
    Key::EventKind,
    Key::From,
    Key::To,
    Key::Index,
    Key::App,
    Key::PduOctets,
];

const STREAM_FRAME_KEYS: [Key; 5] = [
    Key::StreamName,
    Key::FrameOctets,
    Key::At,
    Key::Count,
    Key::Every,
];

const PAIR_FRAME_KEYS: [Key; 7] = [
    Key::From,
    Key::To,
    Key::StreamVid,
    Key::FrameOctets,
    Key::At,
    Key::Count,
    Key::Every,
];

const PORT_KEYS: [Key; 4] = [Key::PortRate, Key::DeltaA, Key::DeltaB, Key::Wants];

const SHARES_KEYS: [Key; 2] = [Key::DeltaA, Key::DeltaB];

const WANT_ARRAY_KEYS: [Key; 1] = [Key::Wants];

const WANT_KEYS: [Key; 6] = [
    Key::WantStream,
    Key::WantClass,
    Key::Rank,
    Key::IntervalFrames,
    Key::FrameOctets,
    Key::WantTick,
];

const GROUPS_KEYS: [Key; 6] = [
    Key::Nodes,
    Key::Links,
    Key::Events,
    Key::Ticks,
    Key::LeaveTime,
    Key::Periodic,
];

const NETWORK_KEYS: [Key; 2] = [Key::Nodes, Key::Links];

const GROUP_TIMERS_KEYS: [Key; 2] = [Key::LeaveTime, Key::Periodic];

const ANY_GROUP_EVENT_KEYS: [Key; 2] = [Key::Tick, Key::GroupEventKind];

const MEMBER_EVENT_KEYS: [Key; 4] = [Key::Tick, Key::GroupEventKind, Key::Station, Key::Mac];

const PLAN_KEYS: [Key; 4] = [Key::Nodes, Key::Links, Key::Streams, Key::Domains];

const PLAN_DOMAINS_KEYS: [Key; 1] = [Key::Domains];

const SIZED_STREAM_KEYS: [Key; 10] = [
    Key::Name,
    Key::Talker,
    Key::Listeners,
    Key::FrameOctets,
    Key::PlanFrames,
    Key::PlanClass,
    Key::StreamVid,
    Key::Rank,
    Key::NodeId,
    Key::PlanDest,
];

const AUDIO_STREAM_KEYS: [Key; 12] = [
    Key::Name,
    Key::Talker,
    Key::Listeners,
    Key::Channels,
    Key::RateKhz,
    Key::Bits,
    Key::PlanFrames,
    Key::PlanClass,
    Key::StreamVid,
    Key::Rank,
    Key::NodeId,
    Key::PlanDest,
];

/// The keys that a table of this form may have, in the order in which they are read.
pub(crate) fn keys_of(form: TableForm) -> &'static [Key]
    ensures { result.now ≡ keys_of_spec form }
{
    match form {
        TableForm::Times => TIMES_KEYS.as_slice(),
        TableForm::Scenario => SCENARIO_KEYS.as_slice(),
        TableForm::Timers => TIMERS_KEYS.as_slice(),
        TableForm::Node => NODE_KEYS.as_slice(),
        TableForm::DomainNode => DOMAIN_NODE_KEYS.as_slice(),
        TableForm::Link => LINK_KEYS.as_slice(),
        TableForm::Stream => STREAM_KEYS.as_slice(),
        TableForm::AnyEvent => ANY_EVENT_KEYS.as_slice(),
        TableForm::VlanEvent => VLAN_EVENT_KEYS.as_slice(),
        TableForm::TalkerEvent => TALKER_EVENT_KEYS.as_slice(),
        TableForm::ListenerEvent => LISTENER_EVENT_KEYS.as_slice(),
        TableForm::PduEvent => PDU_EVENT_KEYS.as_slice(),
        TableForm::ForgeryEvent => FORGERY_EVENT_KEYS.as_slice(),
        TableForm::StreamFrame => STREAM_FRAME_KEYS.as_slice(),
        TableForm::PairFrame => PAIR_FRAME_KEYS.as_slice(),
        TableForm::Port => PORT_KEYS.as_slice(),
        TableForm::Shares => SHARES_KEYS.as_slice(),
        TableForm::WantArray => WANT_ARRAY_KEYS.as_slice(),
        TableForm::Want => WANT_KEYS.as_slice(),
        TableForm::Groups => GROUPS_KEYS.as_slice(),
        TableForm::Network => NETWORK_KEYS.as_slice(),
        TableForm::GroupTimers => GROUP_TIMERS_KEYS.as_slice(),
        TableForm::AnyGroupEvent => ANY_GROUP_EVENT_KEYS.as_slice(),
        TableForm::MemberEvent => MEMBER_EVENT_KEYS.as_slice(),
        TableForm::Plan => PLAN_KEYS.as_slice(),
        TableForm::PlanDomains => PLAN_DOMAINS_KEYS.as_slice(),
        TableForm::SizedStream => SIZED_STREAM_KEYS.as_slice(),
        TableForm::AudioStream => AUDIO_STREAM_KEYS.as_slice(),
    }
}

/// Whether a table of this form has no other keys. Of the others only a part is looked at.
pub(crate) fn is_closed(form: TableForm) -> bool
    ensures { result ≡ is_closed_spec form }
{
    match form {
        TableForm::Times
        | TableForm::Timers
        | TableForm::AnyEvent
        | TableForm::Shares
        | TableForm::WantArray
        | TableForm::Network
        | TableForm::GroupTimers
        | TableForm::AnyGroupEvent
        | TableForm::PlanDomains => false,
        _ => true,
    }
}

const AUDIO_KEYS: [Key; 2] = [Key::RateKhz, Key::Bits];

const SIZE_KEYS: [Key; 1] = [Key::FrameOctets];

/// The keys that go with the other form of a plan's stream.
pub(crate) fn keys_apart(form: TableForm) -> &'static [Key]
    ensures { result.now ≡ keys_apart_spec form }
{
    match form {
        TableForm::SizedStream => AUDIO_KEYS.as_slice(),
        TableForm::AudioStream => SIZE_KEYS.as_slice(),
        _ => NONE.as_slice(),
    }
}

const SHARES: [Key; 2] = [Key::DeltaA, Key::DeltaB];

const MOMENT: [Key; 1] = [Key::Tick];

const COPIES: [Key; 3] = [Key::At, Key::Count, Key::Every];

const STREAMS: [Key; 1] = [Key::Streams];

const AUDIO: [Key; 4] = [Key::Channels, Key::RateKhz, Key::Bits, Key::PlanClass];

const NONE: [Key; 0] = [];

/// The keys whose values, each right by itself, may be wrong together or beside the file's times.
pub(crate) fn keys_together(form: TableForm) -> &'static [Key]
    ensures { result.now ≡ keys_together_spec form }
{
    match form {
        TableForm::Link | TableForm::Shares => SHARES.as_slice(),
        TableForm::AnyEvent
        | TableForm::VlanEvent
        | TableForm::TalkerEvent
        | TableForm::ListenerEvent
        | TableForm::PduEvent
        | TableForm::ForgeryEvent
        | TableForm::AnyGroupEvent
        | TableForm::MemberEvent => MOMENT.as_slice(),
        TableForm::StreamFrame | TableForm::PairFrame => COPIES.as_slice(),
        TableForm::Plan => STREAMS.as_slice(),
        TableForm::AudioStream => AUDIO.as_slice(),
        _ => NONE.as_slice(),
    }
}
