//! What MSRP reads and writes.

ghost use Rattle.std.specs.Prelude.{◌≡◌};
ghost use Rattle.msrp_codec.specs.Content.{type_of_content, octets_of, base_octets, stream_of, class_of};

use crate::attribute_type::AttributeType;
use srp_base::{Failure, ListenerKind, MrpEvent, Seq, StreamId, Talker};

/// What a declaration is of. Keys are ordered as they stand here, and then by number.
#[derive(Clone, Copy, PartialEq, Eq, PartialOrd, Ord)]
pub enum MsrpKey {
    /// The Talker of a stream, whether Talker Advertise or Talker Failed.
    Talker(StreamId),
    /// The Listeners of a stream.
    Listener(StreamId),
    /// The Domain of this SRclassID.
    Domain(u8),
}

/// What is declared.
#[derive(Clone, Copy, PartialEq, Eq)]
pub enum MsrpContent {
    /// Talker Advertise.
    Advertise(Talker),
    /// Talker Failed, with why.
    Failed(Talker, Failure),
    /// Listener, with its FourPackedEvent.
    Listener(ListenerKind),
    /// Domain.
    Domain {
        /// SRclassPriority.
        priority: u8,
        /// SRclassVID.
        vid: u16,
    },
}

/// What an MRPDU of MSRP says.
#[derive(Clone, PartialEq, Eq, Drop)]
pub struct MsrpPdu {
    /// Whether any vector has a LeaveAll, which counts for all keys and acts before all events.
    pub leave_all: bool,
    /// The events of keys, each with what it declares, in the order of the octets.
    pub events: Seq<(MrpEvent, MsrpKey, MsrpContent)>,
}

impl MsrpContent {
    /// The attribute type that carries it.
    pub fn attribute_type(&self) -> AttributeType
        ensures { result ≡ type_of_content self.now }
    {
        match self {
            MsrpContent::Advertise(_) => AttributeType::Advertise,
            MsrpContent::Failed(_, _) => AttributeType::Failed,
            MsrpContent::Listener(_) => AttributeType::Listener,
            MsrpContent::Domain { .. } => AttributeType::Domain,
        }
    }
}

/// The stream of a key; a Domain has none.
pub(crate) fn stream_of(key: MsrpKey) -> StreamId
    ensures { result ≡ stream_of key }
{
    match key {
        MsrpKey::Talker(stream) => stream,
        MsrpKey::Listener(stream) => stream,
        MsrpKey::Domain(_) => StreamId(0),
    }
}

/// The SRclassID of a key; a stream has none.
pub(crate) fn class_of(key: MsrpKey) -> u8
    ensures { result ≡ class_of key }
{
    match key {
        MsrpKey::Talker(_) => 0,
        MsrpKey::Listener(_) => 0,
        MsrpKey::Domain(class) => class,
    }
}

/// The stated octets of an MRPDU without declarations: it takes no more, also with a LeaveAll of
/// every type.
pub const fn base_octets() -> usize
    ensures { result ≡ base_octets }
{
    106
}

/// The stated octets of a declaration: an MRPDU takes no more for it.
pub fn row_octets(content: &MsrpContent) -> usize
    ensures { result ≡ octets_of content.now }
{
    match content {
        MsrpContent::Advertise(_) => 28,
        MsrpContent::Failed(_, _) => 37,
        MsrpContent::Listener(_) => 12,
        MsrpContent::Domain { .. } => 7,
    }
}
