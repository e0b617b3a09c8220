//! What an MRPDU says.

ghost use Rattle.std.specs.Prelude.{◌≡◌};

use srp_base::{MrpEvent, Seq};

/// An MRPDU (IEEE Std 802.1Q-2018, 10.8.1.2).
#[derive(Clone, PartialEq, Eq, Drop)]
pub struct Pdu {
    /// ProtocolVersion. Any is read, and 0 is written.
    pub version: u8,
    /// The Messages of known types, in order.
    pub messages: Seq<Message>,
}

/// The attributes of one type.
#[derive(Clone, PartialEq, Eq, Drop)]
pub struct Message {
    /// AttributeType.
    pub kind: u8,
    /// The AttributeList.
    pub vectors: Seq<VectorAttr>,
}

/// Consecutive values of a type, with an event for each (a VectorAttribute).
#[derive(Clone, PartialEq, Eq, Drop)]
pub struct VectorAttr {
    /// LeaveAllEvent.
    pub leave_all: bool,
    /// FirstValue, as the type's AttributeLength octets.
    pub first: Seq<u8>,
    /// The event of FirstValue, and of each value after it: at most 8,191.
    pub events: Seq<MrpEvent>,
    /// For a four-packed type, which MSRP's Listener alone is, a number for each event (IEEE Std
    /// 802.1Q-2018, 10.8.2.10): 0 Ignore, 1 AskingFailed, 2 Ready, 3 ReadyFailed. Else none.
    pub params: Seq<u8>,
}

impl Pdu {
    ghost use Rattle.mrpdu_codec.specs.Shape.{has_leave_all};

    /// Whether a vector of any Message has a LeaveAllEvent, which then counts for all attributes of
    /// the application, and acts before all attribute events (IEEE Std 802.1Q-2018, 10.8.2).
    pub fn has_leave_all(&self) -> bool
        ensures { result ≡ has_leave_all self.now }
    {
        self.messages.as_slice().iter().any(|m| m.leaves())
    }
}

impl Message {
    ghost use Rattle.mrpdu_codec.specs.Shape.{message_leaves};

    /// Whether a vector has a LeaveAllEvent.
    fn leaves(&self) -> bool
        ensures { result ≡ message_leaves self.now }
    {
        self.vectors.as_slice().iter().any(|v| v.leave_all)
    }
}
