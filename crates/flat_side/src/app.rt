//! What an application of MRP states whose attributes go everywhere.

ghost use Rattle.std.specs.Prelude.{◌≡◌, ◌≤◌, ℕ, List, length, IfOk};
ghost use Rattle.srp_base.specs.declared.mrp.MrpEvent.{MrpEvent as Event};
ghost use Rattle.mrpdu_codec.specs.Reading.{Answers};
ghost use Rattle.flat_side.specs.Codec.{Codec, IsFitting, IsWritten};

use mrp_participant::MrpApp;
use mrpdu_codec::DecodeErr;
use srp_base::{MrpEvent, NoMemory, Seq};
use std::alloc::Global;

/// An application of MRP whose attributes have no content, and of which a port declares what
/// another has registered (IEEE Std 802.1Q-2018, 10.3): MVRP and MMRP.
pub trait FlatApp: MrpApp<Content = ()> {
    /// What a PDU of the application says.
    type Pdu: Drop;

    // What its PDUs mean and how they are written, and which keys it has.
    ghost codec: { Codec Self.Key Self.Pdu };

    ghost is_key: { Self.Key → Type 0 };

    /// What octets read as.
    ///
    /// # Errors
    ///
    /// `Malformed` exactly where they are, with the offset.
    fn decode(alloc: Global, octets: &[u8]) -> Result<Self::Pdu, DecodeErr>
        requires { length octets.now ≤ 1500 }
        ensures { Answers result (codec.reading octets.now) };

    /// Whether a PDU has LeaveAll, and its events in order.
    fn says(pdu: Self::Pdu) -> (bool, Seq<(MrpEvent, Self::Key)>)
        ensures leave_all { result.0 ≡ codec.leave_all_of pdu }
        ensures events { result.1 ≡ codec.events_of pdu };

    /// The octets of a PDU with or without LeaveAll, and with these events.
    fn encode(
        alloc: Global,
        leave_all: bool,
        events: Seq<(MrpEvent, Self::Key)>,
    ) -> Result<Seq<u8>, NoMemory>
        requires { IsFitting Self.base (Self.octets tt) leave_all events }
        ensures { IfOk result (λ octets. IsWritten codec (codec.pdu_of leave_all events) octets) };
}
