//! MVRP as an application of MRP (IEEE Std 802.1Q-2018, 11.2.3): its attributes are VIDs without
//! content.

ghost use Rattle.std.specs.Prelude.{IfOk};
ghost use Rattle.flat_side.specs.Codec.{IsFitting};
ghost use Rattle.mvrp.specs.Part.{base, octets, vlan_codec};
ghost use Rattle.mvrp.specs.Side.{IsWritten};

use flat_side::FlatApp;
use mrp_participant::MrpApp;
use mvrp_codec::{DecodeErr, MvrpPdu, decode, encode};
use srp_base::{MrpEvent, NoMemory, Seq, Vid};
use std::alloc::Global;

/// MVRP as an application of MRP: a key is a VID, and there is no content. A PDU takes 11 octets,
/// and each VID that stands apart 5 more.
pub struct MvrpApp;

impl MrpApp for MvrpApp {
    ghost use Rattle.std.proofs.Common.{arith, refl};
    ghost use Rattle.std.proofs.lemmas.Bool.Decides.{nat_tests};
    ghost use Rattle.mvrp.specs.Part.{base, octets};

    type Key = Vid;

    type Content = ();

    ghost base = { base };

    ghost octets = { octets };

    fn base_octets() -> usize {
        11
    }

    fn row_octets(_content: &()) -> usize {
        5
    }

    ghost one_key = { λ a b h. Prim.grind (arith, nat_tests) };

    ghost one_content = { λ a b h. refl };

    ghost base_fits = { Prim.omega arith };

    ghost row_fits = { λ c. Prim.omega arith };
}

impl FlatApp for MvrpApp {
    ghost use Rattle.mvrp.specs.Part.{vlan_codec};
    ghost use Rattle.mvrp.specs.Vids.{IsVid};

    type Pdu = MvrpPdu;

    ghost codec = { vlan_codec };

    ghost is_key = { IsVid };

    fn decode(alloc: Global, octets: &[u8]) -> Result<MvrpPdu, DecodeErr> {
        decode(alloc, octets)
    }

    fn says(pdu: MvrpPdu) -> (bool, Seq<(MrpEvent, Vid)>) {
        (pdu.leave_all, pdu.events)
    }

    #[tactic(auto, using(crate::proofs::Writable::writable))]
    fn encode(
        alloc: Global,
        leave_all: bool,
        events: Seq<(MrpEvent, Vid)>,
    ) -> Result<Seq<u8>, NoMemory>
        requires { IsFitting base (octets tt) leave_all events }
        ensures { IfOk result (λ written. IsWritten (vlan_codec.pdu_of leave_all events) written) }
    {
        let pdu = MvrpPdu { leave_all, events };
        encode(alloc, &pdu)
    }
}
