//! MMRP as an application of MRP (IEEE Std 802.1Q-2018, 10.12.1): its attributes are MAC addresses
//! without content.

ghost use Rattle.std.specs.Prelude.{IfOk};
ghost use Rattle.flat_side.specs.Codec.{IsFitting};
ghost use Rattle.mmrp.specs.Macs.{base, octets, mac_codec, IsWritten};

use flat_side::{FlatApp, FlatSide};
use link_app::FlatLinkApp;
use link_node::Node;
use mmrp_codec::laws::{what_is_read_has_macs, what_is_written_is_read};
use mmrp_codec::{DecodeErr, GroupPdu, decode, encode};
use mrp_participant::MrpApp;
use srp_base::{Mac, MrpEvent, NoMemory, Seq};
use std::alloc::Global;

/// MMRP as an application of MRP: a key is a MAC address, and there is no content. A PDU takes 22
/// octets, and each address 9 more.
pub struct MmrpApp;

impl MrpApp for MmrpApp {
    ghost use Rattle.std.proofs.Common.{arith, refl};
    ghost use Rattle.std.proofs.lemmas.Bool.Decides.{nat_tests};
    ghost use Rattle.mmrp.specs.Macs.{base, octets};

    type Key = Mac;

    type Content = ();

    ghost base = { base };

    ghost octets = { octets };

    fn base_octets() -> usize {
        22
    }

    fn row_octets(_content: &()) -> usize {
        9
    }

    ghost one_key = { λ a b h. Prim.grind (arith, nat_tests) };

    ghost one_content = { λ a b h. refl };

    ghost base_fits = { Prim.omega arith };

    ghost row_fits = { λ c. Prim.omega arith };
}

impl FlatApp for MmrpApp {
    ghost use Rattle.mmrp.specs.Macs.{mac_codec, IsMac};

    type Pdu = GroupPdu;

    ghost codec = { mac_codec };

    ghost is_key = { IsMac };

    fn decode(alloc: Global, octets: &[u8]) -> Result<GroupPdu, DecodeErr> {
        decode(alloc, octets)
    }

    fn says(pdu: GroupPdu) -> (bool, Seq<(MrpEvent, Mac)>) {
        (pdu.leave_all, pdu.events)
    }

    #[tactic(auto, using(crate::proofs::Writable::writable))]
    fn encode(
        alloc: Global,
        leave_all: bool,
        events: Seq<(MrpEvent, Mac)>,
    ) -> Result<Seq<u8>, NoMemory>
        requires { IsFitting base (octets tt) leave_all events }
        ensures { IfOk result (λ written. IsWritten (mac_codec.pdu_of leave_all events) written) }
    {
        let pdu = GroupPdu { leave_all, events };
        encode(alloc, &pdu)
    }
}

impl FlatLinkApp for MmrpApp {
    fn keeps_key(key: Mac) {
        let _mac = key.get();
    }

    fn octets_say_what_is_written() {
        what_is_read_has_macs();
        what_is_written_is_read();
    }
}

/// A node that runs MMRP (IEEE Std 802.1Q-2018, 10.12): a participant at each link port, the MAC
/// addresses that await settling there, those that the application has joined, and the PDUs that
/// wait at each port.
pub(crate) type GroupNode = Node<FlatSide<MmrpApp>>;
