//! MSRP as an application of MRP (IEEE Std 802.1Q-2018, 35.2.2, 35.2.4): its attributes are
//! Talkers, Listeners and Domains, each with what it declares.

use mrp_participant::MrpApp;
use msrp_codec::{MsrpContent, MsrpKey};

/// MSRP as an application of MRP: a key is the Talker or the Listeners of a stream, or a Domain,
/// and the content what is declared of it. A PDU takes 106 octets, and each declaration 28 for a
/// Talker Advertise, 37 for a Talker Failed, 12 for a Listener and 7 for a Domain.
pub struct MsrpApp;

impl MrpApp for MsrpApp {
    ghost use Rattle.std.proofs.Common.{arith};
    ghost use Rattle.std.proofs.lemmas.Bool.Decides.{nat_tests};
    ghost use Rattle.msrp_codec.specs.declared.pdu.MsrpContent.TheVariants.{Advertise, Failed, Listener, Domain};
    ghost use Rattle.msrp_codec.specs.Content.{base_octets, octets_of};

    type Key = MsrpKey;

    type Content = MsrpContent;

    ghost base = { base_octets };

    ghost octets = { octets_of };

    fn base_octets() -> usize {
        msrp_codec::base_octets()
    }

    fn row_octets(content: &MsrpContent) -> usize {
        msrp_codec::row_octets(content)
    }

    ghost one_key = { λ a b h. Prim.grind (arith, nat_tests) };

    ghost use Rattle.msrp.specs.SameContent.{content_one};

    ghost one_content = { content_one };

    ghost base_fits = { Prim.omega arith };

    ghost row_fits = { elim [
      | Advertise t ↦ Prim.omega arith
      | Failed t f ↦ Prim.omega arith
      | Listener kind ↦ Prim.omega arith
      | Domain priority vid ↦ Prim.omega arith
    ] };
}
