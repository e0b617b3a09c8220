//! The applications of MRP, as they are watched on a link.

ghost use Rattle.std.specs.Prelude.{◌≡◌, IfOk};
ghost use Rattle.flat_side.specs.Part.{said_events};
ghost use Rattle.replay_words.specs.Apps.{vlan_text, group_text, no_text};

use link_replay::WatchedApp;
use mrp_participant::{MrpApp, Msgs};
use msrp_codec::{MsrpContent, MsrpKey};
use pdu_words::{write_stream_content, write_stream_key};
use srp_base::{Mac, MrpEvent, NoMemory, Seq, Vid};
use std::alloc::{AllocError, Global};
use std::fmt::Write;

/// MVRP: a key is a VID, without content (IEEE Std 802.1Q-2018, 11.2.3).
pub struct Vlans;

impl MrpApp for Vlans {
    ghost use Rattle.std.proofs.Common.{arith, refl};
    ghost use Rattle.std.proofs.lemmas.Bool.Decides.{nat_tests};
    ghost use Rattle.mvrp.specs.Part.{base, octets};

    type Key = Vid;

    type Content = ();

    ghost base = { base };

    ghost octets = { octets };

    fn base_octets() -> usize {
        11
    }

    fn row_octets(_content: &()) -> usize {
        5
    }

    ghost one_key = { λ a b h. Prim.grind (arith, nat_tests) };

    ghost one_content = { λ a b h. refl };

    ghost base_fits = { Prim.omega arith };

    ghost row_fits = { λ c. Prim.omega arith };
}

impl WatchedApp for Vlans {
    ghost use Rattle.replay_words.specs.Apps.{vlan_text, no_text};

    ghost key_text = { vlan_text };

    ghost content_text = { no_text };

    fn write_key(out: &mut String, key: Vid) -> Result<(), AllocError> {
        let vid = key.get();
        write!(out, "vlan {vid}")
    }

    fn write_content(_out: &mut String, _content: ()) -> Result<(), AllocError> {
        Ok(())
    }
}

/// MSRP: a key is the Talker or the Listeners of a stream, or a Domain, and the content what is
/// declared of it (35.2.2).
pub struct Streams;

impl MrpApp for Streams {
    ghost use Rattle.std.proofs.Common.{arith};
    ghost use Rattle.std.proofs.lemmas.Bool.Decides.{nat_tests};
    ghost use Rattle.msrp_codec.specs.declared.pdu.MsrpContent.TheVariants.{Advertise, Failed, Listener, Domain};
    ghost use Rattle.msrp_codec.specs.Content.{base_octets, octets_of};
    ghost use Rattle.msrp.specs.SameContent.{content_one};

    type Key = MsrpKey;

    type Content = MsrpContent;

    ghost base = { base_octets };

    ghost octets = { octets_of };

    fn base_octets() -> usize {
        msrp_codec::base_octets()
    }

    fn row_octets(content: &MsrpContent) -> usize {
        msrp_codec::row_octets(content)
    }

    ghost one_key = { λ a b h. Prim.grind (arith, nat_tests) };

    ghost one_content = { content_one };

    ghost base_fits = { Prim.omega arith };

    ghost row_fits = { elim [
      | Advertise t ↦ Prim.omega arith
      | Failed t f ↦ Prim.omega arith
      | Listener kind ↦ Prim.omega arith
      | Domain priority vid ↦ Prim.omega arith
    ] };
}

impl WatchedApp for Streams {
    ghost use Rattle.pdu_words.specs.Events.{key_text, content_text};

    ghost key_text = { key_text };

    ghost content_text = { content_text };

    fn write_key(out: &mut String, key: MsrpKey) -> Result<(), AllocError> {
        write_stream_key(out, key)
    }

    fn write_content(out: &mut String, content: MsrpContent) -> Result<(), AllocError> {
        write_stream_content(out, content)
    }
}

/// MMRP: a key is a group's MAC address, without content (10.12.1).
pub struct Groups;

impl MrpApp for Groups {
    ghost use Rattle.std.proofs.Common.{arith, refl};
    ghost use Rattle.std.proofs.lemmas.Bool.Decides.{nat_tests};
    ghost use Rattle.replay_words.specs.Apps.{group_base, group_octets};

    type Key = Mac;

    type Content = ();

    ghost base = { group_base };

    ghost octets = { group_octets };

    fn base_octets() -> usize {
        22
    }

    fn row_octets(_content: &()) -> usize {
        9
    }

    ghost one_key = { λ a b h. Prim.grind (arith, nat_tests) };

    ghost one_content = { λ a b h. refl };

    ghost base_fits = { Prim.omega arith };

    ghost row_fits = { λ c. Prim.omega arith };
}

impl WatchedApp for Groups {
    ghost use Rattle.replay_words.specs.Apps.{group_text, no_text};

    ghost key_text = { group_text };

    ghost content_text = { no_text };

    fn write_key(out: &mut String, key: Mac) -> Result<(), AllocError> {
        write!(out, "group {key}")
    }

    fn write_content(_out: &mut String, _content: ()) -> Result<(), AllocError> {
        Ok(())
    }
}

/// What a PDU of an application without contents says.
pub(crate) fn messages<A: MrpApp<Content = ()>>(
    alloc: Global,
    leave_all: bool,
    events: &[(MrpEvent, A::Key)],
) -> Result<Msgs<A>, NoMemory>
    ensures leave_all { IfOk result (λ m. m.leave_all ≡ leave_all) }
    ensures events { IfOk result (λ m. m.events ≡ said_events events.now) }
{
    let events = without_content(alloc, events)?;
    Ok(Msgs {
        leave_all,
        events: Seq::from_vec(events),
    })
}

// Events of keys as those of attributes without content.
fn without_content<K: Copy>(
    alloc: Global,
    events: &[(MrpEvent, K)],
) -> Result<Vec<(MrpEvent, K, ())>, AllocError>
    ensures { IfOk result (λ v. v.items ≡ said_events events.now) }
{
    events
        .iter()
        .map(|event| (event.0, event.1, ()))
        .collect(alloc)
}
