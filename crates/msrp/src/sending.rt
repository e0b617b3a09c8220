//! What a link port sends.

ghost use Rattle.std.specs.Prelude.{◌≡◌, ◌≢◌, ◌<◌, ◌≤◌, ◌+◌, ◌^◌, true, false, [], length, slice_get, sum_by, is_none, IsOk, IfOk, IfSome, IfNone};
ghost use Rattle.std.specs.List.{AllByRecursion};
ghost use Rattle.mrp_participant.specs.State.{AreRows, is_silent};
ghost use Rattle.msrp_codec.specs.Content.{Belongs, base_octets, octets_of};
ghost use Rattle.msrp.specs.Part.{HasOwnContents, key_cmp, pdu_sent};
ghost use Rattle.attribute_propagation.specs.Ports.{IsLinkPort, place_of};
ghost use Rattle.msrp.specs.Side.{HasSent, IsWritten};

use crate::app::MsrpApp;
use crate::in_place::sent_at;
use crate::laws::every_call_keeps_a_side;
use crate::side::MsrpSide;
use crate::view::port_at;
use mrp_participant::laws::what_is_sent_is_declared;
use mrp_participant::{Msgs, Participant};
use msrp_codec::{MsrpPdu, encode};
use srp_base::{Cs, NoMemory, PortNo, Seq};
use std::alloc::Global;

impl MsrpSide {
    /// What a link port sends at the moment `now`, in cs and below 2^62: the octets of its PDU, at
    /// most 1,500 (IEEE Std 802.1Q-2018, 10.7.6, 10.8). None exactly where its participant has
    /// nothing to say; nothing changes then, readiness either, and no memory is taken.
    pub fn send(&mut self, now: Cs, port: PortNo) -> Result<Option<Seq<u8>>, NoMemory>
        requires now { now.0 < 2 ^ 62 }
        requires port { IsLinkPort port (length self.old.state.ports) }
        ensures sent { HasSent now (place_of port) self.old.state result self.new.state }
        // Want of memory comes only where something is to be said, and that alone ends readiness.
        ensures none { IfSome (slice_get self.old.state.ports (place_of port))
            (λ p. is_silent p.part ≡ true → IsOk result) }
        ensures stays { IfOk result (λ said. IfNone said (self.new ≡ self.old)) }
        ensures ready { IfOk result (λ said. IfSome said (λ _. self.new.ready ≡ false)) }
    {
        every_call_keeps_a_side();
        self.keeps();
        let alloc = *self.ports.allocator();
        let at = usize::from(port.0) - 1;
        let said = said_by(alloc, port_at(self.ports.as_slice(), at).part(), now)?;
        let octets = match said {
            Some(octets) => octets,
            None => return Ok(None),
        };
        self.ready = false;
        sent_at(&mut self.ports, at, now);
        Ok(Some(octets))
    }
}

// The octets of what a participant would say; None where it has nothing to say.
fn said_by(alloc: Global, part: &Participant<MsrpApp>, now: Cs) -> Result<Option<Seq<u8>>, NoMemory>
    requires now { now.0 < 2 ^ 62 }
    requires rows { AreRows key_cmp part.now.state.rows }
    requires contents { HasOwnContents part.now.state }
    ensures silent { IfOk result (λ said. is_none said ≡ is_silent part.now.state) }
    ensures written { IfOk result (λ said. IfSome said (λ octets.
        IsWritten (pdu_sent now part.now.state) octets)) }
    ensures none { is_silent part.now.state ≡ true → IsOk result }
{
    what_is_sent_is_declared::<MsrpApp>();
    match part.plan(now)? {
        Some(msgs) => {
            let octets = octets_of(alloc, msgs)?;
            Ok(Some(octets))
        }
        None => Ok(None),
    }
}

// The octets of what a participant says.
fn octets_of(alloc: Global, msgs: Msgs<MsrpApp>) -> Result<Seq<u8>, NoMemory>
    requires fits { base_octets + sum_by (λ e. octets_of e.2) msgs.events ≤ 1500 }
    requires says { msgs.leave_all ≡ false → msgs.events ≢ [] }
    requires belong { AllByRecursion (λ e. Belongs e.1 e.2) msgs.events }
    ensures { IfOk result (λ octets.
        IsWritten (record { leave_all = msgs.leave_all; events = msgs.events }) octets) }
{
    let pdu = MsrpPdu {
        leave_all: msgs.leave_all,
        events: msgs.events,
    };
    encode(alloc, &pdu)
}
