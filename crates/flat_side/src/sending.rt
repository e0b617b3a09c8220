//! What a link port sends.

ghost use Rattle.std.specs.Prelude.{◌≡◌, ◌≢◌, ◌<◌, ◌≤◌, ◌+◌, ◌^◌, true, false, [], length, slice_get, sum_by, is_none, None, IsOk, IfOk, IfSome, IfNone};
ghost use Rattle.mrp_participant.specs.State.{is_silent};
ghost use Rattle.attribute_propagation.specs.Ports.{IsLinkPort, place_of};
ghost use Rattle.flat_side.specs.Codec.{IsWritten};
ghost use Rattle.flat_side.specs.Part.{key_events};
ghost use Rattle.flat_side.specs.Side.{HasSent, pdu_sent};

use crate::app::FlatApp;
use crate::laws::every_call_keeps_a_side;
use crate::port::sent_at;
use crate::side::{FlatSide, part_at};
use mrp_participant::{Msgs, Participant};
use srp_base::{Cs, MrpEvent, NoMemory, PortNo, Seq};
use std::alloc::{AllocError, Global};

impl<A: FlatApp> FlatSide<A> {
    /// What a link port sends at the moment `now`, in cs and below 2^62: the octets of its PDU, at
    /// most 1,500 (IEEE Std 802.1Q-2018, 10.7.6, 10.8). None exactly where its participant has
    /// nothing to say; nothing changes then, readiness either, and no memory is taken.
    pub fn send(&mut self, now: Cs, port: PortNo) -> Result<Option<Seq<u8>>, NoMemory>
        requires now { now.0 < 2 ^ 62 }
        requires port { IsLinkPort port (length self.old.state.parts) }
        ensures sent { HasSent A.Key.cmp A.codec A.base A.octets now (place_of port)
            self.old.state result self.new.state }
        // Want of memory comes only where something is to be said, and that alone ends readiness.
        ensures none { IfSome (slice_get self.old.state.parts (place_of port))
            (λ s. is_silent s ≡ true → IsOk result) }
        ensures stays { IfOk result (λ said. IfNone said (self.new ≡ self.old)) }
        ensures ready { IfOk result (λ said. IfSome said (λ _. self.new.ready ≡ None)) }
    {
        every_call_keeps_a_side::<A>();
        let alloc = *self.parts.allocator();
        let at = usize::from(port.0) - 1;
        let said = said_by(alloc, part_at(self.parts.as_slice(), at), now)?;
        let octets = match said {
            Some(octets) => octets,
            None => return Ok(None),
        };
        self.ready = None;
        sent_at(&mut self.parts, at, now);
        Ok(Some(octets))
    }
}

// The octets of what a participant says.
fn said_by<A: FlatApp>(
    alloc: Global,
    part: &Participant<A>,
    now: Cs,
) -> Result<Option<Seq<u8>>, NoMemory>
    requires { now.0 < 2 ^ 62 }
    ensures silent { IfOk result (λ said. is_none said ≡ is_silent part.now.state) }
    ensures written { IfOk result (λ said. IfSome said (λ octets.
        IsWritten A.codec (pdu_sent A.Key.cmp A.codec A.base A.octets now part.now.state) octets)) }
    ensures none { is_silent part.now.state ≡ true → IsOk result }
{
    match part.plan(now)? {
        Some(msgs) => Ok(Some(octets_of(alloc, &msgs)?)),
        None => Ok(None),
    }
}

// The octets of a list of messages.
fn octets_of<A: FlatApp>(alloc: Global, msgs: &Msgs<A>) -> Result<Seq<u8>, NoMemory>
    requires fits { A.base + sum_by (λ e. A.octets e.2) msgs.now.events ≤ 1500 }
    requires says { msgs.now.leave_all ≡ false → msgs.now.events ≢ [] }
    ensures { IfOk result (λ octets.
        IsWritten A.codec (A.codec.pdu_of msgs.now.leave_all (key_events msgs.now.events)) octets) }
{
    let events = with_keys(alloc, msgs.events.as_slice())?;
    A::encode(alloc, msgs.leave_all, Seq::from_vec(events))
}

// Events of attributes without content as those of keys.
fn with_keys<K: Copy>(
    alloc: Global,
    events: &[(MrpEvent, K, ())],
) -> Result<Vec<(MrpEvent, K)>, AllocError>
    ensures { IfOk result (λ v. v.items ≡ key_events events.now) }
{
    events.iter().map(|event| (event.0, event.1)).collect(alloc)
}
