//! What comes in at a link port, and its timers.

ghost use Rattle.std.specs.Prelude.{◌≡◌, ◌<◌, ◌≤◌, ◌^◌, true, false, length, slice_get, IsOk, IfOk, IfSome, OnOk, OnErr};
ghost use Rattle.std.specs.List.{AllByRecursion};
ghost use Rattle.mrp_participant.specs.{Lookup.find, Row.is_leaving_in, State.due_count, State.is_any_due};
ghost use Rattle.msrp_codec.specs.Content.{Belongs};
ghost use Rattle.attribute_propagation.specs.Ports.{IsLinkPort, place_of, count_of};
ghost use Rattle.msrp.specs.Part.{key_cmp};
ghost use Rattle.msrp.specs.Side.{HasReceived, received_streams, due_streams, left_streams, leave_all_streams, periodic_streams, spoilt_streams};

use crate::app::MsrpApp;
use crate::in_place::{fire_at, leave_all_at, leave_at, periodic_at, receive_at, spoil_at};
use crate::laws::every_call_keeps_a_side;
use crate::side::MsrpSide;
use crate::view::port_at;
use attribute_propagation::laws::each_port_is_told;
use attribute_propagation::saturated;
use mrp_participant::Msgs;
use mrp_participant::laws::nothing_due_changes_nothing;
use msrp_codec::laws::what_is_read_belongs_to_its_keys;
use msrp_codec::{DecodeErr, MsrpKey, MsrpPdu, decode};
use srp_base::{Cs, NoMemory, PortNo};

impl MsrpSide {
    /// Takes the octets of a PDU that came in at a link port at the moment `now`, in cs and below
    /// 2^62: its LeaveAll first, then its events in order (IEEE Std 802.1Q-2018, 10.7.5). Answers
    /// the number of its events. Where what is registered of a stream's Talker or Listeners
    /// changes, both keys of the stream await at every link port. Where what is registered of a
    /// Domain changes, and Domains aren't off, both keys of each stream with a Talker or Listeners
    /// at the node await at this port alone.
    ///
    /// # Errors
    ///
    /// `Malformed` exactly where the octets are, with the offset; then nothing changes.
    pub fn receive(&mut self, now: Cs, port: PortNo, octets: &[u8]) -> Result<u32, DecodeErr>
        requires now { now.0 < 2 ^ 62 }
        requires port { IsLinkPort port (length self.old.state.ports) }
        requires short { length octets.now ≤ 1500 }
        ensures received { HasReceived now (place_of port) octets.now
            self.old.state result self.new.state }
        ensures ready { OnOk result (self.new.ready ≡ false) }
    {
        what_is_read_belongs_to_its_keys();
        let alloc = *self.ports.allocator();
        let pdu = decode(alloc, octets)?;
        let count = saturated(pdu.events.len());
        match self.take(now, usize::from(port.0) - 1, pdu) {
            Ok(()) => Ok(count),
            Err(_) => Err(DecodeErr::NoMemory),
        }
    }

    // What a PDU says acts on the participant at a place.
    fn take(&mut self, now: Cs, at: usize, pdu: MsrpPdu) -> Result<(), NoMemory>
        requires now { now.0 < 2 ^ 62 }
        requires place { at < length self.old.state.ports }
        requires belong { AllByRecursion (λ e. Belongs e.1 e.2) pdu.events }
        ensures ok { OnOk result (self.new.state ≡ received_streams now at pdu self.old.state) }
        ensures err { OnErr result (self.new.state ≡ self.old.state) }
        ensures ready { self.new.ready ≡ false }
    {
        every_call_keeps_a_side();
        self.keeps();
        let msgs = Msgs {
            leave_all: pdu.leave_all,
            events: pdu.events,
        };
        self.ready = false;
        receive_at(
            &mut self.ports,
            &mut self.awaiting,
            self.talks.as_slice(),
            self.listens.as_slice(),
            at,
            now,
            &msgs,
        )
    }

    /// Fires the timers of a link port that are due at the moment `now`, in cs and below 2^62 (IEEE
    /// Std 802.1Q-2018, 10.7.4). Answers their number. Where a Talker or a Listener leaves, both
    /// keys of its stream await at every link port. Where no timer is due nothing changes,
    /// readiness either, and no memory is taken.
    pub fn due(&mut self, now: Cs, port: PortNo) -> Result<u32, NoMemory>
        requires now { now.0 < 2 ^ 62 }
        requires port { IsLinkPort port (length self.old.state.ports) }
        ensures after { OnOk result (self.new.state
            ≡ due_streams now (place_of port) self.old.state) }
        ensures count { IfOk result (λ n. IfSome (slice_get self.old.state.ports (place_of port))
            (λ p. n ≡ count_of (due_count now p.part))) }
        ensures err { OnErr result (self.new.state ≡ self.old.state) }
        // Want of memory comes only where a timer is due, and what fires alone ends readiness.
        ensures none { IfSome (slice_get self.old.state.ports (place_of port))
            (λ p. is_any_due now p.part ≡ false → IsOk result) }
        ensures stays { IfSome (slice_get self.old.state.ports (place_of port))
            (λ p. is_any_due now p.part ≡ false → self.new ≡ self.old) }
        ensures ready { OnOk result (IfSome (slice_get self.old.state.ports (place_of port))
            (λ p. is_any_due now p.part ≡ true → self.new.ready ≡ false)) }
    {
        each_port_is_told::<MsrpKey>();
        nothing_due_changes_nothing::<MsrpApp>();
        let at = usize::from(port.0) - 1;
        if !port_at(self.ports.as_slice(), at).part().any_due(now) {
            return Ok(0);
        }
        self.fire(now, at)
    }

    // Fires the timers of the link port at a place that are due.
    fn fire(&mut self, now: Cs, at: usize) -> Result<u32, NoMemory>
        requires now { now.0 < 2 ^ 62 }
        requires place { at < length self.old.state.ports }
        ensures after { OnOk result (self.new.state ≡ due_streams now at self.old.state) }
        ensures count { IfOk result (λ n. IfSome (slice_get self.old.state.ports at)
            (λ p. n ≡ count_of (due_count now p.part))) }
        ensures err { OnErr result (self.new.state ≡ self.old.state) }
        ensures ready { self.new.ready ≡ false }
    {
        every_call_keeps_a_side();
        self.keeps();
        self.ready = false;
        fire_at(
            &mut self.ports,
            &mut self.awaiting,
            self.talks.as_slice(),
            self.listens.as_slice(),
            at,
            now,
        )
    }

    /// Ends the leave timer of one key at a link port, whatever the moment: LV becomes MT, and
    /// where it does both keys of the key's stream await at every link port. True exactly where the
    /// registrar was LV; where it wasn't, nothing changes.
    pub fn leave_now(&mut self, port: PortNo, key: MsrpKey) -> Result<bool, NoMemory>
        requires { IsLinkPort port (length self.old.state.ports) }
        ensures after { OnOk result (self.new.state
            ≡ left_streams (place_of port) key self.old.state) }
        ensures was { IfOk result (λ b. IfSome (slice_get self.old.state.ports (place_of port))
            (λ p. b ≡ is_leaving_in (find key_cmp key p.part.rows))) }
        ensures err { OnErr result (self.new.state ≡ self.old.state) }
        // Want of memory comes only where the registrar is LV.
        ensures stays { IfSome (slice_get self.old.state.ports (place_of port))
            (λ p. is_leaving_in (find key_cmp key p.part.rows) ≡ false → IsOk result) }
        ensures ready { OnOk result (self.new.ready ≡ false) }
    {
        every_call_keeps_a_side();
        self.keeps();
        self.ready = false;
        leave_at(
            &mut self.ports,
            &mut self.awaiting,
            self.talks.as_slice(),
            self.listens.as_slice(),
            usize::from(port.0) - 1,
            key,
        )
    }

    /// Fires the LeaveAll timer of a link port at the moment `now`, in cs and below 2^62, whatever
    /// its own moment: the machine is Active, and the timer starts anew (IEEE Std 802.1Q-2018,
    /// 10.7.9).
    pub fn leaveall_now(&mut self, now: Cs, port: PortNo)
        requires now { now.0 < 2 ^ 62 }
        requires port { IsLinkPort port (length self.old.state.ports) }
        ensures after { self.new.state ≡ leave_all_streams now (place_of port) self.old.state }
        ensures ready { self.new.ready ≡ false }
    {
        every_call_keeps_a_side();
        leave_all_at(&mut self.ports, usize::from(port.0) - 1, now);
        self.ready = false;
    }

    /// Gives the periodic event to each key of a link port, also where periodic transmission is off
    /// (IEEE Std 802.1Q-2018, 10.7.10).
    pub fn periodic_now(&mut self, port: PortNo)
        requires { IsLinkPort port (length self.old.state.ports) }
        ensures after { self.new.state ≡ periodic_streams (place_of port) self.old.state }
        ensures ready { self.new.ready ≡ false }
    {
        every_call_keeps_a_side();
        periodic_at(&mut self.ports, usize::from(port.0) - 1);
        self.ready = false;
    }

    /// Ends the soundness of a link port's participant, as after a loss on its link.
    pub fn spoil(&mut self, port: PortNo)
        requires { IsLinkPort port (length self.old.state.ports) }
        ensures after { self.new.state ≡ spoilt_streams (place_of port) self.old.state }
        ensures ready { self.new.ready ≡ false }
    {
        every_call_keeps_a_side();
        spoil_at(&mut self.ports, usize::from(port.0) - 1);
        self.ready = false;
    }
}
