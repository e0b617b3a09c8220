//! A side whose attributes go everywhere is an application at link ports.

ghost use Rattle.std.specs.Prelude.{◌≡◌, ℕ, Bool, List, Ok};
ghost use Rattle.srp_base.specs.declared.mrp.MrpEvent.{MrpEvent as Event};
ghost use Rattle.flat_side.specs.{Codec.IsFitting, Codec.IsWritten, Keys.AreOfKeys};

use crate::app::{LinkApp, ReadyApp};
use flat_side::laws::{
    a_new_side_is_proper, every_call_keeps_a_side_proper, settling_and_requests_keep_a_side_proper,
    what_is_sent_can_be_written,
};
use flat_side::{FlatApp, FlatSide};
use mrp_participant::duty_laws::spoiling_keeps_duties;
use mrp_participant::link_laws::{a_new_link_meets_both_duties, every_event_keeps_both_duties};
use mrpdu_codec::DecodeErr;
use srp_base::{Cs, NoMemory, PortNo, Seq};

/// What the application of a station may ask for where attributes are keys.
#[derive(Clone, Copy, PartialEq, Eq)]
pub enum KeyRequest<K: Copy> {
    /// That a key is declared.
    Declare(K),
    /// That it is withdrawn.
    Withdraw(K),
}

/// A flat application whose PDUs say to a neighbour what was written.
pub trait FlatLinkApp: FlatApp {
    /// A key is one of the application's, by its type. It is a law, and does nothing.
    fn keeps_key(key: Self::Key)
        ensures { Self.is_key key };

    /// What octets read as is of the application's keys alone, and what is written of them is read
    /// back. It is a law, and does nothing.
    fn octets_say_what_is_written()
        ensures reads { (octets : List ℕ) (pdu : Self.Pdu) → Self.codec.reading octets ≡ Ok pdu
            → AreOfKeys Self.is_key (Self.codec.events_of pdu) }
        ensures written { (leave_all : Bool) (events : List (Event × Self.Key))
            → IsFitting Self.base (Self.octets tt) leave_all events
            → AreOfKeys Self.is_key events
            → IsWritten Self.codec (Self.codec.pdu_of leave_all events)
            (Self.codec.spelling (Self.codec.pdu_of leave_all events)) }
        ensures says { (leave_all : Bool) (events : List (Event × Self.Key))
            → (Self.codec.leave_all_of (Self.codec.pdu_of leave_all events) ≡ leave_all)
            × (Self.codec.events_of (Self.codec.pdu_of leave_all events) ≡ events) };
}

impl<F: FlatLinkApp> LinkApp for FlatSide<F> {
    ghost use Rattle.std.specs.Prelude.{◌≡◌, Some};
    ghost use Rattle.link_app.specs.Flat.{flat_words};

    type Name = ();

    type Key = F::Key;

    type Request = KeyRequest<F::Key>;

    ghost words = { flat_words F.Key.cmp F.codec F.is_key F.base F.octets };

    ghost state = { λ side. side.state };

    ghost IsReady = { λ at side. side.ready ≡ Some at };

    ghost IsReadyForClock = { λ side. Unit {0} };

    fn ports(&self) -> usize {
        self.ports()
    }

    fn still(&self) -> bool {
        self.still()
    }

    fn is_busy(&self, now: Cs) -> bool {
        self.is_busy(now)
    }

    fn all_sound(&self) -> bool {
        self.all_sound()
    }

    fn receive(
        &mut self,
        _app: (),
        now: Cs,
        port: PortNo,
        octets: &[u8],
    ) -> Result<u32, DecodeErr> {
        self.receive(now, port, octets)
    }

    fn due(&mut self, now: Cs, port: PortNo) -> Result<u32, NoMemory> {
        self.due(now, port)
    }

    fn settle(&mut self, port: PortNo) -> Result<u32, NoMemory> {
        self.settle(Cs(0), port)
    }

    fn leave_now(&mut self, port: PortNo, key: F::Key) -> Result<bool, NoMemory> {
        self.leave_now(port, key)
    }

    fn leaveall_now(&mut self, _app: (), now: Cs, port: PortNo) {
        self.leaveall_now(now, port);
    }

    fn periodic_now(&mut self, _app: (), port: PortNo) {
        self.periodic_now(port);
    }

    fn send(&mut self, _app: (), now: Cs, port: PortNo) -> Result<Option<Seq<u8>>, NoMemory> {
        self.send(now, port)
    }

    fn request(&mut self, request: KeyRequest<F::Key>) -> Result<(), NoMemory> {
        match request {
            KeyRequest::Declare(key) => self.request(key, true),
            KeyRequest::Withdraw(key) => self.request(key, false),
        }
    }

    fn spoil(&mut self, _app: (), port: PortNo) {
        self.spoil(port);
    }

    fn clock_room(&mut self) -> Result<(), NoMemory> {
        Ok(())
    }

    fn clock(&mut self, _now: Cs) -> Result<(), NoMemory> {
        Ok(())
    }

    fn keeps_request(request: KeyRequest<F::Key>) {
        match request {
            KeyRequest::Declare(key) | KeyRequest::Withdraw(key) => F::keeps_key(key),
        }
    }

    fn keeps_octets(_app: (), _octets: &[u8]) {}

    fn laws() {
        a_new_side_is_proper::<F>();
        every_call_keeps_a_side_proper::<F>();
        settling_and_requests_keep_a_side_proper::<F>();
        what_is_sent_can_be_written::<F>();
        a_new_link_meets_both_duties::<F>();
        every_event_keeps_both_duties::<F>();
        spoiling_keeps_duties::<F>();
        F::octets_say_what_is_written();
    }
}

impl<F: FlatLinkApp> ReadyApp for FlatSide<F> {
    fn room(&mut self, port: PortNo) -> Result<(), NoMemory> {
        self.room(port)
    }
}
