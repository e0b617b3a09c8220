//! An application of MRP at the link ports of a node.

ghost use Rattle.std.specs.Prelude.{◌≡◌, ◌<◌, ◌≤◌, ◌^◌, ℕ, length, IfOk, IfSome, IsOk, OnOk, OnErr};
ghost use Rattle.attribute_propagation.specs.Ports.{IsLinkPort, place_of, count_of};
ghost use Rattle.mrpdu_codec.specs.Reading.{Answers};
ghost use Rattle.link_app.specs.Words.{AppWords, IsAfterReceipt, after_saying};
ghost use Rattle.link_app.specs.Laws.{AppLaws};

use mrpdu_codec::DecodeErr;
use srp_base::{Cs, NoMemory, PortNo, Seq};

/// An application of MRP at the link ports of a node, or several side by side (IEEE Std
/// 802.1Q-2018, 10.2): a participant at each link port, and the attributes that await settling
/// there. Contracts see its state by `state`, and each call by `words`.
pub trait LinkApp: Drop {
    /// Which of several applications; `()` where there is one.
    type Name: Copy;

    /// What tells two attributes apart, also those of two applications.
    type Key: Copy;

    /// What the application of a station may ask for.
    type Request: Copy;

    // What the side shows, and its state after each call; and the state.
    ghost words: { AppWords Self.Name Self.Key Self.Request };

    ghost state: { Self → words.State };

    // At the link port with this place all memory is taken for what is due and awaits; and all that
    // the clock needs for the next moment.
    ghost IsReady: { ℕ → Self → Type 0 };

    ghost IsReadyForClock: { Self → Type 0 };

    /// The number of link ports.
    fn ports(&self) -> usize
        ensures { result ≡ words.ports_of (state self.now) };

    /// Whether nothing is pending at any port: every participant is at rest, and no attribute
    /// awaits.
    fn still(&self) -> bool
        ensures { result ≡ words.is_still (state self.now) };

    /// Whether at some port a timer is due at the moment `now`, in cs, or an attribute awaits.
    fn is_busy(&self, now: Cs) -> bool
        ensures { result ≡ words.is_busy now (state self.now) };

    /// Whether every participant is sound: it was never spoilt, or has sent a LeaveAll since.
    fn all_sound(&self) -> bool
        ensures { result ≡ words.are_sound (state self.now) };

    /// Takes the octets of a PDU of an application, at most 1,500, that came in at a link port at
    /// the moment `now`, in cs and below 2^62 (IEEE Std 802.1Q-2018, 10.7.5). Answers the number of
    /// its events.
    ///
    /// # Errors
    ///
    /// `Malformed` exactly where the octets are, with the offset. After want of memory the state is
    /// as it was.
    fn receive(
        &mut self,
        app: Self::Name,
        now: Cs,
        port: PortNo,
        octets: &[u8],
    ) -> Result<u32, DecodeErr>
        requires now { now.0 < 2 ^ 62 }
        requires port { IsLinkPort port (words.ports_of (state self.old)) }
        requires short { length octets.now ≤ 1500 }
        ensures answer { Answers result (words.reading app octets.now) }
        ensures after { IsAfterReceipt result
            (words.after_receipt app now (place_of port) octets.now (state self.old))
            (state self.old) (state self.new) };

    /// Fires the timers of a link port that are due at the moment `now`, in cs and below 2^62, of
    /// all applications (IEEE Std 802.1Q-2018, 10.7.4). Answers their number.
    ///
    /// # Errors
    ///
    /// Want of memory comes only where the side isn't ready at the port, and leaves the state as it
    /// was, of each application.
    fn due(&mut self, now: Cs, port: PortNo) -> Result<u32, NoMemory>
        requires now { now.0 < 2 ^ 62 }
        requires port { IsLinkPort port (words.ports_of (state self.old)) }
        ensures after { OnOk result
            (state self.new ≡ words.after_due now (place_of port) (state self.old)) }
        ensures count { IfOk result (λ n. n
            ≡ count_of (words.due_count now (place_of port) (state self.old))) }
        ensures err { OnErr result (state self.new ≡ state self.old) }
        ensures room { IsReady (place_of port) self.old → IsOk result };

    /// Settles the attributes that await at a link port, of all applications (IEEE Std 802.1Q-2018,
    /// 10.3). Answers how many awaited.
    ///
    /// # Errors
    ///
    /// Want of memory comes only where the side isn't ready at the port, and leaves the state as it
    /// was, of each application.
    fn settle(&mut self, port: PortNo) -> Result<u32, NoMemory>
        requires { IsLinkPort port (words.ports_of (state self.old)) }
        ensures after { OnOk result
            (state self.new ≡ words.after_settling (place_of port) (state self.old)) }
        ensures count { IfOk result (λ n. n
            ≡ count_of (words.awaiting_count (place_of port) (state self.old))) }
        ensures err { OnErr result (state self.new ≡ state self.old) }
        ensures room { IsReady (place_of port) self.old → IsOk result };

    /// Ends the leave timer of one attribute at a link port, whatever the moment: LV becomes MT.
    /// True exactly where its registrar was LV. After want of memory the state is as it was.
    fn leave_now(&mut self, port: PortNo, key: Self::Key) -> Result<bool, NoMemory>
        requires { IsLinkPort port (words.ports_of (state self.old)) }
        ensures after { OnOk result
            (state self.new ≡ words.after_leave key (place_of port) (state self.old)) }
        ensures was { IfOk result (λ b. b
            ≡ words.is_leaving key (place_of port) (state self.old)) }
        ensures err { OnErr result (state self.new ≡ state self.old) };

    /// Fires the LeaveAll timer of an application at a link port at the moment `now`, in cs and
    /// below 2^62, whatever its own moment (IEEE Std 802.1Q-2018, 10.7.9).
    fn leaveall_now(&mut self, app: Self::Name, now: Cs, port: PortNo)
        requires now { now.0 < 2 ^ 62 }
        requires port { IsLinkPort port (words.ports_of (state self.old)) }
        ensures { state self.new ≡ words.after_leave_all app now (place_of port) (state self.old) };

    /// Gives the periodic event to each attribute of an application at a link port (IEEE Std
    /// 802.1Q-2018, 10.7.10).
    fn periodic_now(&mut self, app: Self::Name, port: PortNo)
        requires { IsLinkPort port (words.ports_of (state self.old)) }
        ensures { state self.new ≡ words.after_periodic app (place_of port) (state self.old) };

    /// Answers the octets, at most 1,500, of what an application has to say at a link port at the
    /// moment `now`, in cs and below 2^62 (IEEE Std 802.1Q-2018, 10.7.6); None exactly where it has
    /// nothing to say, and then nothing changes. After want of memory the state is as it was.
    fn send(&mut self, app: Self::Name, now: Cs, port: PortNo) -> Result<Option<Seq<u8>>, NoMemory>
        requires now { now.0 < 2 ^ 62 }
        requires port { IsLinkPort port (words.ports_of (state self.old)) }
        ensures said { IfOk result (λ said. said
            ≡ words.octets_to_say app now (place_of port) (state self.old)) }
        ensures short { IfOk result (λ said. IfSome said (λ octets. length octets ≤ 1500)) }
        ensures after { IfOk result (λ said. state self.new ≡ after_saying said
            (words.after_sending app now (place_of port) (state self.old)) (state self.old)) }
        ensures err { OnErr result (state self.new ≡ state self.old) };

    /// Does what the application of the station asks for. After want of memory the state is as it
    /// was.
    fn request(&mut self, request: Self::Request) -> Result<(), NoMemory>
        ensures ok { OnOk result (state self.new ≡ words.after_request request (state self.old)) }
        ensures err { OnErr result (state self.new ≡ state self.old) };

    /// Ends the soundness of an application's participant at a link port, as after a loss on its
    /// link. It takes no memory.
    fn spoil(&mut self, app: Self::Name, port: PortNo)
        requires { IsLinkPort port (words.ports_of (state self.old)) }
        ensures { state self.new ≡ words.after_spoiling app (place_of port) (state self.old) };

    /// Makes the side ready for the clock: afterwards `clock` takes no memory. The state is as
    /// before.
    fn clock_room(&mut self) -> Result<(), NoMemory>
        ensures state { state self.new ≡ state self.old }
        ensures ready { OnOk result (IsReadyForClock self.new) };

    /// The clock goes on to the moment `now`, in cs, to which it may go on. Want of memory comes
    /// only where the side isn't ready for it, and leaves the state as it was.
    fn clock(&mut self, now: Cs) -> Result<(), NoMemory>
        requires { words.CanClock now (state self.old) }
        ensures ok { OnOk result (state self.new ≡ words.after_clock now (state self.old)) }
        ensures err { OnErr result (state self.new ≡ state self.old) }
        ensures room { IsReadyForClock self.old → IsOk result };

    /// What may be asked for is what its type says. It is a law, and does nothing.
    fn keeps_request(request: Self::Request)
        ensures { words.IsAskable request };

    /// Octets, at most 1,500, are such as a neighbour may send, as their type says. It is a law,
    /// and does nothing.
    fn keeps_octets(app: Self::Name, octets: &[u8])
        requires { length octets.now ≤ 1500 }
        ensures { words.IsFit app octets.now };

    /// What holds of every such application: which participants each call leaves as they were, that
    /// it keeps what every state keeps, and that it keeps the duties of a link. It is a law, and
    /// does nothing.
    fn laws()
        ensures { AppLaws words };
}

/// An application that is made ready at a link port, so that it fires and settles together with
/// another one, or neither does.
pub trait ReadyApp: LinkApp {
    /// Makes the side ready at a link port: afterwards `due` and `settle` of that port take no
    /// memory. The state is as before.
    fn room(&mut self, port: PortNo) -> Result<(), NoMemory>
        requires { IsLinkPort port (Self.words.ports_of (Self.state self.old)) }
        ensures state { Self.state self.new ≡ Self.state self.old }
        ensures ready { OnOk result (Self.IsReady (place_of port) self.new) };
}
