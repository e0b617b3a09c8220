//! The ledger of one egress port.

ghost use Rattle.std.specs.Prelude.{◌≡◌, ◌≢◌, ◌↔◌, ◌+◌, ◌≤◌, ◌<◌, ◌^◌, ◌++◌, ◌==◌, ◌&&◌, nat_lt, ℕ, [], length, slice_get, vec_capacity, vec_len, Some, None, IsTrue, if◌then◌else◌, IfOk, IfSome, IsSome, OnOk, OnErr, is_some};
ghost use Rattle.srp_base.specs.declared.{bandwidth.Class.TheVariants.A, bandwidth.Class.TheVariants.B, numbers.StreamId.StreamId};
ghost use Rattle.stream_importance.specs.declared.{entry.Fit.TheVariants.Fits, entry.Want.Want};
ghost use Rattle.stream_importance.specs.Bandwidth.{caps_of};
ghost use Rattle.port_ledger.specs.Book.{booked_only_in, booked_slope, clocked_book, entry_of, fit_for, has_new_booking, IsFitWithin, IsKept, since_of, unwanted_book, want_of, wanted_book, with_want};
ghost use Rattle.port_ledger.specs.Pass.{has_want};
ghost use Rattle.port_ledger.specs.Decision.{booked_of, Decides, does_fit, is_booked, IsAscending, IsDecision, marks_of};

use crate::changed::{Changed, changes, push_only_in};
use crate::decide::{unwanted, wanted, wanted_in_room};
use crate::entries::{bookings, find_entry};
use crate::fit::{fit_of, tested_entry};
use crate::front::Standing;
use crate::laws::nothing_changed_where_both_lists_are_empty;
use srp_base::{Class, Cs, NoMemory, Percent, Rate, Seq, StreamId};
use std::alloc::Global;
use std::marker::Model;
use stream_importance::{Caps, Entry, Fit, Want, importance_is_an_order};

/// The streams that want one egress port, and which of them are booked. Contracts see the book,
/// which is the caps, the moment, and the entries, ascending by StreamID; and for how many more
/// streams there is room.
#[derive(Drop)]
pub struct Ledger {
    caps: Caps,
    moment: Cs,
    entries: Vec<Entry>,
    // The same entries, in the order of importance of the last decision.
    order: Vec<Entry>,
    // How far the order stands, and what the entries come to, at the moment.
    standing: Standing,
}

impl Model for Ledger {
    ghost use Rattle.std.specs.Prelude.{◌-◌, min, vec_capacity, vec_len};
    ghost use Rattle.port_ledger.specs.Book.{BookWithRoom, IsKept};
    ghost use Rattle.port_ledger.specs.Front.{IsOrdered};

    ghost Value = { BookWithRoom };

    ghost view = { λ l. record {
      book = record { caps = l.caps; moment = l.moment.0; entries = l.entries.items };
      spare = min (vec_capacity l.entries - vec_len l.entries)
          (vec_capacity l.order - vec_len l.order);
    } };

    ghost invariant = { λ l.
        IsKept (record { caps = l.caps; moment = l.moment.0; entries = l.entries.items })
        × IsOrdered l.moment.0 l.standing l.entries.items l.order.items };
}

impl Ledger {
    /// The ledger of a port of this rate, of which class A may take `delta_a` percent, and class B
    /// `delta_b` percent and what class A leaves (IEEE Std 802.1Q-2018, 34.3). It takes no memory,
    /// and its moment is 0.
    pub fn new(alloc: Global, rate: Rate, delta_a: Percent, delta_b: Percent) -> Ledger
        requires { delta_a + delta_b ≤ 90 }
        ensures { result.book
            ≡ record { caps = caps_of rate delta_a delta_b; moment = 0; entries = [] } }
    {
        Ledger {
            caps: Caps::new(rate, delta_a, delta_b),
            moment: Cs(0),
            entries: Vec::new(alloc),
            order: Vec::new(alloc),
            standing: Standing::empty(),
        }
    }

    /// Takes a want at a moment in cs, which isn't before the ledger's, and decides anew. The same
    /// want again keeps its booking; one with another class, rank or slope loses it first. What
    /// changed in the booked set is answered. After want of memory, the one error, the book is as
    /// it was.
    pub fn want(&mut self, now: Cs, want: Want) -> Result<Changed, NoMemory>
        requires { self.old.book.moment ≤ now.0 }

        ensures decided { OnOk result
            (Decides now.0 self.old.book.caps
            (with_want self.old.book.entries want) self.new.book.entries) }
        ensures book { OnOk result (self.new.book ≡ wanted_book now.0 want self.old.book) }
        ensures rest { OnOk result (self.new.book
            ≡ record self.old.book { moment = now.0; entries = self.new.book.entries }) }

        ensures booked { IfOk result (λ c. c.booked
            ≡ booked_only_in self.new.book.entries self.old.book.entries) }
        ensures dropped { IfOk result (λ c. c.dropped
            ≡ booked_only_in self.old.book.entries self.new.book.entries) }

        // Of its own stream this want is kept, of each other stream the want that it had.
        ensures kept { OnOk result ((s : StreamId) → want_of self.new.book.entries s
            ≡ (if s.0 == want.stream.0 then Some want else want_of self.old.book.entries s)) }
        // The same want again changes nothing but the moment.
        ensures again { OnOk result (want_of self.old.book.entries want.stream ≡ Some want
            → self.new.book.entries ≡ self.old.book.entries) }

        ensures err { OnErr result (self.new.book ≡ self.old.book) }
    {
        self.stands();
        self.within_caps();
        importance_is_an_order();
        let alloc = *self.entries.allocator();
        if self.has_want(&want) {
            self.clock(now);
            return Ok(Changed::nothing(alloc));
        }
        let before = self.standing.later(self.moment.0 < now.0);
        let (standing, changed) = wanted(
            alloc,
            now,
            &self.caps,
            &before,
            &mut self.entries,
            &mut self.order,
            want,
        )?;
        self.standing = standing;
        self.moment = now;
        Ok(changed)
    }

    /// Makes room for so many streams beside those that have an entry. After want of memory, the
    /// one error, there is no less room than before. The book is as it was, whatever is answered.
    pub fn room(&mut self, wants: usize) -> Result<(), NoMemory>
        ensures book { self.new.book ≡ self.old.book }
        ensures spare { OnOk result (wants ≤ self.new.spare) }
        ensures stays { self.old.spare ≤ self.new.spare }
    {
        self.entries.reserve(wants)?;
        self.order.reserve(wants)?;
        Ok(())
    }

    /// Takes a want as `want` does, in room that is at hand, which a stream with an entry doesn't
    /// need. It takes no memory. The answer is whether the booked set changed.
    pub fn enter(&mut self, now: Cs, want: Want) -> bool
        requires moment { self.old.book.moment ≤ now.0 }
        requires spare { entry_of self.old.book.entries want.stream ≡ None → 1 ≤ self.old.spare }

        ensures decided { Decides now.0 self.old.book.caps
            (with_want self.old.book.entries want) self.new.book.entries }
        ensures book { self.new.book ≡ wanted_book now.0 want self.old.book }
        ensures rest { self.new.book
            ≡ record self.old.book { moment = now.0; entries = self.new.book.entries } }

        ensures changed { IsTrue result
            ↔ (booked_of self.new.book.entries ≢ booked_of self.old.book.entries) }

        // Of its own stream this want is kept, of each other stream the want that it had.
        ensures kept { (s : StreamId) → want_of self.new.book.entries s
            ≡ (if s.0 == want.stream.0 then Some want else want_of self.old.book.entries s) }
        // The same want again changes nothing but the moment.
        ensures again { want_of self.old.book.entries want.stream ≡ Some want
            → self.new.book.entries ≡ self.old.book.entries }

        // A stream with an entry uses no room, and another one room for one stream.
        ensures room { IsSome (entry_of self.old.book.entries want.stream)
            → self.old.spare ≤ self.new.spare }
        ensures used { self.old.spare ≤ self.new.spare + 1 }
    {
        self.stands();
        self.within_caps();
        importance_is_an_order();
        if self.has_want(&want) {
            self.clock(now);
            return false;
        }
        let before = self.standing.later(self.moment.0 < now.0);
        let (standing, changed) = wanted_in_room(
            now,
            &self.caps,
            &before,
            &mut self.entries,
            &mut self.order,
            want,
        );
        self.standing = standing;
        self.moment = now;
        changed
    }

    /// Takes the stream's want out at a moment in cs, which isn't before the ledger's, and decides
    /// anew; a stream that isn't kept changes nothing but the moment. It takes no memory. The
    /// answer is whether the booked set changed, which it does exactly where the stream was booked.
    pub fn unwant(&mut self, now: Cs, stream: StreamId) -> bool
        requires { self.old.book.moment ≤ now.0 }
        ensures book { self.new.book ≡ unwanted_book now.0 stream self.old.book }
        ensures changed { IsTrue result
            ↔ (booked_of self.new.book.entries ≢ booked_of self.old.book.entries) }
        ensures was_booked { result ≡ is_some (since_of self.old.book.entries stream) }

        // No want is kept of this stream, and of each other stream the want that it had.
        ensures kept { (s : StreamId) → want_of self.new.book.entries s
            ≡ (if s.0 == stream.0 then None else want_of self.old.book.entries s) }

        ensures room { self.old.spare ≤ self.new.spare }
    {
        self.stands();
        self.within_caps();
        importance_is_an_order();
        if !self.wants(stream) {
            self.clock(now);
            return false;
        }
        let was_booked = self.booked(stream).is_some();
        let before = self.standing.later(self.moment.0 < now.0);
        let standing = unwanted(
            now,
            &self.caps,
            &before,
            &mut self.entries,
            &mut self.order,
            stream,
        );
        self.standing = standing;
        self.moment = now;
        was_booked
    }

    /// Sets the ledger's moment, in cs, to one that isn't before it. It takes no memory and changes
    /// no booking. The answer is whether a want that isn't booked may fit otherwise than before:
    /// exactly where time moved, and some booking was of the moment before, which is older now than
    /// what isn't booked.
    pub fn clock(&mut self, now: Cs) -> bool
        requires { self.old.book.moment ≤ now.0 }
        ensures book { self.new.book ≡ clocked_book now.0 self.old.book }
        ensures shown { result
            ≡ (nat_lt self.old.book.moment now.0 && has_new_booking self.old.book) }
        ensures room { self.old.spare ≤ self.new.spare }
    {
        self.stands();
        let shown = self.shows_at(now);
        let moved = self.moment.0 < now.0;
        self.standing = self.standing.later(moved);
        self.moment = now;
        shown
    }

    /// What `clock` would answer at this moment, in cs: whether a want that isn't booked may fit
    /// otherwise then.
    pub fn shows_at(&self, now: Cs) -> bool
        ensures { result ≡ (nat_lt self.now.book.moment now.0 && has_new_booking self.now.book) }
    {
        self.moment < now && self.standing.totals.new_count > 0
    }

    /// The ledger's moment, in cs: the last one that was handed to it, and 0 at the start.
    pub fn moment(&self) -> Cs
        ensures { result.0 ≡ self.now.book.moment }
    {
        self.moment
    }

    /// The moment since when the stream is booked, in cs; None exactly where it isn't booked.
    pub fn booked(&self, stream: StreamId) -> Option<Cs>
        ensures { result ≡ since_of self.now.book.entries stream }
    {
        find_entry(&self.entries, stream).and_then(|x| x.since)
    }

    /// Whether the stream is kept as wanting the port.
    pub fn wants(&self, stream: StreamId) -> bool
        ensures { result ≡ is_some (entry_of self.now.book.entries stream) }
    {
        find_entry(&self.entries, stream).is_some()
    }

    /// Whether a want fits beside what is booked, at a moment in cs that isn't before the ledger's.
    /// It is tested with the moment of the stream's entry where that has this same want, else with
    /// none; what the stream has booked doesn't count against it. `TooLittle` comes exactly where
    /// the slopes of the more important booked streams, with the want's own, pass the cap of its
    /// class. It carries their sum without the own slope and that cap, both in bit/s, and the
    /// failure code 1 or 6 of a Talker Failed (IEEE Std 802.1Q-2018, 35.2.2.8.7).
    pub fn fits(&self, now: Cs, want: &Want) -> Fit
        requires { self.now.book.moment ≤ now.0 }
        ensures value { result ≡ fit_for now.0 self.now.book want.now }
        // A want that is kept fits exactly where it is booked.
        ensures kept { want_of self.now.book.entries want.now.stream ≡ Some want.now
            → (result ≡ Fits) ↔ IsSome (since_of self.now.book.entries want.now.stream) }
        // Both sums that it carries are at most the cap of both classes.
        ensures within { IsFitWithin self.now.book.caps.both result }
    {
        self.stands();
        self.within_caps();
        let x = tested_entry(&self.entries, want);
        fit_of(now, &self.caps, &self.entries, &x)
    }

    /// The booked entries, ascending by StreamID.
    pub fn bookings(&self) -> Result<Seq<Entry>, NoMemory>
        ensures booked { IfOk result (λ s. s ≡ booked_of self.now.book.entries) }
        ensures ascending { IfOk result (λ s. IsAscending s) }
    {
        self.stands();
        bookings(*self.entries.allocator(), &self.entries)
    }

    /// What changed in the booked set since it was that of these entries, which ascend by StreamID:
    /// a ledger's `bookings` of an earlier moment, say. Both lists are empty exactly where it is
    /// the same.
    pub fn changes_since(&self, before: &[Entry]) -> Result<Changed, NoMemory>
        requires { IsAscending before.now }
        ensures booked { IfOk result (λ c. c.booked
            ≡ booked_only_in self.now.book.entries before.now) }
        ensures dropped { IfOk result (λ c. c.dropped
            ≡ booked_only_in before.now self.now.book.entries) }
        ensures same { IfOk result (λ c. ((c.booked ≡ []) × (c.dropped ≡ []))
            ↔ (booked_of self.now.book.entries ≡ booked_of before.now)) }
    {
        nothing_changed_where_both_lists_are_empty();
        self.stands();
        changes(*self.entries.allocator(), before, &self.entries)
    }

    /// Puts what changed in the booked set since it was that of these entries, which ascend by
    /// StreamID, at the end of a list with room for as many as both have: first the streams whose
    /// booking is new, ascending, and then those whose booking is gone, ascending. A stream that is
    /// booked anew with another want comes twice. It takes no memory.
    pub fn push_moved(&self, before: &[Entry], moved: &mut Vec<StreamId>)
        requires before { IsAscending before.now }
        requires room { length self.now.book.entries + length before.now + vec_len moved.old
            ≤ vec_capacity moved.old }
        ensures { moved.new.items ≡ moved.old.items
            ++ (booked_only_in self.now.book.entries before.now
            ++ booked_only_in before.now self.now.book.entries) }
    {
        self.stands();
        push_only_in(moved, &self.entries, before);
        push_only_in(moved, before, &self.entries);
    }

    /// The stream's entry, booked or not; None exactly where none is kept.
    pub fn entry(&self, stream: StreamId) -> Option<Entry>
        ensures { result ≡ entry_of self.now.book.entries stream }
    {
        find_entry(&self.entries, stream)
    }

    /// Whether this want is kept of its stream.
    fn has_want(&self, want: &Want) -> bool
        ensures { result ≡ has_want self.now.book.entries want.now }
    {
        match self.entry(want.stream) {
            Some(x) => x.want == *want,
            None => false,
        }
    }

    /// The number of entries, booked or not.
    pub fn len(&self) -> usize
        ensures { result ≡ length self.now.book.entries }
    {
        self.entries.len()
    }

    /// The entry at this place, counted from 0 and ascending by StreamID; None exactly where the
    /// index isn't below `len`.
    pub fn entry_at(&self, index: usize) -> Option<Entry>
        ensures { result ≡ slice_get self.now.book.entries index }
    {
        self.entries.get(index).copied()
    }

    /// The slopes of the booked streams of a class together, in bit/s.
    pub fn slope(&self, class: Class) -> u128
        ensures { result ≡ booked_slope self.now.book.entries class }
    {
        self.standing.totals.slope(class)
    }

    /// What holds of every ledger.
    pub fn keeps(&self)
        ensures { IsKept self.now.book }
    {
        let _ = &self.entries;
    }

    /// The booked set of every ledger is the decided set of its entries, at its moment and at every
    /// later one, so that time passing changes no booking.
    pub fn stands(&self)
        ensures ascending { IsAscending self.now.book.entries }
        ensures decided { (later : ℕ) → self.now.book.moment ≤ later
            → IsDecision later self.now.book.caps self.now.book.entries
            (marks_of self.now.book.entries) }
        // Of every stream: its entry is booked exactly where it fits among the booked ones.
        ensures booked { (later : ℕ) → self.now.book.moment ≤ later → (s : StreamId)
            → IfSome (entry_of self.now.book.entries s)
            (λ x. is_booked x
            ≡ does_fit later self.now.book.caps (booked_of self.now.book.entries) x) }
        // A want that is kept fits exactly where it is booked.
        ensures kept { (later : ℕ) → self.now.book.moment ≤ later → (want : Want)
            → want_of self.now.book.entries want.stream ≡ Some want
            → (fit_for later self.now.book want ≡ Fits)
            ↔ IsSome (since_of self.now.book.entries want.stream) }
    {
        let _ = &self.entries;
    }

    /// The booked slopes of every ledger stay within its caps, of which that of class A is at most
    /// that of both classes, and both have 64 bits.
    pub fn within_caps(&self)
        ensures class_a { booked_slope self.now.book.entries A ≤ self.now.book.caps.class_a }
        ensures both { booked_slope self.now.book.entries A + booked_slope self.now.book.entries B
            ≤ self.now.book.caps.both }
        ensures shares { self.now.book.caps.class_a ≤ self.now.book.caps.both }
        ensures range { self.now.book.caps.both < 2 ^ 64 }
    {
        importance_is_an_order();
        let _ = &self.entries;
        let _both = self.caps.both;
    }
}
