//! What comes in and goes out at a link port, and what the application asks for.

ghost use Rattle.std.specs.Prelude.{◌≡◌, ◌≢◌, ◌<◌, ◌≤◌, ◌^◌, ◌∷◌, [], true, false, IsTrue, if◌then◌else◌, length, slice_get, None, Some, IfOk, IfSome, IsOk, OnOk, OnErr};
ghost use Rattle.mrp_participant.specs.{Lookup.find, Row.is_leaving_in, State.due_count, State.is_any_due};
ghost use Rattle.attribute_propagation.specs.{Dirty.with_key, Dirty.without_key, Ports.IsLinkPort, Ports.count_of, Ports.keys_in, Ports.marked_everywhere, Ports.place_of};
ghost use Rattle.flat_side.specs.Part.{said_events};
ghost use Rattle.flat_side.specs.Side.{HasReceived, has_own, received_flat, due_flat, left_flat, leave_all_flat, periodic_flat, spoilt_flat, requested_flat};

use crate::app::FlatApp;
use crate::laws::every_call_keeps_a_side;
use crate::port::{
    fire_at, leave_all_at, leave_at, leave_room, periodic_at, receive_at, room_at, spoil_at,
};
use crate::side::{FlatSide, part_at};
use attribute_propagation::laws::each_port_is_told;
use attribute_propagation::{Dirty, room_everywhere, saturated, tell_everywhere};
use mrp_participant::Msgs;
use mrp_participant::laws::nothing_due_changes_nothing;
use mrpdu_codec::DecodeErr;
use srp_base::{Cs, MrpEvent, NoMemory, PortNo, Seq};
use std::alloc::{AllocError, Global};

impl<A: FlatApp> FlatSide<A> {
    /// Makes the side ready at a link port: afterwards `due` and `settle` of that port take no
    /// memory, and all else is as before. Each call that changes the side ends its readiness;
    /// `due`, `settle`, `send` and `request` leave it where they change nothing. After want of
    /// memory, which comes only where the side isn't ready at the port, it is ready nowhere.
    pub fn room(&mut self, port: PortNo) -> Result<(), NoMemory>
        requires { IsLinkPort port (length self.old.state.parts) }
        ensures state { self.new.state ≡ self.old.state }
        ensures ready { OnOk result (self.new.ready ≡ Some (place_of port)) }
        ensures err { OnErr result (self.new.ready ≡ None) }
        ensures again { self.old.ready ≡ Some (place_of port) → IsOk result }
    {
        let at = usize::from(port.0) - 1;
        if is_at(self.ready, at) {
            return Ok(());
        }
        self.ready = None;
        room_at(&mut self.parts, &mut self.awaiting, at)?;
        self.ready = Some(at);
        Ok(())
    }

    /// Takes the octets of a PDU that came in at a link port at the moment `now`, in cs and below
    /// 2^62: its LeaveAll first, then its events in order (IEEE Std 802.1Q-2018, 10.7.5). Answers
    /// the number of its events. Keys whose registration changes await at every other link port.
    ///
    /// # Errors
    ///
    /// `Malformed` exactly where the octets are, with the offset; then nothing changes.
    pub fn receive(&mut self, now: Cs, port: PortNo, octets: &[u8]) -> Result<u32, DecodeErr>
        requires now { now.0 < 2 ^ 62 }
        requires port { IsLinkPort port (length self.old.state.parts) }
        requires short { length octets.now ≤ 1500 }
        ensures received { HasReceived A.Key.cmp A.codec now (place_of port) octets.now
            self.old.state result self.new.state }
        ensures ready { OnOk result (self.new.ready ≡ None) }
    {
        let alloc = *self.parts.allocator();
        let pdu = A::decode(alloc, octets)?;
        let (leave_all, events) = A::says(pdu);
        let at = usize::from(port.0) - 1;
        match self.take(alloc, now, at, leave_all, events.as_slice()) {
            Ok(()) => Ok(saturated(events.len())),
            Err(_) => Err(DecodeErr::NoMemory),
        }
    }

    // What a PDU says acts on the participant at a place.
    fn take(
        &mut self,
        alloc: Global,
        now: Cs,
        at: usize,
        leave_all: bool,
        events: &[(MrpEvent, A::Key)],
    ) -> Result<(), NoMemory>
        requires now { now.0 < 2 ^ 62 }
        requires place { at < length self.old.state.parts }
        ensures ok { OnOk result (self.new.state
            ≡ received_flat A.Key.cmp now at leave_all events.now self.old.state) }
        ensures err { OnErr result (self.new.state ≡ self.old.state) }
        ensures ready { OnOk result (self.new.ready ≡ None) }
    {
        every_call_keeps_a_side::<A>();
        self.keeps();
        let msgs = msgs_of::<A>(alloc, leave_all, events)?;
        self.ready = None;
        receive_at(&mut self.parts, &mut self.awaiting, at, now, &msgs)
    }

    /// Fires the timers of a link port that are due at the moment `now`, in cs and below 2^62 (IEEE
    /// Std 802.1Q-2018, 10.7.4). Answers their number. Keys that leave await at every other link
    /// port. Want of memory comes only where a timer is due and the side isn't ready at the port.
    /// Where none is due nothing changes, readiness either.
    pub fn due(&mut self, now: Cs, port: PortNo) -> Result<u32, NoMemory>
        requires now { now.0 < 2 ^ 62 }
        requires port { IsLinkPort port (length self.old.state.parts) }
        ensures after { OnOk result (self.new.state
            ≡ due_flat A.Key.cmp now (place_of port) self.old.state) }
        ensures count { IfOk result (λ n. IfSome (slice_get self.old.state.parts (place_of port))
            (λ s. n ≡ count_of (due_count now s))) }
        ensures err { OnErr result (self.new.state ≡ self.old.state) }
        ensures room { self.old.ready ≡ Some (place_of port) → IsOk result }
        // Want of memory comes only where a timer is due, and what fires alone ends readiness.
        ensures none { IfSome (slice_get self.old.state.parts (place_of port))
            (λ s. is_any_due now s ≡ false → IsOk result) }
        ensures stays { IfSome (slice_get self.old.state.parts (place_of port))
            (λ s. is_any_due now s ≡ false → self.new ≡ self.old) }
        ensures ready { OnOk result (IfSome (slice_get self.old.state.parts (place_of port))
            (λ s. is_any_due now s ≡ true → self.new.ready ≡ None)) }
    {
        each_port_is_told::<A::Key>();
        nothing_due_changes_nothing::<A>();
        let at = usize::from(port.0) - 1;
        if !part_at(self.parts.as_slice(), at).any_due(now) {
            return Ok(0);
        }
        self.room(port)?;
        Ok(self.fire(now, at))
    }

    // Fires the timers at the place where the side is ready.
    fn fire(&mut self, now: Cs, at: usize) -> u32
        requires now { now.0 < 2 ^ 62 }
        requires place { at < length self.old.state.parts }
        requires ready { self.old.ready ≡ Some at }
        ensures after { self.new.state ≡ due_flat A.Key.cmp now at self.old.state }
        ensures count { IfSome (slice_get self.old.state.parts at)
            (λ s. result ≡ count_of (due_count now s)) }
        ensures ready { self.new.ready ≡ None }
    {
        every_call_keeps_a_side::<A>();
        let fired = fire_at(&mut self.parts, &mut self.awaiting, at, now);
        self.ready = None;
        fired
    }

    /// Ends the leave timer of one key at a link port, whatever the moment: LV becomes MT, and the
    /// key awaits at every other link port. True exactly where the registrar was LV; where it
    /// wasn't, nothing changes, and no memory is taken. It ends readiness.
    pub fn leave_now(&mut self, port: PortNo, key: A::Key) -> Result<bool, NoMemory>
        requires { IsLinkPort port (length self.old.state.parts) }
        ensures after { OnOk result (self.new.state
            ≡ left_flat A.Key.cmp (place_of port) key self.old.state) }
        ensures was { IfOk result (λ b. IfSome (slice_get self.old.state.parts (place_of port))
            (λ s. b ≡ is_leaving_in (find A.Key.cmp key s.rows))) }
        ensures err { OnErr result (self.new.state ≡ self.old.state) }
        // Want of memory comes only where the registrar is LV.
        ensures stays { IfSome (slice_get self.old.state.parts (place_of port))
            (λ s. is_leaving_in (find A.Key.cmp key s.rows) ≡ false → IsOk result) }
        ensures ready { OnOk result (self.new.ready ≡ None) }
    {
        every_call_keeps_a_side::<A>();
        let at = usize::from(port.0) - 1;
        self.ready = None;
        let part = part_at(self.parts.as_slice(), at);
        let keys = leave_room(&mut self.awaiting, part, key)?;
        let keys = keys.as_slice();
        Ok(leave_at(&mut self.parts, &mut self.awaiting, at, key, keys))
    }

    /// Fires the LeaveAll timer of a link port at the moment `now`, in cs and below 2^62, whatever
    /// its own moment: the machine is Active, and the timer starts anew (IEEE Std 802.1Q-2018,
    /// 10.7.9).
    pub fn leaveall_now(&mut self, now: Cs, port: PortNo)
        requires now { now.0 < 2 ^ 62 }
        requires port { IsLinkPort port (length self.old.state.parts) }
        ensures after { self.new.state ≡ leave_all_flat now (place_of port) self.old.state }
        ensures ready { self.new.ready ≡ None }
    {
        every_call_keeps_a_side::<A>();
        leave_all_at(&mut self.parts, usize::from(port.0) - 1, now);
        self.ready = None;
    }

    /// Gives the periodic event to each key of a link port, also where periodic transmission is off
    /// (IEEE Std 802.1Q-2018, 10.7.10).
    pub fn periodic_now(&mut self, port: PortNo)
        requires { IsLinkPort port (length self.old.state.parts) }
        ensures after { self.new.state ≡ periodic_flat (place_of port) self.old.state }
        ensures ready { self.new.ready ≡ None }
    {
        every_call_keeps_a_side::<A>();
        periodic_at(&mut self.parts, usize::from(port.0) - 1);
        self.ready = None;
    }

    /// Ends the soundness of a link port's participant, as after a loss on its link.
    pub fn spoil(&mut self, port: PortNo)
        requires { IsLinkPort port (length self.old.state.parts) }
        ensures after { self.new.state ≡ spoilt_flat (place_of port) self.old.state }
        ensures ready { self.new.ready ≡ None }
    {
        every_call_keeps_a_side::<A>();
        spoil_at(&mut self.parts, usize::from(port.0) - 1);
        self.ready = None;
    }

    /// Declares a key for the application where `declared` is true, and else withdraws it. Where
    /// that changes what the application declares, the key awaits at every link port; where it
    /// doesn't, nothing changes, readiness either, and no memory is taken.
    pub fn request(&mut self, key: A::Key, declared: bool) -> Result<(), NoMemory>
        ensures ok { OnOk result (self.new.state
            ≡ requested_flat A.Key.cmp key declared self.old.state) }
        ensures err { OnErr result (self.new.state ≡ self.old.state) }
        // Want of memory comes only where something is to change, and that alone ends readiness.
        ensures none { has_own A.Key.cmp key self.old.state ≡ declared → IsOk result }
        ensures stays { has_own A.Key.cmp key self.old.state ≡ declared → self.new ≡ self.old }
        ensures ready { OnOk result (has_own A.Key.cmp key self.old.state ≢ declared
            → self.new.ready ≡ None) }
    {
        every_call_keeps_a_side::<A>();
        if agree(declared, self.own.awaits(key)) {
            return Ok(());
        }
        self.ready = None;
        ask(&mut self.awaiting, &mut self.own, key, declared)
    }
}

// Whether a place is this one.
fn is_at(place: Option<usize>, at: usize) -> bool
    ensures yes { IsTrue result → place ≡ Some at }
    ensures no { place ≡ Some at → IsTrue result }
{
    match place {
        Some(place) => place == at,
        None => false,
    }
}

// Whether two answers are one.
fn agree(one: bool, other: bool) -> bool
    ensures same { IsTrue result → one ≡ other }
    ensures only { one ≡ other → IsTrue result }
{
    one == other
}

// A key is declared, or withdrawn, and awaits at every port. After want of memory all are as they
// were.
fn ask<K: Copy + Ord>(
    sets: &mut Vec<Dirty<K>>,
    own: &mut Dirty<K>,
    key: K,
    declared: bool,
) -> Result<(), NoMemory>
    ensures sets { OnOk result (keys_in sets.new.items
        ≡ marked_everywhere K.cmp (key ∷ []) (keys_in sets.old.items)) }
    ensures own { OnOk result (own.new.keys ≡ (if declared then with_key K.cmp key own.old.keys
        else without_key K.cmp key own.old.keys)) }
    ensures same_sets { OnErr result (keys_in sets.new.items ≡ keys_in sets.old.items) }
    ensures same_own { OnErr result (own.new.keys ≡ own.old.keys) }
{
    let keys = only(*sets.allocator(), key)?;
    room_everywhere(sets, 1)?;
    change(own, key, declared)?;
    tell_everywhere(sets, keys.as_slice());
    Ok(())
}

/// A list of one key.
pub(crate) fn only<K: Copy>(alloc: Global, key: K) -> Result<Vec<K>, NoMemory>
    ensures { IfOk result (λ v. v.items ≡ key ∷ []) }
{
    let mut keys = Vec::with_capacity(alloc, 1)?;
    keys.push(key)?;
    Ok(keys)
}

// A key is put in, or taken out.
fn change<K: Copy + Ord>(own: &mut Dirty<K>, key: K, declared: bool) -> Result<(), NoMemory>
    ensures ok { OnOk result (own.new.keys ≡ (if declared then with_key K.cmp key own.old.keys
        else without_key K.cmp key own.old.keys)) }
    ensures err { OnErr result (own.new.keys ≡ own.old.keys) }
{
    if declared {
        own.mark(key)
    } else {
        own.clear(key);
        Ok(())
    }
}

// What a PDU says to a participant.
fn msgs_of<A: FlatApp>(
    alloc: Global,
    leave_all: bool,
    events: &[(MrpEvent, A::Key)],
) -> Result<Msgs<A>, NoMemory>
    ensures leave_all { IfOk result (λ m. m.leave_all ≡ leave_all) }
    ensures events { IfOk result (λ m. m.events ≡ said_events events.now) }
{
    let events = without_content(alloc, events)?;
    Ok(Msgs {
        leave_all,
        events: Seq::from_vec(events),
    })
}

// Events of keys as those of attributes without content.
fn without_content<K: Copy>(
    alloc: Global,
    events: &[(MrpEvent, K)],
) -> Result<Vec<(MrpEvent, K, ())>, AllocError>
    ensures { IfOk result (λ v. v.items ≡ said_events events.now) }
{
    events
        .iter()
        .map(|event| (event.0, event.1, ()))
        .collect(alloc)
}
