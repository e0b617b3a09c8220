//! What the participant at a place does, in its place, and what it tells the ports. None of this
//! takes memory but what answers that there was none.

ghost use Rattle.std.specs.Prelude.{◌≡◌, ◌≤◌, ◌<◌, ◌^◌, true, false, List, length, slice_get, IfOk, IfSome, IsOk, OnOk, OnErr};
ghost use Rattle.std.specs.List.{AllByRecursion};
ghost use Rattle.mrp_participant.specs.{Lookup.find, Row.is_leaving_in, State.AreRows, State.due_count, State.due_state, State.left_keys};
ghost use Rattle.attribute_propagation.specs.{Dirty.KeySet, Ports.HasRoom, Ports.count_of, Ports.keys_in};
ghost use Rattle.flat_side.specs.Side.{due_flat, heard_flat, leave_all_flat, left_flat, left_key, periodic_flat, sent_flat, spoilt_flat};
ghost use Rattle.flat_side.specs.Holding.{HasRoomAt, flat_of, parts_in};

use crate::app::FlatApp;
use crate::calls::only;
use attribute_propagation::{Dirty, room_everywhere, set_at, tell_elsewhere};
use mrp_participant::laws::told_keys_are_few;
use mrp_participant::{Msgs, Participant};
use registrar::Registrar;
use srp_base::{Cs, NoMemory, Seq};

// ---- room

/// Takes the memory for all that the timers and the awaiting keys of the port at a place do. No
/// state changes.
pub(crate) fn room_at<A: FlatApp>(
    parts: &mut Vec<Participant<A>>,
    sets: &mut Vec<Dirty<A::Key>>,
    at: usize,
) -> Result<(), NoMemory>
    requires part { at < length parts.old.items }
    requires set { at < length sets.old.items }
    ensures parts { parts_in parts.new.items ≡ parts_in parts.old.items }
    ensures sets { keys_in sets.new.items ≡ keys_in sets.old.items }
    ensures room { OnOk result (HasRoomAt at parts.new.items sets.new.items) }
{
    let waiting = set_at(sets.as_slice(), at).len();
    let rows = part_room(&mut parts[at], waiting)?;
    room_everywhere(sets, rows)
}

// A participant is made ready, and gets room for so many rows. Answers how many it has.
fn part_room<A: FlatApp>(part: &mut Participant<A>, waiting: usize) -> Result<usize, NoMemory>
    ensures state { part.new.state ≡ part.old.state }
    ensures ready { OnOk result (part.new.ready ≡ true) }
    ensures spare { OnOk result (waiting ≤ part.new.spare) }
    ensures rows { IfOk result (λ rows. rows ≡ length part.new.state.rows) }
{
    part.room(waiting)?;
    part.due_room()?;
    Ok(part.rows())
}

/// Takes the memory for what the end of a key's leave timer tells. Answers the keys that are told:
/// the key where its registrar is LV, and else none, and then no memory is taken.
#[tactic(auto, using(crate::proofs::Changing::no_room))]
pub(crate) fn leave_room<A: FlatApp>(
    sets: &mut Vec<Dirty<A::Key>>,
    part: &Participant<A>,
    key: A::Key,
) -> Result<Vec<A::Key>, NoMemory>
    ensures told { IfOk result (λ v. v.items ≡ left_key A.Key.cmp key part.now.state) }
    ensures room { IfOk result (λ v. HasRoom (length v.items) sets.new.items) }
    ensures sets { keys_in sets.new.items ≡ keys_in sets.old.items }
    ensures stays { is_leaving_in (find A.Key.cmp key part.now.state.rows) ≡ false
        → IsOk result }
{
    let alloc = *sets.allocator();
    if !is_leaving(part, key) {
        return Ok(Vec::new(alloc));
    }
    room_everywhere(sets, 1)?;
    only(alloc, key)
}

// Whether the registrar of a key is LV.
#[tactic(auto, using(crate::proofs::Changing::leaving_of))]
fn is_leaving<A: FlatApp>(part: &Participant<A>, key: A::Key) -> bool
    ensures { result ≡ is_leaving_in (find A.Key.cmp key part.now.state.rows) }
{
    part.registrar(key) == Registrar::Leaving
}

// ---- what tells none

/// The LeaveAll timer of the participant at a place fires at a moment.
pub(crate) fn leave_all_at<A: FlatApp>(parts: &mut Vec<Participant<A>>, at: usize, now: Cs)
    requires now { now.0 < 2 ^ 62 }
    requires place { at < length parts.old.items }
    ensures { (sets : List (KeySet A.Key)) (own : List A.Key) → flat_of parts.new.items sets own
        ≡ leave_all_flat now at (flat_of parts.old.items sets own) }
{
    parts[at].leaveall_due(now);
}

/// Each key of the participant at a place takes the periodic event.
pub(crate) fn periodic_at<A: FlatApp>(parts: &mut Vec<Participant<A>>, at: usize)
    requires { at < length parts.old.items }
    ensures { (sets : List (KeySet A.Key)) (own : List A.Key) → flat_of parts.new.items sets own
        ≡ periodic_flat at (flat_of parts.old.items sets own) }
{
    parts[at].periodic_due();
}

/// The participant at a place isn't sound any more.
pub(crate) fn spoil_at<A: FlatApp>(parts: &mut Vec<Participant<A>>, at: usize)
    requires { at < length parts.old.items }
    ensures { (sets : List (KeySet A.Key)) (own : List A.Key) → flat_of parts.new.items sets own
        ≡ spoilt_flat at (flat_of parts.old.items sets own) }
{
    parts[at].spoil();
}

/// What the participant at a place had to say has gone out.
pub(crate) fn sent_at<A: FlatApp>(parts: &mut Vec<Participant<A>>, at: usize, now: Cs)
    requires now { now.0 < 2 ^ 62 }
    requires place { at < length parts.old.items }
    ensures { (sets : List (KeySet A.Key)) (own : List A.Key) → flat_of parts.new.items sets own
        ≡ sent_flat A.Key.cmp A.base A.octets now at (flat_of parts.old.items sets own) }
{
    parts[at].sent(now);
}

// ---- what tells the other ports

/// The participant at a place receives messages, and the keys whose registration that changes await
/// at every other port. After want of memory all are as they were.
pub(crate) fn receive_at<A: FlatApp>(
    parts: &mut Vec<Participant<A>>,
    sets: &mut Vec<Dirty<A::Key>>,
    at: usize,
    now: Cs,
    msgs: &Msgs<A>,
) -> Result<(), NoMemory>
    requires now { now.0 < 2 ^ 62 }
    requires place { at < length parts.old.items }
    requires rows { AllByRecursion (λ s. AreRows A.Key.cmp s.rows) (parts_in parts.old.items) }
    ensures ok { OnOk result ((own : List A.Key) → flat_of parts.new.items sets.new.items own
        ≡ heard_flat A.Key.cmp now at msgs.now.leave_all msgs.now.events
        (flat_of parts.old.items sets.old.items own)) }
    ensures parts { OnErr result (parts_in parts.new.items ≡ parts_in parts.old.items) }
    ensures sets { OnErr result (keys_in sets.new.items ≡ keys_in sets.old.items) }
{
    told_keys_are_few::<A>();
    room_everywhere(sets, msgs.events.len())?;
    let told = parts[at].receive(now, msgs)?;
    tell_elsewhere(sets, at, told.as_slice());
    Ok(())
}

/// The timers that are due at a place fire, and the keys that leave await at every other port.
/// There is room for them. Answers how many fired.
pub(crate) fn fire_at<A: FlatApp>(
    parts: &mut Vec<Participant<A>>,
    sets: &mut Vec<Dirty<A::Key>>,
    at: usize,
    now: Cs,
) -> u32
    requires now { now.0 < 2 ^ 62 }
    requires place { at < length parts.old.items }
    requires room { HasRoomAt at parts.old.items sets.old.items }
    ensures after { (own : List A.Key) → flat_of parts.new.items sets.new.items own
        ≡ due_flat A.Key.cmp now at (flat_of parts.old.items sets.old.items own) }
    ensures count { IfSome (slice_get (parts_in parts.old.items) at)
        (λ s. result ≡ count_of (due_count now s)) }
{
    told_keys_are_few::<A>();
    let (fired, left) = fired(&mut parts[at], now);
    tell_elsewhere(sets, at, left.as_slice());
    fired
}

// The timers of a ready participant that are due fire. Answers how many, and the keys that left.
fn fired<A: FlatApp>(part: &mut Participant<A>, now: Cs) -> (u32, Seq<A::Key>)
    requires now { now.0 < 2 ^ 62 }
    requires ready { part.old.ready ≡ true }
    ensures after { part.new.state ≡ due_state now part.old.state }
    ensures count { result.0 ≡ count_of (due_count now part.old.state) }
    ensures keys { result.1 ≡ left_keys now part.old.state }
{
    match part.due(now) {
        Ok(fired) => fired,
        Err(_) => unreachable!(),
    }
}

/// The leave timer of one key ends at a place, and the keys that leave, it or none, await at every
/// other port. There is room for them. True exactly where its registrar was LV.
pub(crate) fn leave_at<A: FlatApp>(
    parts: &mut Vec<Participant<A>>,
    sets: &mut Vec<Dirty<A::Key>>,
    at: usize,
    key: A::Key,
    keys: &[A::Key],
) -> bool
    requires place { at < length parts.old.items }
    requires keys { IfSome (slice_get (parts_in parts.old.items) at)
        (λ s. keys.now ≡ left_key A.Key.cmp key s) }
    requires room { HasRoom (length keys.now) sets.old.items }
    ensures after { (own : List A.Key) → flat_of parts.new.items sets.new.items own
        ≡ left_flat A.Key.cmp at key (flat_of parts.old.items sets.old.items own) }
    ensures was { IfSome (slice_get (parts_in parts.old.items) at)
        (λ s. result ≡ is_leaving_in (find A.Key.cmp key s.rows)) }
{
    let was = parts[at].leave_due(key);
    tell_elsewhere(sets, at, keys);
    was
}
