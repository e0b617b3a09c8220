//! Settling the keys that await at a port.

ghost use Rattle.std.specs.Prelude.{◌≡◌, ◌≢◌, ◌<◌, ◌≤◌, ◌+◌, ◌||◌, ◌^◌, [], length, drop, slice_get, take, None, Some, IfOk, IfSome, IsOk, OnOk, OnErr};
ghost use Rattle.std.specs.List.{list_any};
ghost use Rattle.mrp_participant.specs.State.{declared_state};
ghost use Rattle.attribute_propagation.specs.{Dirty.is_awaiting, Ports.IsLinkPort, Ports.count_of, Ports.keys_at, Ports.keys_in, Ports.place_of};
ghost use Rattle.flat_side.specs.Part.{registers, same_content, settled_key};
ghost use Rattle.flat_side.specs.Side.{awaiting_at, parts_settled, rule_at, settled_flat};
ghost use Rattle.flat_side.specs.Holding.{HasRoomAt, flat_of, parts_in};

use crate::app::FlatApp;
use crate::laws::every_call_keeps_a_side;
use crate::side::FlatSide;
use attribute_propagation::{Dirty, empty_at, saturated, set_at};
use mrp_participant::Participant;
use srp_base::{Cs, NoMemory, PortNo};

impl<A: FlatApp> FlatSide<A> {
    /// Settles the keys that await at a link port, ascending: each is declared there where another
    /// port or the application has it registered, and else withdrawn (IEEE Std 802.1Q-2018, 10.3,
    /// 11.2). Answers how many awaited; none does afterwards. `now` isn't looked at: keys settle
    /// alike at every moment. Want of memory comes only where the side isn't ready at the port and
    /// some key awaits there. Where none awaits nothing changes, readiness either.
    pub fn settle(&mut self, now: Cs, port: PortNo) -> Result<u32, NoMemory>
        requires now { now.0 < 2 ^ 62 }
        requires port { IsLinkPort port (length self.old.state.parts) }
        ensures after { OnOk result (self.new.state
            ≡ settled_flat A.Key.cmp (place_of port) self.old.state) }
        ensures count { IfOk result (λ n. n
            ≡ count_of (length (awaiting_at (place_of port) self.old.state))) }
        ensures err { OnErr result (self.new.state ≡ self.old.state) }
        ensures room { self.old.ready ≡ Some (place_of port) → IsOk result }
        ensures none { awaiting_at (place_of port) self.old.state ≡ [] → IsOk result }
        // What settles ends readiness, and nothing else does.
        ensures stays { awaiting_at (place_of port) self.old.state ≡ [] → self.new ≡ self.old }
        ensures ready { OnOk result (awaiting_at (place_of port) self.old.state ≢ []
            → self.new.ready ≡ None) }
    {
        let at = usize::from(port.0) - 1;
        if set_at(self.awaiting.as_slice(), at).is_empty() {
            return Ok(0);
        }
        self.room(port)?;
        Ok(self.settle_ready(at))
    }

    // Settles the keys at the place where the side is ready.
    fn settle_ready(&mut self, at: usize) -> u32
        requires place { at < length self.old.state.parts }
        requires ready { self.old.ready ≡ Some at }
        ensures after { self.new.state ≡ settled_flat A.Key.cmp at self.old.state }
        ensures count { result ≡ count_of (length (awaiting_at at self.old.state)) }
        ensures ready { self.new.ready ≡ None }
    {
        every_call_keeps_a_side::<A>();
        let count = settle_at(&mut self.parts, &mut self.awaiting, &self.own, at);
        self.ready = None;
        count
    }
}

// The keys that await at a place are settled, and none awaits there afterwards. There is room for
// them. Answers how many there were.
fn settle_at<A: FlatApp>(
    parts: &mut Vec<Participant<A>>,
    sets: &mut Vec<Dirty<A::Key>>,
    own: &Dirty<A::Key>,
    at: usize,
) -> u32
    requires part { at < length parts.old.items }
    requires set { at < length sets.old.items }
    requires room { HasRoomAt at parts.old.items sets.old.items }
    ensures after { flat_of parts.new.items sets.new.items own.now.keys
        ≡ settled_flat A.Key.cmp at (flat_of parts.old.items sets.old.items own.now.keys) }
    ensures count { result ≡ count_of (length (keys_at at (keys_in sets.old.items))) }
{
    let keys = set_at(sets.as_slice(), at);
    let count = saturated(keys.len());
    settle_keys(parts, own, at, keys.as_slice());
    empty_at(sets, at);
    count
}

// These keys are settled at a place, in this order. The participant there has room for as many
// rows.
fn settle_keys<A: FlatApp>(
    parts: &mut Vec<Participant<A>>,
    own: &Dirty<A::Key>,
    at: usize,
    keys: &[A::Key],
)
    requires place { at < length parts.old.items }
    requires room { IfSome (slice_get parts.old.items at) (λ p. length keys.now ≤ p.spare) }
    ensures { parts_in parts.new.items ≡ parts_settled A.Key.cmp at own.now.keys keys.now
        (parts_in parts.old.items) }
{
    for key in keys {
        let is_flat = is_flat_at(parts.as_slice(), own, at, *key);
        settle_key(&mut parts[at], *key, is_flat);
    }
}

// Whether another port than the one at a place, or the application, has a key registered.
fn is_flat_at<A: FlatApp>(
    parts: &[Participant<A>],
    own: &Dirty<A::Key>,
    at: usize,
    key: A::Key,
) -> bool
    requires { at < length parts.now }
    ensures { result ≡ rule_at A.Key.cmp at own.now.keys (parts_in parts.now) key }
{
    is_asked_elsewhere(parts, own, at, key)
}

// Whether the application, or a participant before or after a place, has a key registered.
fn is_asked_elsewhere<A: FlatApp>(
    parts: &[Participant<A>],
    own: &Dirty<A::Key>,
    at: usize,
    key: A::Key,
) -> bool
    ensures { result ≡ ((is_awaiting A.Key.cmp key own.now.keys
        || list_any (λ part. registers A.Key.cmp key part.state) (take at parts.now))
        || list_any (λ part. registers A.Key.cmp key part.state) (drop 1 (drop at parts.now))) }
{
    (own.awaits(key) || is_registered_before(parts, at, key)) || is_registered_after(parts, at, key)
}

// Whether a participant before a place has a key registered.
fn is_registered_before<A: FlatApp>(parts: &[Participant<A>], at: usize, key: A::Key) -> bool
    ensures { result ≡ list_any (λ part. registers A.Key.cmp key part.state) (take at parts.now) }
{
    parts.iter().take(at).any(|part| is_registered(part, key))
}

// Whether a participant after a place has a key registered.
fn is_registered_after<A: FlatApp>(parts: &[Participant<A>], at: usize, key: A::Key) -> bool
    ensures { result
        ≡ list_any (λ part. registers A.Key.cmp key part.state) (drop 1 (drop at parts.now)) }
{
    parts
        .iter()
        .skip(at)
        .skip(1)
        .any(|part| is_registered(part, key))
}

// Whether a participant has a key registered.
fn is_registered<A: FlatApp>(part: &Participant<A>, key: A::Key) -> bool
    ensures { result ≡ registers A.Key.cmp key part.now.state }
{
    part.registered(key).is_some()
}

// One key is declared, or withdrawn. There is room for one more row.
fn settle_key<A: FlatApp>(part: &mut Participant<A>, key: A::Key, is_flat: bool)
    requires { 1 ≤ part.old.spare }
    ensures state { part.new.state ≡ settled_key A.Key.cmp (λ _. is_flat) part.old.state key }
    ensures spare { part.old.spare ≤ part.new.spare + 1 }
{
    if is_flat {
        declare(part, key);
    } else {
        part.withdraw(key);
    }
}

// One key is declared. There is room for one more row.
fn declare<A: FlatApp>(part: &mut Participant<A>, key: A::Key)
    requires { 1 ≤ part.old.spare }
    ensures state { part.new.state
        ≡ declared_state A.Key.cmp same_content key tt part.old.state }
    ensures spare { part.old.spare ≤ part.new.spare + 1 }
{
    match part.declare(key, ()) {
        Ok(()) => {}
        Err(_) => unreachable!(),
    }
}
