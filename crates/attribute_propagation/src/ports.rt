//! The keys that await settling at each link port of a node.

ghost use Rattle.std.specs.Prelude.{◌≡◌, ◌<◌, ◌==◌, ◌+◌, ℕ, not, [], ◌≤◌, length, slice_get, slice_set, IfOk, OnOk, Some, if◌then◌else◌};
ghost use Rattle.std.specs.List.{list_all, list_any};
ghost use Rattle.attribute_propagation.specs.Dirty.{all_marked};
ghost use Rattle.attribute_propagation.specs.Ports.{HasRoom, count_of, keys_in, new_sets, none_awaits, some_awaits, marked_elsewhere, marked_everywhere};

use crate::dirty::Dirty;
use srp_base::{NoMemory, PortSetup};
use std::alloc::Global;

/// A number as an answer of 32 bits, which stands still at its end.
pub fn saturated(count: usize) -> u32
    ensures { result ≡ count_of count }
{
    u32::try_from(count).unwrap_or(u32::MAX)
}

/// The sets of new ports: no key awaits at any of them.
pub fn new_sets<K: Copy + Ord>(
    alloc: Global,
    ports: &[PortSetup],
) -> Result<Vec<Dirty<K>>, NoMemory>
    ensures { IfOk result (λ v. keys_in v.items ≡ new_sets ports.now) }
{
    let mut sets = Vec::with_capacity(alloc, ports.len())?;
    for port in ports {
        let _ = port;
        sets.push(Dirty::new(alloc))?;
    }
    Ok(sets)
}

/// The keys that await at a place.
pub fn set_at<K: Copy + Ord>(sets: &[Dirty<K>], at: usize) -> &Dirty<K>
    requires { at < length sets.now }
    ensures { slice_get (keys_in sets.now) at ≡ Some result.now.keys }
{
    &sets[at]
}

/// Whether no key awaits at any port.
pub fn none_awaits<K: Copy + Ord>(sets: &[Dirty<K>]) -> bool
    ensures { result ≡ none_awaits (keys_in sets.now) }
{
    are_empty(sets)
}

// Whether no key is in any of these sets.
fn are_empty<K: Copy + Ord>(sets: &[Dirty<K>]) -> bool
    ensures { result ≡ list_all (λ set. length set.keys == 0) sets.now }
{
    sets.iter().all(|set| set.is_empty())
}

/// Whether a key awaits at some port.
pub fn some_awaits<K: Copy + Ord>(sets: &[Dirty<K>]) -> bool
    ensures { result ≡ some_awaits (keys_in sets.now) }
{
    is_any_filled(sets)
}

// Whether a key is in one of these sets.
fn is_any_filled<K: Copy + Ord>(sets: &[Dirty<K>]) -> bool
    ensures { result ≡ list_any (λ set. not (length set.keys == 0)) sets.now }
{
    sets.iter().any(|set| !set.is_empty())
}

/// These keys where there are news of them, or none.
pub fn told_where<K: Copy + Ord>(is_told: bool, keys: &[K]) -> &[K]
    ensures { result.now ≡ (if is_told then keys.now else []) }
{
    if is_told { keys } else { &[] }
}

/// Makes room for this many more keys at each port. After want of memory, as before it, each port
/// has the keys that it had.
pub fn room_everywhere<K: Copy + Ord>(sets: &mut Vec<Dirty<K>>, keys: usize) -> Result<(), NoMemory>
    ensures room { OnOk result (HasRoom keys sets.new.items) }
    ensures keys { keys_in sets.new.items ≡ keys_in sets.old.items }
{
    for place in 0..sets.len() {
        sets[place].room(keys)?;
    }
    Ok(())
}

/// Puts these keys in at every port but the one at a place, counted from 0. It takes no memory: at
/// each port there is room for as many.
pub fn tell_elsewhere<K: Copy + Ord>(sets: &mut Vec<Dirty<K>>, at: usize, keys: &[K])
    requires { HasRoom (length keys.now) sets.old.items }
    ensures { keys_in sets.new.items ≡ marked_elsewhere K.cmp at keys.now (keys_in sets.old.items) }
{
    for place in 0..sets.len() {
        mark_unless(&mut sets[place], place == at, keys);
    }
}

/// Puts these keys in at every port. It takes no memory: at each port there is room for as many.
/// Where there was room for more than these, the rest of it is left.
pub fn tell_everywhere<K: Copy + Ord>(sets: &mut Vec<Dirty<K>>, keys: &[K])
    requires { HasRoom (length keys.now) sets.old.items }
    ensures keys { keys_in sets.new.items
        ≡ marked_everywhere K.cmp keys.now (keys_in sets.old.items) }
    // Room for these keys and n more leaves room for n.
    ensures room { (n : ℕ) → HasRoom (length keys.now + n) sets.old.items
        → HasRoom n sets.new.items }
{
    for place in 0..sets.len() {
        sets[place].mark_all(keys);
    }
}

/// Takes all keys out that await at a place. It takes no memory.
pub fn empty_at<K: Copy + Ord>(sets: &mut Vec<Dirty<K>>, at: usize)
    requires { at < length sets.old.items }
    ensures { keys_in sets.new.items ≡ slice_set (keys_in sets.old.items) at [] }
{
    sets[at].empty();
}

// A set stays, or gets these keys, for which it has room.
fn mark_unless<K: Copy + Ord>(set: &mut Dirty<K>, stays: bool, keys: &[K])
    requires { length keys.now ≤ set.old.spare }
    ensures { set.new.keys
        ≡ (if stays then set.old.keys else all_marked K.cmp keys.now set.old.keys) }
{
    if !stays {
        set.mark_all(keys);
    }
}
