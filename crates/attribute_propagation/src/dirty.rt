//! A set of keys that await settling.

ghost use Rattle.std.specs.Prelude.{◌≡◌, ◌==◌, ◌≤◌, ◌<◌, ◌+◌, [], true, false, length, slice_get, vec_capacity, vec_len, IsOk, IfOk, OnOk, OnErr};
ghost use Rattle.attribute_propagation.specs.Dirty.{IsAscending, IsPlace, with_key, all_marked, without_key, is_awaiting};

use srp_base::NoMemory;
use std::alloc::Global;
use std::marker::Model;

/// A set of keys that await settling. Contracts see a `KeySet`: the list of its keys, ascending
/// strictly, and its spare, the number of new keys for which it has room.
#[derive(Drop)]
pub struct Dirty<K: Copy + Ord> {
    keys: Vec<K>,
}

impl<K: Copy + Ord> Model for Dirty<K> {
    ghost use Rattle.std.specs.Prelude.{◌-◌, vec_capacity, vec_len};
    ghost use Rattle.attribute_propagation.specs.Dirty.{IsAscending, KeySet};

    ghost Value = { KeySet K };

    ghost view = { λ d. record {
      keys = d.keys.items;
      spare = vec_capacity d.keys - vec_len d.keys;
    } };

    ghost invariant = { λ d. IsAscending K.cmp d.keys.items };
}

impl<K: Copy + Ord> Dirty<K> {
    /// The empty set. It takes no memory.
    pub fn new(alloc: Global) -> Dirty<K>
        ensures { result ≡ record { keys = []; spare = 0 } }
    {
        Dirty {
            keys: Vec::new(alloc),
        }
    }

    /// What every set keeps: its keys ascend strictly. It is a law, and does nothing.
    pub fn ascends(&self)
        ensures { IsAscending K.cmp self.now.keys }
    {
        let _ = &self.keys;
    }

    /// Makes room: afterwards the spare is at least `keys`, and the keys are as before. After want
    /// of memory the set is as it was.
    pub fn room(&mut self, keys: usize) -> Result<(), NoMemory>
        ensures ok { OnOk result (keys ≤ self.new.spare) }
        ensures keys { self.new.keys ≡ self.old.keys }
        ensures spare { self.old.spare ≤ self.new.spare }
    {
        self.keys.reserve(keys)?;
        Ok(())
    }

    /// Puts a key in. A key that isn't in uses one of the spare, and where there is none takes
    /// memory; a key that is in takes none. After want of memory the set is as it was.
    pub fn mark(&mut self, key: K) -> Result<(), NoMemory>
        ensures ok { OnOk result (self.new.keys ≡ with_key K.cmp key self.old.keys) }
        ensures err { OnErr result (self.new.keys ≡ self.old.keys) }
        // Want of memory comes only for a key that isn't in, where no spare is left.
        ensures room { OnErr result ((self.old.spare ≡ 0)
            × (is_awaiting K.cmp key self.old.keys ≡ false)) }
        // A new key lowers the spare by one at most, one that is in lowers nothing.
        ensures spare { self.old.spare ≤ self.new.spare + 1 }
        ensures marked { is_awaiting K.cmp key self.old.keys ≡ true → self.new ≡ self.old }
    {
        insert(&mut self.keys, key)
    }

    /// Puts these keys in, in this order. It takes no memory: there is room for as many. Each
    /// lowers the spare by one at most.
    pub fn mark_all(&mut self, keys: &[K])
        requires { length keys.now ≤ self.old.spare }
        ensures keys { self.new.keys ≡ all_marked K.cmp keys.now self.old.keys }
        ensures spare { self.old.spare ≤ self.new.spare + length keys.now }
    {
        for key in keys {
            self.mark_within(*key);
        }
    }

    // Puts a key in where there is room for one more.
    fn mark_within(&mut self, key: K)
        requires { 1 ≤ self.old.spare }
        ensures keys { self.new.keys ≡ with_key K.cmp key self.old.keys }
        ensures spare { self.old.spare ≤ self.new.spare + 1 }
    {
        match self.mark(key) {
            Ok(()) => {}
            Err(_) => unreachable!(),
        }
    }

    /// Takes all keys out. It takes no memory, and lowers no spare.
    pub fn empty(&mut self)
        ensures keys { self.new.keys ≡ [] }
        ensures spare { self.old.spare ≤ self.new.spare }
    {
        self.keys.truncate(0);
    }

    /// Takes a key out, where it is in. It takes no memory, and lowers no spare.
    pub fn clear(&mut self, key: K)
        ensures keys { self.new.keys ≡ without_key K.cmp key self.old.keys }
        ensures spare { self.old.spare ≤ self.new.spare }
    {
        remove(&mut self.keys, &key);
    }

    /// Whether a key is in.
    pub fn awaits(&self, key: K) -> bool
        ensures { result ≡ is_awaiting K.cmp key self.now.keys }
    {
        is_in(self.keys.as_slice(), &key)
    }

    /// The number of keys.
    pub fn len(&self) -> usize
        ensures { result ≡ length self.now.keys }
    {
        self.keys.len()
    }

    /// Whether no key is in.
    pub fn is_empty(&self) -> bool
        ensures { result ≡ (length self.now.keys == 0) }
    {
        self.keys.is_empty()
    }

    /// The keys as a slice, ascending.
    pub fn as_slice(&self) -> &[K]
        ensures { result.now ≡ self.now.keys }
    {
        self.keys.as_slice()
    }

    /// The key at a place, counted from 0 and ascending; None exactly where the index isn't below
    /// `len`.
    pub fn key_at(&self, index: usize) -> Option<K>
        ensures { result ≡ slice_get self.now.keys index }
    {
        self.keys.as_slice().get(index).copied()
    }
}

// The place of a key, or the place at which it would stand.
fn place<K: Copy + Ord>(keys: &[K], key: &K) -> Result<usize, usize>
    requires { IsAscending K.cmp keys.now }
    ensures { IsPlace K.cmp key.now keys.now result }
{
    keys.binary_search(key)
}

// Whether a key is in.
fn is_in<K: Copy + Ord>(keys: &[K], key: &K) -> bool
    requires { IsAscending K.cmp keys.now }
    ensures { result ≡ is_awaiting K.cmp key.now keys.now }
{
    match place(keys, key) {
        Ok(_) => true,
        Err(_) => false,
    }
}

// Puts a key in its place, where it isn't in.
fn insert<K: Copy + Ord>(keys: &mut Vec<K>, key: K) -> Result<(), NoMemory>
    requires { IsAscending K.cmp keys.old.items }
    ensures ok { OnOk result (keys.new.items ≡ with_key K.cmp key keys.old.items) }
    ensures err { OnErr result (keys.new.items ≡ keys.old.items) }
    ensures room { OnErr result ((vec_capacity keys.old ≤ vec_len keys.old)
        × (is_awaiting K.cmp key keys.old.items ≡ false)) }
    ensures capacity { vec_capacity keys.old ≤ vec_capacity keys.new }
    ensures len { vec_len keys.new ≤ vec_len keys.old + 1 }
    ensures marked { is_awaiting K.cmp key keys.old.items ≡ true → keys.new ≡ keys.old }
    ensures ascends { IsAscending K.cmp keys.new.items }
{
    match place(keys.as_slice(), &key) {
        Ok(_) => Ok(()),
        Err(at) => {
            keys.insert(at, key)?;
            Ok(())
        }
    }
}

// Takes a key out, where it is in.
fn remove<K: Copy + Ord>(keys: &mut Vec<K>, key: &K)
    requires { IsAscending K.cmp keys.old.items }
    ensures without { keys.new.items ≡ without_key K.cmp key.now keys.old.items }
    ensures capacity { vec_capacity keys.new ≡ vec_capacity keys.old }
    ensures len { vec_len keys.new ≤ vec_len keys.old }
    ensures ascends { IsAscending K.cmp keys.new.items }
{
    if let Ok(at) = place(keys.as_slice(), key) {
        keys.remove(at);
    }
}
