//! The changes of a tick, put among those before.

ghost use Rattle.std.specs.Prelude.{◌≡◌, ◌≤◌, ◌<◌, ◌+◌, ◌++◌, ◌∷◌, [], true, false, length, HoldsAt, IfSome, IfNone, IfOk, OnOk, OnErr, vec_len, vec_capacity};
ghost use Rattle.std.specs.VecDeque.{deque_len};
ghost use Rattle.world_core.specs.Merging.{precedes, front_before, rest_from, changes_among};

use srp_base::{EgressPort, NoMemory, PortChange, Seq};
use std::alloc::Global;
use std::collections::VecDeque;
use std::mem;

/// Puts changes among others, both ascending by port, each behind those of its port.
pub(crate) fn put_among(
    alloc: Global,
    changes: &mut Seq<PortChange>,
    lacking: VecDeque<PortChange>,
) -> Result<(), NoMemory>
    ensures ok { OnOk result (changes.new ≡ changes_among changes.old lacking.items) }
    ensures err { OnErr result (changes.new ≡ changes.old) }
{
    if lacking.is_empty() {
        return Ok(());
    }
    let mut all = new_room(alloc, changes.as_slice(), &lacking)?;
    let old = mem::replace(changes, Seq::new(alloc)).into_vec();
    merge(VecDeque::from(old), lacking, &mut all);
    *changes = Seq::from_vec(all);
    Ok(())
}

/// Whether a port comes before another: by node, then by port.
pub(crate) fn precedes(p: EgressPort, q: EgressPort) -> bool
    ensures { result ≡ precedes p q }
{
    p.node.0 < q.node.0 || p.node.0 == q.node.0 && p.port.0 < q.port.0
}

// Room for changes and others.
fn new_room(
    alloc: Global,
    changes: &[PortChange],
    lacking: &VecDeque<PortChange>,
) -> Result<Vec<PortChange>, NoMemory>
    ensures empty { IfOk result (λ v. v.items ≡ []) }
    ensures len { IfOk result (λ v. vec_len v ≡ 0) }
    ensures room { IfOk result (λ v. vec_capacity v ≡ length changes.now + deque_len lacking.now) }
{
    Ok(Vec::with_capacity(alloc, changes.len() + lacking.len())?)
}

// Puts changes among others, both ascending by port, each behind those of its port. There is room
// for all of them.
fn merge(
    mut old: VecDeque<PortChange>,
    mut lacking: VecDeque<PortChange>,
    all: &mut Vec<PortChange>,
)
    requires { deque_len old + deque_len lacking + vec_len all.old ≤ vec_capacity all.old }
    ensures { all.new.items ≡ all.old.items ++ changes_among old.items lacking.items }
{
    while let Some(change) = old.pop_front() {
        move_before(&mut lacking, change.at, all);
        push_last(all, change);
    }
    move_all(lacking, all);
}

// Moves the changes in front whose ports come before a port to the end of others, where there is
// room.
fn move_before(lacking: &mut VecDeque<PortChange>, at: EgressPort, all: &mut Vec<PortChange>)
    requires { deque_len lacking.old + vec_len all.old ≤ vec_capacity all.old }
    ensures moved { all.new.items ≡ all.old.items ++ front_before at lacking.old.items }
    ensures rest { lacking.new.items ≡ rest_from at lacking.old.items }
    ensures room { vec_capacity all.old ≤ vec_capacity all.new }
    ensures count { deque_len lacking.new + vec_len all.new
        ≡ deque_len lacking.old + vec_len all.old }
{
    while let Some(change) = take_before(lacking, at) {
        push_last(all, change);
    }
}

// Takes the first change, where its port comes before a port.
fn take_before(lacking: &mut VecDeque<PortChange>, at: EgressPort) -> Option<PortChange>
    ensures one { IfSome result (λ c. (lacking.old.items ≡ c ∷ lacking.new.items)
        × (precedes c.at at ≡ true)) }
    ensures none { IfNone result ((lacking.new.items ≡ lacking.old.items)
        × (front_before at lacking.old.items ≡ [])
        × (rest_from at lacking.old.items ≡ lacking.old.items)) }
    ensures less { IfSome result (λ c. deque_len lacking.new + 1 ≡ deque_len lacking.old) }
    ensures same { IfNone result (deque_len lacking.new ≡ deque_len lacking.old) }
{
    if begins_before(lacking, at) {
        lacking.pop_front()
    } else {
        None
    }
}

// Whether there is a first change whose port comes before a port.
fn begins_before(lacking: &VecDeque<PortChange>, at: EgressPort) -> bool
    ensures yes { result ≡ true → (0 < length lacking.now.items)
        × HoldsAt (λ c. precedes c.at at ≡ true) lacking.now.items 0 }
    ensures nay { result ≡ false → (front_before at lacking.now.items ≡ [])
        × (rest_from at lacking.now.items ≡ lacking.now.items) }
{
    match lacking.front() {
        Some(c) => precedes(c.at, at),
        None => false,
    }
}

// Moves all changes to the end of others, where there is room.
fn move_all(mut lacking: VecDeque<PortChange>, all: &mut Vec<PortChange>)
    requires { deque_len lacking + vec_len all.old ≤ vec_capacity all.old }
    ensures { all.new.items ≡ all.old.items ++ lacking.items }
{
    while let Some(change) = lacking.pop_front() {
        push_last(all, change);
    }
}

// Puts a change at the end of others, where there is room.
fn push_last(all: &mut Vec<PortChange>, change: PortChange)
    requires { vec_len all.old < vec_capacity all.old }
    ensures items { all.new.items ≡ all.old.items ++ change ∷ [] }
    ensures len { vec_len all.new ≡ vec_len all.old + 1 }
    ensures room { vec_capacity all.old ≤ vec_capacity all.new }
{
    match all.push(change) {
        Ok(()) => {}
        Err(_) => unreachable!(),
    }
}
