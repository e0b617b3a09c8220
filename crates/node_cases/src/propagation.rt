//! Keys that await settling, at one port and at three, and the flat rule of declarations.

use crate::vlans::setup;
use attribute_propagation::{
    Dirty, empty_at, flat_declares, new_sets, none_awaits, room_everywhere, set_at, some_awaits,
    tell_elsewhere, tell_everywhere,
};
use srp_base::NoMemory;
use std::alloc::Global;
use std::test::Fail;

// A set of these keys.
fn set_of(alloc: Global, keys: &[u16]) -> Result<Dirty<u16>, NoMemory> {
    let mut set = Dirty::new(alloc);
    for key in keys {
        set.mark(*key)?;
    }
    Ok(set)
}

// The keys of the set below, marked in this order.
fn some_keys(alloc: Global) -> Result<Dirty<u16>, NoMemory> {
    set_of(alloc, [7, 3, 9, 3].as_slice())
}

// Whether these are all keys of the set, ascending.
fn has_keys(set: &Dirty<u16>, keys: &[u16]) -> bool {
    set.len() == keys.len() && set.as_slice() == keys
}

// Whether the set has this key at its last place, and none behind it.
fn ends_with(set: &Dirty<u16>, last: u16) -> bool {
    let count = set.len();
    0 < count && set.key_at(count - 1) == Some(last) && set.key_at(count) == None
}

// Whether these are all keys of the set once two more are put in, for which room is made.
fn grows_to(set: &mut Dirty<u16>, keys: &[u16]) -> bool {
    if set.room(2).is_err() {
        return false;
    }
    set.mark_all([8, 1].as_slice());
    set.as_slice() == keys
}

// Whether a key that is cleared awaits no more, and the set has what is left.
fn leaves(set: &mut Dirty<u16>, key: u16, rest: &[u16]) -> bool {
    let awaited = set.awaits(key);
    set.clear(key);
    awaited && !set.awaits(key) && set.as_slice() == rest
}

// Whether nothing leaves a set of some keys where a key is cleared that isn't in it.
fn stays(set: &mut Dirty<u16>, key: u16, keys: &[u16]) -> bool {
    set.clear(key);
    !set.is_empty() && set.as_slice() == keys
}

#[test]
fn a_set_is_read_ascending(rt: HostRuntime) -> Result<(), Fail> {
    let mut set = some_keys(rt.alloc())?;
    assert!(rt; has_keys(&set, [3, 7, 9].as_slice()));
    assert!(rt; ends_with(&set, 9));
    assert!(rt; grows_to(&mut set, [1, 3, 7, 8, 9].as_slice()));
    Ok(())
}

#[test]
fn a_cleared_key_awaits_no_more(rt: HostRuntime) -> Result<(), Fail> {
    let mut set = some_keys(rt.alloc())?;
    assert!(rt; leaves(&mut set, 7, [3, 9].as_slice()));
    assert!(rt; stays(&mut set, 8, [3, 9].as_slice()));
    Ok(())
}

// Whether a key that is marked in a new set, once room is made for it, awaits.
fn awaits_in_room(alloc: Global, key: u16) -> Result<bool, NoMemory> {
    let mut set = Dirty::new(alloc);
    set.room(1)?;
    let is_empty = set.is_empty();
    set.mark(key)?;
    Ok(is_empty && set.awaits(key))
}

#[test]
fn a_key_for_which_room_was_made_awaits(rt: HostRuntime) -> Result<(), Fail> {
    let awaits = awaits_in_room(rt.alloc(), 7)?;
    assert!(rt; awaits);
    Ok(())
}

// The sets of three new ports.
fn new_ports(alloc: Global) -> Result<Vec<Dirty<u16>>, NoMemory> {
    match (setup(1), setup(1), setup(1)) {
        (Some(one), Some(two), Some(three)) => new_sets(alloc, [one, two, three].as_slice()),
        _ => Err(NoMemory),
    }
}

// Whether these are the keys that await at a place, ascending.
fn await_at(sets: &[Dirty<u16>], at: usize, keys: &[u16]) -> bool {
    at < sets.len() && set_at(sets, at).as_slice() == keys
}

// Whether these await at the first port and at the third, and these at the second.
fn await_around(sets: &[Dirty<u16>], around: &[u16], within: &[u16]) -> bool {
    await_at(sets, 0, around) && await_at(sets, 1, within) && await_at(sets, 2, around)
}

// Whether what the second port tells awaits at the others, once there is room for it.
fn tells_others(sets: &mut Vec<Dirty<u16>>) -> Result<bool, NoMemory> {
    let none = none_awaits(sets.as_slice());
    room_everywhere(sets, 2)?;
    tell_elsewhere(sets, 1, [7, 3].as_slice());
    Ok(none && await_around(sets.as_slice(), [3, 7].as_slice(), [].as_slice()))
}

// Whether what is told everywhere awaits at each beside that, once there is room for it.
fn tells_all(sets: &mut Vec<Dirty<u16>>) -> Result<bool, NoMemory> {
    room_everywhere(sets, 1)?;
    tell_everywhere(sets, [5].as_slice());
    Ok(await_around(sets.as_slice(), [3, 5, 7].as_slice(), [5].as_slice()))
}

// Whether none awaits at the second port once all are taken out there.
fn empties(sets: &mut Vec<Dirty<u16>>) -> bool {
    if sets.len() != 3 {
        return false;
    }
    empty_at(sets, 1);
    some_awaits(sets.as_slice())
        && await_around(sets.as_slice(), [3, 5, 7].as_slice(), [].as_slice())
}

fn are_told(alloc: Global) -> Result<bool, NoMemory> {
    let mut sets = new_ports(alloc)?;
    Ok(tells_others(&mut sets)? && tells_all(&mut sets)? && empties(&mut sets))
}

#[test]
fn keys_are_told_to_other_ports_and_to_all(rt: HostRuntime) {
    assert!(rt; are_told(rt.alloc()) == Ok(true));
}

// Whether the ports declare this, where this is registered.
fn declare(registered: &[bool], declared: &[bool]) -> bool {
    for port in 0..declared.len() {
        if flat_declares(registered, port) != declared[port] {
            return false;
        }
    }
    true
}

#[test]
fn a_port_declares_what_another_has(rt: HostRuntime) {
    assert!(rt; declare(&[false, true, false], &[true, false, true]));
    assert!(rt; declare(&[true, true, false], &[true, true, true]));
    assert!(rt; declare(&[false, false, false], &[false, false, false]));
}
