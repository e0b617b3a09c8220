//! The wanting streams as a list that ascends by StreamID.

ghost use Rattle.std.specs.Prelude.{◌≡◌, ◌<◌, ◌≤◌, ◌+◌, ◌-◌, IsSome, None, insert, length, vec_capacity, vec_len, IfOk, IfErr};
ghost use Rattle.std.specs.List.{AllWithin, HoldsAt};
ghost use Rattle.port_ledger.specs.Book.{entry_of, entry_with, with_want, without};
ghost use Rattle.port_ledger.specs.Decision.{booked_of, IsAscending, stream_of};

use srp_base::{NoMemory, Seq, StreamId};
use std::alloc::Global;
use stream_importance::{Entry, Want};

/// The place of the stream's entry, or the place where it belongs.
pub(crate) fn place_of(entries: &[Entry], stream: StreamId) -> Result<usize, usize>
    requires { IsAscending entries.now }
    ensures found { IfOk result (λ i. (i < length entries.now)
        × HoldsAt (λ x. stream_of x ≡ stream.0) entries.now i) }
    ensures missing { IfErr result (λ i. (i ≤ length entries.now)
        × AllWithin (λ x. stream_of x < stream.0) entries.now 0 i
        × AllWithin (λ x. stream.0 < stream_of x) entries.now i (length entries.now)) }
{
    entries.binary_search_by_key(&stream.0, |x| x.want.stream.0)
}

/// The stream's entry.
pub(crate) fn find_entry(entries: &[Entry], stream: StreamId) -> Option<Entry>
    requires { IsAscending entries.now }
    ensures { result ≡ entry_of entries.now stream }
{
    match place_of(entries, stream) {
        Ok(place) => Some(entries[place]),
        Err(_) => None,
    }
}

/// The stream's entry is taken out, where there is one. It takes no memory.
pub(crate) fn take_out(entries: &mut Vec<Entry>, stream: StreamId)
    requires { IsAscending entries.old.items }
    ensures items { entries.new.items ≡ without entries.old.items stream }
    ensures room { vec_capacity entries.old - vec_len entries.old
        ≤ vec_capacity entries.new - vec_len entries.new }
{
    if let Ok(place) = place_of(entries, stream) {
        entries.remove(place);
    }
}

/// The want is put at its place, where room is at hand or its stream has an entry.
pub(crate) fn put(entries: &mut Vec<Entry>, want: Want)
    requires ascending { IsAscending entries.old.items }
    requires room { entry_of entries.old.items want.stream ≡ None
        → vec_len entries.old < vec_capacity entries.old }
    ensures items { entries.new.items ≡ with_want entries.old.items want }
    ensures capacity { vec_capacity entries.new ≡ vec_capacity entries.old }
    ensures len { vec_len entries.new ≤ vec_len entries.old + 1 }
    ensures stays { IsSome (entry_of entries.old.items want.stream)
        → vec_len entries.new ≡ vec_len entries.old }
{
    match place_of(entries, want.stream) {
        Ok(place) => entries[place] = entry_with(entries[place], want),
        Err(place) => insert_reserved(entries, place, Entry { want, since: None }),
    }
}

fn insert_reserved(entries: &mut Vec<Entry>, place: usize, x: Entry)
    requires place { place ≤ length entries.old.items }
    requires room { vec_len entries.old < vec_capacity entries.old }
    ensures items { entries.new.items ≡ insert entries.old.items place x }
    ensures len { vec_len entries.new ≡ vec_len entries.old + 1 }
    ensures capacity { vec_capacity entries.new ≡ vec_capacity entries.old }
{
    match entries.insert(place, x) {
        Ok(()) => {}
        Err(_) => unreachable!(),
    }
}

fn entry_with(entry: Entry, want: Want) -> Entry
    ensures { result ≡ entry_with entry want }
{
    if entry.want != want {
        return Entry { want, since: None };
    }
    entry
}

/// The booked ones of the entries, in their order.
pub(crate) fn bookings(alloc: Global, entries: &[Entry]) -> Result<Seq<Entry>, NoMemory>
    ensures { IfOk result (λ s. s ≡ booked_of entries.now) }
{
    let mut booked = Vec::new(alloc);
    for x in entries {
        if x.since.is_none() {
            continue;
        }
        booked.push(*x)?;
    }
    Ok(Seq::from_vec(booked))
}
