//! What a call changed in the booked set.

ghost use Rattle.std.specs.Prelude.{◌≡◌, ◌<◌, ◌≤◌, ◌+◌, ◌++◌, ◌∷◌, ◌&&◌, [], not, length, drop, vec_capacity, vec_len, if◌then◌else◌, IfOk, OnOk};
ghost use Rattle.std.specs.List.{list_any};
ghost use Rattle.port_ledger.specs.Book.{booked_only_in, same_entry};
ghost use Rattle.port_ledger.specs.Decision.{is_booked, IsAscending};
ghost use Rattle.port_ledger.specs.Pass.{begins_with_entry, from_stream, booked_stream, booked_streams_below};

use crate::entries::find_entry;
use srp_base::{NoMemory, Seq, StreamId};
use std::alloc::Global;
use stream_importance::Entry;

/// What a call changed in the booked set, each list ascending.
#[derive(PartialEq, Eq, Drop)]
pub struct Changed {
    /// The streams whose booking, with its want and its moment, is new.
    pub booked: Seq<StreamId>,
    /// The streams whose earlier booking is gone. A stream that is booked anew with another want
    /// stands in both.
    pub dropped: Seq<StreamId>,
}

impl Changed {
    /// Nothing changed.
    pub(crate) fn nothing(alloc: Global) -> Changed
        ensures { result ≡ record { booked = []; dropped = [] } }
    {
        Changed {
            booked: Seq::new(alloc),
            dropped: Seq::new(alloc),
        }
    }
}

/// What changed in the booked set between two lists of entries: one walk along both.
pub(crate) fn changes(alloc: Global, before: &[Entry], after: &[Entry]) -> Result<Changed, NoMemory>
    requires before { IsAscending before.now }
    requires after { IsAscending after.now }
    ensures booked { IfOk result (λ c. c.booked ≡ booked_only_in after.now before.now) }
    ensures dropped { IfOk result (λ c. c.dropped ≡ booked_only_in before.now after.now) }
{
    let mut booked = Vec::new(alloc);
    let mut dropped = Vec::new(alloc);
    let mut rest = before;
    for x in after {
        note_below(&mut dropped, rest, x.want.stream)?;
        rest = from_stream(rest, x.want.stream);
        if begins_with(rest, x) {
            rest = tail(rest);
            continue;
        }
        note(&mut booked, x)?;
    }
    note_all(&mut dropped, rest)?;
    Ok(Changed {
        booked: Seq::from_vec(booked),
        dropped: Seq::from_vec(dropped),
    })
}

/// Adds the stream of an entry that is booked.
fn note(streams: &mut Vec<StreamId>, x: &Entry) -> Result<(), NoMemory>
    ensures { OnOk result (streams.new.items ≡ streams.old.items ++ booked_stream x.now) }
{
    if x.since.is_some() {
        streams.push(x.want.stream)?;
    }
    Ok(())
}

/// Adds the streams of the booked entries up to the first that isn't below a stream.
fn note_below(
    streams: &mut Vec<StreamId>,
    entries: &[Entry],
    stream: StreamId,
) -> Result<(), NoMemory>
    ensures { OnOk result (streams.new.items
        ≡ streams.old.items ++ booked_streams_below entries.now stream) }
{
    for x in entries {
        if x.want.stream.0 >= stream.0 {
            return Ok(());
        }
        note(streams, x)?;
    }
    Ok(())
}

/// Adds the streams of all booked entries.
fn note_all(streams: &mut Vec<StreamId>, entries: &[Entry]) -> Result<(), NoMemory>
    ensures { OnOk result (streams.new.items
        ≡ streams.old.items ++ booked_only_in entries.now []) }
{
    for x in entries {
        note(streams, x)?;
    }
    Ok(())
}

/// The entries behind the first.
fn tail(entries: &[Entry]) -> &[Entry]
    requires { 0 < length entries.now }
    ensures { result.now ≡ drop 1 entries.now }
{
    &entries[1..]
}

/// The entries from the first on that isn't below the stream.
fn from_stream(entries: &[Entry], stream: StreamId) -> &[Entry]
    ensures { result.now ≡ from_stream entries.now stream }
{
    let mut at = 0;
    while at < entries.len() && entries[at].want.stream < stream {
        at += 1;
    }
    &entries[at..]
}

fn begins_with(entries: &[Entry], x: &Entry) -> bool
    ensures { result ≡ begins_with_entry entries.now x.now }
{
    match entries {
        [] => false,
        [first, ..] => same_entry(x, first),
    }
}

fn same_entry(x: &Entry, y: &Entry) -> bool
    ensures { result ≡ same_entry x.now y.now }
{
    *x == *y
}

/// Puts the streams whose booked entry is in these and not in those at the end, in room that is at
/// hand.
pub(crate) fn push_only_in(moved: &mut Vec<StreamId>, these: &[Entry], those: &[Entry])
    requires those { IsAscending those.now }
    requires room { length these.now + vec_len moved.old ≤ vec_capacity moved.old }
    ensures items { moved.new.items ≡ moved.old.items ++ booked_only_in these.now those.now }
    ensures len { vec_len moved.new ≤ length these.now + vec_len moved.old }
    ensures capacity { vec_capacity moved.new ≡ vec_capacity moved.old }
{
    for x in these {
        let new = is_only_here(x, those);
        push_where(moved, new, x.want.stream);
    }
}

/// Puts a stream at the end where a test holds, in room that is at hand.
fn push_where(moved: &mut Vec<StreamId>, holds: bool, stream: StreamId)
    requires { vec_len moved.old < vec_capacity moved.old }
    ensures items { moved.new.items ≡ moved.old.items ++ (if holds then stream ∷ [] else []) }
    ensures len { vec_len moved.new ≤ vec_len moved.old + 1 }
    ensures capacity { vec_capacity moved.new ≡ vec_capacity moved.old }
{
    if holds {
        moved.push_reserved(stream);
    }
}

/// Whether an entry is booked, and isn't among those.
fn is_only_here(x: &Entry, those: &[Entry]) -> bool
    requires { IsAscending those.now }
    ensures { result ≡ (is_booked x.now && not (list_any (same_entry x.now) those.now)) }
{
    x.since.is_some() && !is_among(x, those)
}

/// Whether an entry is among those.
fn is_among(x: &Entry, those: &[Entry]) -> bool
    requires { IsAscending those.now }
    ensures { result ≡ list_any (same_entry x.now) those.now }
{
    match find_entry(those, x.want.stream) {
        Some(y) => same_entry(x, &y),
        None => false,
    }
}
