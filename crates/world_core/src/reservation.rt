//! What a port has in force: whether that is what a change says, and the change that says it.

ghost use Rattle.std.specs.Prelude.{◌≡◌, ◌≤◌, ◌<◌, ◌+◌, true, false, length, drop, map, option_map, HoldsAt, MatchOption, IfOk, IfSome, IfNone};
ghost use Rattle.port_ledger.specs.Decision.{is_booked};
ghost use Rattle.world_core.specs.Reservation.{said_by, booked_streams, is_registered_row, registered_vids, reservation_of, are_same_streams, are_same_vids, is_same, change_of};

use mrp_participant::Participant;
use mvrp::MvrpApp;
use port_ledger::Ledger;
use srp_base::{Class, EgressPort, NoMemory, PortChange, Seq, StreamId, Vid};
use std::alloc::Global;
use stream_importance::Entry;

/// Whether what a port has in force is what a change says; nothing is, before the first.
pub(crate) fn is_said(
    part: &Participant<MvrpApp>,
    ledger: &Ledger,
    force: Option<&PortChange>,
) -> bool
    ensures { result ≡ is_same (said_by (option_map (λ c. c.now) force.entry))
        (reservation_of part.now.state ledger.now.book) }
{
    match force {
        Some(c) => is_said_by(part, ledger, c),
        None => has_nothing(part, ledger),
    }
}

// Whether it is what this change says.
fn is_said_by(part: &Participant<MvrpApp>, ledger: &Ledger, c: &PortChange) -> bool
    ensures { result
        ≡ is_same (said_by (Some c.now)) (reservation_of part.now.state ledger.now.book) }
{
    books_just(ledger, c.booked.as_slice())
        && u128::from(c.slope_a) == ledger.slope(Class::A)
        && u128::from(c.slope_b) == ledger.slope(Class::B)
        && registers_just(part, c.vids.as_slice())
}

// Whether nothing is in force.
fn has_nothing(part: &Participant<MvrpApp>, ledger: &Ledger) -> bool
    ensures { result ≡ is_same (said_by None) (reservation_of part.now.state ledger.now.book) }
{
    books_just(ledger, &[])
        && ledger.slope(Class::A) == 0
        && ledger.slope(Class::B) == 0
        && registers_just(part, &[])
}

// Whether a ledger has booked just these streams.
fn books_just(ledger: &Ledger, streams: &[StreamId]) -> bool
    ensures { result ≡ are_same_streams streams.now (booked_streams ledger.now.book.entries) }
{
    let mut next = 0;
    for i in 0..ledger.len() {
        match after_entry(ledger, i, streams, next) {
            Some(place) => next = place,
            None => return false,
        }
    }
    next == streams.len()
}

// The place after one in these streams, once the entry of an index has been compared: the next one
// where it is booked and of the stream at that place, the same where it isn't booked; else None.
fn after_entry(ledger: &Ledger, i: usize, streams: &[StreamId], next: usize) -> Option<usize>
    requires index { i < length ledger.now.book.entries }
    requires place { next ≤ length streams.now }
    ensures within { IfSome result (λ n. n ≤ length streams.now) }
    ensures same { IfSome result (λ n. are_same_streams (drop next streams.now)
        (booked_streams (drop i ledger.now.book.entries))
        ≡ are_same_streams (drop n streams.now)
        (booked_streams (drop (i + 1) ledger.now.book.entries))) }
    ensures other { IfNone result (are_same_streams (drop next streams.now)
        (booked_streams (drop i ledger.now.book.entries)) ≡ false) }
{
    let Some(stream) = booked_entry(ledger, i) else {
        return Some(next);
    };
    if next < streams.len() && streams[next] == stream {
        Some(next + 1)
    } else {
        None
    }
}

// The stream of the entry of an index, where it is booked.
fn booked_entry(ledger: &Ledger, i: usize) -> Option<StreamId>
    requires { i < length ledger.now.book.entries }
    ensures { MatchOption result (HoldsAt (λ x. is_booked x ≡ false) ledger.now.book.entries i)
        (λ s. HoldsAt (λ x. (is_booked x ≡ true) × (s ≡ x.want.stream)) ledger.now.book.entries i) }
{
    let entry = ledger.entry_at(i)?;
    if entry.since.is_some() {
        Some(entry.want.stream)
    } else {
        None
    }
}

// Whether a participant has registered just these VIDs.
fn registers_just(part: &Participant<MvrpApp>, vids: &[Vid]) -> bool
    ensures { result ≡ are_same_vids vids.now (registered_vids part.now.state.rows) }
{
    let mut next = 0;
    for i in 0..part.rows() {
        match after_row(part, i, vids, next) {
            Some(place) => next = place,
            None => return false,
        }
    }
    next == vids.len()
}

// The place after one in these VIDs, once the row of an index has been compared.
fn after_row(part: &Participant<MvrpApp>, i: usize, vids: &[Vid], next: usize) -> Option<usize>
    requires index { i < length part.now.state.rows }
    requires place { next ≤ length vids.now }
    ensures within { IfSome result (λ n. n ≤ length vids.now) }
    ensures same { IfSome result (λ n. are_same_vids (drop next vids.now)
        (registered_vids (drop i part.now.state.rows))
        ≡ are_same_vids (drop n vids.now) (registered_vids (drop (i + 1) part.now.state.rows))) }
    ensures other { IfNone result (are_same_vids (drop next vids.now)
        (registered_vids (drop i part.now.state.rows)) ≡ false) }
{
    let Some(vid) = registered_row(part, i) else {
        return Some(next);
    };
    if next < vids.len() && vids[next] == vid {
        Some(next + 1)
    } else {
        None
    }
}

// The VID of the row of an index, where it is registered.
fn registered_row(part: &Participant<MvrpApp>, i: usize) -> Option<Vid>
    requires { i < length part.now.state.rows }
    ensures { MatchOption result (HoldsAt (λ r. is_registered_row r ≡ false) part.now.state.rows i)
        (λ v. HoldsAt (λ r. (is_registered_row r ≡ true) × (v ≡ r.key)) part.now.state.rows i) }
{
    let vid = part.key_at(i)?;
    if part.registrar_at(i)?.is_registered() {
        Some(vid)
    } else {
        None
    }
}

/// The change in a tick that says what a port has in force.
pub(crate) fn new_change(
    alloc: Global,
    tick: u64,
    at: EgressPort,
    part: &Participant<MvrpApp>,
    ledger: &Ledger,
) -> Result<PortChange, NoMemory>
    ensures { IfOk result (λ c. c
        ≡ change_of tick at (reservation_of part.now.state ledger.now.book)) }
{
    ledger.within_caps();
    let booked = streams_of(alloc, ledger)?;
    let vids = vids_of(alloc, part)?;
    Ok(PortChange {
        at,
        tick,
        booked,
        slope_a: ledger.slope(Class::A) as u64,
        slope_b: ledger.slope(Class::B) as u64,
        vids,
    })
}

// The streams that a ledger has booked, ascending.
fn streams_of(alloc: Global, ledger: &Ledger) -> Result<Seq<StreamId>, NoMemory>
    ensures { IfOk result (λ s. s ≡ booked_streams ledger.now.book.entries) }
{
    let bookings = ledger.bookings()?;
    Ok(Seq::from_vec(streams_in(alloc, bookings.as_slice())?))
}

// The streams of entries.
fn streams_in(alloc: Global, entries: &[Entry]) -> Result<Vec<StreamId>, NoMemory>
    ensures { IfOk result (λ v. v.items ≡ map (λ x. x.want.stream) entries.now) }
{
    Ok(entries.iter().map(|x| x.want.stream).collect(alloc)?)
}

// The VIDs that a participant has registered, ascending.
fn vids_of(alloc: Global, part: &Participant<MvrpApp>) -> Result<Seq<Vid>, NoMemory>
    ensures { IfOk result (λ v. v ≡ registered_vids part.now.state.rows) }
{
    let mut vids = Vec::new(alloc);
    for i in 0..part.rows() {
        if let Some(vid) = registered_row(part, i) {
            vids.push(vid)?;
        }
    }
    Ok(Seq::from_vec(vids))
}
