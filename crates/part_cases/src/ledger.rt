//! Streams that come to a port and leave. More of them, by what is printed, are the files of
//! examples/.

ghost use Rattle.std.specs.Prelude.{◌≡◌, ◌+◌, ◌^◌, ◌≤◌, ◌<◌, IfSome, OnOk};

use port_ledger::{Changed, Ledger};
use srp_base::{Class, Cs, NoMemory, Percent, Rank, Rate, StreamId};
use std::alloc::Global;
use stream_importance::{Entry, Fit, Want};

/// A stream of 200 octets and one frame takes this much in class A.
const SMALL: u64 = 15_488_000;

fn new_ledger(alloc: Global, delta_a: u64, delta_b: u64) -> Option<Ledger>
    ensures { IfSome result (λ l. l.book.moment ≡ 0) }
{
    new_ledger_of(alloc, Rate::M100, delta_a, delta_b)
}

fn new_ledger_of(alloc: Global, rate: Rate, delta_a: u64, delta_b: u64) -> Option<Ledger>
    ensures { IfSome result (λ l. l.book.moment ≡ 0) }
{
    let a = Percent::new(delta_a)?;
    let b = Percent::new(delta_b)?;
    if a.get() + b.get() <= 90 {
        Some(Ledger::new(alloc, rate, a, b))
    } else {
        None
    }
}

fn want_of(stream: u64, class: Class, rank: Rank, slope: u64) -> Want {
    Want {
        stream: StreamId(stream),
        class,
        rank,
        slope,
    }
}

/// A want of a small stream of class A and rank 1.
fn small(stream: u64) -> Want {
    want_of(stream, Class::A, Rank::Normal, SMALL)
}

/// What a want changes, asked once more of the same ledger where memory ran out: `tools/memory`
/// refuses each growth in turn.
fn want_again(ledger: &mut Ledger, now: Cs, want: Want) -> Result<Changed, NoMemory>
    requires { ledger.old.book.moment ≤ now.0 }
    ensures { OnOk result (ledger.new.book.moment ≡ now.0) }
{
    match ledger.want(now, want) {
        Ok(changed) => Ok(changed),
        Err(_) => ledger.want(now, want),
    }
}

/// Whether a want is taken with these streams newly booked, and no others dropped.
fn takes(ledger: &mut Ledger, now: Cs, want: Want, booked: &[StreamId]) -> Result<bool, NoMemory>
    requires { ledger.old.book.moment ≤ now.0 }
    ensures { OnOk result (ledger.new.book.moment ≡ now.0) }
{
    let changed = want_again(ledger, now, want)?;
    let expected = changed.booked.as_slice() == booked && changed.dropped.is_empty();
    Ok(expected && ledger.wants(want.stream))
}

/// Whether the fifth of five small streams is refused at moment 0, and the fourth booked.
fn refuses_the_fifth(ledger: &Ledger) -> bool
    requires { ledger.now.book.moment ≡ 0 }
{
    let refused = Fit::TooLittle {
        more_important: 61_952_000,
        cap: 75_000_000,
        code: 1,
    };
    let fourth = ledger.booked(StreamId(4)) == Some(Cs(0));
    fourth && ledger.booked(StreamId(5)).is_none() && ledger.fits(Cs(0), &small(5)) == refused
}

/// Whether four of five small streams are taken, and no more.
fn takes_four_of_five(ledger: &mut Ledger) -> Result<bool, NoMemory>
    requires { ledger.old.book.moment ≡ 0 }
{
    for stream in 1..6u64 {
        let new = [StreamId(stream)];
        let booked: &[StreamId] = if stream < 5 { &new } else { &[] };
        if !takes(ledger, Cs(0), small(stream), booked)? {
            return Ok(false);
        }
    }
    let slopes = (ledger.slope(Class::A), ledger.slope(Class::B));
    Ok(refuses_the_fifth(ledger) && slopes == (61_952_000, 0))
}

/// Whether a new ledger, of 75 percent, takes four of the five.
fn fit_four_of_five(alloc: Global) -> bool {
    match new_ledger(alloc, 75, 0) {
        Some(mut ledger) => takes_four_of_five(&mut ledger) == Ok(true),
        None => false,
    }
}

#[test]
fn four_of_five_equal_streams_fit(rt: HostRuntime) {
    assert!(rt; fit_four_of_five(rt.alloc()));
}

fn is_booked(ledger: &Ledger, stream: u64, moment: u64) -> bool {
    ledger.booked(StreamId(stream)) == Some(Cs(moment))
}

/// Whether streams 2 to 5 are booked, the last one since the first left, and the first is not.
fn four_are_booked(ledger: &Ledger) -> bool {
    ledger.booked(StreamId(1)).is_none()
        && is_booked(ledger, 2, 1)
        && is_booked(ledger, 3, 2)
        && is_booked(ledger, 4, 3)
        && is_booked(ledger, 5, 5)
}

/// Whether the fifth of five small streams is booked once the first has left, which it does once,
/// and time shows something then and not again.
fn decides_anew(ledger: &mut Ledger) -> Result<bool, NoMemory>
    requires { ledger.old.book.moment ≡ 0 }
{
    for stream in 1..6u64 {
        ledger.want(Cs(stream - 1), small(stream))?;
    }
    let left = ledger.unwant(Cs(5), StreamId(1));
    let anew = four_are_booked(ledger);
    let again = ledger.unwant(Cs(5), StreamId(1));
    let shown = ledger.clock(Cs(6));
    Ok(left && anew && !again && shown && !ledger.clock(Cs(7)))
}

/// Whether a new ledger, of 75 percent, decides anew.
fn is_decided_anew(alloc: Global) -> bool {
    match new_ledger(alloc, 75, 0) {
        Some(mut ledger) => decides_anew(&mut ledger) == Ok(true),
        None => false,
    }
}

#[test]
fn what_a_stream_leaves_is_decided_anew(rt: HostRuntime) {
    assert!(rt; is_decided_anew(rt.alloc()));
}

/// The first of five equal streams, whose StreamIDs follow one another.
const FIRST: u64 = 0x0200_0000_0001_0001;

/// Whether the first stream enters in room that is made for it, and is booked.
fn enters_in_room(ledger: &mut Ledger) -> Result<bool, NoMemory>
    requires { ledger.old.book.moment ≡ 0 }
{
    ledger.room(1)?;
    let changed = ledger.enter(Cs(0), small(FIRST));
    Ok(changed && is_booked(ledger, FIRST, 0))
}

/// Whether it does so in a new ledger, of 75 percent.
fn is_entered(alloc: Global) -> bool {
    match new_ledger(alloc, 75, 0) {
        Some(mut ledger) => enters_in_room(&mut ledger) == Ok(true),
        None => false,
    }
}

#[test]
fn a_stream_enters_in_room_that_is_made(rt: HostRuntime) {
    assert!(rt; is_entered(rt.alloc()));
}

/// An emergency stream, 3, takes the place of another, 9.
fn evict(ledger: &mut Ledger) -> Result<(), NoMemory>
    requires { ledger.old.book.moment ≡ 0 }
{
    ledger.want(Cs(0), small(9))?;
    ledger.want(Cs(1), want_of(3, Class::A, Rank::Emergency, SMALL))?;
    Ok(())
}

/// Their entries.
fn low() -> Entry {
    Entry {
        want: want_of(3, Class::A, Rank::Emergency, SMALL),
        since: Some(Cs(1)),
    }
}

fn high() -> Entry {
    Entry {
        want: small(9),
        since: None,
    }
}

fn has_entries(ledger: &Ledger) -> bool {
    ledger.len() == 2
        && ledger.entry_at(0) == Some(low())
        && ledger.entry_at(1) == Some(high())
        && ledger.entry_at(2).is_none()
        && ledger.entry(StreamId(9)) == Some(high())
        && ledger.entry(StreamId(4)).is_none()
}

/// Whether the emergency stream alone is booked.
fn has_booking(ledger: &Ledger) -> bool {
    match ledger.bookings() {
        Ok(bookings) => bookings.as_slice() == [low()].as_slice(),
        Err(_) => false,
    }
}

/// Whether the emergency stream was booked and the other dropped.
fn are_changed(changed: &Changed) -> bool {
    changed.booked.as_slice() == [StreamId(3)].as_slice()
        && changed.dropped.as_slice() == [StreamId(9)].as_slice()
}

/// Whether that is what changed since the other alone was booked.
fn has_changed(ledger: &Ledger) -> bool {
    let before = Entry {
        want: small(9),
        since: Some(Cs(0)),
    };
    match ledger.changes_since([before].as_slice()) {
        Ok(changed) => are_changed(&changed),
        Err(_) => false,
    }
}

/// Whether both streams are moved since then: the emergency stream, which is booked, before the
/// other.
fn has_moved(alloc: Global, ledger: &Ledger) -> Result<bool, NoMemory> {
    let before = Entry {
        want: small(9),
        since: Some(Cs(0)),
    };
    let count = ledger.len().checked_add(1).ok_or(NoMemory)?;
    let mut moved = Vec::with_capacity(alloc, count)?;
    ledger.push_moved([before].as_slice(), &mut moved);
    Ok(moved.as_slice() == [StreamId(3), StreamId(9)].as_slice())
}

/// Whether the emergency stream takes the other's place, in the ledger and in what it tells.
fn evicts(alloc: Global, ledger: &mut Ledger) -> bool
    requires { ledger.old.book.moment ≡ 0 }
{
    evict(ledger).is_ok()
        && has_entries(ledger)
        && has_booking(ledger)
        && has_changed(ledger)
        && has_moved(alloc, ledger) == Ok(true)
}

/// Whether in a new ledger, of 20 percent, it takes the place.
fn is_evicted(alloc: Global) -> bool {
    match new_ledger(alloc, 20, 0) {
        Some(mut ledger) => evicts(alloc, &mut ledger),
        None => false,
    }
}

#[test]
fn entries_ascend_and_bookings_are_compared(rt: HostRuntime) {
    assert!(rt; is_evicted(rt.alloc()));
}

/// A want of class B and rank 1, of 400 octets and one frame.
fn large_of_class_b(stream: u64) -> Want {
    want_of(stream, Class::B, Rank::Normal, 14_144_000)
}

/// Whether three small streams are taken at moment 0, and one of class B at 1.
fn takes_both_classes(ledger: &mut Ledger) -> Result<bool, NoMemory>
    requires { ledger.old.book.moment ≡ 0 }
    ensures { OnOk result (ledger.new.book.moment ≤ 1) }
{
    for stream in 1..4u64 {
        if !takes(ledger, Cs(0), small(stream), &[StreamId(stream)])? {
            return Ok(false);
        }
    }
    takes(ledger, Cs(1), large_of_class_b(4), &[StreamId(4)])
}

/// Whether a fourth small stream is refused at moment 2.
fn refuses_the_fourth(ledger: &mut Ledger) -> Result<bool, NoMemory>
    requires { ledger.old.book.moment ≤ 2 }
    ensures { OnOk result (ledger.new.book.moment ≡ 2) }
{
    let refused = Fit::TooLittle {
        more_important: 46_464_000,
        cap: 50_000_000,
        code: 1,
    };
    let kept = takes(ledger, Cs(2), small(5), &[])?;
    Ok(kept && ledger.booked(StreamId(5)).is_none() && ledger.fits(Cs(2), &small(5)) == refused)
}

/// Whether the refused stream is booked once the first has left, and that of class B stays.
fn takes_the_first_one_out(ledger: &mut Ledger) -> bool
    requires { ledger.old.book.moment ≤ 3 }
{
    let slopes = (ledger.slope(Class::A), ledger.slope(Class::B));
    ledger.unwant(Cs(3), StreamId(1))
        && slopes == (46_464_000, 14_144_000)
        && is_booked(ledger, 5, 3)
        && is_booked(ledger, 4, 1)
}

fn fill_a_place(ledger: &mut Ledger) -> Result<bool, NoMemory>
    requires { ledger.old.book.moment ≡ 0 }
{
    Ok(
        takes_both_classes(ledger)?
            && refuses_the_fourth(ledger)?
            && takes_the_first_one_out(ledger),
    )
}

/// Whether in a new ledger, of 50 and 25 percent, a place that comes free is filled.
fn is_filled(alloc: Global) -> bool {
    match new_ledger(alloc, 50, 25) {
        Some(mut ledger) => fill_a_place(&mut ledger) == Ok(true),
        None => false,
    }
}

#[test]
fn a_place_that_comes_free_is_filled(rt: HostRuntime) {
    assert!(rt; is_filled(rt.alloc()));
}

/// Takes streams of slope 1, from the first up to the last, each at the moment before its number.
fn take_many(ledger: &mut Ledger, class: Class, first: u64, last: u64) -> Result<(), NoMemory>
    requires first { ledger.old.book.moment + 1 ≤ first }
    requires last { last < 2 ^ 63 }
{
    for stream in first..last + 1 {
        ledger.want(Cs(stream - 1), want_of(stream, class, Rank::Normal, 1))?;
    }
    Ok(())
}

/// How many streams come in turn. Where each call decided all of them, that would take days.
const MANY: u64 = 1_000_000;

fn takes_a_million(ledger: &mut Ledger) -> Result<bool, NoMemory>
    requires { ledger.old.book.moment ≡ 0 }
{
    take_many(ledger, Class::A, 1, MANY)?;
    let total = u128::from(MANY);
    Ok(
        is_booked(ledger, 1, 0)
            && is_booked(ledger, MANY, MANY - 1)
            && ledger.slope(Class::A) == total,
    )
}

/// Whether a new ledger of 10 Gb/s and 75 percent takes so many streams in turn.
fn are_a_million_taken(alloc: Global) -> bool {
    match new_ledger_of(alloc, Rate::G10, 75, 0) {
        Some(mut ledger) => takes_a_million(&mut ledger) == Ok(true),
        None => false,
    }
}

#[test]
fn a_million_streams_come_in_turn(rt: HostRuntime) {
    assert!(rt; are_a_million_taken(rt.alloc()));
}

/// The same behind a stream that doesn't fit: one that waits doesn't make the others be decided at
/// each call.
fn takes_a_million_behind_one(ledger: &mut Ledger) -> Result<bool, NoMemory>
    requires { ledger.old.book.moment ≡ 0 }
{
    let waiting = want_of(0, Class::A, Rank::Normal, 10_000_000_000);
    let waits = takes(ledger, Cs(0), waiting, &[])?;
    take_many(ledger, Class::B, 1, MANY)?;
    let total = u128::from(MANY);
    Ok(waits && is_booked(ledger, MANY, MANY - 1) && ledger.slope(Class::B) == total)
}

fn are_a_million_taken_behind_one(alloc: Global) -> bool {
    match new_ledger_of(alloc, Rate::G10, 25, 50) {
        Some(mut ledger) => takes_a_million_behind_one(&mut ledger) == Ok(true),
        None => false,
    }
}

#[test]
fn a_million_streams_come_in_turn_behind_one_that_waits(rt: HostRuntime) {
    assert!(rt; are_a_million_taken_behind_one(rt.alloc()));
}

/// Enters streams of slope 1 as a node does, each in room that is made for it: from the first up to
/// the last, each at the moment before its number.
fn enter_many(ledger: &mut Ledger, class: Class, first: u64, last: u64) -> Result<(), NoMemory>
    requires first { ledger.old.book.moment + 1 ≤ first }
    requires last { last < 2 ^ 63 }
{
    for stream in first..last + 1 {
        ledger.room(1)?;
        ledger.enter(Cs(stream - 1), want_of(stream, class, Rank::Normal, 1));
    }
    Ok(())
}

/// Whether a booked stream leaves, at the moment of the ledger.
fn leaves(ledger: &mut Ledger, stream: u64) -> bool {
    let now = ledger.moment();
    ledger.unwant(now, StreamId(stream))
}

/// Whether so many booked streams leave, from the last down: each time the one that came last.
fn many_leave(ledger: &mut Ledger, last: u64, count: u64) -> bool
    requires { count ≤ last }
{
    for gone in 0..count {
        if !leaves(ledger, last - gone) {
            return false;
        }
    }
    true
}

/// Whether so many streams enter in turn and leave again, where what stands before is decided at no
/// call.
fn lets_a_million_through(ledger: &mut Ledger, class: Class) -> Result<bool, NoMemory>
    requires { ledger.old.book.moment ≡ 0 }
{
    let before = ledger.len();
    enter_many(ledger, class, 1, MANY)?;
    let first_and_last = is_booked(ledger, 1, 0) && is_booked(ledger, MANY, MANY - 1);
    let all_booked = first_and_last && ledger.slope(class) == u128::from(MANY);
    let all_left = many_leave(ledger, MANY, MANY) && ledger.slope(class) == 0;
    Ok(all_booked && all_left && ledger.len() == before)
}

/// Whether a new ledger of 10 Gb/s and 75 percent lets so many streams through.
fn are_a_million_let_through(alloc: Global) -> bool {
    match new_ledger_of(alloc, Rate::G10, 75, 0) {
        Some(mut ledger) => lets_a_million_through(&mut ledger, Class::A) == Ok(true),
        None => false,
    }
}

#[test]
fn a_million_streams_enter_and_leave_in_turn(rt: HostRuntime) {
    assert!(rt; are_a_million_let_through(rt.alloc()));
}

/// The same behind a stream that doesn't fit, which neither those that enter nor those that leave
/// make be decided.
fn lets_a_million_through_behind_one(ledger: &mut Ledger) -> Result<bool, NoMemory>
    requires { ledger.old.book.moment ≡ 0 }
{
    let waiting = want_of(0, Class::A, Rank::Normal, 10_000_000_000);
    let waits = takes(ledger, Cs(0), waiting, &[])?;
    let through = lets_a_million_through(ledger, Class::B)?;
    Ok(waits && through && ledger.booked(StreamId(0)).is_none())
}

fn are_a_million_let_through_behind_one(alloc: Global) -> bool {
    match new_ledger_of(alloc, Rate::G10, 25, 50) {
        Some(mut ledger) => lets_a_million_through_behind_one(&mut ledger) == Ok(true),
        None => false,
    }
}

#[test]
fn a_million_streams_enter_and_leave_in_turn_behind_one_that_waits(rt: HostRuntime) {
    assert!(rt; are_a_million_let_through_behind_one(rt.alloc()));
}
