//! Which entries are booked at a moment: one pass with a running sum over the entries in the order
//! of importance, from the first place that a call changes, and the moments set accordingly.

ghost use Rattle.std.specs.Prelude.{◌≡◌, ◌≢◌, ◌↔◌, ◌+◌, ◌-◌, ◌≤◌, ◌<◌, ◌^◌, ◌++◌, ◌||◌, None, IsSome, IsTrue, true, false, length, take, drop, vec_capacity, vec_len, IfOk, OnErr, OnOk};
ghost use Rattle.std.specs.List.{AllByRecursion};
ghost use Rattle.srp_base.specs.declared.bandwidth.Class.TheVariants.{A, B};
ghost use Rattle.port_ledger.specs.Book.{booked_only_in, booked_slope, entry_of, same_since, with_want, without};
ghost use Rattle.port_ledger.specs.Decision.{AreOfDifferentStreams, booked_of, decided_entries, IsAscending, since_after, stream_of};
ghost use Rattle.port_ledger.specs.Front.{settled_front, decided_behind, AreBehind, IsFront, IsOrdered, IsOrderedBook};
ghost use Rattle.port_ledger.specs.Notes.{booking_of, gains, has_booking, has_loss, has_move, loses, noted, streams_passed};
ghost use Rattle.port_ledger.specs.Pass.{exchanged, has_room, has_want, importance_order, IsOnlyIn, entries_passed, with_pass, sum_with, with_since};
ghost use Rattle.port_ledger.specs.Totals.{both_of, together, totals_of};
ghost use Rattle.stream_importance.specs.Bandwidth.{cap_of};

use crate::changed::Changed;
use crate::entries::{find_entry, place_of, put, take_out};
use crate::front::{Front, Standing, behind, cut, settled_front};
use crate::notes::Notes;
use crate::order::{exchange, leave, rank};
use crate::totals::{Totals, totals_of};
use srp_base::{Cs, NoMemory, StreamId};
use std::alloc::Global;
use stream_importance::{Caps, Entry, Want, importance_is_an_order};

/// Takes in a want that isn't kept yet, decided at a moment. The memory is taken first.
pub(crate) fn wanted(
    alloc: Global,
    now: Cs,
    caps: &Caps,
    standing: &Standing,
    entries: &mut Vec<Entry>,
    order: &mut Vec<Entry>,
    want: Want,
) -> Result<(Standing, Changed), NoMemory>
    requires book { IsOrderedBook now.0 caps.now standing.now
        entries.old.items order.old.items }
    requires other { has_want entries.old.items want ≡ false }
    ensures decided { OnOk result (entries.new.items
        ≡ decided_entries now.0 caps.now (with_want entries.old.items want)) }
    ensures ordered { IfOk result (λ r. IsOrdered now.0 r.0
        entries.new.items order.new.items) }
    ensures booked { IfOk result (λ r. r.1.booked
        ≡ booked_only_in entries.new.items entries.old.items) }
    ensures dropped { IfOk result (λ r. r.1.dropped
        ≡ booked_only_in entries.old.items entries.new.items) }
    ensures entries_stay { OnErr result (entries.new.items ≡ entries.old.items) }
    ensures order_stays { OnErr result (order.new.items ≡ order.old.items) }
{
    importance_is_an_order();
    let goes = find_entry(entries, want.stream);
    let front = cut_for(now, caps, standing, entries, order, goes, want);
    let mut notes = Notes::with_room(alloc, order.len() - front.place + 2)?;
    entries.reserve(1)?;
    order.reserve(1)?;
    let next = entered(now, caps, &front, entries, order, goes, want, &mut notes);
    Ok((next, notes.changed()))
}

/// Takes in a want that isn't kept yet as `wanted` does, in room that is at hand, which a stream
/// with an entry doesn't need. It takes no memory, and answers whether the booked set changed.
pub(crate) fn wanted_in_room(
    now: Cs,
    caps: &Caps,
    standing: &Standing,
    entries: &mut Vec<Entry>,
    order: &mut Vec<Entry>,
    want: Want,
) -> (Standing, bool)
    requires book { IsOrderedBook now.0 caps.now standing.now
        entries.old.items order.old.items }
    requires other { has_want entries.old.items want ≡ false }
    requires entries_room { entry_of entries.old.items want.stream ≡ None
        → vec_len entries.old < vec_capacity entries.old }
    requires order_room { entry_of entries.old.items want.stream ≡ None
        → vec_len order.old < vec_capacity order.old }
    ensures decided { entries.new.items
        ≡ decided_entries now.0 caps.now (with_want entries.old.items want) }
    ensures ordered { IsOrdered now.0 result.0 entries.new.items order.new.items }
    ensures changed { IsTrue result.1
        ↔ (booked_of entries.new.items ≢ booked_of entries.old.items) }
    ensures entries_capacity { vec_capacity entries.new ≡ vec_capacity entries.old }
    ensures order_capacity { vec_capacity order.new ≡ vec_capacity order.old }
    ensures entries_used { vec_len entries.new ≤ vec_len entries.old + 1 }
    ensures order_used { vec_len order.new ≤ vec_len order.old + 1 }
    ensures entries_stay { IsSome (entry_of entries.old.items want.stream)
        → vec_len entries.new ≤ vec_len entries.old }
    ensures order_stays { IsSome (entry_of entries.old.items want.stream)
        → vec_len order.new ≤ vec_len order.old }
{
    importance_is_an_order();
    let goes = find_entry(entries, want.stream);
    let front = cut_for(now, caps, standing, entries, order, goes, want);
    let mut notes = Notes::without_room(*order.allocator());
    let next = entered(now, caps, &front, entries, order, goes, want, &mut notes);
    (next, notes.any)
}

/// Cuts the order before all that a want concerns, which isn't kept yet.
fn cut_for(
    now: Cs,
    caps: &Caps,
    standing: &Standing,
    entries: &[Entry],
    order: &[Entry],
    goes: Option<Entry>,
    want: Want,
) -> Front
    requires book { IsOrderedBook now.0 caps.now standing.now entries.now order.now }
    requires goes { goes ≡ entry_of entries.now want.stream }
    requires other { has_want entries.now want ≡ false }
    ensures place { result.place ≤ length order.now }
    ensures behind { AreBehind (take result.place order.now) (drop result.place order.now)
        entries.now }
    ensures apart { AllByRecursion (λ y. stream_of y ≢ want.stream.0)
        (take result.place order.now) }
    ensures front { IsFront now.0 caps.now result.place result.totals
        (with_want entries.now want)
        (take result.place order.now ++ exchanged (drop result.place order.now) want) }
{
    importance_is_an_order();
    cut(
        now,
        standing,
        order,
        goes,
        Some(Entry { want, since: None }),
    )
}

/// Puts a want in behind a front, where room is at hand or its stream has an entry, and decides.
/// The notes have what changes in the booked set.
fn entered(
    now: Cs,
    caps: &Caps,
    front: &Front,
    entries: &mut Vec<Entry>,
    order: &mut Vec<Entry>,
    goes: Option<Entry>,
    want: Want,
    notes: &mut Notes,
) -> Standing
    requires place { front.now.place ≤ length order.old.items }
    requires behind { AreBehind (take front.now.place order.old.items)
        (drop front.now.place order.old.items) entries.old.items }
    requires front { IsFront now.0 caps.now front.now.place front.now.totals
        (with_want entries.old.items want)
        (take front.now.place order.old.items
        ++ exchanged (drop front.now.place order.old.items) want) }
    requires entries_room { entry_of entries.old.items want.stream ≡ None
        → vec_len entries.old < vec_capacity entries.old }
    requires order_room { entry_of (drop front.now.place order.old.items) want.stream ≡ None
        → vec_len order.old < vec_capacity order.old }
    ensures decided { entries.new.items
        ≡ decided_entries now.0 caps.now (with_want entries.old.items want) }
    ensures ordered { IsOrdered now.0 result entries.new.items order.new.items }
    ensures any { notes.new.any ≡ ((notes.old.any || has_booking goes)
        || has_move caps.now (both_of front.now.totals)
        (importance_order now.0 (exchanged (drop front.now.place order.old.items) want))) }
    ensures entries_capacity { vec_capacity entries.new ≡ vec_capacity entries.old }
    ensures order_capacity { vec_capacity order.new ≡ vec_capacity order.old }
    ensures entries_used { vec_len entries.new ≤ vec_len entries.old + 1 }
    ensures order_used { vec_len order.new ≤ vec_len order.old + 1 }
    ensures entries_stay { IsSome (entry_of entries.old.items want.stream)
        → vec_len entries.new ≤ vec_len entries.old }
    ensures order_stays { IsSome (entry_of (drop front.now.place order.old.items) want.stream)
        → vec_len order.new ≤ vec_len order.old }
    ensures booked { notes.new.booked.items
        ≡ noted (vec_capacity notes.old.booked) notes.old.booked.items
        (streams_passed gains caps.now (both_of front.now.totals)
        (importance_order now.0 (exchanged (drop front.now.place order.old.items) want))) }
    ensures dropped { notes.new.dropped.items
        ≡ noted (vec_capacity notes.old.dropped) notes.old.dropped.items
        (booking_of goes ++ streams_passed loses caps.now (both_of front.now.totals)
        (importance_order now.0 (exchanged (drop front.now.place order.old.items) want))) }
{
    put(entries, want);
    exchange(order, front.place, want);
    notes.go(goes);
    decide(now, caps, front, order, entries, notes)
}

/// Takes the entry of a stream out, decided at a moment. It takes no memory.
pub(crate) fn unwanted(
    now: Cs,
    caps: &Caps,
    standing: &Standing,
    entries: &mut Vec<Entry>,
    order: &mut Vec<Entry>,
    stream: StreamId,
) -> Standing
    requires { IsOrderedBook now.0 caps.now standing.now entries.old.items order.old.items }
    ensures decided { entries.new.items
        ≡ decided_entries now.0 caps.now (without entries.old.items stream) }
    ensures ordered { IsOrdered now.0 result entries.new.items order.new.items }
    ensures entries_room { vec_capacity entries.old - vec_len entries.old
        ≤ vec_capacity entries.new - vec_len entries.new }
    ensures order_room { vec_capacity order.old - vec_len order.old
        ≤ vec_capacity order.new - vec_len order.new }
{
    importance_is_an_order();
    let goes = find_entry(entries, stream);
    let front = cut(now, standing, order, goes, None);
    take_out(entries, stream);
    leave(order, front.place, stream);
    let mut notes = Notes::without_room(*order.allocator());
    decide(now, caps, &front, order, entries, &mut notes)
}

/// Decides the entries at a moment, from a place of their order on: those that are booked keep
/// their moment or get this one, the others have none. The order is left in the order of importance
/// that this leads to.
fn decide(
    now: Cs,
    caps: &Caps,
    front: &Front,
    order: &mut Vec<Entry>,
    entries: &mut Vec<Entry>,
    notes: &mut Notes,
) -> Standing
    requires { IsFront now.0 caps.now front.now.place front.now.totals
        entries.old.items order.old.items }
    ensures decided { entries.new.items ≡ decided_entries now.0 caps.now entries.old.items }
    ensures ordered { IsOrdered now.0 result entries.new.items order.new.items }
    ensures entries_capacity { vec_capacity entries.new ≡ vec_capacity entries.old }
    ensures order_capacity { vec_capacity order.new ≡ vec_capacity order.old }
    ensures entries_len { vec_len entries.new ≡ vec_len entries.old }
    ensures order_len { vec_len order.new ≡ vec_len order.old }
    ensures any { notes.new.any ≡ (notes.old.any
        || has_move caps.now (both_of front.now.totals)
        (importance_order now.0 (drop front.now.place order.old.items))) }
    ensures booked { notes.new.booked.items
        ≡ noted (vec_capacity notes.old.booked) notes.old.booked.items
        (streams_passed gains caps.now (both_of front.now.totals)
        (importance_order now.0 (drop front.now.place order.old.items))) }
    ensures dropped { notes.new.dropped.items
        ≡ noted (vec_capacity notes.old.dropped) notes.old.dropped.items
        (streams_passed loses caps.now (both_of front.now.totals)
        (importance_order now.0 (drop front.now.place order.old.items))) }
{
    decide_from(
        now,
        caps,
        front,
        order.as_mut_slice(),
        entries.as_mut_slice(),
        notes,
    )
}

fn decide_from(
    now: Cs,
    caps: &Caps,
    front: &Front,
    order: &mut [Entry],
    entries: &mut [Entry],
    notes: &mut Notes,
) -> Standing
    requires { IsFront now.0 caps.now front.now.place front.now.totals
        entries.old order.old }
    ensures decided { entries.new ≡ decided_entries now.0 caps.now entries.old }
    ensures ordered { IsOrdered now.0 result entries.new order.new }
    ensures any { notes.new.any ≡ (notes.old.any
        || has_move caps.now (both_of front.now.totals)
        (importance_order now.0 (drop front.now.place order.old))) }
    ensures booked { notes.new.booked.items
        ≡ noted (vec_capacity notes.old.booked) notes.old.booked.items
        (streams_passed gains caps.now (both_of front.now.totals)
        (importance_order now.0 (drop front.now.place order.old))) }
    ensures dropped { notes.new.dropped.items
        ≡ noted (vec_capacity notes.old.dropped) notes.old.dropped.items
        (streams_passed loses caps.now (both_of front.now.totals)
        (importance_order now.0 (drop front.now.place order.old))) }
{
    importance_is_an_order();
    decide_part(
        now,
        caps,
        front.totals.taken(),
        front.place,
        order,
        entries,
        notes,
    );
    standing_of(now, front.place, &front.totals, order)
}

/// What is kept beside entries that are in order behind a front.
fn standing_of(now: Cs, at: usize, front: &Totals, order: &[Entry]) -> Standing
    requires place { at ≤ length order.now }
    requires range { booked_slope order.now A + booked_slope order.now B < 2 ^ 64 }
    requires front { front.now ≡ totals_of now.0 (take at order.now) }
    ensures settled { result.settled ≡ at + settled_front (drop at order.now) }
    ensures totals { result.totals ≡ together front.now (totals_of now.0 (drop at order.now)) }
{
    let rest = behind(order, at);
    Standing {
        settled: at + settled_front(rest),
        totals: front.plus(totals_of(rest, now)),
    }
}

/// The same of a part of the order.
fn decide_part(
    now: Cs,
    caps: &Caps,
    taken: u64,
    at: usize,
    order: &mut [Entry],
    entries: &mut [Entry],
    notes: &mut Notes,
)
    requires place { at ≤ length order.old }
    requires ascending { IsAscending entries.old }
    requires different { AreOfDifferentStreams (drop at order.old) }
    requires same { AllByRecursion (IsOnlyIn entries.old) (drop at order.old) }
    ensures order { order.new
        ≡ take at order.old ++ decided_behind now.0 caps.now taken (drop at order.old) }
    ensures entries { entries.new
        ≡ with_pass now.0 caps.now taken (importance_order now.0 (drop at order.old)) entries.old }
    ensures booked { notes.new.booked.items
        ≡ noted (vec_capacity notes.old.booked) notes.old.booked.items
        (streams_passed gains caps.now taken (importance_order now.0 (drop at order.old))) }
    ensures dropped { notes.new.dropped.items
        ≡ noted (vec_capacity notes.old.dropped) notes.old.dropped.items
        (streams_passed loses caps.now taken (importance_order now.0 (drop at order.old))) }
    ensures any { notes.new.any ≡ (notes.old.any
        || has_move caps.now taken (importance_order now.0 (drop at order.old))) }
{
    decide_behind(now, caps, taken, &mut order[at..], entries, notes);
}

/// Decides the entries behind a front that takes so much, in bit/s, and ranks them again.
fn decide_behind(
    now: Cs,
    caps: &Caps,
    taken: u64,
    behind: &mut [Entry],
    entries: &mut [Entry],
    notes: &mut Notes,
)
    requires ascending { IsAscending entries.old }
    requires different { AreOfDifferentStreams behind.old }
    requires same { AllByRecursion (IsOnlyIn entries.old) behind.old }
    ensures behind { behind.new ≡ decided_behind now.0 caps.now taken behind.old }
    ensures entries { entries.new
        ≡ with_pass now.0 caps.now taken (importance_order now.0 behind.old) entries.old }
    ensures booked { notes.new.booked.items
        ≡ noted (vec_capacity notes.old.booked) notes.old.booked.items
        (streams_passed gains caps.now taken (importance_order now.0 behind.old)) }
    ensures dropped { notes.new.dropped.items
        ≡ noted (vec_capacity notes.old.dropped) notes.old.dropped.items
        (streams_passed loses caps.now taken (importance_order now.0 behind.old)) }
    ensures any { notes.new.any ≡ (notes.old.any
        || has_move caps.now taken (importance_order now.0 behind.old)) }
{
    importance_is_an_order();
    rank(now, behind);
    let lost = pass(now, caps, taken, behind, entries, notes);
    rank_where(now, lost, behind);
}

/// Puts the entries into the order of importance again where a booking was lost. Else none has
/// moved: what is booked anew has the moment that it counted with before.
fn rank_where(now: Cs, lost: bool, entries: &mut [Entry])
    requires { lost ≡ false → entries.old ≡ importance_order now.0 entries.old }
    ensures { entries.new ≡ importance_order now.0 entries.old }
{
    if lost {
        rank(now, entries);
    }
}

/// Lets in what there is room for beside what is taken, in bit/s, in the order given, and sets the
/// moments. The answer is whether a booking is lost.
fn pass(
    now: Cs,
    caps: &Caps,
    taken: u64,
    order: &mut [Entry],
    entries: &mut [Entry],
    notes: &mut Notes,
) -> bool
    requires ascending { IsAscending entries.old }
    requires different { AreOfDifferentStreams order.old }
    requires same { AllByRecursion (IsOnlyIn entries.old) order.old }
    ensures order { order.new ≡ entries_passed now.0 caps.now taken order.old }
    ensures entries { entries.new ≡ with_pass now.0 caps.now taken order.old entries.old }
    ensures booked { notes.new.booked.items
        ≡ noted (vec_capacity notes.old.booked) notes.old.booked.items
        (streams_passed gains caps.now taken order.old) }
    ensures dropped { notes.new.dropped.items
        ≡ noted (vec_capacity notes.old.dropped) notes.old.dropped.items
        (streams_passed loses caps.now taken order.old) }
    ensures lost { result ≡ has_loss caps.now taken order.old }
    ensures any { notes.new.any ≡ (notes.old.any || has_move caps.now taken order.old) }
{
    let mut sum: u64 = taken;
    let mut lost = false;
    for x in order.iter_mut() {
        let let_in = has_room(caps, sum, x);
        if !let_in && x.since.is_none() {
            continue;
        }
        let since = since_after(now, x.since, let_in);
        lost = or_loses(lost, x, let_in);
        notes.pass(x, let_in);
        set_since(entries, x, since);
        x.since = since;
        sum = sum_with(caps, sum, x, let_in);
    }
    lost
}

/// Whether a booking was lost before, or this entry loses its own as it is let in or not.
fn or_loses(lost: bool, x: &Entry, let_in: bool) -> bool
    ensures { result ≡ (lost || loses x.now let_in) }
{
    lost || (!let_in && x.since.is_some())
}

/// Whether an entry's slope, beside what is taken, stays at or under its cap.
fn has_room(caps: &Caps, sum: u64, x: &Entry) -> bool
    ensures { result ≡ has_room caps.now sum x.now }
{
    let cap = caps.of(x.want.class);
    sum <= cap && x.want.slope <= cap - sum
}

fn sum_with(caps: &Caps, sum: u64, x: &Entry, let_in: bool) -> u64
    requires { let_in ≡ true → sum + x.now.want.slope ≤ cap_of caps.now x.now.want.class }
    ensures { result ≡ sum_with sum x.now let_in }
{
    let _cap = caps.of(x.want.class);
    if let_in { sum + x.want.slope } else { sum }
}

fn since_after(now: Cs, since: Option<Cs>, booked: bool) -> Option<Cs>
    ensures { result ≡ since_after now.0 since booked }
{
    if booked {
        Some(since.unwrap_or(now))
    } else {
        None
    }
}

/// Sets the moment of the entry among these, where it differs.
fn set_since(entries: &mut [Entry], x: &Entry, since: Option<Cs>)
    requires ascending { IsAscending entries.old }
    requires only { IsOnlyIn entries.old x.now }
    ensures { entries.new ≡ with_since entries.old x.now since }
{
    if same_since(x.since, since) {
        return;
    }
    if let Ok(place) = place_of(entries, x.want.stream) {
        entries[place].since = since;
    }
}

fn same_since(one: Option<Cs>, other: Option<Cs>) -> bool
    ensures { result ≡ same_since one other }
{
    one == other
}
