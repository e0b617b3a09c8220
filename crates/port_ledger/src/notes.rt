//! What a decision changes in the booked set, noted as it goes along.

ghost use Rattle.std.specs.Prelude.{◌≡◌, ◌||◌, false, ◌++◌, ◌∷◌, [], List, vec_capacity, IfOk, IsPermutation};
ghost use Rattle.srp_base.specs.declared.numbers.StreamId.{StreamId};
ghost use Rattle.port_ledger.specs.Notes.{booking_of, gains, has_booking, loses, moves, noted, stream_where, AreRising};

use crate::changed::Changed;
use srp_base::{NoMemory, Seq, StreamId};
use std::alloc::Global;
use stream_importance::Entry;

/// The streams whose booking is new and those whose booking is gone, in the order in which a
/// decision came to them, as far as there is room for them; and whether there was any, with room
/// for it or not.
#[derive(Drop)]
pub(crate) struct Notes {
    pub booked: Vec<StreamId>,
    pub dropped: Vec<StreamId>,
    pub any: bool,
}

impl Notes {
    /// Nothing noted yet, and room for so many streams of either kind.
    pub(crate) fn with_room(alloc: Global, count: usize) -> Result<Notes, NoMemory>
        ensures booked { IfOk result (λ n. n.booked.items ≡ []) }
        ensures dropped { IfOk result (λ n. n.dropped.items ≡ []) }
        ensures booked_room { IfOk result (λ n. vec_capacity n.booked ≡ count) }
        ensures dropped_room { IfOk result (λ n. vec_capacity n.dropped ≡ count) }
    {
        Ok(Notes {
            booked: Vec::with_capacity(alloc, count)?,
            dropped: Vec::with_capacity(alloc, count)?,
            any: false,
        })
    }

    /// Nothing noted, and no room for any stream.
    pub(crate) fn without_room(alloc: Global) -> Notes
        ensures { result.any ≡ false }
    {
        Notes {
            booked: Vec::new(alloc),
            dropped: Vec::new(alloc),
            any: false,
        }
    }

    /// Notes an entry that is let in or not.
    pub(crate) fn pass(&mut self, x: &Entry, let_in: bool)
        ensures booked { self.new.booked.items
            ≡ noted (vec_capacity self.old.booked) self.old.booked.items
            (stream_where (gains x.now let_in) x.now) }
        ensures dropped { self.new.dropped.items
            ≡ noted (vec_capacity self.old.dropped) self.old.dropped.items
            (stream_where (loses x.now let_in) x.now) }
        ensures booked_room { vec_capacity self.new.booked ≡ vec_capacity self.old.booked }
        ensures dropped_room { vec_capacity self.new.dropped ≡ vec_capacity self.old.dropped }
        ensures any { self.new.any ≡ (self.old.any || moves x.now let_in) }
    {
        if let_in == x.since.is_some() {
            return;
        }
        self.any = true;
        if let_in {
            note(&mut self.booked, x.want.stream);
        } else {
            note(&mut self.dropped, x.want.stream);
        }
    }

    /// Notes the booking that an entry takes with it.
    pub(crate) fn go(&mut self, goes: Option<Entry>)
        ensures booked { self.new.booked.items ≡ self.old.booked.items }
        ensures booked_room { vec_capacity self.new.booked ≡ vec_capacity self.old.booked }
        ensures dropped { self.new.dropped.items
            ≡ noted (vec_capacity self.old.dropped) self.old.dropped.items (booking_of goes) }
        ensures dropped_room { vec_capacity self.new.dropped ≡ vec_capacity self.old.dropped }
        ensures any { self.new.any ≡ (self.old.any || has_booking goes) }
    {
        if let Some(x) = goes
            && x.since.is_some()
        {
            self.any = true;
            note(&mut self.dropped, x.want.stream);
        }
    }

    /// The same in ascending order.
    pub(crate) fn changed(self) -> Changed
        ensures booked { (xs : List StreamId) → AreRising xs → IsPermutation self.booked.items xs
            → result.booked ≡ xs }
        ensures dropped { (xs : List StreamId) → AreRising xs → IsPermutation self.dropped.items xs
            → result.dropped ≡ xs }
    {
        Changed {
            booked: ascending(self.booked),
            dropped: ascending(self.dropped),
        }
    }
}

/// Notes a stream, where there is room for it.
fn note(streams: &mut Vec<StreamId>, stream: StreamId)
    ensures items { streams.new.items
        ≡ noted (vec_capacity streams.old) streams.old.items (stream ∷ []) }
    ensures room { vec_capacity streams.new ≡ vec_capacity streams.old }
{
    if streams.len() < streams.capacity() {
        streams.push_reserved(stream);
    }
}

fn ascending(streams: Vec<StreamId>) -> Seq<StreamId>
    ensures { (xs : List StreamId) → AreRising xs → IsPermutation streams.items xs → result ≡ xs }
{
    let mut streams = streams;
    sort(&mut streams);
    Seq::from_vec(streams)
}

fn sort(streams: &mut [StreamId])
    ensures { (xs : List StreamId) → AreRising xs → IsPermutation streams.old xs
        → streams.new ≡ xs }
{
    streams.sort_unstable_by_key(|x| x.0);
}
