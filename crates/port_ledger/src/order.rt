//! The wanting streams in the order of importance, as they are kept between two decisions.

ghost use Rattle.std.specs.Prelude.{◌≡◌, ◌≤◌, ◌<◌, ◌+◌, ◌++◌, IsSome, None, ◌==◌, position, length, take, drop, vec_capacity, vec_len};
ghost use Rattle.port_ledger.specs.Book.{entry_of, without};
ghost use Rattle.port_ledger.specs.Decision.{AreOfDifferentStreams, stream_of};
ghost use Rattle.port_ledger.specs.Pass.{exchanged, place_first, importance_order};

use crate::fit::comes_after;
use crate::front::behind;
use srp_base::{Cs, StreamId};
use stream_importance::{Entry, Want};

/// The want comes behind a front in place of what its stream wanted. It goes last, where room is at
/// hand or its stream has an entry behind the front.
pub(crate) fn exchange(order: &mut Vec<Entry>, at: usize, want: Want)
    requires place { at ≤ length order.old.items }
    requires different { AreOfDifferentStreams (drop at order.old.items) }
    requires room { entry_of (drop at order.old.items) want.stream ≡ None
        → vec_len order.old < vec_capacity order.old }
    ensures items { order.new.items
        ≡ take at order.old.items ++ exchanged (drop at order.old.items) want }
    ensures capacity { vec_capacity order.new ≡ vec_capacity order.old }
    ensures len { vec_len order.new ≤ vec_len order.old + 1 }
    ensures stays { IsSome (entry_of (drop at order.old.items) want.stream)
        → vec_len order.new ≤ vec_len order.old }
{
    leave(order, at, want.stream);
    order.push_reserved(Entry { want, since: None });
}

/// The stream's entry leaves what is behind a front.
pub(crate) fn leave(order: &mut Vec<Entry>, at: usize, stream: StreamId)
    requires place { at ≤ length order.old.items }
    requires different { AreOfDifferentStreams (drop at order.old.items) }
    ensures items { order.new.items
        ≡ take at order.old.items ++ without (drop at order.old.items) stream }
    ensures len { vec_len order.new ≤ vec_len order.old }
    ensures gone { IsSome (entry_of (drop at order.old.items) stream)
        → vec_len order.new + 1 ≡ vec_len order.old }
    ensures room { vec_capacity order.new ≡ vec_capacity order.old }
{
    if let Some(place) = position_of(behind(order, at), stream) {
        order.remove(at + place);
    }
}

/// The place of the stream's entry among entries in any order.
fn position_of(entries: &[Entry], stream: StreamId) -> Option<usize>
    ensures { result ≡ position (λ x. stream_of x == stream.0) entries.now }
{
    entries.iter().position(|x| x.want.stream == stream)
}

/// Puts the entries into the order of importance at a moment. It takes one look at each where they
/// are in it already, as they mostly are.
pub(crate) fn rank(now: Cs, entries: &mut [Entry])
    ensures { entries.new ≡ importance_order now.0 entries.old }
{
    let mut rest = entries.len();
    while rest > 0 {
        rest -= 1;
        place_first(now, &mut entries[rest..]);
    }
}

/// Moves the first entry behind those that precede it.
fn place_first(now: Cs, entries: &mut [Entry])
    ensures { entries.new ≡ place_first now.0 entries.old }
{
    for at in 1..entries.len() {
        if comes_after(now, &entries[at], &entries[at - 1]) {
            return;
        }
        entries.swap(at - 1, at);
    }
}
