//! What of a port is taken, and whether a want fits beside it.

ghost use Rattle.std.specs.Prelude.{◌≡◌, ◌+◌, nat_le, filter};
ghost use Rattle.port_ledger.specs.Book.{code_of, fit_in, is_normal, since_if_same, tested_entry};
ghost use Rattle.port_ledger.specs.Pass.{normal_slope_before, slope_before};
ghost use Rattle.port_ledger.specs.Decision.{above, booked_of, comes_after, IsAscending};

use crate::entries::find_entry;
use srp_base::{Cs, Rank};
use stream_importance::{Caps, Entry, Fit, Want, more_important};

/// The entry as which a want is tested.
pub(crate) fn tested_entry(entries: &[Entry], want: &Want) -> Entry
    requires { IsAscending entries.now }
    ensures { result ≡ tested_entry entries.now want.now }
{
    let since = find_entry(entries, want.stream).and_then(|x| since_if_same(&x, want));
    Entry { want: *want, since }
}

fn since_if_same(entry: &Entry, want: &Want) -> Option<Cs>
    ensures { result ≡ since_if_same entry.now want.now }
{
    if entry.want == *want {
        entry.since
    } else {
        None
    }
}

/// Whether an entry fits beside the booked ones.
pub(crate) fn fit_of(now: Cs, caps: &Caps, entries: &[Entry], x: &Entry) -> Fit
    ensures { result ≡ fit_in now.0 caps.now (booked_of entries.now) x.now }
{
    let cap = caps.of(x.want.class);
    let more_important = above(now, x, entries);
    if leaves_room(more_important, x.want.slope, cap) {
        return Fit::Fits;
    }
    Fit::TooLittle {
        more_important,
        cap: u128::from(cap),
        code: code_of(now, caps, entries, x),
    }
}

fn code_of(now: Cs, caps: &Caps, entries: &[Entry], x: &Entry) -> u8
    ensures { result ≡ code_of now.0 caps.now (booked_of entries.now) x.now }
{
    let cap = caps.of(x.want.class);
    let of_rank_1 = above_of_rank_1(now, x, entries);
    if x.want.rank == Rank::Normal && leaves_room(of_rank_1, x.want.slope, cap) {
        6
    } else {
        1
    }
}

/// Whether the slope, beside what is taken, stays at or under the cap.
fn leaves_room(taken: u128, slope: u64, cap: u64) -> bool
    ensures { result ≡ nat_le (taken + slope) cap }
{
    taken <= u128::from(cap) && u128::from(slope) <= u128::from(cap) - taken
}

/// What the booked entries that precede x take together, in bit/s.
fn above(now: Cs, x: &Entry, entries: &[Entry]) -> u128
    ensures { result ≡ above now.0 x.now (booked_of entries.now) }
{
    entries
        .iter()
        .map(|y| u128::from(slope_before(now, x, y)))
        .sum()
}

/// What those of them take that are of rank 1, in bit/s.
fn above_of_rank_1(now: Cs, x: &Entry, entries: &[Entry]) -> u128
    ensures { result ≡ above now.0 x.now (filter is_normal (booked_of entries.now)) }
{
    entries
        .iter()
        .map(|y| u128::from(normal_slope_before(now, x, y)))
        .sum()
}

/// The slope of y in bit/s, where it is booked and precedes x, else 0.
fn slope_before(now: Cs, x: &Entry, y: &Entry) -> u64
    ensures { result ≡ slope_before now.0 x.now y.now }
{
    if y.since.is_some() && comes_after(now, x, y) {
        y.want.slope
    } else {
        0
    }
}

/// The slope of y in bit/s, where it is booked, of rank 1 and precedes x, else 0.
fn normal_slope_before(now: Cs, x: &Entry, y: &Entry) -> u64
    ensures { result ≡ normal_slope_before now.0 x.now y.now }
{
    if y.want.rank == Rank::Normal {
        slope_before(now, x, y)
    } else {
        0
    }
}

pub(crate) fn comes_after(now: Cs, x: &Entry, y: &Entry) -> bool
    ensures { result ≡ comes_after now.0 x.now y.now }
{
    y.want.stream != x.want.stream && more_important(now, y, x)
}
