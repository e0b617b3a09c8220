//! From which place of the order of importance on a call decides anew. The entries before it, the
//! front, stay as they are, booked or not: none of them is touched, and what they take together is
//! known from the totals.

ghost use Rattle.std.specs.Prelude.{◌≡◌, ◌≤◌, ◌<◌, ◌+◌, ◌^◌, ◌&&◌, not, true, false, length, take, drop, Some, if◌then◌else◌};
ghost use Rattle.std.specs.List.{AllByRecursion};
ghost use Rattle.srp_base.specs.declared.bandwidth.Class.TheVariants.{A, B};
ghost use Rattle.port_ledger.specs.Book.{booked_slope};
ghost use Rattle.port_ledger.specs.Decision.{is_booked};
ghost use Rattle.port_ledger.specs.Totals.{totals_of};
ghost use Rattle.port_ledger.specs.Front.{AreLasting, ArePriorTo, is_of_level, is_prior, is_prior_to, IsSettled, later_standing, level_of, same_level, settled_front};

use crate::totals::{Totals, totals_of};
use srp_base::{Class, Cs, Rank};
use stream_importance::{Entry, importance_is_an_order, more_important};

/// What a ledger keeps beside its entries and their order.
#[derive(Clone, Copy)]
pub(crate) struct Standing {
    /// So many of the first entries of the order go before all behind them, now and later.
    pub settled: usize,
    /// What a walk over the entries would find.
    pub totals: Totals,
}

impl Standing {
    /// What is kept where there is no entry.
    pub(crate) fn empty() -> Standing
        ensures { result
            ≡ record { settled = 0; totals = record { class_a = 0; class_b = 0; new_count = 0 } } }
    {
        Standing {
            settled: 0,
            totals: Totals::empty(),
        }
    }

    /// The same where the moment alone has moved, or not.
    pub(crate) fn later(self, moved: bool) -> Standing
        ensures { result ≡ later_standing moved self }
    {
        Standing {
            totals: self.totals.later(moved),
            ..self
        }
    }
}

/// Where an order is cut: the entries before the place stay as they are, and come to these totals.
#[derive(Clone, Copy)]
pub(crate) struct Front {
    pub place: usize,
    pub totals: Totals,
}

/// Cuts an order where one entry goes and another comes, as far behind as it is settled that they
/// concern nobody before.
pub(crate) fn cut(
    now: Cs,
    standing: &Standing,
    order: &[Entry],
    goes: Option<Entry>,
    comes: Option<Entry>,
) -> Front
    requires settled { IsSettled now.0 standing.now.settled order.now }
    requires totals { standing.now.totals ≡ totals_of now.0 order.now }
    requires range { booked_slope order.now A + booked_slope order.now B < 2 ^ 64 }
    ensures settled { IsSettled now.0 result.place order.now }
    ensures totals { result.totals ≡ totals_of now.0 (take result.place order.now) }
    ensures goes { ArePriorTo now.0 goes (take result.place order.now) }
    ensures comes { ArePriorTo now.0 comes (take result.place order.now) }
{
    let place = prior_to_both(now, ahead(order, standing.settled), goes, comes);
    let rest = totals_of(behind(order, place), now);
    Front {
        place,
        totals: standing.totals.less(rest),
    }
}

/// How many of the entries, which stand in an order that lasts, are more important than two others
/// and stay so.
fn prior_to_both(now: Cs, ranked: &[Entry], goes: Option<Entry>, comes: Option<Entry>) -> usize
    requires { AreLasting now.0 ranked.now }
    ensures bound { result ≤ length ranked.now }
    ensures prior { AllByRecursion (λ y. (is_prior_to now.0 goes y && is_prior_to now.0 comes y) ≡ true)
        (take result ranked.now) }
    ensures rest { AllByRecursion (λ y. (is_prior_to now.0 goes y && is_prior_to now.0 comes y) ≡ false)
        (drop result ranked.now) }
{
    importance_is_an_order();
    ranked.partition_point(|y| is_prior_to(now, goes, y) && is_prior_to(now, comes, y))
}

fn is_prior_to(now: Cs, x: Option<Entry>, y: &Entry) -> bool
    ensures { result ≡ is_prior_to now.0 x y.now }
{
    match x {
        Some(x) => is_prior(now, &x, y),
        None => true,
    }
}

/// Whether y is more important than x, and stays so when x is booked anew.
fn is_prior(now: Cs, x: &Entry, y: &Entry) -> bool
    ensures { result ≡ is_prior now.0 x.now y.now }
{
    more_important(now, y, x) && (y.since.is_some() || !same_level(y, x))
}

fn same_level(x: &Entry, y: &Entry) -> bool
    ensures { result ≡ same_level x.now y.now }
{
    x.want.class == y.want.class && x.want.rank == y.want.rank
}

/// The entries before a place.
fn ahead(order: &[Entry], at: usize) -> &[Entry]
    requires { at ≤ length order.now }
    ensures { result.now ≡ take at order.now }
{
    &order[..at]
}

/// The entries from a place on.
pub(crate) fn behind(order: &[Entry], at: usize) -> &[Entry]
    requires { at ≤ length order.now }
    ensures { result.now ≡ drop at order.now }
{
    &order[at..]
}

/// A class with a rank.
#[derive(Clone, Copy)]
pub(crate) struct Level {
    pub class: Class,
    pub rank: Rank,
}

/// The number of entries before the first that isn't booked and has one behind it that is booked,
/// of its level: that one comes before it as soon as the moment moves.
pub(crate) fn settled_front(entries: &[Entry]) -> usize
    ensures value { result ≡ settled_front entries.now }
    ensures bound { result ≤ length entries.now }
{
    let mut settled = 0;
    let mut booked = None;
    let mut at = entries.len();
    while at > 0 {
        at -= 1;
        settled = settled_with(&entries[at], booked, settled);
        booked = first_level(&entries[at], booked);
    }
    settled
}

/// The number with an entry in front, where this is the level of the first booked entry behind it.
fn settled_with(x: &Entry, booked: Option<Level>, settled: usize) -> usize
    requires { settled + 1 < 2 ^ 64 }
    ensures { result
        ≡ (if not (is_booked x.now) && is_of_level x.now booked then 0 else settled + 1) }
{
    if x.since.is_none() && is_of_level(x, booked) {
        0
    } else {
        settled + 1
    }
}

fn is_of_level(x: &Entry, level: Option<Level>) -> bool
    ensures { result ≡ is_of_level x.now level }
{
    match level {
        Some(level) => x.want.class == level.class && x.want.rank == level.rank,
        None => false,
    }
}

fn first_level(x: &Entry, booked: Option<Level>) -> Option<Level>
    ensures { result ≡ (if is_booked x.now then Some (level_of x.now) else booked) }
{
    if x.since.is_some() {
        Some(Level {
            class: x.want.class,
            rank: x.want.rank,
        })
    } else {
        booked
    }
}
