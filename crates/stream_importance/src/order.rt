//! Which of two entries is more important.

ghost use Rattle.std.specs.Prelude.{◌≡◌};
ghost use Rattle.std.specs.Ordering.{is_lt, nat_cmp, ordering_then};
ghost use Rattle.stream_importance.specs.Importance.{class_number, compare_importance, is_more_important, moment_or, rank_number};

use crate::entry::Entry;
use srp_base::{Class, Cs, Rank};
use std::cmp::Ordering;

/// Whether `x` is more important than `y` at the moment `now`, in cs: by the first that differs,
/// class A before B, rank 0 before 1 (IEEE Std 802.1Q-2018, 35.2.2.8.5), the earlier moment of
/// booking, where none counts as `now`, and the lower StreamID. Class and age are this project's
/// own rule.
pub fn more_important(now: Cs, x: &Entry, y: &Entry) -> bool
    ensures { result ≡ is_more_important now.0 x.now y.now }
{
    if x.want.class != y.want.class {
        return x.want.class < y.want.class;
    }
    if x.want.rank != y.want.rank {
        return x.want.rank < y.want.rank;
    }
    is_older(now, x, y)
}

/// Whether `x` was booked before `y`, or at one moment and has the lower StreamID.
fn is_older(now: Cs, x: &Entry, y: &Entry) -> bool
    ensures { result
        ≡ is_lt (ordering_then (nat_cmp (moment_or now.0 x.now.since) (moment_or now.0 y.now.since))
        (nat_cmp x.now.want.stream.0 y.now.want.stream.0)) }
{
    let (mine, other) = (x.since.unwrap_or(now), y.since.unwrap_or(now));
    if mine != other {
        return mine < other;
    }
    x.want.stream < y.want.stream
}

/// How two entries compare at the moment `now`, in cs: `Less` where `x` is more important than `y`.
pub fn compare_importance(now: Cs, x: &Entry, y: &Entry) -> Ordering
    ensures { result ≡ compare_importance now.0 x.now y.now }
{
    by_class(x, y)
        .then_with(|| by_rank(x, y))
        .then_with(|| by_age(now, x, y))
        .then_with(|| x.want.stream.cmp(&y.want.stream))
}

fn by_class(x: &Entry, y: &Entry) -> Ordering
    ensures { result ≡ nat_cmp (class_number x.now.want.class) (class_number y.now.want.class) }
{
    x.want.class.cmp(&y.want.class)
}

fn by_rank(x: &Entry, y: &Entry) -> Ordering
    ensures { result ≡ nat_cmp (rank_number x.now.want.rank) (rank_number y.now.want.rank) }
{
    x.want.rank.cmp(&y.want.rank)
}

fn by_age(now: Cs, x: &Entry, y: &Entry) -> Ordering
    ensures { result ≡ nat_cmp (moment_or now.0 x.now.since) (moment_or now.0 y.now.since) }
{
    x.since.unwrap_or(now).cmp(&y.since.unwrap_or(now))
}
