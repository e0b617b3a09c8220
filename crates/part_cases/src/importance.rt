//! Slopes and caps, and pairs of entries of which the first is more important.

use srp_base::{Class, Cs, Percent, Rank, Rate, StreamId};
use std::cmp::Ordering;
use stream_importance::{Caps, Entry, Want, compare_importance, more_important, slope_of};

/// Whether shares of 50 and 25 percent of 100 Mbit/s are the caps of the classes.
fn has_caps() -> Option<bool> {
    let caps = Caps::new(Rate::M100, Percent::new(50)?, Percent::new(25)?);
    Some(caps.of(Class::A) == 50_000_000 && caps.of(Class::B) == 75_000_000)
}

#[test]
fn slopes_and_caps(rt: HostRuntime) {
    let slopes = [
        (Class::A, 200, 1, 15_488_000),
        (Class::A, 958, 1, 64_000_000),
        (Class::A, 959, 1, 64_064_000),
        (Class::A, 1_500, 1, 98_688_000),
        (Class::B, 400, 1, 14_144_000),
        (Class::B, 400, 3, 42_432_000),
        (Class::A, 65_535, 65_535, 275_045_676_480_000),
    ];
    for (class, max_frame, frames, slope) in slopes {
        assert!(rt; slope_of(class, max_frame, frames) == slope);
    }
    assert!(rt; has_caps() == Some(true));
}

fn entry(class: Class, rank: Rank, since: Option<Cs>, stream: u64) -> Entry {
    let want = Want {
        stream: StreamId(stream),
        class,
        rank,
        slope: 1,
    };
    Entry { want, since }
}

const NOW: Cs = Cs(7);

fn are_in_order(now: Cs, first: &Entry, second: &Entry) -> bool {
    more_important(now, first, second)
        && !more_important(now, second, first)
        && !more_important(now, first, first)
        && compare_importance(now, second, first) == Ordering::Greater
}

fn classes_come_first() -> bool {
    let first = entry(Class::A, Rank::Normal, None, 9);
    are_in_order(
        NOW,
        &first,
        &entry(Class::B, Rank::Emergency, Some(Cs(0)), 1),
    )
}

fn then_ranks() -> bool {
    let first = entry(Class::B, Rank::Emergency, None, 9);
    are_in_order(NOW, &first, &entry(Class::B, Rank::Normal, Some(Cs(0)), 1))
}

/// Whether of two streams of a class and rank the one since this moment comes first.
fn is_first_since(since: Option<Cs>, stream: u64, other_since: Option<Cs>, other: u64) -> bool {
    let first = entry(Class::A, Rank::Normal, since, stream);
    are_in_order(
        NOW,
        &first,
        &entry(Class::A, Rank::Normal, other_since, other),
    )
}

#[test]
fn class_then_rank_then_age_then_stream(rt: HostRuntime) {
    assert!(rt; classes_come_first() && then_ranks());
    assert!(rt; is_first_since(Some(Cs(3)), 9, Some(Cs(4)), 1));
    assert!(rt; is_first_since(Some(Cs(6)), 9, None, 1));
    assert!(rt; is_first_since(None, 1, Some(Cs(7)), 9));
}
