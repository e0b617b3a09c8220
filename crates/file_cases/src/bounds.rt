//! The numbers of both bounds.

use class_b_bound::{BoundB, are_caps, bound_b, tight_bound_b};
use srp_base::Rate;

/// The wait and hiCredit of the bound, and of the tight one.
fn numbers(rate: Rate, cap_a: u64, cap_ab: u64) -> Option<(BoundB, BoundB)> {
    if are_caps(rate, cap_a, cap_ab) {
        let bound = bound_b(rate, cap_a, cap_ab);
        Some((bound, tight_bound_b(rate, cap_a, cap_ab)))
    } else {
        None
    }
}

/// Whether a bound has this wait and this hiCredit.
fn has(bound: BoundB, wait: u64, hi: u128) -> bool {
    bound.wait == wait && bound.hi == hi
}

/// Whether the bounds at 100 Mb/s, by the caps in Mb/s, have these waits, and hiCredits in units of
/// a 10,000,000,000,000th.
fn at_100(cap_a: u64, cap_ab: u64, wide: (u64, u128), tight: (u64, u128)) -> bool {
    let mega = 1_000_000;
    match numbers(
        Rate::M100,
        cap_a.wrapping_mul(mega),
        cap_ab.wrapping_mul(mega),
    ) {
        Some((bound, other)) => has(bound, wide.0, wide.1) && has(other, tight.0, tight.1),
        None => false,
    }
}

#[test]
fn class_a_at_75_percent(rt: HostRuntime) {
    assert!(rt;
        at_100(
            75,
            75,
            (135_696, 10_177_200_000_000),
            (61_680, 1_850_400_000_000)
        )
    );
}

#[test]
fn class_a_at_50_percent_and_class_b_at_25(rt: HostRuntime) {
    assert!(rt;
        at_100(
            50,
            75,
            (61_680, 4_626_000_000_000),
            (37_008, 1_850_400_000_000)
        )
    );
}

#[test]
fn a_percent_each(rt: HostRuntime) {
    assert!(rt; at_100(1, 2, (25_046, 50_092_000_000), (24_796, 49_344_000_000)));
}

#[test]
fn class_a_at_89_percent_and_class_b_at_1(rt: HostRuntime) {
    assert!(rt;
        at_100(
            89,
            90,
            (324_101, 29_169_090_000_000),
            (124_481, 2_220_480_000_000)
        )
    );
}

#[test]
fn the_wait_is_rounded_up_and_the_tight_one_down(rt: HostRuntime) {
    assert!(rt;
        at_100(
            34,
            34,
            (43_737, 1_487_058_000_000),
            (31_026, 838_848_000_000)
        )
    );
}

#[test]
fn no_class_a(rt: HostRuntime) {
    assert!(rt;
        at_100(
            0,
            75,
            (24_672, 1_850_400_000_000),
            (24_672, 1_850_400_000_000)
        )
    );
}

#[test]
fn caps_are_in_order_and_below_the_rate(rt: HostRuntime) {
    assert!(rt; !at_100(75, 74, (0, 0), (0, 0)));
    assert!(rt; !at_100(75, 100, (0, 0), (0, 0)));
}
