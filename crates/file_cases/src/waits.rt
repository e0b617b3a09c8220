//! The longest waits of inputs, some of them near the tight bound.
//!
//! The calls stand in functions of their own, so that a test's own proof is short.

use class_b_bound::{has_caps, worst_wait};
use credit_shaper::{Arrival, PortInput, SlopeChange, Traffic};
use srp_base::{NoMemory, Rate, Seq};
use std::alloc::Global;

/// Frames by their bit times, traffics and bits, numbered from 1.
fn frames(alloc: Global, list: &[(u64, Traffic, u32)]) -> Result<Seq<Arrival>, NoMemory> {
    let mut frames = Seq::new(alloc);
    let mut number: u32 = 1;
    for (bit, traffic, bits) in list {
        frames.push(Arrival {
            bit: *bit,
            traffic: *traffic,
            bits: *bits,
            frame: number,
        })?;
        number = number.wrapping_add(1);
    }
    Ok(frames)
}

/// A port's rate, its slopes in Mb/s and its bit times.
#[derive(Clone, Copy)]
struct Setup {
    rate: Rate,
    slope_a: u64,
    slope_b: u64,
    end: u64,
}

fn input(alloc: Global, setup: Setup, list: &[(u64, Traffic, u32)]) -> Result<PortInput, NoMemory> {
    let mut slopes = Seq::new(alloc);
    slopes.push(SlopeChange {
        bit: 0,
        slope_a: setup.slope_a.wrapping_mul(1_000_000),
        slope_b: setup.slope_b.wrapping_mul(1_000_000),
    })?;
    let arrivals = frames(alloc, list)?;
    Ok(PortInput {
        rate: setup.rate,
        slopes,
        arrivals,
        end: setup.end,
    })
}

/// The longest wait of an input with caps in Mb/s.
fn worst(alloc: Global, input: &PortInput, caps: (u64, u64)) -> Option<u64> {
    let (cap_a, cap_ab) = (
        caps.0.wrapping_mul(1_000_000),
        caps.1.wrapping_mul(1_000_000),
    );
    if has_caps(input, cap_a, cap_ab) {
        worst_wait(alloc, input, cap_a, cap_ab).ok()
    } else {
        None
    }
}

/// Whether the longest wait of these frames is this one.
fn waits(
    alloc: Global,
    setup: Setup,
    caps: (u64, u64),
    list: &[(u64, Traffic, u32)],
    wanted: u64,
) -> bool {
    match input(alloc, setup, list) {
        Ok(input) => worst(alloc, &input, caps) == Some(wanted),
        Err(_) => false,
    }
}

const fn at_100(slope_a: u64, slope_b: u64, end: u64) -> Setup {
    Setup {
        rate: Rate::M100,
        slope_a,
        slope_b,
        end,
    }
}

const OTHER: (u64, Traffic, u32) = (0, Traffic::Other, 12_336);

const CLASS_B: (u64, Traffic, u32) = (1, Traffic::B, 800);

const LONGEST: (u64, Traffic, u32) = (1, Traffic::A, 12_336);

const CREDIT: (u64, Traffic, u32) = (1, Traffic::A, 12_335);

#[test]
fn class_b_waits_for_one_frame(rt: HostRuntime) {
    assert!(rt;
        waits(
            rt.alloc(),
            at_100(50, 20, 20_000),
            (50, 75),
            &[OTHER, CLASS_B],
            12_335
        )
    );
}

#[test]
fn and_for_the_class_a_frame_that_came_meanwhile(rt: HostRuntime) {
    let list = [OTHER, CLASS_B, (2, Traffic::A, 800)];
    assert!(rt; waits(rt.alloc(), at_100(50, 20, 20_000), (50, 75), &list, 13_135));
}

#[test]
fn nothing_waits(rt: HostRuntime) {
    assert!(rt; waits(rt.alloc(), at_100(50, 20, 20_000), (50, 75), &[OTHER], 0));
    assert!(rt;
        waits(
            rt.alloc(),
            at_100(50, 20, 20_000),
            (50, 75),
            &[(0, Traffic::B, 800)],
            0
        )
    );
}

#[test]
fn a_frame_waits_at_the_end_still(rt: HostRuntime) {
    assert!(rt;
        waits(
            rt.alloc(),
            at_100(50, 20, 5_000),
            (50, 75),
            &[OTHER, CLASS_B],
            4_999
        )
    );
}

#[test]
fn what_waits_without_credit_is_no_wait(rt: HostRuntime) {
    let list = [(0, Traffic::B, 800), (0, Traffic::B, 800)];
    assert!(rt; waits(rt.alloc(), at_100(50, 20, 5_000), (50, 75), &list, 0));
}

#[test]
fn of_61_680_a_wait_takes_61_676(rt: HostRuntime) {
    let list = [OTHER, CREDIT, CREDIT, CREDIT, LONGEST, CLASS_B];
    assert!(rt; waits(rt.alloc(), at_100(75, 0, 70_000), (75, 75), &list, 61_676));
}

#[test]
fn of_37_008_a_wait_takes_37_006(rt: HostRuntime) {
    let list = [OTHER, CREDIT, LONGEST, CLASS_B];
    assert!(rt; waits(rt.alloc(), at_100(50, 25, 50_000), (50, 75), &list, 37_006));
}

#[test]
fn of_24_672_a_wait_takes_24_671(rt: HostRuntime) {
    let list = [OTHER, LONGEST, CLASS_B];
    assert!(rt; waits(rt.alloc(), at_100(0, 75, 30_000), (0, 75), &list, 24_671));
}

#[test]
fn of_135_696_a_wait_takes_135_686(rt: HostRuntime) {
    let list = [
        OTHER, CREDIT, CREDIT, CREDIT, CREDIT, CREDIT, CREDIT, CREDIT, CREDIT, CREDIT, LONGEST,
        CLASS_B,
    ];
    let setup = Setup {
        rate: Rate::G1,
        slope_a: 900,
        slope_b: 0,
        end: 140_000,
    };
    assert!(rt; waits(rt.alloc(), setup, (900, 900), &list, 135_686));
}

#[test]
fn of_124_481_a_wait_takes_124_472(rt: HostRuntime) {
    let list = [
        OTHER,
        LONGEST,
        LONGEST,
        LONGEST,
        LONGEST,
        LONGEST,
        LONGEST,
        LONGEST,
        LONGEST,
        (1, Traffic::A, 1_113),
        LONGEST,
        CLASS_B,
    ];
    assert!(rt; waits(rt.alloc(), at_100(89, 1, 130_000), (89, 90), &list, 124_472));
}

#[test]
fn of_24_796_a_wait_takes_24_671_in_whole_frames(rt: HostRuntime) {
    let list = [OTHER, LONGEST, CLASS_B];
    assert!(rt; waits(rt.alloc(), at_100(1, 1, 30_000), (1, 2), &list, 24_671));
}

#[test]
fn a_long_run_takes_few_steps(rt: HostRuntime) {
    let setup = Setup {
        rate: Rate::G10,
        slope_a: 0,
        slope_b: 1,
        end: 2_199_023_255_552,
    };
    assert!(rt;
        waits(
            rt.alloc(),
            setup,
            (0, 1),
            &[OTHER, LONGEST, CLASS_B, CLASS_B],
            24_671
        )
    );
}
