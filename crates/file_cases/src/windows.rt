//! What class B has of a window.

use class_b_bound::{WindowB, window_b};
use credit_shaper::{Arrival, PortInput, PortTrace, SlopeChange, Traffic};
use srp_base::{NoMemory, Rate, Seq};
use std::alloc::Global;

/// At 100 Mb/s two frames of class B of 800 bits, at bit times 0 and 1, with a slope of 50 Mb/s
/// that becomes 20 Mb/s at bit time 1,000: the second starts once the credit is 0 again, at bit
/// time 2,500.
fn input(alloc: Global) -> Result<PortInput, NoMemory> {
    let mut slopes = Seq::new(alloc);
    for (bit, slope_b) in [(0, 50_000_000), (1_000, 20_000_000)] {
        slopes.push(SlopeChange {
            bit,
            slope_a: 0,
            slope_b,
        })?;
    }
    let mut arrivals = Seq::new(alloc);
    for frame in 0..2u32 {
        arrivals.push(Arrival {
            bit: u64::from(frame),
            traffic: Traffic::B,
            bits: 800,
            frame,
        })?;
    }
    Ok(PortInput {
        rate: Rate::M100,
        slopes,
        arrivals,
        end: 5_000,
    })
}

/// What class B has of a window of an input; None where it can't be asked, or memory runs out.
fn window(alloc: Global, input: &PortInput, from: u64, to: u64) -> Option<WindowB> {
    if !input.is_valid() || to < from || input.end < to {
        return None;
    }
    let sent = PortTrace::run(alloc, input).ok()?;
    Some(window_b(input, &sent, from, to))
}

/// Whether class B has these bits and this area of a window there.
fn has(alloc: Global, from: u64, to: u64, bits: u64, area: u128) -> bool {
    match input(alloc) {
        Ok(input) => window(alloc, &input, from, to) == Some(WindowB { bits, area }),
        Err(_) => false,
    }
}

#[test]
fn a_whole_run(rt: HostRuntime) {
    assert!(rt; has(rt.alloc(), 0, 5_000, 1_600, 130_000_000_000));
}

#[test]
fn a_window_cuts_frames_and_slopes(rt: HostRuntime) {
    assert!(rt; has(rt.alloc(), 700, 1_100, 100, 17_000_000_000));
}

#[test]
fn an_empty_window(rt: HostRuntime) {
    assert!(rt; has(rt.alloc(), 700, 700, 0, 0));
}

#[test]
fn no_window(rt: HostRuntime) {
    assert!(rt; !has(rt.alloc(), 0, 5_001, 1_600, 130_000_000_000));
}
