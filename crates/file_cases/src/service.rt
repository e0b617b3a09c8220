//! What a class has of a window, and whether it is busy all along.

use class_service::{Service, service_in};
use credit_shaper::{Arrival, PortInput, SlopeChange, Traffic};
use srp_base::{NoMemory, Rate, Seq};
use std::alloc::Global;

/// At 100 Mb/s two frames of class B of 800 bits, at bit times 0 and 1, with a slope of 50 Mb/s
/// that becomes 20 Mb/s at bit time 1,000: the second starts once the credit is 0 again, at bit
/// time 2,500, and the last bit of it goes in bit time 3,299. A frame of other traffic of 400 bits
/// comes at bit time 800. Class A has no frame, and a slope of 10 Mb/s.
fn input(alloc: Global) -> Result<PortInput, NoMemory> {
    let mut slopes = Seq::new(alloc);
    for (bit, slope_b) in [(0, 50_000_000), (1_000, 20_000_000)] {
        slopes.push(SlopeChange {
            bit,
            slope_a: 10_000_000,
            slope_b,
        })?;
    }
    let mut arrivals = Seq::new(alloc);
    for (frame, bit, traffic, bits) in [
        (0, 0, Traffic::B, 800),
        (1, 1, Traffic::B, 800),
        (2, 800, Traffic::Other, 400),
    ] {
        arrivals.push(Arrival {
            bit,
            traffic,
            bits,
            frame,
        })?;
    }
    Ok(PortInput {
        rate: Rate::M100,
        slopes,
        arrivals,
        end: 5_000,
    })
}

/// What a class has of a window of that input; None where it can't be asked, or memory runs out.
fn service(alloc: Global, class: Traffic, from: u64, to: u64) -> Option<Service> {
    let input = input(alloc).ok()?;
    if class == Traffic::Other || !input.is_valid() || to < from || input.end < to {
        return None;
    }
    service_in(alloc, &input, class, from, to).ok()
}

/// Whether a class has these bits and this area of a window there, and is busy all along or not.
fn has(
    alloc: Global,
    class: Traffic,
    window: (u64, u64),
    bits: u64,
    area: u128,
    busy: bool,
) -> bool {
    let wanted = Service {
        bits,
        area,
        is_busy: busy,
    };
    service(alloc, class, window.0, window.1) == Some(wanted)
}

#[test]
fn a_class_is_busy_up_to_its_last_bit(rt: HostRuntime) {
    let alloc = rt.alloc();
    assert!(rt; has(alloc, Traffic::B, (0, 3_300), 1_600, 96_000_000_000, true));
    assert!(rt; has(alloc, Traffic::B, (0, 3_301), 1_600, 96_020_000_000, false));
}

#[test]
fn a_class_is_busy_while_its_frame_waits(rt: HostRuntime) {
    assert!(rt;
        has(
            rt.alloc(),
            Traffic::B,
            (800, 2_500),
            0,
            40_000_000_000,
            true
        )
    );
}

#[test]
fn a_window_cuts_frames_and_slopes(rt: HostRuntime) {
    assert!(rt;
        has(
            rt.alloc(),
            Traffic::B,
            (700, 1_100),
            100,
            17_000_000_000,
            true
        )
    );
}

#[test]
fn a_class_without_frames_is_not_busy(rt: HostRuntime) {
    assert!(rt; has(rt.alloc(), Traffic::A, (0, 5_000), 0, 50_000_000_000, false));
}

#[test]
fn nothing_is_asked_of_an_empty_window(rt: HostRuntime) {
    assert!(rt; has(rt.alloc(), Traffic::A, (700, 700), 0, 0, true));
}
