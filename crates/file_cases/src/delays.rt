//! How long frames of a class wait at a port, and take from port to port.

use delay_bound::{
    Bound, Group, Hop, NoPeak, SentFrame, StreamLimits, are_in_order, conforms, idle, late, peak,
    wait, within,
};
use srp_base::{Class, NoMemory, Ps, Rate, Seq};
use std::alloc::Global;

/// A group of this first bound, with these behind a port.
fn group(alloc: Global, first: Bound, more: &[Bound]) -> Result<Group, NoMemory> {
    let mut bounds = Seq::new(alloc);
    for bound in more {
        bounds.push(*bound)?;
    }
    Ok(Group {
        first,
        more: bounds,
    })
}

/// Whether one group has this peak, or this cause of none, where its class has a slope.
fn has_peak(
    alloc: Global,
    first: Bound,
    more: &[Bound],
    slope: u64,
    wanted: Result<u128, NoPeak>,
) -> bool {
    match group(alloc, first, more) {
        Ok(one) => peak(&[one], slope) == wanted,
        Err(_) => false,
    }
}

/// One stream of class A, of 976 bits each 125 us, over two ports of 100 Mb/s, and nothing else of
/// its class.
const SLOPE: u64 = 7_808_000;

/// What it brings to its Talker's port: a frame, and what comes of its slope in a bit time.
const AT_TALKER: Bound = Bound {
    base: 976_078_080_000_000,
    slope: SLOPE,
};

/// And to the next port, where two of its frames may have moved towards each other by 123.39 us.
const BEHIND: Bound = Bound {
    base: 1_939_429_120_000_000,
    slope: SLOPE,
};

/// What class A brings there out of the first port at most, by its window.
const BY_WINDOW: Bound = Bound {
    base: 2_839_066_880_000_000,
    slope: SLOPE,
};

/// And what the line between brings.
const BY_LINE: Bound = Bound {
    base: 977_000_000_000_000,
    slope: 100_000_000,
};

#[test]
fn a_stream_alone_waits_for_a_frame_of_another(rt: HostRuntime) {
    let alloc = rt.alloc();
    assert!(rt; has_peak(alloc, AT_TALKER, &[], SLOPE, Ok(976_078_080_000_000)));
    let before = idle(Class::A, Rate::M100, SLOPE);
    assert!(rt; before == 12_336);
    assert!(rt; wait(Rate::M100, SLOPE, before, 976_078_080_000_000, 976) == 12_337);
}

#[test]
fn it_waits_longer_behind_a_port(rt: HostRuntime) {
    let alloc = rt.alloc();
    assert!(rt; late(10_000, 12_337, Rate::M100, Rate::M100) == Some(123_390_000));
    let more = [BY_WINDOW, BY_LINE];
    assert!(rt; has_peak(alloc, BEHIND, &more, SLOPE, Ok(1_939_429_120_000_000)));
    assert!(rt; wait(Rate::M100, SLOPE, 12_336, 1_939_429_120_000_000, 976) == 24_675);
}

#[test]
fn a_way_is_the_sum_of_its_ports(rt: HostRuntime) {
    let hops = [
        Hop {
            rate: Rate::M100,
            wait: 12_337,
        },
        Hop {
            rate: Rate::M100,
            wait: 24_675,
        },
    ];
    assert!(rt; within(976, &hops) == Some(389_660_000));
    assert!(rt; within(976, &[]) == Some(0));
}

#[test]
fn class_b_waits_for_what_class_a_sends_too(rt: HostRuntime) {
    assert!(rt; idle(Class::B, Rate::M100, 50_000_000) == 37_008);
    assert!(rt; idle(Class::B, Rate::M100, 75_000_001) == 61_681);
}

/// Of bounds that cross between two whole moments, the one before and the one behind.
#[test]
fn a_peak_stands_at_a_whole_moment(rt: HostRuntime) {
    let alloc = rt.alloc();
    let steep = [Bound { base: 0, slope: 3 }];
    assert!(rt; has_peak(alloc, Bound { base: 11, slope: 0 }, &steep, 1, Ok(7)));
    assert!(rt; has_peak(alloc, Bound { base: 10, slope: 0 }, &steep, 2, Ok(3)));
}

#[test]
fn there_is_no_peak_past_the_slope(rt: HostRuntime) {
    let alloc = rt.alloc();
    assert!(rt;
        has_peak(
            alloc,
            Bound { base: 1, slope: 2 },
            &[],
            1,
            Err(NoPeak::Steep)
        )
    );
    let large = Bound {
        base: 85_070_591_730_234_615_865_843_651_857_942_052_864,
        slope: 1,
    };
    assert!(rt; has_peak(alloc, large, &[], 1, Err(NoPeak::Large)));
}

/// Whether frames of 976 bits at these moments in ps, in order, conform to a burst of so many.
fn do_conform(alloc: Global, moments: &[u64], burst: u64) -> Result<bool, NoMemory> {
    let limits = StreamLimits {
        most: 976,
        burst,
        slope: SLOPE,
    };
    let mut frames = Seq::new(alloc);
    for at in moments {
        frames.push(SentFrame {
            at: Ps(*at),
            bits: 976,
        })?;
    }
    if !are_in_order(frames.as_slice()) {
        return Ok(false);
    }
    Ok(conforms(&limits, frames.as_slice()))
}

#[test]
fn frames_an_interval_apart_conform(rt: HostRuntime) {
    let alloc = rt.alloc();
    assert!(rt; do_conform(alloc, &[], 976) == Ok(true));
    assert!(rt; do_conform(alloc, &[0, 125_000_000, 250_000_000], 976) == Ok(true));
    assert!(rt; do_conform(alloc, &[0, 125_000_000, 249_999_999], 976) == Ok(false));
    assert!(rt; do_conform(alloc, &[0], 975) == Ok(false));
}

/// Each two neighbours keep the burst, but not the first and the last.
#[test]
fn frames_conform_by_all_pairs(rt: HostRuntime) {
    let alloc = rt.alloc();
    assert!(rt; do_conform(alloc, &[0, 0, 125_000_000], 1_952) == Ok(true));
    assert!(rt; do_conform(alloc, &[0, 0, 62_500_000], 1_952) == Ok(false));
}
