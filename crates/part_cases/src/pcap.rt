//! Files of pcap: a head of 24 octets, and records.

use crate::files::{frame, is_refused, reads};
use capture_file::{CaptureErr, LinkType};
use std::alloc::Global;

// The magics, for µs and ns, the low octet first and the high octet first.
const MICROS_LITTLE: [u8; 4] = [0xd4, 0xc3, 0xb2, 0xa1];

const NANOS_LITTLE: [u8; 4] = [0x4d, 0x3c, 0xb2, 0xa1];

const MICROS_BIG: [u8; 4] = [0xa1, 0xb2, 0xc3, 0xd4];

const NANOS_BIG: [u8; 4] = [0xa1, 0xb2, 0x3c, 0x4d];

// The rest of the head up to the link type: version 2.4, zone, accuracy, and a snap length of
// 262,144.
const HEAD_LITTLE: [u8; 16] = [2, 0, 4, 0, 0, 0, 0, 0, 0, 0, 0, 0, 0, 0, 4, 0];

const HEAD_BIG: [u8; 16] = [0, 2, 0, 4, 0, 0, 0, 0, 0, 0, 0, 0, 0, 4, 0, 0];

// The link type of Ethernet.
const ETHERNET_LITTLE: [u8; 4] = [1, 0, 0, 0];

const ETHERNET_BIG: [u8; 4] = [0, 0, 0, 1];

// A record at 16,909,060 s and 329,223 units: three octets of 60.
const RECORD_LITTLE: [u8; 19] = [4, 3, 2, 1, 7, 6, 5, 0, 3, 0, 0, 0, 60, 0, 0, 0, 7, 8, 9];

const RECORD_BIG: [u8; 19] = [1, 2, 3, 4, 0, 5, 6, 7, 0, 0, 0, 3, 0, 0, 0, 60, 7, 8, 9];

// Its moment, where a unit is 1 µs and where it is 1 ns.
const IN_MICROS: u64 = 16_909_060_329_223_000;

const IN_NANOS: u64 = 16_909_060_000_329_223;

// Whether a file of two such records has two such frames.
fn has_both(
    alloc: Global,
    magic: &[u8],
    (head, link, record): (&[u8], &[u8], &[u8]),
    at_ns: u64,
) -> bool {
    let one = frame(LinkType::Ethernet, at_ns);
    reads(
        alloc,
        &[magic, head, link, record, record],
        &[one, one],
        None,
    )
}

// Whether a file of the low octet first has these frames.
fn little(alloc: Global, magic: &[u8], at_ns: u64) -> bool {
    let pieces = (
        HEAD_LITTLE.as_slice(),
        ETHERNET_LITTLE.as_slice(),
        RECORD_LITTLE.as_slice(),
    );
    has_both(alloc, magic, pieces, at_ns)
}

// Whether one of the high octet first has.
fn big(alloc: Global, magic: &[u8], at_ns: u64) -> bool {
    let pieces = (
        HEAD_BIG.as_slice(),
        ETHERNET_BIG.as_slice(),
        RECORD_BIG.as_slice(),
    );
    has_both(alloc, magic, pieces, at_ns)
}

#[test]
fn records_are_read_in_both_orders_and_clocks(rt: HostRuntime) {
    assert!(rt; little(rt.alloc(), &MICROS_LITTLE, IN_MICROS));
    assert!(rt; little(rt.alloc(), &NANOS_LITTLE, IN_NANOS));
    assert!(rt; big(rt.alloc(), &MICROS_BIG, IN_MICROS));
    assert!(rt; big(rt.alloc(), &NANOS_BIG, IN_NANOS));
}

// Whether a file of one record is of a frame of this link type.
fn is_on(alloc: Global, octets: &[u8], link: LinkType) -> bool {
    let pieces = [
        NANOS_LITTLE.as_slice(),
        HEAD_LITTLE.as_slice(),
        octets,
        RECORD_LITTLE.as_slice(),
    ];
    reads(alloc, &pieces, &[frame(link, IN_NANOS)], None)
}

// Whether a file of a link type isn't read.
fn is_other(alloc: Global, octets: &[u8], number: u32) -> bool {
    let pieces = [
        NANOS_LITTLE.as_slice(),
        HEAD_LITTLE.as_slice(),
        octets,
        RECORD_LITTLE.as_slice(),
    ];
    is_refused(alloc, &pieces, CaptureErr::OtherLink(number))
}

#[test]
fn the_link_type_is_in_the_low_28_bits(rt: HostRuntime) {
    assert!(rt; is_on(rt.alloc(), &[1, 0, 0, 0x50], LinkType::Ethernet));
    assert!(rt; is_on(rt.alloc(), &[113, 0, 0, 0], LinkType::Cooked));
    assert!(rt; is_on(rt.alloc(), &[20, 1, 0, 0x50], LinkType::CookedV2));
    assert!(rt; is_other(rt.alloc(), &[105, 0, 0, 0x50], 105));
}

// Whether a file with these octets behind its first record breaks off there.
fn breaks_behind(alloc: Global, rest: &[u8]) -> bool {
    let pieces = [
        NANOS_LITTLE.as_slice(),
        HEAD_LITTLE.as_slice(),
        ETHERNET_LITTLE.as_slice(),
        RECORD_LITTLE.as_slice(),
        rest,
    ];
    let one = frame(LinkType::Ethernet, IN_NANOS);
    reads(alloc, &pieces, &[one], Some(43))
}

// More octets were captured than the frame had.
const TOO_MANY: [u8; 19] = [4, 3, 2, 1, 7, 6, 5, 0, 3, 0, 0, 0, 2, 0, 0, 0, 7, 8, 9];

#[test]
fn what_is_whole_before_a_break_is_read(rt: HostRuntime) {
    assert!(rt; breaks_behind(rt.alloc(), &RECORD_LITTLE[..1]));
    assert!(rt; breaks_behind(rt.alloc(), &RECORD_LITTLE[..15]));
    assert!(rt; breaks_behind(rt.alloc(), &RECORD_LITTLE[..18]));
    assert!(rt; breaks_behind(rt.alloc(), &TOO_MANY));
}

// Whether a file's head, with so much of the link type, has no frames and breaks off there.
fn has_none(alloc: Global, link: &[u8], broken: Option<u32>) -> bool {
    let pieces = [MICROS_LITTLE.as_slice(), HEAD_LITTLE.as_slice(), link];
    reads(alloc, &pieces, &[], broken)
}

#[test]
fn a_head_of_23_octets_breaks_off_at_once(rt: HostRuntime) {
    assert!(rt; has_none(rt.alloc(), &ETHERNET_LITTLE[..3], Some(0)));
    assert!(rt; has_none(rt.alloc(), &ETHERNET_LITTLE, None));
}

#[test]
fn what_begins_otherwise_is_no_capture(rt: HostRuntime) {
    // nothing, a magic that isn't whole, and the magic of another form
    let other = [0xa1, 0xb2, 0xcd, 0x34];
    assert!(rt; is_refused(rt.alloc(), &[], CaptureErr::NotCapture));
    assert!(rt; is_refused(rt.alloc(), &[&MICROS_BIG[..3]], CaptureErr::NotCapture));
    assert!(rt;
        is_refused(
            rt.alloc(),
            &[&other, &HEAD_BIG, &ETHERNET_BIG],
            CaptureErr::NotCapture
        )
    );
}
