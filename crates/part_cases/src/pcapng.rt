//! Files of pcapng: sections of blocks, each of which has its length in front and behind.

use crate::files::{frame, is_refused, reads};
use capture_file::{CaptureErr, LinkType};
use std::alloc::Global;

// A section header block.
const SECTION_LITTLE: [u8; 28] = [
    10, 13, 13, 10, 28, 0, 0, 0, 0x4d, 0x3c, 0x2b, 0x1a, 1, 0, 0, 0, 255, 255, 255, 255, 255, 255,
    255, 255, 28, 0, 0, 0,
];

const SECTION_BIG: [u8; 28] = [
    10, 13, 13, 10, 0, 0, 0, 28, 0x1a, 0x2b, 0x3c, 0x4d, 0, 1, 0, 0, 255, 255, 255, 255, 255, 255,
    255, 255, 0, 0, 0, 28,
];

// An interface on Ethernet that keeps three octets of a frame, with a clock of 1 µs.
const MICROS_LITTLE: [u8; 20] = [1, 0, 0, 0, 20, 0, 0, 0, 1, 0, 0, 0, 3, 0, 0, 0, 20, 0, 0, 0];

const MICROS_BIG: [u8; 20] = [0, 0, 0, 1, 0, 0, 0, 20, 0, 1, 0, 0, 0, 0, 0, 3, 0, 0, 0, 20];

// A cooked interface of the name eth0 that keeps all octets, with a clock of 2^-10 s.
const BINARY_LITTLE: [u8; 40] = [
    1, 0, 0, 0, 40, 0, 0, 0, 113, 0, 0, 0, 0, 0, 0, 0, 2, 0, 4, 0, 101, 116, 104, 48, 9, 0, 1, 0,
    138, 0, 0, 0, 0, 0, 0, 0, 40, 0, 0, 0,
];

const BINARY_BIG: [u8; 40] = [
    0, 0, 0, 1, 0, 0, 0, 40, 0, 113, 0, 0, 0, 0, 0, 0, 0, 2, 0, 4, 101, 116, 104, 48, 0, 9, 0, 1,
    138, 0, 0, 0, 0, 0, 0, 0, 0, 0, 0, 40,
];

// A frame of interface 1 at 2^32 + 3,584 units: three octets of 60.
const FRAME_LITTLE: [u8; 36] = [
    6, 0, 0, 0, 36, 0, 0, 0, 1, 0, 0, 0, 1, 0, 0, 0, 0, 14, 0, 0, 3, 0, 0, 0, 60, 0, 0, 0, 7, 8, 9,
    0, 36, 0, 0, 0,
];

const FRAME_BIG: [u8; 36] = [
    0, 0, 0, 6, 0, 0, 0, 36, 0, 0, 0, 1, 0, 0, 0, 1, 0, 0, 14, 0, 0, 0, 0, 3, 0, 0, 0, 60, 7, 8, 9,
    0, 0, 0, 0, 36,
];

// A simple packet of a frame of 60 octets.
const SIMPLE_LITTLE: [u8; 20] = [
    3, 0, 0, 0, 20, 0, 0, 0, 60, 0, 0, 0, 7, 8, 9, 0, 20, 0, 0, 0,
];

const SIMPLE_BIG: [u8; 20] = [
    0, 0, 0, 3, 0, 0, 0, 20, 0, 0, 0, 60, 7, 8, 9, 0, 0, 0, 0, 20,
];

// A block of names, which says nothing of frames.
const NAMES_LITTLE: [u8; 12] = [4, 0, 0, 0, 12, 0, 0, 0, 12, 0, 0, 0];

const NAMES_BIG: [u8; 12] = [0, 0, 0, 4, 0, 0, 0, 12, 0, 0, 0, 12];

// 4,194,304 s and 3.5 s; and the same number of µs.
const BINARY_MOMENT: u64 = 4_194_307_500_000_000;

const MICROS_MOMENT: u64 = 4_294_970_880_000;

// Whether a section's file has the frame of its second interface, and that of a simple packet on
// the first, without a moment.
fn has_both(alloc: Global, section: &[&[u8]]) -> bool {
    let frames = [
        frame(LinkType::Cooked, BINARY_MOMENT),
        frame(LinkType::Ethernet, 0),
    ];
    reads(alloc, section, &frames, None)
}

fn little(alloc: Global) -> bool {
    let section = [
        SECTION_LITTLE.as_slice(),
        MICROS_LITTLE.as_slice(),
        BINARY_LITTLE.as_slice(),
        NAMES_LITTLE.as_slice(),
        FRAME_LITTLE.as_slice(),
        SIMPLE_LITTLE.as_slice(),
    ];
    has_both(alloc, &section)
}

fn big(alloc: Global) -> bool {
    let section = [
        SECTION_BIG.as_slice(),
        MICROS_BIG.as_slice(),
        BINARY_BIG.as_slice(),
        NAMES_BIG.as_slice(),
        FRAME_BIG.as_slice(),
        SIMPLE_BIG.as_slice(),
    ];
    has_both(alloc, &section)
}

#[test]
fn blocks_are_read_in_both_orders(rt: HostRuntime) {
    assert!(rt; little(rt.alloc()));
    assert!(rt; big(rt.alloc()));
}

// A section of the low octet first, and one of the high octet first with its own interfaces.
fn two_sections(alloc: Global) -> bool {
    let file = [
        SECTION_LITTLE.as_slice(),
        BINARY_LITTLE.as_slice(),
        BINARY_LITTLE.as_slice(),
        FRAME_LITTLE.as_slice(),
        SECTION_BIG.as_slice(),
        MICROS_BIG.as_slice(),
        MICROS_BIG.as_slice(),
        FRAME_BIG.as_slice(),
    ];
    let frames = [
        frame(LinkType::Cooked, BINARY_MOMENT),
        frame(LinkType::Ethernet, MICROS_MOMENT),
    ];
    reads(alloc, &file, &frames, None)
}

// A section that has one interface, where the section before had two.
fn no_interface(alloc: Global) -> bool {
    let file = [
        SECTION_LITTLE.as_slice(),
        MICROS_LITTLE.as_slice(),
        MICROS_LITTLE.as_slice(),
        SECTION_BIG.as_slice(),
        MICROS_BIG.as_slice(),
        FRAME_BIG.as_slice(),
    ];
    reads(alloc, &file, &[], Some(116))
}

#[test]
fn a_section_has_its_own_order_and_interfaces(rt: HostRuntime) {
    assert!(rt; two_sections(rt.alloc()));
    assert!(rt; no_interface(rt.alloc()));
}

// Whether a file with this behind its first simple packet breaks off there.
fn breaks_at(alloc: Global, block: &[u8]) -> bool {
    let file = [
        SECTION_LITTLE.as_slice(),
        MICROS_LITTLE.as_slice(),
        SIMPLE_LITTLE.as_slice(),
        block,
    ];
    reads(alloc, &file, &[frame(LinkType::Ethernet, 0)], Some(68))
}

// Blocks of a length of 0, of 13, and of one that is another at the end.
const NO_LENGTH: [u8; 12] = [4, 0, 0, 0, 0, 0, 0, 0, 0, 0, 0, 0];

const ODD_LENGTH: [u8; 13] = [4, 0, 0, 0, 13, 0, 0, 0, 0, 13, 0, 0, 0];

const OTHER_LENGTH: [u8; 12] = [4, 0, 0, 0, 12, 0, 0, 0, 16, 0, 0, 0];

// An interface with an option of 5 octets, of which the block has 4.
const LONG_OPTION: [u8; 28] = [
    1, 0, 0, 0, 28, 0, 0, 0, 1, 0, 0, 0, 0, 0, 0, 0, 2, 0, 5, 0, 101, 116, 104, 48, 28, 0, 0, 0,
];

// A frame of interface 0 of which 5 octets were captured, and the block has 4.
const LONG_FRAME: [u8; 36] = [
    6, 0, 0, 0, 36, 0, 0, 0, 0, 0, 0, 0, 0, 0, 0, 0, 0, 0, 0, 0, 5, 0, 0, 0, 60, 0, 0, 0, 7, 8, 9,
    0, 36, 0, 0, 0,
];

#[test]
fn a_block_that_breaks_its_rules_ends_the_file(rt: HostRuntime) {
    assert!(rt; breaks_at(rt.alloc(), &NO_LENGTH));
    assert!(rt; breaks_at(rt.alloc(), &ODD_LENGTH));
    assert!(rt; breaks_at(rt.alloc(), &OTHER_LENGTH));
    assert!(rt; breaks_at(rt.alloc(), &LONG_OPTION));
    assert!(rt; breaks_at(rt.alloc(), &LONG_FRAME));
    assert!(rt; breaks_at(rt.alloc(), &SIMPLE_LITTLE[..19]));
}

// An interface of wireless frames.
const WIRELESS: [u8; 20] = [
    1, 0, 0, 0, 20, 0, 0, 0, 105, 0, 0, 0, 0, 0, 0, 0, 20, 0, 0, 0,
];

fn is_wireless(alloc: Global) -> bool {
    let file = [SECTION_LITTLE.as_slice(), WIRELESS.as_slice()];
    is_refused(alloc, &file, CaptureErr::OtherLink(105))
}

// A section without its byte-order magic.
fn is_none(alloc: Global) -> bool {
    is_refused(alloc, &[&SECTION_LITTLE[..8]], CaptureErr::NotCapture)
}

#[test]
fn another_link_and_another_magic_are_refused(rt: HostRuntime) {
    assert!(rt; is_wireless(rt.alloc()));
    assert!(rt; is_none(rt.alloc()));
}
