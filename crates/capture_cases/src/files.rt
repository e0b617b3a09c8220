//! Capture files, with the words for their frames.

use pdu_words::captured_text;
use std::alloc::Global;

// Whether a file says this.
fn says(alloc: Global, file: &[u8], wanted: &str) -> bool {
    if 1500 < file.len() {
        return false;
    }
    match captured_text(alloc, file) {
        Ok(said) => said.as_str() == wanted,
        Err(_) => false,
    }
}

// A file of pcap in µs, the low octet first, on Ethernet.
const PCAP: [u8; 198] = [
    // the head: magic, version 2.4, zone, accuracy, snap length, link type
    0xd4, 0xc3, 0xb2, 0xa1, 2, 0, 4, 0, 0, 0, 0, 0, 0, 0, 0, 0, 0, 0, 4, 0, 1, 0, 0, 0,
    // at 258 s and 5 µs a whole frame of 26 octets: MVRP's, JoinMt of VID 5
    2, 1, 0, 0, 5, 0, 0, 0, 26, 0, 0, 0, 26, 0, 0, 0, 1, 0x80, 0xc2, 0, 0, 0x21, 2, 0, 0, 0, 0x12,
    0x34, 0x88, 0xf5, 0, 1, 2, 0, 1, 0, 5, 108, 0, 0, 0, 0,
    // at 259 s a frame of another EtherType, 18 octets
    3, 1, 0, 0, 0, 0, 0, 0, 18, 0, 0, 0, 18, 0, 0, 0, 1, 0x80, 0xc2, 0, 0, 0x21, 2, 0, 0, 0, 0x12,
    0x34, 8, 0, 0, 0, 0, 0,
    // at 260 s and 999,999 µs, behind a tag, MMRP's: Lv of 01005e000001, 34 octets
    4, 1, 0, 0, 0x3f, 0x42, 15, 0, 34, 0, 0, 0, 34, 0, 0, 0, 1, 0x80, 0xc2, 0, 0, 0x20, 2, 0, 0, 0,
    0x12, 0x34, 0x81, 0, 0x88, 0xf5, 0x88, 0xf6, 0, 2, 6, 0, 1, 1, 0, 0x5e, 0, 0, 1, 180, 0, 0, 0,
    0,
    // at 261 s, MSRP's: 20 octets of a frame of 60
    5, 1, 0, 0, 0, 0, 0, 0, 20, 0, 0, 0, 60, 0, 0, 0, 1, 0x80, 0xc2, 0, 0, 14, 2, 0, 0, 0, 0x12,
    0x35, 0x22, 0xea, 0, 3, 8, 0, 14, 0,
    // a record of which 12 octets stand there
    6, 1, 0, 0, 0, 0, 0, 0, 18, 0, 0, 0,
];

const PCAP_SAID: &str = "frame 1 at 258.000005000 020000001234 mvrp leaveall no\n\
    joinmt vid 5\n\
    frame 3 at 260.999999000 020000001234 mmrp leaveall no\n\
    lv mac 01005e000001\n\
    frame 4 at 261.000000000 020000001235 msrp cut 20 of 60\n\
    broken at 186\n\
    frames 3 other 1\n";

#[test]
fn a_file_says_what_its_frames_of_mrp_declare(rt: HostRuntime) {
    assert!(rt; says(rt.alloc(), &PCAP, PCAP_SAID));
}

// A file of pcapng, the high octet first: a section, an interface of the second cooked head with a
// clock of 1 ns, and a frame of it at 1,000,000,007 ns: MVRP's, with LeaveAll and JoinMt of VID 5.
const PCAPNG: [u8; 124] = [
    10, 13, 13, 10, 0, 0, 0, 28, 0x1a, 0x2b, 0x3c, 0x4d, 0, 1, 0, 0, 255, 255, 255, 255, 255, 255,
    255, 255, 0, 0, 0, 28, 0, 0, 0, 1, 0, 0, 0, 32, 1, 20, 0, 0, 0, 0, 0, 0, 0, 9, 0, 1, 9, 0, 0,
    0, 0, 0, 0, 0, 0, 0, 0, 32, 0, 0, 0, 6, 0, 0, 0, 64, 0, 0, 0, 0, 0, 0, 0, 0, 0x3b, 0x9a, 0xca,
    7, 0, 0, 0, 32, 0, 0, 0, 32, 0x88, 0xf5, 0, 0, 0, 0, 0, 2, 0, 1, 2, 6, 2, 0, 0, 0, 0x12, 0x34,
    0, 0, 0, 1, 2, 32, 1, 0, 5, 108, 0, 0, 0, 0, 0, 0, 0, 64,
];

const PCAPNG_SAID: &str = "frame 1 at 1.000000007 020000001234 mvrp leaveall yes\n\
    joinmt vid 5\n\
    frames 1 other 0\n";

#[test]
fn a_file_of_blocks_has_the_same_words(rt: HostRuntime) {
    assert!(rt; says(rt.alloc(), &PCAPNG, PCAPNG_SAID));
}

#[test]
fn what_is_no_capture_of_ethernet_is_told(rt: HostRuntime) {
    // a text, and a head of pcap in ns of wireless frames
    let wireless = [
        0xa1, 0xb2, 0x3c, 0x4d, 0, 2, 0, 4, 0, 0, 0, 0, 0, 0, 0, 0, 0, 4, 0, 0, 0, 0, 0, 105,
    ];
    assert!(rt; says(rt.alloc(), b"0001020001", "not a capture\n"));
    assert!(rt; says(rt.alloc(), &wireless, "link type 105\n"));
    assert!(rt;
        says(
            rt.alloc(),
            &wireless[..23],
            "broken at 0\nframes 0 other 0\n"
        )
    );
}
