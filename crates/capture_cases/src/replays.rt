//! Small captures, made frame by frame, and what is printed of them.

use capture_file::{ByteOrder, LinkType, Record, put_head, put_record};
use mrp_frames::put_frame;
use mrpdu_codec::AppForm;
use replay_words::replayed_text;
use srp_base::{Mac, NoMemory};
use std::alloc::Global;

/// A frame: its moment in cs, the end that sent it, its application and its PDU.
type Frame = (u16, u8, AppForm, &'static [u8]);

const HEAD: &[u8] = b"rate = 100\ndelta_a = 75\ndelta_b = 0\n=== capture\n";

// LeaveAll without an attribute, and JoinMt, JoinIn and Lv of VLAN 2, each as a PDU of MVRP.
const LEAVE_ALL: &[u8] = &[0, 1, 2, 0x20, 0, 0, 0, 0, 0, 0, 0];

const JOIN_MT: &[u8] = &[0, 1, 2, 0, 1, 0, 2, 0x6c, 0, 0, 0, 0];

const JOIN_IN: &[u8] = &[0, 1, 2, 0, 1, 0, 2, 0x24, 0, 0, 0, 0];

// JoinMt of a Talker Advertise: stream 1 of 02:00:00:00:00:01, to 91:e0:f0:00:0e:80 in VLAN 2, one
// frame of 224 octets an interval, of priority 3 and no emergency.
const ADVERTISE: &[u8] = &[
    0, 1, 25, 0, 30, 0, 1, 2, 0, 0, 0, 0, 1, 0, 1, 0x91, 0xe0, 0xf0, 0, 0x0e, 0x80, 0, 2, 0, 224,
    0, 1, 0x70, 0, 0, 0, 0, 0x6c, 0, 0, 0, 0,
];

// JoinMt of a Talker Failed of that stream: the bridge 8000:020000000002 refuses it with code 1.
const FAILED: &[u8] = &[
    0, 2, 34, 0, 39, 0, 1, 2, 0, 0, 0, 0, 1, 0, 1, 0x91, 0xe0, 0xf0, 0, 0x0e, 0x80, 0, 2, 0, 224,
    0, 1, 0x70, 0, 0, 0, 0, 0x80, 0, 2, 0, 0, 0, 0, 2, 1, 0x6c, 0, 0, 0, 0,
];

// JoinMt of the Talker Advertise and Lv of the Talker Failed, in one PDU.
const FAILS_NO_MORE: &[u8] = &[
    0, 1, 25, 0, 30, 0, 1, 2, 0, 0, 0, 0, 1, 0, 1, 0x91, 0xe0, 0xf0, 0, 0x0e, 0x80, 0, 2, 0, 224,
    0, 1, 0x70, 0, 0, 0, 0, 0x6c, 0, 0, 2, 34, 0, 39, 0, 1, 2, 0, 0, 0, 0, 1, 0, 1, 0x91, 0xe0,
    0xf0, 0, 0x0e, 0x80, 0, 2, 0, 224, 0, 1, 0x70, 0, 0, 0, 0, 0x80, 0, 2, 0, 0, 0, 0, 2, 1, 0xb4,
    0, 0, 0, 0,
];

// JoinMt of a Talker Advertise of that stream with two frames an interval, and behind it Lv of the
// one with one, in one PDU.
const ASKS_FOR_MORE: &[u8] = &[
    0, 1, 25, 0, 58, 0, 1, 2, 0, 0, 0, 0, 1, 0, 1, 0x91, 0xe0, 0xf0, 0, 0x0e, 0x80, 0, 2, 0, 224,
    0, 2, 0x70, 0, 0, 0, 0, 0x6c, 0, 1, 2, 0, 0, 0, 0, 1, 0, 1, 0x91, 0xe0, 0xf0, 0, 0x0e, 0x80, 0,
    2, 0, 224, 0, 1, 0x70, 0, 0, 0, 0, 0xb4, 0, 0, 0, 0,
];

// JoinMt of a Domain: class 6 of priority 3 in VLAN 2; and one PDU that moves it to VLAN 7.
const DOMAIN: &[u8] = &[0, 4, 4, 0, 9, 0, 1, 6, 3, 0, 2, 0x6c, 0, 0, 0, 0];

const DOMAIN_MOVES: &[u8] = &[
    0, 4, 4, 0, 16, 0, 1, 6, 3, 0, 7, 0x6c, 0, 1, 6, 3, 0, 2, 0xb4, 0, 0, 0, 0,
];

// JoinMt and Lv of a Listener Ready of that stream.
const READY: &[u8] = &[
    0, 3, 8, 0, 14, 0, 1, 2, 0, 0, 0, 0, 1, 0, 1, 0x6c, 0x80, 0, 0, 0, 0,
];

const READY_NO_MORE: &[u8] = &[
    0, 3, 8, 0, 14, 0, 1, 2, 0, 0, 0, 0, 1, 0, 1, 0xb4, 0x80, 0, 0, 0, 0,
];

// Puts a frame at the end of a capture.
fn put_one(alloc: Global, out: &mut Vec<u8>, frame: &Frame) -> Result<(), NoMemory> {
    let Some(address) = Mac::new(0x0200_0000_0000 + u64::from(frame.1)) else {
        return Ok(());
    };
    let mut octets = Vec::new(alloc);
    put_frame(&mut octets, frame.2, address, frame.3)?;
    if 1_000 < octets.len() {
        return Ok(());
    }
    let record = Record {
        link: LinkType::Ethernet,
        at_ns: u64::from(frame.0) * 10_000_000,
        whole: octets.len() as u32,
        octets: octets.as_slice(),
    };
    put_record(out, ByteOrder::Big, &record)
}

// A file to be replayed that has these frames.
fn file_of(alloc: Global, frames: &[Frame]) -> Result<Vec<u8>, NoMemory> {
    let mut file = Vec::new(alloc);
    file.extend_from_slice(HEAD)?;
    put_head(&mut file, ByteOrder::Big, LinkType::Ethernet)?;
    for frame in frames {
        put_one(alloc, &mut file, frame)?;
    }
    Ok(file)
}

// Whether this is printed of octets.
fn prints(alloc: Global, file: &[u8], text: &str) -> bool {
    if 100_000 < file.len() {
        return false;
    }
    match replayed_text(alloc, file) {
        Ok(printed) => printed.as_str() == text,
        Err(_) => false,
    }
}

// Whether this is printed of these frames.
fn shows(alloc: Global, frames: &[Frame], text: &str) -> bool {
    match file_of(alloc, frames) {
        Ok(file) => prints(alloc, file.as_slice(), text),
        Err(_) => false,
    }
}

#[test]
fn pdus_that_cross_and_agree_are_no_fault(rt: HostRuntime) {
    let frames = [
        (100, 1, AppForm::Mvrp, JOIN_MT),
        (100, 2, AppForm::Mvrp, JOIN_MT),
    ];
    let text = "1.01 a>b vlan 2 IN\n1.01 b>a vlan 2 IN\nowed 0\nbroken 0\nframes 2 other 0\n";
    assert!(rt; shows(rt.alloc(), &frames, text));
}

#[test]
fn an_answer_within_one_cs_is_no_fault(rt: HostRuntime) {
    let frames = [
        (50, 2, AppForm::Mvrp, LEAVE_ALL),
        (100, 1, AppForm::Mvrp, JOIN_IN),
        (100, 2, AppForm::Mvrp, JOIN_IN),
    ];
    let text = "1.01 b>a vlan 2 IN\n1.01 a>b vlan 2 IN\nowed 0\nbroken 0\nframes 3 other 0\n";
    assert!(rt; shows(rt.alloc(), &frames, text));
}

#[test]
fn a_lost_pdu_breaks_the_word_on_it(rt: HostRuntime) {
    let frames = [
        (50, 1, AppForm::Mvrp, LEAVE_ALL),
        (102, 2, AppForm::Mvrp, JOIN_IN),
    ];
    let text = "1.03 b>a vlan 2 IN\n1.02 b says joinin vlan 2, none stands\nowed 0\nbroken 1\n\
                frames 2 other 0\n";
    assert!(rt; shows(rt.alloc(), &frames, text));
}

#[test]
fn what_is_not_said_anew_is_let_go_at_its_moment(rt: HostRuntime) {
    let frames = [
        (100, 1, AppForm::Mvrp, JOIN_MT),
        (200, 2, AppForm::Mvrp, LEAVE_ALL),
        (760, 1, AppForm::Mvrp, JOIN_MT),
    ];
    let text = "1.01 a>b vlan 2 IN\n2.00 a>b vlan 2 LV until 2.60\n2.00 a owes vlan 2 until 2.60\n\
                2.60 a>b vlan 2 MT\n2.60 a let vlan 2 go\n7.61 a>b vlan 2 IN\nowed 1\nbroken 0\n\
                frames 3 other 0\n";
    assert!(rt; shows(rt.alloc(), &frames, text));
}

#[test]
fn a_booking_follows_and_is_dropped(rt: HostRuntime) {
    let frames = [
        (100, 1, AppForm::Msrp, ADVERTISE),
        (102, 2, AppForm::Msrp, READY),
        (200, 2, AppForm::Msrp, READY_NO_MORE),
        (400, 1, AppForm::Msrp, ADVERTISE),
    ];
    let text = "1.01 a>b talker 0200000000010001 IN advertise dest 91e0f0000e80 vid 2 octets 224 \
                frames 1 priority 3 rank 1 latency 0\n1.03 b>a listener 0200000000010001 IN ready\n\
                1.03 a>b booked 0200000000010001 A slope 17024000\n\
                2.01 b>a listener 0200000000010001 LV until 2.61\n\
                2.61 b>a listener 0200000000010001 MT\n2.61 a>b dropped 0200000000010001\n\
                owed 0\nbroken 0\nframes 4 other 0\n";
    assert!(rt; shows(rt.alloc(), &frames, text));
}

#[test]
fn a_talker_that_fails_no_more_stands(rt: HostRuntime) {
    let frames = [
        (100, 1, AppForm::Msrp, FAILED),
        (200, 1, AppForm::Msrp, FAILS_NO_MORE),
    ];
    let text = "1.01 a>b talker 0200000000010001 IN failed bridge 8000020000000002 code 1 dest \
                91e0f0000e80 vid 2 octets 224 frames 1 priority 3 rank 1 latency 0\n\
                2.01 a>b talker 0200000000010001 IN advertise dest 91e0f0000e80 vid 2 octets 224 \
                frames 1 priority 3 rank 1 latency 0\nowed 0\nbroken 0\nframes 2 other 0\n";
    assert!(rt; shows(rt.alloc(), &frames, text));
}

#[test]
fn a_talker_that_asks_for_more_stands(rt: HostRuntime) {
    let frames = [
        (100, 1, AppForm::Msrp, ADVERTISE),
        (200, 1, AppForm::Msrp, ASKS_FOR_MORE),
    ];
    let text = "1.01 a>b talker 0200000000010001 IN advertise dest 91e0f0000e80 vid 2 octets 224 \
                frames 1 priority 3 rank 1 latency 0\n\
                2.01 a>b talker 0200000000010001 IN advertise dest 91e0f0000e80 vid 2 octets 224 \
                frames 2 priority 3 rank 1 latency 0\nowed 0\nbroken 0\nframes 2 other 0\n";
    assert!(rt; shows(rt.alloc(), &frames, text));
}

#[test]
fn a_domain_that_moves_stands(rt: HostRuntime) {
    let frames = [
        (100, 1, AppForm::Msrp, DOMAIN),
        (200, 1, AppForm::Msrp, DOMAIN_MOVES),
    ];
    let text = "1.01 a>b domain 6 IN priority 3 vid 2\n2.01 a>b domain 6 IN priority 3 vid 7\n\
                owed 0\nbroken 0\nframes 2 other 0\n";
    assert!(rt; shows(rt.alloc(), &frames, text));
}
