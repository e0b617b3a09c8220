//! MVRPDUs (IEEE Std 802.1Q-2018, 11.2.3), written and read, and where they break.

ghost use Rattle.std.specs.Prelude.{◌≡◌, true};
ghost use Rattle.mvrp_codec.specs.Writing.{IsWritable};

use mvrp_codec::{DecodeErr, MvrpPdu, decode, encode};
use srp_base::{MrpEvent, Seq, Vid};
use std::alloc::Global;

/// A LeaveAll or none, and JoinMt of each of these VIDs.
fn joined(alloc: Global, leave_all: bool, numbers: &[u16]) -> Option<MvrpPdu> {
    let mut events = Vec::new(alloc);
    for number in numbers {
        events.push((MrpEvent::JoinMt, Vid::new(*number)?)).ok()?;
    }
    Some(MvrpPdu {
        leave_all,
        events: Seq::from_vec(events),
    })
}

const ONE: [u8; 12] = [0, 1, 2, 0, 1, 0, 2, 0x6c, 0, 0, 0, 0];

const FOUR: [u8; 13] = [0, 1, 2, 0, 4, 0, 5, 0x81, 0x6c, 0, 0, 0, 0];

const LEAVE_ALL: [u8; 11] = [0, 1, 2, 0x20, 0, 0, 0, 0, 0, 0, 0];

const BOTH: [u8; 12] = [0, 1, 2, 0x20, 1, 0, 5, 0x6c, 0, 0, 0, 0];

const TWO_RUNS: [u8; 17] = [0, 1, 2, 0x20, 1, 0, 5, 0x6c, 0, 2, 0, 9, 0x7e, 0, 0, 0, 0];

const SKIPPED: [u8; 20] = [
    0, 9, 1, 0, 1, 5, 0x6c, 0, 0, 1, 2, 0, 1, 0, 2, 0x6c, 0, 0, 0, 0,
];

/// Whether octets read as this.
fn reads(alloc: Global, octets: &[u8], want: &MvrpPdu) -> bool {
    octets.len() <= 1500
        && match decode(alloc, octets) {
            Ok(read) => read == *want,
            Err(_) => false,
        }
}

/// Whether it can be written.
fn can_be_written(pdu: &MvrpPdu) -> bool
    ensures { result ≡ true → IsWritable pdu.now }
{
    pdu.events.len() <= 297 && (pdu.leave_all || !pdu.events.is_empty())
}

/// Whether it is written as these octets.
fn writes(alloc: Global, pdu: &MvrpPdu, octets: &[u8]) -> bool
    requires { IsWritable pdu.now }
{
    match encode(alloc, pdu) {
        Ok(written) => written.as_slice() == octets,
        Err(_) => false,
    }
}

/// Whether a LeaveAll or none and these VIDs are written as these octets, and they read as it.
fn is_spelled(alloc: Global, leave_all: bool, numbers: &[u16], octets: &[u8]) -> bool {
    match joined(alloc, leave_all, numbers) {
        Some(pdu) => {
            can_be_written(&pdu) && writes(alloc, &pdu, octets) && reads(alloc, octets, &pdu)
        }
        None => false,
    }
}

#[test]
fn vids_are_written_and_read(rt: HostRuntime) {
    let alloc = rt.alloc();
    assert!(rt;
        is_spelled(alloc, false, &[2], &ONE)
            && is_spelled(alloc, false, &[5, 6, 7, 8], &FOUR)
            && is_spelled(alloc, true, &[], &LEAVE_ALL)
            && is_spelled(alloc, true, &[5], &BOTH)
            && is_spelled(alloc, true, &[5, 9, 10], &TWO_RUNS)
    );
}

/// Whether octets read as no LeaveAll and one VID.
fn is_vid(alloc: Global, octets: &[u8], number: u16) -> bool {
    match joined(alloc, false, &[number]) {
        Some(pdu) => reads(alloc, octets, &pdu),
        None => false,
    }
}

#[test]
fn missing_end_marks_and_an_unknown_type(rt: HostRuntime) {
    let alloc = rt.alloc();
    assert!(rt; is_vid(alloc, &ONE[..10], 2) && is_vid(alloc, &ONE[..8], 2));
    assert!(rt; is_vid(alloc, &SKIPPED, 2));
}

/// VIDs 0 and 1.
const LOWEST: [u8; 8] = [0, 1, 2, 0, 2, 0, 0, 0x7e];

/// VIDs 4,094 and 4,095.
const HIGHEST: [u8; 8] = [0, 1, 2, 0, 2, 0x0f, 0xfe, 0x7e];

#[test]
fn numbers_that_are_no_vid(rt: HostRuntime) {
    assert!(rt; is_vid(rt.alloc(), &LOWEST, 1) && is_vid(rt.alloc(), &HIGHEST, 4094));
}

/// Whether octets break at this place.
fn breaks(alloc: Global, octets: &[u8], place: u32) -> bool {
    octets.len() <= 1500 && decode(alloc, octets) == Err(DecodeErr::Malformed(place))
}

/// VID 2 with a packed octet of 216, which is too great.
const PACKED: [u8; 12] = [0, 1, 2, 0, 1, 0, 2, 216, 0, 0, 0, 0];

/// VID 2 with a LeaveAllEvent of 2, which there isn't.
const NO_EVENT: [u8; 8] = [0, 1, 2, 0x40, 1, 0, 2, 0x6c];

#[test]
fn malformed_at_a_place(rt: HostRuntime) {
    let alloc = rt.alloc();
    assert!(rt; breaks(alloc, &PACKED, 7) && breaks(alloc, &[], 0) && breaks(alloc, &NO_EVENT, 3));
}
