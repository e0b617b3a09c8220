//! PDUs of MMRP (IEEE Std 802.1Q-2018, 10.12.1), written and read, and where they break.

ghost use Rattle.std.specs.Prelude.{◌≡◌, true};
ghost use Rattle.mmrp_codec.specs.Writing.{IsWritable};

use mmrp_codec::{DecodeErr, GroupPdu, decode, encode};
use srp_base::{Mac, MrpEvent, Seq};
use std::alloc::Global;

// A LeaveAll or none, and JoinMt of each of these addresses.
fn joined(alloc: Global, leave_all: bool, numbers: &[u64]) -> Option<GroupPdu> {
    let mut events = Vec::new(alloc);
    for number in numbers {
        events.push((MrpEvent::JoinMt, Mac::new(*number)?)).ok()?;
    }
    Some(GroupPdu {
        leave_all,
        events: Seq::from_vec(events),
    })
}

const ONE: [u8; 16] = [0, 2, 6, 0, 1, 1, 0, 0x5e, 0, 0, 1, 0x6c, 0, 0, 0, 0];

const LEAVE_ALL: [u8; 22] = [
    0, 1, 1, 0x20, 0, 0, 0, 0, 2, 6, 0x20, 0, 0, 0, 0, 0, 0, 0, 0, 0, 0, 0,
];

const BOTH: [u8; 23] = [
    0, 1, 1, 0x20, 0, 0, 0, 0, 2, 6, 0x20, 1, 1, 0, 0x5e, 0, 0, 1, 0x6c, 0, 0, 0, 0,
];

// Whether octets read as this.
fn reads(alloc: Global, octets: &[u8], want: &GroupPdu) -> bool {
    octets.len() <= 1500
        && match decode(alloc, octets) {
            Ok(read) => read == *want,
            Err(_) => false,
        }
}

// Whether it can be written.
fn can_be_written(pdu: &GroupPdu) -> bool
    ensures { result ≡ true → IsWritable pdu.now }
{
    pdu.events.len() <= 164 && (pdu.leave_all || !pdu.events.is_empty())
}

// Whether it is written as these octets.
fn writes(alloc: Global, pdu: &GroupPdu, octets: &[u8]) -> bool
    requires { IsWritable pdu.now }
{
    match encode(alloc, pdu) {
        Ok(written) => written.as_slice() == octets,
        Err(_) => false,
    }
}

// Whether a LeaveAll or none and these addresses are written as these octets, and they read as it.
fn is_spelled(alloc: Global, leave_all: bool, numbers: &[u64], octets: &[u8]) -> bool {
    match joined(alloc, leave_all, numbers) {
        Some(pdu) => {
            can_be_written(&pdu) && writes(alloc, &pdu, octets) && reads(alloc, octets, &pdu)
        }
        None => false,
    }
}

#[test]
fn addresses_are_written_and_read(rt: HostRuntime) {
    let alloc = rt.alloc();
    assert!(rt;
        is_spelled(alloc, false, &[0x0100_5e00_0001], &ONE)
            && is_spelled(alloc, true, &[], &LEAVE_ALL)
            && is_spelled(alloc, true, &[0x0100_5e00_0001], &BOTH)
    );
}

// Whether octets read as no LeaveAll and JoinMt of these addresses.
fn is_read_as(alloc: Global, octets: &[u8], numbers: &[u64]) -> bool {
    match joined(alloc, false, numbers) {
        Some(pdu) => reads(alloc, octets, &pdu),
        None => false,
    }
}

// Two service requirements.
const REQUIREMENTS: [u8; 11] = [0, 1, 1, 0, 2, 0, 0x81, 0, 0, 0, 0];

// The last two addresses, in one vector.
const LAST: [u8; 16] = [
    0, 2, 6, 0, 2, 0xff, 0xff, 0xff, 0xff, 0xff, 0xfe, 0x7e, 0, 0, 0, 0,
];

// The last one, and one past it.
const PAST: [u8; 16] = [
    0, 2, 6, 0, 2, 0xff, 0xff, 0xff, 0xff, 0xff, 0xff, 0x7e, 0, 0, 0, 0,
];

#[test]
fn service_requirements_give_no_event(rt: HostRuntime) {
    assert!(rt; is_read_as(rt.alloc(), &REQUIREMENTS, &[]));
}

#[test]
fn a_vector_ends_with_the_last_address(rt: HostRuntime) {
    let alloc = rt.alloc();
    assert!(rt; is_read_as(alloc, &LAST, &[0xffff_ffff_fffe, 0xffff_ffff_ffff]));
    assert!(rt; decode(alloc, PAST.as_slice()) == Err(DecodeErr::Malformed(5)));
}
