//! MSRPDUs (IEEE Std 802.1Q-2018, 35.2.2), written and read, and where they break.

ghost use Rattle.std.specs.Prelude.{◌≡◌, true, IfOk, IfSome};
ghost use Rattle.msrp_codec.specs.Writing.{IsWritable};

use msrp_codec::{DecodeErr, MsrpContent, MsrpKey, MsrpPdu, decode, encode};
use srp_base::{
    BridgeId, Failure, ListenerKind, Mac, MrpEvent, NoMemory, Priority, Rank, Seq, StreamId, Talker,
};
use std::alloc::Global;

/// What a PDU says of one key.
type Event = (MrpEvent, MsrpKey, MsrpContent);

const STREAM: StreamId = StreamId(0x0200_0000_0001_0001);

const NEXT: StreamId = StreamId(0x0200_0000_0001_0002);

/// The Talker of a stream with this destination.
fn talker(stream: StreamId, dest: u64) -> Option<Talker>
    ensures { IfSome result (λ t. t.stream ≡ stream) }
{
    Some(Talker {
        stream,
        dest: Mac::new(dest)?,
        vid: 2,
        max_frame: 200,
        frames: 1,
        priority: Priority::new(3)?,
        rank: Rank::Normal,
        latency: 500,
    })
}

/// A LeaveAll or none, and these events.
fn said(alloc: Global, leave_all: bool, events: &[Event]) -> Result<MsrpPdu, NoMemory>
    ensures { IfOk result (λ pdu. pdu ≡ record { leave_all = leave_all; events = events.now }) }
{
    Ok(MsrpPdu {
        leave_all,
        events: Seq::from_vec(Vec::from_slice(alloc, events)?),
    })
}

const LISTENER: [u8; 21] = [
    0, 3, 8, 0, 14, 0, 1, 2, 0, 0, 0, 0, 1, 0, 1, 0x6c, 0x80, 0, 0, 0, 0,
];

const ADVERTISE: [u8; 37] = [
    0, 1, 25, 0, 30, 0, 1, 2, 0, 0, 0, 0, 1, 0, 1, 0x91, 0xe0, 0xf0, 0, 0xfe, 1, 0, 2, 0, 200, 0,
    1, 0x70, 0, 0, 1, 0xf4, 0x6c, 0, 0, 0, 0,
];

const DOMAINS: [u8; 16] = [0, 4, 4, 0, 9, 0, 2, 5, 2, 0, 2, 0x7e, 0, 0, 0, 0];

/// Whether octets read as this.
fn reads_as(alloc: Global, octets: &[u8], want: &MsrpPdu) -> bool {
    octets.len() <= 1500
        && match decode(alloc, octets) {
            Ok(read) => read == *want,
            Err(_) => false,
        }
}

/// Whether octets read as a LeaveAll or none, and these events.
fn reads(alloc: Global, octets: &[u8], leave_all: bool, events: &[Event]) -> bool {
    match said(alloc, leave_all, events) {
        Ok(want) => reads_as(alloc, octets, &want),
        Err(_) => false,
    }
}

/// Two Talkers whose StreamID carries into the high half, and whose destination into the first
/// octets.
const CARRIES: [u8; 37] = [
    0, 1, 25, 0, 30, 0, 2, 2, 0, 0, 0, 0xff, 0xff, 0xff, 0xff, 0x91, 0xe0, 0xff, 0xff, 0xff, 0xff,
    0, 2, 0, 200, 0, 1, 0x70, 0, 0, 1, 0xf4, 0x7e, 0, 0, 0, 0,
];

/// Four Listeners, the second and the fourth of which declare nothing.
const IGNORED: [u8; 22] = [
    0, 3, 8, 0, 15, 0x20, 4, 2, 0, 0, 0, 0, 1, 0, 1, 0x81, 0x6c, 0xc4, 0, 0, 0, 0,
];

const READY: Event = (
    MrpEvent::JoinMt,
    MsrpKey::Listener(STREAM),
    MsrpContent::Listener(ListenerKind::Ready),
);

/// The first and the third of those four.
const HEARD: [Event; 2] = [
    (
        MrpEvent::JoinMt,
        MsrpKey::Listener(STREAM),
        MsrpContent::Listener(ListenerKind::ReadyFailed),
    ),
    (
        MrpEvent::JoinMt,
        MsrpKey::Listener(StreamId(0x0200_0000_0001_0003)),
        MsrpContent::Listener(ListenerKind::AskingFailed),
    ),
];

const CLASSES: [Event; 2] = [
    (
        MrpEvent::JoinMt,
        MsrpKey::Domain(5),
        MsrpContent::Domain {
            priority: 2,
            vid: 2,
        },
    ),
    (
        MrpEvent::JoinMt,
        MsrpKey::Domain(6),
        MsrpContent::Domain {
            priority: 3,
            vid: 2,
        },
    ),
];

#[test]
fn listeners_and_domains_are_read(rt: HostRuntime) {
    assert!(rt; reads(rt.alloc(), &LISTENER, false, &[READY]));
    assert!(rt; reads(rt.alloc(), &IGNORED, true, &HEARD));
    assert!(rt; reads(rt.alloc(), &DOMAINS, false, &CLASSES));
}

/// What a Talker that joins is said to be.
fn joins(talker: Talker) -> Event {
    let key = MsrpKey::Talker(talker.stream);
    (MrpEvent::JoinMt, key, MsrpContent::Advertise(talker))
}

fn reads_a_talker(alloc: Global) -> Option<bool> {
    let advertised = joins(talker(STREAM, 0x91e0_f000_fe01)?);
    Some(reads(alloc, &ADVERTISE, false, &[advertised]))
}

fn reads_values_that_carry(alloc: Global) -> Option<bool> {
    let first = joins(talker(StreamId(0x0200_0000_ffff_ffff), 0x91e0_ffff_ffff)?);
    let second = joins(talker(StreamId(0x0200_0001_0000_0000), 0x91e1_0000_0000)?);
    Some(reads(alloc, &CARRIES, false, &[first, second]))
}

#[test]
fn talkers_are_read_and_values_carry(rt: HostRuntime) {
    assert!(rt; reads_a_talker(rt.alloc()) == Some(true));
    assert!(rt; reads_values_that_carry(rt.alloc()) == Some(true));
}

/// Whether octets break at this place.
fn breaks(alloc: Global, octets: &[u8], place: u32) -> bool {
    octets.len() <= 1500 && decode(alloc, octets) == Err(DecodeErr::Malformed(place))
}

/// Two Domains, of which the second would have priority 256, with a packed octet of 216.
const PAST: [u8; 12] = [0, 4, 4, 0, 9, 0, 2, 5, 255, 0, 2, 216];

#[test]
fn malformed_at_a_place(rt: HostRuntime) {
    assert!(rt; breaks(rt.alloc(), &[0, 3, 8, 0, 1], 3));
    assert!(rt; breaks(rt.alloc(), &LISTENER[..20], 19));
    assert!(rt; breaks(rt.alloc(), &PAST, 11));
}

/// Whether a PDU is written as octets that read as a LeaveAll and these events.
fn is_reread(alloc: Global, pdu: &MsrpPdu, events: &[Event]) -> bool
    requires { IsWritable pdu.now }
{
    match encode(alloc, pdu) {
        Ok(octets) => reads(alloc, octets.as_slice(), true, events),
        Err(_) => false,
    }
}

/// Whether a LeaveAll and events are read as these once they are written.
fn are_reread(alloc: Global, events: &[Event], wanted: &[Event]) -> bool
    requires { IsWritable (record { leave_all = true; events = events.now }) }
{
    match said(alloc, true, events) {
        Ok(pdu) => is_reread(alloc, &pdu, wanted),
        Err(_) => false,
    }
}

const FAILURE: Failure = Failure {
    bridge: BridgeId(3),
    code: 1,
};

/// Whether the failed Talker of a stream comes behind the advertised one of the next.
fn failed_comes_last(alloc: Global) -> Option<bool> {
    let failed = MsrpContent::Failed(talker(STREAM, 0x91e0_f000_fe01)?, FAILURE);
    let advertised = MsrpContent::Advertise(talker(NEXT, 0x91e0_f000_fe02)?);
    let one = (MrpEvent::New, MsrpKey::Talker(STREAM), failed);
    let two = (MrpEvent::JoinIn, MsrpKey::Talker(NEXT), advertised);
    Some(are_reread(alloc, &[one, two], &[two, one]))
}

#[test]
fn written_by_types(rt: HostRuntime) {
    assert!(rt; failed_comes_last(rt.alloc()) == Some(true));
}

/// Whether a PDU is written as these octets.
fn is_written(alloc: Global, pdu: &MsrpPdu, octets: &[u8]) -> bool
    requires { IsWritable pdu.now }
{
    match encode(alloc, pdu) {
        Ok(written) => written.as_slice() == octets,
        Err(_) => false,
    }
}

/// Whether a LeaveAll or none, and these events, are written as these octets.
fn writes(alloc: Global, leave_all: bool, events: &[Event], octets: &[u8]) -> bool
    requires { IsWritable (record { leave_all = leave_all; events = events.now }) }
{
    match said(alloc, leave_all, events) {
        Ok(pdu) => is_written(alloc, &pdu, octets),
        Err(_) => false,
    }
}

#[test]
fn a_listener_is_written(rt: HostRuntime) {
    assert!(rt; writes(rt.alloc(), false, &[READY], &LISTENER));
}

fn writes_a_talker(alloc: Global) -> Option<bool> {
    let content = MsrpContent::Advertise(talker(STREAM, 0x91e0_f000_fe01)?);
    let advertised = (MrpEvent::JoinMt, MsrpKey::Talker(STREAM), content);
    Some(writes(alloc, false, &[advertised], &ADVERTISE))
}

#[test]
fn a_talker_is_written(rt: HostRuntime) {
    assert!(rt; writes_a_talker(rt.alloc()) == Some(true));
}

/// A LeaveAll: a Message of each type, with a vector of no values and a FirstValue of zeros.
const LEAVE_ALL: [u8; 106] = [
    0, 1, 25, 0, 29, 0x20, 0, 0, 0, 0, 0, 0, 0, 0, 0, 0, 0, 0, 0, 0, 0, 0, 0, 0, 0, 0, 0, 0, 0, 0,
    0, 0, 0, 0, 2, 34, 0, 38, 0x20, 0, 0, 0, 0, 0, 0, 0, 0, 0, 0, 0, 0, 0, 0, 0, 0, 0, 0, 0, 0, 0,
    0, 0, 0, 0, 0, 0, 0, 0, 0, 0, 0, 0, 0, 0, 0, 0, 3, 8, 0, 12, 0x20, 0, 0, 0, 0, 0, 0, 0, 0, 0,
    0, 0, 4, 4, 0, 8, 0x20, 0, 0, 0, 0, 0, 0, 0, 0, 0,
];

#[test]
fn a_leave_all_asks_for_every_type(rt: HostRuntime) {
    assert!(rt; writes(rt.alloc(), true, &[], &LEAVE_ALL));
}

#[test]
fn keys_are_ordered(rt: HostRuntime) {
    assert!(rt; MsrpKey::Talker(STREAM) < MsrpKey::Talker(NEXT));
    assert!(rt; MsrpKey::Talker(NEXT) < MsrpKey::Listener(STREAM));
    assert!(rt; MsrpKey::Listener(NEXT) < MsrpKey::Domain(5));
}
