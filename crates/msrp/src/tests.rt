//! Bridges with two and three ports, and a station: what is registered at one port is declared at
//! the others, what is booked and what is evicted, and what the application hears.
//!
//! The calls stand behind functions without conditions, which are false where a call can't be made
//! or answers another thing, so that a test's own proof is short.

ghost use Rattle.std.specs.Prelude.{◌≡◌, ◌≤◌, ◌+◌, length, IfSome};
ghost use Rattle.attribute_propagation.specs.Ports.{IsLinkPort};

use crate::{DomainSet, MsrpSide, SrpRequest};
use msrp_codec::{DecodeErr, MsrpContent, MsrpKey};
use srp_base::{
    BridgeId, Cs, Failure, ListenerKind, Mac, Percent, PortNo, PortSetup, Priority, Rank, Rate,
    StreamId, Talker, TalkerReg,
};
use std::alloc::Global;
use std::test::Fail;
use stream_importance::Fit;

const BRIDGE: BridgeId = BridgeId(0x8000_0200_0000_0009);

const ONE: StreamId = StreamId(0x0200_0000_0001_0001);

const TWO: StreamId = StreamId(0x0200_0000_0001_0002);

// JoinMt of a Talker Advertise of stream 1: 200 octets, one frame, class A, rank 1, 500 ns; and
// with 1,500 ns.
const ADVERTISE: [u8; 37] = [
    0, 1, 25, 0, 30, 0, 1, 2, 0, 0, 0, 0, 1, 0, 1, 0x91, 0xe0, 0xf0, 0, 0xfe, 1, 0, 2, 0, 200, 0,
    1, 0x70, 0, 0, 1, 0xf4, 0x6c, 0, 0, 0, 0,
];

const ONWARDS: [u8; 37] = [
    0, 1, 25, 0, 30, 0, 1, 2, 0, 0, 0, 0, 1, 0, 1, 0x91, 0xe0, 0xf0, 0, 0xfe, 1, 0, 2, 0, 200, 0,
    1, 0x70, 0, 0, 5, 0xdc, 0x6c, 0, 0, 0, 0,
];

// The same of two frames, and one of stream 2 with rank 0.
const TOO_DEAR: [u8; 37] = [
    0, 1, 25, 0, 30, 0, 1, 2, 0, 0, 0, 0, 1, 0, 1, 0x91, 0xe0, 0xf0, 0, 0xfe, 1, 0, 2, 0, 200, 0,
    2, 0x70, 0, 0, 1, 0xf4, 0x6c, 0, 0, 0, 0,
];

const URGENT: [u8; 37] = [
    0, 1, 25, 0, 30, 0, 1, 2, 0, 0, 0, 0, 1, 0, 2, 0x91, 0xe0, 0xf0, 0, 0xfe, 1, 0, 2, 0, 200, 0,
    1, 0x60, 0, 0, 1, 0xf4, 0x6c, 0, 0, 0, 0,
];

// The same of two frames and of priority 1, which no SR class has.
const CLASSLESS: [u8; 37] = [
    0, 1, 25, 0, 30, 0, 1, 2, 0, 0, 0, 0, 1, 0, 1, 0x91, 0xe0, 0xf0, 0, 0xfe, 1, 0, 2, 0, 200, 0,
    2, 0x30, 0, 0, 1, 0xf4, 0x6c, 0, 0, 0, 0,
];

// JoinMt of the Domain values of classes B and A; and JoinMt of SRclassID 6 with priority 2.
const DOMAINS: [u8; 16] = [0, 4, 4, 0, 9, 0, 2, 5, 2, 0, 2, 0x7e, 0, 0, 0, 0];

const OTHER_DOMAIN: [u8; 16] = [0, 4, 4, 0, 9, 0, 1, 6, 2, 0, 2, 0x6c, 0, 0, 0, 0];

// JoinMt and Lv of Listener Ready of stream 1, and JoinMt of stream 2.
const READY: [u8; 21] = [
    0, 3, 8, 0, 14, 0, 1, 2, 0, 0, 0, 0, 1, 0, 1, 0x6c, 0x80, 0, 0, 0, 0,
];

const LEAVES: [u8; 21] = [
    0, 3, 8, 0, 14, 0, 1, 2, 0, 0, 0, 0, 1, 0, 1, 0xb4, 0x80, 0, 0, 0, 0,
];

const READY_TWO: [u8; 21] = [
    0, 3, 8, 0, 14, 0, 1, 2, 0, 0, 0, 0, 1, 0, 2, 0x6c, 0x80, 0, 0, 0, 0,
];

// A port of 100 Mb/s, of which class A may take this share, and which adds 1,000 ns.
fn setup(share: u64) -> Option<PortSetup>
    ensures period { IfSome result (λ s. s.period.0 ≡ 1000) }
    ensures shares { IfSome result (λ s. s.delta_a + s.delta_b ≤ 90) }
{
    let delta_a = Percent::new(share)?;
    let delta_b = Percent::new(0)?;
    Some(PortSetup {
        rate: Rate::M100,
        delta_a,
        delta_b,
        latency: 1_000,
        period: Cs(1_000),
    })
}

// Nodes with one, two and three ports. At the first two a stream of 15,488,000 bit/s fits, and no
// second one.
fn station(alloc: Global) -> Option<MsrpSide> {
    let one = setup(20)?;
    MsrpSide::new(
        alloc,
        BRIDGE,
        Cs(60),
        false,
        [one].as_slice(),
        DomainSet::Off,
    )
    .ok()
}

fn bridge(alloc: Global) -> Option<MsrpSide> {
    bridge_of(alloc, DomainSet::Off)
}

fn bridge_of(alloc: Global, domain: DomainSet) -> Option<MsrpSide> {
    let one = setup(20)?;
    let two = setup(20)?;
    MsrpSide::new(alloc, BRIDGE, Cs(60), false, [one, two].as_slice(), domain).ok()
}

fn wide_bridge(alloc: Global) -> Option<MsrpSide> {
    let one = setup(20)?;
    let two = setup(20)?;
    let three = setup(75)?;
    let setups = [one, two, three];
    MsrpSide::new(
        alloc,
        BRIDGE,
        Cs(60),
        false,
        setups.as_slice(),
        DomainSet::Off,
    )
    .ok()
}

// ---- what is declared

// The Talker of the octets above, with its frames, its rank and its latency in ns.
fn new_talker(stream: StreamId, frames: u16, rank: Rank, latency: u32) -> Option<Talker> {
    talker_of(stream, 3, frames, rank, latency)
}

fn talker_of(
    stream: StreamId,
    priority: u8,
    frames: u16,
    rank: Rank,
    latency: u32,
) -> Option<Talker> {
    Some(Talker {
        stream,
        dest: Mac::new(0x91e0_f000_fe01)?,
        vid: 2,
        max_frame: 200,
        frames,
        priority: Priority::new(priority)?,
        rank,
        latency,
    })
}

fn advertised(latency: u32) -> Option<MsrpContent> {
    let talker = new_talker(ONE, 1, Rank::Normal, latency)?;
    Some(MsrpContent::Advertise(talker))
}

fn failed(frames: u16, code: u8) -> Option<MsrpContent> {
    failed_of(3, frames, code)
}

fn failed_of(priority: u8, frames: u16, code: u8) -> Option<MsrpContent> {
    let talker = talker_of(ONE, priority, frames, Rank::Normal, 1_500)?;
    let failure = Failure {
        bridge: BRIDGE,
        code,
    };
    Some(MsrpContent::Failed(talker, failure))
}

// ---- the calls

fn link_port(side: &MsrpSide, number: u8) -> Option<PortNo>
    ensures { IfSome result (λ port. IsLinkPort port (length side.now.state.ports)) }
{
    if number == 0 || usize::from(number) > side.ports() {
        return None;
    }
    Some(PortNo(number))
}

fn receive(side: &mut MsrpSide, number: u8, octets: &[u8]) -> Option<Result<u32, DecodeErr>> {
    let port = link_port(side, number)?;
    if octets.len() > 1_500 {
        return None;
    }
    Some(side.receive(Cs(1), port, octets))
}

// Whether a PDU of one event was read, or one of as many; and whether one was malformed at this
// place.
fn receives(side: &mut MsrpSide, number: u8, octets: &[u8]) -> bool {
    receives_events(side, number, octets, 1)
}

fn receives_events(side: &mut MsrpSide, number: u8, octets: &[u8], events: u32) -> bool {
    match receive(side, number, octets) {
        Some(Ok(count)) => count == events,
        _ => false,
    }
}

fn is_malformed(side: &mut MsrpSide, number: u8, octets: &[u8], place: u32) -> bool {
    match receive(side, number, octets) {
        Some(Err(DecodeErr::Malformed(at))) => at == place,
        _ => false,
    }
}

// Whether a port was settled, and this many keys had awaited.
fn settles(side: &mut MsrpSide, number: u8, count: u32) -> bool {
    let now = side.moment;
    match link_port(side, number) {
        Some(port) => side.settle(now, port) == Ok(count),
        None => false,
    }
}

// Whether a port says these octets, and whether as many as a LeaveAll alone.
fn says(side: &mut MsrpSide, number: u8, octets: &[u8]) -> bool {
    match link_port(side, number) {
        Some(port) => match side.send(Cs(20), port) {
            Ok(Some(said)) => said.as_slice() == octets,
            _ => false,
        },
        None => false,
    }
}

fn says_leave_all(side: &mut MsrpSide, number: u8) -> bool {
    match link_port(side, number) {
        Some(port) => match side.send(Cs(20), port) {
            Ok(Some(said)) => said.as_slice().len() == 106,
            _ => false,
        },
        None => false,
    }
}

// Whether this many timers of a port were due.
fn fires(side: &mut MsrpSide, now: u64, number: u8, count: u32) -> bool {
    match link_port(side, number) {
        Some(port) => now < 1_000_000 && side.due(Cs(now), port) == Ok(count),
        None => false,
    }
}

// Whether the leave timer of a key ran, and was ended.
fn leaves(side: &mut MsrpSide, number: u8, key: MsrpKey) -> bool {
    match link_port(side, number) {
        Some(port) => side.leave_now(port, key) == Ok(true),
        None => false,
    }
}

// The other timers of a port, whatever the moment, and a loss on its link.
fn disturb(side: &mut MsrpSide, number: u8) -> bool {
    match link_port(side, number) {
        Some(port) => {
            side.leaveall_now(Cs(2), port);
            disturb_further(side, number)
        }
        None => false,
    }
}

fn disturb_further(side: &mut MsrpSide, number: u8) -> bool {
    match link_port(side, number) {
        Some(port) => {
            side.periodic_now(port);
            spoil(side, number)
        }
        None => false,
    }
}

fn spoil(side: &mut MsrpSide, number: u8) -> bool {
    match link_port(side, number) {
        Some(port) => {
            side.spoil(port);
            true
        }
        None => false,
    }
}

// Whether the clock was set.
fn clocks(side: &mut MsrpSide, now: u64) -> bool {
    now >= side.moment.0 && side.clock(Cs(now)).is_ok()
}

// Whether the side was made ready, also a second time, and then the clock set, which shows or
// doesn't.
fn clocks_ready(side: &mut MsrpSide, now: u64, shows: bool) -> bool {
    if now < side.moment.0 {
        return false;
    }
    side.clock_room().is_ok()
        && side.clock_room().is_ok()
        && side.clock_shows(Cs(now)) == shows
        && side.clock(Cs(now)).is_ok()
}

// Whether the application asked.
fn asks(side: &mut MsrpSide, request: SrpRequest) -> bool {
    side.request(request).is_ok()
}

// ---- what is seen

fn declares(side: &MsrpSide, number: u8, key: MsrpKey, content: Option<MsrpContent>) -> bool {
    match link_port(side, number) {
        Some(port) => side.participant(port).declared(key) == content,
        None => false,
    }
}

fn declares_talker(side: &MsrpSide, number: u8, content: Option<MsrpContent>) -> bool {
    declares(side, number, MsrpKey::Talker(ONE), content)
}

fn declares_listener(side: &MsrpSide, number: u8, stream: StreamId, kind: ListenerKind) -> bool {
    let content = MsrpContent::Listener(kind);
    declares(side, number, MsrpKey::Listener(stream), Some(content))
}

fn is_booked(side: &MsrpSide, number: u8, stream: StreamId, since: Option<Cs>) -> bool {
    match link_port(side, number) {
        Some(port) => side.ledger(port).booked(stream) == since,
        None => false,
    }
}

fn awaits(side: &MsrpSide, number: u8, count: usize) -> bool {
    match link_port(side, number) {
        Some(port) => side.awaiting(port) == count,
        None => false,
    }
}

fn fits(side: &MsrpSide, number: u8, stream: StreamId) -> bool {
    match link_port(side, number) {
        Some(port) => side.fit(side.moment, port, stream) == Some(Fit::Fits),
        None => false,
    }
}

fn hears(side: &MsrpSide, stream: StreamId, kind: Option<ListenerKind>) -> bool {
    side.heard(stream) == kind
}

fn is_advertised(side: &MsrpSide, stream: StreamId) -> bool {
    match side.talker(stream) {
        TalkerReg::Advertise(talker) => talker.stream == stream,
        _ => false,
    }
}

// ---- the tests

#[test]
fn a_talker_goes_onwards_and_its_listener_back(rt: HostRuntime) -> Result<(), Fail> {
    let mut side = bridge(rt.alloc()).ok_or("a bridge")?;
    assert!(rt; receives(&mut side, 1, ADVERTISE.as_slice()));
    assert!(rt; is_advertised(&side, ONE));
    assert!(rt; awaits(&side, 2, 2));
    assert!(rt; settles(&mut side, 2, 2));
    assert!(rt; declares_talker(&side, 2, advertised(1_500)));
    assert!(rt; fits(&side, 2, ONE));
    assert!(rt; receives(&mut side, 2, READY.as_slice()));
    assert!(rt; settles(&mut side, 2, 2));
    assert!(rt; is_booked(&side, 2, ONE, Some(Cs(0))));
    assert!(rt; settles(&mut side, 1, 2));
    assert!(rt; declares_talker(&side, 1, None));
    assert!(rt; declares_listener(&side, 1, ONE, ListenerKind::Ready));
    assert!(rt; says(&mut side, 1, READY.as_slice()));
    assert!(rt; says(&mut side, 2, ONWARDS.as_slice()));
    Ok(())
}

#[test]
fn a_talker_past_the_cap_fails_here(rt: HostRuntime) -> Result<(), Fail> {
    let mut side = bridge(rt.alloc()).ok_or("a bridge")?;
    assert!(rt; receives(&mut side, 1, TOO_DEAR.as_slice()));
    assert!(rt; receives(&mut side, 2, READY.as_slice()));
    assert!(rt; settles(&mut side, 2, 2));
    assert!(rt; settles(&mut side, 1, 2));
    assert!(rt; declares_talker(&side, 2, failed(2, 1)));
    assert!(rt; is_booked(&side, 2, ONE, None));
    assert!(rt; declares_listener(&side, 1, ONE, ListenerKind::AskingFailed));
    Ok(())
}

// Whether ports 2 and 3 of the wide bridge have stream 1 booked.
fn books_twice(side: &mut MsrpSide) -> bool {
    receives(side, 1, ADVERTISE.as_slice())
        && receives(side, 2, READY.as_slice())
        && receives(side, 3, READY.as_slice())
        && settles(side, 2, 2)
        && settles(side, 3, 2)
        && settles(side, 1, 2)
        && settles(side, 2, 1)
}

#[test]
fn an_emergency_stream_takes_anothers_place(rt: HostRuntime) -> Result<(), Fail> {
    let mut side = wide_bridge(rt.alloc()).ok_or("a bridge")?;
    assert!(rt; books_twice(&mut side));
    assert!(rt; declares_listener(&side, 1, ONE, ListenerKind::Ready));
    assert!(rt; clocks(&mut side, 5));
    assert!(rt; settles(&mut side, 2, 1));
    assert!(rt; receives(&mut side, 1, URGENT.as_slice()));
    assert!(rt; receives(&mut side, 2, READY_TWO.as_slice()));
    assert!(rt; settles(&mut side, 2, 2));
    assert!(rt; is_booked(&side, 2, TWO, Some(Cs(5))));
    assert!(rt; is_booked(&side, 2, ONE, None));
    assert!(rt; is_booked(&side, 3, ONE, Some(Cs(0))));
    assert!(rt; declares_talker(&side, 2, failed(1, 6)));
    assert!(rt; settles(&mut side, 1, 3));
    assert!(rt; declares_listener(&side, 1, ONE, ListenerKind::ReadyFailed));
    assert!(rt; declares_listener(&side, 1, TWO, ListenerKind::Ready));
    Ok(())
}

#[test]
fn a_side_that_is_ready_sets_its_clock(rt: HostRuntime) -> Result<(), Fail> {
    let mut side = wide_bridge(rt.alloc()).ok_or("a bridge")?;
    assert!(rt; books_twice(&mut side));
    assert!(rt; side.all_sound() && awaits(&side, 2, 0));
    assert!(rt; clocks_ready(&mut side, 5, true));
    assert!(rt; awaits(&side, 2, 1));
    assert!(rt; clocks_ready(&mut side, 6, false));
    assert!(rt; awaits(&side, 2, 1));
    Ok(())
}

#[test]
fn an_application_talks_and_listens(rt: HostRuntime) -> Result<(), Fail> {
    let mut side = station(rt.alloc()).ok_or("a station")?;
    let own = new_talker(ONE, 1, Rank::Normal, 0).ok_or("a talker")?;
    assert!(rt; asks(&mut side, SrpRequest::Talk(own)));
    assert!(rt; asks(&mut side, SrpRequest::Listen(TWO)));
    assert!(rt; side.talks(ONE) && side.listens(TWO));
    assert!(rt; receives(&mut side, 1, READY.as_slice()));
    assert!(rt; hears(&side, TWO, None));
    assert!(rt; receives(&mut side, 1, URGENT.as_slice()));
    assert!(rt; hears(&side, TWO, Some(ListenerKind::Ready)));
    assert!(rt; settles(&mut side, 1, 4));
    assert!(rt; declares_talker(&side, 1, advertised(1_000)));
    assert!(rt; is_booked(&side, 1, ONE, Some(Cs(0))));
    assert!(rt; declares_listener(&side, 1, TWO, ListenerKind::Ready));
    assert!(rt; asks(&mut side, SrpRequest::Hush(ONE)));
    assert!(rt; asks(&mut side, SrpRequest::Unlisten(TWO)));
    assert!(rt; settles(&mut side, 1, 4));
    assert!(rt; declares_talker(&side, 1, None));
    assert!(rt; declares(&side, 1, MsrpKey::Listener(TWO), None));
    assert!(rt; is_booked(&side, 1, ONE, None));
    assert!(rt; hears(&side, TWO, None));
    Ok(())
}

#[test]
fn timers_act_and_faults_do_not(rt: HostRuntime) -> Result<(), Fail> {
    let mut side = bridge(rt.alloc()).ok_or("a bridge")?;
    assert!(rt; is_malformed(&mut side, 2, &READY[..20], 19));
    assert!(rt; side.still() && !side.is_busy(Cs(1)));
    assert!(rt; receives(&mut side, 2, READY.as_slice()));
    assert!(rt; !side.still() && side.is_busy(Cs(1)));
    assert!(rt; receives(&mut side, 2, LEAVES.as_slice()));
    assert!(rt; settles(&mut side, 1, 2));
    assert!(rt; fires(&mut side, 60, 2, 0));
    assert!(rt; fires(&mut side, 61, 2, 1));
    assert!(rt; awaits(&side, 1, 2));
    assert!(rt; disturb(&mut side, 1));
    assert!(rt; says_leave_all(&mut side, 1));
    Ok(())
}

#[test]
fn a_key_leaves_at_once(rt: HostRuntime) -> Result<(), Fail> {
    let mut side = bridge(rt.alloc()).ok_or("a bridge")?;
    assert!(rt; receives(&mut side, 2, READY.as_slice()));
    assert!(rt; receives(&mut side, 2, LEAVES.as_slice()));
    assert!(rt; settles(&mut side, 1, 2));
    assert!(rt; leaves(&mut side, 2, MsrpKey::Listener(ONE)));
    assert!(rt; awaits(&side, 1, 2));
    Ok(())
}

// ---- SRP domains

// Whether port 2 of a bridge declares stream 1 so, once its Talker came in at port 1 and a Listener
// at port 2.
fn fails_at_two(
    alloc: Global,
    domain: DomainSet,
    octets: &[u8],
    said: Option<MsrpContent>,
) -> bool {
    match bridge_of(alloc, domain) {
        Some(side) => {
            let mut side = side;
            receives(&mut side, 1, octets)
                && receives(&mut side, 2, READY.as_slice())
                && settles(&mut side, 2, 2)
                && declares_talker(&side, 2, said)
                && is_booked(&side, 2, ONE, None)
        }
        None => false,
    }
}

#[test]
fn a_boundary_fails_a_talker_behind_check_and_before_the_fit(rt: HostRuntime) {
    let alloc = rt.alloc();
    assert!(rt; fails_at_two(alloc, DomainSet::Both, ADVERTISE.as_slice(), failed(1, 8)));
    assert!(rt;
        fails_at_two(
            alloc,
            DomainSet::Nothing,
            ADVERTISE.as_slice(),
            failed(1, 8)
        )
    );
    assert!(rt; fails_at_two(alloc, DomainSet::Both, TOO_DEAR.as_slice(), failed(2, 8)));
    assert!(rt;
        fails_at_two(
            alloc,
            DomainSet::Both,
            CLASSLESS.as_slice(),
            failed_of(1, 2, 13)
        )
    );
    assert!(rt; fails_at_two(alloc, DomainSet::Off, TOO_DEAR.as_slice(), failed(2, 1)));
}

fn declares_domain(side: &MsrpSide, number: u8, id: u8, priority: Option<u8>) -> bool {
    let content = priority.map(|priority| MsrpContent::Domain { priority, vid: 2 });
    declares(side, number, MsrpKey::Domain(id), content)
}

#[test]
fn domains_are_declared_for_good_and_not_passed_on(rt: HostRuntime) -> Result<(), Fail> {
    let mut side = bridge_of(rt.alloc(), DomainSet::OnlyA).ok_or("a bridge")?;
    assert!(rt; declares_domain(&side, 1, 6, Some(3)) && declares_domain(&side, 2, 6, Some(3)));
    assert!(rt; receives_events(&mut side, 1, DOMAINS.as_slice(), 2));
    assert!(rt; awaits(&side, 1, 0) && awaits(&side, 2, 0));
    assert!(rt; settles(&mut side, 2, 0));
    assert!(rt; declares_domain(&side, 2, 6, Some(3)) && declares_domain(&side, 2, 5, None));
    Ok(())
}

// Whether a stream goes from port 1 to port 2 of a bridge, is settled at both, and fails at port 2
// as a boundary.
fn stands_at_a_boundary(side: &mut MsrpSide) -> bool {
    receives(side, 1, ADVERTISE.as_slice())
        && receives(side, 2, READY.as_slice())
        && settles(side, 1, 2)
        && settles(side, 2, 2)
        && declares_talker(side, 2, failed(1, 8))
}

#[test]
fn a_domain_that_comes_makes_known_streams_await_there(rt: HostRuntime) -> Result<(), Fail> {
    let mut side = bridge_of(rt.alloc(), DomainSet::Both).ok_or("a bridge")?;
    assert!(rt; stands_at_a_boundary(&mut side));
    assert!(rt; receives(&mut side, 2, OTHER_DOMAIN.as_slice()));
    assert!(rt; awaits(&side, 1, 0) && awaits(&side, 2, 2));
    assert!(rt; settles(&mut side, 2, 2));
    assert!(rt; declares_talker(&side, 2, failed(1, 8)));
    assert!(rt; is_booked(&side, 2, ONE, None));
    assert!(rt; receives_events(&mut side, 2, DOMAINS.as_slice(), 2));
    assert!(rt; awaits(&side, 1, 0) && awaits(&side, 2, 2));
    assert!(rt; settles(&mut side, 2, 2));
    assert!(rt; declares_talker(&side, 2, advertised(1_500)));
    assert!(rt; is_booked(&side, 2, ONE, Some(Cs(0))));
    Ok(())
}

#[test]
fn a_domain_is_nothing_where_domains_are_off(rt: HostRuntime) -> Result<(), Fail> {
    let mut side = bridge(rt.alloc()).ok_or("a bridge")?;
    assert!(rt; receives(&mut side, 1, ADVERTISE.as_slice()));
    assert!(rt; settles(&mut side, 2, 2));
    assert!(rt; receives_events(&mut side, 2, DOMAINS.as_slice(), 2));
    assert!(rt; awaits(&side, 2, 0) && declares_domain(&side, 2, 6, None));
    Ok(())
}
