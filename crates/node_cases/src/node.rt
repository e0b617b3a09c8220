//! A station declares VID 10, and what it says goes through a bridge of two ports; a station talks
//! a stream, and another listens; a PDU is lost, another comes twice, and the timers of a port
//! that is spoilt are due; and one is forged.
//!
//! The calls stand in functions of their own without contracts, each of which asks first whether
//! the node has the port, so that a test's own proof is short.

ghost use Rattle.std.specs.Prelude.{◌≡◌, ◌≤◌, ◌+◌, true, IfSome};
ghost use Rattle.attribute_propagation.specs.Ports.{IsLinkPort};
ghost use Rattle.node_core.specs.State.{ports_of};

use msrp::DomainSet;
use msrp_codec::{MsrpContent, MsrpKey};
use node_core::PortStep::{Due, LeaveAllNow, LeaveNow, PeriodicNow, Send, Settle, Work};
use node_core::StepReply::{Discarded, Fired, Nothing, Received, Sent, Settled, Silent, Taken};
use node_core::{AppRequest, Node, NodeEvent, NodeKey, PortStep, StepReply, Wire};
use registrar::Registrar;
use srp_base::{
    App, BridgeId, Class, Cs, ListenerKind, Mac, NoMemory, Percent, PortNo, PortSetup, Priority,
    Rank, Rate, Seq, StreamId, Talker, TalkerReg, Vid,
};
use std::alloc::Global;
use stream_importance::Fit;
use tree_topology::NodeKind;

const ONE: PortNo = PortNo(1);

const TWO: PortNo = PortNo(2);

// JoinMt of VID 10, Lv of it, and a PDU whose attribute length isn't that of a VID.
const JOIN: [u8; 12] = [0, 1, 2, 0, 1, 0, 10, 0x6c, 0, 0, 0, 0];

const LEAVE: [u8; 12] = [0, 1, 2, 0, 1, 0, 10, 0xb4, 0, 0, 0, 0];

const BROKEN: [u8; 3] = [0, 1, 3];

fn setup(period: u64) -> Option<PortSetup>
    ensures period { IfSome result (λ s. s.period.0 ≡ period) }
    ensures shares { IfSome result (λ s. s.delta_a + s.delta_b ≤ 90) }
{
    let delta_a = Percent::new(75)?;
    let delta_b = Percent::new(0)?;
    Some(PortSetup {
        rate: Rate::M100,
        delta_a,
        delta_b,
        latency: 0,
        period: Cs(period),
    })
}

// A station of one link port, whose LeaveAll timer is due at 1,008.
fn new_station(alloc: Global) -> Option<Node> {
    let ports = [setup(1_008)?];
    let (kind, id) = (NodeKind::Station, BridgeId(17));
    Node::new(
        alloc,
        kind,
        id,
        Cs(60),
        false,
        ports.as_slice(),
        DomainSet::Off,
    )
    .ok()
}

// A bridge of two link ports, whose LeaveAll timers are due at 3 and at 1,015.
fn new_bridge(alloc: Global) -> Option<Node> {
    let ports = [setup(3)?, setup(1_015)?];
    let (kind, id) = (NodeKind::Bridge, BridgeId(18));
    Node::new(
        alloc,
        kind,
        id,
        Cs(60),
        false,
        ports.as_slice(),
        DomainSet::Off,
    )
    .ok()
}

fn has(node: &Node, port: PortNo) -> bool
    ensures { result ≡ true → IsLinkPort port (ports_of node.now.state) }
{
    1 <= port.0 && port.0 <= node.ports()
}

// What the application of a station is answered that asks for this; None at a bridge.
fn asked(node: &mut Node, request: AppRequest) -> Result<Option<StepReply>, NoMemory> {
    match node.kind() {
        NodeKind::Station => Ok(Some(node.step(NodeEvent::Request(request))?)),
        NodeKind::Bridge => Ok(None),
    }
}

// The same, at a second try where memory ran out: `tools/memory` refuses each growth of a test in
// turn.
fn asked_again(node: &mut Node, request: &AppRequest) -> Result<Option<StepReply>, NoMemory> {
    match asked(node, *request) {
        Ok(reply) => Ok(reply),
        Err(_) => asked(node, *request),
    }
}

// Whether it may ask for this, and it is taken.
fn asks(node: &mut Node, request: AppRequest) -> bool {
    asked_again(node, &request) == Ok(Some(Taken))
}

// What a step of a link port answers; None where the port isn't there.
fn answer(node: &mut Node, port: PortNo, step: PortStep) -> Result<Option<StepReply>, NoMemory> {
    if !has(node, port) {
        return Ok(None);
    }
    Ok(Some(node.step(NodeEvent::Port(port, step))?))
}

// The same, at a second try where memory ran out.
fn again(node: &mut Node, port: PortNo, step: &PortStep) -> Result<Option<StepReply>, NoMemory> {
    match answer(node, port, *step) {
        Ok(reply) => Ok(reply),
        Err(_) => answer(node, port, *step),
    }
}

// Whether a step of a link port has this answer.
fn has_answer(node: &mut Node, port: PortNo, step: PortStep, reply: StepReply) -> bool {
    again(node, port, &step) == Ok(Some(reply))
}

// Whether these steps of a link port have these answers.
fn answers(node: &mut Node, port: PortNo, steps: &[(PortStep, StepReply)]) -> bool {
    for (step, reply) in steps {
        if !has_answer(node, port, *step, *reply) {
            return false;
        }
    }
    true
}

// One PDU of MVRP with these octets.
fn pdu(alloc: Global, octets: &[u8]) -> Result<Seq<Wire>, NoMemory> {
    let octets = Seq::from_vec(Vec::from_slice(alloc, octets)?);
    let mut wires = Seq::new(alloc);
    wires.push(Wire {
        app: App::Mvrp,
        octets,
    })?;
    Ok(wires)
}

// Whether these PDUs came in at a link port, at a second try where memory ran out.
fn comes_in(node: &mut Node, port: PortNo, wires: Seq<Wire>) -> bool {
    if !has(node, port) || wires.as_slice().iter().any(|wire| 1500 < wire.octets.len()) {
        return false;
    }
    match node.put_in(port, wires) {
        Ok(()) => true,
        Err((_, wires)) => node.put_in(port, wires).is_ok(),
    }
}

// Whether one PDU of MVRP with these octets came in at port 1.
fn hears_pdu(alloc: Global, node: &mut Node, octets: &[u8]) -> bool {
    match pdu(alloc, octets) {
        Ok(wires) => comes_in(node, ONE, wires),
        Err(_) => false,
    }
}

// Whether what waits to go out at a link port came in at one of another node.
fn carry(from: &mut Node, out: PortNo, to: &mut Node, into: PortNo) -> bool {
    if !has(from, out) {
        return false;
    }
    let wires = from.take_out(out);
    comes_in(to, into, wires)
}

// Whether one PDU with these octets waited to go out at a link port; it is taken out.
fn says(node: &mut Node, port: PortNo, octets: &[u8]) -> bool {
    if !has(node, port) {
        return false;
    }
    let wires = node.take_out(port);
    match wires.as_slice() {
        [wire] => wire.octets.as_slice() == octets,
        _ => false,
    }
}

// Whether so many PDUs wait at a link port, the front one of this application, and what the
// registrar of a VID is.
fn shows(
    node: &Node,
    port: PortNo,
    count: usize,
    app: Option<App>,
    (vid, registrar): (Vid, Registrar),
) -> bool {
    has(node, port)
        && node.pending_pdus(port) == count
        && node.app_at(port, 0) == app
        && node.registrar(port, NodeKey::Vlan(vid)) == registrar
}

// What waits to go out at a link port is taken out and put back; false where the port isn't there.
fn puts_back(node: &mut Node, port: PortNo) -> bool {
    if !has(node, port) {
        return false;
    }
    let wires = node.take_out(port);
    node.put_back(port, wires);
    true
}

// Whether the second PDU in a link port's inbox is lost, and whether the first comes twice.
fn loses(node: &mut Node, port: PortNo) -> bool {
    has(node, port) && node.lose(port, 1)
}

fn repeats(node: &mut Node, port: PortNo) -> bool {
    has(node, port) && node.repeat(port, 0).is_ok_and(|repeated| repeated)
}

// MVRP's participant at a link port isn't sound any more.
fn spoil(node: &mut Node, port: PortNo) {
    if has(node, port) {
        node.spoil(port, App::Mvrp);
    }
}

// Whether MVRP's participant at a link port is sound or not, and MSRP's.
fn is_sound(node: &Node, port: PortNo, mvrp: bool, msrp: bool) -> bool {
    has(node, port) && node.sound(port, App::Mvrp) == mvrp && node.sound(port, App::Msrp) == msrp
}

// Whether a link port has all kinds of jobs to do, for one PDU.
fn has_jobs(node: &Node, port: PortNo) -> bool {
    let all = [Work, Due, Settle, Send(App::Mvrp), Send(App::Msrp)];
    if !has(node, port) {
        return false;
    }
    match node.jobs(port) {
        Ok(jobs) => jobs.as_slice() == all.as_slice(),
        Err(_) => false,
    }
}

// Whether these are the attributes that are registered at a link port.
fn are_keys(node: &Node, port: PortNo, keys: &[NodeKey]) -> Result<bool, NoMemory> {
    if !has(node, port) {
        return Ok(false);
    }
    Ok(node.keys(port)?.as_slice() == keys)
}

// The same, at a second try where memory ran out.
fn has_keys(node: &Node, port: PortNo, keys: &[NodeKey]) -> bool {
    match are_keys(node, port, keys) {
        Ok(are) => are,
        Err(_) => are_keys(node, port, keys) == Ok(true),
    }
}

// The clock goes on by 1 cs; whether it shows this moment afterwards.
fn steps_to(node: &mut Node, moment: u64) -> bool {
    if 1_000_000 < node.now().0 {
        return false;
    }
    node.step(NodeEvent::Clock).is_ok() && node.now() == Cs(moment)
}

// It goes on with its memory taken before.
fn steps_with_room_to(node: &mut Node, moment: u64) -> bool {
    if 1_000_000 < node.now().0 || node.clock_room().is_err() {
        return false;
    }
    node.step(NodeEvent::Clock).ok() == Some(Taken) && node.now() == Cs(moment)
}

// Whether port 1 of a node makes these steps, and what it says comes in at port 1 of another.
fn says_to(from: &mut Node, steps: &[(PortStep, StepReply)], to: &mut Node) -> bool {
    answers(from, ONE, steps) && carry(from, ONE, to, ONE)
}

// ---- a VID that a station declares

// The steps in which a station says that it declares a VID, and in which a port of a bridge does.
fn declaring() -> [(PortStep, StepReply); 3] {
    [
        (Settle, Settled(1)),
        (Send(App::Msrp), Silent),
        (Send(App::Mvrp), Sent(12)),
    ]
}

fn passing_on() -> [(PortStep, StepReply); 2] {
    [(Settle, Settled(1)), (Send(App::Mvrp), Sent(12))]
}

// Whether this is the station of one port, and nothing is pending in it.
fn is_new(station: &Node) -> bool {
    station.ports() == 1 && station.bridge() == BridgeId(17) && station.still()
}

// Whether its application declares a VID.
fn declares(station: &mut Node, vid: Vid) -> bool {
    asks(station, AppRequest::Declare(vid)) && station.declares(vid)
}

// Whether what it says of the VID waits at port 1 of a bridge.
fn is_carried(station: &mut Node, bridge: &mut Node, vid: Vid) -> bool {
    says_to(station, declaring().as_slice(), bridge)
        && shows(bridge, ONE, 1, Some(App::Mvrp), (vid, Registrar::Empty))
}

// Whether the VID is registered there, once the PDU is worked on, and nothing else.
fn is_registered(bridge: &mut Node, vid: Vid) -> bool {
    has_answer(bridge, ONE, Work, Received(1))
        && shows(bridge, ONE, 0, None, (vid, Registrar::Held))
        && has_keys(bridge, ONE, [NodeKey::Vlan(vid)].as_slice())
}

// Whether one VID awaits at port 2, and what is said of it there are these octets.
fn says_at_two(bridge: &mut Node, octets: &[u8]) -> bool {
    answers(bridge, TWO, passing_on().as_slice())
        && puts_back(bridge, TWO)
        && says(bridge, TWO, octets)
}

// Whether a bridge hears of the VID at one port and says it at the other.
fn goes_through(station: &mut Node, bridge: &mut Node, vid: Vid) -> bool {
    is_new(station)
        && declares(station, vid)
        && is_carried(station, bridge, vid)
        && is_registered(bridge, vid)
        && says_at_two(bridge, &JOIN)
}

// Who owns a node does nothing else, and drops it by a call, so that his proof is short.
fn goes_through_new(alloc: Global) -> bool {
    let mut station = new_station(alloc);
    let mut bridge = new_bridge(alloc);
    let gone = match (&mut station, &mut bridge, Vid::new(10)) {
        (Some(station), Some(bridge), Some(vid)) => goes_through(station, bridge, vid),
        _ => false,
    };
    drop(station);
    drop(bridge);
    gone
}

// ---- a VID that a LeaveAll leaves

// The steps at port 1 of a bridge before the LeaveAll timers of both applications are due, and
// then.
fn working() -> [(PortStep, StepReply); 3] {
    [(Work, Received(1)), (Work, Nothing), (Due, Fired(0))]
}

fn leaving_all() -> [(PortStep, StepReply); 2] {
    [(Due, Fired(2)), (Send(App::Mvrp), Sent(11))]
}

// Whether a malformed PDU that comes in at port 1 is discarded.
fn discards(alloc: Global, bridge: &mut Node) -> bool {
    hears_pdu(alloc, bridge, &BROKEN) && has_answer(bridge, ONE, Work, Discarded(2))
}

// Whether a PDU comes in there twice and is lost once.
fn comes_once(alloc: Global, bridge: &mut Node) -> bool {
    hears_pdu(alloc, bridge, &JOIN) && repeats(bridge, ONE) && loses(bridge, ONE)
}

// Whether that PDU is worked on, and its VID is said at port 2.
fn is_worked_on(bridge: &mut Node) -> bool {
    has_jobs(bridge, ONE)
        && bridge.is_busy()
        && answers(bridge, ONE, working().as_slice())
        && says_at_two(bridge, &JOIN)
}

// Whether MVRP at port 1 isn't sound once it is spoilt, and MSRP is.
fn is_spoilt(bridge: &mut Node) -> bool {
    spoil(bridge, ONE);
    is_sound(bridge, ONE, false, true) && !bridge.all_sound()
}

// Whether a LeaveAll of both applications is due at port 1 after 3 cs, which makes it sound.
fn leaves_all(bridge: &mut Node) -> bool {
    steps_to(bridge, 1)
        && steps_with_room_to(bridge, 2)
        && steps_to(bridge, 3)
        && answers(bridge, ONE, leaving_all().as_slice())
        && is_sound(bridge, ONE, true, true)
}

// Whether a VID that was leaving at port 1 has left, and is withdrawn at port 2.
fn leaves(bridge: &mut Node, vid: Vid) -> bool {
    has_answer(bridge, ONE, LeaveNow(NodeKey::Vlan(vid)), Fired(1))
        && has_answer(bridge, ONE, LeaveNow(NodeKey::Vlan(vid)), Fired(0))
        && says_at_two(bridge, &LEAVE)
}

// Whether a VID comes in once after a malformed PDU, and leaves where nobody says it again after
// the LeaveAll.
fn comes_at(alloc: Global, bridge: &mut Node) -> bool {
    discards(alloc, bridge) && comes_once(alloc, bridge) && is_worked_on(bridge)
}

fn leaves_at(bridge: &mut Node, vid: Vid) -> bool {
    is_spoilt(bridge) && leaves_all(bridge) && leaves(bridge, vid)
}

fn leaves_new(alloc: Global) -> bool {
    let mut bridge = new_bridge(alloc);
    let left = match (&mut bridge, Vid::new(10)) {
        (Some(bridge), Some(vid)) => comes_at(alloc, bridge) && leaves_at(bridge, vid),
        _ => false,
    };
    drop(bridge);
    left
}

// ---- a PDU that no neighbour sent

// Whether a PDU of MVRP with these octets came to stand at an index in the inbox of port 1; None
// where memory ran out.
fn is_forged(alloc: Global, node: &mut Node, index: u32, octets: &[u8]) -> Option<bool> {
    if !has(node, ONE) || 1500 < octets.len() {
        return None;
    }
    let octets = Seq::from_vec(Vec::from_slice(alloc, octets).ok()?);
    let app = App::Mvrp;
    node.forge(ONE, index, Wire { app, octets }).ok()
}

// Whether none comes to stand past those that wait.
fn misses(alloc: Global, bridge: &mut Node) -> bool {
    is_forged(alloc, bridge, 1, &LEAVE) == Some(false)
}

// Whether a malformed one comes to stand before a PDU that waits, and is taken before it.
fn is_taken_first(alloc: Global, bridge: &mut Node) -> bool {
    hears_pdu(alloc, bridge, &JOIN)
        && is_forged(alloc, bridge, 0, &BROKEN) == Some(true)
        && answers(
            bridge,
            ONE,
            [(Work, Discarded(2)), (Work, Received(1))].as_slice(),
        )
}

fn forges_new(alloc: Global) -> bool {
    let mut bridge = new_bridge(alloc);
    let forged = match &mut bridge {
        Some(bridge) => misses(alloc, bridge) && is_taken_first(alloc, bridge),
        None => false,
    };
    drop(bridge);
    forged
}

// ---- a stream from one station to another

// A Talker of a stream: one frame of 200 octets in each interval of class A, so 15,488,000 bit/s.
fn talker_of(stream: StreamId) -> Option<Talker> {
    let dest = Mac::new(0x91e0_f000_fe01)?;
    let priority = Priority::new(3)?;
    Some(Talker {
        stream,
        dest,
        vid: 2,
        max_frame: 200,
        frames: 1,
        priority,
        rank: Rank::Normal,
        latency: 500,
    })
}

// The steps in which a station says that it talks and declares, another that it listens, and the
// first works on that.
fn talking() -> [(PortStep, StepReply); 2] {
    [(Settle, Settled(3)), (Send(App::Msrp), Sent(37))]
}

fn listening() -> [(PortStep, StepReply); 3] {
    [
        (Work, Received(1)),
        (Settle, Settled(2)),
        (Send(App::Msrp), Sent(21)),
    ]
}

fn reserving(stream: StreamId) -> [(PortStep, StepReply); 3] {
    let key = NodeKey::Srp(MsrpKey::Listener(stream));
    [
        (Work, Received(1)),
        (Settle, Settled(2)),
        (LeaveNow(key), Fired(0)),
    ]
}

// The steps in which two timers are fired by hand.
fn firing() -> [(PortStep, StepReply); 2] {
    [
        (PeriodicNow(App::Msrp), Fired(1)),
        (LeaveAllNow(App::Msrp), Fired(1)),
    ]
}

// Whether a station's application talks the stream, and whether another's listens to it.
fn talks(from: &mut Node, talker: Talker) -> bool {
    let stream = talker.stream;
    asks(from, AppRequest::Talk(talker)) && from.talks(stream)
}

fn listens(to: &mut Node, stream: StreamId) -> bool {
    asks(to, AppRequest::Listen(stream)) && to.listens(stream)
}

// Whether a station talks the stream and declares a VID, what awaits counts together, and another
// hears of the stream.
fn is_advertised(from: &mut Node, to: &mut Node, talker: Talker, vid: Vid) -> bool {
    talks(from, talker) && declares(from, vid) && says_to(from, talking().as_slice(), to)
}

// Whether a station listens to the stream of which it has heard, and what it says of it comes in at
// another.
fn is_answered(from: &mut Node, to: &mut Node, stream: StreamId) -> bool {
    listens(to, stream) && says_to(to, listening().as_slice(), from)
}

// Whether the Talker is advertised as the station states it, and whether a listening application
// hears that it is ready.
fn has_talker(node: &Node, stream: StreamId) -> bool {
    match node.talker(stream) {
        TalkerReg::Advertise(talker) => talker.stream == stream && talker.latency == 500,
        TalkerReg::Failed(_, _) | TalkerReg::Absent => false,
    }
}

fn hears(node: &Node, stream: StreamId) -> bool {
    node.heard(stream) == Some(ListenerKind::Ready)
}

// Whether a link port has booked the stream alone.
fn is_booking(node: &Node, port: PortNo, stream: StreamId) -> Result<bool, NoMemory> {
    if !has(node, port) {
        return Ok(false);
    }
    Ok(node.bookings(port)?.len() == 1 && node.booked(port, stream).is_some())
}

// The same, at a second try where memory ran out, and whether it takes its share there.
fn books(node: &Node, port: PortNo, stream: StreamId) -> bool {
    match is_booking(node, port, stream) {
        Ok(is_booked) => is_booked,
        Err(_) => is_booking(node, port, stream) == Ok(true),
    }
}

fn fits(node: &Node, port: PortNo, stream: StreamId) -> bool {
    has(node, port)
        && node.slope(port, Class::A) == 15_488_000
        && node.fit(port, stream) == Some(Fit::Fits)
}

// Whether Listener Ready of the stream is registered at a link port, and whether nothing else is.
fn has_listener(node: &Node, port: PortNo, stream: StreamId) -> bool {
    let key = MsrpKey::Listener(stream);
    let ready = MsrpContent::Listener(ListenerKind::Ready);
    has(node, port)
        && node.content(port, key) == Some(ready)
        && node.registrar(port, NodeKey::Srp(key)) == Registrar::Held
}

fn has_listener_alone(node: &Node, port: PortNo, stream: StreamId) -> bool {
    let keys = [NodeKey::Srp(MsrpKey::Listener(stream))];
    has_listener(node, port, stream) && has_keys(node, port, keys.as_slice())
}

// Whether a station books the stream once it has heard of a Listener.
fn reserves(from: &mut Node, stream: StreamId) -> bool {
    answers(from, ONE, reserving(stream).as_slice())
        && books(from, ONE, stream)
        && fits(from, ONE, stream)
        && has_listener_alone(from, ONE, stream)
}

// Whether a station talks the stream no more, and whether another doesn't listen to it any more.
fn hushes(from: &mut Node, stream: StreamId) -> bool {
    asks(from, AppRequest::Hush(stream)) && !from.talks(stream)
}

fn unlistens(to: &mut Node, stream: StreamId) -> bool {
    asks(to, AppRequest::Unlisten(stream)) && !to.listens(stream)
}

// Whether both have ended, and two timers are fired.
fn ends(from: &mut Node, to: &mut Node, stream: StreamId) -> bool {
    hushes(from, stream) && unlistens(to, stream) && answers(from, ONE, firing().as_slice())
}

// Whether the stream is booked, and its stations end it.
fn is_booked(from: &mut Node, to: &mut Node, stream: StreamId) -> bool {
    is_answered(from, to, stream)
        && has_talker(to, stream)
        && hears(to, stream)
        && reserves(from, stream)
        && ends(from, to, stream)
}

// Whether all that is so of a stream between two stations.
fn comes_and_goes(from: &mut Node, to: &mut Node, talker: Talker, vid: Vid) -> bool {
    let stream = talker.stream;
    is_advertised(from, to, talker, vid) && is_booked(from, to, stream)
}

// The same of two new stations; an error where there aren't any.
fn books_new(alloc: Global) -> Result<bool, NoMemory> {
    let mut from = new_station(alloc);
    let mut to = new_station(alloc);
    let talks = (talker_of(StreamId(0x0200_0000_0001_0001)), Vid::new(10));
    let booked = match (&mut from, &mut to, talks) {
        (Some(from), Some(to), (Some(talker), Some(vid))) => {
            Ok(comes_and_goes(from, to, talker, vid))
        }
        _ => Err(NoMemory),
    };
    drop(from);
    drop(to);
    booked
}

// The same, at a second try where memory ran out before any step.
fn books_in_the_end(alloc: Global) -> bool {
    match books_new(alloc) {
        Ok(booked) => booked,
        Err(_) => books_new(alloc) == Ok(true),
    }
}

// ---- the tests

#[test]
fn a_vid_goes_from_a_station_through_a_bridge(rt: HostRuntime) {
    assert!(rt; goes_through_new(rt.alloc()));
}

#[test]
fn a_stream_is_booked_where_a_station_listens(rt: HostRuntime) {
    assert!(rt; books_in_the_end(rt.alloc()));
}

#[test]
fn a_forged_pdu_is_taken_at_its_place(rt: HostRuntime) {
    assert!(rt; forges_new(rt.alloc()));
}

#[test]
fn what_a_leave_all_leaves_is_withdrawn(rt: HostRuntime) {
    assert!(rt; leaves_new(rt.alloc()));
}
