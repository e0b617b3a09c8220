//! A run that wants memory goes on where it stopped, and the network ends as after one run of all
//! its events.
//!
//! In the gate nothing is refused. `tools/memory` runs both tests once for each growth, and refuses
//! just that one: where it is one of a run, the rest goes on, and where it is one of what stands
//! around the runs, all begins anew.

ghost use Rattle.std.specs.Prelude.{◌≤◌, length};

use crate::allowed::{can_run, step_of};
use crate::world::{SCENE, goes_on, has_node, ours, port, theirs, world_of};
use msrp_codec::{MsrpContent, MsrpKey};
use node_core::PortStep::{Due, LeaveAllNow, LeaveNow, PeriodicNow, Send, Settle, Work};
use node_core::{AppRequest, NodeKey, Wire};
use registrar::Registrar;
use srp_base::{
    App, Cs, EgressPort, ListenerKind, Mac, NoMemory, NodeNo, Priority, Rank, Seq, StreamId,
    Talker, TalkerReg, Vid,
};
use std::alloc::Global;
use stream_importance::Entry;
use world_core::WorldEvent::{Carry, Clock, Forge, Lose, Repeat, Request};
use world_core::{World, WorldEvent, WorldReply};

// The events behind those that are done.
fn behind(events: &[WorldEvent], done: usize) -> &[WorldEvent]
    requires { done ≤ length events.now }
{
    &events[done..]
}

// Lets these events happen in at most so many runs, each of which goes on where the one before it
// stopped, and answers what the last of them did. None where that isn't enough, or where they can't
// happen.
fn run_in(
    alloc: Global,
    world: &mut World,
    events: &[WorldEvent],
    runs: usize,
) -> Option<Seq<WorldReply>> {
    let mut rest = events;
    for _ in 0..runs {
        if !can_run(world, rest) {
            return None;
        }
        match world.run(alloc, rest) {
            Ok(replies) => return Some(replies),
            Err(stop) => rest = behind(rest, stop.done),
        }
    }
    None
}

// Whether the clock goes on in at most so many runs.
fn tick_in(alloc: Global, world: &mut World, runs: usize) -> bool {
    for _ in 0..runs {
        if !goes_on(world) {
            return false;
        }
        if world.run(alloc, [Clock].as_slice()).is_ok() {
            return true;
        }
    }
    false
}

// Whether these events happen in one network in one run, in the other in at most so many, and the
// last of these answers as the end of the one does.
fn run_alike(
    alloc: Global,
    runs: usize,
    whole: &mut World,
    parted: &mut World,
    events: &[WorldEvent],
) -> Result<bool, NoMemory> {
    let replies = run_in(alloc, whole, events, 1).ok_or(NoMemory)?;
    match run_in(alloc, parted, events, runs) {
        Some(last) => Ok(replies.as_slice().ends_with(last.as_slice())),
        None => Ok(false),
    }
}

// Whether the clocks of both go on so.
fn tick_alike(
    alloc: Global,
    runs: usize,
    whole: &mut World,
    parted: &mut World,
) -> Result<bool, NoMemory> {
    if !tick_in(alloc, whole, 1) {
        return Err(NoMemory);
    }
    Ok(tick_in(alloc, parted, runs))
}

// The ports of the second link: the bridge's, and that of station 3.
fn far() -> EgressPort {
    port(2, 2)
}

fn end() -> EgressPort {
    port(3, 1)
}

const STREAM: StreamId = StreamId(7);

// A Talker of the stream in class A.
fn new_talker() -> Option<Talker> {
    Some(Talker {
        stream: STREAM,
        dest: Mac::new(1)?,
        vid: 2,
        max_frame: 100,
        frames: 1,
        priority: Priority::new(3)?,
        rank: Rank::Normal,
        latency: 0,
    })
}

// A PDU of MVRP that says JoinMt of VID 10.
fn join(alloc: Global) -> Result<Wire, NoMemory> {
    let octets = Vec::from_slice(alloc, &[0, 1, 2, 0, 1, 0, 10, 0x6c, 0, 0, 0, 0])?;
    Ok(Wire {
        app: App::Mvrp,
        octets: Seq::from_vec(octets),
    })
}

// Station 1 declares a VID and talks, station 3 declares it and listens, and what they say of it
// comes in at the bridge.
fn asking(vid: Vid, talker: Talker) -> [WorldEvent; 13] {
    [
        Request(NodeNo(1), AppRequest::Declare(vid)),
        Request(NodeNo(1), AppRequest::Talk(talker)),
        Request(NodeNo(3), AppRequest::Declare(vid)),
        Request(NodeNo(3), AppRequest::Listen(STREAM)),
        step_of(ours(), Settle),
        step_of(ours(), Send(App::Mvrp)),
        step_of(ours(), Send(App::Msrp)),
        step_of(end(), Settle),
        step_of(end(), Send(App::Mvrp)),
        Carry(ours()),
        Carry(end()),
        Repeat(theirs(), 0),
        Lose(theirs(), 0),
    ]
}

// A further PDU comes in, and the bridge takes all that came.
fn taking(wire: Wire) -> [WorldEvent; 5] {
    [
        Forge(theirs(), 1, wire),
        step_of(theirs(), Work),
        step_of(theirs(), Work),
        step_of(theirs(), Work),
        step_of(far(), Work),
    ]
}

// The bridge passes on what it registered, and either station takes it.
fn passing() -> [WorldEvent; 12] {
    [
        step_of(theirs(), Settle),
        step_of(far(), Settle),
        step_of(theirs(), Send(App::Mvrp)),
        step_of(far(), Send(App::Mvrp)),
        step_of(far(), Send(App::Msrp)),
        Carry(theirs()),
        Carry(far()),
        step_of(ours(), Work),
        step_of(end(), Work),
        step_of(end(), Work),
        step_of(ours(), Settle),
        step_of(end(), Settle),
    ]
}

// The Listener comes from station 3 over the bridge to station 1, and either port on its way books.
fn booking() -> [WorldEvent; 9] {
    [
        step_of(end(), Send(App::Msrp)),
        Carry(end()),
        step_of(far(), Work),
        step_of(far(), Settle),
        step_of(theirs(), Settle),
        step_of(theirs(), Send(App::Msrp)),
        Carry(theirs()),
        step_of(ours(), Work),
        step_of(ours(), Settle),
    ]
}

// The bridge sends LeaveAlls, by which the leave timers of its registrations begin, and that of the
// Listener ends.
fn firing() -> [WorldEvent; 8] {
    [
        step_of(theirs(), LeaveAllNow(App::Mvrp)),
        step_of(theirs(), Send(App::Mvrp)),
        step_of(theirs(), PeriodicNow(App::Msrp)),
        step_of(far(), LeaveAllNow(App::Msrp)),
        step_of(far(), Send(App::Msrp)),
        step_of(far(), LeaveNow(NodeKey::Srp(MsrpKey::Listener(STREAM)))),
        step_of(far(), Settle),
        step_of(theirs(), Settle),
    ]
}

// What is due fires, and what has left is told.
fn leaving() -> [WorldEvent; 12] {
    [
        step_of(theirs(), Due),
        step_of(far(), Due),
        step_of(theirs(), Settle),
        step_of(far(), Settle),
        step_of(theirs(), Send(App::Mvrp)),
        step_of(theirs(), Send(App::Msrp)),
        step_of(far(), Send(App::Mvrp)),
        step_of(far(), Send(App::Msrp)),
        Carry(theirs()),
        Carry(far()),
        step_of(ours(), Work),
        step_of(end(), Work),
    ]
}

/// What is seen of a port: each attribute that is registered there, with its registrar and its
/// content; what is booked; the PDUs that came in; and whether either application is sound.
#[derive(PartialEq, Eq, Drop)]
struct Shown {
    registered: Seq<(NodeKey, Registrar, Option<MsrpContent>)>,
    booked: Seq<Entry>,
    waiting: Seq<Wire>,
    sound: (bool, bool),
}

fn shown_at(alloc: Global, world: &World, at: EgressPort) -> Result<Option<Shown>, NoMemory> {
    if !has_node(world, at.node) {
        return Ok(None);
    }
    let node = world.node(at.node);
    if at.port.0 == 0 || node.ports() < at.port.0 {
        return Ok(None);
    }
    let mut registered = Vec::new(alloc);
    for key in node.keys(at.port)?.as_slice() {
        let content = match key {
            NodeKey::Vlan(_) => None,
            NodeKey::Srp(key) => node.content(at.port, *key),
        };
        registered.push((*key, node.registrar(at.port, *key), content))?;
    }
    Ok(Some(Shown {
        registered: Seq::from_vec(registered),
        booked: node.bookings(at.port)?,
        waiting: node.waiting(at.port)?,
        sound: (
            node.sound(at.port, App::Mvrp),
            node.sound(at.port, App::Msrp),
        ),
    }))
}

// Whether two networks show the same at a port.
fn show_same_at(
    alloc: Global,
    whole: &World,
    parted: &World,
    at: EgressPort,
) -> Result<bool, NoMemory> {
    match (shown_at(alloc, whole, at)?, shown_at(alloc, parted, at)?) {
        (Some(here), Some(there)) => Ok(here == there),
        _ => Ok(false),
    }
}

/// What is seen of a node beside its ports: its clock, the stream's Talker, what its application
/// hears and asks for, and whether nothing is pending there.
#[derive(Clone, Copy, PartialEq, Eq)]
struct Said {
    now: Cs,
    talker: TalkerReg,
    heard: Option<ListenerKind>,
    asks: (bool, bool),
    still: bool,
}

fn said_by(world: &World, node: NodeNo) -> Option<Said> {
    if !has_node(world, node) {
        return None;
    }
    let node = world.node(node);
    Some(Said {
        now: node.now(),
        talker: node.talker(STREAM),
        heard: node.heard(STREAM),
        asks: (node.talks(STREAM), node.listens(STREAM)),
        still: node.still(),
    })
}

// Whether two networks say the same of each node, and of themselves.
fn say_same(whole: &World, parted: &World) -> bool {
    said_by(whole, NodeNo(1)) == said_by(parted, NodeNo(1))
        && said_by(whole, NodeNo(2)) == said_by(parted, NodeNo(2))
        && said_by(whole, NodeNo(3)) == said_by(parted, NodeNo(3))
        && whole.quiet() == parted.quiet()
        && whole.in_step() == parted.in_step()
}

// Whether they are the same as far as can be seen.
fn show_same(alloc: Global, whole: &World, parted: &World) -> Result<bool, NoMemory> {
    for at in [ours(), theirs(), far(), end()] {
        if !show_same_at(alloc, whole, parted, at)? {
            return Ok(false);
        }
    }
    Ok(say_same(whole, parted))
}

// Whether the stream is booked at a port.
fn books(world: &World, at: EgressPort) -> bool {
    if !has_node(world, at.node) {
        return false;
    }
    let node = world.node(at.node);
    if at.port.0 == 0 || node.ports() < at.port.0 {
        return false;
    }
    node.booked(at.port, STREAM).is_some()
}

// Whether the stream comes to be booked on its way in both, and both are the same then.
fn book_alike(
    alloc: Global,
    runs: usize,
    whole: &mut World,
    parted: &mut World,
) -> Result<bool, NoMemory> {
    let (Some(vid), Some(talker)) = (Vid::new(10), new_talker()) else {
        return Ok(false);
    };
    let wire = join(alloc)?;
    Ok(
        run_alike(alloc, runs, whole, parted, asking(vid, talker).as_slice())?
            && run_alike(alloc, runs, whole, parted, taking(wire).as_slice())?
            && run_alike(alloc, runs, whole, parted, passing().as_slice())?
            && run_alike(alloc, runs, whole, parted, booking().as_slice())?
            && books(parted, ours())
            && books(parted, far())
            && show_same(alloc, whole, parted)?,
    )
}

// Whether the clocks of both go on by the 60 cs of a leave timer.
fn wait_alike(
    alloc: Global,
    runs: usize,
    whole: &mut World,
    parted: &mut World,
) -> Result<bool, NoMemory> {
    for _ in 0..60 {
        if !tick_alike(alloc, runs, whole, parted)? {
            return Ok(false);
        }
    }
    Ok(true)
}

// Whether it leaves the bridge in both, and both are the same then.
fn leave_alike(
    alloc: Global,
    runs: usize,
    whole: &mut World,
    parted: &mut World,
) -> Result<bool, NoMemory> {
    Ok(
        run_alike(alloc, runs, whole, parted, firing().as_slice())?
            && wait_alike(alloc, runs, whole, parted)?
            && run_alike(alloc, runs, whole, parted, leaving().as_slice())?
            && !books(parted, far())
            && show_same(alloc, whole, parted)?,
    )
}

fn go_alike(
    alloc: Global,
    runs: usize,
    whole: &mut World,
    parted: &mut World,
) -> Result<bool, NoMemory> {
    Ok(book_alike(alloc, runs, whole, parted)? && leave_alike(alloc, runs, whole, parted)?)
}

// The same of two new networks; an error where what is refused isn't of the runs that are in parts.
fn new_ones_go_alike(alloc: Global, runs: usize) -> Result<bool, NoMemory> {
    let mut whole = world_of(alloc, SCENE);
    let mut parted = world_of(alloc, SCENE);
    let alike = match (&mut whole, &mut parted) {
        (Some(whole), Some(parted)) => go_alike(alloc, runs, whole, parted),
        _ => Err(NoMemory),
    };
    drop(whole);
    drop(parted);
    alike
}

// The same, at the second try where the first couldn't be ended: no more than one growth is
// refused.
fn end_alike(alloc: Global, runs: usize) -> bool {
    match new_ones_go_alike(alloc, runs) {
        Ok(alike) => alike,
        Err(_) => new_ones_go_alike(alloc, runs) == Ok(true),
    }
}

#[test]
fn a_world_goes_on_after_want_of_memory(rt: HostRuntime) {
    assert!(rt; end_alike(rt.alloc(), 2));
}

// Where a growth of these runs is refused, it fails: by this `tools/memory` counts them.
#[test]
fn no_run_wants_memory(rt: HostRuntime) {
    assert!(rt; end_alike(rt.alloc(), 1));
}
