//! The scripted events of one tick: a part of a tick, for those who run a scenario tick by tick.

ghost use Rattle.std.specs.Prelude.{◌≡◌, ◌++◌, suc, Some, map, option_map, IfSome, IfOk, OnOk};
ghost use Rattle.tree_topology.specs.{Graph.Joined, Ports.port_to};
ghost use Rattle.world_core.specs.Ticks.{event_of, script_at, after_script, stream_at, talker_of_entry};
ghost use Rattle.world_core.specs.World.{CanHappen, replies_to};
ghost use Rattle.world_core.specs.During.{IsDuring, NamesNeighbours};
ghost use Rattle.world_core.specs.Cursor.{IsCursor};
ghost use Rattle.world_core.specs.Script.{answer_of, after_entry};

use crate::events::{WorldEvent, WorldReply};
use crate::laws::what_is_allowed_may_happen;
use crate::world::World;
use node_core::{AppRequest, Wire};
use srp_base::{App, EgressPort, NoMemory, NodeNo, Seq, Talker};
use std::alloc::Global;
use topology_file::{EventKind, Scenario, StreamEntry};
use tree_topology::Tree;

/// Lets the events of tick t happen, from the cursor on, and answers each with the number of its
/// entry. The cursor then stands at the first event of a later tick.
pub fn make_events(
    alloc: Global,
    scenario: &Scenario,
    t: u64,
    world: &mut World,
    cursor: &mut usize,
) -> Result<Vec<(u32, WorldReply)>, NoMemory>
    requires during { IsDuring scenario.now.tree t world.old }
    requires cursor { IsCursor scenario.now.events t cursor.old }
    ensures numbers { IfOk result (λ v. map (λ e. e.0) v.items
        ≡ map (λ e. e.0) (script_at scenario.now t)) }
    ensures answers { IfOk result (λ v. map (λ e. e.1) v.items
        ≡ replies_to (map (λ e. e.1) (script_at scenario.now t)) world.old) }
    ensures after { OnOk result (world.new ≡ after_script scenario.now t world.old) }
    ensures cursor { OnOk result (IsCursor scenario.now.events (suc t) cursor.new) }
{
    what_is_allowed_may_happen();
    scenario.keeps_rules();
    let events = scenario.events.as_slice();
    let first = *cursor;
    let mut answers = Vec::new(alloc);
    for i in first..events.len() {
        let entry = &events[i];
        if entry.tick != t {
            *cursor = i;
            return Ok(answers);
        }
        make_entry(scenario, i as u32 + 1, &entry.kind, world, &mut answers)?;
    }
    *cursor = events.len();
    Ok(answers)
}

// Lets the event of an entry happen, if it is one in the network, and answers it with the entry's
// number.
fn make_entry(
    scenario: &Scenario,
    number: u32,
    kind: &EventKind,
    world: &mut World,
    answers: &mut Vec<(u32, WorldReply)>,
) -> Result<(), NoMemory>
    requires neighbours { NamesNeighbours scenario.now.tree.links kind.now }
    requires can { IfSome (event_of scenario.now.tree.links scenario.now.streams kind.now)
        (λ e. CanHappen e world.old) }
    ensures answer { OnOk result (answers.new.items
        ≡ answers.old.items
        ++ answer_of number (event_of scenario.now.tree.links scenario.now.streams kind.now)
        world.old) }
    ensures after { OnOk result
        (world.new ≡ after_entry (event_of scenario.now.tree.links scenario.now.streams kind.now)
        world.old) }
{
    if let Some(event) = world_event(scenario, kind)? {
        answers.push((number, world.step(event)?))?;
    }
    Ok(())
}

// What the file's event is in the network, if it is one there.
fn world_event(scenario: &Scenario, kind: &EventKind) -> Result<Option<WorldEvent>, NoMemory>
    requires { NamesNeighbours scenario.now.tree.links kind.now }
    ensures { IfOk result (λ event. event
        ≡ event_of scenario.now.tree.links scenario.now.streams kind.now) }
{
    let (tree, streams) = (&scenario.tree, scenario.streams.as_slice());
    match kind {
        EventKind::Declare { station, vid } => {
            Ok(Some(WorldEvent::Request(*station, AppRequest::Declare(*vid))))
        }
        EventKind::Withdraw { station, vid } => {
            Ok(Some(WorldEvent::Request(*station, AppRequest::Withdraw(*vid))))
        }
        EventKind::Talk { stream } => Ok(talk(streams, *stream)),
        EventKind::Hush { stream } => Ok(hush(streams, *stream)),
        EventKind::Listen { station, stream } => Ok(listen(streams, *station, *stream)),
        EventKind::Unlisten { station, stream } => Ok(unlisten(streams, *station, *stream)),
        EventKind::Lose { from, to, index } => {
            Ok(Some(WorldEvent::Lose(receiving_port(tree, *to, *from), *index)))
        }
        EventKind::Repeat { from, to, index } => {
            Ok(Some(WorldEvent::Repeat(receiving_port(tree, *to, *from), *index)))
        }
        EventKind::Forge {
            from,
            to,
            index,
            app,
            octets,
        } => {
            let at = receiving_port(tree, *to, *from);
            Ok(Some(WorldEvent::Forge(at, *index, wire_of(*app, octets)?)))
        }
    }
}

// A PDU of an application with these octets.
fn wire_of(app: App, octets: &Seq<u8>) -> Result<Wire, NoMemory>
    ensures { IfOk result (λ wire. wire ≡ record { app = app; octets = octets.now }) }
{
    let octets = octets.clone()?;
    Ok(Wire { app, octets })
}

// What is asked of the station of a stream's number, if there is such a stream: that it talks, as
// its Talker states it.
fn talk(streams: &[StreamEntry], stream: u16) -> Option<WorldEvent>
    ensures { result ≡ option_map (λ e. WorldEvent.Request e.talker
        (AppRequest.Talk (talker_of_entry e))) (stream_at streams.now stream) }
{
    let entry = entry_of(streams, stream)?;
    let talker = Talker {
        stream: entry.id,
        dest: entry.dest,
        vid: entry.vid.get(),
        max_frame: entry.octets,
        frames: entry.frames,
        priority: entry.priority,
        rank: entry.rank,
        latency: 0,
    };
    Some(WorldEvent::Request(entry.talker, AppRequest::Talk(talker)))
}

// That it talks no more.
fn hush(streams: &[StreamEntry], stream: u16) -> Option<WorldEvent>
    ensures { result ≡ option_map (λ e. WorldEvent.Request e.talker (AppRequest.Hush e.id))
        (stream_at streams.now stream) }
{
    let entry = entry_of(streams, stream)?;
    Some(WorldEvent::Request(entry.talker, AppRequest::Hush(entry.id)))
}

// What is asked of a station: that it listens to the stream of a number, if there is such a stream.
fn listen(streams: &[StreamEntry], station: NodeNo, stream: u16) -> Option<WorldEvent>
    ensures { result ≡ option_map (λ e. WorldEvent.Request station (AppRequest.Listen e.id))
        (stream_at streams.now stream) }
{
    let entry = entry_of(streams, stream)?;
    Some(WorldEvent::Request(station, AppRequest::Listen(entry.id)))
}

// That it listens no more.
fn unlisten(streams: &[StreamEntry], station: NodeNo, stream: u16) -> Option<WorldEvent>
    ensures { result ≡ option_map (λ e. WorldEvent.Request station (AppRequest.Unlisten e.id))
        (stream_at streams.now stream) }
{
    let entry = entry_of(streams, stream)?;
    Some(WorldEvent::Request(station, AppRequest::Unlisten(entry.id)))
}

// The entry of a stream's number, counted from 1.
fn entry_of(streams: &[StreamEntry], number: u16) -> Option<&StreamEntry>
    ensures { option_map (λ e. e.now) result ≡ stream_at streams.now number }
{
    streams.get(usize::from(number).saturating_sub(1))
}

// The port of a node at which the PDUs of its neighbour come in.
fn receiving_port(tree: &Tree, node: NodeNo, neighbour: NodeNo) -> EgressPort
    requires { Joined tree.now.links node.0 neighbour.0 }
    ensures { result ≡ port_to tree.now.links node.0 neighbour.0 }
{
    match tree.port_to(node, neighbour) {
        Some(port) => port,
        None => unreachable!(),
    }
}
