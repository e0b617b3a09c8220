//! A bridge between two stations: a declaration and a Talker go over a link, a PDU is repeated,
//! lost and forged, the clocks go on.
//!
//! An event is asked at run time whether it may happen, so that a test needs no proof of what the
//! file's text says.

ghost use Rattle.std.specs.Prelude.{IsTrue};
ghost use Rattle.tree_topology.specs.Topology.{HasNode, HasPort};
ghost use Rattle.world_core.specs.World.{CanHappen};

use msrp_codec::MsrpKey;
use node_core::PortStep::{Send, Settle, Work};
use node_core::StepReply::{Nothing, Received, Sent, Settled, Silent, Taken};
use node_core::{AppRequest, NodeKey, NodeStep, PortStep, StepReply, Wire};
use registrar::Registrar;
use srp_base::{
    App, Cs, EgressPort, Mac, NoMemory, NodeNo, PortNo, Priority, Rank, Seq, StreamId, Talker,
    Timeline, Vid,
};
use std::alloc::Global;
use topology_file::{Scenario, read_scenario};
use tree_topology::NodeKind;
use world_core::WorldEvent::{Carry, Clock, Forge, Lose, Port, Repeat, Request};
use world_core::WorldReply::{Done, Missed, Step};
use world_core::{History, NodeSteps, World, WorldEvent, WorldReply};

/// Station 1, bridge 2 and station 3; port 1 of the bridge leads to station 1, and port 2 to
/// station 3.
pub(crate) const SCENE: &str = "ticks = 60\n\
    node = [{ name = 'a', kind = 'station' }, { name = 'm', kind = 'bridge' }, \
    { name = 'b', kind = 'station' }]\n\
    link = [{ a = 'a', b = 'm' }, { a = 'm', b = 'b' }]\n";

// The scenario that a text is.
pub(crate) fn scenario_of(alloc: Global, text: &str) -> Option<Scenario> {
    match toml::table_from_str(alloc, text) {
        Ok(table) => read_scenario(alloc, &table).ok(),
        Err(_) => None,
    }
}

fn begin(alloc: Global, read: &Option<Scenario>) -> Option<World> {
    match read {
        Some(scenario) => World::of(alloc, scenario).ok(),
        None => None,
    }
}

// The network of a scenario that a text is. Who owns one of the two does nothing else, and drops it
// by a call, so that his proof is short.
pub(crate) fn world_of(alloc: Global, text: &str) -> Option<World> {
    let read = scenario_of(alloc, text);
    let world = begin(alloc, &read);
    drop(read);
    world
}

pub(crate) fn port(node: u16, port: u8) -> EgressPort {
    EgressPort {
        node: NodeNo(node),
        port: PortNo(port),
    }
}

pub(crate) fn has_node(world: &World, node: NodeNo) -> bool
    ensures { IsTrue result → HasNode world.now.tree node.0 }
{
    1 <= node.0 && node.0 <= world.tree().nodes()
}

pub(crate) fn has_port(world: &World, at: EgressPort) -> bool
    ensures { IsTrue result → HasPort world.now.tree at }
{
    if !has_node(world, at.node) {
        return false;
    }
    1 <= at.port.0 && at.port.0 <= world.tree().ports(at.node)
}

fn is_station(world: &World, node: NodeNo, request: AppRequest) -> bool
    ensures { IsTrue result → CanHappen (WorldEvent.Request node request) world.now }
{
    if !has_node(world, node) {
        return false;
    }
    world.node(node).kind() == NodeKind::Station
}

// Whether the clock, which is one for all nodes, goes on.
#[tactic(auto, using(crate::proofs::Worlds::clock_goes_on))]
pub(crate) fn goes_on(world: &World) -> bool
    ensures { IsTrue result → CanHappen WorldEvent.Clock world.now }
{
    world.keeps();
    if !has_node(world, NodeNo(1)) {
        return false;
    }
    world.node(NodeNo(1)).now().0 < 0x2000_0000_0000_0000
}

fn can_happen(world: &World, event: &WorldEvent) -> bool
    ensures { IsTrue result → CanHappen event.now world.now }
{
    match event {
        Request(node, request) => is_station(world, *node, *request),
        Port(node, port, _) => has_port(
            world,
            EgressPort {
                node: *node,
                port: *port,
            },
        ),
        Lose(at, _) => has_port(world, *at),
        Repeat(at, _) => has_port(world, *at),
        Forge(at, _, wire) => has_port(world, *at) && wire.octets.len() <= 1_500,
        Carry(at) => has_port(world, *at),
        Clock => goes_on(world),
    }
}

// What an event answers; None where it can't happen.
pub(crate) fn answer(world: &mut World, event: WorldEvent) -> Result<Option<WorldReply>, NoMemory> {
    if !can_happen(world, &event) {
        return Ok(None);
    }
    Ok(Some(world.step(event)?))
}

// Whether these events have these answers.
pub(crate) fn has_answers(world: &mut World, cases: &[(WorldEvent, WorldReply)]) -> bool {
    for (event, reply) in cases {
        let Ok(event) = event.clone() else {
            return false;
        };
        if answer(world, event) != Ok(Some(*reply)) {
            return false;
        }
    }
    true
}

// Whether a run of one event, the clock's, answers as it should; false where the clock stands.
fn runs_clock(alloc: Global, world: &mut World) -> bool {
    if !goes_on(world) {
        return false;
    }
    match world.run(alloc, [Clock].as_slice()) {
        Ok(replies) => replies.as_slice() == [Done].as_slice(),
        Err(_) => false,
    }
}

// Whether this is the registrar of an attribute at a port, this many PDUs wait there, and it is
// sound in MVRP or not.
fn sees(
    world: &World,
    at: EgressPort,
    key: NodeKey,
    (registrar, count, sound): (Registrar, usize, bool),
) -> bool {
    if !has_node(world, at.node) {
        return false;
    }
    let node = world.node(at.node);
    if at.port.0 == 0 || node.ports() < at.port.0 {
        return false;
    }
    node.registrar(at.port, key) == registrar
        && node.pending_pdus(at.port) == count
        && node.sound(at.port, App::Mvrp) == sound
}

// Whether a node's clock is at this moment, and whether all are.
fn is_at(world: &World, node: NodeNo, moment: Cs) -> bool {
    has_node(world, node) && world.node(node).now() == moment
}

fn are_at(world: &World, moment: Cs) -> bool {
    is_at(world, NodeNo(1), moment)
        && is_at(world, NodeNo(2), moment)
        && is_at(world, NodeNo(3), moment)
}

// Whether nothing is pending anywhere, and all that is registered is as it should be.
fn is_at_rest(world: &World) -> bool {
    world.quiet() && world.in_step()
}

// A step of a port with its answer.
fn makes(at: EgressPort, step: PortStep, reply: StepReply) -> (WorldEvent, WorldReply) {
    (Port(at.node, at.port, step), Step(reply))
}

// Station 1 is asked for something, and takes it.
fn takes(request: AppRequest) -> (WorldEvent, WorldReply) {
    (Request(NodeNo(1), request), Step(Taken))
}

// The ports of the first link: that of station 1, and the bridge's.
pub(crate) fn ours() -> EgressPort {
    port(1, 1)
}

pub(crate) fn theirs() -> EgressPort {
    port(2, 1)
}

// A station's declaration of a VID is carried to the bridge, and waits there.
fn declaring(vid: Vid) -> [(WorldEvent, WorldReply); 6] {
    [
        takes(AppRequest::Declare(vid)),
        makes(ours(), Settle, Settled(1)),
        makes(ours(), Send(App::Mvrp), Sent(12)),
        makes(ours(), Send(App::Msrp), Silent),
        makes(theirs(), Work, Nothing),
        (Carry(ours()), Done),
    ]
}

pub(crate) fn declares(world: &mut World, vid: Vid) -> bool {
    has_answers(world, declaring(vid).as_slice())
}

// Whether the network has three nodes and two links, and is at rest.
fn begins(world: &World) -> bool {
    let tree = world.tree();
    tree.nodes() == 3 && tree.links() == 2 && is_at_rest(world)
}

// Whether all clocks go on by 1 cs with the event, and once more with a run of it.
fn clocks_go_on(alloc: Global, world: &mut World) -> bool {
    has_answers(world, [(Clock, Done)].as_slice())
        && are_at(world, Cs(1))
        && runs_clock(alloc, world)
        && are_at(world, Cs(2))
}

// Whether it is so at the beginning and then, and the network is at rest at either.
fn goes_on_at_rest(alloc: Global, world: &mut World) -> bool {
    begins(world) && clocks_go_on(alloc, world) && is_at_rest(world)
}

fn new_one_goes_on(alloc: Global) -> bool {
    let mut world = world_of(alloc, SCENE);
    let gone = match &mut world {
        Some(world) => goes_on_at_rest(alloc, world),
        None => false,
    };
    drop(world);
    gone
}

#[test]
fn a_network_begins_quiet_and_its_clock_goes_on(rt: HostRuntime) {
    assert!(rt; new_one_goes_on(rt.alloc()));
}

// Where nothing is repeated or lost, and the one PDU is worked on.
fn registering() -> [(WorldEvent, WorldReply); 5] {
    [
        (Repeat(theirs(), 1), Missed),
        (Lose(theirs(), 1), Missed),
        (Lose(port(2, 2), 0), Missed),
        makes(theirs(), Work, Received(1)),
        (Lose(theirs(), 0), Missed),
    ]
}

// Whether a VID isn't registered at a port, so many PDUs wait there, and the port is sound or not.
fn is_empty(world: &World, at: EgressPort, vid: Vid, waiting: usize, sound: bool) -> bool {
    let seen = (Registrar::Empty, waiting, sound);
    sees(world, at, NodeKey::Vlan(vid), seen)
}

// Whether it is registered at a sound port at which nothing waits.
fn is_held(world: &World, at: EgressPort, vid: Vid) -> bool {
    let seen = (Registrar::Held, 0, true);
    sees(world, at, NodeKey::Vlan(vid), seen)
}

// Whether a VID waits at the bridge, and whether it is registered there, at the one port alone.
fn waits(world: &World, vid: Vid) -> bool {
    is_empty(world, theirs(), vid, 1, true)
}

fn is_registered(world: &World, vid: Vid) -> bool {
    is_held(world, theirs(), vid) && is_empty(world, port(2, 2), vid, 0, true)
}

// Whether it comes to be registered, and the bridge has something to say of it.
fn registers(world: &mut World, vid: Vid) -> bool {
    waits(world, vid)
        && has_answers(world, registering().as_slice())
        && is_registered(world, vid)
        && !world.quiet()
        && world.in_step()
}

fn new_one_registers(alloc: Global) -> bool {
    let mut world = world_of(alloc, SCENE);
    let registered = match (&mut world, Vid::new(10)) {
        (Some(world), Some(vid)) => declares(world, vid) && registers(world, vid),
        _ => false,
    };
    drop(world);
    registered
}

#[test]
fn a_declaration_is_registered_over_the_link(rt: HostRuntime) {
    assert!(rt; new_one_registers(rt.alloc()));
}

// What is noted in tick 7 of a port that has worked: by going over its node alone, and over all.
#[tactic(auto, using(crate::proofs::Worlds::none_are))]
fn noted_of_node(alloc: Global, world: &World, at: EgressPort) -> Result<Timeline, NoMemory>
    requires { HasPort world.now.tree at }
{
    let mut made = Vec::new(alloc);
    made.push(NodeStep {
        port: at.port,
        step: Work,
        reply: Received(1),
    })?;
    let mut steps = Vec::new(alloc);
    steps.push(NodeSteps {
        node: at.node,
        steps: Seq::from_vec(made),
    })?;
    let history = History::of(alloc, world)?;
    history
        .note_steps(world, 7, steps.as_slice())?
        .into_timeline()
}

#[tactic(auto, using(crate::proofs::Worlds::none_are))]
fn noted_of_all(alloc: Global, world: &World) -> Result<Timeline, NoMemory> {
    let mut timeline = Timeline {
        changes: Seq::new(alloc),
    };
    world.note_tick(7, &mut timeline)?;
    Ok(timeline)
}

// Whether both note the same change and no other; false where the tree hasn't the port.
fn notes_alike(alloc: Global, world: &World, at: EgressPort) -> bool {
    if !has_port(world, at) {
        return false;
    }
    match (noted_of_node(alloc, world, at), noted_of_all(alloc, world)) {
        (Ok(noted), Ok(all)) => noted.changes.len() == 1 && noted == all,
        _ => false,
    }
}

// Whether the bridge works on what came in.
fn works(world: &mut World) -> bool {
    has_answers(world, [makes(theirs(), Work, Received(1))].as_slice())
}

fn new_one_notes_alike(alloc: Global) -> bool {
    let mut world = world_of(alloc, SCENE);
    let noted = match (&mut world, Vid::new(10)) {
        (Some(world), Some(vid)) => {
            declares(world, vid) && works(world) && notes_alike(alloc, world, theirs())
        }
        _ => false,
    };
    drop(world);
    noted
}

#[test]
fn a_registration_is_noted_at_its_node_as_among_all(rt: HostRuntime) {
    assert!(rt; new_one_notes_alike(rt.alloc()));
}

// A Talker of stream 7 in class A.
fn new_talker() -> Option<Talker> {
    Some(Talker {
        stream: StreamId(7),
        dest: Mac::new(1)?,
        vid: 2,
        max_frame: 100,
        frames: 1,
        priority: Priority::new(3)?,
        rank: Rank::Normal,
        latency: 0,
    })
}

// It is carried to the bridge, which works on it.
fn talking(talker: Talker) -> [(WorldEvent, WorldReply); 5] {
    [
        takes(AppRequest::Talk(talker)),
        makes(ours(), Settle, Settled(2)),
        makes(ours(), Send(App::Msrp), Sent(37)),
        (Carry(ours()), Done),
        makes(theirs(), Work, Received(1)),
    ]
}

// Whether it is registered there then, and the bridge has something to say of it.
fn talks(world: &mut World, talker: Talker) -> bool {
    let key = NodeKey::Srp(MsrpKey::Talker(talker.stream));
    has_answers(world, talking(talker).as_slice())
        && sees(world, theirs(), key, (Registrar::Held, 0, true))
        && !world.quiet()
        && world.in_step()
}

fn new_one_talks(alloc: Global) -> bool {
    let mut world = world_of(alloc, SCENE);
    let talked = match (&mut world, new_talker()) {
        (Some(world), Some(talker)) => talks(world, talker),
        _ => false,
    };
    drop(world);
    talked
}

#[test]
fn a_talker_is_registered_over_the_link(rt: HostRuntime) {
    assert!(rt; new_one_talks(rt.alloc()));
}

// Whether the PDU that waits at the bridge is repeated, and one of the two is lost.
fn loses(world: &mut World) -> bool {
    let cases = [(Repeat(theirs(), 0), Done), (Lose(theirs(), 0), Done)];
    has_answers(world, cases.as_slice()) && !world.quiet() && !world.in_step()
}

// Whether the ends of the first link are spoilt, and whether those of the second aren't.
fn is_spoilt(world: &World, vid: Vid) -> bool {
    is_empty(world, theirs(), vid, 1, false) && is_empty(world, ours(), vid, 0, false)
}

fn is_sound_elsewhere(world: &World, vid: Vid) -> bool {
    is_empty(world, port(2, 2), vid, 0, true) && is_empty(world, port(3, 1), vid, 0, true)
}

// Whether a loss spoils the ends of its link and no others.
fn spoils(world: &mut World, vid: Vid) -> bool {
    declares(world, vid) && loses(world) && is_spoilt(world, vid) && is_sound_elsewhere(world, vid)
}

// A PDU of MVRP that says JoinMt of VID 10.
fn join(alloc: Global) -> Option<Wire> {
    let octets = Vec::from_slice(alloc, &[0, 1, 2, 0, 1, 0, 10, 0x6c, 0, 0, 0, 0]).ok()?;
    Some(Wire {
        app: App::Mvrp,
        octets: Seq::from_vec(octets),
    })
}

// Whether it is missed past the bridge's inbox, and then stands in it and is taken.
fn is_forged(world: &mut World, past: Wire, here: Wire) -> bool {
    let cases = [
        (Forge(theirs(), 1, past), Missed),
        (Forge(theirs(), 0, here), Done),
        makes(theirs(), Work, Received(1)),
    ];
    has_answers(world, cases.as_slice())
}

// Whether what it says is registered, at an end that isn't sound any more, nor is the other.
fn is_held_unsound(world: &World, vid: Vid) -> bool {
    let seen = (Registrar::Held, 0, false);
    sees(world, theirs(), NodeKey::Vlan(vid), seen) && is_empty(world, ours(), vid, 0, false)
}

fn forges(alloc: Global, world: &mut World, vid: Vid) -> bool {
    match (join(alloc), join(alloc)) {
        (Some(past), Some(here)) => {
            is_forged(world, past, here)
                && is_held_unsound(world, vid)
                && is_sound_elsewhere(world, vid)
        }
        _ => false,
    }
}

fn new_one_forges(alloc: Global) -> bool {
    let mut world = world_of(alloc, SCENE);
    let forged = match (&mut world, Vid::new(10)) {
        (Some(world), Some(vid)) => forges(alloc, world, vid),
        _ => false,
    };
    drop(world);
    forged
}

fn new_one_spoils(alloc: Global) -> bool {
    let mut world = world_of(alloc, SCENE);
    let spoilt = match (&mut world, Vid::new(10)) {
        (Some(world), Some(vid)) => spoils(world, vid),
        _ => false,
    };
    drop(world);
    spoilt
}

#[test]
fn a_loss_spoils_both_ends_of_its_link(rt: HostRuntime) {
    assert!(rt; new_one_spoils(rt.alloc()));
}

#[test]
fn a_forged_pdu_is_registered_and_spoils_both_ends(rt: HostRuntime) {
    assert!(rt; new_one_forges(rt.alloc()));
}
