//! Two stations on a link, from the start on, event by event. One has joined a group and its PDU
//! waits at the other: it is doubled, the copy is lost, and it comes in. Then it parts from the
//! group, which leaves at the other; and it joins two.
//!
//! An event is asked at run time whether it may happen, so that a test needs no proof of what the
//! file's text says.

ghost use Rattle.std.specs.Prelude.{IsTrue};
ghost use Rattle.tree_topology.specs.Topology.{HasNode, HasPort};
ghost use Rattle.mmrp.specs.Net.{CanHappen, IsStation};

use crate::runs::scene_of;
use group_file::GroupScenario;
use mmrp::GroupEvent::{Carry, Clock, Join, Lose, Part, Port, Repeat};
use mmrp::GroupReply::{Done, Fired, Missed, Nothing, Received, Sent, Settled, Silent};
use mmrp::GroupStep::{Due, Send, Settle, Work};
use mmrp::laws::what_events_leave_alone;
use mmrp::{GroupEvent, GroupNet, GroupReply};
use registrar::Registrar;
use srp_base::{Cs, EgressPort, Mac, NoMemory, NodeNo, PortNo};
use std::alloc::Global;
use std::marker::Model;
use tree_topology::NodeKind;

// Two stations; nothing happens by itself.
const STATIONS: &str = "ticks = 1\n\
    leave_time = 60\n\
    node = [{ name = 's1', kind = 'station' }, { name = 's2', kind = 'station' }]\n\
    link = [{ a = 's1', b = 's2' }]\n";

const S1: EgressPort = EgressPort {
    node: NodeNo(1),
    port: PortNo(1),
};

const S2: EgressPort = EgressPort {
    node: NodeNo(2),
    port: PortNo(1),
};

const GROUP: u64 = 0x0100_5e00_0001;

const SECOND: u64 = 0x0100_5e00_0002;

// A network with the scenario that it began as, which says which of its nodes are stations.
// Contracts see the network.
#[derive(Drop)]
struct Scene {
    scenario: GroupScenario,
    net: GroupNet,
}

impl Model for Scene {
    ghost use Rattle.std.specs.Prelude.{◌≡◌};
    ghost use Rattle.mmrp.specs.Net.{NetGroups};

    ghost Value = { NetGroups };

    ghost view = { λ s. s.net };

    ghost invariant = { λ s. s.net.tree ≡ s.scenario.tree };
}

impl Scene {
    // The network of the stations at its start.
    fn of(alloc: Global) -> Option<Scene> {
        let scenario = scene_of(alloc, STATIONS)?;
        match GroupNet::of(alloc, &scenario) {
            Ok(net) => Some(Scene { scenario, net }),
            Err(_) => None,
        }
    }

    fn has_node(&self, node: NodeNo) -> bool
        ensures { IsTrue result → HasNode self.now.tree node.0 }
    {
        1 <= node.0 && node.0 <= self.net.tree().nodes()
    }

    fn has_port(&self, at: EgressPort) -> bool
        ensures { IsTrue result → HasPort self.now.tree at }
    {
        if !self.has_node(at.node) {
            return false;
        }
        1 <= at.port.0 && at.port.0 <= self.net.tree().ports(at.node)
    }

    fn is_station(&self, node: NodeNo) -> bool
        ensures { IsTrue result → IsStation self.now.tree node }
    {
        self.scenario.keeps_rules();
        if !self.has_node(node) {
            return false;
        }
        match self.scenario.nodes.as_slice().get(usize::from(node.0) - 1) {
            Some(entry) => entry.kind == NodeKind::Station,
            None => false,
        }
    }

    // Whether an event may happen.
    fn can_happen(&self, event: &GroupEvent) -> bool
        ensures { IsTrue result → CanHappen event.now self.now }
    {
        match event {
            Join(node, _) | Part(node, _) => self.is_station(*node),
            Port(at, _) | Carry(at) => self.has_port(*at),
            Lose(at, _) | Repeat(at, _) => self.has_port(*at),
            Clock => self.net.now().0 < 0x2000_0000_0000_0000,
        }
    }

    // What an event answers; None where it can't happen.
    fn answer(&mut self, event: &GroupEvent) -> Result<Option<GroupReply>, NoMemory> {
        what_events_leave_alone();
        if !self.can_happen(event) {
            return Ok(None);
        }
        Ok(Some(self.net.step(*event)?))
    }

    // Whether these events have these answers.
    fn has_answers(&mut self, cases: &[(GroupEvent, GroupReply)]) -> bool {
        for (event, reply) in cases {
            if self.answer(event) != Ok(Some(*reply)) {
                return false;
            }
        }
        true
    }

    // Whether the clock goes on by so many cs.
    fn waits(&mut self, ticks: u64) -> bool {
        for _ in 0..ticks {
            if self.answer(&Clock) != Ok(Some(Done)) {
                return false;
            }
        }
        true
    }

    // Whether at a port this is the registrar of the group, it is found and expected so, and so
    // many PDUs wait.
    fn shows(
        &self,
        at: EgressPort,
        registrar: Registrar,
        (found, expected): (bool, bool),
        count: usize,
    ) -> bool {
        let (true, Some(mac)) = (self.has_port(at), Mac::new(GROUP)) else {
            return false;
        };
        let sides = self.net.groups_match(at, mac);
        self.net.registrar(at, mac) == registrar
            && sides.found == found
            && sides.expected == expected
            && self.net.pending(at) == count
    }

    // Whether these are the groups that are registered at a port.
    fn has_groups(&self, at: EgressPort, numbers: &[u64]) -> bool {
        if !self.has_port(at) {
            return false;
        }
        match self.net.groups(at) {
            Ok(macs) => are_numbers(macs.as_slice(), numbers),
            Err(_) => false,
        }
    }
}

// Whether MAC addresses have these numbers, in this order.
fn are_numbers(macs: &[Mac], numbers: &[u64]) -> bool {
    if macs.len() != numbers.len() {
        return false;
    }
    for i in 0..macs.len() {
        if macs[i].get() != numbers[i] {
            return false;
        }
    }
    true
}

// The first station joins a group, and says so.
fn joining(mac: Mac) -> [(GroupEvent, GroupReply); 4] {
    [
        (Join(NodeNo(1), mac), Done),
        (Port(S1, Settle), Settled(1)),
        (Port(S1, Send), Sent(16)),
        (Carry(S1), Done),
    ]
}

// It parts from it, and says so.
fn parting(mac: Mac) -> [(GroupEvent, GroupReply); 4] {
    [
        (Part(NodeNo(1), mac), Done),
        (Port(S1, Settle), Settled(1)),
        (Port(S1, Send), Sent(16)),
        (Carry(S1), Done),
    ]
}

// It asks for what it has, and the other for what it hasn't.
fn asking_again(mac: Mac) -> [(GroupEvent, GroupReply); 4] {
    [
        (Join(NodeNo(1), mac), Done),
        (Port(S1, Settle), Settled(0)),
        (Part(NodeNo(2), mac), Done),
        (Port(S2, Settle), Settled(0)),
    ]
}

// The PDU is doubled; its copy is lost, and there is no third.
fn doubling() -> [(GroupEvent, GroupReply); 3] {
    [
        (Repeat(S2, 0), Done),
        (Lose(S2, 1), Done),
        (Lose(S2, 1), Missed),
    ]
}

// It comes in, and the port has nothing more to do.
fn taking() -> [(GroupEvent, GroupReply); 7] {
    [
        (Port(S2, Work), Received(1)),
        (Port(S2, Work), Nothing),
        (Port(S2, Due), Fired(0)),
        (Port(S2, Settle), Settled(0)),
        (Port(S2, Send), Silent),
        (Carry(S2), Done),
        (Clock, Done),
    ]
}

// Whether the first station has joined the group, and what it said waits at the other.
fn joins(scene: &mut Scene, mac: Mac) -> bool {
    scene.shows(S2, Registrar::Empty, (false, false), 0)
        && scene.has_answers(joining(mac).as_slice())
        && scene.shows(S2, Registrar::Empty, (false, true), 1)
}

// Whether the network is so while the PDU waits, and a copy is lost.
fn loses(scene: &mut Scene) -> bool {
    scene.net.in_step()
        && scene.has_answers(doubling().as_slice())
        && scene.shows(S2, Registrar::Empty, (false, true), 1)
        && !scene.net.in_step()
}

// Whether it is so when the PDU has come in.
fn takes(scene: &mut Scene) -> bool {
    scene.has_groups(S2, &[])
        && scene.has_answers(taking().as_slice())
        && scene.shows(S2, Registrar::Held, (true, true), 0)
        && scene.shows(S1, Registrar::Empty, (false, false), 0)
        && scene.has_groups(S2, &[GROUP])
        && scene.has_groups(S1, &[])
}

fn loses_and_takes(alloc: Global) -> bool {
    match (Scene::of(alloc), Mac::new(GROUP)) {
        (Some(mut scene), Some(mac)) => {
            joins(&mut scene, mac)
                && loses(&mut scene)
                && takes(&mut scene)
                && scene.net.now() == Cs(1)
                && !scene.net.quiet()
        }
        _ => false,
    }
}

#[test]
fn a_copy_is_lost_and_the_group_is_registered(rt: HostRuntime) {
    assert!(rt; loses_and_takes(rt.alloc()));
}

// Whether the first station has parted from the group, which leaves at the other.
fn parts(scene: &mut Scene, mac: Mac) -> bool {
    scene.has_answers(parting(mac).as_slice())
        && scene.shows(S2, Registrar::Held, (true, false), 1)
        && scene.has_answers(&[(Port(S2, Work), Received(1)), (Port(S2, Due), Fired(0))])
        && scene.shows(S2, Registrar::Leaving, (true, false), 0)
        && scene.has_groups(S2, &[GROUP])
}

// Whether it has left once LeaveTime is over, and not before, and nothing is pending then.
fn leaves(scene: &mut Scene) -> bool {
    scene.waits(59)
        && scene.has_answers(&[(Port(S2, Due), Fired(0)), (Clock, Done)])
        && scene.shows(S2, Registrar::Leaving, (true, false), 0)
        && !scene.net.quiet()
        && scene.has_answers(&[(Port(S2, Due), Fired(1))])
        && scene.shows(S2, Registrar::Empty, (false, false), 0)
        && scene.has_groups(S2, &[])
        && scene.net.quiet()
        && scene.net.in_step()
}

fn parts_and_leaves(alloc: Global) -> bool {
    match (Scene::of(alloc), Mac::new(GROUP)) {
        (Some(mut scene), Some(mac)) => {
            joins(&mut scene, mac)
                && takes(&mut scene)
                && scene.has_answers(asking_again(mac).as_slice())
                && parts(&mut scene, mac)
                && leaves(&mut scene)
        }
        _ => false,
    }
}

#[test]
fn who_parts_leaves_the_group_after_leave_time(rt: HostRuntime) {
    assert!(rt; parts_and_leaves(rt.alloc()));
}

// The first station joins two groups, the one of the greater address first, and says so in one PDU.
fn joining_both(first: Mac, second: Mac) -> [(GroupEvent, GroupReply); 6] {
    [
        (Join(NodeNo(1), second), Done),
        (Join(NodeNo(1), first), Done),
        (Port(S1, Settle), Settled(2)),
        (Port(S1, Send), Sent(25)),
        (Carry(S1), Done),
        (Port(S2, Work), Received(2)),
    ]
}

fn joins_both(alloc: Global) -> bool {
    match (Scene::of(alloc), Mac::new(GROUP), Mac::new(SECOND)) {
        (Some(mut scene), Some(first), Some(second)) => {
            scene.has_answers(joining_both(first, second).as_slice())
                && scene.has_groups(S2, &[GROUP, SECOND])
                && scene.has_groups(S1, &[])
        }
        _ => false,
    }
}

#[test]
fn groups_are_listed_by_their_addresses(rt: HostRuntime) {
    assert!(rt; joins_both(rt.alloc()));
}
