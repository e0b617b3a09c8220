//! A network that runs MMRP, how it begins, what it shows, and one event of it.

ghost use Rattle.std.specs.Prelude.{◌≡◌, length, Some, IfOk, OnErr};
ghost use Rattle.mmrp.specs.Kept.{IsKeptNet};
ghost use Rattle.mmrp.specs.Net.{CanHappen, group_step, inbox, is_busy_at, is_in_step, is_quiet, net_event as event_of, node_reply as answer_of, part_at, port_step as step_of, reply_of as reply_from};
ghost use Rattle.mmrp.specs.Match.{is_joined_at, registrar_at};
ghost use Rattle.mmrp.specs.Start.{net_of};
ghost use Rattle.tree_topology.specs.Topology.{HasNode, HasPort};

use crate::app::{GroupNode, MmrpApp};
use crate::events::{GroupEvent, GroupReply, GroupStep};
use crate::laws::file_nodes_are_new;
use crate::start::new_nodes;
use group_file::GroupScenario;
use link_app::{KeyRequest, Wire};
use link_net::{Net, NetEvent, NetReply};
use link_node::{PortStep, StepReply};
use mrp_participant::Participant;
use registrar::Registrar;
use srp_base::{Cs, EgressPort, Mac, NoMemory, NodeNo};
use std::alloc::Global;
use std::marker::Model;
use tree_topology::Tree;

/// A network that runs MMRP (IEEE Std 802.1Q-2018, 10.12). Contracts see a `NetGroups`.
#[derive(Drop)]
pub struct GroupNet {
    net: Net<GroupNode>,
}

impl Model for GroupNet {
    ghost use Rattle.link_net.specs.Net.{seen};
    ghost use Rattle.link_node.specs.State.{state_of};
    ghost use Rattle.mmrp.specs.Net.{NetGroups};

    ghost Value = { NetGroups };

    ghost view = { λ g. seen (state_of (λ side. side.state)) g.net };
}

impl GroupNet {
    /// The network of a group scenario at its start: nothing is joined, no PDU waits, the clock is
    /// at 0.
    pub fn of(alloc: Global, scenario: &GroupScenario) -> Result<GroupNet, NoMemory>
        ensures { IfOk result (λ net. net ≡ net_of scenario.now.tree scenario.now.leave_time
            scenario.now.periodic scenario.now.nodes scenario.now.links) }
    {
        file_nodes_are_new();
        scenario.keeps_rules();
        let _few = scenario.tree.links();
        let tree = scenario.tree.copy()?;
        let nodes = new_nodes(
            alloc,
            scenario.leave_time,
            scenario.periodic,
            scenario.nodes.as_slice(),
            scenario.links.as_slice(),
        )?;
        Ok(GroupNet {
            net: Net::new(tree, nodes),
        })
    }

    /// What every network keeps, whatever has happened in it: a node for each of its tree's, both
    /// duties of each link, and the flat rule at every port. It is a law, and does nothing.
    pub fn keeps(&self)
        ensures { IsKeptNet self.now }
    {
        self.net.keeps();
    }

    /// Lets one event happen, and answers what came of it: a port's step answers as `GroupStep`
    /// says, `Missed` comes exactly where no PDU has the index, and `Done` for all else. The nodes
    /// and ports that the event names exist, a station joins and parts, and the clock goes on from
    /// below 2^61. After want of memory the network is as it was.
    #[tactic(auto, using(crate::proofs::NetEvents::step_is))]
    pub fn step(&mut self, event: GroupEvent) -> Result<GroupReply, NoMemory>
        requires { CanHappen event self.old }
        ensures ok { IfOk result (λ reply. group_step event self.old ≡ (self.new, reply)) }
        ensures err { OnErr result (self.new ≡ self.old) }
    {
        let reply = self.net.step(net_event(event))?;
        Ok(reply_of(reply))
    }

    /// The clock, in cs from the start.
    pub fn now(&self) -> Cs
        ensures { result ≡ self.now.clock }
    {
        self.net.now()
    }

    /// The tree of the nodes and links.
    pub fn tree(&self) -> &Tree
        ensures { result.now ≡ self.now.tree }
    {
        self.net.tree()
    }

    /// The state of the registrar of a MAC address at a port, MT where there is no row. The port
    /// exists.
    pub fn registrar(&self, at: EgressPort, mac: Mac) -> Registrar
        requires { HasPort self.now.tree at }
        ensures { result ≡ registrar_at self.now mac at }
    {
        self.participant(at).registrar(mac)
    }

    /// The number of PDUs that came in at a port and wait there. The port exists.
    pub fn pending(&self, at: EgressPort) -> usize
        requires { HasPort self.now.tree at }
        ensures { result ≡ length (inbox at self.now) }
    {
        self.net.pending(at)
    }

    /// Whether a node is busy: a PDU came in at some port, a timer is due there, or a MAC address
    /// awaits. The node exists.
    pub fn is_busy(&self, node: NodeNo) -> bool
        requires { HasNode self.now.tree node.0 }
        ensures { result ≡ is_busy_at node self.now }
    {
        self.net.is_busy(node)
    }

    // The participant of a port.
    pub(crate) fn participant(&self, at: EgressPort) -> &Participant<MmrpApp>
        requires { HasPort self.now.tree at }
        ensures { part_at at self.now ≡ Some result.now.state }
    {
        self.net.node_of(at).app().participant(at.port)
    }

    // Whether a node is a station that has joined a MAC address. The node exists.
    pub(crate) fn has_joined(&self, node: NodeNo, mac: Mac) -> bool
        requires { HasNode self.now.tree node.0 }
        ensures { result ≡ is_joined_at self.now mac node.0 }
    {
        self.net.keeps();
        self.net.node(node).app().declares(mac)
    }

    // The allocator that the network was made with.
    pub(crate) fn allocator(&self) -> Global {
        self.net.allocator()
    }

    /// Whether nothing is pending: no PDU is on its way, every Applicant is VO or QA, every
    /// Registrar IN or MT, every LeaveAll machine Passive, and no MAC address awaits.
    pub fn quiet(&self) -> bool
        ensures { result ≡ is_quiet self.now }
    {
        self.net.quiet()
    }

    /// Whether every port is sound: it has sent a LeaveAll since a PDU was last lost on its link,
    /// if one was.
    pub fn in_step(&self) -> bool
        ensures { result ≡ is_in_step self.now }
    {
        self.net.in_step()
    }
}

// The event of a network of nodes that an event of this one is.
fn net_event(event: GroupEvent) -> NetEvent<KeyRequest<Mac>, PortStep<(), Mac>, Wire<()>>
    ensures { result ≡ event_of event }
{
    match event {
        GroupEvent::Join(node, mac) => NetEvent::Request(node, KeyRequest::Declare(mac)),
        GroupEvent::Part(node, mac) => NetEvent::Request(node, KeyRequest::Withdraw(mac)),
        GroupEvent::Port(at, step) => NetEvent::Port(at, port_step(step)),
        GroupEvent::Lose(at, index) => NetEvent::Lose(at, index),
        GroupEvent::Repeat(at, index) => NetEvent::Repeat(at, index),
        GroupEvent::Carry(at) => NetEvent::Carry(at),
        GroupEvent::Clock => NetEvent::Clock,
    }
}

// The step of a node that a step is.
fn port_step(step: GroupStep) -> PortStep<(), Mac>
    ensures { result ≡ step_of step }
{
    match step {
        GroupStep::Work => PortStep::Work,
        GroupStep::Due => PortStep::Due,
        GroupStep::Settle => PortStep::Settle,
        GroupStep::Send => PortStep::Send(()),
    }
}

// The answer of this network that a network's is.
fn reply_of(reply: NetReply<StepReply>) -> GroupReply
    ensures { result ≡ reply_from reply }
{
    match reply {
        NetReply::Node(reply) => node_reply(reply),
        NetReply::Done => GroupReply::Done,
        NetReply::Missed => GroupReply::Missed,
    }
}

// The answer of this network that a node's is.
fn node_reply(reply: StepReply) -> GroupReply
    ensures { result ≡ answer_of reply }
{
    match reply {
        StepReply::Nothing => GroupReply::Nothing,
        StepReply::Discarded(place) => GroupReply::Discarded(place),
        StepReply::Received(count) => GroupReply::Received(count),
        StepReply::Fired(count) => GroupReply::Fired(count),
        StepReply::Settled(count) => GroupReply::Settled(count),
        StepReply::Silent => GroupReply::Silent,
        StepReply::Sent(count) => GroupReply::Sent(count),
        StepReply::Taken => GroupReply::Done,
    }
}
