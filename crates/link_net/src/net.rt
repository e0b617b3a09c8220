//! A network of nodes of one kind, what it shows, and one event of it.

ghost use Rattle.std.specs.Prelude.{◌≡◌, map, length, Some, IfOk, OnErr};
ghost use Rattle.std.specs.List.{list_all};
ghost use Rattle.tree_topology.specs.Topology.{HasNode, HasPort};
ghost use Rattle.attribute_propagation.specs.Ports.{IsLinkPort};
ghost use Rattle.link_net.specs.Net.{CanHappen, IsEventInRange, inbox, is_busy_at, is_in_step, is_quiet, net_step, net_with, node_at, seen};
ghost use Rattle.link_net.specs.Kept.{AreNew, IsKeptNet};

use crate::events::{NetEvent, NetReply};
use crate::happen::{happen, place};
use crate::laws::{a_network_begins_well, every_event_keeps_it};
use crate::node::LinkNode;
use srp_base::{Cs, EgressPort, NoMemory, NodeNo};
use std::alloc::Global;
use std::marker::Model;
use tree_topology::Tree;

/// A tree, one clock, and a node for each of the tree's. Contracts see a `NetState` of the nodes,
/// and what they say of it they say of the nodes' states.
#[derive(Drop)]
pub struct Net<N: LinkNode> {
    tree: Tree,
    clock: Cs,
    nodes: Vec<N>,
}

impl<N: LinkNode> Model for Net<N> {
    ghost use Rattle.std.specs.Prelude.{map};
    ghost use Rattle.link_net.specs.Net.{NetState, net_with};
    ghost use Rattle.link_net.specs.Kept.{IsKeptNet};

    ghost Value = { NetState N };

    ghost view = { λ w. net_with w.tree w.clock w.nodes.items };

    ghost invariant = { λ w. IsKeptNet N.meaning
        (net_with w.tree w.clock (map N.state w.nodes.items)) };
}

impl<N: LinkNode> Net<N> {
    /// The network of a tree at its start, at moment 0: its nodes are new ones, one for each node
    /// of the tree, in the order of their numbers.
    pub fn new(tree: Tree, nodes: Vec<N>) -> Net<N>
        requires { AreNew N.meaning tree (map N.state nodes.items) }
        ensures { seen N.state result
            ≡ net_with tree (record { 0 = 0 }) (map N.state nodes.items) }
    {
        a_network_begins_well::<N>();
        Net {
            tree,
            clock: Cs(0),
            nodes,
        }
    }

    /// What every network keeps, whatever has happened in it: a node for each of its tree's, which
    /// keeps what a node of its kind keeps, and both duties of each link. It is a law, and does
    /// nothing.
    pub fn keeps(&self)
        ensures { IsKeptNet N.meaning (seen N.state self.now) }
    {
        let _ = &self.tree;
    }

    /// Lets one event happen, and answers what came of it: a request and a port's step as the node
    /// does, `Missed` comes exactly where no PDU has the index, or the inbox doesn't reach to that
    /// of a forged one, and `Done` for all else. The nodes and ports that the event names exist, a
    /// station asks, a forged PDU is as short as a frame allows, and the clock goes on from below
    /// 2^61. After want of memory the network is as it was.
    pub fn step(
        &mut self,
        event: NetEvent<N::Request, N::Step, N::Pdu>,
    ) -> Result<NetReply<N::Reply>, NoMemory>
        requires { CanHappen N.meaning event (seen N.state self.old) }
        ensures ok { IfOk result (λ reply. net_step N.meaning event (seen N.state self.old)
            ≡ (seen N.state self.new, reply)) }
        ensures err { OnErr result (seen N.state self.new ≡ seen N.state self.old) }
    {
        every_event_keeps_it::<N>();
        fits::<N>(&event);
        happen(&self.tree, &mut self.clock, &mut self.nodes, event)
    }

    /// The clock, in cs from the start.
    pub fn now(&self) -> Cs
        ensures { result ≡ self.now.clock }
    {
        self.clock
    }

    /// The tree of the nodes and links.
    pub fn tree(&self) -> &Tree
        ensures { result.now ≡ self.now.tree }
    {
        &self.tree
    }

    /// The node of a number. The node exists.
    pub fn node(&self, number: NodeNo) -> &N
        requires { HasNode self.now.tree number.0 }
        ensures { node_at number (seen N.state self.now) ≡ Some (N.state result.now) }
    {
        &self.nodes[place(number)]
    }

    /// The node of a port. The port exists.
    pub fn node_of(&self, at: EgressPort) -> &N
        requires { HasPort self.now.tree at }
        ensures node { node_at at.node (seen N.state self.now) ≡ Some (N.state result.now) }
        ensures port { IsLinkPort at.port (N.meaning.ports_of (N.state result.now)) }
    {
        &self.nodes[place(at.node)]
    }

    /// The number of PDUs that came in at a port and wait there. The port exists.
    pub fn pending(&self, at: EgressPort) -> usize
        requires { HasPort self.now.tree at }
        ensures { result ≡ length (inbox N.meaning at (seen N.state self.now)) }
    {
        self.node_of(at).pending(at.port)
    }

    /// Whether there is something to do at a node at this moment. The node exists.
    pub fn is_busy(&self, number: NodeNo) -> bool
        requires { HasNode self.now.tree number.0 }
        ensures { result ≡ is_busy_at N.meaning number (seen N.state self.now) }
    {
        self.node(number).is_busy(self.clock)
    }

    /// Whether nothing is pending at any node.
    pub fn quiet(&self) -> bool
        ensures { result ≡ is_quiet N.meaning (seen N.state self.now) }
    {
        are_still(self.nodes.as_slice())
    }

    /// Whether every participant is sound.
    pub fn in_step(&self) -> bool
        ensures { result ≡ is_in_step N.meaning (seen N.state self.now) }
    {
        are_sound(self.nodes.as_slice())
    }

    /// The allocator that the nodes were made with.
    pub fn allocator(&self) -> Global {
        *self.nodes.allocator()
    }
}

// The types of a request and of a PDU say that an event is in range.
fn fits<N: LinkNode>(event: &NetEvent<N::Request, N::Step, N::Pdu>)
    ensures { IsEventInRange N.meaning event.now }
{
    match event {
        NetEvent::Request(_, request) => N::keeps_request(*request),
        NetEvent::Forge(_, _, pdu) => N::keeps_pdu(pdu),
        NetEvent::Port(_, _)
        | NetEvent::Lose(_, _)
        | NetEvent::Repeat(_, _)
        | NetEvent::Carry(_)
        | NetEvent::Clock => {}
    }
}

// Whether nothing is pending at any of these nodes.
fn are_still<N: LinkNode>(nodes: &[N]) -> bool
    ensures { result ≡ list_all (λ n. N.meaning.is_still (N.state n)) nodes.now }
{
    nodes.iter().all(|node| node.is_still())
}

// Whether every participant of these nodes is sound.
fn are_sound<N: LinkNode>(nodes: &[N]) -> bool
    ensures { result ≡ list_all (λ n. N.meaning.is_sound (N.state n)) nodes.now }
{
    nodes.iter().all(|node| node.is_sound())
}
