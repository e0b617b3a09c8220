//! What one event does to the nodes of a network.

ghost use Rattle.std.specs.Prelude.{◌≡◌, ◌<◌, ◌≤◌, ◌-◌, ◌^◌, [], map, length, slice_get, Some, IfOk, OnOk, OnErr, IfErr};
ghost use Rattle.std.specs.{List.AllByRecursion, Option.option_map_or};
ghost use Rattle.tree_topology.specs.{Topology.Topology, Topology.HasPort, Ports.peer_of};
ghost use Rattle.attribute_propagation.specs.Ports.{place_of};
ghost use Rattle.link_net.specs.Meaning.{carried_at, forged_at, lost_at, repeated_at};
ghost use Rattle.link_net.specs.NodeLaws.{next_of};
ghost use Rattle.link_net.specs.Net.{CanHappen, StandsAt, after_step, name_in as name_in_spec, net_step, net_with, nodes_with, reaches as reaches_spec};
ghost use Rattle.link_net.specs.Kept.{IsKeptNet};

use crate::events::{NetEvent, NetReply};
use crate::node::LinkNode;
use srp_base::{Cs, EgressPort, NoMemory, NodeNo, Seq};
use tree_topology::Tree;
use tree_topology::laws::ports;

// The place of a node in a list of all.
pub(crate) fn place(number: NodeNo) -> usize
    requires { 1 ≤ number.0 }
    ensures { result ≡ number.0 - 1 }
{
    usize::from(number.0) - 1
}

/// The application of a node asks for something.
pub(crate) fn ask<N: LinkNode>(
    nodes: &mut Vec<N>,
    number: NodeNo,
    request: N::Request,
) -> Result<NetReply<N::Reply>, NoMemory>
    requires some { 1 ≤ number.0 }
    requires few { number.0 ≤ length (map N.state nodes.old.items) }
    requires can { (s : N.meaning.State)
        → slice_get (map N.state nodes.old.items) (number.0 - 1) ≡ Some s
        → N.meaning.CanAsk request s }
    ensures ok { IfOk result (λ reply. (tree : Topology) (clock : Cs)
        → after_step N.meaning number (N.meaning.asked request)
        (net_with tree clock (map N.state nodes.old.items))
        ≡ (net_with tree clock (map N.state nodes.new.items), reply)) }
    ensures err { OnErr result (map N.state nodes.new.items ≡ map N.state nodes.old.items) }
{
    let reply = nodes[place(number)].ask(request)?;
    Ok(NetReply::Node(reply))
}

/// A link port makes a step at the moment `now`.
pub(crate) fn make_step<N: LinkNode>(
    nodes: &mut Vec<N>,
    now: Cs,
    at: EgressPort,
    step: N::Step,
) -> Result<NetReply<N::Reply>, NoMemory>
    requires now { now.0 < 2 ^ 62 }
    requires here { StandsAt N.meaning at (map N.state nodes.old.items) }
    ensures ok { IfOk result (λ reply. (tree : Topology) (clock : Cs)
        → after_step N.meaning at.node (N.meaning.stepped now step (place_of at.port))
        (net_with tree clock (map N.state nodes.old.items))
        ≡ (net_with tree clock (map N.state nodes.new.items), reply)) }
    ensures err { OnErr result (map N.state nodes.new.items ≡ map N.state nodes.old.items) }
{
    let reply = nodes[place(at.node)].step(now, at.port, step)?;
    Ok(NetReply::Node(reply))
}

// The application of the PDU of an index in a port's inbox.
fn name_in<N: LinkNode>(nodes: &Vec<N>, at: EgressPort, index: u32) -> Option<N::Name>
    requires { StandsAt N.meaning at (map N.state nodes.now.items) }
    ensures { (tree : Topology) (clock : Cs) → result
        ≡ name_in_spec N.meaning at index (net_with tree clock (map N.state nodes.now.items)) }
{
    nodes[place(at.node)].name_at(at.port, index as usize)
}

// The participant of an application at a port is sound no more.
fn spoil<N: LinkNode>(nodes: &mut Vec<N>, at: EgressPort, name: N::Name)
    requires { StandsAt N.meaning at (map N.state nodes.old.items) }
    ensures { map N.state nodes.new.items
        ≡ nodes_with at.node (N.meaning.spoilt name (place_of at.port))
        (map N.state nodes.old.items) }
{
    nodes[place(at.node)].spoil(at.port, name);
}

// The PDU of an index, which is there, is lost from a port's inbox, and the participant of its
// application is sound no more.
fn lose_at<N: LinkNode>(nodes: &mut Vec<N>, at: EgressPort, index: u32, name: N::Name)
    requires here { StandsAt N.meaning at (map N.state nodes.old.items) }
    requires there { (s : N.meaning.State)
        → slice_get (map N.state nodes.old.items) (at.node.0 - 1) ≡ Some s
        → index < length (N.meaning.inbox (place_of at.port) s) }
    ensures after { map N.state nodes.new.items ≡ nodes_with at.node
        (λ s. N.meaning.spoilt name (place_of at.port)
        (lost_at N.meaning (place_of at.port) index s)) (map N.state nodes.old.items) }
    ensures stand { (p : EgressPort) → StandsAt N.meaning p (map N.state nodes.old.items)
        → StandsAt N.meaning p (map N.state nodes.new.items) }
{
    N::keeps_laws();
    let node = &mut nodes[place(at.node)];
    node.lose(at.port, index as usize);
    node.spoil(at.port, name);
}

/// The PDU of an index in a port's inbox is lost, where there is one.
pub(crate) fn lose<N: LinkNode>(
    tree: &Tree,
    nodes: &mut Vec<N>,
    at: EgressPort,
    index: u32,
) -> NetReply<N::Reply>
    requires port { HasPort tree.now at }
    requires here { StandsAt N.meaning at (map N.state nodes.old.items) }
    requires there { StandsAt N.meaning (peer_of tree.now.links at) (map N.state nodes.old.items) }
    ensures { (clock : Cs) → net_step N.meaning (NetEvent.Lose at index)
        (net_with tree.now clock (map N.state nodes.old.items))
        ≡ (net_with tree.now clock (map N.state nodes.new.items), result) }
{
    match name_in(nodes, at, index) {
        None => NetReply::Missed,
        Some(name) => {
            lose_at(nodes, at, index, name);
            spoil(nodes, tree.peer(at), name);
            NetReply::Done
        }
    }
}

// The PDU of an index, which is there, is in a port's inbox twice.
fn repeat_at<N: LinkNode>(nodes: &mut Vec<N>, at: EgressPort, index: u32) -> Result<(), NoMemory>
    requires here { StandsAt N.meaning at (map N.state nodes.old.items) }
    requires there { (s : N.meaning.State)
        → slice_get (map N.state nodes.old.items) (at.node.0 - 1) ≡ Some s
        → index < length (N.meaning.inbox (place_of at.port) s) }
    ensures ok { OnOk result (map N.state nodes.new.items
        ≡ nodes_with at.node (repeated_at N.meaning (place_of at.port) index)
        (map N.state nodes.old.items)) }
    ensures err { OnErr result (map N.state nodes.new.items ≡ map N.state nodes.old.items) }
{
    nodes[place(at.node)].repeat(at.port, index as usize)?;
    Ok(())
}

/// It is there twice.
pub(crate) fn repeat<N: LinkNode>(
    nodes: &mut Vec<N>,
    at: EgressPort,
    index: u32,
) -> Result<NetReply<N::Reply>, NoMemory>
    requires { StandsAt N.meaning at (map N.state nodes.old.items) }
    ensures ok { IfOk result (λ reply. (tree : Topology) (clock : Cs)
        → net_step N.meaning (NetEvent.Repeat at index)
        (net_with tree clock (map N.state nodes.old.items))
        ≡ (net_with tree clock (map N.state nodes.new.items), reply)) }
    ensures err { OnErr result (map N.state nodes.new.items ≡ map N.state nodes.old.items) }
{
    match name_in(nodes, at, index) {
        None => Ok(NetReply::Missed),
        Some(_) => {
            repeat_at(nodes, at, index)?;
            Ok(NetReply::Done)
        }
    }
}

// Whether the inbox of a port reaches to an index.
fn reaches<N: LinkNode>(nodes: &Vec<N>, at: EgressPort, index: u32) -> bool
    requires { StandsAt N.meaning at (map N.state nodes.now.items) }
    ensures { (tree : Topology) (clock : Cs) → result
        ≡ reaches_spec N.meaning at index (net_with tree clock (map N.state nodes.now.items)) }
{
    (index as usize) <= nodes[place(at.node)].pending(at.port)
}

// A PDU stands at an index of a port's inbox, which reaches so far, and the participant of its
// application is sound no more.
fn forge_at<N: LinkNode>(
    nodes: &mut Vec<N>,
    at: EgressPort,
    index: u32,
    name: N::Name,
    pdu: N::Pdu,
) -> Result<(), NoMemory>
    requires here { StandsAt N.meaning at (map N.state nodes.old.items) }
    requires reaches { (s : N.meaning.State)
        → slice_get (map N.state nodes.old.items) (at.node.0 - 1) ≡ Some s
        → index ≤ length (N.meaning.inbox (place_of at.port) s) }
    requires short { N.meaning.IsShort pdu }
    ensures after { OnOk result (map N.state nodes.new.items ≡ nodes_with at.node
        (λ s. N.meaning.spoilt name (place_of at.port)
        (forged_at N.meaning (place_of at.port) index pdu s)) (map N.state nodes.old.items)) }
    ensures stand { OnOk result
        ((p : EgressPort) → StandsAt N.meaning p (map N.state nodes.old.items)
        → StandsAt N.meaning p (map N.state nodes.new.items)) }
    ensures err { OnErr result (map N.state nodes.new.items ≡ map N.state nodes.old.items) }
{
    N::keeps_laws();
    let node = &mut nodes[place(at.node)];
    node.forge(at.port, index as usize, pdu)?;
    node.spoil(at.port, name);
    Ok(())
}

/// A PDU that no neighbour sent stands at an index in a port's inbox, where that reaches so far.
pub(crate) fn forge<N: LinkNode>(
    tree: &Tree,
    nodes: &mut Vec<N>,
    at: EgressPort,
    index: u32,
    pdu: N::Pdu,
) -> Result<NetReply<N::Reply>, NoMemory>
    requires port { HasPort tree.now at }
    requires here { StandsAt N.meaning at (map N.state nodes.old.items) }
    requires there { StandsAt N.meaning (peer_of tree.now.links at) (map N.state nodes.old.items) }
    requires short { N.meaning.IsShort pdu }
    ensures ok { IfOk result (λ reply. (clock : Cs)
        → net_step N.meaning (NetEvent.Forge at index pdu)
        (net_with tree.now clock (map N.state nodes.old.items))
        ≡ (net_with tree.now clock (map N.state nodes.new.items), reply)) }
    ensures err { OnErr result (map N.state nodes.new.items ≡ map N.state nodes.old.items) }
{
    if !reaches(nodes, at, index) {
        return Ok(NetReply::Missed);
    }
    let name = N::name_of(&pdu);
    forge_at(nodes, at, index, name, pdu)?;
    spoil(nodes, tree.peer(at), name);
    Ok(NetReply::Done)
}

// Takes the PDUs of a port's outbox.
fn take<N: LinkNode>(nodes: &mut Vec<N>, at: EgressPort) -> Seq<N::Pdu>
    requires { StandsAt N.meaning at (map N.state nodes.old.items) }
    ensures after { map N.state nodes.new.items
        ≡ nodes_with at.node (N.meaning.with_outbox (place_of at.port) [])
        (map N.state nodes.old.items) }
    ensures taken { result ≡ option_map_or (N.meaning.outbox (place_of at.port))
        (slice_get (map N.state nodes.old.items) (at.node.0 - 1)) [] }
    ensures short { AllByRecursion N.meaning.IsShort result }
    ensures stand { (p : EgressPort) → StandsAt N.meaning p (map N.state nodes.old.items)
        → StandsAt N.meaning p (map N.state nodes.new.items) }
{
    N::keeps_laws();
    nodes[place(at.node)].take_out(at.port)
}

// Puts PDUs behind those of a port's inbox; hands them back where memory runs out.
fn give<N: LinkNode>(
    nodes: &mut Vec<N>,
    at: EgressPort,
    pdus: Seq<N::Pdu>,
) -> Result<(), (NoMemory, Seq<N::Pdu>)>
    requires here { StandsAt N.meaning at (map N.state nodes.old.items) }
    requires short { AllByRecursion N.meaning.IsShort pdus }
    ensures ok { OnOk result (map N.state nodes.new.items
        ≡ nodes_with at.node (carried_at N.meaning (place_of at.port) pdus)
        (map N.state nodes.old.items)) }
    ensures err { OnErr result (map N.state nodes.new.items ≡ map N.state nodes.old.items) }
    ensures back { IfErr result (λ e. e.1 ≡ pdus) }
{
    nodes[place(at.node)].put_in(at.port, pdus)
}

// Puts PDUs back into a port's outbox, which is empty.
fn put_back<N: LinkNode>(nodes: &mut Vec<N>, at: EgressPort, pdus: Seq<N::Pdu>)
    requires here { StandsAt N.meaning at (map N.state nodes.old.items) }
    requires short { AllByRecursion N.meaning.IsShort pdus }
    requires empty { (s : N.meaning.State)
        → slice_get (map N.state nodes.old.items) (at.node.0 - 1) ≡ Some s
        → N.meaning.outbox (place_of at.port) s ≡ [] }
    ensures { map N.state nodes.new.items
        ≡ nodes_with at.node (N.meaning.with_outbox (place_of at.port) pdus)
        (map N.state nodes.old.items) }
{
    nodes[place(at.node)].put_back(at.port, pdus);
}

/// The PDUs of a port's outbox come in at its peer.
pub(crate) fn carry<N: LinkNode>(
    tree: &Tree,
    nodes: &mut Vec<N>,
    at: EgressPort,
) -> Result<NetReply<N::Reply>, NoMemory>
    requires port { HasPort tree.now at }
    requires here { StandsAt N.meaning at (map N.state nodes.old.items) }
    requires there { StandsAt N.meaning (peer_of tree.now.links at) (map N.state nodes.old.items) }
    ensures ok { IfOk result (λ reply. (clock : Cs) → net_step N.meaning (NetEvent.Carry at)
        (net_with tree.now clock (map N.state nodes.old.items))
        ≡ (net_with tree.now clock (map N.state nodes.new.items), reply)) }
    ensures err { OnErr result (map N.state nodes.new.items ≡ map N.state nodes.old.items) }
{
    N::keeps_laws();
    let pdus = take(nodes, at);
    if pdus.is_empty() {
        return Ok(NetReply::Done);
    }
    match give(nodes, tree.peer(at), pdus) {
        Ok(()) => Ok(NetReply::Done),
        Err((error, pdus)) => {
            put_back(nodes, at, pdus);
            Err(error)
        }
    }
}

// Every node gets ready for the clock. Where memory runs out, some are, and all states are as they
// were.
fn make_ready<N: LinkNode>(nodes: &mut Vec<N>) -> Result<(), NoMemory>
    ensures states { map N.state nodes.new.items ≡ map N.state nodes.old.items }
    ensures ready { OnOk result (AllByRecursion N.is_ready nodes.new.items) }
{
    for i in 0..nodes.len() {
        nodes[i].make_ready()?;
    }
    Ok(())
}

// The clock of every node, which is ready for it, has come to the moment `now`.
fn tick_each<N: LinkNode>(nodes: &mut Vec<N>, now: Cs)
    requires can { AllByRecursion (N.meaning.CanTick now) (map N.state nodes.old.items) }
    requires ready { AllByRecursion N.is_ready nodes.old.items }
    ensures { map N.state nodes.new.items
        ≡ map (N.meaning.ticked now) (map N.state nodes.old.items) }
{
    for i in 0..nodes.len() {
        nodes[i].tick(now);
    }
}

/// The clock of every node has come to the moment `now`, or that of none where memory runs out:
/// each gets ready for it before the first goes on.
pub(crate) fn tick<N: LinkNode>(nodes: &mut Vec<N>, now: Cs) -> Result<(), NoMemory>
    requires { AllByRecursion (N.meaning.CanTick now) (map N.state nodes.old.items) }
    ensures ok { OnOk result (map N.state nodes.new.items
        ≡ map (N.meaning.ticked now) (map N.state nodes.old.items)) }
    ensures err { OnErr result (map N.state nodes.new.items ≡ map N.state nodes.old.items) }
{
    make_ready(nodes)?;
    tick_each(nodes, now);
    Ok(())
}

// The clock goes on by 1 cs.
fn go_on<N: LinkNode>(clock: &mut Cs, nodes: &mut Vec<N>) -> Result<NetReply<N::Reply>, NoMemory>
    requires few { clock.old.0 < 2 ^ 61 }
    requires can { AllByRecursion (N.meaning.CanTick (next_of clock.old))
        (map N.state nodes.old.items) }
    ensures ok { IfOk result (λ reply. (tree : Topology) → net_step N.meaning NetEvent.Clock
        (net_with tree clock.old (map N.state nodes.old.items))
        ≡ (net_with tree clock.new (map N.state nodes.new.items), reply)) }
    ensures clock { OnErr result (clock.new ≡ clock.old) }
    ensures nodes { OnErr result (map N.state nodes.new.items ≡ map N.state nodes.old.items) }
{
    let now = Cs(clock.0 + 1);
    tick(nodes, now)?;
    *clock = now;
    Ok(NetReply::Done)
}

/// One event happens in the network of a tree, at a moment.
pub(crate) fn happen<N: LinkNode>(
    tree: &Tree,
    clock: &mut Cs,
    nodes: &mut Vec<N>,
    event: NetEvent<N::Request, N::Step, N::Pdu>,
) -> Result<NetReply<N::Reply>, NoMemory>
    requires can { CanHappen N.meaning event
        (net_with tree.now clock.old (map N.state nodes.old.items)) }
    requires kept { IsKeptNet N.meaning
        (net_with tree.now clock.old (map N.state nodes.old.items)) }
    ensures ok { IfOk result (λ reply. net_step N.meaning event
        (net_with tree.now clock.old (map N.state nodes.old.items))
        ≡ (net_with tree.now clock.new (map N.state nodes.new.items), reply)) }
    ensures clock { OnErr result (clock.new ≡ clock.old) }
    ensures nodes { OnErr result (map N.state nodes.new.items ≡ map N.state nodes.old.items) }
{
    N::keeps_laws();
    ports();
    match event {
        NetEvent::Request(number, request) => ask(nodes, number, request),
        NetEvent::Port(at, step) => make_step(nodes, *clock, at, step),
        NetEvent::Lose(at, index) => Ok(lose(tree, nodes, at, index)),
        NetEvent::Repeat(at, index) => repeat(nodes, at, index),
        NetEvent::Forge(at, index, pdu) => forge(tree, nodes, at, index, pdu),
        NetEvent::Carry(at) => carry(tree, nodes, at),
        NetEvent::Clock => go_on(clock, nodes),
    }
}
