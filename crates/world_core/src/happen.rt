//! What one event does to the nodes of a network.

ghost use Rattle.std.specs.Prelude.{◌≡◌, ◌<◌, ◌≤◌, ◌-◌, ◌^◌, [], true, map, length, slice_get, Some, IfOk, OnOk, OnErr, IfErr, if◌then◌else◌};
ghost use Rattle.std.specs.{Option.option_map_or, List.AllByRecursion};
ghost use Rattle.tree_topology.specs.{Topology.Topology, Topology.HasPort, Ports.peer_of};
ghost use Rattle.attribute_propagation.specs.Ports.{place_of};
ghost use Rattle.node_core.specs.{State.NodeState, State.box_at, Holding.states_in, Wires.IsShort, Wires.AreShort, Step.CanStep, Step.node_step, Links.with_outbox, Links.with_carried, Links.lost_at, Links.repeated_at, Links.forged_at, Links.spoilt_at};
ghost use Rattle.world_core.specs.Marks.{MarksState};
ghost use Rattle.world_core.specs.World.{StandsAt, nodes_with, step_of_node, app_of, reaches, with_unsound_ends, with_loss, after_repeat, with_forgery, world_step, world_with};

use crate::events::{WorldEvent, WorldReply};
use node_core::{Node, NodeEvent, StepReply, Wire};
use srp_base::{App, EgressPort, NoMemory, NodeNo, Seq};
use tree_topology::Tree;

// The place of a node in a list of all.
pub(crate) fn place(number: NodeNo) -> usize
    requires { 1 ≤ number.0 }
    ensures { result ≡ number.0 - 1 }
{
    usize::from(number.0) - 1
}

/// A node makes a step.
pub(crate) fn make_step(
    nodes: &mut Vec<Node>,
    number: NodeNo,
    event: NodeEvent,
) -> Result<StepReply, NoMemory>
    requires some { 1 ≤ number.0 }
    requires few { number.0 ≤ length (states_in nodes.old.items) }
    requires can { (s : NodeState) → slice_get (states_in nodes.old.items) (number.0 - 1) ≡ Some s
        → CanStep event s }
    ensures ok { IfOk result (λ reply. (tree : Topology) (m : MarksState)
        → step_of_node number event (world_with tree (states_in nodes.old.items) m)
        ≡ (world_with tree (states_in nodes.new.items) m, WorldReply.Step reply)) }
    ensures err { OnErr result (states_in nodes.new.items ≡ states_in nodes.old.items) }
{
    let reply = nodes[place(number)].step(event)?;
    Ok(reply)
}

// Every node makes room for its next clock. Where memory runs out, some have room, and all are as
// they were.
fn make_room(nodes: &mut Vec<Node>) -> Result<(), NoMemory>
    ensures states { states_in nodes.new.items ≡ states_in nodes.old.items }
    ensures ready { OnOk result (AllByRecursion (λ n. n.ready ≡ true) nodes.new.items) }
{
    for i in 0..nodes.len() {
        nodes[i].clock_room()?;
    }
    Ok(())
}

// The clock of a node that has room for it goes on.
fn tick(node: &mut Node)
    requires clock { node.old.state.clock.0 < 2 ^ 61 }
    requires ready { node.old.ready ≡ true }
    ensures { node.new.state ≡ (node_step NodeEvent.Clock node.old.state).0 }
{
    if node.step(NodeEvent::Clock).is_err() {
        unreachable!()
    }
}

// The clock of every node goes on; each has room for it.
fn tick_each(nodes: &mut Vec<Node>)
    requires clock { AllByRecursion (λ s. s.clock.0 < 2 ^ 61) (states_in nodes.old.items) }
    requires ready { AllByRecursion (λ n. n.ready ≡ true) nodes.old.items }
    ensures { states_in nodes.new.items
        ≡ map (λ s. (node_step NodeEvent.Clock s).0) (states_in nodes.old.items) }
{
    for i in 0..nodes.len() {
        tick(&mut nodes[i]);
    }
}

/// The clock of every node goes on, or that of none where memory runs out: each makes room for it
/// before the first goes on.
pub(crate) fn tick_all(nodes: &mut Vec<Node>) -> Result<WorldReply, NoMemory>
    requires { AllByRecursion (λ s. s.clock.0 < 2 ^ 61) (states_in nodes.old.items) }
    ensures ok { IfOk result (λ reply. (tree : Topology) (m : MarksState)
        → world_step WorldEvent.Clock (world_with tree (states_in nodes.old.items) m)
        ≡ (world_with tree (states_in nodes.new.items) m, reply)) }
    ensures err { OnErr result (states_in nodes.new.items ≡ states_in nodes.old.items) }
{
    make_room(nodes)?;
    tick_each(nodes);
    Ok(WorldReply::Done)
}

// The application of the PDU of an index in a port's inbox.
pub(crate) fn app_at(nodes: &Vec<Node>, at: EgressPort, index: u32) -> Option<App>
    requires { StandsAt at (states_in nodes.now.items) }
    ensures { (tree : Topology) (m : MarksState) → result
        ≡ app_of at index (world_with tree (states_in nodes.now.items) m) }
{
    nodes[place(at.node)].app_at(at.port, index)
}

// The participant of an application at a port is sound no more.
fn spoil(nodes: &mut Vec<Node>, at: EgressPort, app: App)
    requires { StandsAt at (states_in nodes.old.items) }
    ensures after { states_in nodes.new.items
        ≡ nodes_with at.node (spoilt_at app (place_of at.port)) (states_in nodes.old.items) }
    ensures stand { (p : EgressPort) → StandsAt p (states_in nodes.old.items)
        → StandsAt p (states_in nodes.new.items) }
{
    nodes[place(at.node)].spoil(at.port, app);
}

// Neither end of a port's link is sound any more for an application.
fn spoil_ends(tree: &Tree, nodes: &mut Vec<Node>, at: EgressPort, app: App)
    requires port { HasPort tree.now at }
    requires here { StandsAt at (states_in nodes.old.items) }
    requires there { StandsAt (peer_of tree.now.links at) (states_in nodes.old.items) }
    ensures { (m : MarksState)
        → with_unsound_ends app at (world_with tree.now (states_in nodes.old.items) m)
        ≡ world_with tree.now (states_in nodes.new.items) m }
{
    let peer = tree.peer(at);
    spoil(nodes, at, app);
    spoil(nodes, peer, app);
}

// The PDU of an index, which is there, is lost from a port's inbox.
fn lose_at(nodes: &mut Vec<Node>, at: EgressPort, index: u32)
    requires here { StandsAt at (states_in nodes.old.items) }
    requires there { (s : NodeState)
        → slice_get (states_in nodes.old.items) (at.node.0 - 1) ≡ Some s
        → index < length (box_at (place_of at.port) s.inboxes) }
    ensures after { states_in nodes.new.items
        ≡ nodes_with at.node (lost_at (place_of at.port) index) (states_in nodes.old.items) }
    ensures stand { (p : EgressPort) → StandsAt p (states_in nodes.old.items)
        → StandsAt p (states_in nodes.new.items) }
{
    let _ = nodes[place(at.node)].lose(at.port, index);
}

/// The PDU of an index in a port's inbox is lost, where there is one.
pub(crate) fn lose(tree: &Tree, nodes: &mut Vec<Node>, at: EgressPort, index: u32) -> WorldReply
    requires port { HasPort tree.now at }
    requires here { StandsAt at (states_in nodes.old.items) }
    requires there { StandsAt (peer_of tree.now.links at) (states_in nodes.old.items) }
    ensures { (m : MarksState)
        → with_loss at index (app_of at index (world_with tree.now (states_in nodes.old.items) m))
        (world_with tree.now (states_in nodes.old.items) m)
        ≡ (world_with tree.now (states_in nodes.new.items) m, result) }
{
    match app_at(nodes, at, index) {
        None => WorldReply::Missed,
        Some(app) => {
            lose_at(nodes, at, index);
            spoil_ends(tree, nodes, at, app);
            WorldReply::Done
        }
    }
}

// The PDU of an index, which is there, is in a port's inbox twice.
fn repeat_at(nodes: &mut Vec<Node>, at: EgressPort, index: u32) -> Result<(), NoMemory>
    requires here { StandsAt at (states_in nodes.old.items) }
    requires there { (s : NodeState)
        → slice_get (states_in nodes.old.items) (at.node.0 - 1) ≡ Some s
        → index < length (box_at (place_of at.port) s.inboxes) }
    ensures ok { OnOk result (states_in nodes.new.items
        ≡ nodes_with at.node (repeated_at (place_of at.port) index) (states_in nodes.old.items)) }
    ensures err { OnErr result (states_in nodes.new.items ≡ states_in nodes.old.items) }
{
    nodes[place(at.node)].repeat(at.port, index)?;
    Ok(())
}

/// It is there twice.
pub(crate) fn repeat(
    nodes: &mut Vec<Node>,
    at: EgressPort,
    index: u32,
) -> Result<WorldReply, NoMemory>
    requires { StandsAt at (states_in nodes.old.items) }
    ensures ok { IfOk result (λ reply. (tree : Topology) (m : MarksState)
        → after_repeat at index (app_of at index (world_with tree (states_in nodes.old.items) m))
        (world_with tree (states_in nodes.old.items) m)
        ≡ (world_with tree (states_in nodes.new.items) m, reply)) }
    ensures err { OnErr result (states_in nodes.new.items ≡ states_in nodes.old.items) }
{
    match app_at(nodes, at, index) {
        None => Ok(WorldReply::Missed),
        Some(_) => {
            repeat_at(nodes, at, index)?;
            Ok(WorldReply::Done)
        }
    }
}

// A PDU stands at an index in a port's inbox, where that reaches so far.
fn forge_at(nodes: &mut Vec<Node>, at: EgressPort, index: u32, wire: Wire) -> Result<bool, NoMemory>
    requires here { StandsAt at (states_in nodes.old.items) }
    requires short { IsShort wire }
    ensures done { IfOk result (λ done. (tree : Topology) (m : MarksState) → done
        ≡ reaches at index (world_with tree (states_in nodes.old.items) m)) }
    ensures after { IfOk result (λ done. states_in nodes.new.items
        ≡ (if done
        then nodes_with at.node (forged_at (place_of at.port) index wire)
        (states_in nodes.old.items)
        else states_in nodes.old.items)) }
    ensures err { OnErr result (states_in nodes.new.items ≡ states_in nodes.old.items) }
    ensures stand { OnOk result
        ((p : EgressPort) → StandsAt p (states_in nodes.old.items)
        → StandsAt p (states_in nodes.new.items)) }
{
    let done = nodes[place(at.node)].forge(at.port, index, wire)?;
    Ok(done)
}

/// A PDU that no neighbour sent stands at an index in a port's inbox, where that reaches so far.
pub(crate) fn forge(
    tree: &Tree,
    nodes: &mut Vec<Node>,
    at: EgressPort,
    index: u32,
    wire: Wire,
) -> Result<WorldReply, NoMemory>
    requires port { HasPort tree.now at }
    requires here { StandsAt at (states_in nodes.old.items) }
    requires there { StandsAt (peer_of tree.now.links at) (states_in nodes.old.items) }
    requires short { IsShort wire }
    ensures ok { IfOk result
        (λ reply. (m : MarksState) → with_forgery at index wire
        (reaches at index (world_with tree.now (states_in nodes.old.items) m))
        (world_with tree.now (states_in nodes.old.items) m)
        ≡ (world_with tree.now (states_in nodes.new.items) m, reply)) }
    ensures err { OnErr result (states_in nodes.new.items ≡ states_in nodes.old.items) }
{
    let forged = wire.app;
    if !forge_at(nodes, at, index, wire)? {
        return Ok(WorldReply::Missed);
    }
    spoil_ends(tree, nodes, at, forged);
    Ok(WorldReply::Done)
}

// Takes the PDUs of a port's outbox.
fn take(nodes: &mut Vec<Node>, at: EgressPort) -> Seq<Wire>
    requires { StandsAt at (states_in nodes.old.items) }
    ensures after { states_in nodes.new.items
        ≡ nodes_with at.node (with_outbox (place_of at.port) []) (states_in nodes.old.items) }
    ensures taken { result
        ≡ option_map_or
        (λ s. box_at (place_of at.port) s.outboxes)
        (slice_get (states_in nodes.old.items) (at.node.0 - 1)) [] }
    ensures short { AreShort result }
    ensures stand { (p : EgressPort) → StandsAt p (states_in nodes.old.items)
        → StandsAt p (states_in nodes.new.items) }
{
    nodes[place(at.node)].take_out(at.port)
}

// Puts PDUs behind those of a port's inbox; hands them back where memory runs out.
fn give(
    nodes: &mut Vec<Node>,
    at: EgressPort,
    wires: Seq<Wire>,
) -> Result<(), (NoMemory, Seq<Wire>)>
    requires here { StandsAt at (states_in nodes.old.items) }
    requires short { AreShort wires }
    ensures ok { OnOk result (states_in nodes.new.items
        ≡ nodes_with at.node (with_carried (place_of at.port) wires) (states_in nodes.old.items)) }
    ensures err { OnErr result (states_in nodes.new.items ≡ states_in nodes.old.items) }
    ensures back { IfErr result (λ e. e.1 ≡ wires) }
{
    nodes[place(at.node)].put_in(at.port, wires)
}

// Puts PDUs back into a port's outbox, which is empty.
fn put_back(nodes: &mut Vec<Node>, at: EgressPort, wires: Seq<Wire>)
    requires here { StandsAt at (states_in nodes.old.items) }
    requires short { AreShort wires }
    requires empty { (s : NodeState)
        → slice_get (states_in nodes.old.items) (at.node.0 - 1) ≡ Some s
        → box_at (place_of at.port) s.outboxes ≡ [] }
    ensures { states_in nodes.new.items
        ≡ nodes_with at.node (with_outbox (place_of at.port) wires) (states_in nodes.old.items) }
{
    nodes[place(at.node)].put_back(at.port, wires);
}

/// The PDUs of a port's outbox come in at its peer.
pub(crate) fn carry(
    tree: &Tree,
    nodes: &mut Vec<Node>,
    at: EgressPort,
) -> Result<WorldReply, NoMemory>
    requires port { HasPort tree.now at }
    requires here { StandsAt at (states_in nodes.old.items) }
    requires there { StandsAt (peer_of tree.now.links at) (states_in nodes.old.items) }
    ensures ok { IfOk result
        (λ reply. (m : MarksState) → world_step (WorldEvent.Carry at)
        (world_with tree.now (states_in nodes.old.items) m)
        ≡ (world_with tree.now (states_in nodes.new.items) m, reply)) }
    ensures err { OnErr result (states_in nodes.new.items ≡ states_in nodes.old.items) }
{
    let wires = take(nodes, at);
    if wires.is_empty() {
        return Ok(WorldReply::Done);
    }
    match give(nodes, tree.peer(at), wires) {
        Ok(()) => Ok(WorldReply::Done),
        Err((error, wires)) => {
            put_back(nodes, at, wires);
            Err(error)
        }
    }
}
