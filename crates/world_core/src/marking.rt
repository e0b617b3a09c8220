//! The marks of a network after an event: what the event does to the nodes, and then the marks.
//!
//! A PDU that is taken is read before the step, where its LeaveAll counts, so that the step is
//! taken back where memory runs out; whether a PDU that is sent has LeaveAll shows in the machine
//! before it.

ghost use Rattle.srp_base.specs.declared.mrp.App.TheVariants.{Mvrp, Msrp};
ghost use Rattle.std.specs.Prelude.{◌≡◌, ◌<◌, ◌≤◌, ◌^◌, ◌&&◌, false, length, slice_get, IfOk, IfSome, OnErr};
ghost use Rattle.std.specs.Option.{option_map_or};
ghost use Rattle.tree_topology.specs.{Topology.Topology, Topology.HasPort, Ports.peer_of};
ghost use Rattle.attribute_propagation.specs.Ports.{IsLinkPort, place_of};
ghost use Rattle.node_core.specs.{Holding.states_in, State.NodeState, State.ports_of, Wires.IsShort, Leaving.has_leave_all};
ghost use Rattle.world_core.specs.declared.events.WorldReply.{WorldReply};
ghost use Rattle.world_core.specs.Kept.{IsKeptWorld};
ghost use Rattle.world_core.specs.Marking.{marks_noted, is_done, CanNote};
ghost use Rattle.world_core.specs.Marks.{MarksState, mark_at};
ghost use Rattle.world_core.specs.World.{StandsAt, inbox, outbox, are_nodes_sound, are_ports_sound, is_sound_in, has_leave_all_next, marks_stepping, marks_losing, marks_copying, marks_forging, world_step, world_with};

use crate::events::{WorldEvent, WorldReply};
use crate::happen::{app_at, forge, lose, make_step, place, repeat};
use crate::marks::Marks;
use node_core::{Node, NodeEvent, PortStep, StepReply, Wire, wire_leaves};
use srp_base::{App, EgressPort, NoMemory, NodeNo, PortNo};
use std::alloc::Global;
use tree_topology::Tree;
use tree_topology::laws::ports;

/// What a step of a port will do to the marks: nothing; it takes a PDU of an application, or sends
/// one if it has something to say, with a LeaveAll that counts or without.
#[derive(Clone, Copy, PartialEq, Eq)]
pub(crate) enum Noted {
    Nothing,
    Takes(App, bool),
    Sends(App, bool),
}

/// A port makes a step, and then its marks follow.
pub(crate) fn marked_step(
    tree: &Tree,
    nodes: &mut Vec<Node>,
    marks: &mut Marks,
    at: EgressPort,
    step: PortStep,
) -> Result<StepReply, NoMemory>
    requires port { HasPort tree.now at }
    requires kept { IsKeptWorld (world_with tree.now (states_in nodes.old.items) marks.old) }
    ensures ok { IfOk result (λ reply. world_step (WorldEvent.Port at.node at.port step)
        (world_with tree.now (states_in nodes.old.items) marks.old)
        ≡ (world_with tree.now (states_in nodes.new.items) marks.new, WorldReply.Step reply)) }
    ensures err { OnErr result (states_in nodes.new.items ≡ states_in nodes.old.items) }
    ensures err_marks { OnErr result (marks.new ≡ marks.old) }
{
    ports();
    few_wait(tree, nodes, marks, at);
    let noted = noted_of(tree, nodes, marks, at, &step)?;
    let reply = make_step(nodes, at.node, NodeEvent::Port(at.port, step))?;
    note(marks, at, noted, reply);
    Ok(reply)
}

// What a step of a port will do to the marks.
fn noted_of(
    tree: &Tree,
    nodes: &Vec<Node>,
    marks: &Marks,
    at: EgressPort,
    step: &PortStep,
) -> Result<Noted, NoMemory>
    requires port { HasPort tree.now at }
    requires kept { IsKeptWorld (world_with tree.now (states_in nodes.now.items) marks.now) }
    ensures noted { IfOk result (λ noted. (reply : WorldReply)
        → marks_noted at noted reply marks.now
        ≡ marks_stepping at step.now reply
        (world_with tree.now (states_in nodes.now.items) marks.now)) }
    ensures can { IfOk result (λ noted. CanNote at noted marks.now) }
{
    match step {
        PortStep::Work => taking(tree, nodes, marks, at),
        PortStep::Send(app) => Ok(Noted::Sends(*app, leaves_next(nodes, at, *app))),
        PortStep::LeaveNow(_)
        | PortStep::LeaveAllNow(_)
        | PortStep::PeriodicNow(_)
        | PortStep::Due
        | PortStep::Settle => Ok(Noted::Nothing),
    }
}

// Whether the next PDU that an application sends at a port has LeaveAll.
fn leaves_next(nodes: &Vec<Node>, at: EgressPort, app: App) -> bool
    requires { StandsAt at (states_in nodes.now.items) }
    ensures { (tree : Topology) (m : MarksState) → result
        ≡ has_leave_all_next app at (world_with tree (states_in nodes.now.items) m) }
{
    nodes[place(at.node)].leaves_next(at.port, app)
}

// The PDU that a port takes next: it is read only where the port's way is clear.
fn taking(tree: &Tree, nodes: &Vec<Node>, marks: &Marks, at: EgressPort) -> Result<Noted, NoMemory>
    requires port { HasPort tree.now at }
    requires kept { IsKeptWorld (world_with tree.now (states_in nodes.now.items) marks.now) }
    ensures noted { IfOk result (λ noted. (reply : WorldReply)
        → marks_noted at noted reply marks.now
        ≡ marks_stepping at PortStep.Work reply
        (world_with tree.now (states_in nodes.now.items) marks.now)) }
    ensures can { IfOk result (λ noted. CanNote at noted marks.now) }
{
    ports();
    match app_at(nodes, at, 0) {
        None => Ok(Noted::Nothing),
        Some(app) => {
            let leave_all = counts(nodes, marks, at, app)?;
            Ok(Noted::Takes(app, leave_all))
        }
    }
}

// Whether the front PDU that waits at a port has a LeaveAll that counts: it is read only where the
// port's way is clear.
fn counts(nodes: &Vec<Node>, marks: &Marks, at: EgressPort, app: App) -> Result<bool, NoMemory>
    requires { StandsAt at (states_in nodes.now.items) }
    ensures { IfOk result (λ leaves. (tree : Topology) (m : MarksState) → leaves
        ≡ ((mark_at app at marks.now).clear && option_map_or has_leave_all (slice_get
        (inbox at (world_with tree (states_in nodes.now.items) m)) 0) false)) }
{
    if !marks.is_clear(at, app) {
        return Ok(false);
    }
    front_leaves(nodes, at)
}

// Whether the front PDU that waits at a port has LeaveAll, where there is one.
fn front_leaves(nodes: &Vec<Node>, at: EgressPort) -> Result<bool, NoMemory>
    requires { StandsAt at (states_in nodes.now.items) }
    ensures { IfOk result (λ leaves. (tree : Topology) (m : MarksState) → leaves
        ≡ option_map_or has_leave_all (slice_get
        (inbox at (world_with tree (states_in nodes.now.items) m)) 0) false) }
{
    let node = &nodes[place(at.node)];
    match node.front_pdu(at.port) {
        Some(wire) => short_leaves(*nodes.allocator(), wire),
        None => Ok(false),
    }
}

// Whether a PDU of at most 1,500 octets has LeaveAll.
fn short_leaves(alloc: Global, wire: &Wire) -> Result<bool, NoMemory>
    requires { IsShort wire.now }
    ensures { IfOk result (λ leaves. leaves ≡ has_leave_all wire.now) }
{
    wire_leaves(alloc, wire)
}

// The marks after a step with its answer.
fn note(marks: &mut Marks, at: EgressPort, noted: Noted, reply: StepReply)
    requires port { HasPort marks.old.tree at }
    requires can { CanNote at noted marks.old }
    requires few { (app : App) → (mark_at app at marks.old).flying < 2 ^ 100 }
    ensures { marks.new ≡ marks_noted at noted (WorldReply.Step reply) marks.old }
{
    match noted {
        Noted::Nothing => {}
        Noted::Takes(app, leave_all) => marks.took(at, app, leave_all),
        Noted::Sends(app, leave_all) => {
            if let StepReply::Sent(_) = reply {
                marks.sent(at, app, leave_all);
            }
        }
    }
}

/// A PDU is lost, where there is one, and then its link's marks.
pub(crate) fn marked_loss(
    tree: &Tree,
    nodes: &mut Vec<Node>,
    marks: &mut Marks,
    at: EgressPort,
    index: u32,
) -> WorldReply
    requires port { HasPort tree.now at }
    requires kept { IsKeptWorld (world_with tree.now (states_in nodes.old.items) marks.old) }
    ensures { world_step (WorldEvent.Lose at index)
        (world_with tree.now (states_in nodes.old.items) marks.old)
        ≡ (world_with tree.now (states_in nodes.new.items) marks.new, result) }
{
    ports();
    let app = app_at(nodes, at, index);
    note_loss(marks, at, app);
    lose(tree, nodes, at, index)
}

// The marks after a loss, where there was a PDU.
fn note_loss(marks: &mut Marks, at: EgressPort, app: Option<App>)
    requires port { HasPort marks.old.tree at }
    requires some { IfSome app
        (λ app. 1 ≤ (mark_at app (peer_of marks.old.tree.links at) marks.old).flying) }
    ensures { marks.new ≡ marks_losing at app marks.old }
{
    if let Some(app) = app {
        marks.lost(at, app);
    }
}

/// A PDU is there twice, where there is one, and its link's marks count it.
pub(crate) fn marked_repeat(
    tree: &Tree,
    nodes: &mut Vec<Node>,
    marks: &mut Marks,
    at: EgressPort,
    index: u32,
) -> Result<WorldReply, NoMemory>
    requires port { HasPort tree.now at }
    requires kept { IsKeptWorld (world_with tree.now (states_in nodes.old.items) marks.old) }
    ensures ok { IfOk result (λ reply. world_step (WorldEvent.Repeat at index)
        (world_with tree.now (states_in nodes.old.items) marks.old)
        ≡ (world_with tree.now (states_in nodes.new.items) marks.new, reply)) }
    ensures err { OnErr result (states_in nodes.new.items ≡ states_in nodes.old.items) }
    ensures err_marks { OnErr result (marks.new ≡ marks.old) }
{
    ports();
    few_wait(tree, nodes, marks, tree.peer(at));
    let app = app_at(nodes, at, index);
    let reply = repeat(nodes, at, index)?;
    note_copy(marks, at, app);
    Ok(reply)
}

// The marks after a copy, where there was a PDU.
fn note_copy(marks: &mut Marks, at: EgressPort, app: Option<App>)
    requires port { HasPort marks.old.tree at }
    requires some { IfSome app
        (λ app. 1 ≤ (mark_at app (peer_of marks.old.tree.links at) marks.old).flying) }
    requires few { (app : App)
        → (mark_at app (peer_of marks.old.tree.links at) marks.old).flying < 2 ^ 100 }
    ensures { marks.new ≡ marks_copying at app marks.old }
{
    if let Some(app) = app {
        marks.copied(at, app);
    }
}

/// A forged PDU comes in, where the inbox reaches so far, and then its link's marks.
pub(crate) fn marked_forgery(
    tree: &Tree,
    nodes: &mut Vec<Node>,
    marks: &mut Marks,
    at: EgressPort,
    index: u32,
    wire: Wire,
) -> Result<WorldReply, NoMemory>
    requires port { HasPort tree.now at }
    requires kept { IsKeptWorld (world_with tree.now (states_in nodes.old.items) marks.old) }
    requires short { IsShort wire }
    ensures ok { IfOk result (λ reply. world_step (WorldEvent.Forge at index wire)
        (world_with tree.now (states_in nodes.old.items) marks.old)
        ≡ (world_with tree.now (states_in nodes.new.items) marks.new, reply)) }
    ensures err { OnErr result (states_in nodes.new.items ≡ states_in nodes.old.items) }
    ensures err_marks { OnErr result (marks.new ≡ marks.old) }
{
    ports();
    few_wait(tree, nodes, marks, tree.peer(at));
    let app = wire.app;
    let reply = forge(tree, nodes, at, index, wire)?;
    note_forgery(marks, at, app, reply);
    Ok(reply)
}

// The marks after a forgery, where it was done.
fn note_forgery(marks: &mut Marks, at: EgressPort, app: App, reply: WorldReply)
    requires port { HasPort marks.old.tree at }
    requires few { (app : App)
        → (mark_at app (peer_of marks.old.tree.links at) marks.old).flying < 2 ^ 100 }
    ensures { marks.new ≡ marks_forging at app (is_done reply) marks.old }
{
    if let WorldReply::Done = reply {
        marks.forged(at, app);
    }
}

// Few PDUs are on their way from a port, since they wait in lists. It does nothing.
fn few_wait(tree: &Tree, nodes: &Vec<Node>, marks: &Marks, at: EgressPort)
    requires port { HasPort tree.now at }
    requires kept { IsKeptWorld (world_with tree.now (states_in nodes.now.items) marks.now) }
    ensures { (app : App) → (mark_at app at marks.now).flying < 2 ^ 100 }
{
    ports();
    let _ = out_count(nodes, at);
    let _ = in_count(nodes, tree.peer(at));
}

// The number of PDUs that are to go out at a port.
fn out_count(nodes: &Vec<Node>, at: EgressPort) -> usize
    requires { StandsAt at (states_in nodes.now.items) }
    ensures few { result < 2 ^ 64 }
    ensures count { (tree : Topology) (m : MarksState) → result
        ≡ length (outbox at (world_with tree (states_in nodes.now.items) m)) }
{
    nodes[place(at.node)].outgoing_pdus(at.port)
}

// The number of PDUs that came in at a port.
fn in_count(nodes: &Vec<Node>, at: EgressPort) -> usize
    requires { StandsAt at (states_in nodes.now.items) }
    ensures few { result < 2 ^ 64 }
    ensures count { (tree : Topology) (m : MarksState) → result
        ≡ length (inbox at (world_with tree (states_in nodes.now.items) m)) }
{
    nodes[place(at.node)].pending_pdus(at.port)
}

/// Whether both applications of every port of these nodes are sound, by their own LeaveAll or by a
/// mark.
pub(crate) fn are_nodes_in_step(nodes: &Vec<Node>, count: u16, marks: &Marks) -> bool
    requires { count ≡ length (states_in nodes.now.items) }
    ensures { result ≡ are_nodes_sound 1 (states_in nodes.now.items) marks.now }
{
    for i in 0..count {
        if !are_ports_in_step(&nodes[usize::from(i)], NodeNo(i + 1), marks) {
            return false;
        }
    }
    true
}

// Whether both applications of every port of a node are sound.
fn are_ports_in_step(node: &Node, number: NodeNo, marks: &Marks) -> bool
    ensures { result ≡ are_ports_sound number node.now.state marks.now 1 (ports_of node.now.state) }
{
    for i in 0..node.ports() {
        if !is_end_sound(node, number, PortNo(i + 1), marks) {
            return false;
        }
    }
    true
}

// Whether both applications at a port are sound.
fn is_end_sound(node: &Node, number: NodeNo, port: PortNo, marks: &Marks) -> bool
    requires { IsLinkPort port (ports_of node.now.state) }
    ensures { result
        ≡ (is_sound_in Mvrp (record { node = number; port = port }) node.now.state marks.now
        && is_sound_in Msrp (record { node = number; port = port }) node.now.state marks.now) }
{
    let at = EgressPort { node: number, port };
    is_port_sound(node, at, marks, App::Mvrp) && is_port_sound(node, at, marks, App::Msrp)
}

// Whether an application at a port is sound.
fn is_port_sound(node: &Node, at: EgressPort, marks: &Marks, app: App) -> bool
    requires { IsLinkPort at.port (ports_of node.now.state) }
    ensures { result ≡ is_sound_in app at node.now.state marks.now }
{
    marks.is_assured(at, app) || node.sound(at.port, app)
}
