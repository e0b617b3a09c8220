//! A network after the steps that its nodes have made apart: its nodes, the steps for the journal,
//! and the marks.

ghost use Rattle.std.specs.Prelude.{◌≡◌, ◌<◌, ◌+◌, ◌++◌, ◌∷◌, [], ◌^◌, length, drop, map, IfOk, OnOk};
ghost use Rattle.srp_base.specs.declared.mrp.App.{App as app_type};
ghost use Rattle.tree_topology.specs.Topology.{HasNode, HasPort};
ghost use Rattle.world_core.specs.{Marks.mark_at, OneByOne.steps_before};
ghost use Rattle.port_worker.specs.Marked.{mark_by, CanMark, marks_by, CanMarkAll, AreFew};
ghost use Rattle.port_worker.specs.Gathered.{AreNumbered, CanFollow, marks_made, nodes_of, steps_made};

use crate::node::{Task, Worked};
use bridge_book::Notice;
use node_core::{Node, NodeStep, no_key};
use srp_base::{App, EgressPort, NoMemory, NodeNo, PortNo, Seq};
use std::alloc::Global;
use tree_topology::laws::ports;
use world_core::{Marks, NodeSteps, World};

/// So many nodes ascending, each with its number.
pub(crate) fn numbered(alloc: Global, nodes: Vec<Node>, count: u16) -> Result<Vec<Task>, NoMemory>
    requires { length nodes.items ≡ count }
    ensures nodes { IfOk result (λ tasks. map (λ t. t.node) tasks.items ≡ nodes.items) }
    ensures numbers { IfOk result (λ tasks. AreNumbered 0 tasks.items) }
{
    let mut tasks = Vec::new(alloc);
    let mut number = 0u16;
    for node in nodes {
        number = number.saturating_add(1);
        tasks.push(Task {
            number: NodeNo(number),
            node,
        })?;
    }
    Ok(tasks)
}

/// The nodes and the steps of nodes that have made theirs; the marks follow what each step did to
/// the PDUs on its port's link.
pub(crate) fn gather(
    alloc: Global,
    marks: &mut Marks,
    all: Vec<Worked>,
) -> Result<(Vec<Node>, Vec<NodeSteps>), NoMemory>
    requires { CanFollow all.items marks.old }
    ensures nodes { IfOk result (λ r. r.0.items ≡ nodes_of all.items) }
    ensures steps { IfOk result (λ r. r.1.items ≡ steps_made all.items) }
    ensures marks { OnOk result (marks.new ≡ marks_made all.items marks.old) }
{
    let mut nodes = Vec::new(alloc);
    let mut made = Vec::new(alloc);
    for worked in all {
        add(marks, &mut nodes, &mut made, worked)?;
    }
    Ok((nodes, made))
}

// One node more.
fn add(
    marks: &mut Marks,
    nodes: &mut Vec<Node>,
    made: &mut Vec<NodeSteps>,
    worked: Worked,
) -> Result<(), NoMemory>
    requires { CanMarkAll worked.number worked.steps worked.notices marks.old }
    ensures nodes { OnOk result (nodes.new.items ≡ nodes.old.items ++ worked.node ∷ []) }
    ensures steps { OnOk result (made.new.items
        ≡ made.old.items ++ steps_before worked.number worked.steps []) }
    ensures marks { OnOk result
        (marks.new ≡ marks_by worked.number worked.steps worked.notices marks.old) }
{
    let Worked {
        number,
        node,
        steps,
        notices,
    } = worked;
    follow(marks, number, steps.as_slice(), notices.as_slice());
    nodes.push(node)?;
    push_steps(made, number, steps)?;
    Ok(())
}

// The steps of a node behind those of the nodes before it; none where it has none.
fn push_steps(made: &mut Vec<NodeSteps>, node: NodeNo, steps: Seq<NodeStep>) -> Result<(), NoMemory>
    ensures { OnOk result (made.new.items ≡ made.old.items ++ steps_before node steps []) }
{
    let _ = no_key();
    if !steps.is_empty() {
        made.push(NodeSteps { node, steps })?;
    }
    Ok(())
}

// The marks follow the steps of a node.
fn follow(marks: &mut Marks, node: NodeNo, steps: &[NodeStep], notices: &[Notice])
    requires { CanMarkAll node steps.now notices.now marks.old }
    ensures { marks.new ≡ marks_by node steps.now notices.now marks.old }
{
    let _ = no_key();
    for i in 0..steps.len() {
        follow_at(marks, node, steps, notices, i);
    }
}

// They follow the step at a place.
fn follow_at(marks: &mut Marks, node: NodeNo, steps: &[NodeStep], notices: &[Notice], i: usize)
    requires place { i < length steps.now }
    requires can { CanMarkAll node (drop i steps.now) (drop i notices.now) marks.old }
    ensures can { CanMarkAll node (drop (i + 1) steps.now) (drop (i + 1) notices.now) marks.new }
    ensures same { marks_by node (drop i steps.now) (drop i notices.now) marks.old
        ≡ marks_by node (drop (i + 1) steps.now) (drop (i + 1) notices.now) marks.new }
{
    let _ = no_key();
    if i >= notices.len() {
        unreachable!()
    }
    follow_one(marks, node, steps[i].port, notices[i]);
}

// They follow one step.
fn follow_one(marks: &mut Marks, node: NodeNo, port: PortNo, notice: Notice)
    requires { CanMark (record { node = node; port = port }) notice marks.old }
    ensures { marks.new ≡ mark_by (record { node = node; port = port }) notice marks.old }
{
    let at = EgressPort { node, port };
    match notice {
        Notice::Quiet => {}
        Notice::Took(app, leave_all) => marks.took(at, app, leave_all),
        Notice::Said(app, leave_all) => marks.sent(at, app, leave_all),
    }
}

/// Few PDUs are on their way from each port, since they wait in lists. It does nothing.
pub(crate) fn few_are_on_their_way(world: &World)
    ensures { AreFew (2 ^ 65) world.now.marks }
{
    world.keeps();
    for x in 0..world.tree().nodes() {
        few_from_node(world, NodeNo(x + 1));
    }
}

// So it is at each port of a node.
fn few_from_node(world: &World, node: NodeNo)
    requires { HasNode world.now.tree node.0 }
    ensures { (app : app_type) (port : _)
        → HasPort world.now.tree (record { node = node; port = port })
        → (mark_at app (record { node = node; port = port }) world.now.marks).flying < 2 ^ 65 }
{
    for k in 0..world.tree().ports(node) {
        few_from(
            world,
            EgressPort {
                node,
                port: PortNo(k + 1),
            },
        );
    }
}

// So it is at a port.
fn few_from(world: &World, at: EgressPort)
    requires { HasPort world.now.tree at }
    ensures { (app : app_type) → (mark_at app at world.now.marks).flying < 2 ^ 65 }
{
    world.keeps();
    ports();
    let peer = world.tree().peer(at);
    let _coming = world.node(peer.node).pending_pdus(peer.port);
    let _going = world.node(at.node).outgoing_pdus(at.port);
}
