//! A node with the steps that its ports have made, as one thread steps it.

ghost use Rattle.std.specs.Prelude.{◌≡◌, ◌∷◌, [], ◌++◌, IfOk, OnErr};
ghost use Rattle.node_core.specs.State.{ports_of};
ghost use Rattle.bridge_book.specs.Steps.{is_port, node_does, noted, shared_does};

use crate::notice::{Notice, Told, make_step, nothing};
use node_core::{Node, NodeStep, PortStep};
use srp_base::{NoMemory, PortNo};
use std::alloc::Global;
use std::marker::Model;
use turn_lock::Sequential;

/// A step that a port is asked to make.
#[derive(Clone, Copy, PartialEq, Eq)]
pub struct PortAsk {
    pub port: PortNo,
    pub step: PortStep,
}

/// A node, the steps that were made of it with their answers, and what each did to the PDUs on its
/// port's link.
#[derive(Drop)]
pub struct SharedNode {
    pub(crate) node: Node,
    pub(crate) steps: Vec<NodeStep>,
    pub(crate) notices: Vec<Notice>,
}

impl Model for SharedNode {
    ghost use Rattle.bridge_book.specs.Steps.{Shared};

    ghost Value = { Shared };

    ghost view = { λ s. record {
      node = s.node.state;
      steps = s.steps.items;
      notices = s.notices.items;
    } };
}

// Whether a port is a link port of the node.
fn is_link_port(node: &Node, port: PortNo) -> bool
    ensures { result ≡ is_port port (ports_of node.now.state) }
{
    0 < port.0 && port.0 <= node.ports()
}

// Makes a step of a link port, and tells nothing of any other.
fn stepped(alloc: Global, node: &mut Node, ask: &PortAsk) -> Result<Told, NoMemory>
    ensures ok { IfOk result (λ told. node_does node.old.state ask.now ≡ (told, node.new.state)) }
    ensures err { OnErr result (node.new.state ≡ node.old.state) }
{
    if !is_link_port(node, ask.port) {
        return Ok(nothing());
    }
    make_step(alloc, node, ask)
}

// Makes a step and notes it, with the memory for the notes taken first.
fn step_and_note(
    node: &mut Node,
    steps: &mut Vec<NodeStep>,
    notices: &mut Vec<Notice>,
    ask: &PortAsk,
) -> Result<Told, NoMemory>
    ensures ok { IfOk result (λ told. node_does node.old.state ask.now ≡ (told, node.new.state)) }
    ensures steps { IfOk result (λ told. steps.new.items
        ≡ steps.old.items ++ noted ask.now told.reply ∷ []) }
    ensures notices { IfOk result (λ told. notices.new.items
        ≡ notices.old.items ++ told.notice ∷ []) }
    ensures err { OnErr result ((node.new.state ≡ node.old.state)
        × (steps.new.items ≡ steps.old.items) × (notices.new.items ≡ notices.old.items)) }
{
    steps.reserve(1)?;
    notices.reserve(1)?;
    let told = stepped(*steps.allocator(), node, ask)?;
    steps.push_reserved(NodeStep {
        port: ask.port,
        step: ask.step,
        reply: told.reply,
    });
    notices.push_reserved(told.notice);
    Ok(told)
}

impl Sequential for SharedNode {
    type Ask = PortAsk;

    type Answer = Told;

    ghost does = { shared_does };

    /// Makes the step of a port and notes it. An ask of a port that isn't a link port of the node
    /// is answered `Nothing` and changes nothing of the node.
    fn step(&mut self, ask: PortAsk) -> Result<Told, NoMemory> {
        step_and_note(&mut self.node, &mut self.steps, &mut self.notices, &ask)
    }
}
