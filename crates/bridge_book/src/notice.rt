//! What a port's step does to the PDUs on its link, beside what the node answers.

ghost use Rattle.std.specs.Prelude.{◌≡◌, slice_get, IfOk, OnErr};
ghost use Rattle.attribute_propagation.specs.Ports.{IsLinkPort, place_of};
ghost use Rattle.node_core.specs.{Leaving.has_leave_all, State.ports_of, State.box_at, Wires.IsShort};
ghost use Rattle.node_core.specs.declared.types.StepReply.{StepReply as reply_type};
ghost use Rattle.bridge_book.specs.Steps.{notice_of, notice_of_first, notice_of_saying, with_reply, port_does, told_nothing};

use crate::shared::PortAsk;
use node_core::{Node, NodeEvent, PortStep, StepReply, Wire, wire_leaves};
use srp_base::{App, NoMemory, PortNo};
use std::alloc::Global;

/// What a step does to the PDUs on its port's link: nothing; it takes one of an application, or
/// says one, with LeaveAll (IEEE Std 802.1Q-2018, 10.7.10) or without.
#[derive(Clone, Copy, PartialEq, Eq)]
pub enum Notice {
    /// No PDU is taken or said.
    Quiet,
    /// A PDU of this application is taken.
    Took(App, bool),
    /// This application says a PDU.
    Said(App, bool),
}

/// What is told of a step: the node's answer, and what the step did to the PDUs on its port's link.
#[derive(Clone, Copy, PartialEq, Eq)]
pub struct Told {
    pub reply: StepReply,
    pub notice: Notice,
}

/// What is told where nothing is done.
pub(crate) fn nothing() -> Told
    ensures { result ≡ told_nothing }
{
    Told {
        reply: StepReply::Nothing,
        notice: Notice::Quiet,
    }
}

/// Makes a step of a link port, with what it does to the PDUs on the port's link. After want of
/// memory the node is as it was.
pub(crate) fn make_step(alloc: Global, node: &mut Node, ask: &PortAsk) -> Result<Told, NoMemory>
    requires { IsLinkPort ask.now.port (ports_of node.old.state) }
    ensures ok { IfOk result (λ told. port_does node.old.state ask.now ≡ (told, node.new.state)) }
    ensures err { OnErr result (node.new.state ≡ node.old.state) }
{
    let coming = coming(alloc, node, ask.port, &ask.step)?;
    let reply = node.step(NodeEvent::Port(ask.port, ask.step))?;
    let notice = with_reply(coming, reply);
    Ok(Told { reply, notice })
}

// What a step of a port is going to do to the PDUs, where an application that is to say something
// isn't silent.
fn coming(alloc: Global, node: &Node, port: PortNo, step: &PortStep) -> Result<Notice, NoMemory>
    requires { IsLinkPort port (ports_of node.now.state) }
    ensures { IfOk result (λ notice. (reply : reply_type) → with_reply notice reply
        ≡ notice_of step.now (place_of port) reply node.now.state) }
{
    match step {
        PortStep::Work => first(alloc, node, port),
        PortStep::Send(app) => Ok(Notice::Said(*app, node.leaves_next(port, *app))),
        PortStep::LeaveNow(_)
        | PortStep::LeaveAllNow(_)
        | PortStep::PeriodicNow(_)
        | PortStep::Due
        | PortStep::Settle => Ok(Notice::Quiet),
    }
}

// What taking the PDU that waits first at a port does.
fn first(alloc: Global, node: &Node, port: PortNo) -> Result<Notice, NoMemory>
    requires { IsLinkPort port (ports_of node.now.state) }
    ensures value { IfOk result (λ notice. notice
        ≡ notice_of_first (slice_get (box_at (place_of port) node.now.state.inboxes) 0)) }
    ensures stays { IfOk result (λ notice. (reply : reply_type) → with_reply notice reply
        ≡ notice) }
{
    match node.front_pdu(port) {
        Some(wire) => took(alloc, wire),
        None => Ok(Notice::Quiet),
    }
}

// What taking a PDU does.
fn took(alloc: Global, wire: &Wire) -> Result<Notice, NoMemory>
    requires { IsShort wire.now }
    ensures { IfOk result (λ notice. notice ≡ Notice.Took wire.now.app (has_leave_all wire.now)) }
{
    let leave_all = wire_leaves(alloc, wire)?;
    Ok(Notice::Took(wire.app, leave_all))
}

// What a step has done that was going to do this, by its answer: an application may have been
// silent.
fn with_reply(coming: Notice, reply: StepReply) -> Notice
    ensures { result ≡ with_reply coming reply }
{
    match coming {
        Notice::Said(app, leave_all) => saying(app, leave_all, reply),
        Notice::Quiet | Notice::Took(_, _) => coming,
    }
}

// What an application has done that was to say something.
fn saying(app: App, leave_all: bool, reply: StepReply) -> Notice
    ensures { result ≡ notice_of_saying app leave_all reply }
{
    if let StepReply::Sent(_) = reply {
        Notice::Said(app, leave_all)
    } else {
        Notice::Quiet
    }
}
