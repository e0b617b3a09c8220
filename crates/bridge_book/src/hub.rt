//! The hub: a node behind a lock, with a pass for each of its link ports.

ghost use Rattle.std.specs.Prelude.{◌≡◌, ◌<◌, true, IfOk, IfErr, OnErr, All};
ghost use Rattle.node_core.specs.State.{ports_of};
ghost use Rattle.turn_lock.specs.{Passes.first_passes, Calls.HasCalled, Calls.HasLooked, Refusal.IsRefused};
ghost use Rattle.bridge_book.specs.Steps.{is_port, node_does};
ghost use Rattle.bridge_book.specs.Hub.{first_node, port_of, ask_by, HasStepped, HasClosedHub};
ghost use Rattle.bridge_book.specs.Refusal.{IsOfHub, IsRefusedHub};

use crate::gate::Gate;
use crate::notice::{Notice, Told};
use crate::shared::{PortAsk, SharedNode};
use node_core::{Node, NodeStep, PortStep, StepReply};
use srp_base::{NoMemory, NodeNo, PortNo, Seq};
use std::alloc::Global;
use std::marker::Model;
use std::sync::Wait;
use turn_lock::{CloseErr, Closed, Pass, TurnLock};

/// The right to step one port of a hub's node, for one thread at a time. Passes are numbered as the
/// ports are.
pub type PortPass = Pass<SharedNode>;

/// A node that its port threads share. Contracts see its number and the lock round the node.
#[derive(Drop)]
pub struct NodeHub {
    number: NodeNo,
    lock: TurnLock<SharedNode>,
}

impl Model for NodeHub {
    ghost use Rattle.bridge_book.specs.Hub.{Hub, IsHubLock};

    ghost Value = { Hub };

    ghost view = { λ h. record { number = h.number; lock = h.lock } };

    ghost invariant = { λ h. IsHubLock h.lock };
}

/// What a hub held: the node, and the steps that were made of it, in their order, with what each
/// did to the PDUs on its port's link.
#[derive(Drop)]
pub struct HubClosed {
    pub node: Node,
    pub steps: Seq<NodeStep>,
    pub notices: Seq<Notice>,
}

/// Why a hub stays open. Both hand everything back.
#[derive(Drop)]
pub enum HubCloseErr {
    /// A pass of the hub isn't in the list: the lowest such number.
    MissingPass {
        number: u32,
        hub: NodeHub,
        passes: Seq<PortPass>,
    },
    /// Memory ran out.
    NoMemory {
        hub: NodeHub,
        passes: Seq<PortPass>,
    },
}

// What a closed lock round a node leaves.
fn opened(closed: Closed<SharedNode>) -> HubClosed
    ensures node { result.node.state ≡ closed.state.node }
    ensures steps { result.steps ≡ closed.state.steps }
    ensures notices { result.notices ≡ closed.state.notices }
{
    let Closed { state, history: _ } = closed;
    let SharedNode {
        node,
        steps,
        notices,
    } = state;
    HubClosed {
        node,
        steps: Seq::from_vec(steps),
        notices: Seq::from_vec(notices),
    }
}

// The hub again, where its lock stayed open.
fn handed_back(number: NodeNo, refused: CloseErr<SharedNode>) -> HubCloseErr
    requires { IsOfHub refused }
    ensures { (lock : _) (passes : _) → IsRefused lock passes refused
        → IsRefusedHub (record { number = number; lock = lock }) passes result }
{
    match refused {
        CloseErr::MissingPass {
            number: missing,
            lock,
            passes,
        } => HubCloseErr::MissingPass {
            number: missing,
            hub: NodeHub { number, lock },
            passes,
        },
        CloseErr::NoMemory { lock, passes } => HubCloseErr::NoMemory {
            hub: NodeHub { number, lock },
            passes,
        },
    }
}

impl NodeHub {
    /// A hub round a node, with a pass for each of its link ports, of which it has at least one.
    /// The number is what a gate is told. After want of memory the node comes back.
    pub fn begin(
        alloc: Global,
        number: NodeNo,
        node: Node,
    ) -> Result<(NodeHub, Seq<PortPass>), (NoMemory, Node)>
        requires { 0 < ports_of node.state }
        ensures hub { IfOk result (λ r. (r.0.number ≡ number) × (first_node r.0 ≡ node.state)
            × (r.0.lock.passes ≡ ports_of node.state)) }
        ensures passes { IfOk result (λ r. r.1 ≡ first_passes r.0.lock (ports_of node.state)) }
        ensures no_memory { IfErr result (λ e. e.1.state ≡ node.state) }
    {
        let ports = u32::from(node.ports());
        let shared = SharedNode {
            node,
            steps: Vec::new(alloc),
            notices: Vec::new(alloc),
        };
        match TurnLock::begin(alloc, shared, ports) {
            Ok((lock, passes)) => Ok((NodeHub { number, lock }, passes)),
            Err((no_memory, shared)) => {
                let SharedNode {
                    node,
                    steps: _,
                    notices: _,
                } = shared;
                Err((no_memory, node))
            }
        }
    }

    /// Makes a step of the pass's port, in its turn, with the gate's `within` called inside it. The
    /// answer is that of the node at the call's place in one history, which begins with all that
    /// the pass had seen. After want of memory the node and its steps are as before; the pass may
    /// have seen more of them.
    pub fn step<R: Wait, G: Gate>(
        &self,
        rt: &R,
        gate: &G,
        pass: &mut PortPass,
        step: PortStep,
    ) -> Result<StepReply, NoMemory>
        requires { pass.old.lock ≡ self.now.lock }
        ensures pass { (pass.new.lock ≡ self.now.lock) × (pass.new.number ≡ pass.old.number) }
        ensures port { is_port (port_of pass.old) (ports_of (first_node self.now)) ≡ true }
        ensures stepped { IfOk result (λ reply. HasStepped self.now pass.old step reply
            pass.new.seen) }
        ensures no_memory { OnErr result (HasLooked node_does (first_node self.now)
            pass.old.number pass.old.seen pass.new.seen) }
    {
        let told = self.call(rt, gate, pass, step)?;
        Ok(told.reply)
    }

    // The same, with what the step did to the PDUs on the port's link.
    fn call<R: Wait, G: Gate>(
        &self,
        rt: &R,
        gate: &G,
        pass: &mut PortPass,
        step: PortStep,
    ) -> Result<Told, NoMemory>
        requires { pass.old.lock ≡ self.now.lock }
        ensures pass { (pass.new.lock ≡ self.now.lock) × (pass.new.number ≡ pass.old.number) }
        ensures port { is_port (port_of pass.old) (ports_of (first_node self.now)) ≡ true }
        ensures called { IfOk result (λ told. HasCalled node_does (first_node self.now)
            pass.old.number pass.old.seen (ask_by pass.old step) told pass.new.seen) }
        ensures no_memory { OnErr result (HasLooked node_does (first_node self.now)
            pass.old.number pass.old.seen pass.new.seen) }
    {
        let number = self.number;
        let port = PortNo(pass.number() as u8);
        let ask = PortAsk { port, step };
        self.lock.call(rt, pass, ask, &|| gate.within(number, port))
    }

    /// Closes the hub with all its passes, in any order, and answers its node and the steps that
    /// were made of it, with what each did to the PDUs on its port's link. Where a pass is missing
    /// everything comes back.
    pub fn close(self, passes: Seq<PortPass>) -> Result<HubClosed, HubCloseErr>
        requires { All (λ p. p.lock ≡ self.lock) passes }
        ensures closed { IfOk result (λ c. HasClosedHub self passes
            c.node.state c.steps c.notices) }
        ensures refused { IfErr result (λ e. IsRefusedHub self passes e) }
    {
        let NodeHub { number, lock } = self;
        match lock.close(passes) {
            Ok(closed) => Ok(opened(closed)),
            Err(refused) => Err(handed_back(number, refused)),
        }
    }
}
