//! One event of a network, and lists of them.

ghost use Rattle.std.specs.Prelude.{◌≡◌, ◌≤◌, length, take, IfOk, IfErr, OnErr};
ghost use Rattle.tree_topology.specs.Topology.{HasPort};
ghost use Rattle.world_core.specs.World.{CanHappen, IsEventInRange, CanAllHappen, world_step, world_after, replies_to};

use crate::events::{WorldEvent, WorldReply};
use crate::happen::{carry, make_step, tick_all};
use crate::laws::every_event_keeps_it;
use crate::marking::{marked_forgery, marked_loss, marked_repeat, marked_step};
use crate::world::World;
use node_core::{NodeEvent, NodeStep, PortStep, StepReply, Wire};
use srp_base::{EgressPort, NoMemory, NodeNo, PortNo, Seq};
use std::alloc::Global;
use tree_topology::laws::ports;

/// Memory ran out after so many of the events were done.
#[derive(Clone, Copy, PartialEq, Eq)]
pub struct RunErr {
    pub done: usize,
}

impl World {
    /// Lets one event happen, and answers what came of it: `Step` with the node's answer for a
    /// request and a port's step, `Missed` exactly where no PDU has the index, or the inbox doesn't
    /// reach to that of a forged one, `Done` for all else. The nodes and ports that the event names
    /// exist, a request is made at a station, a forged PDU has at most 1,500 octets, and the clock
    /// goes on from below 2^61. After want of memory the network is as it was.
    pub fn step(&mut self, event: WorldEvent) -> Result<WorldReply, NoMemory>
        requires { CanHappen event self.old }
        ensures ok { IfOk result (λ reply. world_step event self.old ≡ (self.new, reply)) }
        ensures err { OnErr result (self.new ≡ self.old) }
    {
        ports();
        every_event_keeps_it();
        fits(&event);
        match event {
            WorldEvent::Request(node, request) => {
                let reply = make_step(&mut self.nodes, node, NodeEvent::Request(request))?;
                Ok(WorldReply::Step(reply))
            }
            WorldEvent::Port(node, port, step) => {
                let reply = self.port_step(node, port, step)?;
                Ok(WorldReply::Step(reply))
            }
            WorldEvent::Lose(at, index) => Ok(marked_loss(
                &self.tree,
                &mut self.nodes,
                &mut self.marks,
                at,
                index,
            )),
            WorldEvent::Repeat(at, index) => {
                marked_repeat(&self.tree, &mut self.nodes, &mut self.marks, at, index)
            }
            WorldEvent::Forge(at, index, wire) => {
                marked_forgery(
                    &self.tree,
                    &mut self.nodes,
                    &mut self.marks,
                    at,
                    index,
                    wire,
                )
            }
            WorldEvent::Carry(at) => carry(&self.tree, &mut self.nodes, at),
            WorldEvent::Clock => tick_all(&mut self.nodes),
        }
    }

    /// Lets a link port of a node make a step, the event `Port`, and answers the step with what the
    /// node answers. The port exists. After want of memory the network is as it was.
    pub fn make_step(
        &mut self,
        node: NodeNo,
        job: &(PortNo, PortStep),
    ) -> Result<NodeStep, NoMemory>
        requires { HasPort self.old.tree (record { node = node; port = job.now.0 }) }
        ensures job { IfOk result (λ made. (made.port, made.step) ≡ job.now) }
        ensures ok { IfOk result (λ made. world_step (WorldEvent.Port node made.port made.step)
            self.old ≡ (self.new, WorldReply.Step made.reply)) }
        ensures err { OnErr result (self.new ≡ self.old) }
    {
        let reply = self.port_step(node, job.0, job.1)?;
        Ok(NodeStep {
            port: job.0,
            step: job.1,
            reply,
        })
    }

    // The same, with the answer alone.
    fn port_step(
        &mut self,
        node: NodeNo,
        port: PortNo,
        step: PortStep,
    ) -> Result<StepReply, NoMemory>
        requires { HasPort self.old.tree (record { node = node; port = port }) }
        ensures ok { IfOk result (λ reply. world_step (WorldEvent.Port node port step) self.old
            ≡ (self.new, WorldReply.Step reply)) }
        ensures err { OnErr result (self.new ≡ self.old) }
    {
        ports();
        every_event_keeps_it();
        let at = EgressPort { node, port };
        marked_step(&self.tree, &mut self.nodes, &mut self.marks, at, step)
    }

    // The same of a copy of an event.
    fn step_copy(&mut self, event: &WorldEvent) -> Result<WorldReply, NoMemory>
        requires { CanHappen event.now self.old }
        ensures ok { IfOk result (λ reply. world_step event.now self.old ≡ (self.new, reply)) }
        ensures err { OnErr result (self.new ≡ self.old) }
    {
        let copy = copy_of(event)?;
        self.step(copy)
    }

    /// Lets a list of events happen, one after the other, and answers what came of each. After want
    /// of memory the network is that after the first `done` events, from which it goes on with the
    /// rest (`a_run_goes_on_where_it_stopped`). Only a forged PDU is copied, once.
    pub fn run(&mut self, alloc: Global, events: &[WorldEvent]) -> Result<Seq<WorldReply>, RunErr>
        requires { CanAllHappen events.now self.old }
        ensures replies { IfOk result (λ replies. replies ≡ replies_to events.now self.old) }
        ensures after { IfOk result (λ _. self.new ≡ world_after events.now self.old) }
        ensures done { IfErr result (λ e. self.new
            ≡ world_after (take e.done events.now) self.old) }
        ensures within { IfErr result (λ e. e.done ≤ length events.now) }
    {
        let mut replies = match Vec::with_capacity(alloc, events.len()) {
            Ok(replies) => replies,
            Err(_) => return Err(RunErr { done: 0 }),
        };
        for i in 0..events.len() {
            let Ok(reply) = self.step_copy(&events[i]) else {
                return Err(RunErr { done: i });
            };
            if replies.push(reply).is_err() {
                return Err(RunErr { done: i + 1 });
            }
        }
        Ok(Seq::from_vec(replies))
    }
}

// The same event, which takes memory for a forged PDU alone.
fn copy_of(event: &WorldEvent) -> Result<WorldEvent, NoMemory>
    ensures { IfOk result (λ copy. copy ≡ event.now) }
{
    match event {
        WorldEvent::Request(node, request) => Ok(WorldEvent::Request(*node, *request)),
        WorldEvent::Port(node, port, step) => Ok(WorldEvent::Port(*node, *port, *step)),
        WorldEvent::Lose(at, index) => Ok(WorldEvent::Lose(*at, *index)),
        WorldEvent::Repeat(at, index) => Ok(WorldEvent::Repeat(*at, *index)),
        WorldEvent::Forge(at, index, wire) => {
            Ok(WorldEvent::Forge(*at, *index, copied_wire(wire)?))
        }
        WorldEvent::Carry(at) => Ok(WorldEvent::Carry(*at)),
        WorldEvent::Clock => Ok(WorldEvent::Clock),
    }
}

// The same PDU.
fn copied_wire(wire: &Wire) -> Result<Wire, NoMemory>
    ensures { IfOk result (λ copy. copy ≡ wire.now) }
{
    let octets = wire.octets.clone()?;
    Ok(Wire {
        app: wire.app,
        octets,
    })
}

// The types of a request and of a PDU say that an event fits.
fn fits(event: &WorldEvent)
    ensures { IsEventInRange event.now }
{
    match event {
        WorldEvent::Request(_, request) => request.keeps(),
        WorldEvent::Forge(_, _, wire) => wire.keeps(),
        WorldEvent::Port(_, _, _)
        | WorldEvent::Lose(_, _)
        | WorldEvent::Repeat(_, _)
        | WorldEvent::Carry(_)
        | WorldEvent::Clock => {}
    }
}
