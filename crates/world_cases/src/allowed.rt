//! Events that may happen in a network, whatever has happened in it.

ghost use Rattle.std.specs.Prelude.{IsTrue};
ghost use Rattle.std.specs.List.{AllByRecursion};
ghost use Rattle.world_core.specs.{During.IsAllowed, World.CanAllHappen};

use crate::world::{has_node, has_port};
use node_core::{AppRequest, PortStep, Wire};
use srp_base::{EgressPort, NodeNo};
use tree_topology::NodeKind;
use world_core::WorldEvent::{Carry, Clock, Forge, Lose, Port, Repeat, Request};
use world_core::laws::what_is_allowed_may_happen;
use world_core::{World, WorldEvent};

// Whether a station may be asked for something, at any time.
#[tactic(auto, using(crate::proofs::Asked::may_be_asked))]
fn is_asked(world: &World, node: NodeNo, request: &AppRequest) -> bool
    ensures { IsTrue result → IsAllowed world.now.tree (WorldEvent.Request node request.now) }
{
    request.keeps();
    world.keeps();
    if !has_node(world, node) {
        return false;
    }
    world.node(node).kind() == NodeKind::Station
}

// Whether a PDU may be forged at a port, at any time.
fn is_forged(world: &World, at: EgressPort, index: u32, wire: &Wire) -> bool
    ensures { IsTrue result → IsAllowed world.now.tree (WorldEvent.Forge at index wire.now) }
{
    wire.keeps();
    has_port(world, at) && wire.octets.len() <= 1_500
}

// Whether an event may happen at any time of a tick.
fn is_allowed(world: &World, event: &WorldEvent) -> bool
    ensures { IsTrue result → IsAllowed world.now.tree event.now }
{
    match event {
        Request(node, request) => is_asked(world, *node, request),
        Port(node, port, _) => has_port(
            world,
            EgressPort {
                node: *node,
                port: *port,
            },
        ),
        Lose(at, _) => has_port(world, *at),
        Repeat(at, _) => has_port(world, *at),
        Forge(at, index, wire) => is_forged(world, *at, *index, wire),
        Carry(at) => has_port(world, *at),
        Clock => false,
    }
}

// Whether each of these may.
fn are_allowed(world: &World, events: &[WorldEvent]) -> bool
    ensures { IsTrue result → AllByRecursion (IsAllowed world.now.tree) events.now }
{
    for event in events {
        if !is_allowed(world, event) {
            return false;
        }
    }
    true
}

/// Whether they may happen one after the other.
#[tactic(auto, using(crate::proofs::Worlds::all_can))]
pub(crate) fn can_run(world: &World, events: &[WorldEvent]) -> bool
    ensures { IsTrue result → CanAllHappen events.now world.now }
{
    what_is_allowed_may_happen();
    world.keeps();
    if !has_node(world, NodeNo(1)) {
        return false;
    }
    let _ = world.node(NodeNo(1));
    are_allowed(world, events)
}

/// A step of a port.
pub(crate) fn step_of(at: EgressPort, step: PortStep) -> WorldEvent {
    Port(at.node, at.port, step)
}
