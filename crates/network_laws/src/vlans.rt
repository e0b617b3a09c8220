//! Both sides of the law of VLANs, in any network.

ghost use Rattle.std.specs.Prelude.{◌≡◌, ◌+◌, ◌&&◌, IfOk, IsOk};
ghost use Rattle.tree_topology.specs.{Topology.HasNode, Topology.HasPort, Walk.is_behind};
ghost use Rattle.network_laws.specs.Vlans.{is_registered, is_declared_at, is_declared_behind, IsAtRest};

use crate::laws::vlans_are_those_declared_behind;
use node_core::NodeKey;
use registrar::Registrar;
use srp_base::{EgressPort, NoMemory, NodeNo, Vid};
use tree_topology::NodeKind;
use world_core::World;

/// The two sides of a law at one place: what is found there, and what the law expects. They are
/// equal where the network is at rest.
#[derive(Clone, Copy, PartialEq, Eq)]
pub struct Sides {
    pub found: bool,
    pub expected: bool,
}

/// Whether a VID is registered at a port, and whether a station behind the port declares it (IEEE
/// Std 802.1Q-2018, 11.2), each by its own definition in every network. The port exists. It takes
/// no memory, so it always answers.
pub fn vlans_match(world: &World, at: EgressPort, vid: Vid) -> Result<Sides, NoMemory>
    requires { HasPort world.now.tree at }
    ensures found { IfOk result (λ s. s.found ≡ is_registered world.now vid at) }
    ensures expected { IfOk result (λ s. s.expected ≡ is_declared_behind world.now vid at) }
    ensures at_rest { IsAtRest world.now → IfOk result (λ s. s.found ≡ s.expected) }
    ensures answers { IsOk result }
{
    vlans_are_those_declared_behind();
    world.keeps();
    Ok(Sides {
        found: is_registered_at(world, at, vid),
        expected: is_declared_by_some(world, at, vid),
    })
}

// Whether a VID is registered at a port.
fn is_registered_at(world: &World, at: EgressPort, vid: Vid) -> bool
    requires { HasPort world.now.tree at }
    ensures { result ≡ is_registered world.now vid at }
{
    world.keeps();
    world.node(at.node).registrar(at.port, NodeKey::Vlan(vid)) != Registrar::Empty
}

// Whether some station behind a port declares a VID.
fn is_declared_by_some(world: &World, at: EgressPort, vid: Vid) -> bool
    requires { HasPort world.now.tree at }
    ensures { result ≡ is_declared_behind world.now vid at }
{
    for y in 0..world.tree().nodes() {
        if is_declared_there(world, at, vid, y + 1) {
            return true;
        }
    }
    false
}

// Whether a node lies behind a port, is a station and declares a VID.
fn is_declared_there(world: &World, at: EgressPort, vid: Vid, y: u16) -> bool
    requires port { HasPort world.now.tree at }
    requires node { HasNode world.now.tree y }
    ensures { result ≡ (is_behind world.now.tree.links at y && is_declared_at world.now vid y) }
{
    let number = NodeNo(y);
    let node = world.node(number);
    world.tree().behind(at, number) && node.kind() == NodeKind::Station && node.declares(vid)
}
