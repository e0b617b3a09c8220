//! The way from a stream's Talker to a station, and what is registered on it and at its end.

ghost use Rattle.std.specs.Prelude.{◌≡◌, find, IfOk};
ghost use Rattle.std.specs.List.{AllByRecursion, list_all};
ghost use Rattle.tree_topology.specs.{Topology.HasNode, Topology.HasPort, Walk.path_between};
ghost use Rattle.msrp.specs.Part.{talker_reg_of};
ghost use Rattle.network_laws.specs.Vlans.{is_registered as is_registered_spec};
ghost use Rattle.wishes.specs.Wishes.{failure_in, failure_of, failure_to, is_of_bridge as is_of_bridge_spec, way_to as way_to_spec};

use crate::listeners::talking_station;
use msrp_codec::{MsrpContent, MsrpKey};
use node_core::{Node, NodeKey};
use registrar::Registrar;
use srp_base::{BridgeId, EgressPort, Failure, NoMemory, NodeNo, PortNo, Seq, StreamId, Vid};
use std::alloc::Global;
use tree_topology::laws::ports;
use world_core::World;

/// The egress ports from the lowest-numbered station that talks a stream to a node; none where no
/// station talks it.
pub(crate) fn way_to(
    alloc: Global,
    world: &World,
    station: NodeNo,
    stream: StreamId,
) -> Result<Seq<EgressPort>, NoMemory>
    requires { HasNode world.now.tree station.0 }
    ensures way { IfOk result (λ way. way ≡ way_to_spec world.now stream station.0) }
    ensures ports { IfOk result (λ way. AllByRecursion (HasPort world.now.tree) way) }
{
    let Some(talker) = talking_station(world, stream) else {
        return Ok(Seq::from_vec(Vec::new(alloc)));
    };
    way_from(alloc, world, talker, station)
}

// The egress ports from one node to another.
fn way_from(
    alloc: Global,
    world: &World,
    talker: NodeNo,
    station: NodeNo,
) -> Result<Seq<EgressPort>, NoMemory>
    requires from { HasNode world.now.tree talker.0 }
    requires to { HasNode world.now.tree station.0 }
    ensures way { IfOk result
        (λ way. way ≡ path_between world.now.tree.links talker.0 station.0) }
    ensures ports { IfOk result (λ way. AllByRecursion (HasPort world.now.tree) way) }
{
    world.keeps();
    ports();
    let path = world.tree().path(alloc, talker, station)?;
    Ok(path)
}

/// Whether a VID is registered at each of some ports.
pub(crate) fn are_registered(world: &World, way: &[EgressPort], vid: Vid) -> bool
    requires { AllByRecursion (HasPort world.now.tree) way.now }
    ensures { result ≡ list_all (is_registered_spec world.now vid) way.now }
{
    for at in way {
        if !is_registered(world, *at, vid) {
            return false;
        }
    }
    true
}

// Whether a VID is registered at a port.
fn is_registered(world: &World, at: EgressPort, vid: Vid) -> bool
    requires { HasPort world.now.tree at }
    ensures { result ≡ is_registered_spec world.now vid at }
{
    world.keeps();
    world.node(at.node).registrar(at.port, NodeKey::Vlan(vid)) != Registrar::Empty
}

/// The first of some ports whose node has a BridgeID.
pub(crate) fn port_of_bridge(
    world: &World,
    way: &[EgressPort],
    bridge: BridgeId,
) -> Option<EgressPort>
    requires { AllByRecursion (HasPort world.now.tree) way.now }
    ensures { result ≡ find (is_of_bridge_spec world.now bridge) way.now }
{
    for at in way {
        if is_of_bridge(world, *at, bridge) {
            return Some(*at);
        }
    }
    None
}

// Whether a port's node has a BridgeID.
fn is_of_bridge(world: &World, at: EgressPort, bridge: BridgeId) -> bool
    requires { HasPort world.now.tree at }
    ensures { result ≡ is_of_bridge_spec world.now bridge at }
{
    world.node(at.node).bridge() == bridge
}

/// The failure with which a stream's Talker is registered at a node's first port.
pub(crate) fn failure_of_listener(
    world: &World,
    station: NodeNo,
    stream: StreamId,
) -> Option<Failure>
    requires { HasNode world.now.tree station.0 }
    ensures { result ≡ failure_to world.now stream station.0 }
{
    failure_of_node(world.node(station), stream)
}

fn failure_of_node(node: &Node, stream: StreamId) -> Option<Failure>
    ensures { result ≡ failure_in stream node.now.state }
{
    node.keeps();
    if node.ports() == 0 {
        return None;
    }
    failure_of_content(node.content(PortNo(1), MsrpKey::Talker(stream)))
}

fn failure_of_content(content: Option<MsrpContent>) -> Option<Failure>
    ensures { result ≡ failure_of (talker_reg_of content) }
{
    match content {
        Some(MsrpContent::Failed(_, failure)) => Some(failure),
        Some(MsrpContent::Advertise(_) | MsrpContent::Listener(_) | MsrpContent::Domain { .. })
        | None => None,
    }
}
