//! Who listens to a stream, and who talks it.

ghost use Rattle.std.specs.Prelude.{◌≡◌, ◌++◌, option_map, IfOk, IfSome, OnOk};
ghost use Rattle.std.specs.List.{AllByRecursion};
ghost use Rattle.tree_topology.specs.Topology.{HasNode};
ghost use Rattle.network_laws.specs.Streams.{is_listened_at, is_talked_at, talking_node};
ghost use Rattle.wishes.specs.Wishes.{is_talked as is_talked_spec, listeners, listeners_from};

use srp_base::{NoMemory, NodeNo, StreamId};
use std::alloc::Global;
use tree_topology::NodeKind;
use world_core::World;

/// The stations that listen to a stream, ascending.
pub(crate) fn listeners_of(
    alloc: Global,
    world: &World,
    stream: StreamId,
) -> Result<Vec<NodeNo>, NoMemory>
    ensures stations { IfOk result (λ v. v.items ≡ listeners world.now stream) }
    ensures nodes { IfOk result
        (λ v. AllByRecursion (λ l. HasNode world.now.tree l.0) v.items) }
{
    let stations = all_listeners(alloc, world, stream)?;
    Ok(stations)
}

// The same, found number by number.
fn all_listeners(alloc: Global, world: &World, stream: StreamId) -> Result<Vec<NodeNo>, NoMemory>
    ensures { IfOk result (λ v. v.items ≡ listeners world.now stream) }
{
    let mut stations = Vec::new(alloc);
    for y in 0..world.tree().nodes() {
        push_if_listening(&mut stations, world, y + 1, stream)?;
    }
    Ok(stations)
}

// A node, where it is a station that listens to a stream.
fn push_if_listening(
    stations: &mut Vec<NodeNo>,
    world: &World,
    y: u16,
    stream: StreamId,
) -> Result<(), NoMemory>
    requires { HasNode world.now.tree y }
    ensures { OnOk result (stations.new.items
        ≡ stations.old.items ++ listeners_from world.now stream y 1) }
{
    if !is_listening(world, y, stream) {
        return Ok(());
    }
    stations.push(NodeNo(y))?;
    Ok(())
}

// Whether a node is a station that listens to a stream.
fn is_listening(world: &World, y: u16, stream: StreamId) -> bool
    requires { HasNode world.now.tree y }
    ensures { result ≡ is_listened_at world.now stream y }
{
    let node = world.node(NodeNo(y));
    node.kind() == NodeKind::Station && node.listens(stream)
}

/// The lowest-numbered station that talks a stream.
pub(crate) fn talking_station(world: &World, stream: StreamId) -> Option<NodeNo>
    ensures value { option_map (λ n. n.0) result ≡ talking_node world.now stream }
    ensures node { IfSome result (λ n. HasNode world.now.tree n.0) }
{
    for y in 0..world.tree().nodes() {
        if is_talking(world, y + 1, stream) {
            return Some(NodeNo(y + 1));
        }
    }
    None
}

/// Whether some station talks a stream.
pub(crate) fn is_talked(world: &World, stream: StreamId) -> bool
    ensures { result ≡ is_talked_spec world.now stream }
{
    !talking_station(world, stream).is_none()
}

// Whether a node is a station that talks a stream.
fn is_talking(world: &World, y: u16, stream: StreamId) -> bool
    requires { HasNode world.now.tree y }
    ensures { result ≡ is_talked_at world.now stream y }
{
    let node = world.node(NodeNo(y));
    node.kind() == NodeKind::Station && node.talks(stream)
}
