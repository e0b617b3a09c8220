//! The lines of what is registered and booked at a port.

ghost use Rattle.std.specs.Prelude.{◌≡◌, ◌++◌, [], flat_map, OnOk};
ghost use Rattle.std.specs.Option.{option_map_or};
ghost use Rattle.tree_topology.specs.Topology.{HasPort};
ghost use Rattle.attribute_propagation.specs.Ports.{IsLinkPort, place_of};
ghost use Rattle.node_core.specs.State.{ports_of};
ghost use Rattle.world_core.specs.World.{node_at};
ghost use Rattle.srp_report.specs.Lines.{booked_line};
ghost use Rattle.srp_report.specs.Report.{key_line, place_lines};

use crate::lines::{put_booked, put_srp, put_vlan};
use node_core::{Node, NodeKey};
use srp_base::{EgressPort, NoMemory, PortNo};
use stream_importance::Entry;
use world_core::World;

/// The lines of what is registered and booked at a port.
pub(crate) fn put_place(
    out: &mut Vec<u8>,
    domains: bool,
    port: &[u8],
    world: &World,
    at: EgressPort,
) -> Result<(), NoMemory>
    requires { HasPort world.now.tree at }
    ensures { OnOk result (out.new.items ≡ out.old.items
        ++ option_map_or (place_lines domains port.now (place_of at.port))
        (node_at at.node world.now) []) }
{
    world.keeps();
    let node = world.node(at.node);
    let keys = node.keys(at.port)?;
    put_keys(out, domains, port, node, at.port, keys.as_slice())?;
    let entries = node.bookings(at.port)?;
    put_entries(out, port, entries.as_slice())
}

// The lines of these attributes at a port of a node.
fn put_keys(
    out: &mut Vec<u8>,
    domains: bool,
    port: &[u8],
    node: &Node,
    at: PortNo,
    keys: &[NodeKey],
) -> Result<(), NoMemory>
    requires { IsLinkPort at (ports_of node.now.state) }
    ensures { OnOk result (out.new.items ≡ out.old.items
        ++ flat_map (key_line domains port.now (place_of at) node.now.state) keys.now) }
{
    for key in keys {
        put_key(out, domains, port, node, at, key)?;
    }
    Ok(())
}

// The line of an attribute, by its Registrar and what is registered of it.
fn put_key(
    out: &mut Vec<u8>,
    domains: bool,
    port: &[u8],
    node: &Node,
    at: PortNo,
    key: &NodeKey,
) -> Result<(), NoMemory>
    requires { IsLinkPort at (ports_of node.now.state) }
    ensures { OnOk result (out.new.items
        ≡ out.old.items ++ key_line domains port.now (place_of at) node.now.state key.now) }
{
    let state = node.registrar(at, *key);
    match key {
        NodeKey::Vlan(vid) => put_vlan(out, port, *vid, state),
        NodeKey::Srp(key) => put_srp(out, domains, port, *key, node.content(at, *key), state),
    }
}

// The lines of these bookings.
fn put_entries(out: &mut Vec<u8>, port: &[u8], entries: &[Entry]) -> Result<(), NoMemory>
    ensures { OnOk result (out.new.items
        ≡ out.old.items ++ flat_map (booked_line port.now) entries.now) }
{
    for entry in entries {
        put_booked(out, port, *entry)?;
    }
    Ok(())
}
