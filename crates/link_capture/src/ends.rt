//! What the ends of a link have to send.

ghost use Rattle.std.specs.Prelude.{◌≡◌, ◌≤◌, ◌++◌, IfOk, OnOk};
ghost use Rattle.tree_topology.specs.Topology.{HasPort};
ghost use Rattle.attribute_propagation.specs.Ports.{IsLinkPort, place_of};
ghost use Rattle.node_core.specs.{State.ports_of, State.box_at, Holding.states_in};
ghost use Rattle.link_capture.specs.Crossings.{sent_by, outbox_in, crossed_at};
ghost use Rattle.link_capture.specs.Captured.{records_of};
ghost use Rattle.link_capture.specs.Ends.{HasEnd};

use crate::frames::put_pdus;
use node_core::Node;
use srp_base::{EgressPort, NoMemory, Seq};
use world_core::World;

/// Writes the records of what waits in the outbox of a node's port, which stays there.
fn put_outbox(out: &mut Vec<u8>, t: u64, from: EgressPort, node: &mut Node) -> Result<(), NoMemory>
    requires moment { t ≤ 12000 }
    requires port { IsLinkPort from.port (ports_of node.old.state) }
    ensures same { node.new.state ≡ node.old.state }
    ensures put { OnOk result (out.new.items ≡ out.old.items
        ++ records_of (sent_by t from (box_at (place_of from.port) node.old.state.outboxes))) }
{
    let wires = node.take_out(from.port);
    let put = put_pdus(out, t, from, wires.as_slice());
    node.put_back(from.port, wires);
    put
}

/// Writes the records of what a port has to send, among the nodes of a network.
fn put_end(
    out: &mut Vec<u8>,
    t: u64,
    from: EgressPort,
    nodes: &mut Vec<Node>,
) -> Result<(), NoMemory>
    requires moment { t ≤ 12000 }
    requires stands { HasEnd (states_in nodes.old.items) from }
    ensures same { states_in nodes.new.items ≡ states_in nodes.old.items }
    ensures put { OnOk result (out.new.items ≡ out.old.items
        ++ records_of (sent_by t from (outbox_in from (states_in nodes.old.items)))) }
{
    put_outbox(out, t, from, &mut nodes[usize::from(from.node.0) - 1])
}

/// Writes the records of what crosses between two ports where the PDUs of a network are carried,
/// and hands out the network as it was.
pub(crate) fn put_crossings(
    out: &mut Vec<u8>,
    t: u64,
    ends: (EgressPort, EgressPort),
    world: World,
) -> Result<World, NoMemory>
    requires moment { t ≤ 12000 }
    requires a { HasPort world.tree ends.0 }
    requires b { HasPort world.tree ends.1 }
    ensures same { IfOk result (λ w. w ≡ world) }
    ensures put { OnOk result (out.new.items
        ≡ out.old.items ++ records_of (crossed_at t ends world)) }
{
    let (rest, parted) = world.part();
    let mut nodes = parted.into_vec();
    put_end(out, t, ends.0, &mut nodes)?;
    put_end(out, t, ends.1, &mut nodes)?;
    Ok(World::join(rest, Seq::from_vec(nodes)))
}
