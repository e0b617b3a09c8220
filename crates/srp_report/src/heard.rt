//! The lines of what the stations hear.

ghost use Rattle.std.specs.Prelude.{◌≡◌, ◌++◌, flat_map, OnOk};
ghost use Rattle.srp_report.specs.Report.{stream_heard, node_heard, nodes_heard};

use crate::lines::put_heard;
use node_core::Node;
use report_words::node_name;
use srp_base::{NoMemory, NodeNo};
use topology_file::{Scenario, StreamEntry};
use tree_topology::NodeKind;
use world_core::World;

/// The lines of all stations, ascending by number.
pub(crate) fn put_nodes(
    out: &mut Vec<u8>,
    scenario: &Scenario,
    world: &World,
) -> Result<(), NoMemory>
    ensures { OnOk result (out.new.items
        ≡ out.old.items ++ nodes_heard scenario.now 1 world.now.nodes) }
{
    world.keeps();
    for i in 0..world.tree().nodes() {
        let number = NodeNo(i + 1);
        put_node(out, scenario, number, world.node(number))?;
    }
    Ok(())
}

// The lines of a node: what it hears of each stream that it listens to, where it is a station.
fn put_node(
    out: &mut Vec<u8>,
    scenario: &Scenario,
    number: NodeNo,
    node: &Node,
) -> Result<(), NoMemory>
    ensures { OnOk result (out.new.items
        ≡ out.old.items ++ node_heard scenario.now number node.now.state) }
{
    let name = node_name(scenario.nodes.as_slice(), number);
    match node.kind() {
        NodeKind::Station => put_streams(out, name, node, scenario.streams.as_slice()),
        NodeKind::Bridge => Ok(()),
    }
}

// The lines of the streams that a station listens to.
fn put_streams(
    out: &mut Vec<u8>,
    name: &[u8],
    node: &Node,
    streams: &[StreamEntry],
) -> Result<(), NoMemory>
    ensures { OnOk result (out.new.items
        ≡ out.old.items ++ flat_map (stream_heard name.now node.now.state) streams.now) }
{
    for entry in streams {
        put_stream(out, name, node, entry)?;
    }
    Ok(())
}

// The line of a stream, where a station listens to it.
fn put_stream(
    out: &mut Vec<u8>,
    name: &[u8],
    node: &Node,
    entry: &StreamEntry,
) -> Result<(), NoMemory>
    ensures { OnOk result (out.new.items
        ≡ out.old.items ++ stream_heard name.now node.now.state entry.now) }
{
    let stream = entry.id;
    if node.listens(stream) {
        put_heard(out, name, stream, node.heard(stream))
    } else {
        Ok(())
    }
}
