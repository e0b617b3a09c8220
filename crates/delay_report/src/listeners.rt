//! The lines of the Listeners.

ghost use Rattle.std.specs.Prelude.{◌≡◌, ◌++◌, OnOk};
ghost use Rattle.tree_topology.specs.Topology.{HasNode};
ghost use Rattle.delay_report.specs.Text.{line_on, node_delay, station_delay, stream_delays};

use crate::lines::{WayDelay, put_delay};
use crate::run::DelayRun;
use node_core::Node;
use scenario_delays::StreamAnswer;
use srp_base::{EgressPort, NoMemory, NodeNo};
use tree_topology::NodeKind;
use world_core::World;

/// The lines of a stream at all stations that listen to it, ascending by node.
pub(crate) fn put_stream(
    out: &mut Vec<u8>,
    run: &DelayRun<'_>,
    world: &World,
    answer: &StreamAnswer,
) -> Result<(), NoMemory>
    requires tree { world.now.tree ≡ run.now.plan.tree }
    requires talker { HasNode run.now.plan.tree answer.now.stream.talker.0 }
    ensures { OnOk result (out.new.items
        ≡ out.old.items ++ stream_delays run.now answer.now 1 world.now.nodes) }
{
    world.keeps();
    for i in 0..world.tree().nodes() {
        let number = NodeNo(i + 1);
        put_node(out, run, answer, number, world.node(number))?;
    }
    Ok(())
}

/// The line of a stream at a node, where it is a station that listens to it.
fn put_node(
    out: &mut Vec<u8>,
    run: &DelayRun<'_>,
    answer: &StreamAnswer,
    number: NodeNo,
    node: &Node,
) -> Result<(), NoMemory>
    requires talker { HasNode run.now.plan.tree answer.now.stream.talker.0 }
    requires node { HasNode run.now.plan.tree number.0 }
    ensures { OnOk result (out.new.items
        ≡ out.old.items
        ++ node_delay run.now answer.now number node.now.state node.now.state.kind) }
{
    match node.kind() {
        NodeKind::Station => put_station(out, run, answer, number, node),
        NodeKind::Bridge => Ok(()),
    }
}

/// The line of a stream at a station that listens to it.
fn put_station(
    out: &mut Vec<u8>,
    run: &DelayRun<'_>,
    answer: &StreamAnswer,
    number: NodeNo,
    node: &Node,
) -> Result<(), NoMemory>
    requires talker { HasNode run.now.plan.tree answer.now.stream.talker.0 }
    requires node { HasNode run.now.plan.tree number.0 }
    ensures { OnOk result (out.new.items
        ≡ out.old.items ++ station_delay run.now answer.now number node.now.state) }
{
    if !node.listens(answer.stream.id) {
        return Ok(());
    }
    let alloc = *out.allocator();
    let path = run.path(alloc, answer.stream.talker, number)?;
    put_path(out, run, run.name_of(number), answer, path.as_slice())
}

/// The line of a station of this name, at the end of a path.
fn put_path(
    out: &mut Vec<u8>,
    run: &DelayRun<'_>,
    station: &[u8],
    answer: &StreamAnswer,
    path: &[EgressPort],
) -> Result<(), NoMemory>
    ensures { OnOk result (out.new.items
        ≡ out.old.items ++ line_on run.now station.now answer.now path.now) }
{
    let Some(last) = path.last() else {
        return Ok(());
    };
    let Some(fed) = run.reckoned_at(answer, *last) else {
        return Ok(());
    };
    let seen = run.seen_at(answer.stream.id, *last);
    put_delay(
        out,
        answer.stream.id,
        station,
        WayDelay {
            hops: path.len(),
            within: fed.spent.div_ceil(1_000),
            seen: seen.longest.div_ceil(1_000),
            frames: seen.frames,
        },
    )
}
