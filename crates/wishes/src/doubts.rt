//! What is allowed in a plan and hardly meant.

ghost use Rattle.std.specs.Prelude.{◌≡◌, ◌-◌, ◌++◌, flat_map, slice_get, OnOk};
ghost use Rattle.std.specs.List.{AllByRecursion};
ghost use Rattle.tree_topology.specs.Topology.{HasNode};
ghost use Rattle.network_laws.specs.Vlans.{is_declared_at};
ghost use Rattle.wishes.specs.Doubts.{dense_frame, doubts_by, doubts_text, end_doubt, entry_doubts, frame_doubts, is_dense as is_dense_spec, interval_of as interval_of_spec, is_denser as is_denser_spec, long_frame, long_stream, no_class, no_frames, route_doubts, station_doubts, stream_doubts, streams_doubts, undeclared_at, unheard_line, untalked, where_so};

use crate::doubt_lines::{
    put_dense_frame_line, put_long_frame_line, put_long_stream_line, put_no_class_line,
    put_no_frames_line, put_undeclared_line, put_unheard_line, put_untalked_line,
};
use crate::listeners::{listeners_of, talking_station};
use msrp_talker::class_of;
use report_words::{node_name, put};
use srp_base::{Class, NoMemory, NodeNo};
use topology_file::{FrameEntry, FrameRoute, Scenario, StreamEntry};
use tree_topology::NodeKind;
use world_core::World;

/// Puts down what is doubted of each stream, of each frame, and of how the run ends.
pub(crate) fn put_doubts(
    out: &mut Vec<u8>,
    scenario: &Scenario,
    world: &World,
) -> Result<(), NoMemory>
    ensures { OnOk result (out.new.items
        ≡ out.old.items ++ doubts_text scenario.now world.now) }
{
    put_streams(out, scenario, world, scenario.streams.as_slice())?;
    put_frames(out, scenario, scenario.frames.as_slice())?;
    put_end_doubt(out, world)
}

// What is doubted of these streams.
fn put_streams(
    out: &mut Vec<u8>,
    scenario: &Scenario,
    world: &World,
    streams: &[StreamEntry],
) -> Result<(), NoMemory>
    ensures { OnOk result (out.new.items
        ≡ out.old.items ++ streams_doubts scenario.now world.now streams.now) }
{
    for i in 0..streams.len() {
        put_stream(out, scenario, world, &streams[i])?;
    }
    Ok(())
}

fn put_stream(
    out: &mut Vec<u8>,
    scenario: &Scenario,
    world: &World,
    entry: &StreamEntry,
) -> Result<(), NoMemory>
    ensures { OnOk result (out.new.items
        ≡ out.old.items ++ stream_doubts scenario.now world.now entry.now) }
{
    put_entry_doubts(out, entry)?;
    put_station_doubts(out, scenario, world, entry)
}

// What a stream's entry says.
fn put_entry_doubts(out: &mut Vec<u8>, entry: &StreamEntry) -> Result<(), NoMemory>
    ensures { OnOk result (out.new.items ≡ out.old.items ++ entry_doubts entry.now) }
{
    put_no_frames(out, entry)?;
    put_long_stream(out, entry)?;
    put_no_class(out, entry)
}

fn put_no_frames(out: &mut Vec<u8>, entry: &StreamEntry) -> Result<(), NoMemory>
    ensures { OnOk result (out.new.items ≡ out.old.items ++ no_frames entry.now) }
{
    if entry.frames == 0 {
        put_no_frames_line(out, entry.name.as_slice())
    } else {
        Ok(())
    }
}

fn put_long_stream(out: &mut Vec<u8>, entry: &StreamEntry) -> Result<(), NoMemory>
    ensures { OnOk result (out.new.items ≡ out.old.items ++ long_stream entry.now) }
{
    if 1500 < entry.octets {
        put_long_stream_line(out, entry.name.as_slice(), entry.octets)
    } else {
        Ok(())
    }
}

fn put_no_class(out: &mut Vec<u8>, entry: &StreamEntry) -> Result<(), NoMemory>
    ensures { OnOk result (out.new.items ≡ out.old.items ++ no_class entry.now) }
{
    let priority = entry.priority.get();
    if class_of(priority).is_none() {
        put_no_class_line(out, entry.name.as_slice(), priority)
    } else {
        Ok(())
    }
}

// What the stations do with a stream.
fn put_station_doubts(
    out: &mut Vec<u8>,
    scenario: &Scenario,
    world: &World,
    entry: &StreamEntry,
) -> Result<(), NoMemory>
    ensures { OnOk result (out.new.items
        ≡ out.old.items ++ station_doubts scenario.now world.now entry.now) }
{
    let alloc = *out.allocator();
    let stations = listeners_of(alloc, world, entry.id)?;
    put_untalked(out, world, entry)?;
    put_unheard(out, entry, stations.is_empty())?;
    put_undeclared(out, scenario, world, entry, stations.as_slice())
}

fn put_untalked(out: &mut Vec<u8>, world: &World, entry: &StreamEntry) -> Result<(), NoMemory>
    ensures { OnOk result (out.new.items ≡ out.old.items ++ untalked world.now entry.now) }
{
    if talking_station(world, entry.id).is_none() {
        put_untalked_line(out, entry.name.as_slice())
    } else {
        Ok(())
    }
}

fn put_unheard(out: &mut Vec<u8>, entry: &StreamEntry, is_unheard: bool) -> Result<(), NoMemory>
    ensures { OnOk result (out.new.items
        ≡ out.old.items ++ where_so is_unheard (unheard_line entry.now.name)) }
{
    if is_unheard {
        put_unheard_line(out, entry.name.as_slice())
    } else {
        Ok(())
    }
}

// Of these stations those that don't declare a stream's VID.
fn put_undeclared(
    out: &mut Vec<u8>,
    scenario: &Scenario,
    world: &World,
    entry: &StreamEntry,
    stations: &[NodeNo],
) -> Result<(), NoMemory>
    requires { AllByRecursion (λ l. HasNode world.now.tree l.0) stations.now }
    ensures { OnOk result (out.new.items ≡ out.old.items
        ++ flat_map (undeclared_at scenario.now world.now entry.now) stations.now) }
{
    for i in 0..stations.len() {
        put_if_undeclared(out, scenario, world, entry, stations[i])?;
    }
    Ok(())
}

fn put_if_undeclared(
    out: &mut Vec<u8>,
    scenario: &Scenario,
    world: &World,
    entry: &StreamEntry,
    station: NodeNo,
) -> Result<(), NoMemory>
    requires { HasNode world.now.tree station.0 }
    ensures { OnOk result (out.new.items
        ≡ out.old.items ++ undeclared_at scenario.now world.now entry.now station) }
{
    if is_declared(world, station, entry) {
        return Ok(());
    }
    let name = node_name(scenario.nodes.as_slice(), station);
    put_undeclared_line(out, name, entry.name.as_slice(), entry.vid)
}

// Whether a node is a station that declares a stream's VID.
fn is_declared(world: &World, station: NodeNo, entry: &StreamEntry) -> bool
    requires { HasNode world.now.tree station.0 }
    ensures { result ≡ is_declared_at world.now entry.now.vid station.0 }
{
    let node = world.node(station);
    node.kind() == NodeKind::Station && node.declares(entry.vid)
}

// What is doubted of these frames.
fn put_frames(out: &mut Vec<u8>, scenario: &Scenario, frames: &[FrameEntry]) -> Result<(), NoMemory>
    ensures { OnOk result (out.new.items
        ≡ out.old.items ++ frame_doubts scenario.now 1 frames.now) }
{
    for i in 0..frames.len() {
        put_frame(out, scenario, i + 1, &frames[i])?;
    }
    Ok(())
}

// What is doubted of the frame of a number, counted from 1.
fn put_frame(
    out: &mut Vec<u8>,
    scenario: &Scenario,
    number: usize,
    frame: &FrameEntry,
) -> Result<(), NoMemory>
    ensures { OnOk result (out.new.items
        ≡ out.old.items ++ route_doubts scenario.now number frame.now frame.now.route) }
{
    match frame.route {
        FrameRoute::OfStream { stream } => put_frame_of(out, scenario, number, frame, stream),
        FrameRoute::Between { .. } => Ok(()),
    }
}

// Of a frame of the stream of a number, counted from 1.
fn put_frame_of(
    out: &mut Vec<u8>,
    scenario: &Scenario,
    number: usize,
    frame: &FrameEntry,
    stream: u16,
) -> Result<(), NoMemory>
    ensures { OnOk result (out.new.items ≡ out.old.items
        ++ doubts_by number frame.now (slice_get scenario.now.streams (stream - 1))) }
{
    let place = usize::from(stream).saturating_sub(1);
    match scenario.streams.as_slice().get(place) {
        Some(entry) => put_both(out, number, frame, entry),
        None => Ok(()),
    }
}

fn put_both(
    out: &mut Vec<u8>,
    number: usize,
    frame: &FrameEntry,
    entry: &StreamEntry,
) -> Result<(), NoMemory>
    ensures { OnOk result (out.new.items ≡ out.old.items
        ++ (long_frame number frame.now entry.now ++ dense_frame number frame.now entry.now)) }
{
    put_long_frame(out, number, frame, entry)?;
    put_dense_frame(out, number, frame, entry)
}

fn put_long_frame(
    out: &mut Vec<u8>,
    number: usize,
    frame: &FrameEntry,
    entry: &StreamEntry,
) -> Result<(), NoMemory>
    ensures { OnOk result (out.new.items
        ≡ out.old.items ++ long_frame number frame.now entry.now) }
{
    let octets = frame.octets;
    let most = entry.octets;
    if most < octets {
        put_long_frame_line(out, number, octets, entry.name.as_slice(), most)
    } else {
        Ok(())
    }
}

fn put_dense_frame(
    out: &mut Vec<u8>,
    number: usize,
    frame: &FrameEntry,
    entry: &StreamEntry,
) -> Result<(), NoMemory>
    ensures { OnOk result (out.new.items
        ≡ out.old.items ++ dense_frame number frame.now entry.now) }
{
    if is_dense(frame, entry) {
        put_dense_frame_line(out, number, entry.name.as_slice(), entry.frames)
    } else {
        Ok(())
    }
}

// Whether more copies of a frame come in an interval of its stream's class than the stream has
// frames.
fn is_dense(frame: &FrameEntry, entry: &StreamEntry) -> bool
    ensures { result ≡ is_dense_spec frame.now entry.now }
{
    match class_of(entry.priority.get()) {
        Some(class) => is_denser(frame, entry.frames, interval_of(class)),
        None => false,
    }
}

// The class measurement interval of a class in ns.
fn interval_of(class: Class) -> u128
    ensures { result ≡ interval_of_spec class }
{
    match class {
        Class::A => 125_000,
        Class::B => 250_000,
    }
}

fn is_denser(frame: &FrameEntry, most: u16, interval: u128) -> bool
    ensures { result ≡ is_denser_spec frame.now most interval }
{
    u32::from(most) < frame.count && u128::from(most) * u128::from(frame.every) < interval
}

// What is doubted of how the run ends.
fn put_end_doubt(out: &mut Vec<u8>, world: &World) -> Result<(), NoMemory>
    ensures { OnOk result (out.new.items ≡ out.old.items ++ end_doubt world.now) }
{
    if world.quiet() && world.in_step() {
        return Ok(());
    }
    put(
        out,
        "doubt the run ends while the network isn't quiet and in step: it may still change\n",
    )
}
