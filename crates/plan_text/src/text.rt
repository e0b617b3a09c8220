//! The text of a whole file.

ghost use Rattle.std.specs.Prelude.{◌≡◌, ◌++◌, flat_map, IfOk, OnOk};
ghost use Rattle.plan_text.specs.Text.{head_lines, node_table, link_table, stream_table, event_table, frame_table, network_tables, traffic_tables, file_text as file_text_spec};

use crate::entries::{put_frame, put_link, put_node, put_stream};
use crate::events::put_event;
use crate::lines::{put_number_line, put_truth_line};
use srp_base::NoMemory;
use std::alloc::Global;
use topology_file::{EventEntry, FrameEntry, LinkEntry, NodeEntry, Scenario, StreamEntry};

// The keys of the scenario itself.
#[tactic(auto, unfolding(crate::specs::Text::head_lines))]
fn put_head(out: &mut Vec<u8>, scenario: &Scenario) -> Result<(), NoMemory>
    ensures { OnOk result (out.new.items ≡ out.old.items ++ head_lines scenario.now) }
{
    put_number_line(out, "ticks", scenario.ticks)?;
    put_number_line(out, "leave_time", scenario.leave_time.0)?;
    put_truth_line(out, "periodic", scenario.periodic)?;
    put_truth_line(out, "domains", scenario.domains)
}

// The tables of the nodes.
fn put_nodes(out: &mut Vec<u8>, domains: bool, nodes: &[NodeEntry]) -> Result<(), NoMemory>
    ensures { OnOk result (out.new.items
        ≡ out.old.items ++ flat_map (node_table domains) nodes.now) }
{
    for node in nodes {
        put_node(out, domains, node)?;
    }
    Ok(())
}

// The tables of the links.
fn put_links(out: &mut Vec<u8>, nodes: &[NodeEntry], links: &[LinkEntry]) -> Result<(), NoMemory>
    ensures { OnOk result (out.new.items
        ≡ out.old.items ++ flat_map (link_table nodes.now) links.now) }
{
    for link in links {
        put_link(out, nodes, link)?;
    }
    Ok(())
}

// The tables of the streams.
fn put_streams(
    out: &mut Vec<u8>,
    nodes: &[NodeEntry],
    streams: &[StreamEntry],
) -> Result<(), NoMemory>
    ensures { OnOk result (out.new.items
        ≡ out.old.items ++ flat_map (stream_table nodes.now) streams.now) }
{
    for stream in streams {
        put_stream(out, nodes, stream)?;
    }
    Ok(())
}

// The tables of the events.
fn put_events(
    out: &mut Vec<u8>,
    nodes: &[NodeEntry],
    streams: &[StreamEntry],
    events: &[EventEntry],
) -> Result<(), NoMemory>
    ensures { OnOk result (out.new.items
        ≡ out.old.items ++ flat_map (event_table nodes.now streams.now) events.now) }
{
    for event in events {
        put_event(out, nodes, streams, event)?;
    }
    Ok(())
}

// The tables of the frames.
fn put_frames(
    out: &mut Vec<u8>,
    nodes: &[NodeEntry],
    streams: &[StreamEntry],
    frames: &[FrameEntry],
) -> Result<(), NoMemory>
    ensures { OnOk result (out.new.items
        ≡ out.old.items ++ flat_map (frame_table nodes.now streams.now) frames.now) }
{
    for frame in frames {
        put_frame(out, nodes, streams, frame)?;
    }
    Ok(())
}

// The tables of the network.
#[tactic(auto, unfolding(crate::specs::Text::network_tables))]
fn put_network(out: &mut Vec<u8>, scenario: &Scenario) -> Result<(), NoMemory>
    ensures { OnOk result (out.new.items ≡ out.old.items ++ network_tables scenario.now) }
{
    let nodes = scenario.nodes.as_slice();
    put_nodes(out, scenario.domains, nodes)?;
    put_links(out, nodes, scenario.links.as_slice())
}

// The tables of what happens in it.
#[tactic(auto, unfolding(crate::specs::Text::traffic_tables))]
fn put_traffic(out: &mut Vec<u8>, scenario: &Scenario) -> Result<(), NoMemory>
    ensures { OnOk result (out.new.items ≡ out.old.items ++ traffic_tables scenario.now) }
{
    let nodes = scenario.nodes.as_slice();
    let streams = scenario.streams.as_slice();
    put_streams(out, nodes, streams)?;
    put_events(out, nodes, streams, scenario.events.as_slice())?;
    put_frames(out, nodes, streams, scenario.frames.as_slice())
}

/// A scenario as the file that it is read of.
pub fn file_text(alloc: Global, scenario: &Scenario) -> Result<Vec<u8>, NoMemory>
    ensures { IfOk result (λ text. text.items ≡ file_text_spec scenario.now) }
{
    let mut out = Vec::new(alloc);
    put_head(&mut out, scenario)?;
    put_network(&mut out, scenario)?;
    put_traffic(&mut out, scenario)?;
    Ok(out)
}
