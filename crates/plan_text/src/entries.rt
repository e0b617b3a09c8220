//! The tables of nodes, links, streams and frames.

ghost use Rattle.std.specs.Prelude.{◌≡◌, ◌++◌, codes, OnOk};
ghost use Rattle.srp_base.specs.Hexadecimal.{hex16_text, hex12_text};
ghost use Rattle.plan_text.specs.Text.{kind_word as kind_word_spec, domain_word as domain_word_spec, domain_line, mbit_of as mbit_of_spec, rank_number as rank_number_spec, stream_name as stream_name_spec, node_table, link_values, link_table, stream_head, stream_ends, stream_values, stream_table, route_lines, frame_values, frame_table};
ghost use Rattle.plan_text.specs.Lines.{text_line};

use crate::lines::{put_number_line, put_text_line};
use report_words::{node_name, put};
use srp_base::{BridgeId, Mac, NoMemory, Rank, Rate, StreamId};
use topology_file::{DomainWord, FrameEntry, FrameRoute, LinkEntry, NodeEntry, StreamEntry};
use tree_topology::NodeKind;

// ---- nodes

// What a node is, by its word.
fn kind_word(kind: NodeKind) -> &'static str
    ensures { result.now ≡ kind_word_spec kind }
{
    match kind {
        NodeKind::Station => "station",
        NodeKind::Bridge => "bridge",
    }
}

// The SRP domain of a node, by its word.
fn domain_word(domain: DomainWord) -> &'static str
    ensures { result.now ≡ domain_word_spec domain }
{
    match domain {
        DomainWord::Both => "both",
        DomainWord::OnlyA => "a",
        DomainWord::Nothing => "none",
    }
}

// The key of a node's domain, where the scenario has domains.
fn put_domain(out: &mut Vec<u8>, domains: bool, domain: DomainWord) -> Result<(), NoMemory>
    ensures { OnOk result (out.new.items ≡ out.old.items ++ domain_line domains domain) }
{
    if domains {
        put_text_line(out, "domain", domain_word(domain).as_bytes())
    } else {
        Ok(())
    }
}

// A key with an identifier.
fn put_bridge_id(out: &mut Vec<u8>, id: BridgeId) -> Result<(), NoMemory>
    ensures { OnOk result (out.new.items
        ≡ out.old.items ++ text_line (codes "id") (hex16_text id.0)) }
{
    let alloc = *out.allocator();
    let text = format!(in alloc; "{id}")?;
    put_text_line(out, "id", text.as_bytes())
}

/// The table of a node.
#[tactic(auto, unfolding(crate::specs::Text::node_table))]
pub(crate) fn put_node(out: &mut Vec<u8>, domains: bool, node: &NodeEntry) -> Result<(), NoMemory>
    ensures { OnOk result (out.new.items ≡ out.old.items ++ node_table domains node.now) }
{
    put(out, "\n[[node]]\n")?;
    put_text_line(out, "name", node.name.as_slice())?;
    put_text_line(out, "kind", kind_word(node.kind).as_bytes())?;
    put_bridge_id(out, node.id)?;
    put_domain(out, domains, node.domain)
}

// ---- links

// A rate in Mb/s.
fn mbit_of(rate: Rate) -> u64
    ensures { result ≡ mbit_of_spec rate }
{
    match rate {
        Rate::M100 => 100,
        Rate::G1 => 1_000,
        Rate::G10 => 10_000,
    }
}

// The keys of a link's values.
#[tactic(auto, unfolding(crate::specs::Text::link_values))]
fn put_link_values(out: &mut Vec<u8>, link: &LinkEntry) -> Result<(), NoMemory>
    ensures { OnOk result (out.new.items ≡ out.old.items ++ link_values link.now) }
{
    put_number_line(out, "rate", mbit_of(link.rate))?;
    put_number_line(out, "delta_a", link.delta_a.get())?;
    put_number_line(out, "delta_b", link.delta_b.get())?;
    put_number_line(out, "latency", u64::from(link.latency))
}

/// The table of a link.
#[tactic(auto, unfolding(crate::specs::Text::link_table))]
pub(crate) fn put_link(
    out: &mut Vec<u8>,
    nodes: &[NodeEntry],
    link: &LinkEntry,
) -> Result<(), NoMemory>
    ensures { OnOk result (out.new.items ≡ out.old.items ++ link_table nodes.now link.now) }
{
    put(out, "\n[[link]]\n")?;
    put_text_line(out, "a", node_name(nodes, link.a))?;
    put_text_line(out, "b", node_name(nodes, link.b))?;
    put_link_values(out, link)
}

// ---- streams

// A rank by its number.
fn rank_number(rank: Rank) -> u64
    ensures { result ≡ rank_number_spec rank }
{
    match rank {
        Rank::Emergency => 0,
        Rank::Normal => 1,
    }
}

// The key of a StreamID.
fn put_stream_id(out: &mut Vec<u8>, id: StreamId) -> Result<(), NoMemory>
    ensures { OnOk result (out.new.items
        ≡ out.old.items ++ text_line (codes "id") (hex16_text id.0)) }
{
    let alloc = *out.allocator();
    let text = format!(in alloc; "{id}")?;
    put_text_line(out, "id", text.as_bytes())
}

// The key of a destination address.
fn put_dest(out: &mut Vec<u8>, dest: Mac) -> Result<(), NoMemory>
    ensures { OnOk result (out.new.items
        ≡ out.old.items ++ text_line (codes "dest") (hex12_text dest)) }
{
    let alloc = *out.allocator();
    let text = format!(in alloc; "{dest}")?;
    put_text_line(out, "dest", text.as_bytes())
}

// How the table of a stream begins.
#[tactic(auto, unfolding(crate::specs::Text::stream_head))]
fn put_stream_head(out: &mut Vec<u8>, stream: &StreamEntry) -> Result<(), NoMemory>
    ensures { OnOk result (out.new.items ≡ out.old.items ++ stream_head stream.now) }
{
    put(out, "\n[[stream]]\n")?;
    put_text_line(out, "name", stream.name.as_slice())?;
    put_stream_id(out, stream.id)
}

// The keys of where a stream starts, and where it goes.
#[tactic(auto, unfolding(crate::specs::Text::stream_ends))]
fn put_stream_ends(
    out: &mut Vec<u8>,
    nodes: &[NodeEntry],
    stream: &StreamEntry,
) -> Result<(), NoMemory>
    ensures { OnOk result (out.new.items ≡ out.old.items ++ stream_ends nodes.now stream.now) }
{
    put_text_line(out, "talker", node_name(nodes, stream.talker))?;
    put_dest(out, stream.dest)
}

// The keys of a stream's values.
#[tactic(auto, unfolding(crate::specs::Text::stream_values))]
fn put_stream_values(out: &mut Vec<u8>, stream: &StreamEntry) -> Result<(), NoMemory>
    ensures { OnOk result (out.new.items ≡ out.old.items ++ stream_values stream.now) }
{
    put_number_line(out, "octets", u64::from(stream.octets))?;
    put_number_line(out, "frames", u64::from(stream.frames))?;
    put_number_line(out, "vid", u64::from(stream.vid.get()))?;
    put_number_line(out, "priority", u64::from(stream.priority.get()))?;
    put_number_line(out, "rank", rank_number(stream.rank))
}

/// The table of a stream.
#[tactic(auto, unfolding(crate::specs::Text::stream_table))]
pub(crate) fn put_stream(
    out: &mut Vec<u8>,
    nodes: &[NodeEntry],
    stream: &StreamEntry,
) -> Result<(), NoMemory>
    ensures { OnOk result (out.new.items ≡ out.old.items ++ stream_table nodes.now stream.now) }
{
    put_stream_head(out, stream)?;
    put_stream_ends(out, nodes, stream)?;
    put_stream_values(out, stream)
}

/// The name of a stream, which is empty where the number has no entry.
pub(crate) fn stream_name(streams: &[StreamEntry], number: u16) -> &[u8]
    ensures { result.now ≡ stream_name_spec streams.now number }
{
    if number == 0 {
        return [].as_slice();
    }
    match streams.get(usize::from(number) - 1) {
        Some(stream) => stream.name.as_slice(),
        None => [].as_slice(),
    }
}

// ---- frames

// The keys of where a frame goes.
#[tactic(auto, unfolding(crate::specs::Text::route_lines))]
fn put_route(
    out: &mut Vec<u8>,
    nodes: &[NodeEntry],
    streams: &[StreamEntry],
    route: FrameRoute,
) -> Result<(), NoMemory>
    ensures { OnOk result (out.new.items
        ≡ out.old.items ++ route_lines nodes.now streams.now route) }
{
    match route {
        FrameRoute::OfStream { stream } => {
            put_text_line(out, "stream", stream_name(streams, stream))
        }
        FrameRoute::Between { from, to, vid } => {
            put_text_line(out, "from", node_name(nodes, from))?;
            put_text_line(out, "to", node_name(nodes, to))?;
            put_number_line(out, "vid", u64::from(vid.get()))
        }
    }
}

// The keys of a frame's data and of its copies.
#[tactic(auto, unfolding(crate::specs::Text::frame_values))]
fn put_frame_values(out: &mut Vec<u8>, frame: &FrameEntry) -> Result<(), NoMemory>
    ensures { OnOk result (out.new.items ≡ out.old.items ++ frame_values frame.now) }
{
    put_number_line(out, "octets", u64::from(frame.octets))?;
    put_number_line(out, "at", frame.at)?;
    put_number_line(out, "count", u64::from(frame.count))?;
    put_number_line(out, "every", frame.every)
}

/// The table of a frame.
#[tactic(auto, unfolding(crate::specs::Text::frame_table))]
pub(crate) fn put_frame(
    out: &mut Vec<u8>,
    nodes: &[NodeEntry],
    streams: &[StreamEntry],
    frame: &FrameEntry,
) -> Result<(), NoMemory>
    ensures { OnOk result (out.new.items
        ≡ out.old.items ++ frame_table nodes.now streams.now frame.now) }
{
    put(out, "\n[[frame]]\n")?;
    put_route(out, nodes, streams, frame.route)?;
    put_frame_values(out, frame)
}
