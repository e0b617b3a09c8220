//! The tables of events.

ghost use Rattle.std.specs.Prelude.{◌≡◌, ◌<◌, ◌++◌, flat_map, codes, OnOk};
ghost use Rattle.plan_text.specs.Text.{app_word as app_word_spec, hex_digit as hex_digit_spec, hex_pair, octets_line, at_station, of_stream, of_both, between, forged_lines, happening, event_table};

use crate::entries::stream_name;
use crate::lines::{put_number_line, put_text_line};
use report_words::{node_name, put};
use srp_base::{App, NoMemory, NodeNo, Vid};
use topology_file::{EventEntry, EventKind, NodeEntry, StreamEntry};

// An application of MRP by its word.
fn app_word(app: App) -> &'static str
    ensures { result.now ≡ app_word_spec app }
{
    match app {
        App::Mvrp => "mvrp",
        App::Msrp => "msrp",
    }
}

// A hexadecimal digit.
fn hex_digit(n: u8) -> u8
    requires { n < 16 }
    ensures { result ≡ hex_digit_spec n }
{
    if n < 10 { 48 + n } else { 87 + n }
}

// An octet as two hexadecimal digits.
fn put_octet(out: &mut Vec<u8>, octet: u8) -> Result<(), NoMemory>
    ensures { OnOk result (out.new.items ≡ out.old.items ++ hex_pair octet) }
{
    let high = hex_digit(octet / 16);
    let low = hex_digit(octet % 16);
    out.extend_from_slice([high, low].as_slice())?;
    Ok(())
}

// Octets, each as two digits.
fn put_hex(out: &mut Vec<u8>, octets: &[u8]) -> Result<(), NoMemory>
    ensures { OnOk result (out.new.items ≡ out.old.items ++ flat_map hex_pair octets.now) }
{
    for octet in octets {
        put_octet(out, *octet)?;
    }
    Ok(())
}

// The key of a PDU's octets.
#[tactic(auto, unfolding(crate::specs::Text::octets_line))]
fn put_octets_line(out: &mut Vec<u8>, octets: &[u8]) -> Result<(), NoMemory>
    ensures { OnOk result (out.new.items ≡ out.old.items ++ octets_line octets.now) }
{
    put(out, "octets = \"")?;
    put_hex(out, octets)?;
    put(out, "\"\n")
}

// What a station's application does about a VID.
#[tactic(auto, unfolding(crate::specs::Text::at_station))]
fn put_at_station(
    out: &mut Vec<u8>,
    nodes: &[NodeEntry],
    kind: &str,
    station: NodeNo,
    vid: Vid,
) -> Result<(), NoMemory>
    ensures { OnOk result (out.new.items
        ≡ out.old.items ++ at_station nodes.now kind.now station vid) }
{
    put_text_line(out, "kind", kind.as_bytes())?;
    put_text_line(out, "station", node_name(nodes, station))?;
    put_number_line(out, "vid", u64::from(vid.get()))
}

// What a talker does.
#[tactic(auto, unfolding(crate::specs::Text::of_stream))]
fn put_of_stream(
    out: &mut Vec<u8>,
    streams: &[StreamEntry],
    kind: &str,
    stream: u16,
) -> Result<(), NoMemory>
    ensures { OnOk result (out.new.items
        ≡ out.old.items ++ of_stream streams.now kind.now stream) }
{
    put_text_line(out, "kind", kind.as_bytes())?;
    put_text_line(out, "stream", stream_name(streams, stream))
}

// What a listener does.
#[tactic(auto, unfolding(crate::specs::Text::of_both))]
fn put_of_both(
    out: &mut Vec<u8>,
    nodes: &[NodeEntry],
    streams: &[StreamEntry],
    kind: &str,
    station: NodeNo,
    stream: u16,
) -> Result<(), NoMemory>
    ensures { OnOk result (out.new.items
        ≡ out.old.items ++ of_both nodes.now streams.now kind.now station stream) }
{
    put_text_line(out, "kind", kind.as_bytes())?;
    put_text_line(out, "station", node_name(nodes, station))?;
    put_text_line(out, "stream", stream_name(streams, stream))
}

// What becomes of a PDU between two nodes.
#[tactic(auto, unfolding(crate::specs::Text::between))]
fn put_between(
    out: &mut Vec<u8>,
    nodes: &[NodeEntry],
    kind: &str,
    from: NodeNo,
    to: NodeNo,
    index: u32,
) -> Result<(), NoMemory>
    ensures { OnOk result (out.new.items
        ≡ out.old.items ++ between nodes.now kind.now from to index) }
{
    put_text_line(out, "kind", kind.as_bytes())?;
    put_text_line(out, "from", node_name(nodes, from))?;
    put_text_line(out, "to", node_name(nodes, to))?;
    put_number_line(out, "index", u64::from(index))
}

// The further keys of a PDU that nobody sent.
#[tactic(auto, unfolding(crate::specs::Text::forged_lines))]
fn put_forged(out: &mut Vec<u8>, app: App, octets: &[u8]) -> Result<(), NoMemory>
    ensures { OnOk result (out.new.items ≡ out.old.items ++ forged_lines app octets.now) }
{
    put_text_line(out, "app", app_word(app).as_bytes())?;
    put_octets_line(out, octets)
}

// What happens.
#[tactic(auto, unfolding(crate::specs::Text::happening))]
fn put_happening(
    out: &mut Vec<u8>,
    nodes: &[NodeEntry],
    streams: &[StreamEntry],
    kind: &EventKind,
) -> Result<(), NoMemory>
    ensures { OnOk result (out.new.items
        ≡ out.old.items ++ happening nodes.now streams.now kind.now) }
{
    match kind {
        EventKind::Declare { station, vid } => {
            put_at_station(out, nodes, "declare", *station, *vid)
        }
        EventKind::Withdraw { station, vid } => {
            put_at_station(out, nodes, "withdraw", *station, *vid)
        }
        EventKind::Talk { stream } => put_of_stream(out, streams, "talk", *stream),
        EventKind::Hush { stream } => put_of_stream(out, streams, "hush", *stream),
        EventKind::Listen { station, stream } => {
            put_of_both(out, nodes, streams, "listen", *station, *stream)
        }
        EventKind::Unlisten { station, stream } => {
            put_of_both(out, nodes, streams, "unlisten", *station, *stream)
        }
        EventKind::Lose { from, to, index } => put_between(out, nodes, "lose", *from, *to, *index),
        EventKind::Repeat { from, to, index } => {
            put_between(out, nodes, "repeat", *from, *to, *index)
        }
        EventKind::Forge {
            from,
            to,
            index,
            app,
            octets,
        } => {
            put_between(out, nodes, "forge", *from, *to, *index)?;
            put_forged(out, *app, octets.as_slice())
        }
    }
}

/// The table of an event.
#[tactic(auto, unfolding(crate::specs::Text::event_table))]
pub(crate) fn put_event(
    out: &mut Vec<u8>,
    nodes: &[NodeEntry],
    streams: &[StreamEntry],
    event: &EventEntry,
) -> Result<(), NoMemory>
    ensures { OnOk result (out.new.items
        ≡ out.old.items ++ event_table nodes.now streams.now event.now) }
{
    put(out, "\n[[event]]\n")?;
    put_number_line(out, "tick", event.tick)?;
    put_happening(out, nodes, streams, &event.kind)
}
