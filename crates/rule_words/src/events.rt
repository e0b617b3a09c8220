//! What an event names and doesn't go with it.

ghost use Rattle.std.specs.Prelude.{◌≡◌, ◌≤◌, ◌++◌, map, is_some, IfSome, OnOk};
ghost use Rattle.std.specs.Option.{is_none};
ghost use Rattle.toml.specs.View.{table_view};
ghost use Rattle.rule_words.specs.Named.{first_called as first_called_spec};
ghost use Rattle.rule_words.specs.Others.{are_strangers as are_strangers_spec, event_lines, is_talked as is_talked_spec, joins_named as joins_named_spec, pdu_line, strangers_line, talked_by, talked_line, talked_words, unknown_lines, unknown_of};
ghost use Rattle.rule_words.specs.Search.{entries_of as entries_of_spec, first_entry as first_entry_spec};

use crate::alike::is_same_text;
use crate::keys::Key;
use crate::lines::Broken;
use crate::matters::keys_asked;
use crate::named::{first_called, is_called, put_all_named};
use crate::numbered::put_numbered_line;
use crate::pieces::put;
use crate::search::{entries_of, first_entry};
use srp_base::NoMemory;
use toml::Table;
use toml_rules::text;

// Whether a link joins nodes of these names.
fn joins_named(x: &str, y: &str, link: &Table) -> bool
    ensures { result ≡ joins_named_spec x.now y.now (table_view link.now) }
{
    is_same_text(text(link, "a"), Some(x)) && is_same_text(text(link, "b"), Some(y))
        || is_same_text(text(link, "a"), Some(y)) && is_same_text(text(link, "b"), Some(x))
}

// The first link that does.
fn first_joining(x: &str, y: &str, links: &[&Table]) -> Option<usize>
    ensures { result ≡ first_entry_spec (λ n l. joins_named_spec x.now y.now l)
        (map (λ t. table_view t.now) links.now) }
{
    first_entry(links, |_, link| joins_named(x, y, link))
}

// Whether nodes of these names are there, and no link joins them.
fn are_strangers(nodes: &[&Table], links: &[&Table], x: &str, y: &str) -> bool
    ensures { result ≡ are_strangers_spec (map (λ t. table_view t.now) nodes.now)
        (map (λ t. table_view t.now) links.now) x.now y.now }
{
    first_called(x, nodes).is_some()
        && first_called(y, nodes).is_some()
        && first_joining(x, y, links).is_none()
}

fn put_strangers(
    out: &mut Vec<u8>,
    nodes: &[&Table],
    links: &[&Table],
    x: &str,
    y: &str,
) -> Result<(), NoMemory>
    ensures { OnOk result (out.new.items ≡ out.old.items
        ++ strangers_line (map (λ t. table_view t.now) nodes.now)
        (map (λ t. table_view t.now) links.now) x.now y.now) }
{
    if are_strangers(nodes, links, x, y) {
        Ok(put(out, "other: no [[link]] joins them\n")?)
    } else {
        Ok(())
    }
}

// The nodes of these names, where no link joins them.
fn put_ends(out: &mut Vec<u8>, table: &Table, x: &str, y: &str) -> Result<(), NoMemory>
    ensures { OnOk result (out.new.items ≡ out.old.items
        ++ strangers_line (entries_of_spec Key.Nodes (table_view table.now))
        (entries_of_spec Key.Links (table_view table.now)) x.now y.now) }
{
    let alloc = *out.allocator();
    let nodes = entries_of(alloc, Key::Nodes, table)?;
    let links = entries_of(alloc, Key::Links, table)?;
    put_strangers(out, &nodes, &links, x, y)
}

// An event at a PDU.
fn put_pdu(out: &mut Vec<u8>, table: &Table, event: &Table) -> Result<(), NoMemory>
    ensures { OnOk result (out.new.items
        ≡ out.old.items ++ pdu_line (table_view table.now) (table_view event.now)) }
{
    match (text(event, "from"), text(event, "to")) {
        (Some(from), Some(to)) => put_ends(out, table, from, to),
        _ => Ok(()),
    }
}

// Whether a stream is of this name, and talked by this station.
fn is_talked(name: &str, station: &str, stream: &Table) -> bool
    ensures { result ≡ is_talked_spec name.now station.now (table_view stream.now) }
{
    is_called(name, stream) && is_same_text(text(stream, "talker"), Some(station))
}

// The first that is.
fn first_talked(name: &str, station: &str, streams: &[&Table]) -> Option<usize>
    ensures first { result ≡ first_entry_spec (λ n s. is_talked_spec name.now station.now s)
        (map (λ t. table_view t.now) streams.now) }
    ensures within { IfSome result (λ n. 1 ≤ n) }
{
    first_entry(streams, |_, stream| is_talked(name, station, stream))
}

// A stream and a station that talks in it.
fn put_talked_by(
    out: &mut Vec<u8>,
    table: &Table,
    name: &str,
    station: &str,
) -> Result<(), NoMemory>
    ensures { OnOk result (out.new.items
        ≡ out.old.items ++ talked_by (table_view table.now) name.now station.now) }
{
    let alloc = *out.allocator();
    let streams = entries_of(alloc, Key::Streams, table)?;
    match first_talked(name, station, &streams) {
        Some(number) => put_numbered_line(
            out,
            Key::Streams,
            number,
            table,
            " is talked by this station",
        ),
        None => Ok(()),
    }
}

// An event of a stream at a station.
fn put_talked(out: &mut Vec<u8>, table: &Table, event: &Table) -> Result<(), NoMemory>
    ensures { OnOk result (out.new.items
        ≡ out.old.items ++ talked_line (table_view table.now) (table_view event.now)) }
{
    match (text(event, "stream"), text(event, "station")) {
        (Some(name), Some(station)) => put_talked_by(out, table, name, station),
        _ => Ok(()),
    }
}

// What an entry names, of these nodes and streams.
fn put_unknown_of(
    out: &mut Vec<u8>,
    broken: Broken,
    nodes: &[&Table],
    streams: &[&Table],
    entry: &Table,
) -> Result<(), NoMemory>
    ensures { OnOk result (out.new.items ≡ out.old.items
        ++ unknown_of broken (map (λ t. table_view t.now) nodes.now)
        (map (λ t. table_view t.now) streams.now) (table_view entry.now)) }
{
    let keys = keys_asked(broken.kind, broken.rule, entry);
    put_all_named(out, broken.rule, nodes, streams, entry, keys)
}

/// What an entry names and isn't there, or isn't a station.
pub(crate) fn put_unknown(
    out: &mut Vec<u8>,
    broken: Broken,
    table: &Table,
    entry: &Table,
) -> Result<(), NoMemory>
    ensures { OnOk result (out.new.items
        ≡ out.old.items ++ unknown_lines broken (table_view table.now) (table_view entry.now)) }
{
    let alloc = *out.allocator();
    let nodes = entries_of(alloc, Key::Nodes, table)?;
    let streams = entries_of(alloc, Key::Streams, table)?;
    put_unknown_of(out, broken, &nodes, &streams, entry)
}

/// What an event names and doesn't go with it.
pub(crate) fn put_event(
    out: &mut Vec<u8>,
    broken: Broken,
    table: &Table,
    event: &Table,
) -> Result<(), NoMemory>
    ensures { OnOk result (out.new.items
        ≡ out.old.items ++ event_lines broken (table_view table.now) (table_view event.now)) }
{
    put_unknown(out, broken, table, event)?;
    put_pdu(out, table, event)?;
    put_talked(out, table, event)
}
