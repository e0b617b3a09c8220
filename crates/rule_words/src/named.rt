//! What an entry names and isn't there, or is there and isn't a station.

ghost use Rattle.std.specs.Prelude.{◌≡◌, ◌≤◌, ◌++◌, map, length, option_map, flat_map, is_some, Some, IfSome, OnOk};
ghost use Rattle.std.specs.Option.{option_copied};
ghost use Rattle.toml.specs.View.{table_view};
ghost use Rattle.rule_words.specs.Named.{end_line, first_called as first_called_spec, has_station as has_station_spec, is_called as is_called_spec, is_of_kind as is_of_kind_spec, is_station_called as is_station_called_spec, line_of_name, missing_line, name_line, name_lines, no_station_line, no_such_line, no_such_words, node_words, quoted_end, station_line, strange_line};

use crate::alike::is_same_text;
use crate::keys::{Key, word_of};
use crate::pieces::{put, put_number};
use crate::search::first_entry;
use crate::values::put_quoted;
use srp_base::NoMemory;
use std::alloc::AllocError;
use toml::Table;
use toml_rules::text;

// ---- who is there

/// Whether an entry has this name.
pub(crate) fn is_called(name: &str, entry: &Table) -> bool
    ensures { result ≡ is_called_spec name.now (table_view entry.now) }
{
    is_same_text(text(entry, "name"), Some(name))
}

fn is_of_kind(kind: &str, entry: &Table) -> bool
    ensures { result ≡ is_of_kind_spec kind.now (table_view entry.now) }
{
    is_same_text(text(entry, "kind"), Some(kind))
}

fn is_station_called(name: &str, node: &Table) -> bool
    ensures { result ≡ is_station_called_spec name.now (table_view node.now) }
{
    is_called(name, node) && is_of_kind("station", node)
}

/// The first entry of this name.
pub(crate) fn first_called(name: &str, entries: &[&Table]) -> Option<usize>
    ensures first { result
        ≡ first_called_spec name.now (map (λ t. table_view t.now) entries.now) }
    ensures within { IfSome result (λ n. (1 ≤ n) × (n ≤ length entries.now)) }
{
    first_entry(entries, |_, entry| is_called(name, entry))
}

// The first node that is the station of this name.
fn first_station(name: &str, nodes: &[&Table]) -> Option<usize>
    ensures { is_some result ≡ has_station_spec name.now (map (λ t. table_view t.now) nodes.now) }
{
    first_entry(nodes, |_, node| is_station_called(name, node))
}

// ---- lines

/// A text between quotes, and what follows it.
pub(crate) fn put_quoted_end(out: &mut Vec<u8>, name: &str, words: &str) -> Result<(), NoMemory>
    ensures { OnOk result (out.new.items ≡ out.old.items ++ quoted_end name.now words.now) }
{
    put_quoted(out, name.as_bytes())?;
    Ok(put(out, words)?)
}

// An entry of a name that there isn't.
fn put_no_such_words(out: &mut Vec<u8>, array: Key) -> Result<(), AllocError>
    ensures { OnOk result (out.new.items ≡ out.old.items ++ no_such_words array) }
{
    let alloc = *out.allocator();
    let word = word_of(array);
    let words = format!(in alloc; "other: no [[{word}]] is named ")?;
    put(out, &words)
}

fn put_no_such(out: &mut Vec<u8>, array: Key, name: &str) -> Result<(), NoMemory>
    ensures { OnOk result (out.new.items ≡ out.old.items ++ no_such_line array name.now) }
{
    put_no_such_words(out, array)?;
    put_quoted_end(out, name, "\n")
}

// A node by its number.
fn put_node_words(out: &mut Vec<u8>, number: usize) -> Result<(), AllocError>
    ensures { OnOk result (out.new.items ≡ out.old.items ++ node_words number) }
{
    put(out, "other: [[node]] ")?;
    put_number(out, number as u64)?;
    put(out, " ")
}

// A node that isn't a station.
fn put_no_station(out: &mut Vec<u8>, number: usize, name: &str) -> Result<(), NoMemory>
    ensures { OnOk result (out.new.items ≡ out.old.items ++ no_station_line number name.now) }
{
    put_node_words(out, number)?;
    put_quoted_end(out, name, " is no station\n")
}

// The entry of a name, where there is none.
fn put_missing(
    out: &mut Vec<u8>,
    array: Key,
    name: &str,
    entries: &[&Table],
) -> Result<(), NoMemory>
    ensures { OnOk result (out.new.items ≡ out.old.items
        ++ missing_line array name.now
        (first_called_spec name.now (map (λ t. table_view t.now) entries.now))) }
{
    match first_called(name, entries) {
        Some(_) => Ok(()),
        None => put_no_such(out, array, name),
    }
}

// The node of a name that isn't a station's.
fn put_strange(out: &mut Vec<u8>, name: &str, nodes: &[&Table]) -> Result<(), NoMemory>
    ensures { OnOk result (out.new.items ≡ out.old.items
        ++ strange_line name.now
        (first_called_spec name.now (map (λ t. table_view t.now) nodes.now))) }
{
    match first_called(name, nodes) {
        Some(number) => put_no_station(out, number, name),
        None => put_no_such(out, Key::Nodes, name),
    }
}

/// A name that has to be a station's.
pub(crate) fn put_station(out: &mut Vec<u8>, name: &str, nodes: &[&Table]) -> Result<(), NoMemory>
    ensures { OnOk result (out.new.items ≡ out.old.items
        ++ station_line (map (λ t. table_view t.now) nodes.now) name.now) }
{
    match first_station(name, nodes) {
        Some(_) => Ok(()),
        None => put_strange(out, name, nodes),
    }
}

// A name that has to be a node's, and in a frame a station's.
fn put_end(out: &mut Vec<u8>, rule: u8, name: &str, nodes: &[&Table]) -> Result<(), NoMemory>
    ensures { OnOk result (out.new.items ≡ out.old.items
        ++ end_line rule (map (λ t. table_view t.now) nodes.now) name.now) }
{
    if rule == 24 {
        put_station(out, name, nodes)
    } else {
        put_missing(out, Key::Nodes, name, nodes)
    }
}

// The name at a key.
fn put_name_at(
    out: &mut Vec<u8>,
    rule: u8,
    nodes: &[&Table],
    streams: &[&Table],
    key: Key,
    name: &str,
) -> Result<(), NoMemory>
    ensures { OnOk result (out.new.items ≡ out.old.items
        ++ line_of_name rule (map (λ t. table_view t.now) nodes.now)
        (map (λ t. table_view t.now) streams.now) key name.now) }
{
    match key {
        Key::StreamName => put_missing(out, Key::Streams, name, streams),
        Key::Station | Key::Talker => put_station(out, name, nodes),
        _ => put_end(out, rule, name, nodes),
    }
}

// What an entry names at a key.
fn put_named(
    out: &mut Vec<u8>,
    rule: u8,
    nodes: &[&Table],
    streams: &[&Table],
    entry: &Table,
    key: Key,
) -> Result<(), NoMemory>
    ensures { OnOk result (out.new.items ≡ out.old.items
        ++ name_line rule (map (λ t. table_view t.now) nodes.now)
        (map (λ t. table_view t.now) streams.now) (table_view entry.now) key) }
{
    match text(entry, word_of(key)) {
        Some(name) => put_name_at(out, rule, nodes, streams, key, name),
        None => Ok(()),
    }
}

/// What an entry names at each of these keys and isn't there, or isn't a station, of a file of
/// these nodes and streams.
pub(crate) fn put_all_named(
    out: &mut Vec<u8>,
    rule: u8,
    nodes: &[&Table],
    streams: &[&Table],
    entry: &Table,
    keys: &[Key],
) -> Result<(), NoMemory>
    ensures { OnOk result (out.new.items ≡ out.old.items
        ++ name_lines rule (map (λ t. table_view t.now) nodes.now)
        (map (λ t. table_view t.now) streams.now) (table_view entry.now) keys.now) }
{
    for key in keys {
        put_named(out, rule, nodes, streams, entry, *key)?;
    }
    Ok(())
}
