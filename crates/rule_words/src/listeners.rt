//! The listeners of a plan's stream that aren't names, aren't stations, are its talker, or stand
//! twice.

ghost use Rattle.std.specs.Prelude.{◌≡◌, ◌++◌, map, [], codes, count_by, Some, OnOk};
ghost use Rattle.std.specs.Option.{option_copied};
ghost use Rattle.toml.specs.Data.{as_str, get_member};
ghost use Rattle.toml.specs.View.{items_view, table_view, view};
ghost use Rattle.rule_words.specs.Listeners.{is_second_line, is_talker_line, is_text as is_text_spec, line_of_listener, lines_of_data, lines_of_items, listener_line, listener_words, listeners_of, nameless_line, nameless_lines, nameless_of_data, nameless_of_items, talks_line, twice_line};
ghost use Rattle.rule_words.specs.Others.{listeners_lines, plan_stream_lines};

use crate::alike::is_same_text;
use crate::events::put_unknown;
use crate::keys::Key;
use crate::lines::Broken;
use crate::named::{put_quoted_end, put_station};
use crate::names::gives_name;
use crate::pieces::put;
use crate::search::entries_of;
use crate::values::put_value;
use srp_base::NoMemory;
use std::alloc::AllocError;
use toml::{Table, Value};
use toml_rules::{text, value_at};

// A listener by its number.
fn put_listener_number(out: &mut Vec<u8>, number: u64) -> Result<(), AllocError>
    ensures { OnOk result (out.new.items ≡ out.old.items ++ listener_words number) }
{
    let alloc = *out.allocator();
    let words = format!(in alloc; "other: value {number} of its listeners is ")?;
    put(out, &words)
}

// A value of a number that isn't a name.
fn put_nameless_value(out: &mut Vec<u8>, number: u64, value: &Value) -> Result<(), NoMemory>
    ensures { OnOk result (out.new.items
        ≡ out.old.items ++ nameless_line number (view value.now)) }
{
    put_listener_number(out, number)?;
    put_value(out, value)?;
    Ok(put(out, "\n")?)
}

// The first of these values that isn't one.
fn put_first_nameless(out: &mut Vec<u8>, values: &[Value]) -> Result<(), NoMemory>
    ensures { OnOk result (out.new.items
        ≡ out.old.items ++ nameless_of_items 1 (items_view values.now)) }
{
    for i in 0..values.len() {
        if !gives_name(&values[i]) {
            return put_nameless_value(out, i as u64 + 1, &values[i]);
        }
    }
    Ok(())
}

// That of an array.
fn put_nameless_in(out: &mut Vec<u8>, value: &Value) -> Result<(), NoMemory>
    ensures { OnOk result (out.new.items
        ≡ out.old.items ++ nameless_of_data (Some (view value.now))) }
{
    match value {
        Value::Array(values) => put_first_nameless(out, values.as_slice()),
        _ => Ok(()),
    }
}

/// The first of the listeners of a plan's stream that isn't a name.
pub(crate) fn put_nameless(out: &mut Vec<u8>, stream: &Table) -> Result<(), NoMemory>
    ensures { OnOk result (out.new.items
        ≡ out.old.items ++ nameless_lines (table_view stream.now)) }
{
    match value_at(stream, "listeners") {
        Some(value) => put_nameless_in(out, value),
        None => Ok(()),
    }
}

// A listener that is the talker.
fn put_talks(out: &mut Vec<u8>, name: &str) -> Result<(), NoMemory>
    ensures { OnOk result (out.new.items ≡ out.old.items ++ talks_line name.now) }
{
    put(out, "other: ")?;
    put_quoted_end(out, name, " is its talker\n")
}

// The name of a listener, where it is the talker's.
fn put_if_talker(out: &mut Vec<u8>, talker: Option<&str>, name: &str) -> Result<(), NoMemory>
    ensures { OnOk result (out.new.items
        ≡ out.old.items ++ is_talker_line (option_copied talker.entry) name.now) }
{
    if is_same_text(talker, Some(name)) {
        put_talks(out, name)
    } else {
        Ok(())
    }
}

// A listener that stands twice.
fn put_twice(out: &mut Vec<u8>, name: &str) -> Result<(), NoMemory>
    ensures { OnOk result (out.new.items ≡ out.old.items ++ twice_line name.now) }
{
    put(out, "other: ")?;
    put_quoted_end(out, name, " stands twice among its listeners\n")
}

// Whether a value is this text.
fn is_text(name: &str, value: &Value) -> bool
    ensures { result ≡ is_text_spec name.now (view value.now) }
{
    is_same_text(value.as_str(), Some(name))
}

// How many of these values are.
fn count_of(name: &str, values: &[Value]) -> usize
    ensures { result ≡ count_by (λ v. is_text_spec name.now (view v)) values.now }
{
    values.iter().filter(|value| is_text(name, value)).count()
}

// The name of a listener, where it stands once among the values before it.
fn put_if_second(out: &mut Vec<u8>, earlier: &[Value], name: &str) -> Result<(), NoMemory>
    ensures { OnOk result (out.new.items
        ≡ out.old.items ++ is_second_line (map view earlier.now) name.now) }
{
    if count_of(name, earlier) == 1 {
        put_twice(out, name)
    } else {
        Ok(())
    }
}

// The name of a listener, which has to be another station's, behind these values.
fn put_listener(
    out: &mut Vec<u8>,
    nodes: &[&Table],
    talker: Option<&str>,
    earlier: &[Value],
    name: &str,
) -> Result<(), NoMemory>
    ensures { OnOk result (out.new.items ≡ out.old.items
        ++ listener_line (map (λ t. table_view t.now) nodes.now) (option_copied talker.entry)
        (map view earlier.now) name.now) }
{
    put_station(out, name, nodes)?;
    put_if_talker(out, talker, name)?;
    put_if_second(out, earlier, name)
}

// That of a value.
fn put_listener_of(
    out: &mut Vec<u8>,
    nodes: &[&Table],
    talker: Option<&str>,
    earlier: &[Value],
    value: &Value,
) -> Result<(), NoMemory>
    ensures { OnOk result (out.new.items ≡ out.old.items
        ++ line_of_listener (map (λ t. table_view t.now) nodes.now)
        (option_copied talker.entry) (map view earlier.now) (as_str (view value.now))) }
{
    match value.as_str() {
        Some(name) => put_listener(out, nodes, talker, earlier, name),
        None => Ok(()),
    }
}

// Those of these values.
fn put_listeners_of(
    out: &mut Vec<u8>,
    nodes: &[&Table],
    talker: Option<&str>,
    values: &[Value],
) -> Result<(), NoMemory>
    ensures { OnOk result (out.new.items ≡ out.old.items
        ++ lines_of_items (map (λ t. table_view t.now) nodes.now)
        (option_copied talker.entry) [] (items_view values.now)) }
{
    for i in 0..values.len() {
        put_listener_of(out, nodes, talker, &values[..i], &values[i])?;
    }
    Ok(())
}

// Those of an array.
fn put_array(
    out: &mut Vec<u8>,
    nodes: &[&Table],
    talker: Option<&str>,
    value: &Value,
) -> Result<(), NoMemory>
    ensures { OnOk result (out.new.items ≡ out.old.items
        ++ lines_of_data (map (λ t. table_view t.now) nodes.now)
        (option_copied talker.entry) (Some (view value.now))) }
{
    match value {
        Value::Array(values) => put_listeners_of(out, nodes, talker, values.as_slice()),
        _ => Ok(()),
    }
}

// Those of a stream.
fn put_stream_listeners(out: &mut Vec<u8>, nodes: &[&Table], stream: &Table) -> Result<(), NoMemory>
    ensures { OnOk result (out.new.items ≡ out.old.items
        ++ listeners_of (map (λ t. table_view t.now) nodes.now) (table_view stream.now)) }
{
    match value_at(stream, "listeners") {
        Some(value) => put_array(out, nodes, text(stream, "talker"), value),
        None => Ok(()),
    }
}

// Those of a stream of a plan.
fn put_listeners(out: &mut Vec<u8>, table: &Table, stream: &Table) -> Result<(), NoMemory>
    ensures { OnOk result (out.new.items
        ≡ out.old.items ++ listeners_lines (table_view table.now) (table_view stream.now)) }
{
    let alloc = *out.allocator();
    let nodes = entries_of(alloc, Key::Nodes, table)?;
    put_stream_listeners(out, &nodes, stream)
}

/// Who talks in a stream of a plan and who listens, and isn't a station, is both, or stands twice.
pub(crate) fn put_plan_stream(
    out: &mut Vec<u8>,
    broken: Broken,
    table: &Table,
    stream: &Table,
) -> Result<(), NoMemory>
    ensures { OnOk result (out.new.items ≡ out.old.items
        ++ plan_stream_lines broken (table_view table.now) (table_view stream.now)) }
{
    put_unknown(out, broken, table, stream)?;
    put_listeners(out, table, stream)
}
