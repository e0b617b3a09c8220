//! Who talks in a stream and who listens, by the names in its entry.

ghost use Rattle.std.specs.Prelude.{◌≡◌, map, [], option_map, IfOk, is_some};
ghost use Rattle.std.specs.List.{list_all};
ghost use Rattle.std.specs.Option.{option_copied};
ghost use Rattle.srp_base.specs.Firsts.{first_where as first_where_spec};
ghost use Rattle.toml.specs.Data.{array};
ghost use Rattle.toml.specs.View.{table_view, items_view, view};
ghost use Rattle.topology_file.specs.Entries.{is_name as is_name_spec, is_name_char as is_name_char_spec};
ghost use Rattle.plan_file.specs.Streams.{all_names, ends_named, ends_of as ends_of_spec, has_twice as has_twice_spec, is_among as is_among_spec, listeners_at, name_of_data, names_of_data, stations_named as stations_named_spec};

use crate::entries::Ends;
use srp_base::{NoMemory, NodeNo, Seq};
use std::alloc::Global;
use toml::{Table, Value};
use toml_rules::{first_where, value_at};
use topology_file::{Names, station_named};

/// a to z, 0 to 9, `-` and `_`.
fn is_name_char(c: u8) -> bool
    ensures { result ≡ is_name_char_spec c }
{
    b'a' <= c && c <= b'z' || b'0' <= c && c <= b'9' || c == b'-' || c == b'_'
}

fn has_name_chars(word: &[u8]) -> bool
    ensures { result ≡ list_all is_name_char_spec word.now }
{
    word.iter().all(|c| is_name_char(*c))
}

/// 1 to 32 such characters.
fn is_name(word: &[u8]) -> bool
    ensures { result ≡ is_name_spec word.now }
{
    1 <= word.len() && word.len() <= 32 && has_name_chars(word)
}

/// The name that a value gives.
fn name_of(value: &Value) -> Option<&str>
    ensures { option_copied result ≡ name_of_data (view value.now) }
{
    let word = value.as_str()?;
    if is_name(word.as_bytes()) {
        Some(word)
    } else {
        None
    }
}

/// The values as names, where each of them is one.
fn names_of(alloc: Global, values: &[Value]) -> Result<Option<Vec<&str>>, NoMemory>
    ensures { IfOk result (λ found. option_map (λ v. map (λ t. t.now) v.items) found
        ≡ all_names (items_view values.now)) }
{
    let mut found = Vec::with_capacity(alloc, values.len())?;
    for value in values {
        match name_of(value) {
            Some(name) => found.push(name)?,
            None => return Ok(None),
        }
    }
    Ok(Some(found))
}

/// The names of an array that isn't empty.
fn some_names(alloc: Global, value: &Value) -> Result<Option<Vec<&str>>, NoMemory>
    ensures { IfOk result (λ found. option_map (λ v. map (λ t. t.now) v.items) found
        ≡ names_of_data (view value.now)) }
{
    let Value::Array(values) = value else {
        return Ok(None);
    };
    names_of_some(alloc, values.as_slice())
}

/// The values as names, where there are some and each of them is one.
fn names_of_some(alloc: Global, values: &[Value]) -> Result<Option<Vec<&str>>, NoMemory>
    ensures { IfOk result (λ found. option_map (λ v. map (λ t. t.now) v.items) found
        ≡ names_of_data (array (items_view values.now))) }
{
    if values.is_empty() {
        return Ok(None);
    }
    names_of(alloc, values)
}

/// The names of those who listen; None where the entry has no array of names, or an empty one.
pub(crate) fn read_listeners<'a>(
    alloc: Global,
    table: &'a Table,
) -> Result<Option<Vec<&'a str>>, NoMemory>
    ensures { IfOk result (λ found. option_map (λ v. map (λ t. t.now) v.items) found
        ≡ listeners_at (table_view table.now)) }
{
    match value_at(table, "listeners") {
        Some(value) => some_names(alloc, value),
        None => Ok(None),
    }
}

/// The stations of these names.
fn stations_named(
    alloc: Global,
    names: &Names,
    words: &[&str],
) -> Result<Option<Vec<NodeNo>>, NoMemory>
    ensures { IfOk result (λ found. option_map (λ v. v.items) found
        ≡ stations_named_spec names.now.nodes (map (λ t. t.now) words.now)) }
{
    let mut found = Vec::with_capacity(alloc, words.len())?;
    for word in words {
        match station_named(names, word) {
            Some(x) => found.push(x)?,
            None => return Ok(None),
        }
    }
    Ok(Some(found))
}

fn is_among(stations: &[NodeNo], x: NodeNo) -> bool
    ensures { result ≡ is_among_spec stations.now x }
{
    stations.iter().any(|y| y.0 == x.0)
}

fn has_twice(stations: &[NodeNo]) -> bool
    ensures { result ≡ has_twice_spec stations.now }
{
    first_where(stations, |earlier, x| is_among(earlier, *x)).is_some()
}

/// A Talker and its Listeners, where they are other stations, each once.
fn ends_of(talker: NodeNo, listeners: Vec<NodeNo>) -> Option<Ends>
    ensures { result ≡ ends_of_spec talker listeners.items }
{
    if is_among(&listeners, talker) || has_twice(&listeners) {
        return None;
    }
    Some(Ends {
        talker,
        listeners: Seq::from_vec(listeners),
    })
}

/// The Talker and the Listeners of these names, where they are stations, each once.
pub(crate) fn find_ends(
    alloc: Global,
    names: &Names,
    talker: &str,
    listeners: &[&str],
) -> Result<Option<Ends>, NoMemory>
    ensures { IfOk result (λ ends. ends
        ≡ ends_named names.now.nodes talker.now (map (λ t. t.now) listeners.now)) }
{
    let Some(talker) = station_named(names, talker) else {
        return Ok(None);
    };
    let Some(listeners) = stations_named(alloc, names, listeners)? else {
        return Ok(None);
    };
    Ok(ends_of(talker, listeners))
}
