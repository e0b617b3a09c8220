//! What a TOML table has at a key.

ghost use Rattle.std.specs.Prelude.{◌≡◌, map, option_map, string_bytes, IfOk};
ghost use Rattle.std.specs.{Option.option_copied, List.list_all, BTreeMap.keys};
ghost use Rattle.toml.specs.Data.{get_member};
ghost use Rattle.toml.specs.View.{view, table_view, items_view};
ghost use Rattle.toml_rules.specs.Fields.{number as number_spec, number_of, number_or as number_or_spec, truth_or as truth_or_spec, within as within_spec, text as text_spec, tables as tables_spec, tables_of as tables_of_spec, all_tables as all_tables_spec, has_only as has_only_spec, is_known as is_known_spec};

use srp_base::NoMemory;
use std::alloc::Global;
use toml::{Table, Value};

/// The value at a key.
pub fn value_at<'a>(table: &'a Table, key: &str) -> Option<&'a Value>
    ensures { option_map (λ v. view v.now) result ≡ get_member key.now (table_view table.now) }
{
    table.get(key)
}

/// A value that is a TOML integer and not negative, as a number.
fn as_number(value: &Value) -> Option<u64>
    ensures { result ≡ number_of (view value.now) }
{
    match value {
        Value::Integer(n) => u64::try_from(*n).ok(),
        _ => None,
    }
}

/// The number at a key, a TOML integer that isn't negative; None where the key is missing or has
/// another value.
pub fn number(table: &Table, key: &str) -> Option<u64>
    ensures { result ≡ number_spec key.now (table_view table.now) }
{
    match value_at(table, key) {
        Some(value) => as_number(value),
        None => None,
    }
}

/// The number at a key, or the default where the key is missing; None where the key has another
/// value.
pub fn number_or(table: &Table, key: &str, default: u64) -> Option<u64>
    ensures { result ≡ number_or_spec key.now default (table_view table.now) }
{
    match value_at(table, key) {
        Some(value) => as_number(value),
        None => Some(default),
    }
}

/// The truth value at a key, or the default where the key is missing; None where the key has
/// another value.
pub fn truth_or(table: &Table, key: &str, default: bool) -> Option<bool>
    ensures { result ≡ truth_or_spec key.now default (table_view table.now) }
{
    match value_at(table, key) {
        Some(Value::Boolean(truth)) => Some(*truth),
        Some(_) => None,
        None => Some(default),
    }
}

/// The number, where it is from low to high.
pub fn within(low: u64, high: u64, number: Option<u64>) -> Option<u64>
    ensures { result ≡ within_spec low high number }
{
    number.filter(|n| low <= *n && *n <= high)
}

/// The text at a key; None where the key is missing or has another value.
pub fn text<'a>(table: &'a Table, key: &str) -> Option<&'a str>
    ensures { option_copied result ≡ text_spec key.now (table_view table.now) }
{
    match value_at(table, key) {
        Some(value) => value.as_str(),
        None => None,
    }
}

/// Whether a key is one of the known ones.
fn is_known(key: &str, known: &[&str]) -> bool
    ensures { result ≡ is_known_spec (map (λ k. k.now) known.now) key.now }
{
    for word in known {
        if key == *word {
            return true;
        }
    }
    false
}

/// Whether each key of a table passes.
fn all_known(table: &Table, known: &[&str]) -> bool
    ensures { result
        ≡ list_all (λ k. is_known_spec (map
        (λ w. w.now) known.now) (string_bytes k)) (keys table.now) }
{
    table.keys().all(|key| is_known(key.as_str(), known))
}

/// Whether each key of a table is one of the known ones.
pub fn has_only(table: &Table, known: &[&str]) -> bool
    ensures { result ≡ has_only_spec (map (λ k. k.now) known.now) (table_view table.now) }
{
    all_known(table, known)
}

/// The tables of an array of tables at a key, in order; a missing key is the empty array. The
/// answer is None where the value isn't an array of tables.
pub fn tables<'a>(
    alloc: Global,
    table: &'a Table,
    key: &str,
) -> Result<Option<Vec<&'a Table>>, NoMemory>
    ensures { IfOk result (λ found. option_map (λ v. map (λ t. table_view t.now) v.items) found
        ≡ tables_spec key.now (table_view table.now)) }
{
    match value_at(table, key) {
        Some(value) => tables_of(alloc, value),
        None => Ok(Some(Vec::new(alloc))),
    }
}

/// The tables of a value that is an array of tables.
fn tables_of(alloc: Global, value: &Value) -> Result<Option<Vec<&Table>>, NoMemory>
    ensures { IfOk result (λ found. option_map (λ v. map (λ t. table_view t.now) v.items) found
        ≡ tables_of_spec (view value.now)) }
{
    match value {
        Value::Array(values) => all_tables(alloc, values.as_slice()),
        _ => Ok(None),
    }
}

/// The values as tables, where each of them is one.
fn all_tables(alloc: Global, values: &[Value]) -> Result<Option<Vec<&Table>>, NoMemory>
    ensures { IfOk result (λ found. option_map (λ v. map (λ t. table_view t.now) v.items) found
        ≡ all_tables_spec (items_view values.now)) }
{
    let mut found = Vec::with_capacity(alloc, values.len())?;
    for value in values {
        match value.as_table() {
            Some(table) => found.push(table)?,
            None => return Ok(None),
        }
    }
    Ok(Some(found))
}
