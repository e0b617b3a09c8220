//! The earlier entry that has what a rule says that no two may have.

ghost use Rattle.std.specs.Prelude.{◌≡◌, ◌≤◌, map, IfSome};
ghost use Rattle.toml.specs.View.{table_view};
ghost use Rattle.rule_words.specs.Alike.{alike_words as alike_words_spec, earlier_alike as earlier_alike_spec, has_same_end as has_same_end_spec, has_same_id as has_same_id_spec, has_same_name as has_same_name_spec, has_same_node_id as has_same_node_id_spec, is_alike as is_alike_spec, is_earlier_alike as is_earlier_alike_spec, is_same_number as is_same_number_spec, is_same_text as is_same_text_spec, joins_same as joins_same_spec, stream_id_at as stream_id_at_spec};
ghost use Rattle.std.specs.Option.{option_copied};
ghost use Rattle.topology_file.specs.Entries.{id_at as id_at_spec};

use crate::search::first_entry;
use srp_base::read_hex16;
use toml::{Table, Value};
use toml_rules::{text, value_at};

/// Whether two texts are there, and are the same.
pub(crate) fn is_same_text(x: Option<&str>, y: Option<&str>) -> bool
    ensures { result ≡ is_same_text_spec (option_copied x.entry) (option_copied y.entry) }
{
    match (x, y) {
        (Some(x), Some(y)) => x == y,
        _ => false,
    }
}

// Whether two numbers are there, and are the same.
fn is_same_number(x: Option<u64>, y: Option<u64>) -> bool
    ensures { result ≡ is_same_number_spec x y }
{
    match (x, y) {
        (Some(x), Some(y)) => x == y,
        _ => false,
    }
}

fn has_same_name(x: &Table, y: &Table) -> bool
    ensures { result ≡ has_same_name_spec (table_view x.now) (table_view y.now) }
{
    is_same_text(text(x, "name"), text(y, "name"))
}

fn stream_id_at(table: &Table) -> Option<u64>
    ensures { result ≡ stream_id_at_spec (table_view table.now) }
{
    read_hex16(text(table, "id")?)
}

fn has_same_id(x: &Table, y: &Table) -> bool
    ensures { result ≡ has_same_id_spec (table_view x.now) (table_view y.now) }
{
    is_same_number(stream_id_at(x), stream_id_at(y))
}

// The identifier of the node of a number, which is the number where none is given.
fn node_id_at(number: usize, table: &Table) -> Option<u64>
    ensures { result ≡ id_at_spec number (table_view table.now) }
{
    match value_at(table, "id") {
        Some(Value::String(digits)) => read_hex16(digits),
        Some(_) => None,
        None => Some(number as u64),
    }
}

fn has_same_node_id(n: usize, x: &Table, m: usize, y: &Table) -> bool
    ensures { result ≡ has_same_node_id_spec n (table_view x.now) m (table_view y.now) }
{
    is_same_number(node_id_at(n, x), node_id_at(m, y))
}

fn has_same_end(end: &str, x: &Table, other: &str, y: &Table) -> bool
    ensures { result
        ≡ has_same_end_spec end.now (table_view x.now) other.now (table_view y.now) }
{
    is_same_text(text(x, end), text(y, other))
}

// Whether two links join the same nodes.
fn joins_same(x: &Table, y: &Table) -> bool
    ensures { result ≡ joins_same_spec (table_view x.now) (table_view y.now) }
{
    has_same_end("a", x, "a", y) && has_same_end("b", x, "b", y)
        || has_same_end("a", x, "b", y) && has_same_end("b", x, "a", y)
}

// Whether the entries of these numbers, the later one first, have what a rule says that no two may
// have.
fn is_alike(rule: u8, n: usize, x: &Table, m: usize, y: &Table) -> bool
    ensures { result ≡ is_alike_spec rule n (table_view x.now) m (table_view y.now) }
{
    match rule {
        6 | 17 => has_same_name(x, y),
        7 => has_same_node_id(n, x, m, y),
        11 => joins_same(x, y),
        18 => has_same_id(x, y),
        52 => has_same_name(x, y) || has_same_id(x, y),
        _ => false,
    }
}

// Whether the entry of a number stands before another that is so like it.
fn is_earlier_alike(rule: u8, n: usize, x: &Table, m: usize, y: &Table) -> bool
    ensures { result ≡ is_earlier_alike_spec rule n (table_view x.now) m (table_view y.now) }
{
    m < n && is_alike(rule, n, x, m, y)
}

/// The first of the entries before the one of this number that is so like it.
pub(crate) fn earlier_alike(rule: u8, number: usize, x: &Table, entries: &[&Table]) -> Option<usize>
    ensures first { result ≡ earlier_alike_spec rule number (table_view x.now)
        (map (λ t. table_view t.now) entries.now) }
    ensures within { IfSome result (λ n. 1 ≤ n) }
{
    first_entry(entries, |m, y| is_earlier_alike(rule, number, x, m, y))
}

/// What two entries both have that a rule says that no two may have.
pub(crate) fn alike_words(rule: u8) -> &'static str
    ensures { result.now ≡ alike_words_spec rule }
{
    match rule {
        6 | 17 => " has this name",
        7 | 18 => " has this id",
        11 => " joins the same nodes",
        _ => " has this name or this id",
    }
}
