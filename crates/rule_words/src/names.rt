//! Names in an array.

ghost use Rattle.std.specs.Prelude.{◌≡◌, Some};
ghost use Rattle.std.specs.List.{list_all};
ghost use Rattle.toml.specs.Data.{array, get_member};
ghost use Rattle.toml.specs.View.{items_view, table_view, view};
ghost use Rattle.topology_file.specs.Entries.{is_name as is_name_spec, is_name_char as is_name_char_spec};
ghost use Rattle.rule_words.specs.Forms.{are_names as are_names_spec, is_name_data, is_names};

use crate::values::count_of;
use toml::{Table, Value};
use toml_rules::value_at;

// a to z, 0 to 9, `-` and `_`.
fn is_name_char(c: u8) -> bool
    ensures { result ≡ is_name_char_spec c }
{
    b'a' <= c && c <= b'z' || b'0' <= c && c <= b'9' || c == b'-' || c == b'_'
}

fn has_name_chars(word: &[u8]) -> bool
    ensures { result ≡ list_all is_name_char_spec word.now }
{
    word.iter().all(|c| is_name_char(*c))
}

/// 1 to 32 such characters.
pub(crate) fn is_name(word: &[u8]) -> bool
    ensures { result ≡ is_name_spec word.now }
{
    1 <= word.len() && word.len() <= 32 && has_name_chars(word)
}

/// Whether a value gives a name.
pub(crate) fn gives_name(value: &Value) -> bool
    ensures { result ≡ is_name_data (view value.now) }
{
    match value.as_str() {
        Some(word) => is_name(word.as_bytes()),
        None => false,
    }
}

// Whether each of these values gives one.
fn are_names(values: &[Value]) -> bool
    ensures { result ≡ are_names_spec (items_view values.now) }
{
    for value in values {
        if !gives_name(value) {
            return false;
        }
    }
    true
}

// Whether there are some values, and each gives a name.
fn are_some_names(values: &[Value]) -> bool
    ensures { result ≡ is_names (Some (array (items_view values.now))) }
{
    0 < count_of(values) && are_names(values)
}

fn is_array_of_names(value: &Value) -> bool
    ensures { result ≡ is_names (Some (view value.now)) }
{
    match value {
        Value::Array(values) => are_some_names(values.as_slice()),
        _ => false,
    }
}

/// Whether there is an array of names at a key, one or more.
pub(crate) fn has_names(table: &Table, key: &str) -> bool
    ensures { result
        ≡ is_names (get_member key.now (table_view table.now)) }
{
    match value_at(table, key) {
        Some(value) => is_array_of_names(value),
        None => false,
    }
}
