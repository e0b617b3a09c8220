//! Lines of what is said of a file.

ghost use Rattle.std.specs.Prelude.{◌≡◌, ◌≤◌, ◌++◌, flat_map, option_map, codes, Some, None, OnOk};
ghost use Rattle.toml.specs.Data.{get_member};
ghost use Rattle.toml.specs.View.{table_view, view};
ghost use Rattle.toml_rules.specs.Fields.{text as text_spec};
ghost use Rattle.rule_words.specs.Keys.{word_of as word_of_spec};
ghost use Rattle.rule_words.specs.Lines.{rule_line, asks_line, name_words, entry_line, there_words, there_line, line_at, line_beside, begin_words, header_word, header_words, entry_at as entry_at_spec, entry_of as entry_of_spec};
ghost use Rattle.rule_words.specs.Values.{quoted};

use crate::asked::what_rule_asks;
use crate::keys::{Key, word_of};
use crate::kinds::FileKind;
use crate::names::is_name;
use crate::pieces::{put, put_number};
use crate::values::{put_quoted, put_text, put_value};
use file_places::{line_of_entry, put_line};
use srp_base::NoMemory;
use std::alloc::AllocError;
use toml::{Table, Value};
use toml_rules::{text, value_at};

/// The first rule that a file breaks.
#[derive(Clone, Copy)]
pub(crate) struct Broken {
    /// The kind of the file.
    pub(crate) kind: FileKind,
    /// The rule's number.
    pub(crate) rule: u8,
    /// The first entry that breaks it, counted from 1 in its array, or 0 for the file as a whole.
    pub(crate) entry: u32,
}

/// The rule and its entry, by their numbers.
pub(crate) fn put_rule(out: &mut Vec<u8>, broken: Broken) -> Result<(), AllocError>
    ensures { OnOk result (out.new.items
        ≡ out.old.items ++ rule_line broken.rule broken.entry) }
{
    put(out, "rule ")?;
    put_number(out, u64::from(broken.rule))?;
    put(out, " entry ")?;
    put_number(out, u64::from(broken.entry))?;
    put(out, "\n")
}

/// What the rule asks.
pub(crate) fn put_asks(out: &mut Vec<u8>, broken: Broken) -> Result<(), AllocError>
    ensures { OnOk result (out.new.items
        ≡ out.old.items ++ asks_line broken.kind broken.rule) }
{
    put(out, "asks: ")?;
    put(out, what_rule_asks(broken.kind, broken.rule))?;
    put(out, "\n")
}

/// The name of an entry, if it has one.
pub(crate) fn put_name(out: &mut Vec<u8>, table: &Table) -> Result<(), NoMemory>
    ensures { OnOk result (out.new.items
        ≡ out.old.items ++ name_words (text_spec (codes "name") (table_view table.now))) }
{
    match text(table, "name") {
        Some(name) => put_called(out, name),
        None => Ok(()),
    }
}

fn put_called(out: &mut Vec<u8>, name: &str) -> Result<(), NoMemory>
    ensures { OnOk result (out.new.items ≡ out.old.items ++ codes " " ++ quoted name.now) }
{
    put(out, " ")?;
    put_quoted(out, name.as_bytes())
}

/// An entry by its array, its number and its name.
pub(crate) fn put_entry(
    out: &mut Vec<u8>,
    array: Key,
    entry: u32,
    table: &Table,
) -> Result<(), NoMemory>
    ensures { OnOk result (out.new.items
        ≡ out.old.items ++ entry_line array entry (table_view table.now)) }
{
    put(out, "entry: [[")?;
    put(out, word_of(array))?;
    put(out, "]] ")?;
    put_number(out, u64::from(entry))?;
    put_name(out, table)?;
    Ok(put(out, "\n")?)
}

// What stands at a key.
fn put_found(out: &mut Vec<u8>, key: Key, value: &Value) -> Result<(), NoMemory>
    ensures { OnOk result (out.new.items
        ≡ out.old.items ++ there_words key (Some (view value.now))) }
{
    put(out, word_of(key))?;
    put(out, " = ")?;
    put_value(out, value)
}

fn put_missing(out: &mut Vec<u8>, key: Key) -> Result<(), AllocError>
    ensures { OnOk result (out.new.items ≡ out.old.items ++ there_words key None) }
{
    put(out, "no ")?;
    put(out, word_of(key))
}

/// What stands at a key, if anything does.
pub(crate) fn put_words_there(out: &mut Vec<u8>, key: Key, table: &Table) -> Result<(), NoMemory>
    ensures { OnOk result (out.new.items ≡ out.old.items
        ++ there_words key (get_member (word_of_spec key) (table_view table.now))) }
{
    match value_at(table, word_of(key)) {
        Some(value) => put_found(out, key, value),
        None => Ok(put_missing(out, key)?),
    }
}

pub(crate) fn put_there(out: &mut Vec<u8>, table: &Table, key: Key) -> Result<(), NoMemory>
    ensures { OnOk result (out.new.items
        ≡ out.old.items ++ there_line (table_view table.now) key) }
{
    put(out, "there: ")?;
    put_words_there(out, key, table)?;
    Ok(put(out, "\n")?)
}

/// What stands at each of these keys.
pub(crate) fn put_each_there(out: &mut Vec<u8>, table: &Table, keys: &[Key]) -> Result<(), NoMemory>
    ensures { OnOk result (out.new.items
        ≡ out.old.items ++ flat_map (there_line (table_view table.now)) keys.now) }
{
    for key in keys {
        put_there(out, table, *key)?;
    }
    Ok(())
}

/// The line in which the entry of this number of an array begins, where it is known.
pub(crate) fn put_line_at(
    out: &mut Vec<u8>,
    array: Key,
    entry: usize,
    octets: &[u8],
) -> Result<(), NoMemory>
    ensures { OnOk result (out.new.items ≡ out.old.items ++ line_at array entry octets.now) }
{
    let alloc = *out.allocator();
    match line_of_entry(alloc, octets, word_of(array), entry)? {
        Some(line) => put_line(out, line),
        None => Ok(()),
    }
}

/// The table that is the entry of this number of the array at a key.
pub(crate) fn entry_at<'a>(array: &str, entry: usize, table: &'a Table) -> Option<&'a Table>
    requires { 1 ≤ entry }
    ensures { option_map (λ t. table_view t.now) result
        ≡ entry_at_spec array.now entry (table_view table.now) }
{
    value_at(table, array)?.get(entry - 1)?.as_table()
}

/// The table that is the entry of this number of an array that is known.
pub(crate) fn entry_of(array: Key, entry: usize, table: &Table) -> Option<&Table>
    requires { 1 ≤ entry }
    ensures { option_map (λ t. table_view t.now) result
        ≡ entry_of_spec array entry (table_view table.now) }
{
    entry_at(word_of(array), entry, table)
}

// The word of an array, as it may stand in a header.
fn put_header_word(out: &mut Vec<u8>, array: &str) -> Result<(), NoMemory>
    ensures { OnOk result (out.new.items ≡ out.old.items ++ header_word array.now) }
{
    if is_name(array.as_bytes()) {
        Ok(put(out, array)?)
    } else {
        put_text(out, array.as_bytes())
    }
}

/// An entry of any array by its header and its number.
pub(crate) fn put_header(out: &mut Vec<u8>, array: &str, entry: usize) -> Result<(), NoMemory>
    ensures { OnOk result (out.new.items ≡ out.old.items ++ header_words array.now entry) }
{
    put(out, "[[")?;
    put_header_word(out, array)?;
    put(out, "]] ")?;
    Ok(put_number(out, entry as u64)?)
}

// The line in which an entry begins, and which entry it is.
fn put_begin(out: &mut Vec<u8>, array: &str, entry: usize, line: usize) -> Result<(), NoMemory>
    ensures { OnOk result (out.new.items ≡ out.old.items ++ begin_words array.now entry line) }
{
    put(out, "line: ")?;
    put_number(out, line as u64)?;
    put(out, " of ")?;
    put_header(out, array, entry)?;
    Ok(put(out, "\n")?)
}

/// The line in which another entry than the one that breaks a rule begins, where it is known.
pub(crate) fn put_line_beside(
    out: &mut Vec<u8>,
    array: &str,
    entry: usize,
    octets: &[u8],
) -> Result<(), NoMemory>
    ensures { OnOk result (out.new.items
        ≡ out.old.items ++ line_beside array.now entry octets.now) }
{
    let alloc = *out.allocator();
    match line_of_entry(alloc, octets, array, entry)? {
        Some(line) => put_begin(out, array, entry, line),
        None => Ok(()),
    }
}
