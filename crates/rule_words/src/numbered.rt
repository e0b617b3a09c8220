//! An entry of an array by its number.

ghost use Rattle.std.specs.Prelude.{◌≡◌, ◌≤◌, ◌++◌, OnOk};
ghost use Rattle.toml.specs.View.{table_view};
ghost use Rattle.rule_words.specs.Lines.{entry_at as entry_at_spec, entry_of as entry_of_spec};
ghost use Rattle.rule_words.specs.Others.{any_words, line_end, name_of_entry, numbered_line, numbered_words};

use crate::keys::{Key, word_of};
use crate::lines::{entry_at, entry_of, put_header, put_name};
use crate::pieces::{put, put_number};
use srp_base::NoMemory;
use std::alloc::AllocError;
use toml::Table;

// The name of an entry, where it is there and has one.
fn put_name_of(out: &mut Vec<u8>, array: Key, number: usize, table: &Table) -> Result<(), NoMemory>
    requires { 1 ≤ number }
    ensures { OnOk result (out.new.items ≡ out.old.items
        ++ name_of_entry (entry_of_spec array number (table_view table.now))) }
{
    match entry_of(array, number, table) {
        Some(entry) => put_name(out, entry),
        None => Ok(()),
    }
}

/// An entry by its array, its number and its name.
pub(crate) fn put_numbered(
    out: &mut Vec<u8>,
    array: Key,
    number: usize,
    table: &Table,
) -> Result<(), NoMemory>
    requires { 1 ≤ number }
    ensures { OnOk result (out.new.items
        ≡ out.old.items ++ numbered_words array number (table_view table.now)) }
{
    put(out, "other: [[")?;
    put(out, word_of(array))?;
    put(out, "]] ")?;
    put_number(out, number as u64)?;
    put_name_of(out, array, number, table)
}

// The name of an entry of any array, where it is there and has one.
fn put_name_at(out: &mut Vec<u8>, array: &str, number: usize, table: &Table) -> Result<(), NoMemory>
    requires { 1 ≤ number }
    ensures { OnOk result (out.new.items ≡ out.old.items
        ++ name_of_entry (entry_at_spec array.now number (table_view table.now))) }
{
    match entry_at(array, number, table) {
        Some(entry) => put_name(out, entry),
        None => Ok(()),
    }
}

/// An entry of any array by its header, its number and its name.
pub(crate) fn put_any(
    out: &mut Vec<u8>,
    array: &str,
    number: usize,
    table: &Table,
) -> Result<(), NoMemory>
    requires { 1 ≤ number }
    ensures { OnOk result (out.new.items
        ≡ out.old.items ++ any_words array.now number (table_view table.now)) }
{
    put(out, "other: ")?;
    put_header(out, array, number)?;
    put_name_at(out, array, number, table)
}

/// The end of a line.
pub(crate) fn put_line_end(out: &mut Vec<u8>, words: &str) -> Result<(), AllocError>
    ensures { OnOk result (out.new.items ≡ out.old.items ++ line_end words.now) }
{
    put(out, words)?;
    put(out, "\n")
}

/// The line of an entry, with what there is to say of it.
pub(crate) fn put_numbered_line(
    out: &mut Vec<u8>,
    array: Key,
    number: usize,
    table: &Table,
    words: &str,
) -> Result<(), NoMemory>
    requires { 1 ≤ number }
    ensures { OnOk result (out.new.items
        ≡ out.old.items ++ numbered_line array number (table_view table.now) words.now) }
{
    put_numbered(out, array, number, table)?;
    Ok(put_line_end(out, words)?)
}
