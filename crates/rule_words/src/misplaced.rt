//! Keys that stand in another entry than they were meant for, or are called otherwise there.

ghost use Rattle.std.specs.Prelude.{◌≡◌, ◌≤◌, ◌++◌, map, take, flat_map, is_some, Some, IfOk, IfSome, OnOk};
ghost use Rattle.toml.specs.View.{table_view};
ghost use Rattle.rule_words.specs.Keys.{word_of as word_of_spec};
ghost use Rattle.rule_words.specs.Others.{arrays_with as arrays_with_spec, first_at as first_at_spec, first_with as first_with_spec, has_key as has_key_spec, if_has, misplaced_in, misplaced_line, misplaced_lines, misplaced_words, most_told, stream_lines, want_lines};

use crate::keys::{Key, word_of};
use crate::lines::put_line_beside;
use crate::numbered::put_any;
use crate::pieces::put;
use crate::search::{entries_at, first_entry};
use srp_base::NoMemory;
use std::alloc::{AllocError, Global};
use toml::Table;
use toml_rules::value_at;

// Whether an entry has a key.
fn has_key(word: &str, table: &Table) -> bool
    ensures { result ≡ has_key_spec word.now (table_view table.now) }
{
    value_at(table, word).is_some()
}

// The first entry that has it.
fn first_with(word: &str, entries: &[&Table]) -> Option<usize>
    ensures first { result ≡ first_with_spec word.now (map (λ t. table_view t.now) entries.now) }
    ensures within { IfSome result (λ n. 1 ≤ n) }
{
    first_entry(entries, |_, entry| has_key(word, entry))
}

// What a key behind a header means.
fn put_misplaced(out: &mut Vec<u8>, key: Key) -> Result<(), AllocError>
    ensures { OnOk result (out.new.items ≡ out.old.items ++ misplaced_words key) }
{
    put(out, " has ")?;
    put(out, word_of(key))?;
    put(out, ": a key behind a line [[..]] belongs to that entry\n")
}

// An entry of an array that has a key of the file, and the line in which it begins.
fn put_misplaced_at(
    out: &mut Vec<u8>,
    key: Key,
    array: &str,
    number: usize,
    table: &Table,
    octets: &[u8],
) -> Result<(), NoMemory>
    requires { 1 ≤ number }
    ensures { OnOk result (out.new.items ≡ out.old.items
        ++ misplaced_line key array.now (table_view table.now) octets.now (Some number)) }
{
    put_any(out, array, number, table)?;
    put_misplaced(out, key)?;
    put_line_beside(out, array, number, octets)
}

// The first entry of the array at a key that has another.
fn first_at(
    alloc: Global,
    word: &str,
    table: &Table,
    array: &str,
) -> Result<Option<usize>, NoMemory>
    ensures first { IfOk result (λ n. n
        ≡ first_at_spec word.now (table_view table.now) array.now) }
    ensures within { IfOk result (λ n. IfSome n (λ n. 1 ≤ n)) }
{
    let entries = entries_at(alloc, array, table)?;
    Ok(first_with(word, &entries))
}

// The first entry of an array that has a key of the file.
fn put_misplaced_in(
    out: &mut Vec<u8>,
    key: Key,
    table: &Table,
    octets: &[u8],
    array: &str,
) -> Result<(), NoMemory>
    ensures { OnOk result (out.new.items ≡ out.old.items
        ++ misplaced_in key (table_view table.now) octets.now array.now) }
{
    let alloc = *out.allocator();
    match first_at(alloc, word_of(key), table, array)? {
        Some(number) => put_misplaced_at(out, key, array, number, table, octets),
        None => Ok(()),
    }
}

// Those of each of these arrays.
fn put_misplaced_among(
    out: &mut Vec<u8>,
    key: Key,
    table: &Table,
    octets: &[u8],
    arrays: &[&str],
) -> Result<(), NoMemory>
    ensures { OnOk result (out.new.items ≡ out.old.items
        ++ flat_map (misplaced_in key (table_view table.now) octets.now)
        (map (λ a. a.now) arrays.now)) }
{
    for array in arrays {
        put_misplaced_in(out, key, table, octets, array)?;
    }
    Ok(())
}

// Whether an entry of the array at a key has another.
fn has_entry_with(alloc: Global, word: &str, table: &Table, array: &str) -> Result<bool, NoMemory>
    ensures { IfOk result (λ is. is
        ≡ is_some (first_at_spec word.now (table_view table.now) array.now)) }
{
    Ok(first_at(alloc, word, table, array)?.is_some())
}

// The arrays in which an entry has a key.
fn arrays_with<'a>(alloc: Global, word: &str, table: &'a Table) -> Result<Vec<&'a str>, NoMemory>
    ensures { IfOk result (λ v. map (λ a. a.now) v.items
        ≡ arrays_with_spec word.now (table_view table.now)) }
{
    let mut arrays = Vec::new(alloc);
    for (array, _) in table.iter() {
        if has_entry_with(alloc, word, table, array.as_str())? {
            arrays.push(array.as_str())?;
        }
    }
    Ok(arrays)
}

/// Of how many arrays it is told at most.
const MOST_TOLD: usize = 5;

// The first of some arrays.
fn first_arrays<'a, 'b>(arrays: &'b [&'a str]) -> &'b [&'a str]
    ensures { map (λ a. a.now) result.now ≡ take most_told (map (λ a. a.now) arrays.now) }
{
    &arrays[..arrays.len().min(MOST_TOLD)]
}

// Those of each array that has such an entry.
fn put_misplaced_of(
    out: &mut Vec<u8>,
    key: Key,
    table: &Table,
    octets: &[u8],
) -> Result<(), NoMemory>
    ensures { OnOk result (out.new.items ≡ out.old.items
        ++ flat_map (misplaced_in key (table_view table.now) octets.now)
        (take most_told (arrays_with_spec (word_of_spec key) (table_view table.now)))) }
{
    let alloc = *out.allocator();
    let arrays = arrays_with(alloc, word_of(key), table)?;
    put_misplaced_among(out, key, table, octets, first_arrays(&arrays))
}

/// The first entry of each array of tables that has a key of the file, where the file doesn't have
/// it itself, with the line in which that entry begins.
pub(crate) fn put_all_misplaced(
    out: &mut Vec<u8>,
    key: Key,
    table: &Table,
    octets: &[u8],
) -> Result<(), NoMemory>
    ensures { OnOk result (out.new.items ≡ out.old.items
        ++ misplaced_lines key (table_view table.now) octets.now) }
{
    if has_key(word_of(key), table) {
        Ok(())
    } else {
        put_misplaced_of(out, key, table, octets)
    }
}

// Words of an entry that has a key.
fn put_if_has(out: &mut Vec<u8>, word: &str, entry: &Table, words: &str) -> Result<(), AllocError>
    ensures { OnOk result (out.new.items
        ≡ out.old.items ++ if_has word.now (table_view entry.now) words.now) }
{
    if has_key(word, entry) {
        put(out, words)
    } else {
        Ok(())
    }
}

/// What a plan says of a stream, and a scenario elsewhere.
pub(crate) fn put_stream(out: &mut Vec<u8>, entry: &Table) -> Result<(), AllocError>
    ensures { OnOk result (out.new.items
        ≡ out.old.items ++ stream_lines (table_view entry.now)) }
{
    put_if_has(
        out,
        "class",
        entry,
        "other: the class of a stream is its priority: 3 is class A, 2 is class B\n",
    )?;
    put_if_has(
        out,
        "listeners",
        entry,
        "other: who listens is told by an [[event]] of the kind listen\n",
    )
}

/// What a scenario says of a stream, and a ledger file of a want by another key.
pub(crate) fn put_want(out: &mut Vec<u8>, entry: &Table) -> Result<(), AllocError>
    ensures { OnOk result (out.new.items
        ≡ out.old.items ++ want_lines (table_view entry.now)) }
{
    put_if_has(
        out,
        "priority",
        entry,
        "other: a want has a class in place of a priority: A or B\n",
    )
}
