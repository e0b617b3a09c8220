//! In which line an entry begins, and in which a key of the file stands.

ghost use Rattle.std.specs.Prelude.{◌≡◌, ◌≤◌, ◌-◌, ◌&&◌, ◌++◌, take, length, Some, IfOk, OnOk};
ghost use Rattle.toml.specs.View.{table_view};
ghost use Rattle.file_places.specs.Entries.{before as before_spec, begin_line as begin_line_spec, closed, entries_are as entries_are_spec, entry_line, first_tried as first_tried_spec, is_begun as is_begun_spec, is_in as is_in_spec, is_so_far as is_so_far_spec, is_there as is_there_spec, line_of_item as line_of_item_spec, line_of_entry as line_of_entry_spec, line_of_key as line_of_key_spec};
ghost use Rattle.file_places.specs.Lines.{first_lines, items_skipped as items_skipped_spec};

use crate::lines::{Line, LineKind, counted, is_of_kind, is_tried, items_skipped, line_end};
use crate::pieces::put;
use srp_base::NoMemory;
use std::alloc::Global;
use toml::Table;
use toml_rules::{tables, value_at};

/// What is sought at a key.
#[derive(Clone, Copy)]
pub(crate) enum Sought {
    /// An array of so many tables.
    Tables(usize),
    /// The key itself.
    Key,
    /// That it isn't there.
    NoKey,
}

// Whether a document has an array of so many tables at a key.
fn entries_are(alloc: Global, table: &Table, array: &str, count: usize) -> Result<bool, NoMemory>
    ensures { IfOk result (λ is. is ≡ entries_are_spec array.now count (table_view table.now)) }
{
    match tables(alloc, table, array)? {
        Some(entries) => Ok(entries.len() == count),
        None => Ok(false),
    }
}

// Whether a document has what is sought at a key.
fn is_there(alloc: Global, table: &Table, sought: Sought, word: &str) -> Result<bool, NoMemory>
    ensures { IfOk result (λ is. is ≡ is_there_spec sought word.now (table_view table.now)) }
{
    match sought {
        Sought::Tables(count) => entries_are(alloc, table, word, count),
        Sought::Key => Ok(value_at(table, word).is_some()),
        Sought::NoKey => Ok(value_at(table, word).is_none()),
    }
}

// Whether octets are a document that has.
fn is_in(alloc: Global, octets: &[u8], sought: Sought, word: &str) -> Result<bool, NoMemory>
    ensures { IfOk result (λ is. is ≡ is_in_spec sought word.now octets.now) }
{
    match toml::table_from_slice(alloc, octets) {
        Ok(table) => is_there(alloc, &table, sought, word),
        Err(error) => {
            if error.is_memory() {
                Err(NoMemory)
            } else {
                Ok(false)
            }
        }
    }
}

// Whether they are with the bracket that closes an array in them.
fn is_in_closed(alloc: Global, octets: &[u8], sought: Sought, word: &str) -> Result<bool, NoMemory>
    ensures { IfOk result (λ is. is ≡ is_in_spec sought word.now (closed octets.now)) }
{
    let mut closed = octets.to_vec(alloc)?;
    closed.push(b']')?;
    is_in(alloc, closed.as_slice(), sought, word)
}

// Whether they are as they stand, or with that bracket.
fn is_so_far(alloc: Global, octets: &[u8], sought: Sought, word: &str) -> Result<bool, NoMemory>
    ensures { IfOk result (λ is. is ≡ is_so_far_spec sought word.now octets.now) }
{
    if is_in(alloc, octets, sought, word)? {
        return Ok(true);
    }
    is_in_closed(alloc, octets, sought, word)
}

// Whether the first octets, so many, are.
fn is_so_until(
    alloc: Global,
    octets: &[u8],
    end: usize,
    sought: Sought,
    word: &str,
) -> Result<bool, NoMemory>
    requires { end ≤ length octets.now }
    ensures { IfOk result (λ is. is ≡ is_so_far_spec sought word.now (take end octets.now)) }
{
    is_so_far(alloc, &octets[..end], sought, word)
}

// Whether the lines before a line are.
fn is_so_before(
    alloc: Global,
    octets: &[u8],
    line: Line,
    sought: Sought,
    word: &str,
) -> Result<bool, NoMemory>
    requires { line.start ≡ length (first_lines (line.number - 1) octets.now) }
    ensures { IfOk result (λ is. is
        ≡ is_so_far_spec sought word.now (first_lines (line.number - 1) octets.now)) }
{
    is_so_until(alloc, octets, line.start, sought, word)
}

// Whether those up to its end are.
fn is_so_with(
    alloc: Global,
    octets: &[u8],
    line: Line,
    sought: Sought,
    word: &str,
) -> Result<bool, NoMemory>
    requires { line.end ≡ length (first_lines line.number octets.now) }
    ensures { IfOk result (λ is. is
        ≡ is_so_far_spec sought word.now (first_lines line.number octets.now)) }
{
    is_so_until(alloc, octets, line.end, sought, word)
}

// What the lines before the one have with which it begins.
fn before(sought: Sought) -> Sought
    ensures { result ≡ before_spec sought }
{
    match sought {
        Sought::Tables(entry) => Sought::Tables(entry.saturating_sub(1)),
        Sought::Key | Sought::NoKey => Sought::NoKey,
    }
}

// Whether what is sought begins with a line, which reads four documents at most.
fn is_begun(
    alloc: Global,
    octets: &[u8],
    sought: Sought,
    word: &str,
    line: Line,
) -> Result<bool, NoMemory>
    requires start { line.start ≡ length (first_lines (line.number - 1) octets.now) }
    requires end { line.end ≡ length (first_lines line.number octets.now) }
    ensures { IfOk result (λ is. is
        ≡ is_begun_spec sought word.now octets.now line.number) }
{
    if is_so_before(alloc, octets, line, before(sought), word)? {
        is_so_with(alloc, octets, line, sought, word)
    } else {
        Ok(false)
    }
}

// Whether it does, of a line that is tried.
fn is_begin(
    alloc: Global,
    octets: &[u8],
    sought: Sought,
    word: &str,
    tried: bool,
    line: Line,
) -> Result<bool, NoMemory>
    requires start { line.start ≡ length (first_lines (line.number - 1) octets.now) }
    requires end { line.end ≡ length (first_lines line.number octets.now) }
    ensures { IfOk result (λ is. is
        ≡ (tried && is_begun_spec sought word.now octets.now line.number)) }
{
    if tried {
        is_begun(alloc, octets, sought, word, line)
    } else {
        Ok(false)
    }
}

// The number from which on lines are tried.
fn first_tried(sought: Sought) -> usize
    ensures { result ≡ first_tried_spec sought }
{
    match sought {
        Sought::Tables(entry) => entry,
        Sought::Key | Sought::NoKey => 1,
    }
}

// The first line that is tried with which what is sought begins. It reads four documents at most of
// each line that it tries.
fn begin_line(
    alloc: Global,
    octets: &[u8],
    kind: LineKind,
    sought: Sought,
    word: &str,
    skipped: usize,
) -> Result<Option<usize>, NoMemory>
    ensures { IfOk result (λ line. line
        ≡ begin_line_spec kind sought word.now skipped octets.now) }
{
    let number = first_tried(sought);
    let mut lines = 0;
    let mut found = 0;
    let mut start = 0;
    while start < octets.len() {
        let end = line_end(octets, start);
        let is = is_of_kind(kind, word.as_bytes(), &octets[start..end]);
        let tried = is_tried(is, found, skipped, number);
        let line = Line {
            number: lines + 1,
            start,
            end,
        };
        if is_begin(alloc, octets, sought, word, tried, line)? {
            return Ok(Some(lines + 1));
        }
        found = counted(found, is);
        lines += 1;
        start = end;
    }
    Ok(None)
}

// The line of an entry that is written inline.
fn line_of_item(
    alloc: Global,
    octets: &[u8],
    array: &str,
    entry: usize,
) -> Result<Option<usize>, NoMemory>
    ensures { IfOk result (λ line. line ≡ line_of_item_spec array.now entry octets.now) }
{
    match items_skipped(octets, array.as_bytes()) {
        Some(skipped) => begin_line(
            alloc,
            octets,
            LineKind::Item,
            Sought::Tables(entry),
            array,
            skipped,
        ),
        None => Ok(None),
    }
}

/// The line in which an entry of an array of tables begins, both counted from 1: the first line
/// with its header `[[..]]`, or where the array is written inline with the entry itself, such that
/// the lines up to it are a TOML document in which the array has so many entries, and those before
/// it one in which it has one entry less, either with the bracket that closes the array where that is
/// open. Of the lines that look so, in a text of several lines too, 16 are tried from the entry's
/// number on; None where it isn't so of any of them, as where two entries stand in one line.
pub fn line_of_entry(
    alloc: Global,
    octets: &[u8],
    array: &str,
    entry: usize,
) -> Result<Option<usize>, NoMemory>
    ensures { IfOk result (λ line. line ≡ line_of_entry_spec array.now entry octets.now) }
{
    let sought = Sought::Tables(entry);
    match begin_line(alloc, octets, LineKind::Header, sought, array, 0)? {
        Some(line) => Ok(Some(line)),
        None => line_of_item(alloc, octets, array, entry),
    }
}

/// The line in which a key of the file stands first, counted from 1: the first line with the key, or
/// with a header that has it, such that the lines up to it are a TOML document that has the key, and
/// those before it aren't, either with the bracket that closes an array where that is open. Of the
/// lines that look so the first 16 of each kind are tried; None where it isn't so of any of them.
pub fn line_of_key(alloc: Global, octets: &[u8], word: &str) -> Result<Option<usize>, NoMemory>
    ensures { IfOk result (λ line. line ≡ line_of_key_spec word.now octets.now) }
{
    match begin_line(alloc, octets, LineKind::Key, Sought::Key, word, 0)? {
        Some(line) => Ok(Some(line)),
        None => begin_line(alloc, octets, LineKind::Table, Sought::Key, word, 0),
    }
}

/// Puts the line of an entry's line at the end of a text.
pub fn put_line(out: &mut Vec<u8>, line: usize) -> Result<(), NoMemory>
    ensures { OnOk result (out.new.items ≡ out.old.items ++ entry_line line) }
{
    let alloc = *out.allocator();
    let words = format!(in alloc; "line: {line}\n")?;
    put(out, &words)
}
