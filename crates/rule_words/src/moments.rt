//! Ticks of a file that the moment of an entry doesn't go with.

ghost use Rattle.std.specs.Prelude.{◌≡◌, ◌≤◌, ◌++◌, Some, OnOk};
ghost use Rattle.toml.specs.View.{table_view};
ghost use Rattle.topology_file.specs.{Frames.count_at, Frames.last_copy as last_copy_spec, Frames.run_end as run_end_spec, Scenario.ticks_at as ticks_at_spec};
ghost use Rattle.rule_words.specs.Lines.{entry_of as entry_of_spec};
ghost use Rattle.rule_words.specs.Others.{before_line, copy_line, end_words, is_past as is_past_spec, last_copy_at as last_copy_at_spec, line_end, past_line, run_end_line, tick_words, ticked_line, ticks_line};

use crate::keys::Key;
use crate::lines::{entry_of, put_words_there};
use crate::numbered::put_numbered;
use crate::pieces::put;
use srp_base::NoMemory;
use toml::Table;
use toml_rules::{number, number_or, within};

// The ticks of a file.
fn ticks_at(table: &Table) -> Option<u64>
    ensures { result ≡ ticks_at_spec (table_view table.now) }
{
    within(1, 12_000, number(table, "ticks"))
}

// The ticks of a file, with what else there is to say.
fn put_ticks(out: &mut Vec<u8>, table: &Table, words: &str) -> Result<(), NoMemory>
    ensures { OnOk result (out.new.items
        ≡ out.old.items ++ ticks_line (table_view table.now) words.now) }
{
    put(out, "other: ")?;
    put_words_there(out, Key::Ticks, table)?;
    put(out, words)?;
    Ok(put(out, "\n")?)
}

// Whether a tick is not below the ticks of the file.
fn is_past(tick: Option<u64>, ticks: Option<u64>) -> bool
    ensures { result ≡ is_past_spec tick ticks }
{
    match (tick, ticks) {
        (Some(tick), Some(ticks)) => ticks <= tick,
        _ => false,
    }
}

/// The ticks of the file, of an event whose tick is not below them.
pub(crate) fn put_past(out: &mut Vec<u8>, table: &Table, event: &Table) -> Result<(), NoMemory>
    ensures { OnOk result (out.new.items
        ≡ out.old.items ++ past_line (table_view table.now) (table_view event.now)) }
{
    if is_past(number(event, "tick"), ticks_at(table)) {
        put_ticks(out, table, "")
    } else {
        Ok(())
    }
}

// How many copies a frame has.
fn count_of(frame: &Table) -> Option<u64>
    ensures { result ≡ count_at (table_view frame.now) }
{
    within(1, 100_000, number_or(frame, "count", 1))
}

// The moment of the last of so many copies.
fn last_copy(at: u64, count: u64, every: u64) -> u128
    requires { count ≤ 100000 }
    ensures { result ≡ last_copy_spec at count every }
{
    let steps = u128::from(count.saturating_sub(1));
    u128::from(at) + steps * u128::from(every)
}

// The moment of a frame's last copy, in ns.
fn last_copy_at(frame: &Table) -> Option<u128>
    ensures { result ≡ last_copy_at_spec (table_view frame.now) }
{
    let at = number(frame, "at")?;
    let count = count_of(frame)?;
    let every = number_or(frame, "every", 0)?;
    Some(last_copy(at, count, every))
}

// The end of a run of so many ticks, in ns.
fn run_end(ticks: u64) -> u128
    ensures { result ≡ run_end_spec ticks }
{
    u128::from(ticks) * 10_000_000
}

// The end of a run, and a moment behind it.
fn put_end(out: &mut Vec<u8>, table: &Table, last: u128, ticks: u64) -> Result<(), NoMemory>
    ensures { OnOk result (out.new.items
        ≡ out.old.items ++ ticks_line (table_view table.now) (end_words ticks last)) }
{
    let alloc = *out.allocator();
    let end = run_end(ticks);
    let words = format!(in alloc; ", which is {end} ns; the last copy stands at {last} ns")?;
    put_ticks(out, table, &words)
}

// The end of a run, of a last copy that doesn't stand before it.
fn put_run_end(out: &mut Vec<u8>, table: &Table, last: u128, ticks: u64) -> Result<(), NoMemory>
    ensures { OnOk result (out.new.items
        ≡ out.old.items ++ run_end_line (table_view table.now) last ticks) }
{
    if run_end(ticks) <= last {
        put_end(out, table, last, ticks)
    } else {
        Ok(())
    }
}

/// The end of the run, of a frame whose last copy doesn't stand before it.
pub(crate) fn put_copy(out: &mut Vec<u8>, table: &Table, frame: &Table) -> Result<(), NoMemory>
    ensures { OnOk result (out.new.items
        ≡ out.old.items ++ copy_line (table_view table.now) (table_view frame.now)) }
{
    match (last_copy_at(frame), ticks_at(table)) {
        (Some(last), Some(ticks)) => put_run_end(out, table, last, ticks),
        _ => Ok(()),
    }
}

// The tick of an entry.
fn put_tick(out: &mut Vec<u8>, entry: &Table) -> Result<(), NoMemory>
    ensures { OnOk result (out.new.items
        ≡ out.old.items ++ tick_words (Some (table_view entry.now))) }
{
    put(out, " has ")?;
    put_words_there(out, Key::Tick, entry)
}

// That of the entry of a number, where it is there.
fn put_tick_of(out: &mut Vec<u8>, array: Key, number: usize, table: &Table) -> Result<(), NoMemory>
    requires { 1 ≤ number }
    ensures { OnOk result (out.new.items ≡ out.old.items
        ++ tick_words (entry_of_spec array number (table_view table.now))) }
{
    match entry_of(array, number, table) {
        Some(entry) => put_tick(out, entry),
        None => Ok(()),
    }
}

fn put_tick_end(out: &mut Vec<u8>, array: Key, number: usize, table: &Table) -> Result<(), NoMemory>
    requires { 1 ≤ number }
    ensures { OnOk result (out.new.items ≡ out.old.items
        ++ line_end (tick_words (entry_of_spec array number (table_view table.now)))) }
{
    put_tick_of(out, array, number, table)?;
    Ok(put(out, "\n")?)
}

// The entry of a number with its tick.
fn put_ticked(out: &mut Vec<u8>, array: Key, number: usize, table: &Table) -> Result<(), NoMemory>
    requires { 1 ≤ number }
    ensures { OnOk result (out.new.items ≡ out.old.items
        ++ ticked_line array number (table_view table.now)) }
{
    put_numbered(out, array, number, table)?;
    put_tick_end(out, array, number, table)
}

/// The entry before the one of this number, with its tick.
pub(crate) fn put_before(
    out: &mut Vec<u8>,
    array: Key,
    number: usize,
    table: &Table,
) -> Result<(), NoMemory>
    ensures { OnOk result (out.new.items ≡ out.old.items
        ++ before_line array number (table_view table.now)) }
{
    if 2 <= number {
        put_ticked(out, array, number - 1, table)
    } else {
        Ok(())
    }
}
