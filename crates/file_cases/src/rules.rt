//! Fields of a table, entries one by one, and rules that fail with an entry.

use srp_base::NoMemory;
use std::alloc::Global;
use toml::Table;
use toml_rules::{
    RuleErr, each_entry, each_table, each_within, fails_at, first_fall, first_where, has_only,
    holds, needs, needs_tables, no_entry, number, number_or, read_shares, tables, text, truth_or,
    value_at, within,
};

/// A number, one below 0, a text, one that is no integer, a truth value, and two arrays of two
/// tables.
const FIELDS: &str = "a = 7\nb = -1\nc = 'x'\nd = 1.5\nt = true\n\
    i = [{ n = 7, m = 1 }, { n = 8 }]\n[[e]]\nf = 1\n[[e]]\n";

fn has_numbers(table: &Table) -> bool {
    number(table, "a") == Some(7)
        && number(table, "b").is_none()
        && number(table, "d").is_none()
        && number(table, "z").is_none()
        && number_or(table, "z", 3) == Some(3)
        && number_or(table, "c", 3).is_none()
}

fn has_texts(table: &Table) -> bool {
    text(table, "c") == Some("x") && text(table, "a").is_none()
}

fn has_truths(table: &Table) -> bool {
    truth_or(table, "t", false) == Some(true)
        && truth_or(table, "z", false) == Some(false)
        && truth_or(table, "a", false).is_none()
}

fn has_values(table: &Table) -> bool {
    value_at(table, "a").is_some() && value_at(table, "z").is_none()
}

fn has_only_its_keys(table: &Table) -> bool {
    has_only(table, &["a", "b", "c", "d", "t", "i", "e", "y"])
        && !has_only(table, &["a", "b", "c", "d", "t", "i"])
}

fn has_fields(table: &Table) -> bool {
    has_numbers(table)
        && has_texts(table)
        && has_truths(table)
        && has_values(table)
        && has_only_its_keys(table)
}

// Who owns a table does nothing else, so that its proof is short.
fn reads_fields(alloc: Global) -> bool {
    match toml::table_from_str(alloc, FIELDS) {
        Ok(table) => has_fields(&table),
        Err(_) => false,
    }
}

#[test]
fn a_field_is_of_one_kind(rt: HostRuntime) {
    assert!(rt; reads_fields(rt.alloc()));
}

#[test]
fn a_number_lies_within_its_range(rt: HostRuntime) {
    assert!(rt; within(7, 8, Some(7)) == Some(7) && within(8, 9, Some(7)).is_none());
}

/// Whether an array of tables has so many or, with None, is something else.
fn has_tables(alloc: Global, table: &Table, key: &str, count: Option<usize>) -> bool {
    match tables(alloc, table, key) {
        Ok(Some(found)) => count == Some(found.len()),
        Ok(None) => count.is_none(),
        Err(_) => false,
    }
}

const WHOLE: RuleErr = RuleErr::Rule { rule: 3, entry: 0 };

/// Whether an array that rule 3 needs has so many tables or, with None, rule 3 fails as a whole.
fn has_needed(alloc: Global, table: &Table, key: &str, count: Option<usize>) -> bool {
    match needs_tables(alloc, 3, table, key) {
        Ok(found) => count == Some(found.len()),
        Err(error) => count.is_none() && error == WHOLE,
    }
}

/// Whether an array of tables may be missing, and may be nothing else.
fn has_arrays(alloc: Global, table: &Table) -> bool {
    has_tables(alloc, table, "e", Some(2))
        && has_tables(alloc, table, "z", Some(0))
        && has_tables(alloc, table, "a", None)
}

fn has_needed_arrays(alloc: Global, table: &Table) -> bool {
    has_needed(alloc, table, "e", Some(2))
        && has_needed(alloc, table, "z", Some(0))
        && has_needed(alloc, table, "a", None)
}

/// The numbers at a key of tables, each of which has to have one.
fn numbers_at(alloc: Global, entries: &[&Table], key: &str) -> Result<Vec<u64>, RuleErr> {
    each_table(alloc, 4, entries, |_, table| Ok(number(table, key)))
}

/// Whether the numbers at a key of two tables are read as these.
fn reads_tables(alloc: Global, entries: &[&Table], key: &str, wanted: &[u64]) -> bool {
    match numbers_at(alloc, entries, key) {
        Ok(found) => found.as_slice() == wanted,
        Err(_) => false,
    }
}

/// Whether the second of two tables lacks the number at a key.
fn lacks_second(alloc: Global, entries: &[&Table], key: &str) -> bool {
    numbers_at(alloc, entries, key).err() == Some(RuleErr::Rule { rule: 4, entry: 2 })
}

fn has_entries(alloc: Global, table: &Table) -> bool {
    match needs_tables(alloc, 3, table, "i") {
        Ok(entries) => {
            reads_tables(alloc, &entries, "n", &[7, 8]) && lacks_second(alloc, &entries, "m")
        }
        Err(_) => false,
    }
}

fn has_all_arrays(alloc: Global, table: &Table) -> bool {
    has_arrays(alloc, table) && has_needed_arrays(alloc, table) && has_entries(alloc, table)
}

// Who owns a table does nothing else, so that its proof is short.
fn reads_arrays(alloc: Global) -> bool {
    match toml::table_from_str(alloc, FIELDS) {
        Ok(table) => has_all_arrays(alloc, &table),
        Err(_) => false,
    }
}

#[test]
fn an_array_of_tables_is_counted_and_read(rt: HostRuntime) {
    assert!(rt; reads_arrays(rt.alloc()));
}

/// Whether the shares of a table without any are 75 percent and 0.
fn has_default_shares(table: &Table) -> bool {
    match read_shares(table) {
        Some((a, b)) => a.get() == 75 && b.get() == 0,
        None => false,
    }
}

/// Whether a text is a table that has just the shares by default, or has them not.
fn reads_shares(alloc: Global, table: &str, by_default: bool) -> bool {
    match toml::table_from_str(alloc, table) {
        Ok(table) => has_default_shares(&table) == by_default,
        Err(_) => false,
    }
}

#[test]
fn shares_have_their_defaults(rt: HostRuntime) {
    assert!(rt; reads_shares(rt.alloc(), "delta_b = 15\n", false));
    assert!(rt; reads_shares(rt.alloc(), "", true));
}

const LAST: RuleErr = RuleErr::Rule {
    rule: 3,
    entry: 4_294_967_295,
};

fn values_are_needed() -> bool {
    needs(3, Some(7u64)) == Ok(7) && needs::<u64>(3, None) == Err(WHOLE)
}

fn truths_hold() -> bool {
    holds(3, true).is_ok() && holds(3, false) == Err(WHOLE)
}

fn entries_fail() -> bool {
    no_entry(3, None).is_ok() && no_entry(3, Some(2)).is_err() && fails_at(3, 4_294_967_296) == LAST
}

#[test]
fn a_rule_fails_as_a_whole_or_with_its_entry(rt: HostRuntime) {
    assert!(rt; values_are_needed() && truths_hold() && entries_fail());
}

const NUMBERS: [u64; 5] = [3, 1, 5, 1, 4];

fn odd(n: u64) -> Option<u64> {
    if n % 2 == 1 { Some(n) } else { None }
}

#[test]
fn the_first_entry_of_a_kind_is_named(rt: HostRuntime) {
    let second_1 = first_where(&NUMBERS, |earlier, n| earlier.len() > 1 && *n == 1);
    assert!(rt; second_1 == Some(4));
    assert!(rt; first_fall(&NUMBERS, |n| *n) == Some(2));
}

/// The numbers, of which each has to be odd.
fn odd_ones(alloc: Global, numbers: &[u64]) -> Result<Vec<u64>, RuleErr> {
    each_entry(alloc, 9, numbers, |_, n| Ok(odd(*n)))
}

/// The numbers, of which each has to be odd, and whose sum is bounded.
fn light_ones(alloc: Global, most: u64, numbers: &[u64]) -> Result<Vec<u64>, RuleErr> {
    each_within(alloc, 9, most, numbers, |n| *n, |_, n| Ok(odd(*n)))
}

/// Whether the first four numbers were read.
fn are_four(read: Result<Vec<u64>, RuleErr>) -> bool {
    match read {
        Ok(found) => found.as_slice() == &NUMBERS[..4],
        Err(_) => false,
    }
}

/// Whether rule 9 failed at an entry.
fn fails_with(read: Result<Vec<u64>, RuleErr>, entry: u32) -> bool {
    read.err() == Some(RuleErr::Rule { rule: 9, entry })
}

#[test]
fn entries_are_read_one_by_one(rt: HostRuntime) {
    assert!(rt; fails_with(odd_ones(rt.alloc(), &NUMBERS), 5));
    assert!(rt; are_four(odd_ones(rt.alloc(), &NUMBERS[..4])));
}

#[test]
fn entries_weigh_no_more_than_allowed(rt: HostRuntime) {
    assert!(rt; fails_with(light_ones(rt.alloc(), 9, &NUMBERS), 4));
    assert!(rt; are_four(light_ones(rt.alloc(), 10, &NUMBERS[..4])));
}
