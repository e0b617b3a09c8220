//! Rules on the entries of a file, one after the other: the words of definitions as code.

ghost use Rattle.std.specs.Prelude.{◌≡◌, ◌≤◌, ℕ, Bool, List, [], map, length, Option, IfSome};
ghost use Rattle.srp_base.specs.Firsts.{first_where as first_where_spec};
ghost use Rattle.toml.specs.Data.{Members};
ghost use Rattle.toml.specs.View.{table_view};
ghost use Rattle.toml_rules.specs.Calls.{TestsAs, KeysAs, ReadsAs};
ghost use Rattle.toml_rules.specs.Rules.{Reads, each_entry as each_entry_spec, each_within as each_within_spec, first_fall as first_fall_spec};

use crate::rules::{RuleErr, fails_at};
use srp_base::NoMemory;
use std::alloc::Global;
use toml::Table;

/// The number, counted from 1, of the first entry that a test passes, seen with those before it.
pub fn first_where<T, F: Fn(&[T], &T) -> bool>(entries: &[T], test: F) -> Option<usize>
    requires { F.IsAlwaysCallable test }
    ensures first { (said : List T → T → Bool) → TestsAs (F.post test) said
        → result ≡ first_where_spec said [] entries.now }
    ensures within { IfSome result (λ n. (1 ≤ n) × (n ≤ length entries.now)) }
{
    for (i, x) in entries.iter().enumerate() {
        if test(&entries[..i], x) {
            return Some(i + 1);
        }
    }
    None
}

/// The number, counted from 1, of the first entry whose key is below that of the entry before it.
pub fn first_fall<T, F: Fn(&T) -> u64>(entries: &[T], key: F) -> Option<usize>
    requires { F.IsAlwaysCallable key }
    ensures { (said : T → ℕ) → KeysAs (F.post key) said
        → result ≡ first_fall_spec 1 0 (map said entries.now) }
{
    let mut before = 0;
    for (i, x) in entries.iter().enumerate() {
        let now = key(x);
        if now < before {
            return Some(i + 1);
        }
        before = now;
    }
    None
}

/// A rule on each entry, the entries numbered from 1: what all of them are read as, or the first
/// that the rule refuses.
///
/// # Errors
///
/// `NoMemory` beside the broken rule.
pub fn each_entry<T, B: Drop, F: Fn(usize, &T) -> Result<Option<B>, NoMemory>>(
    alloc: Global,
    rule: u8,
    entries: &[T],
    read: F,
) -> Result<Vec<B>, RuleErr>
    requires { F.IsAlwaysCallable read }
    ensures { (said : ℕ → T → Option B) → ReadsAs (λ x. x) (F.post read) said
        → Reads (λ v. v.items) result (each_entry_spec rule said 1 entries.now) }
{
    let mut values = Vec::new(alloc);
    for (i, x) in entries.iter().enumerate() {
        let value = read(i + 1, x)?;
        match value {
            Some(value) => values.push(value)?,
            None => return Err(fails_at(rule, i + 1)),
        }
    }
    Ok(values)
}

/// `each_entry` on tables, which contracts see as their members.
///
/// # Errors
///
/// `NoMemory` beside the broken rule.
pub fn each_table<B: Drop, F: Fn(usize, &Table) -> Result<Option<B>, NoMemory>>(
    alloc: Global,
    rule: u8,
    tables: &[&Table],
    read: F,
) -> Result<Vec<B>, RuleErr>
    requires { F.IsAlwaysCallable read }
    ensures { (said : ℕ → Members → Option B) → ReadsAs table_view (F.post read) said
        → Reads (λ v. v.items) result (each_entry_spec rule said 1
        (map (λ t. table_view t.now) tables.now)) }
{
    each_entry(alloc, rule, tables, |n, table| read(n, table))
}

/// A rule on each entry as `each_entry`, whose values may weigh so much together: it refuses the
/// first entry too whose value weighs more than what the values before it left.
///
/// # Errors
///
/// `NoMemory` beside the broken rule.
pub fn each_within<T, B: Drop, W: Fn(&B) -> u64, F: Fn(usize, &T) -> Result<Option<B>, NoMemory>>(
    alloc: Global,
    rule: u8,
    most: u64,
    entries: &[T],
    weigh: W,
    read: F,
) -> Result<Vec<B>, RuleErr>
    requires weigh { W.IsAlwaysCallable weigh }
    requires read { F.IsAlwaysCallable read }
    ensures { (weight : B → ℕ) (said : ℕ → T → Option B) → KeysAs (W.post weigh) weight
        → ReadsAs (λ x. x) (F.post read) said
        → Reads (λ v. v.items) result (each_within_spec rule weight said 1 most entries.now) }
{
    let mut values = Vec::new(alloc);
    let mut room = most;
    for (i, x) in entries.iter().enumerate() {
        let value = read(i + 1, x)?;
        let Some(value) = value else {
            return Err(fails_at(rule, i + 1));
        };
        let weight = weigh(&value);
        if room < weight {
            return Err(fails_at(rule, i + 1));
        }
        room -= weight;
        values.push(value)?;
    }
    Ok(values)
}

/// `each_within` on tables, which contracts see as their members.
///
/// # Errors
///
/// `NoMemory` beside the broken rule.
pub fn each_table_within<
    B: Drop,
    W: Fn(&B) -> u64,
    F: Fn(usize, &Table) -> Result<Option<B>, NoMemory>,
>(
    alloc: Global,
    rule: u8,
    most: u64,
    tables: &[&Table],
    weigh: W,
    read: F,
) -> Result<Vec<B>, RuleErr>
    requires weigh { W.IsAlwaysCallable weigh }
    requires read { F.IsAlwaysCallable read }
    ensures { (weight : B → ℕ) (said : ℕ → Members → Option B) → KeysAs (W.post weigh) weight
        → ReadsAs table_view (F.post read) said
        → Reads (λ v. v.items) result (each_within_spec rule weight said 1 most
        (map (λ t. table_view t.now) tables.now)) }
{
    each_within(alloc, rule, most, tables, weigh, |n, table| read(n, table))
}
