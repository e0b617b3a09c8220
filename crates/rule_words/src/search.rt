//! The entries of an array, and the first of them that a test passes.

ghost use Rattle.std.specs.Prelude.{◌≡◌, ◌≤◌, ℕ, Bool, map, length, IfOk, IfSome};
ghost use Rattle.toml.specs.Data.{Members};
ghost use Rattle.toml.specs.View.{table_view};
ghost use Rattle.rule_words.specs.Search.{entries_at as entries_at_spec, entries_of as entries_of_spec, first_entry as first_entry_spec, TellsAs};

use crate::keys::{Key, word_of};
use srp_base::NoMemory;
use std::alloc::Global;
use toml::Table;
use toml_rules::tables;

/// The entries of the array at a key; none where it is missing, or isn't an array of tables.
pub(crate) fn entries_at<'a>(
    alloc: Global,
    array: &str,
    table: &'a Table,
) -> Result<Vec<&'a Table>, NoMemory>
    ensures { IfOk result (λ v. map (λ t. table_view t.now) v.items
        ≡ entries_at_spec array.now (table_view table.now)) }
{
    match tables(alloc, table, array)? {
        Some(entries) => Ok(entries),
        None => Ok(Vec::new(alloc)),
    }
}

/// The entries of an array that is known.
pub(crate) fn entries_of(alloc: Global, array: Key, table: &Table) -> Result<Vec<&Table>, NoMemory>
    ensures { IfOk result (λ v. map (λ t. table_view t.now) v.items
        ≡ entries_of_spec array (table_view table.now)) }
{
    entries_at(alloc, word_of(array), table)
}

/// The number, counted from 1, of the first entry that a test passes, which is told its number too.
pub(crate) fn first_entry<F: Fn(usize, &Table) -> bool>(
    entries: &[&Table],
    test: F,
) -> Option<usize>
    requires { F.IsAlwaysCallable test }
    ensures first { (said : ℕ → Members → Bool) → TellsAs table_view (F.post test) said
        → result ≡ first_entry_spec said (map (λ t. table_view t.now) entries.now) }
    ensures within { IfSome result (λ n. (1 ≤ n) × (n ≤ length entries.now)) }
{
    for i in 0..entries.len() {
        if test(i + 1, entries[i]) {
            return Some(i + 1);
        }
    }
    None
}
