//! What is wrong at a table: a key that it may not have, or one whose value isn't what it has to
//! be.

ghost use Rattle.std.specs.Prelude.{◌≡◌, not, option_map, string_bytes, find, IfOk};
ghost use Rattle.std.specs.{Option.option_copied, BTreeMap.keys};
ghost use Rattle.toml.specs.View.{table_view};
ghost use Rattle.rule_words.specs.Faults.{apart_key as apart_key_spec, is_key_of as is_key_of_spec, is_right as is_right_spec, unknown_key as unknown_key_spec, wrong_key as wrong_key_spec};

use crate::forms::has_form;
use crate::keys::{Key, form_of, is_needed, word_of};
use crate::tables::{TableForm, keys_apart};
use srp_base::NoMemory;
use std::alloc::Global;
use toml::Table;
use toml_rules::value_at;

// Whether a word is that of one of these keys.
fn is_key_of(keys: &[Key], word: &str) -> bool
    ensures { result ≡ is_key_of_spec keys.now word.now }
{
    keys.iter().any(|key| word == word_of(*key))
}

// The first key of a table that is none of these, as the table has it.
fn first_unknown<'a>(table: &'a Table, known: &[Key]) -> Option<&'a String>
    ensures { option_copied result
        ≡ find (λ k. not (is_key_of_spec known.now (string_bytes k))) (keys table.now) }
{
    table.keys().find(|key| !is_key_of(known, key.as_str()))
}

/// The first key of a table that is none of these.
pub(crate) fn unknown_key<'a>(table: &'a Table, known: &[Key]) -> Option<&'a str>
    ensures { option_copied result ≡ unknown_key_spec known.now (table_view table.now) }
{
    match first_unknown(table, known) {
        Some(key) => Some(key.as_str()),
        None => None,
    }
}

// Whether there is what has to be at a key.
fn is_right(alloc: Global, key: Key, table: &Table) -> Result<bool, NoMemory>
    ensures { IfOk result (λ b. b ≡ is_right_spec key (table_view table.now)) }
{
    match value_at(table, word_of(key)) {
        Some(_) => has_form(alloc, form_of(key), table, word_of(key)),
        None => Ok(!is_needed(key)),
    }
}

/// The first of these keys at which there isn't what has to be.
pub(crate) fn wrong_key(alloc: Global, table: &Table, keys: &[Key]) -> Result<Option<Key>, NoMemory>
    ensures { IfOk result (λ found. found ≡ wrong_key_spec keys.now (table_view table.now)) }
{
    for key in keys {
        if !is_right(alloc, *key, table)? {
            return Ok(Some(*key));
        }
    }
    Ok(None)
}

/// The key of this word that goes with the other form of a plan's stream.
pub(crate) fn apart_key(form: TableForm, word: &str) -> Option<Key>
    ensures { result ≡ apart_key_spec form word.now }
{
    for key in keys_apart(form) {
        if word == word_of(*key) {
            return Some(*key);
        }
    }
    None
}
