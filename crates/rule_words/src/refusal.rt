//! What is said of the first rule that a file breaks.

ghost use Rattle.std.specs.Prelude.{◌≡◌, ◌≤◌, ◌++◌, flat_map, option_map, option_and_then, Some, IfOk, OnOk};
ghost use Rattle.std.specs.Option.{option_copied, option_or};
ghost use Rattle.toml.specs.View.{table_view};
ghost use Rattle.file_places.specs.Entries.{line_of_key as line_of_key_spec};
ghost use Rattle.rule_words.specs.Asked.{array_of as array_of_spec};
ghost use Rattle.rule_words.specs.Faults.{apart_key as apart_key_spec, stray_key as stray_key_spec, wrong_key as wrong_key_spec};
ghost use Rattle.rule_words.specs.Keys.{word_of as word_of_spec};
ghost use Rattle.rule_words.specs.Lines.{line_words, there_line, entry_of as entry_of_spec};
ghost use Rattle.rule_words.specs.Matters.{form_asked as form_asked_spec};
ghost use Rattle.rule_words.specs.Tables.{keys_of as keys_of_spec};
ghost use Rattle.rule_words.specs.Refusal.{apart_line, apart_words as apart_words_spec, broken_text, fault_line, file_lines, first_word as first_word_spec, word_at_fault as word_at_fault_spec, wrong_line, listed, stray_lines, stray_words, known_words, unknown_line, value_lines, fault_lines, table_lines, lines_of_entry, lines_in_array, place_lines, refusal_text as refusal_text_spec};

use crate::asked::array_of;
use crate::faults::{apart_key, unknown_key, wrong_key};
use crate::forms::put_form;
use crate::keys::{Key, form_of, word_of};
use crate::kinds::FileKind;
use crate::lines::{
    Broken, entry_of, put_asks, put_each_there, put_entry, put_line_at, put_rule, put_there,
};
use crate::matters::{form_asked, has_domains, keys_asked};
use crate::others::put_others;
use crate::pieces::put;
use crate::tables::{TableForm, is_closed, keys_of, keys_together};
use crate::values::put_quoted;
use file_places::{line_of_key, put_line};
use srp_base::NoMemory;
use std::alloc::{AllocError, Global};
use toml::Table;

// A key and what its value has to be.
fn put_wrong(out: &mut Vec<u8>, key: Key) -> Result<(), AllocError>
    ensures { OnOk result (out.new.items ≡ out.old.items ++ wrong_line key) }
{
    put(out, "key: ")?;
    put(out, word_of(key))?;
    put(out, " has to be ")?;
    put_form(out, form_of(key))?;
    put(out, "\n")
}

fn put_listed(out: &mut Vec<u8>, key: Key) -> Result<(), AllocError>
    ensures { OnOk result (out.new.items ≡ out.old.items ++ listed key) }
{
    put(out, " ")?;
    put(out, word_of(key))
}

// The words of these keys.
fn put_list(out: &mut Vec<u8>, keys: &[Key]) -> Result<(), AllocError>
    ensures { OnOk result (out.new.items ≡ out.old.items ++ flat_map listed keys.now) }
{
    for key in keys {
        put_listed(out, *key)?;
    }
    Ok(())
}

// A key that a table may not have, by itself.
fn put_stray(out: &mut Vec<u8>, word: &str) -> Result<(), NoMemory>
    ensures { OnOk result (out.new.items ≡ out.old.items ++ stray_words word.now) }
{
    put(out, "key: ")?;
    put_quoted(out, word.as_bytes())
}

// The keys that it may have.
fn put_known(out: &mut Vec<u8>, known: &[Key]) -> Result<(), AllocError>
    ensures { OnOk result (out.new.items ≡ out.old.items ++ known_words known.now) }
{
    put(out, " is unknown; known are")?;
    put_list(out, known)?;
    put(out, "\n")
}

// A key that a table may not have.
fn put_unknown(out: &mut Vec<u8>, word: &str, known: &[Key]) -> Result<(), NoMemory>
    ensures { OnOk result (out.new.items ≡ out.old.items ++ unknown_line word.now known.now) }
{
    put_stray(out, word)?;
    Ok(put_known(out, known)?)
}

// What a key goes with that a plan's stream of this form may not have.
fn apart_words(form: TableForm) -> &'static str
    ensures { result.now ≡ apart_words_spec form }
{
    match form {
        TableForm::AudioStream => " doesn't go with channels",
        _ => " goes with channels, and not with octets",
    }
}

// Such a key.
fn put_apart(out: &mut Vec<u8>, form: TableForm, key: Key) -> Result<(), AllocError>
    ensures { OnOk result (out.new.items ≡ out.old.items ++ apart_line form key) }
{
    put(out, "key: ")?;
    put(out, word_of(key))?;
    put(out, apart_words(form))?;
    put(
        out,
        ": a stream has either octets, or channels with rate_khz\n",
    )
}

// Such a key, and what stands there.
fn put_apart_value(
    out: &mut Vec<u8>,
    form: TableForm,
    table: &Table,
    key: Key,
) -> Result<(), NoMemory>
    ensures { OnOk result (out.new.items ≡ out.old.items
        ++ apart_line form key ++ there_line (table_view table.now) key) }
{
    put_apart(out, form, key)?;
    put_there(out, table, key)
}

// A key that a table of this form may not have, and why.
fn put_stray_key(
    out: &mut Vec<u8>,
    form: TableForm,
    table: &Table,
    word: &str,
) -> Result<(), NoMemory>
    ensures { OnOk result (out.new.items ≡ out.old.items
        ++ stray_lines form (table_view table.now) word.now (apart_key_spec form word.now)) }
{
    match apart_key(form, word) {
        Some(key) => put_apart_value(out, form, table, key),
        None => put_unknown(out, word, keys_of(form)),
    }
}

// The first key of a table that it may not have.
fn stray_key(form: TableForm, table: &Table) -> Option<&str>
    ensures { option_copied result ≡ stray_key_spec form (table_view table.now) }
{
    if is_closed(form) {
        unknown_key(table, keys_of(form))
    } else {
        None
    }
}

// A key with what it has to be and what stands there.
fn put_wrong_value(out: &mut Vec<u8>, table: &Table, key: Key) -> Result<(), NoMemory>
    ensures { OnOk result (out.new.items
        ≡ out.old.items ++ wrong_line key ++ there_line (table_view table.now) key) }
{
    put_wrong(out, key)?;
    put_there(out, table, key)
}

// The key of a table whose value isn't right, or those that may be wrong together.
fn put_values(out: &mut Vec<u8>, form: TableForm, table: &Table) -> Result<(), NoMemory>
    ensures { OnOk result (out.new.items ≡ out.old.items
        ++ value_lines form (table_view table.now)
        (wrong_key_spec (keys_of_spec form) (table_view table.now))) }
{
    let alloc = *out.allocator();
    match wrong_key(alloc, table, keys_of(form))? {
        Some(key) => put_wrong_value(out, table, key),
        None => put_each_there(out, table, keys_together(form)),
    }
}

// What is wrong at a table that has to have a form.
fn put_fault(out: &mut Vec<u8>, form: TableForm, table: &Table) -> Result<(), NoMemory>
    ensures { OnOk result (out.new.items ≡ out.old.items
        ++ fault_lines form (table_view table.now) (stray_key_spec form (table_view table.now))) }
{
    match stray_key(form, table) {
        Some(word) => put_stray_key(out, form, table, word),
        None => put_values(out, form, table),
    }
}

// What is wrong at the table of which a rule speaks.
fn put_table(
    out: &mut Vec<u8>,
    broken: Broken,
    domains: bool,
    table: &Table,
) -> Result<(), NoMemory>
    ensures { OnOk result (out.new.items
        ≡ out.old.items ++ table_lines broken domains (table_view table.now)) }
{
    match form_asked(broken.kind, domains, broken.rule, broken.entry, table) {
        Some(form) => put_fault(out, form, table),
        None => put_each_there(out, table, keys_asked(broken.kind, broken.rule, table)),
    }
}

// An entry with the line in which it begins, and what is wrong at it.
fn put_entry_and_table(
    out: &mut Vec<u8>,
    broken: Broken,
    domains: bool,
    array: Key,
    table: &Table,
    octets: &[u8],
) -> Result<(), NoMemory>
    ensures { OnOk result (out.new.items ≡ out.old.items
        ++ lines_of_entry broken domains array octets.now (Some (table_view table.now))) }
{
    put_entry(out, array, broken.entry, table)?;
    put_line_at(out, array, broken.entry as usize, octets)?;
    put_table(out, broken, domains, table)
}

// The entry of an array, if it is there.
fn put_in_array(
    out: &mut Vec<u8>,
    broken: Broken,
    domains: bool,
    array: Key,
    table: &Table,
    octets: &[u8],
) -> Result<(), NoMemory>
    requires { 1 ≤ broken.entry }
    ensures { OnOk result (out.new.items ≡ out.old.items
        ++ lines_of_entry broken domains array octets.now
        (entry_of_spec array broken.entry (table_view table.now))) }
{
    match entry_of(array, broken.entry as usize, table) {
        Some(found) => put_entry_and_table(out, broken, domains, array, found, octets),
        None => Ok(()),
    }
}

// The entry of the array of which a rule speaks.
fn put_of_array(
    out: &mut Vec<u8>,
    broken: Broken,
    table: &Table,
    octets: &[u8],
) -> Result<(), NoMemory>
    requires { 1 ≤ broken.entry }
    ensures { OnOk result (out.new.items ≡ out.old.items
        ++ lines_in_array broken (table_view table.now) octets.now (array_of_spec broken.rule)) }
{
    match array_of(broken.rule) {
        Some(array) => put_in_array(out, broken, has_domains(table), array, table, octets),
        None => Ok(()),
    }
}

// The word of the first of some keys.
fn first_word(keys: &[Key]) -> Option<&'static str>
    ensures { option_copied result ≡ first_word_spec keys.now }
{
    match keys {
        [key, ..] => Some(word_of(*key)),
        [] => None,
    }
}

// The word of the first of the keys of a form whose value isn't right.
fn wrong_word(
    alloc: Global,
    form: TableForm,
    table: &Table,
) -> Result<Option<&'static str>, NoMemory>
    ensures { IfOk result (λ word. option_copied word
        ≡ option_map word_of_spec (wrong_key_spec (keys_of_spec form) (table_view table.now))) }
{
    match wrong_key(alloc, table, keys_of(form))? {
        Some(key) => Ok(Some(word_of(key))),
        None => Ok(None),
    }
}

// The first key at fault of a file that has to have a form.
fn word_of_form<'a>(
    alloc: Global,
    form: TableForm,
    table: &'a Table,
) -> Result<Option<&'a str>, NoMemory>
    ensures { IfOk result (λ word. option_copied word
        ≡ option_or (stray_key_spec form (table_view table.now))
        (option_map word_of_spec (wrong_key_spec (keys_of_spec form) (table_view table.now)))) }
{
    match stray_key(form, table) {
        Some(word) => Ok(Some(word)),
        None => wrong_word(alloc, form, table),
    }
}

// The first key at fault of a file.
fn word_at_fault<'a>(
    alloc: Global,
    broken: Broken,
    domains: bool,
    table: &'a Table,
) -> Result<Option<&'a str>, NoMemory>
    ensures { IfOk result (λ word. option_copied word
        ≡ word_at_fault_spec broken (table_view table.now)
        (form_asked_spec broken.kind domains broken.rule broken.entry (table_view table.now))) }
{
    match form_asked(broken.kind, domains, broken.rule, broken.entry, table) {
        Some(form) => word_of_form(alloc, form, table),
        None => Ok(first_word(keys_asked(broken.kind, broken.rule, table))),
    }
}

// The line in which a key of the file stands, where it is known.
fn put_line_of_key(out: &mut Vec<u8>, word: &str, octets: &[u8]) -> Result<(), NoMemory>
    ensures { OnOk result (out.new.items
        ≡ out.old.items ++ line_words (line_of_key_spec word.now octets.now)) }
{
    let alloc = *out.allocator();
    match line_of_key(alloc, octets, word)? {
        Some(line) => put_line(out, line),
        None => Ok(()),
    }
}

// The line in which the first key at fault of a file stands.
fn put_fault_line(
    out: &mut Vec<u8>,
    broken: Broken,
    domains: bool,
    table: &Table,
    octets: &[u8],
) -> Result<(), NoMemory>
    ensures { OnOk result (out.new.items
        ≡ out.old.items ++ fault_line broken domains (table_view table.now) octets.now) }
{
    let alloc = *out.allocator();
    match word_at_fault(alloc, broken, domains, table)? {
        Some(word) => put_line_of_key(out, word, octets),
        None => Ok(()),
    }
}

// What is wrong in a file as a whole.
fn put_file(
    out: &mut Vec<u8>,
    broken: Broken,
    domains: bool,
    table: &Table,
    octets: &[u8],
) -> Result<(), NoMemory>
    ensures { OnOk result (out.new.items
        ≡ out.old.items ++ file_lines broken domains (table_view table.now) octets.now) }
{
    put_fault_line(out, broken, domains, table, octets)?;
    put_table(out, broken, domains, table)
}

// What is wrong in a file, at its place.
fn put_place(
    out: &mut Vec<u8>,
    broken: Broken,
    table: &Table,
    octets: &[u8],
) -> Result<(), NoMemory>
    ensures { OnOk result (out.new.items
        ≡ out.old.items ++ place_lines broken (table_view table.now) octets.now) }
{
    if broken.entry == 0 {
        put_file(out, broken, has_domains(table), table, octets)
    } else {
        put_of_array(out, broken, table, octets)
    }
}

// The whole text.
fn put_refusal(
    out: &mut Vec<u8>,
    broken: Broken,
    table: &Table,
    octets: &[u8],
) -> Result<(), NoMemory>
    ensures { OnOk result (out.new.items
        ≡ out.old.items ++ broken_text broken (table_view table.now) octets.now) }
{
    put_rule(out, broken)?;
    put_asks(out, broken)?;
    put_place(out, broken, table, octets)?;
    put_others(out, broken, table, octets)
}

/// What is said of a rule that a file of this kind breaks first at this entry: what the rule asks,
/// the entry with its array and its name, the line of the file in which it begins, or in which the
/// key of the file stands, the key that breaks the rule, what has to stand there, and what does. The
/// entry 0 is the file as a whole. The table is that of the octets.
pub fn refusal_text(
    alloc: Global,
    kind: FileKind,
    rule: u8,
    entry: u32,
    table: &Table,
    octets: &[u8],
) -> Result<Vec<u8>, NoMemory>
    ensures { IfOk result (λ text. text.items
        ≡ refusal_text_spec kind rule entry (table_view table.now) octets.now) }
{
    let mut out = Vec::new(alloc);
    put_refusal(&mut out, Broken { kind, rule, entry }, table, octets)?;
    Ok(out)
}
