//! The other side of a refusal: what stands elsewhere in the file, and the entry doesn't go with.

ghost use Rattle.std.specs.Prelude.{◌≡◌, ◌≤◌, ◌++◌, map, codes, Some, OnOk};
ghost use Rattle.std.specs.Option.{option_copied};
ghost use Rattle.toml.specs.View.{table_view};
ghost use Rattle.toml_rules.specs.Fields.{text as text_spec};
ghost use Rattle.rule_words.specs.Alike.{earlier_alike as earlier_alike_spec};
ghost use Rattle.rule_words.specs.Asked.{array_of as array_of_spec};
ghost use Rattle.rule_words.specs.Lines.{entry_of as entry_of_spec};
ghost use Rattle.rule_words.specs.Others.{alike_line, earlier_line, has_end as has_end_spec, link_begin, link_begins, links_line, links_lines, number_words, numbers_words, other_lines, others_at, others_in_array, others_of_entry, others_of_file};
ghost use Rattle.rule_words.specs.Search.{entries_of as entries_of_spec};

use crate::alike::{alike_words, earlier_alike, is_same_text};
use crate::asked::array_of;
use crate::events::{put_event, put_unknown};
use crate::joined::put_already;
use crate::keys::{Key, word_of};
use crate::lines::{Broken, entry_of, put_line_beside};
use crate::listeners::{put_nameless, put_plan_stream};
use crate::misplaced::{put_all_misplaced, put_stream, put_want};
use crate::moments::{put_before, put_copy, put_past};
use crate::numbered::put_numbered_line;
use crate::pieces::{put, put_number};
use crate::search::entries_of;
use srp_base::NoMemory;
use toml::Table;
use toml_rules::text;

// The earlier entry that has what the entry of a number has too.
fn put_earlier(
    out: &mut Vec<u8>,
    broken: Broken,
    array: Key,
    table: &Table,
    entry: &Table,
) -> Result<(), NoMemory>
    requires { 1 ≤ broken.entry }
    ensures { OnOk result (out.new.items ≡ out.old.items
        ++ earlier_line broken.rule array broken.entry (table_view table.now)
        (table_view entry.now)) }
{
    let alloc = *out.allocator();
    let entries = entries_of(alloc, array, table)?;
    match earlier_alike(broken.rule, broken.entry as usize, entry, &entries) {
        Some(number) => put_numbered_line(out, array, number, table, alike_words(broken.rule)),
        None => Ok(()),
    }
}

// Whether an end of a link has this name.
fn has_end(name: &str, link: &Table) -> bool
    ensures { result ≡ has_end_spec name.now (table_view link.now) }
{
    is_same_text(text(link, "a"), Some(name)) || is_same_text(text(link, "b"), Some(name))
}

// The number of a link that has such an end.
fn put_link_number(
    out: &mut Vec<u8>,
    name: &str,
    number: usize,
    link: &Table,
) -> Result<(), NoMemory>
    ensures { OnOk result (out.new.items
        ≡ out.old.items ++ number_words name.now number (table_view link.now)) }
{
    if !has_end(name, link) {
        return Ok(());
    }
    put(out, " ")?;
    Ok(put_number(out, number as u64)?)
}

// The numbers of these links that do.
fn put_link_numbers(out: &mut Vec<u8>, name: &str, links: &[&Table]) -> Result<(), NoMemory>
    ensures { OnOk result (out.new.items ≡ out.old.items
        ++ numbers_words name.now 1 (map (λ t. table_view t.now) links.now)) }
{
    for i in 0..links.len() {
        put_link_number(out, name, i + 1, links[i])?;
    }
    Ok(())
}

// The links of a station of this name, of these links.
fn put_links_line(out: &mut Vec<u8>, links: &[&Table], name: &str) -> Result<(), NoMemory>
    ensures { OnOk result (out.new.items ≡ out.old.items
        ++ links_line (map (λ t. table_view t.now) links.now) name.now) }
{
    put(out, "other: its links are [[link]]")?;
    put_link_numbers(out, name, links)?;
    Ok(put(out, "\n")?)
}

// The line in which a link begins that has such an end.
fn put_link_begin(
    out: &mut Vec<u8>,
    octets: &[u8],
    name: &str,
    number: usize,
    link: &Table,
) -> Result<(), NoMemory>
    ensures { OnOk result (out.new.items
        ≡ out.old.items ++ link_begin octets.now name.now number (table_view link.now)) }
{
    if has_end(name, link) {
        put_line_beside(out, word_of(Key::Links), number, octets)
    } else {
        Ok(())
    }
}

// Those of these links that do.
fn put_link_begins(
    out: &mut Vec<u8>,
    octets: &[u8],
    name: &str,
    links: &[&Table],
) -> Result<(), NoMemory>
    ensures { OnOk result (out.new.items ≡ out.old.items
        ++ link_begins octets.now name.now 1 (map (λ t. table_view t.now) links.now)) }
{
    for i in 0..links.len() {
        put_link_begin(out, octets, name, i + 1, links[i])?;
    }
    Ok(())
}

// The links of a station of this name, of these links, with the lines in which they begin.
fn put_links_lines(
    out: &mut Vec<u8>,
    octets: &[u8],
    links: &[&Table],
    name: &str,
) -> Result<(), NoMemory>
    ensures { OnOk result (out.new.items ≡ out.old.items
        ++ links_lines octets.now (map (λ t. table_view t.now) links.now) (Some name.now)) }
{
    put_links_line(out, links, name)?;
    put_link_begins(out, octets, name, links)
}

// Those of a file.
fn put_links_of(out: &mut Vec<u8>, table: &Table, octets: &[u8], name: &str) -> Result<(), NoMemory>
    ensures { OnOk result (out.new.items ≡ out.old.items
        ++ links_lines octets.now (entries_of_spec Key.Links (table_view table.now))
        (Some name.now)) }
{
    let alloc = *out.allocator();
    let links = entries_of(alloc, Key::Links, table)?;
    put_links_lines(out, octets, &links, name)
}

fn put_links(out: &mut Vec<u8>, table: &Table, octets: &[u8], node: &Table) -> Result<(), NoMemory>
    ensures { OnOk result (out.new.items ≡ out.old.items
        ++ links_lines octets.now (entries_of_spec Key.Links (table_view table.now))
        (text_spec (codes "name") (table_view node.now))) }
{
    match text(node, "name") {
        Some(name) => put_links_of(out, table, octets, name),
        None => Ok(()),
    }
}

// The other side of an entry that breaks a rule.
fn put_others_at(
    out: &mut Vec<u8>,
    broken: Broken,
    array: Key,
    table: &Table,
    octets: &[u8],
    entry: &Table,
) -> Result<(), NoMemory>
    requires { 1 ≤ broken.entry }
    ensures { OnOk result (out.new.items ≡ out.old.items
        ++ others_at broken array (table_view table.now) octets.now (table_view entry.now)) }
{
    match broken.rule {
        6 | 7 | 11 | 17 | 18 | 52 => put_earlier(out, broken, array, table, entry),
        9 | 19 | 24 => put_unknown(out, broken, table, entry),
        12 => put_already(out, broken.entry as usize, table, entry),
        14 => put_links(out, table, octets, entry),
        16 => Ok(put_stream(out, entry)?),
        20 | 41 => put_past(out, table, entry),
        21 | 34 | 42 => put_before(out, array, broken.entry as usize, table),
        22 | 43 => put_event(out, broken, table, entry),
        23 => put_copy(out, table, entry),
        33 => Ok(put_want(out, entry)?),
        51 => put_nameless(out, entry),
        53 => put_plan_stream(out, broken, table, entry),
        _ => Ok(()),
    }
}

// That of the entry of an array, where it is there.
fn put_others_of_entry(
    out: &mut Vec<u8>,
    broken: Broken,
    array: Key,
    table: &Table,
    octets: &[u8],
) -> Result<(), NoMemory>
    requires { 1 ≤ broken.entry }
    ensures { OnOk result (out.new.items ≡ out.old.items
        ++ others_of_entry broken array (table_view table.now) octets.now
        (entry_of_spec array broken.entry (table_view table.now))) }
{
    match entry_of(array, broken.entry as usize, table) {
        Some(entry) => put_others_at(out, broken, array, table, octets, entry),
        None => Ok(()),
    }
}

// That of the entry of the array of which a rule speaks.
fn put_others_in_array(
    out: &mut Vec<u8>,
    broken: Broken,
    table: &Table,
    octets: &[u8],
) -> Result<(), NoMemory>
    requires { 1 ≤ broken.entry }
    ensures { OnOk result (out.new.items ≡ out.old.items
        ++ others_in_array broken (table_view table.now) octets.now (array_of_spec broken.rule)) }
{
    match array_of(broken.rule) {
        Some(array) => put_others_of_entry(out, broken, array, table, octets),
        None => Ok(()),
    }
}

// That of a file as a whole.
fn put_others_of_file(
    out: &mut Vec<u8>,
    rule: u8,
    table: &Table,
    octets: &[u8],
) -> Result<(), NoMemory>
    ensures { OnOk result (out.new.items
        ≡ out.old.items ++ others_of_file rule (table_view table.now) octets.now) }
{
    match rule {
        1 => put_all_misplaced(out, Key::Ticks, table, octets),
        31 => put_all_misplaced(out, Key::PortRate, table, octets),
        _ => Ok(()),
    }
}

/// The other side of a refusal, where there is one.
pub(crate) fn put_others(
    out: &mut Vec<u8>,
    broken: Broken,
    table: &Table,
    octets: &[u8],
) -> Result<(), NoMemory>
    ensures { OnOk result (out.new.items
        ≡ out.old.items ++ other_lines broken (table_view table.now) octets.now) }
{
    if broken.entry == 0 {
        put_others_of_file(out, broken.rule, table, octets)
    } else {
        put_others_in_array(out, broken, table, octets)
    }
}
