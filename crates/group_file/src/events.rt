//! The events of a group scenario: rules 41 to 43.

ghost use Rattle.std.specs.Prelude.{◌≡◌, map};
ghost use Rattle.toml.specs.View.{table_view};
ghost use Rattle.toml_rules.specs.Rules.{Reads, each_entry as each_entry_spec, first_fall as first_fall_spec};
ghost use Rattle.group_file.specs.Events.{event_form, form_ticks, group_entry, known_event};
ghost use Rattle.group_file.specs.Scenario.{groups_of};

use crate::entries::{GroupEntry, GroupForm};
use crate::kinds::read_kind;
use std::alloc::Global;
use toml::Table;
use toml_rules::{RuleErr, each_entry, each_table, first_fall, no_entry, text};
use topology_file::{Names, read_tick};

/// The event of an entry among the first 10,000, where it has its form.
fn read_known_event(ticks: u64, names: &Names, table: &Table) -> Option<GroupForm>
    ensures { result ≡ known_event ticks names.now.nodes names.now.links (table_view table.now) }
{
    let tick = read_tick(ticks, table)?;
    let word = text(table, "kind")?;
    let kind = read_kind(names, table, word)?;
    Some(GroupForm { tick, kind })
}

/// The most events of a group scenario.
const MOST_EVENTS: usize = 10_000;

/// The event of an entry with this number, where it has its form.
fn read_event(ticks: u64, names: &Names, number: usize, table: &Table) -> Option<GroupForm>
    ensures { result ≡ event_form ticks names.now.nodes names.now.links number
        (table_view table.now) }
{
    if number <= MOST_EVENTS {
        read_known_event(ticks, names, table)
    } else {
        None
    }
}

/// Rule 41: each event has its form.
fn read_forms(
    alloc: Global,
    ticks: u64,
    names: &Names,
    entries: &[&Table],
) -> Result<Vec<GroupForm>, RuleErr>
    ensures { Reads (λ v. v.items) result
        (each_entry_spec 41 (event_form ticks names.now.nodes names.now.links) 1
        (map (λ t. table_view t.now) entries.now)) }
{
    each_table(
        alloc,
        41,
        entries,
        |number, table| Ok(read_event(ticks, names, number, table)),
    )
}

/// The first event whose tick is below that of the one before it.
fn falling_event(forms: &[GroupForm]) -> Option<usize>
    ensures { result ≡ first_fall_spec 1 0 (form_ticks forms.now) }
{
    first_fall(forms, |form| form.tick)
}

/// The event of a form, where what it names is known.
fn named_event(form: &GroupForm) -> Option<GroupEntry>
    ensures { result ≡ group_entry 0 form.now }
{
    match form.kind {
        Some(kind) => Some(GroupEntry {
            tick: form.tick,
            kind,
        }),
        None => None,
    }
}

/// Rule 43: the names in events are known.
fn named_events(alloc: Global, forms: &[GroupForm]) -> Result<Vec<GroupEntry>, RuleErr>
    ensures { Reads (λ v. v.items) result (each_entry_spec 43 group_entry 1 forms.now) }
{
    each_entry(alloc, 43, forms, |_, form| Ok(named_event(form)))
}

/// The events of the entries: rules 41 to 43.
pub(crate) fn read_events(
    alloc: Global,
    ticks: u64,
    names: &Names,
    entries: &[&Table],
) -> Result<Vec<GroupEntry>, RuleErr>
    ensures { Reads (λ v. v.items) result
        (groups_of ticks names.now.nodes names.now.links
        (map (λ t. table_view t.now) entries.now)) }
{
    let forms = read_forms(alloc, ticks, names, entries)?;
    no_entry(42, falling_event(&forms))?;
    named_events(alloc, &forms)
}
