//! The events of a scenario: rules 20 to 22.

ghost use Rattle.std.specs.Prelude.{◌≡◌, map, IfOk};
ghost use Rattle.toml.specs.View.{table_view};
ghost use Rattle.toml_rules.specs.Rules.{Reads, each_entry as each_entry_spec, first_fall as first_fall_spec};
ghost use Rattle.topology_file.specs.Events.{known_event, event_form, event_entry, form_ticks};
ghost use Rattle.topology_file.specs.Scenario.{events_of};

use crate::entries::{EventEntry, EventForm};
use crate::forms::read_tick;
use crate::kinds::read_kind;
use crate::names::Names;
use srp_base::NoMemory;
use std::alloc::Global;
use toml::Table;
use toml_rules::{RuleErr, each_entry, each_table, first_fall, no_entry, text};

/// The event of an entry among the first 10,000, where it has its form.
fn read_known_event(
    alloc: Global,
    ticks: u64,
    names: &Names,
    table: &Table,
) -> Result<Option<EventForm>, NoMemory>
    ensures { IfOk result (λ form. form
        ≡ known_event ticks names.now.nodes names.now.links names.now.streams
        (table_view table.now)) }
{
    let Some(tick) = read_tick(ticks, table) else {
        return Ok(None);
    };
    let Some(word) = text(table, "kind") else {
        return Ok(None);
    };
    let kind = read_kind(alloc, names, table, word)?;
    Ok(kind.map(|kind| EventForm { tick, kind }))
}

/// The most events of a scenario.
const MOST_EVENTS: usize = 10_000;

/// The event of an entry with this number, where it has its form.
fn read_event(
    alloc: Global,
    ticks: u64,
    names: &Names,
    number: usize,
    table: &Table,
) -> Result<Option<EventForm>, NoMemory>
    ensures { IfOk result (λ form. form
        ≡ event_form ticks names.now.nodes names.now.links names.now.streams number
        (table_view table.now)) }
{
    if number <= MOST_EVENTS {
        read_known_event(alloc, ticks, names, table)
    } else {
        Ok(None)
    }
}

/// Rule 20: each event has its form.
fn read_forms(
    alloc: Global,
    ticks: u64,
    names: &Names,
    entries: &[&Table],
) -> Result<Vec<EventForm>, RuleErr>
    ensures { Reads (λ v. v.items) result
        (each_entry_spec 20 (event_form ticks names.now.nodes names.now.links names.now.streams) 1
        (map (λ t. table_view t.now) entries.now)) }
{
    each_table(alloc, 20, entries, |number, table| {
        read_event(alloc, ticks, names, number, table)
    })
}

/// The first event whose tick is below that of the one before it.
fn falling_event(forms: &[EventForm]) -> Option<usize>
    ensures { result ≡ first_fall_spec 1 0 (form_ticks forms.now) }
{
    first_fall(forms, |form| form.tick)
}

/// The event of a form, where what it names is known.
fn named_event(form: &EventForm) -> Result<Option<EventEntry>, NoMemory>
    ensures { IfOk result (λ event. event ≡ event_entry 0 form.now) }
{
    match &form.kind {
        Some(kind) => Ok(Some(EventEntry {
            tick: form.tick,
            kind: kind.clone()?,
        })),
        None => Ok(None),
    }
}

/// Rule 22: the names in events are known.
fn named_events(alloc: Global, forms: &[EventForm]) -> Result<Vec<EventEntry>, RuleErr>
    ensures { Reads (λ v. v.items) result (each_entry_spec 22 event_entry 1 forms.now) }
{
    each_entry(alloc, 22, forms, |_, form| named_event(form))
}

/// The events of the entries: rules 20 to 22.
pub(crate) fn read_events(
    alloc: Global,
    ticks: u64,
    names: &Names,
    entries: &[&Table],
) -> Result<Vec<EventEntry>, RuleErr>
    ensures { Reads (λ v. v.items) result
        (events_of ticks names.now.nodes names.now.links names.now.streams
        (map (λ t. table_view t.now) entries.now)) }
{
    let forms = read_forms(alloc, ticks, names, entries)?;
    no_entry(21, falling_event(&forms))?;
    named_events(alloc, &forms)
}
