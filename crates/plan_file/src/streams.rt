//! The streams of a plan: rules 51 to 53.

ghost use Rattle.std.specs.Prelude.{◌≡◌, ◌≤◌, [], map, length, IfOk};
ghost use Rattle.srp_base.specs.Firsts.{first_where as first_where_spec};
ghost use Rattle.toml.specs.View.{table_view};
ghost use Rattle.toml_rules.specs.Rules.{Reads, each_entry as each_entry_spec};
ghost use Rattle.plan_file.specs.Rules.{streams_of};
ghost use Rattle.plan_file.specs.Streams.{ends_named, has_like as has_like_spec, is_like as is_like_spec, is_same_id as is_same_id_spec, plan_form, plan_stream};

use crate::ends::{find_ends, read_listeners};
use crate::entries::{PlanForm, PlanStream, PlanValues};
use crate::forms::read_values;
use srp_base::{NoMemory, Seq, StreamId};
use std::alloc::Global;
use toml::Table;
use toml_rules::{RuleErr, each_entry, each_table, first_where, no_entry};
use topology_file::{Names, read_name};

/// A name as a list of its bytes.
fn copy_name(alloc: Global, name: &[u8]) -> Result<Seq<u8>, NoMemory>
    ensures { IfOk result (λ bytes. bytes ≡ name.now) }
{
    let bytes = name.to_vec(alloc)?;
    Ok(Seq::from_vec(bytes))
}

/// The stream of these names and values.
fn make_form(
    alloc: Global,
    names: &Names,
    name: &str,
    talker: &str,
    listeners: Vec<&str>,
    values: PlanValues,
) -> Result<PlanForm, NoMemory>
    ensures { IfOk result (λ form. form ≡ record {
      name = name.now;
      ends = ends_named
          names.now.nodes talker.now (map (λ t. t.now) listeners.entry.items);
      values = values;
    }) }
{
    let ends = find_ends(alloc, names, talker, &listeners)?;
    let name = copy_name(alloc, name.as_bytes())?;
    Ok(PlanForm { name, ends, values })
}

/// The stream of an entry, where it has its form.
fn read_stream(alloc: Global, names: &Names, table: &Table) -> Result<Option<PlanForm>, NoMemory>
    ensures { IfOk result (λ form. form ≡ plan_form names.now.nodes 0 (table_view table.now)) }
{
    let Some(name) = read_name(table, "name") else {
        return Ok(None);
    };
    let Some(talker) = read_name(table, "talker") else {
        return Ok(None);
    };
    let Some(listeners) = read_listeners(alloc, table)? else {
        return Ok(None);
    };
    let Some(values) = read_values(table) else {
        return Ok(None);
    };
    let form = make_form(alloc, names, name, talker, listeners, values)?;
    Ok(Some(form))
}

/// Rule 51: each stream has its form.
fn read_forms(alloc: Global, names: &Names, entries: &[&Table]) -> Result<Vec<PlanForm>, RuleErr>
    ensures { Reads (λ v. v.items) result (each_entry_spec 51 (plan_form names.now.nodes) 1 (map
        (λ t. table_view t.now) entries.now)) }
{
    each_table(
        alloc,
        51,
        entries,
        |_, table| read_stream(alloc, names, table),
    )
}

fn is_same_id(x: Option<StreamId>, y: Option<StreamId>) -> bool
    ensures { result ≡ is_same_id_spec x y }
{
    match (x, y) {
        (Some(x), Some(y)) => x.0 == y.0,
        _ => false,
    }
}

fn is_like(x: &PlanForm, y: &PlanForm) -> bool
    ensures { result ≡ is_like_spec x.now y.now }
{
    y.name == x.name || is_same_id(y.values.id, x.values.id)
}

fn has_like(earlier: &[PlanForm], form: &PlanForm) -> bool
    ensures { result ≡ has_like_spec earlier.now form.now }
{
    earlier.iter().any(|other| is_like(form, other))
}

/// The first stream whose name or id an earlier one has.
fn repeated(forms: &[PlanForm]) -> Option<usize>
    ensures { result ≡ first_where_spec has_like_spec [] forms.now }
{
    first_where(forms, |earlier, form| has_like(earlier, form))
}

/// The stream of a form, where its ends are known.
fn known_stream(alloc: Global, form: &PlanForm) -> Result<Option<PlanStream>, NoMemory>
    ensures { IfOk result (λ stream. stream ≡ plan_stream 0 form.now) }
{
    let Some(ends) = &form.ends else {
        return Ok(None);
    };
    let name = copy_name(alloc, form.name.as_slice())?;
    let ends = ends.clone()?;
    Ok(Some(PlanStream {
        name,
        ends,
        values: form.values,
    }))
}

/// Rule 53: the talker and the listeners are stations, each once.
fn known_streams(alloc: Global, forms: &[PlanForm]) -> Result<Vec<PlanStream>, RuleErr>
    ensures { Reads (λ v. v.items) result (each_entry_spec 53 plan_stream 1 forms.now) }
{
    each_entry(alloc, 53, forms, |_, form| known_stream(alloc, form))
}

/// The streams of the entries: rules 51 to 53.
pub(crate) fn read_streams(
    alloc: Global,
    names: &Names,
    entries: &[&Table],
) -> Result<Vec<PlanStream>, RuleErr>
    requires { length entries.now ≤ 128 }
    ensures streams { Reads (λ v. v.items) result (streams_of names.now.nodes (map
        (λ t. table_view t.now) entries.now)) }
    ensures few { IfOk result (λ v. length v.items ≤ 128) }
{
    let forms = read_forms(alloc, names, entries)?;
    no_entry(52, repeated(&forms))?;
    let streams = known_streams(alloc, &forms)?;
    Ok(streams)
}
