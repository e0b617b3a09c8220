//! The streams of a scenario: rules 16 to 19.

ghost use Rattle.std.specs.Prelude.{◌≡◌, ◌≤◌, ◌==◌, ◌&&◌, [], map, length, IfOk, IfSome};
ghost use Rattle.srp_base.specs.Firsts.{first_where as first_where_spec};
ghost use Rattle.toml.specs.View.{table_view};
ghost use Rattle.toml_rules.specs.Rules.{Reads, each_entry as each_entry_spec};
ghost use Rattle.topology_file.specs.Scenario.{has_stream_name_of as has_name_of_spec, has_stream_id_of as has_id_of_spec, streams_of};
ghost use Rattle.topology_file.specs.Streams.{stream_id_at, dest_at, octets_at, frames_at, stream_vid_at, priority_at, rank_of_number, rank_at, values_at, known_stream, stream_form, stream_entry, is_stream_named, stream_named as stream_named_spec, is_talker_of as is_talker_of_spec};

use crate::entries::{StreamEntry, StreamForm, StreamValues};
use crate::forms::read_name;
use crate::names::Names;
use crate::nodes::{copy_name, station_named};
use srp_base::{Mac, NoMemory, Priority, Rank, StreamId, Vid, read_hex12, read_hex16};
use std::alloc::Global;
use toml::Table;
use toml_rules::{
    RuleErr, each_entry, each_table, first_where, has_only, no_entry, number, number_or, text,
    within,
};

fn read_stream_id(table: &Table) -> Option<u64>
    ensures { result ≡ stream_id_at (table_view table.now) }
{
    read_hex16(text(table, "id")?)
}

fn read_dest(table: &Table) -> Option<Mac>
    ensures { result ≡ dest_at (table_view table.now) }
{
    read_hex12(text(table, "dest")?)
}

/// A number that is known to be small.
pub(crate) fn small(number: Option<u64>) -> Option<u16>
    requires { IfSome number (λ n. n ≤ 65535) }
    ensures { result ≡ number }
{
    match number {
        Some(n) => Some(n as u16),
        None => None,
    }
}

fn read_octets(table: &Table) -> Option<u16>
    ensures { result ≡ octets_at (table_view table.now) }
{
    small(within(0, 65_535, number(table, "octets")))
}

fn read_frames(table: &Table) -> Option<u16>
    ensures { result ≡ frames_at (table_view table.now) }
{
    small(within(0, 65_535, number(table, "frames")))
}

/// The VID of a stream or of a frame, 2 where none is given.
pub(crate) fn read_vid(table: &Table) -> Option<Vid>
    ensures { result ≡ stream_vid_at (table_view table.now) }
{
    match within(1, 4_094, number_or(table, "vid", 2)) {
        Some(n) => Vid::new(n as u16),
        None => None,
    }
}

fn read_priority(table: &Table) -> Option<Priority>
    ensures { result ≡ priority_at (table_view table.now) }
{
    match within(0, 7, number_or(table, "priority", 3)) {
        Some(n) => Priority::new(n as u8),
        None => None,
    }
}

fn rank_of(number: u64) -> Option<Rank>
    ensures { result ≡ rank_of_number number }
{
    match number {
        0 => Some(Rank::Emergency),
        1 => Some(Rank::Normal),
        _ => None,
    }
}

fn read_rank(table: &Table) -> Option<Rank>
    ensures { result ≡ rank_at (table_view table.now) }
{
    rank_of(number_or(table, "rank", 1)?)
}

/// What a stream's Talker declares.
fn read_values(table: &Table) -> Option<StreamValues>
    ensures { result ≡ values_at (table_view table.now) }
{
    let id = StreamId(read_stream_id(table)?);
    let dest = read_dest(table)?;
    let octets = read_octets(table)?;
    let frames = read_frames(table)?;
    let vid = read_vid(table)?;
    let priority = read_priority(table)?;
    let rank = read_rank(table)?;
    Some(StreamValues {
        id,
        dest,
        octets,
        frames,
        vid,
        priority,
        rank,
    })
}

/// The stream of an entry whose keys are known, where its values have their form.
fn read_known_stream(
    alloc: Global,
    names: &Names,
    table: &Table,
) -> Result<Option<StreamForm>, NoMemory>
    ensures { IfOk result (λ form. form ≡ known_stream names.now.nodes (table_view table.now)) }
{
    let Some(name) = read_name(table, "name") else {
        return Ok(None);
    };
    let Some(talker) = read_name(table, "talker") else {
        return Ok(None);
    };
    let Some(values) = read_values(table) else {
        return Ok(None);
    };
    let talker = station_named(names, talker);
    let name = copy_name(alloc, name.as_bytes())?;
    Ok(Some(StreamForm {
        name,
        talker,
        values,
    }))
}

const STREAM_KEYS: [&str; 9] = [
    "name", "id", "talker", "dest", "octets", "frames", "vid", "priority", "rank",
];

/// The most streams of a scenario.
const MOST_STREAMS: usize = 128;

/// The stream of an entry with this number, where it has its form.
fn read_stream(
    alloc: Global,
    names: &Names,
    number: usize,
    table: &Table,
) -> Result<Option<StreamForm>, NoMemory>
    ensures { IfOk result (λ form. form
        ≡ stream_form names.now.nodes number (table_view table.now)) }
{
    if number <= MOST_STREAMS && has_only(table, &STREAM_KEYS) {
        read_known_stream(alloc, names, table)
    } else {
        Ok(None)
    }
}

/// Rule 16: each stream has its form.
fn read_forms(alloc: Global, names: &Names, entries: &[&Table]) -> Result<Vec<StreamForm>, RuleErr>
    ensures { Reads (λ v. v.items) result (each_entry_spec 16 (stream_form names.now.nodes) 1 (map
        (λ t. table_view t.now) entries.now)) }
{
    each_table(
        alloc,
        16,
        entries,
        |number, table| read_stream(alloc, names, number, table),
    )
}

fn has_name_of(earlier: &[StreamForm], form: &StreamForm) -> bool
    ensures { result ≡ has_name_of_spec earlier.now form.now }
{
    earlier.iter().any(|other| other.name == form.name)
}

/// The first stream whose name an earlier one has.
fn repeated_name(forms: &[StreamForm]) -> Option<usize>
    ensures { result ≡ first_where_spec has_name_of_spec [] forms.now }
{
    first_where(forms, |earlier, form| has_name_of(earlier, form))
}

fn has_id_of(earlier: &[StreamForm], form: &StreamForm) -> bool
    ensures { result ≡ has_id_of_spec earlier.now form.now }
{
    earlier
        .iter()
        .any(|other| other.values.id.0 == form.values.id.0)
}

/// The first stream whose id an earlier one has.
fn repeated_id(forms: &[StreamForm]) -> Option<usize>
    ensures { result ≡ first_where_spec has_id_of_spec [] forms.now }
{
    first_where(forms, |earlier, form| has_id_of(earlier, form))
}

/// The stream of a form, where its talker is a station.
fn talking_stream(alloc: Global, form: &StreamForm) -> Result<Option<StreamEntry>, NoMemory>
    ensures { IfOk result (λ stream. stream ≡ stream_entry 0 form.now) }
{
    let Some(talker) = form.talker else {
        return Ok(None);
    };
    let name = copy_name(alloc, form.name.as_slice())?;
    let values = form.values;
    Ok(Some(StreamEntry {
        name,
        id: values.id,
        talker,
        dest: values.dest,
        octets: values.octets,
        frames: values.frames,
        vid: values.vid,
        priority: values.priority,
        rank: values.rank,
    }))
}

/// Rule 19: each talker is a station.
fn talking_streams(alloc: Global, forms: &[StreamForm]) -> Result<Vec<StreamEntry>, RuleErr>
    ensures { Reads (λ v. v.items) result (each_entry_spec 19 stream_entry 1 forms.now) }
{
    each_entry(alloc, 19, forms, |_, form| talking_stream(alloc, form))
}

/// The streams of the entries: rules 16 to 19.
pub(crate) fn read_streams(
    alloc: Global,
    names: &Names,
    entries: &[&Table],
) -> Result<Vec<StreamEntry>, RuleErr>
    ensures streams { Reads (λ v. v.items) result (streams_of names.now.nodes (map
        (λ t. table_view t.now) entries.now)) }
    ensures few { IfOk result (λ v. length v.items ≤ 128) }
{
    let forms = read_forms(alloc, names, entries)?;
    no_entry(17, repeated_name(&forms))?;
    no_entry(18, repeated_id(&forms))?;
    let streams = talking_streams(alloc, &forms)?;
    Ok(streams)
}

fn is_named(name: &str, stream: &StreamEntry) -> bool
    ensures { result ≡ is_stream_named name.now stream.now }
{
    stream.name.as_slice() == name.as_bytes()
}

/// A number of a stream that is known to be small.
fn stream_no(number: Option<usize>) -> Option<u16>
    requires { IfSome number (λ n. n ≤ 65535) }
    ensures { result ≡ number }
{
    match number {
        Some(n) => Some(n as u16),
        None => None,
    }
}

/// The number of the stream of this name.
pub(crate) fn stream_named(names: &Names, name: &str) -> Option<u16>
    ensures { result ≡ stream_named_spec names.now.streams name.now }
{
    stream_no(first_where(names.streams, |_, stream| is_named(name, stream)))
}

fn has_talker(name: &str, x: u16, stream: &StreamEntry) -> bool
    ensures { result ≡ (is_stream_named name.now stream.now && (stream.now.talker.0 == x)) }
{
    is_named(name, stream) && stream.talker.0 == x
}

/// Whether this station talks in the stream of this name.
pub(crate) fn is_talker_of(names: &Names, name: &str, x: u16) -> bool
    ensures { result ≡ is_talker_of_spec names.now.streams name.now x }
{
    names
        .streams
        .iter()
        .any(|stream| has_talker(name, x, stream))
}
