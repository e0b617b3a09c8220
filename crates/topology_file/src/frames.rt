//! The frames of a scenario: rules 23 and 24.

ghost use Rattle.std.specs.Prelude.{◌≡◌, ◌≤◌, map};
ghost use Rattle.toml.specs.View.{table_view};
ghost use Rattle.toml_rules.specs.Rules.{Reads, each_entry as each_entry_spec, each_within as each_within_spec};
ghost use Rattle.topology_file.specs.Frames.{stream_route, apart_named, pair_route, route_at, count_at, times_at, ends_in as ends_in_spec, times_in, frame_octets_at, frame_form, form_copies, frame_entry, frame_copies};
ghost use Rattle.topology_file.specs.Scenario.{frames_of};

use crate::entries::{FrameEntry, FrameForm, FrameRoute, FrameTimes};
use crate::forms::read_name;
use crate::names::Names;
use crate::nodes::station_named;
use crate::streams::{read_vid, small, stream_named};
use srp_base::NodeNo;
use std::alloc::Global;
use toml::Table;
use toml_rules::{RuleErr, each_entry, each_table_within, has_only, number, number_or, within};

/// The stream of a frame, missing where there is none of this name, at keys that are known.
fn read_stream_route(names: &Names, table: &Table) -> Option<Option<FrameRoute>>
    ensures { result ≡ stream_route names.now.streams (table_view table.now) }
{
    let name = read_name(table, "stream")?;
    let stream = stream_named(names, name);
    Some(stream.map(|stream| FrameRoute::OfStream { stream }))
}

/// The stations of these names, where they are two.
fn stations_apart(names: &Names, from: &str, to: &str) -> Option<(NodeNo, NodeNo)>
    ensures { result ≡ apart_named names.now.nodes from.now to.now }
{
    let x = station_named(names, from)?;
    let y = station_named(names, to)?;
    if x.0 == y.0 { None } else { Some((x, y)) }
}

/// The stations and the VID of a frame, missing where these names aren't two different stations, at
/// keys that are known.
fn read_pair_route(names: &Names, table: &Table) -> Option<Option<FrameRoute>>
    ensures { result ≡ pair_route names.now.nodes (table_view table.now) }
{
    let from = read_name(table, "from")?;
    let to = read_name(table, "to")?;
    let vid = read_vid(table)?;
    let ends = stations_apart(names, from, to);
    Some(ends.map(|(from, to)| FrameRoute::Between { from, to, vid }))
}

const STREAM_FRAME_KEYS: [&str; 5] = ["stream", "octets", "at", "count", "every"];

const PAIR_FRAME_KEYS: [&str; 7] = ["from", "to", "vid", "octets", "at", "count", "every"];

/// The route of a frame: a stream alone, or two stations with a VID.
fn read_route(names: &Names, table: &Table) -> Option<Option<FrameRoute>>
    ensures { result ≡ route_at names.now.nodes names.now.streams (table_view table.now) }
{
    if has_only(table, &STREAM_FRAME_KEYS) {
        return read_stream_route(names, table);
    }
    if has_only(table, &PAIR_FRAME_KEYS) {
        return read_pair_route(names, table);
    }
    None
}

/// How many copies a frame has, 1 to 100,000.
fn read_count(table: &Table) -> Option<u32>
    ensures { result ≡ count_at (table_view table.now) }
{
    match within(1, 100_000, number_or(table, "count", 1)) {
        Some(n) => Some(n as u32),
        None => None,
    }
}

/// The moments of a frame's copies.
fn read_times(table: &Table) -> Option<FrameTimes>
    ensures { result ≡ times_at (table_view table.now) }
{
    let at = number(table, "at")?;
    let count = read_count(table)?;
    let every = number_or(table, "every", 0)?;
    Some(FrameTimes { at, count, every })
}

/// Whether the last copy stands before the run's end. The moments are no more than 2^81 ns.
fn ends_in(ticks: u64, times: FrameTimes) -> bool
    requires { ticks ≤ 12000 }
    ensures { result ≡ ends_in_spec ticks times }
{
    let steps = u128::from(times.count.saturating_sub(1));
    let way = steps * u128::from(times.every);
    let last = u128::from(times.at) + way;
    last < u128::from(ticks * 10_000_000)
}

/// The moments of a frame's copies, where the last stands before the run's end.
fn read_times_in(ticks: u64, table: &Table) -> Option<FrameTimes>
    requires { ticks ≤ 12000 }
    ensures { result ≡ times_in ticks (table_view table.now) }
{
    let times = read_times(table)?;
    if ends_in(ticks, times) {
        Some(times)
    } else {
        None
    }
}

fn read_octets(table: &Table) -> Option<u16>
    ensures { result ≡ frame_octets_at (table_view table.now) }
{
    small(within(0, 1_500, number(table, "octets")))
}

/// The frame of an entry, where it has its form.
fn read_frame(ticks: u64, names: &Names, table: &Table) -> Option<FrameForm>
    requires ticks { ticks ≤ 12000 }
    ensures { result ≡ frame_form ticks names.now.nodes names.now.streams 0 (table_view table.now) }
{
    let route = read_route(names, table)?;
    let octets = read_octets(table)?;
    let times = read_times_in(ticks, table)?;
    Some(FrameForm {
        route,
        octets,
        times,
    })
}

/// The most copies of frames of a scenario.
const MOST_COPIES: u64 = 100_000;

/// Rule 23: each frame has its form, and the copies so far are few enough.
fn read_forms(
    alloc: Global,
    ticks: u64,
    names: &Names,
    entries: &[&Table],
) -> Result<Vec<FrameForm>, RuleErr>
    requires ticks { ticks ≤ 12000 }
    ensures { Reads (λ v. v.items) result
        (each_within_spec 23 form_copies (frame_form ticks names.now.nodes names.now.streams) 1
        100000 (map (λ t. table_view t.now) entries.now)) }
{
    each_table_within(
        alloc,
        23,
        MOST_COPIES,
        entries,
        |form: &FrameForm| u64::from(form.times.count),
        |_, table| Ok(read_frame(ticks, names, table)),
    )
}

/// The frame of a form, where its route is known.
fn routed_frame(form: &FrameForm) -> Option<FrameEntry>
    ensures { result ≡ frame_entry 0 form.now }
{
    let route = form.route?;
    let times = form.times;
    Some(FrameEntry {
        route,
        octets: form.octets,
        at: times.at,
        count: times.count,
        every: times.every,
    })
}

/// Rule 24: the streams and stations of frames are known.
fn routed_frames(alloc: Global, forms: &[FrameForm]) -> Result<Vec<FrameEntry>, RuleErr>
    ensures { Reads (λ v. v.items) result (each_entry_spec 24 frame_entry 1 forms.now) }
{
    each_entry(alloc, 24, forms, |_, form| Ok(routed_frame(form)))
}

/// The frames of the entries: rules 23 and 24.
pub(crate) fn read_frames(
    alloc: Global,
    ticks: u64,
    names: &Names,
    entries: &[&Table],
) -> Result<Vec<FrameEntry>, RuleErr>
    requires ticks { ticks ≤ 12000 }
    ensures { Reads (λ v. v.items) result (frames_of ticks names.now.nodes names.now.streams (map
        (λ t. table_view t.now) entries.now)) }
{
    let forms = read_forms(alloc, ticks, names, entries)?;
    routed_frames(alloc, &forms)
}

/// How many copies these frames have.
pub(crate) fn copies_of(frames: &[FrameEntry]) -> u64
    requires { frame_copies frames.now ≤ 100000 }
    ensures { result ≡ frame_copies frames.now }
{
    frames.iter().map(|frame| u64::from(frame.count)).sum()
}
