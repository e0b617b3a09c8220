//! The frames of a scenario.

ghost use Rattle.std.specs.Prelude.{◌≡◌, ◌+◌, ◌<◌, ◌≤◌, ◌++◌, All, IfOk, OnOk};
ghost use Rattle.topology_file.specs.Frames.{frame_copies};
ghost use Rattle.scenario_frames.specs.PlanFrames.{copies_of, copy_moment, copy_of, frames_from, plan_frames, way_of as way_of_spec};
ghost use Rattle.scenario_frames.specs.Times.{EndsInTime};

use crate::way::{Way, way_of};
use frame_flow::Frame;
use srp_base::{NoMemory, Ps};
use std::alloc::Global;
use topology_file::{FrameEntry, Scenario, StreamEntry};

/// The frames of a scenario, numbered from 1 in the order of the file, the copies of each entry in
/// order.
pub fn frames_of(alloc: Global, scenario: &Scenario) -> Result<Vec<Frame>, NoMemory>
    ensures { IfOk result (λ v. v.items ≡ plan_frames scenario.now) }
{
    scenario.keeps_rules();
    let mut frames = Vec::with_capacity(alloc, scenario.copies() as usize)?;
    add_entries(
        scenario.streams.as_slice(),
        scenario.frames.as_slice(),
        &mut frames,
    )?;
    Ok(frames)
}

/// Puts the copies of entries at the end, the first with number 1.
fn add_entries(
    streams: &[StreamEntry],
    entries: &[FrameEntry],
    frames: &mut Vec<Frame>,
) -> Result<(), NoMemory>
    requires few { frame_copies entries.now ≤ 100000 }
    requires in_time { All EndsInTime entries.now }
    ensures { OnOk result (frames.new.items
        ≡ frames.old.items ++ frames_from streams.now 1 entries.now) }
{
    let mut first = 1;
    for entry in entries {
        add_entry(streams, entry, first, frames)?;
        first += entry.count;
    }
    Ok(())
}

/// Puts the copies of an entry at the end, the first with this number.
fn add_entry(
    streams: &[StreamEntry],
    entry: &FrameEntry,
    first: u32,
    frames: &mut Vec<Frame>,
) -> Result<(), NoMemory>
    requires few { first + entry.now.count ≤ 100001 }
    requires in_time { EndsInTime entry.now }
    ensures { OnOk result (frames.new.items
        ≡ frames.old.items ++ copies_of entry.now (way_of_spec streams.now entry.now.route) first) }
{
    match way_of(streams, entry.route) {
        Some(way) => add_copies(entry, way, first, frames),
        None => Ok(()),
    }
}

/// Puts the copies of an entry that go this way at the end, the first with this number.
fn add_copies(
    entry: &FrameEntry,
    way: Way,
    first: u32,
    frames: &mut Vec<Frame>,
) -> Result<(), NoMemory>
    requires few { first + entry.now.count ≤ 100001 }
    requires in_time { EndsInTime entry.now }
    ensures { OnOk result (frames.new.items
        ≡ frames.old.items ++ copies_of entry.now (Some way) first) }
{
    for index in 0..entry.count {
        frames.push(frame(entry, way, first, index))?;
    }
    Ok(())
}

/// The copy of an index, where the first has this number.
fn frame(entry: &FrameEntry, way: Way, first: u32, index: u32) -> Frame
    requires few { first + index ≤ 100000 }
    requires there { index < entry.now.count }
    requires in_time { EndsInTime entry.now }
    ensures { result ≡ copy_of entry.now way first index }
{
    Frame {
        number: first + index,
        at: Ps(moment(entry, index)),
        from: way.from,
        route: way.route,
        vid: way.vid,
        bits: (u32::from(entry.octets) + 42) * 8,
    }
}

/// The moment of the copy of an index in ps.
fn moment(entry: &FrameEntry, index: u32) -> u64
    requires there { index < entry.now.count }
    requires in_time { EndsInTime entry.now }
    ensures { result ≡ copy_moment entry.now index }
{
    (entry.at + u64::from(index) * entry.every) * 1_000
}
