//! Which nodes an event of the scenario may change in a tick.

ghost use Rattle.std.specs.Prelude.{◌≡◌, IfOk};
ghost use Rattle.wishes.specs.Watching.{count_to as count_to_spec, disturbs as disturbs_spec, events_past as events_past_spec, events_to as events_to_spec, is_at_place as is_at_place_spec, is_disturbed as is_disturbed_spec, is_talker_at as is_talker_at_spec, undisturbed as undisturbed_spec};

use crate::resting::{behind, front};
use srp_base::{NoMemory, NodeNo};
use std::alloc::Global;
use topology_file::{EventEntry, EventKind, StreamEntry};

/// Of some events, those before the first that comes after a tick.
pub(crate) fn events_to(events: &[EventEntry], tick: u64) -> &[EventEntry]
    ensures { result.now ≡ events_to_spec tick events.now }
{
    front(events, count_to(events, tick))
}

/// Those behind.
pub(crate) fn events_past(events: &[EventEntry], tick: u64) -> &[EventEntry]
    ensures { result.now ≡ events_past_spec tick events.now }
{
    behind(events, count_to(events, tick))
}

// How many stand before that one.
fn count_to(events: &[EventEntry], tick: u64) -> usize
    ensures { result ≡ count_to_spec tick events.now }
{
    for i in 0..events.len() {
        if events[i].tick > tick {
            return i;
        }
    }
    events.len()
}

/// Of nodes, those that are idle and that none of some events may change.
pub(crate) fn undisturbed(
    alloc: Global,
    streams: &[StreamEntry],
    events: &[EventEntry],
    idle: &[bool],
) -> Result<Vec<bool>, NoMemory>
    ensures { IfOk result (λ v. v.items ≡ undisturbed_spec streams.now events.now 0 idle.now) }
{
    let mut rests = Vec::new(alloc);
    for x in 0..idle.len() {
        rests.push(idle[x] && !is_disturbed(streams, events, x))?;
    }
    Ok(rests)
}

// Whether one of some events may change the node at a place.
fn is_disturbed(streams: &[StreamEntry], events: &[EventEntry], x: usize) -> bool
    ensures { result ≡ is_disturbed_spec streams.now events.now x }
{
    for event in events {
        if disturbs(streams, x, &event.kind) {
            return true;
        }
    }
    false
}

// Whether an event may.
fn disturbs(streams: &[StreamEntry], x: usize, kind: &EventKind) -> bool
    ensures { result ≡ disturbs_spec streams.now x kind.now }
{
    match kind {
        EventKind::Declare { station, .. }
        | EventKind::Withdraw { station, .. }
        | EventKind::Listen { station, .. }
        | EventKind::Unlisten { station, .. } => is_at_place(x, *station),
        EventKind::Talk { stream } | EventKind::Hush { stream } => {
            is_talker_at(streams, x, *stream)
        }
        EventKind::Lose { .. } | EventKind::Repeat { .. } | EventKind::Forge { .. } => true,
    }
}

fn is_talker_at(streams: &[StreamEntry], x: usize, stream: u16) -> bool
    ensures { result ≡ is_talker_at_spec streams.now x stream }
{
    match streams.get(usize::from(stream).saturating_sub(1)) {
        Some(entry) => is_at_place(x, entry.talker),
        None => false,
    }
}

fn is_at_place(x: usize, node: NodeNo) -> bool
    ensures { result ≡ is_at_place_spec x node }
{
    usize::from(node.0).saturating_sub(1) == x
}
