//! What happens in a plan, in order.

ghost use Rattle.std.specs.Prelude.{◌≡◌, ◌≤◌, ◌<◌, ◌++◌, ◌&&◌, ◌==◌, All, OnOk, IfOk, length};
ghost use Rattle.plan_file.specs.Events.{at_each, declares_at, declares_of, events_of as events_of_spec, has_vid as has_vid_spec, listens as listens_spec, listens_at, listens_of, needs_vid as needs_vid_spec, plan_vids as plan_vids_spec, talks_from};

use crate::entries::PlanStream;
use crate::numbers::numbers_where;
use srp_base::{NoMemory, NodeNo};
use std::alloc::Global;
use topology_file::NodeEntry;

/// What an application does in a plan. A stream is named by its entry's number, from 1.
#[derive(Clone, Copy, PartialEq, Eq)]
pub enum PlanEvent {
    /// A station's application declares a VID, 1 to 4,094.
    Declare { station: NodeNo, vid: u16 },
    /// The application of a stream's station declares its Talker.
    Talk { stream: u16 },
    /// A station's application listens to a stream.
    Listen { station: NodeNo, stream: u16 },
}

fn listens(x: NodeNo, stream: &PlanStream) -> bool
    ensures { result ≡ listens_spec x.0 stream.now }
{
    stream.ends.listeners.as_slice().iter().any(|y| y.0 == x.0)
}

fn listens_with(x: NodeNo, vid: u64, stream: &PlanStream) -> bool
    ensures { result ≡ (listens_spec x.0 stream.now && (stream.now.values.vid == vid)) }
{
    listens(x, stream) && u64::from(stream.values.vid.get()) == vid
}

/// Whether a stream to which the station listens has this VID.
fn needs_vid(streams: &[PlanStream], x: NodeNo, vid: u64) -> bool
    ensures { result ≡ needs_vid_spec streams.now x.0 vid }
{
    streams.iter().any(|stream| listens_with(x, vid, stream))
}

fn has_vid(streams: &[PlanStream], vid: u64) -> bool
    ensures { result ≡ has_vid_spec streams.now vid }
{
    streams
        .iter()
        .any(|stream| u64::from(stream.values.vid.get()) == vid)
}

/// The VIDs of the streams, ascending and each once.
fn plan_vids(alloc: Global, streams: &[PlanStream]) -> Result<Vec<u64>, NoMemory>
    ensures { IfOk result (λ v. v.items ≡ plan_vids_spec streams.now) }
{
    numbers_where(alloc, 1, 4_094, |vid| has_vid(streams, vid))
}

/// The same, which fit a VID.
fn small_vids(alloc: Global, streams: &[PlanStream]) -> Result<Vec<u64>, NoMemory>
    ensures vids { IfOk result (λ v. v.items ≡ plan_vids_spec streams.now) }
    ensures small { IfOk result (λ v. All (λ n. n ≤ 4094) v.items) }
{
    let vids = plan_vids(alloc, streams)?;
    Ok(vids)
}

// What a station declares.
fn put_declares(
    out: &mut Vec<PlanEvent>,
    streams: &[PlanStream],
    vids: &[u64],
    x: NodeNo,
) -> Result<(), NoMemory>
    requires { All (λ n. n ≤ 4094) vids.now }
    ensures { OnOk result (out.new.items
        ≡ out.old.items ++ declares_at streams.now vids.now x.0) }
{
    for vid in vids {
        if needs_vid(streams, x, *vid) {
            out.push(PlanEvent::Declare {
                station: x,
                vid: *vid as u16,
            })?;
        }
    }
    Ok(())
}

// What all stations declare.
fn put_all_declares(
    out: &mut Vec<PlanEvent>,
    nodes: &[NodeEntry],
    streams: &[PlanStream],
    vids: &[u64],
) -> Result<(), NoMemory>
    requires few { length nodes.now ≤ 64 }
    requires small { All (λ n. n ≤ 4094) vids.now }
    ensures { OnOk result (out.new.items
        ≡ out.old.items ++ at_each (declares_at streams.now vids.now) 1 nodes.now) }
{
    for i in 0..nodes.len() {
        put_declares(out, streams, vids, NodeNo((i + 1) as u16))?;
    }
    Ok(())
}

// Each stream is talked.
fn put_talks(out: &mut Vec<PlanEvent>, streams: &[PlanStream]) -> Result<(), NoMemory>
    requires { length streams.now ≤ 128 }
    ensures { OnOk result (out.new.items ≡ out.old.items ++ talks_from 1 streams.now) }
{
    for i in 0..streams.len() {
        out.push(PlanEvent::Talk {
            stream: (i + 1) as u16,
        })?;
    }
    Ok(())
}

// To which streams a station listens.
fn put_listens(out: &mut Vec<PlanEvent>, streams: &[PlanStream], x: NodeNo) -> Result<(), NoMemory>
    requires { length streams.now ≤ 128 }
    ensures { OnOk result (out.new.items ≡ out.old.items ++ listens_at x.0 1 streams.now) }
{
    for i in 0..streams.len() {
        if listens(x, &streams[i]) {
            out.push(PlanEvent::Listen {
                station: x,
                stream: (i + 1) as u16,
            })?;
        }
    }
    Ok(())
}

// To which streams all stations listen.
fn put_all_listens(
    out: &mut Vec<PlanEvent>,
    nodes: &[NodeEntry],
    streams: &[PlanStream],
) -> Result<(), NoMemory>
    requires nodes { length nodes.now ≤ 64 }
    requires streams { length streams.now ≤ 128 }
    ensures { OnOk result (out.new.items ≡ out.old.items ++ listens_of nodes.now streams.now) }
{
    for i in 0..nodes.len() {
        put_listens(out, streams, NodeNo((i + 1) as u16))?;
    }
    Ok(())
}

/// All that happens in a plan.
pub(crate) fn events_of(
    alloc: Global,
    nodes: &[NodeEntry],
    streams: &[PlanStream],
) -> Result<Vec<PlanEvent>, NoMemory>
    requires nodes { length nodes.now ≤ 64 }
    requires streams { length streams.now ≤ 128 }
    ensures { IfOk result (λ v. v.items ≡ events_of_spec nodes.now streams.now) }
{
    let vids = small_vids(alloc, streams)?;
    let mut out = Vec::new(alloc);
    put_all_declares(&mut out, nodes, streams, &vids)?;
    put_talks(&mut out, streams)?;
    put_all_listens(&mut out, nodes, streams)?;
    Ok(out)
}
