//! What stands in a network: what its applications hear, and what its ports have booked.

ghost use Rattle.std.specs.Prelude.{◌≡◌, map, IfOk};
ghost use Rattle.wishes.specs.RunMoments.{are_same_standings as are_same_standings_spec, bookings_in, hearings_in, standing_at as standing_at_spec};
ghost use Rattle.wishes.specs.Watching.{standing_since as standing_since_spec, standings_since as standings_since_spec};

use crate::resting::rests_at;
use node_core::Node;
use srp_base::{ListenerKind, NoMemory, NodeNo, PortNo, Seq};
use std::alloc::Global;
use stream_importance::Entry;
use topology_file::StreamEntry;
use world_core::World;

/// What is heard of a stream at a node.
#[derive(Clone, Copy, PartialEq, Eq)]
pub struct Hearing {
    /// Whether the node's application listens to it.
    pub listens: bool,
    /// What the application hears of it.
    pub heard: Option<ListenerKind>,
}

/// What stands at a node.
#[derive(Clone, PartialEq, Eq, Drop)]
pub struct Standing {
    /// What is heard there of each stream of the file.
    pub heard: Seq<Hearing>,
    /// What each of its link ports has booked, of whatever streams, ascending by StreamID.
    pub booked: Seq<Seq<Entry>>,
}

/// What stands at each node of a network: where a node rests, what stood there.
pub(crate) fn standings_since(
    alloc: Global,
    streams: &[StreamEntry],
    rests: &[bool],
    old: &[Standing],
    world: &World,
) -> Result<Vec<Standing>, NoMemory>
    ensures { IfOk result (λ v. v.items
        ≡ standings_since_spec streams.now rests.now old.now 0 world.now.nodes) }
{
    world.keeps();
    let mut standings = Vec::new(alloc);
    for i in 0..world.tree().nodes() {
        standings.push(standing_since(
            alloc,
            streams,
            rests,
            old,
            usize::from(i),
            world.node(NodeNo(i + 1)),
        )?)?;
    }
    Ok(standings)
}

// What stands at the node of a place.
fn standing_since(
    alloc: Global,
    streams: &[StreamEntry],
    rests: &[bool],
    old: &[Standing],
    at: usize,
    node: &Node,
) -> Result<Standing, NoMemory>
    ensures { IfOk result (λ s. s
        ≡ standing_since_spec streams.now rests.now old.now at node.now.state) }
{
    if !rests_at(rests, at) {
        return standing_at(alloc, streams, node);
    }
    match old.get(at) {
        Some(was) => Ok(was.clone()?),
        None => standing_at(alloc, streams, node),
    }
}

// What stands at a node, looked at anew.
fn standing_at(alloc: Global, streams: &[StreamEntry], node: &Node) -> Result<Standing, NoMemory>
    ensures { IfOk result (λ s. s ≡ standing_at_spec streams.now node.now.state) }
{
    let heard = hearings_of(alloc, streams, node)?;
    let booked = bookings_of(alloc, node)?;
    Ok(Standing { heard, booked })
}

// What is heard of each of some streams.
fn hearings_of(
    alloc: Global,
    streams: &[StreamEntry],
    node: &Node,
) -> Result<Seq<Hearing>, NoMemory>
    ensures { IfOk result (λ row. row ≡ hearings_in streams.now node.now.state.streams) }
{
    let mut row = Vec::with_capacity(alloc, streams.len())?;
    for entry in streams {
        row.push(Hearing {
            listens: node.listens(entry.id),
            heard: node.heard(entry.id),
        })?;
    }
    Ok(Seq::from_vec(row))
}

// What each link port has booked.
fn bookings_of(alloc: Global, node: &Node) -> Result<Seq<Seq<Entry>>, NoMemory>
    ensures { IfOk result (λ rows. rows ≡ bookings_in node.now.state.streams) }
{
    node.keeps();
    let mut rows = Vec::new(alloc);
    for i in 0..node.ports() {
        rows.push(node.bookings(PortNo(i + 1))?)?;
    }
    Ok(Seq::from_vec(rows))
}

/// Whether the same stands at each node.
pub(crate) fn are_same_standings(before: &[Standing], now: &[Standing]) -> bool
    ensures { result ≡ are_same_standings_spec before.now now.now }
{
    before == now
}
