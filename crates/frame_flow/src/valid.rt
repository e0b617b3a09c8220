//! Whether a flow may be asked for.

ghost use Rattle.std.specs.Prelude.{◌≡◌, ◌<◌, ◌↔◌, ◌+◌, IsTrue, All, AllPairs, IfOk, length};
ghost use Rattle.srp_base.specs.Bandwidth.{bits_of};
ghost use Rattle.tree_topology.specs.Topology.{HasNode};
ghost use Rattle.frame_flow.specs.Given.{IsSetting, IsFrame, IsRoute, IsEarlier, IsInRange, HasSlopesBelow};
ghost use Rattle.frame_flow.specs.Copies.{all_places};

use crate::frame::{Frame, Route};
use crate::place::Place;
use srp_base::{NoMemory, NodeNo, PortChange, Rate, Timeline};
use std::alloc::Global;
use tree_topology::Tree;

/// Whether `flow` may be asked for these: whether there is one rate for each link and 1 to 12,000
/// ticks, the frames and the timeline's changes are in order, and both are in their ranges.
pub fn is_valid(
    alloc: Global,
    tree: &Tree,
    rates: &[Rate],
    timeline: &Timeline,
    frames: &[Frame],
    ticks: u64,
) -> Result<bool, NoMemory>
    ensures { IfOk result (λ b. IsTrue b ↔ IsSetting (record {
      tree = tree.now;
      rates = rates.now;
      changes = timeline.now.changes;
      frames = frames.now;
      ticks = ticks;
    })) }
{
    are_valid(
        alloc,
        tree,
        rates,
        timeline.changes.as_slice(),
        frames,
        ticks,
    )
}

fn are_valid(
    alloc: Global,
    tree: &Tree,
    rates: &[Rate],
    changes: &[PortChange],
    frames: &[Frame],
    ticks: u64,
) -> Result<bool, NoMemory>
    ensures { IfOk result (λ b. IsTrue b ↔ IsSetting (record {
      tree = tree.now;
      rates = rates.now;
      changes = changes.now;
      frames = frames.now;
      ticks = ticks;
    })) }
{
    if rates.len() != usize::from(tree.links()) {
        return Ok(false);
    }
    let below = are_below(alloc, tree, rates, changes)?;
    Ok(below && is_in_order(tree, changes, frames, ticks))
}

fn is_in_order(tree: &Tree, changes: &[PortChange], frames: &[Frame], ticks: u64) -> bool
    ensures { IsTrue result ↔ IsInRange tree.now changes.now frames.now ticks }
{
    1 <= ticks
        && ticks <= 12_000
        && do_numbers_ascend(frames)
        && are_frames(tree, ticks, frames)
        && do_changes_ascend(changes)
}

fn do_numbers_ascend(frames: &[Frame]) -> bool
    ensures { IsTrue result ↔ AllPairs (λ f g. f.number < g.number) frames.now }
{
    for i in 1..frames.len() {
        if frames[i].number <= frames[i - 1].number {
            return false;
        }
    }
    true
}

fn are_frames(tree: &Tree, ticks: u64, frames: &[Frame]) -> bool
    ensures { IsTrue result ↔ All (IsFrame tree.now ticks) frames.now }
{
    frames.iter().all(|f| is_frame(tree, ticks, f))
}

fn is_frame(tree: &Tree, ticks: u64, f: &Frame) -> bool
    ensures { IsTrue result ↔ IsFrame tree.now ticks f.now }
{
    336 <= f.bits
        && f.bits <= 12_336
        && f.at.0 / 10_000_000_000 < ticks
        && is_node(tree, f.from)
        && is_route(tree, f.route)
}

fn is_node(tree: &Tree, node: NodeNo) -> bool
    ensures { IsTrue result ↔ HasNode tree.now node.0 }
{
    1 <= node.0 && node.0 <= tree.nodes()
}

fn is_route(tree: &Tree, route: Route) -> bool
    ensures { IsTrue result ↔ IsRoute tree.now route }
{
    match route {
        Route::Stream(_, _) => true,
        Route::To(station) => is_node(tree, station),
    }
}

fn do_changes_ascend(changes: &[PortChange]) -> bool
    ensures { IsTrue result ↔ AllPairs IsEarlier changes.now }
{
    for i in 1..changes.len() {
        if !is_earlier(&changes[i - 1], &changes[i]) {
            return false;
        }
    }
    true
}

fn is_earlier(c: &PortChange, d: &PortChange) -> bool
    ensures { IsTrue result ↔ IsEarlier c.now d.now }
{
    c.at.node.0 < d.at.node.0
        || c.at.node.0 == d.at.node.0
            && (c.at.port.0 < d.at.port.0 || c.at.port.0 == d.at.port.0 && c.tick < d.tick)
}

fn are_below(
    alloc: Global,
    tree: &Tree,
    rates: &[Rate],
    changes: &[PortChange],
) -> Result<bool, NoMemory>
    requires { length rates.now ≡ length tree.now.links }
    ensures { IfOk result (λ b. IsTrue b
        ↔ All (HasSlopesBelow changes.now) (all_places tree.now.links rates.now)) }
{
    let places = Place::all(alloc, tree, rates)?;
    Ok(are_below_at(changes, &places))
}

fn are_below_at(changes: &[PortChange], places: &[Place]) -> bool
    ensures { IsTrue result ↔ All (HasSlopesBelow changes.now) places.now }
{
    places.iter().all(|x| is_below(changes, x))
}

fn is_below(changes: &[PortChange], place: &Place) -> bool
    ensures { IsTrue result ↔ HasSlopesBelow changes.now place.now }
{
    changes.iter().all(|c| is_change_below(c, place))
}

fn is_change_below(c: &PortChange, place: &Place) -> bool
    ensures { IsTrue result
        ↔ (c.now.at ≡ place.now.at → c.now.slope_a + c.now.slope_b < bits_of place.now.rate) }
{
    let bits = place.rate.bits();
    c.at != place.at || c.slope_a < bits && c.slope_b < bits - c.slope_a
}
