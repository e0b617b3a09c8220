//! The ports of a tree with the rates of their links, in order of level: by how many nodes lie
//! behind their peers.

ghost use Rattle.std.specs.Prelude.{◌≡◌, ◌≤◌, length, map, All, IfOk, OnOk, if◌then◌else◌};
ghost use Rattle.std.specs.List.Sorted.{IsNonDecreasingBy, IsPermutation};
ghost use Rattle.tree_topology.specs.{Topology.HasPort, Walk.count_behind};
ghost use Rattle.frame_flow.specs.Copies.{all_places};
ghost use Rattle.frame_flow.specs.Levels.{ArePorts, level_at, level_of};
ghost use Rattle.class_delays.specs.Order.{AreRanked, ranked_place};

use frame_flow::Place;
use srp_base::{EgressPort, LinkNo, NoMemory, NodeNo, Rate};
use std::alloc::Global;
use tree_topology::Tree;

/// A port with its rate and its level.
#[derive(Clone, Copy)]
pub(crate) struct Ranked {
    pub(crate) level: usize,
    pub(crate) place: Place,
}

/// All ports, link by link, the end `a` first, with the rate of each link.
pub(crate) fn all_places(alloc: Global, tree: &Tree, rates: &[Rate]) -> Result<Vec<Place>, NoMemory>
    requires { length rates.now ≡ length tree.now.links }
    ensures { IfOk result (λ v. v.items ≡ all_places tree.now.links rates.now) }
{
    let mut places = Vec::new(alloc);
    for n in 0..tree.links() {
        let (a, b) = tree.ends(LinkNo(n + 1));
        let rate = rates[usize::from(n)];
        places.push(Place { at: a, rate })?;
        places.push(Place { at: b, rate })?;
    }
    Ok(places)
}

/// Ports in order of level.
pub(crate) fn by_level(
    alloc: Global,
    tree: &Tree,
    places: &[Place],
) -> Result<Vec<Ranked>, NoMemory>
    requires { ArePorts tree.now places.now }
    ensures ranked { IfOk result (λ v. AreRanked tree.now places.now v.items) }
    ensures order { IfOk result (λ v. IsNonDecreasingBy (λ x. x.level) v.items) }
{
    let mut ranked = levels_of(alloc, tree, places)?;
    ranked.sort_by_key(|x| x.level)?;
    Ok(ranked)
}

/// Ports, each with its level.
fn levels_of(alloc: Global, tree: &Tree, places: &[Place]) -> Result<Vec<Ranked>, NoMemory>
    requires { ArePorts tree.now places.now }
    ensures { IfOk result (λ v. v.items ≡ map (ranked_place tree.now) places.now) }
{
    let mut ranked = Vec::new(alloc);
    for place in places {
        ranked.push(Ranked {
            level: level(tree, place.at),
            place: *place,
        })?;
    }
    Ok(ranked)
}

/// How many nodes lie behind a port's peer.
fn level(tree: &Tree, at: EgressPort) -> usize
    requires { HasPort tree.now at }
    ensures { result ≡ level_at tree.now at }
{
    tree.keeps();
    count_behind(tree, tree.peer(at))
}

/// How many nodes lie behind a port.
fn count_behind(tree: &Tree, at: EgressPort) -> usize
    requires { HasPort tree.now at }
    ensures { result ≡ count_behind (length tree.now.kinds) tree.now.links at }
{
    let mut count = 0;
    for n in 0..tree.nodes() {
        count += one_if(tree.behind(at, NodeNo(n + 1)));
    }
    count
}

/// One, or nothing.
fn one_if(is: bool) -> usize
    ensures value { result ≡ (if is then 1 else 0) }
    ensures few { result ≤ 1 }
{
    if is { 1 } else { 0 }
}
