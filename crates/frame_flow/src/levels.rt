//! The flow of frames over a tree, port by port.

ghost use Rattle.std.specs.Prelude.{◌≡◌, ◌+◌, ◌<◌, ◌≤◌, ◌≢◌, true, false, slice_set, IfOk, OnOk, length, map, Contains, if◌then◌else◌};
ghost use Rattle.tree_topology.specs.{Topology.HasPort, Walk.count_behind};
ghost use Rattle.frame_flow.specs.Flow.{IsFlow, port_flow};
ghost use Rattle.frame_flow.specs.Copies.{all_places, arriving, in_order};
ghost use Rattle.frame_flow.specs.Force.{changes_at};
ghost use Rattle.frame_flow.specs.Given.{IsSetting};
ghost use Rattle.frame_flow.specs.Incoming.{AreKept, AreOfSetting, AreSourcesBelow, leaving};
ghost use Rattle.frame_flow.specs.Levels.{ArePorts, AreAt, AreDoneBefore, level_at, level_of};

use crate::by_node::FramesByNode;
use crate::fates::flow_of_copies;
use crate::force::changes_at;
use crate::frame::Frame;
use crate::incoming::{AtNode, IncomingOf, NodeCopies};
use crate::place::Place;
use crate::result::{FlowResult, PortFlow};
use crate::setting::FlowSetting;
use credit_shaper::PortInput;
use srp_base::{EgressPort, NoMemory, NodeNo, PortChange, Rate, Seq, Timeline};
use std::alloc::Global;
use tree_topology::Tree;

/// The flow of frames over a tree in so many ticks of 10 ms: what each port's shaper is given, and
/// what becomes of each copy of a frame.
///
/// There is one rate for each link. The frames ascend by number; each stands before the run's end,
/// takes 336 to 12,336 bits, and names stations of the tree. The timeline's changes ascend by port
/// and tick, and at each port both slopes together are below the rate. There are 1 to 12,000 ticks.
pub fn flow(
    alloc: Global,
    tree: &Tree,
    rates: &[Rate],
    timeline: &Timeline,
    frames: &[Frame],
    ticks: u64,
) -> Result<FlowResult, NoMemory>
    requires { IsSetting (record {
      tree = tree.now;
      rates = rates.now;
      changes = timeline.now.changes;
      frames = frames.now;
      ticks = ticks;
    }) }
    ensures { IfOk result (λ f. IsFlow (record {
      tree = tree.now;
      rates = rates.now;
      changes = timeline.now.changes;
      frames = frames.now;
      ticks = ticks;
    }) f.ports) }
{
    let own = FramesByNode::of(alloc, tree.nodes(), frames)?;
    let setting = FlowSetting {
        tree,
        rates,
        changes: timeline.changes.as_slice(),
        frames,
        ticks,
        own,
    };
    let ports = setting.flows(alloc)?;
    Ok(FlowResult {
        ports: Seq::from_vec(ports),
    })
}

impl<'a> FlowSetting<'a> {
    /// The flows at all ports: level by level, so that each comes after those that send into its
    /// node over its other links.
    fn flows(&self, alloc: Global) -> Result<Vec<PortFlow>, NoMemory>
        ensures { IfOk result (λ v. IsFlow self.now v.items) }
    {
        let places = self.places(alloc)?;
        let levels = self.levels(alloc, &places)?;
        let mut flows = no_flows(alloc, &places)?;
        for level in 0..self.count() {
            self.add_level(alloc, &places, &levels, level, &mut flows)?;
        }
        Ok(flows)
    }

    /// All ports, with the rates of their links.
    fn places(&self, alloc: Global) -> Result<Vec<Place>, NoMemory>
        ensures all { IfOk result (λ v. v.items ≡ all_places self.now.tree.links self.now.rates) }
    {
        Place::all(alloc, self.tree, self.rates)
    }

    /// The level of each port.
    fn levels(&self, alloc: Global, places: &[Place]) -> Result<Vec<usize>, NoMemory>
        requires { places.now ≡ all_places self.now.tree.links self.now.rates }
        ensures { IfOk result (λ v. v.items ≡ map (level_of self.now.tree) places.now) }
    {
        self.keeps();
        levels_of(alloc, self.tree, places)
    }

    /// One more than the highest level that a port may have, and than the highest number of a node.
    fn count(&self) -> usize
        ensures { result ≡ length self.now.tree.kinds + 1 }
    {
        usize::from(self.tree.nodes()) + 1
    }

    /// Puts in the flows at the ports of one level, node by node, where those of lower levels are
    /// there.
    fn add_level(
        &self,
        alloc: Global,
        places: &[Place],
        levels: &[usize],
        level: usize,
        flows: &mut Vec<PortFlow>,
    ) -> Result<(), NoMemory>
        requires places { places.now ≡ all_places self.now.tree.links self.now.rates }
        requires levels { levels.now ≡ map (level_of self.now.tree) places.now }
        requires at { AreAt places.now flows.old.items }
        requires done { AreDoneBefore self.now level 0 0 places.now flows.old.items }
        ensures at { OnOk result (AreAt places.now flows.new.items) }
        ensures done { OnOk result (AreDoneBefore self.now (level + 1) 0 0 places.now
            flows.new.items) }
    {
        self.keeps();
        for node in 0..self.count() {
            self.add_node(alloc, places, levels, level, node, flows)?;
        }
        Ok(())
    }

    /// Puts in the flows at a node's ports of one level, where those of lower levels and of lower
    /// nodes are there.
    fn add_node(
        &self,
        alloc: Global,
        places: &[Place],
        levels: &[usize],
        level: usize,
        node: usize,
        flows: &mut Vec<PortFlow>,
    ) -> Result<(), NoMemory>
        requires places { places.now ≡ all_places self.now.tree.links self.now.rates }
        requires levels { levels.now ≡ map (level_of self.now.tree) places.now }
        requires at { AreAt places.now flows.old.items }
        requires done { AreDoneBefore self.now level node 0 places.now flows.old.items }
        ensures at { OnOk result (AreAt places.now flows.new.items) }
        ensures done { OnOk result (AreDoneBefore self.now level (node + 1) 0 places.now
            flows.new.items) }
    {
        self.keeps();
        let mut kept = NodeCopies::none(alloc);
        for k in 0..places.len() {
            if is_of(&places[k], levels[k], level, node) {
                let is_shared = self.has_fellow(places, levels, level, places[k]);
                kept = self.copies_for(flows, places[k], level, is_shared, kept)?;
                self.put_flow(alloc, places[k], k, kept.copies.as_slice(), flows)?;
            }
        }
        Ok(())
    }

    /// Whether another port of a port's node is of its level and rate. Where there is one, all that
    /// sends into the node is of lower levels: each of the two is of a higher level than what sends
    /// into the node over another link than its own.
    fn has_fellow(&self, places: &[Place], levels: &[usize], level: usize, place: Place) -> bool
        requires places { places.now ≡ all_places self.now.tree.links self.now.rates }
        requires levels { levels.now ≡ map (level_of self.now.tree) places.now }
        requires port { HasPort self.now.tree place.at }
        requires level { level_of self.now.tree place ≡ level }
        ensures { result ≡ true → AreSourcesBelow self.now.tree level place.at.node.0 }
    {
        self.keeps();
        for j in 0..places.len() {
            if levels[j] == level && are_fellows(&places[j], place) {
                return true;
            }
        }
        false
    }

    /// The copies to take a port's from, in a level: those that are kept where they serve the port,
    /// and else new ones. Where these are shared they are all that come to its node, so that they
    /// serve the node's other ports of the level and rate as well.
    fn copies_for(
        &self,
        flows: &[PortFlow],
        place: Place,
        level: usize,
        is_shared: bool,
        kept: NodeCopies<'a>,
    ) -> Result<NodeCopies<'a>, NoMemory>
        requires port { HasPort self.now.tree place.at }
        requires shared { is_shared ≡ true
            → AreSourcesBelow self.now.tree level place.at.node.0 }
        requires kept { AreKept self.now level flows.now kept.at kept.copies.items }
        ensures kept { IfOk result (λ c. AreKept self.now level flows.now c.at c.copies.items) }
        ensures served { IfOk result (λ c. in_order (leaving self.now.tree.links place.at c.copies.items)
            ≡ arriving self.now.tree.links self.now.frames self.now.ticks flows.now place) }
    {
        if kept.at.serves_all(place) {
            return Ok(kept);
        }
        let at = AtNode::of_port(place, is_shared);
        let copies = self.copies_at(flows, at, kept.copies)?;
        Ok(NodeCopies { at, copies })
    }

    /// Puts in the flow at the port of an index, of copies at its node that serve it.
    fn put_flow(
        &self,
        alloc: Global,
        place: Place,
        k: usize,
        copies: &[IncomingOf<'a>],
        flows: &mut Vec<PortFlow>,
    ) -> Result<(), NoMemory>
        requires place { Contains (all_places self.now.tree.links self.now.rates) place }
        requires k { k < length flows.old.items }
        requires of { AreOfSetting self.now copies.now }
        requires served { in_order (leaving self.now.tree.links place.at copies.now)
            ≡ arriving self.now.tree.links self.now.frames self.now.ticks flows.old.items place }
        ensures { OnOk result (flows.new.items
            ≡ slice_set flows.old.items k (port_flow self.now flows.old.items place)) }
    {
        self.keeps();
        let changes = self.changes_at(alloc, place.at)?;
        let left = self.leaving(alloc, place.at, copies)?;
        let flow = flow_of_copies(alloc, self.ticks, place, &changes, &left)?;
        flows[k] = flow;
        Ok(())
    }

    /// The changes at a port.
    fn changes_at(&self, alloc: Global, at: EgressPort) -> Result<Vec<&PortChange>, NoMemory>
        ensures { IfOk result (λ v. map (λ c. c.now) v.items ≡ changes_at self.now.changes at) }
    {
        changes_at(alloc, self.changes, at)
    }
}

/// For each port how many nodes lie behind its peer: frames go from a lower number to a higher one.
fn levels_of(alloc: Global, tree: &Tree, places: &[Place]) -> Result<Vec<usize>, NoMemory>
    requires { ArePorts tree.now places.now }
    ensures { IfOk result (λ v. v.items ≡ map (level_of tree.now) places.now) }
{
    let mut levels = Vec::new(alloc);
    for place in places {
        levels.push(level(tree, place.at))?;
    }
    Ok(levels)
}

/// How many nodes lie behind a port's peer.
fn level(tree: &Tree, at: EgressPort) -> usize
    requires { HasPort tree.now at }
    ensures { result ≡ level_at tree.now at }
{
    tree.keeps();
    count_behind(tree, tree.peer(at))
}

/// Whether a port with its level is of this level and this node.
fn is_of(place: &Place, its_level: usize, level: usize, node: usize) -> bool
    ensures is { result ≡ true → (its_level ≡ level) × (place.now.at.node.0 ≡ node) }
    ensures other { result ≡ false → its_level ≡ level → place.now.at.node.0 ≢ node }
{
    its_level == level && usize::from(place.at.node.0) == node
}

/// Whether two ports of one rate are two of one node.
fn are_fellows(other: &Place, place: Place) -> bool
    ensures { result ≡ true → (other.now.at.node ≡ place.at.node)
        × (other.now.at.port ≢ place.at.port) }
{
    other.at.node == place.at.node && other.at.port != place.at.port && other.rate == place.rate
}

/// How many nodes lie behind a port.
fn count_behind(tree: &Tree, at: EgressPort) -> usize
    requires { HasPort tree.now at }
    ensures { result ≡ count_behind (length tree.now.kinds) tree.now.links at }
{
    let mut count = 0;
    for n in 0..tree.nodes() {
        count += one_if(tree.behind(at, NodeNo(n + 1)));
    }
    count
}

/// One, or nothing.
fn one_if(is: bool) -> usize
    ensures value { result ≡ (if is then 1 else 0) }
    ensures few { result ≤ 1 }
{
    if is { 1 } else { 0 }
}

/// For each port a flow of nothing.
fn no_flows(alloc: Global, places: &[Place]) -> Result<Vec<PortFlow>, NoMemory>
    ensures { IfOk result (λ v. AreAt places.now v.items) }
{
    let mut flows = Vec::new(alloc);
    for place in places {
        flows.push(no_flow(alloc, place))?;
    }
    Ok(flows)
}

/// A port's flow of nothing.
fn no_flow(alloc: Global, place: &Place) -> PortFlow
    ensures { result.at ≡ place.now.at }
{
    PortFlow {
        at: place.at,
        input: PortInput {
            rate: place.rate,
            slopes: Seq::new(alloc),
            arrivals: Seq::new(alloc),
            end: 0,
        },
        fates: Seq::new(alloc),
    }
}
