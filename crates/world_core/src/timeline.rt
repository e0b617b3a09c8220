//! The timeline: what is in force at each port, entered where it differs from what was.

ghost use Rattle.std.specs.Prelude.{◌≡◌, ◌≤◌, ◌<◌, ◌++◌, ℕ, List, true, false, length, option_map, option_to_list, All, AllPairs, flat_map, IfOk, OnOk, OnErr};
ghost use Rattle.std.specs.List.{AllWithin};
ghost use Rattle.srp_base.specs.declared.ports.PortChange.{PortChange};
ghost use Rattle.tree_topology.specs.Topology.{HasNode};
ghost use Rattle.frame_flow.specs.{Force.changes_at, Force.in_force, Copies.ports_at, Given.IsEarlier};
ghost use Rattle.attribute_propagation.specs.Ports.{IsLinkPort, place_of};
ghost use Rattle.node_core.specs.State.{ports_of};
ghost use Rattle.world_core.specs.Timeline.{node_force, force_at, lacking, tree_ports, with_notes, AreChanges};
ghost use Rattle.world_core.specs.Merging.{precedes};

use crate::merging::{precedes, put_among};
use crate::reservation::{is_said, new_change};
use crate::world::World;
use node_core::Node;
use srp_base::{EgressPort, NoMemory, NodeNo, PortChange, PortNo, Timeline};
use std::alloc::Global;
use std::collections::VecDeque;

impl World {
    /// Enters a change at a tick for each port at which something else is in force now than the
    /// timeline has of it: other streams are booked, a slope is another one, or other VIDs are
    /// registered. The timeline's changes are of the tree's ports, in order, and none is at that
    /// tick or after it. After want of memory the timeline is as it was.
    pub fn note_tick(&self, tick: u64, timeline: &mut Timeline) -> Result<(), NoMemory>
        requires { AreChanges self.now.tree tick timeline.old.changes }
        ensures ok { OnOk result (timeline.new.changes
            ≡ with_notes tick self.now timeline.old.changes) }
        ensures err { OnErr result (timeline.new ≡ timeline.old) }
    {
        let alloc = *self.nodes.allocator();
        let fresh = fresh_changes(alloc, self, tick, timeline.changes.as_slice())?;
        put_among(alloc, &mut timeline.changes, fresh)?;
        Ok(())
    }
}

// The changes that those of all ports lack, ports ascending.
fn fresh_changes(
    alloc: Global,
    world: &World,
    tick: u64,
    changes: &[PortChange],
) -> Result<VecDeque<PortChange>, NoMemory>
    requires { AreChanges world.now.tree tick changes.now }
    ensures { IfOk result (λ v. v.items ≡ flat_map
        (λ p. lacking tick p (force_at p world.now) (changes_at changes.now p))
        (tree_ports world.now.tree)) }
{
    world.keeps();
    let mut fresh = VecDeque::new(alloc);
    for x in 0..world.tree().nodes() {
        add_of_node(alloc, world, NodeNo(x + 1), tick, changes, &mut fresh)?;
    }
    Ok(fresh)
}

// Adds those that a node's ports lack.
fn add_of_node(
    alloc: Global,
    world: &World,
    number: NodeNo,
    tick: u64,
    changes: &[PortChange],
    fresh: &mut VecDeque<PortChange>,
) -> Result<(), NoMemory>
    requires node { HasNode world.now.tree number.0 }
    requires changes { AreChanges world.now.tree tick changes.now }
    ensures { OnOk result (fresh.new.items ≡ fresh.old.items ++ flat_map
        (λ p. lacking tick p (force_at p world.now) (changes_at changes.now p))
        (ports_at world.now.tree.links number.0)) }
{
    world.keeps();
    let node = world.node(number);
    for k in 0..node.ports() {
        let at = EgressPort {
            node: number,
            port: PortNo(k + 1),
        };
        add_of_port(alloc, node, at, tick, changes, fresh)?;
    }
    Ok(())
}

// Adds that which the changes of a node's port lack, if they do.
fn add_of_port(
    alloc: Global,
    node: &Node,
    at: EgressPort,
    tick: u64,
    changes: &[PortChange],
    fresh: &mut VecDeque<PortChange>,
) -> Result<(), NoMemory>
    requires port { IsLinkPort at.port (ports_of node.now.state) }
    requires order { AllPairs IsEarlier changes.now }
    requires before { All (λ c. c.tick < tick) changes.now }
    ensures { OnOk result (fresh.new.items ≡ fresh.old.items
        ++ lacking tick at (node_force (place_of at.port) node.now.state)
        (changes_at changes.now at)) }
{
    if let Some(change) = lacking_change(alloc, node, at, tick, last_at(changes, at))? {
        fresh.push_back(change)?;
    }
    Ok(())
}

/// The change that the changes of a node's port lack in a tick, if they do, by the last of them.
pub(crate) fn lacking_change(
    alloc: Global,
    node: &Node,
    at: EgressPort,
    tick: u64,
    last: Option<&PortChange>,
) -> Result<Option<PortChange>, NoMemory>
    requires { IsLinkPort at.port (ports_of node.now.state) }
    ensures { IfOk result (λ o. (changes : List PortChange)
        → option_map (λ c. c.now) last.entry ≡ in_force tick changes
        → option_to_list o
        ≡ lacking tick at (node_force (place_of at.port) node.now.state) changes) }
{
    node.keeps();
    let part = node.vlan_part(at.port);
    let ledger = node.ledger(at.port);
    if is_said(part, ledger, last) {
        return Ok(None);
    }
    Ok(Some(new_change(alloc, tick, at, part, ledger)?))
}

// The last of the changes at a port: what is in force there in each tick after all of them.
fn last_at(changes: &[PortChange], at: EgressPort) -> Option<&PortChange>
    requires { AllPairs IsEarlier changes.now }
    ensures { (tick : ℕ) → All (λ c. c.tick < tick) changes.now
        → option_map (λ c. c.now) result ≡ in_force tick (changes_at changes.now at) }
{
    let count = count_upto(changes, at);
    if count == 0 {
        return None;
    }
    let last = &changes[count - 1];
    if last.at == at { Some(last) } else { None }
}

// How many of the changes are of a port or of one before it.
fn count_upto(changes: &[PortChange], at: EgressPort) -> usize
    requires { AllPairs IsEarlier changes.now }
    ensures within { result ≤ length changes.now }
    ensures upto { AllWithin (λ c. precedes at c.at ≡ false) changes.now 0 result }
    ensures after { AllWithin (λ c. precedes at c.at ≡ true) changes.now result
        (length changes.now) }
{
    changes.partition_point(|c| !precedes(at, c.at))
}
