//! Which nodes rest.

ghost use Rattle.std.specs.Prelude.{◌≡◌, drop, map, take, IfOk};
ghost use Rattle.std.specs.List.{list_all};
ghost use Rattle.wishes.specs.Watching.{all_rest as all_rest_spec, is_idle as is_idle_spec, rests_at as rests_at_spec};

use node_core::{Node, is_sending_time};
use srp_base::{NoMemory, NodeNo};
use std::alloc::Global;
use world_core::World;

/// The first of some items, so many as there are.
pub(crate) fn front<T>(items: &[T], count: usize) -> &[T]
    ensures { result.now ≡ take count items.now }
{
    match items.get(..count) {
        Some(front) => front,
        None => items,
    }
}

/// Those behind.
pub(crate) fn behind<T>(items: &[T], count: usize) -> &[T]
    ensures { result.now ≡ drop count items.now }
{
    let none: &[T] = &[];
    match items.get(count..) {
        Some(rest) => rest,
        None => none,
    }
}

/// Whether all nodes are known to rest, where that is known of some.
pub(crate) fn all_rest(rests: &[bool]) -> bool
    ensures { result ≡ all_rest_spec rests.now }
{
    if rests.is_empty() {
        return false;
    }
    are_all_set(rests)
}

fn are_all_set(flags: &[bool]) -> bool
    ensures { result ≡ list_all (λ b. b) flags.now }
{
    flags.iter().all(|flag| *flag)
}

/// Whether the node at a place does.
pub(crate) fn rests_at(rests: &[bool], at: usize) -> bool
    ensures { result ≡ rests_at_spec rests.now at }
{
    match rests.get(at) {
        Some(rest) => *rest,
        None => false,
    }
}

/// Which nodes change nothing by themselves in the tick that begins.
pub(crate) fn idle_nodes(alloc: Global, world: &World) -> Result<Vec<bool>, NoMemory>
    ensures { IfOk result (λ v. v.items ≡ map is_idle_spec world.now.nodes) }
{
    world.keeps();
    let mut idle = Vec::new(alloc);
    for i in 0..world.tree().nodes() {
        idle.push(is_idle(world.node(NodeNo(i + 1))))?;
    }
    Ok(idle)
}

// Whether a node isn't busy, and has nothing to say where it sends.
fn is_idle(node: &Node) -> bool
    ensures { result ≡ is_idle_spec node.now.state }
{
    !node.is_busy() && (!is_sending_time(node.now()) || node.still())
}
