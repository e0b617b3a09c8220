//! What is known of nodes that rest, so that nobody asks them in each tick.

ghost use Rattle.std.specs.Prelude.{◌≡◌, ◌||◌, true, false, length, IfOk};
ghost use Rattle.node_core.specs.State.{is_busy_node, is_sending_time};
ghost use Rattle.world_core.specs.World.{WorldState};
ghost use Rattle.srp_schedule.specs.Rest.{AreRests, IsRestOf, SaysNothing, is_rest_at, rest_of};

use node_core::laws::a_node_at_rest_stays_so;
use node_core::{JOIN_TIME, Node, is_sending_time};
use srp_base::{Cs, NoMemory};
use std::alloc::Global;
use world_core::World;

/// What is known of a node.
#[derive(Clone, Copy)]
pub(crate) enum Rest {
    /// Nothing. Where it makes no step in its turn, it is asked then whether it is at rest.
    Unknown,
    /// Nothing, and it isn't asked whether it is at rest until it has made a step or PDUs have been
    /// carried. Its jobs are asked for in each tick.
    Awake,
    /// It has nothing to do but send up to this moment, in cs, unless something happens to it.
    UpTo(Cs),
}

/// Of each node of a network nothing is known.
pub(crate) fn nothing_known(alloc: Global, world: &World) -> Result<Vec<Rest>, NoMemory>
    ensures { IfOk result (λ rests. AreRests world.now rests.items) }
{
    world.keeps();
    let rests = vec![in alloc; Rest::Unknown; usize::from(world.tree().nodes())]?;
    Ok(rests)
}

/// Where something has happened to some node, of each node this is known, which says nothing.
pub(crate) fn forget_if(has_happened: bool, rest: Rest, rests: &mut Vec<Rest>)
    requires { SaysNothing rest }
    ensures { (w : WorldState) → length rests.old.items ≡ length w.tree.kinds
        → (has_happened ≡ false → AreRests w rests.old.items) → AreRests w rests.new.items }
{
    if has_happened {
        rests.fill(rest);
    }
}

/// Whether a node is known to have nothing to do now.
pub(crate) fn rests_now(node: &Node, rest: Rest) -> bool
    requires { IsRestOf rest node.now.state }
    ensures value { result ≡ is_rest_at node.now.state.clock rest }
    ensures idle { result ≡ true
        → (is_busy_node node.now.state || is_sending_time node.now.state.clock) ≡ false }
{
    a_node_at_rest_stays_so();
    match rest {
        Rest::UpTo(until) => node.now() <= until && !is_sending_time(node.now()),
        Rest::Unknown | Rest::Awake => false,
    }
}

/// What is known of a node behind its turn in a tick: nothing where it has made a step; else what
/// was known of it, or what it answers where it was to be asked.
pub(crate) fn rest_after(node: &Node, rest: Rest, has_made: bool) -> Rest
    requires { has_made ≡ false → IsRestOf rest node.now.state }
    ensures { IsRestOf result node.now.state }
{
    if has_made {
        return Rest::Unknown;
    }
    match rest {
        Rest::Unknown => asked(node),
        Rest::Awake | Rest::UpTo(_) => rest,
    }
}

// What a node answers: whether it is at rest up to the next moment of sending.
fn asked(node: &Node) -> Rest
    ensures value { result ≡ rest_of node.now.state }
    ensures rest { IsRestOf result node.now.state }
{
    node.keeps();
    let until = Cs(node.now().0 / JOIN_TIME * JOIN_TIME + (JOIN_TIME - 1));
    if node.is_at_rest(until) {
        Rest::UpTo(until)
    } else {
        Rest::Awake
    }
}
