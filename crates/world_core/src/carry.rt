//! The carrying at the end of one tick: a part of a tick, for those who run a scenario tick by
//! tick.

ghost use Rattle.std.specs.Prelude.{◌≡◌, false, map, IfOk, OnOk};
ghost use Rattle.std.specs.List.{list_any};
ghost use Rattle.tree_topology.specs.Topology.{HasLink, link_ports};
ghost use Rattle.world_core.specs.Ticks.{is_send};
ghost use Rattle.world_core.specs.World.{world_after};
ghost use Rattle.world_core.specs.Carrying.{has_send, carried_ends};

use crate::events::WorldEvent;
use crate::journal::NodeSteps;
use crate::laws::what_is_allowed_may_happen;
use crate::world::World;
use node_core::PortStep;
use srp_base::{LinkNo, NoMemory};

/// Where a step of the tick was Send, lets the PDUs of every port be carried; else no PDU waits.
/// Answers which.
pub fn carry_sent(world: &mut World, steps: &[NodeSteps]) -> Result<bool, NoMemory>
    requires { has_send steps.now ≡ false
        → world_after (map WorldEvent.Carry (link_ports world.old.tree)) world.old ≡ world.old }
    ensures carried { OnOk result
        (world.new ≡ world_after (map WorldEvent.Carry (link_ports world.old.tree)) world.old) }
    ensures sent { IfOk result (λ has_carried. has_carried ≡ has_send steps.now) }
    ensures none { IfOk result (λ has_carried. has_carried ≡ false → world.new ≡ world.old) }
{
    let has_sent = has_send(steps);
    if has_sent {
        carry_all(world)?;
    }
    Ok(has_sent)
}

// Whether a step of some node among these is Send.
fn has_send(steps: &[NodeSteps]) -> bool
    ensures { result ≡ has_send steps.now }
{
    steps.iter().any(sends)
}

// Whether a step of a node is Send.
fn sends(made: &NodeSteps) -> bool
    ensures { result ≡ list_any (λ st. is_send st.step) made.now.steps }
{
    made.steps
        .as_slice()
        .iter()
        .any(|st| matches!(st.step, PortStep::Send(_)))
}

// Lets the PDUs of every port be carried to its peer, link by link, those of end `a` first.
fn carry_all(world: &mut World) -> Result<(), NoMemory>
    ensures { OnOk result
        (world.new ≡ world_after (map WorldEvent.Carry (link_ports world.old.tree)) world.old) }
{
    what_is_allowed_may_happen();
    for n in 0..world.tree().links() {
        carry_link(world, LinkNo(n + 1))?;
    }
    Ok(())
}

// The PDUs of both ends of a link are carried, those of end `a` first.
fn carry_link(world: &mut World, link: LinkNo) -> Result<(), NoMemory>
    requires { HasLink world.old.tree link.0 }
    ensures { OnOk result (world.new ≡ world_after (carried_ends world.old.tree link.0) world.old) }
{
    what_is_allowed_may_happen();
    world.tree().keeps();
    let (a, b) = world.tree().ends(link);
    world.step(WorldEvent::Carry(a))?;
    world.step(WorldEvent::Carry(b))?;
    Ok(())
}
