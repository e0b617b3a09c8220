//! Class B's bound and its longest wait at a port.

ghost use Rattle.std.specs.Prelude.{◌≡◌, IfOk};
ghost use Rattle.class_b_bound.specs.Waits.{worst_wait_of};
ghost use Rattle.scenario_bounds.specs.PortBounds.{IsWithinBoundB, bound_at};

use crate::caps::caps_at;
use class_b_bound::{bound_b, worst_wait};
use frame_flow::PortFlow;
use srp_base::NoMemory;
use std::alloc::Global;
use topology_file::Scenario;

/// How long class B waits at a port, in bit times of the port.
#[derive(Clone, Copy)]
pub struct PortBound {
    /// At most, whatever frames come.
    pub wait: u64,
    /// At worst in the flow.
    pub worst: u64,
}

/// Class B's bound at a port by its rate and its caps, and its longest wait in the port's flow.
/// Class B stays within its bound at the port, as the law `class_b_stays_within_at_every_port` has
/// it of each flow.
pub fn bound_of_port(
    alloc: Global,
    scenario: &Scenario,
    flow: &PortFlow,
) -> Result<PortBound, NoMemory>
    requires { IsWithinBoundB scenario.now flow.now }
    ensures wait { IfOk result (λ b. b.wait ≡ (bound_at scenario.now flow.now).wait) }
    ensures worst { IfOk result (λ b. b.worst ≡ worst_wait_of flow.now.input) }
{
    let caps = caps_at(scenario, flow.at);
    let wait = bound_b(flow.input.rate, caps.class_a, caps.both).wait;
    let worst = worst_wait(alloc, &flow.input, caps.class_a, caps.both)?;
    Ok(PortBound { wait, worst })
}
