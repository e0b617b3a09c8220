//! A bridge of three link ports behind a hub: steps by its passes, a hub that is closed without one
//! of them, and what it gives once it has all.

ghost use Rattle.std.specs.Prelude.{◌≡◌, ◌+◌, ◌≤◌, IfSome};
ghost use Rattle.node_core.specs.State.{ports_of};
ghost use Rattle.turn_lock.specs.Passes.{first_passes};

use bridge_book::{HubCloseErr, HubClosed, NoGate, NodeHub, PortPass};
use msrp::DomainSet;
use node_core::{Node, NodeStep, PortStep, StepReply};
use srp_base::{BridgeId, Cs, NodeNo, Percent, PortNo, PortSetup, Rate, Seq};
use std::alloc::Global;
use std::sync::Wait;
use std::test::Fail;
use tree_topology::NodeKind;

fn setup() -> Option<PortSetup>
    ensures { IfSome result (λ s. (s.delta_a + s.delta_b ≤ 90) × (s.period.0 ≡ 1008)) }
{
    let delta_a = Percent::new(75)?;
    let delta_b = Percent::new(0)?;
    Some(PortSetup {
        rate: Rate::M100,
        delta_a,
        delta_b,
        latency: 0,
        period: Cs(1_008),
    })
}

// A bridge of three link ports at its start.
fn new_bridge(alloc: Global) -> Option<Node>
    ensures { IfSome result (λ node. ports_of node.state ≡ 3) }
{
    let ports = [setup()?, setup()?, setup()?];
    let (kind, id) = (NodeKind::Bridge, BridgeId(2));
    Node::new(
        alloc,
        kind,
        id,
        Cs(60),
        false,
        ports.as_slice(),
        DomainSet::Off,
    )
    .ok()
}

// A hub round a node of three link ports, and its passes.
fn begun(alloc: Global, node: Node) -> Option<(NodeHub, Vec<PortPass>)>
    requires { ports_of node.state ≡ 3 }
    ensures { IfSome result (λ r. r.1.items ≡ first_passes r.0.lock 3) }
{
    let (hub, passes) = NodeHub::begin(alloc, NodeNo(2), node).ok()?;
    Some((hub, passes.into_vec()))
}

// A step by a pass of the hub.
fn step<R: Wait>(rt: &R, hub: &NodeHub, pass: &mut PortPass, step: PortStep) -> Option<StepReply>
    requires { pass.old.lock ≡ hub.now.lock }
    ensures { pass.new.lock ≡ hub.now.lock }
{
    hub.step(rt, &NoGate, pass, step).ok()
}

// How many passes a hub of the bridge has, which number is missing when it is closed without the
// second, and what it gives when it is closed with all three, of which the first and the third have
// stepped.
fn closed_without_the_second<R: Wait>(rt: &R, alloc: Global) -> Option<(usize, u32, HubClosed)> {
    let (hub, mut passes) = begun(alloc, new_bridge(alloc)?)?;
    let count = passes.len();
    let mut third = passes.pop()?;
    let second = passes.pop()?;
    let mut first = passes.pop()?;
    step(rt, &hub, &mut third, PortStep::Settle)?;
    step(rt, &hub, &mut first, PortStep::Work)?;
    passes.push(third).ok()?;
    passes.push(first).ok()?;
    let Err(
        HubCloseErr::MissingPass {
            number,
            hub,
            passes: back,
        },
    ) = hub.close(Seq::from_vec(passes))
    else {
        return None;
    };
    let mut passes = back.into_vec();
    passes.push(second).ok()?;
    let closed = hub.close(Seq::from_vec(passes)).ok()?;
    Some((count, number, closed))
}

#[test]
fn a_hub_of_three_ports_misses_the_second(rt: HostRuntime) -> Result<(), Fail> {
    let Some((count, number, closed)) = closed_without_the_second(&rt, rt.alloc()) else {
        panic!(rt; "no memory")
    };
    assert!(rt; count == 3);
    assert!(rt; number == 2);
    assert!(rt; closed.node.ports() == 3);
    let steps = [
        NodeStep {
            port: PortNo(3),
            step: PortStep::Settle,
            reply: StepReply::Settled(0),
        },
        NodeStep {
            port: PortNo(1),
            step: PortStep::Work,
            reply: StepReply::Nothing,
        },
    ];
    assert!(rt; closed.steps.as_slice() == steps.as_slice());
    Ok(())
}
