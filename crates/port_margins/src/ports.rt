//! The lines of the ports.

ghost use Rattle.std.specs.Prelude.{◌≡◌, ◌≤◌, ◌+◌, ◌++◌, flat_map, IfOk, OnOk};
ghost use Rattle.std.specs.List.{AllByRecursion};
ghost use Rattle.srp_base.specs.declared.bandwidth.Class.TheVariants.{A, B};
ghost use Rattle.tree_topology.specs.Topology.{HasPort};
ghost use Rattle.attribute_propagation.specs.Ports.{IsLinkPort, place_of};
ghost use Rattle.class_b_bound.specs.Bound.{AreCaps};
ghost use Rattle.node_core.specs.State.{ports_of, slope_at};
ghost use Rattle.scenario_bounds.specs.Caps.{caps_of_link};
ghost use Rattle.world_core.specs.Limits.{booked_at_port, IsWithinCaps, IsWithinLimits};
ghost use Rattle.port_margins.specs.Margins.{lines_on_link, margin_lines, margins_text as margins_text_spec, place_lines, port_lines, refusals_at};

use crate::lines::put_margin;
use crate::refused::put_refusals;
use crate::shapers::put_shapers;
use crate::shortage::put_shortage;
use node_core::Node;
use report_words::{port_name, ports_of_links, put_end};
use scenario_bounds::link_at;
use srp_base::{Class, EgressPort, NoMemory, PortNo};
use std::alloc::Global;
use stream_importance::Caps;
use topology_file::{LinkEntry, Scenario};
use world_core::World;

/// What the ports of a scenario's network have left, link by link, end `a` first: what class A and
/// both classes have booked, their caps and what is left, in bit/s; each stream of the file that
/// doesn't fit there, with the slope that it asks, what more important bookings take, the cap and
/// by how much it misses, in bit/s, the failure code (IEEE Std 802.1Q-2018, 35.2.2.8.7), and
/// whether Listeners of it are registered there; where there are such streams, what is booked and
/// what they ask together; and of each class that has booked something its credit-based shaper
/// (8.6.8.2), idleSlope and sendSlope in kbit/s, hiCredit and loCredit in octets. Last, whether the
/// network is quiet, and in step. The network is on the scenario's tree, and no port has booked past
/// its caps, as at every moment of a run.
pub fn margins_text(alloc: Global, scenario: &Scenario, world: &World) -> Result<Vec<u8>, NoMemory>
    requires tree { world.now.tree ≡ scenario.now.tree }
    requires limits { IsWithinLimits scenario.now world.now }
    ensures { IfOk result (λ text. text.items ≡ margins_text_spec scenario.now world.now) }
{
    let mut out = Vec::new(alloc);
    let ports = ports_of_links(alloc, world.tree())?;
    put_each(&mut out, scenario, world, ports.as_slice())?;
    put_end(&mut out, world.quiet(), world.in_step())?;
    Ok(out)
}

// The lines of these ports.
fn put_each(
    out: &mut Vec<u8>,
    scenario: &Scenario,
    world: &World,
    ports: &[EgressPort],
) -> Result<(), NoMemory>
    requires tree { world.now.tree ≡ scenario.now.tree }
    requires limits { IsWithinLimits scenario.now world.now }
    requires ports { AllByRecursion (HasPort world.now.tree) ports.now }
    ensures { OnOk result (out.new.items
        ≡ out.old.items ++ flat_map (port_lines scenario.now world.now) ports.now) }
{
    for i in 0..ports.len() {
        put_port(out, scenario, world, ports[i])?;
    }
    Ok(())
}

// The lines of a port.
fn put_port(
    out: &mut Vec<u8>,
    scenario: &Scenario,
    world: &World,
    at: EgressPort,
) -> Result<(), NoMemory>
    requires port { HasPort world.now.tree at }
    requires caps { IsWithinCaps scenario.now world.now at }
    ensures { OnOk result (out.new.items
        ≡ out.old.items ++ port_lines scenario.now world.now at) }
{
    match link_at(scenario, at) {
        Some(link) => put_on_link(out, scenario, world, at, &link),
        None => Ok(()),
    }
}

// The lines of a port on a link.
fn put_on_link(
    out: &mut Vec<u8>,
    scenario: &Scenario,
    world: &World,
    at: EgressPort,
    link: &LinkEntry,
) -> Result<(), NoMemory>
    requires port { HasPort world.now.tree at }
    requires rate { AreCaps link.now.rate (caps_of_link link.now).class_a
        (caps_of_link link.now).both }
    requires class_a { booked_at_port A at world.now ≤ (caps_of_link link.now).class_a }
    requires both { booked_at_port A at world.now + booked_at_port B at world.now
        ≤ (caps_of_link link.now).both }
    ensures { OnOk result (out.new.items
        ≡ out.old.items ++ lines_on_link scenario.now world.now at link.now) }
{
    world.keeps();
    let alloc = *out.allocator();
    let nodes = scenario.nodes.as_slice();
    let port = port_name(alloc, nodes, world.tree(), at)?;
    let node = world.node(at.node);
    put_place(out, port.as_slice(), link, scenario, node, at.port)?;
    Ok(())
}

// The lines of a port of a node, on a link.
fn put_place(
    out: &mut Vec<u8>,
    port: &[u8],
    link: &LinkEntry,
    scenario: &Scenario,
    node: &Node,
    at: PortNo,
) -> Result<(), NoMemory>
    requires port { IsLinkPort at (ports_of node.now.state) }
    requires rate { AreCaps link.now.rate (caps_of_link link.now).class_a
        (caps_of_link link.now).both }
    requires class_a { slope_at A (place_of at) node.now.state ≤ (caps_of_link link.now).class_a }
    requires both { slope_at A (place_of at) node.now.state
        + slope_at B (place_of at) node.now.state ≤ (caps_of_link link.now).both }
    ensures { OnOk result (out.new.items ≡ out.old.items
        ++ place_lines port.now link.now scenario.now.streams (place_of at) node.now.state) }
{
    let caps = Caps::new(link.rate, link.delta_a, link.delta_b);
    let class_a = node.slope(at, Class::A) as u64;
    let class_b = node.slope(at, Class::B) as u64;
    put_margins(out, port, caps, class_a, class_b)?;
    put_refused(out, port, caps, scenario, node, at, class_a, class_b)?;
    put_shapers(out, port, link.rate, caps, class_a, class_b)?;
    Ok(())
}

// What a port refuses.
fn put_refused(
    out: &mut Vec<u8>,
    port: &[u8],
    caps: Caps,
    scenario: &Scenario,
    node: &Node,
    at: PortNo,
    class_a: u64,
    class_b: u64,
) -> Result<(), NoMemory>
    requires { IsLinkPort at (ports_of node.now.state) }
    ensures { OnOk result (out.new.items ≡ out.old.items
        ++ refusals_at port.now caps scenario.now.streams (place_of at) node.now.state
        class_a class_b) }
{
    let streams = scenario.streams.as_slice();
    put_refusals(out, port, node, at, scenario)?;
    put_shortage(out, port, caps, streams, node, at, class_a, class_b)
}

// What is booked and left, of class A and of both classes.
fn put_margins(
    out: &mut Vec<u8>,
    port: &[u8],
    caps: Caps,
    class_a: u64,
    class_b: u64,
) -> Result<(), NoMemory>
    requires { class_a + class_b ≤ caps.both }
    ensures { OnOk result (out.new.items
        ≡ out.old.items ++ margin_lines port.now caps class_a class_b) }
{
    put_margin(out, port, "A", class_a, caps.class_a)?;
    put_margin(out, port, "A+B", class_a + class_b, caps.both)
}
