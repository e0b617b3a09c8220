//! The ports that are too small.

ghost use Rattle.std.specs.Prelude.{◌≡◌, ◌++◌, flat_map, IfOk, OnOk};
ghost use Rattle.std.specs.List.{AllByRecursion};
ghost use Rattle.report_words.specs.Names.{port_name as port_name_spec};
ghost use Rattle.tree_topology.specs.Topology.{HasPort};
ghost use Rattle.port_needs.specs.Demands.{IsKnownDemand, wants_among as wants_among_spec};
ghost use Rattle.port_needs.specs.Needs.{needs_line, needs_on_link, port_needs, short_line};

use crate::demand::{Demand, wants_among};
use crate::lines::{put_rate, put_shares, put_start};
use crate::shares::{is_enough, least_rate, shares_for, slope_of_a, slope_of_all};
use report_words::port_name;
use scenario_bounds::link_at;
use srp_base::{EgressPort, NoMemory};
use std::alloc::Global;
use stream_importance::{Caps, Want};
use topology_file::{LinkEntry, Scenario};

/// The name of a port.
pub(crate) fn name_of_port(
    alloc: Global,
    scenario: &Scenario,
    at: EgressPort,
) -> Result<Vec<u8>, NoMemory>
    ensures { IfOk result (λ v. v.items
        ≡ port_name_spec scenario.now.nodes scenario.now.tree.links at) }
{
    port_name(alloc, scenario.nodes.as_slice(), &scenario.tree, at)
}

// The line of a port on this link for which so much is wished.
fn put_short(
    out: &mut Vec<u8>,
    port: &[u8],
    link: &LinkEntry,
    class_a: u128,
    both: u128,
) -> Result<(), NoMemory>
    ensures { OnOk result (out.new.items
        ≡ out.old.items ++ short_line port.now link.now class_a both) }
{
    let caps = Caps::new(link.rate, link.delta_a, link.delta_b);
    put_start(out, port, caps, class_a, both)?;
    put_shares(out, shares_for(link.rate, class_a, both))?;
    put_rate(out, least_rate(link.delta_a, link.delta_b, class_a, both))
}

// The same, where the port is too small.
fn put_needs(
    out: &mut Vec<u8>,
    port: &[u8],
    link: &LinkEntry,
    class_a: u128,
    both: u128,
) -> Result<(), NoMemory>
    ensures { OnOk result (out.new.items
        ≡ out.old.items ++ needs_line port.now link.now class_a both) }
{
    let caps = Caps::new(link.rate, link.delta_a, link.delta_b);
    if is_enough(caps, class_a, both) {
        return Ok(());
    }
    put_short(out, port, link, class_a, both)
}

// By what is wanted there.
fn put_on_link(
    out: &mut Vec<u8>,
    port: &[u8],
    wants: &[Want],
    link: &LinkEntry,
) -> Result<(), NoMemory>
    ensures { OnOk result (out.new.items
        ≡ out.old.items ++ needs_on_link port.now wants.now link.now) }
{
    put_needs(out, port, link, slope_of_a(wants), slope_of_all(wants))
}

// The line of a port.
fn put_port(
    out: &mut Vec<u8>,
    scenario: &Scenario,
    demands: &[Demand],
    at: EgressPort,
) -> Result<(), NoMemory>
    requires port { HasPort scenario.now.tree at }
    requires known { AllByRecursion (IsKnownDemand scenario.now.tree) demands.now }
    ensures { OnOk result (out.new.items
        ≡ out.old.items ++ port_needs scenario.now demands.now at) }
{
    let alloc = *out.allocator();
    let port = name_of_port(alloc, scenario, at)?;
    let wants = wants_among(alloc, &scenario.tree, demands, at)?;
    match link_at(scenario, at) {
        Some(link) => put_on_link(out, &port, &wants, &link),
        None => Ok(()),
    }
}

/// Those of these ports.
pub(crate) fn put_ports(
    out: &mut Vec<u8>,
    scenario: &Scenario,
    demands: &[Demand],
    ports: &[EgressPort],
) -> Result<(), NoMemory>
    requires ports { AllByRecursion (HasPort scenario.now.tree) ports.now }
    requires known { AllByRecursion (IsKnownDemand scenario.now.tree) demands.now }
    ensures { OnOk result (out.new.items
        ≡ out.old.items ++ flat_map (port_needs scenario.now demands.now) ports.now) }
{
    for i in 0..ports.len() {
        put_port(out, scenario, demands, ports[i])?;
    }
    Ok(())
}
