//! The lines of the ports.

ghost use Rattle.std.specs.Prelude.{◌≡◌, ◌++◌, flat_map, OnOk};
ghost use Rattle.std.specs.List.{AllByRecursion};
ghost use Rattle.tree_topology.specs.Topology.{HasPort};
ghost use Rattle.srp_report.specs.Report.{port_part, port_parts};
ghost use Rattle.srp_report.specs.Tallies.{AreTallies};

use crate::registered::put_place;
use crate::tallies::Tallies;
use report_words::{Tally, port_name, ports_of_links, put_tally};
use srp_base::{EgressPort, NoMemory};
use topology_file::Scenario;
use world_core::{Tick, World};

/// The lines of all ports, in the order of the links, end `a` first.
pub(crate) fn put_ports(
    out: &mut Vec<u8>,
    scenario: &Scenario,
    world: &World,
    ticks: &[Tick],
) -> Result<(), NoMemory>
    ensures { OnOk result (out.new.items
        ≡ out.old.items ++ port_parts scenario.now world.now ticks.now) }
{
    world.keeps();
    let alloc = *out.allocator();
    let tallies = Tallies::of(alloc, world.tree().nodes(), ticks)?;
    let ports = ports_of_links(alloc, world.tree())?;
    put_each(out, scenario, world, ticks, &tallies, ports.as_slice())
}

// The lines of these ports.
fn put_each(
    out: &mut Vec<u8>,
    scenario: &Scenario,
    world: &World,
    ticks: &[Tick],
    tallies: &Tallies,
    ports: &[EgressPort],
) -> Result<(), NoMemory>
    requires tallies { AreTallies world.now.tree ticks.now tallies.now }
    requires ports { AllByRecursion (HasPort world.now.tree) ports.now }
    ensures { OnOk result (out.new.items
        ≡ out.old.items ++ flat_map (port_part scenario.now world.now ticks.now) ports.now) }
{
    for i in 0..ports.len() {
        put_port(out, scenario, world, ticks, tallies, ports[i])?;
    }
    Ok(())
}

// The lines of a port.
fn put_port(
    out: &mut Vec<u8>,
    scenario: &Scenario,
    world: &World,
    ticks: &[Tick],
    tallies: &Tallies,
    at: EgressPort,
) -> Result<(), NoMemory>
    requires tallies { AreTallies world.now.tree ticks.now tallies.now }
    requires port { HasPort world.now.tree at }
    ensures { OnOk result (out.new.items
        ≡ out.old.items ++ port_part scenario.now world.now ticks.now at) }
{
    let alloc = *out.allocator();
    let port = port_name(alloc, scenario.nodes.as_slice(), world.tree(), at)?;
    let tally = tallies.at(at).unwrap_or(Tally::zero());
    put_tally(out, port.as_slice(), tally)?;
    put_place(out, scenario.domains, port.as_slice(), world, at)
}
