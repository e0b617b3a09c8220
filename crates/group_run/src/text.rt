//! What is printed of a run.

ghost use Rattle.std.specs.Prelude.{◌≡◌, ◌++◌, flat_map, IfOk, OnOk};
ghost use Rattle.std.specs.List.{AllByRecursion};
ghost use Rattle.tree_topology.specs.Topology.{HasPort};
ghost use Rattle.group_run.specs.Text.{group_at, group_text as group_text_spec, port_part, port_parts};

use crate::lines::put_group;
use crate::run::GroupRun;
use crate::tally::tally_of;
use group_file::GroupScenario;
use mmrp::GroupNet;
use report_words::{port_name, ports_of_links, put_end, put_tally, put_ticks};
use srp_base::{EgressPort, Mac, NoMemory};
use std::alloc::Global;

/// What is printed of a run of a group scenario, in octets: its length in ticks; for each port,
/// link by link, end `a` first, how many PDUs it sent, their octets, and how many malformed PDUs it
/// discarded, then each MAC address that is registered there with its Registrar's state, IN or LV
/// (IEEE Std 802.1Q-2018, 10.7.8), ascending; and whether the network is quiet and in step at the
/// end.
pub fn group_text(
    alloc: Global,
    scenario: &GroupScenario,
    run: &GroupRun,
) -> Result<Vec<u8>, NoMemory>
    ensures { IfOk result (λ text. text.items ≡ group_text_spec scenario.now run.now) }
{
    let mut out = Vec::new(alloc);
    put_ticks(&mut out, scenario.ticks)?;
    put_ports(&mut out, scenario, run)?;
    put_end(&mut out, run.net.quiet(), run.net.in_step())?;
    Ok(out)
}

// The lines of all ports.
fn put_ports(out: &mut Vec<u8>, scenario: &GroupScenario, run: &GroupRun) -> Result<(), NoMemory>
    ensures { OnOk result (out.new.items ≡ out.old.items ++ port_parts scenario.now run.now) }
{
    let alloc = *out.allocator();
    let ports = ports_of_links(alloc, run.net.tree())?;
    put_each(out, scenario, run, ports.as_slice())
}

// Those of these ports.
fn put_each(
    out: &mut Vec<u8>,
    scenario: &GroupScenario,
    run: &GroupRun,
    ports: &[EgressPort],
) -> Result<(), NoMemory>
    requires { AllByRecursion (HasPort run.now.net.tree) ports.now }
    ensures { OnOk result (out.new.items
        ≡ out.old.items ++ flat_map (port_part scenario.now run.now) ports.now) }
{
    for i in 0..ports.len() {
        put_port(out, scenario, run, ports[i])?;
    }
    Ok(())
}

// The lines of a port.
fn put_port(
    out: &mut Vec<u8>,
    scenario: &GroupScenario,
    run: &GroupRun,
    at: EgressPort,
) -> Result<(), NoMemory>
    requires { HasPort run.now.net.tree at }
    ensures { OnOk result (out.new.items ≡ out.old.items ++ port_part scenario.now run.now at) }
{
    let alloc = *out.allocator();
    let port = port_name(alloc, scenario.nodes.as_slice(), run.net.tree(), at)?;
    put_tally(out, port.as_slice(), tally_of(run.replies.as_slice(), at))?;
    let macs = run.net.groups(at)?;
    put_groups(out, port.as_slice(), &run.net, at, macs.as_slice())
}

// The lines of these MAC addresses at a port.
fn put_groups(
    out: &mut Vec<u8>,
    port: &[u8],
    net: &GroupNet,
    at: EgressPort,
    macs: &[Mac],
) -> Result<(), NoMemory>
    requires { HasPort net.now.tree at }
    ensures { OnOk result (out.new.items
        ≡ out.old.items ++ flat_map (group_at port.now net.now at) macs.now) }
{
    for mac in macs {
        put_group(out, port, *mac, net.registrar(at, *mac))?;
    }
    Ok(())
}
