//! The whole text.

ghost use Rattle.std.specs.Prelude.{◌≡◌, ◌++◌, flat_map, IfOk, OnOk};
ghost use Rattle.std.specs.List.{AllByRecursion};
ghost use Rattle.tree_topology.specs.Topology.{HasPort};
ghost use Rattle.port_needs.specs.Demands.{demands_from};
ghost use Rattle.port_needs.specs.Needs.{needs_text as needs_text_spec, or_nothing, port_needs};

use crate::demand::{Wish, demands_of};
use crate::never::put_streams;
use crate::ports::put_ports;
use report_words::{ports_of_links, put};
use srp_base::{EgressPort, NoMemory};
use std::alloc::Global;
use topology_file::Scenario;

// The lines of these ports that are too small, or that nothing is needed.
fn ports_text(
    alloc: Global,
    scenario: &Scenario,
    ports: &[EgressPort],
    wishes: &[Wish],
) -> Result<Vec<u8>, NoMemory>
    requires ports { AllByRecursion (HasPort scenario.now.tree) ports.now }
    ensures { IfOk result (λ text. text.items ≡ or_nothing (flat_map
        (port_needs scenario.now
        (demands_from scenario.now ports.now wishes.now 1 scenario.now.streams)) ports.now)) }
{
    let demands = demands_of(alloc, scenario, ports, wishes)?;
    let mut out = Vec::new(alloc);
    put_ports(&mut out, scenario, &demands, ports)?;
    if out.is_empty() {
        put(&mut out, "needs nothing\n")?;
    }
    Ok(out)
}

/// What a scenario's network needs so that nothing of these wishes is refused for want of
/// bandwidth, in octets: for each port, link by link, end `a` first, that is too small for all that
/// is wished behind it, the slopes of class A and of both classes with the port's caps, in bit/s
/// (IEEE Std 802.1Q-2018, 34.3), the least shares in percent that suffice at its rate, or `none`
/// where they pass 90, and the least rate in Mb/s of which its shares suffice, or `none`; or that
/// nothing is needed. Then each wished stream that no link helps, in the order of the file: with
/// the code 13 or 14 at the port of its talker, with which every port refuses it, or with the code
/// 8 at each port on the way to a station that wishes it, which is at the boundary of the domain of
/// its class (35.2.2.8.7). A wish whose stream or station the scenario hasn't is none.
pub fn needs_text(alloc: Global, scenario: &Scenario, wishes: &[Wish]) -> Result<Vec<u8>, NoMemory>
    ensures { IfOk result (λ text. text.items ≡ needs_text_spec scenario.now wishes.now) }
{
    let ports = ports_of_links(alloc, &scenario.tree)?;
    let mut out = ports_text(alloc, scenario, &ports, wishes)?;
    put_streams(&mut out, scenario, &ports, wishes)?;
    Ok(out)
}
