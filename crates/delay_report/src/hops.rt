//! The lines of the ports.

ghost use Rattle.std.specs.Prelude.{◌≡◌, ◌++◌, flat_map, IfOk, OnOk};
ghost use Rattle.report_words.specs.Names.{port_name as port_name_spec};
ghost use Rattle.delay_report.specs.Text.{hop_of, named_hops, port_hops, reckoned_in as reckoned_in_spec, unbounded_at};
ghost use Rattle.scenario_delays.specs.Facts.{bounds_of};
ghost use Rattle.tree_topology.specs.Topology.{link_ports};

use crate::lines::{put_hop, put_unbounded};
use class_delays::{FedStream, delays_at, stream_in};
use report_words::{port_name, ports_of_links};
use scenario_delays::{ClassBounds, DelayFacts, StreamAnswer};
use srp_base::{Class, EgressPort, NoMemory};
use std::alloc::Global;
use topology_file::Scenario;

/// The line of a class that has no bounds.
pub(crate) fn put_bounds(
    out: &mut Vec<u8>,
    scenario: &Scenario,
    class: Class,
    bounds: &ClassBounds,
) -> Result<(), NoMemory>
    ensures { OnOk result (out.new.items ≡ out.old.items ++ unbounded_at scenario.now class bounds.now) }
{
    match bounds {
        ClassBounds::Reckoned(_) => Ok(()),
        ClassBounds::Unbounded(at) => {
            let name = name_of_port(*out.allocator(), scenario, *at)?;
            put_unbounded(out, class, &name)
        }
    }
}

/// The lines of all ports, link by link, end `a` first.
pub(crate) fn put_hops(
    out: &mut Vec<u8>,
    scenario: &Scenario,
    facts: &DelayFacts,
) -> Result<(), NoMemory>
    ensures { OnOk result (out.new.items ≡ out.old.items
        ++ flat_map (port_hops scenario.now facts.now) (link_ports scenario.now.tree)) }
{
    let alloc = *out.allocator();
    let ports = ports_of_links(alloc, &scenario.tree)?;
    put_ports(out, scenario, facts, &ports)
}

/// The lines of these ports.
fn put_ports(
    out: &mut Vec<u8>,
    scenario: &Scenario,
    facts: &DelayFacts,
    ports: &[EgressPort],
) -> Result<(), NoMemory>
    ensures { OnOk result (out.new.items
        ≡ out.old.items ++ flat_map (port_hops scenario.now facts.now) ports.now) }
{
    for at in ports {
        put_port(out, scenario, facts, *at)?;
    }
    Ok(())
}

/// The lines of a port.
fn put_port(
    out: &mut Vec<u8>,
    scenario: &Scenario,
    facts: &DelayFacts,
    at: EgressPort,
) -> Result<(), NoMemory>
    ensures { OnOk result (out.new.items
        ≡ out.old.items ++ port_hops scenario.now facts.now at) }
{
    let name = name_of_port(*out.allocator(), scenario, at)?;
    put_named(out, &name, facts, at)
}

/// The name of a port.
fn name_of_port(alloc: Global, scenario: &Scenario, at: EgressPort) -> Result<Vec<u8>, NoMemory>
    ensures { IfOk result (λ v. v.items
        ≡ port_name_spec scenario.now.nodes scenario.now.tree.links at) }
{
    port_name(alloc, scenario.nodes.as_slice(), &scenario.tree, at)
}

/// The lines of a port of this name.
fn put_named(
    out: &mut Vec<u8>,
    port: &[u8],
    facts: &DelayFacts,
    at: EgressPort,
) -> Result<(), NoMemory>
    ensures { OnOk result (out.new.items ≡ out.old.items ++ named_hops port.now facts.now at) }
{
    for answer in facts.order.as_slice() {
        put_answer(out, port, answer, reckoned_in(answer, at, facts))?;
    }
    Ok(())
}

/// The line of a stream at a port of this name, where it is fed there.
fn put_answer(
    out: &mut Vec<u8>,
    port: &[u8],
    answer: &StreamAnswer,
    fed: Option<FedStream>,
) -> Result<(), NoMemory>
    ensures { OnOk result (out.new.items ≡ out.old.items ++ hop_of port.now answer.now fed) }
{
    match fed {
        Some(fed) => put_hop(
            out,
            port,
            answer.stream.id,
            answer.class,
            fed.wait,
            fed.late,
        ),
        None => Ok(()),
    }
}

/// What is reckoned for a stream at a port, where it is fed there and its class has bounds.
pub(crate) fn reckoned_in(
    answer: &StreamAnswer,
    at: EgressPort,
    facts: &DelayFacts,
) -> Option<FedStream>
    ensures { result ≡ reckoned_in_spec answer.now at (bounds_of answer.now.class facts.now) }
{
    let bounds = match answer.class {
        Class::A => &facts.class_a,
        Class::B => &facts.class_b,
    };
    match bounds {
        ClassBounds::Reckoned(ports) => {
            let port = delays_at(ports.as_slice(), at)?;
            stream_in(port.fed.as_slice(), &answer.stream)
        }
        ClassBounds::Unbounded(_) => None,
    }
}
