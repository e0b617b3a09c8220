//! The streams that no link helps.

ghost use Rattle.std.specs.Prelude.{◌≡◌, ◌++◌, flat_map, OnOk};
ghost use Rattle.std.specs.List.{AllByRecursion};
ghost use Rattle.tree_topology.specs.Topology.{HasNode, HasPort};
ghost use Rattle.port_needs.specs.Demands.{AreNodes, code_of_entry as code_of_entry_spec, stations_of as stations_of_spec};
ghost use Rattle.port_needs.specs.Needs.{edge_line, edge_lines, never_by, never_from, refused_line};

use crate::demand::{Wish, class_of_entry, code_of_entry, leads_to_any, stations_of};
use crate::domains::is_edge;
use crate::lines::put_never;
use crate::ports::name_of_port;
use srp_base::{Class, EgressPort, NoMemory, NodeNo, PortNo};
use topology_file::{Scenario, StreamEntry};

// The line of a stream that every port refuses, at the port of its talker, where it is wished.
fn put_refused(
    out: &mut Vec<u8>,
    scenario: &Scenario,
    entry: &StreamEntry,
    code: u8,
    stations: &[NodeNo],
) -> Result<(), NoMemory>
    ensures { OnOk result (out.new.items
        ≡ out.old.items ++ refused_line scenario.now entry.now code stations.now) }
{
    if stations.is_empty() {
        return Ok(());
    }
    let at = EgressPort {
        node: entry.talker,
        port: PortNo(1),
    };
    let port = name_of_port(*out.allocator(), scenario, at)?;
    put_never(out, entry.name.as_slice(), code, &port)
}

// The line of a stream at a boundary that leads to a station which wishes it.
fn put_edge(
    out: &mut Vec<u8>,
    scenario: &Scenario,
    entry: &StreamEntry,
    class: Class,
    stations: &[NodeNo],
    at: EgressPort,
) -> Result<(), NoMemory>
    requires talker { HasNode scenario.now.tree entry.now.talker.0 }
    requires stations { AreNodes scenario.now.tree stations.now }
    requires port { HasPort scenario.now.tree at }
    ensures { OnOk result (out.new.items
        ≡ out.old.items ++ edge_line scenario.now entry.now class stations.now at) }
{
    if is_edge(scenario, class, at) && leads_to_any(&scenario.tree, at, entry.talker, stations) {
        let port = name_of_port(*out.allocator(), scenario, at)?;
        put_never(out, entry.name.as_slice(), 8, &port)
    } else {
        Ok(())
    }
}

// Those at these ports.
fn put_edges(
    out: &mut Vec<u8>,
    scenario: &Scenario,
    ports: &[EgressPort],
    entry: &StreamEntry,
    class: Class,
    stations: &[NodeNo],
) -> Result<(), NoMemory>
    requires talker { HasNode scenario.now.tree entry.now.talker.0 }
    requires stations { AreNodes scenario.now.tree stations.now }
    requires ports { AllByRecursion (HasPort scenario.now.tree) ports.now }
    ensures { OnOk result (out.new.items ≡ out.old.items
        ++ flat_map (edge_line scenario.now entry.now class stations.now) ports.now) }
{
    for i in 0..ports.len() {
        put_edge(out, scenario, entry, class, stations, ports[i])?;
    }
    Ok(())
}

// Those of a stream that some port may serve, by its class.
fn put_served(
    out: &mut Vec<u8>,
    scenario: &Scenario,
    ports: &[EgressPort],
    entry: &StreamEntry,
    stations: &[NodeNo],
    class: Option<Class>,
) -> Result<(), NoMemory>
    requires talker { HasNode scenario.now.tree entry.now.talker.0 }
    requires stations { AreNodes scenario.now.tree stations.now }
    requires ports { AllByRecursion (HasPort scenario.now.tree) ports.now }
    ensures { OnOk result (out.new.items ≡ out.old.items
        ++ edge_lines scenario.now ports.now entry.now stations.now class) }
{
    match class {
        Some(class) => put_edges(out, scenario, ports, entry, class, stations),
        None => Ok(()),
    }
}

// The lines of a stream, by the code with which every port refuses it.
fn put_by(
    out: &mut Vec<u8>,
    scenario: &Scenario,
    ports: &[EgressPort],
    entry: &StreamEntry,
    stations: &[NodeNo],
    code: Option<u8>,
) -> Result<(), NoMemory>
    requires talker { HasNode scenario.now.tree entry.now.talker.0 }
    requires stations { AreNodes scenario.now.tree stations.now }
    requires ports { AllByRecursion (HasPort scenario.now.tree) ports.now }
    ensures { OnOk result (out.new.items ≡ out.old.items
        ++ never_by scenario.now ports.now entry.now stations.now code) }
{
    match code {
        Some(code) => put_refused(out, scenario, entry, code, stations),
        None => put_served(out, scenario, ports, entry, stations, class_of_entry(entry)),
    }
}

// The lines of the stream of a number.
fn put_stream(
    out: &mut Vec<u8>,
    scenario: &Scenario,
    ports: &[EgressPort],
    wishes: &[Wish],
    number: usize,
    entry: &StreamEntry,
) -> Result<(), NoMemory>
    requires talker { HasNode scenario.now.tree entry.now.talker.0 }
    requires ports { AllByRecursion (HasPort scenario.now.tree) ports.now }
    ensures { OnOk result (out.new.items ≡ out.old.items
        ++ never_by scenario.now ports.now entry.now
        (stations_of_spec scenario.now.tree wishes.now number) (code_of_entry_spec entry.now)) }
{
    let stations = stations_of(*out.allocator(), &scenario.tree, wishes, number)?;
    put_by(out, scenario, ports, entry, &stations, code_of_entry(entry))
}

/// Those of a scenario's streams, in the order of the file; the ports are those of its links.
pub(crate) fn put_streams(
    out: &mut Vec<u8>,
    scenario: &Scenario,
    ports: &[EgressPort],
    wishes: &[Wish],
) -> Result<(), NoMemory>
    requires ports { AllByRecursion (HasPort scenario.now.tree) ports.now }
    ensures { OnOk result (out.new.items ≡ out.old.items
        ++ never_from scenario.now ports.now wishes.now 1 scenario.now.streams) }
{
    scenario.keeps_rules();
    let streams = scenario.streams.as_slice();
    for i in 0..streams.len() {
        put_stream(out, scenario, ports, wishes, i + 1, &streams[i])?;
    }
    Ok(())
}
