//! The runs of a scenario that a text is, with a thread for each port and plain.

use bridge_book::Gate;
use port_worker::run_ports;
use srp_schedule::plain_run;
use std::alloc::Global;
use std::sync::Wait;
use std::thread::Threads;
use topology_file::{Scenario, read_scenario};
use world_core::Run;

// The scenario that a text is.
fn scenario_of(alloc: Global, text: &str) -> Option<Scenario> {
    match toml::table_from_str(alloc, text) {
        Ok(table) => read_scenario(alloc, &table).ok(),
        Err(_) => None,
    }
}

fn ports_of<R: Threads + Wait + Sync, G: Gate>(
    rt: &R,
    alloc: Global,
    read: &Option<Scenario>,
    gate: &G,
) -> Option<Run> {
    match read {
        Some(scenario) => run_ports(rt, alloc, scenario, gate).ok(),
        None => None,
    }
}

fn plain_of(alloc: Global, read: &Option<Scenario>) -> Option<Run> {
    match read {
        Some(scenario) => plain_run(alloc, scenario).ok(),
        None => None,
    }
}

/// The run of a text's scenario with a thread for each port.
pub(crate) fn by_ports<R: Threads + Wait + Sync, G: Gate>(
    rt: &R,
    alloc: Global,
    text: &str,
    gate: &G,
) -> Option<Run> {
    let read = scenario_of(alloc, text);
    let run = ports_of(rt, alloc, &read, gate);
    drop(read);
    run
}

/// The plain run of a text's scenario.
pub(crate) fn plainly(alloc: Global, text: &str) -> Option<Run> {
    let read = scenario_of(alloc, text);
    let run = plain_of(alloc, &read);
    drop(read);
    run
}
