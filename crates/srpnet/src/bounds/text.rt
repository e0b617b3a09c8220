//! The printed text of `run bounds`.

ghost use Rattle.std.specs.Prelude.{◌≡◌, ◌++◌, All, flat_map, IfOk, OnOk};
ghost use Rattle.scenario_bounds.specs.PortBounds.{IsWithinBoundB};
ghost use Rattle.srpnet.specs.BoundsText.{bound_line, bound_lines, wait_line};
ghost use Rattle.srpnet.specs.RunText.{report_and_bounds};

use frame_flow::{FlowResult, PortFlow};
use report_words::{port_name, put, put_octets};
use scenario_bounds::{PortBound, bound_of_port};
use srp_base::NoMemory;
use srp_report::Printout;
use std::alloc::Global;
use topology_file::Scenario;
use world_core::Run;

/// The report of a run, and behind it class B's bounds.
pub fn run_bounds_text(
    alloc: Global,
    scenario: &Scenario,
    run: &Run,
    flow: FlowResult,
) -> Result<Printout, NoMemory>
    requires { All (IsWithinBoundB scenario.now) flow.ports }
    ensures { IfOk result (λ text. text
        ≡ report_and_bounds scenario.now run.now.journal.ticks run.now.world flow.ports) }
{
    let bounds = bounds_text(alloc, scenario, &flow)?;
    let mut text = Printout::of_run(alloc, scenario, run, flow)?;
    text.add(bounds.as_slice())?;
    Ok(text)
}

// The lines of all ports, where the scenario has frames.
fn bounds_text(alloc: Global, scenario: &Scenario, flow: &FlowResult) -> Result<Vec<u8>, NoMemory>
    requires { All (IsWithinBoundB scenario.now) flow.now.ports }
    ensures { IfOk result (λ v. v.items ≡ bound_lines scenario.now flow.now.ports) }
{
    let mut out = Vec::new(alloc);
    if scenario.frames.len() > 0 {
        put_each(&mut out, scenario, flow.ports.as_slice())?;
    }
    Ok(out)
}

// The lines of these ports.
fn put_each(out: &mut Vec<u8>, scenario: &Scenario, flows: &[PortFlow]) -> Result<(), NoMemory>
    requires { All (IsWithinBoundB scenario.now) flows.now }
    ensures { OnOk result (out.new.items
        ≡ out.old.items ++ flat_map (bound_line scenario.now) flows.now) }
{
    for flow in flows {
        put_bound(out, scenario, flow)?;
    }
    Ok(())
}

// The line of a port: class B's bound, and its longest wait.
fn put_bound(out: &mut Vec<u8>, scenario: &Scenario, flow: &PortFlow) -> Result<(), NoMemory>
    requires { IsWithinBoundB scenario.now flow.now }
    ensures { OnOk result (out.new.items ≡ out.old.items ++ bound_line scenario.now flow.now) }
{
    let alloc = *out.allocator();
    let PortBound { wait, worst } = bound_of_port(alloc, scenario, flow)?;
    let port = port_name(alloc, scenario.nodes.as_slice(), &scenario.tree, flow.at)?;
    put_line(out, port.as_slice(), wait, worst)
}

// The line of a port of this name.
fn put_line(out: &mut Vec<u8>, port: &[u8], wait: u64, worst: u64) -> Result<(), NoMemory>
    ensures { OnOk result (out.new.items ≡ out.old.items ++ wait_line port.now wait worst) }
{
    let alloc = *out.allocator();
    let numbers = format!(in alloc; " wait {wait} worst {worst}\n")?;
    put(out, "bound ")?;
    put_octets(out, port)?;
    put(out, &numbers)
}
