//! The printed lines of a scenario's counts.

ghost use Rattle.std.specs.Prelude.{◌≡◌, ◌++◌, OnOk, IfOk, string_bytes};
ghost use Rattle.srpnet.specs.CheckText.{network_lines, run_lines, check_text as check_text_spec};

use std::alloc::{AllocError, Global};
use std::fmt::Write;
use topology_file::Scenario;

/// The counts of the network.
fn write_network(out: &mut String, scenario: &Scenario) -> Result<(), AllocError>
    ensures { OnOk result (string_bytes out.new
        ≡ string_bytes out.old ++ network_lines scenario.now) }
{
    let nodes = scenario.nodes.len();
    let links = scenario.links.len();
    let streams = scenario.streams.len();
    writeln!(out, "nodes {nodes}\nlinks {links}\nstreams {streams}")
}

/// The counts of what happens in it.
fn write_run(out: &mut String, scenario: &Scenario) -> Result<(), AllocError>
    ensures { OnOk result (string_bytes out.new ≡ string_bytes out.old ++ run_lines scenario.now) }
{
    let events = scenario.events.len();
    let frames = scenario.copies();
    let ticks = scenario.ticks;
    writeln!(out, "events {events}\nframes {frames}\nticks {ticks}")
}

/// The counts of a scenario.
pub fn check_text(alloc: Global, scenario: &Scenario) -> Result<String, AllocError>
    ensures { IfOk result (λ s. string_bytes s ≡ check_text_spec scenario.now) }
{
    let mut text = String::new(alloc);
    write_network(&mut text, scenario)?;
    write_run(&mut text, scenario)?;
    Ok(text)
}
