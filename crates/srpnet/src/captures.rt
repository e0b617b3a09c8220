//! The command `run capture`: what goes over a link in a run, as a capture file.

ghost use Rattle.std.specs.Prelude.{◌≡◌, ◌&&◌, nat_le, true, length, IfErr, IfOk};
ghost use Rattle.tree_topology.specs.Topology.{HasLink};
ghost use Rattle.srpnet.specs.CaptureText.{CaptureOutput, IsCaptured, link_input as link_input_spec};
ghost use Rattle.srpnet.specs.Input.{GivesInput, ending};
ghost use Rattle.srpnet.specs.Outcomes.{EndsAs};

use crate::commands::CommandOutput;
use crate::outcome::Cause;
use crate::run::{output_of, what_holds_of};
use crate::scenario::scenario_input;
use link_capture::link_capture;
use srp_base::LinkNo;
use srp_report::Printout;
use srp_schedule::plain_run;
use std::alloc::Global;
use topology_file::Scenario;
use world_core::laws::canonical_ticks_are_legal;

/// What `run capture` prints for the link of a number with the journal of its run, or why there is
/// none.
pub fn output(alloc: Global, link: u32, octets: &[u8]) -> Result<CommandOutput, Cause>
    ensures output { IfOk result (λ o. CaptureOutput link octets.now o.journal.ticks o.text) }
    ensures ends { EndsAs (ending (link_input_spec link octets.now)) result }
    ensures not_done { IfErr result (λ c. c ≡ Cause.Done → ⊥) }
{
    let scenario = link_input(alloc, link, octets)?;
    captured(alloc, &scenario, link)
}

// The scenario of the octets that has a link of this number, or the cause of its refusal.
fn link_input(alloc: Global, link: u32, octets: &[u8]) -> Result<Scenario, Cause>
    ensures scenario { GivesInput (λ s. s) result (link_input_spec link octets.now) }
    ensures link { IfOk result (λ s. HasLink s.tree link) }
    ensures not_done { IfErr result (λ c. c ≡ Cause.Done → ⊥) }
{
    let scenario = scenario_input(alloc, octets)?;
    if has_link(&scenario, link) {
        Ok(scenario)
    } else {
        Err(Cause::NoLink)
    }
}

// Whether a scenario has a link of this number.
fn has_link(scenario: &Scenario, link: u32) -> bool
    ensures { result ≡ nat_le 1 link && nat_le link (length scenario.now.tree.links) }
{
    1 <= link && link <= u32::from(scenario.tree.links())
}

// The number of a link of a scenario.
fn number_of(scenario: &Scenario, link: u32) -> LinkNo
    requires { HasLink scenario.now.tree link }
    ensures { result.0 ≡ link }
{
    let _links = scenario.tree.links();
    LinkNo(link as u16)
}

// What goes over a link in a scenario's run.
fn captured(alloc: Global, scenario: &Scenario, link: u32) -> Result<CommandOutput, Cause>
    requires { HasLink scenario.now.tree link }
    ensures output { IfOk result (λ o. IsCaptured scenario.now link o.journal.ticks o.text) }
    ensures memory { IfErr result (λ c. c ≡ Cause.NoMemory) }
{
    canonical_ticks_are_legal();
    scenario.keeps_rules();
    let run = plain_run(alloc, scenario)?;
    what_holds_of(scenario, &run);
    let text = link_capture(alloc, scenario, &run, number_of(scenario, link))?;
    Ok(output_of(run, Printout::of(text)))
}
