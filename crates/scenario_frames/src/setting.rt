//! What a scenario asks a flow of, and the flow of a run.

ghost use Rattle.std.specs.Prelude.{◌≡◌, AllPairs, IfOk, map};
ghost use Rattle.frame_flow.specs.{Flow.IsFlow, Given.IsEarlier};
ghost use Rattle.scenario_frames.specs.Setting.{AreBelowRates, plan_rates, setting_of};

use crate::frames::frames_of;
use crate::laws::a_scenario_asks_a_valid_flow;
use frame_flow::{FlowResult, flow};
use srp_base::{NoMemory, Rate, Timeline};
use std::alloc::Global;
use topology_file::{LinkEntry, Scenario};

/// The rates of a scenario's links, in order.
pub fn rates_of(alloc: Global, scenario: &Scenario) -> Result<Vec<Rate>, NoMemory>
    ensures { IfOk result (λ v. v.items ≡ plan_rates scenario.now) }
{
    rates_of_links(alloc, scenario.links.as_slice())
}

fn rates_of_links(alloc: Global, links: &[LinkEntry]) -> Result<Vec<Rate>, NoMemory>
    ensures { IfOk result (λ v. v.items ≡ map (λ l. l.rate) links.now) }
{
    let mut rates = Vec::with_capacity(alloc, links.len())?;
    for link in links {
        rates.push(link.rate)?;
    }
    Ok(rates)
}

/// The flow of a scenario's frames, with what was in force at its ports over a run; of no copies
/// where the scenario has no frames.
///
/// The timeline's changes ascend by port and tick, and at each port both slopes together are below
/// the rate.
pub fn flow_of(
    alloc: Global,
    scenario: &Scenario,
    timeline: &Timeline,
) -> Result<FlowResult, NoMemory>
    requires order { AllPairs IsEarlier timeline.now.changes }
    requires slopes { AreBelowRates scenario.now timeline.now.changes }
    ensures { IfOk result (λ f. IsFlow (setting_of scenario.now timeline.now.changes) f.ports) }
{
    scenario.keeps_rules();
    a_scenario_asks_a_valid_flow();
    let rates = rates_of(alloc, scenario)?;
    let frames = frames_of(alloc, scenario)?;
    flow(
        alloc,
        &scenario.tree,
        &rates,
        timeline,
        &frames,
        scenario.ticks,
    )
}
