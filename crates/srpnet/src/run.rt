//! The commands `run` and `run journal`: a network through the ticks of a scenario, the frames
//! through its shapers, the report of all that, and behind it what happened.

pub mod text;

ghost use Rattle.std.specs.Prelude.{◌≡◌, List, IfOk, IfErr};
ghost use Rattle.frame_flow.specs.declared.result.PortFlow.{PortFlow};
ghost use Rattle.frame_flow.specs.Flow.{IsFlow};
ghost use Rattle.scenario_frames.specs.Setting.{setting_of};
ghost use Rattle.topology_file.specs.{Plan.Plan, Scenario.KeepsRules};
ghost use Rattle.world_core.specs.declared.journal.Tick.{Tick};
ghost use Rattle.world_core.specs.{World.WorldState, Moments.IsMoment, Ticks.AreCanonicalTicks, Ticks.AreLegalTicks, Timeline.IsTimelineOf};
ghost use Rattle.srpnet.specs.Input.{ending};
ghost use Rattle.srpnet.specs.Outcomes.{EndsAs};
ghost use Rattle.srpnet.specs.RunText.{RunOutput, IsReported, IsRun, HoldsAt, HoldsThroughout, report_alone, report_and_journal};
ghost use Rattle.srpnet.specs.ScenarioInput.{scenario_input as scenario_input_spec};

use crate::commands::CommandOutput;
use crate::outcome::Cause;
use crate::scenario::scenario_input;
use frame_flow::FlowResult;
use network_laws::laws::{
    duties_are_met_in_every_run, stream_duties_are_met_in_every_run,
    streams_keep_their_laws_whenever_at_rest, vlans_match_whenever_at_rest,
};
use scenario_bounds::laws::{
    class_b_stays_within_at_every_port, each_class_gets_its_bandwidth_at_every_port,
};
use scenario_frames::flow_of;
use scenario_frames::laws::every_window_stays_within;
use srp_base::NoMemory;
use srp_report::Printout;
use srp_schedule::plain_run;
use std::alloc::Global;
use text::{run_journal_text, run_text};
use topology_file::Scenario;
use world_core::Run;
use world_core::laws::{canonical_ticks_are_legal, every_moment_is_within_limits};
use world_core::timeline_laws::slopes_stay_within_limits;

/// What `run` prints with its journal, or why there is none.
pub fn output(alloc: Global, octets: &[u8]) -> Result<CommandOutput, Cause>
    ensures output { IfOk result
        (λ o. RunOutput AreCanonicalTicks report_alone octets.now o.journal.ticks o.text) }
    ensures ends { EndsAs (ending (scenario_input_spec octets.now)) result }
    ensures not_done { IfErr result (λ c. c ≡ Cause.Done → ⊥) }
{
    let scenario = scenario_input(alloc, octets)?;
    reported(alloc, &scenario)
}

/// What `run journal` prints with its journal, or why there is none.
pub fn output_with_journal(alloc: Global, octets: &[u8]) -> Result<CommandOutput, Cause>
    ensures output { IfOk result
        (λ o. RunOutput AreCanonicalTicks report_and_journal octets.now o.journal.ticks o.text) }
    ensures ends { EndsAs (ending (scenario_input_spec octets.now)) result }
    ensures not_done { IfErr result (λ c. c ≡ Cause.Done → ⊥) }
{
    let scenario = scenario_input(alloc, octets)?;
    reported_with_journal(alloc, &scenario)
}

/// A run of a scenario, with the flow of its frames.
#[derive(Drop)]
pub struct RunWithFlow {
    pub run: Run,
    pub flow: FlowResult,
}

/// Runs a scenario on one thread, and its frames through the shapers by what was in force.
pub fn run_of(alloc: Global, scenario: &Scenario) -> Result<RunWithFlow, NoMemory>
    ensures run { IfOk result (λ r. IsRun AreCanonicalTicks scenario.now r.run.journal.ticks
        r.run.world r.run.timeline.changes r.flow.ports) }
    ensures holds { IfOk result
        (λ r. HoldsThroughout scenario.now r.run.journal.ticks r.flow.ports) }
{
    canonical_ticks_are_legal();
    let run = plain_run(alloc, scenario)?;
    with_flow(alloc, scenario, run)
}

/// A scenario's run with the flow of its frames through the shapers by what was in force in it; and
/// what holds of every run.
pub fn with_flow(alloc: Global, scenario: &Scenario, run: Run) -> Result<RunWithFlow, NoMemory>
    requires legal { AreLegalTicks scenario.now run.journal.ticks run.world }
    requires timeline { IsTimelineOf scenario.now run.journal.ticks run.timeline.changes }
    ensures run { IfOk result (λ r. r.run ≡ run) }
    ensures flow { IfOk result
        (λ r. IsFlow (setting_of scenario.now run.timeline.changes) r.flow.ports) }
    ensures holds { IfOk result
        (λ r. HoldsThroughout scenario.now run.journal.ticks r.flow.ports) }
{
    slopes_stay_within_limits();
    scenario.keeps_rules();
    what_holds_of(scenario, &run);
    let flow = flow_of(alloc, scenario, &run.timeline)?;
    Ok(RunWithFlow { run, flow })
}

/// What holds of every legal run of a scenario, whatever flow its frames have. It does nothing.
pub fn what_holds_of(scenario: &Scenario, run: &Run)
    requires legal { AreLegalTicks scenario.now run.now.journal.ticks run.now.world }
    requires timeline { IsTimelineOf scenario.now run.now.journal.ticks
        run.now.timeline.changes }
    ensures { (flows : List PortFlow)
        → IsFlow (setting_of scenario.now run.now.timeline.changes) flows
        → HoldsThroughout scenario.now run.now.journal.ticks flows }
{
    let _ = &run.world;
    slopes_stay_within_limits();
    what_holds_of_every_run();
    every_window_stays_within();
    class_b_stays_within_at_every_port();
    each_class_gets_its_bandwidth_at_every_port();
    scenario.keeps_rules();
}

// What holds at every moment of every legal run of a scenario, as the laws of networks say it. It
// does nothing.
fn what_holds_of_every_run()
    ensures { (plan : Plan) (ticks : List Tick) (end w : WorldState) → KeepsRules plan
        → AreLegalTicks plan ticks end
        → IsMoment plan ticks w → HoldsAt plan w }
{
    duties_are_met_in_every_run();
    stream_duties_are_met_in_every_run();
    every_moment_is_within_limits();
    vlans_match_whenever_at_rest();
    streams_keep_their_laws_whenever_at_rest();
}

/// The output of a run that prints this text.
pub fn output_of(run: Run, text: Printout) -> CommandOutput
    ensures text { result.text ≡ text }
    ensures journal { result.journal.ticks ≡ run.journal.ticks }
{
    CommandOutput {
        text,
        journal: run.journal,
    }
}

// The report of a scenario's run.
fn reported(alloc: Global, scenario: &Scenario) -> Result<CommandOutput, Cause>
    ensures output { IfOk result
        (λ o. IsReported AreCanonicalTicks report_alone scenario.now o.journal.ticks o.text) }
    ensures memory { IfErr result (λ c. c ≡ Cause.NoMemory) }
{
    let ran = run_of(alloc, scenario)?;
    let flow = ran.flow;
    let text = run_text(alloc, scenario, &ran.run, flow)?;
    Ok(output_of(ran.run, text))
}

// The report, and behind it the journal's text.
fn reported_with_journal(alloc: Global, scenario: &Scenario) -> Result<CommandOutput, Cause>
    ensures output { IfOk result
        (λ o. IsReported AreCanonicalTicks report_and_journal scenario.now o.journal.ticks o.text) }
    ensures memory { IfErr result (λ c. c ≡ Cause.NoMemory) }
{
    let ran = run_of(alloc, scenario)?;
    let flow = ran.flow;
    let text = run_journal_text(alloc, scenario, &ran.run, flow)?;
    Ok(output_of(ran.run, text))
}
