//! The commands `plan`, `plan strict` and `expand`: what comes of the wishes of a plan or a scenario,
//! and the scenario that a plan stands for.

ghost use Rattle.std.specs.Prelude.{◌≡◌, ◌++◌, flat_map, All, IfErr, IfOk, OnOk};
ghost use Rattle.std.specs.List.{AllByRecursion};
ghost use Rattle.tree_topology.specs.Topology.{HasNode};
ghost use Rattle.srpnet.specs.Input.{ending};
ghost use Rattle.srpnet.specs.Outcomes.{EndsAs};
ghost use Rattle.srpnet.specs.PlanInput.{IsExpanded, any_scenario_input as any_scenario_input_spec, plan_input};
ghost use Rattle.srpnet.specs.WishesText.{IsPlanned, IsStrictVerdict, IsUngranted, PlanOutput, plan_words, verdict_of as verdict_of_spec};
ghost use Rattle.wishes.specs.Needs.{need_of, needs_of as needs_of_spec};

use crate::commands::{Answer, CommandOutput};
use crate::document::table_of;
use crate::outcome::Cause;
use crate::run::{output_of, what_holds_of};
use crate::scenario::any_scenario_input;
use plan_file::expanded_text;
use plan_file::laws::{plans_stand_for_scenarios, read_plans_keep_the_rules};
use port_needs::{Wish as Need, needs_text};
use scenario_delays::laws::{frames_go_in_time, talkers_are_nodes};
use scenario_delays::{DelayFacts, delay_facts};
use srp_base::{NoMemory, Seq};
use srp_report::Printout;
use std::alloc::Global;
use topology_file::Scenario;
use wishes::{Moments, Wish, outlook_text, run_with_moments, ungranted, wishes_in, wishes_text};
use world_core::Run;
use world_core::laws::{canonical_ticks_are_legal, what_is_allowed_may_happen};
use world_core::timeline_laws::slopes_stay_within_limits;

/// What `plan` prints with the journal of its run, or why there is none.
pub fn output(alloc: Global, octets: &[u8]) -> Result<CommandOutput, Cause>
    ensures output { IfOk result (λ o. PlanOutput octets.now o.journal.ticks o.text) }
    ensures ends { EndsAs (ending (any_scenario_input_spec octets.now)) result }
    ensures not_done { IfErr result (λ c. c ≡ Cause.Done → ⊥) }
{
    let scenario = any_scenario_input(alloc, octets)?;
    Ok(planned(alloc, &scenario)?.output)
}

/// What `plan strict` prints with the journal of its run and how it ends, or why there is none.
pub fn strict_answer(alloc: Global, octets: &[u8]) -> Result<Answer, Cause>
    ensures output { IfOk result (λ a. PlanOutput octets.now a.journal.ticks a.text) }
    ensures verdict { IfOk result (λ a. IsStrictVerdict octets.now a.journal.ticks a.cause) }
    ensures ends { EndsAs (ending (any_scenario_input_spec octets.now)) result }
    ensures not_done { IfErr result (λ c. c ≡ Cause.Done → ⊥) }
{
    let scenario = any_scenario_input(alloc, octets)?;
    let planned = planned(alloc, &scenario)?;
    let cause = verdict_of(planned.ungranted);
    Ok(Answer {
        text: planned.output.text,
        journal: planned.output.journal,
        cause,
    })
}

/// What `expand` prints, or why there is none.
pub fn expanded(alloc: Global, octets: &[u8]) -> Result<Seq<u8>, Cause>
    ensures output { IfOk result (IsExpanded octets.now) }
    ensures ends { EndsAs (ending (plan_input octets.now)) result }
    ensures not_done { IfErr result (λ c. c ≡ Cause.Done → ⊥) }
{
    plans_stand_for_scenarios();
    read_plans_keep_the_rules();
    let table = table_of(alloc, octets)?;
    let text = expanded_text(alloc, &table)?;
    Ok(Seq::from_vec(text.into_bytes()))
}

// What is printed of a run, with the journal of the run, and how many wishes aren't granted.
#[derive(Drop)]
struct PlannedRun {
    output: CommandOutput,
    ungranted: u64,
}

// How a strict command ends where so many wishes aren't granted.
fn verdict_of(ungranted: u64) -> Cause
    ensures { result ≡ verdict_of_spec ungranted }
{
    if ungranted == 0 {
        Cause::Done
    } else {
        Cause::NotGranted { wishes: ungranted }
    }
}

// What comes of the wishes in a scenario's run.
fn planned(alloc: Global, scenario: &Scenario) -> Result<PlannedRun, NoMemory>
    ensures output { IfOk result (λ p. IsPlanned scenario.now p.output.journal.ticks p.output.text) }
    ensures count { IfOk result (λ p. IsUngranted scenario.now p.output.journal.ticks p.ungranted) }
{
    canonical_ticks_are_legal();
    what_is_allowed_may_happen();
    slopes_stay_within_limits();
    frames_go_in_time();
    talkers_are_nodes();
    scenario.keeps_rules();
    let (run, moments) = run_with_moments(alloc, scenario)?;
    what_holds_of(scenario, &run);
    let facts = delay_facts(alloc, scenario, &run.timeline)?;
    let wishes = wishes_in(alloc, scenario, &run.world)?;
    let text = words_of(alloc, scenario, &run, &facts, &wishes, &moments)?;
    let count = ungranted(&wishes);
    Ok(PlannedRun {
        output: output_of(run, Printout::of(text)),
        ungranted: count,
    })
}

// What is printed of these wishes at the end of a run with these moments.
fn words_of(
    alloc: Global,
    scenario: &Scenario,
    run: &Run,
    facts: &DelayFacts,
    wishes: &[Wish],
    moments: &Moments,
) -> Result<Vec<u8>, NoMemory>
    requires talkers { All (λ a. HasNode scenario.now.tree a.stream.talker.0) facts.now.answers }
    requires stations { AllByRecursion (λ wish. HasNode scenario.now.tree wish.station.0)
        wishes.now }
    ensures { IfOk result (λ text. text.items
        ≡ plan_words scenario.now run.now.world facts.now wishes.now moments.now) }
{
    let needs = needs_of(alloc, wishes)?;
    let mut out = wishes_text(alloc, scenario, wishes, facts)?;
    push_all(&mut out, needs_text(alloc, scenario, &needs)?.as_slice())?;
    push_all(
        &mut out,
        outlook_text(alloc, scenario, run, moments)?.as_slice(),
    )?;
    Ok(out)
}

// Puts octets at the end of a text.
fn push_all(out: &mut Vec<u8>, octets: &[u8]) -> Result<(), NoMemory>
    ensures { OnOk result (out.new.items ≡ out.old.items ++ octets.now) }
{
    out.extend_from_slice(octets)?;
    Ok(())
}

// What these wishes need.
fn needs_of(alloc: Global, wishes: &[Wish]) -> Result<Vec<Need>, NoMemory>
    ensures { IfOk result (λ needs. needs.items ≡ needs_of_spec wishes.now) }
{
    let mut needs = Vec::new(alloc);
    push_needs(&mut needs, wishes)?;
    Ok(needs)
}

// What each of these needs.
fn push_needs(needs: &mut Vec<Need>, wishes: &[Wish]) -> Result<(), NoMemory>
    ensures { OnOk result (needs.new.items ≡ needs.old.items ++ flat_map need_of wishes.now) }
{
    for i in 0..wishes.len() {
        push_need(needs, &wishes[i])?;
    }
    Ok(())
}

// What a wish needs.
fn push_need(needs: &mut Vec<Need>, wish: &Wish) -> Result<(), NoMemory>
    ensures { OnOk result (needs.new.items ≡ needs.old.items ++ need_of wish.now) }
{
    if wish.talked && wish.stream < 65_535 {
        needs.push(Need {
            stream: wish.stream as u16 + 1,
            station: wish.station,
        })?;
    }
    Ok(())
}
