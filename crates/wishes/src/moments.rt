//! The moments of a run: since when nothing changes that the applications hear or the ports have
//! booked, and in which ticks nothing is pending.

ghost use Rattle.std.specs.Prelude.{◌≡◌, ◌++◌, ℕ, true, None, flat_map, IfOk, OnOk};
ghost use Rattle.srp_base.specs.declared.mrp.App.{App};
ghost use Rattle.node_core.specs.{State.NodeState, State.is_still_node, Step.octets_to_say};
ghost use Rattle.world_core.specs.{Ticks.AreCanonicalTicks, Timeline.IsTimelineOf};
ghost use Rattle.wishes.specs.RunMoments.{moments_of, moments_text, settled_line, span_line};

use crate::watch::Watch;
use mrp_participant::laws::still_is_silent;
use msrp::MsrpApp;
use mvrp::MvrpApp;
use report_words::{put, put_number};
use srp_base::{NoMemory, Seq};
use srp_schedule::watched_run;
use std::alloc::Global;
use topology_file::Scenario;
use world_core::Run;
use world_core::laws::a_step_is_of_its_node_alone;

/// A stretch of ticks.
#[derive(Clone, Copy, PartialEq, Eq)]
pub struct Span {
    /// The first of them, from 0.
    pub from: u64,
    /// The last of them.
    pub to: u64,
}

/// The moments of a run.
#[derive(Drop)]
pub struct Moments {
    /// The first tick from whose end on, up to the run's end, nothing changes in which of the file's
    /// streams each application listens to and what it hears of them, nor in what each port has
    /// booked, of whatever streams: their classes, ranks and slopes, and since when.
    pub settled: u64,
    /// The longest stretches of ticks at whose ends the network is quiet and in step, in order.
    pub quiet: Seq<Span>,
}

/// The plain run of a scenario, with its moments.
pub fn run_with_moments(alloc: Global, scenario: &Scenario) -> Result<(Run, Moments), NoMemory>
    ensures ticks { IfOk result (λ made. AreCanonicalTicks scenario.now made.0.journal.ticks
        made.0.world) }
    ensures timeline { IfOk result
        (λ made. IsTimelineOf scenario.now made.0.journal.ticks made.0.timeline.changes) }
    ensures moments { IfOk result
        (λ made. made.1 ≡ moments_of scenario.now made.0.journal.ticks) }
{
    a_step_is_of_its_node_alone();
    still_nodes_say_nothing();
    scenario.keeps_rules();
    let mut watch = Watch::new(alloc, scenario);
    let run = watched_run(alloc, scenario, &mut watch)?;
    let moments = watch.into_moments()?;
    Ok((run, moments))
}

// A node at which nothing is pending has nothing to say. It does nothing.
fn still_nodes_say_nothing()
    ensures { (s : NodeState) (app : App) (at : ℕ) → is_still_node s ≡ true
        → octets_to_say app at s ≡ None }
{
    still_is_silent::<MvrpApp>();
    still_is_silent::<MsrpApp>();
}

/// The lines of a run's moments.
pub(crate) fn put_moments(out: &mut Vec<u8>, moments: &Moments) -> Result<(), NoMemory>
    ensures { OnOk result (out.new.items ≡ out.old.items ++ moments_text moments.now) }
{
    put_settled(out, moments.settled)?;
    put_spans(out, moments.quiet.as_slice())
}

fn put_settled(out: &mut Vec<u8>, tick: u64) -> Result<(), NoMemory>
    ensures { OnOk result (out.new.items ≡ out.old.items ++ settled_line tick) }
{
    put(out, "settled ")?;
    put_number(out, tick)?;
    put(out, "\n")
}

fn put_spans(out: &mut Vec<u8>, spans: &[Span]) -> Result<(), NoMemory>
    ensures { OnOk result (out.new.items ≡ out.old.items ++ flat_map span_line spans.now) }
{
    for span in spans {
        put_span(out, *span)?;
    }
    Ok(())
}

fn put_span(out: &mut Vec<u8>, span: Span) -> Result<(), NoMemory>
    ensures { OnOk result (out.new.items ≡ out.old.items ++ span_line span) }
{
    put(out, "quiet from ")?;
    put_number(out, span.from)?;
    put(out, " to ")?;
    put_number(out, span.to)?;
    put(out, "\n")
}
