//! What is known of the delays of a scenario's streams in a run.

ghost use Rattle.std.specs.Prelude.{◌≡◌, AllPairs, IfOk, OnOk};
ghost use Rattle.std.specs.{List.Sorted.IsPermutation, List.Sorted.IsSortedByKey, Ordering.nat_cmp};
ghost use Rattle.frame_flow.specs.Given.{IsEarlier};
ghost use Rattle.scenario_frames.specs.PlanFrames.{plan_frames};
ghost use Rattle.scenario_frames.specs.Setting.{AreBelowRates};
ghost use Rattle.scenario_delays.specs.Facts.{AreBounds, AreFacts, class_setting};

use crate::answers::{StreamAnswer, answers_of};
use crate::steady::is_steady;
use crate::streams::streams_in;
use class_delays::{PortDelays, Unbounded, class_delays};
use frame_flow::Frame;
use scenario_frames::laws::a_scenario_asks_a_valid_flow;
use scenario_frames::{frames_of, rates_of};
use srp_base::{Class, EgressPort, NoMemory, Seq, Timeline};
use std::alloc::Global;
use topology_file::Scenario;

/// What is reckoned for each port for a class, or the port by which the class has no bounds.
#[derive(Drop)]
pub enum ClassBounds {
    /// For each port, link by link.
    Reckoned(Seq<PortDelays>),
    /// What comes to this port has none.
    Unbounded(EgressPort),
}

/// What is known of the delays of a scenario's streams in a run.
#[derive(Drop)]
pub struct DelayFacts {
    /// Whether the run is steady.
    pub steady: bool,
    /// What is said of each stream of class A or B, in the order of the file.
    pub answers: Seq<StreamAnswer>,
    /// The same ascending by StreamID.
    pub order: Seq<StreamAnswer>,
    /// The bounds of class A.
    pub class_a: ClassBounds,
    /// The bounds of class B.
    pub class_b: ClassBounds,
}

/// What is known of the delays of a scenario's streams in a run with this timeline, whose changes
/// ascend by port and tick and keep each port's slopes below its rate.
pub fn delay_facts(
    alloc: Global,
    scenario: &Scenario,
    timeline: &Timeline,
) -> Result<DelayFacts, NoMemory>
    requires earlier { AllPairs IsEarlier timeline.now.changes }
    requires below { AreBelowRates scenario.now timeline.now.changes }
    ensures { IfOk result (AreFacts scenario.now timeline.now.changes) }
{
    let frames = frames_of(alloc, scenario)?;
    let answers = answers_of(alloc, scenario, &frames)?;
    let order = by_stream(alloc, &answers)?;
    let class_a = bounds_of(alloc, scenario, timeline, &frames, Class::A)?;
    let class_b = bounds_of(alloc, scenario, timeline, &frames, Class::B)?;
    Ok(DelayFacts {
        steady: is_steady(timeline.changes.as_slice(), &frames),
        answers: Seq::from_vec(answers),
        order: Seq::from_vec(order),
        class_a,
        class_b,
    })
}

/// The answers ascending by StreamID.
fn by_stream(alloc: Global, answers: &[StreamAnswer]) -> Result<Vec<StreamAnswer>, NoMemory>
    ensures same { IfOk result (λ v. IsPermutation answers.now v.items) }
    ensures order { IfOk result (λ v. IsSortedByKey (λ a. a.stream.id.0) nat_cmp v.items) }
{
    let mut sorted = answers.to_vec(alloc)?;
    sorted.sort_by_key(|a| a.stream.id.0)?;
    Ok(sorted)
}

/// The bounds of a class.
fn bounds_of(
    alloc: Global,
    scenario: &Scenario,
    timeline: &Timeline,
    frames: &[Frame],
    class: Class,
) -> Result<ClassBounds, NoMemory>
    requires earlier { AllPairs IsEarlier timeline.now.changes }
    requires below { AreBelowRates scenario.now timeline.now.changes }
    requires frames { frames.now ≡ plan_frames scenario.now }
    ensures { IfOk result (AreBounds (class_setting scenario.now timeline.now.changes class)) }
{
    scenario.keeps_rules();
    a_scenario_asks_a_valid_flow();
    let rates = rates_of(alloc, scenario)?;
    let streams = streams_in(alloc, scenario, frames, class)?;
    let found = class_delays(
        alloc,
        &scenario.tree,
        &rates,
        timeline,
        scenario.ticks,
        class,
        &streams,
    );
    match found {
        Ok(ports) => Ok(ClassBounds::Reckoned(ports)),
        Err(Unbounded::Steep(at)) => Ok(ClassBounds::Unbounded(at)),
        Err(Unbounded::Large(at)) => Ok(ClassBounds::Unbounded(at)),
        Err(Unbounded::NoMemory) => Err(NoMemory),
    }
}
