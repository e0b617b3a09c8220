//! What is said of each stream of a scenario.

ghost use Rattle.std.specs.Prelude.{◌≡◌, IfOk, IfSome, IfNone, true, false};
ghost use Rattle.scenario_frames.specs.PlanFrames.{plan_frames};
ghost use Rattle.scenario_delays.specs.Answers.{AreAnswers, IsAnswer, is_reserved_entry};

use crate::conform::conformity;
use crate::streams::stream_in;
use delay_bound::ClassStream;
use frame_flow::Frame;
use msrp_talker::class_of;
use srp_base::{Class, NoMemory};
use std::alloc::Global;
use topology_file::{Scenario, StreamEntry};

/// What is said of a stream of class A or B.
#[derive(Clone, Copy, PartialEq, Eq)]
pub struct StreamAnswer {
    /// Its class.
    pub class: Class,
    /// The stream, with what its Talker may send.
    pub stream: ClassStream,
    /// Whether its frames conform to what its Talker may send; None where it has none.
    pub conforms: Option<bool>,
}

/// Whether the frames of each stream of class A or B conform, in the order of the file.
#[tactic(auto, using(crate::proofs::AnswerLemmas::answered, crate::proofs::AnswerLemmas::passed_over))]
pub fn answers_of(
    alloc: Global,
    scenario: &Scenario,
    frames: &[Frame],
) -> Result<Vec<StreamAnswer>, NoMemory>
    requires { frames.now ≡ plan_frames scenario.now }
    ensures { IfOk result (λ v. AreAnswers scenario.now v.items) }
{
    let mut answers = Vec::new(alloc);
    for entry in scenario.streams.as_slice() {
        if let Some(answer) = answer_of(alloc, entry, frames)? {
            answers.push(answer)?;
        }
    }
    Ok(answers)
}

/// Whether the frames of a stream conform, where it is of class A or B.
fn answer_of(
    alloc: Global,
    entry: &StreamEntry,
    frames: &[Frame],
) -> Result<Option<StreamAnswer>, NoMemory>
    ensures some { IfOk result (λ o. IfSome o (IsAnswer frames.now entry.now)) }
    ensures reserved { IfOk result (λ o. IfSome o (λ _. is_reserved_entry entry.now ≡ true)) }
    ensures none { IfOk result (λ o. IfNone o (is_reserved_entry entry.now ≡ false)) }
{
    let Some(class) = class_of(entry.priority.get()) else {
        return Ok(None);
    };
    let stream = stream_in(class, frames, entry);
    let conforms = conformity(alloc, stream.id, &stream.limits, frames)?;
    Ok(Some(StreamAnswer {
        class,
        stream,
        conforms,
    }))
}
