//! The whole text.

ghost use Rattle.std.specs.Prelude.{◌≡◌, ◌++◌, All, flat_map, IfOk, OnOk};
ghost use Rattle.tree_topology.specs.Topology.{HasNode};
ghost use Rattle.delay_report.specs.Lines.{conforms_line};
ghost use Rattle.delay_report.specs.Text.{delays_text as delays_text_spec, first_lines, stream_delays};

use crate::hops::{put_bounds, put_hops};
use crate::lines::{put_conforms, put_quiet, put_steady};
use crate::listeners::put_stream;
use crate::run::DelayRun;
use frame_flow::FlowResult;
use scenario_delays::{DelayFacts, StreamAnswer};
use scenario_frames::frames_of;
use srp_base::{Class, NoMemory};
use std::alloc::Global;
use topology_file::Scenario;
use world_core::World;

/// How long frames of each stream wait at each port and take to each Listener at most, and how long
/// those of a run took, in octets: whether the run is steady; which class has no bounds, by the port
/// at which it has none; for each port, link by link, end `a` first, each stream that is fed there,
/// ascending by StreamID, with the most bit times of the port that a frame of it waits there, and by
/// how many ps two of its frames may have moved towards each other up to there; for each stream of
/// class A or B, in the order of the file, whether its frames conform to what its Talker may send;
/// for each of them each station that listens to it and to which it is fed, ascending by node, with
/// the most ns that a frame takes from its moment through the last port, the most that one took, and
/// how many left that port; and whether the network is quiet.
pub fn delays_text(
    alloc: Global,
    scenario: &Scenario,
    world: &World,
    facts: &DelayFacts,
    flow: &FlowResult,
) -> Result<Vec<u8>, NoMemory>
    requires tree { world.now.tree ≡ scenario.now.tree }
    requires talkers { All (λ a. HasNode scenario.now.tree a.stream.talker.0) facts.now.answers }
    ensures { IfOk result (λ text. text.items ≡ delays_text_spec (record {
      plan = scenario.now;
      facts = facts.now;
      flows = flow.now.ports;
    }) world.now) }
{
    let frames = frames_of(alloc, scenario)?;
    let run = DelayRun {
        scenario,
        facts,
        frames: &frames,
        flows: flow.ports.as_slice(),
    };
    let mut out = Vec::new(alloc);
    put_first(&mut out, scenario, facts)?;
    put_hops(&mut out, scenario, facts)?;
    put_answers(&mut out, facts.answers.as_slice())?;
    put_streams(&mut out, &run, world)?;
    put_quiet(&mut out, world.quiet())?;
    Ok(out)
}

/// Whether the run is steady, and which class has no bounds.
fn put_first(out: &mut Vec<u8>, scenario: &Scenario, facts: &DelayFacts) -> Result<(), NoMemory>
    ensures { OnOk result (out.new.items ≡ out.old.items ++ first_lines scenario.now facts.now) }
{
    put_steady(out, facts.steady)?;
    put_bounds(out, scenario, Class::A, &facts.class_a)?;
    put_bounds(out, scenario, Class::B, &facts.class_b)
}

/// The lines that say of each stream whether its frames conform.
fn put_answers(out: &mut Vec<u8>, answers: &[StreamAnswer]) -> Result<(), NoMemory>
    ensures { OnOk result (out.new.items ≡ out.old.items
        ++ flat_map (λ a. conforms_line a.stream.id a.conforms) answers.now) }
{
    for answer in answers {
        put_conforms(out, answer.stream.id, answer.conforms)?;
    }
    Ok(())
}

/// The lines of all streams at the stations that listen to them.
fn put_streams(out: &mut Vec<u8>, run: &DelayRun<'_>, world: &World) -> Result<(), NoMemory>
    requires tree { world.now.tree ≡ run.now.plan.tree }
    requires talkers { All (λ a. HasNode run.now.plan.tree a.stream.talker.0)
        run.now.facts.answers }
    ensures { OnOk result (out.new.items ≡ out.old.items
        ++ flat_map (λ a. stream_delays run.now a 1 world.now.nodes) run.now.facts.answers) }
{
    for answer in run.answers() {
        put_stream(out, run, world, answer)?;
    }
    Ok(())
}
