//! A run of a scenario, as its delays are printed.

ghost use Rattle.std.specs.Prelude.{◌≡◌, option_map};
ghost use Rattle.frame_flow.specs.Copies.{flow_at as flow_at_spec};

use crate::hops::reckoned_in;
use crate::seen::{Seen, seen_in};
use class_delays::FedStream;
use frame_flow::{Frame, PortFlow};
use report_words::node_name;
use scenario_delays::{DelayFacts, StreamAnswer};
use scenario_frames::laws::frames_are_numbered_from_one;
use srp_base::{EgressPort, NoMemory, NodeNo, Seq, StreamId};
use std::alloc::Global;
use std::marker::Model;
use topology_file::Scenario;

/// A run of a scenario, with what is known of its delays, its frames and their flow. Contracts see
/// the scenario, what is known, and the flow.
#[derive(Drop)]
pub(crate) struct DelayRun<'a> {
    pub(crate) scenario: &'a Scenario,
    pub(crate) facts: &'a DelayFacts,
    pub(crate) frames: &'a [Frame],
    pub(crate) flows: &'a [PortFlow],
}

impl<'a> Model for DelayRun<'a> {
    ghost use Rattle.std.specs.Prelude.{◌≡◌};
    ghost use Rattle.scenario_frames.specs.PlanFrames.{plan_frames};
    ghost use Rattle.delay_report.specs.Text.{DelayRun};

    ghost Value = { DelayRun };

    ghost view = { λ r. record {
      plan = r.scenario.now;
      facts = r.facts.now;
      flows = r.flows.now;
    } };

    ghost invariant = { λ r. r.frames.now ≡ plan_frames r.scenario.now };
}

impl DelayRun<'_> {
    ghost use Rattle.std.specs.Prelude.{◌≡◌, length, IfOk};
    ghost use Rattle.tree_topology.specs.{Topology.HasNode, Walk.path_between};
    ghost use Rattle.report_words.specs.Names.{name_of};
    ghost use Rattle.scenario_delays.specs.Facts.{bounds_of};
    ghost use Rattle.frame_flow.specs.Copies.{flow_at};
    ghost use Rattle.scenario_frames.specs.PlanFrames.{plan_frames};
    ghost use Rattle.delay_report.specs.{Seen.longest_of, Seen.taken_at, Text.reckoned_in};

    /// The name of a node.
    pub(crate) fn name_of(&self, node: NodeNo) -> &[u8]
        ensures { result.now ≡ name_of self.now.plan.nodes node }
    {
        let scenario = self.scenario;
        node_name(scenario.nodes.as_slice(), node)
    }

    /// The ports on the way from a node to another.
    pub(crate) fn path(
        &self,
        alloc: Global,
        from: NodeNo,
        to: NodeNo,
    ) -> Result<Seq<EgressPort>, NoMemory>
        requires from { HasNode self.now.plan.tree from.0 }
        requires to { HasNode self.now.plan.tree to.0 }
        ensures { IfOk result
            (λ ports. ports ≡ path_between self.now.plan.tree.links from.0 to.0) }
    {
        let scenario = self.scenario;
        scenario.tree.path(alloc, from, to)
    }

    /// What is reckoned for a stream at a port, where it is fed there and its class has bounds.
    pub(crate) fn reckoned_at(&self, answer: &StreamAnswer, at: EgressPort) -> Option<FedStream>
        ensures { result
            ≡ reckoned_in answer.now at (bounds_of answer.now.class self.now.facts) }
    {
        reckoned_in(answer, at, self.facts)
    }

    /// What is said of each stream of class A or B.
    pub(crate) fn answers(&self) -> &[StreamAnswer]
        ensures { result.now ≡ self.now.facts.answers }
    {
        self.facts.answers.as_slice()
    }

    /// How many frames of a stream departed at a port, and how long they took.
    pub(crate) fn seen_at(&self, stream: StreamId, at: EgressPort) -> Seen
        ensures frames { result.frames
            ≡ length (taken_at stream (plan_frames self.now.plan) (flow_at self.now.flows at)) }
        ensures longest { result.longest
            ≡ longest_of (taken_at stream (plan_frames self.now.plan) (flow_at self.now.flows at)) }
    {
        self.scenario.keeps_rules();
        frames_are_numbered_from_one();
        match flow_at(self.flows, at) {
            Some(flow) => seen_in(stream, self.frames, flow),
            None => Seen::none(),
        }
    }
}

/// The flow at a port.
fn flow_at(flows: &[PortFlow], at: EgressPort) -> Option<&PortFlow>
    ensures { option_map (λ x. x.now) result ≡ flow_at_spec flows.now at }
{
    for flow in flows {
        if flow.at == at {
            return Some(flow);
        }
    }
    None
}
