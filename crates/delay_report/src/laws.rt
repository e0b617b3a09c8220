//! What is true of what is printed of delays. Each is a function that does nothing; calling it
//! brings the law to a proof.

ghost use Rattle.std.specs.Prelude.{◌≡◌, ◌≤◌, Some, List};
ghost use Rattle.srp_base.specs.declared.{bandwidth.Class.Class, numbers.EgressPort.EgressPort, ports.PortChange.PortChange};
ghost use Rattle.tree_topology.specs.Topology.{HasPort};
ghost use Rattle.frame_flow.specs.declared.result.PortFlow.{PortFlow};
ghost use Rattle.frame_flow.specs.{Copies.flow_at, Flow.IsFlow};
ghost use Rattle.topology_file.specs.Plan.{Plan};
ghost use Rattle.scenario_frames.specs.{PlanFrames.plan_frames, Setting.setting_of};
ghost use Rattle.delay_bound.specs.declared.stream.ClassStream.{ClassStream};
ghost use Rattle.class_delays.specs.declared.delays.{FedStream.FedStream, PortDelays.PortDelays};
ghost use Rattle.class_delays.specs.Table.{delays_at, stream_in};
ghost use Rattle.scenario_delays.specs.declared.facts.DelayFacts.{DelayFacts};
ghost use Rattle.scenario_delays.specs.Facts.{IsBounded};
ghost use Rattle.delay_report.specs.Seen.{longest_of, taken_at};

use scenario_delays::laws::a_frame_took_no_longer;

/// In a run that keeps a class's bounds no frame of a stream took longer through a port than is
/// reckoned for the stream there: what is printed as seen is at most what is printed as its bound.
pub fn what_was_seen_is_within()
    ensures { (plan : Plan) (changes : List PortChange) (facts : DelayFacts) (class : Class)
        (ports : List PortDelays) (flows : List PortFlow) (p : EgressPort) (x : ClassStream)
        (fed : FedStream)
        → IsBounded plan changes facts class ports → IsFlow (setting_of plan changes) flows
        → HasPort plan.tree p → stream_in x (delays_at ports p) ≡ Some fed
        → longest_of (taken_at x.id (plan_frames plan) (flow_at flows p)) ≤ fed.spent }
{
    a_frame_took_no_longer();
}
