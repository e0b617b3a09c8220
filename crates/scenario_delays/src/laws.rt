//! What is true of the delays of a scenario's streams. Each is a function that does nothing;
//! calling it brings the law to a proof.

ghost use Rattle.std.specs.Prelude.{◌≡◌, ℕ, ◌+◌, ◌<◌, ◌≤◌, true, false, None, Some, List, map, All, AllPairs, Contains};
ghost use Rattle.srp_base.specs.declared.{bandwidth.Class.Class, numbers.EgressPort.EgressPort, ports.PortChange.PortChange};
ghost use Rattle.tree_topology.specs.Topology.{HasNode, HasPort};
ghost use Rattle.frame_flow.specs.declared.{frame.Frame.Frame, result.PortFlow.PortFlow};
ghost use Rattle.frame_flow.specs.declared.result.Fate.TheVariants.{Departed, Unbooked};
ghost use Rattle.frame_flow.specs.{Copies.flow_at, Copies.frame_of, Flow.IsFlow, Given.IsEarlier, Moments.moment_of};
ghost use Rattle.topology_file.specs.{Plan.Plan, Scenario.KeepsRules};
ghost use Rattle.scenario_frames.specs.{PlanFrames.plan_frames, Setting.setting_of, Setting.AreBelowRates};
ghost use Rattle.delay_bound.specs.declared.stream.ClassStream.{ClassStream};
ghost use Rattle.delay_bound.specs.Waits.{within_of};
ghost use Rattle.delay_flow.specs.{Delays.AreBookedAt, Delays.HoldsAt, Places.IsSteady, Streams.AreStreams, Streams.is_route_of, Ways.hop_of, Ways.is_fed, Ways.way_to};
ghost use Rattle.class_delays.specs.declared.delays.{FedStream.FedStream, PortDelays.PortDelays};
ghost use Rattle.class_delays.specs.Causes.{HasBounds};
ghost use Rattle.class_delays.specs.Table.{delays_at, numbers_of, rate_at, stream_in};
ghost use Rattle.scenario_delays.specs.declared.{answers.StreamAnswer.StreamAnswer, facts.DelayFacts.DelayFacts};
ghost use Rattle.scenario_delays.specs.declared.facts.ClassBounds.TheVariants.{Reckoned};
ghost use Rattle.scenario_delays.specs.Answers.{AllConform, AreAnswers};
ghost use Rattle.scenario_delays.specs.Facts.{AreFacts, IsBounded, bounds_of, class_setting};
ghost use Rattle.scenario_delays.specs.Steady.{is_steady, last_booking_tick, HasEarlyFrame};
ghost use Rattle.scenario_delays.specs.Streams.{streams_in, traffic_in};

use class_delays::laws::a_class_with_bounds_has_no_cause;
use delay_flow::laws::{
    each_frame_goes_in_time, no_frame_is_unbooked_where_its_stream_is_fed as no_frame_is_unbooked,
    what_conforms_keeps_each_window, what_is_spent_is_within,
};
use frame_flow::laws::{
    a_flow_is_that_of_its_place, copies_come_from_departures, departed_copies_were_carried,
};
use scenario_frames::laws::a_scenario_asks_a_valid_flow;
use tree_topology::laws::ports;

/// In a run that is steady the bookings and slopes at each port stay as they are at its end from
/// the tick of their last change on, and no frame of a class is sent before that begins.
pub fn a_steady_run_stays_as_it_is()
    ensures { (plan : Plan) (changes : List PortChange) (class : Class)
        → KeepsRules plan → AllPairs IsEarlier changes
        → All (λ c. c.tick < plan.ticks) changes
        → is_steady changes (plan_frames plan) ≡ true
        → IsSteady (setting_of plan changes) (traffic_in class) (last_booking_tick None changes) }
{}

/// A run that isn't steady has a frame of class A or B that is sent before a change by which a port
/// has other bookings or slopes than in the tick before.
pub fn a_run_that_is_not_steady_has_an_early_frame()
    ensures { (changes : List PortChange) (frames : List Frame) → AllPairs IsEarlier changes
        → is_steady changes frames ≡ false → HasEarlyFrame changes frames }
{}

/// Where no answer says of a stream of a class that its frames don't conform, the scenario's frames
/// of the class are those of its streams of the class, sent by their Talkers, and keep in each
/// window of time what these may send.
pub fn answers_tell_what_conforms()
    ensures { (plan : Plan) (changes : List PortChange) (answers : List StreamAnswer)
        (class : Class) → KeepsRules plan → AreAnswers plan answers → AllConform class answers
        → AreStreams (setting_of plan changes) (traffic_in class) (streams_in class plan) }
{
    what_conforms_keeps_each_window();
}

/// In a run that keeps a class's bounds each of its frames that may be sent at a port is of a
/// stream that is fed there, starts within the stream's wait, and has then taken no longer from its
/// moment than is reckoned for the stream there; or the run ends before it has waited longer.
/// Nothing is asked of frames of other traffic.
pub fn frames_go_in_time()
    ensures { (plan : Plan) (changes : List PortChange) (facts : DelayFacts) (class : Class)
        (ports : List PortDelays) (flows : List PortFlow) (p : EgressPort)
        → IsBounded plan changes facts class ports → IsFlow (setting_of plan changes) flows
        → HasPort plan.tree p
        → HoldsAt (setting_of plan changes) flows (traffic_in class) (streams_in class plan)
        (numbers_of (class_setting plan changes class) ports) p }
{
    a_scenario_asks_a_valid_flow();
    a_steady_run_stays_as_it_is();
    answers_tell_what_conforms();
    each_frame_goes_in_time();
}

/// In a steady run no frame of a stream of a class is unbooked at a port where the stream is fed:
/// each of its copies finds it booked, and none has the fate of an unbooked stream's. So
/// `frames_go_in_time` is said of each of its copies there whose VID is registered.
pub fn no_frame_is_unbooked_where_its_stream_is_fed()
    ensures copies { (plan : Plan) (changes : List PortChange) (class : Class)
        (flows : List PortFlow) (p : EgressPort) (x : ClassStream)
        → KeepsRules plan → AllPairs IsEarlier changes → AreBelowRates plan changes
        → All (λ c. c.tick < plan.ticks) changes → is_steady changes (plan_frames plan) ≡ true
        → IsFlow (setting_of plan changes) flows → HasPort plan.tree p
        → Contains (streams_in class plan) x → is_fed (setting_of plan changes) p x ≡ true
        → AreBookedAt (setting_of plan changes) flows (rate_at (setting_of plan changes))
        (traffic_in class) p x }
    ensures fates { (plan : Plan) (changes : List PortChange) (class : Class)
        (flows : List PortFlow) (p : EgressPort) (x : ClassStream) (flow : PortFlow) (f : Frame)
        → KeepsRules plan → AllPairs IsEarlier changes → AreBelowRates plan changes
        → All (λ c. c.tick < plan.ticks) changes → is_steady changes (plan_frames plan) ≡ true
        → IsFlow (setting_of plan changes) flows → HasPort plan.tree p
        → Contains (streams_in class plan) x → is_fed (setting_of plan changes) p x ≡ true
        → flow_at flows p ≡ Some flow → Contains (plan_frames plan) f
        → is_route_of x.id f.route ≡ true → Contains flow.fates (f.number, Unbooked) → ⊥ }
{
    ports();
    a_scenario_asks_a_valid_flow();
    a_steady_run_stays_as_it_is();
    a_flow_is_that_of_its_place();
    no_frame_is_unbooked();
}

/// In a run that keeps a class's bounds each frame of a stream that is fed at a port and departed
/// there took from its moment to the bit time after its last bit no longer than is reckoned for the
/// stream there.
pub fn a_frame_took_no_longer()
    ensures { (plan : Plan) (changes : List PortChange) (facts : DelayFacts) (class : Class)
        (ports : List PortDelays) (flows : List PortFlow) (p : EgressPort)
        (x : ClassStream) (fed : FedStream) (flow : PortFlow) (number start end : ℕ) (f : Frame)
        → IsBounded plan changes facts class ports → IsFlow (setting_of plan changes) flows
        → HasPort plan.tree p → stream_in x (delays_at ports p) ≡ Some fed
        → flow_at flows p ≡ Some flow → Contains flow.fates (number, Departed start end)
        → frame_of (plan_frames plan) number ≡ Some f → is_route_of x.id f.route ≡ true
        → moment_of flow.input.rate end ≤ f.at.0 + fed.spent }
{
    frames_go_in_time();
    a_scenario_asks_a_valid_flow();
    a_flow_is_that_of_its_place();
    departed_copies_were_carried();
    copies_come_from_departures();
}

/// What is reckoned for a stream at a port is what its frames take at most on their way from its
/// Talker through that port: at each port of the way a bit time, the wait there and their bits.
pub fn spent_is_what_the_way_takes()
    ensures { (plan : Plan) (changes : List PortChange) (facts : DelayFacts) (class : Class)
        (ports : List PortDelays) (p : EgressPort) (x : ClassStream) (fed : FedStream)
        → KeepsRules plan → AreFacts plan changes facts → bounds_of class facts ≡ Reckoned ports
        → HasPort plan.tree p → stream_in x (delays_at ports p) ≡ Some fed
        → fed.spent
        ≡ within_of x.least
        (map (hop_of (numbers_of (class_setting plan changes class) ports) x)
        (way_to (setting_of plan changes) x p)) }
{
    what_is_spent_is_within();
}

/// The Talkers of the streams that answers are of are nodes of the tree.
pub fn talkers_are_nodes()
    ensures { (plan : Plan) (answers : List StreamAnswer) → KeepsRules plan
        → AreAnswers plan answers → All (λ a. HasNode plan.tree a.stream.talker.0) answers }
{}

/// A class that has bounds is answered with what is reckoned for it, and not with a port by which it
/// had none.
pub fn a_class_with_bounds_is_reckoned()
    ensures { (plan : Plan) (changes : List PortChange) (facts : DelayFacts) (class : Class)
        → KeepsRules plan → AreFacts plan changes facts
        → HasBounds (class_setting plan changes class)
        → (ports : List PortDelays) × (bounds_of class facts ≡ Reckoned ports) }
{
    a_class_with_bounds_has_no_cause();
}
