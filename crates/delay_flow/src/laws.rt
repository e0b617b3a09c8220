//! How long frames of a class wait and take, over the flow of a network. Each is a function that
//! does nothing; calling it brings the law to a proof.

ghost use Rattle.std.specs.Prelude.{◌≡◌, ℕ, ◌*◌, ◌<◌, ◌≤◌, true, Some, List, map, filter, All, Contains};
ghost use Rattle.srp_base.specs.declared.{numbers.EgressPort.EgressPort, bandwidth.Rate.Rate};
ghost use Rattle.credit_shaper.specs.declared.{shaper.Traffic.Traffic, port.Arrival.Arrival, port.PortInput.PortInput};
ghost use Rattle.class_service.specs.Class.{IsClass};
ghost use Rattle.tree_topology.specs.{Topology.HasNode, Topology.HasPort, Topology.IsSound, Ports.peer_of};
ghost use Rattle.frame_flow.specs.declared.result.PortFlow.{PortFlow};
ghost use Rattle.frame_flow.specs.{Copies.all_places, Flow.Setting, Flow.IsFlow, Given.IsSetting};
ghost use Rattle.delay_bound.specs.declared.stream.SentFrame.{SentFrame};
ghost use Rattle.delay_bound.specs.{Bounds.second, Waits.within_of, Windows.IsBoundBy};
ghost use Rattle.delay_bound.specs.declared.stream.ClassStream.{ClassStream};
ghost use Rattle.delay_flow.specs.Streams.{AreStreams, is_in_class, is_frame_of};
ghost use Rattle.delay_flow.specs.Places.{is_booked, IsSteady, ChangesNothing};
ghost use Rattle.delay_flow.specs.Rules.{Numbers, IsBefore, KeepRules};
ghost use Rattle.delay_flow.specs.Delays.{HoldsAt, AreBookedAt};
ghost use Rattle.delay_flow.specs.Ways.{way_to, hop_of, is_fed, IsFedByWay, ConformInOrder};

use class_service::laws::{
    a_class_is_served_by_its_frames_and_slopes, a_class_without_frames_is_fresh,
    each_frame_of_a_class_starts_in_time,
};
use credit_shaper::laws::{
    departures_follow_one_another, frames_depart_in_order, the_line_carries_the_departures,
};
use tree_topology::laws::ports;

/// In a steady run in which the streams of a class conform, each copy of a frame of it that may be
/// sent at a port is of a stream that is fed there, starts within the stream's wait, and has then
/// taken no longer from its moment than is spent on it up to there; or the run ends before it has
/// waited longer. Nothing is asked of frames of other traffic.
pub fn each_frame_goes_in_time()
    ensures { (s : Setting) (flows : List PortFlow) (traffic : Traffic) (streams : List ClassStream)
        (n : Numbers) (tick : ℕ) (p : EgressPort)
        → IsSetting s → IsSound s.tree → IsFlow s flows → IsClass traffic
        → IsSteady s traffic tick → AreStreams s traffic streams
        → KeepRules s traffic streams n → HasPort s.tree p
        → HoldsAt s flows traffic streams n p }
{
    ports();
    frames_depart_in_order();
    departures_follow_one_another();
    the_line_carries_the_departures();
    a_class_is_served_by_its_frames_and_slopes();
    a_class_without_frames_is_fresh();
    each_frame_of_a_class_starts_in_time();
}

/// What is spent on the frames of a stream up to a port where it is fed is what they take at most on
/// their way there: at each port of the way a bit time, the wait and the bits.
pub fn what_is_spent_is_within()
    ensures { (s : Setting) (traffic : Traffic) (streams : List ClassStream) (n : Numbers)
        (x : ClassStream) (p : EgressPort)
        → IsSound s.tree → KeepRules s traffic streams n → IsFedByWay s streams n
        → Contains streams x → HasNode s.tree x.talker.0 → HasPort s.tree p
        → is_fed s p x ≡ true
        → n.spent p x ≡ within_of x.least (map (hop_of n x) (way_to s x p)) }
{
    ports();
}

/// A stream is fed at a port where it is booked there and at each port of its way from its Talker:
/// that keeps the rules of what is fed.
pub fn what_is_booked_all_the_way_is_fed()
    ensures first { (s : Setting) (p : EgressPort) (x : ClassStream) → IsSound s.tree
        → HasPort s.tree p → HasNode s.tree x.talker.0 → is_booked s p x.id ≡ true
        → x.talker.0 ≡ p.node.0 → is_fed s p x ≡ true }
    ensures on { (s : Setting) (p r : EgressPort) (x : ClassStream) → IsSound s.tree
        → HasPort s.tree p → IsBefore s p r → HasNode s.tree x.talker.0
        → is_booked s p x.id ≡ true → is_fed s (peer_of s.tree.links r) x ≡ true
        → is_fed s p x ≡ true }
{
    ports();
}

/// In a steady run no frame of a stream is unbooked where the stream is fed: each of its copies may
/// be sent there but for its VID. So `each_frame_goes_in_time` speaks of all of them whose VID is
/// registered at the port as they arrive.
pub fn no_frame_is_unbooked_where_its_stream_is_fed()
    ensures { (s : Setting) (flows : List PortFlow) (rate : EgressPort → Rate) (traffic : Traffic)
        (tick : ℕ) (p : EgressPort) (x : ClassStream)
        → IsSetting s → IsSound s.tree → IsFlow s flows
        → All (λ y. y.rate ≡ rate y.at) (all_places s.tree.links s.rates)
        → IsSteady s traffic tick → HasPort s.tree p → HasNode s.tree x.talker.0
        → is_fed s p x ≡ true → AreBookedAt s flows rate traffic p x }
{
    ports();
    frames_depart_in_order();
}

/// A stream's frames that conform by pairs, in order of moment, keep its burst and its slope in
/// each window of time, and none is longer than its longest.
pub fn what_conforms_keeps_each_window()
    ensures windows { (s : Setting) (traffic : Traffic) (x : ClassStream) (xs : List SentFrame)
        → ConformInOrder s traffic x xs
        → IsBoundBy (λ f. f.bits) (λ f. Some f.at.0) (x.limits.burst * second) x.limits.slope
        (filter (is_frame_of traffic x) s.frames) }
    ensures sizes { (s : Setting) (traffic : Traffic) (x : ClassStream) (xs : List SentFrame)
        → ConformInOrder s traffic x xs
        → All (λ f. f.bits ≤ x.limits.most) (filter (is_frame_of traffic x) s.frames) }
{}

/// A run is steady from the last tick on in which a port's bookings or slopes change, where no
/// frame of the class is sent before it.
pub fn a_run_is_steady_from_its_last_change()
    ensures { (s : Setting) (traffic : Traffic) (tick : ℕ) → tick < s.ticks
        → ((p : EgressPort) (t : ℕ) → HasPort s.tree p → tick < t → t < s.ticks
        → ChangesNothing s p t)
        → All (λ f. is_in_class traffic f ≡ true → tick * 10000000000 ≤ f.at.0) s.frames
        → IsSteady s traffic tick }
{}
