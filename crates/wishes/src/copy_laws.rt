//! What a granted wish means for the frames of its stream. Each law is a function that does
//! nothing; calling it brings the law to a proof.

ghost use Rattle.std.specs.Prelude.{◌≡◌, ℕ, true, false, List};
ghost use Rattle.std.specs.List.{Contains};
ghost use Rattle.srp_base.specs.declared.ports.PortChange.{PortChange};
ghost use Rattle.credit_shaper.specs.declared.{shaper.Traffic.Traffic, port.Departure.Departure};
ghost use Rattle.frame_flow.specs.declared.{frame.Frame.Frame, frame.FrameCopy.FrameCopy, place.Place.Place, result.Fate.Fate, result.PortFlow.PortFlow};
ghost use Rattle.frame_flow.specs.declared.frame.Route.TheVariants.{Stream};
ghost use Rattle.frame_flow.specs.{Copies.arriving, Flow.IsFlow, Flow.fate_of, Flow.force_on, Flow.port_flow, Force.changes_at};
ghost use Rattle.topology_file.specs.{Plan.Plan, Scenario.KeepsRules};
ghost use Rattle.topology_file.specs.declared.entries.StreamEntry.{StreamEntry};
ghost use Rattle.scenario_frames.specs.{PlanFrames.plan_frames, Setting.setting_of};
ghost use Rattle.world_core.specs.declared.journal.Tick.{Tick};
ghost use Rattle.world_core.specs.{Ticks.AreLegalTicks, Timeline.IsTimelineOf, World.WorldState};
ghost use Rattle.wishes.specs.{Copies.is_lost, Copies.IsAfterChanges, Copies.IsPlaceOnWay, Wishes.answer_to};
ghost use Rattle.wishes.specs.declared.wish.Answer.TheVariants.{Granted};

use frame_flow::laws::{copies_come_from_departures, each_copy_has_one_fate};
use scenario_frames::laws::a_scenario_asks_a_valid_flow;
use tree_topology::laws::ports;
use world_core::timeline_laws::{
    a_timeline_goes_on, slopes_stay_within_limits, what_ends_a_tick_changes_nothing_in_force,
};

/// The frames of a scenario that go as those of an entry's stream have the entry's VID.
pub fn the_frames_of_a_stream_have_its_vid()
    ensures { (plan : Plan) (e : StreamEntry) (f : Frame) (traffic : Traffic)
        → KeepsRules plan → Contains plan.streams e → Contains (plan_frames plan) f
        → f.route ≡ Stream e.id traffic → f.vid ≡ e.vid }
{}

/// Where a wish is granted at the end of a legal run, and the stream's VID is registered at each
/// port of the way, no copy of the stream's frames is lost that comes to such a port after the last
/// change of what is booked and registered there (IEEE Std 802.1Q-2018, 34.3, 11.2): whatever the
/// port sends, the copy departs, or is left at the run's end. So it is in the flow of the
/// scenario's frames over the run: such a copy has no other fate.
pub fn a_granted_wish_with_its_vlan_loses_no_copy()
    ensures copies { (plan : Plan) (ticks : List Tick) (end : WorldState)
        (changes : List PortChange) (e : StreamEntry) (l n : ℕ) (place : Place) (c : FrameCopy)
        (traffic : Traffic) (sent : List Departure)
        → KeepsRules plan → AreLegalTicks plan ticks end → IsTimelineOf plan ticks changes
        → answer_to end e l ≡ Granted n true → IsPlaceOnWay plan end e.id l place
        → c.frame.route ≡ Stream e.id traffic → c.frame.vid ≡ e.vid
        → IsAfterChanges changes place c
        → is_lost (fate_of (force_on place.rate (changes_at changes place.at) c) sent c) ≡ false }
    ensures flow { (plan : Plan) (ticks : List Tick) (end : WorldState)
        (changes : List PortChange) (flows : List PortFlow) (e : StreamEntry) (l n : ℕ)
        (place : Place) (c : FrameCopy) (traffic : Traffic) (fate : Fate)
        → KeepsRules plan → AreLegalTicks plan ticks end → IsTimelineOf plan ticks changes
        → IsFlow (setting_of plan changes) flows → Contains plan.streams e
        → answer_to end e l ≡ Granted n true → IsPlaceOnWay plan end e.id l place
        → Contains (arriving plan.tree.links (plan_frames plan) plan.ticks flows place) c
        → c.frame.route ≡ Stream e.id traffic → IsAfterChanges changes place c
        → Contains (port_flow (setting_of plan changes) flows place).fates (c.frame.number, fate)
        → is_lost fate ≡ false }
{
    the_frames_of_a_stream_have_its_vid();
    a_timeline_goes_on();
    what_ends_a_tick_changes_nothing_in_force();
    slopes_stay_within_limits();
    a_scenario_asks_a_valid_flow();
    each_copy_has_one_fate();
    copies_come_from_departures();
    ports();
}
