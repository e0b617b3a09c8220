//! What is true of every flow, over the definitions that the contract of `flow` cites. Each is a
//! function that does nothing; calling it brings the law to a proof.

ghost use Rattle.std.specs.Prelude.{◌≡◌, ℕ, ◌<◌, ◌≤◌, Bool, false, IsTrue, Some, List, map, All, AllPairs};
ghost use Rattle.std.specs.List.{Contains};
ghost use Rattle.std.specs.List.Sorted.{IsPermutation};
ghost use Rattle.srp_base.specs.declared.{numbers.EgressPort.EgressPort, ports.PortChange.PortChange};
ghost use Rattle.tree_topology.specs.{Topology.Topology, Topology.HasPort, Topology.IsSound, Walk.is_behind};
ghost use Rattle.credit_shaper.specs.{Port.IsPortInput, Port.slopes_at, Bounds.greatest_slope_a, Bounds.IsWindowAWithin};
ghost use Rattle.frame_flow.specs.declared.result.Fate.TheVariants.{Departed};
ghost use Rattle.frame_flow.specs.declared.result.PortFlow.{PortFlow};
ghost use Rattle.frame_flow.specs.declared.place.Place.{Place};
ghost use Rattle.frame_flow.specs.declared.frame.FrameCopy.{FrameCopy};
ghost use Rattle.frame_flow.specs.Moments.{bits_of_ticks, tick_at};
ghost use Rattle.frame_flow.specs.Force.{changes_at, in_force};
ghost use Rattle.frame_flow.specs.Copies.{all_places, arriving, flow_at};
ghost use Rattle.frame_flow.specs.Flow.{Setting, IsFlow, port_flow, port_input};
ghost use Rattle.frame_flow.specs.Given.{IsEarlier, IsSetting, IsInOrder};
ghost use Rattle.frame_flow.specs.Laws.{arriving_numbers, fate_numbers, AreDifferent, DepartsByArrival, HasOutcomes, HasSlopes, coming, KeepsCapsA, KeepsCaps, HasCaps, SayTheSame};
ghost use Rattle.frame_flow.specs.Origins.{HasSource, IsFlowOf, IsOfCopy, PassesBefore};

use credit_shaper::laws::{class_a_stays_within_in_every_run, frames_depart_in_order};
use tree_topology::laws::ports;

/// At most one flow fits what a flow is asked of, as what comes in over a port's own link never
/// leaves by that port.
pub fn one_flow()
    ensures { (s : Setting) (one other : List PortFlow) → IsSound s.tree → IsFlow s one
        → IsFlow s other → one ≡ other }
{
    ports();
}

/// A flow fits whatever a flow is asked of over a tree.
pub fn a_flow_exists()
    ensures { (s : Setting) → IsSound s.tree → (flows : List PortFlow) × IsFlow s flows }
{
    ports();
}

/// What is in force decides a flow, and not how often the changes say it: where other changes say
/// the same of each port in each tick, the same flow fits.
pub fn what_is_in_force_decides_a_flow()
    ensures { (s : Setting) (changes : List PortChange) (flows : List PortFlow)
        → IsSound s.tree → 0 < s.ticks
        → AllPairs IsEarlier s.changes → AllPairs IsEarlier changes
        → ((p : EgressPort) → HasPort s.tree p → SayTheSame s.ticks s.changes changes p)
        → IsFlow s flows → IsFlow (record s { changes = changes }) flows }
{
    ports();
}

/// What arrives at a port are the copies that come to it, each as often, in order of bit time, ties
/// by number.
pub fn copies_arrive_in_order()
    ensures order { (s : Setting) (flows : List PortFlow) (place : Place)
        → IsInOrder (arriving s.tree.links s.frames s.ticks flows place) }
    ensures same { (s : Setting) (flows : List PortFlow) (place : Place)
        → IsPermutation (coming s flows place)
        (arriving s.tree.links s.frames s.ticks flows place) }
{}

/// Each copy that arrives at a port has one fate: the numbers of the fates are those of the copies,
/// in order of arrival, and no number stands twice at a port.
pub fn each_copy_has_one_fate()
    ensures each { (s : Setting) (flows : List PortFlow) → IsFlow s flows
        → map fate_numbers flows
        ≡ map (arriving_numbers s flows) (all_places s.tree.links s.rates) }
    ensures once { (s : Setting) (flows : List PortFlow) → IsSetting s → IsSound s.tree
        → IsFlow s flows → All (λ x. AreDifferent (fate_numbers x)) flows }
{
    ports();
}

/// What each port's shaper is given is in order and in its ranges.
pub fn each_input_is_valid()
    ensures { (s : Setting) (flows : List PortFlow) → IsSetting s → IsFlow s flows
        → All (λ x. IsPortInput x.input) flows }
{}

/// In each bit time of the run the slopes that a port's shaper is given are those in force in its
/// tick.
pub fn slopes_are_those_in_force()
    ensures { (s : Setting) (place : Place) (copies : List FrameCopy) (t : ℕ) → IsSetting s
        → t < bits_of_ticks place.rate s.ticks
        → HasSlopes
        (slopes_at (port_input s.ticks place.rate (changes_at s.changes place.at) copies)
        t)
        (in_force (tick_at place.rate t) (changes_at s.changes place.at)) }
{}

/// The slopes that a port's shaper is given keep whatever caps the changes at the port keep: a cap
/// on class A's slope, and one on both together.
pub fn inputs_keep_the_caps_of_changes()
    ensures class_a { (s : Setting) (flows : List PortFlow) (cap : EgressPort → ℕ)
        → KeepsCapsA cap s.changes → IsFlow s flows
        → All (λ x. All (λ e. e.slope_a ≤ cap x.at) x.input.slopes) flows }
    ensures both { (s : Setting) (flows : List PortFlow) (cap_a cap_ab : EgressPort → ℕ)
        → KeepsCaps cap_a cap_ab s.changes → IsFlow s flows → All (HasCaps cap_a cap_ab) flows }
{}

/// At each port the copies of one traffic depart in order of arrival, ties by frame number.
pub fn copies_depart_in_order()
    ensures { (s : Setting) (flows : List PortFlow) → IsSetting s → IsFlow s flows
        → All DepartsByArrival flows }
{
    frames_depart_in_order();
}

/// A copy departs from a port once where that is its fate there, with that start and that end, and
/// else never.
pub fn departed_copies_depart_once()
    ensures { (s : Setting) (flows : List PortFlow) → IsSetting s → IsSound s.tree → IsFlow s flows
        → All HasOutcomes flows }
{
    ports();
    frames_depart_in_order();
}

/// At each port every window stays within class A's bound (IEEE Std 802.1Q-2018, 8.6.8.2).
pub fn class_a_windows_stay_within()
    ensures { (s : Setting) (flows : List PortFlow) → IsSetting s → IsFlow s flows
        → All (λ x. (a b : ℕ) → a ≤ b
        → IsWindowAWithin x.input 0 (greatest_slope_a x.input.slopes) a b) flows }
{
    class_a_stays_within_in_every_run();
}

/// Each copy at a port comes from a frame of its station, or from one that departed at a port which
/// sends into its node over another link.
pub fn copies_come_from_departures()
    ensures { (s : Setting) (flows : List PortFlow) (place : Place) → HasPort s.tree place.at
        → All (HasSource s flows place)
        (arriving s.tree.links s.frames s.ticks flows place) }
{}

/// The flow that is found at a port is what the others give it.
pub fn a_flow_is_that_of_its_place()
    ensures { (s : Setting) (flows : List PortFlow) (p : EgressPort) (x : PortFlow)
        → IsFlow s flows → flow_at flows p ≡ Some x → IsFlowOf s flows p x }
{}

/// A copy that departed had arrived at the port before, could be sent there, and took its own bits.
pub fn departed_copies_were_carried()
    ensures { (s : Setting) (flows : List PortFlow) (place : Place) (number start end : ℕ)
        → IsSetting s → Contains (all_places s.tree.links s.rates) place
        → Contains (port_flow s flows place).fates (number, Departed start end)
        → IsOfCopy s flows place number start end }
{
    frames_depart_in_order();
}

/// No frame goes back: its station lies behind no port at which it has a copy.
pub fn no_copy_goes_back()
    ensures { (s : Setting) (flows : List PortFlow) (place : Place) → IsSetting s
        → IsSound s.tree → IsFlow s flows → HasPort s.tree place.at
        → All (λ c. is_behind s.tree.links place.at c.frame.from.0 ≡ false)
        (arriving s.tree.links s.frames s.ticks flows place) }
{
    ports();
}

/// Along the way: what holds at a port where it holds at each port that sends into its node over
/// another link holds at every port.
pub fn what_is_handed_on_holds_at_every_port()
    ensures { (tree : Topology) (test : EgressPort → Bool) (p : EgressPort) → IsSound tree
        → ((q : EgressPort) → HasPort tree q → PassesBefore tree test q → IsTrue (test q))
        → HasPort tree p → IsTrue (test p) }
{
    ports();
}
