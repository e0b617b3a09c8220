//! What it means that a network needs nothing. Each law is a function that does nothing; calling it
//! brings the law to a proof.

ghost use Rattle.std.specs.Prelude.{◌≡◌, false, Contains, List, []};
ghost use Rattle.srp_base.specs.declared.numbers.EgressPort.{EgressPort};
ghost use Rattle.tree_topology.specs.Topology.{HasPort};
ghost use Rattle.topology_file.specs.{Plan.Plan, Scenario.KeepsRules};
ghost use Rattle.world_core.specs.declared.journal.Tick.{Tick};
ghost use Rattle.world_core.specs.{Moments.IsMoment, Ticks.AreLegalTicks, World.WorldState};
ghost use Rattle.network_laws.specs.Vlans.{IsAtRest};
ghost use Rattle.port_needs.specs.{Laws.IsLargeEnough, Needs.needs_lines, Needs.never_lines};
ghost use Rattle.wishes.specs.Needs.{needs_in, AreGranted, AreGrantedBehind, HasMissedBehind, HasNeed, IsUnderNever};
ghost use Rattle.wishes.specs.Wishes.{grants, wishes_in};
ghost use Rattle.wishes.specs.declared.wish.Wish.{Wish};

use network_laws::cause_laws::{
    caps_are_those_of_the_scenario, each_failure_has_its_cause, edges_are_those_of_the_scenario,
    what_a_port_keeps_is_wanted_behind, who_misses_a_stream_has_a_failure,
};
use network_laws::laws::streams_keep_their_laws;
use port_needs::laws::{
    a_large_ledger_books_all_that_is_wished, a_ledger_that_booked_all_is_large_enough,
    a_stream_leaves_by_the_ports_of_its_way, each_port_has_its_link,
    nothing_is_needed_where_all_are_large_enough, what_is_wished_is_asked,
};
use tree_topology::laws::{ports, the_walk};
use world_core::laws::{
    every_moment_keeps_it, every_moment_talks_by_the_plan, what_is_allowed_may_happen,
};

/// At every moment of every legal run of a scenario at which the network is at rest: a port is
/// large enough for all that is wished then where each wish that it leads to is granted. So a port
/// with a line of what it needs has a wish behind it that isn't.
pub fn where_all_is_granted_nothing_is_needed()
    ensures { (plan : Plan) (ticks : List Tick) (end w : WorldState) (p : EgressPort)
        → KeepsRules plan → AreLegalTicks plan ticks end → IsMoment plan ticks w → IsAtRest w
        → HasPort plan.tree p → AreGrantedBehind plan w p → IsLargeEnough plan (needs_in plan w) p }
{
    a_ledger_that_booked_all_is_large_enough();
    a_stream_leaves_by_the_ports_of_its_way();
    caps_are_those_of_the_scenario();
    every_moment_keeps_it();
    every_moment_talks_by_the_plan();
    what_a_port_keeps_is_wanted_behind();
    what_is_allowed_may_happen();
    what_is_wished_is_asked();
}

/// At every moment of every legal run of a scenario at which the network is at rest: where there is
/// no line of a port that is too small for what is wished then, nor one of a stream that no link
/// helps, each wish for a stream that another station talks is granted.
pub fn where_nothing_is_needed_all_is_granted()
    ensures { (plan : Plan) (ticks : List Tick) (end w : WorldState)
        → KeepsRules plan → AreLegalTicks plan ticks end → IsMoment plan ticks w → IsAtRest w
        → needs_lines plan (needs_in plan w) ≡ [] → never_lines plan (needs_in plan w) ≡ []
        → AreGranted plan w }
{
    a_large_ledger_books_all_that_is_wished();
    a_stream_leaves_by_the_ports_of_its_way();
    caps_are_those_of_the_scenario();
    each_failure_has_its_cause();
    each_port_has_its_link();
    edges_are_those_of_the_scenario();
    every_moment_keeps_it();
    every_moment_talks_by_the_plan();
    nothing_is_needed_where_all_are_large_enough();
    ports();
    streams_keep_their_laws();
    the_walk();
    what_a_port_keeps_is_wanted_behind();
    what_is_allowed_may_happen();
    what_is_wished_is_asked();
    who_misses_a_stream_has_a_failure();
}

/// At every moment of every legal run of a scenario at which the network is at rest: behind each
/// port that is too small for all that is wished then, so that it has a line of what it needs, is a
/// wish that isn't granted, and the port stands on its way from the Talker's station.
pub fn behind_each_port_that_needs_more_a_wish_is_missed()
    ensures { (plan : Plan) (ticks : List Tick) (end w : WorldState) (p : EgressPort)
        → KeepsRules plan → AreLegalTicks plan ticks end → IsMoment plan ticks w → IsAtRest w
        → HasPort plan.tree p → HasNeed plan w p → HasMissedBehind plan w p }
{
    a_ledger_that_booked_all_is_large_enough();
    a_stream_leaves_by_the_ports_of_its_way();
    caps_are_those_of_the_scenario();
    every_moment_keeps_it();
    every_moment_talks_by_the_plan();
    what_a_port_keeps_is_wanted_behind();
    what_is_allowed_may_happen();
    what_is_wished_is_asked();
}

/// At every moment of every legal run of a scenario at which the network is at rest: a wish that
/// stands under `never`, as each port refuses its stream, or as a boundary of the domain of the
/// stream's class stands on the way, isn't granted.
pub fn a_wish_under_never_is_missed()
    ensures { (plan : Plan) (ticks : List Tick) (end w : WorldState) (wish : Wish)
        → KeepsRules plan → AreLegalTicks plan ticks end → IsMoment plan ticks w → IsAtRest w
        → Contains (wishes_in plan w) wish → IsUnderNever plan wish
        → grants wish.answer ≡ false }
{
    a_stream_leaves_by_the_ports_of_its_way();
    caps_are_those_of_the_scenario();
    edges_are_those_of_the_scenario();
    every_moment_keeps_it();
    every_moment_talks_by_the_plan();
    nothing_is_needed_where_all_are_large_enough();
    ports();
    what_a_port_keeps_is_wanted_behind();
    what_is_allowed_may_happen();
}
