//! What it means that a wish is granted. Each law is a function that does nothing; calling it brings
//! the law to a proof.

ghost use Rattle.std.specs.Prelude.{◌≡◌, ℕ, [], true, false, None, Some, slice_get};
ghost use Rattle.std.specs.List.{AllByRecursion};
ghost use Rattle.srp_base.specs.declared.numbers.StreamId.{StreamId};
ghost use Rattle.tree_topology.specs.Topology.{HasNode};
ghost use Rattle.topology_file.specs.declared.entries.StreamEntry.{StreamEntry};
ghost use Rattle.world_core.specs.{Kept.IsKeptWorld, World.WorldState};
ghost use Rattle.network_laws.specs.Streams.{has_booked, hears_ready, is_listened_at, is_talked_at, IsTalkedOnce};
ghost use Rattle.network_laws.specs.Vlans.{IsAtRest};
ghost use Rattle.msrp.specs.Side.{has_listen};
ghost use Rattle.node_core.specs.State.{NodeState};
ghost use Rattle.scenario_delays.specs.declared.answers.StreamAnswer.{StreamAnswer};
ghost use Rattle.delay_report.specs.Text.{DelayRun, station_delay};
ghost use Rattle.wishes.specs.declared.wish.Wish.{Wish};
ghost use Rattle.wishes.specs.Wishes.{answer_to, grants, way_to};
ghost use Rattle.wishes.specs.Within.{IsPrinted, said_of, within_of};

use network_laws::laws::streams_keep_their_laws;

/// In every network at rest, of each stream that at most one station talks, a wish of another
/// station that listens to it is granted exactly where its application hears Ready (IEEE Std
/// 802.1Q-2018, 35.2.4).
pub fn at_rest_a_wish_is_granted_where_ready_is_heard()
    ensures { (w : WorldState) (e : StreamEntry) (l : ℕ) → IsKeptWorld w → IsAtRest w
        → IsTalkedOnce w e.id
        → HasNode w.tree l → is_listened_at w e.id l ≡ true → is_talked_at w e.id l ≡ false
        → grants (answer_to w e l) ≡ hears_ready w e.id l }
{
    streams_keep_their_laws();
}

/// In every network, at rest or not, a wish is granted only where its application hears Ready and
/// each egress port of the way from the Talker's station has booked the stream.
pub fn the_way_of_a_granted_wish_is_booked()
    ensures heard { (w : WorldState) (e : StreamEntry) (l : ℕ)
        → grants (answer_to w e l) ≡ true → hears_ready w e.id l ≡ true }
    ensures booked { (w : WorldState) (e : StreamEntry) (l : ℕ)
        → grants (answer_to w e l) ≡ true
        → AllByRecursion (λ p. has_booked w e.id p ≡ true) (way_to w e.id l) }
{}

/// The bound behind a wish is the one that `delays` prints for its stream and its station: where
/// there is one, and the station listens, `delays` of the same facts has a line with this number, and
/// where there is none, it has no line of them.
pub fn within_is_what_delays_prints()
    ensures printed { (r : DelayRun) (wish : Wish) (e : StreamEntry) (state : NodeState) (t : ℕ)
        → slice_get r.plan.streams wish.stream ≡ Some e → has_listen e.id state.streams ≡ true
        → within_of r.plan r.facts wish ≡ Some t
        → IsPrinted r e.id wish.station state t }
    ensures missing { (r : DelayRun) (wish : Wish) (e : StreamEntry) (state : NodeState)
        (said : StreamAnswer)
        → slice_get r.plan.streams wish.stream ≡ Some e
        → said_of e.id r.facts.answers ≡ Some said
        → within_of r.plan r.facts wish ≡ None
        → station_delay r said wish.station state ≡ [] }
{}
