//! What is true of what is needed. Each is a function that does nothing; calling it brings the law
//! to a proof.

ghost use Rattle.std.specs.Prelude.{◌≡◌, ◌≤◌, ◌<◌, ◌↔◌, ◌+◌, ℕ, true, false, List, [], IsSome, IfSome, IfNone};
ghost use Rattle.std.specs.List.{AllByRecursion};
ghost use Rattle.srp_base.specs.Bandwidth.{bits_of};
ghost use Rattle.srp_base.specs.declared.{bandwidth.Rate.Rate, numbers.EgressPort.EgressPort};
ghost use Rattle.stream_importance.specs.Bandwidth.{caps_of};
ghost use Rattle.stream_importance.specs.declared.{entry.Fit.TheVariants.Fits, entry.Want.Want};
ghost use Rattle.port_ledger.specs.Book.{Book, fit_for};
ghost use Rattle.port_ledger.specs.Decision.{is_booked};
ghost use Rattle.tree_topology.specs.Topology.{HasNode, HasPort, IsSound, Topology, link_ports};
ghost use Rattle.topology_file.specs.{Plan.Plan, Scenario.KeepsRules};
ghost use Rattle.topology_file.specs.declared.entries.LinkEntry.{LinkEntry};
ghost use Rattle.scenario_bounds.specs.Caps.{link_at};
ghost use Rattle.port_needs.specs.declared.demand.Wish.{Wish};
ghost use Rattle.port_needs.specs.Demands.{leads_to, wants_at};
ghost use Rattle.port_needs.specs.Shares.{is_enough, least_rate, shares_for};
ghost use Rattle.port_needs.specs.Needs.{needs_lines, never_lines};
ghost use Rattle.port_needs.specs.Laws.{AreLeastShares, AreServed, IsAmong, IsFullLedgerOf, IsLargeEnough, IsLedgerOf, IsOnWay, IsWishedAt};

use port_ledger::laws::{bookings_are_within_caps, decisions_stand};
use tree_topology::laws::ports;

/// The shares that are named for a port are the least that suffice there; none are named exactly
/// where no shares that a file may give away suffice.
pub fn the_shares_are_the_least()
    ensures some { (rate : Rate) (a both : ℕ) → a ≤ both
        → IfSome (shares_for rate a both) (AreLeastShares rate a both) }
    ensures none { (rate : Rate) (a both x y : ℕ) → a ≤ both → x + y ≤ 90
        → IfNone (shares_for rate a both) (is_enough (caps_of rate x y) a both ≡ false) }
{}

/// The rate that is named for a port is the least of which its shares suffice; none is named
/// exactly where they suffice of no rate.
pub fn the_rate_is_the_least()
    ensures enough { (delta_a delta_b a both : ℕ)
        → IfSome (least_rate delta_a delta_b a both)
        (λ r. is_enough (caps_of r delta_a delta_b) a both ≡ true) }
    ensures least { (delta_a delta_b a both : ℕ) (other : Rate)
        → IfSome (least_rate delta_a delta_b a both)
        (λ r. bits_of other < bits_of r
        → is_enough (caps_of other delta_a delta_b) a both ≡ false) }
    ensures none { (delta_a delta_b a both : ℕ) (other : Rate)
        → IfNone (least_rate delta_a delta_b a both)
        (is_enough (caps_of other delta_a delta_b) a both ≡ false) }
{}

/// No port has a line exactly where every port is large enough for all that is wished there, and no
/// stream has one exactly where each may come to each station that wishes it.
pub fn nothing_is_needed_where_all_are_large_enough()
    ensures ports { (plan : Plan) (wishes : List Wish) → (needs_lines plan wishes ≡ [])
        ↔ AllByRecursion (IsLargeEnough plan wishes) (link_ports plan.tree) }
    ensures streams { (plan : Plan) (wishes : List Wish) → (never_lines plan wishes ≡ [])
        ↔ AreServed plan wishes }
{}

/// Each port of a scenario's links has the entry of its link, by whose caps it is large enough or
/// not.
pub fn each_port_has_its_link()
    ensures { (plan : Plan) → KeepsRules plan
        → AllByRecursion (λ p. IsSome (link_at plan p)) (link_ports plan.tree) }
{}

/// Frames leave by a port on their way from one node to another exactly where it stands on the walk
/// without a repeated node.
pub fn a_stream_leaves_by_the_ports_of_its_way()
    ensures { (tree : Topology) (p : EgressPort) (from to : ℕ) → IsSound tree → HasPort tree p
        → HasNode tree from → HasNode tree to
        → (leads_to tree p from to ≡ true) ↔ IsOnWay tree from to p }
{
    ports();
}

/// A ledger of a port that is large enough, in which nothing wants but what is wished there, has
/// all of it booked, and whatever is wished there fits, booked or not, at its moment and at every
/// later one: so nothing is refused for want of bandwidth.
pub fn a_large_ledger_books_all_that_is_wished()
    ensures booked { (plan : Plan) (wishes : List Wish) (p : EgressPort) (link : LinkEntry)
        (book : Book) → IsLargeEnough plan wishes p → IsLedgerOf plan wishes p link book
        → AllByRecursion (λ x. is_booked x ≡ true) book.entries }
    ensures fits { (plan : Plan) (wishes : List Wish) (p : EgressPort) (link : LinkEntry)
        (book : Book) (now : ℕ) (want : Want) → IsLargeEnough plan wishes p
        → IsLedgerOf plan wishes p link book → IsAmong want (wants_at plan wishes p)
        → fit_for now book want ≡ Fits }
{
    decisions_stand();
}

/// A want is among those of a port exactly where some wish is for its stream: of a station from
/// which no boundary of the domain of the stream's class keeps it, and to which the port leads.
pub fn what_is_wished_is_asked()
    ensures { (plan : Plan) (wishes : List Wish) (p : EgressPort) (want : Want)
        → IsAmong want (wants_at plan wishes p) ↔ IsWishedAt plan wishes p want }
{}

/// A port whose ledger has booked all that is wished there is large enough for it: so a port that
/// is too small has something wished there that it hasn't booked.
pub fn a_ledger_that_booked_all_is_large_enough()
    ensures { (plan : Plan) (wishes : List Wish) (p : EgressPort) (link : LinkEntry) (book : Book)
        → KeepsRules plan → IsFullLedgerOf plan wishes p link book
        → IsLargeEnough plan wishes p }
{
    bookings_are_within_caps();
}
