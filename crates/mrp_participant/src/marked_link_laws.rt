//! What a link comes to after every history where a neighbour's LeaveAll makes an end sound too:
//! laws over a link with marks, beside those of links. Each is a function that does nothing;
//! calling it brings the law to a proof.
//!
//! ```text
//!   far sends LeaveAll, nothing on its way from near      near: clear      what far holds of near's keys is gone
//!   near sends anything                                   near: not clear
//!   near takes a LeaveAll while it is clear               near: assured    it has yet to say all that it declares
//!   one of the link's PDUs is lost                        no mark at either end
//! ```
//!
//! A `MarkedLink` (`specs/MarkedLink.antt`) is a link with such marks beside it. The duties are
//! asked of the link as seen, whose ends are sound by a LeaveAll of their own or by a mark. A
//! network keeps `AreMarkedDutiesMet` of each link, also with fewer marks than a link's history
//! would give it.

ghost use Rattle.std.specs.Prelude.{◌≡◌, Bool, true, List, [], ◌∷◌};
ghost use Rattle.srp_base.specs.declared.numbers.Cs.{Cs};
ghost use Rattle.mrp_participant.specs.Link.{LinkEvent};
ghost use Rattle.mrp_participant.specs.Link.EndEvent.{Sends, Receives};
ghost use Rattle.mrp_participant.specs.Link.LinkEvent.{AtNear, AtFar};
ghost use Rattle.mrp_participant.specs.MarkedLink.{Mark, MarkedLink, AreMarkedDutiesMet, IsNoMore, new_marked_link, other_marked_view, seen_link, after_marked_event, after_marked_events};
ghost use Rattle.mrp_participant.specs.State.{Messages, is_active, is_still, declared_at, registered_at};

use crate::application::MrpApp;

/// A new link meets both duties with no marks, and so does what its other end sees.
pub fn a_new_marked_link_meets_both_duties<A: MrpApp>()
    ensures new { (near far : Cs × Cs × Bool)
        → AreMarkedDutiesMet A.Key.cmp
        (new_marked_link {K = A.Key} {C = A.Content} near far) }
    ensures turned { (l : MarkedLink A.Key A.Content) → AreMarkedDutiesMet A.Key.cmp l
        → AreMarkedDutiesMet A.Key.cmp (other_marked_view l) }
{}

/// Whatever happens on a link with marks keeps both duties and what a clear way says.
pub fn every_event_keeps_marked_duties<A: MrpApp>()
    ensures event { (l : MarkedLink A.Key A.Content) (e : LinkEvent A.Key A.Content)
        → AreMarkedDutiesMet A.Key.cmp l
        → AreMarkedDutiesMet A.Key.cmp
        (after_marked_event A.base A.octets A.Key.cmp A.Content.eq l e) }
    ensures events { (l : MarkedLink A.Key A.Content) (events : List (LinkEvent A.Key A.Content))
        → AreMarkedDutiesMet A.Key.cmp l
        → AreMarkedDutiesMet A.Key.cmp
        (after_marked_events A.base A.octets A.Key.cmp A.Content.eq l events) }
{}

/// Marks may be dropped: with fewer of them the link keeps the same.
pub fn fewer_marks_keep_marked_duties<A: MrpApp>()
    ensures { (l : MarkedLink A.Key A.Content) (near far : Mark)
        → IsNoMore near l.near
        → IsNoMore far l.far
        → AreMarkedDutiesMet A.Key.cmp l
        → AreMarkedDutiesMet A.Key.cmp (record l { near = near; far = far }) }
{}

/// A LeaveAll that the far end sends, while nothing is on its way from the near end, clears the
/// near end's way; and one that the near end takes while its way is clear assures it.
pub fn a_neighbours_leave_all_assures<A: MrpApp>()
    ensures clears { (l : MarkedLink A.Key A.Content) (now : Cs)
        → is_active l.link.far.leave_all ≡ true
        → l.link.sent ≡ []
        → (after_marked_event A.base A.octets A.Key.cmp A.Content.eq l
        (AtFar (Sends now))).near.clear ≡ true }
    ensures assures { (l : MarkedLink A.Key A.Content) (now : Cs) (m : Messages A.Key A.Content)
        (coming : List (Messages A.Key A.Content))
        → l.link.coming ≡ m ∷ coming
        → m.leave_all ≡ true
        → l.near.clear ≡ true
        → (after_marked_event A.base A.octets A.Key.cmp A.Content.eq l
        (AtNear (Receives now))).near.assured ≡ true }
{}

/// After every history of a link with marks: where its near end is sound, by its own LeaveAll or by
/// a mark, both ends are still and nothing is in flight, each key is registered at the far end
/// exactly where the near end declares it, with its content; and the other way round.
pub fn a_still_marked_link_registers_what_is_declared<A: MrpApp>()
    ensures far { (l : MarkedLink A.Key A.Content)
        → AreMarkedDutiesMet A.Key.cmp l
        → l.link.sent ≡ []
        → l.link.coming ≡ []
        → is_still l.link.near ≡ true
        → is_still l.link.far ≡ true
        → (seen_link l).near.sound ≡ true
        → (k : A.Key)
        → registered_at A.Key.cmp k l.link.far ≡ declared_at A.Key.cmp k l.link.near }
    ensures near { (l : MarkedLink A.Key A.Content)
        → AreMarkedDutiesMet A.Key.cmp l
        → l.link.sent ≡ []
        → l.link.coming ≡ []
        → is_still l.link.near ≡ true
        → is_still l.link.far ≡ true
        → (seen_link l).far.sound ≡ true
        → (k : A.Key)
        → registered_at A.Key.cmp k l.link.near ≡ declared_at A.Key.cmp k l.link.far }
{}
