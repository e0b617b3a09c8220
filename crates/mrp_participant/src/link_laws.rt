//! What a link comes to after every history: laws over a link between two participants as contracts
//! see it. Each is a function that does nothing; calling it brings the law to a proof.
//!
//! A `Link` (`specs/Link.antt`) is the two participants and the lists of messages in flight each
//! way. Its events are the calls at either end, a loss, and a repeat right behind its original.
//! Both duties are met on a new link, and stay met at each event. So after every list of events,
//! whatever was lost: where an end is sound, both ends are still and nothing is in flight, each key
//! is registered at the other end exactly where this one declares it, with its content.
//!
//! A network keeps `AreDutiesMet` of each link: an event of the network is some events of each
//! link, or none.

ghost use Rattle.std.specs.Prelude.{◌≡◌, Bool, true, false, List, []};
ghost use Rattle.srp_base.specs.declared.numbers.Cs.{Cs};
ghost use Rattle.mrp_participant.specs.Link.{Link, LinkEvent, AreDutiesMet, is_loss, end_event_of, new_link, other_view, after_event, after_events};
ghost use Rattle.mrp_participant.specs.Link.EndEvent.{Sends};
ghost use Rattle.mrp_participant.specs.Link.LinkEvent.{AtNear, AtFar};
ghost use Rattle.mrp_participant.specs.State.{is_active, is_still, declared_at, registered_at};

use crate::application::MrpApp;

/// A new link meets both duties, and so does what its other end sees.
pub fn a_new_link_meets_both_duties<A: MrpApp>()
    ensures new { (near far : Cs × Cs × Bool)
        → AreDutiesMet A.Key.cmp (new_link {K = A.Key} {C = A.Content} near far) }
    ensures turned { (l : Link A.Key A.Content) → AreDutiesMet A.Key.cmp l
        → AreDutiesMet A.Key.cmp (other_view l) }
{}

/// Whatever happens on a link keeps both duties.
pub fn every_event_keeps_both_duties<A: MrpApp>()
    ensures event { (l : Link A.Key A.Content) (e : LinkEvent A.Key A.Content)
        → AreDutiesMet A.Key.cmp l
        → AreDutiesMet A.Key.cmp (after_event A.base A.octets A.Key.cmp A.Content.eq l e) }
    ensures events { (l : Link A.Key A.Content) (events : List (LinkEvent A.Key A.Content))
        → AreDutiesMet A.Key.cmp l
        → AreDutiesMet A.Key.cmp (after_events A.base A.octets A.Key.cmp A.Content.eq l events) }
{}

/// Only a loss ends the soundness of an end.
pub fn only_a_loss_ends_soundness<A: MrpApp>()
    ensures near { (l : Link A.Key A.Content) (e : LinkEvent A.Key A.Content)
        → is_loss (end_event_of e) ≡ false
        → l.near.sound ≡ true
        → (after_event A.base A.octets A.Key.cmp A.Content.eq l e).near.sound ≡ true }
    ensures far { (l : Link A.Key A.Content) (e : LinkEvent A.Key A.Content)
        → is_loss (end_event_of e) ≡ false
        → l.far.sound ≡ true
        → (after_event A.base A.octets A.Key.cmp A.Content.eq l e).far.sound ≡ true }
{}

/// A LeaveAll that an end sends makes it sound, whatever was lost before.
pub fn a_leave_all_makes_sound<A: MrpApp>()
    ensures near { (l : Link A.Key A.Content) (now : Cs)
        → is_active l.near.leave_all ≡ true
        → (after_event A.base A.octets A.Key.cmp A.Content.eq l (AtNear (Sends now))).near.sound
        ≡ true }
    ensures far { (l : Link A.Key A.Content) (now : Cs)
        → is_active l.far.leave_all ≡ true
        → (after_event A.base A.octets A.Key.cmp A.Content.eq l (AtFar (Sends now))).far.sound
        ≡ true }
{}

/// After every history of a link: where its near end is sound, both ends are still and nothing is
/// in flight, each key is registered at the far end exactly where the near end declares it, with
/// its content; and the other way round.
pub fn a_still_link_registers_what_is_declared<A: MrpApp>()
    ensures far { (l : Link A.Key A.Content)
        → AreDutiesMet A.Key.cmp l
        → l.sent ≡ []
        → l.coming ≡ []
        → is_still l.near ≡ true
        → is_still l.far ≡ true
        → l.near.sound ≡ true
        → (k : A.Key)
        → registered_at A.Key.cmp k l.far ≡ declared_at A.Key.cmp k l.near }
    ensures near { (l : Link A.Key A.Content)
        → AreDutiesMet A.Key.cmp l
        → l.sent ≡ []
        → l.coming ≡ []
        → is_still l.near ≡ true
        → is_still l.far ≡ true
        → l.far.sound ≡ true
        → (k : A.Key)
        → registered_at A.Key.cmp k l.near ≡ declared_at A.Key.cmp k l.far }
{}
