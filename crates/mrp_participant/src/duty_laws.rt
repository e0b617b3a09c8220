//! The duty of a participant to its neighbour over their link, and that every call keeps it: laws
//! over the states that contracts see. Each is a function that does nothing; calling it brings the
//! law to a proof.
//!
//! ```text
//!              sent, in order: what `near` has sent and `far` has not yet received
//!   near  ------------------------------------------------------------------->  far
//!         <-------------------------------------------------------------------
//!              coming: what `far` has sent and `near` has not yet received
//! ```
//!
//! The duty of `near` (`IsDutyMet` in `specs/Duty.antt`), where it is sound: of each key the
//! registrar of `far` will hold, once all that is sent has been received, what the applicant of
//! `near` declares, or a LeaveAll is coming at which it will say it again. A link has two duties,
//! one of each end. Each law says of one call, or of what happens in flight, that `own` duty stays
//! met, and the neighbour's, `far`.
//!
//! A world with links keeps both duties of each link, for whatever order of events: a call of a
//! participant at an end, a list of messages put at the end of those in flight or taken from their
//! front, and a repeat right behind its original. A list that is lost ends soundness at both ends;
//! a LeaveAll that an end sends makes it sound again, with its duty met.

ghost use Rattle.std.specs.Prelude.{◌≡◌, ◌↔◌, Bool, true, false, List, [], ◌∷◌, ◌++◌};
ghost use Rattle.srp_base.specs.declared.numbers.Cs.{Cs};
ghost use Rattle.mrp_participant.specs.Duty.{IsDutyMet};
ghost use Rattle.mrp_participant.specs.State.{State, Messages, AreRows, is_active, is_still, new_state, declared_at, registered_at, declared_state, withdrawn_state, left_state, received_state, leave_all_state, periodic_state, due_state, sent_state, sent_messages};

use crate::application::MrpApp;

/// Two new participants with nothing in flight between them meet their duties.
pub fn a_new_link_meets_its_duties<A: MrpApp>()
    ensures { (period leave_time : Cs) (periodic : Bool) (period' leave_time' : Cs)
        (periodic' : Bool)
        → IsDutyMet A.Key.cmp (new_state {K = A.Key} {C = A.Content} period leave_time periodic)
        (new_state period' leave_time' periodic') [] [] }
{}

/// `declare` keeps both duties.
pub fn declaring_keeps_duties<A: MrpApp>()
    ensures own { (near far : State A.Key A.Content) (sent coming : List (Messages A.Key A.Content))
        (key : A.Key) (c : A.Content)
        → AreRows A.Key.cmp near.rows
        → IsDutyMet A.Key.cmp near far sent coming
        → IsDutyMet A.Key.cmp (declared_state A.Key.cmp A.Content.eq key c near) far sent coming }
    ensures far { (near far : State A.Key A.Content) (sent coming : List (Messages A.Key A.Content))
        (key : A.Key) (c : A.Content)
        → AreRows A.Key.cmp near.rows
        → IsDutyMet A.Key.cmp far near coming sent
        → IsDutyMet A.Key.cmp far (declared_state A.Key.cmp A.Content.eq key c near) coming sent }
{}

/// `withdraw` keeps both duties: an attribute that was declared goes to LA, and so is left only
/// where Lv is said or a LeaveAll is sent.
pub fn withdrawing_keeps_duties<A: MrpApp>()
    ensures own { (near far : State A.Key A.Content) (sent coming : List (Messages A.Key A.Content))
        (key : A.Key)
        → AreRows A.Key.cmp near.rows
        → IsDutyMet A.Key.cmp near far sent coming
        → IsDutyMet A.Key.cmp (withdrawn_state A.Key.cmp key near) far sent coming }
    ensures far { (near far : State A.Key A.Content) (sent coming : List (Messages A.Key A.Content))
        (key : A.Key)
        → AreRows A.Key.cmp near.rows
        → IsDutyMet A.Key.cmp far near coming sent
        → IsDutyMet A.Key.cmp far (withdrawn_state A.Key.cmp key near) coming sent }
{}

/// `leave_due` keeps both duties.
pub fn leaving_keeps_duties<A: MrpApp>()
    ensures own { (near far : State A.Key A.Content) (sent coming : List (Messages A.Key A.Content))
        (key : A.Key)
        → AreRows A.Key.cmp near.rows
        → IsDutyMet A.Key.cmp near far sent coming
        → IsDutyMet A.Key.cmp (left_state A.Key.cmp key near) far sent coming }
    ensures far { (near far : State A.Key A.Content) (sent coming : List (Messages A.Key A.Content))
        (key : A.Key)
        → AreRows A.Key.cmp near.rows
        → IsDutyMet A.Key.cmp far near coming sent
        → IsDutyMet A.Key.cmp far (left_state A.Key.cmp key near) coming sent }
{}

/// `due` keeps both duties: the leave timers, the LeaveAll timer and periodic transmission.
pub fn timers_keep_duties<A: MrpApp>()
    ensures own { (near far : State A.Key A.Content) (sent coming : List (Messages A.Key A.Content))
        (now : Cs)
        → AreRows A.Key.cmp near.rows
        → IsDutyMet A.Key.cmp near far sent coming
        → IsDutyMet A.Key.cmp (due_state now near) far sent coming }
    ensures far { (near far : State A.Key A.Content) (sent coming : List (Messages A.Key A.Content))
        (now : Cs)
        → AreRows A.Key.cmp near.rows
        → IsDutyMet A.Key.cmp far near coming sent
        → IsDutyMet A.Key.cmp far (due_state now near) coming sent }
{}

/// `leaveall_due` keeps both duties.
pub fn the_leave_all_timer_keeps_duties<A: MrpApp>()
    ensures own { (near far : State A.Key A.Content) (sent coming : List (Messages A.Key A.Content))
        (now : Cs)
        → IsDutyMet A.Key.cmp near far sent coming
        → IsDutyMet A.Key.cmp (leave_all_state now near) far sent coming }
    ensures far { (near far : State A.Key A.Content) (sent coming : List (Messages A.Key A.Content))
        (now : Cs)
        → IsDutyMet A.Key.cmp far near coming sent
        → IsDutyMet A.Key.cmp far (leave_all_state now near) coming sent }
{}

/// `periodic_due` keeps both duties.
pub fn periodic_transmission_keeps_duties<A: MrpApp>()
    ensures own { (near far : State A.Key A.Content) (sent coming : List (Messages A.Key A.Content))
        → IsDutyMet A.Key.cmp near far sent coming
        → IsDutyMet A.Key.cmp (periodic_state near) far sent coming }
    ensures far { (near far : State A.Key A.Content) (sent coming : List (Messages A.Key A.Content))
        → IsDutyMet A.Key.cmp far near coming sent
        → IsDutyMet A.Key.cmp far (periodic_state near) coming sent }
{}

/// `receive` keeps both duties, where it takes the front of what is coming: what it makes of each
/// registrar is what was to be held, and after a LeaveAll the applicants have yet to speak.
pub fn receiving_keeps_duties<A: MrpApp>()
    ensures own { (near far : State A.Key A.Content) (sent coming : List (Messages A.Key A.Content))
        (now : Cs) (m : Messages A.Key A.Content)
        → AreRows A.Key.cmp near.rows
        → IsDutyMet A.Key.cmp near far sent (m ∷ coming)
        → IsDutyMet A.Key.cmp (received_state A.Key.cmp now m.leave_all m.events near) far sent
        coming }
    ensures far { (near far : State A.Key A.Content) (sent coming : List (Messages A.Key A.Content))
        (now : Cs) (m : Messages A.Key A.Content)
        → AreRows A.Key.cmp near.rows
        → IsDutyMet A.Key.cmp far near (m ∷ coming) sent
        → IsDutyMet A.Key.cmp far (received_state A.Key.cmp now m.leave_all m.events near) coming
        sent }
{}

/// `send` keeps both duties, where what it sends is put at the end of what is in flight. A
/// participant that has sent a LeaveAll meets its duty, whatever was before.
pub fn sending_keeps_duties<A: MrpApp>()
    ensures own { (near far : State A.Key A.Content) (sent coming : List (Messages A.Key A.Content))
        (now : Cs)
        → AreRows A.Key.cmp near.rows
        → IsDutyMet A.Key.cmp near far sent coming
        → IsDutyMet A.Key.cmp (sent_state A.base A.octets A.Key.cmp now near) far
        (sent ++ (sent_messages A.base A.octets A.Key.cmp now near ∷ [])) coming }
    ensures leave_all { (near far : State A.Key A.Content)
        (sent coming : List (Messages A.Key A.Content)) (now : Cs)
        → AreRows A.Key.cmp near.rows
        → is_active near.leave_all ≡ true
        → IsDutyMet A.Key.cmp (sent_state A.base A.octets A.Key.cmp now near) far
        (sent ++ (sent_messages A.base A.octets A.Key.cmp now near ∷ [])) coming }
    ensures far { (near far : State A.Key A.Content) (sent coming : List (Messages A.Key A.Content))
        (now : Cs)
        → AreRows A.Key.cmp near.rows
        → IsDutyMet A.Key.cmp far near coming sent
        → IsDutyMet A.Key.cmp far (sent_state A.base A.octets A.Key.cmp now near) coming
        (sent ++ (sent_messages A.base A.octets A.Key.cmp now near ∷ [])) }
{}

/// A repeat right behind its original keeps both duties.
pub fn repeating_in_place_keeps_duties<A: MrpApp>()
    ensures own { (near far : State A.Key A.Content)
        (front back coming : List (Messages A.Key A.Content)) (m : Messages A.Key A.Content)
        → IsDutyMet A.Key.cmp near far (front ++ (m ∷ back)) coming
        → IsDutyMet A.Key.cmp near far (front ++ (m ∷ (m ∷ back))) coming }
    ensures far { (near far : State A.Key A.Content)
        (front back coming : List (Messages A.Key A.Content)) (m : Messages A.Key A.Content)
        → IsDutyMet A.Key.cmp far near coming (front ++ (m ∷ back))
        → IsDutyMet A.Key.cmp far near coming (front ++ (m ∷ (m ∷ back))) }
{}

/// A participant that isn't sound owes nothing, whatever is in flight; and spoiling one leaves its
/// neighbour's duty met. So a loss, after which neither end is sound, keeps both.
pub fn spoiling_keeps_duties<A: MrpApp>()
    ensures own { (near far : State A.Key A.Content) (sent coming : List (Messages A.Key A.Content))
        → near.sound ≡ false
        → IsDutyMet A.Key.cmp near far sent coming }
    ensures far { (near far : State A.Key A.Content) (sent coming : List (Messages A.Key A.Content))
        → IsDutyMet A.Key.cmp far near coming sent
        → IsDutyMet A.Key.cmp far (record near { sound = false }) coming sent }
{}

/// A list of messages in flight that says nothing counts for nothing, and receiving it changes
/// nothing.
pub fn saying_nothing_changes_nothing<A: MrpApp>()
    ensures own { (near far : State A.Key A.Content)
        (front back coming : List (Messages A.Key A.Content))
        → IsDutyMet A.Key.cmp near far (front ++ (record { leave_all = false; events = [] } ∷ back))
        coming
        ↔ IsDutyMet A.Key.cmp near far (front ++ back) coming }
    ensures far { (near far : State A.Key A.Content)
        (front back coming : List (Messages A.Key A.Content))
        → IsDutyMet A.Key.cmp far near coming
        (front ++ (record { leave_all = false; events = [] } ∷ back))
        ↔ IsDutyMet A.Key.cmp far near coming (front ++ back) }
    ensures received { (s : State A.Key A.Content) (now : Cs)
        → received_state A.Key.cmp now false [] s ≡ s }
{}

/// Where a sound participant and its neighbour are still, and nothing is in flight, each key is
/// registered at the neighbour exactly where the participant declares it, with its content.
pub fn stillness_registers_what_is_declared<A: MrpApp>()
    ensures { (near far : State A.Key A.Content)
        → near.sound ≡ true
        → is_still near ≡ true
        → is_still far ≡ true
        → IsDutyMet A.Key.cmp near far [] []
        → (k : A.Key)
        → registered_at A.Key.cmp k far ≡ declared_at A.Key.cmp k near }
{}
