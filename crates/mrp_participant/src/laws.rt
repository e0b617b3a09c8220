//! What each key has after each call that touches every row: laws over the states that contracts
//! see. Each is a function that does nothing; calling it brings the law to a proof.

ghost use Rattle.std.specs.Prelude.{◌≡◌, ◌≢◌, ◌⊎◌, ◌↔◌, ℕ, ◌+◌, ◌≤◌, Bool, true, false, not, ◌&&◌, if◌then◌else◌, List, [], length, map, filter, sum_by, slice_get, Contains, IsSome, None, Some, option_map, option_and_then, option_to_list};
ghost use Rattle.srp_base.specs.declared.{numbers.Cs.Cs, mrp.MrpEvent.MrpEvent};
ghost use Rattle.leaveall.specs.declared.LeaveAll.TheVariants.{Passive};
ghost use Rattle.applicant.specs.declared.Applicant.TheVariants.{Vo};
ghost use Rattle.registrar.specs.declared.Registrar.TheVariants.{Empty};
ghost use Rattle.mrp_participant.specs.declared.row.Row.{Row};
ghost use Rattle.mrp_participant.specs.Lookup.{Ascends, ChangesOnly, key_of, same, find};
ghost use Rattle.registrar.specs.Table.{is_in};
ghost use Rattle.applicant.specs.Table.{is_quiet};
ghost use Rattle.mrp_participant.specs.Row.{after_declare, after_withdraw, after_leave, row_after_receive, after_leave_due, periodic_row, applicant_of, registrar_of, is_leaving_in};
ghost use Rattle.mrp_participant.specs.Sending.{IsSplit, order, is_taken, is_leave, word_of};
ghost use Rattle.mrp_participant.specs.State.{State, AreRows, after, is_active, is_silent, takes, row_sent, event_sent, declared_at, registered_at, declared_state, withdrawn_state, left_state, received_state, leave_all_state, periodic_state, sent_events, sent_state, changed_keys, left_keys, due_state, due_count, is_any_due, is_periodic_due, is_still};

use crate::application::MrpApp;
use applicant::laws::{events_keep_declarations, uses};

/// `declare`, `withdraw` and `leave_due` give their own key what they make of its row; each other
/// key has what it had.
pub fn one_key_changes<A: MrpApp>()
    ensures declare { (s : State A.Key A.Content) (key : A.Key) (c : A.Content)
        → AreRows A.Key.cmp s.rows
        → ChangesOnly A.Key.cmp key (after_declare A.Content.eq key c (find A.Key.cmp key s.rows))
        s.rows (declared_state A.Key.cmp A.Content.eq key c s).rows }
    ensures withdraw { (s : State A.Key A.Content) (key : A.Key)
        → AreRows A.Key.cmp s.rows
        → ChangesOnly A.Key.cmp key (after_withdraw (find A.Key.cmp key s.rows)) s.rows
        (withdrawn_state A.Key.cmp key s).rows }
    ensures leave_due { (s : State A.Key A.Content) (key : A.Key)
        → AreRows A.Key.cmp s.rows
        → ChangesOnly A.Key.cmp key (after_leave (find A.Key.cmp key s.rows)) s.rows
        (left_state A.Key.cmp key s).rows }
{}

/// The rows of a participant stay such rows at each call: they ascend strictly by key, and each
/// keeps something.
pub fn rows_stay_rows<A: MrpApp>()
    ensures declare { (s : State A.Key A.Content) (key : A.Key) (c : A.Content)
        → AreRows A.Key.cmp s.rows
        → AreRows A.Key.cmp (declared_state A.Key.cmp A.Content.eq key c s).rows }
    ensures withdraw { (s : State A.Key A.Content) (key : A.Key)
        → AreRows A.Key.cmp s.rows
        → AreRows A.Key.cmp (withdrawn_state A.Key.cmp key s).rows }
    ensures leave_due { (s : State A.Key A.Content) (key : A.Key)
        → AreRows A.Key.cmp s.rows
        → AreRows A.Key.cmp (left_state A.Key.cmp key s).rows }
    ensures receive { (s : State A.Key A.Content) (now : Cs) (leave_all : Bool)
        (events : List (MrpEvent × A.Key × A.Content))
        → AreRows A.Key.cmp s.rows
        → AreRows A.Key.cmp (received_state A.Key.cmp now leave_all events s).rows }
    ensures due { (s : State A.Key A.Content) (now : Cs)
        → AreRows A.Key.cmp s.rows
        → AreRows A.Key.cmp (due_state now s).rows }
    ensures leaveall_due { (s : State A.Key A.Content) (now : Cs)
        → AreRows A.Key.cmp s.rows
        → AreRows A.Key.cmp (leave_all_state now s).rows }
    ensures periodic_due { (s : State A.Key A.Content)
        → AreRows A.Key.cmp s.rows
        → AreRows A.Key.cmp (periodic_state s).rows }
    ensures send { (s : State A.Key A.Content) (now : Cs)
        → AreRows A.Key.cmp s.rows
        → AreRows A.Key.cmp (sent_state A.base A.octets A.Key.cmp now s).rows }
{}

/// After `receive` each key has what LeaveAll, and then the events of this key in order, made of
/// its row.
pub fn each_key_after_receive<A: MrpApp>()
    ensures { (s : State A.Key A.Content) (now : Cs) (leave_all : Bool)
        (events : List (MrpEvent × A.Key × A.Content))
        → AreRows A.Key.cmp s.rows
        → (k : A.Key)
        → find A.Key.cmp k (received_state A.Key.cmp now leave_all events s).rows
        ≡ row_after_receive A.Key.cmp (after now s.leave_time) leave_all events k
        (find A.Key.cmp k s.rows) }
{}

/// After `send` each key has what its own opportunity made of its row.
pub fn each_key_after_send<A: MrpApp>()
    ensures { (s : State A.Key A.Content) (now : Cs)
        → AreRows A.Key.cmp s.rows
        → (k : A.Key)
        → find A.Key.cmp k (sent_state A.base A.octets A.Key.cmp now s).rows
        ≡ option_and_then (λ r. row_sent A.base A.octets A.Key.cmp now s r)
        (find A.Key.cmp k s.rows) }
{}

/// After `due` each key has what its own leave timer, and then the periodic event where that is
/// due, left of its row.
pub fn each_key_after_due<A: MrpApp>()
    ensures { (s : State A.Key A.Content) (now : Cs)
        → AreRows A.Key.cmp s.rows
        → (k : A.Key)
        → find A.Key.cmp k (due_state now s).rows
        ≡ option_map (λ r. if is_periodic_due now s then periodic_row r else r)
        (option_and_then (after_leave_due now.0) (find A.Key.cmp k s.rows)) }
{}

/// `due` fires nothing exactly where no timer is due.
pub fn none_due<A: MrpApp>()
    ensures { (s : State A.Key A.Content) (now : Cs) → (due_count now s
        ≡ 0) ↔ (is_any_due now s ≡ false) }
{}

/// Where no timer is due, firing those that are changes nothing, and no key leaves.
pub fn nothing_due_changes_nothing<A: MrpApp>()
    ensures state { (s : State A.Key A.Content) (now : Cs) → is_any_due now s ≡ false
        → due_state now s ≡ s }
    ensures left { (s : State A.Key A.Content) (now : Cs) → is_any_due now s ≡ false
        → left_keys now s ≡ [] }
    ensures count { (s : State A.Key A.Content) (now : Cs) → is_any_due now s ≡ false
        → due_count now s ≡ 0 }
{}

/// What `send` says of a key is the one event of its row, or nothing.
pub fn each_key_in_what_is_sent<A: MrpApp>()
    ensures { (s : State A.Key A.Content) (now : Cs)
        → AreRows A.Key.cmp s.rows
        → (k : A.Key)
        → filter (λ e. same A.Key.cmp e.1 k) (sent_events A.base A.octets A.Key.cmp now s)
        ≡ option_to_list
        (option_and_then (λ r. event_sent A.base A.octets A.Key.cmp now s r)
        (find A.Key.cmp k s.rows)) }
{}

/// A row that is taken says one event with its key and its content: VN and AN say New, LA says Lv,
/// each other says Join, which is JoinIn exactly where the row's own Registrar is IN and there is
/// no LeaveAll. A row that isn't taken says nothing.
pub fn what_a_row_says<A: MrpApp>()
    ensures taken { (s : State A.Key A.Content) (now : Cs) (r : Row A.Key A.Content)
        → takes A.base A.octets A.Key.cmp s r ≡ true
        → event_sent A.base A.octets A.Key.cmp now s r
        ≡ Some (word_of (is_active s.leave_all) r.applicant (is_in r.registrar), r.key, r.content) }
    ensures not_taken { (s : State A.Key A.Content) (now : Cs) (r : Row A.Key A.Content)
        → takes A.base A.octets A.Key.cmp s r ≡ false
        → event_sent A.base A.octets A.Key.cmp now s r ≡ None }
{}

/// What `send` says is a PDU: the events ascend strictly by key and fit into 1,500 octets with the
/// base, and there is an event where something is to be said and there is no LeaveAll.
pub fn what_is_sent_is_a_pdu<A: MrpApp>()
    ensures ascending { (s : State A.Key A.Content) (now : Cs)
        → AreRows A.Key.cmp s.rows
        → Ascends A.Key.cmp (λ e. e.1) (sent_events A.base A.octets A.Key.cmp now s) }
    ensures fits { (s : State A.Key A.Content) (now : Cs)
        → AreRows A.Key.cmp s.rows
        → A.base + sum_by (λ e. A.octets e.2) (sent_events A.base A.octets A.Key.cmp now s) ≤ 1500 }
    ensures says { (s : State A.Key A.Content) (now : Cs)
        → AreRows A.Key.cmp s.rows
        → is_silent s ≡ false
        → is_active s.leave_all ≡ false
        → sent_events A.base A.octets A.Key.cmp now s ≢ [] }
{}

/// Each event that `send` says is the one of its key's row, and has the content that is declared of
/// the key; Lv is said of a key that isn't declared any more, with the content that was.
pub fn what_is_sent_is_declared<A: MrpApp>()
    ensures event { (s : State A.Key A.Content) (now : Cs) (e : MrpEvent × A.Key × A.Content)
        → AreRows A.Key.cmp s.rows
        → Contains (sent_events A.base A.octets A.Key.cmp now s) e
        → option_and_then (λ r. event_sent A.base A.octets A.Key.cmp now s r)
        (find A.Key.cmp e.1 s.rows) ≡ Some e }
    ensures content { (s : State A.Key A.Content) (now : Cs) (e : MrpEvent × A.Key × A.Content)
        → AreRows A.Key.cmp s.rows
        → Contains (sent_events A.base A.octets A.Key.cmp now s) e
        → option_map (λ r. r.content) (find A.Key.cmp e.1 s.rows) ≡ Some e.2 }
    ensures declared { (s : State A.Key A.Content) (now : Cs) (e : MrpEvent × A.Key × A.Content)
        → AreRows A.Key.cmp s.rows
        → Contains (sent_events A.base A.octets A.Key.cmp now s) e
        → declared_at A.Key.cmp e.1 s ≡ (if is_leave e.0 then None else Some e.2) }
{}

/// After the periodic event each key has what it made of its row.
pub fn each_key_after_periodic<A: MrpApp>()
    ensures { (s : State A.Key A.Content) (k : A.Key)
        → find A.Key.cmp k (periodic_state s).rows
        ≡ option_map periodic_row (find A.Key.cmp k s.rows) }
{}

/// The rows that `send` takes are the front, of the rows in the order in which they are tried, that
/// fits into a PDU with the base: with the row after them it wouldn't.
pub fn taken_rows_are_a_split<A: MrpApp>()
    ensures { (rows : List (Row A.Key A.Content)) (leave_all : Bool)
        → AreRows A.Key.cmp rows
        → IsSplit A.base A.octets (order leave_all rows)
        (filter (is_taken A.base A.octets A.Key.cmp leave_all rows) (order leave_all rows))
        (filter (λ r. not (is_taken A.base A.octets A.Key.cmp leave_all rows r))
        (order leave_all rows)) }
{}

/// `receive` tells each key whose registration or registered content changed, and no other.
pub fn receive_tells_each_change<A: MrpApp>()
    ensures told { (s : State A.Key A.Content) (now : Cs) (leave_all : Bool)
        (events : List (MrpEvent × A.Key × A.Content))
        → AreRows A.Key.cmp s.rows
        → (k : A.Key)
        → Contains (changed_keys A.Key.cmp A.Content.eq s.rows
        (received_state A.Key.cmp now leave_all events s).rows) k
        ⊎ (registered_at A.Key.cmp k (received_state A.Key.cmp now leave_all events s)
        ≡ registered_at A.Key.cmp k s) }
    ensures only { (s : State A.Key A.Content) (now : Cs) (leave_all : Bool)
        (events : List (MrpEvent × A.Key × A.Content))
        → AreRows A.Key.cmp s.rows
        → (k : A.Key)
        → Contains (changed_keys A.Key.cmp A.Content.eq s.rows
        (received_state A.Key.cmp now leave_all events s).rows) k
        → registered_at A.Key.cmp k (received_state A.Key.cmp now leave_all events s)
        ≢ registered_at A.Key.cmp k s }
{}

/// `due` tells each key that left: it was registered, and isn't any more. What is registered of
/// each other key stays.
pub fn due_tells_each_change<A: MrpApp>()
    ensures told { (s : State A.Key A.Content) (now : Cs)
        → AreRows A.Key.cmp s.rows
        → (k : A.Key)
        → Contains (left_keys now s) k
        ⊎ (registered_at A.Key.cmp k (due_state now s) ≡ registered_at A.Key.cmp k s) }
    ensures was { (s : State A.Key A.Content) (now : Cs)
        → AreRows A.Key.cmp s.rows
        → (k : A.Key)
        → Contains (left_keys now s) k
        → IsSome (registered_at A.Key.cmp k s) }
    ensures only { (s : State A.Key A.Content) (now : Cs)
        → AreRows A.Key.cmp s.rows
        → (k : A.Key)
        → Contains (left_keys now s) k
        → registered_at A.Key.cmp k (due_state now s) ≡ None }
{}

/// `receive` tells no more keys than it has events, and `due` no more than there are rows.
pub fn told_keys_are_few<A: MrpApp>()
    ensures receive { (s : State A.Key A.Content) (now : Cs) (leave_all : Bool)
        (events : List (MrpEvent × A.Key × A.Content))
        → AreRows A.Key.cmp s.rows
        → length (changed_keys A.Key.cmp A.Content.eq s.rows
        (received_state A.Key.cmp now leave_all events s).rows) ≤ length events }
    ensures due { (s : State A.Key A.Content) (now : Cs)
        → length (left_keys now s) ≤ length s.rows }
{}

/// The keys that `receive` and `due` tell ascend strictly, and each has a row: after `receive`, and
/// before `due`.
pub fn told_keys_ascend<A: MrpApp>()
    ensures receive { (old new : List (Row A.Key A.Content))
        → AreRows A.Key.cmp new
        → Ascends A.Key.cmp (λ k. k) (changed_keys A.Key.cmp A.Content.eq old new) }
    ensures receive_rows { (old new : List (Row A.Key A.Content)) (k : A.Key)
        → Contains (changed_keys A.Key.cmp A.Content.eq old new) k
        → Contains (map key_of new) k }
    ensures due { (s : State A.Key A.Content) (now : Cs)
        → AreRows A.Key.cmp s.rows
        → Ascends A.Key.cmp (λ k. k) (left_keys now s) }
    ensures due_rows { (s : State A.Key A.Content) (now : Cs) (k : A.Key)
        → Contains (left_keys now s) k
        → Contains (map key_of s.rows) k }
{}

/// A declaration stays as it was at each call but `declare` and `withdraw`.
pub fn declarations_stay<A: MrpApp>()
    ensures receive { (s : State A.Key A.Content) (now : Cs) (leave_all : Bool)
        (events : List (MrpEvent × A.Key × A.Content))
        → AreRows A.Key.cmp s.rows
        → (k : A.Key)
        → declared_at A.Key.cmp k (received_state A.Key.cmp now leave_all events s)
        ≡ declared_at A.Key.cmp k s }
    ensures leave_due { (s : State A.Key A.Content) (key : A.Key)
        → AreRows A.Key.cmp s.rows
        → (k : A.Key)
        → declared_at A.Key.cmp k (left_state A.Key.cmp key s) ≡ declared_at A.Key.cmp k s }
    ensures due { (s : State A.Key A.Content) (now : Cs)
        → AreRows A.Key.cmp s.rows
        → (k : A.Key)
        → declared_at A.Key.cmp k (due_state now s) ≡ declared_at A.Key.cmp k s }
    ensures periodic_due { (s : State A.Key A.Content) (k : A.Key)
        → declared_at A.Key.cmp k (periodic_state s) ≡ declared_at A.Key.cmp k s }
    ensures send { (s : State A.Key A.Content) (now : Cs)
        → AreRows A.Key.cmp s.rows
        → (k : A.Key)
        → declared_at A.Key.cmp k (sent_state A.base A.octets A.Key.cmp now s)
        ≡ declared_at A.Key.cmp k s }
{
    events_keep_declarations();
}

/// A registration stays as it was at each call but `receive`, `leave_due` and `due`.
pub fn registrations_stay<A: MrpApp>()
    ensures declare { (s : State A.Key A.Content) (key : A.Key) (c : A.Content)
        → AreRows A.Key.cmp s.rows
        → (k : A.Key)
        → registered_at A.Key.cmp k (declared_state A.Key.cmp A.Content.eq key c s)
        ≡ registered_at A.Key.cmp k s }
    ensures withdraw { (s : State A.Key A.Content) (key : A.Key)
        → AreRows A.Key.cmp s.rows
        → (k : A.Key)
        → registered_at A.Key.cmp k (withdrawn_state A.Key.cmp key s)
        ≡ registered_at A.Key.cmp k s }
    ensures periodic_due { (s : State A.Key A.Content) (k : A.Key)
        → registered_at A.Key.cmp k (periodic_state s) ≡ registered_at A.Key.cmp k s }
    ensures send { (s : State A.Key A.Content) (now : Cs)
        → AreRows A.Key.cmp s.rows
        → (k : A.Key)
        → registered_at A.Key.cmp k (sent_state A.base A.octets A.Key.cmp now s)
        ≡ registered_at A.Key.cmp k s }
{}

/// What is declared is declared with its content, what is withdrawn isn't declared, and what was LV
/// when its leave timer ended isn't registered; of each other key everything stays.
pub fn what_is_asked_holds<A: MrpApp>()
    ensures declare { (s : State A.Key A.Content) (key : A.Key) (c : A.Content)
        → AreRows A.Key.cmp s.rows
        → (k : A.Key)
        → declared_at A.Key.cmp k (declared_state A.Key.cmp A.Content.eq key c s)
        ≡ (if same A.Key.cmp key k then Some c else declared_at A.Key.cmp k s) }
    ensures withdraw { (s : State A.Key A.Content) (key : A.Key)
        → AreRows A.Key.cmp s.rows
        → (k : A.Key)
        → declared_at A.Key.cmp k (withdrawn_state A.Key.cmp key s)
        ≡ (if same A.Key.cmp key k then None else declared_at A.Key.cmp k s) }
    ensures leave_due { (s : State A.Key A.Content) (key : A.Key)
        → AreRows A.Key.cmp s.rows
        → (k : A.Key)
        → registered_at A.Key.cmp k (left_state A.Key.cmp key s)
        ≡ (if same A.Key.cmp key k && is_leaving_in (find A.Key.cmp key s.rows) then None
        else registered_at A.Key.cmp k s) }
{
    uses();
}

/// A participant is still exactly where LeaveAll is Passive, each key's Applicant is VO or QA and
/// no key's Registrar is LV.
pub fn still_at_each_key<A: MrpApp>()
    ensures passive { (s : State A.Key A.Content) → is_still s ≡ true → s.leave_all ≡ Passive }
    ensures quiet { (s : State A.Key A.Content)
        → is_still s ≡ true
        → (k : A.Key)
        → is_quiet (applicant_of (find A.Key.cmp k s.rows)) ≡ true }
    ensures not_leaving { (s : State A.Key A.Content)
        → is_still s ≡ true
        → (k : A.Key)
        → is_leaving_in (find A.Key.cmp k s.rows) ≡ false }
    ensures still { (s : State A.Key A.Content)
        → AreRows A.Key.cmp s.rows
        → s.leave_all ≡ Passive
        → ((k : A.Key) → is_quiet (applicant_of (find A.Key.cmp k s.rows)) ≡ true)
        → ((k : A.Key) → is_leaving_in (find A.Key.cmp k s.rows) ≡ false)
        → is_still s ≡ true }
{}

/// A participant that is still has nothing to say.
pub fn still_is_silent<A: MrpApp>()
    ensures { (s : State A.Key A.Content) → is_still s ≡ true → is_silent s ≡ true }
{}

/// A key has a row exactly where its Applicant isn't VO or its Registrar isn't MT.
pub fn a_row_where_something_is_kept<A: MrpApp>()
    ensures row { (s : State A.Key A.Content)
        → AreRows A.Key.cmp s.rows
        → (k : A.Key)
        → IsSome (find A.Key.cmp k s.rows)
        ↔ ((applicant_of (find A.Key.cmp k s.rows) ≢ Vo)
        ⊎ (registrar_of (find A.Key.cmp k s.rows) ≢ Empty)) }
    ensures place { (s : State A.Key A.Content)
        → AreRows A.Key.cmp s.rows
        → (k : A.Key)
        → IsSome (find A.Key.cmp k s.rows) ↔ Contains (map key_of s.rows) k }
{}

/// The row at each place is the one of its key, and each key that is declared or registered has a
/// place.
pub fn a_place_for_each_key<A: MrpApp>()
    ensures found { (s : State A.Key A.Content) (i : ℕ) (r : Row A.Key A.Content)
        → AreRows A.Key.cmp s.rows
        → slice_get s.rows i ≡ Some r
        → find A.Key.cmp r.key s.rows ≡ Some r }
    ensures declared { (s : State A.Key A.Content) (k : A.Key)
        → IsSome (declared_at A.Key.cmp k s)
        → Contains (map key_of s.rows) k }
    ensures registered { (s : State A.Key A.Content) (k : A.Key)
        → IsSome (registered_at A.Key.cmp k s)
        → Contains (map key_of s.rows) k }
{}
