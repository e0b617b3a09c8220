//! What a participant sends (IEEE Std 802.1Q-2018, 10.7.6 and 10.8).

ghost use Rattle.std.specs.Prelude.{◌≡◌, ◌<◌, ◌^◌, ◌+◌, ◌++◌, ◌≤◌, ◌≢◌, ◌||◌, true, false, [], sum_by, OnOk, OnErr, IsOk, IfOk, IfSome, IfNone, is_none};
ghost use Rattle.std.specs.List.{filter_map};
ghost use Rattle.mrp_participant.specs.Lookup.{Ascends};
ghost use Rattle.mrp_participant.specs.Sending.{sent_row, sent_event, is_taken};
ghost use Rattle.mrp_participant.specs.SendingLimit.{is_before, is_in_room};
ghost use Rattle.mrp_participant.specs.Outlook.{IsOutlook};
ghost use Rattle.mrp_participant.specs.State.{AreRows, is_active, is_silent, sent_events, sent_state};

use crate::append::{keep_at, push_some};
use crate::application::{MrpApp, Msgs};
use crate::outlook::{Outlook, is_none_tried, outlook_of};
use crate::participant::Participant;
use crate::row::{Row, round};
use crate::sending_limit::{SendingLimit, find_limit};
use leaveall::{LaEvent, LeaveAll};
use srp_base::{Cs, MrpEvent, NoMemory, Seq};
use std::alloc::Global;

impl<A: MrpApp> Participant<A> {
    /// What `send` answers at the moment `now`, in cs and below 2^62; nothing changes (IEEE Std
    /// 802.1Q-2018, 10.7.6).
    ///
    /// The rows in VP, VN and LA, then those in AN and AA, each ascending by key, while the PDU
    /// stays within 1,500 octets. With LeaveAll those in VP and VN, in AN and AA, then also those
    /// in QA; LA then says nothing. A Join is JoinIn where the row's own Registrar is IN, else
    /// JoinMt; LeaveAll takes each Registrar out of IN first. The events stand ascending by key.
    ///
    /// None exactly where no row is VP, VN, AN, AA or LA and LeaveAll is Passive; that takes no
    /// memory.
    pub fn plan(&self, now: Cs) -> Result<Option<Msgs<A>>, NoMemory>
        requires { now.0 < 2 ^ 62 }

        ensures silent { IfOk result (λ planned. is_none planned ≡ is_silent self.now.state) }
        ensures leave_all { IfOk result (λ planned. IfSome planned (λ msgs. msgs.leave_all
            ≡ is_active self.now.state.leave_all)) }
        ensures events { IfOk result (λ planned. IfSome planned (λ msgs. msgs.events
            ≡ sent_events A.base A.octets A.Key.cmp now self.now.state)) }
        ensures ascending { IfOk result (λ planned. IfSome planned (λ msgs. Ascends A.Key.cmp
            (λ e. e.1) msgs.events)) }
        ensures fits { IfOk result (λ planned. IfSome planned (λ msgs. A.base + sum_by
            (λ e. A.octets e.2) msgs.events ≤ 1500)) }
        ensures says { IfOk result (λ planned. IfSome planned (λ msgs. msgs.leave_all ≡ false
            → msgs.events ≢ [])) }
        // Want of memory comes only where something is to be said.
        ensures none { is_silent self.now.state ≡ true → IsOk result }
    {
        if self.has_nothing_to_say() {
            return Ok(None);
        }
        let leave_all = is_active(self.leave_all);
        let leave = Cs(now.0 + self.leave_time.0);
        let alloc = *self.rows.allocator();
        let events = planned::<A>(alloc, self.rows.as_slice(), leave_all, leave)?;
        Ok(Some(Msgs { leave_all, events }))
    }

    /// The change that `send` makes at the moment `now`, in cs and below 2^62, once what `plan`
    /// answers goes out (IEEE Std 802.1Q-2018, 10.7.6): each row gets its transmission opportunity,
    /// LeaveAll is Passive, and a LeaveAll makes the participant sound, and readiness ends. Where
    /// nothing is to be said nothing changes. It takes no memory.
    pub fn sent(&mut self, now: Cs)
        requires { now.0 < 2 ^ 62 }
        ensures after { self.new.state ≡ sent_state A.base A.octets A.Key.cmp now self.old.state }
        ensures stays { is_silent self.old.state ≡ true → self.new ≡ self.old }
        ensures ready { is_silent self.old.state ≡ false → self.new.ready ≡ false }
    {
        if self.has_nothing_to_say() {
            return;
        }
        let leave_all = is_active(self.leave_all);
        let leave = Cs(now.0 + self.leave_time.0);
        step_rows::<A>(&mut self.rows, &mut self.outlook, leave_all, leave);
        self.leave_all = self.leave_all.step(LaEvent::Tx);
        self.sound = sound_after(self.sound, leave_all);
        self.ready = false;
    }

    /// What the participant sends at the moment `now`, in cs and below 2^62 (IEEE Std 802.1Q-2018,
    /// 10.7.6): what `plan` answers, with the change of `sent`.
    ///
    /// None exactly where no row is VP, VN, AN, AA or LA and LeaveAll is Passive; nothing changes
    /// then, and no memory is taken. A LeaveAll makes the participant sound. What is sent ends
    /// readiness. After want of memory the participant is as it was.
    pub fn send(&mut self, now: Cs) -> Result<Option<Msgs<A>>, NoMemory>
        requires { now.0 < 2 ^ 62 }

        ensures silent { IfOk result (λ sent. is_none sent ≡ is_silent self.old.state) }
        ensures leave_all { IfOk result (λ sent. IfSome sent (λ msgs. msgs.leave_all
            ≡ is_active self.old.state.leave_all)) }
        ensures events { IfOk result (λ sent. IfSome sent (λ msgs. msgs.events
            ≡ sent_events A.base A.octets A.Key.cmp now self.old.state)) }
        ensures ascending { IfOk result (λ sent. IfSome sent (λ msgs. Ascends A.Key.cmp
            (λ e. e.1) msgs.events)) }
        ensures fits { IfOk result (λ sent. IfSome sent (λ msgs. A.base + sum_by
            (λ e. A.octets e.2) msgs.events ≤ 1500)) }
        ensures says { IfOk result (λ sent. IfSome sent (λ msgs. msgs.leave_all ≡ false
            → msgs.events ≢ [])) }
        ensures after { OnOk result (self.new.state
            ≡ sent_state A.base A.octets A.Key.cmp now self.old.state) }
        ensures stays { IfOk result (λ sent. IfNone sent (self.new ≡ self.old)) }
        ensures err { OnErr result (self.new.state ≡ self.old.state) }
        // Want of memory comes only where something is to be said.
        ensures none { is_silent self.old.state ≡ true → IsOk result }
        ensures ready { OnOk result (is_silent self.old.state ≡ false → self.new.ready ≡ false) }
    {
        let planned = self.plan(now)?;
        self.sent(now);
        Ok(planned)
    }

    /// Whether there is nothing to say.
    fn has_nothing_to_say(&self) -> bool
        ensures { result ≡ is_silent self.now.state }
    {
        self.leave_all == LeaveAll::Passive && is_none_tried(self.rows.as_slice(), self.outlook)
    }
}

/// Whether a LeaveAll is to be sent.
fn is_active(machine: LeaveAll) -> bool
    ensures { result ≡ is_active machine }
{
    machine == LeaveAll::Active
}

/// Whether a participant is sound after it has sent.
fn sound_after(sound: bool, leave_all: bool) -> bool
    ensures { result ≡ (leave_all || sound) }
{
    leave_all || sound
}

/// What the rows say in the PDU.
fn planned<A: MrpApp>(
    alloc: Global,
    rows: &[Row<A::Key, A::Content>],
    leave_all: bool,
    leave: Cs,
) -> Result<Seq<(MrpEvent, A::Key, A::Content)>, NoMemory>
    requires { AreRows A.Key.cmp rows.now }
    ensures { IfOk result (λ events. events
        ≡ filter_map (λ r. sent_event leave_all
        (is_taken A.base A.octets A.Key.cmp leave_all rows.now r) leave r) rows.now) }
{
    let limit = find_limit::<A>(rows, leave_all);
    let events = say_each(alloc, rows, leave_all, &limit, leave)?;
    Ok(Seq::from_vec(events))
}

/// Gives each row its opportunity, in place.
fn step_rows<A: MrpApp>(
    rows: &mut Vec<Row<A::Key, A::Content>>,
    outlook: &mut Outlook,
    leave_all: bool,
    leave: Cs,
)
    requires { AreRows A.Key.cmp rows.old.items }
    ensures rows { rows.new.items
        ≡ filter_map (λ r. sent_row leave_all
        (is_taken A.base A.octets A.Key.cmp leave_all rows.old.items r) leave r) rows.old.items }
    ensures outlook { IsOutlook outlook.new rows.new.items }
{
    let limit = find_limit::<A>(rows.as_slice(), leave_all);
    step_each(rows, leave_all, &limit, leave);
    *outlook = outlook_of(rows.as_slice());
}

/// Whether a row is tried, and before the first one that finds no room.
fn is_in_room<K: Copy + Ord, C: Copy>(
    row: &Row<K, C>,
    leave_all: bool,
    limit: &Option<SendingLimit<K>>,
) -> bool
    ensures { result ≡ is_in_room K.cmp leave_all limit.now row.now }
{
    row.is_tried(leave_all) && is_before(row, leave_all, limit)
}

/// Whether a row is tried before the first one that finds no room, if there is one.
fn is_before<K: Copy + Ord, C: Copy>(
    row: &Row<K, C>,
    leave_all: bool,
    limit: &Option<SendingLimit<K>>,
) -> bool
    ensures { result ≡ is_before K.cmp leave_all limit.now row.now }
{
    match limit {
        None => true,
        Some(limit) => {
            let n = round(leave_all, row.applicant);
            n < limit.round || (n == limit.round && row.key < limit.key)
        }
    }
}

/// What the rows say, ascending by key.
fn say_each<K: Copy + Ord, C: Copy>(
    alloc: Global,
    rows: &[Row<K, C>],
    leave_all: bool,
    limit: &Option<SendingLimit<K>>,
    leave: Cs,
) -> Result<Vec<(MrpEvent, K, C)>, NoMemory>
    ensures { IfOk result (λ v. v.items ≡ filter_map
        (λ r. sent_event leave_all (is_in_room K.cmp leave_all limit.now r) leave r) rows.now) }
{
    let mut events = Vec::new(alloc);
    for row in rows {
        let taken = is_in_room(row, leave_all, limit);
        push_some(&mut events, row.says(leave_all, taken, leave))?;
    }
    Ok(events)
}

/// Puts each row after sending in its place, and closes the gaps of those of which nothing is kept.
fn step_each<K: Copy + Ord, C: Copy>(
    rows: &mut Vec<Row<K, C>>,
    leave_all: bool,
    limit: &Option<SendingLimit<K>>,
    leave: Cs,
)
    ensures { rows.new.items ≡ filter_map
        (λ r. sent_row leave_all (is_in_room K.cmp leave_all limit.now r) leave r) rows.old.items }
{
    let mut kept = 0;
    let mut at = 0;
    while at < rows.len() {
        let row = rows[at];
        let taken = is_in_room(&row, leave_all, limit);
        kept = keep_at(rows, kept, row.sent(leave_all, taken, leave));
        at += 1;
    }
    rows.truncate(kept);
}
