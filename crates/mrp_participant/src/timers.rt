//! The timers of a participant (IEEE Std 802.1Q-2018, 10.7.4): the leave timers of its rows, the
//! LeaveAll timer, and periodic transmission.

ghost use Rattle.std.specs.Prelude.{◌≡◌, ◌<◌, ◌≤◌, ◌+◌, ◌^◌, ◌++◌, [], true, false, length, map, filter, min, if◌then◌else◌, vec_capacity, vec_len, IsOk, OnOk, OnErr, IfOk};
ghost use Rattle.std.specs.List.{filter_map, list_any};
ghost use Rattle.mrp_participant.specs.Lookup.{key_of};
ghost use Rattle.mrp_participant.specs.Row.{leave_is_due, after_leave_due, periodic_row};
ghost use Rattle.mrp_participant.specs.Outlook.{IsOutlook};
ghost use Rattle.mrp_participant.specs.State.{leave_all_state, periodic_state, is_any_due, due_leave_all_state, due_periodic_state, due_state, due_count, left_keys};

use crate::append::{keep_at, push_within};
use crate::application::MrpApp;
use crate::laws::nothing_due_changes_nothing;
use crate::outlook::{Outlook, is_leave_due, outlook_of};
use crate::participant::Participant;
use crate::row::Row;
use leaveall::LaEvent;
use srp_base::{Cs, NoMemory, Seq};
use std::mem::replace;

impl<A: MrpApp> Participant<A> {
    /// Fires the LeaveAll timer at the moment `now`, in cs and below 2^62: the machine is Active,
    /// and the timer ends again a period later (IEEE Std 802.1Q-2018, 10.7.9). It ends readiness.
    pub fn leaveall_due(&mut self, now: Cs)
        requires { now.0 < 2 ^ 62 }
        ensures after { self.new.state ≡ leave_all_state now self.old.state }
        ensures spare { self.new.spare ≡ self.old.spare }
        ensures ready { self.new.ready ≡ false }
    {
        self.leave_all = self.leave_all.step(LaEvent::Timer);
        self.next_leave_all = Cs(now.0 + self.period.0);
        self.ready = false;
    }

    /// The event periodic! to each row (IEEE Std 802.1Q-2018, 10.7.10). The periodic machine's next
    /// moment stays. It ends readiness.
    pub fn periodic_due(&mut self)
        ensures after { self.new.state ≡ periodic_state self.old.state }
        ensures ready { self.new.ready ≡ false }
    {
        all_periodic(&mut self.rows, &mut self.outlook);
        self.ready = false;
    }

    /// Whether a timer's moment is at or before `now`, in cs.
    pub fn any_due(&self, now: Cs) -> bool
        ensures { result ≡ is_any_due now self.now.state }
    {
        is_leave_due(self.rows.as_slice(), self.outlook, now)
            || (self.next_leave_all.0 <= now.0 || self.periodic.due(now))
    }

    /// Fires all timers that are due at the moment `now`, in cs and below 2^62: the leave timers
    /// ascending, then LeaveAll, then periodic. Answers how many fired, a number that stops at
    /// 4,294,967,295, and the keys that left, ascending. What fires ends readiness; where no timer
    /// is due nothing changes. After want of memory, which comes only where the participant isn't
    /// ready and some leave timer is due, it is as it was.
    pub fn due(&mut self, now: Cs) -> Result<(u32, Seq<A::Key>), NoMemory>
        requires { now.0 < 2 ^ 62 }

        ensures after { OnOk result (self.new.state ≡ due_state now self.old.state) }
        ensures fired { IfOk result (λ r. r.0 ≡ min (due_count now self.old.state) 4294967295) }
        ensures keys { IfOk result (λ r. r.1 ≡ left_keys now self.old.state) }
        ensures err { OnErr result (self.new.state ≡ self.old.state) }
        ensures ready { self.old.ready ≡ true → IsOk result }
        // Want of memory comes only where a leave timer is due.
        ensures none { list_any (leave_is_due now.0) self.old.state.rows ≡ false → IsOk result }
        // What fires ends readiness, and nothing else does.
        ensures stays { is_any_due now self.old.state ≡ false → self.new ≡ self.old }
        ensures ends { OnOk result (is_any_due now self.old.state ≡ true
            → self.new.ready ≡ false) }
    {
        nothing_due_changes_nothing::<A>();
        if !self.any_due(now) {
            return Ok((0, Seq::from_vec(Vec::new(*self.rows.allocator()))));
        }
        self.fire(now)
    }

    /// Fires all timers that are due, as `due` does.
    fn fire(&mut self, now: Cs) -> Result<(u32, Seq<A::Key>), NoMemory>
        requires { now.0 < 2 ^ 62 }

        ensures after { OnOk result (self.new.state ≡ due_state now self.old.state) }
        ensures fired { IfOk result (λ r. r.0 ≡ min (due_count now self.old.state) 4294967295) }
        ensures keys { IfOk result (λ r. r.1 ≡ left_keys now self.old.state) }
        ensures err { OnErr result (self.new.state ≡ self.old.state) }
        ensures ready { self.old.ready ≡ true → IsOk result }
        ensures none { list_any (leave_is_due now.0) self.old.state.rows ≡ false → IsOk result }
        ensures ends { OnOk result (self.new.ready ≡ false) }
    {
        fire_leaves(&mut self.rows, &mut self.outlook, &mut self.left, now)?;
        self.ready = false;
        let keys = taken(&mut self.left);
        let leave_all = self.next_leave_all.0 <= now.0;
        let periodic = self.periodic.due(now);
        let fired = count(keys.len(), leave_all, periodic);
        self.fire_leave_all(now);
        self.fire_periodic(now);
        Ok((fired, keys))
    }

    /// Fires the LeaveAll timer where it is due.
    fn fire_leave_all(&mut self, now: Cs)
        requires { now.0 < 2 ^ 62 }
        ensures after { self.new.state ≡ due_leave_all_state now self.old.state }
        ensures ready { self.old.ready ≡ false → self.new.ready ≡ false }
    {
        if self.next_leave_all.0 <= now.0 {
            self.leaveall_due(now);
        }
    }

    /// Fires the periodic machine where it is due.
    fn fire_periodic(&mut self, now: Cs)
        requires { now.0 < 2 ^ 62 }
        ensures after { self.new.state ≡ due_periodic_state now self.old.state }
        ensures ready { self.old.ready ≡ false → self.new.ready ≡ false }
    {
        if self.periodic.due(now) {
            all_periodic(&mut self.rows, &mut self.outlook);
            self.periodic.fire(now);
            self.ready = false;
        }
    }
}

/// The periodic event to each row.
fn all_periodic<K: Copy, C: Copy>(rows: &mut Vec<Row<K, C>>, outlook: &mut Outlook)
    ensures rows { rows.new.items ≡ map periodic_row rows.old.items }
    ensures outlook { IsOutlook outlook.new rows.new.items }
{
    for row in rows.iter_mut() {
        *row = row.hears_periodic();
    }
    *outlook = outlook_of(rows.as_slice());
}

/// Fires the leave timers that are due, and puts their keys into an empty list. Where none is due
/// no row is looked at, and where the list has room for the keys of all rows no memory is taken.
/// After want of memory the rows are as they were.
fn fire_leaves<K: Copy, C: Copy>(
    rows: &mut Vec<Row<K, C>>,
    outlook: &mut Outlook,
    keys: &mut Vec<K>,
    now: Cs,
) -> Result<(), NoMemory>
    requires outlook { IsOutlook outlook.old rows.old.items }
    requires empty { keys.old.items ≡ [] }
    ensures keys { OnOk result (keys.new.items
        ≡ map key_of (filter (leave_is_due now.0) rows.old.items)) }
    ensures rows { OnOk result (rows.new.items
        ≡ filter_map (after_leave_due now.0) rows.old.items) }
    ensures err { OnErr result (rows.new.items ≡ rows.old.items) }
    ensures stays { OnErr result ((keys.new.items ≡ [])
        × (vec_capacity keys.new ≡ vec_capacity keys.old)) }
    ensures room { length rows.old.items ≤ vec_capacity keys.old → IsOk result }
    ensures none { list_any (leave_is_due now.0) rows.old.items ≡ false → IsOk result }
    ensures outlook { IsOutlook outlook.new rows.new.items }
{
    if !outlook.has_due(now) {
        return Ok(());
    }
    keys.reserve(rows.len())?;
    keys_that_leave(rows.as_slice(), keys, now);
    thin(rows, now);
    *outlook = outlook_of(rows.as_slice());
    Ok(())
}

/// Puts the keys of the leave timers that are due at the end of a list that has room for the keys
/// of all rows.
fn keys_that_leave<K: Copy, C: Copy>(rows: &[Row<K, C>], keys: &mut Vec<K>, now: Cs)
    requires { vec_len keys.old + length rows.now ≤ vec_capacity keys.old }
    ensures { keys.new.items
        ≡ keys.old.items ++ map key_of (filter (leave_is_due now.0) rows.now) }
{
    for row in rows {
        push_within(keys, row.key_that_leaves(now));
    }
}

/// Puts each row after the leave timers that are due in its place, and closes the gaps of those of
/// which nothing is kept.
fn thin<K: Copy, C: Copy>(rows: &mut Vec<Row<K, C>>, now: Cs)
    ensures { rows.new.items ≡ filter_map (after_leave_due now.0) rows.old.items }
{
    let mut kept = 0;
    let mut at = 0;
    while at < rows.len() {
        let row = rows[at];
        kept = keep_at(rows, kept, row.after_leave_due(now));
        at += 1;
    }
    rows.truncate(kept);
}

/// A list's elements, which leaves it empty.
fn taken<T>(items: &mut Vec<T>) -> Seq<T>
    ensures taken { result ≡ items.old.items }
    ensures empty { items.new.items ≡ [] }
{
    let empty = Vec::new(*items.allocator());
    Seq::from_vec(replace(items, empty))
}

/// How many timers fire: the leave timers, and the two others where they are due.
fn count(left: usize, leave_all: bool, periodic: bool) -> u32
    ensures { result
        ≡ min (left + ((if leave_all then 1 else 0) + (if periodic then 1 else 0))) 4294967295 }
{
    let others = u128::from(leave_all) + u128::from(periodic);
    let fired = left as u128 + others;
    if fired < 4_294_967_295 {
        fired as u32
    } else {
        u32::MAX
    }
}
