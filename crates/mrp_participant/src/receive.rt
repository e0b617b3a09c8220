//! What a received list of messages makes of the rows (IEEE Std 802.1Q-2018, 10.7.5 and 10.7.6).

ghost use Rattle.std.specs.Prelude.{◌≡◌, ◌<◌, ◌^◌, not, if◌then◌else◌, false, Some, OnOk, OnErr, IfOk};
ghost use Rattle.leaveall.specs.declared.LaEvent.TheVariants.{Rx};
ghost use Rattle.leaveall.specs.Table.{table};
ghost use Rattle.std.specs.Option.{option_eq};
ghost use Rattle.mrp_participant.specs.Lookup.{Ascends, key_of, find};
ghost use Rattle.mrp_participant.specs.Row.{registered_in, row_after_receive};
ghost use Rattle.mrp_participant.specs.Hearing.{row_so_far};
ghost use Rattle.mrp_participant.specs.Outlook.{IsOutlook};
ghost use Rattle.mrp_participant.specs.State.{AreRows, rows_after_receive, changed_keys, received_state};

use crate::application::{MrpApp, Msgs};
use crate::event_order::{by_key, keys_ascend};
use crate::hearing::{put_heard, rows_heard};
use crate::lookup::find_near;
use crate::outlook::Outlook;
use crate::participant::Participant;
use crate::row::Row;
use leaveall::{LaEvent, LeaveAll};
use srp_base::{Cs, MrpEvent, NoMemory, Seq};
use std::alloc::Global;

impl<A: MrpApp> Participant<A> {
    /// Takes what the neighbour sent at the moment `now`, in cs and below 2^62: LeaveAll first,
    /// then the events in order (IEEE Std 802.1Q-2018, 10.7.5). Answers, ascending, the keys whose
    /// registration or registered content differs from before. It goes over all rows with LeaveAll,
    /// for a key that has no row yet, and once where the events end the last of the leave timers
    /// that would end first. It ends readiness. After want of memory the participant is as it was.
    pub fn receive(&mut self, now: Cs, msgs: &Msgs<A>) -> Result<Seq<A::Key>, NoMemory>
        requires { now.0 < 2 ^ 62 }

        ensures after { OnOk result (self.new.state
            ≡ received_state A.Key.cmp now msgs.now.leave_all msgs.now.events self.old.state) }
        ensures keys { IfOk result (λ keys. keys
            ≡ changed_keys A.Key.cmp A.Content.eq self.old.state.rows self.new.state.rows) }
        ensures err { OnErr result (self.new.state ≡ self.old.state) }
        ensures ready { OnOk result (self.new.ready ≡ false) }
    {
        let leave = Cs(now.0 + self.leave_time.0);
        let keys = receive_in(
            &mut self.rows,
            &mut self.outlook,
            msgs.leave_all,
            msgs.events.as_slice(),
            leave,
        )?;
        let restart = Cs(now.0 + self.period.0);
        self.leave_all = machine_after(self.leave_all, msgs.leave_all);
        self.next_leave_all = moment_after(self.next_leave_all, msgs.leave_all, restart);
        self.ready = false;
        Ok(keys)
    }
}

/// A LeaveAll machine after a list of messages was received.
fn machine_after(machine: LeaveAll, leave_all: bool) -> LeaveAll
    ensures { result ≡ (if leave_all then table Rx machine else machine) }
{
    if leave_all {
        machine.step(LaEvent::Rx)
    } else {
        machine
    }
}

/// The moment of the LeaveAll timer after a list of messages was received.
fn moment_after(next: Cs, leave_all: bool, restart: Cs) -> Cs
    ensures { result ≡ (if leave_all then restart else next) }
{
    if leave_all { restart } else { next }
}

/// Lets the rows hear a list of messages: LeaveAll first, then the events in order. Answers the
/// keys whose registration or registered content changes, which are among those of the events.
/// After want of memory the rows are as they were.
fn receive_in<K: Copy + Ord, C: Copy + Eq>(
    rows: &mut Vec<Row<K, C>>,
    outlook: &mut Outlook,
    leave_all: bool,
    events: &[(MrpEvent, K, C)],
    leave: Cs,
) -> Result<Seq<K>, NoMemory>
    requires are_rows { AreRows K.cmp rows.old.items }
    requires outlook { IsOutlook outlook.old rows.old.items }
    ensures rows { OnOk result (rows.new.items
        ≡ rows_after_receive K.cmp leave leave_all events.now rows.old.items) }
    ensures keys { IfOk result (λ keys. keys
        ≡ changed_keys K.cmp C.eq rows.old.items
        (rows_after_receive K.cmp leave leave_all events.now rows.old.items)) }
    ensures are_rows { OnOk result (AreRows K.cmp rows.new.items) }
    ensures err { OnErr result (rows.new.items ≡ rows.old.items) }
    ensures outlook { IsOutlook outlook.new rows.new.items }
{
    let alloc = *rows.allocator();
    let all = rows.as_slice();
    let heard = hear(alloc, all, leave_all, events, leave)?;
    let keys = changed(alloc, all, heard.as_slice())?;
    put_heard(rows, outlook, leave_all, heard.as_slice(), leave)?;
    Ok(Seq::from_vec(keys))
}

/// The rows of the keys that events speak of, after LeaveAll and then the events. Where the keys
/// don't ascend, the events are put in the order of their keys first, so that no row is put between
/// others.
fn hear<K: Copy + Ord, C: Copy>(
    alloc: Global,
    rows: &[Row<K, C>],
    leave_all: bool,
    events: &[(MrpEvent, K, C)],
    leave: Cs,
) -> Result<Vec<Row<K, C>>, NoMemory>
    requires { AreRows K.cmp rows.now }
    ensures are_rows { IfOk result (λ v. AreRows K.cmp v.items) }
    ensures each_key { IfOk result (λ v. (k : K)
        → row_so_far K.cmp leave_all leave rows.now v.items k
        ≡ row_after_receive K.cmp leave leave_all events.now k (find K.cmp k rows.now)) }
{
    if keys_ascend(events) {
        return rows_heard(alloc, rows, leave_all, events, leave);
    }
    let sorted = by_key(alloc, events)?;
    rows_heard(alloc, rows, leave_all, sorted.as_slice(), leave)
}

/// The keys whose registration or registered content differs between two lists of rows.
fn changed<K: Copy + Ord, C: Copy + Eq>(
    alloc: Global,
    old: &[Row<K, C>],
    new: &[Row<K, C>],
) -> Result<Vec<K>, NoMemory>
    requires { Ascends K.cmp key_of old.now }
    ensures { IfOk result (λ keys. keys.items ≡ changed_keys K.cmp C.eq old.now new.now) }
{
    let mut keys = Vec::new(alloc);
    let mut near = 0;
    for row in new {
        if !differs(old, &mut near, row) {
            continue;
        }
        keys.push(row.key)?;
    }
    Ok(keys)
}

/// Whether what is registered in a row differs from what was registered of its key, whose row may
/// have stood at `near`.
fn differs<K: Copy + Ord, C: Copy + Eq>(
    old: &[Row<K, C>],
    near: &mut usize,
    row: &Row<K, C>,
) -> bool
    requires { Ascends K.cmp key_of old.now }
    ensures { result
        ≡ not (option_eq C.eq (registered_in (find K.cmp row.now.key old.now))
        (registered_in (Some row.now))) }
{
    let before = match find_near(old, &row.key, near) {
        Some(row) => row.registered(),
        None => None,
    };
    before != row.registered()
}
