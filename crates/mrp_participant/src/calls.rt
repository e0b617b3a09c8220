//! What the user asks of one key, and the end of one leave timer.

ghost use Rattle.std.specs.Prelude.{◌≡◌, ◌≤◌, ◌+◌, true, false, if◌then◌else◌, Some, None, is_none, vec_capacity, vec_len, OnOk, OnErr};
ghost use Rattle.mrp_participant.specs.Lookup.{Ascends, ChangesOnly, key_of, find, put};
ghost use Rattle.mrp_participant.specs.Row.{after_declare, after_withdraw, after_leave, is_leaving_in, declared_in};
ghost use Rattle.mrp_participant.specs.Outlook.{IsOutlook};
ghost use Rattle.mrp_participant.specs.State.{declared_state, withdrawn_state, left_state};

use crate::application::MrpApp;
use crate::lookup::place;
use crate::outlook::{Outlook, fill_row, replace_row};
use crate::participant::Participant;
use crate::row::Row;
use registrar::Registrar;
use srp_base::NoMemory;

impl<A: MrpApp> Participant<A> {
    /// Declares a key with a content: Join! in VO, New! in LA (IEEE Std 802.1Q-2018, 10.7.7). The
    /// same content again changes nothing, another content is declared anew, by New!. A key without
    /// a row uses one of the spare. It ends readiness. After want of memory, which comes only for a
    /// key without a row and without spare, the participant is as it was.
    pub fn declare(&mut self, key: A::Key, content: A::Content) -> Result<(), NoMemory>
        ensures ok { OnOk result (self.new.state
            ≡ declared_state A.Key.cmp A.Content.eq key content self.old.state) }
        ensures same_content { declared_in (find A.Key.cmp key self.old.state.rows) ≡ Some content
            → self.new.state ≡ self.old.state }
        ensures err { OnErr result (self.new.state ≡ self.old.state) }
        // Want of memory comes only for a key without a row, where there is no spare.
        ensures room { OnErr result (find A.Key.cmp key self.old.state.rows ≡ None) }
        ensures full { OnErr result (self.old.spare ≡ 0) }
        ensures each_key { OnOk result (ChangesOnly A.Key.cmp key
            (after_declare A.Content.eq key content (find A.Key.cmp key self.old.state.rows))
            self.old.state.rows self.new.state.rows) }
        // A key without a row lowers the spare by one at most, one with a row lowers nothing.
        ensures spare { self.old.spare ≤ self.new.spare + 1 }
        ensures known { is_none (find A.Key.cmp key self.old.state.rows) ≡ false
            → self.old.spare ≤ self.new.spare }
        ensures ready { self.new.ready ≡ false }
    {
        let done = declare_in(&mut self.rows, &mut self.outlook, key, content);
        self.ready = false;
        done
    }

    /// Withdraws a key: New! and then Lv! in VP, nothing in VO and LA, Lv! in the others (IEEE Std
    /// 802.1Q-2018, 10.7.7). So each withdrawal says Lv, or rides on a LeaveAll. What isn't
    /// declared stays as it is. It lowers no spare, and ends readiness.
    pub fn withdraw(&mut self, key: A::Key)
        ensures after { self.new.state ≡ withdrawn_state A.Key.cmp key self.old.state }
        ensures undeclared { declared_in (find A.Key.cmp key self.old.state.rows) ≡ None
            → self.new.state ≡ self.old.state }
        ensures each_key { ChangesOnly A.Key.cmp key
            (after_withdraw (find A.Key.cmp key self.old.state.rows))
            self.old.state.rows self.new.state.rows }
        ensures spare { self.old.spare ≤ self.new.spare }
        ensures ready { self.new.ready ≡ false }
    {
        withdraw_in(&mut self.rows, &mut self.outlook, key);
        self.ready = false;
    }

    /// Ends a key's leave timer: LV becomes MT (IEEE Std 802.1Q-2018, 10.7.8). True exactly where
    /// the Registrar was LV; where it wasn't, nothing changes, readiness either. It lowers no
    /// spare, and ends readiness where it was.
    pub fn leave_due(&mut self, key: A::Key) -> bool
        ensures was { result ≡ is_leaving_in (find A.Key.cmp key self.old.state.rows) }
        ensures after { self.new.state ≡ left_state A.Key.cmp key self.old.state }
        ensures stays { result ≡ false → self.new ≡ self.old }
        ensures each_key { ChangesOnly A.Key.cmp key
            (after_leave (find A.Key.cmp key self.old.state.rows))
            self.old.state.rows self.new.state.rows }
        ensures spare { self.old.spare ≤ self.new.spare }
        ensures ready { result ≡ true → self.new.ready ≡ false }
    {
        let was = leave_in(&mut self.rows, &mut self.outlook, key);
        self.ready = stays_ready(self.ready, was);
        was
    }
}

/// Whether a participant is ready after a call that changed it or didn't.
fn stays_ready(ready: bool, changed: bool) -> bool
    ensures { result ≡ (if changed then false else ready) }
{
    if changed { false } else { ready }
}

/// Declares a key. After want of memory, which comes only for a key without a row where there is no
/// spare capacity, the rows are as they were.
pub(crate) fn declare_in<K: Copy + Ord, C: Copy + Eq>(
    rows: &mut Vec<Row<K, C>>,
    outlook: &mut Outlook,
    key: K,
    content: C,
) -> Result<(), NoMemory>
    requires ascend { Ascends K.cmp key_of rows.old.items }
    requires outlook { IsOutlook outlook.old rows.old.items }
    ensures ok { OnOk result (rows.new.items
        ≡ put K.cmp key (after_declare C.eq key content (find K.cmp key rows.old.items))
        rows.old.items) }
    ensures err { OnErr result (rows.new.items ≡ rows.old.items) }
    ensures room { OnErr result (find K.cmp key rows.old.items ≡ None) }
    ensures full { OnErr result (vec_capacity rows.old ≤ vec_len rows.old) }
    ensures capacity { vec_capacity rows.old ≤ vec_capacity rows.new }
    ensures len { vec_len rows.new ≤ vec_len rows.old + 1 }
    ensures known { is_none (find K.cmp key rows.old.items) ≡ false
        → vec_len rows.new ≤ vec_len rows.old }
    ensures outlook { IsOutlook outlook.new rows.new.items }
{
    match place(rows.as_slice(), &key) {
        Ok(at) => {
            let row = rows[at].declared(content);
            replace_row(rows, outlook, at, Some(row));
            Ok(())
        }
        Err(at) => {
            let row = Row::fresh(key, content).declared(content);
            fill_row(rows, outlook, at, row)
        }
    }
}

/// Withdraws a key; one without a row stays so.
pub(crate) fn withdraw_in<K: Copy + Ord, C: Copy>(
    rows: &mut Vec<Row<K, C>>,
    outlook: &mut Outlook,
    key: K,
)
    requires ascend { Ascends K.cmp key_of rows.old.items }
    requires outlook { IsOutlook outlook.old rows.old.items }
    ensures rows { rows.new.items
        ≡ put K.cmp key (after_withdraw (find K.cmp key rows.old.items)) rows.old.items }
    ensures capacity { vec_capacity rows.new ≡ vec_capacity rows.old }
    ensures len { vec_len rows.new ≤ vec_len rows.old }
    ensures outlook { IsOutlook outlook.new rows.new.items }
{
    if let Ok(at) = place(rows.as_slice(), &key) {
        let row = rows[at].withdrawn();
        replace_row(rows, outlook, at, Some(row));
    }
}

/// Ends a key's leave timer; whether its Registrar was LV.
pub(crate) fn leave_in<K: Copy + Ord, C: Copy>(
    rows: &mut Vec<Row<K, C>>,
    outlook: &mut Outlook,
    key: K,
) -> bool
    requires ascend { Ascends K.cmp key_of rows.old.items }
    requires outlook { IsOutlook outlook.old rows.old.items }
    ensures was { result ≡ is_leaving_in (find K.cmp key rows.old.items) }
    ensures rows { rows.new.items
        ≡ put K.cmp key (after_leave (find K.cmp key rows.old.items)) rows.old.items }
    ensures capacity { vec_capacity rows.new ≡ vec_capacity rows.old }
    ensures len { vec_len rows.new ≤ vec_len rows.old }
    ensures outlook { IsOutlook outlook.new rows.new.items }
{
    match place(rows.as_slice(), &key) {
        Ok(at) => {
            let row = rows[at];
            replace_row(rows, outlook, at, row.left());
            row.registrar == Registrar::Leaving
        }
        Err(_) => false,
    }
}
