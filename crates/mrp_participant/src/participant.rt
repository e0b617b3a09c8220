//! The participant as contracts see it, and what it shows.

ghost use Rattle.std.specs.Prelude.{◌≡◌, ◌≤◌, length, map, slice_get, option_map, is_some, true, false, IfOk, IfSome, IsOk, OnOk};
ghost use Rattle.mrp_participant.specs.Lookup.{Ascends, find, key_of};
ghost use Rattle.mrp_participant.specs.Row.{applicant_of, registrar_of, registered_in, declared_in};
ghost use Rattle.mrp_participant.specs.State.{IsTime, AreRows, new_state, is_still};

use crate::application::MrpApp;
use crate::lookup::find_row;
use crate::outlook::{Outlook, are_settled};
use crate::row::Row;
use applicant::Applicant;
use leaveall::{LeaveAll, Periodic};
use registrar::Registrar;
use srp_base::{Cs, NoMemory};
use std::alloc::Global;
use std::marker::Model;

/// The participant of one application at one port (IEEE Std 802.1Q-2018, 10.7): a row for each key
/// of which anything is kept, the LeaveAll machine, the timers, and the mark of soundness.
/// Contracts see a `Holding`: the `State`, which is the rows as a list ascending by key, and the
/// rest; the spare, the number of new rows for which there is room; and whether the participant is
/// ready, so that `due` takes no memory.
#[derive(Drop)]
pub struct Participant<A: MrpApp> {
    pub(crate) rows: Vec<Row<A::Key, A::Content>>,
    // What is known of all rows.
    pub(crate) outlook: Outlook,
    pub(crate) leave_all: LeaveAll,
    pub(crate) next_leave_all: Cs,
    pub(crate) period: Cs,
    pub(crate) leave_time: Cs,
    pub(crate) periodic: Periodic,
    pub(crate) sound: bool,
    // Empty between calls: the keys that leave go here, so that its room can be taken before the
    // timers fire.
    pub(crate) left: Vec<A::Key>,
    // Whether `left` has room for the keys of all rows.
    pub(crate) ready: bool,
}

impl<A: MrpApp> Model for Participant<A> {
    ghost use Rattle.std.specs.Prelude.{◌≡◌, ◌≤◌, ◌-◌, [], true, length, vec_capacity, vec_len};
    ghost use Rattle.mrp_participant.specs.Outlook.{IsOutlook};
    ghost use Rattle.mrp_participant.specs.State.{Holding, AreRows, IsTime};

    ghost Value = { Holding A.Key A.Content };

    ghost view = { λ p. record {
      state = record {
        rows = p.rows.items;
        leave_all = p.leave_all;
        next_leave_all = p.next_leave_all;
        period = p.period;
        leave_time = p.leave_time;
        periodic = p.periodic;
        sound = p.sound;
      };
      spare = vec_capacity p.rows - vec_len p.rows;
      ready = p.ready;
    } };

    ghost invariant = { λ p. AreRows A.Key.cmp p.rows.items
        × IsTime p.period
        × IsTime p.leave_time
        × IsOutlook p.outlook p.rows.items
        × (p.left.items ≡ [])
        × (p.ready ≡ true → length p.rows.items ≤ vec_capacity p.left) };
}

impl<A: MrpApp> Participant<A> {
    /// A participant without rows, LeaveAll Passive and sound. The first LeaveAll is due at
    /// `period`, and then each `period` after the last; a leave timer lasts `leave_time`. Both are
    /// 1 to 10,000 cs. `periodic` is whether periodic transmission is on. It takes no memory.
    pub fn new(alloc: Global, period: Cs, leave_time: Cs, periodic: bool) -> Participant<A>
        requires is_period { IsTime period }
        requires is_leave_time { IsTime leave_time }
        ensures state { result.state ≡ new_state period leave_time periodic }
        ensures spare { result.spare ≡ 0 }
        ensures ready { result.ready ≡ false }
    {
        Participant {
            rows: Vec::new(alloc),
            outlook: Outlook::empty(),
            leave_all: LeaveAll::Passive,
            next_leave_all: period,
            period,
            leave_time,
            periodic: Periodic {
                on: periodic,
                next: Cs(100),
            },
            sound: true,
            left: Vec::new(alloc),
            ready: false,
        }
    }

    /// What every participant keeps: its rows ascend strictly by key, each keeps something, and its
    /// times are 1 to 10,000 cs. It is a law, and does nothing.
    pub fn rows_ascend(&self)
        ensures rows { AreRows A.Key.cmp self.now.state.rows }
        ensures period { IsTime self.now.state.period }
        ensures leave_time { IsTime self.now.state.leave_time }
    {
        let _ = &self.rows;
    }

    /// Makes room for rows: afterwards the spare is at least `rows`, and all else is as before.
    /// `declare` of a key without a row uses one of the spare, and takes no memory where the spare
    /// is at least 1. After want of memory the participant is as it was.
    pub fn room(&mut self, rows: usize) -> Result<(), NoMemory>
        ensures state { self.new.state ≡ self.old.state }
        ensures ok { OnOk result (rows ≤ self.new.spare) }
        ensures spare { self.old.spare ≤ self.new.spare }
        ensures ready { self.new.ready ≡ self.old.ready }
    {
        self.rows.reserve(rows)?;
        Ok(())
    }

    /// Makes the participant ready: `due` takes no memory then. All else is as before. Each call
    /// that changes the participant ends its readiness. After want of memory, which comes only
    /// where it isn't ready, the participant is as it was.
    pub fn due_room(&mut self) -> Result<(), NoMemory>
        ensures state { self.new.state ≡ self.old.state }
        ensures ready { OnOk result (self.new.ready ≡ true) }
        ensures again { self.old.ready ≡ true → IsOk result }
        ensures spare { self.old.spare ≤ self.new.spare }
    {
        self.left.reserve(self.rows.len())?;
        self.ready = true;
        Ok(())
    }

    /// Whether there is a row of a key: its Applicant isn't VO, or its Registrar isn't MT.
    pub fn has_row(&self, key: A::Key) -> bool
        ensures { result ≡ is_some (find A.Key.cmp key self.now.state.rows) }
    {
        find_row(self.rows.as_slice(), &key).is_some()
    }

    /// The content that is registered of a key; None exactly where its Registrar is MT.
    pub fn registered(&self, key: A::Key) -> Option<A::Content>
        ensures { result ≡ registered_in (find A.Key.cmp key self.now.state.rows) }
    {
        match find_row(self.rows.as_slice(), &key) {
            Some(row) => row.registered(),
            None => None,
        }
    }

    /// The content that is declared of a key; None exactly where its Applicant is VO or LA.
    pub fn declared(&self, key: A::Key) -> Option<A::Content>
        ensures { result ≡ declared_in (find A.Key.cmp key self.now.state.rows) }
    {
        match find_row(self.rows.as_slice(), &key) {
            Some(row) => row.declares(),
            None => None,
        }
    }

    /// The state of a key's Registrar; MT where nothing is kept of the key.
    pub fn registrar(&self, key: A::Key) -> Registrar
        ensures { result ≡ registrar_of (find A.Key.cmp key self.now.state.rows) }
    {
        match find_row(self.rows.as_slice(), &key) {
            Some(row) => row.registrar,
            None => Registrar::Empty,
        }
    }

    /// The state of a key's Applicant; VO where nothing is kept of the key.
    pub fn applicant(&self, key: A::Key) -> Applicant
        ensures { result ≡ applicant_of (find A.Key.cmp key self.now.state.rows) }
    {
        match find_row(self.rows.as_slice(), &key) {
            Some(row) => row.applicant,
            None => Applicant::Vo,
        }
    }

    /// Whether the participant is sound: it was never spoilt, or has sent a LeaveAll since.
    pub fn sound(&self) -> bool
        ensures { result ≡ self.now.state.sound }
    {
        self.sound
    }

    /// The state of the LeaveAll machine: where it is Active, the next list of messages that is
    /// sent has LeaveAll.
    pub fn leave_all(&self) -> LeaveAll
        ensures { result ≡ self.now.state.leave_all }
    {
        self.leave_all
    }

    /// Ends soundness, as after a loss on the port's link. It ends readiness.
    pub fn spoil(&mut self)
        ensures after { self.new.state ≡ record self.old.state { sound = false } }
        ensures spare { self.new.spare ≡ self.old.spare }
        ensures ready { self.new.ready ≡ false }
    {
        self.sound = false;
        self.ready = false;
    }

    /// Whether nothing is pending: every Applicant is VO or QA, every Registrar IN or MT, and
    /// LeaveAll is Passive.
    pub fn still(&self) -> bool
        ensures { result ≡ is_still self.now.state }
    {
        self.leave_all == LeaveAll::Passive && are_settled(self.rows.as_slice(), self.outlook)
    }

    /// The number of rows: of keys whose Applicant isn't VO or whose Registrar isn't MT.
    pub fn rows(&self) -> usize
        ensures { result ≡ length self.now.state.rows }
    {
        self.rows.len()
    }

    /// The key of the row at a place, counted from 0 and ascending; None exactly where the index
    /// isn't below the number of rows.
    pub fn key_at(&self, index: usize) -> Option<A::Key>
        ensures { result ≡ slice_get (map key_of self.now.state.rows) index }
    {
        row_key(self.rows.as_slice(), index)
    }

    /// The key of the row at a place, counted as for `key_at`, with the content that is registered
    /// of it, which is None where its Registrar is MT, without a search for the key; None exactly
    /// where the index isn't below the number of rows.
    pub fn registration_at(&self, index: usize) -> Option<(A::Key, Option<A::Content>)>
        ensures key { option_map (λ r. r.0) result ≡ slice_get (map key_of self.now.state.rows) index }
        ensures content { IfSome result (λ r. r.1
            ≡ registered_in (find A.Key.cmp r.0 self.now.state.rows)) }
    {
        row_registration(self.rows.as_slice(), index)
    }

    /// The state of the Registrar of the row at a place, counted as for `key_at`, without a search
    /// for its key; None exactly where the index isn't below the number of rows.
    pub fn registrar_at(&self, index: usize) -> Option<Registrar>
        ensures { result ≡ slice_get (map (λ r. r.registrar) self.now.state.rows) index }
    {
        row_registrar(self.rows.as_slice(), index)
    }
}

// The key of the row at a place.
fn row_key<K: Copy, C: Copy>(rows: &[Row<K, C>], index: usize) -> Option<K>
    ensures { result ≡ slice_get (map key_of rows.now) index }
{
    let row = rows.get(index)?;
    Some(row.key)
}

// The key of the row at a place, with the content that is registered of it.
fn row_registration<K: Copy + Ord, C: Copy>(
    rows: &[Row<K, C>],
    index: usize,
) -> Option<(K, Option<C>)>
    requires { Ascends K.cmp key_of rows.now }
    ensures key { option_map (λ r. r.0) result ≡ slice_get (map key_of rows.now) index }
    ensures content { IfSome result (λ r. r.1 ≡ registered_in (find K.cmp r.0 rows.now)) }
{
    let row = rows.get(index)?;
    Some((row.key, row.registered()))
}

// The state of the Registrar of the row at a place.
fn row_registrar<K: Copy, C: Copy>(rows: &[Row<K, C>], index: usize) -> Option<Registrar>
    ensures { result ≡ slice_get (map (λ r. r.registrar) rows.now) index }
{
    let row = rows.get(index)?;
    Some(row.registrar)
}
