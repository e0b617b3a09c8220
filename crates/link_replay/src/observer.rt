//! An observer of one end of a link.

ghost use Rattle.std.specs.Prelude.{◌≡◌, ◌<◌, ◌^◌, if◌then◌else◌, length, slice_get, option_map, IfOk, OnOk, OnErr};
ghost use Rattle.mrp_participant.specs.Lookup.{find};
ghost use Rattle.mrp_participant.specs.Row.{registrar_of, registered_in};
ghost use Rattle.mrp_participant.specs.State.{IsTime, AreRows, changed_keys, left_keys};
ghost use Rattle.link_replay.specs.Standing.{standing, is_standing, agrees};
ghost use Rattle.link_replay.specs.Observer.{new_observer, own_leave_all_state, seen_state};
ghost use Rattle.link_replay.specs.Observer.Sight.{Comes, Passes};

use mrp_participant::{MrpApp, Msgs, Participant};
use registrar::Registrar;
use srp_base::{Cs, MrpEvent, NoMemory, Seq};
use std::alloc::Global;
use std::marker::Model;

/// An observer of one end of a link: a participant that declares nothing. Contracts see the
/// participant's `State`.
#[derive(Drop)]
pub struct Observer<A: MrpApp> {
    participant: Participant<A>,
    alloc: Global,
}

impl<A: MrpApp> Model for Observer<A> {
    ghost use Rattle.mrp_participant.specs.State.{State};

    ghost Value = { State A.Key A.Content };

    ghost view = { λ o. o.participant.state };
}

impl<A: MrpApp> Observer<A> {
    /// An observer that has seen nothing, of an end whose leave timers last `leave_time`, 1 to
    /// 10,000 cs. It takes no memory.
    pub fn new(alloc: Global, leave_time: Cs) -> Observer<A>
        requires { IsTime leave_time }
        ensures { result ≡ new_observer leave_time }
    {
        Observer {
            participant: Participant::new(alloc, Cs(10_000), leave_time, false),
            alloc,
        }
    }

    /// What every observer keeps: its rows ascend strictly by key, and each keeps something. It is
    /// a law, and does nothing.
    pub fn keeps(&self)
        ensures { AreRows A.Key.cmp self.now.rows }
    {
        self.participant.rows_ascend();
    }

    /// Takes what the other end sent at the moment `now`, in cs and below 2^62: LeaveAll first,
    /// then the events in order (IEEE Std 802.1Q-2018, 10.7.5). Answers, ascending, the keys whose
    /// registration or registered content differs from before. After want of memory the observer
    /// is as it was.
    pub fn comes(&mut self, now: Cs, msgs: &Msgs<A>) -> Result<Seq<A::Key>, NoMemory>
        requires { now.0 < 2 ^ 62 }

        ensures after { OnOk result (self.new
            ≡ seen_state A.Key.cmp self.old
            (Comes now (record { leave_all = msgs.now.leave_all; events = msgs.now.events }))) }
        ensures keys { IfOk result (λ keys. keys
            ≡ changed_keys A.Key.cmp A.Content.eq self.old.rows self.new.rows) }
        ensures err { OnErr result (self.new ≡ self.old) }
    {
        self.participant.receive(now, msgs)
    }

    /// Takes that its own end sent a LeaveAll at the moment `now`, in cs and below 2^62: it takes
    /// each Registrar out of IN (IEEE Std 802.1Q-2018, 10.7.8). After want of memory the observer
    /// is as it was.
    pub fn goes(&mut self, now: Cs) -> Result<(), NoMemory>
        requires { now.0 < 2 ^ 62 }
        ensures after { OnOk result (self.new ≡ own_leave_all_state A.Key.cmp now self.old) }
        ensures err { OnErr result (self.new ≡ self.old) }
    {
        let leave_all = Msgs {
            leave_all: true,
            events: Seq::from_vec(Vec::new(self.alloc)),
        };
        self.participant.receive(now, &leave_all)?;
        Ok(())
    }

    /// Fires the leave timers that are due at the moment `now`, in cs and below 2^62. Answers the
    /// keys that are let go, ascending. After want of memory, which comes only where some leave
    /// timer is due, the observer is as it was.
    pub fn passes(&mut self, now: Cs) -> Result<Seq<A::Key>, NoMemory>
        requires { now.0 < 2 ^ 62 }
        ensures after { OnOk result (self.new ≡ seen_state A.Key.cmp self.old (Passes now)) }
        ensures keys { IfOk result (λ keys. keys ≡ left_keys now self.old) }
        ensures err { OnErr result (self.new ≡ self.old) }
    {
        let (_, keys) = self.participant.due(now)?;
        Ok(keys)
    }

    /// The state of a key's Registrar; MT where nothing is kept of the key.
    pub fn registrar(&self, key: A::Key) -> Registrar
        ensures { result ≡ registrar_of (find A.Key.cmp key self.now.rows) }
    {
        self.participant.registrar(key)
    }

    /// The content that stands of a key; None exactly where its Registrar is MT.
    pub fn registered(&self, key: A::Key) -> Option<A::Content>
        ensures { result ≡ registered_in (find A.Key.cmp key self.now.rows) }
    {
        self.participant.registered(key)
    }

    /// The number of rows: of keys whose Registrar isn't MT.
    pub fn rows(&self) -> usize
        ensures { result ≡ length self.now.rows }
    {
        self.participant.rows()
    }

    /// The key of the row at a place, counted from 0 and ascending; None exactly where the index
    /// isn't below the number of rows.
    pub fn key_at(&self, index: usize) -> Option<A::Key>
        ensures { result ≡ option_map (λ r. r.key) (slice_get self.now.rows index) }
    {
        self.participant.key_at(index)
    }

    /// The key of the row at a place, counted from 0 and ascending, with the state of its
    /// Registrar; None exactly where the index isn't below the number of rows.
    #[tactic(auto, using(crate::proofs::RowLines::pair_at, crate::proofs::RowLines::no_key_at, crate::proofs::RowLines::no_registrar_at))]
    pub fn row_at(&self, index: usize) -> Option<(A::Key, Registrar)>
        ensures { result ≡ option_map (λ r. (r.key, r.registrar)) (slice_get self.now.rows index) }
    {
        let key = self.participant.key_at(index)?;
        let registrar = self.participant.registrar_at(index)?;
        Some((key, registrar))
    }

    /// Whether what its own end says of an attribute agrees with what the observer holds: JoinIn
    /// and In say that the attribute's Registrar is IN, JoinMt and Mt that it isn't.
    pub fn agrees(&self, event: MrpEvent, key: A::Key) -> bool
        ensures { result
            ≡ agrees event (is_standing (standing (find A.Key.cmp key self.now.rows))) }
    {
        let held = self.participant.registrar(key) == Registrar::Held;
        match event {
            MrpEvent::New | MrpEvent::Lv => true,
            MrpEvent::JoinIn | MrpEvent::OnlyIn => held,
            MrpEvent::JoinMt | MrpEvent::OnlyMt => !held,
        }
    }
}
