//! One way over a link: what one end declares, and how it stands at the other.

ghost use Rattle.std.specs.Prelude.{◌≡◌, ◌<◌, ◌^◌, ◌++◌, [], true, false, flat_map, fold, length, filter, slice_get, option_map, IfOk, OnOk, IsTrue, string_bytes, not, if◌then◌else◌};
ghost use Rattle.std.specs.Option.{option_map_or};
ghost use Rattle.std.specs.declared.cmp.Ordering.TheVariants.{Less};
ghost use Rattle.mrp_participant.specs.Lookup.{Ascends, find};
ghost use Rattle.mrp_participant.specs.Row.{registered_in};
ghost use Rattle.mrp_participant.specs.State.{IsTime, received_state};
ghost use Rattle.attribute_propagation.specs.Dirty.{is_awaiting, all_marked};
ghost use Rattle.link_replay.specs.Moments.{cs_cmp, is_up_to, later_than as later_than_spec};
ghost use Rattle.link_replay.specs.Way.{IsOneOfEach, new_way, stands_as, withdrawn_by, ends_by, ends_up_to, gone_text, passing_text, let_go_count, passing_way, owed_text, leaving_of, leaving_text, leave_all_text, leave_all_way, joining_text, withdrawing_text, heard_text, until_of, hearing_way, all_heard_text, all_hearing_way, is_held, is_broken, word_text};

use crate::app::WatchedApp;
use crate::lines::{
    End, write_gone, write_leaves, write_let_go, write_owes, write_stands, write_word,
};
use crate::observer::Observer;
use attribute_propagation::Dirty;
use mrp_participant::Msgs;
use mrp_participant::laws::{each_key_after_receive, rows_stay_rows};
use registrar::Registrar;
use srp_base::{Cs, MrpEvent, NoMemory, Seq};
use std::alloc::Global;
use std::cmp::Ordering;
use std::marker::Model;

/// One way over a link: the observer of the end that hears what the other, the speaker, declares.
/// Contracts see a `WayState`. Each call puts what it has to say at the end of a text. After want
/// of memory the text may have a part of it, and the way may have taken a part of what was seen.
#[derive(Drop)]
pub struct Way<A: WatchedApp> {
    speaker: End,
    observer: Observer<A>,
    leave_time: Cs,
    ends: Dirty<Cs>,
    withdrawn: Dirty<A::Key>,
    known: bool,
    alloc: Global,
}

impl<A: WatchedApp> Model for Way<A> {
    ghost use Rattle.mrp_participant.specs.State.{IsTime};
    ghost use Rattle.link_replay.specs.Way.{WayState};

    ghost Value = { WayState A.Key A.Content };

    ghost view = { λ w. record {
      speaker = w.speaker;
      observer = w.observer;
      leave_time = w.leave_time;
      ends = w.ends.keys;
      withdrawn = w.withdrawn.keys;
      known = w.known;
    } };

    ghost invariant = { λ w. IsTime w.leave_time };
}

impl<A: WatchedApp> Way<A> {
    /// A way of which nothing was seen yet; leave timers last `leave_time`, 1 to 10,000 cs.
    pub fn new(alloc: Global, speaker: End, leave_time: Cs) -> Way<A>
        requires { IsTime leave_time }
        ensures { result ≡ new_way speaker leave_time }
    {
        Way {
            speaker,
            observer: Observer::new(alloc, leave_time),
            leave_time,
            ends: Dirty::new(alloc),
            withdrawn: Dirty::new(alloc),
            known: false,
            alloc,
        }
    }

    /// The content that stands of a key at the other end; None exactly where its Registrar is MT.
    pub fn registered(&self, key: A::Key) -> Option<A::Content>
        ensures { result ≡ registered_in (find A.Key.cmp key self.now.observer.rows) }
    {
        self.observer.registered(key)
    }

    /// The number of keys whose Registrar isn't MT.
    pub fn rows(&self) -> usize
        ensures { result ≡ length self.now.observer.rows }
    {
        self.observer.rows()
    }

    /// The key at a place among these, counted from 0 and ascending; None exactly where the index
    /// isn't below their number.
    pub fn key_at(&self, index: usize) -> Option<A::Key>
        ensures { result ≡ option_map (λ r. r.key) (slice_get self.now.observer.rows index) }
    {
        self.observer.key_at(index)
    }

    /// Puts the moments up to this one at which leave timers end into a set. It has every such
    /// moment of a timer that runs, and may have others of timers that were stopped.
    pub(crate) fn mark_ends(&self, at: Cs, moments: &mut Dirty<Cs>) -> Result<(), NoMemory>
        ensures { OnOk result (moments.new.keys
            ≡ all_marked cs_cmp (ends_up_to at self.now) moments.old.keys) }
    {
        mark_up_to(moments, self.ends.as_slice(), at)
    }

    /// Fires the leave timers that are due at a moment, in cs and below 2^62. Says which attributes
    /// stand no more, and which of them the speaker let go. Answers how many it let go.
    pub fn passes(&mut self, out: &mut String, at: Cs) -> Result<u64, NoMemory>
        requires { at.0 < 2 ^ 62 }
        ensures way { OnOk result (self.new ≡ passing_way at self.old) }
        ensures text { OnOk result (string_bytes out.new
            ≡ string_bytes out.old ++ passing_text A.Key.cmp A.key_text at self.old) }
        ensures count { IfOk result (λ n. n ≡ let_go_count A.Key.cmp at self.old) }
    {
        let keys = self.observer.passes(at)?;
        self.ends = later_than(self.alloc, self.ends.as_slice(), at)?;
        self.write_all_gone(out, at, keys.as_slice())
    }

    // Says that some attributes stand no more. Answers how many of them the speaker let go.
    fn write_all_gone(&self, out: &mut String, at: Cs, keys: &[A::Key]) -> Result<u64, NoMemory>
        ensures text { OnOk result (string_bytes out.new
            ≡ string_bytes out.old
            ++ flat_map (gone_text A.Key.cmp A.key_text at self.now) keys.now) }
        ensures count { IfOk result (λ n. n
            ≡ length (filter (λ k. not (is_awaiting A.Key.cmp k self.now.withdrawn)) keys.now)) }
    {
        let mut count: u64 = 0;
        for key in keys {
            count += self.write_one_gone(out, at, *key)?;
        }
        Ok(count)
    }

    // Says that an attribute stands no more. Answers 1 where the speaker let it go, else 0.
    fn write_one_gone(&self, out: &mut String, at: Cs, key: A::Key) -> Result<u64, NoMemory>
        ensures text { OnOk result (string_bytes out.new
            ≡ string_bytes out.old ++ gone_text A.Key.cmp A.key_text at self.now key) }
        ensures count { IfOk result (λ n. n
            ≡ (if not (is_awaiting A.Key.cmp key self.now.withdrawn) then 1 else 0)) }
    {
        write_gone::<A>(out, at, self.speaker, key)?;
        if self.withdrawn.awaits(key) {
            return Ok(0);
        }
        write_let_go::<A>(out, at, self.speaker, key)?;
        Ok(1)
    }

    /// Takes a LeaveAll of either end at a moment, in cs and below 2^62. Says which attributes the
    /// speaker has to say anew, and until when.
    pub fn leave_all(&mut self, out: &mut String, at: Cs) -> Result<(), NoMemory>
        requires { at.0 < 2 ^ 62 }
        ensures way { OnOk result (self.new ≡ leave_all_way A.Key.cmp at self.old) }
        ensures text { OnOk result (string_bytes out.new
            ≡ string_bytes out.old ++ leave_all_text A.key_text at self.old) }
    {
        self.write_all_leaving(out, at)?;
        self.observer.goes(at)?;
        self.ends.mark(Cs(at.0 + self.leave_time.0))?;
        self.known = true;
        Ok(())
    }

    // Says which attributes the speaker has to say anew.
    fn write_all_leaving(&self, out: &mut String, at: Cs) -> Result<(), NoMemory>
        requires { at.0 < 2 ^ 62 }
        ensures { OnOk result (string_bytes out.new
            ≡ string_bytes out.old ++ leave_all_text A.key_text at self.now) }
    {
        for i in 0..self.observer.rows() {
            self.write_leaving(out, at, i)?;
        }
        Ok(())
    }

    // The same of the row at a place.
    #[tactic(auto, using(crate::proofs::RowLines::by_parts))]
    fn write_leaving(&self, out: &mut String, at: Cs, i: usize) -> Result<(), NoMemory>
        requires { at.0 < 2 ^ 62 }
        ensures { OnOk result (string_bytes out.new ≡ string_bytes out.old
            ++ option_map_or (leaving_text A.key_text at self.now)
            (slice_get self.now.observer.rows i) []) }
    {
        match self.observer.row_at(i) {
            Some((key, registrar)) => self.write_left(out, at, key, registrar),
            None => Ok(()),
        }
    }

    // The same of a key with its Registrar.
    fn write_left(
        &self,
        out: &mut String,
        at: Cs,
        key: A::Key,
        registrar: Registrar,
    ) -> Result<(), NoMemory>
        requires { at.0 < 2 ^ 62 }
        ensures { OnOk result (string_bytes out.new
            ≡ string_bytes out.old ++ leaving_of A.key_text at self.now key registrar) }
    {
        match registrar {
            Registrar::Held => self.write_owed(out, at, key),
            Registrar::Leaving | Registrar::Empty => Ok(()),
        }
    }

    // Says that a key has to be said anew.
    fn write_owed(&self, out: &mut String, at: Cs, key: A::Key) -> Result<(), NoMemory>
        requires { at.0 < 2 ^ 62 }
        ensures { OnOk result (string_bytes out.new
            ≡ string_bytes out.old ++ owed_text A.key_text at self.now key) }
    {
        let until = Cs(at.0 + self.leave_time.0);
        write_leaves::<A>(out, at, self.speaker, key, until)?;
        Ok(write_owes::<A>(out, at, self.speaker, key, until)?)
    }

    /// Takes the events of what the speaker sent at a moment, in cs and below 2^62, in order, where
    /// `leave_all` was told of its LeaveAll. Says what changes.
    pub fn hears(
        &mut self,
        out: &mut String,
        at: Cs,
        events: &[(MrpEvent, A::Key, A::Content)],
    ) -> Result<(), NoMemory>
        requires { at.0 < 2 ^ 62 }
        ensures way { OnOk result (self.new ≡ all_hearing_way A.Key.cmp at self.old events.now) }
        ensures text { OnOk result (string_bytes out.new ≡ string_bytes out.old
            ++ all_heard_text A.Key.cmp A.Content.eq A.key_text A.content_text at self.old
            events.now) }
    {
        if is_one_of_each(self.alloc, events)? {
            self.hear_at_once(out, at, events)
        } else {
            self.hear_in_turn(out, at, events)
        }
    }

    // Takes events of the speaker of which each key has at most one. The observer takes them in one
    // list, so that its rows move once.
    fn hear_at_once(
        &mut self,
        out: &mut String,
        at: Cs,
        events: &[(MrpEvent, A::Key, A::Content)],
    ) -> Result<(), NoMemory>
        requires time { at.0 < 2 ^ 62 }
        requires keys { IsOneOfEach A.Key.cmp events.now }
        ensures way { OnOk result (self.new ≡ all_hearing_way A.Key.cmp at self.old events.now) }
        ensures text { OnOk result (string_bytes out.new ≡ string_bytes out.old
            ++ all_heard_text A.Key.cmp A.Content.eq A.key_text A.content_text at self.old
            events.now) }
    {
        let until = Cs(at.0 + self.leave_time.0);
        self.hears_alike(at, until, events);
        self.write_each_heard(out, at, events)?;
        let heard = Vec::from_slice(self.alloc, events)?;
        self.observe(at, heard)?;
        self.keep_all(events, until)
    }

    // Of events of which each key has at most one the same is said as of each by itself, and the
    // observer may take them in one list. It is a law, and does nothing.
    fn hears_alike(&self, at: Cs, until: Cs, events: &[(MrpEvent, A::Key, A::Content)])
        requires until { until ≡ until_of at self.now }
        requires keys { IsOneOfEach A.Key.cmp events.now }
        ensures way { all_hearing_way A.Key.cmp at self.now events.now ≡ record self.now {
          observer = received_state A.Key.cmp at false events.now self.now.observer;
          ends = fold (λ ends e. ends_by e.0 until ends) self.now.ends events.now;
          withdrawn = fold (λ keys e. withdrawn_by A.Key.cmp e.0 e.1 keys) self.now.withdrawn
              events.now;
        } }
        ensures text { all_heard_text A.Key.cmp A.Content.eq A.key_text A.content_text at self.now
            events.now
            ≡ flat_map (λ e. heard_text A.Key.cmp A.Content.eq A.key_text A.content_text at
            self.now e.0 e.1 e.2) events.now }
    {
        self.observer.keeps();
        each_key_after_receive::<A>();
        rows_stay_rows::<A>();
    }

    // Says of each of some events what it changes by itself.
    fn write_each_heard(
        &self,
        out: &mut String,
        at: Cs,
        events: &[(MrpEvent, A::Key, A::Content)],
    ) -> Result<(), NoMemory>
        requires { at.0 < 2 ^ 62 }
        ensures { OnOk result (string_bytes out.new ≡ string_bytes out.old
            ++ flat_map (λ e. heard_text A.Key.cmp A.Content.eq A.key_text A.content_text at
            self.now e.0 e.1 e.2) events.now) }
    {
        for event in events {
            self.write_heard(out, at, *event)?;
        }
        Ok(())
    }

    // Gives events of the speaker to the observer, in one list.
    fn observe(
        &mut self,
        at: Cs,
        events: Vec<(MrpEvent, A::Key, A::Content)>,
    ) -> Result<(), NoMemory>
        requires { at.0 < 2 ^ 62 }
        ensures { OnOk result (self.new ≡ record self.old {
          observer = received_state A.Key.cmp at false events.items self.old.observer;
        }) }
    {
        let msgs = Msgs {
            leave_all: false,
            events: Seq::from_vec(events),
        };
        self.observer.comes(at, &msgs)?;
        Ok(())
    }

    // Keeps which leave timers events start, to end at a moment, and which keys they withdraw.
    fn keep_all(
        &mut self,
        events: &[(MrpEvent, A::Key, A::Content)],
        until: Cs,
    ) -> Result<(), NoMemory>
        ensures { OnOk result (self.new ≡ record self.old {
          ends = fold (λ ends e. ends_by e.0 until ends) self.old.ends events.now;
          withdrawn = fold (λ keys e. withdrawn_by A.Key.cmp e.0 e.1 keys) self.old.withdrawn
              events.now;
        }) }
    {
        for event in events {
            self.mark_end(event.0, until)?;
            self.withdraw(*event)?;
        }
        Ok(())
    }

    // Takes events of the speaker one by one, whatever their order.
    fn hear_in_turn(
        &mut self,
        out: &mut String,
        at: Cs,
        events: &[(MrpEvent, A::Key, A::Content)],
    ) -> Result<(), NoMemory>
        requires { at.0 < 2 ^ 62 }
        ensures way { OnOk result (self.new ≡ all_hearing_way A.Key.cmp at self.old events.now) }
        ensures text { OnOk result (string_bytes out.new ≡ string_bytes out.old
            ++ all_heard_text A.Key.cmp A.Content.eq A.key_text A.content_text at self.old
            events.now) }
    {
        for event in events {
            self.hear(out, at, *event)?;
        }
        Ok(())
    }

    // Takes an event of the speaker.
    fn hear(
        &mut self,
        out: &mut String,
        at: Cs,
        event: (MrpEvent, A::Key, A::Content),
    ) -> Result<(), NoMemory>
        requires { at.0 < 2 ^ 62 }
        ensures way { OnOk result (self.new ≡ hearing_way A.Key.cmp at self.old event) }
        ensures text { OnOk result (string_bytes out.new ≡ string_bytes out.old
            ++ heard_text A.Key.cmp A.Content.eq A.key_text A.content_text at self.old
            event.0 event.1 event.2) }
    {
        self.write_heard(out, at, event)?;
        let mut events = Vec::new(self.alloc);
        events.push(event)?;
        self.observe(at, events)?;
        self.mark_end(event.0, Cs(at.0 + self.leave_time.0))?;
        self.withdraw(event)
    }

    // Keeps that a leave timer ends at a moment, where an event starts one.
    fn mark_end(&mut self, event: MrpEvent, until: Cs) -> Result<(), NoMemory>
        ensures { OnOk result (self.new ≡ record self.old {
          ends = ends_by event until self.old.ends;
        }) }
    {
        match event {
            MrpEvent::New | MrpEvent::JoinIn | MrpEvent::JoinMt => Ok(()),
            MrpEvent::OnlyIn | MrpEvent::OnlyMt => Ok(()),
            MrpEvent::Lv => self.ends.mark(until),
        }
    }

    // Keeps of which keys Lv was said last.
    fn withdraw(&mut self, event: (MrpEvent, A::Key, A::Content)) -> Result<(), NoMemory>
        ensures { OnOk result (self.new ≡ record self.old {
          withdrawn = withdrawn_by A.Key.cmp event.0 event.1 self.old.withdrawn;
        }) }
    {
        match event.0 {
            MrpEvent::New | MrpEvent::JoinIn | MrpEvent::JoinMt => {
                self.withdrawn.clear(event.1);
                Ok(())
            }
            MrpEvent::OnlyIn | MrpEvent::OnlyMt => Ok(()),
            MrpEvent::Lv => self.withdrawn.mark(event.1),
        }
    }

    // Says what an event changes.
    fn write_heard(
        &self,
        out: &mut String,
        at: Cs,
        event: (MrpEvent, A::Key, A::Content),
    ) -> Result<(), NoMemory>
        requires { at.0 < 2 ^ 62 }
        ensures { OnOk result (string_bytes out.new ≡ string_bytes out.old
            ++ heard_text A.Key.cmp A.Content.eq A.key_text A.content_text at self.now
            event.0 event.1 event.2) }
    {
        match event.0 {
            MrpEvent::New | MrpEvent::JoinIn | MrpEvent::JoinMt => {
                self.write_joining(out, at, event.1, event.2)
            }
            MrpEvent::OnlyIn | MrpEvent::OnlyMt => Ok(()),
            MrpEvent::Lv => self.write_withdrawing(out, at, event.1),
        }
    }

    // Says that a key stands with a content, where it didn't.
    fn write_joining(
        &self,
        out: &mut String,
        at: Cs,
        key: A::Key,
        content: A::Content,
    ) -> Result<(), NoMemory>
        ensures { OnOk result (string_bytes out.new ≡ string_bytes out.old
            ++ joining_text A.Key.cmp A.Content.eq A.key_text A.content_text at self.now
            key content) }
    {
        if self.stands_as(key, content) {
            return Ok(());
        }
        Ok(write_stands::<A>(out, at, self.speaker, key, content)?)
    }

    // Whether a key stands with a content.
    fn stands_as(&self, key: A::Key, content: A::Content) -> bool
        ensures { result
            ≡ stands_as A.Content.eq content (find A.Key.cmp key self.now.observer.rows) }
    {
        self.is_held(key) && self.observer.registered(key) == Some(content)
    }

    // Whether a key stands.
    fn is_held(&self, key: A::Key) -> bool
        ensures { result ≡ is_held A.Key.cmp self.now key }
    {
        self.observer.registrar(key) == Registrar::Held
    }

    // Says that a key that stands is withdrawn.
    fn write_withdrawing(&self, out: &mut String, at: Cs, key: A::Key) -> Result<(), NoMemory>
        requires { at.0 < 2 ^ 62 }
        ensures { OnOk result (string_bytes out.new
            ≡ string_bytes out.old ++ withdrawing_text A.Key.cmp A.key_text at self.now key) }
    {
        if !self.is_held(key) {
            return Ok(());
        }
        let until = Cs(at.0 + self.leave_time.0);
        Ok(write_leaves::<A>(out, at, self.speaker, key, until)?)
    }

    /// Judges an event that the other end said at a moment, by what it says of its registrar of an
    /// attribute of the speaker. Says that it is broken, where it is; answers 1 then, else 0.
    pub(crate) fn judge(
        &self,
        out: &mut String,
        at: Cs,
        event: (MrpEvent, A::Key, A::Content),
    ) -> Result<u64, NoMemory>
        ensures text { OnOk result (string_bytes out.new
            ≡ string_bytes out.old ++ word_text A.Key.cmp A.key_text at self.now event) }
        ensures count { IfOk result (λ n. n
            ≡ (if is_broken A.Key.cmp self.now event then 1 else 0)) }
    {
        if !self.is_broken(event) {
            return Ok(0);
        }
        let held = self.is_held(event.1);
        write_word::<A>(out, at, self.speaker.other(), event.0, event.1, held)?;
        Ok(1)
    }

    /// Whether an event that the other end says isn't what the observer holds.
    pub(crate) fn is_broken(&self, event: (MrpEvent, A::Key, A::Content)) -> bool
        ensures { result ≡ is_broken A.Key.cmp self.now event }
    {
        let held = self.is_held(event.1);
        !self.observer.agrees(event.0, event.1) && (self.known || held)
    }
}

// Puts those of some moments that aren't after one into a set.
fn mark_up_to(set: &mut Dirty<Cs>, moments: &[Cs], at: Cs) -> Result<(), NoMemory>
    ensures { OnOk result (set.new.keys
        ≡ all_marked cs_cmp (filter (is_up_to at) moments.now) set.old.keys) }
{
    for moment in moments {
        if moment.0 > at.0 {
            continue;
        }
        set.mark(*moment)?;
    }
    Ok(())
}

// Those of some moments that are after one.
fn later_than(alloc: Global, moments: &[Cs], at: Cs) -> Result<Dirty<Cs>, NoMemory>
    ensures { IfOk result (λ set. set.keys ≡ later_than_spec at moments.now) }
{
    let mut set = Dirty::new(alloc);
    for moment in moments {
        if moment.0 <= at.0 {
            continue;
        }
        set.mark(*moment)?;
    }
    Ok(set)
}

// Whether each key has at most one of some events, in whatever order they come. That it says so
// wherever it is so is for the sake of speed alone, and no clause asks it.
fn is_one_of_each<K: Copy + Ord, C: Copy>(
    alloc: Global,
    events: &[(MrpEvent, K, C)],
) -> Result<bool, NoMemory>
    ensures { IfOk result (λ is. is ≡ true → IsOneOfEach K.cmp events.now) }
{
    let mut sorted = Vec::from_slice(alloc, events)?;
    sorted.sort_by_key(|event| event.1)?;
    Ok(keys_ascend(sorted.as_slice()))
}

// Whether the keys of events ascend strictly.
fn keys_ascend<K: Copy + Ord, C: Copy>(events: &[(MrpEvent, K, C)]) -> bool
    ensures { IsTrue result → Ascends K.cmp (λ e. e.1) events.now }
{
    for i in 1..events.len() {
        if !is_below(&events[i - 1], &events[i]) {
            return false;
        }
    }
    true
}

// Whether the key of an event is below another's.
fn is_below<K: Copy + Ord, C: Copy>(one: &(MrpEvent, K, C), next: &(MrpEvent, K, C)) -> bool
    ensures { IsTrue result → K.cmp one.now.1 next.now.1 ≡ Less }
{
    match one.1.cmp(&next.1) {
        Ordering::Less => true,
        Ordering::Equal | Ordering::Greater => false,
    }
}
