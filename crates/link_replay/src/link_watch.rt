//! A link, of one application, from its PDUs.

ghost use Rattle.std.specs.Prelude.{◌≡◌, ◌<◌, ◌+◌, ◌^◌, ◌-◌, ◌++◌, [], min, map, filter, flat_map, length, slice_get, option_map, if◌then◌else◌, IfOk, OnOk, string_bytes};
ghost use Rattle.attribute_propagation.specs.Dirty.{all_marked};
ghost use Rattle.mrp_participant.specs.Lookup.{find};
ghost use Rattle.mrp_participant.specs.Row.{registered_in};
ghost use Rattle.mrp_participant.specs.State.{IsTime};
ghost use Rattle.link_replay.specs.Moments.{cs_cmp};
ghost use Rattle.link_replay.specs.BothWays.{way_of, ways_ends_up_to, ways_let_go, ways_passing_text, saying_text, is_word_broken};
ghost use Rattle.link_replay.specs.LinkWatch.{unseen_link, link_passing, link_judged, doubted, link_saying, all_arriving, link_arriving, is_kept_broken, link_broken, kept_text, judging_text, all_arriving_text, arriving_text};

use crate::app::WatchedApp;
use crate::both_ways::BothWays;
use crate::lines::End;
use attribute_propagation::Dirty;
use mrp_participant::Msgs;
use srp_base::{Cs, MrpEvent, NoMemory};
use std::alloc::Global;
use std::marker::Model;
use std::mem::replace;

/// A link, of one application, from its PDUs: what each end declares, as it stands at the other;
/// what is on its way; and the words on registrars that disagreed when they were said. Contracts see
/// a `LinkState`. After want of memory the text may have a part of what is said, and the link may
/// have taken a part of what was seen.
#[derive(Drop)]
pub struct LinkWatch<A: WatchedApp> {
    ways: BothWays<A>,
    on_way: Vec<(End, Msgs<A>)>,
    kept: Vec<(End, (MrpEvent, A::Key, A::Content))>,
    alloc: Global,
}

impl<A: WatchedApp> Model for LinkWatch<A> {
    ghost use Rattle.std.specs.Prelude.{map};
    ghost use Rattle.link_replay.specs.LinkWatch.{LinkState};

    ghost Value = { LinkState A.Key A.Content };

    ghost view = { λ l. record {
      ways = l.ways;
      on_way = map (λ x. (x.0, record { leave_all = x.1.leave_all; events = x.1.events })) l.on_way.items;
      kept = l.kept.items;
    } };
}

impl<A: WatchedApp> LinkWatch<A> {
    /// A link of which nothing was seen yet; leave timers last `leave_time`, 1 to 10,000 cs.
    pub fn new(alloc: Global, leave_time: Cs) -> LinkWatch<A>
        requires { IsTime leave_time }
        ensures { result ≡ unseen_link leave_time }
    {
        LinkWatch {
            ways: BothWays::new(alloc, leave_time),
            on_way: Vec::new(alloc),
            kept: Vec::new(alloc),
            alloc,
        }
    }

    /// The content that stands of a key which an end declares, at the other end; None exactly where
    /// its Registrar is MT there.
    pub fn registered(&self, speaker: End, key: A::Key) -> Option<A::Content>
        ensures { result
            ≡ registered_in (find A.Key.cmp key (way_of speaker self.now.ways).observer.rows) }
    {
        self.ways.way(speaker).registered(key)
    }

    /// The number of keys which an end declares and whose Registrar isn't MT at the other.
    pub fn rows(&self, speaker: End) -> usize
        ensures { result ≡ length (way_of speaker self.now.ways).observer.rows }
    {
        self.ways.way(speaker).rows()
    }

    /// The key at a place among these, counted from 0 and ascending; None exactly where the index
    /// isn't below their number.
    pub fn key_at(&self, speaker: End, index: usize) -> Option<A::Key>
        ensures { result ≡ option_map (λ r. r.key)
            (slice_get (way_of speaker self.now.ways).observer.rows index) }
    {
        self.ways.way(speaker).key_at(index)
    }

    /// Puts the moments up to this one at which leave timers end into a set. It has every such
    /// moment of a timer that runs (law `each_timer_ends_at_a_known_moment`), and may have others, of
    /// timers that were stopped.
    pub fn mark_ends(&self, at: Cs, moments: &mut Dirty<Cs>) -> Result<(), NoMemory>
        ensures { OnOk result (moments.new.keys
            ≡ all_marked cs_cmp (ways_ends_up_to at self.now.ways) moments.old.keys) }
    {
        self.ways.mark_ends(at, moments)
    }

    /// Fires the leave timers that are due at a moment, in cs and below 2^62. Says which attributes
    /// stand no more, and which of them were let go. Answers how many were.
    pub fn passes(&mut self, out: &mut String, at: Cs) -> Result<u64, NoMemory>
        requires { at.0 < 2 ^ 62 }
        ensures link { OnOk result (self.new ≡ link_passing at self.old) }
        ensures text { OnOk result (string_bytes out.new ≡ string_bytes out.old
            ++ ways_passing_text A.Key.cmp A.key_text at self.old.ways) }
        ensures count { IfOk result (λ n. n
            ≡ min (ways_let_go A.Key.cmp at self.old.ways) (2 ^ 64 - 1)) }
    {
        self.ways.passes(out, at)
    }

    /// Takes what an end sends at a moment, in cs and below 2^62: a LeaveAll acts at once at that
    /// end, the words on registrars that disagree with its observer are kept, and all of it is on its
    /// way. Says what is owed.
    pub fn says(
        &mut self,
        out: &mut String,
        at: Cs,
        who: End,
        msgs: Msgs<A>,
    ) -> Result<(), NoMemory>
        requires { at.0 < 2 ^ 62 }
        ensures link { OnOk result (self.new ≡ link_saying A.Key.cmp at who
            (record { leave_all = msgs.leave_all; events = msgs.events }) self.old) }
        ensures text { OnOk result (string_bytes out.new ≡ string_bytes out.old
            ++ saying_text A.key_text at who
            (record { leave_all = msgs.leave_all; events = msgs.events }) self.old.ways) }
    {
        self.ways.says(out, at, who, &msgs)?;
        keep_doubted(&mut self.kept, &self.ways, who, msgs.events.as_slice())?;
        self.on_way.push((who, msgs))?;
        Ok(())
    }

    /// Takes that all that is on its way is with the other end at a moment, in cs and below 2^62.
    /// Says what changes, and what is owed.
    pub fn arrives(&mut self, out: &mut String, at: Cs) -> Result<(), NoMemory>
        requires { at.0 < 2 ^ 62 }
        ensures link { OnOk result (self.new ≡ link_arriving A.Key.cmp at self.old) }
        ensures text { OnOk result (string_bytes out.new ≡ string_bytes out.old
            ++ arriving_text A.Key.cmp A.Content.eq A.key_text A.content_text at self.old) }
    {
        let on_way = replace(&mut self.on_way, Vec::new(self.alloc));
        all_arrive(&mut self.ways, out, at, on_way.as_slice())
    }

    /// Judges the words that disagreed when they were said, at a moment, by what the observers hold
    /// now: one that agrees is no fault, since what the other end had said was there before it was
    /// said. Says which are broken, and answers how many.
    pub fn judges(&mut self, out: &mut String, at: Cs) -> Result<u64, NoMemory>
        ensures link { OnOk result (self.new ≡ link_judged self.old) }
        ensures text { OnOk result (string_bytes out.new
            ≡ string_bytes out.old ++ judging_text A.Key.cmp A.key_text at self.old) }
        ensures count { IfOk result (λ n. n ≡ link_broken A.Key.cmp self.old) }
    {
        let kept = replace(&mut self.kept, Vec::new(self.alloc));
        judge_all(&self.ways, out, at, kept.as_slice())
    }
}

// Puts the events of an end that disagree with its observer at the end of a list.
fn keep_doubted<A: WatchedApp>(
    kept: &mut Vec<(End, (MrpEvent, A::Key, A::Content))>,
    ways: &BothWays<A>,
    who: End,
    events: &[(MrpEvent, A::Key, A::Content)],
) -> Result<(), NoMemory>
    ensures { OnOk result (kept.new.items
        ≡ kept.old.items ++ doubted A.Key.cmp ways.now who events.now) }
{
    for event in events {
        if !ways.is_broken(who, *event) {
            continue;
        }
        kept.push((who, *event))?;
    }
    Ok(())
}

// Takes that some lists of messages are with the other ends, in order.
fn all_arrive<A: WatchedApp>(
    ways: &mut BothWays<A>,
    out: &mut String,
    at: Cs,
    on_way: &[(End, Msgs<A>)],
) -> Result<(), NoMemory>
    requires { at.0 < 2 ^ 62 }
    ensures ways { OnOk result (ways.new ≡ all_arriving A.Key.cmp at ways.old
        (map (λ x. (x.0, record { leave_all = x.1.leave_all; events = x.1.events })) on_way.now)) }
    ensures text { OnOk result (string_bytes out.new ≡ string_bytes out.old
        ++ all_arriving_text A.Key.cmp A.Content.eq A.key_text A.content_text at ways.old
        (map (λ x. (x.0, record { leave_all = x.1.leave_all; events = x.1.events })) on_way.now)) }
{
    for said in on_way {
        ways.arrives(out, at, said.0, &said.1)?;
    }
    Ok(())
}

// Judges words that were said at a moment. Answers how many are broken.
fn judge_all<A: WatchedApp>(
    ways: &BothWays<A>,
    out: &mut String,
    at: Cs,
    kept: &[(End, (MrpEvent, A::Key, A::Content))],
) -> Result<u64, NoMemory>
    ensures text { OnOk result (string_bytes out.new ≡ string_bytes out.old
        ++ flat_map (kept_text A.Key.cmp A.key_text at ways.now) kept.now) }
    ensures count { IfOk result (λ n. n
        ≡ length (filter (is_kept_broken A.Key.cmp ways.now) kept.now)) }
{
    let mut count: u64 = 0;
    for word in kept {
        count += judge_one(ways, out, at, word)?;
    }
    Ok(count)
}

// Judges a word that was said at a moment. Answers 1 where it is broken, else 0.
#[tactic(auto, unfolding(crate::specs::LinkWatch::kept_text, crate::specs::LinkWatch::is_kept_broken))]
fn judge_one<A: WatchedApp>(
    ways: &BothWays<A>,
    out: &mut String,
    at: Cs,
    word: &(End, (MrpEvent, A::Key, A::Content)),
) -> Result<u64, NoMemory>
    ensures text { OnOk result (string_bytes out.new
        ≡ string_bytes out.old ++ kept_text A.Key.cmp A.key_text at ways.now word.now) }
    ensures count { IfOk result (λ n. n
        ≡ (if is_kept_broken A.Key.cmp ways.now word.now then 1 else 0)) }
{
    ways.judge(out, at, word.0, word.1)
}
