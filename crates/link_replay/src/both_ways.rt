//! Both ways over a link, of one application.

ghost use Rattle.std.specs.Prelude.{◌≡◌, ◌<◌, ◌^◌, ◌-◌, ◌++◌, min, if◌then◌else◌, IfOk, OnOk, string_bytes};
ghost use Rattle.attribute_propagation.specs.Dirty.{all_marked};
ghost use Rattle.mrp_participant.specs.State.{IsTime};
ghost use Rattle.link_replay.specs.Lines.{other_end};
ghost use Rattle.link_replay.specs.Moments.{cs_cmp};
ghost use Rattle.link_replay.specs.BothWays.{new_ways, way_of, ways_ends_up_to, ways_passing_text, ways_let_go, ways_passing, begun_text, begun_way, said_text, said_way, saying_text, ways_saying, ways_arriving, is_word_broken};
ghost use Rattle.link_replay.specs.Way.{word_text};

use crate::app::WatchedApp;
use crate::lines::End;
use crate::way::Way;
use attribute_propagation::Dirty;
use mrp_participant::Msgs;
use srp_base::{Cs, MrpEvent, NoMemory};
use std::alloc::Global;
use std::marker::Model;

/// Both ways over a link, of one application: what each end declares, as it stands at the other.
/// Contracts see `Ways`. After want of memory the text may have a part of what is said, and the ways
/// may have taken a part of what was seen.
#[derive(Drop)]
pub(crate) struct BothWays<A: WatchedApp> {
    from_a: Way<A>,
    from_b: Way<A>,
}

impl<A: WatchedApp> Model for BothWays<A> {
    ghost use Rattle.link_replay.specs.BothWays.{Ways};

    ghost Value = { Ways A.Key A.Content };

    ghost view = { λ l. record { from_a = l.from_a; from_b = l.from_b } };
}

impl<A: WatchedApp> BothWays<A> {
    /// Ways of which nothing was seen yet; leave timers last `leave_time`, 1 to 10,000 cs.
    pub(crate) fn new(alloc: Global, leave_time: Cs) -> BothWays<A>
        requires { IsTime leave_time }
        ensures { result ≡ new_ways leave_time }
    {
        BothWays {
            from_a: Way::new(alloc, End::A, leave_time),
            from_b: Way::new(alloc, End::B, leave_time),
        }
    }

    /// The way from an end.
    pub(crate) fn way(&self, speaker: End) -> &Way<A>
        ensures { result.now ≡ way_of speaker self.now }
    {
        match speaker {
            End::A => &self.from_a,
            End::B => &self.from_b,
        }
    }

    /// Puts the moments up to this one at which leave timers end into a set.
    pub(crate) fn mark_ends(&self, at: Cs, moments: &mut Dirty<Cs>) -> Result<(), NoMemory>
        ensures { OnOk result (moments.new.keys
            ≡ all_marked cs_cmp (ways_ends_up_to at self.now) moments.old.keys) }
    {
        self.from_a.mark_ends(at, moments)?;
        self.from_b.mark_ends(at, moments)
    }

    /// Fires the leave timers that are due at a moment, in cs and below 2^62. Says which attributes
    /// stand no more, and which of them were let go. Answers how many were.
    pub(crate) fn passes(&mut self, out: &mut String, at: Cs) -> Result<u64, NoMemory>
        requires { at.0 < 2 ^ 62 }
        ensures ways { OnOk result (self.new ≡ ways_passing at self.old) }
        ensures text { OnOk result (string_bytes out.new
            ≡ string_bytes out.old ++ ways_passing_text A.Key.cmp A.key_text at self.old) }
        ensures count { IfOk result (λ n. n
            ≡ min (ways_let_go A.Key.cmp at self.old) (2 ^ 64 - 1)) }
    {
        let from_a = self.from_a.passes(out, at)?;
        let from_b = self.from_b.passes(out, at)?;
        Ok(from_a.saturating_add(from_b))
    }

    /// Takes that an end sends at a moment, in cs and below 2^62: a LeaveAll acts on what the other
    /// declares. Says what is owed.
    pub(crate) fn says(
        &mut self,
        out: &mut String,
        at: Cs,
        who: End,
        msgs: &Msgs<A>,
    ) -> Result<(), NoMemory>
        requires { at.0 < 2 ^ 62 }
        ensures ways { OnOk result (self.new ≡ ways_saying A.Key.cmp at who
            (record { leave_all = msgs.now.leave_all; events = msgs.now.events }) self.old) }
        ensures text { OnOk result (string_bytes out.new ≡ string_bytes out.old
            ++ saying_text A.key_text at who
            (record { leave_all = msgs.now.leave_all; events = msgs.now.events }) self.old) }
    {
        match who {
            End::A => begin(&mut self.from_b, out, at, msgs.leave_all),
            End::B => begin(&mut self.from_a, out, at, msgs.leave_all),
        }
    }

    /// Takes that what an end sent is with the other at a moment, in cs and below 2^62. Says what
    /// changes, and what is owed.
    pub(crate) fn arrives(
        &mut self,
        out: &mut String,
        at: Cs,
        who: End,
        msgs: &Msgs<A>,
    ) -> Result<(), NoMemory>
        requires { at.0 < 2 ^ 62 }
        ensures ways { OnOk result (self.new ≡ ways_arriving A.Key.cmp at who
            (record { leave_all = msgs.now.leave_all; events = msgs.now.events }) self.old) }
        ensures text { OnOk result (string_bytes out.new ≡ string_bytes out.old
            ++ said_text A.Key.cmp A.Content.eq A.key_text A.content_text at
            (record { leave_all = msgs.now.leave_all; events = msgs.now.events })
            (way_of who self.old)) }
    {
        match who {
            End::A => hear(&mut self.from_a, out, at, msgs),
            End::B => hear(&mut self.from_b, out, at, msgs),
        }
    }

    /// Whether an event that an end says isn't what its observer holds.
    pub(crate) fn is_broken(&self, who: End, event: (MrpEvent, A::Key, A::Content)) -> bool
        ensures { result ≡ is_word_broken A.Key.cmp self.now who event }
    {
        self.way(who.other()).is_broken(event)
    }

    /// Judges an event that an end said at a moment. Says that it is broken, where it is; answers 1
    /// then, else 0.
    pub(crate) fn judge(
        &self,
        out: &mut String,
        at: Cs,
        who: End,
        event: (MrpEvent, A::Key, A::Content),
    ) -> Result<u64, NoMemory>
        ensures text { OnOk result (string_bytes out.new ≡ string_bytes out.old
            ++ word_text A.Key.cmp A.key_text at (way_of (other_end who) self.now) event) }
        ensures count { IfOk result (λ n. n
            ≡ (if is_word_broken A.Key.cmp self.now who event then 1 else 0)) }
    {
        self.way(who.other()).judge(out, at, event)
    }
}

// Takes a LeaveAll, where there is one.
fn begin<A: WatchedApp>(
    way: &mut Way<A>,
    out: &mut String,
    at: Cs,
    leave_all: bool,
) -> Result<(), NoMemory>
    requires { at.0 < 2 ^ 62 }
    ensures way { OnOk result (way.new ≡ begun_way A.Key.cmp at leave_all way.old) }
    ensures text { OnOk result (string_bytes out.new
        ≡ string_bytes out.old ++ begun_text A.key_text at leave_all way.old) }
{
    if !leave_all {
        return Ok(());
    }
    way.leave_all(out, at)
}

// Takes what an end declares on its way.
fn hear<A: WatchedApp>(
    way: &mut Way<A>,
    out: &mut String,
    at: Cs,
    msgs: &Msgs<A>,
) -> Result<(), NoMemory>
    requires { at.0 < 2 ^ 62 }
    ensures way { OnOk result (way.new ≡ said_way A.Key.cmp at
        (record { leave_all = msgs.now.leave_all; events = msgs.now.events }) way.old) }
    ensures text { OnOk result (string_bytes out.new ≡ string_bytes out.old
        ++ said_text A.Key.cmp A.Content.eq A.key_text A.content_text at
        (record { leave_all = msgs.now.leave_all; events = msgs.now.events }) way.old) }
{
    begin(way, out, at, msgs.leave_all)?;
    way.hears(out, at, msgs.events.as_slice())
}
