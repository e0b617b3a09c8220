//! What was seen of a link, frame by frame.

ghost use Rattle.std.specs.Prelude.{◌≡◌, ◌<◌, ◌≤◌, ◌+◌, ◌^◌, ◌++◌, length, IfOk, OnOk, string_bytes};
ghost use Rattle.std.specs.List.{AllByRecursion};
ghost use Rattle.capture_file.specs.Packets.{packet_in, packets_in};
ghost use Rattle.mrp_frames.specs.Frames.{seen_in, frame_in};
ghost use Rattle.mrp_participant.specs.State.{IsTime};
ghost use Rattle.replay_words.specs.Bookings.{followed_text};
ghost use Rattle.replay_words.specs.Seen.{new_seen, moment_after, next_cs, arrived, seen_arriving, arrived_text, seen_passing, passed_text, all_passing, all_passed_text, seen_later, later_text, seen_at, at_text, after_said, said_text, said_broken, seen_said, seen_from, from_text, seen_frame, frame_text, after_packet, packet_text, after_packets, packets_text};
ghost use Rattle.replay_words.specs.Watched.{watched_arriving, watched_arriving_text, watched_passing_text};

use crate::counts::Counts;
use crate::ends::Ends;
use crate::followed::write_followed;
use crate::lines::{write_cut_pdu, write_other};
use crate::watched::Watches;
use capture_file::Record;
use link_replay::End;
use mrp_frames::{MrpFrame, frame_of};
use srp_base::{Cs, NoMemory};
use std::alloc::Global;
use std::marker::Model;
use stream_importance::Caps;

/// What was seen of a link. Contracts see a `LinkSeen`. Each call puts what it has to say at the end
/// of a text. After want of memory the text may have a part of it, and a part of the frame may be
/// taken.
#[derive(Drop)]
pub(crate) struct Link {
    at: Cs,
    watches: Watches,
    counts: Counts,
}

impl Model for Link {
    ghost use Rattle.std.specs.Prelude.{◌<◌, ◌^◌};
    ghost use Rattle.replay_words.specs.Seen.{LinkSeen};

    ghost Value = { LinkSeen };

    ghost view = { λ l. record { at = l.at; watched = l.watches; counts = l.counts } };

    ghost invariant = { λ l. l.at.0 < 2 ^ 61 };
}

// The moment of a frame, in cs: that of the capture, rounded down, or the one before it where that
// is later.
#[tactic(auto, unfolding(crate::specs::Seen::moment_after))]
fn moment_after(before: Cs, record: &Record<'_>) -> Cs
    requires { before.0 < 2 ^ 61 }
    ensures moment { result ≡ moment_after before (packet_in record.now) }
    ensures small { result.0 < 2 ^ 61 }
{
    let at = record.at_ns / 10_000_000;
    if at < before.0 { before } else { Cs(at) }
}

impl Link {
    /// Nothing was seen yet; leave timers last `leave_time`, 1 to 10,000 cs.
    pub(crate) fn new(alloc: Global, leave_time: Cs) -> Link
        requires { IsTime leave_time }
        ensures { result ≡ new_seen leave_time }
    {
        Link {
            at: Cs(0),
            watches: Watches::new(alloc, leave_time),
            counts: Counts::none(),
        }
    }

    /// What was counted.
    pub(crate) fn counts(&self) -> Counts
        ensures { result ≡ self.now.counts }
    {
        self.counts
    }

    /// Takes captured frames, in order, where the ports at both ends have these caps.
    pub(crate) fn takes(
        &mut self,
        out: &mut String,
        caps: &Caps,
        ends: &Ends,
        records: &[Record<'_>],
    ) -> Result<(), NoMemory>
        requires { AllByRecursion (λ r. length r.octets.now < 2 ^ 32) records.now }
        ensures seen { OnOk result (self.new
            ≡ after_packets ends.now self.old (packets_in records.now)) }
        ensures text { OnOk result (string_bytes out.new ≡ string_bytes out.old
            ++ packets_text caps.now ends.now self.old (packets_in records.now)) }
    {
        for record in records {
            self.take(out, caps, ends, record)?;
        }
        Ok(())
    }

    // Takes a captured frame, and the time up to it.
    #[tactic(auto, unfolding(crate::specs::Seen::after_packet, crate::specs::Seen::packet_text))]
    fn take(
        &mut self,
        out: &mut String,
        caps: &Caps,
        ends: &Ends,
        record: &Record<'_>,
    ) -> Result<(), NoMemory>
        requires { length record.now.octets.now < 2 ^ 32 }
        ensures seen { OnOk result (self.new
            ≡ after_packet ends.now self.old (packet_in record.now)) }
        ensures text { OnOk result (string_bytes out.new ≡ string_bytes out.old
            ++ packet_text caps.now ends.now self.old (packet_in record.now)) }
    {
        let at = moment_after(self.at, record);
        self.reach(out, caps, at)?;
        self.take_frame(out, ends, at, record)
    }

    // Lets time go on to a moment that may be later.
    #[tactic(auto, unfolding(crate::specs::Seen::seen_at, crate::specs::Seen::at_text))]
    fn reach(&mut self, out: &mut String, caps: &Caps, at: Cs) -> Result<(), NoMemory>
        requires { at.0 < 2 ^ 61 }
        ensures seen { OnOk result (self.new ≡ seen_at at self.old) }
        ensures text { OnOk result (string_bytes out.new
            ≡ string_bytes out.old ++ at_text caps.now at self.old) }
    {
        if at.0 <= self.at.0 {
            return Ok(());
        }
        self.go_on(out, caps, at)
    }

    // Lets time go on to a later moment: what was said arrives, and then the leave timers fire that
    // end by then, each at its own moment.
    #[tactic(auto, unfolding(crate::specs::Seen::seen_later, crate::specs::Seen::later_text))]
    fn go_on(&mut self, out: &mut String, caps: &Caps, at: Cs) -> Result<(), NoMemory>
        requires { at.0 < 2 ^ 61 }
        ensures seen { OnOk result (self.new ≡ seen_later at self.old) }
        ensures text { OnOk result (string_bytes out.new
            ≡ string_bytes out.old ++ later_text caps.now at self.old) }
    {
        self.settle(out, caps)?;
        let moments = self.watches.ends(at)?;
        self.pass_all(out, caps, at, moments.as_slice())?;
        self.at = at;
        Ok(())
    }

    /// Takes that all that is on its way is with the other end at the next moment, and judges the
    /// words that disagreed when they were said. Says what followed.
    #[tactic(auto, unfolding(crate::specs::Seen::seen_arriving, crate::specs::Seen::arrived_text))]
    pub(crate) fn settle(&mut self, out: &mut String, caps: &Caps) -> Result<(), NoMemory>
        ensures seen { OnOk result (self.new ≡ seen_arriving self.old) }
        ensures text { OnOk result (string_bytes out.new
            ≡ string_bytes out.old ++ arrived_text caps.now self.old) }
    {
        let next = Cs(self.at.0 + 1);
        arrive(&mut self.watches, out, caps, next)?;
        let broken = self.watches.judges(out, self.at)?;
        self.counts = self.counts.with_broken(broken);
        Ok(())
    }

    // Fires the leave timers that end at some moments, none of which is after one.
    fn pass_all(
        &mut self,
        out: &mut String,
        caps: &Caps,
        at: Cs,
        moments: &[Cs],
    ) -> Result<(), NoMemory>
        requires at { at.0 < 2 ^ 61 }
        requires up_to { AllByRecursion (λ u. u.0 ≤ at.0) moments.now }
        ensures seen { OnOk result (self.new ≡ all_passing self.old moments.now) }
        ensures text { OnOk result (string_bytes out.new
            ≡ string_bytes out.old ++ all_passed_text caps.now self.old moments.now) }
    {
        for moment in moments {
            self.pass(out, caps, *moment)?;
        }
        Ok(())
    }

    // Fires the leave timers that end at a moment, and says what followed.
    #[tactic(auto, unfolding(crate::specs::Seen::seen_passing, crate::specs::Seen::passed_text))]
    fn pass(&mut self, out: &mut String, caps: &Caps, at: Cs) -> Result<(), NoMemory>
        requires { at.0 < 2 ^ 61 }
        ensures seen { OnOk result (self.new ≡ seen_passing self.old at) }
        ensures text { OnOk result (string_bytes out.new
            ≡ string_bytes out.old ++ passed_text caps.now self.old at) }
    {
        let before = self.watches.bookings()?;
        let let_go = self.watches.passes(out, at)?;
        let after = self.watches.bookings()?;
        write_followed(out, at, caps, &before, &after)?;
        self.at = at;
        self.counts = self.counts.with_owed(let_go);
        Ok(())
    }

    // Takes a captured frame at a moment.
    #[tactic(auto, unfolding(crate::specs::Seen::seen_frame, crate::specs::Seen::frame_text))]
    fn take_frame(
        &mut self,
        out: &mut String,
        ends: &Ends,
        at: Cs,
        record: &Record<'_>,
    ) -> Result<(), NoMemory>
        requires few { length record.now.octets.now < 2 ^ 32 }
        requires at { at.0 < 2 ^ 61 }
        ensures seen { OnOk result (self.new ≡ seen_frame ends.now at (packet_in record.now)
            (frame_in (packet_in record.now)) self.old) }
        ensures text { OnOk result (string_bytes out.new ≡ string_bytes out.old
            ++ frame_text ends.now at (packet_in record.now)
            (frame_in (packet_in record.now)) self.old.watched) }
    {
        match frame_of(record) {
            None => {
                self.counts = self.counts.with_other();
                Ok(())
            }
            Some(frame) => self.take_from(out, at, record, &frame, ends.at(frame.address)),
        }
    }

    // Takes a frame of MRP of an end, or of another.
    #[tactic(auto, unfolding(crate::specs::Seen::seen_from, crate::specs::Seen::from_text))]
    fn take_from(
        &mut self,
        out: &mut String,
        at: Cs,
        record: &Record<'_>,
        frame: &MrpFrame<'_>,
        who: Option<End>,
    ) -> Result<(), NoMemory>
        requires few { length frame.now.pdu.now < 2 ^ 32 }
        requires at { at.0 < 2 ^ 61 }
        ensures seen { OnOk result (self.new
            ≡ seen_from at (packet_in record.now) (seen_in frame.now) who self.old) }
        ensures text { OnOk result (string_bytes out.new ≡ string_bytes out.old
            ++ from_text at (packet_in record.now) (seen_in frame.now) who self.old.watched) }
    {
        match who {
            None => {
                write_other(out, at, frame.address)?;
                self.counts = self.counts.with_other();
                Ok(())
            }
            Some(who) => self.take_said(out, at, who, record, frame),
        }
    }

    // Takes a frame of MRP of an end.
    #[tactic(auto, unfolding(crate::specs::Seen::seen_said))]
    fn take_said(
        &mut self,
        out: &mut String,
        at: Cs,
        who: End,
        record: &Record<'_>,
        frame: &MrpFrame<'_>,
    ) -> Result<(), NoMemory>
        requires few { length frame.now.pdu.now < 2 ^ 32 }
        requires at { at.0 < 2 ^ 61 }
        ensures seen { OnOk result (self.new
            ≡ seen_said at who (packet_in record.now) (seen_in frame.now) self.old) }
        ensures text { OnOk result (string_bytes out.new ≡ string_bytes out.old
            ++ said_text at who (packet_in record.now) (seen_in frame.now) self.old.watched) }
    {
        let broken = say(&mut self.watches, out, at, who, record, frame)?;
        self.counts = self.counts.with_frame(broken);
        Ok(())
    }
}

// Takes that all that is on its way is with the other end at a moment. Says what followed.
fn arrive(watches: &mut Watches, out: &mut String, caps: &Caps, at: Cs) -> Result<(), NoMemory>
    requires { at.0 < 2 ^ 62 }
    ensures watched { OnOk result (watches.new ≡ watched_arriving at watches.old) }
    ensures text { OnOk result (string_bytes out.new ≡ string_bytes out.old
        ++ (watched_arriving_text at watches.old
        ++ followed_text at caps.now watches.old.streams.ways
        (watched_arriving at watches.old).streams.ways)) }
{
    let before = watches.bookings()?;
    watches.arrives(out, at)?;
    let after = watches.bookings()?;
    Ok(write_followed(out, at, caps, &before, &after)?)
}

// Takes the PDU of a frame of an end, unless the capture has cut it. Answers how much of it is
// broken in itself.
#[tactic(auto, unfolding(crate::specs::Seen::after_said, crate::specs::Seen::said_text, crate::specs::Seen::said_broken))]
fn say(
    watches: &mut Watches,
    out: &mut String,
    at: Cs,
    who: End,
    record: &Record<'_>,
    frame: &MrpFrame<'_>,
) -> Result<u64, NoMemory>
    requires few { length frame.now.pdu.now < 2 ^ 32 }
    requires at { at.0 < 2 ^ 61 }
    ensures watched { OnOk result (watches.new
        ≡ after_said at who (packet_in record.now) (seen_in frame.now) watches.old) }
    ensures text { OnOk result (string_bytes out.new ≡ string_bytes out.old
        ++ said_text at who (packet_in record.now) (seen_in frame.now) watches.old) }
    ensures count { IfOk result (λ n. n ≡ said_broken (packet_in record.now) (seen_in frame.now)) }
{
    let got = record.octets.len();
    let whole = record.whole;
    if got < whole as usize {
        write_cut_pdu(out, at, who, frame.app, got, whole)?;
        return Ok(0);
    }
    watches.says(out, at, who, frame.app, frame.pdu)
}
