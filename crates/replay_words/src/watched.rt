//! A link of all three applications of MRP.

ghost use Rattle.std.specs.Prelude.{◌≡◌, ◌<◌, ◌≤◌, ◌+◌, ◌-◌, ◌^◌, ◌++◌, min, length, IfOk, OnOk, string_bytes};
ghost use Rattle.std.specs.Ordering.{nat_cmp};
ghost use Rattle.std.specs.List.{AllByRecursion};
ghost use Rattle.flat_side.specs.Part.{same_content as same_nothing};
ghost use Rattle.link_replay.specs.BothWays.{ways_passing_text, ways_let_go};
ghost use Rattle.link_replay.specs.LinkWatch.{link_passing, link_arriving, arriving_text, link_judged, judging_text, link_broken};
ghost use Rattle.mrp_participant.specs.State.{IsTime};
ghost use Rattle.msrp.specs.Part.{key_cmp, same_content};
ghost use Rattle.pdu_words.specs.Events.{key_text, content_text};
ghost use Rattle.replay_words.specs.Apps.{group_text, no_text};
ghost use Rattle.mmrp_codec.specs.Meaning.{mmrp_reading};
ghost use Rattle.msrp_codec.specs.Meaning.{msrp_reading};
ghost use Rattle.mvrp_codec.specs.Meaning.{mvrp_reading};
ghost use Rattle.replay_words.specs.Bookings.{bookings_of as bookings_of_spec};
ghost use Rattle.replay_words.specs.Watched.{new_watched, watched_ends, watched_passing, watched_passing_text, watched_let_go, watched_arriving, watched_arriving_text, watched_judged, watched_judging_text, watched_broken, after_vlans, vlans_text, vlans_broken, after_streams, streams_text, streams_broken, after_groups, groups_text, groups_broken, after_octets, octets_text, octets_broken};

use crate::apps::{Groups, Streams, Vlans, messages};
use crate::booking::{Booked, bookings_of};
use crate::doubles::write_doubles;
use crate::lines::write_broken_pdu;
use crate::replaced::without_replaced;
use attribute_propagation::Dirty;
use link_replay::{End, LinkWatch};
use mmrp_codec::GroupPdu;
use mrp_participant::Msgs;
use mrpdu_codec::{AppForm, DecodeErr};
use msrp_codec::MsrpPdu;
use mvrp_codec::MvrpPdu;
use srp_base::{Cs, NoMemory};
use std::alloc::Global;
use std::marker::Model;

/// A link of each application. Contracts see a `Watched`. Each call puts what it has to say at the
/// end of a text. After want of memory the text may have a part of it, and the link may have taken a
/// part of what was seen.
#[derive(Drop)]
pub(crate) struct Watches {
    vlans: LinkWatch<Vlans>,
    streams: LinkWatch<Streams>,
    groups: LinkWatch<Groups>,
    alloc: Global,
}

impl Model for Watches {
    ghost use Rattle.replay_words.specs.Watched.{Watched};

    ghost Value = { Watched };

    ghost view = { λ w. record { vlans = w.vlans; streams = w.streams; groups = w.groups } };
}

impl Watches {
    /// A link of which nothing was seen yet; leave timers last `leave_time`, 1 to 10,000 cs.
    pub(crate) fn new(alloc: Global, leave_time: Cs) -> Watches
        requires { IsTime leave_time }
        ensures { result ≡ new_watched leave_time }
    {
        Watches {
            vlans: LinkWatch::new(alloc, leave_time),
            streams: LinkWatch::new(alloc, leave_time),
            groups: LinkWatch::new(alloc, leave_time),
            alloc,
        }
    }

    /// The bookings of the ports at both ends.
    pub(crate) fn bookings(&self) -> Result<Booked, NoMemory>
        ensures a { IfOk result (λ booked. booked.a.keys ≡ bookings_of_spec End.A self.now.streams.ways) }
        ensures b { IfOk result (λ booked. booked.b.keys ≡ bookings_of_spec End.B self.now.streams.ways) }
    {
        let a = bookings_of(self.alloc, End::A, &self.streams)?;
        let b = bookings_of(self.alloc, End::B, &self.streams)?;
        Ok(Booked { a, b })
    }

    /// The moments up to this one at which leave timers end, each once and in order.
    pub(crate) fn ends(&self, at: Cs) -> Result<Dirty<Cs>, NoMemory>
        ensures ends { IfOk result (λ set. set.keys ≡ watched_ends at self.now) }
        ensures up_to { IfOk result (λ set. AllByRecursion (λ u. u.0 ≤ at.0) set.keys) }
    {
        let moments = self.marked_ends(at)?;
        Ok(moments)
    }

    // The same, where it isn't said that none is later.
    #[tactic(auto, using(crate::proofs::UpTo::marked_as_one), unfolding(crate::specs::Watched::watched_ends))]
    fn marked_ends(&self, at: Cs) -> Result<Dirty<Cs>, NoMemory>
        ensures { IfOk result (λ set. set.keys ≡ watched_ends at self.now) }
    {
        let mut moments = Dirty::new(self.alloc);
        self.vlans.mark_ends(at, &mut moments)?;
        self.streams.mark_ends(at, &mut moments)?;
        self.groups.mark_ends(at, &mut moments)?;
        Ok(moments)
    }

    /// Fires the leave timers that are due at a moment, in cs and below 2^62. Answers how many
    /// attributes are let go.
    #[tactic(auto, unfolding(crate::specs::Watched::watched_passing, crate::specs::Watched::watched_passing_text, crate::specs::Watched::watched_let_go))]
    pub(crate) fn passes(&mut self, out: &mut String, at: Cs) -> Result<u64, NoMemory>
        requires { at.0 < 2 ^ 62 }
        ensures watched { OnOk result (self.new ≡ watched_passing at self.old) }
        ensures text { OnOk result (string_bytes out.new
            ≡ string_bytes out.old ++ watched_passing_text at self.old) }
        ensures count { IfOk result (λ n. n ≡ min (watched_let_go at self.old) (2 ^ 64 - 1)) }
    {
        let vlans = self.vlans.passes(out, at)?;
        let others = pass_both(&mut self.streams, &mut self.groups, out, at)?;
        Ok(vlans.saturating_add(others))
    }

    /// Takes that all that is on its way is with the other end at a moment, in cs and below 2^62.
    #[tactic(auto, unfolding(crate::specs::Watched::watched_arriving, crate::specs::Watched::watched_arriving_text))]
    pub(crate) fn arrives(&mut self, out: &mut String, at: Cs) -> Result<(), NoMemory>
        requires { at.0 < 2 ^ 62 }
        ensures watched { OnOk result (self.new ≡ watched_arriving at self.old) }
        ensures text { OnOk result (string_bytes out.new
            ≡ string_bytes out.old ++ watched_arriving_text at self.old) }
    {
        self.vlans.arrives(out, at)?;
        arrive_both(&mut self.streams, &mut self.groups, out, at)
    }

    /// Judges anew the words on registrars that disagreed when they were said, at a moment. Answers
    /// how many are broken.
    #[tactic(auto, unfolding(crate::specs::Watched::watched_judged, crate::specs::Watched::watched_judging_text, crate::specs::Watched::watched_broken))]
    pub(crate) fn judges(&mut self, out: &mut String, at: Cs) -> Result<u64, NoMemory>
        ensures watched { OnOk result (self.new ≡ watched_judged self.old) }
        ensures text { OnOk result (string_bytes out.new
            ≡ string_bytes out.old ++ watched_judging_text at self.old) }
        ensures count { IfOk result (λ n. n ≡ min (watched_broken self.old) (2 ^ 64 - 1)) }
    {
        let vlans = self.vlans.judges(out, at)?;
        let others = judge_both(&mut self.streams, &mut self.groups, out, at)?;
        Ok(vlans.saturating_add(others))
    }

    /// Takes the octets of a PDU that an end sends at a moment, in cs and below 2^62. Answers how
    /// much of it is broken in itself.
    #[tactic(auto, unfolding(crate::specs::Watched::after_octets, crate::specs::Watched::octets_text, crate::specs::Watched::octets_broken))]
    pub(crate) fn says(
        &mut self,
        out: &mut String,
        at: Cs,
        who: End,
        app: AppForm,
        octets: &[u8],
    ) -> Result<u64, NoMemory>
        requires few { length octets.now < 2 ^ 32 }
        requires at { at.0 < 2 ^ 62 }
        ensures watched { OnOk result (self.new ≡ after_octets at who app octets.now self.old) }
        ensures text { OnOk result (string_bytes out.new
            ≡ string_bytes out.old ++ octets_text at who app octets.now self.old) }
        ensures count { IfOk result (λ n. n ≡ octets_broken app octets.now) }
    {
        match app {
            AppForm::Mvrp => self.says_vlans(out, at, who, octets),
            AppForm::Msrp => self.says_streams(out, at, who, octets),
            AppForm::Mmrp => self.says_groups(out, at, who, octets),
        }
    }

    // The same of MVRP.
    #[tactic(auto, unfolding(crate::specs::Watched::after_vlans, crate::specs::Watched::vlans_text, crate::specs::Watched::vlans_broken))]
    fn says_vlans(
        &mut self,
        out: &mut String,
        at: Cs,
        who: End,
        octets: &[u8],
    ) -> Result<u64, NoMemory>
        requires few { length octets.now < 2 ^ 32 }
        requires at { at.0 < 2 ^ 62 }
        ensures watched { OnOk result (self.new
            ≡ after_vlans at who (mvrp_reading octets.now) self.old) }
        ensures text { OnOk result (string_bytes out.new
            ≡ string_bytes out.old ++ vlans_text at who (mvrp_reading octets.now) self.old) }
        ensures count { IfOk result (λ n. n ≡ vlans_broken (mvrp_reading octets.now)) }
    {
        match mvrp_codec::decode(self.alloc, octets) {
            Ok(pdu) => self.takes_vlans(out, at, who, &pdu),
            Err(DecodeErr::Malformed(place)) => {
                write_broken_pdu(out, at, who, AppForm::Mvrp, place)?;
                Ok(1)
            }
            Err(DecodeErr::NoMemory) => Err(NoMemory),
        }
    }

    // Takes a PDU of MVRP.
    #[tactic(auto, unfolding(crate::specs::Watched::after_vlans, crate::specs::Watched::vlans_text, crate::specs::Watched::vlans_broken))]
    fn takes_vlans(
        &mut self,
        out: &mut String,
        at: Cs,
        who: End,
        pdu: &MvrpPdu,
    ) -> Result<u64, NoMemory>
        requires { at.0 < 2 ^ 62 }
        ensures watched { OnOk result (self.new ≡ after_vlans at who (Ok pdu.now) self.old) }
        ensures text { OnOk result (string_bytes out.new
            ≡ string_bytes out.old ++ vlans_text at who (Ok pdu.now) self.old) }
        ensures count { IfOk result (λ n. n ≡ vlans_broken (Ok pdu.now)) }
    {
        let msgs = messages(self.alloc, pdu.leave_all, pdu.events.as_slice())?;
        self.vlans.says(out, at, who, msgs)?;
        Ok(0)
    }

    // The same of MSRP.
    #[tactic(auto, unfolding(crate::specs::Watched::after_streams, crate::specs::Watched::streams_text, crate::specs::Watched::streams_broken))]
    fn says_streams(
        &mut self,
        out: &mut String,
        at: Cs,
        who: End,
        octets: &[u8],
    ) -> Result<u64, NoMemory>
        requires few { length octets.now < 2 ^ 32 }
        requires at { at.0 < 2 ^ 62 }
        ensures watched { OnOk result (self.new
            ≡ after_streams at who (msrp_reading octets.now) self.old) }
        ensures text { OnOk result (string_bytes out.new
            ≡ string_bytes out.old ++ streams_text at who (msrp_reading octets.now) self.old) }
        ensures count { IfOk result (λ n. n ≡ streams_broken (msrp_reading octets.now)) }
    {
        match msrp_codec::decode(self.alloc, octets) {
            Ok(pdu) => self.takes_streams(out, at, who, pdu),
            Err(DecodeErr::Malformed(place)) => {
                write_broken_pdu(out, at, who, AppForm::Msrp, place)?;
                Ok(1)
            }
            Err(DecodeErr::NoMemory) => Err(NoMemory),
        }
    }

    // Takes a PDU of MSRP.
    #[tactic(auto, unfolding(crate::specs::Watched::after_streams, crate::specs::Watched::streams_text, crate::specs::Watched::streams_broken))]
    fn takes_streams(
        &mut self,
        out: &mut String,
        at: Cs,
        who: End,
        pdu: MsrpPdu,
    ) -> Result<u64, NoMemory>
        requires { at.0 < 2 ^ 62 }
        ensures watched { OnOk result (self.new ≡ after_streams at who (Ok pdu) self.old) }
        ensures text { OnOk result (string_bytes out.new
            ≡ string_bytes out.old ++ streams_text at who (Ok pdu) self.old) }
        ensures count { IfOk result (λ n. n ≡ streams_broken (Ok pdu)) }
    {
        let doubles = write_doubles(self.alloc, out, at, who, pdu.events.as_slice())?;
        let events = without_replaced(self.alloc, pdu.events.as_slice())?;
        let msgs = Msgs {
            leave_all: pdu.leave_all,
            events,
        };
        self.streams.says(out, at, who, msgs)?;
        Ok(doubles)
    }

    // The same of MMRP.
    #[tactic(auto, unfolding(crate::specs::Watched::after_groups, crate::specs::Watched::groups_text, crate::specs::Watched::groups_broken))]
    fn says_groups(
        &mut self,
        out: &mut String,
        at: Cs,
        who: End,
        octets: &[u8],
    ) -> Result<u64, NoMemory>
        requires few { length octets.now < 2 ^ 32 }
        requires at { at.0 < 2 ^ 62 }
        ensures watched { OnOk result (self.new
            ≡ after_groups at who (mmrp_reading octets.now) self.old) }
        ensures text { OnOk result (string_bytes out.new
            ≡ string_bytes out.old ++ groups_text at who (mmrp_reading octets.now) self.old) }
        ensures count { IfOk result (λ n. n ≡ groups_broken (mmrp_reading octets.now)) }
    {
        match mmrp_codec::decode(self.alloc, octets) {
            Ok(pdu) => self.takes_groups(out, at, who, &pdu),
            Err(DecodeErr::Malformed(place)) => {
                write_broken_pdu(out, at, who, AppForm::Mmrp, place)?;
                Ok(1)
            }
            Err(DecodeErr::NoMemory) => Err(NoMemory),
        }
    }

    // Takes a PDU of MMRP.
    #[tactic(auto, unfolding(crate::specs::Watched::after_groups, crate::specs::Watched::groups_text, crate::specs::Watched::groups_broken))]
    fn takes_groups(
        &mut self,
        out: &mut String,
        at: Cs,
        who: End,
        pdu: &GroupPdu,
    ) -> Result<u64, NoMemory>
        requires { at.0 < 2 ^ 62 }
        ensures watched { OnOk result (self.new ≡ after_groups at who (Ok pdu.now) self.old) }
        ensures text { OnOk result (string_bytes out.new
            ≡ string_bytes out.old ++ groups_text at who (Ok pdu.now) self.old) }
        ensures count { IfOk result (λ n. n ≡ groups_broken (Ok pdu.now)) }
    {
        let msgs = messages(self.alloc, pdu.leave_all, pdu.events.as_slice())?;
        self.groups.says(out, at, who, msgs)?;
        Ok(0)
    }
}

// Lets time pass for MSRP and MMRP. Answers how many attributes are let go.
fn pass_both(
    streams: &mut LinkWatch<Streams>,
    groups: &mut LinkWatch<Groups>,
    out: &mut String,
    at: Cs,
) -> Result<u64, NoMemory>
    requires { at.0 < 2 ^ 62 }
    ensures streams { OnOk result (streams.new ≡ link_passing at streams.old) }
    ensures groups { OnOk result (groups.new ≡ link_passing at groups.old) }
    ensures text { OnOk result (string_bytes out.new ≡ string_bytes out.old
        ++ (ways_passing_text key_cmp key_text at streams.old.ways
        ++ ways_passing_text nat_cmp group_text at groups.old.ways)) }
    ensures count { IfOk result (λ n. n ≡ min
        (ways_let_go key_cmp at streams.old.ways + ways_let_go nat_cmp at groups.old.ways)
        (2 ^ 64 - 1)) }
{
    let first = streams.passes(out, at)?;
    let second = groups.passes(out, at)?;
    Ok(first.saturating_add(second))
}

// Takes what is on its way of MSRP and MMRP.
fn arrive_both(
    streams: &mut LinkWatch<Streams>,
    groups: &mut LinkWatch<Groups>,
    out: &mut String,
    at: Cs,
) -> Result<(), NoMemory>
    requires { at.0 < 2 ^ 62 }
    ensures streams { OnOk result (streams.new ≡ link_arriving key_cmp at streams.old) }
    ensures groups { OnOk result (groups.new ≡ link_arriving nat_cmp at groups.old) }
    ensures text { OnOk result (string_bytes out.new ≡ string_bytes out.old
        ++ (arriving_text key_cmp same_content key_text content_text at streams.old
        ++ arriving_text nat_cmp same_nothing group_text no_text at groups.old)) }
{
    streams.arrives(out, at)?;
    groups.arrives(out, at)
}

// Judges the words of MSRP and MMRP. Answers how many are broken.
fn judge_both(
    streams: &mut LinkWatch<Streams>,
    groups: &mut LinkWatch<Groups>,
    out: &mut String,
    at: Cs,
) -> Result<u64, NoMemory>
    ensures streams { OnOk result (streams.new ≡ link_judged streams.old) }
    ensures groups { OnOk result (groups.new ≡ link_judged groups.old) }
    ensures text { OnOk result (string_bytes out.new ≡ string_bytes out.old
        ++ (judging_text key_cmp key_text at streams.old
        ++ judging_text nat_cmp group_text at groups.old)) }
    ensures count { IfOk result (λ n. n
        ≡ min (link_broken key_cmp streams.old + link_broken nat_cmp groups.old) (2 ^ 64 - 1)) }
{
    let first = streams.judges(out, at)?;
    let second = groups.judges(out, at)?;
    Ok(first.saturating_add(second))
}
