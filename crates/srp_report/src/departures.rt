//! What became of a port's copies, from one reading of their fates: how many came to which fate,
//! and those that depart, in the order in which they do.

ghost use Rattle.std.specs.Prelude.{◌≡◌, ◌+◌, ◌<◌, ◌^◌, ◌++◌, ◌∷◌, [], if◌then◌else◌, IfOk, OnOk};
ghost use Rattle.srp_report.specs.FrameLines.{is_departed as is_departed_spec, is_unbooked_fate as is_unbooked_spec, is_novlan as is_novlan_spec, is_left as is_left_spec, by_start, sent_frames as sent_frames_spec};
ghost use Rattle.srp_report.specs.Fates.{fate_counts, one_more};

use frame_flow::{Fate, PortFlow};
use srp_base::NoMemory;
use std::alloc::Global;

/// A copy of a frame that departs, in bit times of its port from the run's start.
#[derive(Clone, Copy, PartialEq, Eq)]
pub struct SentFrame {
    /// The frame's number.
    pub frame: u32,
    /// The bit time of its first bit.
    pub start: u64,
    /// The bit time after its last bit.
    pub end: u64,
}

/// How many copies came to each fate.
#[derive(Clone, Copy)]
pub(crate) struct FateCounts {
    /// Those that depart.
    pub(crate) departed: usize,
    /// Those that are dropped for want of a booking.
    pub(crate) unbooked: usize,
    /// Those that are dropped for want of a VID.
    pub(crate) novlan: usize,
    /// Those that are left at the end.
    pub(crate) left: usize,
}

/// What became of a port's copies.
#[derive(Drop)]
pub(crate) struct Outcomes {
    /// How many came to each fate.
    pub(crate) counts: FateCounts,
    /// Those that depart.
    pub(crate) sent: Vec<SentFrame>,
}

impl Outcomes {
    /// What became of the copies of a port's flow, those that depart ascending by start.
    pub(crate) fn of(alloc: Global, flow: &PortFlow) -> Result<Outcomes, NoMemory>
        ensures counts { IfOk result (λ o. o.counts ≡ fate_counts flow.now.fates) }
        ensures sent { IfOk result (λ o. o.sent.items
            ≡ by_start (sent_frames_spec flow.now.fates)) }
    {
        let Outcomes { counts, sent } = outcomes_by_arrival(alloc, flow)?;
        Ok(Outcomes {
            counts,
            sent: sorted(sent)?,
        })
    }
}

// The departures ascending by start.
fn sorted(sent: Vec<SentFrame>) -> Result<Vec<SentFrame>, NoMemory>
    ensures { IfOk result (λ v. v.items ≡ by_start sent.items) }
{
    let mut sent = sent;
    sent.sort_by_key(|d| d.start)?;
    Ok(sent)
}

// What became of the copies, those that depart in the order of their arrival.
fn outcomes_by_arrival(alloc: Global, flow: &PortFlow) -> Result<Outcomes, NoMemory>
    ensures counts { IfOk result (λ o. o.counts ≡ fate_counts flow.now.fates) }
    ensures sent { IfOk result (λ o. o.sent.items ≡ sent_frames_spec flow.now.fates) }
{
    // No more copies depart than the shaper was given.
    let mut sent = Vec::with_capacity(alloc, flow.input.arrivals.len())?;
    let mut counts = FateCounts::none();
    for (number, fate) in flow.fates.as_slice() {
        counts = counts.with(*fate);
        add_sent(&mut sent, *number, *fate)?;
    }
    Ok(Outcomes { counts, sent })
}

// Adds a copy where it departs.
fn add_sent(sent: &mut Vec<SentFrame>, number: u32, fate: Fate) -> Result<(), NoMemory>
    ensures { OnOk result (sent.new.items
        ≡ sent.old.items ++ sent_frames_spec ((number, fate) ∷ [])) }
{
    match fate {
        Fate::Departed { start, end } => {
            sent.push(SentFrame {
                frame: number,
                start,
                end,
            })?;
            Ok(())
        }
        Fate::Unbooked | Fate::NoVlan | Fate::Left => Ok(()),
    }
}

impl FateCounts {
    // No copy came to any.
    fn none() -> FateCounts
        ensures { result ≡ fate_counts [] }
    {
        FateCounts {
            departed: 0,
            unbooked: 0,
            novlan: 0,
            left: 0,
        }
    }

    // The counts with a copy more, of this fate.
    fn with(self, fate: Fate) -> FateCounts
        requires { self.departed + self.unbooked + self.novlan + self.left + 1 < 2 ^ 64 }
        ensures { result ≡ one_more self fate }
    {
        FateCounts {
            departed: self.departed + one_if(is_departed(fate)),
            unbooked: self.unbooked + one_if(is_unbooked(fate)),
            novlan: self.novlan + one_if(is_novlan(fate)),
            left: self.left + one_if(is_left(fate)),
        }
    }
}

// One, or nothing.
fn one_if(is: bool) -> usize
    ensures value { result ≡ (if is then 1 else 0) }
    ensures few { result < 2 }
{
    if is { 1 } else { 0 }
}

fn is_departed(fate: Fate) -> bool
    ensures { result ≡ is_departed_spec fate }
{
    matches!(fate, Fate::Departed { .. })
}

fn is_unbooked(fate: Fate) -> bool
    ensures { result ≡ is_unbooked_spec fate }
{
    matches!(fate, Fate::Unbooked)
}

fn is_novlan(fate: Fate) -> bool
    ensures { result ≡ is_novlan_spec fate }
{
    matches!(fate, Fate::NoVlan)
}

fn is_left(fate: Fate) -> bool
    ensures { result ≡ is_left_spec fate }
{
    matches!(fate, Fate::Left)
}
