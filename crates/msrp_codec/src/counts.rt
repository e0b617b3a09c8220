//! How many events are of each type.

ghost use Rattle.std.specs.Prelude.{◌≡◌, ◌<◌, ◌≤◌, ◌+◌, ◌^◌};
ghost use Rattle.std.specs.List.{AllByRecursion};
ghost use Rattle.msrp_codec.specs.FirstValue.{IsFirst};
ghost use Rattle.msrp_codec.specs.Content.{value_of};
ghost use Rattle.msrp_codec.specs.Counts.{counts_of, with_one, total_of};
ghost use Rattle.msrp_codec.specs.Writing.{stated_octets};

use crate::fitting::numbers_fit;
use crate::pdu::{MsrpContent, MsrpKey};
use srp_base::MrpEvent;

/// How many events are of each type.
#[derive(Clone, Copy)]
pub(crate) struct Counts {
    pub(crate) advertised: usize,
    pub(crate) failed: usize,
    pub(crate) listeners: usize,
    pub(crate) domains: usize,
}

impl Counts {
    /// With one more event, of this content.
    fn with_one(self, content: &MsrpContent) -> Counts
        requires { total_of self < 2 ^ 63 }
        ensures counts { result ≡ with_one self content.now }
        ensures total { total_of result ≡ total_of self + 1 }
    {
        let mut counts = self;
        match content {
            MsrpContent::Advertise(_) => counts.advertised += 1,
            MsrpContent::Failed(_, _) => counts.failed += 1,
            MsrpContent::Listener(_) => counts.listeners += 1,
            MsrpContent::Domain { .. } => counts.domains += 1,
        }
        counts
    }

    /// The stated octets of so many events, with the base. No clause speaks of room.
    pub(crate) fn room(self) -> usize
        requires { total_of self ≤ 1500 }
    {
        106 + self.advertised * 28 + self.failed * 37 + self.listeners * 12 + self.domains * 7
    }
}

/// How many of these events are of each type.
#[tactic(auto, using(crate::proofs::SizeLemmas::few_events, crate::proofs::CountLemmas::counted_more))]
pub(crate) fn counts_of(events: &[(MrpEvent, MsrpKey, MsrpContent)]) -> Counts
    requires { stated_octets events.now ≤ 1500 }
    ensures counts { result ≡ counts_of events.now }
    ensures few { total_of result ≤ 1500 }

    // Their numbers fit in their fields.
    ensures in_range { AllByRecursion (λ x. IsFirst (value_of x.1 x.2)) events.now }
{
    let mut counts = Counts {
        advertised: 0,
        failed: 0,
        listeners: 0,
        domains: 0,
    };
    for event in events {
        numbers_fit(event.1, &event.2);
        counts = counts.with_one(&event.2);
    }
    counts
}
