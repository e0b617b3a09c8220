//! The three queues of a port, each as the index of its first frame in the list of arrivals.

ghost use Rattle.std.specs.Prelude.{◌≡◌, ◌<◌, ◌≤◌, true, false, length, take, HoldsAt};
ghost use Rattle.std.specs.List.{AllWithin};
ghost use Rattle.credit_shaper.specs.Port.{is_of};

use crate::port::Arrival;
use crate::shaper::Traffic;

/// For each traffic the index of its queue's first frame. Of the frames that have come, a traffic's
/// queue has those of the traffic from there on.
#[derive(Clone, Copy)]
pub(crate) struct Heads {
    pub(crate) a: usize,
    pub(crate) b: usize,
    pub(crate) other: usize,
}

impl Heads {
    ghost use Rattle.credit_shaper.specs.Walk.{head_index, with_head_index, pending, AreHeads, AreWithin};

    /// The index of a traffic's first frame.
    pub(crate) fn of(self, traffic: Traffic) -> usize
        ensures { result ≡ head_index self traffic }
    {
        match traffic {
            Traffic::A => self.a,
            Traffic::B => self.b,
            Traffic::Other => self.other,
        }
    }

    /// These with another index for one traffic.
    pub(crate) fn with(self, traffic: Traffic, head: usize) -> Heads
        ensures { result ≡ with_head_index traffic head self }
    {
        match traffic {
            Traffic::A => Heads { a: head, ..self },
            Traffic::B => Heads { b: head, ..self },
            Traffic::Other => Heads {
                other: head,
                ..self
            },
        }
    }

    /// Each index moved on to a frame of its traffic, or to the end of those that have come.
    pub(crate) fn settled(self, arrivals: &[Arrival], came: usize) -> Heads
        requires heads { AreWithin came self }
        requires came { came ≤ length arrivals.now }
        ensures heads { AreHeads arrivals.now came result }
        ensures same { pending result 0 (take came arrivals.now)
            ≡ pending self 0 (take came arrivals.now) }
    {
        Heads {
            a: first_of(arrivals, Traffic::A, self.a, came),
            b: first_of(arrivals, Traffic::B, self.b, came),
            other: first_of(arrivals, Traffic::Other, self.other, came),
        }
    }
}

/// The index of the first frame of a traffic in a part of the arrivals, or the part's end.
pub(crate) fn first_of(arrivals: &[Arrival], traffic: Traffic, from: usize, to: usize) -> usize
    requires range { from ≤ to }
    requires within { to ≤ length arrivals.now }
    ensures from { from ≤ result }
    ensures to { result ≤ to }
    ensures others { AllWithin (λ x. is_of traffic x ≡ false) arrivals.now from result }
    ensures found { result < to → HoldsAt (λ x. is_of traffic x ≡ true) arrivals.now result }
{
    for i in from..to {
        if arrivals[i].traffic == traffic {
            return i;
        }
    }
    to
}
