//! What a stream wants of an egress port, and what came of it.

use srp_base::{Class, Cs, Rank, StreamId};

/// What one stream wants of an egress port, by its TSpec and its PriorityAndRank (IEEE Std
/// 802.1Q-2018, 35.2.2.8.4, 35.2.2.8.5).
#[derive(Clone, Copy, PartialEq, Eq)]
pub struct Want {
    /// The stream.
    pub stream: StreamId,
    /// The SR class of the stream, A or B.
    pub class: Class,
    /// The rank of the stream: 0 for emergency traffic, else 1.
    pub rank: Rank,
    /// The bandwidth that the stream takes, in bit/s, as `slope_of` gives it; any number of 64
    /// bits.
    pub slope: u64,
}

/// A want that a port keeps, with its booking.
#[derive(Clone, Copy, PartialEq, Eq)]
pub struct Entry {
    /// What is wanted.
    pub want: Want,
    /// The moment since when it is booked without a break, in cs; None where it isn't booked.
    pub since: Option<Cs>,
}

/// Whether a want fits beside what a port has booked.
#[derive(Clone, Copy, PartialEq, Eq)]
pub enum Fit {
    /// It fits.
    Fits,
    /// It doesn't.
    TooLittle {
        /// The slopes of the more important booked streams together, in bit/s, without the want's
        /// own.
        more_important: u128,
        /// The cap of the want's class, in bit/s: that sum with the want's own slope is above it.
        cap: u128,
        /// The failure code of a Talker Failed (IEEE Std 802.1Q-2018, 35.2.2.8.7). 6 (preempted by
        /// a higher rank) where the want is of rank 1 and would fit if the bookings of rank 0
        /// weren't there, else 1 (insufficient bandwidth): a want of rank 0 always has 1.
        code: u8,
    },
}
