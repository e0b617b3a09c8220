//! How long frames of a reserved stream wait at each port and take on their way (this project's own
//! bounds, over the shaper of IEEE Std 802.1Q-2018, 8.6.8.2).
//!
//! ```text
//!  StreamLimits     what a Talker may send: most, burst, slope         conforms: whether it did
//!      |
//!      v  late, by which two frames may have moved towards each other
//!  Group  Group     what comes to a port: a group of bounds for each origin
//!      \  /
//!      peak         of what they bring in together over the slope of the class
//!       |
//!      wait         of each frame at the port      ---> late at the next port
//!       |
//!     within        of each frame on its way
//! ```
//!
//! - `bound`: `Bound`, so many bits at once and so many in time, and `Group`, the bounds of what
//!   comes from one origin: the station itself, or the port of another link that sends into its
//!   node.
//! - `heights`: `peak`, the least height with which what some groups bring in over each span of
//!   time is no more than the height and what a slope takes away.
//! - `stream`: `StreamLimits`, `ClassStream` and `SentFrame`; `conforms`, whether a stream's frames keep its
//!   limits by pairs, exactly and in one pass; `are_in_order`, whether it may be asked.
//! - `way`: `idle`, `wait`, `late` and `within`, from a port's peak to the time on a way of `Hop`s.
//! - `laws`: what these numbers say, whatever comes to the ports.
//!
//! Sizes that are weighed against time are in bits x 10^12, since a slope in bit/s gives so many of
//! them a ps: so all is whole numbers. `peak` multiplies nothing that the groups' bases together
//! don't bound: which of two bounds is lower over a span is a quotient, and what the groups bring
//! in stands above the slope by no more than the bases of their first bounds. So it is exact up to
//! 2^126 for all bases together, and says where they are more; `late` and `within` say where a
//! number is 2^128 or more. `conforms` stays below the burst and a frame, some 2^105.
//!
//! To extend it: one more bound of a group is one more entry of `more`; one more part of a frame's
//! way is a summand of `late_behind` and `taken_at` in `specs/Waits.antt`.
#![tactic(auto)]

mod bound;
mod heights;
pub mod laws;
mod stream;
mod way;

pub use bound::{Bound, Group};
pub use heights::{NoPeak, peak};
pub use stream::{ClassStream, SentFrame, StreamLimits, are_in_order, conforms};
pub use way::{Hop, idle, late, wait, within};
