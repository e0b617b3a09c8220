//! What class A and class B get of the line at one egress port, and how long their frames wait
//! (IEEE Std 802.1Q-2018, 8.6.8.2; the bounds are this project's own, for every input).
//!
//! ```text
//!  credit of a class
//!              .           /\
//!   hi . . . . . . . . . ./. \. . . . . . . . .     as high as its slope takes it behind other traffic
//!              .         /    \
//!    0 ________.________/      \____________/---    busy: a frame of the class waits or is on the line
//!              . rests  |       \          /
//!   lo . . . . . . . . .|. . . . \. . . ./. . .     as low as its longest frame takes it
//!              .        |<------ busy ------>|
//! ```
//!
//! `credit_shaper` and `class_b_bound` say what a class takes of a window at most. The laws of this
//! crate say that it gets as much: while it is busy no credit is set back, so the area of its
//! idleSlope is what its frames take, but for what its credit may be at the two ends. From that
//! each frame's wait is owed to the frames in front of it.
//!
//! With r for the rate, S for the class's slope, a for class A's and M for the bits of its longest
//! frame, all since a bit time at which its credit is 0, in units of 1/rate bit:
//!
//! | | class A | class B |
//! |---|---|---|
//! | credit falls no lower than | -(r - S) x M | -(r - S) x M |
//! | it rises no higher than | S x 12,336 | S x idle |
//! | idle, in bit times | 12,336 | 12,336 x (2r - a) / (r - a), rounded up |
//!
//! Class B's height asks that both slopes together aren't above the rate, which each port's caps
//! keep: at rate 100, with slopes 60 and 80 and both classes always waiting, it is false.
//!
//! A frame of a class that arrives at t and hasn't started before u has waited for what came before
//! it:
//!
//! ```text
//!        s                    t                     u
//!  ------|--------------------|---------------------|------
//!   not  | busy, or its credit|  the frame waits, so the
//!   busy | isn't set back     |  class is busy
//!
//!  S x (u - s)  <=  r x (bits of the class that arrived from s on, in front of the frame)  +  S x idle
//! ```
//!
//! - `laws`: all that holds. The words are those of `specs/Class.antt`, the same for both classes:
//!   `is_busy`, `bits_in` and `area_in` of a window, `credit_at`.
//! - `service`: `service_in`, what a class has of a window as numbers: its bits, the area of its
//!   idleSlope, and whether it is busy all along.
//!
//! To extend it: a third class with a credit is a case of `IsClass`, `credit_at` and `slope_at`,
//! and of `idle_of` with how high its credit rises, which is what has a proof of its own for each
//! class (`proofs/RiseLemmas.antt` for class B). A bound on a frame's way over several ports cites
//! `each_frame_of_a_class_starts_in_time` at each of them.
#![tactic(auto)]

pub mod laws;
mod service;

pub use service::{Service, service_in};
