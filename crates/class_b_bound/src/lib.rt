//! What class B may count on at one egress port, beside class A (IEEE Std 802.1Q-2018, 8.6.8.2; the
//! bounds are this project's own, for every input whose slopes keep their caps).
//!
//! ```text
//!  a class B frame at the head of its queue, with credit
//!    |
//!    v   one other frame    class A, as far as its own credit goes
//!    |<------ 12,336 ---->|<-A-><-A-><-A->|<- B ...
//!    |<-------------- wait -------------->|
//!                  credit of class B: up to 2 x 12,336 x capAB behind the wait
//! ```
//!
//! - `bound`: `BoundB`, a wait with hiCredit and loCredit of class B; `bound_b`, the bound by what
//!   class A may take in a window, and `tight_bound_b`, a tighter one, which worked cases come
//!   near; `are_caps` and `has_caps`, whether they may be asked for and hold of an input.
//! - `waits`: `worst_wait`, the longest wait of an input, found from event to event.
//! - `window`: `window_b`, what class B takes of the line in a window, and the area of its
//!   idleSlope.
//! - `laws`: that each input stays within both bounds.
//!
//! A port is given slopes with two caps: none of class A is above `cap_a`, and no two together
//! above `cap_ab`, which is below the rate. Then, with r for the rate, c for `cap_a`, w for
//! `cap_ab` and M for the 12,336 bits of the longest frame:
//!
//! | | wait in bit times | credit of class B in units of 1/rate bit |
//! |---|---|---|
//! | `bound_b` | M x (2r + c) / (r - c), rounded up | from -M x r to w times that wait |
//! | `tight_bound_b` | M x (2r - c) / (r - c), rounded down | from -M x r to 2 x M x w |
//!
//! At 75 of 100 Mb/s for class A the one is 135,696 bit times and the other 61,680; at 50 they are
//! 61,680 and 37,008. Over each window class B has the line for no more than the area of its
//! idleSlope plus hiCredit minus loCredit, with either pair. The proof of the tight bound keeps in
//! each bit time what both credits may be together with the bits left on the line and the bit times
//! waited (`Begins` in `proofs/StepLemmas.antt`).
//!
//! To extend it: another bound is a record of `specs/Bound.antt` with a clause in each law. A wait
//! of another kind is a test in `specs/Waits.antt` in place of `is_kept_waiting`, and its bit times
//! in a piece are found in `bits_short` of `waits`.
#![tactic(auto)]

mod bound;
pub mod laws;
mod waits;
mod window;

pub use bound::{BoundB, are_caps, bound_b, has_caps, tight_bound_b};
pub use waits::worst_wait;
pub use window::{WindowB, window_b};
