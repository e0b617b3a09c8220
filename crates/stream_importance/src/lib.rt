//! How much bandwidth a stream takes of an egress port, and which of two streams that want the same
//! port is more important (IEEE Std 802.1Q-2018, 34.3, 34.4, 35.2.2.8).
//!
//! ```text
//! max_frame, frames --slope_of--> Want { stream, class, rank, slope }    in bit/s
//! rate, deltas --Caps::new------> Caps { class_a, both }                 in bit/s
//!                                   |
//!                                 Entry { want, since }                  booked since a moment, or not
//!                                   |
//!                       more_important(now, x, y)   class A, rank 0, the earlier booking, the lower StreamID
//! ```
//!
//! The contracts say that a slope is that of the frames with their overhead, that the caps are the
//! shares of the rate, and that importance is the lexicographic order of those four. That class A
//! goes first and that the earlier booking counts is this project's own rule. The law
//! `importance_is_an_order` says that it is a strict order in which any two entries of different
//! streams compare.
//!
//! To extend it: one more thing that decides who is more important is one more comparison in
//! `compare_importance`, in `specs/Importance.antt` and in `src/order.rt`, at its place in the
//! order.
#![tactic(auto)]

mod entry;
pub mod laws;
mod order;
mod slope;

pub use entry::{Entry, Fit, Want};
pub use laws::importance_is_an_order;
pub use order::{compare_importance, more_important};
pub use slope::{Caps, slope_of};
