//! Class B at each port of a scenario's flow: its bound, by the rate and the caps of the port's
//! link, and its longest wait in the flow (IEEE Std 802.1Q-2018, 8.6.8.2, 34.3); and what both
//! classes get there.
//!
//! ```text
//!   a link of the file: rate, delta_a, delta_b ---> caps of its two ports ---> class_b_bound::bound_b ------> wait
//!                                                        |
//!   a run's flow: what each port's shaper is given ------+---> class_b_bound::worst_wait ---> worst
//! ```
//!
//! - `caps`: `link_at`, the link of a port, and `caps_at`, what the port may give away.
//! - `port`: `PortBound`, and `bound_of_port`.
//! - `laws`: that class B stays within its bound at every port, and that each class which has
//!   something to send gets its bandwidth (`specs/PortService.antt`).
//!
//! A bound asks for caps that are below the rate, and for slopes that keep them. A scenario's links
//! leave a tenth of their rate at least; that a port's caps are those of the link that its rate is
//! of is shown over the scenario's tree (`proofs/PlaceLemmas.antt`). That the slopes keep the caps
//! is what a run's ledgers promise of its timeline.
//!
//! To extend it: what else is to be said of a port is a field of `PortBound` and, where it holds of
//! every flow, a field of `IsWithinBoundB` in `specs/PortBounds.antt`.
#![tactic(auto)]

mod caps;
pub mod laws;
mod port;

pub use caps::{caps_at, link_at};
pub use port::{PortBound, bound_of_port};
