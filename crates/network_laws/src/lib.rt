//! The laws of a network at rest: what is registered and declared anywhere is what the tree and the
//! stations say.
//!
//! ```text
//!   duty on a link        where both ends are still, a VID is registered exactly where the neighbour declares it
//!   settled at a node     a port declares it exactly where another port, or the application, has it registered
//!   induction on a tree   so it is registered at a port exactly where a station behind the port has declared it
//! ```
//!
//! Of a stream that at most one station talks:
//!
//! ```text
//!   t1 --> b1 --> b2 --> l     the Talker's port of each node is the one that leads to t1
//!                              a port has booked: the Talker is advertised there, and a Listener behind is Ready,
//!                              so the port before it has the Talker advertised and a Ready Listener too, and has booked
//! ```
//!
//! So the Talker is registered exactly where its station is behind, a listener hears Ready exactly
//! where every egress port on the path has booked, and a failure for want of bandwidth comes of a
//! port of the path at which more important bookings leave no place.
//!
//! A network is at rest where nothing is pending (`is_quiet`) and every port is sound
//! (`is_in_step`): it has sent a LeaveAll since a PDU of the application was last lost or forged on
//! its link, or since then took one of its neighbour's on a clear way. `vlans_match` and
//! `ready_on_path` answer both sides of their laws in every network, at rest or not, each by its
//! own definition (`specs/Vlans.antt`, `specs/Streams.antt`), and `refusal_shown` the port that
//! refuses; `laws` says that the sides are equal at rest, and that there is such a port.
//!
//! `cause_laws` says what stands behind that: who misses a stream has a failure, each failure has
//! its cause at a port of the path from the Talker, what a port's ledger keeps as wanted comes of a
//! station behind it that hears Ready, and caps and the boundaries of domains are those of the
//! scenario (`specs/Causes.antt`).
//!
//! A further law has its two sides in a file of `specs/`, a call that answers both, and its
//! sentence in `laws`, over networks and over the moments of a run; the command that prints a run
//! takes it into its record of what holds.
#![tactic(auto)]

pub mod cause_laws;
pub mod laws;
mod streams;
mod vlans;

pub use streams::{Refusal, ready_on_path, refusal_shown};
pub use vlans::{Sides, vlans_match};
