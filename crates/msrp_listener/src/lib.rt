//! How the Listeners behind a bridge's ports become one declaration towards the Talker (IEEE Std
//! 802.1Q-2018, 35.2.4.4).
//!
//! ```text
//! port 2   Ready,        booked      --> counts as Ready         \
//! port 3   ReadyFailed,  booked      --> counts as ReadyFailed    |-- merge --> ReadyFailed, declared at the
//! port 4   Ready,        not booked  --> counts as AskingFailed  /              Talker's port
//! ```
//!
//! A port with a Listener registered is a `PortListener`: the registered kind, and whether the port
//! has the stream booked. `listener_out` counts each, merges what they count as, and answers the
//! kind that the Talker's port declares, or None where no port has a Listener. The definition is
//! the standard's merging of two kinds, over all ports (`specs/Merging.antt`). The laws say what
//! that comes to: the order of the ports doesn't matter, Ready is declared exactly where every port
//! counts as Ready, which is where each has Ready registered and the stream booked, AskingFailed
//! where none can have the stream, and ReadyFailed in between.
//!
//! To extend it: a new kind of Listener is a line of `merge_of` and of `counted_kind`, and a law on
//! where it is declared; what else keeps a port from forwarding is one more field of
//! `PortListener`, read in `counted_kind` alone.
#![tactic(auto)]

pub mod laws;
mod merging;
mod port_listener;

pub use merging::merge;
pub use port_listener::{PortListener, listener_out};
