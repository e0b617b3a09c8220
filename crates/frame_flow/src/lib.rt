//! The flow of frames over a tree of stations and bridges: which copies of a frame reach which
//! egress ports, what each port's shaper is given, and what becomes of each copy (IEEE Std
//! 802.1Q-2018, 8.6, 34; that time goes by whole bits of each port's rate is this project's own).
//!
//! ```text
//!   frames of the station ----------.
//!                                   +--> copies, by bit time and number --> may be sent --> PortInput
//!   departures of the peers of      |        |                                                 |
//!   the node's other ports ---------'        '--> Unbooked, NoVlan                     credit_shaper
//!                                                                                              |
//!   the next nodes <-- when the last bit has gone -------------------------- Departed, Left <--'
//! ```
//!
//! - `frame`: `Frame` with its `Route`, and `FrameCopy`, a frame at a port.
//! - `result`: `Fate`, `PortFlow` and `FlowResult`.
//! - `levels`: `flow`. `valid`: `is_valid`, whether it may be asked for.
//! - `copies`: the copies that come to a node, and those of them that leave by a port, in order.
//!   `incoming`: a copy with the port that it came in by. `by_node`: the frames of each node.
//! - `fates`: the flow at a port. `verdicts`: which copies may be sent, by what is in `force`.
//!   `sent`: how the departure of a frame is found. `numbered`: what is found in a list that
//!   ascends by a number.
//! - `laws`: what is true of every flow.
//!
//! The contract of `flow` is one condition on all ports at once, `IsFlow` of `specs/Flow.antt`: the
//! flow at each port is what the frames and the flows at the other ports give it. It speaks of no
//! order. What comes in over a port's own link never leaves by that port, so in a tree at most one
//! flow meets it, which is a law here. The code goes over the ports by how many nodes lie behind
//! their peers (`specs/Levels.antt`): what sends into a port's node over another link has fewer. A
//! node's ports that have as many follow one another, and those of one rate among them share one
//! list of all copies that come to the node: each leaves out those that came in by itself, and puts
//! what is left in order (`specs/Incoming.antt`).
//!
//! Above the condition stand, as laws: over a tree there is one flow; what arrives at a port is
//! what comes to it, in order; what its shaper is given keeps the caps that the changes keep; each
//! copy has one fate; it departs once where that is its fate, and else never; the copies of one
//! traffic depart in order of arrival, ties by number; and at every port every window stays within
//! class A's bound. For what is to be said of a frame's way: each copy comes from a frame of the
//! port's station or from what departed over another link of its node, what departed had arrived
//! and took its own bits, no frame goes back, and what is handed on from port to port holds at each
//! (`specs/Origins.antt`).
//!
//! To extend it: another reason to drop a copy is a variant of `Fate`, a test in `may_send` and
//! `fate_of` of `specs/Flow.antt`, and a variant of `Verdict` with its arm in `fates`. Another way
//! for a frame to go is a variant of `Route` and a case of `goes_by` in `specs/Copies.antt`.
//! Another law is a function of `laws`, its words in `specs/Laws.antt`, and a lemma in
//! `proofs/LawLemmas.antt`.
#![tactic(auto)]

mod by_node;
mod copies;
mod fates;
mod force;
mod frame;
mod incoming;
pub mod laws;
mod levels;
mod moments;
mod numbered;
mod place;
mod result;
mod sent;
mod setting;
mod valid;
mod verdicts;

pub use frame::{Frame, FrameCopy, Route};
pub use levels::flow;
pub use place::Place;
pub use result::{Fate, FlowResult, PortFlow};
pub use valid::is_valid;
