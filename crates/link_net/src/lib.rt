//! A network of nodes of one kind: a tree, one clock, and at each end of each link two boxes of
//! PDUs, whatever the nodes do with them (IEEE Std 802.1Q-2018, 10: applications of MRP).
//!
//! ```text
//!     application of a station            Clock: 1 cs, of all nodes at once
//!               | Request
//!               v
//!        node, with a participant of each application at each link port
//!      ^        |  Port: a step of one port           ^
//!      |        v                                     |
//!    inbox   outbox --Carry--> inbox of the peer   outbox of the peer
//!      ^                                              |
//!      +----------------------Carry-------------------+
//!      Lose, Repeat, Forge: at an inbox
//! ```
//!
//! What a node is, its crate says: a `LinkNode` (`src/node.rt`) has types for what differs from
//! kind to kind, a method for each thing that may happen at it, and its `meaning`
//! (`specs/Meaning.antt`), each method as a function of the node's state, with the participants and
//! the boxes at its places and the duties of a link's two ends. Its laws (`specs/NodeLaws.antt`)
//! are those from which all of this crate follows: what happens at one place leaves the others,
//! keeps the duties of the place's link, and keeps what every node keeps. A node proves them once,
//! in `keeps_laws`.
//!
//! Contracts see a network as its `NetState` (`specs/Net.antt`), a tree, a moment and the nodes;
//! what they say, they say of the nodes' states (`seen`). One event is a function of it:
//! `net_step` gives the network afterwards and the answer, and `Net::step` does just that, or
//! memory ran out and the network is as it was. Its one condition is `CanHappen`: the nodes and
//! ports that the event names exist, a station asks, a forged PDU is as short as a frame allows,
//! and the clock goes on from below 2^61.
//!
//! What every network keeps, by its type, is `IsKeptNet` (`specs/Kept.antt`): a node for each of
//! its tree's, which keeps what a node of its kind keeps, and on each link both duties in each
//! application. A network of new nodes keeps it, and so it holds after every list of events,
//! losses, copies and forgeries included (`laws`). The proofs see an event as what it moves
//! (`proofs/Moved.antt`): the nodes at the two ends of one link, each at its place, while all else
//! stays; or nothing at any port.
//!
//! A further event is a variant of `NetEvent`, a line of `net_step`, `CanHappen` and
//! `IsEventInRange`, a function of `src/happen.rt` with its arm in `happen`, and in the proofs a
//! line of `met_event` (which ends move, and that the duties between them stay: a law of the node
//! where it is new) and of `fits_event`, `tree_stays`, `clock_stays` and `clock_kept`.
//!
//! A further kind of node is an `impl LinkNode` in the node's crate, with its `NodeMeaning`: the
//! network has no other word of it. Its public calls for users, as their own events and answers,
//! are a thin struct over `Net` there, as mmrp's `GroupNet` is.
//!
//! Marks at the ends of links, which say of an end that it is assured by its neighbour's LeaveAll,
//! would join as a list beside the nodes of `NetState`, one for each port and application, changed
//! by `net_step` with the ends that move, and as two more arguments of `duties`, those of the near
//! and of the far end; `moved_keeps` then speaks of a link with its marks, and `in_step` takes a
//! participant for sound by its mark too.
#![tactic(auto)]

mod events;
mod happen;
pub mod laws;
mod net;
mod node;

pub use events::{NetEvent, NetReply};
pub use net::Net;
pub use node::LinkNode;
