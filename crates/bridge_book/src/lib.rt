//! A node that its port threads share, in turns of one port step each (IEEE Std 802.1Q-2018, 10.3:
//! a bridge's ports act on their own, and meet in the bridge).
//!
//! ```text
//!              NodeHub::begin(number, node)
//!                 |                  \
//!               hub              passes 1 .. n, one for each link port, each to its port's thread
//!                 |
//!   step(gate, pass, step):  wait for a turn -> gate.within -> the node makes the port's step -> note it
//!                 |
//!              NodeHub::close(passes) ---> the node, and the steps that were made of it in their order
//! ```
//!
//! A hub is a `turn_lock` round a `SharedNode`: a node with the list of steps that its ports have
//! made, each with its answer. An ask is a port with its step. Contracts see of a hub its number
//! and its lock, and of a pass, as of any pass of a lock, its lock, its number and the history that
//! it has seen. Passes are numbered as the ports are.
//!
//! The history is one of the node alone: `node_does` (`specs/Steps.antt`) is the one-thread step,
//! the node's own `node_step` at a link port. `NodeHub::step` answers what the node answers at the
//! call's place in one history, which begins with all that the pass had seen and ends with this
//! step; of the pass's own steps it has the earlier ones and this one. `NodeHub::close` gives the
//! node that the history leaves and its entries as steps; each pass has seen a front of it, and its
//! entries of a pass's number are exactly those that the pass made. Beside each step stands a
//! `Notice`: which PDU the step took off its port's link or put on it, if any, and whether it has
//! LeaveAll; so who counts the PDUs of a network's links can go by the history alone.
//!
//! So whatever the threads do, in whichever order they run, the node is one that one thread makes
//! of it by the steps in that order, and each law of a node's steps holds of it. `laws` says that
//! no history changes the number of ports; so a pass's step is always the node's own, and the guard
//! of `node_does` for what isn't a link port is never taken.
//!
//! A `Gate` is told where port threads are: before a port's first step of a tick, inside each turn,
//! and after the last step. The program's gate, `NoGate`, does nothing; a test's may hold a thread,
//! to show that others go on.
//!
//! What isn't promised is what `turn_lock` doesn't: that a turn comes, and an order between ports
//! that told each other nothing.
//!
//! To extend it: another object to share is another `Sequential` beside `SharedNode`, with a hub of
//! its own; what is to be said of all histories of a node is a law in `laws.rt`, by induction on
//! the history as `proofs/StepsLemmas.antt` does it.
#![tactic(auto)]

mod gate;
mod hub;
pub mod laws;
mod notice;
mod shared;

pub use gate::{Gate, NoGate};
pub use hub::{HubCloseErr, HubClosed, NodeHub, PortPass};
pub use notice::{Notice, Told};
pub use shared::{PortAsk, SharedNode};
