//! Worked cases of a node and of what threads share, a file for each crate:
//!
//! ```text
//! propagation        attribute_propagation: what a port declares of others' registrations
//! vlans              mvrp: a node's MVRP
//! node               node_core: MVRP and MSRP together
//! counter, threads   turn_lock: a counter behind a lock (sum)
//! hub                bridge_book: a node behind a lock
//! ```
//!
//! The crate has tests alone, called as a user calls, since a crate with tests beside its code is
//! proved once more with them.
//!
//! To add one: a test in the file of its crate, by the calls that a network makes, or a thread.
#![tactic(auto)]

#[cfg(test)]
mod counter;
#[cfg(test)]
mod hub;
#[cfg(test)]
mod node;
#[cfg(test)]
mod propagation;
mod sum;
mod threads;
#[cfg(test)]
mod vlans;
