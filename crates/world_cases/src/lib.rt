//! Worked cases of a network, and of what is said of its run:
//!
//! ```text
//! world, allowed, parts, apart, leaving, resumed
//!                                 world_core: events one by one
//! vlans, streams                  network_laws: what its laws say of it
//! schedule, listeners             srp_schedule: its run from tick to tick
//! ports                           port_worker: a run with a thread for each port
//! text                            srp_report: what is told of a run
//! captures                        link_capture: what went over a link in a run, as a capture file
//! verdicts                        journal_audit: the journal of a run, and such journals with one
//!                                 line changed
//! ```
//!
//! The crate has tests alone, called as a user calls, since a crate with tests beside its code is
//! proved once more with them.
//!
//! To add one: a test in the module of its crate; of a report, with the text that a reader would
//! write by hand from the scene. A whole run is better shown by a file of `examples/`.
#![tactic(auto)]

#[cfg(test)]
mod allowed;
#[cfg(test)]
mod apart;
#[cfg(test)]
mod captures;
#[cfg(test)]
mod leaving;
#[cfg(test)]
mod listeners;
#[cfg(test)]
mod parts;
mod ports;
#[cfg(test)]
mod resumed;
#[cfg(test)]
mod schedule;
#[cfg(test)]
mod streams;
#[cfg(test)]
mod text;
#[cfg(test)]
mod verdicts;
#[cfg(test)]
mod vlans;
#[cfg(test)]
mod world;
