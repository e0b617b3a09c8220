//! Worked cases of the parts that a port and the network's tree are made of, of PDUs, and of
//! captures, a file for each crate:
//!
//! ```text
//! numbers                          srp_base
//! importance, ledger               stream_importance, port_ledger
//! talker, listener                 msrp_talker, msrp_listener
//! applicant_cells, registrar_cells, leaveall_cells, participant
//!                                  applicant, registrar, leaveall, mrp_participant
//! tree                             tree_topology
//! grammar, mvrp, msrp              mrpdu_codec, mvrp_codec, msrp_codec: what octets say, and the
//!                                  octets for it
//! files, pcap, pcapng              capture_file: captures made of pieces by hand, in both forms
//!                                  and both byte orders; clocks, cut and broken files, and files
//!                                  that are no capture
//! ```
//!
//! The crate has tests alone, called as a user calls: a crate with tests beside its code is proved
//! once more with them.
//!
//! To add one: a test in the file of its crate, or a row of a machine's table there; of a capture,
//! its pieces as octets, written down by the format's own description, with the frames that they
//! are by hand. A ledger's bookings are better shown by a file of `examples/`, octets with their
//! wanted reading by a line in `examples/pdus/`.
#![tactic(auto)]

#[cfg(test)]
mod applicant_cells;
#[cfg(test)]
mod files;
#[cfg(test)]
mod grammar;
#[cfg(test)]
mod importance;
#[cfg(test)]
mod leaveall_cells;
#[cfg(test)]
mod ledger;
#[cfg(test)]
mod listener;
#[cfg(test)]
mod msrp;
#[cfg(test)]
mod mvrp;
#[cfg(test)]
mod numbers;
#[cfg(test)]
mod participant;
#[cfg(test)]
mod pcap;
#[cfg(test)]
mod pcapng;
#[cfg(test)]
mod registrar_cells;
#[cfg(test)]
mod talker;
#[cfg(test)]
mod tree;
