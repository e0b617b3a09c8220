//! Worked cases of files and of what is reckoned of them, a file for each crate:
//!
//! ```text
//! sources            srp_io: octets from a source
//! rules              toml_rules: rules over a TOML table
//! scenario           topology_file: a scenario that is read
//! places             file_places: where a file is at fault
//! refusals           rule_words: what is said of a file that is refused
//! needs              port_needs: what a network needs
//! shaper             credit_shaper: frames at one port through its shaper
//! flow               frame_flow: frames over a tree
//! frames             scenario_frames: the frames of a scenario
//! bounds, waits, windows
//!                    class_b_bound: class B's bounds, its longest waits and its windows
//! service            class_service: what each class has of a window
//! delays, plans      delay_bound, class_delays: how long frames wait and take, and the numbers of
//!                    delays, reckoned by hand from the definitions of delay_flow
//! ```
//!
//! The crate has tests alone, called as a user calls, since a crate with tests beside its code is
//! proved once more with them.
//!
//! Inputs that come near class B's tight bound are built so: one frame of other traffic of 12,336
//! bits at bit time 0; at bit time 1 a frame of class B, and frames of class A that use up the
//! credit which class A gains behind the first, to 0 or just above it; and then one of class A
//! more, of 12,336 bits. What is left of the bound is the bit time in which the first frame starts,
//! once for itself and once for each frame's worth of class A's credit.
//!
//! To add one: a test in the file of its crate, with the text that a reader would write by hand,
//! the fates or the wait that the shaper's rules give by hand, or the numbers. What a file shows is
//! better shown by a file: each way to break a rule is one of `examples/rules/`.
#![tactic(auto)]

#[cfg(test)]
mod bounds;
#[cfg(test)]
mod delays;
#[cfg(test)]
mod flow;
#[cfg(test)]
mod frames;
#[cfg(test)]
mod needs;
#[cfg(test)]
mod places;
#[cfg(test)]
mod plans;
#[cfg(test)]
mod refusals;
#[cfg(test)]
mod rules;
#[cfg(test)]
mod scenario;
#[cfg(test)]
mod service;
#[cfg(test)]
mod shaper;
#[cfg(test)]
mod sources;
#[cfg(test)]
mod waits;
#[cfg(test)]
mod windows;
