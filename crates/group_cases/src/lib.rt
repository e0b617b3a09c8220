//! Worked cases of groups: PDUs of MMRP written and read (`mmrp_codec`), the file of groups and its
//! rules (`group_file`), a network event by event (`mmrp`), and a run with what is printed of it
//! (`group_run`). The crate has tests alone, called as a user calls, since a crate with tests
//! beside its code is proved once more with them.
//!
//! To add one: a test in the module of its crate; a whole run is better shown by a file of
//! `examples/` with the command `groups`.
#![tactic(auto)]

#[cfg(test)]
mod net;
#[cfg(test)]
mod pdus;
#[cfg(test)]
mod runs;
