//! The run of a group scenario: a network that runs MMRP (IEEE Std 802.1Q-2018, 10.12), tick by
//! tick, and what is printed of it.
//!
//! ```text
//!   a tick      script   the file's events of this tick, in file order, from where the last tick stopped
//!               steps    node by node, as the script left the network: of a busy node
//!                          Work of port 1, of port 2, ..   Due of port 1, ..   Settle ..   and each 20 cs Send ..
//!               carry    link by link, the PDUs of end a and then of end b
//!               clock    the clock goes on by 1 cs
//! ```
//!
//! The definition of a run is the fold of `mmrp`'s step over these events (`after_tick` of
//! `specs/Ticks.antt`), and `run_groups` answers just that, with the answers of the ports' steps in
//! order; it has no condition, and its one failure is want of memory. A tick's steps are a list
//! that is made before the first of them: a step of a port changes its own node alone, so what each
//! node has to do is known when the script has ended. That each event may happen is a law of its
//! own (`laws`). The events of a file don't fall in their ticks, so a place in the list of events
//! (`specs/Cursor.antt`) stands between those of earlier ticks and the others: no tick goes over
//! all of them.
//!
//! `group_text` is what the program prints of a run (`specs/Text.antt`), a line for each fact: that
//! of a group (`specs/Lines.antt`), and those that every report has (`report_words`); what a port
//! sent is counted over the answers of its own steps (`specs/Counts.antt`).
//!
//! A further kind of event is a case of `event_of`, of `step_port` and of `IsAllowed`, with its arm
//! in `src/script.rt`; a further line of a port is a piece of `port_part` with its writer in
//! `src/lines.rt`.
#![tactic(auto)]

pub mod laws;
mod lines;
mod run;
mod script;
mod steps;
mod tally;
mod text;

pub use run::{GroupRun, run_groups};
pub use text::group_text;
