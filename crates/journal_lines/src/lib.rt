//! The lines of a run's journal: what is printed of one event and of one step.
//!
//! ```text
//!   0 event 1 done                               in tick 0: an event of the file, by its number
//!   0 s1>s2 send mvrp sent 12                    a step, with its port and its answer
//!   ^ ^     ^         ^
//!   | port  step      answer
//!   tick
//! ```
//!
//! Each line is a definition (`specs/Lines.antt`) and a function that puts it at the end of a text.
//! A port is printed by the names of its node and of its peer's, as in every report
//! (`report_words`). Names have neither a space nor `>` in them, and two nodes have two names, so
//! that a line says at its beginning of which port it is (law `a_line_tells_its_port`): who prints
//! a journal and who reads one rest on the same words.
//!
//! A further step or answer is a case of `step_name` or `reply_name` with its arm in `lines.rt`.
#![tactic(auto)]

pub mod laws;
mod lines;

pub use lines::{put_event, put_place, put_step};
