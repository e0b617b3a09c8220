//! What an audit's answer says, in words: the line at which it is no, what stands there, and what a
//! legal run has there.
//!
//! ```text
//!   why 1    the slip by which an input lacks its cut or its line `journal`, with its cure (Slip)
//!   why 2    line 17 of the input, line 5 behind the cut: why 2, ..
//!            stands: 0 s1>s2 sends mvrp sent 12
//!            form: ..                               what the form of a journal's lines is
//!   why 3    stands: ..                             what no legal run has
//!            legal: 0 s1>s2 send mvrp sent 14       what one has
//!   why 4    stands: ..                             what the report of the journal's run hasn't
//!            legal: ..                              what it has
//! ```
//!
//! `slip_of` tells the slip by the octets alone, `line_at` finds a line. Each text
//! is a definition of `specs/Words.antt` that its function has as its contract: which line is wrong
//! and why, and which line is legal there, is for the audit to say. A line is shown in one line
//! whatever its octets, and no more of it than the first 200.
//!
//! A further slip is a variant of `Slip` with its place in `slip_of` and its sentence in
//! `slip_words`; a further why is a text beside the others.
#![tactic(auto)]

mod lines;
mod shown;
mod slips;
mod words;

pub use lines::line_at;
pub use slips::{Slip, slip_of, slip_words};
pub use words::{differing_text, illegal_text, unformed_text};
