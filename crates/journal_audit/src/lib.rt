//! The audit of a journal: whether a text is the journal of a run of a scenario, by somebody who
//! trusts neither the maker of the text nor the order in which a schedule makes the steps of a
//! tick.
//!
//! ```text
//!   text      0 event 1 done               the lines behind the line `journal`, counted from 1
//!             0 s1>s2 send mvrp sent 12
//!   replay    tick by tick the run is made again, each step by the port that the next line names, and each line is compared with
//!             the one that is printed of this event or step
//!   verdict   Legal(run)                   all lines are read, and no tick is left
//!             No { line, why: 2 }          a line isn't of the form, or its tick is below that of the line before
//!             No { line, why: 3 }          no legal journal agrees with the line
//! ```
//!
//! Which lines may follow at a place of a run is a set: from the beginning of a tick, from the turn
//! of a node, from what its ports have left of their jobs (`specs/Follow.antt`). Reading a line
//! leads from one place to another, so that what may follow there is just what may follow here
//! behind the line (`HasRead` of `specs/Reading.antt`); and where the next line begins no list that
//! may follow, the reading is stuck (`IsStuck`). No number is read for this: the ports of a node
//! whose turn it is begin their lines differently, and the network tells the rest of the line.
//!
//! Where the reading is stuck it has asked for a line that may follow there and isn't the next, or
//! nothing may follow (`wanted` of `specs/Reading.antt`). So `examine` tells, beside the verdict,
//! what a legal run has at the line with which no legal journal agrees (`TellsLegal` of
//! `specs/Audit.antt`); `audit` is its verdict alone.
//!
//! The contract of `audit` is `IsVerdict` of `specs/Audit.antt`. A run that is answered is legal by
//! world_core's words alone, its journal is the text, and its timeline is that of its ticks; and a
//! text that is the journal of legal ticks is never refused. A journal agrees with a text for so
//! many lines where legal ticks exist whose lines begin with as many of the text's lines: so 'the
//! first line with which no legal journal agrees' and 'the one past the last' are one case. Law
//! `one_text_has_one_journal`: legal journals of one scenario with one text are one.
//!
//! The form of a line (`specs/Form.antt`) is judged only where the replay has stopped, over the
//! whole text. The lines of a legal journal are of it (law `a_legal_journal_is_of_the_form`), so a
//! text with a line that isn't never passes: each of both whys is answered exactly where its cause
//! is (law `each_why_has_its_line`).
//!
//! A further kind of step or answer is a word in `specs/Form.antt` with its test in `src/form.rt`
//! and its case in `proofs/ReplyLemmas.antt` and `proofs/FormedLemmas.antt`, beside its case in
//! journal_lines.
#![tactic(auto)]

mod form;
pub mod laws;
mod left;
mod reading;
mod replay;
mod steps;
mod texts;
mod verdict;

pub use texts::{before, first_line};
pub use verdict::{Finding, Verdict, audit, examine};
