//! What is printed of a run's delays.
//!
//! ```text
//!   steady yes                                    the run is steady
//!   hop desk>switch 02..01 A wait 12337 late 10000      each port, each stream that is fed there: bit times, ps
//!   hop switch>speaker 02..01 A wait 24675 late 123390000
//!   conforms 02..01 yes                           each stream, in the order of the file
//!   delay 02..01 speaker hops 2 within 389660 seen 20500 frames 3    each station that listens: ns
//!   quiet yes                                     nothing is pending
//! ```
//!
//! `delays_text` (`specs/Text.antt`) is the text as a function of the scenario, what is known of the
//! run's delays (`DelayFacts` of scenario_delays), the network at the run's end, which knows who
//! listens, and the flow of the frames, which knows how long they took (`specs/Seen.antt`). The
//! lines are those of `specs/Lines.antt`.
//!
//! To extend it: a further line is a definition in `specs/Lines.antt` with its writer in
//! `lines.rt`, and a piece of `delays_text`.
#![tactic(auto)]

mod hops;
pub mod laws;
mod lines;
mod listeners;
mod run;
mod seen;
mod text;

pub use text::delays_text;
