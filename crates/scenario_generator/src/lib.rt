//! The scenario of a number: a network of bridges and stations, streams, and what happens in it,
//! all drawn from a number of 32 bits, so that each number names one scenario for good.
//!
//! ```text
//! number --> draws     state x -> (x * 1,664,525 + 1,013,904,223) mod 2^32; a draw of m is (x / 65,536) mod m
//!        --> sizes     2 to 8 bridges, 4 to 9 stations, 2 to 16 streams                  draws 0 to 2
//!        --> network   each bridge joined with one before it, each station with a bridge  a draw each
//!        --> streams   talker, octets, rank                                              three draws each
//!        --> events    every station declares VID 2; each stream has its talker          five draws a stream
//!                      and two listeners; twenty losses; then sorted by tick             three draws a loss
//!        --> Scenario
//! ```
//!
//! A draw is named by its place in the order of the draws (`draw number place m` of `specs/Draws`),
//! so the definition of the scenario (`specs/Network`, `specs/Streams`, `specs/Events`) says of
//! each value which draw it is, and not how they are gone through. `IsDrawn` (`specs/Generated`) is
//! all of it. `generate` answers a scenario of which it holds, for every number, or that memory ran
//! out; that the scenario keeps the rules of a file is in its type, and `one_scenario` says that
//! each number has one scenario alone.
//!
//! A further value of an entry takes its draw behind those of the same entry: its place is a line
//! in the definition of the entry and one in its function in `src/`; where an entry has more draws
//! than before, the places of all behind it move, and `most_draws` with them.
#![tactic(auto)]

mod draws;
mod events;
pub mod laws;
mod network;
mod scenario;
mod streams;

pub use scenario::generate;
