//! The delays of a scenario's streams in a run: what its Talkers may send, whether they did, whether
//! the run is steady, and the bounds of each class (this project's own; over IEEE Std 802.1Q-2018,
//! 34.4, 35.2.2.8.4 and 8.6.8.2).
//!
//! ```text
//!   a scenario: streams ----> streams_in A, streams_in B     most, burst, slope, least of each
//!               frames  ----> answers_of                     conforms: yes, no, none
//!   a run: timeline    -----> is_steady                      no frame before the last change of bookings
//!                      -----> class_delays of each class     late, wait and spent at each port
//!                                  |
//!                                  v
//!                             delay_facts  --- laws --->     frames_go_in_time, over the run's flow
//! ```
//!
//! - `streams`: the streams of a class as `class_delays` takes them.
//! - `conform`: whether a stream's frames conform, in order of moment, then number.
//! - `answers`: what is said of each stream of class A or B.
//! - `steady`: whether a run is steady.
//! - `facts`: `DelayFacts`, all that is known before it is printed, and `delay_facts`.
//! - `laws`: that what is known holds of the run's flow.
//!
//! To extend it: what else is known of a stream is a field of `StreamAnswer` with a line of
//! `IsAnswer`; what else of a run, one of `DelayFacts` with a line of `AreFacts`.
#![tactic(auto)]

mod answers;
mod conform;
mod facts;
pub mod laws;
mod steady;
mod streams;

pub use answers::{StreamAnswer, answers_of};
pub use conform::{conformity, is_of_stream};
pub use facts::{ClassBounds, DelayFacts, delay_facts};
pub use steady::is_steady;
pub use streams::streams_in;
