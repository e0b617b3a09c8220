//! How long frames of a class wait at each port of a network and take on their way: the numbers by
//! code, port by port, which `delay_flow` proves to be enough (this project's own bounds, over the
//! shaper of IEEE Std 802.1Q-2018, 8.6.8.2).
//!
//! ```text
//!   ports by level    q1 ------.
//!                     q2 ------+--> p: what comes there   coming   streams with late and spent before
//!                     station -'       its groups, peak   groups   by bounds
//!                                      wait, spent        fed      of each stream
//!                                        |
//!                                        '--> the ports that p sends to
//! ```
//!
//! - `delays`: `class_delays`, with `PortDelays`, what is reckoned for a port, its `FedStream`s, and
//!   `Unbounded`, why a class has no numbers. `valid`: `have_talkers`, whether the Talkers are nodes.
//! - `places`: the ports with their rates, in order of level: how many nodes lie behind their peers.
//!   What sends into a port's node has a lower level. `order`: the ports one after the other, and
//!   then in the order of the links. `table`: what is found in what is reckoned.
//! - `port`: the numbers of one port. `coming`: the streams that come there and are fed, each by one
//!   port of the node or from the station itself. `groups`, `bounds`: what they bring, and its peak.
//!   `fed`: the numbers of each stream. `force`: what is in force at the run's end.
//!
//! The contract says nothing of an order: the numbers that are found in the answer keep the rules of
//! each port (`KeepRules` of delay_flow), which fix them to the last rounding, and both further
//! bounds count at each port (`numbers_of` of `specs/Table.antt`). Levels and what comes to a port
//! (`specs/Reckoned.antt`, `specs/Order.antt`) are the code's own.
//!
//! The rules fix the numbers (`laws::the_rules_fix_the_numbers`). Where a class has none, the answer
//! says at which port: its slope there is none or less than those of the groups, which isn't so
//! where it covers the streams that are fed there (`laws::covered_slopes_are_not_steep`); or a number
//! there is larger than its type holds, reckoned from those of the ports before. A class that has
//! bounds (`HasBounds` of `specs/Causes.antt`) gets its numbers.
//!
//! What the bound by the credit of the port that sends (`class_bound`) asks of that port is that the
//! slopes of both classes there are below its rate together. `class_delays` asks for it as part of
//! its setting (`slopes` of `IsSetting` in frame_flow), and a run has it from its caps: the booked
//! slopes of a port stay within the cap of both classes (`bookings_are_within_caps` of port_ledger;
//! IEEE Std 802.1Q-2018, 34.3), which is at most 90 percent of the rate.
//!
//! A port's work grows with its streams, and by their square where each is looked up at the port
//! before: with 128 streams and 126 ports a run's numbers take some million steps.
//!
//! To extend it: a further bound of what comes by a port is one more entry of `further_of` in
//! `specs/Table.antt`, of `further` in `groups`, and a case of `IsFurther` in delay_flow; another
//! number of a stream is a field of `FedStream`, with its function in `numbers_of`.
#![tactic(auto)]

mod bounds;
mod coming;
mod delays;
mod fed;
mod force;
mod groups;
pub mod laws;
mod order;
mod places;
mod port;
mod setting;
mod table;
mod valid;

pub use delays::{FedStream, PortDelays, Unbounded, class_delays};
pub use table::{delays_at, stream_in};
pub use valid::have_talkers;
