//! What a network needs so that nothing that is wished is refused for want of bandwidth, by sums
//! over its tree: no run is made (IEEE Std 802.1Q-2018, 34.3, 34.4, 35.2.4.3).
//!
//! ```text
//!   needs b>c A 92672000 of 75000000 A+B 92672000 of 75000000 delta_a none delta_b none rate 1000
//!   never voice code 8 at c>s4
//!
//!   wishes: a stream, a station
//!      |  behind which ports, and no boundary before      what a stream wants there
//!      v                                                         v
//!   demands of streams ---- at a port: wants_at --> sums of class A, of both --> is_enough
//! ```
//!
//! `needs_text` (`specs/Needs.antt`) is the text as a function of the scenario and the wishes. A
//! stream leaves by a port where a station that wishes it lies behind the port and its talker
//! doesn't, and counts there once with its slope. A wish that some boundary of its class's SRP
//! domain stands before is in no sum, since no port books for it; nor is a stream that every port
//! refuses. The domains are those of the nodes' words, as every port knows them in a run at rest
//! without losses and forgeries.
//!
//! - `demand`: `Wish`; which ports a wish asks, and what the streams want of them.
//! - `domains`: which ports are boundaries.
//! - `shares`: the sums, whether caps suffice, and the least shares and rate that do.
//! - `lines`, `ports`, `never`, `text`: the lines and the whole text.
//! - `laws`: the shares and the rate are the least that suffice; there is no line exactly where
//!   every port is large enough and every wish may be served; a stream leaves exactly by the ports
//!   of its way, and counts at a port exactly where some wish asks for it there; a ledger of a port
//!   that is large enough books all that is wished there, and a port whose ledger has booked all of
//!   it is large enough.
//!
//! A further number of a port is a piece of `short_line` in `specs/Needs.antt` with its words in
//! `specs/Lines.antt` and its writer in `src/lines.rt`. A further reason for which no link helps is
//! a case of `never_by`, and keeps its wishes out of `served_of` or its stream out of
//! `class_of_entry`.
#![tactic(auto)]

mod demand;
mod domains;
pub mod laws;
mod lines;
mod never;
mod ports;
mod shares;
mod text;

pub use demand::Wish;
pub use shares::Shares;
pub use text::needs_text;
