//! What a port declares of a Talker that is registered at another port (IEEE Std 802.1Q-2018,
//! 35.2.4.3).
//!
//! ```text
//! Absent                  ------------------------------------>  Absent
//! Failed, with why        ---- + the port's latency ---------->  Failed, with the same why
//! Advertise               ---- + the port's latency --+------->  Advertise
//!                                                     |
//!            code 13 or 14 of check, else 8 where the |
//!            port is a boundary, else the code of the |
//!            ledger's fit where it's TooLittle        +------->  Failed, with this bridge and the code
//! ```
//!
//! `talker_out` is one of these cases, and `specs/TalkerOut.antt` has them as they stand here. The
//! laws say what a path of ports may rely on: a Talker is advertised onwards exactly where it is
//! advertised, `check` finds nothing, the port is no boundary of the Talker's SRP domain and it
//! fits; a failure once declared is carried on unchanged; a new one names this bridge; and nothing
//! but the latency changes of what the Talker states.
//!
//! To extend it: one more reason to refuse is one more `option_or` in `refusal_of`, in the order of
//! checking, and one more `or` in `refusal`, as the boundary's code 8 is.
#![tactic(auto)]

mod class;
pub mod laws;
mod port_config;

pub use class::{check, class_of};
pub use port_config::{PortConfig, talker_out};
