//! The VLAN identifiers that MRPDUs of MVRP carry (IEEE Std 802.1Q-2018, 11.2.3.1).
//!
//! ```text
//! 000102 | 200100056c | 000200097e | 00000000
//!
//! decode  octets -> MvrpPdu { leave_all: true, events: [JoinMt of 5, JoinMt of 9, JoinMt of 10] },
//!                   or Malformed at an offset, or NoMemory
//! encode  the octets again: each maximal streak of consecutive VIDs is one vector
//! ```
//!
//! An MRPDU has LeaveAll where any vector of a known type has it. Its events are those of the
//! vectors in the order of the octets; the values of a vector are consecutive VIDs, and VIDs
//! outside 1 to 4,094 give none.
//!
//! `specs/Meaning` says what a PDU of `mrpdu_codec` means here (`meaning`), and what octets say:
//! `SaysMvrp` joins them through the grammar, and `mvrp_reading` is the same as a function, as the
//! law `reading_is_the_grammar` says. `decode` is that reading. `specs/Writing` has the one
//! spelling, and what its streaks are is the law `streaks_are_maximal`; what `encode` writes reads
//! as what was written, in at most 1,500 octets.
//!
//! Neither makes a PDU of `mrpdu_codec` on the way: `decode` takes the events from the octets in
//! place, and `encode` writes each streak into one buffer. Another value in an event, or another
//! rule on which VIDs count, begins in `event_at` and `streak_vector` of the definitions, with
//! `push_event` and `first_of` beside them.
#![tactic(auto)]

pub mod laws;
mod pdu;
mod reading;
mod writing;

pub use laws::{
    reading_is_the_grammar, streaks_are_maximal, what_is_read_has_vids, what_is_written_is_read,
};
pub use mrpdu_codec::DecodeErr;
pub use pdu::MvrpPdu;
pub use reading::decode;
pub use writing::encode;
