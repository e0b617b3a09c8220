//! The MAC addresses that MRPDUs of MMRP carry (IEEE Std 802.1Q-2018, 10.12.1).
//!
//! ```text
//! 00 | 0206 | 0001 01005e000001 6c | 0000 | 0000
//!
//! decode  octets -> GroupPdu { leave_all: false, events: [JoinMt of 01-00-5e-00-00-01] },
//!                   or Malformed at an offset, or NoMemory
//! encode  the octets again: each MAC address is a vector of one
//! ```
//!
//! An MRPDU has LeaveAll where any vector of either type has it. Its events are those of the
//! vectors of MAC addresses in the order of the octets; the values of a vector are consecutive
//! addresses, counted up as one number of 48 bits. A vector that counts past 48 bits is malformed
//! at its FirstValue. Values of the service requirement type are read, and give no event.
//!
//! `specs/Meaning` says what a PDU of `mrpdu_codec` means here (`meaning`), and what octets say:
//! `SaysMmrp` joins them through the grammar, and `mmrp_reading` is the same as a function, as the
//! law `reading_is_the_grammar` says. `decode` is that reading. `specs/Writing` has the one
//! spelling; what `encode` writes reads as what was written, in at most 1,500 octets.
//!
//! Another type of value begins in `mac_vectors` and `pdu_for` of the definitions, with
//! `push_message` and `written` beside them.
#![tactic(auto)]

pub mod laws;
mod pdu;
mod reading;
mod writing;

pub use mrpdu_codec::DecodeErr;
pub use pdu::GroupPdu;
pub use reading::decode;
pub use writing::encode;
