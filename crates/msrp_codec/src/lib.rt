//! The declarations that MRPDUs of MSRP carry: of Talkers, Listeners and Domains (IEEE Std
//! 802.1Q-2018, 35.2.2).
//!
//! ```text
//! 00 | 03 | 08 | 000e | 0001 0200000000010001 6c 80 | 0000 | 0000
//!
//! decode  octets -> MsrpPdu { leave_all: false, events: [(JoinMt, Listener 0200000000010001, Ready)] },
//!                   or Malformed at an offset, or NoMemory
//! encode  the octets again: each event is a vector of its own, in the Message of its type
//! ```
//!
//! An MRPDU has LeaveAll where any vector of a known type has it. Its events are those of the
//! vectors in the order of the octets, each with the key that it is of and what it declares. The
//! values of a vector count up from FirstValue: through the whole StreamID and the whole
//! destination address, with carry, and through the SRclassID and the SRclassPriority of a Domain.
//! A Listener's Ignore gives no event. A value past the end of a field that is counted up makes the
//! PDU malformed, at the place of that FirstValue.
//!
//! `specs/FirstValue` has each field of a value once, in its order: as it is read, and as it is
//! written. `specs/Meaning` says what a PDU of `mrpdu_codec` means here (`meaning`), and what
//! octets say: `SaysMsrp` and `MsrpBreaks` join them through the grammar, and `msrp_reading` is the
//! same as a function. `decode` is that reading. `specs/Content` says which contents belong to
//! which key and how many octets are stated of each, and `specs/Writing` has the one spelling. What
//! `encode` writes takes at most 1,500 octets, and reads as the same LeaveAll and the same events
//! in the order of types (`in_type_order`), by which no key loses its event. What octets say fits
//! in their fields, whoever wrote them, which is the law `what_is_read_is_in_range`. The words of
//! private calls stand in `specs/InPlace` and `specs/Counts`.
//!
//! To carry another attribute type: a row of `mrpdu_codec`'s table; a variant of `AttributeType`,
//! of the FirstValue, of `MsrpKey` and of `MsrpContent`; its fields in `specs/FirstValue`, its
//! events in `specs/Meaning`, and its octets in `specs/Content`.
#![tactic(auto)]

mod attribute_type;
mod counts;
mod first_value;
mod fitting;
pub mod laws;
mod pdu;
mod reading;
mod writing;

pub use attribute_type::AttributeType;
pub use mrpdu_codec::DecodeErr;
pub use pdu::{MsrpContent, MsrpKey, MsrpPdu, base_octets, row_octets};
pub use reading::decode;
pub use writing::encode;
