//! MRPDUs: the octets in which MRP participants tell each other their attributes (IEEE Std
//! 802.1Q-2018, 10.8), for the applications MVRP (clause 11), MSRP (clause 35) and MMRP (10.12).
//!
//! ```text
//! 00        ProtocolVersion
//! 0102      a Message: AttributeType, AttributeLength
//! 2001      a vector's header: LeaveAllEvent 1, NumberOfValues 1
//! 0005      FirstValue
//! 6c        ThreePackedEvents: JoinMt, and two places that are ignored
//! 0000      the EndMark of the Message
//! 0000      the EndMark of the PDU
//!
//! decode           octets -> Pdu { version, messages: [Message { kind, vectors: [VectorAttr { .. }] }] },
//!                            or Malformed at an offset, or NoMemory
//! decode_in_place  octets -> RawPdu, the same with each vector's fields borrowed from the octets
//! encode           a Pdu that is well_formed -> its one canonical spelling, of size_of octets
//! put_vector       a vector's parts -> its octets, behind what a buffer has
//! number_in        octets, the high one first -> their number; put_number the other way
//! ```
//!
//! The grammar stands in `specs/`: `Types` is the table of attribute types, `Tree` the syntax tree
//! of a PDU with the rules of its fields, its spelling and its meaning, and `Grammar` says which
//! octets spell which PDU (`Spells`) and where others break (`Breaks`). `decode` answers the PDU
//! that the octets spell, or the place where they break, and `one_reading` is the law that all
//! octets have exactly one of the two. `Reading` is the same as a function, which
//! `reading_is_the_grammar` ties to the grammar. `Raw` says what a PDU says that was read in place.
//! `Canonical` has the spelling in which a PDU is written; that it spells the PDU is the law
//! `written_is_read`, and how long it is the law `written_size`. `Shape` says what each PDU that
//! was read looks like, and whether it has LeaveAll. `Places` says where the FirstValues stand, for
//! crates that find one of them at fault: `first_value_at` answers the offset of one, and
//! `first_values_have_places` is its law. That the FirstValues in a list of octets are octets is
//! the law `first_values_are_octets`. `ReadErr` has the words of the private readers.
//!
//! The code reads in one pass: a reader answers a value and the octets after it, or how many octets
//! are left from the first field on that breaks (`fields` a vector's fields, `vectors` lists of
//! vectors, `messages` Messages, `decoding` the PDU and the place). One chain of them reads known
//! and unknown types, by the row of the table that a type has or hasn't; vectors of unknown types
//! are passed over without memory. `raw` makes a PDU of what was read in place.
//!
//! A crate for an application's values stands on `decode_in_place` and `has_form`, and on
//! `put_vector` with the law `written_is_read`, as `mvrp_codec` does. A new attribute type is a row
//! in `form` and in `specs/Types`; a new application is a variant of `AppForm`, its rows there, and
//! an arm wherever the form of a Message's list goes by the application: `list_length_for`,
//! `fixed_size`, `list_fits` of `specs/Canonical`, `IsBody` of `specs/Tree`, `BodyBreaks` of
//! `specs/Grammar`, `body_at` of `specs/Reading`, and the functions that mirror them.
#![tactic(auto)]

mod decoding;
mod encoding;
mod error;
mod fields;
mod form;
pub mod laws;
mod messages;
mod numbers;
mod pdu;
mod places;
mod raw;
mod vectors;
mod writable;

pub use decoding::{decode, decode_in_place};
pub use encoding::{encode, put_vector};
pub use error::DecodeErr;
pub use form::{AppForm, TypeForm};
pub use laws::{
    first_values_are_octets, numbers_are_read_back, one_reading, reading_is_the_grammar,
    written_is_read, written_list_size, written_size,
};
pub use numbers::{are_octets, number_in, put_number};
pub use pdu::{Message, Pdu, VectorAttr};
pub use places::{first_value_at, first_values_have_places};
pub use raw::{RawMessage, RawPdu, RawVector, events_in};
pub use writable::{size_of, well_formed};
