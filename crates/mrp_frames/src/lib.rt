//! The frames of a capture that carry MRPDUs: whose they are, of which application, and the octets
//! of the PDU (IEEE Std 802.1Q-2018, 10.5, 10.8.2.1).
//!
//! ```text
//! Ethernet    0180c2000021 001122334455 88f5 | 00 01020001 ..          destination, source, EtherType | PDU
//!             0180c2000021 001122334455 8100 e002 88f5 | 00 ..         the same with a tag: 8100 or 88a8, and two octets
//! cooked      0002 0001 0006 0011223344550000 88f5 | 00 ..             .., source in eight octets, EtherType | PDU
//! cooked 2    88f5 0000 00000002 00010206 0011223344550000 | 00 ..   EtherType, .., source in eight octets | PDU
//!
//! frame_of   Record { link, octets, .. } -> MrpFrame { address: 001122334455, app: Mvrp, pdu: 00.. }, or None
//! put_frame  the other way: Mvrp, 001122334455, 00.. -> a frame of Ethernet to the group address of MVRP
//! ```
//!
//! `specs/Heads` is the table of the link types: how long a head is, where its EtherType and its
//! source address stand. `specs/Frames` reads a frame by it (`frame_in`), and `specs/Grammar` says
//! which octets are a frame of MRP (`IsFrame`): a head, tags one after another, and the PDU. The
//! law `frames_are_the_grammar` ties the two. What stands behind the PDU's EndMark, as padding, is
//! the codecs' to pass over. `specs/Writing` is the frame in which a PDU is written, and the law
//! `what_is_written_is_seen` says that it is seen as what was written.
//!
//! A further link type of `capture_file` has a line in each table of `specs/Heads`, with its arm in
//! `heads`; a further application of MRP has one in `app_of`, and in `group_of` and `type_of` of
//! `writing` and of `specs/Writing`.
#![tactic(auto)]

mod frame;
mod heads;
pub mod laws;
mod writing;

pub use frame::{MrpFrame, frame_of};
pub use laws::{frames_are_the_grammar, what_is_written_is_seen};
pub use writing::put_frame;
