//! MRPDUs in words: a text of captured PDUs, in lines or in hex dumps, or a capture file, to what
//! each PDU says, one event a line.
//!
//! ```text
//! decoded_text     00:01:02:20:01:00:05:6c:00:00:00:00      -->  line 1 leaveall yes
//!                                                                joinmt vid 5
//!                  # a remark, which says nothing as an empty line does
//!                  000102 0006 0001 d7                      -->  line 3 malformed 8
//!                  000102 0                                 -->  line 4 no octets
//!                  0x0000:  0001 0220 0100                  -->  line 5 leaveall yes
//!                  0x0006:  056c 0000 0000                       joinmt vid 5
//! captured_text    a file of pcap or pcapng                 -->  frame 1 at 1.000000000 020000000001 mvrp leaveall yes
//!                                                                joinmt vid 5
//!                                                                frame 2 at 1.200000000 020000000001 msrp cut 96 of 142
//!                                                                frames 2 other 0
//! ```
//!
//! Blanks, tabs, colons, hyphens and a carriage return may stand between octets, but not within one
//! (`specs/Capture`). Lines with offsets are a hex dump, and one PDU; of a dump of a whole frame it is
//! what stands behind the EtherType (`specs/Dump`). A file that is no text of octets has one line
//! that says so (`specs/TextFile`). What octets say is the reading of mvrp_codec, msrp_codec or
//! mmrp_codec and nothing else (`specs/Decoded`): the laws of those crates join it with the grammar.
//! `specs/Events` has each printed line once. `decoded_text` has what is said of a whole text as its
//! contract, and `captured_text` that of a whole capture file, by the readings of capture_file and
//! mrp_frames (`specs/Captured`): behind where a PDU was found both say the very same of it, as the
//! laws `a_frame_says_what_its_line_says` and `a_dump_says_what_its_frame_says` have it.
//!
//! Who prints these words in lines of its own, as a replay of a link does, calls `app_name` and the
//! writers of keys, contents, and of what is malformed, cut or breaks off.
//!
//! A further application is a case of `octets_said` with its lines in `specs/Events` and its writer
//! beside `vlans`, `streams` and `groups`; a further kind of attribute of MSRP is a case of
//! `key_text` and `content_text`, with its arm in `streams`.
#![tactic(auto)]

mod capture;
mod dump;
mod frames;
mod groups;
pub mod laws;
mod streams;
mod text;
mod text_file;
mod vlans;
mod words;

pub use frames::{captured_text, write_broken, write_cut};
pub use laws::{a_dump_says_what_its_frame_says, a_frame_says_what_its_line_says};
pub use streams::{write_stream_content, write_stream_key};
pub use text::decoded_text;
pub use words::{app_name, write_malformed};
