//! Capture files: the frames of a link as tcpdump and Wireshark save them, in the forms pcap
//! (draft-ietf-opsawg-pcap) and pcapng (draft-ietf-opsawg-pcapng), in either byte order.
//!
//! ```text
//! pcap     d4c3b2a1 02000400 .. 01000000    the head: magic, versions, .., link type in the last of 24 octets
//!          SSSSSSSS FFFFFFFF 3c000000 3c000000 ..    a record: seconds, fraction, captured and original length, octets
//! pcapng   0a0d0d0a 1c000000 4d3c2b1a .. 1c000000    a section: type, length, byte-order magic, .., length
//!          01000000 14000000 0100 .. 14000000        an interface: .., link type, .., options, ..
//!          06000000 5c000000 .. 5c000000             a frame: .., interface, moment, lengths, octets, ..
//!
//! read_capture   octets -> Capture { records: [Record { link, at_ns, whole, octets }], broken: None or a place },
//!                          or NotCapture, or OtherLink(number), or NoMemory
//! put_head, put_record   the other way: a head, and records one after another, as pcap in ns
//! ```
//!
//! The grammar stands in `specs/`. A piece, which is a record of pcap or a block of pcapng, is its
//! text (`Pieces`): its rules and its meaning speak of numbers at offsets in it (`Fields`), in the
//! setting that the pieces before it leave (`Settings`: byte order, interfaces, clocks). So the
//! byte order and the resolution are parameters of one grammar. `Options` are those of an
//! interface. `Grammar` says which octets spell a capture of which frames (`Spells`), at which
//! place others break off and behind which frames (`BreaksAt`), and which have an interface whose
//! frames aren't read (`HasOtherLink`); all octets have exactly one outcome by the law
//! `one_reading`. `Reading` is the same as a function, which the law `reading_is_the_grammar` ties
//! to the grammar. `Packets` says what a capture says that was read in place. `moments_are_exact`
//! and `other_options_are_passed_over` are laws of clocks and options. `Writing` is the form in
//! which captures are written; what is written of frames is read as them, whole and with their
//! moments, by the law `what_is_written_is_read`.
//!
//! The code reads in one pass (`reading`): how many octets the next piece takes, and what it says
//! (`pieces`), which changes the setting or is one more record. The records' octets are borrowed
//! from the file's. `writing` has the two calls that write. A further kind of block is a case of
//! `block_meant` with its function in `pieces`; a further link type is a variant of `LinkType`,
//! with a line in `link_numbered` of `setting` and of `specs/Settings`, and in `number_of` of
//! `writing` and of `specs/Writing`.
#![tactic(auto)]

mod capture;
mod error;
pub mod laws;
mod numbers;
mod options;
mod pieces;
mod reading;
mod said;
mod setting;
mod writing;

pub use capture::{Capture, Record};
pub use error::CaptureErr;
pub use laws::{
    moments_are_exact, one_reading, other_options_are_passed_over, reading_is_the_grammar,
    what_is_written_is_read,
};
pub use reading::read_capture;
pub use setting::{ByteOrder, FileForm, Interface, LinkType, Magic, Setting};
pub use writing::{put_head, put_record};
