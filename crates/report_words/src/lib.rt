//! The words that all reports share: names of nodes and ports, the order of ports, what a port sent
//! and discarded, and the lines with which a report of any run begins and ends.
//!
//! ```text
//!   ticks 1062                               Lines    how long the run is
//!   port s1>s2 sent 5 octets 60 discarded 0  Lines    each port, in the order of Ports, by Names, with its Tally
//!   .. s1>s2 .. IN                           Words    a Registrar's state, an SR class, yes or no
//!   quiet yes                                Lines    how the network is at the end
//!   in step yes
//! ```
//!
//! Each word and line is a definition (a file of `specs/` of that name) and a function that puts it
//! at the end of a text, whose contract says that the text is the one before with the word behind
//! it. After want of memory the text may have a part of it. `Number` goes the other way: the number
//! that a word of a command line or of a journal writes.
//!
//! The crate knows a network by its tree and the names of its nodes alone: what runs there, what a
//! port answers, and which of its answers say that a PDU was sent or discarded, is known by the
//! crates above. So a report of streams, one of groups, a journal and the margins of ports stand on
//! the same words. A line that only one of them has stands there.
//!
//! A further word that two reports share is a definition in `specs/Words.antt` with its function in
//! `src/words.rt`; a further line is one in `specs/Lines.antt` with its writer in `src/lines.rt`; a
//! further count is a field of `Tally` with a line of `tally_by`, of `zero_tally` and of
//! `with_tally`.
#![tactic(auto)]

mod lines;
mod names;
mod number;
mod ports;
mod tally;
mod text;
mod words;

pub use lines::{put_end, put_tally, put_ticks};
pub use names::{node_name, port_name, put_port_name};
pub use number::number_of_word;
pub use ports::ports_of_links;
pub use tally::Tally;
pub use text::{put, put_number, put_octets};
pub use words::{class_name, state_name, yes_or_no};
