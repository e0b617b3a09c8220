//! A scenario as the file that it is read of: each key by its name, whether or not its value is the
//! default.
//!
//! ```text
//!   ticks = 4000                 the scenario's own keys                                  Text
//!   leave_time = 60
//!   periodic = false
//!   domains = false
//!
//!   [[node]]                     a table for each node, link, stream, event and frame, in the order of their numbers
//!   name = "b1"                  a line a key: a number, a text, or a truth value          Lines
//!   kind = "bridge"
//!   id = "0000000000000001"
//! ```
//!
//! Entries name nodes and streams by their names. The text of each entry is a definition of
//! `specs/Text.antt`, and `file_text` has the whole text as its contract. A name needs no escape
//! between quotes: its characters are a to z, 0 to 9, `-` and `_`.
//!
//! A further key is a line in the definition of its table and one in its function in `src/`; a
//! further kind of event is a case of `happening` with its lines in `src/events.rt`.
#![tactic(auto)]

mod entries;
mod events;
mod lines;
mod text;

pub use text::file_text;
