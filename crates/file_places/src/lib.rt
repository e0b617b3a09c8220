//! Where a file is at fault: the line and the column at which it isn't TOML, and the line in which
//! an entry begins that breaks a rule.
//!
//! ```text
//!   octets --> UTF-8? --> toml's reader --> an error's span --> there: line 12 column 8: ..
//!                |
//!                +------> the first octet that isn't -------> there: line 1 column 8: ..     toml_place
//!
//!   octets, "node", 3 --> the first line, from the third   --> line: 9                      line_of_entry
//!                         header [[node]] on, or else from
//!                         the third { behind `node = [`,
//!                         such that the lines up to it are
//!                         a document with 3 tables `node`,
//!                         and those before it one with 2
//!
//!   octets, "ticks"   --> the first line with ticks =, or  --> line: 2                      line_of_key
//!                         else with the header of a table,
//!                         [ticks], such that the lines up
//!                         to it are a document with the key,
//!                         and those before it aren't
//! ```
//!
//! A place's line is one more than there are line feeds before it, and its column one more than
//! there are characters since the last of them, without the byte order mark (`specs/Places.antt`).
//! Of octets that are UTF-8 it is the start of the span of the reader's error; that the span lies in
//! the octets is a clause of the reader, and what the words of its message say is not. They have no
//! octet below 32, so that they stay on one line. Of other octets it is the end of the longest front
//! that is UTF-8.
//!
//! The line of an entry is that of its header, or where the array is written inline its own
//! (`specs/Lines.antt`), where the lines up to it are a document in which the array has so many
//! entries, and those before it one in which it has one entry less (`specs/Entries.antt`). A line that
//! only looks like one, as in a text of several lines, isn't taken for it: such lines make the number
//! of the true one higher, and so lines are tried one after the other from the entry's number on, 16
//! of each kind at most, since each costs up to four documents. Lines that end within an array are a
//! document with the bracket that closes it. So it is with the line of a key of the file, from the
//! first line of the kind on. A name stands bare or between quotes of either kind, an entry that is
//! written inline may stand behind a comma, and in front of the first line there may be a byte order
//! mark, which toml's reader passes over. No line is told of the second of several entries that stand
//! in one line, of an entry that is written inline and whose table goes on over several lines, nor of
//! a name that is written with an escape (`"n\u006fde"`).
//!
//! A further word of a place is a field of `Place` with a line of `IsPlaceOf`, and a piece of
//! `place_line`. A further spelling of a line is a variant of `LineKind` with its case in
//! `begins_with`, and a further spelling of a name an alternative of `behind_name`.
#![tactic(auto)]

mod entries;
mod lines;
mod pieces;
mod place;

pub use entries::{line_of_entry, line_of_key, put_line};
pub use place::{Place, Spot, put_place, toml_place};
