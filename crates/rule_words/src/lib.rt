//! Why a file is refused, in words: what the first rule that fails asks, and what stands at its
//! place; and where octets aren't TOML.
//!
//! ```text
//!   a plan's or another file's kind, rule 16,     -->   rule 16 entry 2
//!   entry 2, its table and its octets                   asks: each stream has its form: known keys alone, ..
//!                                                       entry: [[stream]] 2 "voice"
//!                                                       line: 26
//!                                                       key: id has to be a text of 16 hexadecimal digits
//!                                                       there: id = "02:00:00:00:00:01:00:01"
//!                                                       other: ..
//! ```
//!
//! `kinds` has the four kinds of files, which share rules 1 to 15. `keys` has the keys of all of
//! them: the word of each, the form that its value has to have (`forms`, `names`), and whether it
//! has a default. `tables` has which keys a table may have, `faults` the first that it may not have,
//! and the first whose value isn't right. `asked` has what each rule asks; `matters` which form a
//! rule asks of its table, or at which keys the values break it. `others` has the other side: the
//! earlier entry that is like it (`alike`), the links that join two nodes already (`joined`), what is
//! named and isn't there, or stands twice (`named`, `events`, `listeners`), the ticks beside which a
//! moment doesn't stand (`moments`), the entries that have a key of the file, of any array of tables
//! that the file has (`misplaced`); `search` goes through the entries of an array. `lines` and
//! `numbered` have lines that several of them put; a line in which another entry begins says of which
//! it is: `line: 12 of [[link]] 1`.
//! `refusal_text` has the whole text as its contract: which rule fails, and at which entry, is for
//! the readers of the files to say. The line in which an entry begins, and the place at which octets
//! aren't TOML, are those of `file_places`.
//!
//! A further key is a variant of `Key` with its word, its form and, where it has a default, its
//! place in `is_needed`, and stands in the lists of the tables that may have it. A further rule has
//! its words in `asked` and its line in `matters`, and where it has another side its line in
//! `others_at` (`specs/Others.antt`) and in `put_others_at`.
#![tactic(auto)]

mod alike;
mod asked;
mod events;
mod faults;
mod forms;
mod joined;
mod keys;
mod kinds;
mod lines;
mod listeners;
mod matters;
mod misplaced;
mod moments;
mod named;
mod names;
mod not_toml;
mod numbered;
mod others;
mod pieces;
mod refusal;
mod search;
mod tables;
mod values;

pub use asked::what_rule_asks;
pub use kinds::FileKind;
pub use not_toml::not_toml_text;
pub use refusal::refusal_text;
