//! Input files by numbered rules: what a TOML table has at a key, and the first rule that fails.
//!
//! ```text
//! fields   value_at number number_or within truth_or text tables has_only   what a table has at a key
//! rules    RuleErr needs needs_tables holds no_entry fails_at               a rule, and how it fails
//! entries  each_entry each_table each_within each_table_within               a rule on entries, one by one
//!          first_where first_fall
//! shares   read_shares                                                      the shares of class A and B
//! ```
//!
//! A file's definition is a list of rules in the order in which they are checked, each a fact about
//! the table, written with the words of `specs/`. Contracts see a table as its members
//! (`table_view` of the crate `toml`), and each function here answers what the word of the same
//! name says of them. Those of `entries` take a closure for what a rule makes of one entry: where
//! each call of the closure answers what a definition says of an entry (`TestsAs`, `KeysAs`,
//! `ReadsAs`), the whole answers what the word says of all. So a reader of a file is a list of
//! calls:
//!
//! ```text
//! nodes ← each_entry 4 node_entry 1 tables       let nodes = each_table(alloc, 4, tables, read_node)?;
//! _ ← no_entry 6 (first_where has_name_of ..)    no_entry(6, first_where(&nodes, has_name_of))?;
//! ```
//!
//! A new word is a definition in `specs/Rules.antt`, a function in `entries`, and its law in `laws`
//! where the definition says less than the word.
#![tactic(auto)]

mod entries;
mod fields;
pub mod laws;
mod rules;
mod shares;

pub use entries::{
    each_entry, each_table, each_table_within, each_within, first_fall, first_where,
};
pub use fields::{has_only, number, number_or, tables, text, truth_or, value_at, within};
pub use rules::{RuleErr, fails_at, holds, needs, needs_tables, no_entry};
pub use shares::read_shares;
