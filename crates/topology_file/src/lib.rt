//! The scenario of a TOML file: a network, its times, and what happens in it.
//!
//! ```text
//! table --> nodes      each with its form, few, of different names and ids     rules 1 to 7
//!       --> links      each with its form, between nodes                       rules 8, 9
//!       --> tree       of the nodes and links, each with at most 16 links      rules 10 to 15
//!       --> streams    each with its form, of different names and ids          rules 16 to 19
//!       --> events     each with its form, in order, of known names            rules 20 to 22
//!       --> frames     each with its form, of known streams and stations       rules 23, 24
//!       --> Scenario, or RuleErr::Rule { rule, entry }
//! ```
//!
//! The definition `scenario_of` is the list of the rules in the order in which they are checked,
//! each a test of the table or of what was read so far. `read_scenario` answers what it says: the
//! scenario, or the first rule that fails with its first failing entry. `KeepsRules` says in plain
//! words what every scenario keeps, and the law `read_scenarios_keep_the_rules` that each one that
//! is read does. An entry is counted from 1 in its array; entry 0 is the file as a whole. A key or
//! a kind of event that isn't listed fails the form of its entry. An entry is read with the numbers
//! of what it names at once; where it names nothing that is there, its form is whole and its value
//! missing, which a later rule refuses.
//!
//! What links, streams, events and frames may name is one value, `Names`: the nodes, links and
//! streams that were read before them, with the most that there may be as its invariant.
//!
//! `read_timed_network` reads the network of a file and its times alone, the rules 1 to 15, and
//! `read_name`, `read_tick`, `station_named` and `read_pdu` read what events name: other files of a
//! network stand on these.
//!
//! A new key of an entry is a reader, a field in `entries`, and one line in the reader of that
//! entry and in its definition (`specs/Entries.antt`, `specs/Streams.antt`, `specs/Frames.antt`). A
//! new kind of event is a variant of `EventKind`, a reader and its arm of `read_kind`
//! (`src/kinds.rt`), and in `specs/Kinds.antt` a case of `kind_form`, by its word, and one of
//! `IsKnownKind`, for what it names, with its proof in `proofs/EventsKept.antt`. What it is in the
//! network stands in the crates above.
#![tactic(auto)]

mod entries;
mod events;
mod forms;
mod frames;
mod kinds;
pub mod laws;
mod links;
mod names;
mod network;
mod nodes;
mod scenario;
mod streams;
mod tree;

pub use entries::{
    DomainWord, EventEntry, EventKind, FrameEntry, FrameRoute, LinkEntry, NodeEntry, StreamEntry,
};
pub use forms::{read_name, read_tick};
pub use kinds::read_pdu;
pub use names::Names;
pub use network::{Network, TimedNetwork, Times, read_timed_network};
pub use nodes::station_named;
pub use scenario::{Scenario, read_scenario, read_scenarios_keep_the_rules};
pub use toml_rules::RuleErr;
