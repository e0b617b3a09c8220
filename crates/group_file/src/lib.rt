//! The group scenario of a TOML file: a network, its times, and which stations join and part from
//! which groups.
//!
//! ```text
//! table --> keys known, `event` an array of tables                             rule 40
//!       --> network    times, nodes, links and their tree                      rules 1 to 15, by topology_file
//!       --> events     each with its form, in order, of known names            rules 41 to 43
//!       --> GroupScenario, or RuleErr::Rule { rule, entry }
//! ```
//!
//! The definition `group_scenario_of` is the list of the rules in the order in which they are
//! checked. `group_scenario` answers what it says: the scenario, or the first rule that fails with
//! its first failing entry, counted from 1; entry 0 is the file as a whole. `KeepsGroupRules` says
//! in plain words what every group scenario keeps, by its type.
//!
//! A new kind of event is a variant of `GroupKind`, a reader and its arm of `read_kind`
//! (`src/kinds.rt`), and a case of `kind_form` and of `IsKnownGroup` (`specs/Events.antt`), with
//! its proof in `proofs/EventsKept.antt`.
#![tactic(auto)]

mod entries;
mod events;
mod kinds;
mod scenario;

pub use entries::{GroupEntry, GroupKind};
pub use scenario::{GroupScenario, group_scenario};
pub use toml_rules::RuleErr;
