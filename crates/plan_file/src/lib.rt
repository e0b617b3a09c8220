//! The plan of a TOML file: a network, and what streams are wanted in it; and the scenario that it
//! stands for.
//!
//! ```text
//! table --> network    nodes, links and their tree, domains                    rules 1 to 15, by topology_file
//!       --> keys known, `stream` an array of tables, few                       rule 50
//!       --> streams    each with its form, of different names and ids          rules 51, 52
//!                      talker and listeners are stations, each once            rule 53
//!       --> few events come of them                                            rule 54
//!       --> Plan, or RuleErr::Rule { rule, entry }
//!
//! Plan  --> expanded   the same network in 1,000 ticks, each stream with all its values
//!                      tick 0    each station declares the VIDs of the streams that it listens to
//!                      tick 10   each stream is talked
//!                      tick 20   each station listens
//!       --> Scenario, or its text
//! ```
//!
//! A file is a plan where it has neither `ticks` nor `event` (`is_plan`). The definition `plan_of`
//! is the list of the rules in the order in which they are checked, and `read_plan` answers what it
//! says: the plan, or the first rule that fails with its first failing entry, counted from 1; entry
//! 0 is the file as a whole. The rules of the network are those of the scenario that has it alone,
//! `network_members`. `KeepsPlanRules` says in plain words what every plan keeps, by its type.
//!
//! `expanded` is the table that a plan stands for. `plan_scenario` reads it, so that its answer
//! keeps the rules of a scenario, and `expanded_text` prints it: what is printed reads as that
//! table. The law `plans_stand_for_scenarios` says that this table reads as `scenario_for`, which
//! has exactly the plan's nodes, links, streams and events.
//!
//! A new key of a stream is a reader and a field of `PlanValues` (`src/forms.rt`), one line in
//! `values_at` and a key in `sized_keys` and `audio_keys` (`specs/Streams.antt`), and where the
//! scenario says it a line in `stream_members` (`specs/Tables.antt`) and in `stream_table`. A new
//! kind of event is a variant of `PlanEvent` with its part of `events_of` and its case of
//! `event_members`.
#![tactic(auto)]

mod ends;
mod entries;
mod events;
mod forms;
pub mod laws;
mod members;
mod numbers;
mod plan;
mod streams;
mod tables;

pub use entries::{Ends, PlanStream, PlanValues};
pub use plan::{Plan, expanded_text, is_plan, plan_scenario, read_plan};
pub use toml_rules::RuleErr;
