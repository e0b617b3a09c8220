//! The plain run of a scenario: tick by tick, in the one order in which nobody waits for anybody.
//!
//! ```text
//!   a tick      script   the file's events of this tick, in file order, from where the last tick stopped
//!               steps    node by node: the jobs of its ports, as the script left the node,
//!                          Work of port 1, of port 2, ..   Due of port 1, ..   Settle ..   Send ..
//!               noting   what is in force at each port of a node that did more than send, entered where it differs
//!               carry    link by link, the PDUs of end a and then of end b
//!               clock    every clock goes on by 1 cs
//! ```
//!
//! Script and carrying are calls of world_core, `make_events` and `carry_sent`, since they have no
//! order of their own.
//!
//! The contract of `plain_run` is the definition of world_core: the ticks of the journal lead from
//! the scenario's start to the network that is handed out, each of them legal, and each node's
//! steps in the canonical order (`AreCanonicalTicks`); and the timeline is that of these ticks
//! (`IsTimelineOf`). It has no condition, and its one failure is want of memory.
//!
//! A node's jobs may be asked for when its turn comes, after the steps of other nodes, since a step
//! of a port changes its own node alone. The events of a file don't fall in their ticks, so a place
//! in the list of events, `IsCursor` of world_core, stands between those of earlier ticks and the
//! others: no tick goes over all of them. A node that is known to rest isn't asked for its jobs
//! (`rest`). One that has nothing to do in a tick takes no memory, and one that only sends isn't
//! noted, since nothing that is in force at its ports has changed then; so the changes stand in a
//! list for each port while the run goes on (`History` of world_core), and become one timeline at
//! its end.
//!
//! `watched_run` is the same run, and shows the network at the end of each tick to one who watches
//! (`RunWatcher`), who keeps of it what is wanted, since a run keeps no network but its last. Its
//! contract says that the watcher has seen these ends, one after the other (`specs/Watch.antt`);
//! `plain_run` is that of nobody.
//!
//! Beside them `generate`, which makes the scenario of a number, is handed on as scenario_generator
//! has it: a run of it is the plain run of what it answers.
//!
//! A further kind of event is an arm of `world_event` (`src/script.rt` of world_core), a further
//! kind of step a turn in `src/order.rt` with its place in `order_of` (`specs/Order.antt`).
#![tactic(auto)]

mod order;
mod rest;
mod run;
mod steps;
mod watch;

pub use run::{plain_run, watched_run};
pub use scenario_generator::generate;
pub use watch::RunWatcher;
