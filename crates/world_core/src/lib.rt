//! A network of bridges and stations over a tree: one event at a time, the ticks of a scenario, and
//! the journal of a run.
//!
//! ```text
//!   a tick   the scenario's events of this tick, in file order
//!            each node's ports make their jobs, in some interleaving     Work.. Due Settle Send
//!            each port's outbox is carried to its peer's inbox, link by link
//!            every clock goes on by 1 cs
//! ```
//!
//! Contracts see a network as a `WorldState`, a tree with a state for each node
//! (`specs/World.antt`), and one event is a function of it, `world_step`. A run is the fold of its
//! events. Which runs are those of a scenario, in which each node's steps of a tick are some
//! interleaving of its ports' jobs, is `specs/Ticks.antt`; the network after each event is a moment
//! (`specs/Moments.antt`). What every network keeps by its type is `IsKeptWorld`: among it that on
//! each link both ends meet their duty (`specs/Duty.antt`), in MVRP and in MSRP, so that it holds
//! after every list of events, losses, repeats and forgeries included. At each moment of a run no
//! port has booked more than its link's entry allows (`specs/Limits.antt`), and the stations talk
//! what the scenario has them talk (`specs/Talks.antt`). What is in force at each port after each
//! tick's steps is the timeline of a run (`specs/Timeline.antt`): `World::note_tick` enters a tick
//! by going over all ports, and a `History` (`specs/History.antt`) by going over those of the nodes
//! that made a step other than Send.
//!
//! A run tick by tick is made of calls: `make_events` lets the scripted events of a tick happen,
//! from a place in the list of events on (`specs/Cursor.antt`), `World::step` the ports' jobs, in
//! whichever order a schedule has them, and the clock; `carry_sent` carries what was sent.
//!
//! A step of a port is of its node alone. So a network can be taken apart (`World::part`), its
//! nodes make the steps of their ports each by itself, the marks follow in the order of the nodes,
//! and `World::join` puts all together: what comes of it is the network after all these steps as
//! its own events (`specs/Apart.antt`, law `steps_made_apart_keep_it`).
//!
//! A legal tick is one whose steps can be made one by one (`specs/OneByOne.antt`): each is the next
//! of the jobs that some port of the node has left, whichever port that is, until no port has any,
//! and then the next node has its turn. From each network during a tick the tick and the run can be
//! made legally to their ends (`tick_laws`), and a legal run goes on with what it has noted
//! (`specs/NotedRuns.antt`): who runs ports in any order, or reads what another ran, rests on
//! these.
//!
//! A further kind of event is a variant of `WorldEvent`, a line in `world_step`, `CanHappen`,
//! `IsEventInRange` and `IsAllowed`, an arm in `World::step`, and a lemma that it keeps the duties
//! of any application (`proofs/EventSteps.antt`); all places stand in docs/ARCHITECTURE.md. A
//! further application is a use of `AreDutiesMetIn` in `IsKeptWorld`, and a file like
//! `proofs/StreamSteps.antt` of what a node's steps make of its participants.
#![tactic(auto)]

mod apart;
mod carry;
mod events;
mod happen;
mod history;
mod journal;
pub mod laws;
mod marking;
mod marks;
mod merging;
mod reservation;
mod script;
mod start;
mod step;
pub mod tick_laws;
mod timeline;
pub mod timeline_laws;
mod world;

pub use apart::WorldRest;
pub use carry::carry_sent;
pub use events::{WorldEvent, WorldReply};
pub use history::History;
pub use journal::{Journal, NodeSteps, Run, Tick, push_steps};
pub use marks::Marks;
pub use script::make_events;
pub use step::RunErr;
pub use world::World;
