//! The run of a scenario with a thread for each port: whatever order the threads come to, a legal
//! run.
//!
//! ```text
//!   a tick    script    the file's events of this tick, by the thread that runs the ticks
//!             steps     the network taken apart: node 1 | node 2 | node 3 ..       a thread for each that has jobs
//!                          a node: a hub round it, and port 1 | port 2 | ..        a thread for each, with its pass
//!                             a port: gate.arrive, its jobs one by one, gate.answered
//!                          the hub closed: the node, its steps in their order, and what each did to the PDUs on its link
//!                       put together: nodes, steps, and the marks, which follow in the order of the nodes
//!             noting, carrying, clock, by the thread that runs the ticks
//! ```
//!
//! The contract of `run_ports` is the definition of world_core: the ticks of the journal lead from
//! the scenario's start to the network that is handed out, each of them legal (`AreLegalTicks`),
//! and the timeline is that of these ticks (`IsTimelineOf`). A tick is legal where each port has
//! made exactly its jobs, as the scripted events left its node, in some interleaving with the
//! node's other ports; the plain run is one such run, and has the one canonical order in place of
//! it.
//!
//! What it rests on: a step of a port is of its node alone, so nodes may make theirs apart; and a
//! closed hub says of its node that its steps are one history, in which each pass's calls are
//! exactly the jobs of its port (`specs/Turns.antt`, `specs/Worked.antt`). Each node's history is
//! what the network makes of these steps as events, node by node, with the marks behind them
//! (`specs/Marked.antt`, `specs/Gathered.antt`); and so the tick goes on as any
//! (`specs/Tick.antt`).
//!
//! Nodes share the gate alone, and the ports of a node its hub. Where memory runs out in a port's
//! thread, what is left of its jobs is made after the joins, with the same pass, before the hub is
//! closed. No clause says that threads run beside each other: tests with gates show it.
//!
//! What is known of a thread's result is what it has promised (`WorkOf` of a node, `TurnOf` of a
//! port; `specs/Working.antt`, `specs/Begun.antt`). A thread has a stack of 256 KiB
//! (`src/stack.rt`). Where none can be made, and for the last of several nodes or ports, who would
//! start it does its work.
//!
//! A further kind of step that takes or says a PDU is an arm of `Notice` (bridge_book) and one of
//! `follow_one` (`src/gather.rt`); a further thing that is noted in a tick stands in `make_tick`
//! (`src/tick.rt`), as in srp_schedule's.
#![tactic(auto)]

mod gather;
mod node;
mod node_threads;
mod port_threads;
mod run;
mod stack;
mod tick;
mod turn;

pub use run::run_ports;
