//! One node, a bridge or a station: what each application keeps at it, the PDUs that wait at its
//! link ports, its clock, and one step at a time.
//!
//! ```text
//!     application of a station          Clock: 1 cs, of the node and of MSRP's ledgers
//!               | Request                 |
//!               v                         v
//!   link --> inbox --Work--> MVRP: VIDs                           --Send--> outbox --> link
//!                            MSRP: Talkers, Listeners, bookings
//!                                   ^
//!                                   | Due, Settle: of both
//! ```
//!
//! A node runs MVRP (IEEE Std 802.1Q-2018, 11.2) and MSRP (35.2) side by side: a participant of
//! each at each link port. `Work` gives the front PDU to the application that it belongs to, and
//! `Send` asks one application what it has to say. `Due`, `Settle` and the clock are of both at
//! once: after want of memory neither has done anything, and the node is as it was. So that the
//! clocks of many nodes go on together or not at all, `clock_room` makes a node ready: it takes the
//! memory of the next clock, which then takes none.
//!
//! Contracts see a node as its `NodeState` (`specs/State.antt`), beside whether it is ready for the
//! clock (`specs/Holding.antt`). Each step is a function of the state: `node_step`
//! (`specs/Step.antt`) gives the node afterwards and the answer. `Work` acts by the reading of the
//! front octets alone, and `Send` puts the one spelling of what the participant sends, so octets on
//! a link are messages on a link. What happens to the PDUs that wait is `specs/Links.antt`. A step
//! of a link port touches what is kept at that port, and the attributes that await at the others.
//!
//! What every node keeps, by its type, is `IsProperNode` (`specs/Proper.antt`): what each
//! application keeps, as many ports in both, short PDUs and one moment (`IsKeptNode` of
//! `specs/Links.antt`); that VIDs are VIDs and all numbers fit in their fields, also those that a
//! PDU at a port says; and that a bridge asks for nothing. Each call that changes a node brings the
//! law of it (`laws.rt`) to its proof.
//!
//! To add an application: a field of `NodeState`, what a step does at it in `applications.rt`, an
//! arm in each definition that takes an `App` or a `NodeKey` and in the function of the same name,
//! its part in `is_busy_at`, in `is_at_rest` what the clock may show of it, and where its clock
//! takes memory its part in `make_ready` and in `is_ready_at`. To add a step: a variant of
//! `PortStep`, a line of `port_step` in `specs/Step.antt`, and a method in `step.rt`.
#![tactic(auto)]

mod applications;
mod forwarding;
mod inbox;
mod jobs;
pub mod laws;
mod links;
mod naming;
mod node;
mod step;
mod types;
mod waiting;

pub use jobs::{JOIN_TIME, is_sending_time, no_key};
pub use node::Node;
pub use types::{AppRequest, NodeEvent, NodeKey, NodeStep, PortStep, StepReply, Wire};
pub use waiting::wire_leaves;
