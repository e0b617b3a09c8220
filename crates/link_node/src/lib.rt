//! A node over any application of MRP at its link ports (`link_app`): at each port an inbox and an
//! outbox, and steps that take what came in, fire timers, settle what awaits, and send.
//!
//! ```text
//!   network --put_in--> inbox --Work--> application --Send--> outbox --take_out--> network
//!                         ^             ^  ^   ^
//!         lose, repeat, forge           |  |   +-- Due, LeaveNow, LeaveAllNow, PeriodicNow: timers
//!                                       |  +-- Settle
//!              application of a station: ask
//! ```
//!
//! Contracts see a node as its `NodeState` (`specs/State.antt`): the state of its application, and
//! for each link port the PDUs that came in and those that are to go out, each as octets with the
//! name of its application. A step is one function, `port_step` (`specs/Step.antt`), over the words
//! of the application; after want of memory the node is as it was. There is no word of MVRP, MSRP
//! or MMRP here.
//!
//! `Node` is a `LinkNode`, so that it stands in a network (`link_net`), which says what happens
//! there and what every network keeps. Its laws (`HasNodeLaws`) follow from those of the
//! application alone (`AppLaws`; `proofs/NodeSteps.antt` and `NodeLaws.antt`): a step at a port
//! leaves what is at all others, keeps the duties of the port's link, and what every node keeps
//! (`IsKeptNode`): what its application keeps, boxes for each port, and PDUs such as a neighbour
//! may send.
//!
//! An inbox is a queue (`src/inbox.rt`): to take its front moves no other PDU, and no step copies
//! an application or a box.
//!
//! A further application is a type with `LinkApp`; nothing changes here, and `Node` of it is its
//! node. A further step of a port is a variant of `PortStep`, a line of `port_step`, an arm of
//! `step` in `src/link.rt`, and a line in each of `step_apart`, `step_keeps` and `step_stays`.
#![tactic(auto)]

mod boxes;
mod inbox;
mod link;
mod node;
mod steps;
mod work;

pub use node::Node;
pub use steps::{PortStep, StepReply};
