//! Group addresses by MMRP (IEEE Std 802.1Q-2018, 10.12): a network whose stations join and part
//! from groups, each known by a MAC address, so that its bridges know behind which ports there is a
//! member.
//!
//! ```text
//!     application of a station          Clock: 1 cs, of all nodes at once
//!               | Join, Part
//!               v
//!      own --the MAC address--> awaits at every port
//!                                     | Settle
//!                                     v
//!   inbox --Work--> participant of the port: MAC addresses --Send--> outbox --Carry--> inbox of the peer
//!     ^                  |       ^
//!     | Lose, Repeat     |       +-- Due: timers
//!                        +--those that changed--> await at every other port
//! ```
//!
//! MMRP is a flat application, as MVRP is: what one port has registered is declared at every other.
//! So its side is that of `flat_side` for MAC addresses (`MmrpApp`, whose PDUs are those of
//! `mmrp_codec`), a node is `Node` of `link_node` over that side, and a `GroupNet` is `Net` of
//! `link_net` over such nodes: a tree, one clock, and a node for each of the tree's. Which events
//! happen, and in which order, is for its user to say: `group_run` runs a file. What is here is what
//! MMRP alone has: its application, the names of its events and answers, a file's network at its
//! start, and the law of groups.
//!
//! Contracts see a network as its `NetGroups` (`specs/Net.antt`), with a `NodeGroups` for each node
//! (`specs/Node.antt`). One event is a function of it: `group_step` gives the network afterwards
//! and the answer, and `GroupNet::step` does just that, or memory ran out and the network is as it
//! was. Its one condition is `CanHappen`: the nodes and ports that the event names exist, a station
//! joins and parts, and the clock goes on from below 2^61.
//!
//! What every network keeps, by its type, is `IsKeptNet` (`specs/Kept.antt`): on each link both
//! ends meet their duty, with the octets in flight read as messages; at each port each MAC address
//! that doesn't await is declared exactly where another port or the application has it registered;
//! and bridges have joined nothing. So it holds after every list of events, losses and repeats
//! included. From it follows the law of groups (`specs/Match.antt`, `laws`): in every network at
//! rest a MAC address is registered at a port exactly where a station behind the port, in the words
//! of the tree's walks, has joined it. `GroupNet::groups_match` answers both sides, each by its own
//! definition in every network, and says that they are equal at rest.
//!
//! A further event of the network that `link_net` knows, as a forged PDU is, is a variant of
//! `GroupEvent` with a line in `net_event` (`src/net.rt`, `specs/Net.antt`) and in `group_step`, and
//! a case of `step_is` (`proofs/NetEvents.antt`); one that it doesn't know begins there. `group_run`
//! then has its case of `step_port` and `IsAllowed`. A further step of a port is a variant of
//! `GroupStep`, and a line in each `port_step`. A further application whose keys go everywhere is a crate like this one: a
//! `FlatLinkApp`, names for its events, and the law of `proofs/GroupLaw.antt` for its keys.
#![tactic(auto)]

mod app;
mod events;
pub mod laws;
mod matching;
mod net;
mod start;

pub use app::MmrpApp;
pub use events::{GroupEvent, GroupReply, GroupStep};
pub use group_file::{GroupEntry, GroupKind, GroupScenario, RuleErr, group_scenario};
pub use matching::GroupSides;
pub use net::GroupNet;
