//! MSRP at a node (IEEE Std 802.1Q-2018, 35.2): a participant and a ledger at each link port, the
//! keys that await settling there, and what the application of a station talks and listens to. A
//! node may also keep to SRP domains (`DomainSet`): then a port whose neighbour doesn't declare the
//! Domain value of a class is a boundary, at which no stream of the class gets through.
//!
//! ```text
//!  link --octets--> receive --> participant of the port --keys that changed--> both keys of their streams
//!                   due, leave_now                                             await at every link port;
//!                                                                              of a Domain: those of all
//!                                                                              known streams, at this port
//!  application --request--> Talkers, Listeners --their streams' keys---------------------^   |
//!                                                                                            v
//!  clock --moment--> ledger of each port --where it shows: the Talker keys-------------> settle
//!                                                                                         |  |  |
//!     ledger of the port: what no longer wants is taken out, what wants is entered <------+  |  |
//!         what is booked or dropped: its Listener key awaits at every other port             |  |
//!     participant of the port: Talkers and Listeners are declared or withdrawn <-------------+  |
//!     nothing awaits at the port <--------------------------------------------------------------+
//!  link <--octets-- send <--- participant of the port
//! ```
//!
//! Contracts see a `SideHolding` (`specs/Holding.antt`): whether the side is ready for the clock,
//! and its `Streams` (`specs/Side.antt`), the link ports, each a `PortState` with its participant's
//! state and its ledger's book, the awaiting keys, and what the application asked for, all as
//! lists; each call's clause is the whole `Streams` after it. `specs/Domain.antt` says which Domain
//! values a port declares, and where it is a boundary. `specs/Stream.antt` says of one stream which
//! port is the Talker's, what each link port declares of the Talker and of the Listeners, and what
//! it wants, looking at all ports; `specs/Settling.antt` what awaits once keys are told, and what
//! settling a port does.
//!
//! What every side keeps, by its type, is `IsKept`: at each link port each Talker or Listener key
//! that doesn't await is declared exactly as those rules state it, with its content, and each
//! Domain as the port declares it for good, from the start and whatever comes in; a stream of which
//! neither key awaits is kept by the port's ledger as wanting exactly where it wants bandwidth,
//! with its class, rank and slope; and each ledger is a ledger, so that its booked slopes keep to
//! its caps. After want of memory a side is as it was.
//!
//! No call on a port copies a participant, a ledger or a set of awaiting keys: each takes its
//! memory first, and then changes all in its place. `clock_room` makes a side ready for the clock,
//! by counting what is registered: where it is ready, `clock` takes no memory. Each call that
//! changes the side ends its readiness. A clock that shows nothing takes no memory, ready or not;
//! nor do `due` where no timer is due, `settle` where nothing awaits, `send` where nothing is to be
//! said, `request` of what is so already, which leave readiness too, and `leave_now` of a key that
//! doesn't leave.
//!
//! `laws` has what a network's laws rest on, over these states alone: a side is proper
//! (`specs/Proper.antt`) where it is kept and all that it keeps fits in the fields in which it is
//! sent; every call keeps it so, and keeps how the ports are set up; and what a participant sends
//! reads as what it said, at most one event of each key.
//!
//! To add a key: its variants in msrp_codec; what it is declared as, a line of `stated_at`; which
//! changes make it await, a line of `keys_with`, or of `told_sets` where its change is news of
//! other keys. To add a reason for which a port wants nothing of a stream, as a boundary is:
//! `want_of_reg`, and msrp_talker for its code.
#![tactic(auto)]

mod app;
mod asking;
mod calls;
mod clock;
mod domain;
mod in_place;
pub mod laws;
mod plan;
mod port;
mod sending;
mod settling;
mod side;
mod stream;
mod talker_keys;
#[cfg(test)]
mod tests;
mod told;
mod view;

pub use app::MsrpApp;
pub use asking::SrpRequest;
pub use domain::DomainSet;
pub use side::MsrpSide;
