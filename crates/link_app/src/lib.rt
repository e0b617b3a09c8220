//! An application of MRP at the link ports of a node (IEEE Std 802.1Q-2018, 10.2), as the node sees
//! it: the trait `LinkApp`. A node (`link_node`) is generic over it, and so are its laws.
//!
//! ```text
//!  link --octets--> receive      at each link port a participant of each application,
//!                   due, leave_now  and the attributes that await there
//!                                     |
//!  application --request-->           |  settle
//!                                     v
//!  link <--octets-- send          octets to say, at most 1,500
//! ```
//!
//! Contracts see two things of an application. `words` (`specs/Words.antt`) is its meaning: what
//! its state is, what it shows at each link port, and its state after each call, as functions.
//! `state` is its state. Each call's clause is the state afterwards in those words, and after want
//! of memory the state is as it was. Several applications side by side have names; `due` and
//! `settle` are of all of them, or of none where memory runs out, and all other calls at a port
//! name one.
//!
//! `laws` (`specs/Laws.antt`) says what holds of each application, whatever it is: a call at a port
//! leaves the participants at all others; what every state keeps is kept; and each call keeps the
//! duties that the two ends of a link owe one another, with the PDUs on their way, octets and
//! names, as they become by it: what came in is taken from the front, what is said is put at the
//! end, a copy stands right behind its original, and where both ends are spoilt a PDU may be lost
//! or forged. A node and a network need no other law of MRP.
//!
//! An application that can take its memory before it fires or settles at a port is a `ReadyApp`; of
//! two applications one has to be, so that both fire, or neither does. A side whose attributes are
//! keys that go everywhere (`flat_side`, MVRP and MMRP) is a `LinkApp` here (`src/flat.rt`), where
//! its octets say to a neighbour what was written (`FlatLinkApp`).
//!
//! A further application is a type with `LinkApp`: its words as one record in the specs/ of its
//! crate, its calls, most of one line, and `laws`, which calls the public laws of its crate and of
//! `mrp_participant`, and whose proof makes `AppLaws` of them, as `proofs/FlatLaws.antt` does. A
//! further call at a port is a field of `AppWords`, a method of `LinkApp` with the clause that its
//! state is that field, and a field of `AppLaws`: `IsCallAt`, where it says nothing to a neighbour.
#![tactic(auto)]

mod app;
mod flat;
mod wire;

pub use app::{LinkApp, ReadyApp};
pub use flat::{FlatLinkApp, KeyRequest};
pub use wire::Wire;
