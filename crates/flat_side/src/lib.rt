//! A flat application of MRP at a node (IEEE Std 802.1Q-2018, 10.3): its attributes are keys
//! without content, and what one port has registered is declared at every other. MVRP is one, of
//! VIDs (11.2), and MMRP one of MAC addresses (10.12).
//!
//! ```text
//!  link --octets--> receive --> participant of the port --keys that changed--> await at every other port
//!                   due, leave_now                                                     |
//!  application --request--> own keys --the key--> await at every port                  |
//!                                                                                      v
//!  link <--octets-- send <----- participant of the port <--declare, withdraw---- settle, by the flat rule
//! ```
//!
//! Contracts see a `SideHolding` (`specs/Holding.antt`): the side's state, and at which port it is
//! ready. The state is a `FlatState` (`specs/Side.antt`): the participants' states, the awaiting
//! keys and the own ones, all as lists; each call's clause is the whole state after it. What every
//! side keeps, by its type, is `IsKept`: at each port each key that doesn't await is declared
//! exactly where another port or the application has it registered. After want of memory the state
//! is as it was.
//!
//! No call copies a participant or a set of awaiting keys: it takes the memory first, and then all
//! changes in its place (`src/port.rt`). `room` makes the side ready at a port: it takes the memory
//! for `due` and `settle` there, so that a node fires and settles several applications, or none of
//! them. Where no timer is due `due` takes none, where no key awaits `settle` takes none, and where
//! a key's registrar isn't LV `leave_now` takes none.
//!
//! An application is a type with `FlatApp`: beside what `MrpApp` asks, its PDUs, what octets read
//! as and how a PDU is written (`Codec`, `specs/Codec.antt`), and which keys it has. Its side is
//! `FlatSide` of that type. A further call on a port is a function of the side in
//! `specs/Side.antt`, what the participant does in `port.rt`, a method in `calls.rt`, and a clause
//! of `every_call_keeps_a_side`: which declarations and registrations it leaves alone, and that it
//! marks what changed.
#![tactic(auto)]

mod app;
mod calls;
pub mod laws;
mod port;
mod sending;
mod settling;
mod side;

pub use app::FlatApp;
pub use side::FlatSide;
