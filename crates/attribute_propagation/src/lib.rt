//! How attributes get from one port of a node to its other ports (IEEE Std 802.1Q-2018, 10.3,
//! 11.2): the keys that await settling, and the rule of a flat propagation.
//!
//! ```text
//! a registration changes at one port --mark--> Dirty of each other port --settle--> declared or withdrawn
//!
//!        registered at   app  p1  p2  p3
//! flat:                   -   yes  -   -      declared at p2 and p3, since p1 has it; not at p1
//! ```
//!
//! A `Dirty` is a finite set of keys. Contracts see a `KeySet`: the list of its keys, ascending
//! strictly, and its spare, the number of new keys for which it has room. `mark` puts a key in,
//! `clear` takes one out, and `room` makes room for more. `flat_declares` is the rule of MAP for an
//! attribute that goes everywhere: a port declares it exactly where another port, the application
//! side included, has it registered.
//!
//! An application keeps a `Dirty` for each link port, and tells keys in two steps:
//! `room_everywhere` makes room for them at each port, and is the one step that may want memory;
//! then `tell_elsewhere` puts them in at every port but the one that told them, or
//! `tell_everywhere` at every port, and neither takes memory.
//!
//! `specs/Ports.antt` has the words on the link ports of a node that every application needs: the
//! place of a port in lists, `HasRoom`, which says that each port has room for so many keys, and
//! what awaits at each port once a key is told, of which `laws::each_port_is_told` says what it
//! makes of each port's set.
//!
//! An application whose propagation isn't flat keeps its keys in a `Dirty` too, and brings a rule
//! of its own.
#![tactic(auto)]

mod dirty;
mod flat;
pub mod laws;
mod ports;

pub use dirty::Dirty;
pub use flat::flat_declares;
pub use ports::{
    empty_at, new_sets, none_awaits, room_everywhere, saturated, set_at, some_awaits,
    tell_elsewhere, tell_everywhere, told_where,
};
