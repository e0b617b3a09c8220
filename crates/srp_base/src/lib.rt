//! The words that every other crate of the network speaks: numbers with their ranges, link rates,
//! SR classes and ranks, lists, the events of MRP, and how identifiers are read and written.
//!
//! ```text
//! numbers      StreamId BridgeId NodeNo LinkNo PortNo Cs Ps     plain numbers, each of its own kind
//!              Vid Mac                                          numbers of a stated range
//! bandwidth    Rate Percent Class Rank                          what a reservation is measured in
//! streams      Talker Failure TalkerReg ListenerKind Priority   what is declared of a stream
//! ports        PortSetup Timeline PortChange                    what a port is set up with, and has in force
//! mrp          App MrpEvent                                     the six attribute events of MRP
//! list         Seq                                              a list over a vector
//! memory       NoMemory                                         the one free answer
//! hexadecimal  read_hex16 read_hex12                            identifiers as 16 digits, addresses as 12
//! ```
//!
//! Contracts see a `Vid`, a `Mac`, a `Percent` and a `Priority` as the number, a `Seq` as the list
//! of its elements, and each other type as its fields.
//!
//! A word that two crates speak stands here, in the module of its kind; one that a single crate
//! speaks stands there. A number of a stated range is a type with `new`, `get` and its `Model`, as
//! `Vid` is.
#![tactic(auto)]

mod bandwidth;
mod hexadecimal;
mod list;
mod memory;
mod mrp;
mod numbers;
mod ports;
mod streams;

pub use bandwidth::{Class, Percent, Rank, Rate};
pub use hexadecimal::{read_hex12, read_hex16};
pub use list::Seq;
pub use memory::NoMemory;
pub use mrp::{App, MrpEvent};
pub use numbers::{BridgeId, Cs, EgressPort, LinkNo, Mac, NodeNo, PortNo, Ps, StreamId, Vid};
pub use ports::{PortChange, PortSetup, Timeline};
pub use streams::{Failure, ListenerKind, Priority, Talker, TalkerReg};
