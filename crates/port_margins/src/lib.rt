//! What the ports of a network have left: for each egress port what its classes have booked, their
//! caps, and what is left; which streams of the scenario it refuses, by how much each misses, and
//! what all of them would take; and the credit-based shapers of its classes, in the units of
//! tc-cbs(8).
//!
//! ```text
//!   margin b1>l1 A booked 61952000 cap 75000000 left 13048000       class A, in bit/s
//!   margin b1>l1 A+B booked 61952000 cap 75000000 left 13048000     both classes
//!   refused b1>l1 0200000000010005 talk A slope 15488000 more 61952000 cap 75000000 short 2440000 code 1 listeners yes
//!   short at b1>l1 A 77440000 of 75000000 A+B 77440000 of 75000000  with what is refused
//!   cbs b1>l1 A idleslope 61952 sendslope -38048 hicredit 956 locredit -587
//!   wait b1>l1 B bits 61680 us 617                                  at most, before a frame goes
//!   quiet yes                                                       at the end of the text
//!   in step yes
//! ```
//!
//! `margins_text` (`specs/Margins.antt`) is the text as a function of the scenario and a network.
//! What is booked is the ledger's (`slope_at` of node_core), and the caps are those of the port's
//! link, which its bookings keep at every moment of a run (`IsWithinLimits` of world_core). Whether
//! a stream fits is asked of the ledger too (`fit_of`), at the moment of the node's clock, and its
//! slope is what its Talker, as the node has it registered, asks. The numbers of a shaper are
//! `cbs_of` (`specs/Cbs.antt`): idleSlope is the booked slope; a class gains credit for as long as
//! it waits, which for class A is one frame of 12,336 bits and for class B the tight bound of
//! class_b_bound, which the line `wait` has too.
//!
//! A further line of a port is a definition in `specs/Lines.antt` and a piece of `place_lines`,
//! with its writer in `lines.rt` and its call in `ports.rt`.
#![tactic(auto)]

mod cbs;
mod lines;
mod ports;
mod refused;
mod shapers;
mod shortage;
mod waits;

pub use cbs::Cbs;
pub use ports::margins_text;
