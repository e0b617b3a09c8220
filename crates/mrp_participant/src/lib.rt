//! The participant of MRP: what one application keeps at one port of what it declares and of what
//! its neighbour has declared (IEEE Std 802.1Q-2018, 10.7), for every application.
//!
//! ```text
//!   user                           participant                              link
//!   declare, withdraw  ------->  rows, ascending by key:  -- send ------->  Msgs to the neighbour
//!                                  Applicant, content
//!   keys that changed  <-------    Registrar, content     <- receive -----  Msgs from the neighbour
//!   keys that left     <- due --   leave timer
//!                                LeaveAll and its timer, periodic, sound
//! ```
//!
//! A key has a row exactly where its Applicant isn't VO or its Registrar isn't MT. Contracts see of
//! the participant one `State` (`specs/State.antt`), and each call's clause is the whole state
//! after it:
//!
//! - `declare`, `withdraw` and `leave_due` change the row of one key, by the tables of the machines
//!   (`specs/Row.antt`), and no other;
//! - `receive` is LeaveAll at every row, and then the events in order;
//! - `send` takes the rows, in the order in which they are tried, that fit into a PDU
//!   (`specs/Sending.antt`); what each row says, and what becomes of it, depends on that test and
//!   on the row alone;
//! - `due` fires the timers that are due: the leave timers, LeaveAll, periodic.
//!
//! Beside the rows stands what is known of all of them (`Outlook`): where nothing is due and
//! nothing is to be said, `any_due`, `due`, `still` and `send` look at no row. `receive` searches
//! for the rows of the keys that it hears of, and goes over all rows only with LeaveAll, for a key
//! that has no row yet, and where the last of the leave timers that end first ends by it.
//!
//! Beside the state contracts see what memory the participant has taken ahead (`Holding`). `room`
//! takes that of rows, its spare, and `declare` of a key without a row uses one of it. `due_room`
//! takes that of the keys that leave, and makes the participant ready: then `due` answers Ok. Each
//! call that changes the participant ends its readiness. With `plan` and `sent`, each change can so
//! be made after all memory for it was taken.
//!
//! `laws` says of the calls that touch every row what each single key has afterwards; `duty_laws`
//! what two participants on a link owe one another, call by call; `link_laws` the same of every
//! history of a link, and `marked_link_laws` where a neighbour's LeaveAll makes an end sound too.
//! After want of memory a participant is as it was.
//!
//! An application is a type with `MrpApp`: its keys and contents, and how many octets they take. A
//! new call of a participant has a state after it in `specs/State.antt`, which its clause names,
//! and is a new `EndEvent`, with its lines in `is_loss` and `after_end_event` (`specs/Link.antt`)
//! and its cases in `proofs/Links.antt`. A new `MrpEvent` has lines in `heard_row`, `makes_row` and
//! `held_after_event` (`specs/Row.antt`, `specs/Duty.antt`), and its arms in `src/row.rt`.
#![tactic(auto)]

mod append;
mod application;
mod calls;
pub mod duty_laws;
mod event_order;
mod hearing;
pub mod laws;
pub mod link_laws;
mod lookup;
pub mod marked_link_laws;
mod outlook;
mod participant;
mod receive;
mod row;
mod sending;
mod sending_limit;
mod timers;

pub use application::{MrpApp, Msgs};
pub use participant::Participant;
pub use row::Row;
