//! The bookings of one egress port: which of the streams that want the port are booked, and since
//! when (IEEE Std 802.1Q-2018, 34.3, 35.2.2.8).
//!
//! ```text
//! want(now, want) -----> the wanting streams, ascending by StreamID, and the same in the order of importance:
//! unwant(now, stream) ->   |  class A, rank 0, the earlier booking, the lower StreamID
//!                          |  each is booked where the booked ones before it leave room under its cap;
//!                          |  what stands before the first place that a call changes is left alone
//!                          v
//!                        what changed in the booked set
//! clock(now) ----------> the moment alone; true where a booking is older now than what isn't booked
//! ```
//!
//! Contracts see the book, and for how many more streams there is room (`BookWithRoom`). A `Book`
//! has the caps, the last moment that was handed to the ledger, and the entries. The booked set is
//! stated as a condition on a set, and not as a way to find it: an entry is booked exactly where
//! the slopes of the booked entries of other streams that are more important, with its own, stay at
//! or under its cap. There is exactly one such set (`one_decision`), and it stays the same as time
//! passes (`Ledger::stands`). So at every moment the booked slopes stay within the caps
//! (`Ledger::within_caps`).
//!
//! What a call leaves is a function of the book before it: `wanted_book`, `unwanted_book` and
//! `clocked_book` of `specs/Book.antt`, over `decided_entries` of `specs/Decision.antt`, the one
//! outcome of deciding. Who speaks of whole runs speaks of these, and `laws` says of them what the
//! methods say of a living ledger: every step keeps what holds of every ledger, the caps are kept,
//! no booking is ahead of its ledger, a clock that shows nothing and a booked set that stays leave
//! every fit as it was.
//!
//! What a caller needs of one stream stands on the calls: a want is kept as it came and changes no
//! other stream's (`Ledger::want`, `Ledger::unwant`), a stream is booked exactly where its entry
//! fits among the booked ones, and a want that is kept fits exactly where it is booked
//! (`Ledger::stands`, `Ledger::fits`). `clock`, `shows_at` and `slope` go over no entry. No order
//! of the entries but that of StreamIDs stands in a contract. A call that takes no memory (`enter`,
//! `unwant`, `clock`, the readers but `bookings` and `changes_since`) can't fail.
//!
//! Who may not fail in the middle of a step makes room first: after `Ledger::room`, `Ledger::enter`
//! takes as many new streams as there is room for, and takes no memory. A stream that has an entry
//! needs no room, and neither `unwant` nor `clock` gives any away.
//!
//! To extend it: a new way to judge who goes first is a line of `compare_importance` in
//! stream_importance, and nothing here changes but what time does to it (`proofs/Standing.antt`). A
//! new step is a function of the book beside `wanted_book`, a clause of `every_step_keeps_a_book`,
//! and a function of `src/decide.rt` that cuts the order before all that the step concerns, changes
//! the entries and what is behind the cut alike, and calls `decide` (`proofs/Changing.antt` shows
//! how such a step leads to what `decide` asks for).
#![tactic(auto)]

mod changed;
mod decide;
mod entries;
mod fit;
mod front;
pub mod laws;
mod ledger;
mod notes;
mod order;
mod totals;

pub use changed::Changed;
pub use laws::one_decision;
pub use ledger::Ledger;
