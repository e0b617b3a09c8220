//! A lock whose turns go in the order of their tickets, and which keeps the history of what was
//! done under it.
//!
//! Threads share a value, here an object that one thread steps (`Sequential`: an ask goes in, an
//! answer comes out, the state changes). Each thread has a `Pass`. A call draws a ticket, waits
//! until that ticket is served, steps the state with the turn held, notes the call in the history
//! and lets the next ticket be served, as at a counter with a ticket machine:
//!
//! ```text
//! word 0: the next ticket to be drawn      7
//! word 1: the ticket that is served        4        ticket 4 has the turn, 5 and 6 wait, nobody has 7
//! the slot: the state and the history      out with ticket 4
//!
//! begin ---> lock, passes 1 .. n            call(pass, ask):  draw 7, wait for it, take the slot,
//!            each to a thread of its own        step, note (pass, ask, answer), give the slot back, serve 8
//! close(lock, passes) ---> the state, the history
//! ```
//!
//! Contracts see of a lock the state that it began with and its number of passes, and of a pass its
//! lock, its number, and what it has `seen`: the history, as far as the pass was told of it. There
//! is one history. It is legal: each answer is the one-thread step's at the state that the earlier
//! entries leave. After a call a pass has seen a history that begins with all that it had seen and
//! ends with this call; of its own calls it has the earlier ones and this one. After want of memory
//! no entry was added; the pass may have seen more. `close` wants all passes and gives the state
//! and the history: each pass has seen a front of it, and its entries of a pass's number are
//! exactly the calls that this pass made.
//!
//! # Why it is so
//!
//! The lock is a table of the kit's `atomic_table`: words that change in single atomic steps, a
//! slot, and *seats*, one behind each pass. A seat has no bytes. It has a view, what its pass
//! knows, which exists in the proof alone. The *rule* (`specs/Rule.antt`) is a fact about the
//! words, the slot and all views, and each atomic step, made by whichever thread and in whichever
//! order, has to keep it. It says:
//!
//! - the words are two numbers modulo 2^64, and the numbers of tickets between them is that of
//!   seats with one. There are fewer than 2^32 passes, so a ticket that is out is known by its
//!   remainder;
//! - each ticket is one seat's. The slot is out only with the seat whose ticket is served;
//! - at home the slot's state is the one that the history leaves, and the history is legal;
//! - each living seat has seen a front of the history, in which its own calls are all those of its
//!   number;
//! - a seat that another took in makes no calls any more, and the other knows what it had seen.
//!
//! There are seven kinds of step. The first five are a call, the last two belong to `begin` and
//! `close`:
//!
//! | step | on the words | what changes | why the rule stays |
//! |---|---|---|---|
//! | draw a ticket | word 0 grows by 1 | the seat waits with that ticket | it is one more ticket, past all others; where it is served at once nobody holds the slot |
//! | read what is served | word 1 is read | nothing, where it is another's | |
//! | take the slot | in that read, where it is the seat's own | the slot is out; the seat has seen the whole history | one seat has this ticket, so nobody else holds the slot, and it is at home with the state that the history leaves |
//! | give the slot back | in the next step | the slot is home | the holder has stepped the state and noted the call, or neither |
//! | serve the next ticket | word 1 grows by 1 | the history has the call, or is as it was | the ticket that ends was this seat's; who is served next finds the slot at home; fronts stay fronts, and no other pass's calls change |
//! | deal a pass | word 0 is read | a new seat, with the next number, has seen nothing | no call has this number yet |
//! | take a seat in | word 0 is read | the seat is spent; its number and what it had seen go to the other | it had no ticket, and makes no calls from now on |
//!
//! Between taking and giving back the state is stepped as plain memory, through `&mut`. The memory
//! for the note is taken before the step, so that a step that was made is noted.
//!
//! At `close` one seat takes in all others. Then no ticket is out, so the slot is at home, and what
//! lies in it is the last state with the whole history.
//!
//! # What isn't promised
//!
//! That a turn comes: a pass that waits behind one that never ends waits for ever, and a call that
//! returns meets its contract. An order between calls of passes that told each other nothing,
//! beyond that there is one. Any time, fairness past the order of the tickets, or which thread
//! runs. A waiting thread spins a little, then sleeps at the bell of its ticket (`src/bells.rt`),
//! which rings when the ticket is served: a turn wakes no other thread than the one that gets it.
//!
//! # To extend it
//!
//! A new object is an `impl Sequential`: its step, and `does`, what the step is as a function;
//! nothing here changes. A new kind of step on the table is a `Play` in `plays.rt`, what it tells
//! in `specs/Steps.antt`, and a lemma that it keeps the rule beside those of
//! `proofs/StepLemmas.antt`, by `seat_moves` of `proofs/MoveLemmas.antt`, which wants only what
//! changes.
#![tactic(auto)]

mod begin;
mod bells;
mod board;
mod close;
mod lock;
mod plays;
mod sequential;
mod turn;

pub use close::{CloseErr, Closed};
pub use lock::{Pass, TurnLock};
pub use sequential::Sequential;
