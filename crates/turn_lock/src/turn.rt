//! One turn of a seat: a ticket, a wait, a step in the slot, and the turn given on.

ghost use Rattle.std.specs.Prelude.{◌≡◌, ◌∷◌, []};
ghost use Rattle.turn_lock.specs.Turns.{IsBoard, Rests, Awaits, Draws, Makes, Lends, Takes, IsReady, Turns, GivesOn};
ghost use Rattle.turn_lock.specs.declared.board.View.TheVariants.{Living};

use crate::bells::Bells;
use crate::board::{Board, Kept, Place};
use crate::plays::{Advance, Draw, Look};
use crate::sequential::Sequential;
use srp_base::NoMemory;
use std::hint;
use std::sync::Wait;

// The word with the next ticket to be drawn, and the word with the ticket that is served.
const NEXT: usize = 0;

const SERVED: usize = 1;

// How many times a waiting thread looks again after a pause, before it sleeps.
const LOOKS: u32 = 2000;

// For how many pauses who has given its turn on to a thread that waits keeps off the words of the
// table, which the other is at.
const PAUSES: u32 = 100;

// Draws a ticket.
fn draw<S: Sequential>(board: &Board<S>, seat: &mut Place<S>) -> u64
    requires board { IsBoard board.now.table_id }
    requires seat { (seat.old.table_id ≡ board.now.table_id) × Rests seat.old.me }
    ensures seat { seat.new.table_id ≡ seat.old.table_id }
    ensures draws { Draws seat.old.me result seat.new.me }
{
    board.fetch_add::<Draw>(seat, NEXT, 1)
}

// Waits until the ticket is served, and takes the slot: spins first, then sleeps.
fn await_turn<S: Sequential, R: Wait>(
    rt: &R,
    board: &Board<S>,
    bells: &Bells,
    seat: &mut Place<S>,
    ticket: u64,
)
    requires board { IsBoard board.now.table_id }
    requires seat { (seat.old.table_id ≡ board.now.table_id) × Awaits seat.old.me ticket }
    ensures seat { seat.new.table_id ≡ seat.old.table_id }
    ensures takes { Takes S.does seat.old.me seat.new.me }
{
    let mut looks = 0u32;
    for _ in rt.forever() {
        let served = board.load::<Look<S>>(seat, SERVED);
        if served == ticket {
            return;
        }
        rest(rt, bells, looks, ticket);
        looks = looks.saturating_add(1);
    }
    unreachable!()
}

// What a waiting thread does until it looks again, after so many looks: a pause, and after many of
// them it sleeps until its ticket's bell rings.
fn rest<R: Wait>(rt: &R, bells: &Bells, looks: u32, ticket: u64) {
    if looks < LOOKS {
        hint::spin_loop();
    } else {
        bells.listen(rt, ticket);
    }
}

// Makes a step, and notes it in the history. The memory for the note is taken first.
fn make<S: Sequential>(
    kept: &mut Kept<S, S::Ask, S::Answer>,
    number: u32,
    ask: S::Ask,
) -> Result<S::Answer, NoMemory>
    ensures { Makes S.does number ask kept.old result kept.new }
{
    kept.history.reserve(1)?;
    let answer = kept.state.step(ask)?;
    kept.history.push_reserved((number, ask, answer));
    Ok(answer)
}

// Makes a step in the slot that the seat holds.
fn make_in_slot<S: Sequential>(
    board: &Board<S>,
    seat: &mut Place<S>,
    number: u32,
    ask: S::Ask,
) -> Result<S::Answer, NoMemory>
    requires { (seat.old.table_id ≡ board.now.table_id) × ((kept : _) × Lends seat.old.me kept) }
    ensures seat { (seat.new.table_id ≡ seat.old.table_id) × (seat.new.me.0 ≡ seat.old.me.0) }
    ensures makes { (kept : _) → Lends seat.old.me kept
        → (after : _) × Lends seat.new.me after × Makes S.does number ask kept result after }
{
    let kept = seat.slot_mut(board, 0);
    make(kept, number, ask)
}

// Gives the slot back and serves the next ticket, whose bell rings where it was drawn.
fn advance<S: Sequential>(board: &Board<S>, bells: &Bells, seat: &mut Place<S>)
    requires board { IsBoard board.now.table_id }
    requires seat { (seat.old.table_id ≡ board.now.table_id) × IsReady S.does seat.old.me }
    ensures seat { seat.new.table_id ≡ seat.old.table_id }
    ensures gives_on { GivesOn seat.old.me seat.new.me }
{
    let served = board.fetch_add::<Advance>(seat, SERVED, 1);
    let next = served.wrapping_add(1);
    if board.peek(NEXT) != next {
        bells.ring(next);
        keep_off();
    }
}

// Pauses.
fn keep_off() {
    for _ in 0..PAUSES {
        hint::spin_loop();
    }
}

/// One whole turn: a ticket, a wait for it, a call of `inside`, a step in the slot, and the turn
/// given on.
pub(crate) fn turn<S: Sequential, R: Wait, F: Fn()>(
    rt: &R,
    board: &Board<S>,
    bells: &Bells,
    seat: &mut Place<S>,
    number: u32,
    ask: S::Ask,
    inside: &F,
) -> Result<S::Answer, NoMemory>
    requires board { IsBoard board.now.table_id }
    requires seat { (seat.old.table_id ≡ board.now.table_id) × Rests seat.old.me }
    requires number { (known : _) → seat.old.me ≡ (Living known, []) → known.number ≡ number }
    requires inside { F.IsAlwaysCallable inside.now }
    ensures seat { seat.new.table_id ≡ seat.old.table_id }
    ensures turns { Turns S.does number ask seat.old.me result seat.new.me }
{
    let ticket = draw(board, seat);
    await_turn(rt, board, bells, seat, ticket);
    inside();
    let answer = make_in_slot(board, seat, number, ask);
    advance(board, bells, seat);
    answer
}
