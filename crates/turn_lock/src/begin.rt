//! How a lock begins: the table is laid, and the passes are dealt in order.

ghost use Rattle.std.specs.Prelude.{◌≡◌, ℕ, ◌+◌, ◌<◌, ◌≤◌, ◌∷◌, [], length, IfOk, IfErr, vec_capacity};
ghost use Rattle.turn_lock.specs.declared.board.View.TheVariants.{Living};
ghost use Rattle.turn_lock.specs.Passes.{Lock, first_passes, seen_by, IsPass};
ghost use Rattle.turn_lock.specs.Rule.{first_view, dealt_known};
ghost use Rattle.turn_lock.specs.Turns.{IsBoard};
ghost use Rattle.turn_lock.specs.Laying.{IsLaid, IsDealtFrom, lock_of};

use crate::bells::Bells;
use crate::board::{Board, Kept, Place, Terms, Whole};
use crate::lock::{Pass, TurnLock};
use crate::plays::Deal;
use crate::sequential::Sequential;
use atomic_table::{Refused, Table};
use srp_base::{NoMemory, Seq};
use std::alloc::Global;
use std::mem;
use std::snapshot::Snapshot;

impl<S: Sequential> TurnLock<S> {
    /// A lock round a state, with its passes, numbered from 1 in the order of the list. At least
    /// one pass is asked for. After want of memory the state comes back.
    pub fn begin(
        alloc: Global,
        state: S,
        passes: u32,
    ) -> Result<(TurnLock<S>, Seq<Pass<S>>), (NoMemory, S)>
        requires { 0 < passes }
        ensures lock { IfOk result (λ r. (r.0.start ≡ state) × (r.0.passes ≡ passes)) }
        ensures passes { IfOk result (λ r. r.1 ≡ first_passes r.0 passes) }
        ensures no_memory { IfErr result (λ e. e.1 ≡ state) }
    {
        let terms = Terms {
            start: Snapshot::of(&state),
            passes,
        };
        let Ok(mut list) = Vec::with_capacity(alloc, passes as usize) else {
            return Err((NoMemory, state));
        };
        let Ok(bells) = Bells::new(alloc, passes) else {
            return Err((NoMemory, state));
        };
        match lay(alloc, state, &terms) {
            Ok((board, seat)) => {
                deal(&board.shared, seat, &terms, &mut list);
                Ok((TurnLock { board, bells }, Seq::from_vec(list)))
            }
            Err(state) => Err((NoMemory, state)),
        }
    }
}

// Lays the table, with the state in its slot.
fn lay<S: Sequential>(alloc: Global, state: S, terms: &Terms<S>) -> Result<(Whole<S>, Place<S>), S>
    requires { (terms.now.start.value ≡ state) × (0 < terms.now.passes) }
    ensures laid { IfOk result (λ r. IsLaid terms.now r.0.shared.table_id r.0.shared.key r.1) }
    ensures no_memory { IfErr result (λ s. s ≡ state) }
{
    let _passes = terms.passes;
    let Ok(mut slots) = Vec::with_capacity(alloc, 1) else {
        return Err(state);
    };
    let history = Vec::new(alloc);
    slots.push_reserved(Kept { state, history });
    match Table::new(alloc, &[0, 0], slots, terms) {
        Ok(laid) => Ok(laid),
        Err(refused) => Err(state_of(refused)),
    }
}

// The state of a table that wasn't laid.
fn state_of<S, Q: Copy, A: Copy>(refused: Refused<Kept<S, Q, A>, Global>) -> S
    requires { length refused.slots.items ≡ 1 }
    ensures { (kept : _) → refused.slots.items ≡ kept ∷ [] → result ≡ kept.state }
{
    let Refused { mut slots } = refused;
    let Some(kept) = slots.pop() else {
        unreachable!()
    };
    slots.destroy_empty();
    let Kept { state, history } = kept;
    drop(history);
    state
}

// A pass at a seat.
fn pass_at<S: Sequential>(terms: &Terms<S>, number: u32, seat: Place<S>) -> Pass<S>
    requires { IsPass terms.now.start.value terms.now.passes number seat.me }
    ensures { result ≡ record {
      lock = lock_of seat.table_id terms.now;
      number = number;
      seen = seen_by seat.me.0;
    } }
{
    Pass {
        number,
        terms: Snapshot::of(terms),
        seat,
    }
}

// Deals the next seat: the one that dealt it comes first.
fn deal_one<S: Sequential>(
    board: &Board<S>,
    mut seat: Place<S>,
    terms: &Terms<S>,
    number: u32,
) -> (Place<S>, Place<S>)
    requires { IsDealtFrom terms.now board.now.table_id board.now.key seat number
        × (number < terms.now.passes) }
    ensures left { IsPass terms.now.start.value terms.now.passes number result.0.me
        × (result.0.table_id ≡ seat.table_id) × (seen_by result.0.me.0 ≡ []) }
    ensures right { IsDealtFrom terms.now board.now.table_id board.now.key result.1 (number + 1) }
{
    let _passes = terms.passes;
    let next = board.split_seat::<Deal>(&mut seat);
    (seat, next)
}

// Deals a pass for each number, in order.
fn deal<S: Sequential>(board: &Board<S>, seat: Place<S>, terms: &Terms<S>, list: &mut Vec<Pass<S>>)
    requires seat { IsDealtFrom terms.now board.now.table_id board.now.key seat 1 }
    requires list { (list.old.items ≡ []) × (terms.now.passes ≤ vec_capacity list.old) }
    ensures { list.new.items
        ≡ first_passes (lock_of board.now.table_id terms.now) terms.now.passes }
{
    let passes = terms.passes;
    let mut seat = seat;
    let mut dealt = 0;
    while dealt + 1 < passes {
        dealt += 1;
        let (left, right) = deal_one(board, seat, terms, dealt);
        list.push_reserved(pass_at(terms, dealt, left));
        seat = right;
    }
    list.push_reserved(pass_at(terms, dealt + 1, seat));
}
