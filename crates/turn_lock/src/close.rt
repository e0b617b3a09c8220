//! How a lock is closed: once all its passes are back, the state and the history come out.

ghost use Rattle.std.specs.Prelude.{◌≡◌, ℕ, ◌+◌, ◌<◌, ◌≤◌, ◌∷◌, [], ◌++◌, true, IfOk, IfErr, IfSome, IfNone, All};
ghost use Rattle.turn_lock.specs.declared.board.View.TheVariants.{Living};
ghost use Rattle.turn_lock.specs.Passes.{is_given, IsLowestMissing, IsPass, Lock};
ghost use Rattle.turn_lock.specs.Closing.{HasClosed, HasEndedAll, IsFree, TakesIn, IsLast, having_ended};
ghost use Rattle.turn_lock.specs.Turns.{IsBoard};
ghost use Rattle.turn_lock.specs.Refusal.{IsRefused};

use crate::board::{Board, Kept, Place, Whole};
use crate::lock::{Pass, TurnLock};
use crate::plays::TakeIn;
use crate::sequential::Sequential;
use srp_base::Seq;

/// What a lock held: the state, and the history that led to it, each call with the number of its
/// pass, what was asked and what was answered.
#[derive(Drop)]
pub struct Closed<S: Sequential> {
    pub state: S,
    pub history: Seq<(u32, S::Ask, S::Answer)>,
}

/// Why a lock stays open. Both hand everything back.
#[derive(Drop)]
pub enum CloseErr<S: Sequential> {
    /// A pass of the lock isn't in the list: the lowest such number.
    MissingPass {
        number: u32,
        lock: TurnLock<S>,
        passes: Seq<Pass<S>>,
    },
    /// Memory ran out.
    NoMemory {
        lock: TurnLock<S>,
        passes: Seq<Pass<S>>,
    },
}

// Whether a pass of the list has a number.
fn has_number<S: Sequential>(passes: &[Pass<S>], number: u32) -> bool
    ensures { result ≡ is_given passes.now number }
{
    passes.iter().any(|pass| pass.number() == number)
}

// The lowest number, from 1 to this count, of which no pass is in the list.
fn first_missing<S: Sequential>(passes: &[Pass<S>], count: u32) -> Option<u32>
    ensures some { IfSome result (λ number. IsLowestMissing count passes.now number) }
    ensures none { IfNone result ((number : ℕ) → 1 ≤ number → number ≤ count
        → is_given passes.now number ≡ true) }
{
    let mut given = 0;
    while given < count {
        if !has_number(passes, given + 1) {
            return Some(given + 1);
        }
        given += 1;
    }
    None
}

// Takes a pass in: what it has seen is known to the seat from then on.
fn take_in<S: Sequential>(board: &Board<S>, seat: &mut Place<S>, other: Pass<S>)
    requires board { IsBoard board.now.table_id }
    requires seat { (seat.old.table_id ≡ board.now.table_id) × IsFree seat.old.me }
    requires other { other.lock.table ≡ board.now.table_id }
    ensures seat { seat.new.table_id ≡ seat.old.table_id }
    ensures takes { (known : _) → seat.old.me ≡ (Living known, [])
        → seat.new.me ≡ (Living (having_ended known ((other.number, other.seen) ∷ [])), []) }
{
    let Pass {
        number: _,
        terms: _,
        seat: ended,
    } = other;
    board.join_seat::<TakeIn>(seat, ended);
}

// Takes all passes of a list in.
fn gather<S: Sequential>(board: &Board<S>, seat: &mut Place<S>, mut others: Vec<Pass<S>>)
    requires board { IsBoard board.now.table_id }
    requires seat { (seat.old.table_id ≡ board.now.table_id) × IsFree seat.old.me }
    requires others { All (λ p. p.lock.table ≡ board.now.table_id) others.items }
    ensures seat { seat.new.table_id ≡ seat.old.table_id }
    ensures takes { TakesIn seat.old.me others.items [] seat.new.me }
{
    while let Some(other) = others.pop() {
        take_in(board, seat, other);
    }
}

// The state and the history of a table of which one seat is left.
fn shut<S: Sequential>(board: Whole<S>, seat: Place<S>) -> Closed<S>
    requires board { IsBoard board.shared.table_id }
    requires seat { (seat.table_id ≡ board.shared.table_id) × IsLast seat.me board.shared.key.passes }
    ensures { (known : _) → seat.me ≡ (Living known, [])
        → HasEndedAll S.does board.shared.key.start.value board.shared.key.passes known
        result.state result.history }
{
    let mut closed = board.close_with(seat);
    let kept = closed.take(0);
    closed.free();
    let Kept { state, history } = kept;
    Closed {
        state,
        history: Seq::from_vec(history),
    }
}

// The seat of the last pass.
fn last_seat<S: Sequential>(last: Pass<S>) -> Place<S>
    ensures pass { IsPass last.lock.start last.lock.passes last.number result.me }
    ensures table { result.table_id ≡ last.lock.table }
    ensures seen { (known : _) → result.me ≡ (Living known, []) → known.seen ≡ last.seen }
{
    let Pass {
        number: _,
        terms: _,
        seat,
    } = last;
    seat
}

impl<S: Sequential> TurnLock<S> {
    // Closes the lock, of which all passes are given.
    fn end(self, mut passes: Vec<Pass<S>>) -> Closed<S>
        requires locks { All (λ p. p.lock ≡ self) passes.items }
        requires given { (number : ℕ) → 1 ≤ number → number ≤ self.passes
            → is_given passes.items number ≡ true }
        ensures { HasClosed S.does self passes.items result.state result.history }
    {
        let TurnLock { board, bells: _ } = self;
        let Some(last) = passes.pop() else {
            unreachable!()
        };
        let mut seat = last_seat(last);
        gather(&board.shared, &mut seat, passes);
        shut(board, seat)
    }

    /// Closes the lock with all its passes, in any order, and answers its state and its history.
    /// Where one is missing everything comes back.
    pub fn close(self, passes: Seq<Pass<S>>) -> Result<Closed<S>, CloseErr<S>>
        requires { All (λ p. p.lock ≡ self) passes }
        ensures closed { IfOk result (λ c. HasClosed S.does self passes c.state c.history) }
        ensures refused { IfErr result (λ e. IsRefused self passes e) }
    {
        match first_missing(passes.as_slice(), self.bells.count()) {
            Some(number) => Err(CloseErr::MissingPass {
                number,
                lock: self,
                passes,
            }),
            None => Ok(self.end(passes.into_vec())),
        }
    }
}
