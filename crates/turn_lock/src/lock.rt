//! The lock and its passes.

ghost use Rattle.std.specs.Prelude.{◌≡◌, ◌≤◌, IfOk, OnErr};
ghost use Rattle.turn_lock.specs.Calls.{HasCalled, HasLooked};

use crate::bells::Bells;
use crate::board::{Place, Terms, Whole};
use crate::sequential::Sequential;
use crate::turn::turn;
use srp_base::NoMemory;
use std::marker::Model;
use std::snapshot::Snapshot;
use std::sync::Wait;

/// A lock round a state that threads step in turn. Contracts see the state that it began with and
/// its number of passes.
#[derive(Drop)]
pub struct TurnLock<S: Sequential> {
    pub(crate) board: Whole<S>,
    pub(crate) bells: Bells,
}

impl<S: Sequential> Model for TurnLock<S> {
    ghost use Rattle.std.specs.Prelude.{◌≡◌, ◌<◌};
    ghost use Rattle.turn_lock.specs.Passes.{Lock};
    ghost use Rattle.turn_lock.specs.Turns.{IsBoard};

    ghost Value = { Lock S };

    ghost view = { λ l. record {
      table = l.board.shared.table_id;
      start = l.board.shared.key.start.value;
      passes = l.bells;
    } };

    ghost invariant = { λ l. IsBoard l.board.shared.table_id
        × (l.board.shared.key.passes ≡ l.bells) × (0 < l.bells) };
}

/// The right to call a lock, for one thread at a time. Contracts see its lock, its number, and the
/// history as far as it has seen it.
#[derive(Drop)]
pub struct Pass<S: Sequential> {
    pub(crate) number: u32,
    pub(crate) terms: Snapshot<Terms<S>>,
    pub(crate) seat: Place<S>,
}

impl<S: Sequential> Model for Pass<S> {
    ghost use Rattle.turn_lock.specs.Passes.{PassOf, IsPass, seen_by};
    ghost use Rattle.turn_lock.specs.Laying.{lock_of};

    ghost Value = { PassOf S S.Ask S.Answer };

    ghost view = { λ p. record {
      lock = lock_of p.seat.table_id p.terms.value;
      number = p.number;
      seen = seen_by p.seat.me.0;
    } };

    ghost invariant = { λ p. IsPass p.terms.value.start.value p.terms.value.passes p.number p.seat.me };
}

impl<S: Sequential> Pass<S> {
    /// The pass's number: the passes of a lock are numbered from 1.
    pub fn number(&self) -> u32
        ensures value { result ≡ self.now.number }
        ensures range { (1 ≤ result) × (result ≤ self.now.lock.passes) }
    {
        self.number
    }
}

impl<S: Sequential> TurnLock<S> {
    /// Waits for its turn, calls `inside` once with the turn held, and steps the state. The answer
    /// is that of one thread at the call's place in one history, which begins with all that the
    /// pass had seen. After want of memory the state and the history are as before; the pass may
    /// have seen more of the history.
    pub fn call<R: Wait, F: Fn()>(
        &self,
        rt: &R,
        pass: &mut Pass<S>,
        ask: S::Ask,
        inside: &F,
    ) -> Result<S::Answer, NoMemory>
        requires pass { pass.old.lock ≡ self.now }
        requires inside { F.IsAlwaysCallable inside.now }
        ensures pass { (pass.new.lock ≡ self.now) × (pass.new.number ≡ pass.old.number) }
        ensures called { IfOk result (λ answer. HasCalled S.does self.now.start
            pass.old.number pass.old.seen ask answer pass.new.seen) }
        ensures no_memory { OnErr result (HasLooked S.does self.now.start
            pass.old.number pass.old.seen pass.new.seen) }
    {
        turn(
            rt,
            &self.board.shared,
            &self.bells,
            &mut pass.seat,
            pass.number,
            ask,
            inside,
        )
    }
}
