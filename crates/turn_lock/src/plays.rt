//! What each step on the table tells the pass that makes it.

ghost use Rattle.turn_lock.specs.Steps.{drew, looked, advanced, dealer, next_view, taker};
ghost use Rattle.turn_lock.specs.declared.board.View.TheVariants.{Spent};

use crate::board::{Kept, View};
use crate::sequential::Sequential;
use atomic_table::{Join, Play, Split};
use std::marker::PhantomData;

/// Drawing a ticket.
pub(crate) struct Draw;

impl<S, Q, A> Play<Kept<S, Q, A>, View<S, Q, A>> for Draw {
    ghost then = { drew };
}

/// Reading which ticket is served, and taking the slot where it is the seat's own.
pub(crate) struct Look<S> {
    marker: PhantomData<S>,
}

impl<S: Sequential> Play<Kept<S, S::Ask, S::Answer>, View<S, S::Ask, S::Answer>> for Look<S> {
    ghost then = { looked S.does };
}

/// Giving the slot back, and serving the next ticket.
pub(crate) struct Advance;

impl<S, Q, A> Play<Kept<S, Q, A>, View<S, Q, A>> for Advance {
    ghost then = { advanced };
}

/// Dealing the next pass.
pub(crate) struct Deal;

impl<S, Q, A> Split<View<S, Q, A>> for Deal {
    ghost left = { dealer };

    ghost right = { next_view };
}

/// Taking a seat in.
pub(crate) struct TakeIn;

impl<S, Q, A> Join<View<S, Q, A>> for TakeIn {
    ghost both = { taker };

    ghost spent = { Spent };
}
