//! The table under a lock: two words, one slot, and what each seat knows.

use crate::sequential::Sequential;
use atomic_table::{Seat, Shared, Table, TableRule};
use std::alloc::Global;
use std::collections::LinkedList;
use std::marker::PhantomData;
use std::snapshot::Snapshot;

/// What lies in the slot: the state, and the history that led to it.
#[derive(Drop)]
pub struct Kept<S, Q, A> {
    pub state: S,
    pub history: Vec<(u32, Q, A)>,
}

/// Where a seat is in its turn. A ticket is a number without a bound. No value of it is made.
pub enum Stage {
    Idle,
    Waits(u64),
    Holds(u64),
}

/// What a living seat knows. No value of it is made.
pub struct Known<S, Q, A> {
    /// The state that the lock began with, and its number of passes.
    pub start: S,
    pub passes: u32,
    /// The number of this seat's pass, and whether the next pass was dealt from it.
    pub number: u32,
    pub dealt: bool,
    pub stage: Stage,
    /// The history, as far as this seat has seen it.
    pub seen: LinkedList<(u32, Q, A)>,
    /// The seats that were taken in: the number of each, and what it had seen.
    pub ended: LinkedList<(u32, LinkedList<(u32, Q, A)>)>,
}

/// What a seat knows: nothing, once another has taken it in. No value of it is made.
pub enum View<S, Q, A> {
    Spent,
    Living(Known<S, Q, A>),
}

/// What a lock is told once: the state that it begins with, and its number of passes.
#[derive(Drop)]
pub struct Terms<S> {
    pub start: Snapshot<S>,
    pub passes: u32,
}

/// The rule of the table.
pub struct InTurn<S> {
    marker: PhantomData<S>,
}

impl<S: Sequential> TableRule<Kept<S, S::Ask, S::Answer>, View<S, S::Ask, S::Answer>, Terms<S>>
    for InTurn<S> {
    ghost use Rattle.turn_lock.specs.Rule.{IsInTurn, first_view};

    ghost holds = { λ terms. IsInTurn S.does terms.start.value terms.passes };

    ghost first = { λ terms. first_view terms.start.value terms.passes };
}

/// A lock's table as threads see it.
pub type Board<S> = Shared<
    Kept<S, <S as Sequential>::Ask, <S as Sequential>::Answer>,
    View<S, <S as Sequential>::Ask, <S as Sequential>::Answer>,
    Terms<S>,
    InTurn<S>,
>;

/// A seat at a lock's table.
pub type Place<S> = Seat<
    Kept<S, <S as Sequential>::Ask, <S as Sequential>::Answer>,
    View<S, <S as Sequential>::Ask, <S as Sequential>::Answer>,
>;

/// A lock's table with its memory.
pub type Whole<S> = Table<
    Kept<S, <S as Sequential>::Ask, <S as Sequential>::Answer>,
    View<S, <S as Sequential>::Ask, <S as Sequential>::Answer>,
    Terms<S>,
    InTurn<S>,
    Global,
>;
