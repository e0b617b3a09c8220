//! The turns of a node's ports in a tick, each in a thread of its own.

ghost use Rattle.std.specs.Prelude.{◌≡◌, ℕ, [], true, false, IfOk};
ghost use Rattle.turn_lock.specs.Passes.{first_passes};
ghost use Rattle.port_worker.specs.Turns.{IsTurn, AreTurns};
ghost use Rattle.port_worker.specs.Begun.{IsBegun, AreBegun};

use crate::stack::small_stack;
use crate::turn::{Turn, take_turn};
use bridge_book::{Gate, NodeHub, PortPass};
use node_core::PortStep;
use srp_base::{NoMemory, NodeNo, Seq};
use std::sync::Wait;
use std::thread;
use std::thread::{Promise, PromisedHandle, Scope, Threads};

/// What a port's thread promises: a turn at this hub, of these jobs, by the pass of this number.
#[derive(Drop)]
pub(crate) struct TurnOf<'a> {
    pub(crate) hub: &'a NodeHub,
    pub(crate) jobs: &'a [Seq<PortStep>],
    pub(crate) number: u32,
}

impl<'a> Promise<Turn> for TurnOf<'a> {
    ghost kept_by = { λ p turn. (turn.pass.number ≡ p.number) × IsTurn p.hub.now p.jobs.now turn };
}

/// The turn of a port that a thread takes, or that is taken.
#[derive(Drop)]
pub(crate) enum Begun<'a> {
    There(PromisedHandle<Turn, TurnOf<'a>>),
    Here(Turn),
}

/// Lets each port take its turn, each but the last in a thread of its own where one can be made.
pub(crate) fn take_turns<R: Threads + Wait + Sync, G: Gate>(
    rt: &R,
    gate: &G,
    hub: &NodeHub,
    number: NodeNo,
    jobs: &[Seq<PortStep>],
    passes: Vec<PortPass>,
) -> Result<Vec<Turn>, NoMemory>
    requires { passes.items ≡ first_passes hub.now.lock hub.now.lock.passes }
    ensures { IfOk result (λ turns. AreTurns hub.now jobs.now turns.items) }
{
    thread::scope(
        thread::scope_env(),
        rt,
        |scope| -> Result<Vec<Turn>, NoMemory>
            requires { passes.items ≡ first_passes hub.now.lock hub.now.lock.passes }
            ensures { IfOk result (λ turns. AreTurns hub.entry.now jobs.entry.now turns.items) }
        {
            let begun = begin_turns(scope, rt, gate, hub, number, jobs, passes)?;
            let turns = end_turns(rt, begun)?;
            Ok(turns)
        },
    )
}

// Lets threads take the turns of all ports but the last, and takes that one here.
fn begin_turns<'s, E, R: Threads + Wait + Sync, G: Gate>(
    scope: &Scope<'s, E>,
    rt: &'s R,
    gate: &'s G,
    hub: &'s NodeHub,
    number: NodeNo,
    jobs: &'s [Seq<PortStep>],
    passes: Vec<PortPass>,
) -> Result<Vec<Begun<'s>>, NoMemory>
    requires { passes.items ≡ first_passes hub.now.lock hub.now.lock.passes }
    ensures { IfOk result (λ all. AreBegun hub.now jobs.now all.items) }
{
    let mut all = Vec::with_capacity(*passes.allocator(), passes.len())?;
    let mut left = passes.len();
    for pass in passes {
        left = left.saturating_sub(1);
        all.push(begin_turn(scope, rt, gate, hub, number, jobs, pass, left == 0))?;
    }
    Ok(all)
}

// The turns that have begun, once all are taken.
fn end_turns<R: Threads>(rt: &R, begun: Vec<Begun>) -> Result<Vec<Turn>, NoMemory>
    ensures { IfOk result (λ turns. (hub : _) (jobs : _) → AreBegun hub jobs begun.entry.items
        → AreTurns hub jobs turns.items) }
{
    let mut turns = Vec::with_capacity(*begun.allocator(), begun.len())?;
    for one in begun {
        turns.push(end_turn(rt, one))?;
    }
    Ok(turns)
}

// Lets a port take its turn: here, or in a thread of its own where one can be made.
fn begin_turn<'s, E, R: Threads + Wait + Sync, G: Gate>(
    scope: &Scope<'s, E>,
    rt: &'s R,
    gate: &'s G,
    hub: &'s NodeHub,
    number: NodeNo,
    jobs: &'s [Seq<PortStep>],
    pass: PortPass,
    is_here: bool,
) -> Begun<'s>
    requires lock { pass.lock ≡ hub.now.lock }
    requires new { pass.seen ≡ [] }
    ensures { IsBegun hub.now jobs.now pass.number result }
{
    if is_here {
        return Begun::Here(take_turn(rt, gate, hub, number, jobs, pass));
    }
    let promise = TurnOf {
        hub,
        jobs,
        number: pass.number(),
    };
    let take = move || -> Turn
        requires { (pass.lock ≡ hub.now.lock) × (pass.seen ≡ []) }
        ensures { (result.pass.number ≡ pass.number) × IsTurn hub.entry.now jobs.entry.now result }
    { take_turn(rt, gate, hub, number, jobs, pass) };
    match small_stack().spawn_scoped_with(scope, promise, take) {
        Ok(thread) => Begun::There(thread),
        Err(refused) => Begun::Here((refused.value)()),
    }
}

// The turn that has begun, once it is taken.
fn end_turn<R: Threads>(rt: &R, begun: Begun) -> Turn
    ensures { (hub : _) (jobs : _) (number : ℕ) → IsBegun hub jobs number begun.entry
        → (result.pass.number ≡ number) × IsTurn hub jobs result }
{
    match begun {
        Begun::There(thread) => thread.join(rt),
        Begun::Here(turn) => turn,
    }
}
