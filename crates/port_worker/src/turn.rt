//! The turn of a port in a tick, which a thread of its own takes.

ghost use Rattle.std.specs.Prelude.{◌≡◌, ◌≤◌, ◌++◌, ◌∷◌, [], true, false, length, take, IfOk};
ghost use Rattle.bridge_book.specs.Hub.{ask_by};
ghost use Rattle.port_worker.specs.Turns.{asks_of, asked_by, own_jobs, IsTurn, IsDone};

use bridge_book::{Gate, NodeHub, PortPass};
use node_core::{PortStep, no_key};
use srp_base::{NoMemory, NodeNo, PortNo, Seq};
use std::sync::Wait;

/// A port's pass, and how many of its jobs of a tick are done.
#[derive(Drop)]
pub(crate) struct Turn {
    pub(crate) pass: PortPass,
    pub(crate) done: usize,
}

/// Takes the turn of a port, as its thread does: the gate is told before the first of its jobs and
/// after the last one. Where memory runs out the rest is left undone.
pub(crate) fn take_turn<R: Wait, G: Gate>(
    rt: &R,
    gate: &G,
    hub: &NodeHub,
    number: NodeNo,
    jobs: &[Seq<PortStep>],
    pass: PortPass,
) -> Turn
    requires lock { pass.lock ≡ hub.now.lock }
    requires new { pass.seen ≡ [] }
    ensures turn { IsTurn hub.now jobs.now result }
    ensures number { result.pass.number ≡ pass.number }
{
    let port = port_of(&pass);
    gate.arrive(number, port);
    go_on(rt, gate, hub, number, jobs, Turn { pass, done: 0 })
}

/// Finishes the turn of a port: what its thread left undone is done here.
pub(crate) fn finish<R: Wait, G: Gate>(
    rt: &R,
    gate: &G,
    hub: &NodeHub,
    number: NodeNo,
    jobs: &[Seq<PortStep>],
    turn: Turn,
) -> Result<PortPass, NoMemory>
    requires { IsTurn hub.now jobs.now turn }
    ensures done { IfOk result (λ pass. IsDone hub.now jobs.now pass) }
    ensures number { IfOk result (λ pass. pass.number ≡ turn.pass.number) }
{
    if turn.done == jobs_of(jobs, &turn.pass).len() {
        return whole(hub, jobs, turn);
    }
    whole(hub, jobs, go_on(rt, gate, hub, number, jobs, turn))
}

// The pass of a turn of which nothing is left.
fn whole(hub: &NodeHub, jobs: &[Seq<PortStep>], turn: Turn) -> Result<PortPass, NoMemory>
    requires { IsTurn hub.now jobs.now turn }
    ensures done { IfOk result (λ pass. IsDone hub.now jobs.now pass) }
    ensures number { IfOk result (λ pass. pass.number ≡ turn.pass.number) }
{
    let Turn { pass, done } = turn;
    if done < jobs_of(jobs, &pass).len() {
        return Err(NoMemory);
    }
    Ok(pass)
}

// Makes the jobs that a port has left, and tells the gate where all are done.
fn go_on<R: Wait, G: Gate>(
    rt: &R,
    gate: &G,
    hub: &NodeHub,
    number: NodeNo,
    jobs: &[Seq<PortStep>],
    turn: Turn,
) -> Turn
    requires { IsTurn hub.now jobs.now turn }
    ensures turn { IsTurn hub.now jobs.now result }
    ensures number { result.pass.number ≡ turn.pass.number }
{
    let Turn { mut pass, done } = turn;
    let port = port_of(&pass);
    let steps = jobs_of(jobs, &pass);
    let done = make_from(rt, gate, hub, &mut pass, steps, done);
    if done == steps.len() {
        gate.answered(number, port);
    }
    Turn { pass, done }
}

// The port of a pass, as a gate is told of it: a hub has no pass of a number above 255.
fn port_of(pass: &PortPass) -> PortNo {
    PortNo(pass.number().min(255) as u8)
}

// The jobs of a pass's port.
fn jobs_of<'a>(jobs: &'a [Seq<PortStep>], pass: &PortPass) -> &'a [PortStep]
    ensures { result.now ≡ own_jobs jobs.now pass.now }
{
    let _ = no_key();
    let place = (pass.number() as usize).saturating_sub(1);
    match jobs.get(place) {
        Some(steps) => steps.as_slice(),
        None => &[],
    }
}

// Makes these jobs from one on, and answers how many are done then.
#[tactic(auto, using(crate::proofs::TurnLemmas::asked_more))]
fn make_from<R: Wait, G: Gate>(
    rt: &R,
    gate: &G,
    hub: &NodeHub,
    pass: &mut PortPass,
    steps: &[PortStep],
    from: usize,
) -> usize
    requires lock { pass.old.lock ≡ hub.now.lock }
    requires few { from ≤ length steps.now }
    requires made { asked_by pass.old ≡ asks_of pass.old.number (take from steps.now) }
    ensures lock { pass.new.lock ≡ hub.now.lock }
    ensures number { pass.new.number ≡ pass.old.number }
    ensures few { result ≤ length steps.now }
    ensures made { asked_by pass.new ≡ asks_of pass.new.number (take result steps.now) }
{
    let _ = no_key();
    for i in from..steps.len() {
        if !make_one(rt, gate, hub, pass, &steps[i]) {
            return i;
        }
    }
    steps.len()
}

// Makes a job, and answers whether there was memory for it.
fn make_one<R: Wait, G: Gate>(
    rt: &R,
    gate: &G,
    hub: &NodeHub,
    pass: &mut PortPass,
    step: &PortStep,
) -> bool
    requires { pass.old.lock ≡ hub.now.lock }
    ensures lock { pass.new.lock ≡ hub.now.lock }
    ensures number { pass.new.number ≡ pass.old.number }
    ensures made { result ≡ true → asked_by pass.new
        ≡ asked_by pass.old ++ ask_by pass.old step.now ∷ [] }
    ensures left { result ≡ false → asked_by pass.new ≡ asked_by pass.old }
{
    let _ = no_key();
    match hub.step(rt, gate, pass, *step) {
        Ok(_) => true,
        Err(_) => false,
    }
}
