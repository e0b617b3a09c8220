//! The steps of all nodes in a tick, each node that has something to do in a thread of its own.

ghost use Rattle.std.specs.Prelude.{◌≡◌, IfOk};
ghost use Rattle.port_worker.specs.Gathered.{AreWorked};
ghost use Rattle.port_worker.specs.Worked.{IsWorked};
ghost use Rattle.port_worker.specs.Working.{IsWorking, AreWorking};

use crate::node::{Task, Worked, has_jobs, work};
use crate::stack::small_stack;
use bridge_book::Gate;
use srp_base::NoMemory;
use std::alloc::Global;
use std::snapshot::Snapshot;
use std::sync::Wait;
use std::thread;
use std::thread::{Promise, PromisedHandle, Scope, Threads};

/// What a node's thread promises: this node's steps of a tick, or want of memory.
#[derive(Drop)]
pub(crate) struct WorkOf {
    pub(crate) task: Snapshot<Task>,
}

impl Promise<Result<Worked, NoMemory>> for WorkOf {
    ghost kept_by = { λ p worked. IfOk worked (IsWorked p.task.value) };
}

/// A node that a thread lets make its steps, or that has made them.
#[derive(Drop)]
pub(crate) enum Working {
    There(PromisedHandle<Result<Worked, NoMemory>, WorkOf>),
    Here(Result<Worked, NoMemory>),
}

/// Lets these nodes make their steps of a tick: each that has something to do in a thread of its
/// own where one can be made, but the last of them and the others here.
pub(crate) fn work_all<R: Threads + Wait + Sync, G: Gate>(
    rt: &R,
    alloc: Global,
    gate: &G,
    tasks: Vec<Task>,
) -> Result<Vec<Worked>, NoMemory>
    ensures { IfOk result (λ all. AreWorked tasks.items all.items) }
{
    thread::scope(
        thread::scope_env(),
        rt,
        |scope| -> Result<Vec<Worked>, NoMemory>
            ensures { IfOk result (λ all. AreWorked tasks.items all.items) }
        {
            let working = begin_all(scope, rt, alloc, gate, tasks)?;
            end_all(rt, alloc, working)
        },
    )
}

// Begins the work of all these nodes.
fn begin_all<'s, E, R: Threads + Wait + Sync, G: Gate>(
    scope: &Scope<'s, E>,
    rt: &'s R,
    alloc: Global,
    gate: &'s G,
    tasks: Vec<Task>,
) -> Result<Vec<Working>, NoMemory>
    ensures { IfOk result (λ all. AreWorking tasks.items all.items) }
{
    let mut all = Vec::with_capacity(alloc, tasks.len())?;
    let mut left = busy_of(tasks.as_slice());
    for task in tasks {
        let is_busy = has_jobs(&task.node);
        left = left.saturating_sub(is_busy as usize);
        let is_here = !is_busy || left == 0;
        all.push(begin_work(scope, rt, alloc, gate, task, is_here))?;
    }
    Ok(all)
}

// How many of these nodes have something to do.
fn busy_of(tasks: &[Task]) -> usize {
    tasks.iter().filter(|task| has_jobs(&task.node)).count()
}

// The nodes whose work has begun, once it is done.
fn end_all<R: Threads>(
    rt: &R,
    alloc: Global,
    working: Vec<Working>,
) -> Result<Vec<Worked>, NoMemory>
    ensures { IfOk result (λ all. (tasks : _) → AreWorking tasks working.items
        → AreWorked tasks all.items) }
{
    let mut all = Vec::with_capacity(alloc, working.len())?;
    for one in working {
        all.push(end_work(rt, one)?)?;
    }
    Ok(all)
}

// Lets a node make its steps: here, or in a thread of its own where one can be made.
fn begin_work<'s, E, R: Threads + Wait + Sync, G: Gate>(
    scope: &Scope<'s, E>,
    rt: &'s R,
    alloc: Global,
    gate: &'s G,
    task: Task,
    is_here: bool,
) -> Working
    ensures { IsWorking task result }
{
    if is_here {
        return Working::Here(work(rt, alloc, gate, task));
    }
    let promise = WorkOf {
        task: Snapshot::of(&task),
    };
    let make = move || -> Result<Worked, NoMemory>
        ensures { IfOk result (IsWorked task) }
    { work(rt, alloc, gate, task) };
    match small_stack().spawn_scoped_with(scope, promise, make) {
        Ok(thread) => Working::There(thread),
        Err(refused) => Working::Here((refused.value)()),
    }
}

// A node whose work has begun, once it is done.
fn end_work<R: Threads>(rt: &R, working: Working) -> Result<Worked, NoMemory>
    ensures { IfOk result (λ worked. (task : _) → IsWorking task working → IsWorked task worked) }
{
    match working {
        Working::There(thread) => thread.join(rt),
        Working::Here(worked) => worked,
    }
}
