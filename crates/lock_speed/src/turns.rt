//! The calls of all threads through a turn lock.

ghost use Rattle.std.specs.Prelude.{◌≡◌, ◌<◌, All, IfSome};
ghost use Rattle.turn_lock.specs.Passes.{first_passes};

use crate::counter::Counter;
use srp_base::Seq;
use std::alloc::Global;
use std::sync::Wait;
use std::thread;
use std::thread::Threads;
use turn_lock::{Pass, TurnLock};

// Calls that each add 1, by one pass.
fn calls<R: Wait>(
    rt: &R,
    lock: &TurnLock<Counter>,
    pass: Pass<Counter>,
    count: u64,
) -> Pass<Counter>
    requires { pass.lock ≡ lock.now }
    ensures { result.lock ≡ lock.now }
{
    let mut pass = pass;
    for _ in 0..count {
        let _ = lock.call(rt, &mut pass, 1, &|| ());
    }
    pass
}

// The calls of all passes, each by a thread of its own where one can be made.
fn in_threads<R: Threads + Wait + Sync>(
    rt: &R,
    lock: &TurnLock<Counter>,
    passes: Vec<Pass<Counter>>,
    count: u64,
) -> Option<Vec<Pass<Counter>>>
    requires { All (λ p. p.lock ≡ lock.now) passes.items }
    ensures { IfSome result (λ back. All (λ p. p.lock ≡ lock.now) back.items) }
{
    thread::map_vec(rt, passes, &|pass| calls(rt, lock, pass, count)).ok()
}

// A lock round a sum of 0, and its passes.
fn begun(alloc: Global, threads: u32) -> Option<(TurnLock<Counter>, Vec<Pass<Counter>>)>
    requires { 0 < threads }
    ensures { IfSome result (λ r. r.1.items ≡ first_passes r.0 threads) }
{
    let (lock, passes) = TurnLock::begin(alloc, Counter { sum: 0 }, threads).ok()?;
    Some((lock, passes.into_vec()))
}

// The sum at the end, where so many threads make so many calls each that add 1.
pub(crate) fn sum<R: Threads + Wait + Sync>(
    rt: &R,
    alloc: Global,
    threads: u32,
    count: u64,
) -> Option<u64>
    requires { 0 < threads }
{
    let (lock, passes) = begun(alloc, threads)?;
    let passes = in_threads(rt, &lock, passes, count)?;
    let closed = lock.close(Seq::from_vec(passes)).ok()?;
    Some(closed.state.sum)
}
