//! A counter that two threads call at the same time, and what goes on inside a turn.

ghost use Rattle.std.specs.Prelude.{◌≡◌};
ghost use Rattle.std.specs.Thread.{IsSync};

use crate::sum::Counter;
use srp_base::Seq;
use std::alloc::Global;
use std::snapshot::Snapshot;
use std::sync::Wait;
use std::sync::atomic::{AtomicBool, AtomicU64, Ordering};
use std::thread;
use std::thread::{Promise, Threads};
use turn_lock::{Closed, Pass, TurnLock};

// How often each thread calls.
const CALLS: u64 = 20_000;

// What is seen from inside the turns.
#[derive(Drop)]
struct Inside {
    // How many times `inside` was called.
    calls: AtomicU64,
    // Whether a turn is being taken.
    busy: AtomicBool,
    // How many times one turn began inside another.
    overlaps: AtomicU64,
}

impl Inside {
    fn new() -> Inside {
        Inside {
            calls: AtomicU64::new(0),
            busy: AtomicBool::new(false),
            overlaps: AtomicU64::new(0),
        }
    }

    // What a call does inside its turn.
    fn pass_by(&self) {
        if self.busy.swap(true, Ordering::SeqCst) {
            self.overlaps.fetch_add(1, Ordering::SeqCst);
        }
        self.calls.fetch_add(1, Ordering::SeqCst);
        self.busy.store(false, Ordering::SeqCst);
    }
}

// A pass comes back with its lock and its number.
#[derive(Drop)]
struct SamePass(Snapshot<Pass<Counter>>);

impl Promise<Pass<Counter>> for SamePass {
    ghost kept_by = { λ p r. (r.lock ≡ p.0.value.lock) × (r.number ≡ p.0.value.number) };
}

// Calls that each add 1, by one pass.
fn calls<R: Wait>(
    rt: &R,
    lock: &TurnLock<Counter>,
    pass: Pass<Counter>,
    inside: &Inside,
) -> Pass<Counter>
    requires { pass.lock ≡ lock.now }
    ensures { (result.lock ≡ pass.lock) × (result.number ≡ pass.number) }
{
    let mut pass = pass;
    for _ in 0..CALLS {
        let _ = lock.call(rt, &mut pass, 1, &|| inside.pass_by());
    }
    pass
}

// The calls of both passes, each by a thread of its own. Where no thread can be made its calls are
// made here.
fn in_two_threads<R: Threads + Wait + Sync>(
    rt: &R,
    lock: &TurnLock<Counter>,
    first: Pass<Counter>,
    second: Pass<Counter>,
    inside: &Inside,
) -> (Pass<Counter>, Pass<Counter>)
    requires { (first.lock ≡ lock.now) × (second.lock ≡ lock.now) }
    ensures { (result.0.lock ≡ lock.now) × (result.1.lock ≡ lock.now) }
{
    thread::scope(
        thread::scope_env(),
        rt,
        move |scope| -> (Pass<Counter>, Pass<Counter>)
            requires { IsSync R.row × (first.lock ≡ lock.now) × (second.lock ≡ lock.now) }
            ensures { (result.0.lock ≡ lock.entry.now) × (result.1.lock ≡ lock.entry.now) }
        {
            let one = scope.spawn_with(SamePass(Snapshot::of(&first)), move || {
                calls(rt, lock, first, inside)
            });
            let two = scope.spawn_with(SamePass(Snapshot::of(&second)), move || {
                calls(rt, lock, second, inside)
            });
            let two = match two {
                Ok(child) => child.join(rt),
                Err(refused) => (refused.value)(),
            };
            let one = match one {
                Ok(child) => child.join(rt),
                Err(refused) => (refused.value)(),
            };
            (one, two)
        },
    )
}

fn counted<R: Threads + Wait + Sync>(
    rt: &R,
    alloc: Global,
    inside: &Inside,
) -> Option<Closed<Counter>> {
    let (lock, passes) = TurnLock::begin(alloc, Counter { sum: 0 }, 2).ok()?;
    let mut passes = passes.into_vec();
    let second = passes.pop()?;
    let first = passes.pop()?;
    let (first, second) = in_two_threads(rt, &lock, first, second, inside);
    passes.push(first).ok()?;
    passes.push(second).ok()?;
    lock.close(Seq::from_vec(passes)).ok()
}

// How many of the calls are a pass's.
fn calls_of(closed: &Closed<Counter>, number: u32) -> usize {
    closed
        .history
        .as_slice()
        .iter()
        .filter(|entry| entry.0 == number)
        .count()
}

// Whether each call's answer is its place in the history.
fn answers_ascend(closed: &Closed<Counter>) -> bool {
    let mut place = 0u64;
    for entry in closed.history.as_slice() {
        place = place.wrapping_add(1);
        if entry.2 != place {
            return false;
        }
    }
    true
}

#[test]
fn two_threads_add_up(rt: HostRuntime) -> Result<(), std::test::Fail> {
    let inside = Inside::new();
    let Some(closed) = counted(&rt, rt.alloc(), &inside) else {
        panic!(rt; "no memory")
    };
    assert!(rt; closed.state.sum == 40_000);
    assert!(rt; calls_of(&closed, 1) == 20_000);
    assert!(rt; calls_of(&closed, 2) == 20_000);
    assert!(rt; answers_ascend(&closed));
    assert!(rt; inside.calls.load(Ordering::SeqCst) == 40_000);
    assert!(rt; inside.overlaps.load(Ordering::SeqCst) == 0);
    Ok(())
}
