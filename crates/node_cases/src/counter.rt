//! A counter behind a lock: what its calls answer and what its history says; and a lock that is
//! closed without one of its passes.

ghost use Rattle.std.specs.Prelude.{◌≡◌};

use crate::sum::Counter;
use srp_base::Seq;
use std::alloc::Global;
use std::sync::Wait;
use std::test::Fail;
use turn_lock::{CloseErr, Closed, Pass, TurnLock};

fn call<R: Wait>(
    rt: &R,
    lock: &TurnLock<Counter>,
    pass: &mut Pass<Counter>,
    ask: u64,
) -> Option<u64>
    requires { pass.old.lock ≡ lock.now }
    ensures { (pass.new.lock ≡ lock.now) × (pass.new.number ≡ pass.old.number) }
{
    lock.call(rt, pass, ask, &|| ()).ok()
}

// Calls of 5 by the first pass, of 7 by the second and of 1 by the first.
fn three_calls<R: Wait>(rt: &R, alloc: Global) -> Option<((u64, u64, u64), Closed<Counter>)> {
    let (lock, passes) = TurnLock::begin(alloc, Counter { sum: 0 }, 2).ok()?;
    let mut passes = passes.into_vec();
    let mut second = passes.pop()?;
    let mut first = passes.pop()?;
    let five = call(rt, &lock, &mut first, 5)?;
    let twelve = call(rt, &lock, &mut second, 7)?;
    let thirteen = call(rt, &lock, &mut first, 1)?;
    passes.push(second).ok()?;
    passes.push(first).ok()?;
    let closed = lock.close(Seq::from_vec(passes)).ok()?;
    Some(((five, twelve, thirteen), closed))
}

#[test]
fn a_counter_answers_the_sums(rt: HostRuntime) -> Result<(), Fail> {
    let Some((answers, closed)) = three_calls(&rt, rt.alloc()) else {
        panic!(rt; "no memory")
    };
    assert!(rt; answers == (5, 12, 13));
    assert!(rt; closed.history.as_slice() == [(1, 5, 5), (2, 7, 12), (1, 1, 13)].as_slice());
    assert!(rt; closed.state.sum == 13);
    Ok(())
}

// What the one pass of a lock is answered, and what the lock holds at the end.
fn counted_alone<R: Wait>(rt: &R, alloc: Global) -> Option<(u64, u64)> {
    let (lock, passes) = TurnLock::begin(alloc, Counter { sum: 1 }, 1).ok()?;
    let mut passes = passes.into_vec();
    let mut only = passes.pop()?;
    let answer = call(rt, &lock, &mut only, 4)?;
    passes.push(only).ok()?;
    let closed = lock.close(Seq::from_vec(passes)).ok()?;
    Some((answer, closed.state.sum))
}

#[test]
fn a_lock_of_one_pass_counts_too(rt: HostRuntime) -> Result<(), Fail> {
    assert!(rt; counted_alone(&rt, rt.alloc()) == Some((5, 5)));
    Ok(())
}

// The number that is missing when a lock of two passes is closed with the second alone, and what it
// holds when it is closed with both.
fn closed_without_the_first(alloc: Global) -> Option<(u32, u32, u64)> {
    let (lock, passes) = TurnLock::begin(alloc, Counter { sum: 3 }, 2).ok()?;
    let mut passes = passes.into_vec();
    let second = passes.pop()?;
    let mut alone = Vec::new(alloc);
    alone.push(second).ok()?;
    let Err(
        CloseErr::MissingPass {
            number,
            lock,
            passes: back,
        },
    ) = lock.close(Seq::from_vec(alone))
    else {
        return None;
    };
    let mut back = back.into_vec();
    let second = back.pop()?;
    let held = second.number();
    passes.push(second).ok()?;
    let closed = lock.close(Seq::from_vec(passes)).ok()?;
    Some((number, held, closed.state.sum))
}

#[test]
fn a_missing_pass_is_named_and_all_comes_back(rt: HostRuntime) -> Result<(), Fail> {
    assert!(rt; closed_without_the_first(rt.alloc()) == Some((1, 2, 3)));
    Ok(())
}

// The number that is missing when a lock is closed with all passes but the middle one of three, and
// without any.
fn missing_of_three(alloc: Global) -> Option<(u32, u32)> {
    let (lock, passes) = TurnLock::begin(alloc, Counter { sum: 0 }, 3).ok()?;
    let mut passes = passes.into_vec();
    let third = passes.pop()?;
    let _second = passes.pop()?;
    passes.push(third).ok()?;
    let Err(
        CloseErr::MissingPass {
            number: middle,
            lock,
            passes: _,
        },
    ) = lock.close(Seq::from_vec(passes))
    else {
        return None;
    };
    let Err(
        CloseErr::MissingPass {
            number: first,
            lock: _,
            passes: _,
        },
    ) = lock.close(Seq::new(alloc))
    else {
        return None;
    };
    Some((middle, first))
}

#[test]
fn the_lowest_missing_pass_is_named(rt: HostRuntime) -> Result<(), Fail> {
    assert!(rt; missing_of_three(rt.alloc()) == Some((2, 1)));
    Ok(())
}
