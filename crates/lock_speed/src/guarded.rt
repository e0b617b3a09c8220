//! The calls of all threads under a `Mutex`, with the step and the note of a turn lock's call.

use crate::counter::Counter;
use srp_base::NoMemory;
use std::alloc::Global;
use std::sync::{Mutex, Wait};
use std::thread;
use std::thread::Threads;
use turn_lock::Sequential;

// What the Mutex keeps: a sum, and the history that led to it.
#[derive(Drop)]
struct Kept {
    counter: Counter,
    history: Vec<(u32, u64, u64)>,
}

impl Kept {
    // Makes a step, and notes it in the history.
    fn call(&mut self, number: u32, ask: u64) -> Result<u64, NoMemory> {
        self.history.reserve(1)?;
        let answer = self.counter.step(ask)?;
        self.history.push_reserved((number, ask, answer));
        Ok(answer)
    }
}

// Calls that each add 1.
fn calls<R: Wait>(rt: &R, kept: &Mutex<Kept>, number: u32, count: u64) {
    for _ in 0..count {
        let mut held = kept.lock(rt);
        let _ = held.call(number, 1);
    }
}

// The sum at the end, where so many threads make so many calls each that add 1.
pub(crate) fn sum<R: Threads + Wait + Sync>(
    rt: &R,
    alloc: Global,
    threads: u32,
    count: u64,
) -> Option<u64> {
    let kept = Mutex::new(Kept {
        counter: Counter { sum: 0 },
        history: Vec::new(alloc),
    });
    let kept_by_all = &kept;
    thread::map_indices(
        rt,
        alloc,
        threads as usize,
        &|number| { calls(rt, kept_by_all, number as u32, count) },
    )
    .ok()?;
    Some(kept.into_inner().counter.sum)
}
