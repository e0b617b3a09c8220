//! `lock_speed`: how long calls take, through a turn lock (`turn_lock`) and under a `Mutex`, as a
//! program whose time is taken from outside (`tools/lock-speed`).
//!
//! ```text
//! words    what the words of the command line ask: a way, a number of threads, calls for each
//! counter  what is stepped: a sum
//! turns    the calls of all threads through a turn lock
//! guarded  the same calls under a Mutex, with the same step and the same note of it
//! ```
//!
//! `lock_speed lock 2 1000000` has two threads call a lock 1,000,000 times each,
//! `lock_speed mutex 2 1000000` the same under a `Mutex`. Each call adds 1, and its entry is pushed
//! on the history. What is printed is the sum at the end, the same whatever the schedule. Without
//! words both ways run, with few calls. There is no clock inside.
//!
//! Status 0: the sum is printed. Status 1: standard output fails. Status 2: the words are none of
//! these. Status 9: memory runs out.
#![tactic(auto)]

mod counter;
mod guarded;
mod turns;
mod words;

use crate::words::{Plan, Way, read_plan};
use std::alloc::Global;
use std::process::ExitCode;
use std::sync::Wait;
use std::thread::Threads;
use std::{env, io};

// What runs without words: a few calls of two threads, through a lock and under a Mutex.
const FEW: [Plan; 2] = [
    Plan {
        way: Way::Lock,
        threads: 2,
        calls: 1_000,
    },
    Plan {
        way: Way::Mutex,
        threads: 2,
        calls: 1_000,
    },
];

const BAD_WORDS: u8 = 2;

const NO_MEMORY: u8 = 9;

// The sum that the calls of a plan leave, or nothing after want of memory.
fn sum_of<R: Threads + Wait + Sync>(rt: &R, alloc: Global, plan: Plan) -> Option<u64> {
    match plan.way {
        Way::Lock => turns::sum(rt, alloc, plan.threads, plan.calls),
        Way::Mutex => guarded::sum(rt, alloc, plan.threads, plan.calls),
    }
}

// Runs plans, and prints the sum of each.
fn run<R: Threads + Wait + Sync + Print>(
    rt: &R,
    alloc: Global,
    plans: &[Plan],
) -> io::Result<ExitCode> {
    for plan in plans {
        match sum_of(rt, alloc, *plan) {
            Some(sum) => println!(rt; "{sum}")?,
            None => return Ok(ExitCode::from(NO_MEMORY)),
        }
    }
    Ok(ExitCode::SUCCESS)
}

fn main(rt: HostRuntime) -> io::Result<ExitCode> {
    let words = env::args(&rt)?;
    if words.len() < 2 {
        return run(&rt, rt.alloc(), &FEW);
    }
    match read_plan(words) {
        Some(plan) => run(&rt, rt.alloc(), &[plan]),
        None => Ok(ExitCode::from(BAD_WORDS)),
    }
}
