//! What the words of the command line ask.

ghost use Rattle.std.specs.Prelude.{◌<◌};

use std::env;

// By what the calls are kept apart.
#[derive(Clone, Copy)]
pub(crate) enum Way {
    Lock,
    Mutex,
}

// Which way, and how many threads make how many calls each.
#[derive(Clone, Copy)]
pub(crate) struct Plan {
    pub(crate) way: Way,
    pub(crate) threads: u32,
    pub(crate) calls: u64,
    ghost some: { 0 < threads },
}

// The way that a word names.
fn way_of(word: &str) -> Option<Way> {
    match word {
        "lock" => Some(Way::Lock),
        "mutex" => Some(Way::Mutex),
        _ => None,
    }
}

// The plan of the words after the program's name: a way, threads from 1, and calls.
pub(crate) fn read_plan(words: env::Args) -> Option<Plan> {
    let mut words = words.skip(1);
    let way = way_of(words.next()?.as_str())?;
    let threads = words.next()?.parse::<u32>().ok()?;
    let calls = words.next()?.parse::<u64>().ok()?;
    if threads == 0 || words.next().is_some() {
        return None;
    }
    Some(Plan {
        way,
        threads,
        calls,
    })
}
