//! `srpnet`: the Stream Reservation Protocol (IEEE Std 802.1Q-2018) over a file, as a program.
//!
//! ```text
//! top        srp_main, srp_plain: words and streams in, an outcome out
//! words      the table of the command line
//! commands   what each command makes of the octets of an input: its arm
//! |- ledger  bookings of one port: file, input, bookings, text
//! |- check   what a scenario holds, by its counts: text
//! |- explain why a file is refused, in words
//! |- run     a network and its frames through the ticks of a scenario, with its journal or without: text
//! |- ports   the same with a thread for each port that has something to do
//! |- bounds  the same as run, with how long class B waits at each port: limits, text
//! |- plan    which wishes of a plan are granted, and what it takes to grant the rest: text
//! |- captures what goes over a link in a run, as a capture file
//! |- margins what each port has left at the end of a run
//! |- audit   whether a journal and a report are those of a legal run: parts, where two texts differ, what is found, and what is said of it
//! |- groups  a network that runs MMRP through the ticks of a group scenario: input, text
//! |- decode  what captured PDUs say, in a text or in a capture file
//! |- replay  what stood at the ends of a captured link, what was owed there, and what was broken
//! |- generator  the scenario of a number, its run in short, or the scenario as a file
//! '- pages   --help and --version
//! scenario   the input of the commands that read a scenario, or a plan that stands for one
//! document   octets to a TOML table
//! outcome    causes, their statuses and their texts
//! ```
//!
//! The top call's contract is one record, `IsEnding`: which words are bad, which text goes out for
//! which input, and why each other status comes.
//!
//! To add a command: a module with its input, its text and its `output`, as `ledger` has; a row of
//! the table in `words`; an arm in `reads_input` and `output` of `commands`; and a line in each
//! definition of `specs/Words.antt` and `specs/Commands.antt`; a command whose output may say no has
//! one in `IsVerdict` too. A new cause has a line in `place_of_cause`, `status_of` and `err_text` of
//! `specs/Outcomes.antt`, and in `status_of` and `tell` of `outcome`.
#![tactic(auto)]

mod audit;
mod bounds;
mod captures;
mod check;
mod commands;
mod decode;
mod delays;
mod document;
mod explain;
mod generator;
mod groups;
mod ledger;
mod margins;
mod outcome;
mod pages;
mod plan;
mod ports;
mod replay;
mod run;
mod scenario;
mod top;
mod words;

use srp_base::{NoMemory, Seq};
use srp_io::{StdSink, StdSource};
use std::alloc::Global;
use std::process::ExitCode;
use std::{env, io};

/// The status where the words can't be had for want of memory.
const NO_MEMORY: u8 = 9;

/// A word that matches no row of the table: what stands for a word that isn't UTF-8.
const NO_WORD: &str = "";

/// The words of the command line without the program's name, each as its octets.
fn words_of(alloc: Global, args: io::Result<env::Args>) -> Result<Seq<Seq<u8>>, NoMemory> {
    let mut words = Vec::new(alloc);
    match args {
        Ok(args) => {
            for arg in args.skip(1) {
                words.push(Seq::from_vec(arg.into_bytes()))?;
            }
        }
        Err(error) => {
            if error.kind() == io::ErrorKind::OutOfMemory {
                return Err(NoMemory);
            }
            let word = String::from_str(alloc, NO_WORD)?;
            words.push(Seq::from_vec(word.into_bytes()))?;
        }
    }
    Ok(Seq::from_vec(words))
}

fn main(rt: HostRuntime) -> ExitCode {
    let words = match words_of(rt.alloc(), env::args(&rt)) {
        Ok(words) => words,
        Err(_) => return ExitCode::from(NO_MEMORY),
    };
    let mut source = StdSource::new(rt.stdin());
    let mut out = StdSink::new(rt.stdout());
    let mut err = StdSink::new(rt.stderr());
    let outcome = top::srp_main(&rt, &words, &mut source, &mut out, &mut err);
    ExitCode::from(outcome.status)
}
