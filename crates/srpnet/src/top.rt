//! The top call: from the program's words and streams to its outcome.

ghost use Rattle.std.specs.Prelude.{◌≡◌, ℕ, ◌<◌, ◌+◌, true, List, length, take, Some, Err, IfOk, IfErr, IfSome, OnOk};
ghost use Rattle.std.specs.Io.KnownBytes.{Appends};
ghost use Rattle.srp_io.specs.{Faults.Rose, Whole.TookAtMost, Whole.TookPast};
ghost use Rattle.srpnet.specs.Outcomes.{status_of as status_of_spec, ended as ended_spec, err_text, EndsAs, EndsWriting, IsRefusedInput, IsWriteFault, LacksOutput};
ghost use Rattle.srpnet.specs.Ending.{CarriedOut, IsEnding};
ghost use Rattle.srpnet.specs.Made.{IsMade, IsLetOut, IsPrinted};
ghost use Rattle.srpnet.specs.TopCall.{PartOf, StoppedIn, StopsWriting, GainsFront};
ghost use Rattle.srpnet.specs.Words.{command_of as command_of_spec, plain_command_of as plain_command_of_spec, starts_threads, IsPlain};

use crate::commands::{Answer, most_octets, output, output_by_threads, reads_input};
use crate::outcome::{Cause, Ending, Outcome, status_of, tell};
use crate::words::{Command, plain_command_of, threads_command_of};
use srp_base::Seq;
use srp_io::{Sink, Source, WriteErr, read_all, write_whole};
use srp_report::Printout;
use std::alloc::Global;
use std::sync::Wait;
use std::thread::Threads;

/// Reads the input of a command that starts no thread to its end, where it reads one, and makes the
/// command's answer.
fn read_output<I: Source>(alloc: Global, command: Command, source: &mut I) -> Result<Answer, Cause>
    requires { IsPlain command }
    ensures { IsMade I.left I.faults command source.old source.new result }
{
    if !reads_input(command) {
        return output(alloc, command, b"".as_slice());
    }
    let octets = read_all(alloc, source, most_octets(command))?;
    output(alloc, command, octets.as_slice())
}

/// Reads the input of a command that starts threads to its end, and makes the command's answer.
fn read_output_by_threads<R: Threads + Wait + Sync, I: Source>(
    rt: &R,
    alloc: Global,
    command: Command,
    source: &mut I,
) -> Result<Answer, Cause>
    requires { starts_threads command ≡ true }
    ensures { IsMade I.left I.faults command source.old source.new result }
{
    let whole = read_all(alloc, source, most_octets(command))?;
    output_by_threads(rt, alloc, command, whole.as_slice())
}

/// Writes a text to the out sink, piece by piece.
fn print<O: Sink>(out: &mut O, text: Printout) -> Cause
    ensures done { result ≡ Cause.Done → Appends (O.held out.old) (O.held out.new) text }
    ensures part { (written : ℕ) → result ≡ Cause.WriteFault written
        → Appends (O.held out.old) (O.held out.new) (take written text) }
    ensures short { (written : ℕ) → result ≡ Cause.WriteFault written → written < length text }
    ensures fault { (written : ℕ) → result ≡ Cause.WriteFault written
        → Rose (O.faults out.old) (O.faults out.new) }
    ensures counts { (IsWriteFault result → ⊥) → O.faults out.new ≡ O.faults out.old }
    ensures memory { result ≡ Cause.NoMemory → PartOf (O.held out.old) (O.held out.new) text }
    ensures only { EndsWriting result }
{
    let mut rest = text;
    let mut written = 0;
    loop {
        match rest.next_piece() {
            Ok(Some(piece)) => match print_piece(out, written, piece.as_slice()) {
                Ok(now) => written = now,
                Err(cause) => return cause,
            },
            Ok(None) => return Cause::Done,
            Err(_) => return Cause::NoMemory,
        }
    }
}

/// Writes a piece of a text, which isn't empty, behind so many octets of it, and answers how many
/// have gone out then. No text of a scenario that keeps the rules comes near 2^64 octets; one that
/// passed them would end as where memory runs out.
fn print_piece<O: Sink>(out: &mut O, written: u64, piece: &[u8]) -> Result<u64, Cause>
    requires { 0 < length piece.now }
    ensures whole { OnOk result (Appends (O.held out.old) (O.held out.new) piece.now) }
    ensures written { IfOk result (λ now. now ≡ written + length piece.now) }
    ensures part { (now : ℕ) → result ≡ Err (Cause.WriteFault now)
        → StoppedIn (O.held out.old) (O.held out.new) piece.now written now }
    ensures fault { (now : ℕ) → result ≡ Err (Cause.WriteFault now)
        → Rose (O.faults out.old) (O.faults out.new) }
    ensures counts { OnOk result (O.faults out.new ≡ O.faults out.old) }
    ensures counts_without_fault { IfErr result (λ cause. (IsWriteFault cause → ⊥)
        → O.faults out.new ≡ O.faults out.old) }
    ensures memory { result ≡ Err Cause.NoMemory
        → PartOf (O.held out.old) (O.held out.new) piece.now }
    ensures only { IfErr result StopsWriting }
{
    let Some(all) = written.checked_add(piece.len() as u64) else {
        return Err(Cause::NoMemory);
    };
    match write_whole(out, piece) {
        Ok(()) => Ok(all),
        Err(WriteErr::Fault { written: front }) => Err(Cause::WriteFault {
            written: written + front,
        }),
        Err(WriteErr::NoMemory { .. }) => Err(Cause::NoMemory),
    }
}

/// How a call ends that has written for a cause, where its answer says another: as the answer says
/// where the text is out.
fn ended(written: Cause, found: Cause) -> Cause
    ensures { result ≡ ended_spec written found }
{
    match written {
        Cause::Done => found,
        cause => cause,
    }
}

/// Lets the answer of a command go out, or ends as it was made.
fn let_out<O: Sink>(alloc: Global, made: Result<Answer, Cause>, out: &mut O) -> Ending
    ensures { IsLetOut O.held O.faults out.old out.new made result.cause
        result.journal.ticks }
{
    match made {
        Ok(made) => {
            let written = print(out, made.text);
            Ending {
                cause: ended(written, made.cause),
                journal: made.journal,
            }
        }
        Err(cause) => Ending::without_run(alloc, cause),
    }
}

/// Does what a command asks for that starts no thread.
fn carry_out<I: Source, O: Sink>(
    alloc: Global,
    command: Command,
    source: &mut I,
    out: &mut O,
) -> Ending
    requires { IsPlain command }
    ensures { CarriedOut I.left I.faults O.held O.faults command source.old source.new out.old
        out.new
        result.cause result.journal.ticks }
{
    let made = read_output(alloc, command, source);
    let_out(alloc, made, out)
}

/// Does what a command asks for that starts threads.
fn carry_out_by_threads<R: Threads + Wait + Sync, I: Source, O: Sink>(
    rt: &R,
    alloc: Global,
    command: Command,
    source: &mut I,
    out: &mut O,
) -> Ending
    requires { starts_threads command ≡ true }
    ensures { CarriedOut I.left I.faults O.held O.faults command source.old source.new out.old
        out.new
        result.cause result.journal.ticks }
{
    let made = read_output_by_threads(rt, alloc, command, source);
    let_out(alloc, made, out)
}

/// Carries out the command that was found in the table of words of one thread, if any.
fn end_of<I: Source, O: Sink>(
    alloc: Global,
    found: Option<Command>,
    source: &mut I,
    out: &mut O,
) -> Ending
    requires { IfSome found IsPlain }
    ensures { IsEnding I.left I.faults O.held O.faults found source.old source.new out.old out.new
        result.cause result.journal.ticks }
{
    match found {
        Some(command) => carry_out(alloc, command, source, out),
        None => Ending::without_run(alloc, Cause::BadWords),
    }
}

/// The outcome of an ending, which is told to the err sink.
fn outcome_of<E: Sink>(alloc: Global, ended: Ending, err: &mut E) -> Outcome
    ensures status { result.status ≡ status_of_spec result.cause }
    ensures cause { result.cause ≡ ended.cause }
    ensures journal { result.journal ≡ ended.journal }
    ensures told { GainsFront (E.held err.old) (E.held err.new) (err_text result.cause) }
{
    tell(alloc, err, ended.cause);
    Outcome {
        status: status_of(ended.cause),
        cause: ended.cause,
        journal: ended.journal,
    }
}

/// Does what the words ask for, on one thread, and returns for every source and sink: the words of
/// the commands that start threads match no row of its table. Want of memory may come at any place
/// after the words; the order of the other refusals is bad words, reading, TOML, the file's rules,
/// writing. Faults and want of memory of the err sink change nothing.
pub fn srp_plain<I: Source, O: Sink, E: Sink>(
    alloc: Global,
    words: &Seq<Seq<u8>>,
    source: &mut I,
    out: &mut O,
    err: &mut E,
) -> Outcome
    ensures status { result.status ≡ status_of_spec result.cause }
    ensures ending { IsEnding I.left I.faults O.held O.faults (plain_command_of_spec words.now)
        source.old source.new out.old out.new result.cause result.journal.ticks }
    ensures told { GainsFront (E.held err.old) (E.held err.new) (err_text result.cause) }
{
    let ended = end_of(alloc, plain_command_of(words), source, out);
    outcome_of(alloc, ended, err)
}

/// The call of the program's main, with the runtime that it was given: it does the commands that
/// start threads, which may wait and meet the same clauses if they return, and hands all other
/// words to `srp_plain`.
pub fn srp_main<R: AllocGlobal + Threads + Wait + Sync, I: Source, O: Sink, E: Sink>(
    rt: &R,
    words: &Seq<Seq<u8>>,
    source: &mut I,
    out: &mut O,
    err: &mut E,
) -> Outcome
    ensures status { result.status ≡ status_of_spec result.cause }
    ensures ending { IsEnding I.left I.faults O.held O.faults (command_of_spec words.now)
        source.old source.new out.old out.new result.cause result.journal.ticks }
    ensures told { GainsFront (E.held err.old) (E.held err.new) (err_text result.cause) }
{
    let Some(command) = threads_command_of(words) else {
        return srp_plain(rt.alloc(), words, source, out, err);
    };
    let ended = carry_out_by_threads(rt, rt.alloc(), command, source, out);
    outcome_of(rt.alloc(), ended, err)
}
