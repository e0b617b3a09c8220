//! The commands: which of them read an input, and what each makes of its octets.

ghost use Rattle.std.specs.Prelude.{◌≡◌, ◌≤◌, ◌<◌, ◌^◌, true, [], length, IfOk, IfErr};
ghost use Rattle.srpnet.specs.Commands.{reads_input as reads_input_spec, most_octets as most_octets_spec, IsEndingOf, IsVerdict, Output, RunsNothing};
ghost use Rattle.srpnet.specs.Outcomes.{EndsBy};
ghost use Rattle.srpnet.specs.Words.{IsPlain, starts_threads};

use crate::outcome::{Cause, no_journal};
use crate::pages::{HELP, VERSION};
use crate::words::Command;
use crate::{
    audit, bounds, captures, check, decode, delays, explain, generator, groups, ledger, margins,
    pages, plan, ports, replay, run,
};
use srp_base::Seq;
use srp_report::Printout;
use std::alloc::Global;
use std::sync::Wait;
use std::thread::Threads;
use world_core::Journal;

/// What a command makes: the text that it prints, which is made piece by piece, and the journal of
/// the run that it made, empty where it made none.
#[derive(Drop)]
pub struct CommandOutput {
    pub text: Printout,
    pub journal: Journal,
}

/// What a command answers: its output, and how it ends where that went out whole.
#[derive(Drop)]
pub struct Answer {
    pub text: Printout,
    pub journal: Journal,
    pub cause: Cause,
}

// The answer of a command that runs a network.
fn done(output: CommandOutput) -> Answer
    ensures text { result.text ≡ output.text }
    ensures journal { result.journal.ticks ≡ output.journal.ticks }
    ensures cause { result.cause ≡ Cause.Done }
{
    Answer {
        text: output.text,
        journal: output.journal,
        cause: Cause::Done,
    }
}

// The answer of a command that runs nothing.
fn text_alone(alloc: Global, text: Seq<u8>) -> Answer
    ensures text { result.text ≡ text }
    ensures journal { result.journal.ticks ≡ [] }
    ensures cause { result.cause ≡ Cause.Done }
{
    Answer {
        text: Printout::of(text.into_vec()),
        journal: no_journal(alloc),
        cause: Cause::Done,
    }
}

/// Whether a command reads an input; the pages read none, and neither does what makes its scenario
/// of a number.
pub fn reads_input(command: Command) -> bool
    ensures { result ≡ reads_input_spec command }
{
    match command {
        Command::Ledger
        | Command::Check
        | Command::Explain
        | Command::ExplainLedger
        | Command::ExplainAudit
        | Command::ExplainGroups
        | Command::ExplainPlan
        | Command::Run
        | Command::RunJournal
        | Command::RunBounds
        | Command::RunCapture(_)
        | Command::Ports
        | Command::PortsJournal
        | Command::Margins
        | Command::Delays
        | Command::Wishes
        | Command::StrictWishes
        | Command::Expand
        | Command::Audit
        | Command::AuditLong
        | Command::Groups
        | Command::Decode(_)
        | Command::Replay
        | Command::Capture => true,
        Command::Generate(_)
        | Command::GeneratePlan(_)
        | Command::Help
        | Command::Bare
        | Command::Version => false,
    }
}

/// The most octets of a command's input.
pub fn most_octets(command: Command) -> usize
    ensures most { result ≡ most_octets_spec command }
    ensures few { result < 2 ^ 32 }
{
    match command {
        Command::AuditLong | Command::ExplainAudit => 67_108_864,
        _ => 1_048_576,
    }
}

/// What a command that starts no thread answers for the octets of its input, or why it has nothing to
/// print.
pub fn output(alloc: Global, command: Command, octets: &[u8]) -> Result<Answer, Cause>
    requires few { length octets.now ≤ most_octets_spec command }
    requires plain { IsPlain command }
    ensures output { IfOk result (λ a. Output command octets.now a.journal.ticks a.text) }
    ensures verdict { IfOk result (λ a. IsVerdict command octets.now a.journal.ticks a.cause) }
    ensures no_journal { RunsNothing command → IfOk result (λ a. a.journal.ticks ≡ []) }
    ensures ends { EndsBy (IsEndingOf command octets.now) result }
    ensures not_done { IfErr result (λ c. c ≡ Cause.Done → ⊥) }
{
    match command {
        Command::Ledger => Ok(text_alone(alloc, ledger::output(alloc, octets)?)),
        Command::Check => Ok(text_alone(alloc, check::output(alloc, octets)?)),
        Command::Explain => Ok(text_alone(alloc, explain::output(alloc, octets)?)),
        Command::ExplainLedger => Ok(text_alone(alloc, explain::ledger_output(alloc, octets)?)),
        Command::ExplainAudit => Ok(text_alone(alloc, audit::explain::output(alloc, octets)?)),
        Command::ExplainGroups => Ok(text_alone(alloc, explain::groups_output(alloc, octets)?)),
        Command::ExplainPlan => Ok(text_alone(alloc, explain::plan_output(alloc, octets)?)),
        Command::Run => Ok(done(run::output(alloc, octets)?)),
        Command::RunJournal => Ok(done(run::output_with_journal(alloc, octets)?)),
        Command::RunBounds => Ok(done(bounds::output(alloc, octets)?)),
        Command::RunCapture(link) => Ok(done(captures::output(alloc, link, octets)?)),
        Command::Ports | Command::PortsJournal => unreachable!(),
        Command::Margins => Ok(done(margins::output(alloc, octets)?)),
        Command::Delays => Ok(done(delays::output(alloc, octets)?)),
        Command::Wishes => Ok(done(plan::output(alloc, octets)?)),
        Command::StrictWishes => plan::strict_answer(alloc, octets),
        Command::Expand => Ok(text_alone(alloc, plan::expanded(alloc, octets)?)),
        Command::Audit => Ok(text_alone(alloc, audit::output(alloc, octets)?)),
        Command::AuditLong => Ok(text_alone(alloc, audit::output(alloc, octets)?)),
        Command::Groups => Ok(text_alone(alloc, groups::output(alloc, octets)?)),
        Command::Decode(form) => Ok(text_alone(alloc, decode::output(alloc, form, octets)?)),
        Command::Capture => Ok(text_alone(alloc, decode::captured(alloc, octets)?)),
        Command::Replay => Ok(text_alone(alloc, replay::output(alloc, octets)?)),
        Command::Generate(number) => Ok(done(generator::output(alloc, number)?)),
        Command::GeneratePlan(number) => {
            Ok(text_alone(alloc, generator::plan_output(alloc, number)?))
        }
        Command::Help => Ok(text_alone(alloc, pages::output(alloc, HELP)?)),
        Command::Bare => Ok(Answer {
            text: Printout::of(pages::output(alloc, HELP)?.into_vec()),
            journal: no_journal(alloc),
            cause: Cause::NoWords,
        }),
        Command::Version => Ok(text_alone(alloc, pages::output(alloc, VERSION)?)),
    }
}

/// What a command that starts threads answers for the octets of its input, or why it has nothing to
/// print.
pub fn output_by_threads<R: Threads + Wait + Sync>(
    rt: &R,
    alloc: Global,
    command: Command,
    octets: &[u8],
) -> Result<Answer, Cause>
    requires { starts_threads command ≡ true }
    ensures output { IfOk result (λ a. Output command octets.now a.journal.ticks a.text) }
    ensures verdict { IfOk result (λ a. IsVerdict command octets.now a.journal.ticks a.cause) }
    ensures no_journal { RunsNothing command → IfOk result (λ a. a.journal.ticks ≡ []) }
    ensures ends { EndsBy (IsEndingOf command octets.now) result }
    ensures not_done { IfErr result (λ c. c ≡ Cause.Done → ⊥) }
{
    match command {
        Command::Ports => Ok(done(ports::output(rt, alloc, octets)?)),
        Command::PortsJournal => Ok(done(ports::output_with_journal(rt, alloc, octets)?)),
        _ => unreachable!(),
    }
}
