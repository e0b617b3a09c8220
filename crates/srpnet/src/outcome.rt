//! How the program ends: a status, its cause, and the text of the cause.

ghost use Rattle.std.specs.Prelude.{◌≡◌, [], take, IfOk, string_bytes};
ghost use Rattle.std.specs.Io.KnownBytes.{Appends};
ghost use Rattle.srpnet.specs.Outcomes.{status_of as status_of_spec, err_text as err_text_spec, fixed_text as fixed_text_spec, cause_of_rules, cause_of_reading};
ghost use Rattle.srpnet.specs.declared.outcome.Cause.TheVariants.{BadScenario, AuditNo, NotGranted, NoMemory as no_memory};

use srp_base::{NoMemory, Seq};
use srp_io::{ReadErr, Sink, WriteErr, write_whole};
use std::alloc::{AllocError, Global};
use toml_rules::RuleErr;
use world_core::Journal;

/// Why the program ends.
#[derive(Clone, Copy, PartialEq, Eq)]
pub enum Cause {
    /// The input was read to its end and the output written whole. Status 0.
    Done,
    /// The words match no row of the table. Status 2.
    BadWords,
    /// There are no words, and the page of help went out whole. Status 2.
    NoWords,
    /// The source counted a fault. Status 3.
    ReadFault,
    /// The input has more octets than the command's input may have. Status 4.
    TooLong,
    /// The input isn't TOML. Status 5.
    NotToml,
    /// The first rule that the file breaks, with its first failing entry, 0 for the file as a
    /// whole. Status 6.
    BadScenario { rule: u8, entry: u32 },
    /// The out sink counted a fault; exactly the first `written` octets of the output went out.
    /// Status 7.
    WriteFault { written: u64 },
    /// The answer of an audit is no: at this line of the output, counted from 1, or 0 where a line
    /// is missing that parts the input (`why` 1); 2: the line isn't of the form of a journal; 3: no
    /// legal journal agrees with it; 4: the report differs. Status 8.
    AuditNo { line: u64, why: u8 },
    /// Want of memory. Status 9.
    NoMemory,
    /// The output went out whole, and says that so many wishes aren't granted. Status 10.
    NotGranted { wishes: u64 },
    /// The scenario has no link of the number that the words name. Status 11.
    NoLink,
}

impl From<AllocError> for Cause {
    ghost from_gives = { λ _ c. c ≡ no_memory };

    fn from(_error: AllocError) -> Cause {
        Cause::NoMemory
    }
}

impl From<NoMemory> for Cause {
    ghost from_gives = { λ _ c. c ≡ no_memory };

    fn from(_error: NoMemory) -> Cause {
        Cause::NoMemory
    }
}

impl From<RuleErr> for Cause {
    ghost from_gives = { λ e c. c ≡ cause_of_rules e };

    fn from(error: RuleErr) -> Cause {
        match error {
            RuleErr::Rule { rule, entry } => Cause::BadScenario { rule, entry },
            RuleErr::NoMemory => Cause::NoMemory,
        }
    }
}

impl From<ReadErr> for Cause {
    ghost from_gives = { λ e c. c ≡ cause_of_reading e };

    fn from(error: ReadErr) -> Cause {
        match error {
            ReadErr::Fault => Cause::ReadFault,
            ReadErr::TooLong => Cause::TooLong,
            ReadErr::NoMemory => Cause::NoMemory,
        }
    }
}

/// How the top call ends.
#[derive(Drop)]
pub struct Outcome {
    /// The exit status.
    pub status: u8,
    pub cause: Cause,
    /// What happened in the run whose output went out, whole or in part, tick by tick; else it is
    /// empty.
    pub journal: Journal,
}

/// How a command ends: why, and the journal of the run whose output went out.
#[derive(Drop)]
pub struct Ending {
    pub cause: Cause,
    pub journal: Journal,
}

impl Ending {
    /// An ending without a run.
    pub fn without_run(alloc: Global, cause: Cause) -> Ending
        ensures cause { result.cause ≡ cause }
        ensures journal { result.journal.ticks ≡ [] }
    {
        Ending {
            cause,
            journal: no_journal(alloc),
        }
    }
}

/// The journal where nothing was run.
pub fn no_journal(alloc: Global) -> Journal
    ensures { result.ticks ≡ [] }
{
    Journal {
        ticks: Seq::new(alloc),
    }
}

/// The exit status of a cause.
pub fn status_of(cause: Cause) -> u8
    ensures { result ≡ status_of_spec cause }
{
    match cause {
        Cause::Done => 0,
        Cause::BadWords | Cause::NoWords => 2,
        Cause::ReadFault => 3,
        Cause::TooLong => 4,
        Cause::NotToml => 5,
        Cause::BadScenario { .. } => 6,
        Cause::WriteFault { .. } => 7,
        Cause::AuditNo { .. } => 8,
        Cause::NoMemory => 9,
        Cause::NotGranted { .. } => 10,
        Cause::NoLink => 11,
    }
}

/// The text of a cause that is the same at each time.
fn fixed_text(cause: Cause) -> &'static str
    ensures { result.now ≡ fixed_text_spec cause }
{
    match cause {
        Cause::Done => "",
        Cause::BadWords => "srpnet: bad words\n",
        Cause::NoWords => "srpnet: bad words: there is none, and the page of help has them\n",
        Cause::ReadFault => "srpnet: read fault\n",
        Cause::TooLong => "srpnet: input too long\n",
        Cause::NotToml => "srpnet: not TOML\n",
        Cause::BadScenario { .. } => "",
        Cause::WriteFault { .. } => "srpnet: write fault\n",
        Cause::AuditNo { .. } => "",
        Cause::NoMemory => "srpnet: no memory\n",
        Cause::NotGranted { .. } => "",
        Cause::NoLink => "srpnet: no such link\n",
    }
}

/// The text that names a rule and an entry.
fn rule_text(alloc: Global, rule: u8, entry: u32) -> Result<String, AllocError>
    ensures { IfOk result (λ s. string_bytes s ≡ err_text_spec (BadScenario rule entry)) }
{
    format!(in alloc; "srpnet: rule {rule} entry {entry}\n")
}

/// The text that names a line of what is audited, and why the answer is no.
fn audit_text(alloc: Global, line: u64, why: u8) -> Result<String, AllocError>
    ensures { IfOk result (λ s. string_bytes s ≡ err_text_spec (AuditNo line why)) }
{
    format!(in alloc; "srpnet: audit line {line} why {why}\n")
}

/// The text that says how many wishes aren't granted.
fn wishes_text(alloc: Global, wishes: u64) -> Result<String, AllocError>
    ensures { IfOk result (λ s. string_bytes s ≡ err_text_spec (NotGranted wishes)) }
{
    format!(in alloc; "srpnet: {wishes} wishes aren't granted\n")
}

/// Writes what it can of a text, and says how many octets went out.
fn put<E: Sink>(err: &mut E, text: &[u8]) -> usize
    ensures { Appends (E.held err.old) (E.held err.new) (take result text.now) }
{
    match write_whole(err, text) {
        Ok(()) => text.len(),
        Err(WriteErr::Fault { written }) => written as usize,
        Err(WriteErr::NoMemory { written }) => written as usize,
    }
}

/// Writes the text of a cause, as much as the sink takes, and says how many octets went out.
pub fn tell<E: Sink>(alloc: Global, err: &mut E, cause: Cause) -> usize
    ensures { Appends (E.held err.old) (E.held err.new) (take result (err_text_spec cause)) }
{
    match cause {
        Cause::BadScenario { rule, entry } => match rule_text(alloc, rule, entry) {
            Ok(text) => put(err, text.as_bytes()),
            Err(_) => 0,
        },
        Cause::AuditNo { line, why } => match audit_text(alloc, line, why) {
            Ok(text) => put(err, text.as_bytes()),
            Err(_) => 0,
        },
        Cause::NotGranted { wishes } => match wishes_text(alloc, wishes) {
            Ok(text) => put(err, text.as_bytes()),
            Err(_) => 0,
        },
        _ => put(err, fixed_text(cause).as_bytes()),
    }
}
