//! The words of the command line.

ghost use Rattle.std.specs.Prelude.{◌≡◌, true, Some, None, IfSome};
ghost use Rattle.srpnet.specs.Words.{command_of as command_of_spec, plain_command_of as plain_command_of_spec, plain_of, starts_threads as starts_threads_spec, IsPlain, command_of_pair, command_of_triple, command_of_word, form_of_word, decoding_of_word, capture_of_word, generated_plan_of_word, generation_of_word};

use mrpdu_codec::AppForm;
use report_words::number_of_word;
use srp_base::Seq;

/// What the program can be asked to do, by a row of the table of words each.
#[derive(Clone, Copy)]
pub enum Command {
    /// `ledger`: reads a ledger file and prints its bookings.
    Ledger,
    /// `check`: reads a scenario and prints its counts.
    Check,
    /// `explain`: reads a scenario and prints why it is refused, in words, or that it keeps all
    /// rules.
    Explain,
    /// `explain ledger`: does the same of a ledger file.
    ExplainLedger,
    /// `explain audit`: reads what `audit` reads and prints where the answer is no, why, and what
    /// would be right there.
    ExplainAudit,
    /// `explain groups`: does what `explain` does of a file of groups.
    ExplainGroups,
    /// `explain plan`: does it of a plan file.
    ExplainPlan,
    /// `run`: reads a scenario, runs the network through its ticks and prints the report.
    Run,
    /// `run journal`: does the same, and prints what happened behind the report.
    RunJournal,
    /// `run bounds`: does the same, and prints how long class B waits at each port behind the
    /// report.
    RunBounds,
    /// `run capture N`: reads a scenario, runs it, and prints what went over the link of a number,
    /// counted from 1 in the order of the file, as a capture file.
    RunCapture(u32),
    /// `ports`: does what `run` does, with a thread for each port that has something to do.
    Ports,
    /// `ports journal`: does the same, and prints what happened behind the report.
    PortsJournal,
    /// `delays`: reads a scenario, runs it, and prints how long frames of its streams wait and take at
    /// most.
    Delays,
    /// `plan`: reads a plan or a scenario, runs it, and prints which wishes are granted, what the
    /// network needs for the rest, and what may be overlooked.
    Wishes,
    /// `plan strict`: does the same, and ends with a no where some wish isn't granted.
    StrictWishes,
    /// `expand`: reads a plan and prints the scenario that it stands for.
    Expand,
    /// `margins`: reads a scenario, runs it, and prints what each port has left at its end.
    Margins,
    /// `audit`: reads a scenario and what was printed of a run of it with its journal, and prints
    /// that they are right.
    Audit,
    /// `audit long`: does the same of an input that may be longer, as the journal of a large
    /// network is.
    AuditLong,
    /// `groups`: reads a group scenario, runs MMRP through its ticks and prints which groups are
    /// registered where.
    Groups,
    /// `decode mvrp`, `decode msrp` or `decode mmrp`: reads a capture of PDUs of that application
    /// and prints what each says.
    Decode(AppForm),
    /// `capture`: reads a capture file and prints what each of its frames of MRP says.
    Capture,
    /// `replay`: reads the captured PDUs of a link behind a head of TOML, and prints what stood at its
    /// ends, what was owed there, and what was broken.
    Replay,
    /// `gen N`: makes the scenario of a number, runs it and prints the summary of its run.
    Generate(u32),
    /// `gen N plan`: makes the scenario of a number and prints it as a file.
    GeneratePlan(u32),
    /// `--help`, `-h` or `help`: prints a page of help.
    Help,
    /// No word at all: prints that page, and ends as bad words do.
    Bare,
    /// `--version`: prints the version.
    Version,
}

/// The command of the words; None exactly where they match no row. It takes no memory.
pub fn command_of(words: &Seq<Seq<u8>>) -> Option<Command>
    ensures { result ≡ command_of_spec words.now }
{
    match words.as_slice() {
        [] => Some(Command::Bare),
        [word] => command_of_word(word.as_slice()),
        [first, second] => command_of_pair(first.as_slice(), second.as_slice()),
        [first, second, third] => {
            command_of_triple(first.as_slice(), second.as_slice(), third.as_slice())
        }
        _ => None,
    }
}

/// Whether a command starts threads.
pub fn starts_threads(command: Command) -> bool
    ensures { result ≡ starts_threads_spec command }
{
    matches!(command, Command::Ports | Command::PortsJournal)
}

/// The command of the words on one thread; None exactly where they match no row but one that starts
/// threads. It takes no memory.
pub fn plain_command_of(words: &Seq<Seq<u8>>) -> Option<Command>
    ensures found { result ≡ plain_command_of_spec words.now }
    ensures plain { IfSome result IsPlain }
{
    plain_of(command_of(words))
}

/// The command of the words that starts threads; None exactly where they match no row of such a
/// one. It takes no memory.
pub fn threads_command_of(words: &Seq<Seq<u8>>) -> Option<Command>
    ensures found { IfSome result (λ c. command_of_spec words.now ≡ Some c) }
    ensures threads { IfSome result (λ c. starts_threads_spec c ≡ true) }
    ensures none { result ≡ None → plain_command_of_spec words.now ≡ command_of_spec words.now }
{
    let command = command_of(words)?;
    if starts_threads(command) {
        Some(command)
    } else {
        None
    }
}

// What is left of a command for whoever has one thread alone.
fn plain_of(found: Option<Command>) -> Option<Command>
    ensures found { result ≡ plain_of found }
    ensures plain { IfSome result IsPlain }
{
    let command = found?;
    if starts_threads(command) {
        None
    } else {
        Some(command)
    }
}

fn command_of_word(word: &[u8]) -> Option<Command>
    ensures { result ≡ command_of_word word.now }
{
    if word == b"ledger".as_slice() {
        Some(Command::Ledger)
    } else if word == b"check".as_slice() {
        Some(Command::Check)
    } else if word == b"explain".as_slice() {
        Some(Command::Explain)
    } else if word == b"run".as_slice() {
        Some(Command::Run)
    } else if word == b"ports".as_slice() {
        Some(Command::Ports)
    } else if word == b"margins".as_slice() {
        Some(Command::Margins)
    } else if word == b"delays".as_slice() {
        Some(Command::Delays)
    } else if word == b"audit".as_slice() {
        Some(Command::Audit)
    } else if word == b"groups".as_slice() {
        Some(Command::Groups)
    } else if word == b"capture".as_slice() {
        Some(Command::Capture)
    } else if word == b"replay".as_slice() {
        Some(Command::Replay)
    } else if word == b"plan".as_slice() {
        Some(Command::Wishes)
    } else if word == b"expand".as_slice() {
        Some(Command::Expand)
    } else if word == b"--help".as_slice() {
        Some(Command::Help)
    } else if word == b"-h".as_slice() {
        Some(Command::Help)
    } else if word == b"help".as_slice() {
        Some(Command::Help)
    } else if word == b"--version".as_slice() {
        Some(Command::Version)
    } else {
        None
    }
}

fn command_of_pair(first: &[u8], second: &[u8]) -> Option<Command>
    ensures { result ≡ command_of_pair first.now second.now }
{
    if first == b"run".as_slice() && second == b"journal".as_slice() {
        Some(Command::RunJournal)
    } else if first == b"run".as_slice() && second == b"bounds".as_slice() {
        Some(Command::RunBounds)
    } else if first == b"ports".as_slice() && second == b"journal".as_slice() {
        Some(Command::PortsJournal)
    } else if first == b"explain".as_slice() && second == b"ledger".as_slice() {
        Some(Command::ExplainLedger)
    } else if first == b"explain".as_slice() && second == b"audit".as_slice() {
        Some(Command::ExplainAudit)
    } else if first == b"explain".as_slice() && second == b"groups".as_slice() {
        Some(Command::ExplainGroups)
    } else if first == b"explain".as_slice() && second == b"plan".as_slice() {
        Some(Command::ExplainPlan)
    } else if first == b"audit".as_slice() && second == b"long".as_slice() {
        Some(Command::AuditLong)
    } else if first == b"plan".as_slice() && second == b"strict".as_slice() {
        Some(Command::StrictWishes)
    } else if first == b"decode".as_slice() {
        decoding_of_word(second)
    } else if first == b"gen".as_slice() {
        generation_of_word(second)
    } else {
        None
    }
}

// What is to be read as PDUs, by the application's word.
fn decoding_of_word(word: &[u8]) -> Option<Command>
    ensures { result ≡ decoding_of_word word.now }
{
    match form_of_word(word) {
        Some(form) => Some(Command::Decode(form)),
        None => None,
    }
}

fn form_of_word(word: &[u8]) -> Option<AppForm>
    ensures { result ≡ form_of_word word.now }
{
    if word == b"mvrp".as_slice() {
        Some(AppForm::Mvrp)
    } else if word == b"msrp".as_slice() {
        Some(AppForm::Msrp)
    } else if word == b"mmrp".as_slice() {
        Some(AppForm::Mmrp)
    } else {
        None
    }
}

// The scenario that is to be made, by its number.
fn generation_of_word(word: &[u8]) -> Option<Command>
    ensures { result ≡ generation_of_word word.now }
{
    match number_of_word(word) {
        Some(number) => Some(Command::Generate(number)),
        None => None,
    }
}

fn command_of_triple(first: &[u8], second: &[u8], third: &[u8]) -> Option<Command>
    ensures { result ≡ command_of_triple first.now second.now third.now }
{
    if first == b"gen".as_slice() && third == b"plan".as_slice() {
        generated_plan_of_word(second)
    } else if first == b"run".as_slice() && second == b"capture".as_slice() {
        capture_of_word(third)
    } else {
        None
    }
}

// The link that is to be captured, by its number.
fn capture_of_word(word: &[u8]) -> Option<Command>
    ensures { result ≡ capture_of_word word.now }
{
    match number_of_word(word) {
        Some(number) => Some(Command::RunCapture(number)),
        None => None,
    }
}

// The scenario that is to be printed as a file, by its number.
fn generated_plan_of_word(word: &[u8]) -> Option<Command>
    ensures { result ≡ generated_plan_of_word word.now }
{
    match number_of_word(word) {
        Some(number) => Some(Command::GeneratePlan(number)),
        None => None,
    }
}
