//! Why an input lacks the lines that part it.

ghost use Rattle.std.specs.Prelude.{◌≡◌};
ghost use Rattle.std.specs.Option.{option_copied};
ghost use Rattle.audit_words.specs.Slips.{is_sought as is_sought_spec, has_sought as has_sought_spec, slip_without_cut as slip_without_cut_spec, slip_behind as slip_behind_spec, slip_of as slip_of_spec, slip_words as slip_words_spec};

use journal_audit::first_line;

/// By which slip an input lacks the line `=== output`, or the line `journal` behind it.
#[derive(Clone, Copy, PartialEq, Eq)]
pub enum Slip {
    /// It has no octets.
    Empty,
    /// One of the two lines ends with a carriage return and a line feed.
    Returns,
    /// A line ends with the cut: the plan's last line has no line feed.
    Joined,
    /// No line is the cut, for another reason.
    NoCut,
    /// Nothing stands behind the cut: nothing was printed.
    NoOutput,
    /// What stands behind the cut has no line `journal`, and one that a refused run says on its
    /// error stream.
    Refused,
    /// What stands behind the cut has no line `journal`: the report alone was printed.
    NoJournal,
}

// A line that is sought.
#[derive(Clone, Copy, PartialEq, Eq)]
pub(crate) enum Sought {
    // One that ends with the cut.
    JoinedCut,
    // The cut with a carriage return.
    CutWithReturn,
    // The line `journal` with one.
    JournalWithReturn,
    // One that a refused run says on its error stream.
    ErrorLine,
}

// Whether a line ends with the cut.
fn ends_with_cut(line: &[u8]) -> bool
    ensures { result ≡ is_sought_spec Sought.JoinedCut line.now }
{
    line.ends_with(b"=== output\n")
        || line.ends_with(b"=== output\r\n")
        || line.ends_with(b"=== output")
}

// Whether a line is what is sought.
fn is_sought(sought: Sought, line: &[u8]) -> bool
    ensures { result ≡ is_sought_spec sought line.now }
{
    match sought {
        Sought::JoinedCut => ends_with_cut(line),
        Sought::CutWithReturn => line == b"=== output\r\n".as_slice(),
        Sought::JournalWithReturn => line == b"journal\r\n".as_slice(),
        Sought::ErrorLine => line.starts_with(b"srpnet: rule ")
            || line.starts_with(b"srpnet: not TOML"),
    }
}

// Whether a text has such a line.
fn has_sought(sought: Sought, text: &[u8]) -> bool
    ensures { result ≡ has_sought_spec sought text.now }
{
    let mut rest = text;
    while !rest.is_empty() {
        let (line, behind) = first_line(rest);
        if is_sought(sought, line) {
            return true;
        }
        rest = behind;
    }
    false
}

// The slip of an input that has no cut.
fn slip_without_cut(octets: &[u8]) -> Slip
    ensures { result ≡ slip_without_cut_spec octets.now }
{
    if octets.is_empty() {
        Slip::Empty
    } else if has_sought(Sought::CutWithReturn, octets) {
        Slip::Returns
    } else if has_sought(Sought::JoinedCut, octets) {
        Slip::Joined
    } else {
        Slip::NoCut
    }
}

// The slip of an input behind whose cut this stands, without a line `journal`.
fn slip_behind(behind: &[u8]) -> Slip
    ensures { result ≡ slip_behind_spec behind.now }
{
    if behind.is_empty() {
        Slip::NoOutput
    } else if has_sought(Sought::JournalWithReturn, behind) {
        Slip::Returns
    } else if has_sought(Sought::ErrorLine, behind) {
        Slip::Refused
    } else {
        Slip::NoJournal
    }
}

/// The slip of an input that lacks one of its lines, with what stands behind its cut, if it has
/// one.
pub fn slip_of(octets: &[u8], behind: Option<&[u8]>) -> Slip
    ensures { result ≡ slip_of_spec octets.now (option_copied behind.entry) }
{
    match behind {
        None => slip_without_cut(octets),
        Some(text) => slip_behind(text),
    }
}

/// What is said of a slip, with its cure.
pub fn slip_words(slip: Slip) -> &'static str
    ensures { result.now ≡ slip_words_spec slip }
{
    match slip {
        Slip::Empty =>
            "audit no\nwhy 1: the input is empty\ncure: give the plan, a line that is `=== output`, and what `run journal` or `ports journal` printed of the plan\n",
        Slip::Returns =>
            "audit no\nwhy 1: the line `=== output` or `journal` ends with a carriage return (CRLF)\ncure: take the carriage returns out, as `tr -d '\\r'` does\n",
        Slip::Joined =>
            "audit no\nwhy 1: `=== output` stands behind other words in its line: the plan's last line has no line feed\ncure: end the plan with a line feed\n",
        Slip::NoCut =>
            "audit no\nwhy 1: no line is `=== output`\ncure: put that line between the plan and what was printed of it\n",
        Slip::NoOutput =>
            "audit no\nwhy 1: nothing stands behind `=== output`: the run printed nothing\ncure: see with `explain` whether the plan is refused, and run it again\n",
        Slip::Refused =>
            "audit no\nwhy 1: a line behind `=== output` is what a refused run says: the plan breaks a rule, or is no TOML\ncure: see with `explain` of the plan why it is refused, and run it again\n",
        Slip::NoJournal =>
            "audit no\nwhy 1: no line behind `=== output` is `journal`: `run` and `ports` print the report alone\ncure: print it by `run journal` or `ports journal`\n",
    }
}
