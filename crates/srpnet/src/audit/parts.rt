//! The parts of what is audited: a scenario, the line `=== output`, and what `run journal` or
//! `ports journal` printed of it, its report up to the line `journal`.

ghost use Rattle.std.specs.Prelude.{◌≡◌, ◌<◌, ◌≤◌, ◌+◌, ◌^◌, length, Some, None, IfSome, IfNone};
ghost use Rattle.srpnet.specs.AuditParts.{is_line, parted_at, audit_parts as audit_parts_spec, behind_cut as behind_cut_spec};
ghost use Rattle.std.specs.Option.{option_copied};

use journal_audit::{before, first_line};
use std::marker::Model;

/// The line between the scenario and what was printed of a run of it.
const CUT: &[u8] = b"=== output";

/// The line between the report and the journal.
const MARK: &[u8] = b"journal";

/// What is audited: a scenario, and a report and a journal of a run of it. In the input the cut has
/// a number, counted from 1, and behind it the line `journal` has one.
#[derive(Drop)]
pub struct AuditParts<'a> {
    scenario: &'a [u8],
    cut: u64,
    report: &'a [u8],
    marked: u64,
    journal: &'a [u8],
}

impl<'a> Model for AuditParts<'a> {
    ghost use Rattle.std.specs.Prelude.{◌<◌, ◌+◌, ◌^◌, length};
    ghost use Rattle.srpnet.specs.AuditParts.{AuditParts};

    ghost Value = { AuditParts };

    ghost view = { λ p. record {
      scenario = p.scenario.now;
      cut = p.cut;
      report = p.report.now;
      marked = p.marked;
      journal = p.journal.now;
    } };

    ghost invariant = { λ p. p.cut + (p.marked + length p.journal.now) < 2 ^ 63 };
}

impl<'a> AuditParts<'a> {
    /// The octets of the scenario.
    pub fn scenario(&self) -> &[u8]
        ensures { result.now ≡ self.now.scenario }
    {
        self.scenario
    }

    /// The number of the cut in the input.
    pub fn cut(&self) -> u64
        ensures number { result ≡ self.now.cut }
        ensures few { result + (self.now.marked + length self.now.journal) < 2 ^ 63 }
    {
        self.cut
    }

    /// The report, up to the line `journal`.
    pub fn report(&self) -> &[u8]
        ensures { result.now ≡ self.now.report }
    {
        self.report
    }

    /// The number of the line `journal` behind the cut.
    pub fn marked(&self) -> u64
        ensures number { result ≡ self.now.marked }
        ensures few { result + length self.now.journal < 2 ^ 63 }
    {
        self.marked
    }

    /// What stands behind the line `journal`.
    pub fn journal(&self) -> &[u8]
        ensures { result.now ≡ self.now.journal }
    {
        self.journal
    }
}

/// The parts of the octets of an input; None exactly where one of the lines is missing that part
/// them.
pub fn audit_parts(octets: &[u8]) -> Option<AuditParts<'_>>
    ensures { result ≡ audit_parts_spec octets.now }
{
    let cut = parted_at(octets, CUT)?;
    let end = parted_at(cut.behind, MARK)?;
    Some(AuditParts {
        scenario: cut.before,
        cut: cut.lines + 1,
        report: end.before,
        marked: end.lines + 1,
        journal: end.behind,
    })
}

/// What stands behind the cut of an input, if it has one.
pub fn behind_cut(octets: &[u8]) -> Option<&[u8]>
    ensures { option_copied result ≡ behind_cut_spec octets.now }
{
    match parted_at(octets, CUT) {
        Some(cut) => Some(cut.behind),
        None => None,
    }
}

// A text that is parted at a line.
#[derive(Drop)]
struct Parted<'a> {
    /// What stands before the line.
    before: &'a [u8],
    /// How many lines stand before it.
    lines: u64,
    /// What stands behind it.
    behind: &'a [u8],
}

// What stands before and behind the first line of a text that is this word; None exactly where no
// line is.
fn parted_at<'a>(text: &'a [u8], word: &[u8]) -> Option<Parted<'a>>
    ensures some { IfSome result (λ p. parted_at word.now text.now
        ≡ Some (record { before = p.before.now; lines = p.lines; behind = p.behind.now })) }
    ensures none { IfNone result (parted_at word.now text.now ≡ None) }
    ensures few { IfSome result (λ p. p.lines + length p.behind.now < length text.now) }
{
    let mut rest = text;
    let mut lines = 0;
    while !rest.is_empty() {
        let (line, behind) = first_line(rest);
        if is_line(line, word) {
            let before = &text[..text.len() - rest.len()];
            return Some(Parted {
                before,
                lines,
                behind,
            });
        }
        rest = behind;
        lines += 1;
    }
    None
}

// Whether a line is a word; the last line of a text may lack its line feed.
fn is_line(line: &[u8], word: &[u8]) -> bool
    ensures { result ≡ is_line word.now line.now }
{
    match before(line, b"\n") {
        Some(front) => front == word || line == word,
        None => line == word,
    }
}
