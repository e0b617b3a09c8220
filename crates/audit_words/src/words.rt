//! What is said of a line at which the answer is no.

ghost use Rattle.std.specs.Prelude.{◌≡◌, ◌++◌, IfOk, OnOk};
ghost use Rattle.audit_words.specs.Words.{place_words, stands_line, legal_line, unformed_text as unformed_text_spec, illegal_text as illegal_text_spec, differing_text as differing_text_spec};

use crate::shown::put_line;
use report_words::{put, put_number};
use srp_base::{NoMemory, Seq};
use std::alloc::Global;

/// The form of a journal's lines.
const FORM: &str = "\
form: TICK event ENTRY done, or missed in place of done
form: TICK PORT STEP ANSWER, where STEP is work, due, settle, send mvrp or send msrp, and ANSWER is nothing, silent, \
or discarded, received, fired, settled or sent with a number
form: no tick is below that of the line before, tick, port and entry are the plan's, one space stands between words, \
and a line feed alone ends the line
";

// The place of a line, and why the answer is no there.
fn put_place(out: &mut Vec<u8>, line: u64, behind: u64, why: &str) -> Result<(), NoMemory>
    ensures { OnOk result (out.new.items ≡ out.old.items ++ place_words line behind why.now) }
{
    put(out, "audit no\nline ")?;
    put_number(out, line)?;
    put(out, " of the input, line ")?;
    put_number(out, behind)?;
    put(out, " behind the cut: ")?;
    put(out, why)?;
    put(out, "\n")
}

// What stands there.
fn put_stands(out: &mut Vec<u8>, stands: &Option<Seq<u8>>) -> Result<(), NoMemory>
    ensures { OnOk result (out.new.items ≡ out.old.items ++ stands_line stands.now) }
{
    put(out, "stands: ")?;
    match stands {
        Some(line) => put_line(out, line.as_slice())?,
        None => put(out, "nothing")?,
    }
    put(out, "\n")
}

// What is legal there, or what ends there.
fn put_legal(out: &mut Vec<u8>, legal: &Option<Seq<u8>>, ends: &str) -> Result<(), NoMemory>
    ensures { OnOk result (out.new.items ≡ out.old.items ++ legal_line legal.now ends.now) }
{
    put(out, "legal: ")?;
    match legal {
        Some(line) => put_line(out, line.as_slice())?,
        None => put(out, ends)?,
    }
    put(out, "\n")
}

/// What is said of a line that isn't of the form of a journal's lines. Lines count from 1, of the
/// input and behind its cut.
pub fn unformed_text(
    alloc: Global,
    line: u64,
    behind: u64,
    stands: &Option<Seq<u8>>,
) -> Result<Vec<u8>, NoMemory>
    ensures { IfOk result (λ text. text.items ≡ unformed_text_spec line behind stands.now) }
{
    let mut out = Vec::new(alloc);
    put_place(
        &mut out,
        line,
        behind,
        "why 2, it isn't of the form of a journal's lines",
    )?;
    put_stands(&mut out, stands)?;
    put(&mut out, FORM)?;
    Ok(out)
}

/// What is said of a line that no legal run has there, where one has this line, or ends.
pub fn illegal_text(
    alloc: Global,
    line: u64,
    behind: u64,
    stands: &Option<Seq<u8>>,
    legal: &Option<Seq<u8>>,
) -> Result<Vec<u8>, NoMemory>
    ensures { IfOk result (λ text. text.items
        ≡ illegal_text_spec line behind stands.now legal.now) }
{
    let mut out = Vec::new(alloc);
    put_place(&mut out, line, behind, "why 3, no legal run has it there")?;
    put_stands(&mut out, stands)?;
    put_legal(&mut out, legal, "nothing, the run ends here")?;
    Ok(out)
}

/// What is said of a line that the report of the journal's run hasn't there, where it has this
/// line, or ends.
pub fn differing_text(
    alloc: Global,
    line: u64,
    behind: u64,
    stands: &Option<Seq<u8>>,
    legal: &Option<Seq<u8>>,
) -> Result<Vec<u8>, NoMemory>
    ensures { IfOk result (λ text. text.items
        ≡ differing_text_spec line behind stands.now legal.now) }
{
    let mut out = Vec::new(alloc);
    put_place(
        &mut out,
        line,
        behind,
        "why 4, the report of the journal's run hasn't it there",
    )?;
    put_stands(&mut out, stands)?;
    put_legal(&mut out, legal, "nothing, the report ends here")?;
    Ok(out)
}
