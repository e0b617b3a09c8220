//! The lines of an input.

ghost use Rattle.std.specs.Prelude.{◌≡◌, Some, None, slice_get, IfOk, IfSome, IfNone};
ghost use Rattle.journal_audit.specs.Texts.{lines_of};

use journal_audit::first_line;
use srp_base::{NoMemory, Seq};
use std::alloc::Global;

/// The line of a text at a place, counted from 0; None where it has no more.
pub fn line_at(alloc: Global, text: &[u8], place: u64) -> Result<Option<Seq<u8>>, NoMemory>
    ensures { IfOk result (λ line. line ≡ slice_get (lines_of text.now) place) }
{
    match find_line(text, place) {
        Some(line) => Ok(Some(Seq::from_vec(line.to_vec(alloc)?))),
        None => Ok(None),
    }
}

// The line of a text at a place, within it.
fn find_line(text: &[u8], place: u64) -> Option<&[u8]>
    ensures some { IfSome result (λ line. slice_get (lines_of text.now) place ≡ Some line.now) }
    ensures none { IfNone result (slice_get (lines_of text.now) place ≡ None) }
{
    let mut rest = text;
    let mut left = place;
    while !rest.is_empty() {
        let (line, behind) = first_line(rest);
        if left == 0 {
            return Some(line);
        }
        rest = behind;
        left -= 1;
    }
    None
}
