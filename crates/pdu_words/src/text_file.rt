//! Whether a file is a text of octets.

ghost use Rattle.std.specs.Prelude.{◌≡◌, IfOk};
ghost use Rattle.std.specs.List.{list_any};
ghost use Rattle.pdu_words.specs.Capture.{lines_of};
ghost use Rattle.pdu_words.specs.TextFile.{has_octets as has_octets_spec, gives_octets as gives_octets_spec, is_control as is_control_spec, are_without_octets as are_without_octets_spec, is_no_text as is_no_text_spec};

use crate::capture::{first_line, is_passed_over, octets_in};
use crate::dump::is_first;
use std::alloc::{AllocError, Global};

// Whether a line has a PDU's octets.
fn has_octets(alloc: Global, line: &[u8]) -> Result<bool, AllocError>
    ensures { IfOk result (λ has. has ≡ has_octets_spec line.now) }
{
    if is_passed_over(line) {
        return Ok(false);
    }
    Ok(octets_in(alloc, line)?.is_some())
}

// Whether a line has octets, or begins a dump of some.
fn gives_octets(alloc: Global, line: &[u8]) -> Result<bool, AllocError>
    ensures { IfOk result (λ gives. gives ≡ gives_octets_spec line.now) }
{
    if has_octets(alloc, line)? {
        return Ok(true);
    }
    is_first(alloc, line)
}

// Whether the lines of a text have something, and none of them octets.
fn are_without_octets(alloc: Global, text: &[u8]) -> Result<bool, AllocError>
    ensures { IfOk result (λ without. without ≡ are_without_octets_spec (lines_of text.now)) }
{
    let mut rest = text;
    let mut some = false;
    while !rest.is_empty() {
        let (line, behind) = first_line(rest);
        if gives_octets(alloc, line)? {
            return Ok(false);
        }
        some = some || !is_passed_over(line);
        rest = behind;
    }
    Ok(some)
}

// Whether a character stands in no text.
fn is_control(c: u8) -> bool
    ensures { result ≡ is_control_spec c }
{
    c < 32 && !(c == b'\t' || c == b'\n' || c == b'\r')
}

// Whether any character of a file stands in no text.
fn has_control(file: &[u8]) -> bool
    ensures { result ≡ list_any is_control_spec file.now }
{
    file.iter().any(|c| is_control(*c))
}

/// Whether a file is no text of octets: it isn't text, or none of its lines has octets.
pub(crate) fn is_no_text(alloc: Global, file: &[u8]) -> Result<bool, AllocError>
    ensures { IfOk result (λ none. none ≡ is_no_text_spec file.now) }
{
    if has_control(file) {
        return Ok(true);
    }
    are_without_octets(alloc, file)
}
