//! The lines of a capture, and the digits in them.

ghost use Rattle.std.specs.Prelude.{◌≡◌, ◌<◌, ◌≤◌, ◌+◌, ◌==◌, [], ◌∷◌, length, option_map, IfOk, IfSome};
ghost use Rattle.std.specs.List.{list_all};
ghost use Rattle.pdu_words.specs.Capture.{lines_of, is_between as is_between_spec, digits_of as digits_of_spec, is_paired as is_paired_spec, octets_of as octets_of_spec, octets_in as octets_in_spec, is_remark as is_remark_spec, is_passed_over as is_passed_over_spec};

use memchr::memchr;
use std::alloc::{AllocError, Global};

/// The first line of a text that isn't empty, without its line feed, and what stands behind it.
pub(crate) fn first_line(text: &[u8]) -> (&[u8], &[u8])
    requires { 0 < length text.now }
    ensures lines { lines_of text.now ≡ result.0.now ∷ lines_of result.1.now }
    ensures within { length result.0.now + length result.1.now ≤ length text.now }
    ensures shorter { length result.1.now < length text.now }
{
    match memchr(b'\n', text) {
        Some(end) => (&text[..end], &text[end + 1..]),
        None => (text, [].as_slice()),
    }
}

// Whether a character may stand between octets.
fn is_between(c: u8) -> bool
    ensures { result ≡ is_between_spec c }
{
    c == b' ' || c == b'\t' || c == b':' || c == b'-' || c == b'\r'
}

// A line without what stands between its octets.
fn digits_of(alloc: Global, line: &[u8]) -> Result<Vec<u8>, AllocError>
    ensures digits { IfOk result (λ digits. digits.items ≡ digits_of_spec line.now) }
    ensures few { IfOk result (λ digits. length digits.items ≤ length line.now) }
{
    line.iter()
        .copied()
        .filter(|c| !is_between(*c))
        .collect(alloc)
}

// Whether the two digits of each octet stand side by side.
fn is_paired(line: &[u8]) -> bool
    ensures { result ≡ is_paired_spec line.now }
{
    let mut rest = line;
    while let [c, d, ..] = rest {
        if is_between(*c) {
            rest = &rest[1..];
        } else if is_between(*d) {
            return false;
        } else {
            rest = &rest[2..];
        }
    }
    match rest {
        [c, ..] => is_between(*c),
        [] => true,
    }
}

// The octets that hexadecimal digits spell, two digits an octet.
fn octets_of(alloc: Global, digits: &[u8]) -> Result<Option<Vec<u8>>, AllocError>
    ensures octets { IfOk result (λ o. option_map (λ v. v.items) o
        ≡ octets_of_spec digits.now) }
    ensures few { IfOk result (λ o. IfSome o (λ v. length v.items ≤ length digits.now)) }
{
    let mut octets = vec![in alloc; 0; digits.len() / 2]?;
    match hex::decode_to_slice(digits, &mut octets) {
        Ok(()) => Ok(Some(octets)),
        Err(_) => Ok(None),
    }
}

/// The octets of a line, if it has nothing but octets.
pub(crate) fn octets_in(alloc: Global, line: &[u8]) -> Result<Option<Vec<u8>>, AllocError>
    ensures octets { IfOk result (λ o. option_map (λ v. v.items) o
        ≡ octets_in_spec line.now) }
    ensures few { IfOk result (λ o. IfSome o (λ v. length v.items ≤ length line.now)) }
{
    if !is_paired(line) {
        return Ok(None);
    }
    let digits = digits_of(alloc, line)?;
    octets_of(alloc, digits.as_slice())
}

// Whether a line is a remark.
fn is_remark(line: &[u8]) -> bool
    ensures { result ≡ is_remark_spec line.now }
{
    match line {
        [first, ..] => *first == b'#',
        [] => false,
    }
}

// Whether all of a line may stand between octets.
fn are_all_between(line: &[u8]) -> bool
    ensures { result ≡ list_all is_between_spec line.now }
{
    line.iter().all(|c| is_between(*c))
}

// Whether a line has no digits.
#[tactic(auto, using(crate::proofs::CaptureLemmas::no_digits))]
fn has_no_digits(line: &[u8]) -> bool
    ensures { result ≡ (length (digits_of_spec line.now) == 0) }
{
    are_all_between(line)
}

/// Whether a line has no PDU: it is empty, or a remark.
pub(crate) fn is_passed_over(line: &[u8]) -> bool
    ensures { result ≡ is_passed_over_spec line.now }
{
    let none = has_no_digits(line);
    is_remark(line) || none
}
