//! The lines of a hex dump.

ghost use Rattle.std.specs.Prelude.{◌≡◌, ◌≤◌, ◌&&◌, length, option_map, position, IfOk, IfSome, Some};
ghost use Rattle.std.specs.List.{list_any};
ghost use Rattle.pdu_words.specs.Dump.{is_blank as is_blank_spec, behind_blanks as behind_blanks_spec, behind_prefix as behind_prefix_spec, is_offset_end as is_offset_end_spec, eight_digits as eight_digits_spec, offset_of as offset_of_spec, behind_gap as behind_gap_spec, column as column_spec, is_mark as is_mark_spec, column_octets as column_octets_spec, octets_behind as octets_behind_spec, numbered as numbered_spec, dump_line as dump_line_spec, part_of as part_of_spec, part_at as part_at_spec, part_in, octets_added, is_first as is_first_spec};

use crate::capture::{is_passed_over, octets_in};
use hex::FromHex;
use std::alloc::{AllocError, Global};

/// What a line is to the lines before it.
#[derive(Drop)]
pub(crate) enum Part {
    /// A dump begins with it, by these octets.
    First(Vec<u8>),
    /// It goes on with the dump before it, by these.
    Next(Vec<u8>),
    /// It is of no dump.
    Apart,
}

// A blank or a tab.
fn is_blank(c: u8) -> bool
    ensures { result ≡ is_blank_spec c }
{
    c == b' ' || c == b'\t'
}

// A blank, or a colon.
fn is_offset_end(c: u8) -> bool
    ensures { result ≡ is_offset_end_spec c }
{
    is_blank(c) || c == b':'
}

// A colon, or a hyphen.
fn is_mark(c: u8) -> bool
    ensures { result ≡ is_mark_spec c }
{
    c == b':' || c == b'-'
}

// A text without the blanks at its front.
fn behind_blanks(text: &[u8]) -> &[u8]
    ensures rest { result.now ≡ behind_blanks_spec text.now }
    ensures within { length result.now ≤ length text.now }
{
    let mut rest = text;
    while let [c, ..] = rest {
        if !is_blank(*c) {
            return rest;
        }
        rest = &rest[1..];
    }
    rest
}

// A text without `0x` at its front.
fn behind_prefix(text: &[u8]) -> &[u8]
    ensures rest { result.now ≡ behind_prefix_spec text.now }
    ensures within { length result.now ≤ length text.now }
{
    match text {
        [b'0', b'x', rest @ ..] => rest,
        _ => text,
    }
}

// The place of the first blank or colon.
fn offset_end(text: &[u8]) -> Option<usize>
    ensures { result ≡ position is_offset_end_spec text.now }
{
    text.iter().position(|c| is_offset_end(*c))
}

// The number of eight hexadecimal digits.
fn eight_digits(digits: &[u8]) -> Option<u32>
    ensures { result ≡ eight_digits_spec digits.now }
{
    match <[u8; 4] as FromHex>::from_hex(digits) {
        Ok(octets) => Some(u32::from_be_bytes(octets)),
        Err(_) => None,
    }
}

// The number of four to eight hexadecimal digits.
fn offset_of(alloc: Global, digits: &[u8]) -> Result<Option<u32>, AllocError>
    ensures { IfOk result (λ offset. offset ≡ offset_of_spec digits.now) }
{
    let count = digits.len();
    if count < 4 || count > 8 {
        return Ok(None);
    }
    let mut padded = vec![in alloc; b'0'; 8 - count]?;
    padded.extend_from_slice(digits)?;
    Ok(eight_digits(padded.as_slice()))
}

// What stands behind the gap between an offset and octets.
fn behind_gap(text: &[u8]) -> Option<&[u8]>
    ensures rest { option_map (λ rest. rest.now) result ≡ behind_gap_spec text.now }
    ensures within { IfSome result (λ rest. length rest.now ≤ length text.now) }
{
    match text {
        [a, b, rest @ ..] => {
            if is_offset_end(*a) && is_blank(*b) {
                Some(behind_blanks(rest))
            } else {
                None
            }
        }
        _ => None,
    }
}

// Whether two characters are blanks.
fn are_blank(c: u8, d: u8) -> bool
    ensures { result ≡ (is_blank_spec c && is_blank_spec d) }
{
    is_blank(c) && is_blank(d)
}

// What stands before the first two blanks in a row.
fn column(text: &[u8]) -> &[u8]
    ensures front { result.now ≡ column_spec text.now }
    ensures within { length result.now ≤ length text.now }
{
    let mut size = 0;
    while let [c, d, ..] = &text[size..] {
        if are_blank(*c, *d) {
            return &text[..size];
        }
        size += 1;
    }
    text
}

// Whether a text has a colon or a hyphen.
fn has_mark(text: &[u8]) -> bool
    ensures { result ≡ list_any is_mark_spec text.now }
{
    text.iter().any(|c| is_mark(*c))
}

// The octets of a column.
fn column_octets(alloc: Global, text: &[u8]) -> Result<Option<Vec<u8>>, AllocError>
    ensures octets { IfOk result (λ o. option_map (λ v. v.items) o
        ≡ column_octets_spec text.now) }
    ensures few { IfOk result (λ o. IfSome o (λ v. length v.items ≤ length text.now)) }
{
    if has_mark(text) {
        return Ok(None);
    }
    if is_passed_over(text) {
        return Ok(None);
    }
    octets_in(alloc, text)
}

// The octets behind an offset.
fn octets_behind(alloc: Global, text: &[u8]) -> Result<Option<Vec<u8>>, AllocError>
    ensures octets { IfOk result (λ o. option_map (λ v. v.items) o
        ≡ octets_behind_spec text.now) }
    ensures few { IfOk result (λ o. IfSome o (λ v. length v.items ≤ length text.now)) }
{
    match behind_gap(text) {
        Some(rest) => column_octets(alloc, column(rest)),
        None => Ok(None),
    }
}

// The offset and the octets of a line behind the blanks at its front, if it is one of a dump.
fn numbered(alloc: Global, text: &[u8]) -> Result<Option<(u32, Vec<u8>)>, AllocError>
    ensures line { IfOk result (λ o. option_map (λ x. (x.0, x.1.items)) o
        ≡ numbered_spec text.now) }
    ensures few { IfOk result (λ o. IfSome o (λ x. length x.1.items ≤ length text.now)) }
{
    let Some(end) = offset_end(text) else {
        return Ok(None);
    };
    let Some(offset) = offset_of(alloc, &text[..end])? else {
        return Ok(None);
    };
    match octets_behind(alloc, &text[end..])? {
        Some(octets) => Ok(Some((offset, octets))),
        None => Ok(None),
    }
}

// The same of a whole line.
fn dump_line(alloc: Global, line: &[u8]) -> Result<Option<(u32, Vec<u8>)>, AllocError>
    ensures line { IfOk result (λ o. option_map (λ x. (x.0, x.1.items)) o
        ≡ dump_line_spec line.now) }
    ensures few { IfOk result (λ o. IfSome o (λ x. length x.1.items ≤ length line.now)) }
{
    numbered(alloc, behind_prefix(behind_blanks(line)))
}

// What a line of a dump is behind so many octets.
fn part_of(due: usize, offset: u32, octets: Vec<u8>) -> Part
    ensures { part_in result ≡ part_of_spec due (Some (offset, octets.items)) }
{
    if offset == 0 {
        Part::First(octets)
    } else if offset as usize == due {
        Part::Next(octets)
    } else {
        Part::Apart
    }
}

/// What a line is behind a dump's octets, so many, or 0 where no dump stands before it.
pub(crate) fn part_at(alloc: Global, due: usize, line: &[u8]) -> Result<Part, AllocError>
    ensures part { IfOk result (λ part. part_in part ≡ part_at_spec due line.now) }
    ensures few { IfOk result (λ part. length (octets_added (part_in part)) ≤ length line.now) }
{
    match dump_line(alloc, line)? {
        Some((offset, octets)) => Ok(part_of(due, offset, octets)),
        None => Ok(Part::Apart),
    }
}

/// Whether a line begins a dump.
pub(crate) fn is_first(alloc: Global, line: &[u8]) -> Result<bool, AllocError>
    ensures { IfOk result (λ first. first ≡ is_first_spec (part_at_spec 0 line.now)) }
{
    match part_at(alloc, 0, line)? {
        Part::First(_) => Ok(true),
        _ => Ok(false),
    }
}
