//! The lines of a file, by what they begin with.

ghost use Rattle.std.specs.Prelude.{◌≡◌, ◌≤◌, ◌<◌, ◌+◌, ◌-◌, ◌^◌, ◌==◌, ◌&&◌, ◌||◌, codes, cond, drop, is_some, length, option_map, IfSome};
ghost use Rattle.std.specs.Option.{option_or};
ghost use Rattle.file_places.specs.Lines.{begins_with as begins_with_spec, behind as behind_spec, behind_blanks as behind_blanks_spec, behind_brackets as behind_brackets_spec, behind_header as behind_header_spec, behind_key as behind_key_spec, behind_name as behind_name_spec, behind_opening as behind_opening_spec, behind_quoted as behind_quoted_spec, behind_comma as behind_comma_spec, first_line, has_item as has_item_spec, has_name as has_name_spec, is_blank as is_blank_spec, is_of_kind as is_of_kind_spec, is_among as is_among_spec, items_skipped as items_skipped_spec, unblanked as unblanked_spec};

use crate::place::mark_length;

/// What a line begins with.
#[derive(Clone, Copy)]
pub(crate) enum LineKind {
    /// The header of an entry of an array of tables: `[[array]]`.
    Header,
    /// A key, or the first name of a dotted one: `word =`, `word.other =`.
    Key,
    /// The header of a table at the key, or of one in it: `[word]`, `[[word]]`, `[word.other]`.
    Table,
    /// The key of an array that is written inline, and its bracket: `array = [`.
    Opening,
    /// An entry that is written inline, behind the bracket or by itself: `{`.
    Item,
}

/// A line of a text.
#[derive(Clone, Copy)]
pub(crate) struct Line {
    /// Its number, counted from 1.
    pub(crate) number: usize,
    /// How many octets stand before it.
    pub(crate) start: usize,
    /// How many stand up to its end, its line feed among them.
    pub(crate) end: usize,
}

// A blank or a tab.
fn is_blank(octet: u8) -> bool
    ensures { result ≡ is_blank_spec octet }
{
    octet == b' ' || octet == b'\t'
}

// A text without the blanks in front.
fn unblanked(octets: &[u8]) -> &[u8]
    ensures { result.now ≡ unblanked_spec octets.now }
{
    for at in 0..octets.len() {
        if !is_blank(octets[at]) {
            return &octets[at..];
        }
    }
    &octets[octets.len()..]
}

// What stands behind a word, where a text begins with it.
fn behind<'a>(word: &[u8], octets: &'a [u8]) -> Option<&'a [u8]>
    ensures { option_map (λ t. t.now) result ≡ behind_spec word.now octets.now }
{
    octets.strip_prefix(word)
}

// What stands behind a word and the blanks in front of it.
fn behind_blanks<'a>(word: &[u8], octets: &'a [u8]) -> Option<&'a [u8]>
    ensures { option_map (λ t. t.now) result ≡ behind_blanks_spec word.now octets.now }
{
    behind(word, unblanked(octets))
}

// What stands behind a word between these quotes.
fn behind_quoted<'a>(quote: &[u8], word: &[u8], octets: &'a [u8]) -> Option<&'a [u8]>
    ensures { option_map (λ t. t.now) result ≡ behind_quoted_spec quote.now word.now octets.now }
{
    let name = behind_blanks(quote, octets)?;
    let end = behind(word, name)?;
    behind(quote, end)
}

// What stands behind a word between the other quotes, or bare.
fn behind_other<'a>(word: &[u8], octets: &'a [u8]) -> Option<&'a [u8]>
    ensures { option_map (λ t. t.now) result
        ≡ option_or (behind_quoted_spec (codes "'") word.now octets.now)
        (behind_blanks_spec word.now octets.now) }
{
    match behind_quoted(b"'", word, octets) {
        Some(end) => Some(end),
        None => behind_blanks(word, octets),
    }
}

// What stands behind a name, between quotes or bare.
fn behind_name<'a>(word: &[u8], octets: &'a [u8]) -> Option<&'a [u8]>
    ensures { option_map (λ t. t.now) result ≡ behind_name_spec word.now octets.now }
{
    match behind_quoted(b"\"", word, octets) {
        Some(end) => Some(end),
        None => behind_other(word, octets),
    }
}

// What stands behind the header of an array of tables, where a line begins with it.
fn behind_header<'a>(array: &[u8], line: &'a [u8]) -> Option<&'a [u8]>
    ensures { option_map (λ t. t.now) result ≡ behind_header_spec array.now line.now }
{
    let name = behind_blanks(b"[[", line)?;
    let end = behind_name(array, name)?;
    behind_blanks(b"]]", end)
}

// What stands behind a key and its `=`, where a line begins with them.
fn behind_key<'a>(word: &[u8], line: &'a [u8]) -> Option<&'a [u8]>
    ensures { option_map (λ t. t.now) result ≡ behind_key_spec word.now line.now }
{
    let end = behind_name(word, line)?;
    behind_blanks(b"=", end)
}

// What stands behind the bracket with which an array opens, where a line begins with its key.
fn behind_opening<'a>(array: &[u8], line: &'a [u8]) -> Option<&'a [u8]>
    ensures { option_map (λ t. t.now) result ≡ behind_opening_spec array.now line.now }
{
    let value = behind_key(array, line)?;
    behind_blanks(b"[", value)
}

// A text without the comma in front, and the blanks in front of it, where there is one.
fn behind_comma(octets: &[u8]) -> &[u8]
    ensures { result.now ≡ behind_comma_spec octets.now }
{
    match behind_blanks(b",", octets) {
        Some(end) => end,
        None => octets,
    }
}

// Whether a text begins with a table that is written inline, with a comma in front or without.
fn has_item(octets: &[u8]) -> bool
    ensures { result ≡ has_item_spec octets.now }
{
    behind_blanks(b"{", behind_comma(octets)).is_some()
}

// Whether a line begins with an entry that is written inline.
fn is_item(array: &[u8], line: &[u8]) -> bool
    ensures { result ≡ begins_with_spec LineKind.Item array.now line.now }
{
    if has_item(line) {
        return true;
    }
    match behind_opening(array, line) {
        Some(items) => has_item(items),
        None => false,
    }
}

// What stands behind the bracket or the two with which a header begins.
fn behind_brackets(line: &[u8]) -> Option<&[u8]>
    ensures { option_map (λ t. t.now) result ≡ behind_brackets_spec line.now }
{
    match behind_blanks(b"[[", line) {
        Some(name) => Some(name),
        None => behind_blanks(b"[", line),
    }
}

// Whether a text begins with one of two signs.
fn has_sign(sign: &[u8], other: &[u8], octets: &[u8]) -> bool
    ensures { result ≡ (is_some (behind_blanks_spec sign.now octets.now)
        || is_some (behind_blanks_spec other.now octets.now)) }
{
    behind_blanks(sign, octets).is_some() || behind_blanks(other, octets).is_some()
}

// Whether a text begins with a name, behind which one of two signs stands.
fn has_name(word: &[u8], sign: &[u8], other: &[u8], octets: &[u8]) -> bool
    ensures { result ≡ has_name_spec word.now sign.now other.now octets.now }
{
    match behind_name(word, octets) {
        Some(end) => has_sign(sign, other, end),
        None => false,
    }
}

// Whether a line begins with the header of a table at a key, or of one in it.
fn is_table(word: &[u8], line: &[u8]) -> bool
    ensures { result ≡ begins_with_spec LineKind.Table word.now line.now }
{
    match behind_brackets(line) {
        Some(name) => has_name(word, b"]", b".", name),
        None => false,
    }
}

// Whether a line begins so, for an array or a key of this word.
fn begins_with(kind: LineKind, word: &[u8], line: &[u8]) -> bool
    ensures { result ≡ begins_with_spec kind word.now line.now }
{
    match kind {
        LineKind::Header => behind_header(word, line).is_some(),
        LineKind::Key => has_name(word, b"=", b".", line),
        LineKind::Table => is_table(word, line),
        LineKind::Opening => behind_opening(word, line).is_some(),
        LineKind::Item => is_item(word, line),
    }
}

/// Whether it does without the byte order mark, which the first line of a file may have in front.
pub(crate) fn is_of_kind(kind: LineKind, word: &[u8], line: &[u8]) -> bool
    ensures { result ≡ is_of_kind_spec kind word.now line.now }
{
    begins_with(kind, word, &line[mark_length(line)..])
}

/// The end of the line that begins at a place.
pub(crate) fn line_end(octets: &[u8], from: usize) -> usize
    requires { from < length octets.now }
    ensures end { result ≡ from + length (first_line (drop from octets.now)) }
    ensures further { from < result }
    ensures within { result ≤ length octets.now }
{
    for at in from..octets.len() {
        if octets[at] == b'\n' {
            return at + 1;
        }
    }
    octets.len()
}

/// One more where it is so.
pub(crate) fn counted(count: usize, is: bool) -> usize
    requires { count + 1 < 2 ^ 64 }
    ensures count { result ≡ count + cond is 1 0 }
    ensures most { result ≤ count + 1 }
{
    if is { count + 1 } else { count }
}

/// How many lines of a kind are tried at most for one in which something begins.
const TRIED_LINES: usize = 16;

// Whether a number is one of so many from another on.
fn is_among(number: usize, n: usize) -> bool
    ensures { result ≡ is_among_spec number n }
{
    number <= n && n - number < TRIED_LINES
}

/// Whether a line that is of a kind, or isn't, is tried from a number on, behind so many of the
/// kind, of which the first are skipped.
pub(crate) fn is_tried(is: bool, found: usize, skipped: usize, number: usize) -> bool
    requires { found + 1 < 2 ^ 64 }
    ensures { result ≡ (is && is_among_spec number (found + 1 - skipped)) }
{
    is && is_among(number, (found + 1).saturating_sub(skipped))
}

/// How many lines begin with an entry that is written inline before the first in which the array
/// opens; None where it doesn't open.
pub(crate) fn items_skipped(octets: &[u8], array: &[u8]) -> Option<usize>
    ensures { result ≡ items_skipped_spec array.now octets.now }
{
    let mut found = 0;
    let mut start = 0;
    while start < octets.len() {
        let end = line_end(octets, start);
        let line = &octets[start..end];
        if is_of_kind(LineKind::Opening, array, line) {
            return Some(found);
        }
        found = counted(found, is_of_kind(LineKind::Item, array, line));
        start = end;
    }
    None
}
