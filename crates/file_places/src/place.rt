//! Where a file isn't TOML.

ghost use Rattle.std.specs.Prelude.{◌≡◌, ◌≤◌, ◌<◌, ◌+◌, ◌-◌, ◌^◌, ◌++◌, true, false, None, take, drop, length, slice_index, All, IfOk, IfSome, IfNone, IsSome, IsUtf8, OnOk};
ghost use Rattle.std.specs.Str.{is_utf8, IsValidUpTo};
ghost use Rattle.toml.specs.Errors.{IsMemory, IsWithin};
ghost use Rattle.file_places.specs.Document.{document};
ghost use Rattle.file_places.specs.Places.{hex_digit as hex_digit_spec, is_printed as is_printed_spec, mark_length as mark_length_spec, place_line, spot_at as spot_at_spec, spot_behind as spot_behind_spec, spot_of as spot_of_spec, spot_words, starts_character as starts_character_spec, utf8_words, IsFaultPlace, IsPlaceOf, IsReadPlace, IsUtf8Place};

use crate::pieces::{put, put_octets};
use srp_base::{NoMemory, Seq};
use std::alloc::Global;
use toml::de::Error;

/// A place in a text, its line and its column counted from 1.
#[derive(Clone, Copy)]
pub struct Spot {
    /// One more than there are line feeds before it.
    pub line: usize,
    /// One more than there are characters of UTF-8 between the last of them and it.
    pub column: usize,
}

/// Where a file isn't TOML, and why.
#[derive(Drop)]
pub struct Place {
    /// The start of what the reader's error spans.
    pub spot: Spot,
    /// The words of the error, without octets below 32.
    pub message: Seq<u8>,
}

// Whether a character of UTF-8 begins with this octet.
fn starts_character(octet: u8) -> bool
    ensures { result ≡ starts_character_spec octet }
{
    !(128 <= octet && octet < 192)
}

// The place with one octet more.
fn spot_behind(spot: Spot, octet: u8) -> Spot
    requires line { spot.line + 1 < 2 ^ 64 }
    requires column { spot.column + 1 < 2 ^ 64 }
    ensures spot { result ≡ spot_behind_spec spot octet }
    ensures line { result.line ≤ spot.line + 1 }
    ensures column { result.column ≤ spot.column + 1 }
{
    if octet == b'\n' {
        Spot {
            line: spot.line + 1,
            column: 1,
        }
    } else if starts_character(octet) {
        Spot {
            line: spot.line,
            column: spot.column + 1,
        }
    } else {
        spot
    }
}

// The place behind the first octets of a text, so many.
fn spot_of(octets: &[u8], end: usize) -> Spot
    requires { end ≤ length octets.now }
    ensures { result ≡ spot_of_spec (take end octets.now) }
{
    let mut spot = Spot { line: 1, column: 1 };
    for i in 0..end {
        spot = spot_behind(spot, octets[i]);
    }
    spot
}

/// The byte order mark, which an editor may write before a text and doesn't show.
const MARK: [u8; 3] = [239, 187, 191];

/// How many octets the byte order mark has, where there is one.
pub(crate) fn mark_length(octets: &[u8]) -> usize
    ensures length { result ≡ mark_length_spec octets.now }
    ensures within { result ≤ length octets.now }
{
    if octets.starts_with(&MARK) { 3 } else { 0 }
}

// The place behind the first octets of a text, so many, as an editor counts it.
fn spot_at(octets: &[u8], end: usize) -> Spot
    requires { end ≤ length octets.now }
    ensures { result ≡ spot_at_spec octets.now end }
{
    let mark = mark_length(octets);
    spot_of(&octets[mark..], end.saturating_sub(mark))
}

// The octets of a text that a line may have.
fn printed_of(alloc: Global, text: &str) -> Result<Vec<u8>, NoMemory>
    ensures { IfOk result (λ v. All (λ c. is_printed_spec c ≡ true) v.items) }
{
    let mut printed = Vec::new(alloc);
    for octet in text.as_bytes() {
        if 32 <= *octet {
            printed.push(*octet)?;
        }
    }
    Ok(printed)
}

// The place of a reader's error.
fn place_of(alloc: Global, octets: &[u8], error: &Error) -> Result<Place, NoMemory>
    requires { IsWithin octets.now error.now }
    ensures place { IfOk result (IsPlaceOf octets.now error.now) }
    ensures refused { IfOk result (λ _. ¬ IsMemory error.now) }
{
    let Some(span) = error.span() else {
        return Err(NoMemory);
    };
    let printed = printed_of(alloc, error.message())?;
    Ok(Place {
        spot: spot_at(octets, span.start),
        message: Seq::from_vec(printed),
    })
}

// The place of a reader's error of octets that are UTF-8, where that isn't want of memory.
fn fault_place(alloc: Global, octets: &[u8], error: &Error) -> Result<Place, NoMemory>
    requires utf8 { IsUtf8 octets.now }
    requires within { IsWithin octets.now error.now }
    requires refused { ¬ IsMemory error.now → document octets.now ≡ None }
    ensures { IfOk result (IsFaultPlace octets.now) }
{
    let place = place_of(alloc, octets, error)?;
    Ok(place)
}

// Where octets that are UTF-8 aren't TOML.
fn text_place(alloc: Global, octets: &[u8], text: &str) -> Result<Option<Place>, NoMemory>
    requires utf8 { IsUtf8 octets.now }
    requires text { text.now ≡ octets.now }
    ensures none { IfOk result (λ place. IfNone place (IsSome (document octets.now))) }
    ensures some { IfOk result (λ place. IfSome place (IsFaultPlace octets.now)) }
{
    match toml::table_from_str(alloc, text) {
        Ok(_table) => Ok(None),
        Err(error) => Ok(Some(fault_place(alloc, octets, &error)?)),
    }
}

// A hexadecimal digit.
fn hex_digit(n: u8) -> u8
    requires { n < 16 }
    ensures { result ≡ hex_digit_spec n }
{
    if n < 10 { 48 + n } else { 87 + n }
}

// What is said of the first octet that isn't UTF-8.
fn utf8_message(alloc: Global, octet: u8) -> Result<Vec<u8>, NoMemory>
    ensures { IfOk result (λ v. v.items ≡ utf8_words octet) }
{
    let digits = [hex_digit(octet / 16), hex_digit(octet % 16)];
    let mut words = Vec::new(alloc);
    put(&mut words, "the octet 0x")?;
    put_octets(&mut words, digits.as_slice())?;
    put(&mut words, " isn't UTF-8")?;
    Ok(words)
}

// The place at which octets stop being UTF-8.
fn utf8_place(alloc: Global, octets: &[u8], valid: usize) -> Result<Place, NoMemory>
    requires { IsValidUpTo octets.now valid }
    ensures { IfOk result (IsUtf8Place octets.now) }
{
    let message = utf8_message(alloc, octets[valid])?;
    Ok(Place {
        spot: spot_at(octets, valid),
        message: Seq::from_vec(message),
    })
}

/// Where octets aren't TOML, or None exactly where they are a document: of octets that are UTF-8
/// the line and the column of the start of the span of the reader's error, with the words of that
/// error, and of others those of the first octet that isn't UTF-8.
pub fn toml_place(alloc: Global, octets: &[u8]) -> Result<Option<Place>, NoMemory>
    ensures none { IfOk result (λ place. IfNone place (IsSome (document octets.now))) }
    ensures some { IfOk result (λ place. IfSome place (IsFaultPlace octets.now)) }
{
    match std::str::from_utf8(octets) {
        Ok(text) => text_place(alloc, octets, text),
        Err(error) => Ok(Some(utf8_place(alloc, octets, error.valid_up_to())?)),
    }
}

// Puts the line and the column at the end of a text.
fn put_spot(out: &mut Vec<u8>, spot: Spot) -> Result<(), NoMemory>
    ensures { OnOk result (out.new.items ≡ out.old.items ++ spot_words spot) }
{
    let alloc = *out.allocator();
    let Spot { line, column } = spot;
    let words = format!(in alloc; "there: line {line} column {column}: ")?;
    put(out, &words)
}

/// Puts the line of a place at the end of a text.
pub fn put_place(out: &mut Vec<u8>, place: &Place) -> Result<(), NoMemory>
    ensures { OnOk result (out.new.items ≡ out.old.items ++ place_line place.now) }
{
    put_spot(out, place.spot)?;
    put_octets(out, place.message.as_slice())?;
    put(out, "\n")?;
    Ok(())
}
