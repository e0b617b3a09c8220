//! The form of a journal's lines, which tells neither what happens nor when.

ghost use Rattle.std.specs.Prelude.{◌≡◌, ◌∷◌, ◌++◌, ◌<◌, ◌≤◌, ◌-◌, ◌↔◌, ℕ, codes, IfSome, IfNone, IsTrue};
ghost use Rattle.std.specs.List.{AllByRecursion};
ghost use Rattle.journal_audit.specs.Texts.{lines_of};
ghost use Rattle.journal_audit.specs.Form.{IsDigit, IsLed, IsNumber, IsNumberText, IsCountText, IsReplyText, IsMadeText, IsEntryText, IsHappeningText, IsFormed, AreFormed, IsFirstUnformed, IsWordThen, IsNumeralOf, IsEntryBefore};

use crate::texts::{before, behind_word, first_line};
use itoa::Buffer;
use report_words::number_of_word;
use srp_base::Seq;

/// What a scenario's journal may name: how many ticks and events there are, and the names of the
/// ports.
#[derive(Drop)]
pub(crate) struct Known {
    pub(crate) ticks: u64,
    pub(crate) events: u32,
    pub(crate) ports: Seq<Seq<u8>>,
}

// Whether these are the digits of a number, none of them a leading zero.
fn is_number(digits: &[u8]) -> bool
    ensures { IsTrue result ↔ IsNumber digits.now }
{
    is_led(digits) && are_digits(digits)
}

// Whether there is an octet, and none behind it where it is the digit 0.
fn is_led(digits: &[u8]) -> bool
    ensures { IsTrue result ↔ IsLed digits.now }
{
    !digits.is_empty() && (digits[0] != b'0' || digits.len() == 1)
}

// Whether each octet is a decimal digit.
fn are_digits(digits: &[u8]) -> bool
    ensures { IsTrue result ↔ AllByRecursion IsDigit digits.now }
{
    digits.iter().all(|c| b'0' <= *c && *c <= b'9')
}

// Whether a number ends the line.
fn is_number_text(text: &[u8]) -> bool
    ensures { IsTrue result ↔ IsNumberText text.now }
{
    match before(text, b"\n") {
        Some(digits) => is_number(digits),
        None => false,
    }
}

// Whether a word and a number end the line.
fn is_counted(text: &[u8], word: &[u8]) -> bool
    ensures { IsTrue result ↔ IsWordThen IsNumberText word.now text.now }
{
    match behind_word(text, word) {
        Some(rest) => is_number_text(rest),
        None => false,
    }
}

// Whether an answer ends the line.
fn is_reply_text(text: &[u8]) -> bool
    ensures { IsTrue result ↔ IsReplyText text.now }
{
    text == b"nothing\n".as_slice() || text == b"silent\n".as_slice() || is_count_text(text)
}

// Whether an answer that tells a number ends the line.
fn is_count_text(text: &[u8]) -> bool
    ensures { IsTrue result ↔ IsCountText text.now }
{
    is_counted(text, b"discarded")
        || is_counted(text, b"received")
        || is_counted(text, b"fired")
        || is_counted(text, b"settled")
        || is_counted(text, b"sent")
}

// Whether a step and its answer end the line.
fn is_made_by(text: &[u8], word: &[u8]) -> bool
    ensures { IsTrue result ↔ IsWordThen IsReplyText word.now text.now }
{
    match behind_word(text, word) {
        Some(rest) => is_reply_text(rest),
        None => false,
    }
}

// Whether one of the steps that a tick may have, and its answer, end the line.
fn is_made_text(text: &[u8]) -> bool
    ensures { IsTrue result ↔ IsMadeText text.now }
{
    is_made_by(text, b"work")
        || is_made_by(text, b"due")
        || is_made_by(text, b"settle")
        || is_made_by(text, b"send mvrp")
        || is_made_by(text, b"send msrp")
}

// Whether a port and a step of it end the line.
fn is_at(port: &[u8], text: &[u8]) -> bool
    ensures { IsTrue result ↔ IsWordThen IsMadeText port.now text.now }
{
    match behind_word(text, port) {
        Some(rest) => is_made_text(rest),
        None => false,
    }
}

// Whether digits are those of a number from 1 to this one.
fn is_entry(events: u32, digits: &[u8]) -> bool
    ensures { IsTrue result ↔ IsNumeralOf events digits.now }
{
    match number_of_word(digits) {
        Some(number) => 1 <= number && number <= events,
        None => false,
    }
}

// Whether the number of an entry, and what became of it, end the line.
fn is_entry_text(events: u32, text: &[u8]) -> bool
    ensures { IsTrue result ↔ IsEntryText events text.now }
{
    is_entry_before(events, text, b" done\n") || is_entry_before(events, text, b" missed\n")
}

// Whether the number of an entry and this end the line.
fn is_entry_before(events: u32, text: &[u8], end: &[u8]) -> bool
    ensures { IsTrue result ↔ IsEntryBefore events end.now text.now }
{
    match before(text, end) {
        Some(digits) => is_entry(events, digits),
        None => false,
    }
}

// Whether an event ends the line.
fn is_event_text(events: u32, text: &[u8]) -> bool
    ensures { IsTrue result ↔ IsWordThen (IsEntryText events) (codes "event") text.now }
{
    match behind_word(text, b"event") {
        Some(rest) => is_entry_text(events, rest),
        None => false,
    }
}

// Whether what stands behind a line's tick is of the form.
fn is_happening_text(known: &Known, text: &[u8]) -> bool
    ensures { IsTrue result ↔ IsHappeningText known.now text.now }
{
    is_event_text(known.events, text)
        || known
            .ports
            .as_slice()
            .iter()
            .any(|port| is_at(port.as_slice(), text))
}

// Whether a line is one of a tick.
fn is_formed(known: &Known, t: u64, line: &[u8]) -> bool
    ensures { IsTrue result ↔ IsFormed known.now t line.now }
{
    let mut digits = Buffer::new();
    match behind_word(line, digits.format(t).as_bytes()) {
        Some(rest) => is_happening_text(known, rest),
        None => false,
    }
}

// The first tick from a tick on of which a line is.
fn tick_of(known: &Known, from: u64, line: &[u8]) -> Option<u64>
    ensures some { IfSome result (λ s. (from ≤ s) × (s < known.now.ticks)
        × IsFormed known.now s line.now
        × ((r : ℕ) → from ≤ r → r < s → IsFormed known.now r line.now → ⊥)) }
    ensures none { IfNone result ((r : ℕ) → from ≤ r → r < known.now.ticks
        → IsFormed known.now r line.now → ⊥) }
{
    for s in from..known.ticks {
        if is_formed(known, s, line) {
            return Some(s);
        }
    }
    None
}

/// The number, counted from 1, of the first line of a text that isn't of the form, or whose tick is
/// below that of the line before.
pub(crate) fn first_unformed(known: &Known, text: &[u8]) -> Option<u64>
    ensures none { IfNone result (AreFormed known.now 0 (lines_of text.now)) }
    ensures some { IfSome result (λ line. (1 ≤ line)
        × IsFirstUnformed known.now text.now (line - 1)) }
{
    let mut rest = text;
    let mut tick = 0;
    let mut line = 1;
    while !rest.is_empty() {
        let (first, behind) = first_line(rest);
        let Some(next) = tick_of(known, tick, first) else {
            return Some(line);
        };
        tick = next;
        rest = behind;
        line += 1;
    }
    None
}
