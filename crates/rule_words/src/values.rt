//! What stands at a key, in words.

ghost use Rattle.std.specs.Prelude.{◌≡◌, ◌<◌, ◌++◌, flat_map, OnOk};
ghost use Rattle.std.specs.Fmt.{signed_decimal};
ghost use Rattle.toml.specs.View.{view, items_view};
ghost use Rattle.rule_words.specs.Values.{is_plain as is_plain_spec, hex_digit as hex_digit_spec, escape, shown_char, quoted, text_words, length_words, truth_word as truth_word_spec, array_words, items_count, value_words};

use crate::pieces::{put, put_number};
use srp_base::NoMemory;
use std::alloc::AllocError;
use toml::Value;

// A character that stands for itself between quotes.
fn is_plain(c: u8) -> bool
    ensures { result ≡ is_plain_spec c }
{
    32 <= c && c != b'"' && c != b'\\' && c != 127
}

// A hexadecimal digit.
fn hex_digit(n: u8) -> u8
    requires { n < 16 }
    ensures { result ≡ hex_digit_spec n }
{
    if n < 10 { 48 + n } else { 87 + n }
}

// Another character, as its number.
fn put_escape(out: &mut Vec<u8>, c: u8) -> Result<(), AllocError>
    ensures { OnOk result (out.new.items ≡ out.old.items ++ escape c) }
{
    let high = hex_digit(c / 16);
    let low = hex_digit(c % 16);
    out.extend_from_slice([b'\\', b'x', high, low].as_slice())
}

fn put_char(out: &mut Vec<u8>, c: u8) -> Result<(), NoMemory>
    ensures { OnOk result (out.new.items ≡ out.old.items ++ shown_char c) }
{
    if is_plain(c) {
        Ok(out.push(c)?)
    } else {
        Ok(put_escape(out, c)?)
    }
}

fn put_chars(out: &mut Vec<u8>, text: &[u8]) -> Result<(), NoMemory>
    ensures { OnOk result (out.new.items ≡ out.old.items ++ flat_map shown_char text.now) }
{
    for c in text {
        put_char(out, *c)?;
    }
    Ok(())
}

/// A text between quotes, in one line whatever its characters.
pub(crate) fn put_quoted(out: &mut Vec<u8>, text: &[u8]) -> Result<(), NoMemory>
    ensures { OnOk result (out.new.items ≡ out.old.items ++ quoted text.now) }
{
    put(out, "\"")?;
    put_chars(out, text)?;
    put(out, "\"")?;
    Ok(())
}

/// The most octets of a text that is printed itself.
const MOST_SHOWN: usize = 80;

/// A text between quotes, or how long it is.
pub(crate) fn put_text(out: &mut Vec<u8>, text: &[u8]) -> Result<(), NoMemory>
    ensures { OnOk result (out.new.items ≡ out.old.items ++ text_words text.now) }
{
    if text.len() <= MOST_SHOWN {
        put_quoted(out, text)
    } else {
        Ok(put_length(out, text.len() as u64)?)
    }
}

fn put_length(out: &mut Vec<u8>, length: u64) -> Result<(), AllocError>
    ensures { OnOk result (out.new.items ≡ out.old.items ++ length_words length) }
{
    put(out, "a text of ")?;
    put_number(out, length)?;
    put(out, " octets")
}

fn truth_word(truth: bool) -> &'static str
    ensures { result.now ≡ truth_word_spec truth }
{
    if truth { "true" } else { "false" }
}

// A whole number in decimal.
fn put_integer(out: &mut Vec<u8>, number: i64) -> Result<(), AllocError>
    ensures { OnOk result (out.new.items ≡ out.old.items ++ signed_decimal number) }
{
    let alloc = *out.allocator();
    let digits = format!(in alloc; "{number}")?;
    out.extend_from_slice(digits.as_bytes())
}

/// How many values an array has.
pub(crate) fn count_of(values: &[Value]) -> u64
    ensures { result ≡ items_count (items_view values.now) }
{
    values.len() as u64
}

// An array, by how many values it has.
fn put_array(out: &mut Vec<u8>, count: u64) -> Result<(), AllocError>
    ensures { OnOk result (out.new.items ≡ out.old.items ++ array_words count) }
{
    let alloc = *out.allocator();
    let words = format!(in alloc; "an array of {count} values")?;
    put(out, &words)
}

/// A value in words.
pub(crate) fn put_value(out: &mut Vec<u8>, value: &Value) -> Result<(), NoMemory>
    ensures { OnOk result (out.new.items ≡ out.old.items ++ value_words (view value.now)) }
{
    match value {
        Value::String(text) => put_text(out, text.as_bytes()),
        Value::Integer(number) => Ok(put_integer(out, *number)?),
        Value::Boolean(truth) => Ok(put(out, truth_word(*truth))?),
        Value::Float(_) => Ok(put(out, "a number with a fraction")?),
        Value::Datetime(_) => Ok(put(out, "a date or a time")?),
        Value::Array(values) => Ok(put_array(out, count_of(values.as_slice()))?),
        Value::Table(_) => Ok(put(out, "a table")?),
    }
}
