//! A line as it is shown: in one line whatever its octets.

ghost use Rattle.std.specs.Prelude.{◌≡◌, ◌≤◌, ◌++◌, ◌==◌, length, take, flat_map, OnOk};
ghost use Rattle.std.specs.List.{list_any};
ghost use Rattle.audit_words.specs.Shown.{shown_octet, shown_octets, shown_end, shown_line, most_whole as most_whole_spec};

use report_words::put;
use srp_base::NoMemory;

/// The most octets of a line that are shown.
const MOST_SHOWN: usize = 200;

// An octet, as a question mark where it isn't printable; a line feed isn't shown.
fn put_octet(out: &mut Vec<u8>, c: u8) -> Result<(), NoMemory>
    ensures { OnOk result (out.new.items ≡ out.old.items ++ shown_octet c) }
{
    if c == b'\n' {
        Ok(())
    } else if 32 <= c && c <= 126 {
        Ok(out.push(c)?)
    } else {
        put(out, "?")
    }
}

// Octets, one by one.
fn put_each(out: &mut Vec<u8>, octets: &[u8]) -> Result<(), NoMemory>
    ensures { OnOk result (out.new.items ≡ out.old.items ++ flat_map shown_octet octets.now) }
{
    for c in octets {
        put_octet(out, *c)?;
    }
    Ok(())
}

// The first octets of a line, so many.
fn front_of(line: &[u8], count: usize) -> &[u8]
    requires { count ≤ length line.now }
    ensures { result.now ≡ take count line.now }
{
    let (front, _) = line.split_at(count);
    front
}

// The most octets of a line that is shown whole: its line feed isn't shown.
fn most_whole(feed: bool) -> usize
    ensures most { result ≡ most_whole_spec feed }
    ensures enough { 200 ≤ result }
{
    if feed { MOST_SHOWN + 1 } else { MOST_SHOWN }
}

// A line, or the first octets of a long one.
fn put_front(out: &mut Vec<u8>, line: &[u8]) -> Result<(), NoMemory>
    ensures { OnOk result (out.new.items ≡ out.old.items ++ shown_octets line.now) }
{
    if most_whole(has_feed(line)) < line.len() {
        put_each(out, front_of(line, MOST_SHOWN))?;
        put(out, " ..")
    } else {
        put_each(out, line)
    }
}

// Whether a line feed ends the line.
fn has_feed(line: &[u8]) -> bool
    ensures { result ≡ list_any (λ c. c == 10) line.now }
{
    line.iter().any(|c| *c == b'\n')
}

/// A line as it is shown.
pub(crate) fn put_line(out: &mut Vec<u8>, line: &[u8]) -> Result<(), NoMemory>
    ensures { OnOk result (out.new.items ≡ out.old.items ++ shown_line line.now) }
{
    put_front(out, line)?;
    put(out, end_words(has_feed(line)))
}

// What is said behind a line that lacks its line feed.
fn end_words(feed: bool) -> &'static str
    ensures { result.now ≡ shown_end feed }
{
    if feed { "" } else { " (no line feed)" }
}
