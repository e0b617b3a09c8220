//! Where files are at fault, and what is said of it.
//!
//! The calls stand in functions of their own without contracts, so that a test's own proof is
//! short.

use file_places::{Place, Spot, line_of_entry, line_of_key, put_line, put_place, toml_place};
use srp_base::Seq;
use std::alloc::Global;

/// Two nodes, the second of which begins in line 5; in line 8 stands what only looks like a third.
const NODES: &str =
    "ticks = 5\n[[node]]\nname = 'a'\n\n  [[ node ]] # the second\nname = '''\nb\n[[node]]\n'''\n";

/// The same two nodes, written inline.
const INLINE: &str = "ticks = 5\nnode = [\n  { name = 'a' },\n  { name = 'b' },\n]\n";

/// The same two nodes with a mark in front and their names between quotes, and a table beside them.
const QUOTED: &str =
    "\u{feff}[[\"node\"]]\nname = 'a'\n[[ 'node' ]]\n\"name\" = 'b'\n[\"stream\".x]\n";

/// A key between quotes behind a mark, a dotted one, and nodes that are written inline.
const KEYS: &str =
    "\u{feff}\"ticks\" = 5\nmrp.time = 60\n'node' = [{ name = 'a' },\n{ name = 'b' }]\n";

/// No value in line 2, behind a letter of two octets.
const BROKEN: &str = "a = 1\n'\u{e9}' = \nb = 2\n";

/// Lines that end with a carriage return too, of which the last has no value and no end.
const RETURNS: &str = "a = 1\r\nb = 2\r\nc = ";

/// A byte order mark, and no value behind it.
const MARKED: &str = "\u{feff}a = \n";

/// Whether octets are no document at this place.
fn break_at(alloc: Global, octets: &[u8], line: usize, column: usize) -> bool {
    match toml_place(alloc, octets) {
        Ok(Some(place)) => place.spot.line == line && place.spot.column == column,
        _ => false,
    }
}

/// Whether a text is no document at this place.
fn breaks_at(alloc: Global, text: &str, line: usize, column: usize) -> bool {
    break_at(alloc, text.as_bytes(), line, column)
}

/// Whether a text is no document for this reason, as toml's reader words it.
fn breaks_since(alloc: Global, text: &str, reason: &str) -> bool {
    match toml_place(alloc, text.as_bytes()) {
        Ok(Some(place)) => place.message.as_slice() == reason.as_bytes(),
        _ => false,
    }
}

/// Whether a text is a document.
fn is_whole(alloc: Global, text: &str) -> bool {
    match toml_place(alloc, text.as_bytes()) {
        Ok(None) => true,
        _ => false,
    }
}

/// Whether an entry of the nodes of a text begins in this line.
fn begins_in(alloc: Global, text: &str, entry: usize, wanted: Option<usize>) -> bool {
    match line_of_entry(alloc, text.as_bytes(), "node", entry) {
        Ok(line) => line == wanted,
        Err(_) => false,
    }
}

/// Whether a key of a text stands in this line.
fn stands_in(alloc: Global, text: &str, word: &str, wanted: Option<usize>) -> bool {
    match line_of_key(alloc, text.as_bytes(), word) {
        Ok(line) => line == wanted,
        Err(_) => false,
    }
}

/// Whether both lines are put at the end of a text.
fn are_put(alloc: Global) -> bool {
    let place = Place {
        spot: Spot { line: 2, column: 7 },
        message: Seq::new(alloc),
    };
    let mut out = Vec::new(alloc);
    put_place(&mut out, &place).is_ok()
        && put_line(&mut out, 5).is_ok()
        && out.as_slice() == b"there: line 2 column 7: \nline: 5\n".as_slice()
}

#[test]
fn a_file_breaks_at_a_line_and_a_column(rt: HostRuntime) {
    let alloc = rt.alloc();
    assert!(rt; is_whole(alloc, NODES));
    assert!(rt; breaks_at(alloc, BROKEN, 2, 7));
    assert!(rt; breaks_at(alloc, RETURNS, 3, 5));
    assert!(rt; breaks_at(alloc, MARKED, 1, 5));
}

#[test]
fn the_reason_is_that_of_the_reader(rt: HostRuntime) {
    let alloc = rt.alloc();
    assert!(rt; breaks_since(alloc, "a = 1\na = 2\n", "duplicate key"));
    assert!(rt; breaks_since(alloc, "a = 9223372036854775808\n", "number out of range"));
}

#[test]
fn octets_stop_being_utf8_at_a_line_and_a_column(rt: HostRuntime) {
    let alloc = rt.alloc();
    assert!(rt; break_at(alloc, b"\xfca = 1\n", 1, 1));
    assert!(rt; break_at(alloc, b"# a\n# \xc3\xa9 \xfc\na = 1\n", 2, 5));
    assert!(rt; break_at(alloc, b"a = 1\r\n# \xc3", 2, 3));
}

#[test]
fn an_entry_begins_in_a_line(rt: HostRuntime) {
    let alloc = rt.alloc();
    assert!(rt; begins_in(alloc, NODES, 1, Some(2)));
    assert!(rt; begins_in(alloc, NODES, 2, Some(5)));
    assert!(rt; begins_in(alloc, NODES, 3, None));
    assert!(rt; begins_in(alloc, INLINE, 2, Some(4)));
    assert!(rt; stands_in(alloc, INLINE, "node", Some(2)));
    assert!(rt; stands_in(alloc, NODES, "name", None));
    assert!(rt; are_put(alloc));
}

#[test]
fn a_mark_and_quotes_hide_no_line(rt: HostRuntime) {
    let alloc = rt.alloc();
    assert!(rt; begins_in(alloc, QUOTED, 1, Some(1)));
    assert!(rt; begins_in(alloc, QUOTED, 2, Some(3)));
    assert!(rt; stands_in(alloc, QUOTED, "stream", Some(5)));
    assert!(rt; begins_in(alloc, KEYS, 2, Some(4)));
    assert!(rt; stands_in(alloc, KEYS, "ticks", Some(1)));
    assert!(rt; stands_in(alloc, KEYS, "mrp", Some(2)));
    assert!(rt; stands_in(alloc, KEYS, "node", Some(3)));
}
