//! The first line in which two texts differ.

ghost use Rattle.std.specs.Prelude.{◌≡◌, ◌==◌, ◌<◌, ◌≤◌, ◌^◌, if◌then◌else◌, length, take, drop};
ghost use Rattle.std.specs.Prelude.{None, IfOk, IfSome};
ghost use Rattle.srpnet.specs.Differ.{DifferAtOnce, IsFirstDifferent, line_feeds};

use srp_base::NoMemory;
use srp_report::Printout;

/// How many first lines a text has in common with one that is made piece by piece, where they
/// differ; None where they are the same. The text that is made is let go as it is compared.
pub fn differing_line(given: &[u8], wanted: Printout) -> Result<Option<u64>, NoMemory>
    ensures some { IfOk result (λ o. IfSome o (IsFirstDifferent given.now wanted)) }
    ensures none { IfOk result (λ o. o ≡ None → given.now ≡ wanted) }
    ensures few { IfOk result (λ o. IfSome o (λ count. count < 2 ^ 63)) }
{
    let mut rest = wanted;
    let mut at = 0;
    let mut lines = 0;
    while let Some(piece) = rest.next_piece()? {
        let common = common_from(given, at, piece.as_slice());
        at += common.octets;
        lines += common.lines;
        if common.octets < piece.len() {
            return Ok(Some(lines));
        }
    }
    if at < given.len() {
        Ok(Some(lines))
    } else {
        Ok(None)
    }
}

// How far two texts are the same.
#[derive(Drop)]
struct Common {
    // How many octets they have in common at their beginning.
    octets: usize,
    // How many lines end within these.
    lines: u64,
}

// What a text has in common with a piece from a place on.
fn common_from(given: &[u8], at: usize, piece: &[u8]) -> Common
    requires { at ≤ length given.now }
    ensures within { (result.octets ≤ length (drop at given.now))
        × (result.octets ≤ length piece.now) }
    ensures same { take result.octets (drop at given.now) ≡ take result.octets piece.now }
    ensures lines { result.lines ≡ line_feeds (take result.octets (drop at given.now)) }
    ensures few { result.lines ≤ result.octets }
    ensures no_more { DifferAtOnce (drop result.octets (drop at given.now))
        (drop result.octets piece.now) }
{
    common_front(behind(given, at), piece)
}

// What stands in a text from a place on.
fn behind(text: &[u8], at: usize) -> &[u8]
    requires { at ≤ length text.now }
    ensures { result.now ≡ drop at text.now }
{
    &text[at..]
}

// What two texts have in common at their beginning.
fn common_front(one: &[u8], other: &[u8]) -> Common
    ensures within { (result.octets ≤ length one.now) × (result.octets ≤ length other.now) }
    ensures same { take result.octets one.now ≡ take result.octets other.now }
    ensures lines { result.lines ≡ line_feeds (take result.octets one.now) }
    ensures few { result.lines ≤ result.octets }
    ensures no_more { DifferAtOnce (drop result.octets one.now) (drop result.octets other.now) }
{
    let mut octets = 0;
    let mut lines = 0;
    while octets < one.len() && octets < other.len() && one[octets] == other[octets] {
        lines += lines_ended(one[octets]);
        octets += 1;
    }
    Common { octets, lines }
}

// How many lines an octet ends.
fn lines_ended(octet: u8) -> u64
    ensures { result ≡ (if octet == 10 then 1 else 0) }
{
    if octet == b'\n' { 1 } else { 0 }
}
