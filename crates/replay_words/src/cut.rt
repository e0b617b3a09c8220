//! The line between the head and the capture's octets.

ghost use Rattle.std.specs.Prelude.{◌≡◌, ◌≤◌, ◌<◌, ◌+◌, true, length, take, drop, option_map, IfSome};
ghost use Rattle.replay_words.specs.Cut.{ends_line, begins_with_cut, cut_from, parts_of as parts_of_spec};

/// The line, without its line feed.
const CUT: &[u8] = b"=== capture";

/// The head and the capture's octets; None exactly where no line is `=== capture`.
pub(crate) fn parts_of(octets: &[u8]) -> Option<(&[u8], &[u8])>
    ensures parts { option_map (λ x. (x.0.now, x.1.now)) result ≡ parts_of_spec octets.now }
    ensures within { IfSome result (λ x. length x.1.now ≤ length octets.now) }
{
    match cut_place(octets) {
        None => None,
        Some(n) => Some((front(octets, n), behind(octets, n + 12))),
    }
}

// The first octets, as many as a number says, or all.
fn front(octets: &[u8], n: usize) -> &[u8]
    ensures { result.now ≡ take n octets.now }
{
    &octets[..n.min(octets.len())]
}

// The octets from an offset on; none past the end.
fn behind(octets: &[u8], at: usize) -> &[u8]
    ensures value { result.now ≡ drop at octets.now }
    ensures within { length result.now ≤ length octets.now }
{
    &octets[at.min(octets.len())..]
}

// The offset of the first line `=== capture`.
fn cut_place(octets: &[u8]) -> Option<usize>
    ensures place { result ≡ cut_from 0 true octets.now }
    ensures within { IfSome result (λ n. n < length octets.now) }
{
    let mut begins = true;
    let mut place = 0;
    for octet in octets {
        if begins && begins_with_cut(behind(octets, place)) {
            return Some(place);
        }
        begins = *octet == b'\n';
        place += 1;
    }
    None
}

// Whether octets at which a line begins begin with the line `=== capture`.
#[tactic(auto, unfolding(crate::specs::Cut::begins_with_cut))]
fn begins_with_cut(octets: &[u8]) -> bool
    ensures { result ≡ begins_with_cut octets.now }
{
    front(octets, 11) == CUT && ends_line(behind(octets, 11))
}

// Whether nothing more stands in a line.
fn ends_line(octets: &[u8]) -> bool
    ensures { result ≡ ends_line octets.now }
{
    match octets {
        [] => true,
        [octet, ..] => *octet == b'\n',
    }
}
