//! The options of a block of pcapng.

ghost use Rattle.std.specs.Prelude.{◌≡◌, length, drop, option_map, nat_le, if◌then◌else◌, Some, None};
ghost use Rattle.capture_file.specs.Options.{padded, option_at, octet_value, resolution_in};

use crate::numbers::two;
use crate::setting::ByteOrder;

/// The code and the length of the next option, and the octets behind them; none where the options
/// end.
#[tactic(auto, unfolding(crate::specs::Options::option_at))]
fn next_option(order: ByteOrder, octets: &[u8]) -> Option<Option<(u16, u16, &[u8])>>
    ensures { option_map (option_map (λ x. (x.0, x.1, x.2.now))) result
        ≡ option_at order octets.now }
{
    match octets {
        [] => Some(None),
        [a, b, c, d, rest @ ..] => {
            let code = two(order, *a, *b);
            if code == 0 {
                Some(None)
            } else {
                Some(Some((code, two(order, *c, *d), rest)))
            }
        }
        _ => None,
    }
}

/// The value of an option of one octet.
fn octet_value(len: u16, octets: &[u8]) -> Option<u8>
    ensures { result ≡ octet_value len octets.now }
{
    if len == 1 {
        octets.first().copied()
    } else {
        None
    }
}

/// The octets behind an option's value and its padding, if it is whole.
fn behind_value(len: u16, octets: &[u8]) -> Option<&[u8]>
    ensures { option_map (λ rest. rest.now) result
        ≡ (if nat_le (padded len) (length octets.now) then Some
        (drop (padded len) octets.now) else None) }
{
    let size = (usize::from(len) + 3) / 4 * 4;
    if size <= octets.len() {
        Some(&octets[size..])
    } else {
        None
    }
}

/// The octet of the resolution that the options of an interface give: that of the first option of
/// code 9, or 6 where there is none. None where an option isn't whole before it.
pub(crate) fn resolution_in(order: ByteOrder, options: &[u8]) -> Option<u8>
    ensures { result ≡ resolution_in order 0 options.now }
{
    let mut rest = options;
    'more: loop {
        match next_option(order, rest)? {
            None => return Some(6),
            Some((code, len, behind)) => {
                if code == 9 {
                    return octet_value(len, behind);
                }
                rest = behind_value(len, behind)?;
            }
        }
    }
}
