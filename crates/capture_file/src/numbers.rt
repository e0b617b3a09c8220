//! Numbers in octets, in either byte order.

ghost use Rattle.std.specs.Prelude.{◌≡◌, drop};
ghost use Rattle.capture_file.specs.Fields.{four, two, first_four, first_two, field, half};

use crate::setting::ByteOrder;

/// The number in four octets.
fn four(order: ByteOrder, a: u8, b: u8, c: u8, d: u8) -> u32
    ensures { result ≡ four order a b c d }
{
    match order {
        ByteOrder::Little => ((u32::from(d) * 256 + u32::from(c)) * 256 + u32::from(b)) * 256
            + u32::from(a),
        ByteOrder::Big => ((u32::from(a) * 256 + u32::from(b)) * 256 + u32::from(c)) * 256
            + u32::from(d),
    }
}

/// The number in two octets.
pub(crate) fn two(order: ByteOrder, a: u8, b: u8) -> u16
    ensures { result ≡ two order a b }
{
    match order {
        ByteOrder::Little => u16::from(b) * 256 + u16::from(a),
        ByteOrder::Big => u16::from(a) * 256 + u16::from(b),
    }
}

/// The number in the first four octets, or 0 where there are fewer.
#[tactic(auto, unfolding(crate::specs::Fields::first_four))]
fn first_four(order: ByteOrder, octets: &[u8]) -> u32
    ensures { result ≡ first_four order octets.now }
{
    match octets {
        [a, b, c, d, ..] => four(order, *a, *b, *c, *d),
        _ => 0,
    }
}

/// The number in the first two octets, or 0 where there are fewer.
#[tactic(auto, unfolding(crate::specs::Fields::first_two))]
fn first_two(order: ByteOrder, octets: &[u8]) -> u16
    ensures { result ≡ first_two order octets.now }
{
    match octets {
        [a, b, ..] => two(order, *a, *b),
        _ => 0,
    }
}

/// The octets from an offset on; none past the end.
pub(crate) fn behind(octets: &[u8], at: usize) -> &[u8]
    ensures { result.now ≡ drop at octets.now }
{
    &octets[at.min(octets.len())..]
}

/// The number in the four octets from an offset on.
pub(crate) fn field(order: ByteOrder, at: usize, octets: &[u8]) -> u32
    ensures { result ≡ field order at octets.now }
{
    first_four(order, behind(octets, at))
}

/// The number in the two octets from an offset on.
pub(crate) fn half(order: ByteOrder, at: usize, octets: &[u8]) -> u16
    ensures { result ≡ half order at octets.now }
{
    first_two(order, behind(octets, at))
}
