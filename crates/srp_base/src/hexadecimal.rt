//! Identifiers as hexadecimal digits.

ghost use Rattle.std.specs.Prelude.{◌≡◌, ◌<◌, ◌^◌, ◌↔◌, length, IsSome};
ghost use Rattle.std.specs.List.{AllPass};
ghost use Rattle.hex.specs.Hex.{is_hex_digit};
ghost use Rattle.srp_base.specs.Hexadecimal.{hex12, hex16, number_high_first};

use crate::numbers::Mac;
use hex::FromHex;

/// The number of 16 hexadecimal digits, the highest first; None exactly where the text isn't 16
/// hexadecimal digits of either case.
pub fn read_hex16(text: &str) -> Option<u64>
    ensures value { result ≡ hex16 text.now }
    ensures valid { IsSome result ↔ ((length text.now ≡ 16) × AllPass is_hex_digit text.now) }
{
    match <[u8; 8] as FromHex>::from_hex(text) {
        Ok(octets) => Some(u64::from_be_bytes(octets)),
        Err(_) => None,
    }
}

/// The number of six octets, the first of them the highest.
fn number_of_six(octets: &[u8; 6]) -> u64
    ensures value { result ≡ number_high_first octets.now }
    ensures small { result < 2 ^ 48 }
{
    let high = (u64::from(octets[0]) * 256 + u64::from(octets[1])) * 256 + u64::from(octets[2]);
    let low = (u64::from(octets[3]) * 256 + u64::from(octets[4])) * 256 + u64::from(octets[5]);
    high * 16_777_216 + low
}

/// The address of 12 hexadecimal digits, the highest first; None exactly where the text isn't 12
/// hexadecimal digits of either case.
pub fn read_hex12(text: &str) -> Option<Mac>
    ensures value { result ≡ hex12 text.now }
    ensures valid { IsSome result ↔ ((length text.now ≡ 12) × AllPass is_hex_digit text.now) }
{
    match <[u8; 6] as FromHex>::from_hex(text) {
        Ok(found) => Mac::new(number_of_six(&found)),
        Err(_) => None,
    }
}
