//! Numbers in octets, the high one first.

ghost use Rattle.std.specs.Prelude.{◌≡◌, ◌++◌, ◌≤◌, ◌<◌, ◌^◌, length, OnOk, OnErr};
ghost use Rattle.std.specs.Int.{bytes_high_first};
ghost use Rattle.srp_base.specs.Hexadecimal.{number_high_first};
ghost use Rattle.mrpdu_codec.specs.Octets.{AreOctets};
ghost use Rattle.mrpdu_codec.specs.Octets.{number};
ghost use Rattle.mrpdu_codec.specs.Canonical.{two_octets};

use srp_base::NoMemory;
use std::alloc::AllocError;

/// The number in two octets, the high one first.
pub(crate) fn number(high: u8, low: u8) -> u16
    ensures { result ≡ number high low }
{
    256 * u16::from(high) + u16::from(low)
}

/// Writes a number in two octets, the high one first.
pub(crate) fn put_two(out: &mut Vec<u8>, number: u16) -> Result<(), AllocError>
    ensures { OnOk result (out.new.items ≡ out.old.items ++ two_octets number) }
{
    out.extend_from_slice(&[(number / 256) as u8, (number % 256) as u8])
}

/// The number in octets, the high one first. There are at most 8.
pub fn number_in(octets: &[u8]) -> u64
    requires { length octets.now ≤ 8 }
    ensures value { result ≡ number_high_first octets.now }
    ensures below { result < 256 ^ length octets.now }
{
    let mut number = 0u64;
    for octet in octets {
        number = number * 256 + u64::from(*octet);
    }
    number
}

/// Writes the n low octets of a number at the end of `out`, the high one first. n is at most 8.
///
/// # Errors
///
/// `NoMemory` where memory for the octets runs out; `out` is then as it was.
#[tactic(auto, using(crate::proofs::NumberLemmas::bytes_behind))]
pub fn put_number(out: &mut Vec<u8>, number: u64, n: usize) -> Result<(), NoMemory>
    requires { n ≤ 8 }
    ensures ok { OnOk result (out.new.items ≡ out.old.items ++ bytes_high_first n number) }
    ensures err { OnErr result (out.new.items ≡ out.old.items) }
{
    let octets = number.to_be_bytes();
    let (_, low) = octets.split_at(8 - n);
    out.extend_from_slice(low)?;
    Ok(())
}

/// The numbers of a slice of octets in memory are octets, each below 256: what
/// `first_values_are_octets` asks.
pub fn are_octets(octets: &[u8])
    ensures { AreOctets octets.now }
{
    let _ = octets;
}
