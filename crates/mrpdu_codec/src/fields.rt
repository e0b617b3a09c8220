//! The fields of a vector, read one after another. Nothing here takes memory.

ghost use Rattle.std.specs.Prelude.{◌≡◌, ◌%◌};
ghost use Rattle.srp_base.specs.Results.{Gives};
ghost use Rattle.mrpdu_codec.specs.Octets.{number, thirds, quarters};
ghost use Rattle.mrpdu_codec.specs.Tree.{packed_limit, leave_all_limit, fours_for};
ghost use Rattle.mrpdu_codec.specs.ReadErr.{left_of};
ghost use Rattle.mrpdu_codec.specs.Reading.{packed_at, header_at, first_at, vector_at, ends_list};
ghost use Rattle.mrpdu_codec.specs.Raw.{vector_in};

use crate::error::ReadErr;
use crate::form::TypeForm;
use crate::numbers::number;
use crate::raw::RawVector;

/// NumberOfValues of a header.
pub(crate) fn count(high: u8, low: u8) -> usize
    ensures { result ≡ number high low % 8192 }
{
    usize::from(number(high, low) % 8192)
}

/// How many octets n values take where an octet holds 3.
pub(crate) fn thirds(n: usize) -> usize
    ensures { result ≡ thirds n }
{
    n.div_ceil(3)
}

/// How many octets n values take where an octet holds 4.
pub(crate) fn quarters(n: usize) -> usize
    ensures { result ≡ quarters n }
{
    n.div_ceil(4)
}

/// The greatest LeaveAllEvent that a type allows.
fn leave_all_limit(row: Option<TypeForm>) -> u16
    ensures { result ≡ leave_all_limit row }
{
    match row {
        Some(_) => 1,
        None => 7,
    }
}

/// The greatest packed octet that a type allows.
fn packed_limit(row: Option<TypeForm>) -> u8
    ensures { result ≡ packed_limit row }
{
    match row {
        Some(_) => 215,
        None => 255,
    }
}

/// How many octets the FourPackedEvents of n values take.
pub(crate) fn fours_for(row: Option<TypeForm>, n: usize) -> usize
    ensures { result ≡ fours_for row n }
{
    match row {
        Some(row) => { if row.four_packed { quarters(n) } else { 0 } }
        None => 0,
    }
}

/// A header's two octets, if its LeaveAllEvent is allowed.
#[tactic(auto, unfolding(crate::specs::Reading::header_at))]
fn header(octets: &[u8], row: Option<TypeForm>) -> Result<(u8, u8, &[u8]), ReadErr>
    ensures { Gives (λ x. (x.0, x.1, x.2.now)) left_of result (header_at row octets.now) }
{
    match octets {
        [] => Err(ReadErr::Left(0)),
        [_] => Err(ReadErr::Left(1)),
        [high, low, rest @ ..] => {
            if number(*high, *low) / 8192 <= leave_all_limit(row) {
                Ok((*high, *low, rest))
            } else {
                Err(ReadErr::Left(octets.len()))
            }
        }
    }
}

/// A FirstValue.
#[tactic(auto, unfolding(crate::specs::Reading::first_at))]
fn read_first(octets: &[u8], len: usize) -> Result<(&[u8], &[u8]), ReadErr>
    ensures { Gives (λ x. (x.0.now, x.1.now)) left_of result (first_at len octets.now) }
{
    if octets.len() < len {
        return Err(ReadErr::Left(octets.len()));
    }
    Ok(octets.split_at(len))
}

/// So many octets, each at most the limit.
fn read_packed(octets: &[u8], limit: u8, n: usize) -> Result<(&[u8], &[u8]), ReadErr>
    ensures { Gives (λ x. (x.0.now, x.1.now)) left_of result (packed_at limit n octets.now) }
{
    for i in 0..n {
        if i == octets.len() {
            return Err(ReadErr::Left(0));
        }
        if octets[i] > limit {
            return Err(ReadErr::Left(octets.len() - i));
        }
    }
    Ok(octets.split_at(n))
}

/// A vector of a type with this row of its application's table, and with len octets of FirstValue.
#[tactic(auto, unfolding(crate::specs::Reading::vector_at))]
pub(crate) fn raw_vector(
    octets: &[u8],
    row: Option<TypeForm>,
    len: u8,
) -> Result<(RawVector<'_>, &[u8]), ReadErr>
    ensures { Gives (λ x. (vector_in x.0, x.1.now)) left_of result (vector_at row len octets.now) }
{
    let (high, low, rest) = header(octets, row)?;
    let n = count(high, low);
    let (first, rest) = read_first(rest, usize::from(len))?;
    let (three_packed, rest) = read_packed(rest, packed_limit(row), thirds(n))?;
    let (four_packed, rest) = read_packed(rest, 255, fours_for(row, n))?;
    let raw = RawVector {
        high,
        low,
        first,
        three_packed,
        four_packed,
    };
    Ok((raw, rest))
}

/// Whether a list of vectors ends here: the octets end, or an EndMark stands in a header's place.
#[tactic(auto, unfolding(crate::specs::Reading::ends_list))]
pub(crate) fn ends_list(octets: &[u8]) -> bool
    ensures { result ≡ ends_list octets.now }
{
    match octets {
        [] => true,
        [_] => false,
        [high, low, ..] => number(*high, *low) == 0,
    }
}
