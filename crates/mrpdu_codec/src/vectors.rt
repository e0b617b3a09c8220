//! Lists of vectors.

ghost use Rattle.std.specs.Prelude.{◌≡◌, ◌++◌, OnOk};
ghost use Rattle.srp_base.specs.Results.{Gives};
ghost use Rattle.mrpdu_codec.specs.Raw.{attr_in, attrs_in};
ghost use Rattle.mrpdu_codec.specs.ReadErr.{left_of, list_kept, kept_attr};
ghost use Rattle.mrpdu_codec.specs.Reading.{vectors_of, mark_at, list_at};

use crate::error::ReadErr;
use crate::fields::{ends_list, raw_vector};
use crate::form::TypeForm;
use crate::numbers::number;
use crate::raw::RawVector;
use std::alloc::{AllocError, Global};

/// Puts a vector at the end, if its type is known.
fn push_known<'a>(
    found: &mut Vec<RawVector<'a>>,
    row: Option<TypeForm>,
    raw: RawVector<'a>,
) -> Result<(), AllocError>
    ensures { OnOk result (attrs_in found.new.items
        ≡ attrs_in found.old.items ++ kept_attr row (attr_in raw.entry)) }
{
    if row.is_some() {
        found.push(raw)?;
    }
    Ok(())
}

/// Vectors up to an EndMark or the octets' end, and the octets from there on. Those of a type that
/// its application doesn't know are passed over.
pub(crate) fn vectors(
    alloc: Global,
    octets: &[u8],
    row: Option<TypeForm>,
    len: u8,
) -> Result<(Vec<RawVector<'_>>, &[u8]), ReadErr>
    ensures { Gives (λ x. (attrs_in x.0.items, x.1.now)) left_of result
        (list_kept row (vectors_of row len octets.now)) }
{
    let mut found = Vec::new(alloc);
    let mut rest = octets;
    'more: while !ends_list(rest) {
        let (raw, after) = raw_vector(rest, row, len)?;
        push_known(&mut found, row, raw)?;
        rest = after;
    }
    Ok((found, rest))
}

/// The octets behind an EndMark. Where the octets end in its place, none are.
#[tactic(auto, unfolding(crate::specs::Reading::mark_at))]
pub(crate) fn mark(octets: &[u8]) -> Result<&[u8], ReadErr>
    ensures { Gives (λ x. x.now) left_of result (mark_at octets.now) }
{
    match octets {
        [] => Ok(octets),
        [_] => Err(ReadErr::Left(1)),
        [high, low, rest @ ..] => {
            if number(*high, *low) == 0 {
                Ok(rest)
            } else {
                Err(ReadErr::Left(octets.len()))
            }
        }
    }
}

/// Vectors, and the octets behind their EndMark.
#[tactic(auto, using(crate::proofs::Kept::kept_list))]
pub(crate) fn list(
    alloc: Global,
    octets: &[u8],
    row: Option<TypeForm>,
    len: u8,
) -> Result<(Vec<RawVector<'_>>, &[u8]), ReadErr>
    ensures { Gives (λ x. (attrs_in x.0.items, x.1.now)) left_of result
        (list_kept row (list_at row len octets.now)) }
{
    let (found, rest) = vectors(alloc, octets, row, len)?;
    let rest = mark(rest)?;
    Ok((found, rest))
}
