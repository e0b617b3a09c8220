//! Octets read as a PDU.

ghost use Rattle.std.specs.Prelude.{◌≡◌, ◌<◌, ◌^◌, ℕ, length, Ok, Err, IfOk, IsTrue};
ghost use Rattle.std.specs.List.{list_all};
ghost use Rattle.srp_base.specs.Results.{Gives};
ghost use Rattle.mrpdu_codec.specs.declared.pdu.Pdu.{Pdu};
ghost use Rattle.mrpdu_codec.specs.declared.raw.RawPdu.{RawPdu};
ghost use Rattle.mrpdu_codec.specs.Grammar.{Spells, Breaks};
ghost use Rattle.mrpdu_codec.specs.Raw.{pdu_in};
ghost use Rattle.mrpdu_codec.specs.ReadErr.{left_of};
ghost use Rattle.mrpdu_codec.specs.Reading.{version_at, first_type_at, pdu_at, reading, place_told, Answers};
ghost use Rattle.mrpdu_codec.specs.Shape.{has_form};

use crate::error::{DecodeErr, ReadErr};
use crate::form::AppForm;
use crate::messages::read_messages;
use crate::pdu::Pdu;
use crate::raw::RawPdu;
use std::alloc::Global;

/// ProtocolVersion.
#[tactic(auto, unfolding(crate::specs::Reading::version_at))]
fn read_version(octets: &[u8]) -> Result<(u8, &[u8]), ReadErr>
    ensures { Gives (λ x. (x.0, x.1.now)) left_of result (version_at octets.now) }
{
    match octets {
        [] => Err(ReadErr::Left(0)),
        [version, rest @ ..] => Ok((*version, rest)),
    }
}

/// A first Message has an AttributeType.
#[tactic(auto, unfolding(crate::specs::Reading::first_type_at))]
fn first_type(octets: &[u8]) -> Result<(), ReadErr>
    ensures { Gives (λ _. tt) left_of result (first_type_at octets.now) }
{
    match octets {
        [] => Err(ReadErr::Left(0)),
        [kind, ..] => {
            if *kind == 0 {
                Err(ReadErr::Left(octets.len()))
            } else {
                Ok(())
            }
        }
    }
}

/// A PDU, or how many octets are left from the first field on that breaks.
#[tactic(auto, unfolding(crate::specs::Reading::pdu_at))]
fn pdu(alloc: Global, form: AppForm, octets: &[u8]) -> Result<RawPdu<'_>, ReadErr>
    ensures { Gives pdu_in left_of result (pdu_at form octets.now) }
{
    let (version, rest) = read_version(octets)?;
    first_type(rest)?;
    let messages = read_messages(alloc, form, rest)?;
    Ok(RawPdu { version, messages })
}

/// The PDU that the octets spell, in place: of each vector the fields are borrowed from the octets,
/// so that a crate which knows the values of its application reads them without a copy. It is what
/// `decode` answers in memory of its own. There are fewer than 2^32 octets.
///
/// # Errors
///
/// `Malformed` carries the offset, in octets from 0, of the first field that breaks its rule or
/// that the octets are too short for. `NoMemory` comes where memory for the lists of Messages and
/// vectors runs out.
pub fn decode_in_place(alloc: Global, form: AppForm, octets: &[u8]) -> Result<RawPdu<'_>, DecodeErr>
    requires { length octets.now < 2 ^ 32 }

    // What it answers holds.
    ensures spelled { (raw : RawPdu) → result ≡ Ok raw → Spells form octets.now (pdu_in raw) }
    ensures broken { (place : ℕ)
        → result ≡ Err (DecodeErr.Malformed place) → Breaks form octets.now place }

    // Want of memory alone is free, as in `decode`.
    ensures exact { Gives pdu_in place_told result (reading form octets.now) }

    // Each Message has a type that the application knows, and vectors of the type's form.
    ensures formed { IfOk result (λ raw. IsTrue (list_all (has_form form) (pdu_in raw).messages)) }
{
    match pdu(alloc, form, octets) {
        Ok(raw) => Ok(raw),
        Err(error) => Err(error.placed(octets.len())),
    }
}

/// The PDU that the octets spell (IEEE Std 802.1Q-2018, 10.8). Any version is read, octets behind
/// the PDU's EndMark aren't read, EndMarks at the end of the octets may be missing, and Messages of
/// types that the application doesn't know are passed over. There are fewer than 2^32 octets.
///
/// # Errors
///
/// `Malformed` carries the offset, in octets from 0, of the first field that breaks its rule or
/// that the octets are too short for. `NoMemory` comes where memory for the PDU runs out.
pub fn decode(alloc: Global, form: AppForm, octets: &[u8]) -> Result<Pdu, DecodeErr>
    requires { length octets.now < 2 ^ 32 }

    // What it answers holds.
    ensures spelled { (pdu : Pdu) → result ≡ Ok pdu → Spells form octets.now pdu }
    ensures broken { (place : ℕ)
        → result ≡ Err (DecodeErr.Malformed place) → Breaks form octets.now place }

    // Want of memory alone is free: else the answer is the reading, which the law
    // `reading_is_the_grammar` says is each PDU that the octets spell and each place where they
    // break.
    ensures exact { Answers result (reading form octets.now) }

    // Each Message has a type that the application knows, and vectors of the type's form.
    ensures formed { IfOk result (λ pdu. IsTrue (list_all (has_form form) pdu.messages)) }
{
    let raw = decode_in_place(alloc, form, octets)?;
    let pdu = raw.to_pdu(alloc)?;
    Ok(pdu)
}
