//! The commands `decode mvrp`, `decode msrp`, `decode mmrp` and `capture`: what captured PDUs say.

ghost use Rattle.std.specs.Prelude.{◌≡◌, ◌≤◌, length, IfOk, IfErr};
ghost use Rattle.pdu_words.specs.{Captured.captured_text as captured_text_spec, Decoded.decoded_text as decoded_text_spec};
ghost use Rattle.srpnet.specs.Outcomes.{EndsAs};
ghost use Rattle.srpnet.specs.Commands.{most_octets};

use crate::outcome::Cause;
use crate::words::Command;
use mrpdu_codec::AppForm;
use pdu_words::{captured_text, decoded_text};
use srp_base::Seq;
use std::alloc::Global;

/// What the PDUs in the lines of an input say, as PDUs of this application. A line that breaks, or
/// has no octets, says so.
pub fn output(alloc: Global, form: AppForm, octets: &[u8]) -> Result<Seq<u8>, Cause>
    requires { length octets.now ≤ most_octets (Command.Decode form) }
    ensures output { IfOk result (λ text. text ≡ decoded_text_spec form octets.now) }
    ensures ends { EndsAs Cause.Done result }
    ensures not_done { IfErr result (λ c. c ≡ Cause.Done → ⊥) }
{
    let text = decoded_text(alloc, form, octets)?;
    Ok(Seq::from_vec(text.into_bytes()))
}

/// What the frames of MRP in a capture file say. A file that is none, or that breaks off, says so.
pub fn captured(alloc: Global, octets: &[u8]) -> Result<Seq<u8>, Cause>
    requires { length octets.now ≤ most_octets Command.Capture }
    ensures output { IfOk result (λ text. text ≡ captured_text_spec octets.now) }
    ensures ends { EndsAs Cause.Done result }
    ensures not_done { IfErr result (λ c. c ≡ Cause.Done → ⊥) }
{
    let text = captured_text(alloc, octets)?;
    Ok(Seq::from_vec(text.into_bytes()))
}
