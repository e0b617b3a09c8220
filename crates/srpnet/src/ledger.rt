//! The command `ledger`: the bookings of one port.

pub mod bookings;
pub mod file;
pub mod input;
pub mod text;

ghost use Rattle.std.specs.Prelude.{◌≡◌, IfOk, IfErr};
ghost use Rattle.srpnet.specs.Input.{ending};
ghost use Rattle.srpnet.specs.LedgerInput.{ledger_input as ledger_input_spec};
ghost use Rattle.srpnet.specs.LedgerText.{LedgerOutput};
ghost use Rattle.srpnet.specs.Outcomes.{EndsAs};

use crate::outcome::Cause;
use bookings::bookings;
use input::ledger_input;
use srp_base::Seq;
use std::alloc::Global;
use text::ledger_text;

/// The text of the bookings of a ledger file, or why there is none.
pub fn output(alloc: Global, octets: &[u8]) -> Result<Seq<u8>, Cause>
    ensures output { IfOk result (LedgerOutput octets.now) }
    ensures ends { EndsAs (ending (ledger_input_spec octets.now)) result }
    ensures not_done { IfErr result (λ c. c ≡ Cause.Done → ⊥) }
{
    let file = ledger_input(alloc, octets)?;
    let (ledger, now) = bookings(alloc, &file)?;
    let text = ledger_text(alloc, &file, &ledger, now)?;
    Ok(Seq::from_vec(text.into_bytes()))
}
