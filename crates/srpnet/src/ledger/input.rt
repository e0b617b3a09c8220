//! From octets to a ledger file.

ghost use Rattle.std.specs.Prelude.{◌≡◌, ◌+◌, ◌≤◌, None, IfOk, IfErr};
ghost use Rattle.toml_rules.specs.Rules.{first_fall};
ghost use Rattle.srpnet.specs.LedgerFile.{want_ticks};
ghost use Rattle.srpnet.specs.Input.{GivesInput};
ghost use Rattle.srpnet.specs.LedgerInput.{ledger_input as ledger_input_spec};

use crate::document::table_of;
use crate::ledger::file::{LedgerFile, read_ledger_file};
use crate::outcome::Cause;
use std::alloc::Global;

/// The ledger file of the octets, or the cause of its refusal.
pub fn ledger_input(alloc: Global, octets: &[u8]) -> Result<LedgerFile, Cause>
    ensures file { GivesInput (λ f. f) result (ledger_input_spec octets.now) }
    ensures not_done { IfErr result (λ c. c ≡ Cause.Done → ⊥) }
    ensures shares { IfOk result (λ f. f.delta_a + f.delta_b ≤ 90) }
    ensures ticks { IfOk result (λ f. first_fall 1 0 (want_ticks f.wants) ≡ None) }
{
    let table = table_of(alloc, octets)?;
    Ok(read_ledger_file(alloc, &table)?)
}
