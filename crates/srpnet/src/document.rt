//! The document of an input: from its octets to a TOML table.

ghost use Rattle.std.specs.Prelude.{◌≡◌, IfErr};
ghost use Rattle.toml.specs.View.{table_view};
ghost use Rattle.srpnet.specs.Document.{document, or_not_toml};
ghost use Rattle.srpnet.specs.Input.{GivesInput};

use crate::outcome::Cause;
use std::alloc::Global;
use toml::Table;

/// The document of the octets, or why there is none.
pub fn table_of(alloc: Global, octets: &[u8]) -> Result<Table, Cause>
    ensures table { GivesInput table_view result (or_not_toml (document octets.now)) }
    ensures not_done { IfErr result (λ c. c ≡ Cause.Done → ⊥) }
{
    match toml::table_from_slice(alloc, octets) {
        Ok(table) => Ok(table),
        Err(error) => {
            if error.is_memory() {
                Err(Cause::NoMemory)
            } else {
                Err(Cause::NotToml)
            }
        }
    }
}
