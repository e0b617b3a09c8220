//! The document of a head: from its octets to a TOML table.

ghost use Rattle.srp_base.specs.Results.{Gives};
ghost use Rattle.toml.specs.View.{table_view};
ghost use Rattle.replay_words.specs.Document.{document, or_not_toml};
ghost use Rattle.replay_words.specs.Replay.{cause_told};

use crate::error::ReplayErr;
use std::alloc::Global;
use toml::Table;

/// The document of the octets, or why there is none.
pub(crate) fn table_of(alloc: Global, octets: &[u8]) -> Result<Table, ReplayErr>
    ensures { Gives table_view cause_told result (or_not_toml (document octets.now)) }
{
    match toml::table_from_slice(alloc, octets) {
        Ok(table) => Ok(table),
        Err(error) => {
            if error.is_memory() {
                Err(ReplayErr::NoMemory)
            } else {
                Err(ReplayErr::NotToml)
            }
        }
    }
}
