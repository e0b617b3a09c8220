//! Why a file isn't replayed.

ghost use Rattle.std.specs.Prelude.{◌≡◌};
ghost use Rattle.replay_words.specs.Replay.{cause_of_rules};
ghost use Rattle.replay_words.specs.declared.error.ReplayErr.TheVariants as errors;

use std::alloc::{AllocError, AllocFailed};
use thiserror::Error;
use toml_rules::RuleErr;

/// Why a file isn't replayed.
#[derive(Clone, Copy, Debug, PartialEq, Eq, Error)]
pub enum ReplayErr {
    /// No line is `=== capture`.
    #[error("no line `=== capture`")]
    NoLine,
    /// What stands before that line is no TOML.
    #[error("not TOML")]
    NotToml,
    /// The first rule that the head breaks; entry 0 is the head as a whole.
    #[error("rule {rule} entry {entry}")]
    Rule { rule: u8, entry: u32 },
    /// Want of memory, which comes at any place.
    #[error("no memory")]
    NoMemory,
}

impl From<RuleErr> for ReplayErr {
    ghost from_gives = { λ e r. r ≡ cause_of_rules e };

    fn from(error: RuleErr) -> ReplayErr {
        match error {
            RuleErr::Rule { rule, entry } => ReplayErr::Rule { rule, entry },
            RuleErr::NoMemory => ReplayErr::NoMemory,
        }
    }
}

impl From<srp_base::NoMemory> for ReplayErr {
    ghost from_gives = { λ _ e. e ≡ errors.NoMemory };

    fn from(_error: srp_base::NoMemory) -> ReplayErr {
        ReplayErr::NoMemory
    }
}

impl From<AllocError> for ReplayErr {
    ghost from_gives = { λ _ e. e ≡ errors.NoMemory };

    fn from(_error: AllocError) -> ReplayErr {
        ReplayErr::NoMemory
    }
}

impl<T: Drop> From<AllocFailed<T>> for ReplayErr {
    ghost from_gives = { λ _ e. e ≡ errors.NoMemory };

    fn from(_error: AllocFailed<T>) -> ReplayErr {
        ReplayErr::NoMemory
    }
}
