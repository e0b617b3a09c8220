//! The command `replay`: what stood at the ends of a captured link, what was owed there, and what was
//! broken.

ghost use Rattle.std.specs.Prelude.{◌≡◌, ◌≤◌, length, Ok, IfOk, IfErr};
ghost use Rattle.srpnet.specs.Input.{ending};
ghost use Rattle.srpnet.specs.Outcomes.{EndsAs};
ghost use Rattle.srpnet.specs.ReplayText.{cause_of_replay, replay_input};

use crate::outcome::Cause;
use replay_words::{ReplayErr, replayed_text};
use srp_base::Seq;
use std::alloc::Global;

/// What is printed of a captured link, or why there is none.
pub fn output(alloc: Global, octets: &[u8]) -> Result<Seq<u8>, Cause>
    requires { length octets.now ≤ 1048576 }
    ensures output { IfOk result (λ text. replay_input octets.now ≡ Ok text) }
    ensures ends { EndsAs (ending (replay_input octets.now)) result }
    ensures not_done { IfErr result (λ c. c ≡ Cause.Done → ⊥) }
{
    match replayed_text(alloc, octets) {
        Ok(text) => Ok(Seq::from_vec(text.into_bytes())),
        Err(failure) => Err(cause_of(failure)),
    }
}

// Why a captured link isn't replayed, as a cause.
fn cause_of(failure: ReplayErr) -> Cause
    ensures { result ≡ cause_of_replay failure }
{
    match failure {
        ReplayErr::NoLine => Cause::BadScenario { rule: 60, entry: 0 },
        ReplayErr::NotToml => Cause::NotToml,
        ReplayErr::Rule { rule, entry } => Cause::BadScenario { rule, entry },
        ReplayErr::NoMemory => Cause::NoMemory,
    }
}
