//! The command `audit`: whether a journal is that of a legal run of a scenario, and a report that
//! of just this run. Nobody who made them is trusted, and neither is the order in which `run` takes
//! the steps.

pub mod account;
pub mod differ;
pub mod explain;
pub mod laws;
pub mod parts;

ghost use Rattle.std.specs.Prelude.{◌≡◌, IfOk, IfErr};
ghost use Rattle.srpnet.specs.AuditText.{AuditOutput, IsAudited, IsAuditEnding};
ghost use Rattle.srpnet.specs.Outcomes.{EndsBy};

use crate::outcome::Cause;
use crate::scenario::scenario_input;
use account::account_of;
use parts::{AuditParts, audit_parts};
use srp_base::Seq;
use std::alloc::Global;
use topology_file::Scenario;

/// What is printed where the answer is yes.
const YES: &str = "audit yes\n";

/// What `audit` prints, or why there is nothing to print: a cause of its own where the answer is
/// no.
pub fn output(alloc: Global, octets: &[u8]) -> Result<Seq<u8>, Cause>
    ensures output { IfOk result (AuditOutput octets.now) }
    ensures ends { EndsBy (IsAuditEnding octets.now) result }
    ensures not_done { IfErr result (λ c. c ≡ Cause.Done → ⊥) }
{
    let Some(parts) = audit_parts(octets) else {
        return Err(Cause::AuditNo { line: 0, why: 1 });
    };
    let scenario = scenario_input(alloc, parts.scenario())?;
    judged(alloc, &scenario, &parts)?;
    Ok(Seq::from_vec(YES.as_bytes().to_vec(alloc)?))
}

// How an audit of these parts ends, whose scenario this is.
fn judged(alloc: Global, scenario: &Scenario, parts: &AuditParts<'_>) -> Result<(), Cause>
    ensures ends { EndsBy (IsAudited scenario.now parts.now) result }
    ensures not_done { IfErr result (λ c. c ≡ Cause.Done → ⊥) }
{
    let account = account_of(alloc, scenario, parts)?;
    match account.cause() {
        Cause::Done => Ok(()),
        cause => Err(cause),
    }
}
