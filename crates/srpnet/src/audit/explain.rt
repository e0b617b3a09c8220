//! The command `explain audit`: where the answer of an audit is no and why, what stands there, and
//! what would be right.

ghost use Rattle.std.specs.Prelude.{◌≡◌, ◌≤◌, ◌<◌, ◌+◌, ◌^◌, ◌++◌, Some, None, IfOk, IfErr};
ghost use Rattle.audit_words.specs.Slips.{slip_of, slip_words as slip_words_spec};
ghost use Rattle.srpnet.specs.Account.{account_text as account_text_spec, stands_at as stands_at_spec, HasLine, IsAccounted, IsAccountedBy, IsAccountOf, IsAuditExplained, IsLineNumber, IsRefusalTold};
ghost use Rattle.srpnet.specs.AuditParts.{audit_parts as audit_parts_spec, behind_cut as behind_cut_spec};
ghost use Rattle.srpnet.specs.Outcomes.{EndsAs};
ghost use Rattle.srpnet.specs.ScenarioInput.{scenario_input as scenario_input_spec};

use crate::audit::account::{Account, account_of};
use crate::audit::parts::{AuditParts, audit_parts, behind_cut};
use crate::explain;
use crate::outcome::Cause;
use crate::scenario::scenario_input;
use audit_words::{differing_text, illegal_text, line_at, slip_of, slip_words, unformed_text};
use srp_base::{NoMemory, Seq};
use std::alloc::Global;
use topology_file::Scenario;

/// What is printed where the answer is yes.
const YES: &str = "audit yes\n";

/// What is printed before what is said of a scenario that is refused.
const REFUSED: &str = "audit no\nthe plan is refused, as explain says of it:\n";

/// What is said of an input of an audit: that the answer is yes, or at which line it is no, why,
/// what stands there, and what would be right; or by which slip a line is missing that parts the
/// input.
pub fn output(alloc: Global, octets: &[u8]) -> Result<Seq<u8>, Cause>
    ensures output { IfOk result (IsAuditExplained octets.now) }
    ensures ends { EndsAs Cause.Done result }
    ensures not_done { IfErr result (λ c. c ≡ Cause.Done → ⊥) }
{
    match audit_parts(octets) {
        Some(parts) => parts_told(alloc, octets, &parts),
        None => slip_told(alloc, octets),
    }
}

// What is said of the slip by which a line is missing.
fn slip_told(alloc: Global, octets: &[u8]) -> Result<Seq<u8>, Cause>
    ensures words { IfOk result (λ text. text
        ≡ slip_words_spec (slip_of octets.now (behind_cut_spec octets.now))) }
    ensures memory { IfErr result (λ c. c ≡ Cause.NoMemory) }
{
    let slip = slip_of(octets, behind_cut(octets));
    Ok(Seq::from_vec(slip_words(slip).as_bytes().to_vec(alloc)?))
}

// What is said of an input with these parts.
fn parts_told(alloc: Global, octets: &[u8], parts: &AuditParts<'_>) -> Result<Seq<u8>, Cause>
    ensures told { IfOk result (IsAccountedBy octets.now parts.now
        (scenario_input_spec parts.now.scenario)) }
    ensures memory { IfErr result (λ c. c ≡ Cause.NoMemory) }
{
    match scenario_input(alloc, parts.scenario()) {
        Ok(scenario) => told(alloc, octets, &scenario, parts),
        Err(Cause::NoMemory) => Err(Cause::NoMemory),
        Err(_) => refused(alloc, parts.scenario()),
    }
}

// What is said of a scenario that is refused.
fn refused(alloc: Global, scenario: &[u8]) -> Result<Seq<u8>, Cause>
    ensures words { IfOk result (IsRefusalTold scenario.now) }
    ensures memory { IfErr result (λ c. c ≡ Cause.NoMemory) }
{
    let words = explain::output(alloc, scenario)?;
    let mut out = REFUSED.as_bytes().to_vec(alloc)?;
    out.extend_from_slice(words.as_slice())?;
    Ok(Seq::from_vec(out))
}

// What is said of parts whose scenario this is.
fn told(
    alloc: Global,
    octets: &[u8],
    scenario: &Scenario,
    parts: &AuditParts<'_>,
) -> Result<Seq<u8>, Cause>
    ensures told { IfOk result (IsAccounted octets.now scenario.now parts.now) }
    ensures memory { IfErr result (λ c. c ≡ Cause.NoMemory) }
{
    let account = account_of(alloc, scenario, parts)?;
    let text = account_text(alloc, octets, parts.cut(), &account)?;
    Ok(Seq::from_vec(text))
}

// The text of what is found.
fn account_text(
    alloc: Global,
    octets: &[u8],
    cut: u64,
    account: &Account,
) -> Result<Vec<u8>, NoMemory>
    requires cut { cut < 2 ^ 63 }
    requires line { HasLine account.now }
    ensures { IfOk result (λ text. text.items ≡ account_text_spec octets.now cut account.now) }
{
    match account {
        Account::Approved => Ok(YES.as_bytes().to_vec(alloc)?),
        Account::Unformed { line } => {
            let stands = stands_at(alloc, octets, cut, *line)?;
            unformed_text(alloc, cut + *line, *line, &stands)
        }
        Account::Illegal { line, legal } => {
            let stands = stands_at(alloc, octets, cut, *line)?;
            illegal_text(alloc, cut + *line, *line, &stands, legal)
        }
        Account::Differing { line, legal } => {
            let stands = stands_at(alloc, octets, cut, *line)?;
            differing_text(alloc, cut + *line, *line, &stands, legal)
        }
    }
}

// What stands at a line behind the cut.
fn stands_at(alloc: Global, octets: &[u8], cut: u64, line: u64) -> Result<Option<Seq<u8>>, NoMemory>
    requires cut { cut < 2 ^ 63 }
    requires line { IsLineNumber line }
    ensures { IfOk result (λ stands. stands ≡ stands_at_spec octets.now cut line) }
{
    line_at(alloc, octets, cut + line - 1)
}
