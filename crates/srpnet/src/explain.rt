//! The commands `explain`, `explain ledger`, `explain groups` and `explain plan`: why a file is
//! refused, in words, or that it keeps all rules.

ghost use Rattle.std.specs.Prelude.{◌≡◌, None, IfOk, IfErr};
ghost use Rattle.toml.specs.View.{table_view};
ghost use Rattle.group_file.specs.Scenario.{group_scenario_of};
ghost use Rattle.plan_file.specs.Rules.{plan_of};
ghost use Rattle.rule_words.specs.NotToml.{IsNotTomlText};
ghost use Rattle.rule_words.specs.Refusal.{refusal_text as refusal_text_spec};
ghost use Rattle.topology_file.specs.Scenario.{scenario_of};
ghost use Rattle.srpnet.specs.Document.{document};
ghost use Rattle.srpnet.specs.ExplainText.{IsExplained, kept_words, table_in};
ghost use Rattle.srpnet.specs.GroupsText.{group_input};
ghost use Rattle.srpnet.specs.Input.{by_rules, ending};
ghost use Rattle.srpnet.specs.LedgerFile.{ledger_file};
ghost use Rattle.srpnet.specs.LedgerInput.{ledger_input};
ghost use Rattle.srpnet.specs.Outcomes.{EndsAs};
ghost use Rattle.srpnet.specs.PlanInput.{plan_input};
ghost use Rattle.srpnet.specs.ScenarioInput.{scenario_input};

use crate::document::table_of;
use crate::ledger::file::read_ledger_file;
use crate::outcome::Cause;
use group_file::group_scenario;
use plan_file::read_plan;
use rule_words::{FileKind, not_toml_text, refusal_text};
use srp_base::Seq;
use std::alloc::Global;
use toml::Table;
use toml_rules::RuleErr;
use topology_file::read_scenario;

/// What is said of a file that keeps all rules.
const KEPT: &str = "keeps all rules\n";

/// What is said of a scenario file: that it keeps all rules, or the first that it breaks, as
/// `check` names it, with what it asks, what stands there and where; or where it isn't TOML.
pub fn output(alloc: Global, octets: &[u8]) -> Result<Seq<u8>, Cause>
    ensures output { IfOk result
        (IsExplained FileKind.Scenario (ending (scenario_input octets.now)) octets.now) }
    ensures ends { EndsAs Cause.Done result }
    ensures not_done { IfErr result (λ c. c ≡ Cause.Done → ⊥) }
{
    match table_of(alloc, octets) {
        Ok(table) => scenario_words(alloc, &table, octets),
        Err(Cause::NotToml) => not_toml(alloc, octets),
        Err(_) => Err(Cause::NoMemory),
    }
}

/// The same of a ledger file, by its rules.
pub fn ledger_output(alloc: Global, octets: &[u8]) -> Result<Seq<u8>, Cause>
    ensures output { IfOk result
        (IsExplained FileKind.Ledger (ending (ledger_input octets.now)) octets.now) }
    ensures ends { EndsAs Cause.Done result }
    ensures not_done { IfErr result (λ c. c ≡ Cause.Done → ⊥) }
{
    match table_of(alloc, octets) {
        Ok(table) => ledger_words(alloc, &table, octets),
        Err(Cause::NotToml) => not_toml(alloc, octets),
        Err(_) => Err(Cause::NoMemory),
    }
}

/// The same of a file of groups.
pub fn groups_output(alloc: Global, octets: &[u8]) -> Result<Seq<u8>, Cause>
    ensures output { IfOk result
        (IsExplained FileKind.Groups (ending (group_input octets.now)) octets.now) }
    ensures ends { EndsAs Cause.Done result }
    ensures not_done { IfErr result (λ c. c ≡ Cause.Done → ⊥) }
{
    match table_of(alloc, octets) {
        Ok(table) => group_words(alloc, &table, octets),
        Err(Cause::NotToml) => not_toml(alloc, octets),
        Err(_) => Err(Cause::NoMemory),
    }
}

/// The same of a plan file.
pub fn plan_output(alloc: Global, octets: &[u8]) -> Result<Seq<u8>, Cause>
    ensures output { IfOk result
        (IsExplained FileKind.Plan (ending (plan_input octets.now)) octets.now) }
    ensures ends { EndsAs Cause.Done result }
    ensures not_done { IfErr result (λ c. c ≡ Cause.Done → ⊥) }
{
    match table_of(alloc, octets) {
        Ok(table) => plan_words(alloc, &table, octets),
        Err(Cause::NotToml) => not_toml(alloc, octets),
        Err(_) => Err(Cause::NoMemory),
    }
}

// What is said of a scenario's table, which these octets have.
fn scenario_words(alloc: Global, table: &Table, octets: &[u8]) -> Result<Seq<u8>, Cause>
    requires { table_in octets.now ≡ table_view table.now }
    ensures words { IfOk result (IsExplained FileKind.Scenario
        (ending (by_rules (scenario_of (table_view table.now)))) octets.now) }
    ensures memory { IfErr result (λ c. c ≡ Cause.NoMemory) }
{
    match read_scenario(alloc, table) {
        Ok(_) => kept(alloc),
        Err(RuleErr::Rule { rule, entry }) => {
            refused(alloc, FileKind::Scenario, rule, entry, table, octets)
        }
        Err(RuleErr::NoMemory) => Err(Cause::NoMemory),
    }
}

// What is said of a ledger file's table.
fn ledger_words(alloc: Global, table: &Table, octets: &[u8]) -> Result<Seq<u8>, Cause>
    requires { table_in octets.now ≡ table_view table.now }
    ensures words { IfOk result (IsExplained FileKind.Ledger
        (ending (by_rules (ledger_file (table_view table.now)))) octets.now) }
    ensures memory { IfErr result (λ c. c ≡ Cause.NoMemory) }
{
    match read_ledger_file(alloc, table) {
        Ok(_) => kept(alloc),
        Err(RuleErr::Rule { rule, entry }) => {
            refused(alloc, FileKind::Ledger, rule, entry, table, octets)
        }
        Err(RuleErr::NoMemory) => Err(Cause::NoMemory),
    }
}

// What is said of the table of a file of groups.
fn group_words(alloc: Global, table: &Table, octets: &[u8]) -> Result<Seq<u8>, Cause>
    requires { table_in octets.now ≡ table_view table.now }
    ensures words { IfOk result (IsExplained FileKind.Groups
        (ending (by_rules (group_scenario_of (table_view table.now)))) octets.now) }
    ensures memory { IfErr result (λ c. c ≡ Cause.NoMemory) }
{
    match group_scenario(alloc, table) {
        Ok(_) => kept(alloc),
        Err(RuleErr::Rule { rule, entry }) => {
            refused(alloc, FileKind::Groups, rule, entry, table, octets)
        }
        Err(RuleErr::NoMemory) => Err(Cause::NoMemory),
    }
}

// What is said of a plan's table.
fn plan_words(alloc: Global, table: &Table, octets: &[u8]) -> Result<Seq<u8>, Cause>
    requires { table_in octets.now ≡ table_view table.now }
    ensures words { IfOk result (IsExplained FileKind.Plan
        (ending (by_rules (plan_of (table_view table.now)))) octets.now) }
    ensures memory { IfErr result (λ c. c ≡ Cause.NoMemory) }
{
    match read_plan(alloc, table) {
        Ok(_) => kept(alloc),
        Err(RuleErr::Rule { rule, entry }) => {
            refused(alloc, FileKind::Plan, rule, entry, table, octets)
        }
        Err(RuleErr::NoMemory) => Err(Cause::NoMemory),
    }
}

// What is said of a rule that a table of a kind, which these octets have, breaks first at this entry.
fn refused(
    alloc: Global,
    kind: FileKind,
    rule: u8,
    entry: u32,
    table: &Table,
    octets: &[u8],
) -> Result<Seq<u8>, Cause>
    ensures words { IfOk result (λ text. text
        ≡ refusal_text_spec kind rule entry (table_view table.now) octets.now) }
    ensures memory { IfErr result (λ c. c ≡ Cause.NoMemory) }
{
    Ok(Seq::from_vec(refusal_text(alloc, kind, rule, entry, table, octets)?))
}

// What is said of octets that are no TOML document.
fn not_toml(alloc: Global, octets: &[u8]) -> Result<Seq<u8>, Cause>
    requires { document octets.now ≡ None }
    ensures words { IfOk result (IsNotTomlText octets.now) }
    ensures memory { IfErr result (λ c. c ≡ Cause.NoMemory) }
{
    Ok(Seq::from_vec(not_toml_text(alloc, octets)?))
}

// What is said of a file that keeps all rules.
fn kept(alloc: Global) -> Result<Seq<u8>, Cause>
    ensures words { IfOk result (λ text. text ≡ kept_words) }
    ensures memory { IfErr result (λ c. c ≡ Cause.NoMemory) }
{
    Ok(Seq::from_vec(KEPT.as_bytes().to_vec(alloc)?))
}
