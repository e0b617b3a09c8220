//! The rules of a file and how they fail.

ghost use Rattle.std.specs.Prelude.{◌≡◌, map};
ghost use Rattle.toml.specs.View.{table_view};
ghost use Rattle.toml_rules.specs.declared.rules.RuleErr.TheVariants.{NoMemory};
ghost use Rattle.toml_rules.specs.Fields.{tables as tables_spec};
ghost use Rattle.toml_rules.specs.Rules.{Reads, fails_at as fails_at_spec, holds as holds_spec, needs as needs_spec, no_entry as no_entry_spec};

use crate::fields::tables;
use std::alloc::{AllocError, AllocFailed, Global};
use thiserror::Error;
use toml::Table;

/// Why a file is refused.
#[derive(Clone, Copy, Debug, PartialEq, Eq, Error)]
pub enum RuleErr {
    /// The first rule that fails, with its first failing entry, counted from 1; entry 0 is the file
    /// as a whole.
    #[error("rule {rule} entry {entry}")]
    Rule { rule: u8, entry: u32 },
    /// Want of memory, which comes at any place.
    #[error("no memory")]
    NoMemory,
}

impl From<srp_base::NoMemory> for RuleErr {
    ghost from_gives = { λ _ e. e ≡ NoMemory };

    fn from(_error: srp_base::NoMemory) -> RuleErr {
        RuleErr::NoMemory
    }
}

impl From<AllocError> for RuleErr {
    ghost from_gives = { λ _ e. e ≡ NoMemory };

    fn from(_error: AllocError) -> RuleErr {
        RuleErr::NoMemory
    }
}

impl<T: Drop> From<AllocFailed<T>> for RuleErr {
    ghost from_gives = { λ _ e. e ≡ NoMemory };

    fn from(_error: AllocFailed<T>) -> RuleErr {
        RuleErr::NoMemory
    }
}

/// A rule that needs a value of the file as a whole: without it the rule fails with entry 0.
pub fn needs<T: Drop>(rule: u8, value: Option<T>) -> Result<T, RuleErr>
    ensures { result ≡ needs_spec rule value }
{
    match value {
        Some(value) => Ok(value),
        None => Err(RuleErr::Rule { rule, entry: 0 }),
    }
}

/// A rule that is a test of the file as a whole: where it doesn't pass the rule fails with entry 0.
pub fn holds(rule: u8, test: bool) -> Result<(), RuleErr>
    ensures { result ≡ holds_spec rule test }
{
    if test {
        Ok(())
    } else {
        Err(RuleErr::Rule { rule, entry: 0 })
    }
}

/// A rule that needs the array of tables at a key, which is empty where the key is missing: with
/// another value at the key the rule fails with entry 0.
///
/// # Errors
///
/// `NoMemory` beside the broken rule.
pub fn needs_tables<'a>(
    alloc: Global,
    rule: u8,
    table: &'a Table,
    key: &str,
) -> Result<Vec<&'a Table>, RuleErr>
    ensures { Reads (λ v. map (λ t. table_view t.now) v.items) result
        (needs_spec rule (tables_spec key.now (table_view table.now))) }
{
    match tables(alloc, table, key) {
        Ok(Some(entries)) => Ok(entries),
        Ok(None) => Err(RuleErr::Rule { rule, entry: 0 }),
        Err(_) => Err(RuleErr::NoMemory),
    }
}

/// The rule fails at this entry, counted from 1; a number past 4,294,967,295 stands still there.
pub fn fails_at(rule: u8, number: usize) -> RuleErr
    ensures { result ≡ fails_at_spec rule number }
{
    RuleErr::Rule {
        rule,
        entry: number.min(4_294_967_295) as u32,
    }
}

/// A rule that no entry breaks: where one is named the rule fails at it.
pub fn no_entry(rule: u8, found: Option<usize>) -> Result<(), RuleErr>
    ensures { result ≡ no_entry_spec rule found }
{
    match found {
        Some(number) => Err(fails_at(rule, number)),
        None => Ok(()),
    }
}
