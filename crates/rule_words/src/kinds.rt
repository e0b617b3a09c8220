//! The kinds of files that have rules.

/// A kind of file, by the command that reads it.
#[derive(Clone, Copy, PartialEq, Eq)]
pub enum FileKind {
    /// A scenario: rules 1 to 24.
    Scenario,
    /// A ledger file: rules 31 to 35.
    Ledger,
    /// A file of groups: rules 40, 1 to 15 and 41 to 43.
    Groups,
    /// A plan: rules 1 to 15 and 50 to 54.
    Plan,
}
