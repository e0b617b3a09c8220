//! A text that is read line by line.

ghost use Rattle.std.specs.Prelude.{◌≡◌, ◌≢◌, ◌==◌, ◌<◌, ◌^◌, ◌++◌, ◌∷◌, ℕ, List, length, true, false, Some, None};
ghost use Rattle.journal_lines.specs.Lines.{IsLine};
ghost use Rattle.journal_audit.specs.Texts.{lines_of};
ghost use Rattle.journal_audit.specs.Reading.{IsTaken, asking_for};

use crate::texts::behind;
use srp_base::Seq;
use std::marker::Model;

/// What is left of a text, how many of its lines have been read, and the line that was last asked
/// for and isn't there.
#[derive(Drop)]
pub(crate) struct Reader<'a> {
    rest: &'a [u8],
    read: u64,
    wanted: Option<Seq<u8>>,
}

impl<'a> Model for Reader<'a> {
    ghost use Rattle.std.specs.Prelude.{◌<◌, ◌+◌, ◌^◌, length};
    ghost use Rattle.journal_audit.specs.Reading.{Reading};

    ghost Value = { Reading };

    ghost view = { λ r. record { rest = r.rest.now; read = r.read; wanted = r.wanted } };

    ghost invariant = { λ r. r.read + length r.rest.now < 2 ^ 63 };
}

impl<'a> Reader<'a> {
    /// A text of which nothing has been read.
    pub(crate) fn of(text: &'a [u8]) -> Reader<'a>
        ensures { result ≡ record { rest = text.now; read = 0; wanted = None } }
    {
        Reader {
            rest: text,
            read: 0,
            wanted: None,
        }
    }

    /// How many lines have been read.
    pub(crate) fn read(&self) -> u64
        ensures value { result ≡ self.now.read }
        ensures bound { result < 2 ^ 63 }
    {
        self.read
    }

    /// Whether nothing is left.
    pub(crate) fn is_at_end(&self) -> bool
        ensures { result ≡ (length self.now.rest == 0) }
    {
        self.rest.is_empty()
    }

    /// Whether what is left begins with this.
    pub(crate) fn begins_with(&self, front: &[u8]) -> bool
        ensures is { result ≡ true → (rest : List ℕ) × (self.now.rest ≡ front.now ++ rest) }
        ensures isnt { result ≡ false → (rest : List ℕ) → self.now.rest ≢ front.now ++ rest }
    {
        behind(self.rest, front).is_some()
    }

    /// Reads a line, where it is the next; else nothing is read, and it is noted as asked for.
    pub(crate) fn take(&mut self, line: Vec<u8>) -> bool
        requires { IsLine line.items }
        ensures taken { result ≡ true → IsTaken line.items self.old self.new }
        ensures stays { result ≡ false → self.new ≡ asking_for (Some line.items) self.old }
        ensures other { result ≡ false
            → (lines : List (List ℕ)) → lines_of self.old.rest ≢ line.items ∷ lines }
    {
        match behind(self.rest, line.as_slice()) {
            Some(rest) => {
                self.rest = rest;
                self.read += 1;
                true
            }
            None => {
                self.wanted = Some(Seq::from_vec(line));
                false
            }
        }
    }

    /// Notes that nothing may follow here.
    pub(crate) fn want_nothing(&mut self)
        ensures { self.new ≡ asking_for None self.old }
    {
        self.wanted = None;
    }

    /// The line that was last asked for and isn't there; None where nothing may follow.
    pub(crate) fn into_wanted(self) -> Option<Seq<u8>>
        ensures { result ≡ self.entry.wanted }
    {
        self.wanted
    }
}
