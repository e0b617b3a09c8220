//! What is counted of a link.

ghost use Rattle.std.specs.Prelude.{◌≡◌, ◌++◌, OnOk, string_bytes};
ghost use Rattle.replay_words.specs.Seen.{no_counts, with_owed, with_broken, with_frame, with_other, counts_text};

use std::alloc::AllocError;
use std::fmt::Write;

/// What is counted of a link. Each count stands still at its type's end.
#[derive(Clone, Copy)]
pub struct Counts {
    /// The attributes that were let go.
    pub owed: u64,
    /// The words on registrars that aren't what the observers hold, neither when they are said nor
    /// once what crosses them is there, the events that declare a Talker Failed of a stream of which
    /// the same PDU declares a Talker Advertise, and the malformed PDUs.
    pub broken: u64,
    /// The frames of MRP of either end.
    pub frames: u64,
    /// All other frames.
    pub others: u64,
}

impl Counts {
    /// Nothing is counted yet.
    pub(crate) fn none() -> Counts
        ensures { result ≡ no_counts }
    {
        Counts {
            owed: 0,
            broken: 0,
            frames: 0,
            others: 0,
        }
    }

    /// So many more attributes were let go.
    pub(crate) fn with_owed(self, more: u64) -> Counts
        ensures { result ≡ with_owed more self }
    {
        Counts {
            owed: self.owed.saturating_add(more),
            ..self
        }
    }

    /// So many more words are broken.
    pub(crate) fn with_broken(self, more: u64) -> Counts
        ensures { result ≡ with_broken more self }
    {
        Counts {
            broken: self.broken.saturating_add(more),
            ..self
        }
    }

    /// One more frame of an end, in which so much is broken.
    pub(crate) fn with_frame(self, more: u64) -> Counts
        ensures { result ≡ with_frame more self }
    {
        Counts {
            frames: self.frames.saturating_add(1),
            broken: self.broken.saturating_add(more),
            ..self
        }
    }

    /// One more frame of another.
    pub(crate) fn with_other(self) -> Counts
        ensures { result ≡ with_other self }
    {
        Counts {
            others: self.others.saturating_add(1),
            ..self
        }
    }

    /// Puts the counts at the end of a text.
    pub(crate) fn write(&self, out: &mut String) -> Result<(), AllocError>
        ensures { OnOk result (string_bytes out.new ≡ string_bytes out.old ++ counts_text self.now) }
    {
        let Counts {
            owed,
            broken,
            frames,
            others,
        } = *self;
        writeln!(
            out,
            "owed {owed}\nbroken {broken}\nframes {frames} other {others}"
        )
    }
}
