//! What a lock is put around: an object whose calls change it one at a time.

ghost use Rattle.std.specs.Prelude.{◌≡◌, IfOk, OnErr};

use srp_base::NoMemory;

/// An object that one thread steps: a state, what may be asked of it, and what it answers.
///
/// Its meaning, `does`, is the one-thread step: the answer to an ask at a state, and the state
/// after it.
pub trait Sequential {
    /// What is asked.
    type Ask: Copy;

    /// What is answered.
    type Answer: Copy;

    ghost does: { Self → Self.Ask → Self.Answer × Self };

    /// One step. After want of memory the state is as it was.
    fn step(&mut self, ask: Self::Ask) -> Result<Self::Answer, NoMemory>
        ensures ok { IfOk result (λ answer. does self.old ask ≡ (answer, self.new)) }
        ensures err { OnErr result (self.new ≡ self.old) };
}
