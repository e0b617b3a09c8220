//! The bells of a lock: who has waited for long sleeps at the bell of its ticket.

ghost use Rattle.std.specs.Prelude.{◌≡◌, ◌<◌, IfOk};

use srp_base::NoMemory;
use std::alloc::Global;
use std::marker::Model;
use std::sync::Wait;
use std::sync::atomic::AtomicU64;
use std::sync::atomic::Ordering::SeqCst;

// A bell that nobody listens for, and one that the holder of its ticket does.
const UNHEARD: u64 = 0;

const HEARD: u64 = 1;

// A bell. The padding keeps it out of the cache lines of what others write.
#[derive(Drop)]
struct Bell {
    before: [u64; 8],
    word: AtomicU64,
    after: [u64; 7],
}

impl Bell {
    fn new() -> Bell {
        Bell {
            before: [0; 8],
            word: AtomicU64::new(UNHEARD),
            after: [0; 7],
        }
    }
}

/// A bell for each pass. A ticket has the bell at its remainder by their number, so of the tickets
/// that are out no two have the same. Contracts see how many there are.
#[derive(Drop)]
pub(crate) struct Bells {
    count: u32,
    bells: Vec<Bell>,
}

impl Model for Bells {
    ghost use Rattle.std.specs.Prelude.{ℕ, ◌<◌};

    ghost Value = { ℕ };

    ghost view = { λ b. b.count };

    ghost invariant = { λ b. 0 < b.count };
}

impl Bells {
    /// So many bells.
    pub(crate) fn new(alloc: Global, count: u32) -> Result<Bells, NoMemory>
        requires { 0 < count }
        ensures { IfOk result (λ bells. bells ≡ count) }
    {
        let mut bells = Vec::with_capacity(alloc, count as usize)?;
        for _ in 0..count {
            bells.push(Bell::new())?;
        }
        Ok(Bells { count, bells })
    }

    /// How many there are.
    pub(crate) fn count(&self) -> u32
        ensures { result ≡ self.now }
    {
        self.count
    }

    // The bell of a ticket.
    fn of(&self, ticket: u64) -> Option<&AtomicU64> {
        let bell = self.bells.get((ticket % u64::from(self.count)) as usize)?;
        Some(&bell.word)
    }

    /// Listens for the ticket's bell, or sleeps until it rings where the thread listened already.
    /// So between listening and sleeping the caller looks once more at the ticket that is served,
    /// and a ring after that look isn't missed.
    pub(crate) fn listen<R: Wait>(&self, rt: &R, ticket: u64) {
        if let Some(bell) = self.of(ticket) {
            if bell.swap(HEARD, SeqCst) == HEARD {
                bell.park(rt, HEARD as u32);
            }
        }
    }

    /// Rings the ticket's bell, once the ticket is served.
    pub(crate) fn ring(&self, ticket: u64) {
        if let Some(bell) = self.of(ticket) {
            if bell.load(SeqCst) == HEARD {
                bell.store(UNHEARD, SeqCst);
                bell.wake_all();
            }
        }
    }
}
