//! A sum that is stepped by one call at a time, which the cases put behind a lock.

ghost use Rattle.std.specs.Prelude.{◌≡◌, ◌+◌, ◌%◌, ◌^◌};

use srp_base::NoMemory;
use turn_lock::Sequential;

// A sum, modulo 2^64.
#[derive(Drop)]
pub(crate) struct Counter {
    pub(crate) sum: u64,
}

impl Sequential for Counter {
    type Ask = u64;

    type Answer = u64;

    ghost does = { λ counter ask. (
      (counter.sum + ask) % 2 ^ 64,
      record { sum = (counter.sum + ask) % 2 ^ 64 },
    ) };

    fn step(&mut self, ask: u64) -> Result<u64, NoMemory> {
        self.sum = self.sum.wrapping_add(ask);
        Ok(self.sum)
    }
}
