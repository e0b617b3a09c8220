//! Sources of octets.

ghost use Rattle.std.specs.Prelude.{◌≡◌, ◌≤◌, Option, Some, List, ℕ, length, take, drop, min, true, false, OnErr, OnOk, IfOk, IsOk};
ghost use Rattle.std.specs.{Io.ReadsAtMost, Io.KnownBytes.ReadConsumes};
ghost use Rattle.srp_io.specs.Faults.{Rose};
ghost use Rattle.srp_io.specs.Memory.{next_fails, pipe_that_failed, pipe_that_gave};

use std::marker::Model;
use thiserror::Error;

/// A read failed; the source has counted it.
#[derive(Clone, Copy, Debug, PartialEq, Eq, Error)]
#[error("read fault")]
pub struct Failed;

/// Where octets come from.
pub trait Source {
    // The octets still to come, where the source tells them.
    ghost left: { Self → Option (List ℕ) };

    // The faults so far. The count never falls, and rises only in a call that fails.
    ghost faults: { Self → ℕ };

    /// Gives some of the octets still to come, as many as it says, at the buffer's front. For a
    /// buffer that isn't empty it gives 0 exactly at the end. A fault is answered only where the
    /// count of faults rose in this call, and then nothing is given.
    fn read(&mut self, buf: &mut [u8]) -> Result<usize, Failed>
        ensures bound { ReadsAtMost result buf.new }
        ensures octets { ReadConsumes (left self.old) (left self.new) result buf.new }
        ensures fault { OnErr result (Rose (faults self.old) (faults self.new)) }
        ensures counts { OnOk result (faults self.new ≡ faults self.old) }
        ensures never_falls { faults self.old ≤ faults self.new };
}

/// Copies octets to the front of a buffer, at most `step` of them, and says how many.
fn give(octets: &[u8], step: usize, buf: &mut [u8]) -> usize
    ensures count { result ≡ min (min step (length buf.old)) (length octets.now) }
    ensures front { take result buf.new ≡ take result octets.now }
{
    let count = step.min(buf.len()).min(octets.len());
    buf[..count].copy_from_slice(&octets[..count]);
    count
}

/// A source over memory: a call gives at most `step` octets, and the calls whose numbers, from 1,
/// are among `fails` fail and give none. It is for tests of what stands above.
#[derive(Drop)]
pub struct MemSource {
    bytes: Vec<u8>,
    at: usize,
    step: usize,
    fails: Vec<u64>,
    calls: u64,
    faults: u64,
}

impl Model for MemSource {
    ghost use Rattle.std.specs.Prelude.{◌≤◌, length, drop};
    ghost use Rattle.srp_io.specs.Memory.{FailingPipe};

    ghost Value = { FailingPipe };

    ghost view = { λ s. record {
      octets = drop s.at s.bytes.items;
      step = s.step;
      fails = s.fails.items;
      calls = s.calls;
      faults = s.faults;
    } };

    ghost invariant = { λ s. (s.at ≤ length s.bytes.items) × (1 ≤ s.step) };
}

impl MemSource {
    /// A source of these octets. `step` is at least 1.
    pub fn new(bytes: Vec<u8>, step: usize, fails: Vec<u64>) -> MemSource
        requires { 1 ≤ step }
        ensures { result
            ≡ record
            { octets = bytes.items; step = step; fails = fails.items; calls = 0; faults = 0 } }
    {
        MemSource {
            bytes,
            at: 0,
            step,
            fails,
            calls: 0,
            faults: 0,
        }
    }
}

impl Source for MemSource {
    ghost left = { λ s. Some s.octets };

    ghost faults = { λ s. s.faults };

    #[tactic(auto, using(crate::proofs::Moves::given_octets, crate::proofs::Moves::given_end))]
    fn read(&mut self, buf: &mut [u8]) -> Result<usize, Failed>
        ensures bound { ReadsAtMost result buf.new }
        ensures octets { ReadConsumes (Some self.old.octets) (Some self.new.octets) result buf.new }
        ensures fault { OnErr result (Rose self.old.faults self.new.faults) }
        ensures counts { OnOk result (self.new.faults ≡ self.old.faults) }
        ensures never_falls { self.old.faults ≤ self.new.faults }

        // It fails exactly at the stated calls.
        ensures fails { OnErr result
            ((next_fails self.old ≡ true) × (self.new ≡ pipe_that_failed self.old)) }
        ensures gives { IfOk result (λ n. (next_fails self.old ≡ false)
            × (self.new ≡ pipe_that_gave n self.old)
            × (n ≡ min (min self.old.step (length buf.old)) (length self.old.octets))) }
    {
        self.calls = self.calls.saturating_add(1);
        if self.fails.contains(&self.calls) {
            self.faults = self.faults.saturating_add(1);
            return Err(Failed);
        }
        let count = give(&self.bytes[self.at..], self.step, buf);
        self.at += count;
        Ok(count)
    }
}

/// A source over memory that never fails; its count of faults is the constant 0.
#[derive(Drop)]
pub struct PlainSource {
    bytes: Vec<u8>,
    at: usize,
    step: usize,
}

impl Model for PlainSource {
    ghost use Rattle.std.specs.Prelude.{◌≤◌, length, drop};
    ghost use Rattle.srp_io.specs.Memory.{Pipe};

    ghost Value = { Pipe };

    ghost view = { λ s. record { octets = drop s.at s.bytes.items; step = s.step } };

    ghost invariant = { λ s. (s.at ≤ length s.bytes.items) × (1 ≤ s.step) };
}

impl PlainSource {
    /// A source of these octets, at most `step` of them in a call. `step` is at least 1.
    pub fn new(bytes: Vec<u8>, step: usize) -> PlainSource
        requires { 1 ≤ step }
        ensures { result ≡ record { octets = bytes.items; step = step } }
    {
        PlainSource { bytes, at: 0, step }
    }
}

impl Source for PlainSource {
    ghost left = { λ s. Some s.octets };

    ghost faults = { λ _. 0 };

    #[tactic(auto, using(crate::proofs::Moves::given_octets, crate::proofs::Moves::given_end))]
    fn read(&mut self, buf: &mut [u8]) -> Result<usize, Failed>
        // The trait's clauses; the count is the constant 0.
        ensures bound { ReadsAtMost result buf.new }
        ensures octets { ReadConsumes (Some self.old.octets) (Some self.new.octets) result buf.new }
        ensures fault { OnErr result (Rose 0 0) }
        ensures counts { OnOk result (◌≡◌ {A = ℕ} 0 0) }
        ensures never_falls { 0 ≤ 0 }

        ensures never_fails { IsOk result }
        ensures gives { IfOk result (λ n. (n
            ≡ min (min self.old.step (length buf.old)) (length self.old.octets)) × (self.new
            ≡ record self.old { octets = drop n self.old.octets })) }
    {
        let count = give(&self.bytes[self.at..], self.step, buf);
        self.at += count;
        Ok(count)
    }
}
