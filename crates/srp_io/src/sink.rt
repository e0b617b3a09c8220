//! Sinks of octets.

ghost use Rattle.std.specs.Prelude.{◌≡◌, ◌≤◌, ◌<◌, Option, List, ℕ, Some, [], true, false, min, length, take, ◌++◌, IfOk, IfErr, Err};
ghost use Rattle.std.specs.{Io.WritesAtMost, Io.KnownBytes.WriteAppends};
ghost use Rattle.srp_io.specs.Faults.{Rose};
ghost use Rattle.srp_io.specs.Memory.{next_fails, pipe_that_failed, pipe_that_took};
ghost use Rattle.srp_io.specs.declared.sink.SinkErr.TheVariants.{NoMemory};

use std::alloc::{AllocError, Global};
use std::marker::Model;
use thiserror::Error;

/// Why a sink took nothing.
#[derive(Clone, Copy, Debug, PartialEq, Eq, Error)]
pub enum SinkErr {
    /// The write failed; the sink has counted it.
    #[error("write fault")]
    Failed,
    /// Want of memory.
    #[error("no memory")]
    NoMemory,
}

impl From<AllocError> for SinkErr {
    ghost from_gives = { λ _ e. e ≡ NoMemory };

    fn from(_error: AllocError) -> SinkErr {
        SinkErr::NoMemory
    }
}

/// Where octets go to.
pub trait Sink {
    // The octets taken so far, where the sink tells them.
    ghost held: { Self → Option (List ℕ) };

    // The faults so far. The count never falls, and rises only in a call that fails.
    ghost faults: { Self → ℕ };

    /// Takes some octets from the front of a piece, as many as it says, and at least one of a piece
    /// that isn't empty. `Failed` is answered only where the count of faults rose in this call. A
    /// refused write takes none.
    fn write(&mut self, piece: &[u8]) -> Result<usize, SinkErr>
        ensures bound { WritesAtMost result piece.now }
        ensures octets { WriteAppends (held self.old) (held self.new) result piece.now }
        ensures progress { IfOk result (λ n. 0 < length piece.now → 0 < n) }
        ensures fault { result ≡ Err SinkErr.Failed → Rose (faults self.old) (faults self.new) }
        ensures counts { (result ≡ Err SinkErr.Failed → ⊥) → faults self.new ≡ faults self.old }
        ensures never_falls { faults self.old ≤ faults self.new };
}

/// A sink over memory: a call takes at most `step` octets, and the calls whose numbers, from 1, are
/// among `fails` fail and take none. It is for tests of what stands above.
#[derive(Drop)]
pub struct MemSink {
    bytes: Vec<u8>,
    step: usize,
    fails: Vec<u64>,
    calls: u64,
    faults: u64,
}

impl Model for MemSink {
    ghost use Rattle.std.specs.Prelude.{◌≤◌};
    ghost use Rattle.srp_io.specs.Memory.{FailingPipe};

    ghost Value = { FailingPipe };

    ghost view = { λ s. record {
      octets = s.bytes.items;
      step = s.step;
      fails = s.fails.items;
      calls = s.calls;
      faults = s.faults;
    } };

    ghost invariant = { λ s. 1 ≤ s.step };
}

impl MemSink {
    /// A sink that holds nothing yet. `step` is at least 1.
    pub fn new(alloc: Global, step: usize, fails: Vec<u64>) -> MemSink
        requires { 1 ≤ step }
        ensures { result
            ≡ record { octets = []; step = step; fails = fails.items; calls = 0; faults = 0 } }
    {
        MemSink {
            bytes: Vec::new(alloc),
            step,
            fails,
            calls: 0,
            faults: 0,
        }
    }

    /// The octets taken so far.
    pub fn bytes(&self) -> &[u8]
        ensures { result.now ≡ self.now.octets }
    {
        self.bytes.as_slice()
    }
}

impl Sink for MemSink {
    ghost held = { λ s. Some s.octets };

    ghost faults = { λ s. s.faults };

    fn write(&mut self, piece: &[u8]) -> Result<usize, SinkErr>
        ensures bound { WritesAtMost result piece.now }
        ensures octets { WriteAppends (Some self.old.octets) (Some self.new.octets)
            result piece.now }
        ensures progress { IfOk result (λ n. 0 < length piece.now → 0 < n) }
        ensures fault { result ≡ Err SinkErr.Failed → Rose self.old.faults self.new.faults }
        ensures counts { (result ≡ Err SinkErr.Failed → ⊥) → self.new.faults ≡ self.old.faults }
        ensures never_falls { self.old.faults ≤ self.new.faults }

        // It fails exactly at the stated calls.
        ensures fails { result ≡ Err SinkErr.Failed
            → (next_fails self.old ≡ true) × (self.new ≡ pipe_that_failed self.old) }
        ensures takes { IfOk result (λ n. (next_fails self.old ≡ false)
            × (self.new ≡ pipe_that_took (take n piece.now) self.old)
            × (n ≡ min self.old.step (length piece.now))) }
        ensures memory { result ≡ Err SinkErr.NoMemory → self.new ≡ self.old }
    {
        let call = self.calls.saturating_add(1);
        if self.fails.contains(&call) {
            self.calls = call;
            self.faults = self.faults.saturating_add(1);
            return Err(SinkErr::Failed);
        }
        let count = self.step.min(piece.len());
        self.bytes.extend_from_slice(&piece[..count])?;
        self.calls = call;
        Ok(count)
    }
}

/// A sink over memory whose writes never fail; its count of faults is the constant 0.
#[derive(Drop)]
pub struct PlainSink {
    bytes: Vec<u8>,
    step: usize,
}

impl Model for PlainSink {
    ghost use Rattle.std.specs.Prelude.{◌≤◌};
    ghost use Rattle.srp_io.specs.Memory.{Pipe};

    ghost Value = { Pipe };

    ghost view = { λ s. record { octets = s.bytes.items; step = s.step } };

    ghost invariant = { λ s. 1 ≤ s.step };
}

impl PlainSink {
    /// A sink that holds nothing yet and takes at most `step` octets in a call. `step` is at least
    /// 1.
    pub fn new(alloc: Global, step: usize) -> PlainSink
        requires { 1 ≤ step }
        ensures { result ≡ record { octets = []; step = step } }
    {
        PlainSink {
            bytes: Vec::new(alloc),
            step,
        }
    }

    /// The octets taken so far.
    pub fn bytes(&self) -> &[u8]
        ensures { result.now ≡ self.now.octets }
    {
        self.bytes.as_slice()
    }
}

impl Sink for PlainSink {
    ghost held = { λ s. Some s.octets };

    ghost faults = { λ _. 0 };

    fn write(&mut self, piece: &[u8]) -> Result<usize, SinkErr>
        // The trait's clauses; the count is the constant 0.
        ensures bound { WritesAtMost result piece.now }
        ensures octets { WriteAppends (Some self.old.octets) (Some self.new.octets)
            result piece.now }
        ensures progress { IfOk result (λ n. 0 < length piece.now → 0 < n) }
        ensures fault { result ≡ Err SinkErr.Failed → Rose 0 0 }
        ensures counts { (result ≡ Err SinkErr.Failed → ⊥) → ◌≡◌ {A = ℕ} 0 0 }
        ensures never_falls { 0 ≤ 0 }

        ensures takes { IfOk result (λ n. (n ≡ min self.old.step (length piece.now))
            × (self.new ≡ record self.old { octets = self.old.octets ++ take n piece.now })) }
        ensures memory { IfErr result (λ e. (e ≡ SinkErr.NoMemory) × (self.new ≡ self.old)) }
    {
        let count = self.step.min(piece.len());
        self.bytes.extend_from_slice(&piece[..count])?;
        Ok(count)
    }
}
