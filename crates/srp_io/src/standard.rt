//! Sources and sinks over std's readers and writers: the edge to the outside. They tell of their
//! octets what the reader or writer tells; the standard streams tell nothing.

ghost use Rattle.std.specs.Prelude.{◌≡◌};

use crate::{Failed, Sink, SinkErr, Source};
use std::io;
use std::marker::Model;

/// A source over a reader of std. Each error of the reader is a fault.
#[derive(Drop)]
pub struct StdSource<R> {
    inner: R,
    faults: u64,
}

impl<R> Model for StdSource<R> {
    ghost use Rattle.srp_io.specs.Standard.{Counted};

    ghost Value = { Counted R };

    ghost view = { λ s. record { inner = s.inner; faults = s.faults } };
}

impl<R> StdSource<R> {
    /// A source over this reader, with no fault yet.
    pub fn new(inner: R) -> StdSource<R>
        ensures { result ≡ record { inner = inner; faults = 0 } }
    {
        StdSource { inner, faults: 0 }
    }
}

impl<R: io::Read> Source for StdSource<R> {
    ghost left = { λ s. R.remaining s.inner };

    ghost faults = { λ s. s.faults };

    fn read(&mut self, buf: &mut [u8]) -> Result<usize, Failed> {
        match self.inner.read(buf) {
            Ok(count) => Ok(count),
            Err(_) => {
                self.faults = self.faults.saturating_add(1);
                Err(Failed)
            }
        }
    }
}

/// A sink over a writer of std. Each error of the writer is a fault, and so is a write that takes
/// nothing of a piece.
#[derive(Drop)]
pub struct StdSink<W> {
    inner: W,
    faults: u64,
}

impl<W> Model for StdSink<W> {
    ghost use Rattle.srp_io.specs.Standard.{Counted};

    ghost Value = { Counted W };

    ghost view = { λ s. record { inner = s.inner; faults = s.faults } };
}

impl<W> StdSink<W> {
    /// A sink over this writer, with no fault yet.
    pub fn new(inner: W) -> StdSink<W>
        ensures { result ≡ record { inner = inner; faults = 0 } }
    {
        StdSink { inner, faults: 0 }
    }
}

impl<W: io::Write> Sink for StdSink<W> {
    ghost held = { λ s. W.contents s.inner };

    ghost faults = { λ s. s.faults };

    fn write(&mut self, piece: &[u8]) -> Result<usize, SinkErr> {
        match self.inner.write(piece) {
            Ok(count) if count > 0 || piece.is_empty() => Ok(count),
            _ => {
                self.faults = self.faults.saturating_add(1);
                Err(SinkErr::Failed)
            }
        }
    }
}
