//! All octets of a source, and all of a text into a sink.

ghost use Rattle.std.specs.Prelude.{◌≡◌, ℕ, ◌+◌, ◌^◌, ◌<◌, ◌≤◌, List, length, take, drop, Err, OnOk, OnErr, IfOk, IfErr};
ghost use Rattle.std.specs.Io.KnownBytes.{Appends, Consumes, IsAtEnd};
ghost use Rattle.srp_io.specs.Faults.{Rose};
ghost use Rattle.srp_io.specs.declared.whole.ReadErr.TheVariants.{Fault, NoMemory};
ghost use Rattle.srp_io.specs.Whole.{TookAtMost, TookPast, written_of, IsFault};

use crate::{Failed, Sink, SinkErr, Source};
use std::alloc::{AllocError, Global};
use thiserror::Error;

/// Why a source wasn't read to its end.
#[derive(Clone, Copy, Debug, PartialEq, Eq, Error)]
pub enum ReadErr {
    /// The source counted a fault in this call.
    #[error("read fault")]
    Fault,
    /// One octet past the limit was taken, with no fault before.
    #[error("input too long")]
    TooLong,
    /// Want of memory.
    #[error("no memory")]
    NoMemory,
}

impl From<Failed> for ReadErr {
    ghost from_gives = { λ _ e. e ≡ Fault };

    fn from(_error: Failed) -> ReadErr {
        ReadErr::Fault
    }
}

impl From<AllocError> for ReadErr {
    ghost from_gives = { λ _ e. e ≡ NoMemory };

    fn from(_error: AllocError) -> ReadErr {
        ReadErr::NoMemory
    }
}

/// Why a text wasn't written whole; exactly its first `written` octets went out.
#[derive(Clone, Copy, Debug, PartialEq, Eq, Error)]
pub enum WriteErr {
    /// The sink counted a fault in this call.
    #[error("write fault")]
    Fault { written: u64 },
    /// Want of memory.
    #[error("no memory")]
    NoMemory { written: u64 },
}

/// How many octets one turn of reading asks for at most.
const CHUNK: usize = 4096;

/// The octets of a source up to its end, at most `limit` of them. After an error the source has
/// given what was read, and those octets are lost.
pub fn read_all<S: Source>(alloc: Global, source: &mut S, limit: usize) -> Result<Vec<u8>, ReadErr>
    requires { limit < 2 ^ 32 }
    // All that was left was read, and it is at most the limit.
    ensures whole { IfOk result (λ v. Consumes (S.left source.old) (S.left source.new) v.items
        × IsAtEnd (S.left source.new)) }
    ensures within { IfOk result (λ v. length v.items ≤ limit) }

    ensures fault { result ≡ Err ReadErr.Fault → Rose (S.faults source.old) (S.faults source.new) }
    // A fault comes before one octet past the limit was taken.
    ensures fault_within { result ≡ Err ReadErr.Fault
        → TookAtMost limit (S.left source.old) (S.left source.new) }
    // One octet past the limit was taken, with no fault before.
    ensures too_long { result ≡ Err ReadErr.TooLong
        → TookPast limit (S.left source.old) (S.left source.new) }
    // After an error the source has given what was read.
    ensures given { OnErr result ((octets : List ℕ)
        × Consumes (S.left source.old) (S.left source.new) octets) }
    // The count rises only with a fault.
    ensures counts { (result ≡ Err ReadErr.Fault → ⊥) → S.faults source.new ≡ S.faults source.old }
    ensures never_falls { S.faults source.old ≤ S.faults source.new }
{
    let mut octets = Vec::new(alloc);
    let mut chunk = [0u8; CHUNK];
    while octets.len() <= limit {
        let room = CHUNK.min(limit + 1 - octets.len());
        let count = source.read(&mut chunk[..room])?;
        if count == 0 {
            return Ok(octets);
        }
        octets.extend_from_slice(&chunk[..count])?;
    }
    Err(ReadErr::TooLong)
}

/// Writes all of a text. An error says how many octets went out, fewer than all, and they are
/// exactly the text's first ones.
pub fn write_whole<K: Sink>(sink: &mut K, text: &[u8]) -> Result<(), WriteErr>
    ensures whole { OnOk result (Appends (K.held sink.old) (K.held sink.new) text.now) }

    ensures part { IfErr result
        (λ e. Appends (K.held sink.old) (K.held sink.new) (take (written_of e) text.now)) }
    ensures short { IfErr result (λ e. written_of e < length text.now) }
    ensures fault { IfErr result (λ e. IsFault e → Rose (K.faults sink.old) (K.faults sink.new)) }
    // The count rises only with a fault.
    ensures counts { OnOk result (K.faults sink.new ≡ K.faults sink.old) }
    ensures memory { IfErr result (λ e. (IsFault e → ⊥) → K.faults sink.new ≡ K.faults sink.old) }
    ensures never_falls { K.faults sink.old ≤ K.faults sink.new }
{
    let mut written = 0;
    while written < text.len() {
        match sink.write(after(text, written)) {
            Ok(count) => written += count,
            Err(error) => return Err(write_err(error, written as u64)),
        }
    }
    Ok(())
}

/// A text without its first octets.
fn after(text: &[u8], count: usize) -> &[u8]
    requires { count ≤ length text.now }
    ensures rest { result.now ≡ drop count text.now }
    ensures len { length result.now + count ≡ length text.now }
{
    &text[count..]
}

/// A sink's refusal after this many octets.
fn write_err(error: SinkErr, written: u64) -> WriteErr
    ensures written { written_of result ≡ written }
    ensures fault { IsFault result → error ≡ SinkErr.Failed }
    ensures failed { error ≡ SinkErr.Failed → IsFault result }
{
    match error {
        SinkErr::Failed => WriteErr::Fault { written },
        SinkErr::NoMemory => WriteErr::NoMemory { written },
    }
}
