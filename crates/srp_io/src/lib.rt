//! Where the program's octets come from and go to, and reading and writing them whole.
//!
//! ```text
//! source     Source      read gives some octets, or a fault is counted
//!            MemSource PlainSource        over memory, with and without faults
//! sink       Sink        write takes some octets, or a fault is counted
//!            MemSink PlainSink            over memory, with and without faults
//! standard   StdSource StdSink            over std's readers and writers
//! whole      read_all write_whole         all octets, or why not
//! ```
//!
//! A source has a meaning, `left`, the octets still to come where it tells them, and a count of
//! faults that never falls; a sink has `held`, the octets taken so far where it tells them, and
//! such a count. A fault of reading or writing is answered only where the count of that very object
//! rose in the call. Code above is generic over both and proved once for all of them.
//!
//! To add an end, a type over a device, a file or a test's script: a struct with its count of
//! faults, its `Model`, and an `impl Source` or `impl Sink` that says what `left` or `held` and
//! `faults` are. Where the outside tells nothing of its octets, `left` is None. The clauses of the
//! trait are what is to be proved.
#![tactic(auto)]

mod sink;
mod source;
mod standard;
mod whole;

pub use sink::{MemSink, PlainSink, Sink, SinkErr};
pub use source::{Failed, MemSource, PlainSource, Source};
pub use standard::{StdSink, StdSource};
pub use whole::{ReadErr, WriteErr, read_all, write_whole};
