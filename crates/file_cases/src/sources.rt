//! Sources that are read to their end, sinks that are written, and both with a fault at each place.

use srp_base::NoMemory;
use srp_io::{
    MemSink, MemSource, PlainSink, PlainSource, ReadErr, Sink, Source, StdSink, StdSource,
    WriteErr, read_all, write_whole,
};
use std::alloc::Global;
use std::io;

/// How many octets a source has.
fn read_len<S: Source>(alloc: Global, source: &mut S, limit: usize) -> Result<usize, ReadErr> {
    Ok(read_all(alloc, source, limit.min(1000))?.len())
}

/// Whether a source has these octets.
fn has_octets<S: Source>(alloc: Global, source: &mut S, octets: &[u8]) -> bool {
    match read_all(alloc, source, 10) {
        Ok(found) => found.as_slice() == octets,
        Err(_) => false,
    }
}

/// A source of five octets, read in steps of so many, with a fault at this read.
fn five_octets(alloc: Global, step: usize, fails: u64) -> Result<MemSource, NoMemory> {
    let bytes = vec![in alloc; 1u8, 2, 3, 4, 5]?;
    let fails = vec![in alloc; fails]?;
    Ok(MemSource::new(bytes, step.max(1), fails))
}

/// Whether reading five octets ends so, in steps of so many, with a fault at this read, within a
/// limit.
fn reads_five(
    alloc: Global,
    step: usize,
    fails: u64,
    limit: usize,
    want: Result<usize, ReadErr>,
) -> bool {
    match five_octets(alloc, step, fails) {
        Ok(mut source) => read_len(alloc, &mut source, limit) == want,
        Err(_) => false,
    }
}

#[test]
fn a_source_within_the_limit_is_read_to_its_end_or_a_fault(rt: HostRuntime) {
    for (step, fails, limit, want) in [
        (1, 0, 5, Ok(5)),
        (3, 0, 5, Ok(5)),
        (100, 0, 6, Ok(5)),
        (3, 0, 4, Err(ReadErr::TooLong)),
        (3, 3, 4, Err(ReadErr::TooLong)),
        (2, 1, 5, Err(ReadErr::Fault)),
        (2, 3, 5, Err(ReadErr::Fault)),
        (2, 4, 5, Err(ReadErr::Fault)),
        (2, 5, 5, Ok(5)),
    ] {
        assert!(rt; reads_five(rt.alloc(), step, fails, limit, want));
    }
}

fn reads_plain(alloc: Global) -> Result<bool, NoMemory> {
    let mut plain = PlainSource::new(vec![in alloc; 8u8, 9]?, 1);
    Ok(has_octets(alloc, &mut plain, &[8, 9]))
}

#[test]
fn a_plain_source_is_read_to_its_end(rt: HostRuntime) {
    assert!(rt; reads_plain(rt.alloc()) == Ok(true));
}

/// Whether writing `hello` to a sink ends so and leaves this.
fn takes(sink: &mut MemSink, want: Result<(), WriteErr>, held: &[u8]) -> bool {
    write_whole(sink, b"hello") == want && sink.bytes() == held
}

/// Whether writing `hello` in steps of so many, with a fault at this write, ends so and leaves
/// this.
fn writes(alloc: Global, step: usize, fails: u64, want: Result<(), WriteErr>, held: &[u8]) -> bool {
    match vec![in alloc; fails] {
        Ok(fails) => takes(&mut MemSink::new(alloc, step.max(1), fails), want, held),
        Err(_) => false,
    }
}

fn faults_after(written: u64) -> Result<(), WriteErr> {
    Err(WriteErr::Fault { written })
}

#[test]
fn a_text_is_written_whole_or_to_a_fault(rt: HostRuntime) {
    let alloc = rt.alloc();
    assert!(rt; writes(alloc, 1, 0, Ok(()), b"hello") && writes(alloc, 4, 0, Ok(()), b"hello"));
    assert!(rt; writes(alloc, 2, 4, Ok(()), b"hello"));
    assert!(rt; writes(alloc, 2, 1, faults_after(0), b""));
    assert!(rt; writes(alloc, 2, 3, faults_after(4), b"hell"));
}

fn writes_plain(alloc: Global) -> bool {
    let mut plain = PlainSink::new(alloc, 3);
    write_whole(&mut plain, b"hello").is_ok() && plain.bytes() == b"hello".as_slice()
}

#[test]
fn a_plain_sink_takes_it_all(rt: HostRuntime) {
    assert!(rt; writes_plain(rt.alloc()));
}

/// A reader and writer that gives and takes nothing, or fails.
#[derive(Drop)]
struct Stuck {
    fails: bool,
}

impl io::Read for Stuck {
    fn read(&mut self, _buf: &mut [u8]) -> io::Result<usize> {
        if self.fails {
            Err(io::Error::from(io::ErrorKind::Other))
        } else {
            Ok(0)
        }
    }
}

impl io::Write for Stuck {
    fn write(&mut self, _buf: &[u8]) -> io::Result<usize> {
        if self.fails {
            Err(io::Error::from(io::ErrorKind::Other))
        } else {
            Ok(0)
        }
    }

    fn flush(&mut self) -> io::Result<()> {
        Ok(())
    }
}

fn is_read_fault(alloc: Global, fails: bool) -> bool {
    read_len(alloc, &mut StdSource::new(Stuck { fails }), 10) == Err(ReadErr::Fault)
}

fn is_write_fault(fails: bool) -> bool {
    write_whole(&mut StdSink::new(Stuck { fails }), b"x") == Err(WriteErr::Fault { written: 0 })
}

#[test]
fn std_readers_serve(rt: HostRuntime) {
    let mut source = StdSource::new(b"hello".as_slice());
    assert!(rt; has_octets(rt.alloc(), &mut source, b"hello"));
    assert!(rt; is_read_fault(rt.alloc(), true) && !is_read_fault(rt.alloc(), false));
}

/// Whether a room of three octets takes as many, and then faults.
fn fills_three() -> bool {
    let mut room = [0u8; 3];
    let done = write_whole(&mut StdSink::new(room.as_mut_slice()), b"hello");
    done == Err(WriteErr::Fault { written: 3 }) && room.as_slice() == b"hel".as_slice()
}

#[test]
fn std_writers_serve(rt: HostRuntime) {
    assert!(rt; fills_three());
    // A write that takes nothing of a piece is a fault, and so is one that fails.
    assert!(rt; is_write_fault(true) && is_write_fault(false));
}
