//! How a file is made of its pieces, and whether it reads as wanted.

use capture_file::{CaptureErr, LinkType, Record, read_capture};
use srp_base::NoMemory;
use std::alloc::Global;

/// What was captured of a frame.
pub(crate) const BODY: [u8; 3] = [7, 8, 9];

/// A frame of 60 octets, of which three were captured.
pub(crate) fn frame(link: LinkType, at_ns: u64) -> Record<'static> {
    Record {
        link,
        at_ns,
        whole: 60,
        octets: &BODY,
    }
}

// The pieces of a file, one behind the other.
fn joined(alloc: Global, pieces: &[&[u8]]) -> Result<Vec<u8>, NoMemory> {
    let mut file = Vec::new(alloc);
    for piece in pieces {
        file.extend_from_slice(piece)?;
    }
    Ok(file)
}

// Whether two frames are the same.
fn is_same(a: &Record<'_>, b: &Record<'_>) -> bool {
    a.link == b.link && a.at_ns == b.at_ns && a.whole == b.whole && a.octets == b.octets
}

// Whether two lists are of the same frames.
fn are_same(a: &[Record<'_>], b: &[Record<'_>]) -> bool {
    if a.len() != b.len() {
        return false;
    }
    for i in 0..a.len() {
        if !is_same(&a[i], &b[i]) {
            return false;
        }
    }
    true
}

// Whether octets are a file of these frames, which breaks off there.
fn has_frames(alloc: Global, file: &[u8], frames: &[Record<'_>], broken: Option<u32>) -> bool {
    if 1500 < file.len() {
        return false;
    }
    match read_capture(alloc, file) {
        Ok(capture) => are_same(capture.records.as_slice(), frames) && capture.broken == broken,
        Err(_) => false,
    }
}

/// Whether the pieces are a file of these frames, which breaks off there.
pub(crate) fn reads(
    alloc: Global,
    pieces: &[&[u8]],
    frames: &[Record<'_>],
    broken: Option<u32>,
) -> bool {
    match joined(alloc, pieces) {
        Ok(file) => has_frames(alloc, file.as_slice(), frames, broken),
        Err(_) => false,
    }
}

// Why octets are no file whose frames are read.
fn cause_of(alloc: Global, file: &[u8]) -> Option<CaptureErr> {
    if 1500 < file.len() {
        return None;
    }
    match read_capture(alloc, file) {
        Ok(_) => None,
        Err(cause) => Some(cause),
    }
}

/// Whether the pieces are no such file, for this cause.
pub(crate) fn is_refused(alloc: Global, pieces: &[&[u8]], cause: CaptureErr) -> bool {
    match joined(alloc, pieces) {
        Ok(file) => cause_of(alloc, file.as_slice()) == Some(cause),
        Err(_) => false,
    }
}
