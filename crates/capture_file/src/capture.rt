//! What a capture file has.

use crate::setting::LinkType;

/// A frame as it was captured.
#[derive(Clone, Copy, Debug)]
pub struct Record<'a> {
    /// What its octets begin with, by its interface.
    pub link: LinkType,
    /// When it was captured, in ns since the beginning of 1970 (UTC); 2^64 - 1 where later.
    pub at_ns: u64,
    /// How many octets it had.
    pub whole: u32,
    /// Those that were captured.
    pub octets: &'a [u8],
}

/// The records of a capture file.
#[derive(Drop)]
pub struct Capture<'a> {
    /// The records that are whole, in the order of the file.
    pub records: Vec<Record<'a>>,
    /// Where the file breaks off: the offset, in octets from 0, of the first record or block that
    /// isn't whole. None where the file was read to its end.
    pub broken: Option<u32>,
}
