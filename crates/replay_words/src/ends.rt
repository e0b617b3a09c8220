//! The ends of a link by their addresses.

ghost use Rattle.std.specs.Prelude.{◌≡◌, Some};
ghost use Rattle.capture_file.specs.Packets.{packet_in, packets_in};
ghost use Rattle.replay_words.specs.Ends.{is_address, end_at, address_of, unless_known, first_but, first_ends, ends_of};

use capture_file::Record;
use link_replay::End;
use mrp_frames::frame_of;
use srp_base::Mac;

/// The addresses of the ends a and b of a link, as numbers, as far as they are known.
#[derive(Clone, Copy)]
pub struct Ends {
    pub a: Option<u64>,
    pub b: Option<u64>,
}

impl Ends {
    /// The ends that the head gives, or else those that speak first in these records.
    pub(crate) fn of(given: &Option<(u64, u64)>, records: &[Record<'_>]) -> Ends
        ensures { result ≡ ends_of given.now (packets_in records.now) }
    {
        match given {
            Some((a, b)) => Ends {
                a: Some(*a),
                b: Some(*b),
            },
            None => first_ends(records),
        }
    }

    /// The end of which an address is; None where it is of none.
    pub(crate) fn at(&self, address: Mac) -> Option<End>
        ensures { result ≡ end_at self.now address }
    {
        if is_address(address.get(), &self.a) {
            return Some(End::A);
        }
        if is_address(address.get(), &self.b) {
            return Some(End::B);
        }
        None
    }
}

// Whether an address is this one, where it is known.
fn is_address(address: u64, known: &Option<u64>) -> bool
    ensures { result ≡ is_address address known.now }
{
    match known {
        None => false,
        Some(known) => address == *known,
    }
}

// The first two source addresses that differ.
fn first_ends(records: &[Record<'_>]) -> Ends
    ensures { result ≡ first_ends (packets_in records.now) }
{
    let a = first_but(&None, records);
    let b = first_but(&a, records);
    Ends { a, b }
}

// The first source address of some frames of MRP that isn't a known one.
fn first_but(known: &Option<u64>, records: &[Record<'_>]) -> Option<u64>
    ensures { result ≡ first_but known.now (packets_in records.now) }
{
    for record in records {
        if let Some(address) = address_but(known, record) {
            return Some(address);
        }
    }
    None
}

// The source address of a frame of MRP, where it isn't a known one.
fn address_but(known: &Option<u64>, record: &Record<'_>) -> Option<u64>
    ensures { result ≡ unless_known known.now (address_of (packet_in record.now)) }
{
    match frame_of(record) {
        None => None,
        Some(frame) => unless_known(known, frame.address.get()),
    }
}

// An address, where it isn't a known one.
fn unless_known(known: &Option<u64>, address: u64) -> Option<u64>
    ensures { result ≡ unless_known known.now (Some address) }
{
    if is_address(address, known) {
        None
    } else {
        Some(address)
    }
}
