//! A capture file, written from left to right.

ghost use Rattle.std.specs.Prelude.{◌≡◌, ◌++◌, ◌<◌, ◌*◌, ◌^◌, OnOk};
ghost use Rattle.capture_file.specs.Packets.{packet_in};
ghost use Rattle.capture_file.specs.Writing.{two_octets, four_octets, number_of, head_text, record_text, Fits};

use crate::capture::Record;
use crate::setting::{ByteOrder, LinkType};
use srp_base::NoMemory;
use std::alloc::AllocError;

/// Writes a number in two octets.
fn put_two(out: &mut Vec<u8>, order: ByteOrder, number: u16) -> Result<(), AllocError>
    ensures { OnOk result (out.new.items ≡ out.old.items ++ two_octets order number) }
{
    match order {
        ByteOrder::Big => out.extend_from_slice(&number.to_be_bytes()),
        ByteOrder::Little => out.extend_from_slice(&number.to_le_bytes()),
    }
}

/// Writes a number in four octets.
fn put_four(out: &mut Vec<u8>, order: ByteOrder, number: u32) -> Result<(), AllocError>
    ensures { OnOk result (out.new.items ≡ out.old.items ++ four_octets order number) }
{
    match order {
        ByteOrder::Big => out.extend_from_slice(&number.to_be_bytes()),
        ByteOrder::Little => out.extend_from_slice(&number.to_le_bytes()),
    }
}

/// The number of a link type.
fn number_of(link: LinkType) -> u32
    ensures { result ≡ number_of link }
{
    match link {
        LinkType::Ethernet => 1,
        LinkType::Cooked => 113,
        LinkType::CookedV2 => 276,
    }
}

/// Writes the head of a capture file at the end of `out`: that of pcap
/// (draft-ietf-opsawg-pcap) with moments in ns, in a byte order, of a link type.
///
/// # Errors
///
/// `NoMemory` where memory for the octets runs out; `out` then may have some of them at its end.
#[tactic(auto, unfolding(crate::specs::Writing::head_text))]
pub fn put_head(out: &mut Vec<u8>, order: ByteOrder, link: LinkType) -> Result<(), NoMemory>
    ensures { OnOk result (out.new.items ≡ out.old.items ++ head_text order link) }
{
    put_four(out, order, 0xa1b2_3c4d)?;
    put_two(out, order, 2)?;
    put_two(out, order, 4)?;
    put_four(out, order, 0)?;
    put_four(out, order, 0)?;
    put_four(out, order, 262_144)?;
    put_four(out, order, number_of(link))?;
    Ok(())
}

/// Writes a record at the end of `out`, behind a head of its byte order and link type or another
/// record. Its moment is below 2^32 s, and no more octets were captured than its frame had, nor
/// more than 262,144.
///
/// # Errors
///
/// `NoMemory` where memory for the octets runs out; `out` then may have some of them at its end.
#[tactic(auto, unfolding(crate::specs::Writing::record_text))]
pub fn put_record(out: &mut Vec<u8>, order: ByteOrder, frame: &Record<'_>) -> Result<(), NoMemory>
    requires { Fits frame.now.link (packet_in frame.now) }
    ensures { OnOk result (out.new.items
        ≡ out.old.items ++ record_text order (packet_in frame.now)) }
{
    put_four(out, order, (frame.at_ns / 1_000_000_000) as u32)?;
    put_four(out, order, (frame.at_ns % 1_000_000_000) as u32)?;
    put_four(out, order, frame.octets.len() as u32)?;
    put_four(out, order, frame.whole)?;
    out.extend_from_slice(frame.octets)?;
    Ok(())
}
