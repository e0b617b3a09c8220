//! What the frames of a capture file say.

ghost use Rattle.std.specs.Prelude.{◌≡◌, ◌+◌, ◌<◌, ◌^◌, ◌++◌, length, IfOk, OnOk, string_bytes, Ok};
ghost use Rattle.std.specs.List.{AllByRecursion};
ghost use Rattle.capture_file.specs.Packets.{packet_in, packets_in, capture_in};
ghost use Rattle.capture_file.specs.Reading.{reading};
ghost use Rattle.mrp_frames.specs.Frames.{seen_in, frame_in};
ghost use Rattle.pdu_words.specs.Captured.{moment_text, frame_front, cut_text, pdu_said, frame_said, frames_said, counted, mrp_count, counts_line, broken_line, outcome_said, captured_text as captured_text_spec};

use crate::text::write_octets;
use crate::words::app_name;
use capture_file::{Capture, CaptureErr, Record, read_capture};
use mrp_frames::{MrpFrame, frame_of};
use srp_base::NoMemory;
use std::alloc::{AllocError, Global};
use std::fmt::Write;

/// What a capture file says: of each frame of MRP, in the order of the file, its number among all
/// frames from 1, when it was captured, its source address and its application, and then what
/// `decoded_text` has of its PDU; or that the capture has cut it. Then the offset at which the file
/// breaks off, if it does, and how many frames are MRP's and how many others. Of octets that are no
/// capture, or that have an interface of a link type whose frames aren't read, a line says so. The
/// file has fewer than 2^32 octets.
///
/// # Errors
///
/// `NoMemory` where memory runs out.
pub fn captured_text(alloc: Global, file: &[u8]) -> Result<String, NoMemory>
    requires { length file.now < 2 ^ 32 }
    ensures { IfOk result (λ text. string_bytes text ≡ captured_text_spec file.now) }
{
    let mut out = String::new(alloc);
    match read_capture(alloc, file) {
        Ok(capture) => write_capture(alloc, &mut out, &capture)?,
        Err(CaptureErr::NotCapture) => out.push_str("not a capture\n")?,
        Err(CaptureErr::OtherLink(number)) => writeln!(out, "link type {number}")?,
        Err(CaptureErr::NoMemory) => return Err(NoMemory),
    }
    Ok(out)
}

// What the frames of a capture say, and how many there are.
fn write_capture(alloc: Global, out: &mut String, capture: &Capture<'_>) -> Result<(), NoMemory>
    requires { AllByRecursion (λ r. length r.octets.now < 2 ^ 32) capture.now.records.items }
    ensures { OnOk result (string_bytes out.new
        ≡ string_bytes out.old ++ outcome_said (Ok (capture_in capture.now))) }
{
    let records = capture.records.as_slice();
    let mrp = write_frames(alloc, out, records)?;
    write_broken(out, capture.broken)?;
    let other = (records.len() as u64).saturating_sub(mrp);
    Ok(writeln!(out, "frames {mrp} other {other}")?)
}

/// Puts at the end of a text where a capture file breaks off, if it does: the offset in octets, from
/// 0.
pub fn write_broken(out: &mut String, broken: Option<u32>) -> Result<(), AllocError>
    ensures { OnOk result (string_bytes out.new ≡ string_bytes out.old ++ broken_line broken) }
{
    match broken {
        None => Ok(()),
        Some(place) => writeln!(out, "broken at {place}"),
    }
}

// What these frames say; how many of them are MRP's.
fn write_frames(alloc: Global, out: &mut String, records: &[Record<'_>]) -> Result<u64, NoMemory>
    requires { AllByRecursion (λ r. length r.octets.now < 2 ^ 32) records.now }
    ensures said { OnOk result (string_bytes out.new
        ≡ string_bytes out.old ++ frames_said 1 (packets_in records.now)) }
    ensures count { IfOk result (λ n. n ≡ mrp_count (packets_in records.now)) }
{
    let mut number: u64 = 1;
    let mut mrp: u64 = 0;
    for record in records {
        mrp += write_record(alloc, out, number, record)?;
        number += 1;
    }
    Ok(mrp)
}

// What a frame of this number says if it is one of MRP; how many frames of MRP it is.
fn write_record(
    alloc: Global,
    out: &mut String,
    number: u64,
    record: &Record<'_>,
) -> Result<u64, NoMemory>
    requires { length record.now.octets.now < 2 ^ 32 }
    ensures said { OnOk result (string_bytes out.new ≡ string_bytes out.old
        ++ frame_said number (packet_in record.now) (frame_in (packet_in record.now))) }
    ensures count { IfOk result (λ n. n ≡ counted (frame_in (packet_in record.now))) }
{
    let Some(frame) = frame_of(record) else {
        return Ok(0);
    };
    write_front(out, number, record.at_ns, &frame)?;
    write_pdu(alloc, out, record, &frame)?;
    Ok(1)
}

// Where a PDU was found.
fn write_front(
    out: &mut String,
    number: u64,
    at_ns: u64,
    frame: &MrpFrame<'_>,
) -> Result<(), AllocError>
    ensures { OnOk result (string_bytes out.new
        ≡ string_bytes out.old ++ frame_front number at_ns (seen_in frame.now)) }
{
    write!(out, "frame {number} at ")?;
    write_moment(out, at_ns)?;
    let address = frame.address;
    let app = app_name(frame.app);
    write!(out, " {address} {app}")
}

// A moment in seconds.
fn write_moment(out: &mut String, at_ns: u64) -> Result<(), AllocError>
    ensures { OnOk result (string_bytes out.new ≡ string_bytes out.old ++ moment_text at_ns) }
{
    let seconds = at_ns / 1_000_000_000;
    let ns = at_ns % 1_000_000_000;
    write!(out, "{seconds}.{ns:09}")
}

// What the PDU of a frame says, or that the frame is cut.
fn write_pdu(
    alloc: Global,
    out: &mut String,
    record: &Record<'_>,
    frame: &MrpFrame<'_>,
) -> Result<(), NoMemory>
    requires { length frame.now.pdu.now < 2 ^ 32 }
    ensures { OnOk result (string_bytes out.new
        ≡ string_bytes out.old ++ pdu_said (packet_in record.now) (seen_in frame.now)) }
{
    let got = record.octets.len();
    let whole = record.whole;
    if got < whole as usize {
        return Ok(write_cut(out, got, whole)?);
    }
    write_octets(alloc, out, frame.app, frame.pdu)
}

/// Puts at the end of a text that so many octets of a frame were captured, of so many.
pub fn write_cut(out: &mut String, got: usize, whole: u32) -> Result<(), AllocError>
    ensures { OnOk result (string_bytes out.new ≡ string_bytes out.old ++ cut_text got whole) }
{
    writeln!(out, " cut {got} of {whole}")
}
