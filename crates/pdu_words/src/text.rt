//! What a capture says, line by line and dump by dump.

ghost use Rattle.std.specs.Prelude.{◌≡◌, ◌<◌, ◌≤◌, ◌+◌, ◌^◌, ◌++◌, ℕ, List, [], ◌∷◌, length, Some, None, if◌then◌else◌, IfOk, OnOk, string_bytes};
ghost use Rattle.pdu_words.specs.Capture.{lines_of};
ghost use Rattle.pdu_words.specs.Decoded.{decoded_text as decoded_text_spec, dump_said, ended_said, is_same_app, left_said, line_said, lines_said, octets_said, pdu_of_dump as pdu_of_dump_spec};

use crate::capture::{first_line, is_passed_over, octets_in};
use crate::dump::{Part, part_at};
use crate::text_file::is_no_text;
use crate::words::write_no_octets;
use crate::{groups, streams, vlans};
use capture_file::{LinkType, Record};
use mrp_frames::frame_of;
use mrpdu_codec::AppForm;
use srp_base::NoMemory;
use std::alloc::Global;
use std::fmt::Write;

/// What a capture of PDUs of an application says: of each line, in order, whether its PDU has a
/// LeaveAll and then its events in the order of the octets, a line each; or the offset in octets,
/// from 0, of the first field that breaks its rule (IEEE Std 802.1Q-2018, 10.8, 11.2.3.1, 35.2.2);
/// or that it has no octets. An empty line and a line that begins with `#` say nothing. Lines with
/// offsets in front, the first of them 0, are a hex dump: one PDU, said at its first line, or a
/// frame of Ethernet that has it behind its EtherType. Of a file that is no text, or that has
/// neither a line of octets nor a dump, one line says so. The capture has fewer than 2^32 octets.
///
/// # Errors
///
/// `NoMemory` where memory runs out.
pub fn decoded_text(alloc: Global, form: AppForm, capture: &[u8]) -> Result<String, NoMemory>
    requires { length capture.now < 2 ^ 32 }
    ensures { IfOk result (λ text. string_bytes text ≡ decoded_text_spec form capture.now) }
{
    let mut out = String::new(alloc);
    if is_no_text(alloc, capture)? {
        out.push_str("no text of octets\n")?;
        return Ok(out);
    }
    write_lines(alloc, &mut out, form, capture)?;
    Ok(out)
}

// The dump that isn't at its end yet.
#[derive(Drop)]
struct Dump {
    // The number of its first line, if there is one.
    first: Option<u64>,
    // Its octets so far.
    octets: Vec<u8>,
}

// What the lines of a text say.
#[tactic(auto, using(crate::proofs::DumpLemmas::left_at_end))]
fn write_lines(alloc: Global, out: &mut String, form: AppForm, text: &[u8]) -> Result<(), NoMemory>
    requires { length text.now < 2 ^ 32 }
    ensures { OnOk result (string_bytes out.new
        ≡ string_bytes out.old ++ lines_said form 1 0 (lines_of text.now)) }
{
    let mut dump = Dump {
        first: None,
        octets: Vec::new(alloc),
    };
    let mut rest = text;
    let mut number: u64 = 1;
    while !rest.is_empty() {
        let (line, behind) = first_line(rest);
        take_line(alloc, out, form, &mut dump, number, line)?;
        rest = behind;
        number += 1;
    }
    end_dump(alloc, out, form, &mut dump)
}

// What a line says, and the dump before it where that ends there.
fn take_line(
    alloc: Global,
    out: &mut String,
    form: AppForm,
    dump: &mut Dump,
    number: u64,
    line: &[u8],
) -> Result<(), NoMemory>
    requires { length dump.old.octets.items + length line.now < 2 ^ 32 }
    ensures said { OnOk result ((lines : List (List ℕ))
        → string_bytes out.new
        ++ left_said form dump.new.first dump.new.octets.items (number + 1) lines
        ≡ string_bytes out.old
        ++ left_said form dump.old.first dump.old.octets.items number (line.now ∷ lines)) }
    ensures few { OnOk result (length dump.new.octets.items
        ≤ length dump.old.octets.items + length line.now) }
{
    match part_at(alloc, dump.octets.len(), line)? {
        Part::Next(octets) => Ok(dump.octets.extend_from_slice(octets.as_slice())?),
        Part::First(octets) => begin_dump(alloc, out, form, dump, number, octets),
        Part::Apart => take_apart(alloc, out, form, dump, number, line),
    }
}

// A dump begins in this line, and the one before it is at its end.
fn begin_dump(
    alloc: Global,
    out: &mut String,
    form: AppForm,
    dump: &mut Dump,
    number: u64,
    octets: Vec<u8>,
) -> Result<(), NoMemory>
    requires { length dump.old.octets.items < 2 ^ 32 }
    ensures said { OnOk result (string_bytes out.new
        ≡ string_bytes out.old ++ ended_said form dump.old.first dump.old.octets.items) }
    ensures first { OnOk result (dump.new.first ≡ Some number) }
    ensures octets { OnOk result (dump.new.octets.items ≡ octets.items) }
{
    end_dump(alloc, out, form, dump)?;
    dump.first = Some(number);
    dump.octets = octets;
    Ok(())
}

// A line is of no dump, and the one before it is at its end.
fn take_apart(
    alloc: Global,
    out: &mut String,
    form: AppForm,
    dump: &mut Dump,
    number: u64,
    line: &[u8],
) -> Result<(), NoMemory>
    requires dump { length dump.old.octets.items < 2 ^ 32 }
    requires line { length line.now < 2 ^ 32 }
    ensures said { OnOk result (string_bytes out.new ≡ string_bytes out.old
        ++ (ended_said form dump.old.first dump.old.octets.items
        ++ line_said form number line.now)) }
    ensures none { OnOk result (dump.new.first ≡ None) }
    ensures empty { OnOk result (dump.new.octets.items ≡ []) }
{
    end_dump(alloc, out, form, dump)?;
    write_line(alloc, out, form, number, line)
}

// What a dump says that is at its end, if there is one.
fn end_dump(alloc: Global, out: &mut String, form: AppForm, dump: &mut Dump) -> Result<(), NoMemory>
    requires { length dump.old.octets.items < 2 ^ 32 }
    ensures said { OnOk result (string_bytes out.new
        ≡ string_bytes out.old ++ ended_said form dump.old.first dump.old.octets.items) }
    ensures none { OnOk result (dump.new.first ≡ None) }
    ensures empty { OnOk result (dump.new.octets.items ≡ []) }
{
    let first = dump.first;
    write_ended(alloc, out, form, first, dump.octets.as_slice())?;
    dump.first = None;
    dump.octets.clear();
    Ok(())
}

// What a dump says that began in this line, if there is one.
fn write_ended(
    alloc: Global,
    out: &mut String,
    form: AppForm,
    first: Option<u64>,
    octets: &[u8],
) -> Result<(), NoMemory>
    requires { length octets.now < 2 ^ 32 }
    ensures { OnOk result (string_bytes out.new
        ≡ string_bytes out.old ++ ended_said form first octets.now) }
{
    match first {
        None => Ok(()),
        Some(number) => write_dump(alloc, out, form, number, octets),
    }
}

// What a dump says that began in this line.
fn write_dump(
    alloc: Global,
    out: &mut String,
    form: AppForm,
    number: u64,
    octets: &[u8],
) -> Result<(), NoMemory>
    requires { length octets.now < 2 ^ 32 }
    ensures { OnOk result (string_bytes out.new
        ≡ string_bytes out.old ++ dump_said form number octets.now) }
{
    write!(out, "line {number}")?;
    write_octets(alloc, out, form, pdu_of_dump(form, octets))
}

// The PDU in the octets of a dump.
fn pdu_of_dump(form: AppForm, octets: &[u8]) -> &[u8]
    requires { length octets.now < 2 ^ 32 }
    ensures pdu { result.now ≡ pdu_of_dump_spec form octets.now }
    ensures within { length result.now ≤ length octets.now }
{
    if !octets.starts_with(&[0x01, 0x80, 0xc2]) {
        return octets;
    }
    let frame = frame_of(&Record {
        link: LinkType::Ethernet,
        at_ns: 0,
        whole: octets.len() as u32,
        octets,
    });
    match frame {
        Some(frame) => pdu_seen(form, octets, frame.app, frame.pdu),
        None => octets,
    }
}

// The PDU of a frame of this application, else the octets themselves.
fn pdu_seen<'a>(form: AppForm, octets: &'a [u8], app: AppForm, pdu: &'a [u8]) -> &'a [u8]
    ensures { result.now ≡ (if is_same_app app form then pdu.now else octets.now) }
{
    if app == form { pdu } else { octets }
}

// What a line says.
fn write_line(
    alloc: Global,
    out: &mut String,
    form: AppForm,
    number: u64,
    line: &[u8],
) -> Result<(), NoMemory>
    requires { length line.now < 2 ^ 32 }
    ensures { OnOk result (string_bytes out.new
        ≡ string_bytes out.old ++ line_said form number line.now) }
{
    if is_passed_over(line) {
        return Ok(());
    }
    write!(out, "line {number}")?;
    match octets_in(alloc, line)? {
        Some(octets) => write_octets(alloc, out, form, octets.as_slice()),
        None => Ok(write_no_octets(out)?),
    }
}

/// What octets say as a PDU of an application.
pub(crate) fn write_octets(
    alloc: Global,
    out: &mut String,
    form: AppForm,
    octets: &[u8],
) -> Result<(), NoMemory>
    requires { length octets.now < 2 ^ 32 }
    ensures { OnOk result (string_bytes out.new
        ≡ string_bytes out.old ++ octets_said form octets.now) }
{
    match form {
        AppForm::Mvrp => vlans::write_octets(alloc, out, octets),
        AppForm::Msrp => streams::write_octets(alloc, out, octets),
        AppForm::Mmrp => groups::write_octets(alloc, out, octets),
    }
}
