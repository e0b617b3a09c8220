//! What PDUs of MSRP say, in words.

ghost use Rattle.std.specs.Prelude.{◌≡◌, ◌<◌, ◌^◌, ◌++◌, length, flat_map, OnOk, string_bytes};
ghost use Rattle.msrp_codec.specs.Meaning.{msrp_reading};
ghost use Rattle.pdu_words.specs.Decoded.{streams_said};
ghost use Rattle.pdu_words.specs.Events.{address_text, traffic_text, talker_text, failure_text, key_text, content_text, declaration_line, stream_lines};

use crate::words::{event_name, kind_name, rank_digit, write_leaveall, write_malformed};
use msrp_codec::{DecodeErr, MsrpContent, MsrpKey, MsrpPdu, decode};
use srp_base::{Failure, ListenerKind, MrpEvent, NoMemory, Talker};
use std::alloc::{AllocError, Global};
use std::fmt::Write;

/// What octets say as a PDU of MSRP, or where they break.
pub(crate) fn write_octets(alloc: Global, out: &mut String, octets: &[u8]) -> Result<(), NoMemory>
    requires { length octets.now < 2 ^ 32 }
    ensures { OnOk result (string_bytes out.new
        ≡ string_bytes out.old ++ streams_said (msrp_reading octets.now)) }
{
    match decode(alloc, octets) {
        Ok(pdu) => Ok(write_pdu(out, &pdu)?),
        Err(DecodeErr::Malformed(place)) => Ok(write_malformed(out, place)?),
        Err(DecodeErr::NoMemory) => Err(NoMemory),
    }
}

// What a PDU says.
fn write_pdu(out: &mut String, pdu: &MsrpPdu) -> Result<(), AllocError>
    ensures { OnOk result (string_bytes out.new
        ≡ string_bytes out.old ++ stream_lines pdu.now) }
{
    write_leaveall(out, pdu.leave_all)?;
    write_events(out, pdu.events.as_slice())
}

// The lines of these events.
fn write_events(
    out: &mut String,
    events: &[(MrpEvent, MsrpKey, MsrpContent)],
) -> Result<(), AllocError>
    ensures { OnOk result (string_bytes out.new
        ≡ string_bytes out.old ++ flat_map declaration_line events.now) }
{
    for event in events {
        write_event(out, event)?;
    }
    Ok(())
}

// The line of an event: of what it is, and what it declares.
fn write_event(out: &mut String, event: &(MrpEvent, MsrpKey, MsrpContent)) -> Result<(), AllocError>
    ensures { OnOk result (string_bytes out.new
        ≡ string_bytes out.old ++ declaration_line event.now) }
{
    out.push_str(event_name(event.0))?;
    out.push_str(" ")?;
    write_stream_key(out, event.1)?;
    write_stream_content(out, event.2)?;
    out.push_str("\n")
}

/// Puts at the end of a text of what a declaration of MSRP is: a stream's Talker or Listeners, or a
/// Domain.
pub fn write_stream_key(out: &mut String, key: MsrpKey) -> Result<(), AllocError>
    ensures { OnOk result (string_bytes out.new ≡ string_bytes out.old ++ key_text key) }
{
    match key {
        MsrpKey::Talker(stream) => write!(out, "talker {stream}"),
        MsrpKey::Listener(stream) => write!(out, "listener {stream}"),
        MsrpKey::Domain(class) => write!(out, "domain {class}"),
    }
}

/// Puts at the end of a text what a declaration of MSRP declares, with a blank in front.
pub fn write_stream_content(out: &mut String, content: MsrpContent) -> Result<(), AllocError>
    ensures { OnOk result (string_bytes out.new ≡ string_bytes out.old ++ content_text content) }
{
    match content {
        MsrpContent::Advertise(talker) => write_advertise(out, &talker),
        MsrpContent::Failed(talker, failure) => write_failed(out, &talker, failure),
        MsrpContent::Listener(kind) => write_kind(out, kind),
        MsrpContent::Domain { priority, vid } => { write!(out, " priority {priority} vid {vid}") }
    }
}

// A Talker Advertise.
fn write_advertise(out: &mut String, talker: &Talker) -> Result<(), AllocError>
    ensures { OnOk result (string_bytes out.new
        ≡ string_bytes out.old ++ content_text (MsrpContent.Advertise talker.now)) }
{
    out.push_str(" advertise")?;
    write_talker(out, talker)
}

// A Talker Failed.
fn write_failed(out: &mut String, talker: &Talker, failure: Failure) -> Result<(), AllocError>
    ensures { OnOk result (string_bytes out.new
        ≡ string_bytes out.old ++ content_text (MsrpContent.Failed talker.now failure)) }
{
    write_failure(out, failure)?;
    write_talker(out, talker)
}

// Why a Talker failed, and where.
fn write_failure(out: &mut String, failure: Failure) -> Result<(), AllocError>
    ensures { OnOk result (string_bytes out.new ≡ string_bytes out.old ++ failure_text failure) }
{
    let Failure { bridge, code } = failure;
    write!(out, " failed bridge {bridge} code {code}")
}

// What a Talker declares of its frames.
fn write_talker(out: &mut String, talker: &Talker) -> Result<(), AllocError>
    ensures { OnOk result (string_bytes out.new ≡ string_bytes out.old ++ talker_text talker.now) }
{
    write_address(out, talker)?;
    write_traffic(out, talker)?;
    let latency = talker.latency;
    write!(out, " latency {latency}")
}

// Where its frames go.
fn write_address(out: &mut String, talker: &Talker) -> Result<(), AllocError>
    ensures { OnOk result (string_bytes out.new ≡ string_bytes out.old ++ address_text talker.now) }
{
    let Talker { dest, vid, .. } = *talker;
    write!(out, " dest {dest} vid {vid}")
}

// How many and how large they are.
fn write_traffic(out: &mut String, talker: &Talker) -> Result<(), AllocError>
    ensures { OnOk result (string_bytes out.new ≡ string_bytes out.old ++ traffic_text talker.now) }
{
    let Talker {
        max_frame,
        frames,
        ..
    } = *talker;
    let priority = talker.priority.get();
    let rank = rank_digit(talker.rank);
    write!(
        out,
        " octets {max_frame} frames {frames} priority {priority} rank {rank}"
    )
}

// What a Listener declares.
fn write_kind(out: &mut String, kind: ListenerKind) -> Result<(), AllocError>
    ensures { OnOk result (string_bytes out.new
        ≡ string_bytes out.old ++ content_text (MsrpContent.Listener kind)) }
{
    let name = kind_name(kind);
    write!(out, " {name}")
}
