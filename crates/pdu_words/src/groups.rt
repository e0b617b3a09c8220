//! What PDUs of MMRP say, in words.

ghost use Rattle.std.specs.Prelude.{◌≡◌, ◌<◌, ◌^◌, ◌++◌, length, flat_map, OnOk, string_bytes};
ghost use Rattle.mmrp_codec.specs.Meaning.{mmrp_reading};
ghost use Rattle.pdu_words.specs.Decoded.{groups_said};
ghost use Rattle.pdu_words.specs.Events.{mac_line, group_lines};

use crate::words::{event_name, write_leaveall, write_malformed};
use mmrp_codec::{DecodeErr, GroupPdu, decode};
use srp_base::{Mac, MrpEvent, NoMemory};
use std::alloc::{AllocError, Global};
use std::fmt::Write;

/// What octets say as a PDU of MMRP, or where they break.
pub(crate) fn write_octets(alloc: Global, out: &mut String, octets: &[u8]) -> Result<(), NoMemory>
    requires { length octets.now < 2 ^ 32 }
    ensures { OnOk result (string_bytes out.new
        ≡ string_bytes out.old ++ groups_said (mmrp_reading octets.now)) }
{
    match decode(alloc, octets) {
        Ok(pdu) => Ok(write_pdu(out, &pdu)?),
        Err(DecodeErr::Malformed(place)) => Ok(write_malformed(out, place)?),
        Err(DecodeErr::NoMemory) => Err(NoMemory),
    }
}

// What a PDU says.
fn write_pdu(out: &mut String, pdu: &GroupPdu) -> Result<(), AllocError>
    ensures { OnOk result (string_bytes out.new ≡ string_bytes out.old ++ group_lines pdu.now) }
{
    write_leaveall(out, pdu.leave_all)?;
    write_events(out, pdu.events.as_slice())
}

// The lines of these events.
fn write_events(out: &mut String, events: &[(MrpEvent, Mac)]) -> Result<(), AllocError>
    ensures { OnOk result (string_bytes out.new
        ≡ string_bytes out.old ++ flat_map mac_line events.now) }
{
    for event in events {
        write_event(out, event.0, event.1)?;
    }
    Ok(())
}

// The line of an event of a MAC address.
fn write_event(out: &mut String, event: MrpEvent, mac: Mac) -> Result<(), AllocError>
    ensures { OnOk result (string_bytes out.new ≡ string_bytes out.old ++ mac_line (event, mac)) }
{
    let name = event_name(event);
    writeln!(out, "{name} mac {mac}")
}
