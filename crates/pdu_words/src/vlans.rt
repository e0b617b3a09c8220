//! What PDUs of MVRP say, in words.

ghost use Rattle.std.specs.Prelude.{◌≡◌, ◌<◌, ◌^◌, ◌++◌, length, flat_map, OnOk, string_bytes};
ghost use Rattle.mvrp_codec.specs.Meaning.{mvrp_reading};
ghost use Rattle.pdu_words.specs.Decoded.{vlans_said};
ghost use Rattle.pdu_words.specs.Events.{vid_line, vlan_lines};

use crate::words::{event_name, write_leaveall, write_malformed};
use mvrp_codec::{DecodeErr, MvrpPdu, decode};
use srp_base::{MrpEvent, NoMemory, Vid};
use std::alloc::{AllocError, Global};
use std::fmt::Write;

/// What octets say as a PDU of MVRP, or where they break.
pub(crate) fn write_octets(alloc: Global, out: &mut String, octets: &[u8]) -> Result<(), NoMemory>
    requires { length octets.now < 2 ^ 32 }
    ensures { OnOk result (string_bytes out.new
        ≡ string_bytes out.old ++ vlans_said (mvrp_reading octets.now)) }
{
    match decode(alloc, octets) {
        Ok(pdu) => Ok(write_pdu(out, &pdu)?),
        Err(DecodeErr::Malformed(place)) => Ok(write_malformed(out, place)?),
        Err(DecodeErr::NoMemory) => Err(NoMemory),
    }
}

// What a PDU says.
fn write_pdu(out: &mut String, pdu: &MvrpPdu) -> Result<(), AllocError>
    ensures { OnOk result (string_bytes out.new ≡ string_bytes out.old ++ vlan_lines pdu.now) }
{
    write_leaveall(out, pdu.leave_all)?;
    write_events(out, pdu.events.as_slice())
}

// The lines of these events.
fn write_events(out: &mut String, events: &[(MrpEvent, Vid)]) -> Result<(), AllocError>
    ensures { OnOk result (string_bytes out.new
        ≡ string_bytes out.old ++ flat_map vid_line events.now) }
{
    for event in events {
        write_event(out, event.0, event.1)?;
    }
    Ok(())
}

// The line of an event of a VID.
fn write_event(out: &mut String, event: MrpEvent, vid: Vid) -> Result<(), AllocError>
    ensures { OnOk result (string_bytes out.new ≡ string_bytes out.old ++ vid_line (event, vid)) }
{
    let name = event_name(event);
    let id = vid.get();
    writeln!(out, "{name} vid {id}")
}
