//! The records of PDUs.

ghost use Rattle.std.specs.Prelude.{◌≡◌, ◌≤◌, ◌++◌, OnOk};
ghost use Rattle.capture_file.specs.declared.setting.ByteOrder.TheVariants.{Big};
ghost use Rattle.capture_file.specs.Writing.{record_text};
ghost use Rattle.node_core.specs.Wires.{IsShort, AreShort};
ghost use Rattle.link_capture.specs.Crossings.{crossing, sent_by};
ghost use Rattle.link_capture.specs.Captured.{form_of, address_of, packet_of, records_of};

use capture_file::{ByteOrder, LinkType, Record, put_record};
use mrp_frames::{put_frame, what_is_written_is_seen};
use mrpdu_codec::AppForm;
use node_core::Wire;
use srp_base::{App, EgressPort, Mac, NoMemory};

/// The form of an application's PDUs.
fn form_of(app: App) -> AppForm
    ensures { result ≡ form_of app }
{
    match app {
        App::Mvrp => AppForm::Mvrp,
        App::Msrp => AppForm::Msrp,
    }
}

/// The address from which a port sends.
fn address_of(at: EgressPort) -> Mac
    ensures { result ≡ address_of at }
{
    let number = 0x0200_0000_0000 + u64::from(at.node.0) * 256 + u64::from(at.port.0);
    match Mac::new(number) {
        Some(address) => address,
        None => unreachable!(),
    }
}

/// Writes the record of a PDU that a port sends in tick t.
fn put_pdu(out: &mut Vec<u8>, t: u64, from: EgressPort, wire: &Wire) -> Result<(), NoMemory>
    requires moment { t ≤ 12000 }
    requires short { IsShort wire.now }
    ensures { OnOk result (out.new.items
        ≡ out.old.items ++ record_text Big (packet_of (crossing t from wire.now))) }
{
    what_is_written_is_seen();
    let mut frame = Vec::new(*out.allocator());
    put_frame(
        &mut frame,
        form_of(wire.app),
        address_of(from),
        wire.octets.as_slice(),
    )?;
    let kept = Record {
        link: LinkType::Ethernet,
        at_ns: t * 10_000_000,
        whole: frame.len() as u32,
        octets: frame.as_slice(),
    };
    put_record(out, ByteOrder::Big, &kept)
}

/// Writes the records of PDUs that a port sends in tick t.
pub(crate) fn put_pdus(
    out: &mut Vec<u8>,
    t: u64,
    from: EgressPort,
    wires: &[Wire],
) -> Result<(), NoMemory>
    requires moment { t ≤ 12000 }
    requires short { AreShort wires.now }
    ensures { OnOk result (out.new.items
        ≡ out.old.items ++ records_of (sent_by t from wires.now)) }
{
    for wire in wires {
        put_pdu(out, t, from, wire)?;
    }
    Ok(())
}
