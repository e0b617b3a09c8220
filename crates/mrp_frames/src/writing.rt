//! A frame of MRP, written.

ghost use Rattle.std.specs.Prelude.{◌≡◌, ◌++◌, OnOk};
ghost use Rattle.mrp_frames.specs.Writing.{group_of, type_of, padding_of, frame_text};

use mrpdu_codec::{AppForm, put_number};
use srp_base::{Mac, NoMemory};

/// The address to which an application sends.
fn group_of(app: AppForm) -> u64
    ensures { result ≡ group_of app }
{
    match app {
        AppForm::Mvrp => 0x0180_c200_0021,
        AppForm::Msrp => 0x0180_c200_000e,
        AppForm::Mmrp => 0x0180_c200_0020,
    }
}

/// The EtherType of an application.
fn type_of(app: AppForm) -> u64
    ensures { result ≡ type_of app }
{
    match app {
        AppForm::Mvrp => 0x88f5,
        AppForm::Msrp => 0x22ea,
        AppForm::Mmrp => 0x88f6,
    }
}

/// Writes a PDU with the octets that fill it up to 46.
fn put_padded(out: &mut Vec<u8>, pdu: &[u8]) -> Result<(), NoMemory>
    ensures { OnOk result (out.new.items ≡ out.old.items ++ (pdu.now ++ padding_of pdu.now)) }
{
    out.extend_from_slice(pdu)?;
    let size = out.len() + 46usize.saturating_sub(pdu.len());
    out.resize(size, 0)?;
    Ok(())
}

/// Writes the frame of Ethernet, without its check sequence, in which a PDU of an application goes
/// out from an address, at the end of `out`: to the group address of the application, with its
/// EtherType and no tag, filled up with zeros to 60 octets.
///
/// # Errors
///
/// `NoMemory` where memory for the octets runs out; `out` then may have some of them at its end.
pub fn put_frame(out: &mut Vec<u8>, app: AppForm, address: Mac, pdu: &[u8]) -> Result<(), NoMemory>
    ensures { OnOk result (out.new.items ≡ out.old.items ++ frame_text app address pdu.now) }
{
    put_number(out, group_of(app), 6)?;
    put_number(out, address.get(), 6)?;
    put_number(out, type_of(app), 2)?;
    put_padded(out, pdu)?;
    Ok(())
}
