//! A capture file, read from left to right.

ghost use Rattle.std.specs.Prelude.{◌≡◌, ◌-◌, option_map, ◌++◌, ◌<◌, ◌^◌, true, length, Some, None, Ok, Err, OnOk, IfErr, IfOk, ℕ, ◌≤◌};
ghost use Rattle.std.specs.List.{AllByRecursion};
ghost use Rattle.srp_base.specs.Results.{Gives};
ghost use Rattle.capture_file.specs.declared.capture.Capture.{Capture};
ghost use Rattle.capture_file.specs.Packets.{packets_in, capture_in};
ghost use Rattle.capture_file.specs.Pieces.{after, packets_meant, is_read_on};
ghost use Rattle.capture_file.specs.Grammar.{magic_in, magic_of, head_size, pcap_setting, head_link, setting_in, Spells, BreaksAt, HasOtherLink};
ghost use Rattle.capture_file.specs.Reading.{pieces_in, read_as, reading, cause_told, Refuses, meant_in, Answers};

use crate::capture::{Capture, Record};
use crate::error::CaptureErr;
use crate::numbers::{behind, field};
use crate::said::Said;
use crate::setting::{
    ByteOrder, FileForm, Interface, LinkType, Magic, Setting, link_numbered, units_of,
};
use srp_base::Seq;
use std::alloc::Global;

/// The form that the first octets tell in this byte order, if they tell one.
fn magic_in(order: ByteOrder, octets: &[u8]) -> Option<Magic>
    ensures { result ≡ magic_in order octets.now }
{
    let first = field(order, 0, octets);
    let (form, resolution) = if first == 0xa1b2c3d4 {
        (FileForm::Pcap, 6)
    } else if first == 0xa1b23c4d {
        (FileForm::Pcap, 9)
    } else if first == 0x0a0d0d0a && field(order, 8, octets) == 0x1a2b3c4d {
        (FileForm::Pcapng, 6)
    } else {
        return None;
    };
    Some(Magic {
        form,
        order,
        resolution,
    })
}

/// The form that the first octets tell, if they tell one.
#[tactic(auto, unfolding(crate::specs::Grammar::magic_of))]
fn magic_of(octets: &[u8]) -> Option<Magic>
    ensures { result ≡ magic_of octets.now }
{
    match magic_in(ByteOrder::Big, octets) {
        Some(magic) => Some(magic),
        None => magic_in(ByteOrder::Little, octets),
    }
}

/// How many octets a file's head takes.
fn head_size(form: FileForm) -> usize
    ensures { result ≡ head_size form }
{
    match form {
        FileForm::Pcap => 24,
        FileForm::Pcapng => 0,
    }
}

/// The setting of pcap: one interface.
fn pcap_setting(
    alloc: Global,
    magic: Magic,
    snap: u32,
    link: Option<LinkType>,
    number: u32,
) -> Result<Setting, CaptureErr>
    ensures { Gives (λ s. s) cause_told result (pcap_setting magic snap link number) }
{
    match link {
        None => Err(CaptureErr::OtherLink(number)),
        Some(link) => {
            let units = units_of(magic.resolution);
            let mut interfaces = Seq::new(alloc);
            interfaces.push(Interface { link, units, snap })?;
            Ok(Setting {
                form: FileForm::Pcap,
                order: magic.order,
                interfaces,
            })
        }
    }
}

/// The link type of pcap's head.
fn head_link(magic: Magic, octets: &[u8]) -> u32
    ensures { result ≡ head_link magic octets.now }
{
    field(magic.order, 20, octets) % 0x1000_0000
}

/// The setting behind a file's head.
#[tactic(auto, unfolding(crate::specs::Grammar::setting_in))]
fn setting_in(alloc: Global, magic: Magic, octets: &[u8]) -> Result<Setting, CaptureErr>
    ensures { Gives (λ s. s) cause_told result (setting_in magic octets.now) }
{
    match magic.form {
        FileForm::Pcap => {
            let snap = field(magic.order, 16, octets);
            let number = head_link(magic, octets);
            pcap_setting(alloc, magic, snap, link_numbered(number), number)
        }
        FileForm::Pcapng => Ok(Setting {
            form: FileForm::Pcapng,
            order: magic.order,
            interfaces: Seq::new(alloc),
        }),
    }
}

/// Takes what a piece says: one more record, or what it changes of the setting.
fn take<'a>(
    alloc: Global,
    setting: &mut Setting,
    records: &mut Vec<Record<'a>>,
    said: Said<'a>,
) -> Result<(), CaptureErr>
    ensures setting { OnOk result (setting.new ≡ after setting.old (meant_in said.entry)) }
    ensures records { OnOk result (packets_in records.new.items
        ≡ packets_in records.old.items ++ packets_meant (meant_in said.entry)) }
    ensures on { OnOk result (is_read_on (meant_in said.entry) ≡ true) }
    ensures err { IfErr result (λ e. Refuses e (meant_in said.entry)) }
{
    match said {
        Said::Frame(record) => Ok(records.push(record)?),
        Said::Section(order) => {
            setting.order = order;
            setting.interfaces = Seq::new(alloc);
            Ok(())
        }
        Said::Described(interface) => Ok(setting.interfaces.push(interface)?),
        Said::OtherLink(number) => Err(CaptureErr::OtherLink(number)),
        Said::PassedOver => Ok(()),
    }
}

/// The records from a setting on, and how many octets are left where a piece isn't whole.
fn read_pieces(
    alloc: Global,
    setting: Setting,
    octets: &[u8],
) -> Result<(Vec<Record<'_>>, Option<usize>), CaptureErr>
    ensures { Gives (λ x. (packets_in x.0.items, x.1)) cause_told result
        (pieces_in 0 setting octets.now) }
{
    let mut records = Vec::new(alloc);
    let mut now = setting;
    let mut rest = octets;
    'more: while !rest.is_empty() {
        match now.piece(rest) {
            None => return Ok((records, Some(rest.len()))),
            Some((said, size)) => {
                take(alloc, &mut now, &mut records, said)?;
                rest = behind(rest, size);
            }
        }
    }
    Ok((records, None))
}

/// The records of a file, and how many octets are left where its head or a piece isn't whole.
fn read_file(alloc: Global, octets: &[u8]) -> Result<(Vec<Record<'_>>, Option<usize>), CaptureErr>
    ensures { Gives (λ x. (packets_in x.0.items, x.1)) cause_told result
        (read_as (magic_of octets.now) octets.now) }
{
    let Some(magic) = magic_of(octets) else {
        return Err(CaptureErr::NotCapture);
    };
    let size = head_size(magic.form);
    if octets.len() < size {
        return Ok((Vec::new(alloc), Some(octets.len())));
    }
    let setting = setting_in(alloc, magic, octets)?;
    read_pieces(alloc, setting, behind(octets, size))
}

/// The place behind which so many octets are left, of all.
fn placed(all: usize, left: Option<usize>) -> Option<u32>
    requires { all < 2 ^ 32 }
    ensures { result ≡ option_map (λ n. all - n) left }
{
    match left {
        Some(left) => Some(all.saturating_sub(left) as u32),
        None => None,
    }
}

/// The frames of a capture file, read in one pass, with their octets borrowed from the file's. The
/// file is pcap (draft-ietf-opsawg-pcap), in µs or ns, or pcapng (draft-ietf-opsawg-pcapng), in
/// either byte order. There are fewer than 2^32 octets.
///
/// In pcap the versions, the zone, the accuracy and the snap length aren't looked at, and the link
/// type is the low 28 bits of its field. In pcapng sections, interfaces, enhanced and simple packet
/// blocks are read, and all other blocks passed over by their length. An interface has its
/// resolution by option 9, or µs; its other options aren't looked at. A simple packet block has no
/// moment, so its frame has 0.
///
/// Moments stand as the file has them, also where they go back. One that doesn't fit, past 2^64 - 1
/// ns, is 2^64 - 1, and one finer than a ns is rounded down.
///
/// The file breaks off, at the offset `broken`, where its head, a record or a block isn't whole:
/// where the octets are too few for it, where a captured length is above the original one, where
/// the length of a block is below 12, no multiple of 4, or not the same at its end, where a fixed
/// part or an option of a block that is read passes its end, where a section has no byte-order
/// magic, or where a frame's interface isn't there. All records before it are in `records`.
///
/// # Errors
///
/// `NotCapture` where the octets begin as neither form; in pcapng the byte-order magic tells too.
/// `OtherLink` carries the number of the first link type that isn't read: that of pcap's head, or
/// of an interface. `NoMemory` where memory for the records runs out.
pub fn read_capture(alloc: Global, octets: &[u8]) -> Result<Capture<'_>, CaptureErr>
    requires { length octets.now < 2 ^ 32 }

    // What it answers holds.
    ensures reads { (capture : Capture) → result ≡ Ok capture → capture.broken ≡ None
        → Spells octets.now (packets_in capture.records.items) }
    ensures broken { (capture : Capture) (place : ℕ)
        → result ≡ Ok capture → capture.broken ≡ Some place
        → BreaksAt octets.now (packets_in capture.records.items) place }
    ensures not_capture { result ≡ Err CaptureErr.NotCapture → magic_of octets.now ≡ None }
    ensures other_link { (number : ℕ) → result ≡ Err (CaptureErr.OtherLink number)
        → HasOtherLink octets.now number }

    // A frame has no more octets than the file.
    ensures within { IfOk result (λ capture. AllByRecursion
        (λ r. length r.octets.now ≤ length octets.now) capture.records.items) }

    // Want of memory alone is free: else the answer is the reading, which the law
    // `reading_is_the_grammar` says is what the octets spell, where they break off, or why they are
    // no capture.
    ensures exact { Answers result (reading octets.now) }
{
    let (records, left) = read_file(alloc, octets)?;
    let broken = placed(octets.len(), left);
    Ok(Capture { records, broken })
}
