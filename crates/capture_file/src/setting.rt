//! What holds for the records of a file, or of an interface in it: byte order, link type, clock.

ghost use Rattle.std.specs.Prelude.{◌≡◌};
ghost use Rattle.capture_file.specs.Settings.{link_numbered, per_second, units_of, moment};

use srp_base::Seq;

/// The order of the octets of a number.
#[derive(Clone, Copy, Debug, PartialEq, Eq)]
pub enum ByteOrder {
    /// The low octet first.
    Little,
    /// The high octet first.
    Big,
}

/// The two forms of capture files.
#[derive(Clone, Copy, Debug, PartialEq, Eq)]
pub enum FileForm {
    /// A head, and records (draft-ietf-opsawg-pcap).
    Pcap,
    /// Blocks (draft-ietf-opsawg-pcapng).
    Pcapng,
}

/// What stands in front of the payload of a frame: the link types whose frames are read.
#[derive(Clone, Copy, Debug, PartialEq, Eq)]
pub enum LinkType {
    /// 1: addresses and EtherType.
    Ethernet,
    /// 113: the 16 octets of Linux's cooked capture.
    Cooked,
    /// 276: the 20 octets of its second version.
    CookedV2,
}

/// What the first octets of a file tell.
#[derive(Clone, Copy, Debug, PartialEq, Eq)]
pub struct Magic {
    /// The file's form.
    pub form: FileForm,
    /// The byte order of its numbers, in pcapng of its first section's.
    pub order: ByteOrder,
    /// The octet of its resolution: 6 for µs, 9 for ns. In pcapng each interface has its own.
    pub resolution: u8,
}

/// An interface on which frames were captured.
#[derive(Clone, Copy, Debug, PartialEq, Eq)]
pub struct Interface {
    /// What its frames begin with.
    pub link: LinkType,
    /// How many units of time make a second; 2^128 - 1 where more.
    pub units: u128,
    /// How many octets are kept of a frame at most; 0 where all are.
    pub snap: u32,
}

/// How the octets from a place on are read.
#[derive(Drop)]
pub struct Setting {
    /// The file's form.
    pub form: FileForm,
    /// The byte order of its numbers.
    pub order: ByteOrder,
    /// The interfaces so far, of the section in pcapng.
    pub interfaces: Seq<Interface>,
}

/// The link type of a number; None exactly for those that aren't read.
pub(crate) fn link_numbered(number: u32) -> Option<LinkType>
    ensures { result ≡ link_numbered number }
{
    match number {
        1 => Some(LinkType::Ethernet),
        113 => Some(LinkType::Cooked),
        276 => Some(LinkType::CookedV2),
        _ => None,
    }
}

/// How many units of time make a second, by the octet of a resolution: 10^k, or 2^k where the octet
/// is 128 + k. A number from 2^128 on counts as 2^128 - 1.
pub(crate) fn units_of(resolution: u8) -> u128
    ensures { result ≡ units_of resolution }
{
    if resolution < 128 {
        10u128.saturating_pow(u32::from(resolution))
    } else {
        2u128.saturating_pow(u32::from(resolution - 128))
    }
}

/// A moment in ns, of whole seconds and units of time.
pub(crate) fn moment(units: u128, seconds: u32, ticks: u64) -> u64
    ensures { result ≡ moment units seconds ticks }
{
    let ns = (u128::from(ticks) * 1_000_000_000)
        .checked_div(units)
        .unwrap_or(0);
    (u128::from(seconds) * 1_000_000_000)
        .saturating_add(ns)
        .min(u128::from(u64::MAX)) as u64
}
