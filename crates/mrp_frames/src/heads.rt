//! What stands in front of a PDU, by the link type.

ghost use Rattle.std.specs.Prelude.{◌≡◌};
ghost use Rattle.mrp_frames.specs.Heads.{head_size, type_at, address_at, app_of, is_tag};

use capture_file::LinkType;
use mrpdu_codec::AppForm;

/// How many octets a head takes.
pub(crate) fn head_size(link: LinkType) -> usize
    ensures { result ≡ head_size link }
{
    match link {
        LinkType::Ethernet => 14,
        LinkType::Cooked => 16,
        LinkType::CookedV2 => 20,
    }
}

/// The offset of the EtherType in a head.
pub(crate) fn type_at(link: LinkType) -> usize
    ensures { result ≡ type_at link }
{
    match link {
        LinkType::Ethernet => 12,
        LinkType::Cooked => 14,
        LinkType::CookedV2 => 0,
    }
}

/// The offset of the source address in a head.
pub(crate) fn address_at(link: LinkType) -> usize
    ensures { result ≡ address_at link }
{
    match link {
        LinkType::Ethernet | LinkType::Cooked => 6,
        LinkType::CookedV2 => 12,
    }
}

/// The application of an EtherType; None exactly for those of none.
pub(crate) fn app_of(number: u16) -> Option<AppForm>
    ensures { result ≡ app_of number }
{
    match number {
        0x88f5 => Some(AppForm::Mvrp),
        0x22ea => Some(AppForm::Msrp),
        0x88f6 => Some(AppForm::Mmrp),
        _ => None,
    }
}

/// Whether an EtherType is a tag's.
pub(crate) fn is_tag(number: u16) -> bool
    ensures { result ≡ is_tag number }
{
    number == 0x8100 || number == 0x88a8
}
