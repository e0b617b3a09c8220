//! Records and blocks: how long each is, and what it says.

ghost use Rattle.std.specs.Prelude.{◌≡◌, ◌≤◌, ◌-◌, length, take, drop, option_map, slice_get, IfSome};
ghost use Rattle.capture_file.specs.Settings.{link_numbered};
ghost use Rattle.capture_file.specs.Pieces.{is_section, section_order, order_in, frame_of, record_meant, section_meant, described, interface_options, interface_meant, enhanced_fits, enhanced_meant, kept, simple_frame, simple_meant, block_meant, meaning};
ghost use Rattle.capture_file.specs.Reading.{record_size, block_size, size_of, piece_at, meant_in};

use crate::capture::Record;
use crate::numbers::{behind, field, half};
use crate::options::resolution_in;
use crate::said::Said;
use crate::setting::{
    ByteOrder, FileForm, Interface, LinkType, Setting, link_numbered, moment, units_of,
};

/// How many octets the record takes that begins here, if it is whole.
#[tactic(auto, unfolding(crate::specs::Reading::record_size))]
fn record_size(order: ByteOrder, octets: &[u8]) -> Option<usize>
    ensures size { result ≡ record_size order octets.now }
    ensures within { IfSome result (λ n. n ≤ length octets.now) }
{
    let captured = field(order, 8, octets);
    let size = 16 + captured as usize;
    if captured <= field(order, 12, octets) && size <= octets.len() {
        Some(size)
    } else {
        None
    }
}

/// How many octets the block takes that begins here, if it is whole.
#[tactic(auto, unfolding(crate::specs::Reading::block_size))]
fn block_size(order: ByteOrder, octets: &[u8]) -> Option<usize>
    ensures size { result ≡ block_size order octets.now }
    ensures within { IfSome result (λ n. n ≤ length octets.now) }
{
    let size = field(order, 4, octets) as usize;
    if size < 12 || size % 4 != 0 || octets.len() < size {
        return None;
    }
    if field(order, size - 4, octets) as usize != size {
        return None;
    }
    Some(size)
}

/// Whether a section header block begins here.
fn is_section(octets: &[u8]) -> bool
    ensures { result ≡ is_section octets.now }
{
    field(ByteOrder::Big, 0, octets) == 0x0a0d0d0a
}

/// The byte order of a section.
fn section_order(octets: &[u8]) -> ByteOrder
    ensures { result ≡ section_order octets.now }
{
    if field(ByteOrder::Little, 8, octets) == 0x1a2b3c4d {
        ByteOrder::Little
    } else {
        ByteOrder::Big
    }
}

/// A frame of an interface, if that is there.
fn frame_of<'a>(
    interface: Option<Interface>,
    seconds: u32,
    ticks: u64,
    whole: u32,
    octets: &'a [u8],
) -> Option<Said<'a>>
    ensures { option_map meant_in result
        ≡ frame_of interface seconds ticks whole octets.now }
{
    let interface = interface?;
    Some(Said::Frame(Record {
        link: interface.link,
        at_ns: moment(interface.units, seconds, ticks),
        whole,
        octets,
    }))
}

/// What a section header block says.
fn section<'a>(order: ByteOrder, text: &'a [u8]) -> Option<Said<'a>>
    ensures { option_map meant_in result ≡ section_meant order text.now }
{
    if 28 <= text.len() && field(order, 8, text) == 0x1a2b3c4d {
        Some(Said::Section(order))
    } else {
        None
    }
}

/// An interface of this link type and number, if its options are whole.
fn described<'a>(
    link: Option<LinkType>,
    number: u16,
    snap: u32,
    resolution: Option<u8>,
) -> Option<Said<'a>>
    ensures { option_map meant_in result ≡ described link number snap resolution }
{
    match link {
        None => Some(Said::OtherLink(u32::from(number))),
        Some(link) => {
            let resolution = resolution?;
            Some(Said::Described(Interface {
                link,
                units: units_of(resolution),
                snap,
            }))
        }
    }
}

/// The options of an interface description block.
fn interface_options(text: &[u8]) -> &[u8]
    ensures { result.now ≡ interface_options text.now }
{
    let rest = behind(text, 16);
    &rest[..text.len().saturating_sub(20).min(rest.len())]
}

/// What an interface description block says.
fn interface<'a>(order: ByteOrder, text: &'a [u8]) -> Option<Said<'a>>
    ensures { option_map meant_in result ≡ interface_meant order text.now }
{
    if text.len() < 20 {
        return None;
    }
    let number = half(order, 8, text);
    let resolution = resolution_in(order, interface_options(text));
    described(
        link_numbered(u32::from(number)),
        number,
        field(order, 12, text),
        resolution,
    )
}

/// Whether the captured octets of an enhanced packet block are no more than the frame had, and
/// stand in the block.
fn enhanced_fits(order: ByteOrder, text: &[u8]) -> bool
    ensures { result ≡ enhanced_fits order text.now }
{
    let captured = field(order, 20, text);
    captured <= field(order, 24, text) && captured as usize + 32 <= text.len()
}

/// How many octets an interface keeps of a frame.
fn kept(snap: u32, whole: u32) -> u32
    ensures { result ≡ kept snap whole }
{
    if snap == 0 { whole } else { snap.min(whole) }
}

/// Up to so many octets from an offset on.
fn octets_at(text: &[u8], at: usize, size: u32) -> &[u8]
    ensures { result.now ≡ take size (drop at text.now) }
{
    let rest = behind(text, at);
    &rest[..(size as usize).min(rest.len())]
}

/// A frame of an interface in a simple packet block.
fn simple_frame<'a>(interface: Option<Interface>, whole: u32, text: &'a [u8]) -> Option<Said<'a>>
    ensures { option_map meant_in result
        ≡ simple_frame interface whole text.now }
{
    let found = interface?;
    let captured = kept(found.snap, whole);
    if captured as usize + 16 <= text.len() {
        frame_of(Some(found), 0, 0, whole, octets_at(text, 12, captured))
    } else {
        None
    }
}

impl Setting {
    /// The byte order of the block that begins here.
    fn order_in(&self, octets: &[u8]) -> ByteOrder
        ensures { result ≡ order_in self.now octets.now }
    {
        if is_section(octets) {
            section_order(octets)
        } else {
            self.order
        }
    }

    /// How many octets the piece takes that begins here, if it is whole.
    fn size_of(&self, octets: &[u8]) -> Option<usize>
        ensures size { result ≡ size_of self.now.form self.now octets.now }
        ensures within { IfSome result (λ n. n ≤ length octets.now) }
    {
        match self.form {
            FileForm::Pcap => record_size(self.order, octets),
            FileForm::Pcapng => block_size(self.order_in(octets), octets),
        }
    }

    /// The interface of a number.
    fn interface(&self, number: u32) -> Option<Interface>
        ensures { result ≡ slice_get self.now.interfaces number }
    {
        self.interfaces.as_slice().get(number as usize).copied()
    }

    /// What a record of pcap says.
    fn record<'a>(&self, text: &'a [u8]) -> Option<Said<'a>>
        ensures { option_map meant_in result ≡ record_meant self.now text.now }
    {
        let order = self.order;
        frame_of(
            self.interface(0),
            field(order, 0, text),
            u64::from(field(order, 4, text)),
            field(order, 12, text),
            behind(text, 16),
        )
    }

    /// What an enhanced packet block says.
    fn enhanced<'a>(&self, order: ByteOrder, text: &'a [u8]) -> Option<Said<'a>>
        ensures { option_map meant_in result ≡ enhanced_meant order self.now text.now }
    {
        if !enhanced_fits(order, text) {
            return None;
        }
        let high = u64::from(field(order, 12, text));
        let low = u64::from(field(order, 16, text));
        frame_of(
            self.interface(field(order, 8, text)),
            0,
            high * 0x1_0000_0000 + low,
            field(order, 24, text),
            octets_at(text, 28, field(order, 20, text)),
        )
    }

    /// What a simple packet block says.
    fn simple<'a>(&self, order: ByteOrder, text: &'a [u8]) -> Option<Said<'a>>
        ensures { option_map meant_in result ≡ simple_meant order self.now text.now }
    {
        simple_frame(self.interface(0), field(order, 8, text), text)
    }

    /// What a block says.
    fn block<'a>(&self, order: ByteOrder, text: &'a [u8]) -> Option<Said<'a>>
        ensures { option_map meant_in result ≡ block_meant order self.now text.now }
    {
        match field(order, 0, text) {
            0x0a0d0d0a => section(order, text),
            1 => interface(order, text),
            6 => self.enhanced(order, text),
            3 => self.simple(order, text),
            _ => Some(Said::PassedOver),
        }
    }

    /// What a piece says, if its fields keep their rules.
    #[tactic(auto, unfolding(crate::specs::Pieces::meaning_of))]
    fn said<'a>(&self, text: &'a [u8]) -> Option<Said<'a>>
        ensures { option_map meant_in result ≡ meaning self.now text.now }
    {
        match self.form {
            FileForm::Pcap => self.record(text),
            FileForm::Pcapng => self.block(self.order_in(text), text),
        }
    }

    /// What the piece says that begins here, and how many octets it takes, if it is whole.
    #[tactic(auto, unfolding(crate::specs::Reading::piece_at))]
    pub(crate) fn piece<'a>(&self, octets: &'a [u8]) -> Option<(Said<'a>, usize)>
        ensures { option_map (λ x. (meant_in x.0, x.1)) result ≡ piece_at self.now octets.now }
    {
        let size = self.size_of(octets)?;
        let said = self.said(&octets[..size])?;
        Some((said, size))
    }
}
