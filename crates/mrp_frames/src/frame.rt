//! A frame of MRP, read from left to right.

ghost use Rattle.std.specs.Prelude.{◌≡◌, ◌<◌, ◌≤◌, ◌^◌, [], ◌∷◌, length, drop, option_map, IfSome};
ghost use Rattle.capture_file.specs.Packets.{packet_in};
ghost use Rattle.srp_base.specs.Hexadecimal.{number_high_first};
ghost use Rattle.mrp_frames.specs.Heads.{first_two, first_six};
ghost use Rattle.mrp_frames.specs.Frames.{seen_in, next_type, told, pdu_behind, framed, frame_in};

use crate::heads::{address_at, app_of, head_size, is_tag, type_at};
use capture_file::Record;
use mrpdu_codec::AppForm;
use srp_base::Mac;

/// A frame of MRP.
#[derive(Clone, Copy)]
pub struct MrpFrame<'a> {
    /// The source address; of a cooked head, the first six octets of its field.
    pub address: Mac,
    /// The application whose PDU it carries, by its EtherType.
    pub app: AppForm,
    /// The octets behind the EtherType: the PDU, and what may stand behind its EndMark.
    pub pdu: &'a [u8],
}

/// The octets from an offset on; none past the end.
fn behind(octets: &[u8], at: usize) -> &[u8]
    ensures { result.now ≡ drop at octets.now }
{
    &octets[at.min(octets.len())..]
}

/// The number in the first two octets, or 0 where there are fewer.
#[tactic(auto, unfolding(crate::specs::Heads::first_two))]
fn first_two(octets: &[u8]) -> u16
    ensures { result ≡ first_two octets.now }
{
    match octets {
        [a, b, ..] => u16::from(*a) * 256 + u16::from(*b),
        _ => 0,
    }
}

/// The number of six octets, the first of them the highest.
fn six(a: u8, b: u8, c: u8, d: u8, e: u8, f: u8) -> u64
    ensures value { result ≡ number_high_first (a ∷ b ∷ c ∷ d ∷ e ∷ f ∷ []) }
    ensures small { result < 2 ^ 48 }
{
    let high = (u64::from(a) * 256 + u64::from(b)) * 256 + u64::from(c);
    let low = (u64::from(d) * 256 + u64::from(e)) * 256 + u64::from(f);
    high * 16_777_216 + low
}

/// The address in the first six octets; None where there are fewer.
#[tactic(auto, unfolding(crate::specs::Heads::first_six))]
fn first_six(octets: &[u8]) -> Option<Mac>
    ensures { result ≡ first_six octets.now }
{
    match octets {
        [a, b, c, d, e, f, ..] => Mac::new(six(*a, *b, *c, *d, *e, *f)),
        _ => None,
    }
}

/// The EtherType behind a tag's two octets, and what stands behind it; None where the octets end.
#[tactic(auto, unfolding(crate::specs::Frames::next_type))]
fn next_type(octets: &[u8]) -> Option<(u16, &[u8])>
    ensures { option_map (λ x. (x.0, x.1.now)) result ≡ next_type octets.now }
{
    match octets {
        [_, _, a, b, rest @ ..] => Some((u16::from(*a) * 256 + u16::from(*b), rest)),
        _ => None,
    }
}

/// What stands behind an EtherType that is no tag's.
fn told(app: Option<AppForm>, octets: &[u8]) -> Option<(AppForm, &[u8])>
    ensures { option_map (λ x. (x.0, x.1.now)) result ≡ told app octets.now }
{
    match app {
        None => None,
        Some(app) => Some((app, octets)),
    }
}

/// Behind an EtherType and the tags that it begins: the application and its PDU; None where another
/// EtherType stands there, or the octets end within a tag.
#[tactic(auto, using(crate::proofs::Behind::tag_passed, crate::proofs::Behind::tag_shortens, crate::proofs::Behind::tag_cut, crate::proofs::Behind::no_tag))]
fn pdu_behind(number: u16, octets: &[u8]) -> Option<(AppForm, &[u8])>
    ensures { option_map (λ x. (x.0, x.1.now)) result ≡ pdu_behind number octets.now }
{
    let mut number = number;
    let mut rest = octets;
    'more: while is_tag(number) {
        match next_type(rest) {
            None => return None,
            Some((next, more)) => {
                number = next;
                rest = more;
            }
        }
    }
    told(app_of(number), rest)
}

/// The frame behind a head.
fn framed<'a>(source: Option<Mac>, behind: Option<(AppForm, &'a [u8])>) -> Option<MrpFrame<'a>>
    ensures { option_map seen_in result
        ≡ framed source (option_map (λ x. (x.0, x.1.now)) behind.entry) }
{
    let address = source?;
    let (app, pdu) = behind?;
    Some(MrpFrame { address, app, pdu })
}

/// The frame of MRP that a record has; None where its EtherType, behind tags of 8100 and 88a8, is
/// none of MRP's, or where the octets that were captured end before it.
///
/// A record may have fewer octets than its frame had: its PDU is then cut.
#[tactic(auto, unfolding(crate::specs::Frames::frame_in))]
pub fn frame_of<'a>(record: &Record<'a>) -> Option<MrpFrame<'a>>
    ensures exact { option_map seen_in result ≡ frame_in (packet_in record.now) }
    ensures within { IfSome result (λ f. length f.pdu.now ≤ length record.now.octets.now) }
{
    let octets = record.octets;
    let size = head_size(record.link);
    if octets.len() < size {
        return None;
    }
    let source = first_six(behind(octets, address_at(record.link)));
    let number = first_two(behind(octets, type_at(record.link)));
    framed(source, pdu_behind(number, behind(octets, size)))
}
