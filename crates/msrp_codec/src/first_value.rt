//! The value in the octets of a FirstValue.

ghost use Rattle.std.specs.Prelude.{◌≡◌, ◌≤◌, ◌<◌, ◌+◌, ◌/◌, ◌^◌, nat_le, length};
ghost use Rattle.msrp_codec.specs.FirstValue.{field, rank_of, talker_of, failure_of, first_value_of, talkers_fit, values_fit};
ghost use Rattle.msrp_codec.specs.AttributeType.{length_of};
ghost use Rattle.msrp_codec.specs.declared.attribute_type.AttributeType.TheVariants.{Domain};

use crate::attribute_type::AttributeType;
use mrpdu_codec::number_in;
use srp_base::{BridgeId, Failure, Mac, Priority, Rank, StreamId, Talker};

/// A FirstValue of MSRP (IEEE Std 802.1Q-2018, 35.2.2.8, 35.2.2.9).
#[derive(Clone, Copy)]
pub(crate) enum FirstValue {
    Advertise(Talker),
    Failed(Talker, Failure),
    Listener(StreamId),
    /// SRclassID, SRclassPriority and SRclassVID.
    Domain(u8, u8, u16),
}

/// The number in n octets at an offset.
fn field(octets: &[u8], at: usize, n: usize) -> u64
    requires within { at + n ≤ length octets.now }
    requires small { n ≤ 8 }
    ensures value { result ≡ field octets.now at n }
    ensures below { result < 256 ^ n }
{
    number_in(&octets[at..at + n])
}

/// The Rank bit.
fn rank_of(bit: u64) -> Rank
    ensures { result ≡ rank_of bit }
{
    if bit == 0 {
        Rank::Emergency
    } else {
        Rank::Normal
    }
}

/// The 48-bit destination address.
fn dest_of(first: &[u8]) -> Mac
    requires { 25 ≤ length first.now }
    ensures { result ≡ field first.now 8 6 }
{
    match Mac::new(field(first, 8, 6)) {
        Some(dest) => dest,
        None => unreachable!(),
    }
}

/// The three high bits of PriorityAndRank.
fn priority_of(first: &[u8]) -> Priority
    requires { 25 ≤ length first.now }
    ensures { result ≡ field first.now 20 1 / 32 }
{
    match Priority::new((field(first, 20, 1) / 32) as u8) {
        Some(priority) => priority,
        None => unreachable!(),
    }
}

/// A Talker, whether advertised or failed.
fn talker_of(first: &[u8]) -> Talker
    requires { 25 ≤ length first.now }
    ensures { result ≡ talker_of first.now }
{
    let dest = dest_of(first);
    let priority = priority_of(first);
    let rank = rank_of(field(first, 20, 1) / 16 % 2);
    Talker {
        stream: StreamId(field(first, 0, 8)),
        dest,
        vid: field(first, 14, 2) as u16,
        max_frame: field(first, 16, 2) as u16,
        frames: field(first, 18, 2) as u16,
        priority,
        rank,
        latency: field(first, 21, 4) as u32,
    }
}

/// Why a Talker failed.
fn failure_of(first: &[u8]) -> Failure
    requires { 34 ≤ length first.now }
    ensures { result ≡ failure_of first.now }
{
    Failure {
        bridge: BridgeId(field(first, 25, 8)),
        code: field(first, 33, 1) as u8,
    }
}

/// The values of a Domain.
fn domain_of(first: &[u8]) -> FirstValue
    requires { length first.now ≡ 4 }
    ensures { result ≡ first_value_of Domain first.now }
{
    match first {
        [class, priority, high, low] => {
            FirstValue::Domain(*class, *priority, u16::from(*high) * 256 + u16::from(*low))
        }
        _ => unreachable!(),
    }
}

/// A FirstValue of a type.
pub(crate) fn first_value_of(kind: AttributeType, first: &[u8]) -> FirstValue
    requires { length first.now ≡ length_of kind }
    ensures { result ≡ first_value_of kind first.now }
{
    match kind {
        AttributeType::Advertise => FirstValue::Advertise(talker_of(first)),
        AttributeType::Failed => FirstValue::Failed(talker_of(first), failure_of(first)),
        AttributeType::Listener => FirstValue::Listener(StreamId(field(first, 0, 8))),
        AttributeType::Domain => domain_of(first),
    }
}

/// Whether n consecutive Talkers stay within the StreamID and the destination address.
fn talkers_fit(t: &Talker, n: usize) -> bool
    requires { n ≤ 8191 }
    ensures { result ≡ talkers_fit t.now n }
{
    let stream = u128::from(t.stream.0) + n as u128;
    let dest = t.dest.get() + n as u64;
    stream <= 0x1_0000_0000_0000_0000 && dest <= 0x1_0000_0000_0000
}

impl FirstValue {
    /// Whether n consecutive values from this one on stay within the fields that are counted up.
    pub(crate) fn values_fit(&self, n: usize) -> bool
        requires { n ≤ 8191 }
        ensures { result ≡ values_fit self.now n }
    {
        match self {
            FirstValue::Advertise(t) => talkers_fit(t, n),
            FirstValue::Failed(t, _) => talkers_fit(t, n),
            FirstValue::Listener(stream) => streams_fit(*stream, n),
            FirstValue::Domain(class, priority, _) => {
                usize::from(*class) + n <= 256 && usize::from(*priority) + n <= 256
            }
        }
    }
}

/// Whether n consecutive StreamIDs stay within 64 bits.
fn streams_fit(stream: StreamId, n: usize) -> bool
    requires { n ≤ 8191 }
    ensures { result ≡ nat_le (stream.0 + n) (2 ^ 64) }
{
    u128::from(stream.0) + n as u128 <= 0x1_0000_0000_0000_0000
}
