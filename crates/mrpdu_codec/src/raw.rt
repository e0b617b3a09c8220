//! A PDU in place: what was read of it, with the fields of its vectors borrowed from the octets.

ghost use Rattle.std.specs.Prelude.{◌≡◌, ◌≤◌, ◌++◌, length, take, map, IfOk, OnOk};
ghost use Rattle.std.specs.List.{flat_map, list_any};
ghost use Rattle.mrpdu_codec.specs.Octets.{event_numbered, three_events, four_params};
ghost use Rattle.mrpdu_codec.specs.Raw.{attr_in, attrs_in, message_in, leaves_in_place};

use crate::fields::count;
use crate::numbers::number;
use crate::pdu::{Message, Pdu, VectorAttr};
use srp_base::{MrpEvent, NoMemory, Seq};
use std::alloc::{AllocError, Global};

/// A vector's header and its three lists of octets (IEEE Std 802.1Q-2018, 10.8.1.2).
#[derive(Clone, Copy)]
pub struct RawVector<'a> {
    /// The first octet of the header.
    pub high: u8,
    /// The second octet of the header.
    pub low: u8,
    /// FirstValue.
    pub first: &'a [u8],
    /// ThreePackedEvents.
    pub three_packed: &'a [u8],
    /// FourPackedEvents, of a four-packed type.
    pub four_packed: &'a [u8],
}

/// A Message of a known type.
#[derive(Drop)]
pub struct RawMessage<'a> {
    /// AttributeType.
    pub kind: u8,
    /// The AttributeList.
    pub vectors: Vec<RawVector<'a>>,
}

/// An MRPDU (IEEE Std 802.1Q-2018, 10.8.1.2).
#[derive(Drop)]
pub struct RawPdu<'a> {
    /// ProtocolVersion.
    pub version: u8,
    /// The Messages of known types, in order.
    pub messages: Vec<RawMessage<'a>>,
}

impl RawVector<'_> {
    ghost use Rattle.mrpdu_codec.specs.Tree.{count};
    ghost use Rattle.mrpdu_codec.specs.Raw.{vector_in, attr_in};

    /// NumberOfValues.
    pub fn count(&self) -> usize
        ensures { result ≡ count (vector_in self.now) }
    {
        count(self.high, self.low)
    }

    /// LeaveAllEvent.
    pub fn leave_all(&self) -> bool
        ensures { result ≡ (attr_in self.now).leave_all }
    {
        0 < number(self.high, self.low) / 8192
    }
}

/// The event of a number from 0 to 5.
fn event_of(number: u8) -> MrpEvent
    ensures { result ≡ event_numbered number }
{
    match number {
        0 => MrpEvent::New,
        1 => MrpEvent::JoinIn,
        2 => MrpEvent::OnlyIn,
        3 => MrpEvent::JoinMt,
        4 => MrpEvent::OnlyMt,
        _ => MrpEvent::Lv,
    }
}

/// The three events of an octet of ThreePackedEvents (IEEE Std 802.1Q-2018, 10.8.2.10.1).
pub fn events_in(octet: u8) -> [MrpEvent; 3]
    ensures { result ≡ three_events octet }
{
    [
        event_of(octet / 36),
        event_of(octet / 6 % 6),
        event_of(octet % 6),
    ]
}

/// The four parameters of an octet of FourPackedEvents.
fn params_in(octet: u8) -> [u8; 4]
    ensures { result ≡ four_params octet }
{
    [octet / 64, octet / 16 % 4, octet / 4 % 4, octet % 4]
}

/// Puts items at the end of a list that has at most n, up to n in all.
#[tactic(auto, using(crate::proofs::Loops::take_behind))]
fn push_up_to<T: Copy>(items: &mut Vec<T>, n: usize, more: &[T]) -> Result<(), AllocError>
    requires { length items.old.items ≤ n }
    ensures ok { OnOk result (items.new.items ≡ take n (items.old.items ++ more.now)) }
    ensures at_most { OnOk result (length items.new.items ≤ n) }
{
    let room = more.len().min(n - items.len());
    items.extend_from_slice(&more[..room])
}

/// The first n events of packed octets.
fn events_of(alloc: Global, packed: &[u8], n: usize) -> Result<Vec<MrpEvent>, AllocError>
    ensures { IfOk result (λ v. v.items ≡ take n (flat_map three_events packed.now)) }
{
    let mut events = Vec::with_capacity(alloc, n)?;
    for octet in packed {
        push_up_to(&mut events, n, &events_in(*octet))?;
    }
    Ok(events)
}

/// The first n parameters of FourPackedEvents.
fn params_of(alloc: Global, fours: &[u8], n: usize) -> Result<Vec<u8>, AllocError>
    ensures { IfOk result (λ v. v.items ≡ take n (flat_map four_params fours.now)) }
{
    let mut params = Vec::with_capacity(alloc, n.min(fours.len().saturating_mul(4)))?;
    for octet in fours {
        push_up_to(&mut params, n, &params_in(*octet))?;
    }
    Ok(params)
}

/// What a vector says.
fn attr_of(alloc: Global, raw: &RawVector<'_>) -> Result<VectorAttr, AllocError>
    ensures { IfOk result (λ v. v ≡ attr_in raw.now) }
{
    let n = raw.count();
    let first = Vec::from_slice(alloc, raw.first)?;
    let events = events_of(alloc, raw.three_packed, n)?;
    let params = params_of(alloc, raw.four_packed, n)?;
    Ok(VectorAttr {
        leave_all: raw.leave_all(),
        first: Seq::from_vec(first),
        events: Seq::from_vec(events),
        params: Seq::from_vec(params),
    })
}

/// What vectors say.
fn attrs_of(alloc: Global, raws: &[RawVector<'_>]) -> Result<Vec<VectorAttr>, AllocError>
    ensures { IfOk result (λ v. v.items ≡ attrs_in raws.now) }
{
    let mut attrs = Vec::with_capacity(alloc, raws.len())?;
    for raw in raws {
        let attr = attr_of(alloc, raw)?;
        attrs.push(attr)?;
    }
    Ok(attrs)
}

/// What a Message says.
fn message_of(alloc: Global, raw: &RawMessage<'_>) -> Result<Message, AllocError>
    ensures { IfOk result (λ m. m ≡ message_in raw.now) }
{
    let vectors = attrs_of(alloc, &raw.vectors)?;
    Ok(Message {
        kind: raw.kind,
        vectors: Seq::from_vec(vectors),
    })
}

/// What Messages say.
fn messages_of(alloc: Global, raws: &[RawMessage<'_>]) -> Result<Vec<Message>, AllocError>
    ensures { IfOk result (λ v. v.items ≡ map message_in raws.now) }
{
    let mut messages = Vec::with_capacity(alloc, raws.len())?;
    for raw in raws {
        let message = message_of(alloc, raw)?;
        messages.push(message)?;
    }
    Ok(messages)
}

/// Whether a vector has a LeaveAllEvent.
fn any_leaves(raws: &[RawVector<'_>]) -> bool
    ensures { result ≡ list_any leaves_in_place raws.now }
{
    raws.iter().any(|v| v.leave_all())
}

/// Whether a Message has a LeaveAllEvent.
fn any_message_leaves(raws: &[RawMessage<'_>]) -> bool
    ensures { result ≡ list_any (λ m. list_any leaves_in_place m.vectors.items) raws.now }
{
    raws.iter().any(|m| any_leaves(&m.vectors))
}

impl RawPdu<'_> {
    ghost use Rattle.mrpdu_codec.specs.Shape.{has_leave_all};
    ghost use Rattle.mrpdu_codec.specs.Raw.{pdu_in};

    /// Whether a vector of any Message has a LeaveAllEvent, which then counts for all attributes of
    /// the application, and acts before all attribute events (IEEE Std 802.1Q-2018, 10.8.2).
    #[tactic(auto, using(crate::proofs::RawLemmas::leaves_meant))]
    pub fn has_leave_all(&self) -> bool
        ensures { result ≡ has_leave_all (pdu_in self.now) }
    {
        any_message_leaves(&self.messages)
    }

    /// What the PDU says, in memory of its own.
    ///
    /// # Errors
    ///
    /// `NoMemory` where memory for it runs out.
    pub fn to_pdu(&self, alloc: Global) -> Result<Pdu, NoMemory>
        ensures { IfOk result (λ pdu. pdu ≡ pdu_in self.now) }
    {
        let messages = messages_of(alloc, &self.messages)?;
        Ok(Pdu {
            version: self.version,
            messages: Seq::from_vec(messages),
        })
    }
}
