//! Values that change in one PDU.

ghost use Rattle.std.specs.Prelude.{◌≡◌, ◌++◌, ◌||◌, not, filter, Some, IfOk, OnOk};
ghost use Rattle.std.specs.BTreeMap.{get};
ghost use Rattle.std.specs.List.{list_any};
ghost use Rattle.mrp_participant.specs.Sending.{is_leave as is_leave_spec};
ghost use Rattle.msrp.specs.Part.{key_cmp, same_content};
ghost use Rattle.replay_words.specs.Replaced.{has_value as has_value_spec, declares_other, is_other, is_replaced_by, without_replaced};

use crate::doubles::{StreamEvent, is_declaring};
use msrp_codec::{MsrpContent, MsrpKey};
use srp_base::{MrpEvent, NoMemory, Seq};
use std::alloc::Global;
use std::collections::BTreeMap;

/// What the events of a PDU declare of a key: a content, and whether there are others.
#[derive(Clone, Copy)]
struct KeyContents {
    content: MsrpContent,
    others: bool,
}

/// The events of a PDU without those that withdraw a value of a Talker or a Domain of which the PDU
/// declares another: what is declared stands in its place.
pub(crate) fn without_replaced(
    alloc: Global,
    events: &[StreamEvent],
) -> Result<Seq<StreamEvent>, NoMemory>
    ensures { IfOk result (λ kept. kept ≡ without_replaced events.now) }
{
    let declared = declared(alloc, events)?;
    let mut kept = Vec::new(alloc);
    keep(&mut kept, &declared, events)?;
    Ok(Seq::from_vec(kept))
}

// Puts the events at the end of a list that withdraw no value of which another is declared.
fn keep(
    kept: &mut Vec<StreamEvent>,
    declared: &BTreeMap<MsrpKey, KeyContents>,
    events: &[StreamEvent],
) -> Result<(), NoMemory>
    ensures { OnOk result (kept.new.items ≡ kept.old.items
        ++ filter (λ e. not (is_replaced_by declared.now e)) events.now) }
{
    for event in events {
        if is_replaced(declared, event) {
            continue;
        }
        kept.push(*event)?;
    }
    Ok(())
}

// Whether an event withdraws a value of a Talker or a Domain of which another is declared.
fn is_replaced(declared: &BTreeMap<MsrpKey, KeyContents>, event: &StreamEvent) -> bool
    ensures { result ≡ is_replaced_by declared.now event.now }
{
    is_leave(event.0) && has_value(event.1) && is_other(kept_of(declared, event.1), event.2)
}

// What is kept of a key.
fn kept_of(declared: &BTreeMap<MsrpKey, KeyContents>, key: MsrpKey) -> Option<KeyContents>
    ensures { result ≡ get key_cmp declared.now key }
{
    declared.get(&key).copied()
}

// Whether another content than one is declared of a key.
fn is_other(declared: Option<KeyContents>, content: MsrpContent) -> bool
    ensures { result ≡ is_other declared content }
{
    match declared {
        Some(declared) => declared.others || declared.content != content,
        None => false,
    }
}

// Whether the content of a key is part of the attribute.
fn has_value(key: MsrpKey) -> bool
    ensures { result ≡ has_value_spec key }
{
    match key {
        MsrpKey::Talker(_) | MsrpKey::Domain(_) => true,
        MsrpKey::Listener(_) => false,
    }
}

// Whether an event withdraws its attribute.
fn is_leave(event: MrpEvent) -> bool
    ensures { result ≡ is_leave_spec event }
{
    match event {
        MrpEvent::New | MrpEvent::JoinIn | MrpEvent::JoinMt => false,
        MrpEvent::OnlyIn | MrpEvent::OnlyMt => false,
        MrpEvent::Lv => true,
    }
}

// What the events of a PDU declare of each key.
fn declared(
    alloc: Global,
    events: &[StreamEvent],
) -> Result<BTreeMap<MsrpKey, KeyContents>, NoMemory>
    ensures { IfOk result (λ map. (key : MsrpKey) (content : MsrpContent)
        → is_other (get key_cmp map key) content
        ≡ list_any (declares_other key content) events.now) }
{
    let mut map = BTreeMap::new(alloc);
    for event in events {
        mark(&mut map, event)?;
    }
    Ok(map)
}

// Keeps what an event declares.
fn mark(map: &mut BTreeMap<MsrpKey, KeyContents>, event: &StreamEvent) -> Result<(), NoMemory>
    ensures { OnOk result ((key : MsrpKey) (content : MsrpContent)
        → is_other (get key_cmp map.new key) content
        ≡ (is_other (get key_cmp map.old key) content || declares_other key content event.now)) }
{
    if !is_declaring(event.0) {
        return Ok(());
    }
    let next = with_content(kept_of(map, event.1), event.2);
    map.insert(event.1, next)?;
    Ok(())
}

// What is declared of a key, with a content more.
#[tactic(auto, using(crate::proofs::Declaring::more_contents))]
fn with_content(before: Option<KeyContents>, more: MsrpContent) -> KeyContents
    ensures { (content : MsrpContent) → is_other (Some result) content
        ≡ (is_other before content || not (same_content more content)) }
{
    match before {
        Some(before) => KeyContents {
            content: before.content,
            others: is_other(Some(before), more),
        },
        None => KeyContents {
            content: more,
            others: false,
        },
    }
}
