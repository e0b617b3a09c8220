//! What awaits at each link port once keys are told at one of them.

ghost use Rattle.std.specs.Prelude.{◌≡◌, ◌&&◌, ◌++◌, ◌∷◌, ◌+◌, ◌<◌, ◌≤◌, ℕ, true, false, [], drop, filter, if◌then◌else◌, is_some, length, map, slice_get, IsOk, IfOk, IfSome, OnOk};
ghost use Rattle.std.specs.List.{flat_map, list_any};
ghost use Rattle.registrar.specs.Table.{is_leaving};
ghost use Rattle.attribute_propagation.specs.{Dirty.all_marked, Ports.HasRoom, Ports.keys_in, Ports.marked_everywhere};
ghost use Rattle.mrp_participant.specs.{Lookup.key_of, State.registered_at};
ghost use Rattle.msrp_codec.specs.declared.pdu.MsrpKey.TheVariants as keys;
ghost use Rattle.msrp.specs.Part.{key_cmp};
ghost use Rattle.msrp.specs.Domain.{are_counted};
ghost use Rattle.msrp.specs.Holding.{ports_in};
ghost use Rattle.msrp.specs.Settling.{all_keys_with, is_domain, is_domain_leaving, keys_of, keys_with, known_keys, listener_keys, registered_keys, stream_in, told_sets};

use crate::app::MsrpApp;
use crate::domain::DomainSet;
use crate::port::Port;
use crate::talker_keys::sum;
use crate::view::PortView;
use attribute_propagation::laws::each_port_is_told;
use attribute_propagation::{Dirty, room_everywhere, tell_everywhere};
use mrp_participant::Participant;
use msrp_codec::{MsrpContent, MsrpKey};
use registrar::Registrar;
use srp_base::{MrpEvent, NoMemory, StreamId, Talker};
use std::alloc::{AllocError, Global};

// ---- room

// Makes room at each port for both keys of so many streams that are told and so many that are
// known.
pub(crate) fn room_to_tell(
    sets: &mut Vec<Dirty<MsrpKey>>,
    told: usize,
    known: usize,
) -> Result<(), NoMemory>
    ensures room { OnOk result (HasRoom ((told + told) + (known + known)) sets.new.items) }
    ensures keys { keys_in sets.new.items ≡ keys_in sets.old.items }
    // For none no memory is taken.
    ensures none { told + known ≡ 0 → IsOk result }
{
    if told == 0 && known == 0 {
        return Ok(());
    }
    let keys = sum(sum(told, told)?, sum(known, known)?)?;
    room_everywhere(sets, keys)
}

// ---- telling

// Keys are told at the port at a place, which declares these Domains: what awaits everywhere then.
// The keys that are known may be missing where no Domain has to be heeded. There is room for all.
pub(crate) fn tell(
    sets: &mut Vec<Dirty<MsrpKey>>,
    at: usize,
    domain: DomainSet,
    told: &[MsrpKey],
    known: &[MsrpKey],
)
    requires place { at < length sets.old.items }
    requires room { HasRoom ((length told.now + length told.now) +
        (length known.now + length known.now))
        sets.old.items }
    ensures { keys_in sets.new.items
        ≡ told_sets at domain told.now known.now (keys_in sets.old.items) }
{
    tell_all(sets, told);
    if heeds(domain, any_domain(told)) {
        mark_all_with(&mut sets[at], known);
    }
}

// Both keys of each stream of which a key is told await everywhere.
fn tell_all(sets: &mut Vec<Dirty<MsrpKey>>, told: &[MsrpKey])
    requires { HasRoom (length told.now + length told.now) sets.old.items }
    ensures keys { keys_in sets.new.items
        ≡ marked_everywhere key_cmp (all_keys_with told.now) (keys_in sets.old.items) }
    ensures room { (n : ℕ) → HasRoom ((length told.now + length told.now) + n) sets.old.items
        → HasRoom n sets.new.items }
{
    for key in told {
        tell_with(sets, *key);
    }
}

// Both keys of the stream of a key await everywhere.
fn tell_with(sets: &mut Vec<Dirty<MsrpKey>>, key: MsrpKey)
    requires { HasRoom 2 sets.old.items }
    ensures keys { keys_in sets.new.items
        ≡ marked_everywhere key_cmp (keys_with key) (keys_in sets.old.items) }
    ensures room { (n : ℕ) → HasRoom (2 + n) sets.old.items → HasRoom n sets.new.items }
{
    match stream_in(key) {
        Some(stream) => tell_both(sets, stream),
        None => {}
    }
}

// Both keys of a stream await everywhere.
pub(crate) fn tell_both(sets: &mut Vec<Dirty<MsrpKey>>, stream: StreamId)
    requires { HasRoom 2 sets.old.items }
    ensures keys { keys_in sets.new.items
        ≡ marked_everywhere key_cmp (keys_of stream) (keys_in sets.old.items) }
    ensures room { (n : ℕ) → HasRoom (2 + n) sets.old.items → HasRoom n sets.new.items }
{
    let keys = [MsrpKey::Talker(stream), MsrpKey::Listener(stream)];
    tell_everywhere(sets, keys.as_slice());
}

// Puts both keys of each stream of which a key is among these into a set.
fn mark_all_with(set: &mut Dirty<MsrpKey>, keys: &[MsrpKey])
    requires { length keys.now + length keys.now ≤ set.old.spare }
    ensures { set.new.keys ≡ all_marked key_cmp (all_keys_with keys.now) set.old.keys }
{
    for key in keys {
        mark_with(set, *key);
    }
}

// Puts both keys of the stream of a key into a set.
fn mark_with(set: &mut Dirty<MsrpKey>, key: MsrpKey)
    requires { 2 ≤ set.old.spare }
    ensures keys { set.new.keys ≡ all_marked key_cmp (keys_with key) set.old.keys }
    ensures spare { set.old.spare ≤ set.new.spare + 2 }
{
    match stream_in(key) {
        Some(stream) => {
            let keys = [MsrpKey::Talker(stream), MsrpKey::Listener(stream)];
            set.mark_all(keys.as_slice());
        }
        None => {}
    }
}

// The stream of a key.
pub(crate) fn stream_in(key: MsrpKey) -> Option<StreamId>
    ensures { result ≡ stream_in key }
{
    match key {
        MsrpKey::Talker(stream) => Some(stream),
        MsrpKey::Listener(stream) => Some(stream),
        MsrpKey::Domain(_) => None,
    }
}

// ---- Domains

// Whether a node that declares these Domains has to heed that one is told.
pub(crate) fn heeds(domain: DomainSet, is_told: bool) -> bool
    ensures { result ≡ (are_counted domain && is_told) }
{
    domain.are_counted() && is_told
}

// Whether a Domain is told.
pub(crate) fn any_domain(told: &[MsrpKey]) -> bool
    ensures { result ≡ list_any is_domain told.now }
{
    told.iter().any(|key| is_domain(*key))
}

// Whether an event of a Domain has come in.
pub(crate) fn heard_domain(events: &[(MrpEvent, MsrpKey, MsrpContent)]) -> bool
    ensures { result ≡ list_any (λ e. is_domain e.1) events.now }
{
    events.iter().any(|event| is_domain(event.1))
}

// Whether a Domain may leave a participant: the registrar of one is LV.
pub(crate) fn may_leave(part: &Participant<MsrpApp>) -> bool
    ensures { result ≡ list_any is_domain_leaving part.now.state.rows }
{
    for place in 0..part.rows() {
        if may_leave_at(part, place) {
            return true;
        }
    }
    false
}

// Whether it is so in a row.
fn may_leave_at(part: &Participant<MsrpApp>, place: usize) -> bool
    ensures { IfSome (slice_get part.now.state.rows place) (λ r. result ≡ is_domain_leaving r) }
{
    is_domain_at(part.key_at(place)) && is_leaving_at(part.registrar_at(place))
}

fn is_domain_at(key: Option<MsrpKey>) -> bool
    ensures { IfSome key (λ k. result ≡ is_domain k) }
{
    match key {
        Some(key) => is_domain(key),
        None => false,
    }
}

fn is_leaving_at(registrar: Option<Registrar>) -> bool
    ensures { IfSome registrar (λ r. result ≡ is_leaving r) }
{
    match registrar {
        Some(Registrar::Held) => false,
        Some(Registrar::Leaving) => true,
        Some(Registrar::Empty) => false,
        None => false,
    }
}

fn is_domain(key: MsrpKey) -> bool
    ensures { result ≡ is_domain key }
{
    match key {
        MsrpKey::Talker(_) => false,
        MsrpKey::Listener(_) => false,
        MsrpKey::Domain(_) => true,
    }
}

// ---- what is registered at a node

// The keys that are registered at a node, where they are asked for; else none, and no memory is
// taken.
pub(crate) fn known_where(
    alloc: Global,
    is_asked: bool,
    view: &PortView<'_>,
) -> Result<Vec<MsrpKey>, NoMemory>
    ensures keys { IfOk result (λ v. v.items ≡ (if is_asked
        then known_keys view.now.talks.now view.now.listens.now (ports_in view.now.ports.now)
        else [])) }
    ensures none { is_asked ≡ false → IsOk result }
{
    if is_asked {
        known_keys(alloc, view)
    } else {
        Ok(Vec::new(alloc))
    }
}

// The keys that are registered at a node: those of its application, and what each link port has
// registered.
fn known_keys(alloc: Global, view: &PortView<'_>) -> Result<Vec<MsrpKey>, NoMemory>
    ensures { IfOk result (λ v. v.items
        ≡ known_keys view.now.talks.now view.now.listens.now (ports_in view.now.ports.now)) }
{
    let mut keys = own_talker_keys(alloc, view.talks)?;
    let heard = listener_keys(alloc, view.listens)?;
    keys.extend_from_slice(heard.as_slice())?;
    push_all_registered(&mut keys, view.ports)?;
    Ok(keys)
}

// The Talker keys of the application.
fn own_talker_keys(alloc: Global, talks: &[Talker]) -> Result<Vec<MsrpKey>, AllocError>
    ensures { IfOk result (λ v. v.items ≡ map (λ t. keys.Talker t.stream) talks.now) }
{
    talks
        .iter()
        .map(|talker| MsrpKey::Talker(talker.stream))
        .collect(alloc)
}

// The Listener keys of streams.
fn listener_keys(alloc: Global, streams: &[StreamId]) -> Result<Vec<MsrpKey>, AllocError>
    ensures { IfOk result (λ v. v.items ≡ listener_keys streams.now) }
{
    streams
        .iter()
        .map(|stream| MsrpKey::Listener(*stream))
        .collect(alloc)
}

// Puts the keys that these link ports have registered at the end.
fn push_all_registered(out: &mut Vec<MsrpKey>, ports: &[Port]) -> Result<(), NoMemory>
    ensures { OnOk result (out.new.items
        ≡ out.old.items ++ flat_map (λ p. registered_keys p.part) (ports_in ports.now)) }
{
    for port in ports {
        push_registered(out, port.part())?;
    }
    Ok(())
}

// Puts the keys that a participant has registered at the end.
fn push_registered(out: &mut Vec<MsrpKey>, part: &Participant<MsrpApp>) -> Result<(), NoMemory>
    ensures { OnOk result (out.new.items ≡ out.old.items ++ registered_keys part.now.state) }
{
    for place in 0..part.rows() {
        push_registered_at(out, part, place)?;
    }
    Ok(())
}

// Puts the key of a row at the end, where something is registered in it.
fn push_registered_at(
    out: &mut Vec<MsrpKey>,
    part: &Participant<MsrpApp>,
    place: usize,
) -> Result<(), NoMemory>
    ensures { OnOk result (out.new.items ++ filter
        (λ key. is_some (registered_at key_cmp key part.now.state))
        (drop (place + 1) (map key_of part.now.state.rows))
        ≡ out.old.items ++ filter (λ key. is_some (registered_at key_cmp key part.now.state))
        (drop place (map key_of part.now.state.rows))) }
{
    match part.registration_at(place) {
        Some((key, content)) => push_where(out, content.is_some(), key),
        None => Ok(()),
    }
}

// Puts a key at the end, or nothing.
fn push_where(out: &mut Vec<MsrpKey>, is_in: bool, key: MsrpKey) -> Result<(), NoMemory>
    ensures { OnOk result (out.new.items ≡ out.old.items ++ filter (λ _. is_in) (key ∷ [])) }
{
    if is_in {
        out.push(key)?;
    }
    Ok(())
}
