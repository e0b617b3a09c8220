//! The Talker keys of all streams with a Talker, put into a set in its place.

ghost use Rattle.std.specs.Prelude.{◌≡◌, ◌≤◌, ◌+◌, ◌∷◌, [], drop, length, map, IfOk};
ghost use Rattle.std.specs.List.{flat_map};
ghost use Rattle.attribute_propagation.specs.Dirty.{all_marked};
ghost use Rattle.mrp_participant.specs.{Lookup.key_of, State.registered_at};
ghost use Rattle.msrp_codec.specs.declared.pdu.MsrpKey.TheVariants as keys;
ghost use Rattle.msrp.specs.Part.{key_cmp};
ghost use Rattle.msrp.specs.Holding.{ports_in};
ghost use Rattle.msrp.specs.Settling.{talker_key_if, talker_keys, talker_keys_in};

use crate::app::MsrpApp;
use crate::port::Port;
use crate::stream::is_talker_content;
use attribute_propagation::Dirty;
use mrp_participant::Participant;
use msrp_codec::{MsrpContent, MsrpKey};
use srp_base::{NoMemory, Talker};

// ---- how many there are at most

// The number of streams that the application talks, and of all keys at all ports.
pub(crate) fn talker_count(talks: &[Talker], ports: &[Port]) -> Result<usize, NoMemory>
    ensures { IfOk result (λ n. length (talker_keys talks.now (ports_in ports.now)) ≤ n) }
{
    let mut count = talks.len();
    for port in ports {
        count = sum(count, port.part().rows())?;
    }
    Ok(count)
}

// A sum of two numbers of keys. More keys than numbers reach find no memory.
pub(crate) fn sum(some: usize, more: usize) -> Result<usize, NoMemory>
    ensures { IfOk result (λ n. n ≡ some + more) }
{
    some.checked_add(more).ok_or(NoMemory)
}

// ---- putting them in

// Puts the Talker keys of all streams with a Talker in. It takes no memory: there is room for as
// many.
pub(crate) fn mark_talkers(set: &mut Dirty<MsrpKey>, talks: &[Talker], ports: &[Port])
    requires { length (talker_keys talks.now (ports_in ports.now)) ≤ set.old.spare }
    ensures keys { set.new.keys
        ≡ all_marked key_cmp (talker_keys talks.now (ports_in ports.now)) set.old.keys }
    ensures spare { set.old.spare
        ≤ set.new.spare + length (talker_keys talks.now (ports_in ports.now)) }
{
    mark_own(set, talks);
    mark_all_registered(set, ports);
}

// Puts the Talker keys of the application in.
fn mark_own(set: &mut Dirty<MsrpKey>, talks: &[Talker])
    requires { length talks.now ≤ set.old.spare }
    ensures keys { set.new.keys
        ≡ all_marked key_cmp (map (λ t. keys.Talker t.stream) talks.now) set.old.keys }
    ensures spare { set.old.spare ≤ set.new.spare + length talks.now }
{
    for talker in talks {
        mark_one(set, MsrpKey::Talker(talker.stream));
    }
}

// Puts the Talker keys in that these link ports have registered.
fn mark_all_registered(set: &mut Dirty<MsrpKey>, ports: &[Port])
    requires { length (flat_map (λ p. talker_keys_in p.part) (ports_in ports.now))
        ≤ set.old.spare }
    ensures keys { set.new.keys ≡ all_marked key_cmp
        (flat_map (λ p. talker_keys_in p.part) (ports_in ports.now)) set.old.keys }
    ensures spare { set.old.spare ≤ set.new.spare
        + length (flat_map (λ p. talker_keys_in p.part) (ports_in ports.now)) }
{
    for port in ports {
        mark_registered(set, port.part());
    }
}

// Puts the Talker keys in that a participant has registered.
fn mark_registered(set: &mut Dirty<MsrpKey>, part: &Participant<MsrpApp>)
    requires { length (talker_keys_in part.now.state) ≤ set.old.spare }
    ensures keys { set.new.keys
        ≡ all_marked key_cmp (talker_keys_in part.now.state) set.old.keys }
    ensures spare { set.old.spare ≤ set.new.spare + length (talker_keys_in part.now.state) }
{
    for place in 0..part.rows() {
        mark_row(set, part, place);
    }
}

// Puts the key of a row in, where a Talker is registered in it.
fn mark_row(set: &mut Dirty<MsrpKey>, part: &Participant<MsrpApp>, place: usize)
    requires { length (flat_map
        (λ key. talker_key_if key (registered_at key_cmp key part.now.state))
        (drop place (map key_of part.now.state.rows))) ≤ set.old.spare }
    ensures keys { all_marked key_cmp
        (flat_map (λ key. talker_key_if key (registered_at key_cmp key part.now.state))
        (drop (place + 1) (map key_of part.now.state.rows))) set.new.keys
        ≡ all_marked key_cmp
        (flat_map (λ key. talker_key_if key (registered_at key_cmp key part.now.state))
        (drop place (map key_of part.now.state.rows))) set.old.keys }
    ensures spare { set.old.spare + length
        (flat_map (λ key. talker_key_if key (registered_at key_cmp key part.now.state))
        (drop (place + 1) (map key_of part.now.state.rows)))
        ≤ set.new.spare + length
        (flat_map (λ key. talker_key_if key (registered_at key_cmp key part.now.state))
        (drop place (map key_of part.now.state.rows))) }
{
    match part.registration_at(place) {
        Some((key, content)) => mark_talker(set, key, content),
        None => {}
    }
}

// Puts the key of a registered Talker in.
fn mark_talker(set: &mut Dirty<MsrpKey>, key: MsrpKey, content: Option<MsrpContent>)
    requires { length (talker_key_if key content) ≤ set.old.spare }
    ensures keys { set.new.keys ≡ all_marked key_cmp (talker_key_if key content) set.old.keys }
    ensures spare { set.old.spare ≤ set.new.spare + length (talker_key_if key content) }
{
    match key {
        MsrpKey::Talker(_) => {
            if is_talker_content(content) {
                mark_one(set, key);
            }
        }
        MsrpKey::Listener(_) => {}
        MsrpKey::Domain(_) => {}
    }
}

// Puts one key in.
fn mark_one(set: &mut Dirty<MsrpKey>, key: MsrpKey)
    requires { 1 ≤ set.old.spare }
    ensures keys { set.new.keys ≡ all_marked key_cmp (key ∷ []) set.old.keys }
    ensures spare { set.old.spare ≤ set.new.spare + 1 }
{
    let keys = [key];
    set.mark_all(keys.as_slice());
}
