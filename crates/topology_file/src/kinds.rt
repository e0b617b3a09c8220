//! The kinds of events: the keys of each, and what it names. A kind is a reader and its arm of
//! `read_kind`.

ghost use Rattle.std.specs.Prelude.{◌≡◌, option_map, IfOk};
ghost use Rattle.toml.specs.View.{table_view};
ghost use Rattle.topology_file.specs.Kinds.{known_vlan, vlan_at, known_talker, talker_at, known_listener, listener_at, both_named as both_named_spec, listener_named as listener_named_spec, joined_named, known_pdu, pdu_at, vlan_form, talker_form, listener_form, pdu_form, known_forgery, forgery_form, kind_form};
ghost use Rattle.topology_file.specs.declared.entries.EventKind.TheVariants.{Declare, Withdraw, Talk, Hush, Listen, Unlisten, Lose, Repeat};

use crate::entries::EventKind;
use crate::forms::{read_app, read_index, read_name, read_octets, read_vid};
use crate::links::are_joined;
use crate::names::Names;
use crate::nodes::{node_named, station_named};
use crate::streams::{is_talker_of, stream_named};
use srp_base::{NoMemory, NodeNo, Vid};
use std::alloc::Global;
use toml::Table;
use toml_rules::has_only;

/// A station, missing where there is none of this name, and a VID, at keys that are known.
fn read_known_vlan(names: &Names, table: &Table) -> Option<(Option<NodeNo>, Vid)>
    ensures { result ≡ known_vlan names.now.nodes (table_view table.now) }
{
    let name = read_name(table, "station")?;
    let vid = read_vid(table)?;
    Some((station_named(names, name), vid))
}

const VLAN_KEYS: [&str; 4] = ["tick", "kind", "station", "vid"];

fn read_vlan(names: &Names, table: &Table) -> Option<(Option<NodeNo>, Vid)>
    ensures { result ≡ vlan_at names.now.nodes (table_view table.now) }
{
    if has_only(table, &VLAN_KEYS) {
        read_known_vlan(names, table)
    } else {
        None
    }
}

/// A stream, missing where there is none of this name, at keys that are known.
fn read_known_talker(names: &Names, table: &Table) -> Option<Option<u16>>
    ensures { result ≡ known_talker names.now.streams (table_view table.now) }
{
    let name = read_name(table, "stream")?;
    Some(stream_named(names, name))
}

const TALKER_KEYS: [&str; 3] = ["tick", "kind", "stream"];

fn read_talker(names: &Names, table: &Table) -> Option<Option<u16>>
    ensures { result ≡ talker_at names.now.streams (table_view table.now) }
{
    if has_only(table, &TALKER_KEYS) {
        read_known_talker(names, table)
    } else {
        None
    }
}

/// The names of a station and of a stream, at keys that are known.
fn read_known_listener(table: &Table) -> Option<(&str, &str)>
    ensures { option_map (λ p. (p.0.now, p.1.now)) result ≡ known_listener (table_view table.now) }
{
    let station = read_name(table, "station")?;
    let stream = read_name(table, "stream")?;
    Some((station, stream))
}

const LISTENER_KEYS: [&str; 4] = ["tick", "kind", "station", "stream"];

fn read_listener(table: &Table) -> Option<(&str, &str)>
    ensures { option_map (λ p. (p.0.now, p.1.now)) result ≡ listener_at (table_view table.now) }
{
    if has_only(table, &LISTENER_KEYS) {
        read_known_listener(table)
    } else {
        None
    }
}

/// The station and the stream of these names, where there are such.
fn both_named(names: &Names, station: &str, stream: &str) -> Option<(NodeNo, u16)>
    ensures { result ≡ both_named_spec names.now.nodes names.now.streams station.now stream.now }
{
    let x = station_named(names, station)?;
    let n = stream_named(names, stream)?;
    Some((x, n))
}

/// The station and the stream of these names, where the station doesn't talk in the stream.
fn listener_named(names: &Names, station: &str, stream: &str) -> Option<(NodeNo, u16)>
    ensures { result
        ≡ listener_named_spec names.now.nodes names.now.streams station.now stream.now }
{
    let (x, n) = both_named(names, station, stream)?;
    if is_talker_of(names, stream, x.0) {
        None
    } else {
        Some((x, n))
    }
}

/// The nodes of these names, where a link joins them.
fn joined_nodes(names: &Names, from: &str, to: &str) -> Option<(NodeNo, NodeNo)>
    ensures { result ≡ joined_named names.now.nodes names.now.links from.now to.now }
{
    let x = node_named(names, from)?;
    let y = node_named(names, to)?;
    if are_joined(names, x.0, y.0) {
        Some((x, y))
    } else {
        None
    }
}

/// Two nodes, missing where no link joins nodes of these names, and the index of a PDU, at keys
/// that are known.
fn read_known_pdu(names: &Names, table: &Table) -> Option<(Option<(NodeNo, NodeNo)>, u32)>
    ensures { result ≡ known_pdu names.now.nodes names.now.links (table_view table.now) }
{
    let from = read_name(table, "from")?;
    let to = read_name(table, "to")?;
    let index = read_index(table)?;
    Some((joined_nodes(names, from, to), index))
}

const PDU_KEYS: [&str; 5] = ["tick", "kind", "from", "to", "index"];

/// The two nodes of an event on a link, from the one to the other, and the index of a PDU, 0 to
/// 65,535, at exactly the keys `tick`, `kind`, `from`, `to` and `index`; the nodes are missing
/// where no link joins nodes of these names. None where a key or a value hasn't its form.
pub fn read_pdu(names: &Names, table: &Table) -> Option<(Option<(NodeNo, NodeNo)>, u32)>
    ensures { result ≡ pdu_at names.now.nodes names.now.links (table_view table.now) }
{
    if has_only(table, &PDU_KEYS) {
        read_known_pdu(names, table)
    } else {
        None
    }
}

/// A station declares a VID.
fn read_declare(names: &Names, table: &Table) -> Option<Option<EventKind>>
    ensures { result ≡ vlan_form Declare names.now.nodes (table_view table.now) }
{
    let (station, vid) = read_vlan(names, table)?;
    Some(station.map(|station| EventKind::Declare { station, vid }))
}

/// A station withdraws a VID.
fn read_withdraw(names: &Names, table: &Table) -> Option<Option<EventKind>>
    ensures { result ≡ vlan_form Withdraw names.now.nodes (table_view table.now) }
{
    let (station, vid) = read_vlan(names, table)?;
    Some(station.map(|station| EventKind::Withdraw { station, vid }))
}

/// A stream's station declares its Talker.
fn read_talk(names: &Names, table: &Table) -> Option<Option<EventKind>>
    ensures { result ≡ talker_form Talk names.now.streams (table_view table.now) }
{
    let stream = read_talker(names, table)?;
    Some(stream.map(|stream| EventKind::Talk { stream }))
}

/// A stream's station withdraws its Talker.
fn read_hush(names: &Names, table: &Table) -> Option<Option<EventKind>>
    ensures { result ≡ talker_form Hush names.now.streams (table_view table.now) }
{
    let stream = read_talker(names, table)?;
    Some(stream.map(|stream| EventKind::Hush { stream }))
}

/// A station listens to a stream.
fn read_listen(names: &Names, table: &Table) -> Option<Option<EventKind>>
    ensures { result ≡ listener_form Listen (listener_named_spec names.now.nodes names.now.streams)
        (table_view table.now) }
{
    let (station, stream) = read_listener(table)?;
    let named = listener_named(names, station, stream);
    Some(named.map(|(station, stream)| EventKind::Listen { station, stream }))
}

/// A station stops listening to a stream.
fn read_unlisten(names: &Names, table: &Table) -> Option<Option<EventKind>>
    ensures { result ≡ listener_form Unlisten (both_named_spec names.now.nodes names.now.streams)
        (table_view table.now) }
{
    let (station, stream) = read_listener(table)?;
    let named = both_named(names, station, stream);
    Some(named.map(|(station, stream)| EventKind::Unlisten { station, stream }))
}

/// A PDU is lost.
fn read_lose(names: &Names, table: &Table) -> Option<Option<EventKind>>
    ensures { result ≡ pdu_form Lose names.now.nodes names.now.links (table_view table.now) }
{
    let (ends, index) = read_pdu(names, table)?;
    Some(ends.map(|(from, to)| EventKind::Lose { from, to, index }))
}

/// A PDU comes twice.
fn read_repeat(names: &Names, table: &Table) -> Option<Option<EventKind>>
    ensures { result ≡ pdu_form Repeat names.now.nodes names.now.links (table_view table.now) }
{
    let (ends, index) = read_pdu(names, table)?;
    Some(ends.map(|(from, to)| EventKind::Repeat { from, to, index }))
}

/// A PDU is forged: two nodes, missing where no link joins nodes of these names, an index, an
/// application and octets, at keys that are known.
fn read_known_forgery(
    alloc: Global,
    names: &Names,
    table: &Table,
) -> Result<Option<Option<EventKind>>, NoMemory>
    ensures { IfOk result (λ kind. kind
        ≡ known_forgery names.now.nodes names.now.links (table_view table.now)) }
{
    let Some((ends, index)) = read_known_pdu(names, table) else {
        return Ok(None);
    };
    let Some(app) = read_app(table) else {
        return Ok(None);
    };
    let Some(octets) = read_octets(alloc, table)? else {
        return Ok(None);
    };
    match ends {
        Some((from, to)) => Ok(Some(Some(EventKind::Forge {
            from,
            to,
            index,
            app,
            octets,
        }))),
        None => Ok(Some(None)),
    }
}

const FORGERY_KEYS: [&str; 7] = ["tick", "kind", "from", "to", "index", "app", "octets"];

fn read_forge(
    alloc: Global,
    names: &Names,
    table: &Table,
) -> Result<Option<Option<EventKind>>, NoMemory>
    ensures { IfOk result (λ kind. kind
        ≡ forgery_form names.now.nodes names.now.links (table_view table.now)) }
{
    if has_only(table, &FORGERY_KEYS) {
        read_known_forgery(alloc, names, table)
    } else {
        Ok(None)
    }
}

/// What happens, by the word of its kind, each with exactly its keys; missing where what it names
/// isn't there.
///
/// # Errors
///
/// `NoMemory` alone.
pub(crate) fn read_kind(
    alloc: Global,
    names: &Names,
    table: &Table,
    word: &str,
) -> Result<Option<Option<EventKind>>, NoMemory>
    ensures { IfOk result (λ kind. kind
        ≡ kind_form names.now.nodes names.now.links names.now.streams (table_view table.now)
        word.now) }
{
    match word {
        "declare" => Ok(read_declare(names, table)),
        "withdraw" => Ok(read_withdraw(names, table)),
        "talk" => Ok(read_talk(names, table)),
        "hush" => Ok(read_hush(names, table)),
        "listen" => Ok(read_listen(names, table)),
        "unlisten" => Ok(read_unlisten(names, table)),
        "lose" => Ok(read_lose(names, table)),
        "repeat" => Ok(read_repeat(names, table)),
        "forge" => read_forge(alloc, names, table),
        _ => Ok(None),
    }
}
