//! The kinds of events: the keys of each, and what it names. A kind is a reader and its arm of
//! `read_kind`.

ghost use Rattle.std.specs.Prelude.{◌≡◌};
ghost use Rattle.toml.specs.View.{table_view};
ghost use Rattle.group_file.specs.declared.entries.GroupKind.TheVariants.{Join, Lose, Part, Repeat};
ghost use Rattle.group_file.specs.Events.{kind_form, known_member, mac_at, member_at, member_form, pdu_form};

use crate::entries::GroupKind;
use srp_base::{Mac, NodeNo, read_hex12};
use toml::Table;
use toml_rules::{has_only, text};
use topology_file::{Names, read_name, read_pdu, station_named};

fn read_mac(table: &Table) -> Option<Mac>
    ensures { result ≡ mac_at (table_view table.now) }
{
    read_hex12(text(table, "mac")?)
}

/// A station, missing where there is none of this name, and a MAC address, at keys that are known.
fn read_known_member(names: &Names, table: &Table) -> Option<(Option<NodeNo>, Mac)>
    ensures { result ≡ known_member names.now.nodes (table_view table.now) }
{
    let name = read_name(table, "station")?;
    let mac = read_mac(table)?;
    Some((station_named(names, name), mac))
}

const MEMBER_KEYS: [&str; 4] = ["tick", "kind", "station", "mac"];

fn read_member(names: &Names, table: &Table) -> Option<(Option<NodeNo>, Mac)>
    ensures { result ≡ member_at names.now.nodes (table_view table.now) }
{
    if has_only(table, &MEMBER_KEYS) {
        read_known_member(names, table)
    } else {
        None
    }
}

/// A station joins a group.
fn read_join(names: &Names, table: &Table) -> Option<Option<GroupKind>>
    ensures { result ≡ member_form Join names.now.nodes (table_view table.now) }
{
    let (station, mac) = read_member(names, table)?;
    Some(station.map(|station| GroupKind::Join { station, mac }))
}

/// A station parts from a group.
fn read_part(names: &Names, table: &Table) -> Option<Option<GroupKind>>
    ensures { result ≡ member_form Part names.now.nodes (table_view table.now) }
{
    let (station, mac) = read_member(names, table)?;
    Some(station.map(|station| GroupKind::Part { station, mac }))
}

/// A PDU is lost.
fn read_lose(names: &Names, table: &Table) -> Option<Option<GroupKind>>
    ensures { result ≡ pdu_form Lose names.now.nodes names.now.links (table_view table.now) }
{
    let (ends, index) = read_pdu(names, table)?;
    Some(ends.map(|(from, to)| GroupKind::Lose { from, to, index }))
}

/// A PDU comes twice.
fn read_repeat(names: &Names, table: &Table) -> Option<Option<GroupKind>>
    ensures { result ≡ pdu_form Repeat names.now.nodes names.now.links (table_view table.now) }
{
    let (ends, index) = read_pdu(names, table)?;
    Some(ends.map(|(from, to)| GroupKind::Repeat { from, to, index }))
}

/// What happens, by the word of its kind, each with exactly its keys; missing where what it names
/// isn't there.
pub(crate) fn read_kind(names: &Names, table: &Table, word: &str) -> Option<Option<GroupKind>>
    ensures { result ≡ kind_form names.now.nodes names.now.links (table_view table.now) word.now }
{
    match word {
        "join" => read_join(names, table),
        "part" => read_part(names, table),
        "lose" => read_lose(names, table),
        "repeat" => read_repeat(names, table),
        _ => None,
    }
}
