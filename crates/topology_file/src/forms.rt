//! The form of each entry: its keys, their values and their defaults.

ghost use Rattle.std.specs.Prelude.{◌≡◌, IfOk};
ghost use Rattle.std.specs.{Option.option_copied, List.list_all};
ghost use Rattle.toml.specs.View.{table_view};
ghost use Rattle.topology_file.specs.Entries.{is_name_char as is_name_char_spec, is_name as is_name_spec, name_at, kind_of_text, kind_at, id_at, domain_of_text, domain_at, rate_at, latency_at};
ghost use Rattle.topology_file.specs.Events.{tick_at};
ghost use Rattle.topology_file.specs.Kinds.{vid_at, index_at, app_of_text, app_at, octets_of_text, pdu_octets_at};

use crate::entries::DomainWord;
use hex::FromHexError;
use srp_base::{App, NoMemory, Rate, Seq, Vid, read_hex16};
use std::alloc::Global;
use toml::Table;
use toml_rules::{number, number_or, text, value_at, within};
use tree_topology::NodeKind;

/// a to z, 0 to 9, `-` and `_`.
fn is_name_char(c: u8) -> bool
    ensures { result ≡ is_name_char_spec c }
{
    b'a' <= c && c <= b'z' || b'0' <= c && c <= b'9' || c == b'-' || c == b'_'
}

fn has_name_chars(word: &[u8]) -> bool
    ensures { result ≡ list_all is_name_char_spec word.now }
{
    word.iter().all(|c| is_name_char(*c))
}

/// 1 to 32 such characters.
fn is_name(word: &[u8]) -> bool
    ensures { result ≡ is_name_spec word.now }
{
    1 <= word.len() && word.len() <= 32 && has_name_chars(word)
}

/// The name at a key: a text of 1 to 32 characters a to z, 0 to 9, `-` and `_`. None where there is
/// none.
pub fn read_name<'a>(table: &'a Table, key: &str) -> Option<&'a str>
    ensures { option_copied result ≡ name_at key.now (table_view table.now) }
{
    let word = text(table, key)?;
    if is_name(word.as_bytes()) {
        Some(word)
    } else {
        None
    }
}

fn kind_of(word: &str) -> Option<NodeKind>
    ensures { result ≡ kind_of_text word.now }
{
    match word {
        "station" => Some(NodeKind::Station),
        "bridge" => Some(NodeKind::Bridge),
        _ => None,
    }
}

pub(crate) fn read_kind(table: &Table) -> Option<NodeKind>
    ensures { result ≡ kind_at (table_view table.now) }
{
    kind_of(text(table, "kind")?)
}

/// The id of sixteen hexadecimal digits, or the entry's number where there is none.
pub(crate) fn read_id(number: usize, table: &Table) -> Option<u64>
    ensures { result ≡ id_at number (table_view table.now) }
{
    match value_at(table, "id") {
        Some(value) => read_hex16(value.as_str()?),
        None => Some(number as u64),
    }
}

fn domain_of(word: &str) -> Option<DomainWord>
    ensures { result ≡ domain_of_text word.now }
{
    match word {
        "both" => Some(DomainWord::Both),
        "a" => Some(DomainWord::OnlyA),
        "none" => Some(DomainWord::Nothing),
        _ => None,
    }
}

/// The domain of its word, "both" where there is none.
pub(crate) fn read_domain(table: &Table) -> Option<DomainWord>
    ensures { result ≡ domain_at (table_view table.now) }
{
    match value_at(table, "domain") {
        Some(value) => domain_of(value.as_str()?),
        None => Some(DomainWord::Both),
    }
}

pub(crate) fn read_rate(table: &Table) -> Option<Rate>
    ensures { result ≡ rate_at (table_view table.now) }
{
    Rate::of_mbit(number_or(table, "rate", 100)?)
}

pub(crate) fn read_latency(table: &Table) -> Option<u32>
    ensures { result ≡ latency_at (table_view table.now) }
{
    match within(0, 4_294_967_295, number_or(table, "latency", 0)) {
        Some(n) => Some(n as u32),
        None => None,
    }
}

pub(crate) fn read_vid(table: &Table) -> Option<Vid>
    ensures { result ≡ vid_at (table_view table.now) }
{
    match within(1, 4_094, number(table, "vid")) {
        Some(n) => Vid::new(n as u16),
        None => None,
    }
}

pub(crate) fn read_index(table: &Table) -> Option<u32>
    ensures { result ≡ index_at (table_view table.now) }
{
    match within(0, 65_535, number(table, "index")) {
        Some(n) => Some(n as u32),
        None => None,
    }
}

fn app_of(word: &str) -> Option<App>
    ensures { result ≡ app_of_text word.now }
{
    match word {
        "mvrp" => Some(App::Mvrp),
        "msrp" => Some(App::Msrp),
        _ => None,
    }
}

pub(crate) fn read_app(table: &Table) -> Option<App>
    ensures { result ≡ app_at (table_view table.now) }
{
    app_of(text(table, "app")?)
}

/// The most octets of a PDU.
const MOST_OCTETS: usize = 1_500;

/// The octets that digits spell, 1,500 of them at most.
fn octets_of(alloc: Global, digits: &str) -> Result<Option<Seq<u8>>, NoMemory>
    ensures { IfOk result (λ octets. octets ≡ octets_of_text digits.now) }
{
    if digits.len() > 2 * MOST_OCTETS {
        return Ok(None);
    }
    match hex::decode(alloc, digits) {
        Ok(octets) => Ok(Some(Seq::from_vec(octets))),
        Err(FromHexError::OutOfMemory) => Err(NoMemory),
        Err(_) => Ok(None),
    }
}

pub(crate) fn read_octets(alloc: Global, table: &Table) -> Result<Option<Seq<u8>>, NoMemory>
    ensures { IfOk result (λ octets. octets ≡ pdu_octets_at (table_view table.now)) }
{
    match text(table, "octets") {
        Some(digits) => octets_of(alloc, digits),
        None => Ok(None),
    }
}

/// The tick of an event in cs, below the file's ticks. None where there is none.
pub fn read_tick(ticks: u64, table: &Table) -> Option<u64>
    ensures { result ≡ tick_at ticks (table_view table.now) }
{
    match number(table, "tick") {
        Some(tick) => { if tick < ticks { Some(tick) } else { None } }
        None => None,
    }
}
