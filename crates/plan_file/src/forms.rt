//! The values of a stream's entry, and their defaults.

ghost use Rattle.std.specs.Prelude.{◌≡◌, ◌≤◌, IfSome};
ghost use Rattle.toml.specs.View.{table_view};
ghost use Rattle.topology_file.specs.Frames.{frame_octets_at};
ghost use Rattle.topology_file.specs.Streams.{rank_at, rank_of_number, stream_vid_at};
ghost use Rattle.plan_file.specs.Streams.{audio_octets_at, audio_octets as audio_octets_spec, bits_at, bits_of_number, channels_at, class_at, class_of_text, dest_at, frames_at, id_at, khz_at, khz_of_number, octets_at, samples as samples_spec, values_at};

use crate::entries::PlanValues;
use srp_base::{Class, Mac, Rank, StreamId, Vid, read_hex12, read_hex16};
use toml::Table;
use toml_rules::{has_only, number, number_or, value_at, within};

fn class_of(word: &str) -> Option<Class>
    ensures { result ≡ class_of_text word.now }
{
    match word {
        "A" => Some(Class::A),
        "B" => Some(Class::B),
        _ => None,
    }
}

/// The class of its letter, A where there is none.
fn read_class(table: &Table) -> Option<Class>
    ensures { result ≡ class_at (table_view table.now) }
{
    match value_at(table, "class") {
        Some(value) => class_of(value.as_str()?),
        None => Some(Class::A),
    }
}

/// A number that is known to be small.
fn small(number: Option<u64>) -> Option<u16>
    requires { IfSome number (λ n. n ≤ 65535) }
    ensures { result ≡ number }
{
    match number {
        Some(n) => Some(n as u16),
        None => None,
    }
}

fn read_channels(table: &Table) -> Option<u64>
    ensures channels { result ≡ channels_at (table_view table.now) }
    ensures few { IfSome result (λ n. n ≤ 120) }
{
    within(1, 120, number(table, "channels"))
}

fn khz_of(number: u64) -> Option<u64>
    ensures khz { result ≡ khz_of_number number }
    ensures few { IfSome result (λ n. n ≤ 192) }
{
    if number == 48 || number == 96 || number == 192 {
        Some(number)
    } else {
        None
    }
}

fn read_khz(table: &Table) -> Option<u64>
    ensures khz { result ≡ khz_at (table_view table.now) }
    ensures few { IfSome result (λ n. n ≤ 192) }
{
    khz_of(number(table, "rate_khz")?)
}

fn bits_of(number: u64) -> Option<u64>
    ensures bits { result ≡ bits_of_number number }
    ensures few { IfSome result (λ n. n ≤ 32) }
{
    if number == 16 || number == 24 || number == 32 {
        Some(number)
    } else {
        None
    }
}

fn read_bits(table: &Table) -> Option<u64>
    ensures bits { result ≡ bits_at (table_view table.now) }
    ensures few { IfSome result (λ n. n ≤ 32) }
{
    bits_of(number_or(table, "bits", 32)?)
}

/// The samples of a channel in a class measurement interval.
fn samples(class: Class, khz: u64) -> u64
    requires { khz ≤ 192 }
    ensures samples { result ≡ samples_spec class khz }
    ensures few { result ≤ 48 }
{
    match class {
        Class::A => khz / 8,
        Class::B => khz / 4,
    }
}

/// The octets of a frame with the samples of an interval.
fn audio_octets(class: Class, channels: u64, khz: u64, bits: u64) -> u64
    requires channels { channels ≤ 120 }
    requires khz { khz ≤ 192 }
    requires bits { bits ≤ 32 }
    ensures { result ≡ audio_octets_spec class channels khz bits }
{
    24 + channels * (bits / 8) * samples(class, khz)
}

/// The octets of the audio of a table.
fn read_audio_octets(class: Class, table: &Table) -> Option<u16>
    ensures { result ≡ audio_octets_at class (table_view table.now) }
{
    let channels = read_channels(table)?;
    let khz = read_khz(table)?;
    let bits = read_bits(table)?;
    small(within(0, 1_500, Some(audio_octets(class, channels, khz, bits))))
}

fn read_frame_octets(table: &Table) -> Option<u16>
    ensures { result ≡ frame_octets_at (table_view table.now) }
{
    small(within(0, 1_500, number(table, "octets")))
}

const SIZED_KEYS: [&str; 10] = [
    "name",
    "talker",
    "listeners",
    "octets",
    "frames",
    "class",
    "vid",
    "rank",
    "id",
    "dest",
];

const AUDIO_KEYS: [&str; 12] = [
    "name",
    "talker",
    "listeners",
    "channels",
    "rate_khz",
    "bits",
    "frames",
    "class",
    "vid",
    "rank",
    "id",
    "dest",
];

/// The octets of a frame, given as such or by what the audio is.
fn read_octets(class: Class, table: &Table) -> Option<u16>
    ensures { result ≡ octets_at class (table_view table.now) }
{
    if has_only(table, &SIZED_KEYS) {
        return read_frame_octets(table);
    }
    if has_only(table, &AUDIO_KEYS) {
        return read_audio_octets(class, table);
    }
    None
}

fn read_frames(table: &Table) -> Option<u16>
    ensures { result ≡ frames_at (table_view table.now) }
{
    small(within(1, 64, number_or(table, "frames", 1)))
}

fn read_vid(table: &Table) -> Option<Vid>
    ensures { result ≡ stream_vid_at (table_view table.now) }
{
    match within(1, 4_094, number_or(table, "vid", 2)) {
        Some(n) => Vid::new(n as u16),
        None => None,
    }
}

fn rank_of(number: u64) -> Option<Rank>
    ensures { result ≡ rank_of_number number }
{
    match number {
        0 => Some(Rank::Emergency),
        1 => Some(Rank::Normal),
        _ => None,
    }
}

fn read_rank(table: &Table) -> Option<Rank>
    ensures { result ≡ rank_at (table_view table.now) }
{
    rank_of(number_or(table, "rank", 1)?)
}

/// The StreamID of sixteen hexadecimal digits, where one is given.
fn read_id(table: &Table) -> Option<Option<StreamId>>
    ensures { result ≡ id_at (table_view table.now) }
{
    match value_at(table, "id") {
        Some(value) => Some(Some(StreamId(read_hex16(value.as_str()?)?))),
        None => Some(None),
    }
}

/// The address of twelve hexadecimal digits, where one is given.
fn read_dest(table: &Table) -> Option<Option<Mac>>
    ensures { result ≡ dest_at (table_view table.now) }
{
    match value_at(table, "dest") {
        Some(value) => Some(Some(read_hex12(value.as_str()?)?)),
        None => Some(None),
    }
}

/// What a stream's Talker declares, as far as the entry says it.
pub(crate) fn read_values(table: &Table) -> Option<PlanValues>
    ensures { result ≡ values_at (table_view table.now) }
{
    let class = read_class(table)?;
    let octets = read_octets(class, table)?;
    let frames = read_frames(table)?;
    let vid = read_vid(table)?;
    let rank = read_rank(table)?;
    let id = read_id(table)?;
    let dest = read_dest(table)?;
    Some(PlanValues {
        class,
        octets,
        frames,
        vid,
        rank,
        id,
        dest,
    })
}
