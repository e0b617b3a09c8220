//! The ledger file: one port and the streams that want it.

ghost use Rattle.std.specs.Prelude.{◌≡◌, ◌+◌, None, ◌≤◌, map, IfSome, IfOk};
ghost use Rattle.toml.specs.View.{table_view};
ghost use Rattle.toml_rules.specs.Rules.{Reads, each_entry, first_fall as first_fall_spec};
ghost use Rattle.srpnet.specs.LedgerFile.{rate_at, want_ticks, streams_mentioned, wants_of, ledger_file as ledger_file_spec};
ghost use Rattle.srpnet.specs.LedgerWant.{stream_at, class_of_text, class_at, rank_of_number, rank_at, frames_at, octets_at, tick_at, known_want, want_entry};

use indexmap::IndexSet;
use srp_base::{Class, Cs, Percent, Rank, Rate, Seq, StreamId, read_hex16};
use std::alloc::{AllocError, Global};
use stream_importance::{Want, slope_of};
use toml::Table;
use toml_rules::{
    RuleErr, each_table, fails_at, first_fall, has_only, holds, needs, needs_tables, no_entry,
    number, number_or, read_shares, text, within,
};

/// A want of the file with its moment in cs.
#[derive(Clone, Copy)]
pub struct LedgerWant {
    pub tick: Cs,
    pub want: Want,
}

/// A ledger file: a port, and the wants in file order.
#[derive(Drop)]
pub struct LedgerFile {
    pub rate: Rate,
    pub delta_a: Percent,
    pub delta_b: Percent,
    pub wants: Seq<LedgerWant>,
    /// The different streams, in the order of their first mention.
    pub streams: Seq<StreamId>,
}

fn read_stream(table: &Table) -> Option<u64>
    ensures { result ≡ stream_at (table_view table.now) }
{
    read_hex16(text(table, "stream")?)
}

fn class_of(word: &str) -> Option<Class>
    ensures { result ≡ class_of_text word.now }
{
    match word {
        "A" => Some(Class::A),
        "B" => Some(Class::B),
        _ => None,
    }
}

fn read_class(table: &Table) -> Option<Class>
    ensures { result ≡ class_at (table_view table.now) }
{
    class_of(text(table, "class")?)
}

fn rank_of(number: u64) -> Option<Rank>
    ensures { result ≡ rank_of_number number }
{
    match number {
        0 => Some(Rank::Emergency),
        1 => Some(Rank::Normal),
        _ => None,
    }
}

fn read_rank(table: &Table) -> Option<Rank>
    ensures { result ≡ rank_at (table_view table.now) }
{
    rank_of(number_or(table, "rank", 1)?)
}

/// The most frames in a class measurement interval, and the most octets of a frame.
fn read_frames(table: &Table) -> Option<u16>
    ensures { result ≡ frames_at (table_view table.now) }
{
    small(within(0, 65_535, number(table, "frames")))
}

fn read_octets(table: &Table) -> Option<u16>
    ensures { result ≡ octets_at (table_view table.now) }
{
    small(within(0, 1_500, number(table, "octets")))
}

/// A number that is known to be small.
fn small(number: Option<u64>) -> Option<u16>
    requires { IfSome number (λ n. n ≤ 65535) }
    ensures { result ≡ number }
{
    match number {
        Some(n) => Some(n as u16),
        None => None,
    }
}

fn read_tick(table: &Table) -> Option<u64>
    ensures { result ≡ tick_at (table_view table.now) }
{
    within(0, 11_999, number_or(table, "tick", 0))
}

/// The want of a table whose keys are all known.
fn read_known_want(table: &Table) -> Option<LedgerWant>
    ensures { result ≡ known_want (table_view table.now) }
{
    let stream = read_stream(table)?;
    let class = read_class(table)?;
    let rank = read_rank(table)?;
    let frames = read_frames(table)?;
    let octets = read_octets(table)?;
    let tick = read_tick(table)?;
    Some(LedgerWant {
        tick: Cs(tick),
        want: Want {
            stream: StreamId(stream),
            class,
            rank,
            slope: slope_of(class, octets, frames),
        },
    })
}

const WANT_KEYS: [&str; 6] = ["stream", "class", "rank", "frames", "octets", "tick"];

/// The most wants of a file.
const MOST_WANTS: usize = 10_000;

/// The want of an entry with this number.
fn read_want(number: usize, table: &Table) -> Option<LedgerWant>
    ensures { result ≡ want_entry number (table_view table.now) }
{
    if number <= MOST_WANTS && has_only(table, &WANT_KEYS) {
        read_known_want(table)
    } else {
        None
    }
}

/// The wants of all entries, each with its form.
fn read_wants(alloc: Global, entries: &[&Table]) -> Result<Vec<LedgerWant>, RuleErr>
    ensures { Reads (λ v. v.items) result (each_entry 33 want_entry 1 (map
        (λ t. table_view t.now) entries.now)) }
{
    each_table(
        alloc,
        33,
        entries,
        |number, table| Ok(read_want(number, table)),
    )
}

fn read_rate(table: &Table) -> Option<Rate>
    ensures { result ≡ rate_at (table_view table.now) }
{
    Rate::of_mbit(number(table, "rate")?)
}

/// The first want whose tick is below that of the one before it.
fn falling_want(wants: &[LedgerWant]) -> Option<usize>
    ensures { result ≡ first_fall_spec 1 0 (want_ticks wants.now) }
{
    first_fall(wants, |want| want.tick.0)
}

/// The most different streams of a file.
const MOST_STREAMS: usize = 128;

/// Rule 35: the different streams, in the order of their first mention, are at most 128.
fn read_streams(alloc: Global, wants: &[LedgerWant]) -> Result<IndexSet<u64>, RuleErr>
    ensures { Reads (λ s. s.keys) result (streams_mentioned wants.now) }
{
    let mut streams = IndexSet::new(alloc);
    for (i, want) in wants.iter().enumerate() {
        streams.insert(want.want.stream.0)?;
        if streams.len() > MOST_STREAMS {
            return Err(fails_at(35, i + 1));
        }
    }
    Ok(streams)
}

const FILE_KEYS: [&str; 4] = ["rate", "delta_a", "delta_b", "want"];

fn stream_ids(alloc: Global, streams: &IndexSet<u64>) -> Result<Vec<StreamId>, AllocError>
    ensures { IfOk result (λ v. v.items ≡ map (λ k. record { 0 = k }) streams.now.keys) }
{
    streams.iter().map(|k| StreamId(*k)).collect(alloc)
}

/// The wants of a file with the different streams that they mention.
fn read_mentioned(
    alloc: Global,
    entries: &[&Table],
) -> Result<(Seq<LedgerWant>, Seq<StreamId>), RuleErr>
    ensures file { Reads (λ r. r) result (wants_of (map (λ t. table_view t.now) entries.now)) }
    ensures ticks { IfOk result (λ r. first_fall_spec 1 0 (want_ticks r.0) ≡ None) }
{
    let wants = read_wants(alloc, entries)?;
    no_entry(34, falling_want(&wants))?;
    let streams = read_streams(alloc, &wants)?;
    let ids = stream_ids(alloc, &streams)?;
    Ok((Seq::from_vec(wants), Seq::from_vec(ids)))
}

/// The file of a table, or the first rule that fails with its first failing entry: rules 31 to 35.
pub fn read_ledger_file(alloc: Global, table: &Table) -> Result<LedgerFile, RuleErr>
    ensures file { Reads (λ f. f) result (ledger_file_spec (table_view table.now)) }
    ensures shares { IfOk result (λ f. f.delta_a + f.delta_b ≤ 90) }
    ensures ticks { IfOk result (λ f. first_fall_spec 1 0 (want_ticks f.wants) ≡ None) }
{
    holds(31, has_only(table, &FILE_KEYS))?;
    let rate = needs(31, read_rate(table))?;
    let (delta_a, delta_b) = needs(32, read_shares(table))?;
    let entries = needs_tables(alloc, 33, table, "want")?;
    let (wants, streams) = read_mentioned(alloc, &entries)?;
    Ok(LedgerFile {
        rate,
        delta_a,
        delta_b,
        wants,
        streams,
    })
}
