//! The head of a file to be replayed.

ghost use Rattle.std.specs.Prelude.{◌≡◌, ◌≤◌, IfOk, IfSome};
ghost use Rattle.srp_base.specs.Results.{Gives};
ghost use Rattle.toml.specs.View.{table_view};
ghost use Rattle.toml_rules.specs.Rules.{Reads};
ghost use Rattle.mrp_participant.specs.State.{IsTime};
ghost use Rattle.replay_words.specs.Head.{head_of};
ghost use Rattle.replay_words.specs.HeadKeys.{rate_at, caps_at, leave_time_at, address_at, two_addresses, has_no_address, addresses_at};
ghost use Rattle.replay_words.specs.Replay.{cause_told, head_in};

use crate::document::table_of;
use crate::error::ReplayErr;
use srp_base::{Cs, Rate, read_hex12};
use std::alloc::Global;
use stream_importance::Caps;
use toml::Table;
use toml_rules::{RuleErr, has_only, holds, needs, number, number_or, read_shares, text, value_at};

/// What the head of a file says of the ends of a link.
#[derive(Clone, Copy)]
pub struct Head {
    /// What the port at each end may book, in bit/s (IEEE Std 802.1Q-2018, 34.3).
    pub caps: Caps,
    /// How long leave timers last, in cs (10.7.11).
    pub leave_time: Cs,
    /// The addresses of the ends a and b, as numbers; where they aren't given, the ends are those that speak
    /// first.
    pub ends: Option<(u64, u64)>,
}

fn read_rate(table: &Table) -> Option<Rate>
    ensures { result ≡ rate_at (table_view table.now) }
{
    Rate::of_mbit(number(table, "rate")?)
}

fn read_caps(table: &Table) -> Option<Caps>
    ensures { result ≡ caps_at (table_view table.now) }
{
    let rate = read_rate(table)?;
    let (delta_a, delta_b) = read_shares(table)?;
    Some(Caps::new(rate, delta_a, delta_b))
}

fn read_leave_time(table: &Table) -> Option<u64>
    ensures value { result ≡ leave_time_at (table_view table.now) }
    ensures range { IfSome result (λ n. (60 ≤ n) × (n ≤ 100)) }
{
    let time = number_or(table, "leave_time", 60)?;
    if 60 <= time && time <= 100 {
        Some(time)
    } else {
        None
    }
}

fn read_address(table: &Table, key: &str) -> Option<u64>
    ensures { result ≡ address_at key.now (table_view table.now) }
{
    let address = read_hex12(text(table, key)?)?;
    Some(address.get())
}

/// The addresses of both ends, which differ.
fn read_two_addresses(table: &Table) -> Option<Option<(u64, u64)>>
    ensures { result ≡ two_addresses (table_view table.now) }
{
    let a = read_address(table, "a")?;
    let b = read_address(table, "b")?;
    if a == b { None } else { Some(Some((a, b))) }
}

/// Whether no address is given.
fn has_no_address(table: &Table) -> bool
    ensures { result ≡ has_no_address (table_view table.now) }
{
    value_at(table, "a").is_none() && value_at(table, "b").is_none()
}

/// The addresses of both ends, or none.
fn read_addresses(table: &Table) -> Option<Option<(u64, u64)>>
    ensures { result ≡ addresses_at (table_view table.now) }
{
    if has_no_address(table) {
        Some(None)
    } else {
        read_two_addresses(table)
    }
}

const HEAD_KEYS: [&str; 6] = ["rate", "delta_a", "delta_b", "leave_time", "a", "b"];

/// The head of a table, or the first rule that fails: rules 61 to 64.
fn read_head(table: &Table) -> Result<Head, RuleErr>
    ensures head { Reads (λ h. h) result (head_of (table_view table.now)) }
    ensures time { IfOk result (λ h. IsTime h.leave_time) }
{
    holds(61, has_only(table, &HEAD_KEYS))?;
    let caps = needs(62, read_caps(table))?;
    let time = needs(63, read_leave_time(table))?;
    let ends = needs(64, read_addresses(table))?;
    Ok(Head {
        caps,
        leave_time: Cs(time),
        ends,
    })
}

/// The head of some octets, or why there is none.
pub(crate) fn head_in(alloc: Global, octets: &[u8]) -> Result<Head, ReplayErr>
    ensures head { Gives (λ h. h) cause_told result (head_in octets.now) }
    ensures time { IfOk result (λ h. IsTime h.leave_time) }
{
    let table = table_of(alloc, octets)?;
    Ok(read_head(&table)?)
}
