//! The shares of a port's rate that SR class A and class B may have.

ghost use Rattle.std.specs.Prelude.{◌≡◌, ◌+◌, ◌≤◌, IfSome};
ghost use Rattle.toml.specs.View.{table_view};
ghost use Rattle.toml_rules.specs.Shares.{share_at, shares_at};

use crate::fields::{number_or, within};
use srp_base::Percent;
use toml::Table;

fn read_share(table: &Table, key: &str, default: u64) -> Option<Percent>
    ensures { result ≡ share_at key.now default (table_view table.now) }
{
    percent(within(0, 90, number_or(table, key, default)))
}

/// A number that is known to be a percentage.
fn percent(number: Option<u64>) -> Option<Percent>
    requires { IfSome number (λ n. n ≤ 90) }
    ensures { result ≡ number }
{
    match number {
        Some(n) => Percent::new(n),
        None => None,
    }
}

/// The shares of class A and class B in percent of a port's rate (deltaBandwidth: IEEE Std
/// 802.1Q-2018, 34.3), at the keys `delta_a` and `delta_b`: 75 and 0 where a key is missing. None
/// where a value is no whole number from 0 to 90, or the two are more than 90 together.
pub fn read_shares(table: &Table) -> Option<(Percent, Percent)>
    ensures shares { result ≡ shares_at (table_view table.now) }
    ensures together { IfSome result (λ s. s.0 + s.1 ≤ 90) }
{
    let delta_a = read_share(table, "delta_a", 75)?;
    let delta_b = read_share(table, "delta_b", 0)?;
    if delta_a.get() + delta_b.get() <= 90 {
        Some((delta_a, delta_b))
    } else {
        None
    }
}
