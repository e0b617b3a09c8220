//! The lines of what is needed. Each is put at the end of a text.

ghost use Rattle.std.specs.Prelude.{◌≡◌, ◌++◌, OnOk, Some};
ghost use Rattle.port_needs.specs.Lines.{needs_start, never_line, rate_words as rate_words_spec, shares_words};

use crate::shares::Shares;
use report_words::{put, put_octets};
use srp_base::{NoMemory, Rate};
use stream_importance::Caps;

/// How the line of a port begins for which so much is wished, in bit/s.
pub(crate) fn put_start(
    out: &mut Vec<u8>,
    port: &[u8],
    caps: Caps,
    class_a: u128,
    both: u128,
) -> Result<(), NoMemory>
    ensures { OnOk result (out.new.items
        ≡ out.old.items ++ needs_start port.now caps class_a both) }
{
    let alloc = *out.allocator();
    let Caps {
        class_a: cap_a,
        both: cap_both,
    } = caps;
    let numbers = format!(in alloc; " A {class_a} of {cap_a} A+B {both} of {cap_both}")?;
    put(out, "needs ")?;
    put_octets(out, port)?;
    put(out, &numbers)
}

/// The least shares that suffice, in percent.
pub(crate) fn put_shares(out: &mut Vec<u8>, shares: Option<Shares>) -> Result<(), NoMemory>
    ensures { OnOk result (out.new.items ≡ out.old.items ++ shares_words shares) }
{
    match shares {
        Some(shares) => put_some_shares(out, shares),
        None => put(out, " delta_a none delta_b none"),
    }
}

// Those that there are.
fn put_some_shares(out: &mut Vec<u8>, shares: Shares) -> Result<(), NoMemory>
    ensures { OnOk result (out.new.items ≡ out.old.items ++ shares_words (Some shares)) }
{
    let alloc = *out.allocator();
    let Shares { delta_a, delta_b } = shares;
    let words = format!(in alloc; " delta_a {delta_a} delta_b {delta_b}")?;
    put(out, &words)
}

// The words of a rate.
fn rate_words(rate: Option<Rate>) -> &'static str
    ensures { result.now ≡ rate_words_spec rate }
{
    match rate {
        None => " rate none\n",
        Some(Rate::M100) => " rate 100\n",
        Some(Rate::G1) => " rate 1000\n",
        Some(Rate::G10) => " rate 10000\n",
    }
}

/// The least rate that suffices, in Mb/s, and the line's end.
pub(crate) fn put_rate(out: &mut Vec<u8>, rate: Option<Rate>) -> Result<(), NoMemory>
    ensures { OnOk result (out.new.items ≡ out.old.items ++ rate_words_spec rate) }
{
    put(out, rate_words(rate))
}

/// The line of a stream that no link helps, with the failure code and the port that gives it.
pub(crate) fn put_never(
    out: &mut Vec<u8>,
    name: &[u8],
    code: u8,
    port: &[u8],
) -> Result<(), NoMemory>
    ensures { OnOk result (out.new.items ≡ out.old.items ++ never_line name.now code port.now) }
{
    let alloc = *out.allocator();
    let why = format!(in alloc; " code {code} at ")?;
    put(out, "never ")?;
    put_octets(out, name)?;
    put(out, &why)?;
    put_octets(out, port)?;
    put(out, "\n")
}
