//! The lines of a port's margins. Each is put at the end of a text.

ghost use Rattle.std.specs.Prelude.{◌≡◌, ◌++◌, OnOk};
ghost use Rattle.port_margins.specs.Lines.{line_start, margin_end, margin_line, refused_start, refused_end, refused_line, short_line, cbs_slopes, cbs_credits, cbs_end, cbs_line, wait_line, shortfall};

use crate::cbs::Cbs;
use report_words::{class_name, put, put_octets, yes_or_no};
use srp_base::NoMemory;
use stream_importance::{Caps, Want};

// How the line of some classes at a port begins.
fn put_start(out: &mut Vec<u8>, word: &str, port: &[u8], classes: &str) -> Result<(), NoMemory>
    ensures { OnOk result (out.new.items
        ≡ out.old.items ++ line_start word.now port.now classes.now) }
{
    put(out, word)?;
    put_octets(out, port)?;
    put(out, " ")?;
    put(out, classes)
}

// What is booked, the cap, and what is left of it.
fn put_margin_end(out: &mut Vec<u8>, booked: u64, cap: u64) -> Result<(), NoMemory>
    ensures { OnOk result (out.new.items ≡ out.old.items ++ margin_end booked cap) }
{
    let alloc = *out.allocator();
    let left = cap.saturating_sub(booked);
    let numbers = format!(in alloc; " booked {booked} cap {cap} left {left}\n")?;
    put(out, &numbers)
}

/// The line of what some classes have booked at a port, with their cap and what is left of it, in
/// bit/s.
pub(crate) fn put_margin(
    out: &mut Vec<u8>,
    port: &[u8],
    classes: &str,
    booked: u64,
    cap: u64,
) -> Result<(), NoMemory>
    ensures { OnOk result (out.new.items
        ≡ out.old.items ++ margin_line port.now classes.now booked cap) }
{
    put_start(out, "margin ", port, classes)?;
    put_margin_end(out, booked, cap)
}

// Which stream a port refuses.
fn put_refused_start(
    out: &mut Vec<u8>,
    port: &[u8],
    name: &[u8],
    want: &Want,
) -> Result<(), NoMemory>
    ensures { OnOk result (out.new.items
        ≡ out.old.items ++ refused_start port.now name.now want.now) }
{
    let alloc = *out.allocator();
    let stream = want.stream;
    let class = class_name(want.class);
    let slope = want.slope;
    let id = format!(in alloc; " {stream} ")?;
    let asked = format!(in alloc; " {class} slope {slope}")?;
    put(out, "refused ")?;
    put_octets(out, port)?;
    put(out, &id)?;
    put_octets(out, name)?;
    put(out, &asked)
}

/// What a port has for a stream that doesn't fit there: the more important bookings and the cap, in
/// bit/s, and the failure code.
#[derive(Clone, Copy)]
pub(crate) struct Lack {
    pub more_important: u128,
    pub cap: u128,
    pub code: u8,
}

// By how much a slope misses.
fn short_of(slope: u64, lack: Lack) -> u128
    ensures { result ≡ shortfall slope lack.more_important lack.cap }
{
    u128::from(slope).saturating_sub(lack.cap.saturating_sub(lack.more_important))
}

// Why it does.
fn put_refused_end(out: &mut Vec<u8>, slope: u64, lack: Lack, heard: bool) -> Result<(), NoMemory>
    ensures { OnOk result (out.new.items ≡ out.old.items
        ++ refused_end slope lack.more_important lack.cap lack.code heard) }
{
    let alloc = *out.allocator();
    let short = short_of(slope, lack);
    let Lack {
        more_important,
        cap,
        code,
    } = lack;
    let listeners = yes_or_no(heard);
    let why = format!(in alloc;
        " more {more_important} cap {cap} short {short} code {code} listeners {listeners}\n"
    )?;
    put(out, &why)
}

/// The line of a stream of this name that a port refuses, with whether Listeners of it are
/// registered there.
pub(crate) fn put_refused(
    out: &mut Vec<u8>,
    port: &[u8],
    name: &[u8],
    want: &Want,
    lack: Lack,
    heard: bool,
) -> Result<(), NoMemory>
    ensures { OnOk result (out.new.items ≡ out.old.items
        ++ refused_line port.now name.now want.now lack.more_important lack.cap lack.code heard) }
{
    put_refused_start(out, port, name, want)?;
    put_refused_end(out, want.slope, lack, heard)
}

/// The line of what a port has booked and refuses together, of class A and of both classes, beside
/// the caps, in bit/s.
pub(crate) fn put_short(
    out: &mut Vec<u8>,
    port: &[u8],
    caps: Caps,
    class_a: u128,
    both: u128,
) -> Result<(), NoMemory>
    ensures { OnOk result (out.new.items
        ≡ out.old.items ++ short_line port.now class_a caps.class_a both caps.both) }
{
    let alloc = *out.allocator();
    let cap_a = caps.class_a;
    let cap_both = caps.both;
    let numbers = format!(in alloc; " A {class_a} of {cap_a} A+B {both} of {cap_both}\n")?;
    put(out, "short at ")?;
    put_octets(out, port)?;
    put(out, &numbers)
}

// The slopes of a class's shaper, up to its credits.
fn put_slopes(out: &mut Vec<u8>, cbs: Cbs) -> Result<(), NoMemory>
    ensures { OnOk result (out.new.items ≡ out.old.items ++ cbs_slopes cbs) }
{
    let alloc = *out.allocator();
    let idle = cbs.idle_slope;
    let send = cbs.send_slope;
    let slopes = format!(in alloc; " idleslope {idle} sendslope -{send} hicredit ")?;
    put(out, &slopes)
}

// These.
fn put_credits(out: &mut Vec<u8>, cbs: Cbs) -> Result<(), NoMemory>
    ensures { OnOk result (out.new.items ≡ out.old.items ++ cbs_credits cbs) }
{
    let alloc = *out.allocator();
    let hi = cbs.hi_credit;
    let lo = cbs.lo_credit;
    let credits = format!(in alloc; "{hi} locredit -{lo}\n")?;
    put(out, &credits)
}

// Both.
fn put_cbs_end(out: &mut Vec<u8>, cbs: Cbs) -> Result<(), NoMemory>
    ensures { OnOk result (out.new.items ≡ out.old.items ++ cbs_end cbs) }
{
    put_slopes(out, cbs)?;
    put_credits(out, cbs)
}

/// The line of the shaper of a class at a port.
pub(crate) fn put_cbs(out: &mut Vec<u8>, port: &[u8], class: &str, cbs: Cbs) -> Result<(), NoMemory>
    ensures { OnOk result (out.new.items ≡ out.old.items ++ cbs_line port.now class.now cbs) }
{
    put_start(out, "cbs ", port, class)?;
    put_cbs_end(out, cbs)
}

/// The line of how long a frame of class B waits at a port, in bit times and in µs.
pub(crate) fn put_wait(
    out: &mut Vec<u8>,
    port: &[u8],
    bits: u64,
    micros: u128,
) -> Result<(), NoMemory>
    ensures { OnOk result (out.new.items ≡ out.old.items ++ wait_line port.now bits micros) }
{
    let alloc = *out.allocator();
    let numbers = format!(in alloc; " bits {bits} us {micros}\n")?;
    put_start(out, "wait ", port, "B")?;
    put(out, &numbers)
}
