//! The printed lines of a ledger.

ghost use Rattle.std.specs.Prelude.{◌≡◌, ◌++◌, None, OnOk, IfOk, string_bytes};
ghost use Rattle.stream_importance.specs.Bandwidth.{caps_of};
ghost use Rattle.port_ledger.specs.Book.{fit_for};
ghost use Rattle.srpnet.specs.LedgerText.{booked_line, line_by, refused_line, sum_line, want_line, last_want as last_want_spec, stream_line, stream_lines, sum_lines, ledger_text as ledger_text_spec};

use crate::ledger::file::{LedgerFile, LedgerWant};
use port_ledger::Ledger;
use srp_base::{Class, Cs, StreamId};
use std::alloc::{AllocError, Global};
use std::fmt::Write;
use stream_importance::{Caps, Fit, Want};

/// The line of a booked stream.
fn write_booked(out: &mut String, want: &Want, since: Cs) -> Result<(), AllocError>
    ensures { OnOk result (string_bytes out.new
        ≡ string_bytes out.old ++ booked_line want.now since) }
{
    let stream = want.stream;
    let slope = want.slope;
    let tick = since.0;
    writeln!(out, "{stream} booked slope {slope} since {tick}")
}

/// The line of a stream that doesn't fit: what the more important streams take, and the cap, both
/// in bit/s, with the failure code.
fn write_refused(
    out: &mut String,
    want: &Want,
    more: u64,
    cap: u64,
    code: u8,
) -> Result<(), AllocError>
    ensures { OnOk result (string_bytes out.new
        ≡ string_bytes out.old ++ refused_line want.now more cap code) }
{
    let stream = want.stream;
    let slope = want.slope;
    writeln!(
        out,
        "{stream} refused slope {slope} more {more} cap {cap} code {code}"
    )
}

/// A line of sums.
fn write_sum(out: &mut String, classes: &str, sum: u64, cap: u64) -> Result<(), AllocError>
    ensures { OnOk result (string_bytes out.new
        ≡ string_bytes out.old ++ sum_line classes.now sum cap) }
{
    writeln!(out, "slope {classes} {sum} cap {cap}")
}

/// The line of a stream that isn't booked. Each want that a ledger keeps and hasn't booked doesn't
/// fit.
fn write_unbooked(out: &mut String, ledger: &Ledger, now: Cs, want: &Want) -> Result<(), AllocError>
    requires now { now.0 ≡ ledger.now.book.moment }
    ensures { OnOk result (string_bytes out.new
        ≡ string_bytes out.old
        ++ line_by want.now (fit_for ledger.now.book.moment ledger.now.book want.now) None) }
{
    ledger.within_caps();
    match ledger.fits(now, want) {
        Fit::TooLittle {
            more_important,
            cap,
            code,
        } => write_refused(out, want, more_important as u64, cap as u64, code),
        Fit::Fits => Ok(()),
    }
}

/// The line of a stream's want.
fn write_want(out: &mut String, ledger: &Ledger, now: Cs, want: &Want) -> Result<(), AllocError>
    requires now { now.0 ≡ ledger.now.book.moment }
    ensures { OnOk result (string_bytes out.new
        ≡ string_bytes out.old ++ want_line ledger.now.book want.now) }
{
    match ledger.booked(want.stream) {
        Some(since) => write_booked(out, want, since),
        None => write_unbooked(out, ledger, now, want),
    }
}

/// The last want of a stream.
fn last_want(wants: &[LedgerWant], stream: StreamId) -> Option<Want>
    ensures { result ≡ last_want_spec wants.now stream }
{
    match wants.iter().rev().find(|w| w.want.stream.0 == stream.0) {
        Some(w) => Some(w.want),
        None => None,
    }
}

/// The line of a stream.
fn write_stream(
    out: &mut String,
    ledger: &Ledger,
    now: Cs,
    wants: &[LedgerWant],
    stream: StreamId,
) -> Result<(), AllocError>
    requires now { now.0 ≡ ledger.now.book.moment }
    ensures { OnOk result (string_bytes out.new
        ≡ string_bytes out.old ++ stream_line ledger.now.book wants.now stream) }
{
    match last_want(wants, stream) {
        Some(want) => write_want(out, ledger, now, &want),
        None => Ok(()),
    }
}

/// The lines of all streams of a file.
fn write_streams(
    out: &mut String,
    ledger: &Ledger,
    now: Cs,
    file: &LedgerFile,
) -> Result<(), AllocError>
    requires now { now.0 ≡ ledger.now.book.moment }
    ensures { OnOk result (string_bytes out.new
        ≡ string_bytes out.old ++ stream_lines ledger.now.book file.now.wants file.now.streams) }
{
    let wants = file.wants.as_slice();
    let streams = file.streams.as_slice();
    for stream in streams {
        write_stream(out, ledger, now, wants, *stream)?;
    }
    Ok(())
}

/// The two lines of sums.
fn write_sums(out: &mut String, ledger: &Ledger, file: &LedgerFile) -> Result<(), AllocError>
    requires caps { ledger.now.book.caps ≡ caps_of file.now.rate file.now.delta_a file.now.delta_b }
    ensures { OnOk result (string_bytes out.new
        ≡ string_bytes out.old ++ sum_lines ledger.now.book) }
{
    let caps = Caps::new(file.rate, file.delta_a, file.delta_b);
    let class_a = ledger.slope(Class::A);
    let class_b = ledger.slope(Class::B);
    ledger.within_caps();
    write_sum(out, "A", class_a as u64, caps.class_a)?;
    write_sum(out, "A+B", (class_a + class_b) as u64, caps.both)
}

/// The text of a ledger, judged at its moment.
pub fn ledger_text(
    alloc: Global,
    file: &LedgerFile,
    ledger: &Ledger,
    now: Cs,
) -> Result<String, AllocError>
    requires now { now.0 ≡ ledger.now.book.moment }
    requires caps { ledger.now.book.caps ≡ caps_of file.now.rate file.now.delta_a file.now.delta_b }
    ensures { IfOk result (λ s. string_bytes s ≡ ledger_text_spec file.now ledger.now.book) }
{
    let mut out = String::new(alloc);
    write_streams(&mut out, ledger, now, file)?;
    write_sums(&mut out, ledger, file)?;
    Ok(out)
}
