//! The lines of a replay that aren't link_replay's.

ghost use Rattle.std.specs.Prelude.{◌≡◌, ◌++◌, OnOk, string_bytes};
ghost use Rattle.replay_words.specs.Lines.{other_line, malformed_line, cut_line, double_line};

use link_replay::{End, write_end_front, write_moment};
use mrpdu_codec::AppForm;
use msrp_codec::MsrpKey;
use pdu_words::{app_name, write_cut, write_malformed, write_stream_key};
use srp_base::{Cs, Mac};
use std::alloc::AllocError;
use std::fmt::Write;

/// A frame of MRP is of none of the ends.
pub(crate) fn write_other(out: &mut String, at: Cs, address: Mac) -> Result<(), AllocError>
    ensures { OnOk result (string_bytes out.new ≡ string_bytes out.old ++ other_line at address) }
{
    write_moment(out, at)?;
    writeln!(out, " other {address}")
}

/// An end sent a PDU that breaks at an offset.
pub(crate) fn write_broken_pdu(
    out: &mut String,
    at: Cs,
    who: End,
    app: AppForm,
    place: u32,
) -> Result<(), AllocError>
    ensures { OnOk result (string_bytes out.new
        ≡ string_bytes out.old ++ malformed_line at who app place) }
{
    write_end_front(out, at, who)?;
    out.push_str(app_name(app))?;
    write_malformed(out, place)
}

/// The capture has so many octets of a frame of an end, of so many.
pub(crate) fn write_cut_pdu(
    out: &mut String,
    at: Cs,
    who: End,
    app: AppForm,
    got: usize,
    whole: u32,
) -> Result<(), AllocError>
    ensures { OnOk result (string_bytes out.new
        ≡ string_bytes out.old ++ cut_line at who app got whole) }
{
    write_end_front(out, at, who)?;
    out.push_str(app_name(app))?;
    write_cut(out, got, whole)
}

/// An end declares a Talker Advertise and a Talker Failed of one stream.
pub(crate) fn write_double(
    out: &mut String,
    at: Cs,
    who: End,
    key: MsrpKey,
) -> Result<(), AllocError>
    ensures { OnOk result (string_bytes out.new ≡ string_bytes out.old ++ double_line at who key) }
{
    write_end_front(out, at, who)?;
    out.push_str("says ")?;
    write_stream_key(out, key)?;
    out.push_str(" advertise and failed\n")
}
