//! A file to be replayed to what is printed of it.

ghost use Rattle.std.specs.Prelude.{◌≡◌, ◌<◌, ◌^◌, ◌++◌, length, Ok, IfOk, OnOk, string_bytes};
ghost use Rattle.std.specs.List.{AllByRecursion};
ghost use Rattle.srp_base.specs.Results.{Gives};
ghost use Rattle.capture_file.specs.Packets.{capture_in, packets_in};
ghost use Rattle.capture_file.specs.Reading.{reading};
ghost use Rattle.mrp_participant.specs.State.{IsTime};
ghost use Rattle.replay_words.specs.Replay.{run_text, after_run, capture_text, cause_told, replayed};
ghost use Rattle.replay_words.specs.Seen.{new_seen};

use crate::counts::Counts;
use crate::cut::parts_of;
use crate::ends::Ends;
use crate::error::ReplayErr;
use crate::head::{Head, head_in};
use crate::seen::Link;
use capture_file::{Capture, CaptureErr, Record, read_capture};
use pdu_words::write_broken;
use srp_base::NoMemory;
use std::alloc::Global;
use std::fmt::Write;

/// What is printed of a file that is a TOML head, the line `=== capture`, and the octets of a
/// capture: by moment, in the order of the frames, what stands at the ends of the link, what is owed
/// there, and what is broken; then where the capture breaks off, if it does, and the counts. Of
/// octets that are no capture, or that have an interface of a link type whose frames aren't read, a
/// line says so. The file has fewer than 2^32 octets.
///
/// # Errors
///
/// `NoLine` where no line is `=== capture`; `NotToml` where what stands before the first such line
/// is no TOML; `Rule` with the first rule, 61 to 64, that the head breaks; and `NoMemory`.
pub fn replayed_text(alloc: Global, octets: &[u8]) -> Result<String, ReplayErr>
    requires { length octets.now < 2 ^ 32 }
    ensures { Gives string_bytes cause_told result (replayed octets.now) }
{
    let Some((front, behind)) = parts_of(octets) else {
        return Err(ReplayErr::NoLine);
    };
    let head = head_in(alloc, front)?;
    Ok(capture_text(alloc, &head, behind)?)
}

// What is printed of a capture's octets.
#[tactic(auto, unfolding(crate::specs::Replay::capture_text))]
fn capture_text(alloc: Global, head: &Head, octets: &[u8]) -> Result<String, NoMemory>
    requires few { length octets.now < 2 ^ 32 }
    requires time { IsTime head.now.leave_time }
    ensures { IfOk result (λ text. string_bytes text
        ≡ capture_text head.now (reading octets.now)) }
{
    let mut out = String::new(alloc);
    match read_capture(alloc, octets) {
        Ok(capture) => write_capture(alloc, &mut out, head, &capture)?,
        Err(CaptureErr::NotCapture) => out.push_str("not a capture\n")?,
        Err(CaptureErr::OtherLink(number)) => writeln!(out, "link type {number}")?,
        Err(CaptureErr::NoMemory) => return Err(NoMemory),
    }
    Ok(out)
}

// What is printed of a capture's frames.
#[tactic(auto, unfolding(crate::specs::Replay::capture_text))]
fn write_capture(
    alloc: Global,
    out: &mut String,
    head: &Head,
    capture: &Capture<'_>,
) -> Result<(), NoMemory>
    requires few { AllByRecursion (λ r. length r.octets.now < 2 ^ 32) capture.now.records.items }
    requires time { IsTime head.now.leave_time }
    ensures { OnOk result (string_bytes out.new
        ≡ string_bytes out.old ++ capture_text head.now (Ok (capture_in capture.now))) }
{
    let records = capture.records.as_slice();
    let ends = Ends::of(&head.ends, records);
    let counts = write_run(alloc, out, head, &ends, records)?;
    write_broken(out, capture.broken)?;
    Ok(counts.write(out)?)
}

// What is printed of some frames, and of what is on its way behind the last. Answers the counts.
#[tactic(auto, unfolding(crate::specs::Replay::run_text, crate::specs::Replay::after_run))]
fn write_run(
    alloc: Global,
    out: &mut String,
    head: &Head,
    ends: &Ends,
    records: &[Record<'_>],
) -> Result<Counts, NoMemory>
    requires few { AllByRecursion (λ r. length r.octets.now < 2 ^ 32) records.now }
    requires time { IsTime head.now.leave_time }
    ensures text { OnOk result (string_bytes out.new ≡ string_bytes out.old
        ++ run_text head.now.caps ends.now (new_seen head.now.leave_time)
        (packets_in records.now)) }
    ensures counts { IfOk result (λ counts. counts
        ≡ (after_run ends.now (new_seen head.now.leave_time) (packets_in records.now)).counts) }
{
    let mut link = Link::new(alloc, head.leave_time);
    link.takes(out, &head.caps, ends, records)?;
    link.settle(out, &head.caps)?;
    Ok(link.counts())
}
