//! The lines that every report has. Each is put at the end of a text.

ghost use Rattle.std.specs.Prelude.{◌≡◌, ◌++◌, OnOk};
ghost use Rattle.report_words.specs.Lines.{end_lines, port_line, ticks_line};

use crate::tally::Tally;
use crate::text::{put, put_number, put_octets};
use crate::words::yes_or_no;
use srp_base::NoMemory;

/// Puts down the line of a run's length, in ticks of 1 cs.
pub fn put_ticks(out: &mut Vec<u8>, ticks: u64) -> Result<(), NoMemory>
    ensures { OnOk result (out.new.items ≡ out.old.items ++ ticks_line ticks) }
{
    put(out, "ticks ")?;
    put_number(out, ticks)?;
    put(out, "\n")
}

/// Puts down the line of what a port of this name sent and discarded.
pub fn put_tally(out: &mut Vec<u8>, port: &[u8], tally: Tally) -> Result<(), NoMemory>
    ensures { OnOk result (out.new.items ≡ out.old.items ++ port_line port.now tally) }
{
    let alloc = *out.allocator();
    let Tally {
        sent,
        octets,
        discarded,
    } = tally;
    let counts = format!(in alloc; " sent {sent} octets {octets} discarded {discarded}\n")?;
    put(out, "port ")?;
    put_octets(out, port)?;
    put(out, &counts)
}

/// Puts down the lines at the end of a report: whether the network is quiet and in step.
pub fn put_end(out: &mut Vec<u8>, quiet: bool, in_step: bool) -> Result<(), NoMemory>
    ensures { OnOk result (out.new.items ≡ out.old.items ++ end_lines quiet in_step) }
{
    put(out, "quiet ")?;
    put(out, yes_or_no(quiet))?;
    put(out, "\nin step ")?;
    put(out, yes_or_no(in_step))?;
    put(out, "\n")
}
