//! The lines of what is known of delays.

ghost use Rattle.std.specs.Prelude.{◌≡◌, ◌++◌, OnOk};
ghost use Rattle.delay_report.specs.Lines.{conforms_line, delay_line, hop_line, quiet_line, steady_line, unbounded_line, word_or_none as word_or_none_spec};

use report_words::{class_name, put, put_octets, yes_or_no};
use srp_base::{Class, NoMemory, StreamId};

/// `steady yes` or `steady no`.
pub(crate) fn put_steady(out: &mut Vec<u8>, steady: bool) -> Result<(), NoMemory>
    ensures { OnOk result (out.new.items ≡ out.old.items ++ steady_line steady) }
{
    put(out, "steady ")?;
    put(out, yes_or_no(steady))?;
    put(out, "\n")
}

/// `unbounded A P`.
pub(crate) fn put_unbounded(out: &mut Vec<u8>, class: Class, port: &[u8]) -> Result<(), NoMemory>
    ensures { OnOk result (out.new.items ≡ out.old.items ++ unbounded_line class port.now) }
{
    put(out, "unbounded ")?;
    put(out, class_name(class))?;
    put(out, " ")?;
    put_octets(out, port)?;
    put(out, "\n")
}

/// `hop P ID A wait W late J`: bit times of the port, and ps.
pub(crate) fn put_hop(
    out: &mut Vec<u8>,
    port: &[u8],
    stream: StreamId,
    class: Class,
    wait: u128,
    late: u128,
) -> Result<(), NoMemory>
    ensures { OnOk result (out.new.items
        ≡ out.old.items ++ hop_line port.now stream class wait late) }
{
    let alloc = *out.allocator();
    let id = format!(in alloc; " {stream} ")?;
    let numbers = format!(in alloc; " wait {wait} late {late}\n")?;
    put(out, "hop ")?;
    put_octets(out, port)?;
    put(out, &id)?;
    put(out, class_name(class))?;
    put(out, &numbers)
}

/// `conforms ID yes`, `conforms ID no` or `conforms ID none`.
pub(crate) fn put_conforms(
    out: &mut Vec<u8>,
    stream: StreamId,
    conforms: Option<bool>,
) -> Result<(), NoMemory>
    ensures { OnOk result (out.new.items ≡ out.old.items ++ conforms_line stream conforms) }
{
    let alloc = *out.allocator();
    let id = format!(in alloc; "conforms {stream} ")?;
    put(out, &id)?;
    put(out, word_or_none(conforms))?;
    put(out, "\n")
}

// What a test says, or that there is nothing to test.
fn word_or_none(word: Option<bool>) -> &'static str
    ensures { result.now ≡ word_or_none_spec word }
{
    match word {
        Some(yes) => yes_or_no(yes),
        None => "none",
    }
}

/// `delay ID STATION hops N within T seen M frames K`: ns.
pub(crate) fn put_delay(
    out: &mut Vec<u8>,
    stream: StreamId,
    station: &[u8],
    way: WayDelay,
) -> Result<(), NoMemory>
    ensures { OnOk result (out.new.items
        ≡ out.old.items ++ delay_line stream station.now way.hops way.within way.seen way.frames) }
{
    let alloc = *out.allocator();
    let WayDelay {
        hops,
        within,
        seen,
        frames,
    } = way;
    let id = format!(in alloc; "delay {stream} ")?;
    let numbers = format!(in alloc; " hops {hops} within {within} seen {seen} frames {frames}\n")?;
    put(out, &id)?;
    put_octets(out, station)?;
    put(out, &numbers)
}

/// What is known of a stream's way to a station.
#[derive(Clone, Copy)]
pub(crate) struct WayDelay {
    /// How many ports it has.
    pub(crate) hops: usize,
    /// The most ns that a frame takes on it.
    pub(crate) within: u128,
    /// The most ns that a frame took.
    pub(crate) seen: u128,
    /// How many frames left its last port.
    pub(crate) frames: usize,
}

/// `quiet yes` or `quiet no`.
pub(crate) fn put_quiet(out: &mut Vec<u8>, quiet: bool) -> Result<(), NoMemory>
    ensures { OnOk result (out.new.items ≡ out.old.items ++ quiet_line quiet) }
{
    put(out, "quiet ")?;
    put(out, yes_or_no(quiet))?;
    put(out, "\n")
}
