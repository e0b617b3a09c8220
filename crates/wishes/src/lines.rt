//! The lines of wishes. Each is put at the end of a text.

ghost use Rattle.std.specs.Prelude.{◌≡◌, ◌++◌, option_map, OnOk};
ghost use Rattle.std.specs.Option.{option_map_or};
ghost use Rattle.report_words.specs.Names.{port_name as port_name_spec};
ghost use Rattle.wishes.specs.Text.{at_words, code_words, granted_end, granted_line, named_wish, refused_line, short_words, silent_line, stream_name as stream_name_spec, wish_words, wishes_line, within_words};

use crate::wish::Wish;
use report_words::{node_name, put, put_number, put_octets, put_port_name, yes_or_no};
use srp_base::{EgressPort, NoMemory};
use topology_file::{Scenario, StreamEntry};

/// How many wishes there are, and of how many came what.
#[derive(Clone, Copy)]
pub(crate) struct Counts {
    pub(crate) all: usize,
    pub(crate) granted: usize,
    pub(crate) refused: usize,
    pub(crate) silent: usize,
}

/// The line of how many there are.
pub(crate) fn put_counts(out: &mut Vec<u8>, counts: Counts) -> Result<(), NoMemory>
    ensures { OnOk result (out.new.items ≡ out.old.items
        ++ wishes_line counts.all counts.granted counts.refused counts.silent) }
{
    let alloc = *out.allocator();
    let Counts {
        all,
        granted,
        refused,
        silent,
    } = counts;
    let line = format!(in alloc;
        "wishes {all} granted {granted} refused {refused} silent {silent}\n"
    )?;
    put(out, &line)
}

/// The name of the stream at a place of the file; empty where there is none.
pub(crate) fn stream_name(streams: &[StreamEntry], place: usize) -> &[u8]
    ensures { result.now ≡ stream_name_spec streams.now place }
{
    match streams.get(place) {
        Some(entry) => entry.name.as_slice(),
        None => [].as_slice(),
    }
}

// Whose wish it is.
fn put_wish(out: &mut Vec<u8>, scenario: &Scenario, wish: &Wish) -> Result<(), NoMemory>
    ensures { OnOk result (out.new.items ≡ out.old.items ++ named_wish scenario.now wish.now) }
{
    let stream = stream_name(scenario.streams.as_slice(), wish.stream);
    let station = node_name(scenario.nodes.as_slice(), wish.station);
    put_names(out, stream, station)
}

fn put_names(out: &mut Vec<u8>, stream: &[u8], station: &[u8]) -> Result<(), NoMemory>
    ensures { OnOk result (out.new.items ≡ out.old.items ++ wish_words stream.now station.now) }
{
    put_octets(out, stream)?;
    put(out, " ")?;
    put_octets(out, station)
}

// The port that refuses.
fn put_at(out: &mut Vec<u8>, scenario: &Scenario, at: Option<EgressPort>) -> Result<(), NoMemory>
    ensures { OnOk result (out.new.items ≡ out.old.items ++ at_words (option_map
        (port_name_spec scenario.now.nodes scenario.now.tree.links) at)) }
{
    match at {
        Some(at) => put_port(out, scenario, at),
        None => Ok(()),
    }
}

fn put_port(out: &mut Vec<u8>, scenario: &Scenario, at: EgressPort) -> Result<(), NoMemory>
    ensures { OnOk result (out.new.items ≡ out.old.items
        ++ at_words (Some (port_name_spec scenario.now.nodes scenario.now.tree.links at))) }
{
    put(out, " at ")?;
    put_port_name(out, scenario.nodes.as_slice(), &scenario.tree, at)
}

// The failure code.
fn put_code(out: &mut Vec<u8>, code: u8) -> Result<(), NoMemory>
    ensures { OnOk result (out.new.items ≡ out.old.items ++ code_words code) }
{
    put(out, " code ")?;
    put_number(out, u64::from(code))
}

// By how many bit/s a stream misses.
fn put_short(out: &mut Vec<u8>, short: Option<u64>) -> Result<(), NoMemory>
    ensures { OnOk result (out.new.items ≡ out.old.items ++ short_words short) }
{
    match short {
        Some(bits) => put_bits(out, bits),
        None => Ok(()),
    }
}

fn put_bits(out: &mut Vec<u8>, bits: u64) -> Result<(), NoMemory>
    ensures { OnOk result (out.new.items ≡ out.old.items ++ short_words (Some bits)) }
{
    put(out, " short ")?;
    put_number(out, bits)
}

/// The line of a wish that is refused, with the port, if one is known, the failure code, and by how
/// many bit/s the stream misses, if it is for want of bandwidth.
pub(crate) fn put_refused(
    out: &mut Vec<u8>,
    scenario: &Scenario,
    wish: &Wish,
    at: Option<EgressPort>,
    code: u8,
    short: Option<u64>,
) -> Result<(), NoMemory>
    ensures { OnOk result (out.new.items ≡ out.old.items ++ refused_line
        (named_wish scenario.now wish.now)
        (option_map (port_name_spec scenario.now.nodes scenario.now.tree.links) at) code short) }
{
    put(out, "refused ")?;
    put_wish(out, scenario, wish)?;
    put_at(out, scenario, at)?;
    put_code(out, code)?;
    put_short(out, short)?;
    put(out, "\n")
}

/// The line of a wish of which nothing came.
pub(crate) fn put_silent(
    out: &mut Vec<u8>,
    scenario: &Scenario,
    wish: &Wish,
) -> Result<(), NoMemory>
    ensures { OnOk result (out.new.items
        ≡ out.old.items ++ silent_line (named_wish scenario.now wish.now)) }
{
    put(out, "silent ")?;
    put_wish(out, scenario, wish)?;
    put(out, "\n")
}

// In how many ns the stream's frames are at the station.
fn put_within(out: &mut Vec<u8>, within: Option<u128>) -> Result<(), NoMemory>
    ensures { OnOk result (out.new.items ≡ out.old.items ++ within_words within) }
{
    match within {
        Some(ns) => put_ns(out, ns),
        None => Ok(()),
    }
}

fn put_ns(out: &mut Vec<u8>, ns: u128) -> Result<(), NoMemory>
    ensures { OnOk result (out.new.items ≡ out.old.items ++ within_words (Some ns)) }
{
    let words = format!(in *out.allocator(); " within {ns}")?;
    put(out, &words)
}

// How many ports the way has, whether the VLAN is there, and the bound on the delay.
fn put_granted_end(
    out: &mut Vec<u8>,
    ports: usize,
    vlan: bool,
    within: Option<u128>,
) -> Result<(), NoMemory>
    ensures { OnOk result (out.new.items ≡ out.old.items ++ granted_end ports vlan within) }
{
    put(out, " ports ")?;
    put_number(out, ports as u64)?;
    put(out, " vlan ")?;
    put(out, yes_or_no(vlan))?;
    put_within(out, within)?;
    put(out, "\n")
}

/// The line of a wish that is granted, with the ports of its way, whether its VLAN is there, and
/// the bound on its frames' delay in ns, if there is one.
pub(crate) fn put_granted(
    out: &mut Vec<u8>,
    scenario: &Scenario,
    wish: &Wish,
    ports: usize,
    vlan: bool,
    within: Option<u128>,
) -> Result<(), NoMemory>
    ensures { OnOk result (out.new.items
        ≡ out.old.items ++ granted_line (named_wish scenario.now wish.now) ports vlan within) }
{
    put(out, "granted ")?;
    put_wish(out, scenario, wish)?;
    put_granted_end(out, ports, vlan, within)
}
