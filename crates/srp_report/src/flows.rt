//! The lines of the frames.

ghost use Rattle.std.specs.Prelude.{◌≡◌, ◌++◌, ℕ, List, codes, flat_map, IfOk, OnOk};
ghost use Rattle.std.specs.Fmt.{decimal};
ghost use Rattle.frame_flow.specs.declared.result.Fate.{Fate};
ghost use Rattle.srp_report.specs.FrameLines.{frames_line, depart_line, fates_lines, flow_part, flow_parts};
ghost use Rattle.srp_report.specs.Fates.{fate_counts, line_start as line_start_spec, line_from};

use crate::departures::{FateCounts, Outcomes, SentFrame};
use frame_flow::{FlowResult, PortFlow};
use report_words::{port_name, put, put_number, put_octets};
use srp_base::NoMemory;
use std::alloc::Global;
use topology_file::Scenario;
use tree_topology::Tree;

// About how many octets the line of a departure takes.
const LINE: usize = 80;

/// The lines of the frames at all ports, where the scenario has frames.
pub(crate) fn put_flows(
    out: &mut Vec<u8>,
    scenario: &Scenario,
    tree: &Tree,
    flow: &FlowResult,
) -> Result<(), NoMemory>
    ensures { OnOk result (out.new.items
        ≡ out.old.items ++ flow_parts scenario.now tree.now.links flow.now.ports) }
{
    if scenario.frames.len() == 0 {
        return Ok(());
    }
    put_each(out, scenario, tree, flow.ports.as_slice())
}

// The lines of the frames at these ports.
fn put_each(
    out: &mut Vec<u8>,
    scenario: &Scenario,
    tree: &Tree,
    flows: &[PortFlow],
) -> Result<(), NoMemory>
    ensures { OnOk result (out.new.items
        ≡ out.old.items ++ flat_map (flow_part scenario.now tree.now.links) flows.now) }
{
    for flow in flows {
        put_flow(out, scenario, tree, flow)?;
    }
    Ok(())
}

// The lines of the frames at a port.
fn put_flow(
    out: &mut Vec<u8>,
    scenario: &Scenario,
    tree: &Tree,
    flow: &PortFlow,
) -> Result<(), NoMemory>
    ensures { OnOk result (out.new.items
        ≡ out.old.items ++ flow_part scenario.now tree.now.links flow.now) }
{
    let alloc = *out.allocator();
    let port = port_name(alloc, scenario.nodes.as_slice(), tree, flow.at)?;
    put_fates(out, port.as_slice(), flow)
}

/// The lines of what became of the copies at a port of this name.
pub(crate) fn put_fates(out: &mut Vec<u8>, port: &[u8], flow: &PortFlow) -> Result<(), NoMemory>
    ensures { OnOk result (out.new.items
        ≡ out.old.items ++ fates_lines port.now flow.now.fates) }
{
    let alloc = *out.allocator();
    let Outcomes { counts, sent } = Outcomes::of(alloc, flow)?;
    reserve_lines(out, sent.len());
    put_counts(out, port, counts)?;
    put_departures(out, port, sent.as_slice())
}

// Takes the memory for the lines of so many departures at once, where it is there: a text that
// grows little by little is moved again and again.
fn reserve_lines(out: &mut Vec<u8>, count: usize)
    ensures { out.new.items ≡ out.old.items }
{
    // The lines may take less, so that a refusal is no want of memory yet.
    match out.reserve(count.saturating_mul(LINE)) {
        Ok(()) | Err(_) => {}
    }
}

// The line of how many copies came to which fate.
fn put_counts(out: &mut Vec<u8>, port: &[u8], counts: FateCounts) -> Result<(), NoMemory>
    ensures { (fates : List (ℕ × Fate)) → counts ≡ fate_counts fates
        → OnOk result (out.new.items ≡ out.old.items ++ frames_line port.now fates) }
{
    let alloc = *out.allocator();
    let FateCounts {
        departed,
        unbooked,
        novlan,
        left,
    } = counts;
    let text = format!(in alloc;
        " departed {departed} unbooked {unbooked} novlan {novlan} left {left}\n"
    )?;
    put(out, "frames ")?;
    put_octets(out, port)?;
    put(out, &text)
}

// The lines of the copies that depart.
fn put_departures(out: &mut Vec<u8>, port: &[u8], sent: &[SentFrame]) -> Result<(), NoMemory>
    ensures { OnOk result (out.new.items
        ≡ out.old.items ++ flat_map (depart_line port.now) sent.now) }
{
    let alloc = *out.allocator();
    let start = line_start(alloc, port)?;
    put_lines(out, start.as_slice(), sent)
}

// How the line of a departure from a port begins.
fn line_start(alloc: Global, port: &[u8]) -> Result<Vec<u8>, NoMemory>
    ensures { IfOk result (λ v. v.items ≡ line_start_spec port.now) }
{
    let mut start = Vec::new(alloc);
    put(&mut start, "depart ")?;
    put_octets(&mut start, port)?;
    put(&mut start, " frame ")?;
    Ok(start)
}

// The lines of the copies that depart, each beginning so.
fn put_lines(out: &mut Vec<u8>, start: &[u8], sent: &[SentFrame]) -> Result<(), NoMemory>
    ensures { OnOk result (out.new.items
        ≡ out.old.items ++ flat_map (line_from start.now) sent.now) }
{
    for d in sent {
        put_line(out, start, *d)?;
    }
    Ok(())
}

// The line of a copy that departs.
fn put_line(out: &mut Vec<u8>, start: &[u8], d: SentFrame) -> Result<(), NoMemory>
    ensures { OnOk result (out.new.items ≡ out.old.items ++ line_from start.now d) }
{
    put_octets(out, start)?;
    put_times(out, d)
}

// A copy's frame, and from when to when it departs.
fn put_times(out: &mut Vec<u8>, d: SentFrame) -> Result<(), NoMemory>
    ensures { OnOk result (out.new.items ≡ out.old.items ++ decimal d.frame
        ++ codes " start " ++ decimal d.start ++ codes " end " ++ decimal d.end ++ codes "\n") }
{
    put_number(out, u64::from(d.frame))?;
    put_labelled(out, " start ", d.start)?;
    put_labelled(out, " end ", d.end)?;
    put(out, "\n")
}

// A number behind its label.
fn put_labelled(out: &mut Vec<u8>, label: &str, number: u64) -> Result<(), NoMemory>
    ensures { OnOk result (out.new.items ≡ out.old.items ++ label.now ++ decimal number) }
{
    put(out, label)?;
    put_number(out, number)
}
