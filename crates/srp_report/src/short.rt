//! The summary of a run.

ghost use Rattle.std.specs.Prelude.{◌≡◌, ◌++◌, IfOk, OnOk};
ghost use Rattle.srp_report.specs.Summary.{size_lines, total_lines, count_lines, summary_text};

use crate::text::put_behind;
use crate::totals::{booked_in_all, ready_in_all, total_of_all};
use report_words::{Tally, put};
use srp_base::NoMemory;
use std::alloc::Global;
use topology_file::Scenario;
use world_core::Run;

/// The summary of a run of a scenario, in octets, a line for each number: how many nodes, links and
/// streams the scenario has, and for how many ticks of 1 cs it runs; how many PDUs the ports sent,
/// all together, and their octets; at the end how many bookings the ports have, a stream counted at
/// each port that has booked it, and for how many pairs of a station and a stream the station hears
/// Ready; and whether the network is quiet and in step then. Each sum stands still at the end of 64
/// bits.
pub fn summary(alloc: Global, scenario: &Scenario, run: &Run) -> Result<Vec<u8>, NoMemory>
    ensures { IfOk result (λ text. text.items
        ≡ summary_text scenario.now run.now.world run.now.journal.ticks) }
{
    let mut out = Vec::new(alloc);
    put_sizes(&mut out, scenario)?;
    let total = total_of_all(alloc, &run.world, run.journal.ticks.as_slice())?;
    put_total(&mut out, total)?;
    let booked = booked_in_all(alloc, &run.world)?;
    put_counts(&mut out, booked, ready_in_all(scenario, &run.world))?;
    put_behind(&mut out, run)?;
    Ok(out)
}

// The sizes of a scenario.
fn put_sizes(out: &mut Vec<u8>, scenario: &Scenario) -> Result<(), NoMemory>
    ensures { OnOk result (out.new.items ≡ out.old.items ++ size_lines scenario.now) }
{
    let alloc = *out.allocator();
    let nodes = scenario.nodes.len();
    let links = scenario.links.len();
    let streams = scenario.streams.len();
    let ticks = scenario.ticks;
    let text = format!(in alloc;
        "nodes {nodes}\nlinks {links}\nstreams {streams}\nticks {ticks}\n"
    )?;
    put(out, &text)
}

// What went out.
fn put_total(out: &mut Vec<u8>, total: Tally) -> Result<(), NoMemory>
    ensures { OnOk result (out.new.items ≡ out.old.items ++ total_lines total) }
{
    let alloc = *out.allocator();
    let Tally { sent, octets, .. } = total;
    let text = format!(in alloc; "sent {sent}\noctets {octets}\n")?;
    put(out, &text)
}

// What is booked, and who hears Ready.
fn put_counts(out: &mut Vec<u8>, booked: u64, ready: u64) -> Result<(), NoMemory>
    ensures { OnOk result (out.new.items ≡ out.old.items ++ count_lines booked ready) }
{
    let alloc = *out.allocator();
    let text = format!(in alloc; "booked {booked}\nready {ready}\n")?;
    put(out, &text)
}
