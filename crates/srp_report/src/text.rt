//! The report of a run.

ghost use Rattle.std.specs.Prelude.{◌≡◌, ◌++◌, IfOk, OnOk};
ghost use Rattle.srp_report.specs.Report.{before_frames, behind_frames, report_text};

use crate::flows::put_flows;
use crate::heard::put_nodes;
use crate::ports::put_ports;
use frame_flow::FlowResult;
use report_words::{put_end, put_ticks};
use srp_base::NoMemory;
use std::alloc::Global;
use topology_file::Scenario;
use world_core::Run;

/// The report of a run of a scenario, in octets: its length in ticks; for each port, link by link,
/// end `a` first, how many PDUs it sent, their octets, and how many malformed PDUs it discarded,
/// then each VID, each Talker with why it failed, if it did, and its latency in ns, and each stream
/// with Listeners with what they declare (35.2.2.7.2), all that is registered there with its
/// Registrar's state, IN or LV (IEEE Std 802.1Q-2018, 10.7.8), and each stream that is booked there
/// with its slope in bit/s and the moment in cs since when; for each station, in the order of the
/// nodes, what it hears of each stream that it listens to, in the order of the file; where the
/// scenario has frames, for each port of their flow how many copies came to which fate, and each
/// that departed, ascending by start, in bit times of the port from the run's start; and whether
/// the network is quiet and in step at the end.
pub fn report(
    alloc: Global,
    scenario: &Scenario,
    run: &Run,
    flow: &FlowResult,
) -> Result<Vec<u8>, NoMemory>
    ensures { IfOk result (λ text. text.items
        ≡ report_text scenario.now run.now.world run.now.journal.ticks flow.now.ports) }
{
    let mut out = text_before(alloc, scenario, run)?;
    put_flows(&mut out, scenario, run.world.tree(), flow)?;
    put_behind(&mut out, run)?;
    Ok(out)
}

/// What stands before the lines of the frames.
pub(crate) fn text_before(
    alloc: Global,
    scenario: &Scenario,
    run: &Run,
) -> Result<Vec<u8>, NoMemory>
    ensures { IfOk result (λ text. text.items
        ≡ before_frames scenario.now run.now.world run.now.journal.ticks) }
{
    let mut out = Vec::new(alloc);
    put_ticks(&mut out, scenario.ticks)?;
    put_ports(&mut out, scenario, &run.world, run.journal.ticks.as_slice())?;
    put_nodes(&mut out, scenario, &run.world)?;
    Ok(out)
}

/// Puts down what stands behind them.
pub(crate) fn put_behind(out: &mut Vec<u8>, run: &Run) -> Result<(), NoMemory>
    ensures { OnOk result (out.new.items ≡ out.old.items ++ behind_frames run.now.world) }
{
    put_end(out, run.world.quiet(), run.world.in_step())?;
    Ok(())
}
