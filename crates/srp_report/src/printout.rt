//! A run's report, made piece by piece: the lines of a port's departures are made when they are
//! asked for.

ghost use Rattle.std.specs.Prelude.{◌≡◌, ◌++◌, ◌<◌, [], None, length, OnOk, OnErr, IfOk, IfSome};
ghost use Rattle.srp_base.specs.Text.{whole_of};
ghost use Rattle.srp_report.specs.FrameLines.{flow_parts};
ghost use Rattle.srp_report.specs.Printout.{IsFront};
ghost use Rattle.srp_report.specs.Report.{report_text};

use crate::flows::put_fates;
use crate::text::{put_behind, text_before};
use frame_flow::{FlowResult, PortFlow};
use report_words::port_name;
use srp_base::NoMemory;
use std::alloc::Global;
use std::collections::VecDeque;
use std::marker::Model;
use std::mem;
use topology_file::Scenario;
use tree_topology::Tree;
use world_core::Run;

// The lines of the frames at a port, which aren't made yet. Contracts see their octets.
#[derive(Drop)]
struct PortLines {
    port: Vec<u8>,
    flow: PortFlow,
}

impl Model for PortLines {
    ghost use Rattle.std.specs.Prelude.{ℕ, List};
    ghost use Rattle.srp_report.specs.FrameLines.{fates_lines};

    ghost Value = { List ℕ };

    ghost view = { λ l. fates_lines l.port.items l.flow.fates };
}

/// A text that is made piece by piece. Contracts see the octets that are left of it.
#[derive(Drop)]
pub struct Printout {
    before: Vec<u8>,
    ports: VecDeque<PortLines>,
    behind: Vec<u8>,
}

impl Model for Printout {
    ghost use Rattle.std.specs.Prelude.{ℕ, List, ◌++◌};
    ghost use Rattle.srp_base.specs.Text.{whole_of};

    ghost Value = { List ℕ };

    ghost view = { λ p. p.before.items ++ whole_of p.ports.items ++ p.behind.items };
}

impl Printout {
    /// A text that is made already.
    pub fn of(text: Vec<u8>) -> Printout
        ensures { result ≡ text.items }
    {
        let alloc = *text.allocator();
        Printout {
            before: text,
            ports: VecDeque::new(alloc),
            behind: Vec::new(alloc),
        }
    }

    /// The report of a run of a scenario, as `report` makes it. The lines of a port's frames are
    /// made when they are handed out.
    pub fn of_run(
        alloc: Global,
        scenario: &Scenario,
        run: &Run,
        flow: FlowResult,
    ) -> Result<Printout, NoMemory>
        ensures { IfOk result (λ p. p
            ≡ report_text scenario.now run.now.world run.now.journal.ticks flow.ports) }
    {
        let before = text_before(alloc, scenario, run)?;
        let mut behind = Vec::new(alloc);
        put_behind(&mut behind, run)?;
        let ports = lines_of(alloc, scenario, run.world.tree(), flow)?;
        Ok(Printout {
            before,
            ports,
            behind,
        })
    }

    /// Puts octets behind the text. After want of memory it is as it was.
    pub fn add(&mut self, more: &[u8]) -> Result<(), NoMemory>
        ensures ok { OnOk result (self.new ≡ self.old ++ more.now) }
        ensures err { OnErr result (self.new ≡ self.old) }
    {
        self.behind.extend_from_slice(more)?;
        Ok(())
    }

    /// Hands out the next piece of the text, or None at its end. After want of memory the text is
    /// as it was, and isn't at its end.
    pub fn next_piece(&mut self) -> Result<Option<Vec<u8>>, NoMemory>
        ensures piece { IfOk result
            (λ o. IfSome o (λ piece. IsFront piece.items self.old self.new)) }
        ensures end { IfOk result (λ o. o ≡ None → self.old ≡ []) }
        ensures err { OnErr result (self.new ≡ self.old) }
        ensures left { OnErr result (0 < length self.old) }
    {
        if let Some(piece) = take_piece(&mut self.before) {
            return Ok(Some(piece));
        }
        let Some(lines) = self.ports.front() else {
            return Ok(take_piece(&mut self.behind));
        };
        let piece = lines.made()?;
        let _ = self.ports.pop_front();
        Ok(Some(piece))
    }
}

impl PortLines {
    // The lines, of which there is one at least.
    fn made(&self) -> Result<Vec<u8>, NoMemory>
        ensures whole { IfOk result (λ v. v.items ≡ self.now) }
        ensures some { 0 < length self.now }
    {
        let mut out = Vec::new(*self.port.allocator());
        put_fates(&mut out, self.port.as_slice(), &self.flow)?;
        Ok(out)
    }
}

// Takes all octets of a text, if there are any.
fn take_piece(text: &mut Vec<u8>) -> Option<Vec<u8>>
    ensures taken { IfSome result (λ piece. piece.items ≡ text.old.items) }
    ensures some { IfSome result (λ piece. 0 < length piece.items) }
    ensures none { result ≡ None → text.old.items ≡ [] }
    ensures left { text.new.items ≡ [] }
{
    let alloc = *text.allocator();
    if text.is_empty() {
        return None;
    }
    Some(mem::replace(text, Vec::new(alloc)))
}

// The lines of the frames at all ports, where the scenario has frames.
fn lines_of(
    alloc: Global,
    scenario: &Scenario,
    tree: &Tree,
    flow: FlowResult,
) -> Result<VecDeque<PortLines>, NoMemory>
    ensures { IfOk result (λ ports. whole_of ports.items
        ≡ flow_parts scenario.now tree.now.links flow.ports) }
{
    if scenario.frames.len() == 0 {
        return Ok(VecDeque::new(alloc));
    }
    let mut ports = VecDeque::new(alloc);
    let mut rest = VecDeque::from(flow.ports.into_vec());
    while let Some(flow) = rest.pop_front() {
        let port = port_name(alloc, scenario.nodes.as_slice(), tree, flow.at)?;
        ports.push_back(PortLines { port, flow })?;
    }
    Ok(ports)
}
