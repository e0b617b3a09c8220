//! The audit: the replay of a text, and where it stops what is wrong there.

ghost use Rattle.std.specs.Prelude.{◌≡◌, ◌<◌, ◌^◌, ◌++◌, List, IfOk, OnOk};
ghost use Rattle.tree_topology.specs.Topology.{HasNode};
ghost use Rattle.world_core.specs.declared.journal.Tick.{Tick};
ghost use Rattle.world_core.specs.World.{WorldState};
ghost use Rattle.journal_audit.specs.Audit.{known_of, names_at, verdict_of, GoesOnWith, IsFirstIllegal, IsJournalOf, IsVerdict, TellsLegal};

use crate::form::{Known, first_unformed};
use crate::laws::laws_of_replay;
use crate::reading::Reader;
use crate::replay::replay;
use report_words::port_name;
use srp_base::{EgressPort, NoMemory, NodeNo, PortNo, Seq};
use std::alloc::Global;
use topology_file::Scenario;
use world_core::Run;

/// What an audit answers.
#[derive(Drop)]
pub enum Verdict {
    /// The text is the journal of this run, each of whose ticks is legal.
    Legal(Run),
    /// It is no journal of the scenario. Lines count from 1. With why 2 the line is the first that
    /// isn't of the form of a journal's lines, with a tick of the scenario that isn't below that of
    /// the line before, a port that there is and an event that there is, or that lacks its line
    /// feed. With why 3 all lines are of the form, and it is the first line with which no legal
    /// journal agrees, or the one past the last.
    No { line: u64, why: u8 },
}

/// What an audit finds: its verdict, and where no legal journal agrees with a line, what a legal run
/// has there.
#[derive(Drop)]
pub enum Finding {
    /// The text is the journal of this run, each of whose ticks is legal.
    Replayed(Run),
    /// This line isn't of the form of a journal's lines: why 2.
    Unformed { line: u64 },
    /// No legal journal agrees with this line: why 3. A legal run that has all lines before it has
    /// this one there; None where it ends there.
    Parted { line: u64, legal: Option<Seq<u8>> },
}

impl Finding {
    /// The verdict that it comes to.
    pub fn into_verdict(self) -> Verdict
        ensures { result ≡ verdict_of self }
    {
        match self {
            Finding::Replayed(run) => Verdict::Legal(run),
            Finding::Unformed { line } => Verdict::No { line, why: 2 },
            Finding::Parted { line, .. } => Verdict::No { line, why: 3 },
        }
    }
}

/// Reads a text, which stood behind the line `journal`, as the journal of a scenario, and replays
/// it step by step: nothing that its maker said is trusted. A run's steps may be in any order in
/// which each port makes its jobs one after the other, and nodes ascend in a tick.
pub fn audit(alloc: Global, scenario: &Scenario, text: &[u8]) -> Result<Verdict, NoMemory>
    ensures { IfOk result (λ verdict. IsVerdict scenario.now text.now verdict) }
{
    let finding = examine(alloc, scenario, text)?;
    Ok(finding.into_verdict())
}

/// Does the same, and tells what a legal run has at the line with which no legal journal agrees.
pub fn examine(alloc: Global, scenario: &Scenario, text: &[u8]) -> Result<Finding, NoMemory>
    ensures verdict { IfOk result (λ finding. IsVerdict scenario.now text.now
        (verdict_of finding)) }
    ensures legal { IfOk result (λ finding. TellsLegal scenario.now text.now finding) }
{
    laws_of_replay(scenario);
    let mut lines = Reader::of(text);
    match replay(alloc, scenario, &mut lines)? {
        Some(run) => Ok(Finding::Replayed(run)),
        None => {
            let read = lines.read();
            refusal(alloc, scenario, text, read, lines.into_wanted())
        }
    }
}

// What is wrong with a text whose first so many lines are those of a legal journal, and not one
// more, where such a journal goes on with this line.
fn refusal(
    alloc: Global,
    scenario: &Scenario,
    text: &[u8],
    read: u64,
    legal: Option<Seq<u8>>,
) -> Result<Finding, NoMemory>
    requires first { IsFirstIllegal scenario.now text.now read }
    requires none { (ticks : List Tick) (end : WorldState)
        → IsJournalOf scenario.now text.now ticks end → ⊥ }
    requires goes_on { GoesOnWith scenario.now text.now read legal }
    requires room { read < 2 ^ 63 }
    ensures verdict { IfOk result (λ finding. IsVerdict scenario.now text.now
        (verdict_of finding)) }
    ensures legal { IfOk result (λ finding. TellsLegal scenario.now text.now finding) }
{
    let known = known_of(alloc, scenario)?;
    match first_unformed(&known, text) {
        Some(line) => Ok(Finding::Unformed { line }),
        None => Ok(Finding::Parted {
            line: read + 1,
            legal,
        }),
    }
}

// What a scenario's journal may name.
fn known_of(alloc: Global, scenario: &Scenario) -> Result<Known, NoMemory>
    ensures { IfOk result (λ known. known ≡ known_of scenario.now) }
{
    scenario.keeps_rules();
    let mut ports = Vec::new(alloc);
    for x in 0..scenario.tree.nodes() {
        push_names(alloc, scenario, NodeNo(x + 1), &mut ports)?;
    }
    Ok(Known {
        ticks: scenario.ticks,
        events: scenario.events.len() as u32,
        ports: Seq::from_vec(ports),
    })
}

// The names of a node's ports, behind others.
fn push_names(
    alloc: Global,
    scenario: &Scenario,
    node: NodeNo,
    names: &mut Vec<Seq<u8>>,
) -> Result<(), NoMemory>
    requires { HasNode scenario.now.tree node.0 }
    ensures { OnOk result (names.new.items ≡ names.old.items ++ names_at scenario.now node.0) }
{
    for k in 0..scenario.tree.ports(node) {
        let port = EgressPort {
            node,
            port: PortNo(k + 1),
        };
        let name = port_name(alloc, scenario.nodes.as_slice(), &scenario.tree, port)?;
        names.push(Seq::from_vec(name))?;
    }
    Ok(())
}
