//! What the ports of a node have left of their jobs in a tick, each with the words by which the
//! lines of its steps begin.

ghost use Rattle.std.specs.Prelude.{◌≡◌, ◌≤◌, ◌+◌, ◌∷◌, ◌↔◌, ℕ, [], Some, true, length, slice_get, IfOk, IfSome, IfNone, IsTrue, nat_lt};
ghost use Rattle.std.specs.List.{AllByRecursion};
ghost use Rattle.attribute_propagation.specs.Ports.{IsLinkPort};
ghost use Rattle.node_core.specs.State.{ports_of};
ghost use Rattle.journal_audit.specs.Left.{LeftState, IsNextPort, MayBeNext, is_any_left, left_at, left_of};

use crate::reading::Reader;
use journal_lines::put_place;
use node_core::{Node, PortStep, no_key};
use srp_base::{EgressPort, NoMemory, NodeNo, PortNo, Seq};
use std::alloc::Global;
use std::marker::Model;
use topology_file::Scenario;

/// A port of a node in a tick. Contracts see how the lines of its steps begin, and the jobs that it
/// has left.
#[derive(Drop)]
pub(crate) struct PortLeft {
    place: Seq<u8>,
    jobs: Seq<PortStep>,
    made: usize,
}

impl Model for PortLeft {
    ghost use Rattle.std.specs.Prelude.{◌≤◌, length, drop};
    ghost use Rattle.journal_audit.specs.Left.{LeftState};

    ghost Value = { LeftState };

    ghost view = { λ p. record { place = p.place; jobs = drop p.made p.jobs } };

    ghost invariant = { λ p. p.made ≤ length p.jobs };
}

impl PortLeft {
    /// Whether a job is left.
    pub(crate) fn has_job(&self) -> bool
        ensures { result ≡ nat_lt 0 (length self.now.jobs) }
    {
        self.made < self.jobs.len()
    }

    /// Takes the next job.
    pub(crate) fn take_job(&mut self) -> PortStep
        requires { 1 ≤ length self.old.jobs }
        ensures job { self.old.jobs ≡ result ∷ self.new.jobs }
        ensures place { self.new.place ≡ self.old.place }
    {
        let job = self.jobs.as_slice()[self.made];
        self.made += 1;
        job
    }

    // Whether the next line may be of a step of this port: it has a job left, and the line begins
    // with its words.
    fn may_be_next(&self, lines: &Reader<'_>) -> bool
        ensures { IsTrue result ↔ MayBeNext lines.now self.now }
    {
        self.has_job() && lines.begins_with(self.place.as_slice())
    }
}

/// All jobs of a node in tick t, port by port.
pub(crate) fn left_of(
    alloc: Global,
    scenario: &Scenario,
    t: u64,
    number: NodeNo,
    node: &Node,
) -> Result<Vec<PortLeft>, NoMemory>
    ensures all { IfOk result (λ left. left.items ≡ left_of scenario.now t number node.now.state) }
    ensures few { IfOk result (λ left. length left.items ≤ 255) }
{
    let _ = no_key();
    let mut left = Vec::new(alloc);
    for at in 0..node.ports() {
        left.push(left_at(alloc, scenario, t, number, node, at)?)?;
    }
    Ok(left)
}

// Those of the port at a place.
fn left_at(
    alloc: Global,
    scenario: &Scenario,
    t: u64,
    number: NodeNo,
    node: &Node,
    at: u8,
) -> Result<PortLeft, NoMemory>
    requires port { IsLinkPort (record { 0 = at + 1 }) (ports_of node.now.state) }
    requires few { at ≤ 254 }
    ensures { IfOk result (λ left. left ≡ left_at scenario.now t number node.now.state at) }
{
    let port = PortNo(at + 1);
    let mut place = Vec::new(alloc);
    put_place(&mut place, scenario, t, EgressPort { node: number, port })?;
    let jobs = node.jobs(port)?;
    Ok(PortLeft {
        place: Seq::from_vec(place),
        jobs,
        made: 0,
    })
}

/// Whether a job is left at some port.
pub(crate) fn is_any_left(ports: &[PortLeft]) -> bool
    ensures { result ≡ is_any_left ports.now }
{
    ports.iter().any(|port| port.has_job())
}

/// The place of the first port of whose steps the next line may be, or of the first that has a job
/// left, where the next line may be of none.
pub(crate) fn next_port(ports: &[PortLeft], lines: &Reader<'_>) -> usize
    requires { is_any_left ports.now ≡ true }
    ensures { IsNextPort lines.now ports.now result }
{
    match named_port(ports, lines) {
        Some(at) => at,
        None => match first_left(ports) {
            Some(at) => at,
            None => unreachable!(),
        },
    }
}

// The place of the first port that has a job left.
fn first_left(ports: &[PortLeft]) -> Option<usize>
    ensures some { IfSome result (λ at. (p : LeftState) × (slice_get ports.now at ≡ Some p)
        × (1 ≤ length p.jobs)) }
    ensures none { IfNone result ((at : ℕ) (p : LeftState) → slice_get ports.now at ≡ Some p
        → 1 ≤ length p.jobs → ⊥) }
{
    for at in 0..ports.len() {
        if ports[at].has_job() {
            return Some(at);
        }
    }
    None
}

// The place of the first port of whose steps the next line may be.
fn named_port(ports: &[PortLeft], lines: &Reader<'_>) -> Option<usize>
    ensures some { IfSome result (λ at. (p : LeftState) × (slice_get ports.now at ≡ Some p)
        × MayBeNext lines.now p) }
    ensures none { IfNone result ((at : ℕ) (p : LeftState) → slice_get ports.now at ≡ Some p
        → MayBeNext lines.now p → ⊥) }
{
    for at in 0..ports.len() {
        if ports[at].may_be_next(lines) {
            return Some(at);
        }
    }
    None
}
