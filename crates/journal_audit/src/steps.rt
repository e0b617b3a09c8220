//! The steps of one tick, read one by one as they are made.

ghost use Rattle.std.specs.Prelude.{◌≡◌, ◌≢◌, ◌<◌, ◌≤◌, ◌||◌, ◌∷◌, suc, length, true, false, IfOk, IfSome, IfNone, OnOk};
ghost use Rattle.tree_topology.specs.Topology.{HasNode, HasPort};
ghost use Rattle.node_core.specs.State.{is_busy_node, is_sending_time};
ghost use Rattle.world_core.specs.{World.world_step, During.IsDuring, OneByOne.node_jobs};
ghost use Rattle.journal_lines.specs.Lines.{line_at};
ghost use Rattle.journal_audit.specs.Left.{ArePortsLeft, jobs_left, is_any_left};
ghost use Rattle.journal_audit.specs.Reading.{IsStuck, TakesOrStays, AreTaken};
ghost use Rattle.journal_audit.specs.Journal.{answer_line, answer_lines};
ghost use Rattle.journal_audit.specs.Follow.{FollowJobs, FollowNodes};
ghost use Rattle.journal_audit.specs.Replay.{IsOtherAnswer, IsStepRead, IsNodeRead, AreNodesRead};

use crate::laws::laws_of_replay;
use crate::left::{PortLeft, is_any_left, left_of, next_port};
use crate::reading::Reader;
use journal_lines::laws::a_line_ends_with_its_line_feed;
use journal_lines::{put_event, put_step};
use node_core::{Node, NodeStep, PortStep, is_sending_time, no_key};
use srp_base::{NoMemory, NodeNo, PortNo};
use std::alloc::Global;
use topology_file::Scenario;
use world_core::{NodeSteps, World, WorldReply, push_steps};

// ---- the scripted events

/// Reads the lines of the answers of tick t's events; false where the next line is another.
pub(crate) fn read_answers(
    alloc: Global,
    t: u64,
    answers: &[(u32, WorldReply)],
    lines: &mut Reader<'_>,
) -> Result<bool, NoMemory>
    ensures read { IfOk result (λ all. all ≡ true
        → AreTaken (answer_lines t answers.now) lines.old lines.new) }
    ensures other { IfOk result (λ all. all ≡ false
        → IsOtherAnswer t answers.now lines.old lines.new) }
{
    for answer in answers {
        if !read_answer(alloc, t, *answer, lines)? {
            return Ok(false);
        }
    }
    Ok(true)
}

// Reads the line of an answer, where it is the next.
fn read_answer(
    alloc: Global,
    t: u64,
    answer: (u32, WorldReply),
    lines: &mut Reader<'_>,
) -> Result<bool, NoMemory>
    ensures { IfOk result (λ taken. TakesOrStays (answer_line t answer) lines.old lines.new taken) }
{
    a_line_ends_with_its_line_feed();
    let (entry, reply) = answer;
    let missed = matches!(reply, WorldReply::Missed);
    let mut line = Vec::new(alloc);
    put_event(&mut line, t, entry, missed)?;
    Ok(lines.take(line))
}

// ---- the steps of a node

// Reads the line of a step, where it is the next.
fn read_line(
    alloc: Global,
    scenario: &Scenario,
    t: u64,
    number: NodeNo,
    made: &NodeStep,
    lines: &mut Reader<'_>,
) -> Result<bool, NoMemory>
    requires { HasPort scenario.now.tree (record { node = number; port = made.now.port }) }
    ensures { IfOk result (λ taken. TakesOrStays (line_at scenario.now t number made.now)
        lines.old lines.new taken) }
{
    a_line_ends_with_its_line_feed();
    scenario.keeps_rules();
    let mut line = Vec::new(alloc);
    put_step(&mut line, scenario, t, number, made)?;
    Ok(lines.take(line))
}

// Lets the port make its next job of whose steps the next line may be, and reads its line; None
// where the next line isn't of any next job.
fn read_step(
    alloc: Global,
    scenario: &Scenario,
    t: u64,
    number: NodeNo,
    world: &mut World,
    left: &mut Vec<PortLeft>,
    lines: &mut Reader<'_>,
) -> Result<Option<NodeStep>, NoMemory>
    requires within { t < scenario.now.ticks }
    requires during { IsDuring scenario.now.tree t world.old }
    requires node { HasNode scenario.now.tree number.0 }
    requires ports { ArePortsLeft scenario.now t number left.old.items }
    requires some { is_any_left left.old.items ≡ true }
    ensures read { IfOk result (λ o. IfSome o (λ st. IsStepRead scenario.now t number.0
        (jobs_left left.old.items) (jobs_left left.new.items) world.old world.new st
        lines.old lines.new)) }
    ensures ports { IfOk result (λ o. IfSome o (λ _. ArePortsLeft scenario.now t number
        left.new.items)) }
    ensures stuck { IfOk result (λ o. IfNone o (IsStuck
        (FollowJobs scenario.now t number.0 (jobs_left left.old.items) world.old)
        lines.old lines.new)) }
{
    laws_of_replay(scenario);
    let _ = no_key();
    let place = next_port(left.as_slice(), lines);
    let step = left[place].take_job();
    let made = world.make_step(number, &(PortNo(place as u8 + 1), step))?;
    let taken = read_line(alloc, scenario, t, number, &made, lines)?;
    if taken { Ok(Some(made)) } else { Ok(None) }
}

// Reads the steps of a node, until its ports have no job left; None where the next line isn't of
// any next job.
fn read_jobs(
    alloc: Global,
    scenario: &Scenario,
    t: u64,
    number: NodeNo,
    world: &mut World,
    left: &mut Vec<PortLeft>,
    lines: &mut Reader<'_>,
) -> Result<Option<Vec<NodeStep>>, NoMemory>
    requires within { t < scenario.now.ticks }
    requires during { IsDuring scenario.now.tree t world.old }
    requires node { HasNode scenario.now.tree number.0 }
    requires ports { ArePortsLeft scenario.now t number left.old.items }
    ensures read { IfOk result (λ o. IfSome o (λ made. IsNodeRead scenario.now t number.0
        (jobs_left left.old.items) world.old lines.old made.items world.new lines.new)) }
    ensures stuck { IfOk result (λ o. IfNone o (IsStuck
        (FollowJobs scenario.now t number.0 (jobs_left left.old.items) world.old)
        lines.old lines.new)) }
{
    laws_of_replay(scenario);
    let _ = no_key();
    let mut made = Vec::new(alloc);
    while is_any_left(left.as_slice()) {
        let Some(step) = read_step(alloc, scenario, t, number, world, left, lines)? else {
            return Ok(None);
        };
        made.push(step)?;
    }
    Ok(Some(made))
}

// Whether a node has a job: it is busy, or it is time to send.
fn has_jobs(node: &Node) -> bool
    ensures { result ≡ (is_busy_node node.now.state || is_sending_time node.now.state.clock) }
{
    node.is_busy() || is_sending_time(node.now())
}

// Reads the steps of a node in its turn; None where the next line isn't of any next job.
fn read_node(
    alloc: Global,
    scenario: &Scenario,
    t: u64,
    number: NodeNo,
    world: &mut World,
    lines: &mut Reader<'_>,
) -> Result<Option<Vec<NodeStep>>, NoMemory>
    requires within { t < scenario.now.ticks }
    requires during { IsDuring scenario.now.tree t world.old }
    requires node { HasNode scenario.now.tree number.0 }
    ensures read { IfOk result (λ o. IfSome o (λ made. IsNodeRead scenario.now t number.0
        (node_jobs number world.old) world.old lines.old made.items world.new lines.new)) }
    ensures stuck { IfOk result (λ o. IfNone o (IsStuck
        (FollowJobs scenario.now t number.0 (node_jobs number world.old) world.old)
        lines.old lines.new)) }
{
    laws_of_replay(scenario);
    world.keeps();
    let _ = no_key();
    let node = world.node(number);
    if !has_jobs(node) {
        return Ok(Some(Vec::new(alloc)));
    }
    let mut left = left_of(alloc, scenario, t, number, node)?;
    read_jobs(alloc, scenario, t, number, world, &mut left, lines)
}

// ---- all nodes

/// Reads the steps of all nodes in tick t, nodes ascending; None where the next line isn't of any
/// next job of the lowest node that has one left.
pub(crate) fn read_nodes(
    alloc: Global,
    scenario: &Scenario,
    t: u64,
    world: &mut World,
    lines: &mut Reader<'_>,
) -> Result<Option<Vec<NodeSteps>>, NoMemory>
    requires within { t < scenario.now.ticks }
    requires during { IsDuring scenario.now.tree t world.old }
    ensures read { IfOk result (λ o. IfSome o (λ steps. AreNodesRead scenario.now t
        (suc (length scenario.now.tree.kinds)) world.old lines.old steps.items world.new
        lines.new)) }
    ensures stuck { IfOk result (λ o. IfNone o (IsStuck (FollowNodes scenario.now t 1 world.old)
        lines.old lines.new)) }
{
    laws_of_replay(scenario);
    let mut steps = Vec::new(alloc);
    for x in 0..scenario.tree.nodes() {
        let number = NodeNo(x + 1);
        let Some(made) = read_node(alloc, scenario, t, number, world, lines)? else {
            return Ok(None);
        };
        push_steps(&mut steps, number, made)?;
    }
    Ok(Some(steps))
}
