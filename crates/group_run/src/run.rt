//! The run of a group scenario, tick by tick.

ghost use Rattle.std.specs.Prelude.{◌≡◌, ◌<◌, suc, IfOk, OnOk};
ghost use Rattle.mmrp.specs.Net.{CanHappen};
ghost use Rattle.group_run.specs.Allowed.{AreAllowed, IsInTick};
ghost use Rattle.group_run.specs.Cursor.{IsCursor};
ghost use Rattle.group_run.specs.Ticks.{after_event, after_events, after_tick, carries, run_of, start_of, step_port as step_port_spec};

use crate::laws::{what_happens_in_a_tick_is_allowed, what_is_allowed_may_happen};
use crate::script::script_of;
use crate::steps::{carries_of, steps_of};
use group_file::GroupScenario;
use mmrp::{GroupEvent, GroupNet, GroupReply};
use srp_base::{EgressPort, NoMemory, Seq};
use std::alloc::Global;
use std::marker::Model;

/// The run of a group scenario.
#[derive(Drop)]
pub struct GroupRun {
    /// The network behind the last tick.
    pub net: GroupNet,
    /// What the steps of the ports answered, in the order in which they were made, each with its
    /// port.
    pub replies: Seq<(EgressPort, GroupReply)>,
}

// A run that goes on. Contracts see a `GroupRun`.
#[derive(Drop)]
struct Course {
    net: GroupNet,
    replies: Vec<(EgressPort, GroupReply)>,
}

impl Model for Course {
    ghost use Rattle.group_run.specs.declared.run.GroupRun.{GroupRun};

    ghost Value = { GroupRun };

    ghost view = { λ c. record { net = c.net; replies = c.replies.items } };
}

/// Runs a group scenario to its end: in each tick its events in the order of the file, each node's
/// steps (all Works, then all Dues, then all Settles, then all Sends, ports ascending in each), the
/// carrying of each port's PDUs, and the clock. It has no condition, and fails for want of memory
/// alone.
#[tactic(auto, using(crate::proofs::Scripts::before_all))]
pub fn run_groups(alloc: Global, scenario: &GroupScenario) -> Result<GroupRun, NoMemory>
    ensures { IfOk result (λ run. run ≡ run_of scenario.now) }
{
    scenario.keeps_rules();
    what_happens_in_a_tick_is_allowed();
    let closing = carries_of(alloc, &scenario.tree)?;
    let mut course = Course::of(alloc, scenario)?;
    let mut cursor = 0;
    for _ in 0..scenario.ticks {
        course.tick(alloc, scenario, &mut cursor, closing.as_slice())?;
    }
    Ok(GroupRun {
        net: course.net,
        replies: Seq::from_vec(course.replies),
    })
}

impl Course {
    // The network of a scenario at its start, and no answers.
    fn of(alloc: Global, scenario: &GroupScenario) -> Result<Course, NoMemory>
        ensures { IfOk result (λ course. course ≡ start_of scenario.now) }
    {
        let net = GroupNet::of(alloc, scenario)?;
        Ok(Course {
            net,
            replies: Vec::new(alloc),
        })
    }

    // Goes on by one tick, whose first event stands at the cursor, if it has one.
    fn tick(
        &mut self,
        alloc: Global,
        scenario: &GroupScenario,
        cursor: &mut usize,
        closing: &[GroupEvent],
    ) -> Result<(), NoMemory>
        requires at { IsInTick scenario.now.tree self.old.net.clock.0 self.old.net }
        requires within { self.old.net.clock.0 < scenario.now.ticks }
        requires cursor { IsCursor scenario.now.events self.old.net.clock.0 cursor.old }
        requires closing { closing.now ≡ carries scenario.now.tree }
        ensures after { OnOk result (self.new ≡ after_tick scenario.now self.old) }
        ensures next { OnOk result
            (IsInTick scenario.now.tree (suc self.old.net.clock.0) self.new.net) }
        ensures cursor { OnOk result
            (IsCursor scenario.now.events (suc self.old.net.clock.0) cursor.new) }
    {
        what_happens_in_a_tick_is_allowed();
        scenario.keeps_rules();
        let script = script_of(alloc, scenario, self.net.now(), cursor)?;
        self.go_on(script.as_slice())?;
        let steps = steps_of(alloc, &self.net)?;
        self.go_on(steps.as_slice())?;
        self.go_on(closing)?;
        self.happen(&GroupEvent::Clock)
    }

    // Lets these events happen.
    fn go_on(&mut self, events: &[GroupEvent]) -> Result<(), NoMemory>
        requires { AreAllowed self.old.net.tree events.now }
        ensures after { OnOk result (self.new ≡ after_events events.now self.old) }
        ensures at { OnOk result
            (IsInTick self.old.net.tree self.old.net.clock.0 self.new.net) }
    {
        what_is_allowed_may_happen();
        for event in events {
            self.happen(event)?;
        }
        Ok(())
    }

    // Lets an event happen, and keeps its answer where it is a step of a port.
    fn happen(&mut self, event: &GroupEvent) -> Result<(), NoMemory>
        requires { CanHappen event.now self.old.net }
        ensures { OnOk result (self.new ≡ after_event self.old event.now) }
    {
        let port = step_port(event);
        let reply = self.net.step(*event)?;
        if let Some(at) = port {
            self.replies.push((at, reply))?;
        }
        Ok(())
    }
}

// The port that makes a step, where the event is one.
fn step_port(event: &GroupEvent) -> Option<EgressPort>
    ensures { result ≡ step_port_spec event.now }
{
    match event {
        GroupEvent::Port(at, _) => Some(*at),
        GroupEvent::Join(_, _)
        | GroupEvent::Part(_, _)
        | GroupEvent::Lose(_, _)
        | GroupEvent::Repeat(_, _)
        | GroupEvent::Carry(_)
        | GroupEvent::Clock => None,
    }
}
