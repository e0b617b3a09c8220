//! Runs of files of groups, what is printed of them, and the rule that a file breaks.

use group_file::{GroupScenario, RuleErr, group_scenario};
use group_run::{GroupRun, group_text, run_groups};
use mmrp::GroupReply;
use mmrp::GroupReply::{Fired, Sent, Settled, Silent};
use srp_base::{EgressPort, NodeNo, PortNo};
use std::alloc::Global;

// The first of two stations joins a group.
const SCENE: &str = "ticks = 42\n\
    node = [{ name = 's1', kind = 'station' }, { name = 's2', kind = 'station' }]\n\
    link = [{ a = 's1', b = 's2' }]\n\
    event = [{ tick = 0, kind = 'join', station = 's1', mac = '01005e000001' }]\n";

const TEXT: &str = "ticks 42\n\
    port s1>s2 sent 2 octets 32 discarded 0\n\
    port s2>s1 sent 0 octets 0 discarded 0\n\
    group s2>s1 01005e000001 IN\n\
    quiet yes\n\
    in step yes\n";

// The group scenario that a text is, or why there is none.
fn scenario_of(alloc: Global, text: &str) -> Option<Result<GroupScenario, RuleErr>> {
    match toml::table_from_str(alloc, text) {
        Ok(table) => Some(group_scenario(alloc, &table)),
        Err(_) => None,
    }
}

// The scenario that a text is.
pub(crate) fn scene_of(alloc: Global, text: &str) -> Option<GroupScenario> {
    scenario_of(alloc, text)?.ok()
}

// The run of the scenario that a text is.
fn run_of(alloc: Global, text: &str) -> Option<GroupRun> {
    let scenario = scene_of(alloc, text)?;
    run_groups(alloc, &scenario).ok()
}

// Whether this is what is printed of a run.
fn prints(alloc: Global, scenario: &GroupScenario, run: &GroupRun, text: &str) -> bool {
    match group_text(alloc, scenario, run) {
        Ok(printed) => printed.as_slice() == text.as_bytes(),
        Err(_) => false,
    }
}

// Whether this is printed of the run of the scenario that a text is.
fn is_printed(alloc: Global, scene: &str, text: &str) -> bool {
    match (scene_of(alloc, scene), run_of(alloc, scene)) {
        (Some(scenario), Some(run)) => prints(alloc, &scenario, &run, text),
        _ => false,
    }
}

#[test]
fn a_group_is_registered_at_the_other_end(rt: HostRuntime) {
    assert!(rt; is_printed(rt.alloc(), SCENE, TEXT));
}

// What a station's port answers.
fn made(node: u16, reply: GroupReply) -> (EgressPort, GroupReply) {
    let at = EgressPort {
        node: NodeNo(node),
        port: PortNo(1),
    };
    (at, reply)
}

// What the ports of the two stations answer in the first tick.
fn first_answers() -> [(EgressPort, GroupReply); 4] {
    [
        made(1, Fired(0)),
        made(1, Settled(1)),
        made(1, Sent(16)),
        made(2, Silent),
    ]
}

// Whether the run of the scene begins with these answers.
fn begins(alloc: Global) -> bool {
    match run_of(alloc, SCENE) {
        Some(run) => run.replies.as_slice().get(..4) == Some(first_answers().as_slice()),
        None => false,
    }
}

#[test]
fn a_busy_station_works_and_the_other_only_sends(rt: HostRuntime) {
    assert!(rt; begins(rt.alloc()));
}

const STREAM: &str = "ticks = 42\n\
    stream = []\n\
    node = [{ name = 's1', kind = 'station' }, { name = 's2', kind = 'station' }]\n\
    link = [{ a = 's1', b = 's2' }]\n";

// Whether this is the rule that a text breaks, and its entry.
fn breaks(alloc: Global, text: &str, rule: u8, entry: u32) -> bool {
    match scenario_of(alloc, text) {
        Some(Err(error)) => error == RuleErr::Rule { rule, entry },
        _ => false,
    }
}

#[test]
fn a_file_of_groups_has_no_streams(rt: HostRuntime) {
    assert!(rt; breaks(rt.alloc(), STREAM, 40, 0));
}
