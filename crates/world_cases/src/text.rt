//! Two stations on a link: the report of what they sent and of their frames, and the text of a
//! journal. What is registered is shown by the reports of `examples/`.

use credit_shaper::PortInput;
use frame_flow::Fate::{Departed, Left, NoVlan, Unbooked};
use frame_flow::{Fate, FlowResult, PortFlow};
use node_core::PortStep::{Due, Send, Settle, Work};
use node_core::StepReply::{Discarded, Fired, Received, Sent, Settled, Silent};
use node_core::{NodeStep, PortStep, StepReply};
use srp_base::{App, EgressPort, NoMemory, NodeNo, PortNo, Rate, Seq, Timeline};
use srp_report::{Printout, journal_text, report};
use std::alloc::Global;
use topology_file::{Scenario, read_scenario};
use world_core::{Journal, NodeSteps, Run, Tick, World, WorldReply};

/// Stations 1 and 2 on a link, with frames from 1 to 2.
const SCENE: &str = "ticks = 22\n\
    node = [{ name = 's1', kind = 'station' }, { name = 's2', kind = 'station' }]\n\
    link = [{ a = 's1', b = 's2' }]\n\
    frame = [{ from = 's1', to = 's2', vid = 7, octets = 58, at = 0, count = 5 }]\n";

const REPORT: &str = "ticks 22\n\
    port s1>s2 sent 2 octets 26 discarded 0\n\
    port s2>s1 sent 0 octets 0 discarded 1\n\
    frames s1>s2 departed 2 unbooked 1 novlan 1 left 1\n\
    depart s1>s2 frame 3 start 100 end 900\n\
    depart s1>s2 frame 1 start 900 end 1700\n\
    quiet yes\n\
    in step yes\n";

const JOURNAL: &str = "journal\n\
    0 event 1 done\n\
    0 event 2 missed\n\
    0 s1>s2 settle settled 2\n\
    0 s1>s2 send mvrp sent 13\n\
    0 s2>s1 due fired 1\n\
    0 s2>s1 send msrp silent\n\
    1 s1>s2 settle settled 2\n\
    1 s1>s2 send mvrp sent 13\n\
    1 s2>s1 work received 2\n\
    1 s2>s1 work discarded 3\n";

fn scene(alloc: Global) -> Option<Scenario> {
    match toml::table_from_str(alloc, SCENE) {
        Ok(table) => read_scenario(alloc, &table).ok(),
        Err(_) => None,
    }
}

// A step at the first port of a node, and its steps there.
fn made(step: PortStep, reply: StepReply) -> NodeStep {
    NodeStep {
        port: PortNo(1),
        step,
        reply,
    }
}

fn steps_of(
    alloc: Global,
    node: u16,
    answers: &[(PortStep, StepReply)],
) -> Result<NodeSteps, NoMemory> {
    let mut steps = Vec::new(alloc);
    for (step, reply) in answers {
        steps.push(made(*step, *reply))?;
    }
    Ok(NodeSteps {
        node: NodeNo(node),
        steps: Seq::from_vec(steps),
    })
}

// A tick of these events and steps.
fn tick_of(
    alloc: Global,
    events: &[(u32, WorldReply)],
    first: NodeSteps,
    second: NodeSteps,
) -> Result<Tick, NoMemory> {
    let events = Vec::from_slice(alloc, events)?;
    let steps = vec![in alloc; first, second]?;
    Ok(Tick {
        events: Seq::from_vec(events),
        steps: Seq::from_vec(steps),
    })
}

// The events of the first tick.
fn events() -> [(u32, WorldReply); 2] {
    [(1, WorldReply::Done), (2, WorldReply::Missed)]
}

// The steps of a station that sends, of one that has nothing to send, and of one that hears a PDU
// and takes a malformed one.
fn sending() -> [(PortStep, StepReply); 2] {
    [(Settle, Settled(2)), (Send(App::Mvrp), Sent(13))]
}

fn silent() -> [(PortStep, StepReply); 2] {
    [(Due, Fired(1)), (Send(App::Msrp), Silent)]
}

fn hearing() -> [(PortStep, StepReply); 2] {
    [(Work, Received(2)), (Work, Discarded(3))]
}

// Two ticks in which station 1 sends. In the first two events happen, and in the second station 2
// hears it.
fn first_tick(alloc: Global) -> Result<Tick, NoMemory> {
    let one = steps_of(alloc, 1, sending().as_slice())?;
    let two = steps_of(alloc, 2, silent().as_slice())?;
    tick_of(alloc, events().as_slice(), one, two)
}

fn second_tick(alloc: Global) -> Result<Tick, NoMemory> {
    let one = steps_of(alloc, 1, sending().as_slice())?;
    let two = steps_of(alloc, 2, hearing().as_slice())?;
    tick_of(alloc, [].as_slice(), one, two)
}

fn new_journal(alloc: Global) -> Result<Journal, NoMemory> {
    let first = first_tick(alloc)?;
    let second = second_tick(alloc)?;
    let ticks = vec![in alloc; first, second]?;
    Ok(Journal {
        ticks: Seq::from_vec(ticks),
    })
}

// The fates of five copies: the third departs before the first, and each of the others has another.
fn departed(start: u64, end: u64) -> Fate {
    Departed { start, end }
}

fn fates() -> [(u32, Fate); 5] {
    [
        (1, departed(900, 1700)),
        (2, Unbooked),
        (3, departed(100, 900)),
        (4, NoVlan),
        (5, Left),
    ]
}

// A port without slopes and arrivals; its frames are counted by their fates.
fn input(alloc: Global) -> PortInput {
    PortInput {
        rate: Rate::M100,
        slopes: Seq::new(alloc),
        arrivals: Seq::new(alloc),
        end: 22_000_000,
    }
}

// Those copies at the port of station 1.
fn port_flow(alloc: Global) -> Result<PortFlow, NoMemory> {
    let fates = Vec::from_slice(alloc, fates().as_slice())?;
    Ok(PortFlow {
        at: EgressPort {
            node: NodeNo(1),
            port: PortNo(1),
        },
        input: input(alloc),
        fates: Seq::from_vec(fates),
    })
}

fn new_flow(alloc: Global) -> Result<FlowResult, NoMemory> {
    let port = port_flow(alloc)?;
    let ports = vec![in alloc; port]?;
    Ok(FlowResult {
        ports: Seq::from_vec(ports),
    })
}

// The run of the scene with that journal, and no change at a port.
fn new_run(alloc: Global, scenario: &Scenario) -> Result<Run, NoMemory> {
    let journal = new_journal(alloc)?;
    let world = World::of(alloc, scenario)?;
    Ok(Run {
        world,
        journal,
        timeline: Timeline {
            changes: Seq::new(alloc),
        },
    })
}

// The report of a run and those frames. Who owns a run or a flow does little else, and drops it by
// a call, so that his proof is short.
fn report_of(alloc: Global, scenario: &Scenario, run: &Run) -> Result<Vec<u8>, NoMemory> {
    let flow = new_flow(alloc)?;
    let said = report(alloc, scenario, run, &flow);
    drop(flow);
    said
}

fn new_report(alloc: Global, scenario: &Scenario) -> Result<Vec<u8>, NoMemory> {
    let run = new_run(alloc, scenario)?;
    let said = report_of(alloc, scenario, &run);
    drop(run);
    said
}

// Whether this is the text that was said; false where memory ran out.
fn is_said(said: Result<Vec<u8>, NoMemory>, text: &str) -> bool {
    match said {
        Ok(said) => said.as_slice() == text.as_bytes(),
        Err(_) => false,
    }
}

// Whether the report of that run and those frames is the one above.
fn reports(alloc: Global, read: &Option<Scenario>) -> bool {
    match read {
        Some(scenario) => is_said(new_report(alloc, scenario), REPORT),
        None => false,
    }
}

fn scene_reports(alloc: Global) -> bool {
    let read = scene(alloc);
    let reported = reports(alloc, &read);
    drop(read);
    reported
}

#[test]
fn each_port_has_its_counts_and_departures(rt: HostRuntime) {
    assert!(rt; scene_reports(rt.alloc()));
}

// That report, to be handed out piece by piece.
fn printout_of(alloc: Global, scenario: &Scenario, run: &Run) -> Result<Printout, NoMemory> {
    let flow = new_flow(alloc)?;
    Printout::of_run(alloc, scenario, run, flow)
}

fn new_printout(alloc: Global, scenario: &Scenario) -> Result<Printout, NoMemory> {
    let run = new_run(alloc, scenario)?;
    let printout = printout_of(alloc, scenario, &run);
    drop(run);
    printout
}

// The pieces of a printout of a few, with this one behind them.
fn all_with(alloc: Global, printout: &mut Printout, more: &str) -> Result<Vec<u8>, NoMemory> {
    let mut all = Vec::new(alloc);
    printout.add(more.as_bytes())?;
    for _ in 0..9 {
        if let Some(piece) = printout.next_piece()? {
            all.extend_from_slice(piece.as_slice())?;
        }
    }
    Ok(all)
}

fn all_of(alloc: Global, scenario: &Scenario, more: &str) -> Result<Vec<u8>, NoMemory> {
    let mut printout = new_printout(alloc, scenario)?;
    let all = all_with(alloc, &mut printout, more);
    drop(printout);
    all
}

// Whether these are the report above and a text behind it; false where memory ran out.
fn is_report_with(all: Result<Vec<u8>, NoMemory>, more: &str) -> bool {
    match all {
        Ok(all) => all.as_slice().strip_prefix(REPORT.as_bytes()) == Some(more.as_bytes()),
        Err(_) => false,
    }
}

// Whether the pieces are that report and one that was added.
fn hands_out(alloc: Global, read: &Option<Scenario>, more: &str) -> bool {
    match read {
        Some(scenario) => is_report_with(all_of(alloc, scenario, more), more),
        None => false,
    }
}

fn scene_hands_out(alloc: Global) -> bool {
    let read = scene(alloc);
    let handed_out = hands_out(alloc, &read, "\njournal\n");
    drop(read);
    handed_out
}

#[test]
fn a_report_is_handed_out_with_what_is_added(rt: HostRuntime) {
    assert!(rt; scene_hands_out(rt.alloc()));
}

// The text of that journal, and whether it is the one above.
fn new_text(alloc: Global, scenario: &Scenario) -> Result<Vec<u8>, NoMemory> {
    let journal = new_journal(alloc)?;
    journal_text(alloc, scenario, &journal)
}

fn tells(alloc: Global, read: &Option<Scenario>) -> bool {
    match read {
        Some(scenario) => is_said(new_text(alloc, scenario), JOURNAL),
        None => false,
    }
}

fn scene_tells(alloc: Global) -> bool {
    let read = scene(alloc);
    let told = tells(alloc, &read);
    drop(read);
    told
}

#[test]
fn a_journal_has_events_before_steps(rt: HostRuntime) {
    assert!(rt; scene_tells(rt.alloc()));
}
