//! A scenario that is read, and one that is refused. The rules one by one are the files of
//! examples/rules/.
//!
//! What a scenario has is asked by functions of their own without contracts, so that a test's own
//! proof is short.

use srp_base::{NodeNo, Rank};
use std::alloc::Global;
use toml::Table;
use topology_file::{
    DomainWord, EventEntry, EventKind, FrameEntry, FrameRoute, LinkEntry, NodeEntry, RuleErr,
    Scenario, StreamEntry, read_scenario,
};
use tree_topology::NodeKind;

/// Two stations with a link between them, a stream, two events, and a frame.
const PAIR: &str = "ticks = 22\n\
    node = [{ name = 'a', kind = 'station' }, { name = 'b', kind = 'station' }]\n\
    link = [{ a = 'a', b = 'b' }]\n\
    stream = [{ name = 'k', id = '00000000000000aB', talker = 'a', dest = '91e0f0000001', \
    octets = 80, frames = 1 }]\n\
    event = [{ tick = 3, kind = 'listen', station = 'b', stream = 'k' }, \
    { tick = 21, kind = 'lose', from = 'a', to = 'b', index = 2 }]\n\
    frame = [{ stream = 'k', octets = 80, at = 1000, count = 3, every = 125000 }]\n";

/// Two bridges of one name.
const TWINS: &str = "ticks = 1\nlink = [{ a = 'a', b = 'b' }]\n\
    node = [{ name = 'a', kind = 'bridge' }, { name = 'a', kind = 'bridge' }]\n";

/// Two stations, the first of which is in no SRP domain.
const DOMAINS: &str = "ticks = 1\ndomains = true\nlink = [{ a = 'a', b = 'b' }]\n\
    node = [{ name = 'a', kind = 'station', domain = 'none' }, { name = 'b', kind = 'station' }]\n";

/// The scenario that a text is.
fn scenario_of(alloc: Global, text: &str) -> Option<Scenario> {
    match toml::table_from_str(alloc, text) {
        Ok(table) => read_scenario(alloc, &table).ok(),
        Err(_) => None,
    }
}

fn has_times(scenario: &Scenario) -> bool {
    let plain = !scenario.periodic && !scenario.domains;
    plain && scenario.ticks == 22 && scenario.leave_time.0 == 60
}

fn is_station(node: &NodeEntry, name: &str, id: u64) -> bool {
    node.name.as_slice() == name.as_bytes() && node.kind == NodeKind::Station && node.id.0 == id
}

fn has_stations(scenario: &Scenario) -> bool {
    match scenario.nodes.as_slice() {
        [a, b] => is_station(a, "a", 1) && is_station(b, "b", 2),
        _ => false,
    }
}

fn has_defaults(link: &LinkEntry) -> bool {
    link.rate.bits() == 100_000_000
        && link.delta_a.get() == 75
        && link.delta_b.get() == 0
        && link.latency == 0
}

/// Whether one link with its defaults joins the two stations.
fn has_link(scenario: &Scenario) -> bool {
    match scenario.links.as_slice() {
        [link] => link.a.0 == 1 && link.b.0 == 2 && has_defaults(link),
        _ => false,
    }
}

fn is_stream(stream: &StreamEntry) -> bool {
    stream.name.as_slice() == "k".as_bytes()
        && stream.id.0 == 0xab
        && stream.talker.0 == 1
        && stream.dest.get() == 0x91e0_f000_0001
}

/// Whether a stream has its size, and the VID, the priority and the rank that are given by default.
fn has_quality(stream: &StreamEntry) -> bool {
    let sized = stream.octets == 80 && stream.frames == 1;
    sized && stream.vid.get() == 2 && stream.priority.get() == 3 && stream.rank == Rank::Normal
}

fn has_stream(scenario: &Scenario) -> bool {
    match scenario.streams.as_slice() {
        [stream] => is_stream(stream) && has_quality(stream),
        _ => false,
    }
}

/// Whether a scenario is a pair of stations with all that is given by default.
fn is_pair(scenario: &Scenario) -> bool {
    scenario.keeps_rules();
    has_times(scenario)
        && has_stations(scenario)
        && has_link(scenario)
        && has_stream(scenario)
        && scenario.tree.nodes() == 2
        && scenario.tree.links() == 1
}

/// Whether station 2 listens at tick 3, and the second PDU from node 1 to it is lost at tick 21.
fn has_events(scenario: &Scenario) -> bool {
    let (a, b) = (NodeNo(1), NodeNo(2));
    let heard = EventKind::Listen {
        station: b,
        stream: 1,
    };
    let lost = EventKind::Lose {
        from: a,
        to: b,
        index: 2,
    };
    match scenario.events.as_slice() {
        [one, two] => is_event(one, 3, &heard) && is_event(two, 21, &lost),
        _ => false,
    }
}

fn is_event(event: &EventEntry, tick: u64, kind: &EventKind) -> bool {
    event.tick == tick && event.kind == *kind
}

fn is_frame(frame: &FrameEntry) -> bool {
    let timed = frame.at == 1000 && frame.count == 3 && frame.every == 125_000;
    timed && frame.octets == 80 && frame.route == FrameRoute::OfStream { stream: 1 }
}

fn has_frame(scenario: &Scenario) -> bool {
    match scenario.frames.as_slice() {
        [frame] => is_frame(frame),
        _ => false,
    }
}

/// Whether a scenario is the pair with its events and its frame.
fn has_all(scenario: &Scenario) -> bool {
    is_pair(scenario) && has_events(scenario) && has_frame(scenario) && scenario.copies() == 3
}

/// Whether a scenario was read, and is the pair with all that it has.
fn is_whole(read: &Option<Scenario>) -> bool {
    match read {
        Some(scenario) => has_all(scenario),
        None => false,
    }
}

// Who owns a scenario does nothing else, and drops it by a call, so that its proof is short.
fn pair_is_read(alloc: Global) -> bool {
    let read = scenario_of(alloc, PAIR);
    let whole = is_whole(&read);
    drop(read);
    whole
}

#[test]
fn a_pair_is_read_with_its_defaults_its_events_and_its_frame(rt: HostRuntime) {
    assert!(rt; pair_is_read(rt.alloc()));
}

fn are_domains(scenario: &Scenario) -> bool {
    match scenario.nodes.as_slice() {
        [a, b] => a.domain == DomainWord::Nothing && b.domain == DomainWord::Both,
        _ => false,
    }
}

fn has_domains(read: &Option<Scenario>) -> bool {
    match read {
        Some(scenario) => scenario.domains && are_domains(scenario),
        None => false,
    }
}

fn domains_are_read(alloc: Global) -> bool {
    let read = scenario_of(alloc, DOMAINS);
    let has = has_domains(&read);
    drop(read);
    has
}

#[test]
fn a_node_is_in_the_domain_that_it_names_or_in_both(rt: HostRuntime) {
    assert!(rt; domains_are_read(rt.alloc()));
}

/// Whether the reading fails with a rule, at an entry.
fn is_broken(alloc: Global, table: &Table, rule: u8, entry: u32) -> bool {
    read_scenario(alloc, table).err() == Some(RuleErr::Rule { rule, entry })
}

fn twins_are_refused(alloc: Global) -> bool {
    match toml::table_from_str(alloc, TWINS) {
        Ok(table) => is_broken(alloc, &table, 6, 2),
        Err(_) => false,
    }
}

#[test]
fn the_first_broken_rule_is_named(rt: HostRuntime) {
    assert!(rt; twins_are_refused(rt.alloc()));
}
