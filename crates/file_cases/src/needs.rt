//! What a network of three stations needs.
//!
//! The calls stand in functions of their own without contracts, so that a test's own proof is
//! short.

use port_needs::{Wish, needs_text};
use srp_base::NodeNo;
use std::alloc::Global;
use topology_file::{Scenario, read_scenario};

/// Three stations on a bridge, each by 100 Mbit/s, of which class A may have 75 percent; two
/// streams of class A from the first, of 66,688,000 and 15,488,000 bit/s, and one whose priority is
/// of no class from the third.
const STAR: &str = "ticks = 22\n\
    node = [{ name = 's1', kind = 'station' }, { name = 's2', kind = 'station' }, \
    { name = 's3', kind = 'station' }, { name = 'b', kind = 'bridge' }]\n\
    link = [{ a = 's1', b = 'b' }, { a = 'b', b = 's2' }, { a = 's3', b = 'b' }]\n\
    stream = [{ name = 'k', id = '00000000000000ab', talker = 's1', dest = '91e0f0000001', \
    octets = 1000, frames = 1 }, { name = 'm', id = '00000000000000cd', talker = 's1', \
    dest = '91e0f0000002', octets = 200, frames = 1 }, { name = 'n', id = '00000000000000ef', \
    talker = 's3', dest = '91e0f0000003', octets = 80, frames = 1, priority = 0 }]\n";

/// The scenario that a text is.
fn scenario_of(alloc: Global, text: &str) -> Option<Scenario> {
    match toml::table_from_str(alloc, text) {
        Ok(table) => read_scenario(alloc, &table).ok(),
        Err(_) => None,
    }
}

/// Whether these wishes need this.
fn need(alloc: Global, scenario: &Scenario, wishes: &[Wish], wanted: &str) -> bool {
    match needs_text(alloc, scenario, wishes) {
        Ok(text) => text.as_slice() == wanted.as_bytes(),
        Err(_) => false,
    }
}

fn wish(stream: u16, station: u16) -> Wish {
    Wish {
        stream,
        station: NodeNo(station),
    }
}

/// Whether one stream needs nothing, and both need more of each port on their way.
fn are_summed(alloc: Global, scenario: &Scenario) -> bool {
    need(alloc, scenario, &[wish(1, 2)], "needs nothing\n")
        && need(
            alloc,
            scenario,
            &[wish(1, 2), wish(2, 2), wish(2, 3)],
            "needs s1>b A 82176000 of 75000000 A+B 82176000 of 75000000 delta_a 83 delta_b 0 rate 1000\n\
             needs b>s2 A 82176000 of 75000000 A+B 82176000 of 75000000 delta_a 83 delta_b 0 rate 1000\n",
        )
}

/// Whether a stream of no class is never served.
fn is_never_served(alloc: Global, scenario: &Scenario) -> bool {
    need(
        alloc,
        scenario,
        &[wish(3, 1)],
        "needs nothing\nnever n code 13 at s3>b\n",
    )
}

fn are_needed(alloc: Global, read: &Option<Scenario>) -> bool {
    match read {
        Some(scenario) => are_summed(alloc, scenario) && is_never_served(alloc, scenario),
        None => false,
    }
}

// Who owns a scenario does nothing else, and drops it by a call, so that its proof is short.
fn star_needs(alloc: Global) -> bool {
    let read = scenario_of(alloc, STAR);
    let needs = are_needed(alloc, &read);
    drop(read);
    needs
}

#[test]
fn two_streams_need_more_of_the_ports_of_their_way_and_one_is_never_served(rt: HostRuntime) {
    assert!(rt; star_needs(rt.alloc()));
}
