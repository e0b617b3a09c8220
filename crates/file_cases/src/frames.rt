//! The frames of a scenario of both routes, its rates, and its flow.
//!
//! The calls stand in functions of their own without contracts, so that a test's own proof is
//! short.

use credit_shaper::Traffic;
use frame_flow::{Fate, FlowResult, Frame, Route};
use scenario_frames::{flow_of, frames_of, rates_of};
use srp_base::{NoMemory, NodeNo, Ps, Rate, Seq, StreamId, Timeline};
use std::alloc::Global;
use topology_file::{Scenario, read_scenario};

/// Two stations with a link between them, two streams, of class A and of class B, and frames of
/// both, and between the stations.
const PAIR: &str = "ticks = 22\n\
    node = [{ name = 'a', kind = 'station' }, { name = 'b', kind = 'station' }]\n\
    link = [{ a = 'a', b = 'b', rate = 1000 }]\n\
    stream = [{ name = 'k', id = '00000000000000ab', talker = 'a', dest = '91e0f0000001', \
    octets = 80, frames = 1 }, { name = 'm', id = '00000000000000cd', talker = 'b', \
    dest = '91e0f0000002', octets = 80, frames = 1, vid = 5, priority = 2 }]\n\
    frame = [{ stream = 'k', octets = 80, at = 1000, count = 3, every = 125000 }, \
    { from = 'b', to = 'a', vid = 7, octets = 0, at = 5 }, \
    { stream = 'm', octets = 1500, at = 9 }]\n";

/// The scenario that a text is.
fn scenario_of(alloc: Global, text: &str) -> Option<Scenario> {
    match toml::table_from_str(alloc, text) {
        Ok(table) => read_scenario(alloc, &table).ok(),
        Err(_) => None,
    }
}

fn frame(number: u32, at: u64, from: u16, route: Route, vid: u16, bits: u32) -> Frame {
    Frame {
        number,
        at: Ps(at),
        from: NodeNo(from),
        route,
        vid,
        bits,
    }
}

/// A frame of the first stream.
fn of_k(number: u32, at: u64) -> Frame {
    let route = Route::Stream(StreamId(0xab), Traffic::A);
    frame(number, at, 1, route, 2, 976)
}

/// The frame of the second stream.
fn of_m() -> Frame {
    let route = Route::Stream(StreamId(0xcd), Traffic::B);
    frame(5, 9_000, 2, route, 5, 12_336)
}

/// Whether a scenario has these frames.
fn has_frames(alloc: Global, scenario: &Scenario, wanted: &[Frame]) -> bool {
    match frames_of(alloc, scenario) {
        Ok(frames) => frames.as_slice() == wanted,
        Err(_) => false,
    }
}

/// Whether a scenario has one link, with a rate of 1 Gbit/s.
fn has_rate(alloc: Global, scenario: &Scenario) -> bool {
    match rates_of(alloc, scenario) {
        Ok(rates) => rates.as_slice() == [Rate::G1].as_slice(),
        Err(_) => false,
    }
}

/// The flow of a scenario where nothing is booked.
fn unbooked_flow(alloc: Global, scenario: &Scenario) -> Result<FlowResult, NoMemory> {
    let timeline = Timeline {
        changes: Seq::new(alloc),
    };
    flow_of(alloc, scenario, &timeline)
}

/// Whether a flow has two ports, and what was given to the second has these fates.
fn has_fates(flow: &FlowResult, fates: &[(u32, Fate)]) -> bool {
    match flow.ports.as_slice() {
        [_, port] => port.fates.as_slice() == fates,
        _ => false,
    }
}

/// Whether a scenario's frames are the copies of its entries, in order.
fn has_copies(alloc: Global, scenario: &Scenario) -> bool {
    let between = frame(4, 5_000, 2, Route::To(NodeNo(1)), 7, 336);
    let wanted = [
        of_k(1, 1_000_000),
        of_k(2, 126_000_000),
        of_k(3, 251_000_000),
        between,
        of_m(),
    ];
    has_frames(alloc, scenario, &wanted)
}

/// Whether two of them are dropped where nothing is booked.
fn drops(alloc: Global, scenario: &Scenario) -> bool {
    match unbooked_flow(alloc, scenario) {
        Ok(flow) => has_fates(&flow, &[(4, Fate::NoVlan), (5, Fate::Unbooked)]),
        Err(_) => false,
    }
}

/// Whether they flow over its link, where nothing is booked.
fn flows(alloc: Global, scenario: &Scenario) -> bool {
    has_copies(alloc, scenario) && drops(alloc, scenario) && has_rate(alloc, scenario)
}

/// Whether a scenario was read, and its frames flow.
fn is_flowing(alloc: Global, read: &Option<Scenario>) -> bool {
    match read {
        Some(scenario) => flows(alloc, scenario),
        None => false,
    }
}

// Who owns a scenario does nothing else, and drops it by a call, so that its proof is short.
fn pair_flows(alloc: Global) -> bool {
    let read = scenario_of(alloc, PAIR);
    let flow = is_flowing(alloc, &read);
    drop(read);
    flow
}

#[test]
fn frames_are_the_copies_of_the_entries_in_order_and_flow(rt: HostRuntime) {
    assert!(rt; pair_flows(rt.alloc()));
}
