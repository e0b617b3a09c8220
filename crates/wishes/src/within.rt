//! The bound on the delay of a stream's frames to a station, as `delays` prints it.

ghost use Rattle.std.specs.Prelude.{◌≡◌, All, find, option_map, IfOk, IfSome};
ghost use Rattle.class_delays.specs.declared.delays.FedStream.{FedStream};
ghost use Rattle.delay_report.specs.Text.{reckoned_in as reckoned_in_spec};
ghost use Rattle.scenario_delays.specs.Facts.{bounds_of};
ghost use Rattle.tree_topology.specs.Topology.{HasNode};
ghost use Rattle.wishes.specs.Within.{said_of as said_of_spec, within_at as within_at_spec, within_for as within_for_spec, within_of as within_of_spec, within_on as within_on_spec, within_to as within_to_spec};

use crate::wish::Wish;
use class_delays::{FedStream, delays_at, stream_in};
use scenario_delays::{ClassBounds, DelayFacts, StreamAnswer};
use srp_base::{Class, EgressPort, NoMemory, NodeNo, StreamId};
use std::alloc::Global;
use topology_file::{Scenario, StreamEntry};

/// In ns, the most that a frame of a wish's stream takes from its moment through the last port on
/// the way from the Talker of its entry to the station. None where `delays` has no number: where the
/// stream is of no class, its class has no bounds, or the stream isn't fed at that port.
pub(crate) fn within_of(
    alloc: Global,
    scenario: &Scenario,
    facts: &DelayFacts,
    wish: &Wish,
) -> Result<Option<u128>, NoMemory>
    requires talkers { All (λ a. HasNode scenario.now.tree a.stream.talker.0) facts.now.answers }
    requires station { HasNode scenario.now.tree wish.now.station.0 }
    ensures { IfOk result (λ o. o ≡ within_of_spec scenario.now facts.now wish.now) }
{
    match scenario.streams.as_slice().get(wish.stream) {
        Some(entry) => within_for(alloc, scenario, facts, wish.station, entry),
        None => Ok(None),
    }
}

// That of the stream of an entry.
fn within_for(
    alloc: Global,
    scenario: &Scenario,
    facts: &DelayFacts,
    station: NodeNo,
    entry: &StreamEntry,
) -> Result<Option<u128>, NoMemory>
    requires talkers { All (λ a. HasNode scenario.now.tree a.stream.talker.0) facts.now.answers }
    requires station { HasNode scenario.now.tree station.0 }
    ensures { IfOk result
        (λ o. o ≡ within_for_spec scenario.now facts.now station entry.now) }
{
    match said_of(scenario, facts.answers.as_slice(), entry.id) {
        Some(said) => within_to(alloc, scenario, facts, station, &said),
        None => Ok(None),
    }
}

// What is said of a stream.
fn said_of(scenario: &Scenario, answers: &[StreamAnswer], stream: StreamId) -> Option<StreamAnswer>
    requires { All (λ a. HasNode scenario.now.tree a.stream.talker.0) answers.now }
    ensures value { result ≡ said_of_spec stream answers.now }
    ensures talker { IfSome result (λ a. HasNode scenario.now.tree a.stream.talker.0) }
{
    let _ = scenario;
    for said in answers {
        if said.stream.id == stream {
            return Some(*said);
        }
    }
    None
}

// From the Talker of its entry to a station.
fn within_to(
    alloc: Global,
    scenario: &Scenario,
    facts: &DelayFacts,
    station: NodeNo,
    said: &StreamAnswer,
) -> Result<Option<u128>, NoMemory>
    requires talker { HasNode scenario.now.tree said.now.stream.talker.0 }
    requires station { HasNode scenario.now.tree station.0 }
    ensures { IfOk result
        (λ o. o ≡ within_to_spec scenario.now facts.now station said.now) }
{
    let path = scenario.tree.path(alloc, said.stream.talker, station)?;
    Ok(within_on(facts, said, path.as_slice()))
}

// Through the last port of a path.
fn within_on(facts: &DelayFacts, said: &StreamAnswer, path: &[EgressPort]) -> Option<u128>
    ensures { result ≡ within_on_spec facts.now said.now path.now }
{
    match path.last() {
        Some(last) => within_at(facts, said, *last),
        None => None,
    }
}

// Through a port.
fn within_at(facts: &DelayFacts, said: &StreamAnswer, at: EgressPort) -> Option<u128>
    ensures { result ≡ within_at_spec facts.now said.now at }
{
    match reckoned_in(facts, said, at) {
        Some(fed) => Some(fed.spent.div_ceil(1_000)),
        None => None,
    }
}

// What is reckoned for a stream at a port, where it is fed there and its class has bounds.
fn reckoned_in(facts: &DelayFacts, said: &StreamAnswer, at: EgressPort) -> Option<FedStream>
    ensures { result ≡ reckoned_in_spec said.now at (bounds_of said.now.class facts.now) }
{
    let bounds = match said.class {
        Class::A => &facts.class_a,
        Class::B => &facts.class_b,
    };
    match bounds {
        ClassBounds::Reckoned(ports) => {
            let port = delays_at(ports.as_slice(), at)?;
            stream_in(port.fed.as_slice(), &said.stream)
        }
        ClassBounds::Unbounded(_) => None,
    }
}
