//! The events of a number.

ghost use Rattle.std.specs.Prelude.{◌≡◌, ◌≤◌, ◌<◌, ◌++◌, map, IfOk, OnOk};
ghost use Rattle.std.specs.List.{flat_map, range_with_len};
ghost use Rattle.scenario_generator.specs.Network.{station_count, stream_count, drawn_links};
ghost use Rattle.scenario_generator.specs.Events.{declaration as declaration_spec, event_draw as event_draw_spec, talk as talk_spec, next_station as next_station_spec, listening_station as listening_station_spec, listen as listen_spec, stream_events, loss_draw as loss_draw_spec, lost_on as lost_on_spec, loss_link as loss_link_spec, loss as loss_spec, drawn_events, IsSortedByTick};

use crate::draws::Draws;
use crate::streams::{talker_drawn, vid};
use srp_base::{NoMemory, NodeNo, Seq};
use std::alloc::Global;
use topology_file::{EventEntry, EventKind, LinkEntry};

/// The most events of a number: a declaration of each of 9 stations, three of each of 16 streams,
/// and the losses.
const MOST_EVENTS: usize = 77;

/// How many losses there are.
const LOSSES: u16 = 20;

/// Station `n`, from 1, declares VID 2.
fn declaration(draws: &Draws, n: u16) -> EventEntry
    requires { n ≤ 9 }
    ensures { result ≡ declaration_spec draws.now n }
{
    let station = NodeNo(draws.bridges() + n);
    EventEntry {
        tick: 0,
        kind: EventKind::Declare {
            station,
            vid: vid(),
        },
    }
}

/// The draw for the events of stream `k`, from 1: its first to its fifth, counted from 0.
fn event_draw(draws: &Draws, k: u16, i: usize, m: u32) -> u32
    requires first { 1 ≤ k }
    requires few { k ≤ 16 }
    requires five { i ≤ 4 }
    requires some { 0 < m }
    ensures value { result ≡ event_draw_spec draws.now k i m }
    ensures below { result < m }
{
    let before = 3 + usize::from(draws.links()) + 3 * usize::from(draws.streams());
    let place = before + 5 * (usize::from(k) - 1) + i;
    draws.draw(place, m)
}

/// The talker of stream `k`, from 1, begins.
fn talk(draws: &Draws, k: u16) -> EventEntry
    requires first { 1 ≤ k }
    requires few { k ≤ 16 }
    ensures { result ≡ talk_spec draws.now k }
{
    EventEntry {
        tick: u64::from(event_draw(draws, k, 0, 500)),
        kind: EventKind::Talk { stream: k },
    }
}

/// The station behind this one, of so many counted from 0: the first one behind the last.
fn next_station(stations: u16, station: u16) -> u16
    requires { station < stations }
    ensures value { result ≡ next_station_spec stations station }
    ensures below { result < stations }
{
    if station + 1 == stations {
        0
    } else {
        station + 1
    }
}

/// The station that was drawn, and in the talker's place the next one.
fn listening_station(stations: u16, talker: u16, drawn: u16) -> u16
    requires { drawn < stations }
    ensures value { result ≡ listening_station_spec stations talker drawn }
    ensures below { result < stations }
{
    if drawn == talker {
        next_station(stations, drawn)
    } else {
        drawn
    }
}

/// A listener of stream `k`, from 1, begins; which station it is is the draw `i`, and when the one
/// behind it.
fn listen(draws: &Draws, k: u16, i: usize) -> EventEntry
    requires first { 1 ≤ k }
    requires few { k ≤ 16 }
    requires five { i ≤ 3 }
    ensures { result ≡ listen_spec draws.now k i }
{
    let stations = draws.stations();
    let drawn = event_draw(draws, k, i, u32::from(stations)) as u16;
    let station = listening_station(stations, talker_drawn(draws, k), drawn);
    EventEntry {
        tick: u64::from(event_draw(draws, k, i + 1, 500)),
        kind: EventKind::Listen {
            station: NodeNo(draws.bridges() + (1 + station)),
            stream: k,
        },
    }
}

/// The draw for loss `n`, from 0: its first, second or third, counted from 0.
fn loss_draw(draws: &Draws, n: u16, i: usize, m: u32) -> u32
    requires few { n < 20 }
    requires three { i ≤ 2 }
    requires some { 0 < m }
    ensures value { result ≡ loss_draw_spec draws.now n i m }
    ensures below { result < m }
{
    let before = 3 + usize::from(draws.links()) + 8 * usize::from(draws.streams());
    let place = before + 3 * usize::from(n) + i;
    draws.draw(place, m)
}

/// A PDU is lost from the one end of a link to the other; the direction 0 is from `a` to `b`.
fn lost_on(link: &LinkEntry, direction: u32) -> EventKind
    ensures { result ≡ lost_on_spec link.now direction }
{
    if direction == 0 {
        EventKind::Lose {
            from: link.a,
            to: link.b,
            index: 0,
        }
    } else {
        EventKind::Lose {
            from: link.b,
            to: link.a,
            index: 0,
        }
    }
}

/// The link of loss `n`, from 0, of these links.
fn loss_link(draws: &Draws, links: &[LinkEntry], n: u16) -> LinkEntry
    requires few { n < 20 }
    requires links { links.now ≡ drawn_links draws.now }
    ensures { result ≡ loss_link_spec draws.now n }
{
    let drawn = loss_draw(draws, n, 0, u32::from(draws.links()));
    let place = drawn as usize;
    links[place]
}

/// Loss `n`, from 0, on these links.
fn loss(draws: &Draws, links: &[LinkEntry], n: u16) -> EventEntry
    requires few { n < 20 }
    requires links { links.now ≡ drawn_links draws.now }
    ensures { result ≡ loss_spec draws.now n }
{
    let link = loss_link(draws, links, n);
    let direction = loss_draw(draws, n, 1, 2);
    EventEntry {
        tick: 501 + 20 * u64::from(loss_draw(draws, n, 2, 25)),
        kind: lost_on(&link, direction),
    }
}

/// Puts the declarations of the stations behind what a list has.
fn push_declarations(events: &mut Vec<EventEntry>, draws: &Draws) -> Result<(), NoMemory>
    ensures { OnOk result (events.new.items ≡ events.old.items
        ++ map (declaration_spec draws.now) (range_with_len 1 (station_count draws.now))) }
{
    let count = draws.stations();
    for i in 0..count {
        events.push(declaration(draws, i + 1))?;
    }
    Ok(())
}

/// Puts the events of stream `k`, from 1, behind what a list has.
fn push_stream(events: &mut Vec<EventEntry>, draws: &Draws, k: u16) -> Result<(), NoMemory>
    requires first { 1 ≤ k }
    requires few { k ≤ 16 }
    ensures { OnOk result (events.new.items ≡ events.old.items ++ stream_events draws.now k) }
{
    events.push(talk(draws, k))?;
    events.push(listen(draws, k, 1))?;
    events.push(listen(draws, k, 3))?;
    Ok(())
}

/// Puts the events of the streams behind what a list has.
fn push_streams(events: &mut Vec<EventEntry>, draws: &Draws) -> Result<(), NoMemory>
    ensures { OnOk result (events.new.items ≡ events.old.items
        ++ flat_map (stream_events draws.now) (range_with_len 1 (stream_count draws.now))) }
{
    let count = draws.streams();
    for i in 0..count {
        push_stream(events, draws, i + 1)?;
    }
    Ok(())
}

/// Puts the losses behind what a list has.
fn push_losses(
    events: &mut Vec<EventEntry>,
    draws: &Draws,
    links: &[LinkEntry],
) -> Result<(), NoMemory>
    requires { links.now ≡ drawn_links draws.now }
    ensures { OnOk result (events.new.items ≡ events.old.items
        ++ map (loss_spec draws.now) (range_with_len 0 20)) }
{
    for n in 0..LOSSES {
        events.push(loss(draws, links, n))?;
    }
    Ok(())
}

/// The events of a number in the order in which they are drawn.
fn draw_events(
    alloc: Global,
    draws: &Draws,
    links: &[LinkEntry],
) -> Result<Vec<EventEntry>, NoMemory>
    requires { links.now ≡ drawn_links draws.now }
    ensures { IfOk result (λ v. v.items ≡ drawn_events draws.now) }
{
    let mut events = Vec::with_capacity(alloc, MOST_EVENTS)?;
    push_declarations(&mut events, draws)?;
    push_streams(&mut events, draws)?;
    push_losses(&mut events, draws, links)?;
    Ok(events)
}

/// The events of a number, sorted by tick.
pub(crate) fn make_events(
    alloc: Global,
    draws: &Draws,
    links: &[LinkEntry],
) -> Result<Seq<EventEntry>, NoMemory>
    requires { links.now ≡ drawn_links draws.now }
    ensures { IfOk result (λ events. IsSortedByTick (drawn_events draws.now) events) }
{
    let mut events = draw_events(alloc, draws, links)?;
    events.sort_by_key(|e| e.tick)?;
    Ok(Seq::from_vec(events))
}
