//! The streams of a number.

ghost use Rattle.std.specs.Prelude.{◌≡◌, ◌≤◌, ◌<◌, ◌^◌, IfOk};
ghost use Rattle.scenario_generator.specs.Network.{station_count};
ghost use Rattle.scenario_generator.specs.Streams.{stream_draw as stream_draw_spec, talker_drawn as talker_drawn_spec, rank_drawn as rank_drawn_spec, stream_entry as stream_entry_spec, drawn_streams};

use crate::draws::Draws;
use crate::network::numbered_name;
use srp_base::{Mac, NoMemory, NodeNo, Priority, Rank, Seq, StreamId, Vid};
use std::alloc::Global;
use topology_file::StreamEntry;

/// The most streams of a number.
const MOST_STREAMS: usize = 16;

/// The draw for stream `k`, from 1: its first, second or third, counted from 0.
fn stream_draw(draws: &Draws, k: u16, i: usize, m: u32) -> u32
    requires first { 1 ≤ k }
    requires few { k ≤ 16 }
    requires three { i ≤ 2 }
    requires some { 0 < m }
    ensures value { result ≡ stream_draw_spec draws.now k i m }
    ensures below { result < m }
{
    let place = 3 + usize::from(draws.links()) + 3 * (usize::from(k) - 1) + i;
    draws.draw(place, m)
}

/// Which station talks in stream `k`, from 1; the stations are counted from 0.
pub(crate) fn talker_drawn(draws: &Draws, k: u16) -> u16
    requires first { 1 ≤ k }
    requires few { k ≤ 16 }
    ensures value { result ≡ talker_drawn_spec draws.now k }
    ensures below { result < station_count draws.now }
{
    let stations = draws.stations();
    stream_draw(draws, k, 0, u32::from(stations)) as u16
}

/// One of eight streams is emergency traffic.
fn rank_drawn(drawn: u32) -> Rank
    ensures { result ≡ rank_drawn_spec drawn }
{
    if drawn == 0 {
        Rank::Emergency
    } else {
        Rank::Normal
    }
}

/// VID 2.
pub(crate) fn vid() -> Vid
    ensures { result ≡ 2 }
{
    match Vid::new(2) {
        Some(vid) => vid,
        None => unreachable!(),
    }
}

/// Priority 3, which is that of class A.
fn priority() -> Priority
    ensures { result ≡ 3 }
{
    match Priority::new(3) {
        Some(priority) => priority,
        None => unreachable!(),
    }
}

/// The address of this number.
fn mac(number: u64) -> Mac
    requires { number < 2 ^ 48 }
    ensures { result ≡ number }
{
    match Mac::new(number) {
        Some(mac) => mac,
        None => unreachable!(),
    }
}

/// Stream `k`, from 1.
fn stream_entry(alloc: Global, draws: &Draws, k: u16) -> Result<StreamEntry, NoMemory>
    requires first { 1 ≤ k }
    requires few { k ≤ 16 }
    ensures { IfOk result (λ x. x ≡ stream_entry_spec draws.now k) }
{
    let talker = NodeNo(draws.bridges() + (1 + talker_drawn(draws, k)));
    let dest = mac(0x91E0_F000_0000 + u64::from(k));
    let octets = 64 + stream_draw(draws, k, 1, 600) as u16;
    let rank = rank_drawn(stream_draw(draws, k, 2, 8));
    let name = numbered_name(alloc, "k", k)?;
    Ok(StreamEntry {
        name,
        id: StreamId(0x0200_0000_0000_0000 + u64::from(k)),
        talker,
        dest,
        octets,
        frames: 1,
        vid: vid(),
        priority: priority(),
        rank,
    })
}

/// The streams of a number.
pub(crate) fn make_streams(alloc: Global, draws: &Draws) -> Result<Seq<StreamEntry>, NoMemory>
    ensures { IfOk result (λ streams. streams ≡ drawn_streams draws.now) }
{
    let mut streams = Vec::with_capacity(alloc, MOST_STREAMS)?;
    let count = draws.streams();
    for i in 0..count {
        let stream = stream_entry(alloc, draws, i + 1)?;
        streams.push(stream)?;
    }
    Ok(Seq::from_vec(streams))
}
