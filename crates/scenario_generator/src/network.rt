//! The nodes and links of a number.

ghost use Rattle.std.specs.Prelude.{◌≡◌, ◌≤◌, ◌<◌, ◌+◌, ◌-◌, ◌++◌, map, IfOk, OnOk};
ghost use Rattle.std.specs.List.{range_with_len};
ghost use Rattle.scenario_generator.specs.Network.{numbered_name, bridge_entry, station_entry, drawn_nodes, link_entry, bridge_link as bridge_link_spec, station_link as station_link_spec, drawn_links};

use crate::draws::Draws;
use srp_base::{BridgeId, NoMemory, NodeNo, Percent, Rate, Seq};
use std::alloc::Global;
use topology_file::{DomainWord, LinkEntry, NodeEntry};
use tree_topology::NodeKind;

/// The most nodes of a number.
const MOST_NODES: usize = 17;

/// The most links of a number.
const MOST_LINKS: usize = 16;

/// A word with a number behind it.
pub(crate) fn numbered_name(alloc: Global, word: &str, n: u16) -> Result<Seq<u8>, NoMemory>
    ensures { IfOk result (λ name. name ≡ numbered_name word.now n) }
{
    let name = format!(in alloc; "{word}{n}")?;
    Ok(Seq::from_vec(name.into_bytes()))
}

/// Bridge `n`, from 1.
fn bridge(alloc: Global, n: u16) -> Result<NodeEntry, NoMemory>
    ensures { IfOk result (λ x. x ≡ bridge_entry n) }
{
    let name = numbered_name(alloc, "b", n)?;
    Ok(NodeEntry {
        name,
        kind: NodeKind::Bridge,
        id: BridgeId(u64::from(n)),
        domain: DomainWord::Both,
    })
}

/// Station `n`, from 1, behind so many bridges.
fn station(alloc: Global, bridges: u16, n: u16) -> Result<NodeEntry, NoMemory>
    requires bridges { bridges ≤ 8 }
    requires station { n ≤ 9 }
    ensures { IfOk result (λ x. x ≡ station_entry bridges n) }
{
    let name = numbered_name(alloc, "s", n)?;
    Ok(NodeEntry {
        name,
        kind: NodeKind::Station,
        id: BridgeId(u64::from(bridges + n)),
        domain: DomainWord::Both,
    })
}

/// Puts the bridges behind what a list has.
fn push_bridges(alloc: Global, nodes: &mut Vec<NodeEntry>, bridges: u16) -> Result<(), NoMemory>
    requires { bridges ≤ 8 }
    ensures { OnOk result (nodes.new.items ≡ nodes.old.items
        ++ map bridge_entry (range_with_len 1 bridges)) }
{
    for i in 0..bridges {
        let node = bridge(alloc, i + 1)?;
        nodes.push(node)?;
    }
    Ok(())
}

/// Puts the stations behind what a list has.
fn push_stations(
    alloc: Global,
    nodes: &mut Vec<NodeEntry>,
    bridges: u16,
    stations: u16,
) -> Result<(), NoMemory>
    requires bridges { bridges ≤ 8 }
    requires stations { stations ≤ 9 }
    ensures { OnOk result (nodes.new.items ≡ nodes.old.items
        ++ map (station_entry bridges) (range_with_len 1 stations)) }
{
    for i in 0..stations {
        let node = station(alloc, bridges, i + 1)?;
        nodes.push(node)?;
    }
    Ok(())
}

/// The nodes of a number.
pub(crate) fn make_nodes(alloc: Global, draws: &Draws) -> Result<Seq<NodeEntry>, NoMemory>
    ensures { IfOk result (λ nodes. nodes ≡ drawn_nodes draws.now) }
{
    let bridges = draws.bridges();
    let stations = draws.stations();
    let mut nodes = Vec::with_capacity(alloc, MOST_NODES)?;
    push_bridges(alloc, &mut nodes, bridges)?;
    push_stations(alloc, &mut nodes, bridges, stations)?;
    Ok(Seq::from_vec(nodes))
}

/// The whole percentage of this number.
fn percent(number: u64) -> Percent
    requires { number ≤ 90 }
    ensures { result ≡ number }
{
    match Percent::new(number) {
        Some(percent) => percent,
        None => unreachable!(),
    }
}

/// A link of 100 Mb/s between two nodes, with 75 percent for class A, none for class B and 500 ns.
pub(crate) fn link(a: u16, b: u16) -> LinkEntry
    ensures { result ≡ link_entry a b }
{
    LinkEntry {
        a: NodeNo(a),
        b: NodeNo(b),
        rate: Rate::M100,
        delta_a: percent(75),
        delta_b: percent(0),
        latency: 500,
    }
}

/// The link of bridge `n`, from 2, to one before it.
fn bridge_link(draws: &Draws, n: u16) -> LinkEntry
    requires second { 2 ≤ n }
    requires few { n ≤ 8 }
    ensures { result ≡ bridge_link_spec draws.now n }
{
    let before = draws.draw(2 + (usize::from(n) - 1), u32::from(n) - 1);
    link(n, 1 + before as u16)
}

/// The link of station `n`, from 1, to one of the bridges.
fn station_link(draws: &Draws, bridges: u16, n: u16) -> LinkEntry
    requires some { 2 ≤ bridges }
    requires few { bridges ≤ 8 }
    requires first { 1 ≤ n }
    requires stations { n ≤ 9 }
    ensures { result ≡ station_link_spec draws.now bridges n }
{
    let number = usize::from(bridges) - 1 + usize::from(n);
    let bridge = draws.draw(2 + number, u32::from(bridges));
    link(bridges + n, 1 + bridge as u16)
}

/// Puts the links of the bridges behind what a list has.
fn push_bridge_links(
    links: &mut Vec<LinkEntry>,
    draws: &Draws,
    bridges: u16,
) -> Result<(), NoMemory>
    requires some { 2 ≤ bridges }
    requires few { bridges ≤ 8 }
    ensures { OnOk result (links.new.items ≡ links.old.items
        ++ map (bridge_link_spec draws.now) (range_with_len 2 (bridges - 1))) }
{
    for i in 0..bridges - 1 {
        links.push(bridge_link(draws, i + 2))?;
    }
    Ok(())
}

/// Puts the links of the stations behind what a list has.
fn push_station_links(
    links: &mut Vec<LinkEntry>,
    draws: &Draws,
    bridges: u16,
    stations: u16,
) -> Result<(), NoMemory>
    requires some { 2 ≤ bridges }
    requires few { bridges ≤ 8 }
    requires stations { stations ≤ 9 }
    ensures { OnOk result (links.new.items ≡ links.old.items
        ++ map (station_link_spec draws.now bridges) (range_with_len 1 stations)) }
{
    for i in 0..stations {
        links.push(station_link(draws, bridges, i + 1))?;
    }
    Ok(())
}

/// The links of a number.
pub(crate) fn make_links(alloc: Global, draws: &Draws) -> Result<Seq<LinkEntry>, NoMemory>
    ensures { IfOk result (λ links. links ≡ drawn_links draws.now) }
{
    let bridges = draws.bridges();
    let stations = draws.stations();
    let mut links = Vec::with_capacity(alloc, MOST_LINKS)?;
    push_bridge_links(&mut links, draws, bridges)?;
    push_station_links(&mut links, draws, bridges, stations)?;
    Ok(Seq::from_vec(links))
}
