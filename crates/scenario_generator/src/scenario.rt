//! The scenario of a number.

ghost use Rattle.std.specs.Prelude.{◌≡◌, ◌<◌, length, IfOk};
ghost use Rattle.tree_topology.specs.Refusal.{IsAccepted};
ghost use Rattle.topology_file.specs.Scenario.{node_kinds, tree_links, topology_of};
ghost use Rattle.scenario_generator.specs.Network.{drawn_nodes, drawn_links};
ghost use Rattle.scenario_generator.specs.Streams.{drawn_streams};
ghost use Rattle.scenario_generator.specs.Events.{drawn_events, IsSortedByTick};
ghost use Rattle.scenario_generator.specs.Generated.{IsDrawn};

use crate::draws::Draws;
use crate::events::make_events;
use crate::network::{make_links, make_nodes};
use crate::streams::make_streams;
use srp_base::{Cs, NoMemory, Seq};
use std::alloc::{AllocError, Global};
use topology_file::{EventEntry, LinkEntry, NodeEntry, Scenario, StreamEntry};
use tree_topology::{Link, NodeKind, Tree, TreeErr, laws};

/// The nodes and links of a number, and their tree.
#[derive(Drop)]
struct Network {
    tree: Tree,
    nodes: Seq<NodeEntry>,
    links: Seq<LinkEntry>,
}

/// What happens in the network of a number.
#[derive(Drop)]
struct Traffic {
    streams: Seq<StreamEntry>,
    events: Seq<EventEntry>,
}

/// The kinds of the nodes.
fn kinds_of(alloc: Global, nodes: &[NodeEntry]) -> Result<Vec<NodeKind>, AllocError>
    ensures { IfOk result (λ v. v.items ≡ node_kinds nodes.now) }
{
    nodes.iter().map(|node| node.kind).collect(alloc)
}

/// The ends of the links.
fn ends_of(alloc: Global, links: &[LinkEntry]) -> Result<Vec<Link>, AllocError>
    ensures { IfOk result (λ v. v.items ≡ tree_links links.now) }
{
    links
        .iter()
        .map(|link| Link {
            a: link.a,
            b: link.b,
        })
        .collect(alloc)
}

/// The tree of these nodes and links.
fn accepted_tree(alloc: Global, kinds: &[NodeKind], ends: &[Link]) -> Result<Tree, NoMemory>
    requires accepted { IsAccepted kinds.now ends.now }
    requires few_nodes { length kinds.now < 65536 }
    requires few_links { length ends.now < 65536 }
    ensures kinds { IfOk result (λ tree. tree.kinds ≡ kinds.now) }
    ensures links { IfOk result (λ tree. tree.links ≡ ends.now) }
{
    match Tree::new(alloc, kinds, ends) {
        Ok(tree) => Ok(tree),
        Err(TreeErr::NoMemory) => Err(NoMemory),
        Err(_) => unreachable!(),
    }
}

/// The tree of the nodes and links of a number, which are an accepted tree for every number.
fn make_tree(
    alloc: Global,
    draws: &Draws,
    nodes: &[NodeEntry],
    links: &[LinkEntry],
) -> Result<Tree, NoMemory>
    requires nodes { nodes.now ≡ drawn_nodes draws.now }
    requires links { links.now ≡ drawn_links draws.now }
    ensures { IfOk result (λ tree. tree
        ≡ topology_of (drawn_nodes draws.now) (drawn_links draws.now)) }
{
    laws::one_component();
    let kinds = kinds_of(alloc, nodes)?;
    let ends = ends_of(alloc, links)?;
    let tree = accepted_tree(alloc, kinds.as_slice(), ends.as_slice())?;
    Ok(tree)
}

/// The network of a number.
fn make_network(alloc: Global, draws: &Draws) -> Result<Network, NoMemory>
    ensures { IfOk result (λ n. (n.nodes ≡ drawn_nodes draws.now)
        × (n.links ≡ drawn_links draws.now)
        × (n.tree ≡ topology_of (drawn_nodes draws.now) (drawn_links draws.now))) }
{
    let nodes = make_nodes(alloc, draws)?;
    let links = make_links(alloc, draws)?;
    let tree = make_tree(alloc, draws, nodes.as_slice(), links.as_slice())?;
    Ok(Network { tree, nodes, links })
}

/// What happens in the network of a number.
fn make_traffic(alloc: Global, draws: &Draws, links: &[LinkEntry]) -> Result<Traffic, NoMemory>
    requires { links.now ≡ drawn_links draws.now }
    ensures { IfOk result (λ t. (t.streams ≡ drawn_streams draws.now)
        × IsSortedByTick (drawn_events draws.now) t.events) }
{
    let streams = make_streams(alloc, draws)?;
    let events = make_events(alloc, draws, links)?;
    Ok(Traffic { streams, events })
}

/// The scenario of a number: 4,000 ticks of a network of 2 to 8 bridges and 4 to 9 stations, with 2
/// to 16 streams.
///
/// # Errors
///
/// `NoMemory` comes where memory for it runs out, and is the one other answer: every number has a
/// scenario.
pub fn generate(alloc: Global, number: u32) -> Result<Scenario, NoMemory>
    ensures { IfOk result (λ s. IsDrawn number s) }
{
    laws::one_component();
    let draws = Draws::new(alloc, number)?;
    let network = make_network(alloc, &draws)?;
    let traffic = make_traffic(alloc, &draws, network.links.as_slice())?;
    let frames = Seq::new(alloc);
    Ok(Scenario {
        ticks: 4_000,
        leave_time: Cs(60),
        periodic: false,
        domains: false,
        tree: network.tree,
        nodes: network.nodes,
        links: network.links,
        streams: traffic.streams,
        events: traffic.events,
        frames,
    })
}
