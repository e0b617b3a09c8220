//! The nodes of a scenario at its start, each with its ports.

ghost use Rattle.std.specs.Prelude.{◌≡◌, ◌≤◌, ◌++◌, length, IfOk};
ghost use Rattle.tree_topology.specs.Graph.{IsNode};
ghost use Rattle.node_core.specs.{Holding.states_in, State.new_node};
ghost use Rattle.world_core.specs.Start.{domain_set, setup_of, end_setup, setups_from, nodes_from};

use msrp::DomainSet;
use node_core::Node;
use srp_base::{Cs, NoMemory, PortSetup};
use std::alloc::Global;
use topology_file::{DomainWord, LinkEntry, NodeEntry, Scenario};

/// The nodes of a scenario at its start, in the order of their numbers.
pub(crate) fn new_nodes(alloc: Global, scenario: &Scenario) -> Result<Vec<Node>, NoMemory>
    ensures { IfOk result (λ nodes. states_in nodes.items
        ≡ nodes_from scenario.now 1 scenario.now.nodes) }
{
    nodes_of_entries(alloc, scenario, scenario.nodes.as_slice())
}

/// The nodes of all entries of a scenario.
fn nodes_of_entries(
    alloc: Global,
    scenario: &Scenario,
    entries: &[NodeEntry],
) -> Result<Vec<Node>, NoMemory>
    requires { entries.now ≡ scenario.now.nodes }
    ensures { IfOk result (λ nodes. states_in nodes.items
        ≡ nodes_from scenario.now 1 entries.now) }
{
    scenario.keeps_rules();
    let mut nodes = Vec::with_capacity(alloc, entries.len())?;
    for (i, entry) in entries.iter().enumerate() {
        nodes.push(new_node_of(alloc, scenario, i as u16 + 1, entry)?)?;
    }
    Ok(nodes)
}

/// The Domain values that a node declares, by the word of its entry, where the scenario has
/// domains.
fn domain_of(domains: bool, word: DomainWord) -> DomainSet
    ensures { result ≡ domain_set domains word }
{
    if !domains {
        return DomainSet::Off;
    }
    match word {
        DomainWord::Both => DomainSet::Both,
        DomainWord::OnlyA => DomainSet::OnlyA,
        DomainWord::Nothing => DomainSet::Nothing,
    }
}

/// The node of this number and entry, with a port for each of its links.
fn new_node_of(
    alloc: Global,
    scenario: &Scenario,
    number: u16,
    entry: &NodeEntry,
) -> Result<Node, NoMemory>
    requires { IsNode (length scenario.now.nodes) number }
    ensures { IfOk result (λ node. node.state ≡ new_node entry.now.kind entry.now.id
        scenario.now.leave_time scenario.now.periodic
        (domain_set scenario.now.domains entry.now.domain)
        (setups_from 1 number scenario.now.links)) }
{
    scenario.keeps_rules();
    let setups = new_setups(alloc, scenario, number)?;
    Node::new(
        alloc,
        entry.kind,
        entry.id,
        scenario.leave_time,
        scenario.periodic,
        setups.as_slice(),
        domain_of(scenario.domains, entry.domain),
    )
}

/// The ports of a node in the order of its links.
fn new_setups(alloc: Global, scenario: &Scenario, node: u16) -> Result<Vec<PortSetup>, NoMemory>
    ensures { IfOk result (λ setups. setups.items ≡ setups_from 1 node scenario.now.links) }
{
    scenario.keeps_rules();
    let count = scenario.tree.links();
    setups_of_links(alloc, count, scenario.links.as_slice(), node)
}

/// The ports of a node in the order of its links, of all links, of which there are so many.
fn setups_of_links(
    alloc: Global,
    count: u16,
    links: &[LinkEntry],
    node: u16,
) -> Result<Vec<PortSetup>, NoMemory>
    requires { length links.now ≡ count }
    ensures { IfOk result (λ setups. setups.items ≡ setups_from 1 node links.now) }
{
    let mut setups = Vec::new(alloc);
    for i in 0..count {
        add_end(&mut setups, u64::from(i) + 1, node, &links[usize::from(i)])?;
    }
    Ok(setups)
}

/// Adds the port of a node on the link of this number, if the link has the node as an end.
fn add_end(
    setups: &mut Vec<PortSetup>,
    number: u64,
    node: u16,
    link: &LinkEntry,
) -> Result<(), NoMemory>
    requires some { 1 ≤ number }
    requires few { number ≤ 65535 }
    ensures { IfOk result
        (λ _. setups.new.items ≡ setups.old.items ++ end_setup number node link.now) }
{
    if link.a.0 == node {
        setups.push(new_setup(2 * number - 1, link))?;
    } else if link.b.0 == node {
        setups.push(new_setup(2 * number, link))?;
    }
    Ok(())
}

/// What the end of a link with this number is set up with.
fn new_setup(end: u64, link: &LinkEntry) -> PortSetup
    ensures { result ≡ setup_of end link.now }
{
    PortSetup {
        rate: link.rate,
        delta_a: link.delta_a,
        delta_b: link.delta_b,
        latency: link.latency,
        period: Cs(1001 + 7 * (end % 64)),
    }
}
