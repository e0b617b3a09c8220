//! Which ports are at the boundary of an SR class's domain.

ghost use Rattle.std.specs.Prelude.{◌≡◌};
ghost use Rattle.tree_topology.specs.Topology.{HasPort};
ghost use Rattle.port_needs.specs.Domains.{is_edge as is_edge_spec, node_says as node_says_spec, says_class as says_class_spec};

use srp_base::{Class, EgressPort, NodeNo};
use topology_file::{DomainWord, NodeEntry, Scenario};

// Whether a node with this word says the Domain value of a class (IEEE Std 802.1Q-2018, 35.2.2.9).
fn says_class(word: DomainWord, class: Class) -> bool
    ensures { result ≡ says_class_spec word class }
{
    match word {
        DomainWord::Both => true,
        DomainWord::OnlyA => match class {
            Class::A => true,
            Class::B => false,
        },
        DomainWord::Nothing => false,
    }
}

// Whether the node of a number says it.
fn node_says(nodes: &[NodeEntry], node: NodeNo, class: Class) -> bool
    ensures { result ≡ node_says_spec nodes.now node class }
{
    match nodes.get(usize::from(node.0).saturating_sub(1)) {
        Some(entry) => says_class(entry.domain, class),
        None => false,
    }
}

/// Whether a port is at the boundary of the domain of a class: the file has domains, and the node
/// at one of the ends of the port's link doesn't say the class's Domain value (35.1.4).
pub(crate) fn is_edge(scenario: &Scenario, class: Class, at: EgressPort) -> bool
    requires { HasPort scenario.now.tree at }
    ensures { result ≡ is_edge_spec scenario.now class at }
{
    let nodes = scenario.nodes.as_slice();
    let far = scenario.tree.peer(at).node;
    scenario.domains && !(node_says(nodes, at.node, class) && node_says(nodes, far, class))
}
