//! What a port may give away, by the entry of its link.

ghost use Rattle.std.specs.Prelude.{◌≡◌, ◌-◌, filter, slice_get, IfSome};
ghost use Rattle.class_b_bound.specs.Bound.{AreCaps};
ghost use Rattle.scenario_bounds.specs.Caps.{is_link_of, caps_at, caps_of_link, link_at};

use srp_base::EgressPort;
use stream_importance::Caps;
use topology_file::{LinkEntry, Scenario};

/// The link of a port of a scenario's network: that of the node's links, in the order of the file,
/// which has the port's number. Ports count from 1; 0, which no node has, is read as 1. None
/// exactly where the node has fewer links than that. What its entry leaves to class A isn't above
/// what it leaves to both classes, and that is below its rate (IEEE Std 802.1Q-2018, 34.3).
pub fn link_at(scenario: &Scenario, at: EgressPort) -> Option<LinkEntry>
    ensures link { result ≡ link_at scenario.now at }
    ensures caps { IfSome result (λ l. AreCaps l.rate (caps_of_link l).class_a (caps_of_link l).both) }
{
    scenario.keeps_rules();
    link_of_port(scenario, at)
}

/// The caps of a port, in bit/s: what its link's entry leaves to class A and to both classes (IEEE
/// Std 802.1Q-2018, 34.3). Ports count from 1; 0, which no node has, is read as 1. Where the node
/// has fewer links than that, both caps are 0.
pub fn caps_at(scenario: &Scenario, at: EgressPort) -> Caps
    ensures { result ≡ caps_at scenario.now at }
{
    match link_of_port(scenario, at) {
        Some(link) => Caps::new(link.rate, link.delta_a, link.delta_b),
        None => Caps {
            class_a: 0,
            both: 0,
        },
    }
}

// The link of a port, if there is one; port 0 is read as 1.
fn link_of_port(scenario: &Scenario, at: EgressPort) -> Option<LinkEntry>
    ensures { result ≡ link_at scenario.now at }
{
    link_of(scenario.links.as_slice(), at)
}

// The link of a port: a node's links count from 1, in the order of the file; 0 is read as 1.
fn link_of(links: &[LinkEntry], at: EgressPort) -> Option<LinkEntry>
    ensures { result ≡ slice_get (filter (is_link_of at.node.0) links.now) (at.port.0 - 1) }
{
    let mut before = at.port.0.saturating_sub(1);
    for link in links {
        if link.a.0 == at.node.0 || link.b.0 == at.node.0 {
            if before == 0 {
                return Some(*link);
            }
            before -= 1;
        }
    }
    None
}
