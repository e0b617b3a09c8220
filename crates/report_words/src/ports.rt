//! The order of ports.

ghost use Rattle.std.specs.Prelude.{◌≡◌, IfOk};
ghost use Rattle.std.specs.List.{AllByRecursion};
ghost use Rattle.tree_topology.specs.Topology.{HasPort, link_ports};

use srp_base::{EgressPort, LinkNo, NoMemory};
use std::alloc::Global;
use tree_topology::Tree;

/// The ports of all links of a tree, link by link, end `a` first.
pub fn ports_of_links(alloc: Global, tree: &Tree) -> Result<Vec<EgressPort>, NoMemory>
    ensures ports { IfOk result (λ v. v.items ≡ link_ports tree.now) }
    ensures known { IfOk result (λ v. AllByRecursion (HasPort tree.now) v.items) }
{
    tree.keeps();
    let mut ports = Vec::new(alloc);
    for i in 0..tree.links() {
        let (a, b) = tree.ends(LinkNo(i + 1));
        ports.push(a)?;
        ports.push(b)?;
    }
    Ok(ports)
}
