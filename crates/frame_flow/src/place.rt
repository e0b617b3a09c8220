//! The ports of a tree with the rates of their links.

ghost use Rattle.std.specs.Prelude.{◌≡◌, length, IfOk};

use srp_base::{EgressPort, LinkNo, NoMemory, Rate};
use std::alloc::Global;
use tree_topology::Tree;

/// An egress port with the rate of its link.
#[derive(Clone, Copy, PartialEq, Eq)]
pub struct Place {
    /// The port.
    pub at: EgressPort,
    /// The rate of its link.
    pub rate: Rate,
}

impl Place {
    ghost use Rattle.frame_flow.specs.Copies.{all_places};

    /// All ports, link by link, the end `a` first, with the rate of each link.
    pub(crate) fn all(alloc: Global, tree: &Tree, rates: &[Rate]) -> Result<Vec<Place>, NoMemory>
        requires { length rates.now ≡ length tree.now.links }
        ensures { IfOk result (λ v. v.items ≡ all_places tree.now.links rates.now) }
    {
        let mut places = Vec::new(alloc);
        for n in 0..tree.links() {
            let (a, b) = tree.ends(LinkNo(n + 1));
            let rate = rates[usize::from(n)];
            places.push(Place { at: a, rate })?;
            places.push(Place { at: b, rate })?;
        }
        Ok(places)
    }
}
