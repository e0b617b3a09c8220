//! What the links, streams, events and frames of a file may name.

ghost use Rattle.std.specs.Prelude.{◌≡◌, ◌≤◌, [], length};

use crate::entries::{LinkEntry, NodeEntry, StreamEntry};
use std::marker::Model;

/// The nodes, 64 at most, the links, and the streams, 128 at most, that a file has so far.
/// Contracts see a `Named`.
#[derive(Drop)]
pub struct Names<'a> {
    pub(crate) nodes: &'a [NodeEntry],
    pub(crate) links: &'a [LinkEntry],
    pub(crate) streams: &'a [StreamEntry],
}

impl<'a> Model for Names<'a> {
    ghost use Rattle.std.specs.Prelude.{◌≤◌, length};
    ghost use Rattle.topology_file.specs.Names.{Named};

    ghost Value = { Named };

    ghost view = { λ n. record { nodes = n.nodes.now; links = n.links.now; streams = n.streams.now } };

    ghost invariant = { λ n. (length n.nodes.now ≤ 64) × (length n.streams.now ≤ 128) };
}

impl<'a> Names<'a> {
    /// These nodes and links, and no streams.
    pub fn of_network(nodes: &'a [NodeEntry], links: &'a [LinkEntry]) -> Names<'a>
        requires { length nodes.now ≤ 64 }
        ensures { result ≡ record { nodes = nodes.now; links = links.now; streams = [] } }
    {
        Names {
            nodes,
            links,
            streams: &[],
        }
    }

    /// The same with these streams.
    pub(crate) fn with_streams(&self, streams: &'a [StreamEntry]) -> Names<'a>
        requires { length streams.now ≤ 128 }
        ensures { result ≡ record self.now { streams = streams.now } }
    {
        Names {
            nodes: self.nodes,
            links: self.links,
            streams,
        }
    }
}
