//! The nodes and links that a tree is made of, and why they may be refused.

ghost use Rattle.std.specs.Prelude.{◌≡◌};
ghost use Rattle.tree_topology.specs.declared.graph.TreeErr.TheVariants.{NoMemory};

use srp_base::{LinkNo, NoMemory, NodeNo};
use std::alloc::AllocError;
use thiserror::Error;

/// What a node is: an end station, or a bridge that relays between its ports.
#[derive(Clone, Copy, PartialEq, Eq)]
pub enum NodeKind {
    Station,
    Bridge,
}

/// An undirected link between two nodes. Nodes are numbered from 1 in the order of their list.
#[derive(Clone, Copy, PartialEq, Eq)]
pub struct Link {
    pub a: NodeNo,
    pub b: NodeNo,
}

/// Why nodes and links are no tree, in the order in which this is judged: each variant over all
/// links or nodes before the next. It names the first link or node at fault, counted from 1.
#[derive(Clone, Copy, Debug, PartialEq, Eq, Error)]
pub enum TreeErr {
    #[error("link {} has an end that is no node", .0.0)]
    UnknownNode(LinkNo),
    #[error("link {} joins a node with itself", .0.0)]
    SelfLink(LinkNo),
    #[error("link {} joins two nodes that an earlier link joins", .0.0)]
    SecondLink(LinkNo),
    #[error("link {} joins two nodes that earlier links connect", .0.0)]
    Loop(LinkNo),
    #[error("node {} isn't connected with node 1", .0.0)]
    Unconnected(NodeNo),
    #[error("station {} hasn't exactly one link", .0.0)]
    StationWithLinks(NodeNo),
    #[error("node {} has more than 255 links", .0.0)]
    TooManyLinks(NodeNo),
    #[error("no memory")]
    NoMemory,
}

impl From<NoMemory> for TreeErr {
    ghost from_gives = { λ _ e. e ≡ NoMemory };

    fn from(_error: NoMemory) -> TreeErr {
        TreeErr::NoMemory
    }
}

impl From<AllocError> for TreeErr {
    ghost from_gives = { λ _ e. e ≡ NoMemory };

    fn from(_error: AllocError) -> TreeErr {
        TreeErr::NoMemory
    }
}
