//! The tree of a bridged network: stations and bridges, and the links between them.
//!
//! A bridged network forwards along its active topology, which is a tree (IEEE Std 802.1Q-2018,
//! 7.3). This crate takes nodes and links, refuses what is no tree, and answers what SRP asks of a
//! tree: the egress ports from a Talker to a Listener, and what lies behind a port.
//!
//! ```text
//!   t1 ---- b1 ---- b2 ---- l2       path(t1, l3) = t1>b1, b1>b2, b2>l3
//!            |       |
//!           l1      l3               behind(b1>b2) = b2, l2, l3
//! ```
//!
//! The contract is a graph's. A tree is a graph with exactly one walk without a repeated node
//! between any two nodes (`IsTree`); `path` gives the egress ports of that walk, `behind` tells
//! whose walk begins with a port's link. `Tree::new` accepts exactly the trees whose stations have
//! one link and whose nodes have at most 255, and names the first refusal, as a relation
//! (`IsRefusal`) and as a function (`refusal`), which the law `refusals` joins. The laws that
//! inductions over a tree need stand in `laws`. Those of ports are one record, `HasPortLaws`, which
//! each tree hands out by `keeps`: its last one says of what is propagated from node to node, as a
//! registration is, that it holds at a port exactly where some node behind the port began it.
//!
//! The code keeps each node's neighbours, its parent and its depth as seen from node 1. Making a
//! tree takes little more than linear time, a path as many steps as it has links.
//!
//! A new law of ports is a field of `HasPortLaws` in `specs/PortLaws.antt`, and a line of its proof
//! in `proofs/Propagation.antt`. A new question to a tree is a method of `Tree` that asks `Routes`.
#![tactic(auto)]

mod adjacency;
mod checks;
mod climb;
mod components;
mod graph;
pub mod laws;
mod routes;
mod span;
mod tree;

pub use graph::{Link, NodeKind, TreeErr};
pub use tree::Tree;
