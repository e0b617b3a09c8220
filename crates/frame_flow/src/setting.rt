//! What a flow is asked of.

use crate::by_node::FramesByNode;
use crate::frame::Frame;
use srp_base::{PortChange, Rate};
use std::marker::Model;
use tree_topology::Tree;

/// A tree, the rate of each of its links, what was in force at its ports, the frames, and the
/// number of ticks, with the frames by node. Contracts see a `Setting`.
#[derive(Drop)]
pub(crate) struct FlowSetting<'a> {
    pub(crate) tree: &'a Tree,
    pub(crate) rates: &'a [Rate],
    pub(crate) changes: &'a [PortChange],
    pub(crate) frames: &'a [Frame],
    pub(crate) ticks: u64,
    pub(crate) own: FramesByNode<'a>,
}

impl<'a> Model for FlowSetting<'a> {
    ghost use Rattle.frame_flow.specs.Flow.{Setting};
    ghost use Rattle.std.specs.Prelude.{length};
    ghost use Rattle.frame_flow.specs.Given.{IsSetting};
    ghost use Rattle.frame_flow.specs.Steps.{AreByNode};

    ghost Value = { Setting };

    ghost view = { λ a. record {
      tree = a.tree.now;
      rates = a.rates.now;
      changes = a.changes.now;
      frames = a.frames.now;
      ticks = a.ticks;
    } };

    ghost invariant = { λ a. IsSetting (record {
      tree = a.tree.now;
      rates = a.rates.now;
      changes = a.changes.now;
      frames = a.frames.now;
      ticks = a.ticks;
    }) × AreByNode (length a.tree.now.kinds) a.frames.now a.own };
}

impl FlowSetting<'_> {
    ghost use Rattle.tree_topology.specs.PortLaws.{HasPortLaws};
    ghost use Rattle.frame_flow.specs.Given.{IsSetting};

    /// What it is asked under, and the laws of the tree's ports.
    pub(crate) fn keeps(&self)
        ensures given { IsSetting self.now }
        ensures ports { HasPortLaws self.now.tree }
    {
        self.tree.keeps();
    }
}
