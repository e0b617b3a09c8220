//! What bounds are asked of.

use delay_bound::ClassStream;
use srp_base::{Class, PortChange, Rate};
use std::marker::Model;
use tree_topology::Tree;

/// A tree, the rate of each of its links, what was in force at its ports, the number of ticks, a
/// class and its streams. Contracts see a `ClassSetting`.
#[derive(Drop)]
pub(crate) struct DelaySetting<'a> {
    pub(crate) tree: &'a Tree,
    pub(crate) rates: &'a [Rate],
    pub(crate) changes: &'a [PortChange],
    pub(crate) ticks: u64,
    pub(crate) class: Class,
    pub(crate) streams: &'a [ClassStream],
}

impl<'a> Model for DelaySetting<'a> {
    ghost use Rattle.class_delays.specs.Given.{ClassSetting, IsClassSetting, without_frames};

    ghost Value = { ClassSetting };

    ghost view = { λ a. record {
      setting = without_frames a.tree.now a.rates.now a.changes.now a.ticks;
      class = a.class;
      streams = a.streams.now;
    } };

    ghost invariant = { λ a. IsClassSetting (record {
      setting = without_frames a.tree.now a.rates.now a.changes.now a.ticks;
      class = a.class;
      streams = a.streams.now;
    }) };
}

impl DelaySetting<'_> {
    ghost use Rattle.tree_topology.specs.{Topology.IsSound, PortLaws.HasPortLaws};
    ghost use Rattle.class_delays.specs.Given.{IsClassSetting};

    /// What it is asked under, and the laws of the tree's ports.
    pub(crate) fn keeps(&self)
        ensures given { IsClassSetting self.now }
        ensures sound { IsSound self.now.setting.tree }
        ensures ports { HasPortLaws self.now.setting.tree }
    {
        self.tree.keeps();
    }
}
