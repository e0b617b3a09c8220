//! The frames of each node, so that those of a port's station are found at once. They are kept by
//! reference.

ghost use Rattle.std.specs.Prelude.{◌≡◌, ◌+◌, ◌++◌, ◌∷◌, ◌<◌, [], length, map, replicate, slice_set, slice_index_or, IfOk, OnOk};
ghost use Rattle.frame_flow.specs.Steps.{AreByNode};

use crate::frame::Frame;
use srp_base::{NoMemory, NodeNo};
use std::alloc::Global;
use std::marker::Model;

/// The frames of a node, in order. Contracts see a list.
#[derive(Drop)]
pub(crate) struct NodeFrames<'a> {
    frames: Vec<&'a Frame>,
}

impl<'a> Model for NodeFrames<'a> {
    ghost use Rattle.std.specs.Prelude.{List, map};
    ghost use Rattle.frame_flow.specs.declared.frame.Frame.{Frame};

    ghost Value = { List Frame };

    ghost view = { λ f. map (λ x. x.now) f.frames.items };
}

/// The frames of each node, at the place of its number. Contracts see a list of lists.
#[derive(Drop)]
pub(crate) struct FramesByNode<'a> {
    nodes: Vec<NodeFrames<'a>>,
}

impl<'a> Model for FramesByNode<'a> {
    ghost use Rattle.std.specs.Prelude.{List};
    ghost use Rattle.frame_flow.specs.declared.frame.Frame.{Frame};

    ghost Value = { List (List Frame) };

    ghost view = { λ f. f.nodes.items };
}

impl<'a> NodeFrames<'a> {
    /// Adds a frame behind the others.
    fn add(&mut self, f: &'a Frame) -> Result<(), NoMemory>
        ensures { OnOk result (self.new ≡ self.old ++ f.now ∷ []) }
    {
        self.frames.push(f)?;
        Ok(())
    }

    /// Them.
    fn all(&self) -> &[&'a Frame]
        ensures { map (λ f. f.now) result.now ≡ self.now }
    {
        self.frames.as_slice()
    }
}

impl<'a> FramesByNode<'a> {
    /// The frames by node, of a network of so many nodes.
    pub(crate) fn of(
        alloc: Global,
        nodes: u16,
        frames: &'a [Frame],
    ) -> Result<FramesByNode<'a>, NoMemory>
        ensures { IfOk result (AreByNode nodes frames.now) }
    {
        let mut lists = no_frames(alloc, nodes)?;
        add_frames(&mut lists, nodes, frames)?;
        Ok(FramesByNode { nodes: lists })
    }

    /// The frames of a node that has a place.
    pub(crate) fn at(&self, node: NodeNo) -> &[&'a Frame]
        requires { node.0 < length self.now }
        ensures { map (λ f. f.now) result.now ≡ slice_index_or self.now node.0 [] }
    {
        self.nodes[usize::from(node.0)].all()
    }
}

/// No frames, for nodes of the numbers 0 to this one.
fn no_frames<'a>(alloc: Global, last: u16) -> Result<Vec<NodeFrames<'a>>, NoMemory>
    ensures { IfOk result (λ v. v.items ≡ replicate (last + 1) []) }
{
    let mut nodes = Vec::new(alloc);
    for _ in 0..usize::from(last) + 1 {
        nodes.push(NodeFrames {
            frames: Vec::new(alloc),
        })?;
    }
    Ok(nodes)
}

/// Adds frames where there were none, each to those of its node.
fn add_frames<'a>(
    lists: &mut Vec<NodeFrames<'a>>,
    last: u16,
    frames: &'a [Frame],
) -> Result<(), NoMemory>
    requires { lists.old.items ≡ replicate (last + 1) [] }
    ensures { OnOk result (AreByNode last frames.now lists.new.items) }
{
    for f in frames {
        add_frame(lists, f)?;
    }
    Ok(())
}

/// Adds a frame to those of its node.
fn add_frame<'a>(lists: &mut Vec<NodeFrames<'a>>, f: &'a Frame) -> Result<(), NoMemory>
    ensures { OnOk result (lists.new.items ≡ slice_set lists.old.items f.now.from.0
        (slice_index_or lists.old.items f.now.from.0 [] ++ f.now ∷ [])) }
{
    let at = usize::from(f.from.0);
    if at < lists.len() {
        lists[at].add(f)?;
    }
    Ok(())
}
