//! The copies of frames that come to a node, and those of them that leave by a port, in order.

ghost use Rattle.std.specs.Prelude.{◌≡◌, ◌≢◌, ◌<◌, ◌≤◌, ◌^◌, ◌++◌, ◌∷◌, ◌==◌, ◌&&◌, [], not, true, Some, AllPairs, filter_map, flat_map, length, option_map, IfOk, OnOk};
ghost use Rattle.std.specs.{List.range_with_len, List.Sorted.IsPermutation};
ghost use Rattle.tree_topology.specs.{Topology.HasNode, Topology.HasPort, Ports.neighbours, Ports.peer_of};
ghost use Rattle.frame_flow.specs.Copies.{flow_at, frame_of, goes_by, handed_by, handed_on, in_order, is_not_after, reached_at, sent_from};
ghost use Rattle.frame_flow.specs.declared.frame.Route.{Route};
ghost use Rattle.frame_flow.specs.Given.{IsInOrder, IsRoute};
ghost use Rattle.frame_flow.specs.Incoming.{AreOfSetting, HasArriving, incoming_by, incoming_of, leaving, station_of};

use crate::frame::{CopyOf, Frame};
use crate::incoming::{AtNode, IncomingOf};
use crate::moments::{bit_from, bits_of_ticks, moment_of};
use crate::numbered::find_first;
use crate::result::{Fate, PortFlow};
use crate::setting::FlowSetting;
use srp_base::{EgressPort, NoMemory, NodeNo, PortNo, Rate};
use std::alloc::Global;
use tree_topology::Tree;

impl<'a> FlowSetting<'a> {
    /// The copies at a node, by the flows at the ports that send into it. The list `old` is emptied
    /// and filled anew, for the sake of its memory.
    pub(crate) fn copies_at(
        &self,
        flows: &[PortFlow],
        at: AtNode,
        old: Vec<IncomingOf<'a>>,
    ) -> Result<Vec<IncomingOf<'a>>, NoMemory>
        requires { HasNode self.now.tree at.node.0 }
        ensures serve { IfOk result (λ v. HasArriving self.now flows.now at v.items) }
        ensures frames { IfOk result (λ v. AreOfSetting self.now v.items) }
    {
        self.keeps();
        let mut copies = old;
        copies.clear();
        self.own_copies(at, &mut copies)?;
        self.onward_copies(flows, at, &mut copies)?;
        sort_shared(at, &mut copies)?;
        Ok(copies)
    }

    /// Adds the copies of the frames of a node's station.
    fn own_copies(&self, at: AtNode, copies: &mut Vec<IncomingOf<'a>>) -> Result<(), NoMemory>
        requires { HasNode self.now.tree at.node.0 }
        ensures { OnOk result (copies.new.items ≡ copies.old.items
            ++ filter_map (incoming_of self.now.ticks at.rate 0)
            (sent_from self.now.frames at.node.0)) }
    {
        for f in self.own.at(at.node) {
            self.add_own(at.rate, f, copies)?;
        }
        Ok(())
    }

    /// Adds the copy of a frame of a node's station.
    fn add_own(
        &self,
        rate: Rate,
        frame: &'a Frame,
        copies: &mut Vec<IncomingOf<'a>>,
    ) -> Result<(), NoMemory>
        ensures { OnOk result (copies.new.items ≡ copies.old.items
            ++ filter_map (incoming_of self.now.ticks rate 0)
            (record { frame = frame.now; moment = frame.now.at.0 } ∷ [])) }
    {
        self.add_copy(rate, PortNo(0), frame, u128::from(frame.at.0), copies)
    }

    /// Adds the copies that come to a node over its links.
    fn onward_copies(
        &self,
        flows: &[PortFlow],
        at: AtNode,
        copies: &mut Vec<IncomingOf<'a>>,
    ) -> Result<(), NoMemory>
        requires { HasNode self.now.tree at.node.0 }
        ensures { OnOk result (copies.new.items ≡ copies.old.items
            ++ flat_map
            (incoming_by self.now.tree.links self.now.frames self.now.ticks flows.now at)
            (range_with_len 1 (length (neighbours self.now.tree.links at.node.0)))) }
    {
        self.keeps();
        for k in 0..self.tree.ports(at.node) {
            self.copies_by(flows, at, PortNo(k + 1), copies)?;
        }
        Ok(())
    }

    /// Adds the copies that come in by a node's port, unless these are left out.
    fn copies_by(
        &self,
        flows: &[PortFlow],
        at: AtNode,
        ingress: PortNo,
        copies: &mut Vec<IncomingOf<'a>>,
    ) -> Result<(), NoMemory>
        requires { HasPort self.now.tree (record { node = at.node; port = ingress }) }
        ensures { OnOk result (copies.new.items ≡ copies.old.items
            ++ incoming_by self.now.tree.links self.now.frames self.now.ticks flows.now at
            ingress.0) }
    {
        if ingress == at.without {
            return Ok(());
        }
        let port = EgressPort {
            node: at.node,
            port: ingress,
        };
        self.copies_from(flows, self.source(port), at.rate, ingress, copies)
    }

    /// Adds the copies of what a port hands on.
    fn copies_from(
        &self,
        flows: &[PortFlow],
        source: EgressPort,
        rate: Rate,
        ingress: PortNo,
        copies: &mut Vec<IncomingOf<'a>>,
    ) -> Result<(), NoMemory>
        ensures { OnOk result (copies.new.items ≡ copies.old.items
            ++ filter_map (incoming_of self.now.ticks rate ingress.0)
            (handed_by self.now.frames (flow_at flows.now source))) }
    {
        for x in flows {
            if x.at == source {
                return self.copies_of_flow(x, rate, ingress, copies);
            }
        }
        Ok(())
    }

    /// Adds the copies of what a port hands on, whose flow this is.
    fn copies_of_flow(
        &self,
        flow: &PortFlow,
        rate: Rate,
        ingress: PortNo,
        copies: &mut Vec<IncomingOf<'a>>,
    ) -> Result<(), NoMemory>
        ensures { OnOk result (copies.new.items ≡ copies.old.items
            ++ filter_map (incoming_of self.now.ticks rate ingress.0)
            (handed_by self.now.frames (Some flow.now))) }
    {
        let sent_at = flow.input.rate;
        // No more copies depart than the shaper was given.
        copies.reserve(flow.input.arrivals.len())?;
        for (number, fate) in flow.fates.as_slice() {
            self.add_departed(rate, ingress, sent_at, *number, *fate, copies)?;
        }
        Ok(())
    }

    /// Adds the copy of what a frame with this fate at a port of the rate `sent_at` hands on, where
    /// it has departed.
    fn add_departed(
        &self,
        rate: Rate,
        ingress: PortNo,
        sent_at: Rate,
        number: u32,
        fate: Fate,
        copies: &mut Vec<IncomingOf<'a>>,
    ) -> Result<(), NoMemory>
        ensures { OnOk result (copies.new.items ≡ copies.old.items
            ++ filter_map (incoming_of self.now.ticks rate ingress.0)
            (handed_on self.now.frames sent_at number fate)) }
    {
        match fate {
            Fate::Departed { end, .. } => {
                self.add_numbered(rate, ingress, number, moment_of(sent_at, end), copies)
            }
            Fate::Unbooked | Fate::NoVlan | Fate::Left => Ok(()),
        }
    }

    /// Adds the copy of the frame of a number, where there is one.
    fn add_numbered(
        &self,
        rate: Rate,
        ingress: PortNo,
        number: u32,
        moment: u128,
        copies: &mut Vec<IncomingOf<'a>>,
    ) -> Result<(), NoMemory>
        requires { moment ≤ 2 ^ 80 }
        ensures { OnOk result (copies.new.items ≡ copies.old.items
            ++ filter_map (incoming_of self.now.ticks rate ingress.0)
            (reached_at moment (frame_of self.now.frames number))) }
    {
        match self.frame(number) {
            Some(f) => self.add_copy(rate, ingress, f, moment, copies),
            None => Ok(()),
        }
    }

    /// The port that sends over the link of a port into its node.
    fn source(&self, over: EgressPort) -> EgressPort
        requires { HasPort self.now.tree over }
        ensures { result ≡ peer_of self.now.tree.links over }
    {
        self.tree.peer(over)
    }

    /// The frame of a number.
    fn frame(&self, number: u32) -> Option<&'a Frame>
        ensures { option_map (λ f. f.now) result ≡ frame_of self.now.frames number }
    {
        frame_of(self.frames, number)
    }

    /// Adds the copy of a frame that came in by a port, where its bit time is before the run's end.
    fn add_copy(
        &self,
        rate: Rate,
        ingress: PortNo,
        frame: &'a Frame,
        moment: u128,
        copies: &mut Vec<IncomingOf<'a>>,
    ) -> Result<(), NoMemory>
        requires { moment ≤ 2 ^ 80 }
        ensures { OnOk result (copies.new.items ≡ copies.old.items
            ++ filter_map (incoming_of self.now.ticks rate ingress.0)
            (record { frame = frame.now; moment = moment } ∷ [])) }
    {
        let bit = bit_from(rate, moment);
        let end = bits_of_ticks(rate, self.ticks);
        if bit < u128::from(end) {
            copies.push(IncomingOf::new(ingress, bit as u64, frame))?;
        }
        Ok(())
    }

    /// Of a node's copies those that leave by a port of it, in order.
    pub(crate) fn leaving(
        &self,
        alloc: Global,
        port: EgressPort,
        copies: &[IncomingOf<'a>],
    ) -> Result<Vec<CopyOf<'a>>, NoMemory>
        requires port { HasPort self.now.tree port }
        requires frames { AreOfSetting self.now copies.now }
        ensures { IfOk result
            (λ v. v.items ≡ in_order (leaving self.now.tree.links port copies.now)) }
    {
        let mut left = self.left_by(alloc, port, copies)?;
        put_in_order(&mut left)?;
        Ok(left)
    }

    /// Of a node's copies those that leave by a port of it, as they stand in the list.
    fn left_by(
        &self,
        alloc: Global,
        port: EgressPort,
        copies: &[IncomingOf<'a>],
    ) -> Result<Vec<CopyOf<'a>>, NoMemory>
        requires port { HasPort self.now.tree port }
        requires frames { AreOfSetting self.now copies.now }
        ensures { IfOk result (λ v. v.items ≡ leaving self.now.tree.links port copies.now) }
    {
        let mut left = Vec::with_capacity(alloc, copies.len())?;
        for c in copies {
            if leaves_by(self.tree, port, c) {
                left.push(CopyOf::new(c.bit(), c.frame()))?;
            }
        }
        Ok(left)
    }
}

/// Sorts a node's copies by bit time, ties by number, where several ports take theirs from them,
/// for the sake of speed alone: what leaves by a port is in order then, so that none of the ports
/// sorts it again. Those that come over one link mostly are in order, which the sort that keeps
/// ties in place makes use of.
fn sort_shared(at: AtNode, copies: &mut Vec<IncomingOf>) -> Result<(), NoMemory>
    ensures { IsPermutation copies.old.items copies.new.items }
{
    if at.is_all() {
        copies.sort_by_key(|c| (c.bit(), c.number()))?;
    }
    Ok(())
}

/// Puts copies in order of bit time, ties by number; those that are in order already are left as
/// they stand.
fn put_in_order(copies: &mut Vec<CopyOf>) -> Result<(), NoMemory>
    ensures same { IsPermutation copies.old.items copies.new.items }
    ensures order { OnOk result (IsInOrder copies.new.items) }
{
    if !are_in_order(copies.as_slice()) {
        copies.sort_by_key(|c| (c.bit(), c.frame().number))?;
    }
    Ok(())
}

/// Whether copies are in order of bit time, ties by number.
fn are_in_order(copies: &[CopyOf]) -> bool
    ensures { result ≡ true → IsInOrder copies.now }
{
    for i in 1..copies.len() {
        if !is_not_after(&copies[i - 1], &copies[i]) {
            return false;
        }
    }
    true
}

/// Whether one copy isn't after another.
fn is_not_after(x: &CopyOf, y: &CopyOf) -> bool
    ensures { result ≡ is_not_after x.now y.now }
{
    x.bit() < y.bit() || x.bit() == y.bit() && x.frame().number <= y.frame().number
}

/// The frame of a number. Frames that are numbered without a gap are found at once.
fn frame_of(frames: &[Frame], number: u32) -> Option<&Frame>
    requires { AllPairs (λ f g. f.number < g.number) frames.now }
    ensures { option_map (λ f. f.now) result ≡ frame_of frames.now number }
{
    find_first(frames, u64::from(number), guess(frames, number))
}

/// The index of a number where the frames are numbered without a gap.
fn guess(frames: &[Frame], number: u32) -> usize {
    match frames {
        [first, ..] => number.wrapping_sub(first.number) as usize,
        [] => 0,
    }
}

/// Whether a copy at a port's node leaves by the port: not by the one that it came in by.
fn leaves_by(tree: &Tree, port: EgressPort, c: &IncomingOf) -> bool
    requires port { HasPort tree.now port }
    requires route { IsRoute tree.now c.now.copy.frame.route }
    ensures { result ≡ (not (c.now.ingress == port.port.0)
        && goes_by tree.now.links port c.now.copy.frame.route) }
{
    c.ingress() != port.port && goes_by(tree, port, c.to())
}

/// Whether a frame at a port's node goes on by the port: one that goes to a station by that with
/// which the path to the station begins, another, whose station is 0, by each.
fn goes_by(tree: &Tree, at: EgressPort, to: NodeNo) -> bool
    requires port { HasPort tree.now at }
    requires station { to.0 ≢ 0 → HasNode tree.now to.0 }
    ensures { (route : Route) → IsRoute tree.now route → to.0 ≡ station_of route
        → result ≡ goes_by tree.now.links at route }
{
    to.0 == 0 || tree.behind(at, to)
}
