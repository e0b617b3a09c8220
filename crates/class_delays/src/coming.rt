//! The streams that come to a port and are fed there.

ghost use Rattle.std.specs.Prelude.{◌≡◌, true, false, Some, None, IfSome, IfNone, IfOk, IfErr, Contains, option_map};
ghost use Rattle.srp_base.specs.Bandwidth.{bit_ps_of};
ghost use Rattle.tree_topology.specs.{Topology.HasNode, Topology.HasPort, Walk.is_behind};
ghost use Rattle.delay_flow.specs.Places.{is_booked, last_force};
ghost use Rattle.class_delays.specs.Table.{rate_at};
ghost use Rattle.class_delays.specs.Reckoned.{AreComing, IsCome};
ghost use Rattle.class_delays.specs.Causes.{IsFaultOfComing};
ghost use Rattle.class_delays.specs.Order.{AreBefore, AreReckoned};

use crate::delays::{PortDelays, Unbounded};
use crate::force::has_booked;
use crate::setting::DelaySetting;
use crate::table::{delays_at, stream_in};
use delay_bound::{ClassStream, late};
use frame_flow::Place;
use srp_base::{EgressPort, NodeNo, PortChange, PortNo};
use std::alloc::Global;

/// A stream that comes to a port and is fed there.
#[derive(Clone, Copy)]
pub(crate) struct Coming {
    /// The stream.
    pub(crate) stream: ClassStream,
    /// The port of the node by which it comes; None from the station itself.
    pub(crate) by: Option<EgressPort>,
    /// By how many ps two of its frames may have moved towards each other up to the port.
    pub(crate) late: u128,
    /// The most ps that a frame of it takes up to the port.
    pub(crate) before: u128,
}

impl DelaySetting<'_> {
    /// What comes to a port.
    pub(crate) fn coming(
        &self,
        alloc: Global,
        ports: &[PortDelays],
        place: Place,
    ) -> Result<Vec<Coming>, Unbounded>
        requires port { HasPort self.now.setting.tree place.at }
        requires rate { place.rate ≡ rate_at self.now.setting place.at }
        requires reckoned { AreReckoned self.now ports.now }
        requires before { AreBefore self.now ports.now place.at }
        ensures ok { IfOk result (λ v. AreComing self.now ports.now place.at v.items) }
        ensures err { IfErr result (λ e. IsFaultOfComing self.now ports.now place.at e) }
    {
        self.keeps();
        let force = self.last_force(place.at);
        let mut coming = Vec::new(alloc);
        for x in self.streams {
            if let Some(c) = self.come(ports, place, force, x)? {
                coming.push(c)?;
            }
        }
        Ok(coming)
    }

    /// How a stream comes to a port, where it is fed there.
    fn come(
        &self,
        ports: &[PortDelays],
        place: Place,
        force: Option<&PortChange>,
        x: &ClassStream,
    ) -> Result<Option<Coming>, Unbounded>
        requires port { HasPort self.now.setting.tree place.at }
        requires rate { place.rate ≡ rate_at self.now.setting place.at }
        requires reckoned { AreReckoned self.now ports.now }
        requires before { AreBefore self.now ports.now place.at }
        requires force { option_map (λ c. c.now) force ≡ last_force self.now.setting place.at }
        requires stream { Contains self.now.streams x.now }
        ensures ok { IfOk result (λ o. IsCome self.now ports.now place.at x.now o) }
        ensures err { IfErr result (λ e. IsFaultOfComing self.now ports.now place.at e) }
    {
        self.keeps();
        if !has_booked(x.id, force) {
            return Ok(None);
        }
        match self.side(place.at, x.talker) {
            None => Ok(Some(first(place, x))),
            Some(r) => self.come_by(ports, place, r, x),
        }
    }

    /// How a stream that is booked at a port comes there by a port of the node, where it is fed.
    fn come_by(
        &self,
        ports: &[PortDelays],
        place: Place,
        r: EgressPort,
        x: &ClassStream,
    ) -> Result<Option<Coming>, Unbounded>
        requires port { HasPort self.now.setting.tree place.at }
        requires rate { place.rate ≡ rate_at self.now.setting place.at }
        requires reckoned { AreReckoned self.now ports.now }
        requires before { AreBefore self.now ports.now place.at }
        requires stream { Contains self.now.streams x.now }
        requires booked { is_booked self.now.setting place.at x.now.id ≡ true }
        requires other { HasPort self.now.setting.tree r }
        requires node { r.node.0 ≡ place.at.node.0 }
        requires behind { is_behind self.now.setting.tree.links r x.now.talker.0 ≡ true }
        ensures ok { IfOk result (λ o. IsCome self.now ports.now place.at x.now o) }
        ensures err { IfErr result (λ e. IsFaultOfComing self.now ports.now place.at e) }
    {
        self.keeps();
        if r == place.at {
            return Ok(None);
        }
        let Some(e) = delays_at(ports, self.tree.peer(r)) else {
            return Ok(None);
        };
        let Some(f) = stream_in(e.fed.as_slice(), x) else {
            return Ok(None);
        };
        let Some(late) = late(f.late, f.wait, e.rate, place.rate) else {
            return Err(Unbounded::Large(place.at));
        };
        Ok(Some(Coming {
            stream: *x,
            by: Some(r),
            late,
            before: f.spent,
        }))
    }

    /// The port of a port's node behind which another node lies; None where that is the node.
    fn side(&self, at: EgressPort, node: NodeNo) -> Option<EgressPort>
        requires port { HasPort self.now.setting.tree at }
        requires node { HasNode self.now.setting.tree node.0 }
        ensures port { IfSome result (λ r. HasPort self.now.setting.tree r) }
        ensures node { IfSome result (λ r. r.node.0 ≡ at.node.0) }
        ensures behind { IfSome result
            (λ r. is_behind self.now.setting.tree.links r node.0 ≡ true) }
        ensures own { IfNone result (node.0 ≡ at.node.0) }
    {
        self.keeps();
        for k in 0..self.tree.ports(at.node) {
            let r = EgressPort {
                node: at.node,
                port: PortNo(k + 1),
            };
            if self.tree.behind(r, node) {
                return Some(r);
            }
        }
        None
    }
}

/// How a stream comes to a port of its Talker's station.
fn first(place: Place, x: &ClassStream) -> Coming
    ensures stream { result.stream ≡ x.now }
    ensures by { result.by ≡ None }
    ensures late { result.late ≡ bit_ps_of place.rate }
    ensures before { result.before ≡ 0 }
{
    Coming {
        stream: *x,
        by: None,
        late: u128::from(place.rate.bit_ps()),
        before: 0,
    }
}
