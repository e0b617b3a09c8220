//! The groups of what comes to a port, and the peak of it.

ghost use Rattle.std.specs.Prelude.{◌≡◌, ◌∷◌, [], IfOk, IfErr};
ghost use Rattle.tree_topology.specs.Topology.{HasPort};
ghost use Rattle.delay_flow.specs.Rules.{IsBefore};
ghost use Rattle.class_delays.specs.Table.{rate_at, slope_at, further_of};
ghost use Rattle.class_delays.specs.Reckoned.{bound_from, own_of, group_of, groups_of, HasPeak};
ghost use Rattle.class_delays.specs.Causes.{IsFaultOfBound, IsFaultOfFurther, IsFaultOfGroup, IsFaultOfGroups, IsFaultOfPeak};
ghost use Rattle.class_delays.specs.Order.{AreBefore, AreReckoned};

use crate::bounds::{bound_from, class_bound, line_bound};
use crate::coming::Coming;
use crate::delays::{PortDelays, Unbounded};
use crate::setting::DelaySetting;
use crate::table::{delays_at, longest};
use delay_bound::{Bound, Group, NoPeak, peak};
use frame_flow::Place;
use srp_base::{EgressPort, NoMemory, PortNo, Seq};
use std::alloc::Global;

impl DelaySetting<'_> {
    /// The peak of what comes to a port, where the class has a slope; 0 of nothing.
    pub(crate) fn peak(
        &self,
        alloc: Global,
        ports: &[PortDelays],
        place: Place,
        slope: u64,
        coming: &[Coming],
    ) -> Result<u128, Unbounded>
        requires port { HasPort self.now.setting.tree place.at }
        requires rate { place.rate ≡ rate_at self.now.setting place.at }
        requires reckoned { AreReckoned self.now ports.now }
        requires before { AreBefore self.now ports.now place.at }
        requires slope { slope ≡ slope_at self.now place.at }
        ensures ok { IfOk result (λ height. HasPeak self.now place.at coming.now height) }
        ensures err { IfErr result (λ e. IsFaultOfPeak self.now place.at coming.now e) }
    {
        if coming.is_empty() {
            return Ok(0);
        }
        if slope == 0 {
            return Err(Unbounded::Steep(place.at));
        }
        let groups = self.groups(alloc, ports, place, coming)?;
        match peak(&groups, slope) {
            Ok(height) => Ok(height),
            Err(NoPeak::Steep) => Err(Unbounded::Steep(place.at)),
            Err(NoPeak::Large) => Err(Unbounded::Large(place.at)),
        }
    }

    /// The groups of what comes to a port.
    fn groups(
        &self,
        alloc: Global,
        ports: &[PortDelays],
        place: Place,
        coming: &[Coming],
    ) -> Result<Vec<Group>, Unbounded>
        requires port { HasPort self.now.setting.tree place.at }
        requires rate { place.rate ≡ rate_at self.now.setting place.at }
        requires reckoned { AreReckoned self.now ports.now }
        requires before { AreBefore self.now ports.now place.at }
        ensures ok { IfOk result (λ v. v.items ≡ groups_of self.now place.at coming.now) }
        ensures err { IfErr result (λ e. IsFaultOfGroups self.now place.at coming.now e) }
    {
        self.keeps();
        let mut groups = Vec::new(alloc);
        groups.push(own_group(alloc, place.at, coming)?)?;
        for k in 0..self.tree.ports(place.at.node) {
            let r = EgressPort {
                node: place.at.node,
                port: PortNo(k + 1),
            };
            if r != place.at {
                groups.push(self.group_by(alloc, ports, place, coming, r)?)?;
            }
        }
        Ok(groups)
    }

    /// The group of what comes by another port of the node.
    fn group_by(
        &self,
        alloc: Global,
        ports: &[PortDelays],
        place: Place,
        coming: &[Coming],
        r: EgressPort,
    ) -> Result<Group, Unbounded>
        requires port { HasPort self.now.setting.tree place.at }
        requires rate { place.rate ≡ rate_at self.now.setting place.at }
        requires reckoned { AreReckoned self.now ports.now }
        requires before { AreBefore self.now ports.now place.at }
        requires other { IsBefore self.now.setting place.at r }
        ensures ok { IfOk result (λ g. g ≡ group_of self.now place.at coming.now r) }
        ensures err { IfErr result
            (λ e. IsFaultOfGroup place.at (group_of self.now place.at coming.now r) e) }
    {
        let first = first_bound(place.at, Some(r), coming)?;
        let more = self.further(alloc, ports, place, r)?;
        Ok(Group {
            first,
            more: Seq::from_vec(more),
        })
    }

    /// The further bounds of what comes by another port of the node.
    fn further(
        &self,
        alloc: Global,
        ports: &[PortDelays],
        place: Place,
        r: EgressPort,
    ) -> Result<Vec<Bound>, Unbounded>
        requires port { HasPort self.now.setting.tree place.at }
        requires rate { place.rate ≡ rate_at self.now.setting place.at }
        requires reckoned { AreReckoned self.now ports.now }
        requires before { AreBefore self.now ports.now place.at }
        requires other { IsBefore self.now.setting place.at r }
        ensures ok { IfOk result (λ v. v.items ≡ further_of self.now place.at r) }
        ensures err { IfErr result
            (λ e. IsFaultOfFurther place.at (further_of self.now place.at r) e) }
    {
        self.keeps();
        let q = self.tree.peer(r);
        let Some(e) = delays_at(ports, q) else {
            return Err(Unbounded::Large(place.at));
        };
        let most = longest(e.fed.as_slice());
        let service = self.service(q, e.rate);
        let Some(class) = class_bound(e.rate, place.rate, service, most) else {
            return Err(Unbounded::Large(place.at));
        };
        let Some(line) = line_bound(e.rate, place.rate, most) else {
            return Err(Unbounded::Large(place.at));
        };
        let bounds = two(alloc, class, line)?;
        Ok(bounds)
    }
}

/// The first bound of what comes so.
fn first_bound(
    at: EgressPort,
    by: Option<EgressPort>,
    coming: &[Coming],
) -> Result<Bound, Unbounded>
    ensures ok { IfOk result (λ b. b ≡ bound_from by coming.now) }
    ensures err { IfErr result (λ e. IsFaultOfBound at (bound_from by coming.now) e) }
{
    match bound_from(by, coming) {
        Ok(first) => Ok(first),
        Err(NoPeak::Steep) => Err(Unbounded::Steep(at)),
        Err(NoPeak::Large) => Err(Unbounded::Large(at)),
    }
}

/// The group of what comes from the station itself.
fn own_group(alloc: Global, at: EgressPort, coming: &[Coming]) -> Result<Group, Unbounded>
    ensures ok { IfOk result (λ g. g ≡ own_of coming.now) }
    ensures err { IfErr result (λ e. IsFaultOfGroup at (own_of coming.now) e) }
{
    let first = first_bound(at, None, coming)?;
    Ok(Group {
        first,
        more: Seq::new(alloc),
    })
}

/// Two bounds.
fn two(alloc: Global, one: Bound, other: Bound) -> Result<Vec<Bound>, NoMemory>
    ensures { IfOk result (λ v. v.items ≡ one ∷ other ∷ []) }
{
    let mut bounds = Vec::new(alloc);
    bounds.push(one)?;
    bounds.push(other)?;
    Ok(bounds)
}
