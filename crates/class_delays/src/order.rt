//! The ports one after the other.

ghost use Rattle.std.specs.Prelude.{◌≡◌, ◌++◌, ◌∷◌, [], map, filter_map, All, IfOk, IfErr, OnOk};
ghost use Rattle.std.specs.List.Sorted.{IsNonDecreasingBy};
ghost use Rattle.frame_flow.specs.Copies.{all_places};
ghost use Rattle.delay_flow.specs.Rules.{KeepRules};
ghost use Rattle.class_delays.specs.Given.{class_traffic};
ghost use Rattle.class_delays.specs.Table.{delays_at, numbers_of, place_of, ListsFed};
ghost use Rattle.class_delays.specs.Causes.{IsUnbounded};
ghost use Rattle.class_delays.specs.Order.{AreRanked, AreReckoned, AreThere, AreAllThere};

use crate::delays::{PortDelays, Unbounded};
use crate::places::{Ranked, all_places, by_level};
use crate::setting::DelaySetting;
use crate::table::delays_at;
use frame_flow::Place;
use srp_base::NoMemory;
use std::alloc::Global;

impl DelaySetting<'_> {
    /// The numbers of all ports, link by link.
    pub(crate) fn port_by_port(&self, alloc: Global) -> Result<Vec<PortDelays>, Unbounded>
        ensures ports { IfOk result (λ v. map place_of v.items
            ≡ all_places self.now.setting.tree.links self.now.setting.rates) }
        ensures fed { IfOk result (λ v. All (ListsFed self.now) v.items) }
        ensures rules { IfOk result (λ v. KeepRules self.now.setting (class_traffic self.now.class)
            self.now.streams
            (numbers_of self.now v.items)) }
        ensures err { IfErr result (λ e. IsUnbounded self.now e) }
    {
        self.keeps();
        let places = all_places(alloc, self.tree, self.rates)?;
        let ports = self.by_level(alloc, &places)?;
        let listed = in_order(alloc, &places, &ports)?;
        Ok(listed)
    }

    /// The numbers of all ports, by level.
    fn by_level(&self, alloc: Global, places: &[Place]) -> Result<Vec<PortDelays>, Unbounded>
        requires { places.now ≡ all_places self.now.setting.tree.links self.now.setting.rates }
        ensures reckoned { IfOk result (λ v. AreReckoned self.now v.items) }
        ensures there { IfOk result (λ v. AreAllThere places.now v.items) }
        ensures err { IfErr result (λ e. IsUnbounded self.now e) }
    {
        self.keeps();
        let ranked = by_level(alloc, self.tree, places)?;
        let ports = self.along(alloc, places, &ranked)?;
        Ok(ports)
    }

    /// The numbers of ports that stand in order of level.
    fn along(
        &self,
        alloc: Global,
        places: &[Place],
        ranked: &[Ranked],
    ) -> Result<Vec<PortDelays>, Unbounded>
        requires places { places.now
            ≡ all_places self.now.setting.tree.links self.now.setting.rates }
        requires ranked { AreRanked self.now.setting.tree places.now ranked.now }
        requires order { IsNonDecreasingBy (λ x. x.level) ranked.now }
        ensures reckoned { IfOk result (λ v. AreReckoned self.now v.items) }
        ensures there { IfOk result (λ v. AreThere ranked.now v.items) }
        ensures err { IfErr result (λ e. IsUnbounded self.now e) }
    {
        self.keeps();
        let mut ports = Vec::new(alloc);
        for x in ranked {
            let e = self.port_delays(alloc, &ports, x.place)?;
            ports.push(e)?;
        }
        Ok(ports)
    }
}

/// What is reckoned for ports, in their order.
fn in_order(
    alloc: Global,
    places: &[Place],
    ports: &[PortDelays],
) -> Result<Vec<PortDelays>, NoMemory>
    ensures { IfOk result
        (λ v. v.items ≡ filter_map (λ x. delays_at ports.now x.at) places.now) }
{
    let mut listed = Vec::new(alloc);
    for place in places {
        add_found(ports, place, &mut listed)?;
    }
    Ok(listed)
}

/// Adds what is reckoned for a port.
fn add_found(
    ports: &[PortDelays],
    place: &Place,
    listed: &mut Vec<PortDelays>,
) -> Result<(), NoMemory>
    ensures { OnOk result (listed.new.items
        ≡ listed.old.items ++ filter_map (λ x. delays_at ports.now x.at) (place.now ∷ [])) }
{
    if let Some(e) = delays_at(ports, place.at) {
        listed.push(e.clone()?)?;
    }
    Ok(())
}
