//! The numbers of a port.

ghost use Rattle.std.specs.Prelude.{◌≡◌, IfOk, IfErr};
ghost use Rattle.tree_topology.specs.Topology.{HasPort};
ghost use Rattle.class_delays.specs.Table.{rate_at};
ghost use Rattle.class_delays.specs.Causes.{IsUnbounded};
ghost use Rattle.class_delays.specs.Reckoned.{IsReckoned};
ghost use Rattle.class_delays.specs.Order.{AreBefore, AreReckoned};

use crate::delays::{PortDelays, Unbounded};
use crate::setting::DelaySetting;
use frame_flow::Place;
use std::alloc::Global;

impl DelaySetting<'_> {
    /// The numbers of a port, by those of the ports that send into its node.
    pub(crate) fn port_delays(
        &self,
        alloc: Global,
        ports: &[PortDelays],
        place: Place,
    ) -> Result<PortDelays, Unbounded>
        requires port { HasPort self.now.setting.tree place.at }
        requires rate { place.rate ≡ rate_at self.now.setting place.at }
        requires reckoned { AreReckoned self.now ports.now }
        requires before { AreBefore self.now ports.now place.at }
        ensures at { IfOk result (λ e. e.at ≡ place.at) }
        ensures reckoned { IfOk result (λ e. IsReckoned self.now ports.now e) }
        ensures err { IfErr result (λ e. IsUnbounded self.now e) }
    {
        self.keeps();
        let service = self.service(place.at, place.rate);
        let coming = self.coming(alloc, ports, place)?;
        let peak = self.peak(alloc, ports, place, service.slope, &coming)?;
        let fed = self.fed(alloc, place, service, peak, &coming)?;
        Ok(PortDelays {
            at: place.at,
            rate: place.rate,
            peak,
            fed,
        })
    }
}
