//! The numbers of the streams that are fed at a port.

ghost use Rattle.std.specs.Prelude.{◌≡◌, ◌^◌, ◌<◌, ◌≤◌, ◌⊎◌, [], map, IfOk, IfErr, IfSome, IfNone};
ghost use Rattle.tree_topology.specs.Topology.{HasPort};
ghost use Rattle.class_delays.specs.Table.{rate_at, slope_at, idle_at};
ghost use Rattle.class_delays.specs.Causes.{IsFaultOfFed};
ghost use Rattle.class_delays.specs.Reckoned.{fed_by, fed_with};

use crate::coming::Coming;
use crate::delays::{FedStream, Unbounded};
use crate::force::Service;
use crate::setting::DelaySetting;
use delay_bound::{Hop, wait, within};
use frame_flow::Place;
use srp_base::{Rate, Seq};
use std::alloc::Global;

impl DelaySetting<'_> {
    /// The numbers of what comes to a port, by the peak of it.
    pub(crate) fn fed(
        &self,
        alloc: Global,
        place: Place,
        service: Service,
        peak: u128,
        coming: &[Coming],
    ) -> Result<Seq<FedStream>, Unbounded>
        requires rate { place.rate ≡ rate_at self.now.setting place.at }
        requires slope { service.slope ≡ slope_at self.now place.at }
        requires idle { service.idle ≡ idle_at self.now place.at }
        requires some { (coming.now ≡ []) ⊎ (0 < service.slope) }
        ensures ok { IfOk result (λ fed. fed ≡ map (fed_by self.now place.at peak) coming.now) }
        ensures err { IfErr result (λ e. IsFaultOfFed self.now place.at peak coming.now e) }
    {
        let mut fed = Vec::new(alloc);
        for c in coming {
            match fed_with(place.rate, service, peak, c) {
                Some(f) => fed.push(f)?,
                None => return Err(Unbounded::Large(place.at)),
            }
        }
        Ok(Seq::from_vec(fed))
    }
}

/// The numbers of a stream that comes to a port; None where they are too large.
fn fed_with(rate: Rate, service: Service, peak: u128, c: &Coming) -> Option<FedStream>
    requires { 0 < service.slope }
    ensures some { IfSome result (λ f. f ≡ fed_with rate service.slope service.idle peak c.now) }
    ensures none { IfNone result
        (2 ^ 128 ≤ (fed_with rate service.slope service.idle peak c.now).spent) }
{
    let wait = wait(rate, service.slope, service.idle, peak, c.stream.least);
    let taken = within(c.stream.least, &[Hop { rate, wait }])?;
    let spent = c.before.checked_add(taken)?;
    Some(FedStream {
        stream: c.stream,
        late: c.late,
        wait,
        spent,
    })
}
