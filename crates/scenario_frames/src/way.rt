//! Where the frames of an entry start, and as what they go.

ghost use Rattle.std.specs.Prelude.{◌≡◌};
ghost use Rattle.scenario_frames.specs.PlanFrames.{stream_way, traffic_of_priority, way_of as way_of_spec};

use credit_shaper::Traffic;
use frame_flow::Route;
use msrp_talker::class_of;
use srp_base::{Class, NodeNo, Priority};
use topology_file::{FrameRoute, StreamEntry};

/// Where frames start, which route they take, and their VID.
#[derive(Clone, Copy)]
pub(crate) struct Way {
    pub(crate) from: NodeNo,
    pub(crate) route: Route,
    pub(crate) vid: u16,
}

/// The traffic of a priority: that of its SR class, where it has one.
fn traffic_of(priority: Priority) -> Traffic
    ensures { result ≡ traffic_of_priority priority }
{
    match class_of(priority.get()) {
        Some(Class::A) => Traffic::A,
        Some(Class::B) => Traffic::B,
        None => Traffic::Other,
    }
}

/// A stream's frames start at its talker, with the stream's VID and the traffic of its priority.
fn way_of_stream(stream: &StreamEntry) -> Way
    ensures { result ≡ stream_way stream.now }
{
    Way {
        from: stream.talker,
        route: Route::Stream(stream.id, traffic_of(stream.priority)),
        vid: stream.vid.get(),
    }
}

/// The way of the frames of a route; None where its stream isn't there.
pub(crate) fn way_of(streams: &[StreamEntry], route: FrameRoute) -> Option<Way>
    ensures { result ≡ way_of_spec streams.now route }
{
    match route {
        FrameRoute::OfStream { stream } => {
            let stream = streams.get(usize::from(stream).saturating_sub(1))?;
            Some(way_of_stream(stream))
        }
        FrameRoute::Between { from, to, vid } => Some(Way {
            from,
            route: Route::To(to),
            vid: vid.get(),
        }),
    }
}
