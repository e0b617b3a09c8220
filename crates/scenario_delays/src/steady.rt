//! Whether a run is steady.

ghost use Rattle.std.specs.Prelude.{◌≡◌, None, option_map};
ghost use Rattle.frame_flow.specs.Flow.{traffic_of};
ghost use Rattle.scenario_delays.specs.Steady.{booking_tick as booking_tick_spec, has_bookings_of as has_bookings_of_spec, is_reserved as is_reserved_spec, is_steady as is_steady_spec, last_booking_tick as last_booking_tick_spec, same_port};

use credit_shaper::Traffic;
use frame_flow::{Frame, Route};
use srp_base::PortChange;

/// Whether a run is steady: no frame of a stream of class A or B is sent before the tick of the
/// last change of bookings or slopes at a port. The changes of the run ascend by port and tick.
pub fn is_steady(changes: &[PortChange], frames: &[Frame]) -> bool
    ensures { result ≡ is_steady_spec changes.now frames.now }
{
    let since = u128::from(last_booking_tick(changes)) * 10_000_000_000;
    frames
        .iter()
        .all(|f| !is_reserved(f) || since <= u128::from(f.at.0))
}

/// Whether a frame is of a stream of class A or B.
fn is_reserved(frame: &Frame) -> bool
    ensures { result ≡ is_reserved_spec (traffic_of frame.now.route) }
{
    match frame.route {
        Route::Stream(_, traffic) => traffic != Traffic::Other,
        Route::To(_) => false,
    }
}

/// The tick of the last change of bookings or slopes; 0 where there is none.
fn last_booking_tick(changes: &[PortChange]) -> u64
    ensures { result ≡ last_booking_tick_spec None changes.now }
{
    let mut last = 0;
    let mut before = None;
    for change in changes {
        last = last.max(booking_tick(before, change));
        before = Some(change);
    }
    last
}

/// The tick of a change, where it has other bookings or slopes than the one before it at its port;
/// else 0.
fn booking_tick(before: Option<&PortChange>, change: &PortChange) -> u64
    ensures { result ≡ booking_tick_spec (option_map (λ b. b.now) before.entry) change.now }
{
    if has_bookings_of(of_port(before, change), change) {
        0
    } else {
        change.tick
    }
}

/// A change, where it is of the port of another.
fn of_port<'a>(before: Option<&'a PortChange>, change: &PortChange) -> Option<&'a PortChange>
    ensures { option_map (λ b. b.now) result
        ≡ same_port (option_map (λ b. b.now) before.entry) change.now }
{
    before.filter(|b| b.at == change.at)
}

/// Whether a change has the bookings and slopes that another had, or none.
fn has_bookings_of(before: Option<&PortChange>, change: &PortChange) -> bool
    ensures { result ≡ has_bookings_of_spec (option_map (λ b. b.now) before.entry) change.now }
{
    match before {
        Some(b) => {
            change.booked == b.booked && change.slope_a == b.slope_a && change.slope_b == b.slope_b
        }
        None => change.booked.is_empty() && change.slope_a == 0 && change.slope_b == 0,
    }
}
