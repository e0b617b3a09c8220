//! What a class has of a window, found from piece to piece.

ghost use Rattle.std.specs.Prelude.{◌≡◌, ◌^◌, ◌*◌, ◌<◌, ◌≤◌, ◌↔◌, IsTrue, IfOk};
ghost use Rattle.credit_shaper.specs.{Port.IsPortInput, Pieces.ArePieces};
ghost use Rattle.class_service.specs.Class.{IsClass, IsBusy};
ghost use Rattle.class_service.specs.Service.{IsCreditKept};
ghost use Rattle.class_service.specs.Window.{service_of, service_with, slope_in, waits_in};

use crate::laws::a_busy_class_gets_its_bandwidth;
use credit_shaper::{Piece, PortInput, PortTrace, Traffic};
use srp_base::NoMemory;
use std::alloc::Global;

/// What a class has of a window.
#[derive(Clone, Copy, PartialEq, Eq)]
pub struct Service {
    /// The bit times in which a frame of the class is on the line.
    pub bits: u64,
    /// The sum of the class's idleSlope over the window's bit times, in units of 1/rate bit.
    pub area: u128,
    /// Whether in each of them a frame of the class waits or is on the line.
    pub is_busy: bool,
}

/// What class A or class B has of the window from one bit time to before another: where it is busy
/// all along, its credit is at the end what it was, with the area, less the rate times the bits. It
/// takes a few steps a frame, however long the run, and the one error is want of memory.
///
/// The input is as `PortInput::is_valid` tests it, the first bit time isn't after the second, and
/// that isn't after the input's end.
pub fn service_in(
    alloc: Global,
    input: &PortInput,
    class: Traffic,
    from: u64,
    to: u64,
) -> Result<Service, NoMemory>
    requires input { IsPortInput input.now }
    requires class { IsClass class }
    requires order { from ≤ to }
    requires within { to ≤ input.now.end }
    ensures exact { IfOk result (λ s. s ≡ service_of input.now class from to) }
    ensures busy { IfOk result (λ s. IsTrue s.is_busy ↔ IsBusy input.now class from to) }
    ensures kept { IfOk result (λ s. IsTrue s.is_busy → IsCreditKept input.now class from to) }
{
    a_busy_class_gets_its_bandwidth();
    let pieces = PortTrace::pieces(alloc, input)?;
    Ok(service_over(input, pieces.as_slice(), class, from, to))
}

/// What a class has of a window in a run's pieces.
fn service_over(input: &PortInput, pieces: &[Piece], class: Traffic, from: u64, to: u64) -> Service
    requires class { IsClass class }
    requires order { from ≤ to }
    requires within { to ≤ input.now.end }
    requires short { input.now.end ≤ 2 ^ 41 }
    requires pieces { ArePieces input.now 0 input.now.end pieces.now }
    ensures { result ≡ service_of input.now class from to }
{
    let mut service = Service {
        bits: 0,
        area: 0,
        is_busy: true,
    };
    let mut at = from;
    for piece in pieces {
        let next = (piece.bit + piece.bits).clamp(at, to);
        service = service.with(piece, class, next - at);
        at = next;
    }
    service
}

impl Service {
    /// What it has with so many bit times of a piece more.
    fn with(self, piece: &Piece, class: Traffic, bits: u64) -> Service
        requires class { IsClass class }
        requires bits { self.bits ≤ 2 ^ 41 }
        requires more { bits ≤ 2 ^ 41 }
        requires area { self.area ≤ 2 ^ 41 * 2 ^ 34 }
        requires slope { slope_in piece.now class ≤ 2 ^ 34 }
        ensures { result ≡ service_with piece.now class bits self }
    {
        let sends = piece.line.does_send(class);
        Service {
            bits: self.bits + if sends { bits } else { 0 },
            area: self.area + u128::from(bits) * u128::from(slope_in(piece, class)),
            is_busy: self.is_busy && (bits == 0 || sends || waits_in(piece, class)),
        }
    }
}

/// A class's idleSlope in a piece.
fn slope_in(piece: &Piece, class: Traffic) -> u64
    ensures { result ≡ slope_in piece.now class }
{
    match class {
        Traffic::A => piece.shaper.slope_a,
        Traffic::B => piece.shaper.slope_b,
        Traffic::Other => 0,
    }
}

/// Whether a frame of a class waits in a piece.
fn waits_in(piece: &Piece, class: Traffic) -> bool
    ensures { result ≡ waits_in piece.now class }
{
    match class {
        Traffic::A => piece.waits_a,
        Traffic::B => piece.waits_b,
        Traffic::Other => false,
    }
}
