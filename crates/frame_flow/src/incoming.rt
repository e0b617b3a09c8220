//! The copies of frames that come to a node, each with the port that it came in by.

ghost use Rattle.std.specs.Prelude.{◌≡◌, [], false, true};
ghost use Rattle.frame_flow.specs.Incoming.{IsGatheredFor, station_of};

use crate::frame::{Frame, Route};
use crate::place::Place;
use srp_base::{NodeNo, PortNo, Rate};
use std::alloc::Global;
use std::marker::Model;

/// Which copies are gathered: those at a node, in bit times of a rate, without those that came in
/// by one port. Port 0 is none of its ports, so that then it is all.
#[derive(Clone, Copy)]
pub(crate) struct AtNode {
    pub(crate) node: NodeNo,
    pub(crate) rate: Rate,
    pub(crate) without: PortNo,
}

impl AtNode {
    /// Which copies to gather for a port: all that come to its node where they are shared with
    /// other ports, and else all but those that came in by itself.
    pub(crate) fn of_port(place: Place, is_shared: bool) -> AtNode
        ensures served { IsGatheredFor result place }
        ensures own { is_shared ≡ false → result.without ≡ place.at.port }
    {
        AtNode {
            node: place.at.node,
            rate: place.rate,
            without: if is_shared { PortNo(0) } else { place.at.port },
        }
    }

    /// Whether all copies at the node are gathered.
    pub(crate) fn is_all(self) -> bool
        ensures { result ≡ true → self.without.0 ≡ 0 }
    {
        self.without.0 == 0
    }

    /// Whether all copies at the node are gathered, and they serve a port.
    pub(crate) fn serves_all(self, place: Place) -> bool
        ensures all { result ≡ true → self.without.0 ≡ 0 }
        ensures served { result ≡ true → IsGatheredFor self place }
    {
        self.is_all() && self.node == place.at.node && self.rate == place.rate
    }
}

/// A copy of a frame at a node, with the port that it came in by; a frame of the node's own station
/// came in by port 0. The frame's number and its station stand beside it, so that copies are put in
/// order and chosen without a look at each frame. Contracts see an `Incoming`.
#[derive(Drop)]
pub(crate) struct IncomingOf<'a> {
    frame: &'a Frame,
    bit: u64,
    number: u32,
    to: NodeNo,
    ingress: PortNo,
}

impl<'a> Model for IncomingOf<'a> {
    ghost use Rattle.std.specs.Prelude.{◌≡◌};
    ghost use Rattle.frame_flow.specs.Incoming.{Incoming, station_of};

    ghost Value = { Incoming };

    ghost view = { λ c. record
        { ingress = c.ingress.0; copy = record { bit = c.bit; frame = c.frame.now } } };

    ghost invariant = { λ c. (c.number ≡ c.frame.now.number) × (c.to.0 ≡ station_of c.frame.now.route) };
}

impl<'a> IncomingOf<'a> {
    /// The copy of a frame that came in by this port, in this bit time.
    pub(crate) fn new(ingress: PortNo, bit: u64, frame: &'a Frame) -> IncomingOf<'a>
        ensures { result
            ≡ record { ingress = ingress.0; copy = record { bit = bit; frame = frame.now } } }
    {
        IncomingOf {
            frame,
            bit,
            number: frame.number,
            to: station_of(frame.route),
            ingress,
        }
    }

    /// The port that it came in by.
    pub(crate) fn ingress(&self) -> PortNo
        ensures { result.0 ≡ self.now.ingress }
    {
        self.ingress
    }

    /// The bit time in which it came.
    pub(crate) fn bit(&self) -> u64
        ensures { result ≡ self.now.copy.bit }
    {
        self.bit
    }

    /// The number of the frame.
    pub(crate) fn number(&self) -> u32
        ensures { result ≡ self.now.copy.frame.number }
    {
        self.number
    }

    /// The station that the frame goes to; 0 where it goes wherever its stream is booked.
    pub(crate) fn to(&self) -> NodeNo
        ensures { result.0 ≡ station_of self.now.copy.frame.route }
    {
        self.to
    }

    /// The frame.
    pub(crate) fn frame(&self) -> &'a Frame
        ensures { result.now ≡ self.now.copy.frame }
    {
        self.frame
    }
}

/// The station that a frame of a route goes to; 0 where it goes wherever its stream is booked.
fn station_of(route: Route) -> NodeNo
    ensures { result.0 ≡ station_of route }
{
    match route {
        Route::Stream(_, _) => NodeNo(0),
        Route::To(station) => station,
    }
}

/// The copies at a node.
#[derive(Drop)]
pub(crate) struct NodeCopies<'a> {
    pub(crate) at: AtNode,
    pub(crate) copies: Vec<IncomingOf<'a>>,
}

impl<'a> NodeCopies<'a> {
    /// No copies. Port 1 is left out, so that they serve no port.
    pub(crate) fn none(alloc: Global) -> NodeCopies<'a>
        ensures without { result.at.without.0 ≡ 1 }
        ensures copies { result.copies.items ≡ [] }
    {
        NodeCopies {
            at: AtNode {
                node: NodeNo(0),
                rate: Rate::M100,
                without: PortNo(1),
            },
            copies: Vec::new(alloc),
        }
    }
}
