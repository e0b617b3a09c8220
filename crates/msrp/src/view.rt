//! What a link port sees at its node.

ghost use Rattle.std.specs.Prelude.{◌≡◌, ◌<◌, length, slice_get, Some};
ghost use Rattle.msrp.specs.Holding.{ports_in};

use crate::port::Port;
use crate::side::MsrpSide;
use srp_base::{StreamId, Talker};

// What a link port sees at its node (IEEE Std 802.1Q-2018, 35.2.4): what the application talks and
// listens to, all link ports, and its own place among them.
#[derive(Drop)]
pub(crate) struct PortView<'a> {
    pub(crate) talks: &'a [Talker],
    pub(crate) listens: &'a [StreamId],
    pub(crate) ports: &'a [Port],
    pub(crate) at: usize,
}

impl<'a> PortView<'a> {
    // The port that sees it.
    pub(crate) fn port(&self) -> &'a Port
        requires { self.now.at < length self.now.ports.now }
        ensures { slice_get self.now.ports.now self.now.at ≡ Some result.now }
    {
        port_at(self.ports, self.at)
    }
}

impl MsrpSide {
    // What the link port at a place sees.
    pub(crate) fn view(&self, at: usize) -> PortView<'_>
        ensures talks { result.talks.now ≡ self.now.state.talks }
        ensures listens { result.listens.now ≡ self.now.state.listens }
        ensures ports { ports_in result.ports.now ≡ self.now.state.ports }
        ensures at { result.at ≡ at }
    {
        PortView {
            talks: self.talks.as_slice(),
            listens: self.listens.as_slice(),
            ports: self.ports.as_slice(),
            at,
        }
    }
}

// The port at a place.
pub(crate) fn port_at(ports: &[Port], at: usize) -> &Port
    requires { at < length ports.now }
    ensures { slice_get ports.now at ≡ Some result.now }
{
    &ports[at]
}
