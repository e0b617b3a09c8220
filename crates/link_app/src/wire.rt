//! A PDU on its way over a link.

ghost use Rattle.std.specs.Prelude.{◌≡◌, ◌≤◌, length};

use srp_base::Seq;
use std::marker::Model;

/// The octets of a PDU, at most 1,500 as in a frame of 802.3, and which application's it is.
/// Contracts see `NamedOctets`.
#[derive(Drop)]
pub struct Wire<N: Copy> {
    app: N,
    octets: Seq<u8>,
}

impl<N: Copy> Model for Wire<N> {
    ghost use Rattle.std.specs.Prelude.{◌≤◌, length};
    ghost use Rattle.link_app.specs.Wires.{NamedOctets};

    ghost Value = { NamedOctets N };

    ghost view = { λ w. record { app = w.app; octets = w.octets } };

    ghost invariant = { λ w. length w.octets ≤ 1500 };
}

impl<N: Copy> Wire<N> {
    /// A PDU of an application, of at most 1,500 octets.
    pub fn new(app: N, octets: Seq<u8>) -> Wire<N>
        requires { length octets ≤ 1500 }
        ensures { result ≡ record { app = app; octets = octets } }
    {
        Wire { app, octets }
    }

    /// Its application.
    pub fn app(&self) -> N
        ensures { result ≡ self.now.app }
    {
        self.app
    }

    /// Its octets, at most 1,500.
    pub fn octets(&self) -> &[u8]
        ensures octets { result.now ≡ self.now.octets }
        ensures few { length result.now ≤ 1500 }
    {
        self.octets.as_slice()
    }
}
