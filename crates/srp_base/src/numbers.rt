//! Identifiers and measures, each a type of its own, so that none stands in another's place.

ghost use Rattle.std.specs.Prelude.{◌≡◌, ◌<◌, ◌≤◌, ◌↔◌, ◌^◌, IsSome, IfSome};

use std::fmt;
use std::marker::Model;

/// A StreamID: the 48-bit address of the Talker's station and a 16-bit number, as one number
/// (IEEE Std 802.1Q-2018, 35.2.2.8.2).
#[derive(Clone, Copy, PartialEq, Eq, PartialOrd, Ord)]
pub struct StreamId(pub u64);

impl fmt::Display for StreamId {
    ghost use Rattle.std.specs.Prelude.{Some};
    ghost use Rattle.srp_base.specs.Hexadecimal.{hex16_text};

    ghost output = { λ s. Some (hex16_text s.0) };

    #[tactic(auto, using(crate::proofs::HexadecimalLemmas::padded_hex16), unfolding(crate::specs::Hexadecimal::hex16_text))]
    fn fmt<W: fmt::Write>(&self, f: &mut fmt::Formatter<W>) -> fmt::Result {
        write!(f, "{:016x}", self.0)
    }
}

/// A bridge's identifier as a Talker Failed carries it (IEEE Std 802.1Q-2018, 35.2.2.8.7).
#[derive(Clone, Copy, PartialEq, Eq, PartialOrd, Ord)]
pub struct BridgeId(pub u64);

impl fmt::Display for BridgeId {
    ghost use Rattle.std.specs.Prelude.{Some};
    ghost use Rattle.srp_base.specs.Hexadecimal.{hex16_text};

    ghost output = { λ s. Some (hex16_text s.0) };

    #[tactic(auto, using(crate::proofs::HexadecimalLemmas::padded_hex16), unfolding(crate::specs::Hexadecimal::hex16_text))]
    fn fmt<W: fmt::Write>(&self, f: &mut fmt::Formatter<W>) -> fmt::Result {
        write!(f, "{:016x}", self.0)
    }
}

/// A node's number, from 1 in file order.
#[derive(Clone, Copy, Debug, PartialEq, Eq, PartialOrd, Ord)]
pub struct NodeNo(pub u16);

/// A link's number, from 1 in file order.
#[derive(Clone, Copy, Debug, PartialEq, Eq, PartialOrd, Ord)]
pub struct LinkNo(pub u16);

/// A port's number at its node, from 1 in the order of the node's links. Port 0 is the application
/// side of a station.
#[derive(Clone, Copy, PartialEq, Eq, PartialOrd, Ord)]
pub struct PortNo(pub u8);

/// An egress port: a node with one of its ports.
#[derive(Clone, Copy, PartialEq, Eq, PartialOrd, Ord)]
pub struct EgressPort {
    /// The node that it belongs to.
    pub node: NodeNo,
    /// Its number there, from 1.
    pub port: PortNo,
}

/// A moment or a time in centiseconds.
#[derive(Clone, Copy, PartialEq, Eq, PartialOrd, Ord)]
pub struct Cs(pub u64);

/// A moment or a time in picoseconds.
#[derive(Clone, Copy, PartialEq, Eq, PartialOrd, Ord)]
pub struct Ps(pub u64);

/// A VLAN identifier that a VLAN may have, 1 to 4,094 (IEEE Std 802.1Q-2018, 9.6). Contracts see
/// the number.
#[derive(Clone, Copy, PartialEq, Eq, PartialOrd, Ord)]
pub struct Vid {
    number: u16,
}

impl Model for Vid {
    ghost use Rattle.std.specs.Prelude.{ℕ, ◌≤◌};

    ghost Value = { ℕ };

    ghost view = { λ v. v.number };

    ghost invariant = { λ v. (1 ≤ v.number) × (v.number ≤ 4094) };

    ghost inverse = { λ n. record { number = n } };
}

impl Vid {
    /// The VID of this number; None exactly outside 1 to 4,094.
    pub fn new(number: u16) -> Option<Vid>
        ensures valid { IsSome result ↔ ((1 ≤ number) × (number ≤ 4094)) }
        ensures value { IfSome result (λ v. v ≡ number) }
    {
        if 1 <= number && number <= 4094 {
            Some(Vid { number })
        } else {
            None
        }
    }

    /// The number, 1 to 4,094.
    pub fn get(self) -> u16
        ensures value { result ≡ self }
        ensures in_range { (1 ≤ result) × (result ≤ 4094) }
    {
        self.number
    }
}

/// A 48-bit MAC address as one number. Contracts see the number.
#[derive(Clone, Copy, PartialEq, Eq, PartialOrd, Ord)]
pub struct Mac {
    number: u64,
}

impl Model for Mac {
    ghost use Rattle.std.specs.Prelude.{ℕ, ◌<◌, ◌^◌};

    ghost Value = { ℕ };

    ghost view = { λ m. m.number };

    ghost invariant = { λ m. m.number < 2 ^ 48 };

    ghost inverse = { λ n. record { number = n } };
}

impl fmt::Display for Mac {
    ghost use Rattle.std.specs.Prelude.{Some};
    ghost use Rattle.srp_base.specs.Hexadecimal.{hex12_text};

    ghost output = { λ m. Some (hex12_text m) };

    #[tactic(auto, using(crate::proofs::HexadecimalLemmas::padded_hex12), unfolding(crate::specs::Hexadecimal::hex12_text))]
    fn fmt<W: fmt::Write>(&self, f: &mut fmt::Formatter<W>) -> fmt::Result {
        write!(f, "{:012x}", self.number)
    }
}

impl Mac {
    /// The address of this number; None exactly at 2^48 and above.
    pub fn new(number: u64) -> Option<Mac>
        ensures valid { IsSome result ↔ (number < 2 ^ 48) }
        ensures value { IfSome result (λ m. m ≡ number) }
    {
        if number < 0x1_0000_0000_0000 {
            Some(Mac { number })
        } else {
            None
        }
    }

    /// The number, below 2^48.
    pub fn get(self) -> u64
        ensures value { result ≡ self }
        ensures in_range { result < 2 ^ 48 }
    {
        self.number
    }
}
