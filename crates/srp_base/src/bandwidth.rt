//! What a reservation is measured in: link rates, shares of them, SR classes and ranks.

ghost use Rattle.std.specs.Prelude.{◌≡◌, ◌≤◌, ◌*◌, ◌↔◌, ◌⊎◌, IsSome, IfSome};
ghost use Rattle.srp_base.specs.Bandwidth.{bits_of, bit_ps_of, rate_of_mbit};

use std::marker::Model;

/// The rate of a link.
#[derive(Clone, Copy, PartialEq, Eq)]
pub enum Rate {
    /// 100 Mb/s.
    M100,
    /// 1 Gb/s.
    G1,
    /// 10 Gb/s.
    G10,
}

impl Rate {
    /// The rate of this number of Mb/s; None exactly where it isn't 100, 1,000 or 10,000.
    pub fn of_mbit(mbit: u64) -> Option<Rate>
        ensures known { IsSome result ↔ ((mbit ≡ 100) ⊎ (mbit ≡ 1000) ⊎ (mbit ≡ 10000)) }
        ensures value { IfSome result (λ r. bits_of r ≡ mbit * 1000000) }
        ensures row { result ≡ rate_of_mbit mbit }
    {
        match mbit {
            100 => Some(Rate::M100),
            1000 => Some(Rate::G1),
            10000 => Some(Rate::G10),
            _ => None,
        }
    }

    /// The rate in bit/s: 10^8, 10^9 or 10^10.
    pub fn bits(self) -> u64
        ensures { result ≡ bits_of self }
    {
        match self {
            Rate::M100 => 100_000_000,
            Rate::G1 => 1_000_000_000,
            Rate::G10 => 10_000_000_000,
        }
    }

    /// The time of one bit in ps: 10,000, 1,000 or 100.
    pub fn bit_ps(self) -> u64
        ensures table { result ≡ bit_ps_of self }
        // The bits of one second take one second.
        ensures second { result * bits_of self ≡ 1000000000000 }
    {
        match self {
            Rate::M100 => 10_000,
            Rate::G1 => 1_000,
            Rate::G10 => 100,
        }
    }
}

/// A whole percentage of a link's rate, 0 to 90. Contracts see the number.
#[derive(Clone, Copy, PartialEq, Eq, PartialOrd, Ord)]
pub struct Percent {
    number: u64,
}

impl Model for Percent {
    ghost use Rattle.std.specs.Prelude.{ℕ, ◌≤◌};

    ghost Value = { ℕ };

    ghost view = { λ p. p.number };

    ghost invariant = { λ p. p.number ≤ 90 };

    ghost inverse = { λ n. record { number = n } };
}

impl Percent {
    /// The percentage of this number; None exactly above 90.
    pub fn new(number: u64) -> Option<Percent>
        ensures valid { IsSome result ↔ (number ≤ 90) }
        ensures value { IfSome result (λ p. p ≡ number) }
    {
        if number <= 90 {
            Some(Percent { number })
        } else {
            None
        }
    }

    /// The number, 0 to 90.
    pub fn get(self) -> u64
        ensures value { result ≡ self }
        ensures in_range { result ≤ 90 }
    {
        self.number
    }
}

/// A stream reservation class (IEEE Std 802.1Q-2018, clause 34). Where a port can't book every
/// stream, those of class A come before those of class B: this project's own rule.
#[derive(Clone, Copy, PartialEq, Eq, PartialOrd, Ord)]
pub enum Class {
    /// Class A, measured over intervals of 125 us.
    A,
    /// Class B, measured over intervals of 250 us.
    B,
}

/// The rank of a stream, the Rank bit of PriorityAndRank (IEEE Std 802.1Q-2018, 35.2.2.8.5).
#[derive(Clone, Copy, PartialEq, Eq, PartialOrd, Ord)]
pub enum Rank {
    /// Rank 0: emergency traffic.
    Emergency,
    /// Rank 1: all other traffic.
    Normal,
}
