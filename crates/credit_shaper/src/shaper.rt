//! The credits of the two SR classes at one port, and how they go on from bit time to bit time.

ghost use Rattle.std.specs.Prelude.{◌≡◌, ◌+◌, ◌*◌, ◌^◌, ◌≤◌, ◌<◌, ◌↔◌, pos, IsTrue};
ghost use Rattle.credit_shaper.specs.Credit.{does_send, credit_after, credit_after_bits, IsWithin};

use srp_base::Rate;

/// What a frame is to the shaper: of SR class A, of SR class B, or of no class that it shapes.
#[derive(Clone, Copy, PartialEq, Eq)]
pub enum Traffic {
    /// SR class A.
    A,
    /// SR class B.
    B,
    /// All that isn't shaped; it is sent where neither class may send.
    Other,
}

/// What the line does in a bit time.
#[derive(Clone, Copy, PartialEq, Eq)]
pub enum Line {
    /// No frame is on it.
    Free,
    /// A frame of this traffic is on it.
    Sends(Traffic),
}

impl Line {
    /// Whether a frame of this traffic is on the line.
    pub fn does_send(self, traffic: Traffic) -> bool
        ensures { result ≡ does_send traffic self }
    {
        self == Line::Sends(traffic)
    }
}

/// The credits of both classes, in units of 1/rate bit, with the idleSlopes by which they rise, in
/// bit/s (IEEE Std 802.1Q-2018, 8.6.8.2).
#[derive(Clone, Copy, PartialEq, Eq)]
pub struct Shaper {
    /// The port's rate, portTransmitRate.
    pub rate: Rate,
    /// idleSlope of class A.
    pub slope_a: u64,
    /// idleSlope of class B.
    pub slope_b: u64,
    /// The credit of class A.
    pub credit_a: i128,
    /// The credit of class B.
    pub credit_b: i128,
}

impl Shaper {
    ghost use Rattle.credit_shaper.specs.Credit.{after_bit, after_bits, IsInRange};

    /// Whether a step may be asked for: whether the slopes are below the rate, and the credits
    /// within 2^100 of 0.
    pub fn is_in_range(&self) -> bool
        ensures { IsTrue result ↔ IsInRange self.now }
    {
        self.slope_a < self.rate.bits()
            && self.slope_b < self.rate.bits()
            && is_within(self.credit_a)
            && is_within(self.credit_b)
    }

    /// The credits after one bit time, by what the line does in it and which classes wait (IEEE Std
    /// 802.1Q-2018, 8.6.8.2): sendSlope is added while a frame of the class is on the line, else
    /// idleSlope while one waits; else what is negative rises by idleSlope up to 0, and what is
    /// positive is set to 0. The slopes are below the rate, and the credits within 2^100 of 0.
    pub fn bit_step(self, line: Line, waits_a: bool, waits_b: bool) -> Shaper
        requires { IsInRange self }
        ensures { result ≡ after_bit line waits_a waits_b self }
    {
        let rate = self.rate.bits();
        Shaper {
            credit_a: credit_after(
                rate,
                self.slope_a,
                line.does_send(Traffic::A),
                waits_a,
                self.credit_a,
            ),
            credit_b: credit_after(
                rate,
                self.slope_b,
                line.does_send(Traffic::B),
                waits_b,
                self.credit_b,
            ),
            ..self
        }
    }

    /// The credits after this many bit times, at most 2^41, in all of which the line does the same
    /// and the same classes wait: what that many calls of `bit_step` make of them (IEEE Std
    /// 802.1Q-2018, 8.6.8.2). The slopes are below the rate, and the credits within 2^100 of 0.
    #[tactic(auto, using(crate::proofs::CreditLemmas::after_bits_is))]
    pub fn jump(self, line: Line, waits_a: bool, waits_b: bool, bits: u64) -> Shaper
        requires range { IsInRange self }
        requires bits { bits ≤ 2 ^ 41 }
        ensures { result ≡ after_bits bits line waits_a waits_b self }
    {
        let rate = self.rate.bits();
        let (sends_a, sends_b) = (line.does_send(Traffic::A), line.does_send(Traffic::B));
        Shaper {
            credit_a: credit_after_bits(rate, self.slope_a, sends_a, waits_a, self.credit_a, bits),
            credit_b: credit_after_bits(rate, self.slope_b, sends_b, waits_b, self.credit_b, bits),
            ..self
        }
    }
}

/// Whether a credit is within 2^100 of 0.
fn is_within(credit: i128) -> bool
    ensures { IsTrue result ↔ IsWithin (2 ^ 100) credit }
{
    -(1 << 100) <= credit && credit <= 1 << 100
}

/// A class's credit after one bit time.
fn credit_after(rate: u64, slope: u64, sends: bool, waits: bool, credit: i128) -> i128
    requires { IsWithin (2 ^ 100) credit }
    ensures { result ≡ credit_after rate slope sends waits credit }
{
    let raised = credit + i128::from(slope);
    if sends {
        raised - i128::from(rate)
    } else if waits {
        raised
    } else {
        raised.min(0)
    }
}

/// A class's credit after some bit times.
#[tactic(auto, using(crate::proofs::CreditLemmas::credits_on))]
fn credit_after_bits(
    rate: u64,
    slope: u64,
    sends: bool,
    waits: bool,
    credit: i128,
    bits: u64,
) -> i128
    requires slope { slope < rate }
    requires rate { rate ≤ 2 ^ 34 }
    requires credit { IsWithin (2 ^ 100) credit }
    requires bits { bits ≤ 2 ^ 41 }
    ensures { result ≡ credit_after_bits bits rate slope sends waits credit }
{
    let risen = credit + over(slope, bits);
    if bits == 0 {
        credit
    } else if sends {
        risen - over(rate, bits)
    } else if waits {
        risen
    } else {
        risen.min(0)
    }
}

/// What some bit times make of what one makes.
fn over(per_bit: u64, bits: u64) -> i128
    requires per_bit { per_bit ≤ 2 ^ 34 }
    requires bits { bits ≤ 2 ^ 41 }
    ensures value { result ≡ pos (bits * per_bit) }
    ensures within { bits * per_bit ≤ 2 ^ 75 }
{
    i128::from(bits) * i128::from(per_bit)
}
