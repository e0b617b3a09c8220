//! The longest wait of class B, from event to event.

ghost use Rattle.std.specs.Prelude.{◌≡◌, ℕ, ◌+◌, ◌*◌, ◌^◌, ◌<◌, ◌≤◌, pos, ◌+ℤ◌, int_le, nat_le, if◌then◌else◌, ◌-◌, IfOk};
ghost use Rattle.credit_shaper.specs.declared.port.PortInput.{PortInput};
ghost use Rattle.credit_shaper.specs.{Port.IsPortInput, Bounds.KeepCaps, Credit.IsWithin, Credit.IsInRange, Pieces.ArePieces, Pieces.IsPiece};
ghost use Rattle.class_b_bound.specs.Bound.{AreCaps, bound_of, tight_bound_of};
ghost use Rattle.class_b_bound.specs.Waits.{IsLongestWait, IsWorstWait, worst_wait_of};
ghost use Rattle.class_b_bound.specs.Walk.{IsWaits, keeps_b};

use crate::laws::{
    an_input_has_one_worst_wait, class_b_waits_stay_within, the_longest_wait_is_that_of_a_frame,
};
use credit_shaper::{Piece, PortInput, PortTrace, Traffic};
use srp_base::NoMemory;
use std::alloc::Global;

/// The longest wait of class B at a port, in bit times: from the first bit time in which a class B
/// frame heads its queue with credit of at least 0 while no class B frame is on the line, up to the
/// frame's start or the end of the input; 0 where there is none. It takes a few steps a frame,
/// however long the run, and the one error is want of memory.
///
/// The input is as `PortInput::is_valid` tests it. The caps are in bit/s: no slope of class A is
/// above the first and no two slopes together above the second, the first isn't above the second,
/// and that is below the rate.
pub fn worst_wait(
    alloc: Global,
    input: &PortInput,
    cap_a: u64,
    cap_ab: u64,
) -> Result<u64, NoMemory>
    requires input { IsPortInput input.now }
    requires caps { AreCaps input.now.rate cap_a cap_ab }
    requires slopes { KeepCaps cap_a cap_ab input.now.slopes }
    ensures exact { IfOk result (λ n. n ≡ worst_wait_of input.now) }
    ensures worst { IfOk result (λ n. IsWorstWait input.now n) }
    ensures frame { IfOk result (λ n. IsLongestWait input.now n) }
    ensures bound { IfOk result (λ n. n ≤ (bound_of input.now.rate cap_a cap_ab).wait) }
    ensures tight { IfOk result (λ n. n ≤ (tight_bound_of input.now.rate cap_a cap_ab).wait) }
{
    class_b_waits_stay_within();
    an_input_has_one_worst_wait();
    the_longest_wait_is_that_of_a_frame();
    let pieces = PortTrace::pieces(alloc, input)?;
    Ok(longest(input, pieces.as_slice()))
}

/// The longest wait in a run's pieces.
fn longest(input: &PortInput, pieces: &[Piece]) -> u64
    requires short { input.now.end ≤ 2 ^ 41 }
    requires pieces { ArePieces input.now 0 input.now.end pieces.now }
    ensures { IsWorstWait input.now result }
{
    let mut waits = Waits {
        bit: 0,
        now: 0,
        worst: 0,
    };
    for piece in pieces {
        waits = waits.after(piece);
    }
    waits.worst
}

/// Class B's waits up to a bit time.
#[derive(Clone, Copy)]
pub(crate) struct Waits {
    /// The bit time.
    bit: u64,
    /// How many bit times in a row, up to before this one, class B was kept waiting.
    now: u64,
    /// The most that it was up to now.
    worst: u64,
}

impl Waits {
    /// The waits after a piece more.
    fn after(self, piece: &Piece) -> Waits
        requires bit { piece.now.bit ≡ self.bit }
        requires now { self.now ≤ self.bit }
        requires short { self.bit + piece.now.bits ≤ 2 ^ 41 }
        requires range { IsInRange piece.now.shaper }
        ensures bit { result.bit ≡ self.bit + piece.now.bits }
        ensures waits { (input : PortInput) → IsPiece input piece.now → IsWaits input self
            → IsWaits input result }
    {
        let without = bits_without(piece);
        let now = self.now_after(piece.bits, without);
        Waits {
            bit: self.bit + piece.bits,
            now,
            worst: self.worst.max(now),
        }
    }

    /// How many bit times in a row class B was kept waiting up to the end of a piece of so many,
    /// before the last of which it wasn't in some.
    fn now_after(self, bits: u64, without: u64) -> u64
        requires short { self.now + bits ≤ 2 ^ 42 }
        ensures { result ≡ (if nat_le without 0 then self.now + bits else bits - without) }
    {
        if without == 0 {
            self.now + bits
        } else {
            bits.saturating_sub(without)
        }
    }
}

/// How many bit times of a piece go by before class B is kept waiting; all where it isn't.
fn bits_without(piece: &Piece) -> u64
    requires range { IsInRange piece.now.shaper }
    ensures within { result ≤ piece.now.bits }
    ensures kept { (n : ℕ) → n < piece.now.bits → keeps_b piece.now n ≡ nat_le result n }
{
    if !piece.waits_b || piece.line.does_send(Traffic::B) {
        return piece.bits;
    }
    bits_short(piece.shaper.credit_b, piece.shaper.slope_b, piece.bits)
}

/// Before how many of some bit times a rising credit is negative.
fn bits_short(credit: i128, slope: u64, bits: u64) -> u64
    requires range { IsWithin (2 ^ 100) credit }
    ensures within { result ≤ bits }
    ensures short { (n : ℕ) → n < bits
        → int_le (pos 0) (credit +ℤ pos (n * slope)) ≡ nat_le result n }
{
    if credit >= 0 {
        return 0;
    }
    if slope == 0 {
        return bits;
    }
    let needed = credit.unsigned_abs().div_ceil(u128::from(slope));
    needed.min(u128::from(bits)) as u64
}
