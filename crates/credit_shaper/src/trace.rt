//! A port's run, from one moment to the next at which something happens.

ghost use Rattle.std.specs.Prelude.{◌≡◌, ℕ, ◌+◌, ◌-◌, ◌*◌, ◌^◌, ◌<◌, ◌≤◌, ◌≤ℤ◌, ◌<ℤ◌, ◌+ℤ◌, pos, true, List, [], ◌∷◌, ◌++◌, nat_le, map, length, if◌then◌else◌, IfOk, IfSome};
ghost use Rattle.credit_shaper.specs.Credit.{IsWithin};

use crate::moments::{arrived_by, changed_by, newest, next_arrival, next_change};
use crate::piece::Piece;
use crate::port::{Arrival, Departure, Departures, PortInput, SlopeChange};
use crate::queues::{Heads, first_of};
use crate::shaper::{Line, Shaper, Traffic};
use srp_base::{NoMemory, Rate, Seq};
use std::alloc::Global;

/// A port at a bit time of its run. The frames themselves stay in the input; what is sent is kept
/// beside.
#[derive(Clone, Copy)]
pub struct PortTrace {
    /// The bit time.
    bit: u64,
    /// How many arrivals have come.
    came: usize,
    /// How many slope changes have come.
    changed: usize,
    /// Where the queues begin.
    heads: Heads,
    /// The credits, with the slopes in force.
    shaper: Shaper,
    /// What is on the line.
    line: Line,
    /// The bit time from which on the line is free.
    free_from: u64,
}

impl PortTrace {
    ghost use Rattle.std.specs.Prelude.{Option, Some, None};
    ghost use Rattle.credit_shaper.specs.declared.port.Departure.{Departure};
    ghost use Rattle.credit_shaper.specs.declared.shaper.Line.TheVariants.{Free};
    ghost use Rattle.credit_shaper.specs.Credit.{IsInRange};
    ghost use Rattle.credit_shaper.specs.Port.{IsPortInput};
    ghost use Rattle.credit_shaper.specs.Trace.{port_at, with_arrivals, sends_frame, departure_at, departures_of, fresh_port, within_bit};
    ghost use Rattle.credit_shaper.specs.Bounds.{greatest_slope_a, IsStretch, IsCreditAWithin, IsWindowAWithin};
    ghost use Rattle.credit_shaper.specs.Pieces.{IsPiece, ArePieces};
    ghost use Rattle.credit_shaper.specs.Walk.{AreHeads, HasReached, IsFirst, IsQuiet, IsIdle, pending, port_of, turn_in, frame_of, moved_to, piece_of};

    /// What becomes of a port's frames: which start before the end, and when, in bit times, and
    /// which are left. The input is as `PortInput::is_valid` tests it. The answer takes a few steps
    /// a frame, however long the run, and the one error is want of memory (IEEE Std 802.1Q-2018,
    /// 8.6.8, 8.6.8.2).
    pub fn run(alloc: Global, input: &PortInput) -> Result<Departures, NoMemory>
        requires { IsPortInput input.now }
        ensures exact { IfOk result (λ d. d ≡ departures_of input.now) }
        ensures credit { (t : ℕ)
            → IsCreditAWithin input.now 0 (greatest_slope_a input.now.slopes) t }
        ensures credit_in_stretch { (slope from to t : ℕ) → IsStretch input.now slope slope from to
            → from ≤ t → t ≤ to → IsCreditAWithin input.now slope slope t }
        ensures window { (a b : ℕ) → a ≤ b
            → IsWindowAWithin input.now 0 (greatest_slope_a input.now.slopes) a b }
        ensures window_in_stretch { (slope from to a b : ℕ)
            → IsStretch input.now slope slope from to → from ≤ a → a ≤ b → b ≤ to
            → IsWindowAWithin input.now slope slope a b }
    {
        PortTrace::departures(alloc, input)
    }

    /// The departures of an input, and what is left.
    fn departures(alloc: Global, input: &PortInput) -> Result<Departures, NoMemory>
        requires { IsPortInput input.now }
        ensures { IfOk result (λ d. d ≡ departures_of input.now) }
    {
        let mut sent = Vec::new(alloc);
        let mut trace = PortTrace::new(input.rate);
        while trace.bit < input.end {
            trace = trace.turn(input, &mut sent)?;
        }
        let left = trace.left(alloc, input.arrivals.as_slice())?;
        Ok(Departures {
            sent: Seq::from_vec(sent),
            left,
        })
    }

    /// A run in pieces, in order and without a gap: bit times in a row in which the line, the
    /// classes that wait and the slopes stay. They are a few for each frame, however long the run.
    /// The input is as `PortInput::is_valid` tests it, and the one error is want of memory.
    pub fn pieces(alloc: Global, input: &PortInput) -> Result<Seq<Piece>, NoMemory>
        requires { IsPortInput input.now }
        ensures { IfOk result (λ ps. ArePieces input.now 0 input.now.end ps) }
    {
        let mut sent = Vec::new(alloc);
        let mut pieces = Vec::new(alloc);
        let mut trace = PortTrace::new(input.rate);
        while trace.bit < input.end {
            trace = trace.piece(input, &mut sent, &mut pieces)?;
        }
        Ok(Seq::from_vec(pieces))
    }

    /// What happens in one bit time, and the piece that begins with it, up to the next moment.
    fn piece(
        self,
        input: &PortInput,
        sent: &mut Vec<Departure>,
        pieces: &mut Vec<Piece>,
    ) -> Result<PortTrace, NoMemory>
        requires input { IsPortInput input.now }
        requires bit { self.bit < input.now.end }
        requires reached { HasReached input.now self.bit self }
        requires port { port_of input.now.arrivals sent.old.items self
            ≡ port_at input.now self.bit }
        ensures later { IfOk result (λ t. self.bit < t.bit) }
        ensures within { IfOk result (λ t. t.bit ≤ input.now.end) }
        ensures reached { IfOk result (λ t. HasReached input.now t.bit t) }
        ensures port { IfOk result (λ t.
            port_of input.now.arrivals sent.new.items t ≡ port_at input.now t.bit) }
        ensures pieces { IfOk result (λ t. (p : Piece)
            × (pieces.new.items ≡ pieces.old.items ++ p ∷ [])
            × (p.bit ≡ self.bit) × (self.bit + p.bits ≡ t.bit) × IsPiece input.now p) }
    {
        let within = self.in_bit(input, sent)?;
        let next = within.goes_on(input);
        pieces.push(within.piece_of(next.bit - within.bit))?;
        Ok(next)
    }

    /// The piece of this many bit times in which a trace goes on.
    fn piece_of(&self, bits: u64) -> Piece
        ensures { result ≡ piece_of bits self.now }
    {
        Piece {
            bit: self.bit,
            bits,
            shaper: self.shaper,
            line: self.line,
            waits_a: self.heads.a < self.came,
            waits_b: self.heads.b < self.came,
        }
    }

    /// A port before bit time 0.
    fn new(rate: Rate) -> PortTrace
        ensures bit { result.bit ≡ 0 }
        ensures reached { (input : PortInput) → input.rate ≡ rate → HasReached input 0 result }
        ensures port { (input : PortInput) → input.rate ≡ rate
            → port_of input.arrivals [] result ≡ fresh_port input }
    {
        PortTrace {
            bit: 0,
            came: 0,
            changed: 0,
            heads: Heads {
                a: 0,
                b: 0,
                other: 0,
            },
            shaper: Shaper {
                rate,
                slope_a: 0,
                slope_b: 0,
                credit_a: 0,
                credit_b: 0,
            },
            line: Line::Free,
            free_from: 0,
        }
    }

    /// What happens in one bit time, and then nothing but the credits' steps up to the next moment.
    fn turn(self, input: &PortInput, sent: &mut Vec<Departure>) -> Result<PortTrace, NoMemory>
        requires input { IsPortInput input.now }
        requires bit { self.bit < input.now.end }
        requires reached { HasReached input.now self.bit self }
        requires port { port_of input.now.arrivals sent.old.items self
            ≡ port_at input.now self.bit }
        ensures later { IfOk result (λ t. self.bit < t.bit) }
        ensures within { IfOk result (λ t. t.bit ≤ input.now.end) }
        ensures reached { IfOk result (λ t. HasReached input.now t.bit t) }
        ensures port { IfOk result (λ t.
            port_of input.now.arrivals sent.new.items t ≡ port_at input.now t.bit) }
    {
        Ok(self.in_bit(input, sent)?.goes_on(input))
    }

    /// What happens in one bit time before the credits' step.
    fn in_bit(self, input: &PortInput, sent: &mut Vec<Departure>) -> Result<PortTrace, NoMemory>
        requires input { IsPortInput input.now }
        requires bit { self.bit < input.now.end }
        requires reached { HasReached input.now self.bit self }
        ensures bit { IfOk result (λ t. t.bit ≡ self.bit) }
        ensures reached { IfOk result (λ t. HasReached input.now (self.bit + 1) t) }
        ensures heads { IfOk result (λ t. AreHeads input.now.arrivals t.came t.heads) }
        ensures idle { IfOk result (λ t. t.free_from ≤ self.bit → IsIdle t 0) }
        ensures port { IfOk result (λ t. port_of input.now.arrivals sent.new.items t
            ≡ within_bit input.now self.bit (port_of input.now.arrivals sent.old.items self)) }
    {
        let arrivals = input.arrivals.as_slice();
        let arrived = self.with_arrivals(input);
        match arrived.next_frame(arrivals) {
            Some(x) => {
                sent.push(x.departure_at(arrived.bit))?;
                Ok(arrived.sends(arrivals, x))
            }
            None => Ok(arrived.rests()),
        }
    }

    /// The frames of this bit time join their queues, and the slopes change where a change is due.
    fn with_arrivals(self, input: &PortInput) -> PortTrace
        requires input { IsPortInput input.now }
        requires reached { HasReached input.now self.bit self }
        ensures bit { result.bit ≡ self.bit }
        ensures reached { HasReached input.now (self.bit + 1) result }
        ensures heads { AreHeads input.now.arrivals result.came result.heads }
        ensures port { (sent : List Departure) → port_of input.now.arrivals sent result
            ≡ with_arrivals input.now self.bit (port_of input.now.arrivals sent self) }
    {
        let came = arrived_by(input.arrivals.as_slice(), self.came, self.bit);
        let changed = changed_by(input.slopes.as_slice(), self.changed, self.bit);
        let slopes = newest(input.slopes.as_slice(), changed);
        PortTrace {
            came,
            changed,
            heads: self.heads.settled(input.arrivals.as_slice(), came),
            shaper: with_slopes(self.shaper, &slopes),
            ..self
        }
    }

    /// The frame that starts in this bit time.
    fn next_frame(&self, arrivals: &[Arrival]) -> Option<Arrival>
        requires heads { AreHeads arrivals.now self.now.came self.now.heads }
        requires came { self.now.came ≤ length arrivals.now }
        ensures first { IfSome result (IsFirst arrivals.now self.now) }
        ensures value { result ≡ frame_of arrivals.now self.now }
    {
        if self.bit < self.free_from {
            return None;
        }
        let head = self.heads.of(self.traffic_next());
        if head < self.came {
            Some(arrivals[head])
        } else {
            None
        }
    }

    /// The traffic whose turn it is on a free line.
    fn traffic_next(&self) -> Traffic
        ensures { result ≡ turn_in self.now }
    {
        if self.heads.a < self.came && self.shaper.credit_a >= 0 {
            Traffic::A
        } else if self.heads.b < self.came && self.shaper.credit_b >= 0 {
            Traffic::B
        } else {
            Traffic::Other
        }
    }

    /// The first frame of a queue goes on the line.
    fn sends(self, arrivals: &[Arrival], x: Arrival) -> PortTrace
        requires heads { AreHeads arrivals.now self.came self.heads }
        requires came { self.came ≤ length arrivals.now }
        requires first { IsFirst arrivals.now self x }
        requires bit { self.bit < 2 ^ 41 }
        ensures heads { AreHeads arrivals.now self.came result.heads }
        ensures port { (sent : List Departure)
            → port_of arrivals.now (sent ++ departure_at self.bit x ∷ []) result
            ≡ sends_frame self.bit (port_of arrivals.now sent self) x }
        ensures same { result
            ≡ record self
            { heads = result.heads; line = result.line; free_from = result.free_from } }
    {
        let after = self.heads.of(x.traffic) + 1;
        let head = first_of(arrivals, x.traffic, after, self.came);
        PortTrace {
            heads: self.heads.with(x.traffic, head),
            line: Line::Sends(x.traffic),
            free_from: self.bit + u64::from(x.bits),
            ..self
        }
    }

    /// No frame starts.
    fn rests(self) -> PortTrace
        ensures { result
            ≡ (if nat_le self.free_from self.bit then record self { line = Free } else self) }
    {
        if self.bit < self.free_from {
            self
        } else {
            PortTrace {
                line: Line::Free,
                ..self
            }
        }
    }

    /// The credits' steps up to the next moment.
    fn goes_on(self, input: &PortInput) -> PortTrace
        requires input { IsPortInput input.now }
        requires bit { self.bit < input.now.end }
        requires reached { HasReached input.now (self.bit + 1) self }
        requires credits { IsInRange self.shaper }
        requires idle { self.free_from ≤ self.bit → IsIdle self 0 }
        ensures later { self.bit < result.bit }
        ensures within { result.bit ≤ input.now.end }
        ensures reached { HasReached input.now result.bit self }
        ensures quiet { IsQuiet self result.bit }
        ensures moved { result ≡ moved_to result.bit (result.bit - self.bit) self }
    {
        let next = self.next_moment(input);
        let waits_a = self.heads.a < self.came;
        let waits_b = self.heads.b < self.came;
        PortTrace {
            bit: next,
            shaper: self
                .shaper
                .jump(self.line, waits_a, waits_b, next - self.bit),
            ..self
        }
    }

    /// The next moment at which something arrives, a slope changes, or the line is free and a frame
    /// may start; or the end.
    fn next_moment(&self, input: &PortInput) -> u64
        requires input { IsPortInput input.now }
        requires bit { self.now.bit < input.now.end }
        requires reached { HasReached input.now (self.now.bit + 1) self.now }
        requires credits { IsInRange self.now.shaper }
        requires idle { self.now.free_from ≤ self.now.bit → IsIdle self.now 0 }
        ensures later { self.now.bit < result }
        ensures within { result ≤ input.now.end }
        ensures reached { HasReached input.now result self.now }
        ensures quiet { IsQuiet self.now result }
    {
        let starts = self.next_start(input.end);
        let comes = next_arrival(input.arrivals.as_slice(), self.came, input.end);
        let changes = next_change(input.slopes.as_slice(), self.changed, input.end);
        starts.min(comes).min(changes)
    }

    /// The next bit time in which a frame may start of those that wait, or the end.
    fn next_start(&self, end: u64) -> u64
        requires bit { self.now.bit < end }
        requires credits { IsInRange self.now.shaper }
        requires idle { self.now.free_from ≤ self.now.bit → IsIdle self.now 0 }
        ensures later { self.now.bit < result }
        ensures within { result ≤ end }
        ensures quiet { IsQuiet self.now result }
    {
        if self.bit < self.free_from {
            return self.free_from.min(end);
        }
        let most = end - self.bit;
        let a = bits_to_start(
            self.heads.a < self.came,
            self.shaper.credit_a,
            self.shaper.slope_a,
            most,
        );
        let b = bits_to_start(
            self.heads.b < self.came,
            self.shaper.credit_b,
            self.shaper.slope_b,
            most,
        );
        self.bit + a.min(b)
    }

    /// The numbers of the frames that wait, in order of arrival.
    fn left(self, alloc: Global, arrivals: &[Arrival]) -> Result<Seq<u32>, NoMemory>
        ensures { IfOk result (λ l. l ≡ map (λ x. x.frame) (pending self.heads 0 arrivals.now)) }
    {
        let mut left = Vec::new(alloc);
        for (i, x) in arrivals.iter().enumerate() {
            if self.heads.of(x.traffic) <= i {
                left.push(x.frame)?;
            }
        }
        Ok(Seq::from_vec(left))
    }
}

/// A shaper with these slopes.
fn with_slopes(shaper: Shaper, slopes: &SlopeChange) -> Shaper
    ensures { result
        ≡ record shaper { slope_a = slopes.now.slope_a; slope_b = slopes.now.slope_b } }
{
    Shaper {
        slope_a: slopes.slope_a,
        slope_b: slopes.slope_b,
        ..shaper
    }
}

/// After how many bit times a class's first frame may start: where its credit is 0; at most this
/// many.
fn bits_to_start(waits: bool, credit: i128, slope: u64, most: u64) -> u64
    requires credit { waits ≡ true → credit <ℤ pos 0 }
    requires range { IsWithin (2 ^ 100) credit }
    requires most { 0 < most }
    ensures some { 0 < result }
    ensures within { result ≤ most }
    ensures before { waits ≡ true → (n : ℕ) → n < result → (credit +ℤ pos (n * slope)) <ℤ pos 0 }
    ensures first { waits ≡ true → result < most → pos 0 ≤ℤ (credit +ℤ pos (result * slope)) }
{
    if waits {
        bits_to_zero(credit, slope, most)
    } else {
        most
    }
}

/// The first number of bit times after which a rising credit isn't negative, or this many.
fn bits_to_zero(credit: i128, slope: u64, most: u64) -> u64
    requires credit { credit <ℤ pos 0 }
    requires range { IsWithin (2 ^ 100) credit }
    requires most { 0 < most }
    ensures some { 0 < result }
    ensures within { result ≤ most }
    ensures before { (n : ℕ) → n < result → (credit +ℤ pos (n * slope)) <ℤ pos 0 }
    ensures first { result < most → pos 0 ≤ℤ (credit +ℤ pos (result * slope)) }
{
    if slope == 0 {
        return most;
    }
    let bits = credit.unsigned_abs().div_ceil(u128::from(slope));
    bits.min(u128::from(most)) as u64
}
