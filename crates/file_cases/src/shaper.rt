//! Worked runs, and the run compared with the definition taken bit time by bit time.
//!
//! The calls stand in functions of their own, so that a test's own proof is short.

ghost use Rattle.std.specs.Prelude.{◌<◌};

use credit_shaper::{
    Arrival, Departure, Departures, Line, PortInput, PortTrace, Shaper, SlopeChange, Traffic,
};
use srp_base::{NoMemory, Rate, Seq};
use std::alloc::Global;

/// The slope of class A from the beginning on; class B has none.
fn slopes(alloc: Global, slope_a: u64) -> Result<Seq<SlopeChange>, NoMemory> {
    let mut changes = Seq::new(alloc);
    changes.push(SlopeChange {
        bit: 0,
        slope_a,
        slope_b: 0,
    })?;
    Ok(changes)
}

fn frame(bit: u64, traffic: Traffic, bits: u32, frame: u32) -> Arrival {
    Arrival {
        bit,
        traffic,
        bits,
        frame,
    }
}

/// So many frames of class A with 800 bits, numbered from 1 on.
fn frames(alloc: Global, count: u32, bit: u64) -> Result<Vec<Arrival>, NoMemory> {
    let mut frames = Vec::new(alloc);
    for number in 1..=count {
        frames.push(frame(bit, Traffic::A, 800, number))?;
    }
    Ok(frames)
}

/// What becomes of a port's frames; None where it can't be asked, or memory runs out.
fn run(alloc: Global, input: &PortInput) -> Option<Departures> {
    if input.is_valid() {
        PortTrace::run(alloc, input).ok()
    } else {
        None
    }
}

/// Class A with this slope and credit at 100 Mbit/s, class B with none.
fn at_100(slope_a: u64, credit_a: i128) -> Shaper {
    Shaper {
        rate: Rate::M100,
        slope_a,
        slope_b: 0,
        credit_a,
        credit_b: 0,
    }
}

/// Whether class A steps from one credit to another while class B waits with no slope.
fn steps(line: Line, waits: bool, before: i128, after: i128) -> bool {
    let shaper = at_100(60_000_000, before);
    shaper.is_in_range() && shaper.bit_step(line, waits, true).credit_a == after
}

const SENDS_A: Line = Line::Sends(Traffic::A);

const STEPS: [(Line, bool, i128, i128); 7] = [
    (SENDS_A, false, 0, -40_000_000),
    (SENDS_A, true, 100_000_000, 60_000_000),
    (Line::Sends(Traffic::Other), true, 100_000_000, 160_000_000),
    (Line::Free, true, -100_000_000, -40_000_000),
    (Line::Free, false, -100_000_000, -40_000_000),
    (Line::Sends(Traffic::B), false, -20_000_000, 0),
    (Line::Free, false, 100_000_000, 0),
];

#[test]
fn a_credit_steps_by_its_slope(rt: HostRuntime) {
    for (line, waits, before, after) in STEPS {
        assert!(rt; steps(line, waits, before, after));
    }
}

/// Whether class A jumps from one credit to another in so many bit times while class B doesn't
/// wait.
fn jumps(line: Line, waits: bool, bits: u32, before: i128, after: i128) -> bool {
    let shaper = at_100(50_000_000, before);
    if !shaper.is_in_range() {
        return false;
    }
    shaper.jump(line, waits, false, u64::from(bits)).credit_a == after
}

#[test]
fn a_credit_jumps(rt: HostRuntime) {
    assert!(rt; jumps(Line::Free, true, 30, -1_000_000_000, 500_000_000));
    assert!(rt; jumps(Line::Free, false, 30, -1_000_000_000, 0));
    assert!(rt; jumps(SENDS_A, false, 800, 0, -40_000_000_000));
}

/// What a port at 100 Mbit/s gets, where class A has half of the rate, in 20,000 bit times.
fn half(alloc: Global, arrivals: Vec<Arrival>) -> Result<PortInput, NoMemory> {
    let slopes = slopes(alloc, 50_000_000)?;
    Ok(PortInput {
        rate: Rate::M100,
        slopes,
        arrivals: Seq::from_vec(arrivals),
        end: 20_000,
    })
}

/// Whether departures are those of these frames of 800 bits, each with its start.
fn are_short(sent: &[Departure], wanted: &[(u32, u64)]) -> bool {
    for (x, (frame, start)) in sent.iter().zip(wanted.iter()) {
        if x.frame != *frame || x.start != *start || x.end != start.wrapping_add(800) {
            return false;
        }
    }
    sent.len() == wanted.len()
}

/// Whether all is sent, and as these frames.
fn sends(departures: &Departures, wanted: &[(u32, u64)]) -> bool {
    departures.left.is_empty() && are_short(departures.sent.as_slice(), wanted)
}

/// Whether what a port gets is all sent, as these frames.
fn port_sends(alloc: Global, input: &PortInput, wanted: &[(u32, u64)]) -> bool {
    match run(alloc, input) {
        Some(departures) => sends(&departures, wanted),
        None => false,
    }
}

fn three_at_half(alloc: Global) -> Result<PortInput, NoMemory> {
    let arrivals = frames(alloc, 3, 0)?;
    half(alloc, arrivals)
}

fn three_wait(alloc: Global) -> bool {
    match three_at_half(alloc) {
        Ok(input) => port_sends(alloc, &input, &[(1, 0), (2, 1_600), (3, 3_200)]),
        Err(_) => false,
    }
}

#[test]
fn class_a_waits_for_credit(rt: HostRuntime) {
    assert!(rt; three_wait(rt.alloc()));
}

/// One long frame of no class, then three of class A.
fn behind_another(alloc: Global) -> Result<Vec<Arrival>, NoMemory> {
    let mut arrivals = Vec::new(alloc);
    arrivals.push(frame(0, Traffic::Other, 12_336, 0))?;
    for number in 1..=3 {
        arrivals.push(frame(1, Traffic::A, 800, number))?;
    }
    Ok(arrivals)
}

fn begin_at(sent: &[Departure], wanted: &[u64]) -> bool {
    for (x, start) in sent.iter().zip(wanted.iter()) {
        if x.start != *start {
            return false;
        }
    }
    sent.len() == wanted.len()
}

/// Whether all that a port gets is sent, with these starts.
fn port_starts(alloc: Global, input: &PortInput, wanted: &[u64]) -> bool {
    match run(alloc, input) {
        Some(departures) => {
            departures.left.is_empty() && begin_at(departures.sent.as_slice(), wanted)
        }
        None => false,
    }
}

fn others_at_half(alloc: Global) -> Result<PortInput, NoMemory> {
    let arrivals = behind_another(alloc)?;
    half(alloc, arrivals)
}

fn others_follow(alloc: Global) -> bool {
    match others_at_half(alloc) {
        Ok(input) => port_starts(alloc, &input, &[0, 12_336, 13_136, 13_936]),
        Err(_) => false,
    }
}

#[test]
fn class_a_saves_credit_behind_another_frame(rt: HostRuntime) {
    assert!(rt; others_follow(rt.alloc()));
}

/// A port at 10 Gbit/s gets 200 frames in 2^41 bit times, where class A has 1,000 bit/s.
fn long_input(alloc: Global) -> Result<PortInput, NoMemory> {
    let slopes = slopes(alloc, 1_000)?;
    let arrivals = frames(alloc, 200, 0)?;
    Ok(PortInput {
        rate: Rate::G10,
        slopes,
        arrivals: Seq::from_vec(arrivals),
        end: 2_199_023_255_552,
    })
}

/// The starts that are wanted there, with the frames' numbers.
fn long_starts(alloc: Global) -> Result<Vec<(u32, u64)>, NoMemory> {
    let mut starts = Vec::new(alloc);
    let mut start: u64 = 0;
    for number in 1..=200u32 {
        starts.push((number, start))?;
        start = start.wrapping_add(8_000_000_000);
    }
    Ok(starts)
}

fn long_port_sends(alloc: Global, wanted: &[(u32, u64)]) -> bool {
    match long_input(alloc) {
        Ok(input) => port_sends(alloc, &input, wanted),
        Err(_) => false,
    }
}

fn long_run_ends(alloc: Global) -> bool {
    match long_starts(alloc) {
        Ok(wanted) => long_port_sends(alloc, &wanted),
        Err(_) => false,
    }
}

#[test]
fn a_long_run_takes_few_steps(rt: HostRuntime) {
    assert!(rt; long_run_ends(rt.alloc()));
}

/// The frames that wait and the departures of a port, bit time after bit time.
#[derive(Drop)]
struct Plain {
    waiting: Vec<Arrival>,
    sent: Vec<Departure>,
    shaper: Shaper,
    line: Line,
    free_from: u64,
}

impl Plain {
    fn waits(&self, traffic: Traffic) -> bool {
        self.waiting.iter().any(|x| x.traffic == traffic)
    }

    fn turn(&self) -> Traffic {
        if self.waits(Traffic::A) && self.shaper.credit_a >= 0 {
            Traffic::A
        } else if self.waits(Traffic::B) && self.shaper.credit_b >= 0 {
            Traffic::B
        } else {
            Traffic::Other
        }
    }

    fn start(&mut self, bit: u64) -> Result<(), NoMemory> {
        self.line = Line::Free;
        let turn = self.turn();
        let Some(place) = self.waiting.iter().position(|x| x.traffic == turn) else {
            return Ok(());
        };
        let x = self.waiting.remove(place);
        self.line = Line::Sends(x.traffic);
        self.free_from = bit.wrapping_add(u64::from(x.bits));
        self.sent.push(Departure {
            frame: x.frame,
            traffic: x.traffic,
            start: bit,
            end: self.free_from,
        })?;
        Ok(())
    }

    fn arrive(&mut self, arrivals: &[Arrival], bit: u64) -> Result<(), NoMemory> {
        for x in arrivals {
            if x.bit == bit {
                self.waiting.push(*x)?;
            }
        }
        Ok(())
    }

    fn change(&mut self, slopes: &[SlopeChange], bit: u64) {
        for change in slopes {
            if change.bit == bit {
                self.shaper.slope_a = change.slope_a;
                self.shaper.slope_b = change.slope_b;
            }
        }
    }

    /// The credits after the bit time; whether they are in range before.
    fn step(&mut self) -> bool {
        if !self.shaper.is_in_range() {
            return false;
        }
        let (waits_a, waits_b) = (self.waits(Traffic::A), self.waits(Traffic::B));
        self.shaper = self.shaper.bit_step(self.line, waits_a, waits_b);
        true
    }

    fn bit(&mut self, input: &PortInput, bit: u64) -> Result<bool, NoMemory> {
        self.arrive(input.arrivals.as_slice(), bit)?;
        self.change(input.slopes.as_slice(), bit);
        if self.free_from <= bit {
            self.start(bit)?;
        }
        Ok(self.step())
    }
}

fn fresh(alloc: Global, rate: Rate) -> Plain {
    Plain {
        waiting: Vec::new(alloc),
        sent: Vec::new(alloc),
        shaper: Shaper {
            rate,
            slope_a: 0,
            slope_b: 0,
            credit_a: 0,
            credit_b: 0,
        },
        line: Line::Free,
        free_from: 0,
    }
}

impl Plain {
    /// The frames that are still there.
    fn left(&self, alloc: Global) -> Result<Vec<u32>, NoMemory> {
        let mut left = Vec::new(alloc);
        for x in &self.waiting {
            left.push(x.frame)?;
        }
        Ok(left)
    }

    /// Whether these are its departures, and what is left.
    fn has(&self, alloc: Global, departures: &Departures) -> bool {
        match self.left(alloc) {
            Ok(left) => {
                departures.sent.as_slice() == self.sent.as_slice()
                    && departures.left.as_slice() == left.as_slice()
            }
            Err(_) => false,
        }
    }

    /// A port's run to its end, bit time after bit time; whether each credit stays in its range.
    fn play(&mut self, input: &PortInput) -> Result<bool, NoMemory> {
        for bit in 0..input.end {
            if !self.bit(input, bit)? {
                return Ok(false);
            }
        }
        Ok(true)
    }

    /// Whether a port's run ends with these departures.
    fn ends_with(&mut self, alloc: Global, input: &PortInput, departures: &Departures) -> bool {
        match self.play(input) {
            Ok(true) => self.has(alloc, departures),
            _ => false,
        }
    }
}

/// Numbers that look drawn, below a limit.
#[derive(Drop)]
struct Draws {
    state: u64,
}

impl Draws {
    fn below(&mut self, limit: u32) -> u32
        ensures { 0 < limit → result < limit }
    {
        self.state = self
            .state
            .wrapping_mul(6_364_136_223_846_793_005)
            .wrapping_add(1_442_695_040_888_963_407);
        if limit == 0 {
            0
        } else {
            ((self.state >> 33) % u64::from(limit)) as u32
        }
    }

    fn traffic(&mut self) -> Traffic {
        match self.below(4) {
            0 | 1 => Traffic::A,
            2 => Traffic::B,
            _ => Traffic::Other,
        }
    }

    fn arrivals(&mut self, alloc: Global, count: u32, end: u32) -> Result<Vec<Arrival>, NoMemory> {
        let mut arrivals = Vec::new(alloc);
        for number in 0..count {
            let bit = u64::from(self.below(end));
            let bits = 336 + self.below(1_000);
            arrivals.push(frame(bit, self.traffic(), bits, number))?;
        }
        arrivals.sort_unstable_by_key(|x| (x.bit, x.frame));
        Ok(arrivals)
    }

    fn slopes(&mut self, alloc: Global, end: u32) -> Result<Vec<SlopeChange>, NoMemory> {
        let mut changes = Vec::new(alloc);
        for bit in [0, end / 3, end / 2] {
            changes.push(SlopeChange {
                bit: u64::from(bit),
                slope_a: u64::from(self.below(8)) * 12_000_000,
                slope_b: u64::from(self.below(3)) * 10_000_000,
            })?;
        }
        Ok(changes)
    }

    /// At most 13 frames at a port, in 6,000 bit times.
    fn input(&mut self, alloc: Global) -> Result<PortInput, NoMemory> {
        let count = self.below(14);
        let arrivals = self.arrivals(alloc, count, 6_000)?;
        let slopes = self.slopes(alloc, 6_000)?;
        Ok(PortInput {
            rate: Rate::M100,
            slopes: Seq::from_vec(slopes),
            arrivals: Seq::from_vec(arrivals),
            end: 6_000,
        })
    }
}

/// Whether these departures are those of the definition, bit time after bit time.
fn are_plain(alloc: Global, input: &PortInput, departures: &Departures) -> bool {
    let mut port = fresh(alloc, input.rate);
    port.ends_with(alloc, input, departures)
}

fn is_exact(alloc: Global, input: &PortInput) -> bool {
    match run(alloc, input) {
        Some(departures) => are_plain(alloc, input, &departures),
        None => false,
    }
}

/// Whether it is so of an input that is drawn next.
fn next_is_exact(alloc: Global, draws: &mut Draws) -> bool {
    match draws.input(alloc) {
        Ok(input) => is_exact(alloc, &input),
        Err(_) => false,
    }
}

#[test]
fn moments_answer_as_bit_times(rt: HostRuntime) {
    let mut draws = Draws { state: 1 };
    for _ in 0..60 {
        assert!(rt; next_is_exact(rt.alloc(), &mut draws));
    }
}
