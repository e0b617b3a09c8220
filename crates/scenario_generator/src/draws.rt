//! The draws of a number.

ghost use Rattle.std.specs.Prelude.{◌≡◌, ◌≤◌, ◌<◌, IfOk};
ghost use Rattle.scenario_generator.specs.Draws.{draw, most_draws, next_state};
ghost use Rattle.scenario_generator.specs.Network.{bridge_count, station_count, stream_count, link_count};

use srp_base::NoMemory;
use std::alloc::Global;
use std::marker::Model;

/// The draws of a number, in order: as many as a scenario takes at most. Contracts see the number.
#[derive(Drop)]
pub(crate) struct Draws {
    number: u32,
    /// The high halves of the states.
    halves: Vec<u32>,
}

impl Model for Draws {
    ghost use Rattle.std.specs.Prelude.{ℕ, ◌≡◌, map};
    ghost use Rattle.std.specs.List.{range_with_len};
    ghost use Rattle.scenario_generator.specs.Draws.{drawn, most_draws};

    ghost Value = { ℕ };

    ghost view = { λ d. d.number };

    ghost invariant = { λ d. d.halves.items ≡ map (drawn d.number) (range_with_len 0 most_draws) };
}

/// How many draws a scenario takes at most.
const MOST_DRAWS: usize = 207;

/// The state after this one.
fn next_state(state: u32) -> u32
    ensures { result ≡ next_state state }
{
    state.wrapping_mul(1_664_525).wrapping_add(1_013_904_223)
}

impl Draws {
    /// The draws of a number.
    pub(crate) fn new(alloc: Global, number: u32) -> Result<Draws, NoMemory>
        ensures { IfOk result (λ d. d ≡ number) }
    {
        let mut halves = Vec::with_capacity(alloc, MOST_DRAWS)?;
        let mut state = number;
        for _ in 0..MOST_DRAWS {
            state = next_state(state);
            halves.push(state / 65_536)?;
        }
        Ok(Draws { number, halves })
    }

    /// The draw of `m` at a place: 0 to `m` - 1.
    pub(crate) fn draw(&self, place: usize, m: u32) -> u32
        requires place { place < most_draws }
        requires some { 0 < m }
        ensures value { result ≡ draw self.now place m }
        ensures below { result < m }
    {
        self.halves[place] % m
    }

    /// How many bridges the network has: 2 to 8.
    pub(crate) fn bridges(&self) -> u16
        ensures value { result ≡ bridge_count self.now }
        ensures some { 2 ≤ result }
        ensures few { result ≤ 8 }
    {
        2 + self.draw(0, 7) as u16
    }

    /// How many stations it has: 4 to 9.
    pub(crate) fn stations(&self) -> u16
        ensures value { result ≡ station_count self.now }
        ensures some { 4 ≤ result }
        ensures few { result ≤ 9 }
    {
        4 + self.draw(1, 6) as u16
    }

    /// How many streams it has: 2 to 16.
    pub(crate) fn streams(&self) -> u16
        ensures value { result ≡ stream_count self.now }
        ensures some { 2 ≤ result }
        ensures few { result ≤ 16 }
    {
        2 + self.draw(2, 15) as u16
    }

    /// How many links it has: 5 to 16.
    pub(crate) fn links(&self) -> u16
        ensures value { result ≡ link_count self.now }
        ensures some { 5 ≤ result }
        ensures few { result ≤ 16 }
    {
        self.bridges() - 1 + self.stations()
    }
}
