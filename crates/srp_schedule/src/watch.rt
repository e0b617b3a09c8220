//! Who watches a run.

ghost use Rattle.std.specs.Prelude.{◌≡◌, ℕ, OnOk};
ghost use Rattle.world_core.specs.World.{WorldState};

use srp_base::NoMemory;
use world_core::World;

/// Who watches a run: it is shown the network at the end of each tick.
pub trait RunWatcher {
    // What it is once it has seen the network at the end of a tick.
    ghost after: { Self → ℕ → WorldState → Self };

    /// Sees the network at the end of a tick, counted from 0.
    fn see(&mut self, tick: u64, world: &World) -> Result<(), NoMemory>
        ensures { OnOk result (self.new ≡ after self.old tick world.now) };
}

/// Nobody watches.
#[derive(Drop)]
pub(crate) struct Nobody;

impl RunWatcher for Nobody {
    ghost after = { λ nobody tick w. nobody };

    fn see(&mut self, _tick: u64, _world: &World) -> Result<(), NoMemory>
        ensures { OnOk result (self.new ≡ self.old) }
    {
        Ok(())
    }
}
