//! What is read of the capture of a link, and what making the ticks of a scenario again rests on. A
//! crate above that needs a law calls it, and its proof has the clauses.

ghost use Rattle.std.specs.Prelude.{◌≡◌, ℕ, List, map, Some, None, Ok};
ghost use Rattle.tree_topology.specs.Topology.{HasLink};
ghost use Rattle.topology_file.specs.{Plan.Plan, Scenario.KeepsRules};
ghost use Rattle.capture_file.specs.Reading.{reading};
ghost use Rattle.mrp_frames.specs.Frames.{frame_in};
ghost use Rattle.world_core.specs.declared.journal.Tick.{Tick};
ghost use Rattle.world_core.specs.{World.WorldState, Ticks.AreLegalTicks};
ghost use Rattle.link_capture.specs.Crossings.{crossings};
ghost use Rattle.link_capture.specs.Captured.{captured, packet_of, seen_of};
ghost use Rattle.link_capture.specs.Laws.{TickLaws};

use capture_file::what_is_written_is_read;
use mrp_frames::what_is_written_is_seen;
use topology_file::Scenario;
use tree_topology::laws::ports;
use world_core::laws::{a_tick_carries_what_it_has_sent, what_is_allowed_may_happen};
use world_core::tick_laws::a_legal_run_goes_on;

/// The capture of a link in a legal run of a scenario is read to its end as exactly what crossed
/// the link: the frame of each crossing, whole, at its moment; and in each frame, in this order,
/// the address of the port that sent, the application, and the PDU with what fills the frame up.
pub fn what_is_captured_is_read()
    ensures read { (plan : Plan) (ticks : List Tick) (end : WorldState) (n : ℕ)
        → KeepsRules plan → HasLink plan.tree n → AreLegalTicks plan ticks end
        → reading (captured plan ticks n) ≡ Ok (map packet_of (crossings plan ticks n), None) }
    ensures seen { (plan : Plan) (ticks : List Tick) (end : WorldState) (n : ℕ)
        → KeepsRules plan → HasLink plan.tree n → AreLegalTicks plan ticks end
        → map frame_in (map packet_of (crossings plan ticks n))
        ≡ map (λ c. Some (seen_of c)) (crossings plan ticks n) }
{
    laws_of_all_ticks();
    what_is_written_is_read();
    what_is_written_is_seen();
}

/// The laws of the ticks of each scenario. It does nothing.
fn laws_of_all_ticks()
    ensures { (plan : Plan) → KeepsRules plan → TickLaws plan }
{
    what_is_allowed_may_happen();
    a_tick_carries_what_it_has_sent();
    a_legal_run_goes_on();
    ports();
}

/// The laws of the ticks of a scenario. It does nothing.
pub(crate) fn laws_of_ticks(scenario: &Scenario)
    ensures { TickLaws scenario.now }
{
    scenario.keeps_rules();
    laws_of_all_ticks();
}
