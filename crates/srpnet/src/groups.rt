//! The command `groups`: a network that runs MMRP through the ticks of a group scenario, and which
//! groups are registered where.

ghost use Rattle.std.specs.Prelude.{◌≡◌, IfOk, IfErr};
ghost use Rattle.srpnet.specs.GroupsText.{GroupsOutput, IsGroupsRun, group_input as group_input_spec};
ghost use Rattle.srpnet.specs.Input.{GivesInput, ending};
ghost use Rattle.srpnet.specs.Outcomes.{EndsAs};

use crate::document::table_of;
use crate::outcome::Cause;
use group_file::{GroupScenario, group_scenario};
use group_run::{group_text, run_groups};
use mmrp::laws::groups_are_those_joined_behind;
use srp_base::Seq;
use std::alloc::Global;

/// What is printed of a run of the group scenario of these octets, or why there is none.
pub fn output(alloc: Global, octets: &[u8]) -> Result<Seq<u8>, Cause>
    ensures output { IfOk result (GroupsOutput octets.now) }
    ensures ends { EndsAs (ending (group_input_spec octets.now)) result }
    ensures not_done { IfErr result (λ c. c ≡ Cause.Done → ⊥) }
{
    let scenario = group_input(alloc, octets)?;
    printed(alloc, &scenario)
}

// The group scenario of the octets, or the cause of its refusal.
fn group_input(alloc: Global, octets: &[u8]) -> Result<GroupScenario, Cause>
    ensures scenario { GivesInput (λ s. s) result (group_input_spec octets.now) }
    ensures not_done { IfErr result (λ c. c ≡ Cause.Done → ⊥) }
{
    let table = table_of(alloc, octets)?;
    Ok(group_scenario(alloc, &table)?)
}

// What is printed of a run of a group scenario.
fn printed(alloc: Global, scenario: &GroupScenario) -> Result<Seq<u8>, Cause>
    ensures output { IfOk result (IsGroupsRun scenario.now) }
    ensures memory { IfErr result (λ c. c ≡ Cause.NoMemory) }
{
    groups_are_those_joined_behind();
    let run = run_groups(alloc, scenario)?;
    run.net.keeps();
    let text = group_text(alloc, scenario, &run)?;
    Ok(Seq::from_vec(text))
}
