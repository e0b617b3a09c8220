//! What is printed behind the wishes of a run: what is doubted, its moments, and how the network is
//! at the end.

ghost use Rattle.std.specs.Prelude.{◌≡◌, IfOk};
ghost use Rattle.wishes.specs.Outlook.{outlook_text as outlook_text_spec};

use crate::doubts::put_doubts;
use crate::moments::{Moments, put_moments};
use report_words::put_end;
use srp_base::NoMemory;
use std::alloc::Global;
use topology_file::Scenario;
use world_core::Run;

/// What is doubted of a run of a scenario, in octets, a line for each fact that is allowed and
/// hardly meant: of each stream, in the order of the file, that it has no frames, that its frames
/// have more than 1,500 octets, that its priority is of no SR class (IEEE Std 802.1Q-2018, 34.5),
/// that no station talks it at the end, that none listens to it, and each station that listens to it
/// and doesn't declare its VID; of each frame of a stream, that it has more octets than the stream,
/// and that more copies of it come in a class measurement interval than the stream has frames; and
/// that the network isn't quiet and in step at the end. Then the moments that are given: the first
/// tick from whose end on nothing changes that is heard or booked, and each longest stretch of ticks
/// at whose ends the network is quiet and in step. Then whether it is quiet, and in step.
pub fn outlook_text(
    alloc: Global,
    scenario: &Scenario,
    run: &Run,
    moments: &Moments,
) -> Result<Vec<u8>, NoMemory>
    ensures { IfOk result (λ text. text.items
        ≡ outlook_text_spec scenario.now run.now.world moments.now) }
{
    let mut out = Vec::new(alloc);
    put_doubts(&mut out, scenario, &run.world)?;
    put_moments(&mut out, moments)?;
    put_end(&mut out, run.world.quiet(), run.world.in_step())?;
    Ok(out)
}
