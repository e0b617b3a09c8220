//! What the answers of a port's steps count.

ghost use Rattle.std.specs.Prelude.{◌≡◌};
ghost use Rattle.srp_report.specs.Tallies.{with_reply};

use node_core::StepReply;
use report_words::Tally;

/// The tally with one answer more.
pub(crate) fn counted(tally: Tally, reply: StepReply) -> Tally
    ensures { result ≡ with_reply tally reply }
{
    match reply {
        StepReply::Sent(octets) => tally.with_sent(octets),
        StepReply::Discarded(_) => tally.with_discarded(),
        StepReply::Nothing
        | StepReply::Received(_)
        | StepReply::Fired(_)
        | StepReply::Settled(_)
        | StepReply::Silent
        | StepReply::Taken => tally,
    }
}
