//! What a port sent and discarded.

ghost use Rattle.std.specs.Prelude.{◌≡◌};
ghost use Rattle.group_run.specs.Counts.{is_same_port as is_same_port_spec, replies_of, tally_of as tally_of_spec, with_reply};

use mmrp::GroupReply;
use report_words::Tally;
use srp_base::EgressPort;

/// What a port sent and discarded, by its answers among those of all ports.
pub(crate) fn tally_of(replies: &[(EgressPort, GroupReply)], at: EgressPort) -> Tally
    ensures { result ≡ tally_of_spec (replies_of at replies.now) }
{
    let mut tally = Tally::zero();
    for made in replies {
        if is_same_port(made.0, at) {
            tally = counted(tally, made.1);
        }
    }
    tally
}

// The tally with one answer more.
fn counted(tally: Tally, reply: GroupReply) -> Tally
    ensures { result ≡ with_reply tally reply }
{
    match reply {
        GroupReply::Sent(octets) => tally.with_sent(octets),
        GroupReply::Discarded(_) => tally.with_discarded(),
        GroupReply::Nothing
        | GroupReply::Received(_)
        | GroupReply::Fired(_)
        | GroupReply::Settled(_)
        | GroupReply::Silent
        | GroupReply::Done
        | GroupReply::Missed => tally,
    }
}

// Whether two ports are one.
fn is_same_port(p: EgressPort, q: EgressPort) -> bool
    ensures { result ≡ is_same_port_spec p q }
{
    p.node.0 == q.node.0 && p.port.0 == q.port.0
}
