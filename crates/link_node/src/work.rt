//! What a step of a node makes of its application, and what it answers. Each function says that the
//! application has as many ports as before.

ghost use Rattle.std.specs.Prelude.{◌≡◌, ◌<◌, ◌≤◌, ◌^◌, ◌++◌, ◌∷◌, [], length, vec_len, vec_capacity, IfOk, OnOk, OnErr};
ghost use Rattle.attribute_propagation.specs.Ports.{IsLinkPort, place_of, count_of};
ghost use Rattle.link_node.specs.Saying.{IsSaying};
ghost use Rattle.link_node.specs.Step.{fired_one, reply_of};

use crate::steps::StepReply;
use link_app::{LinkApp, Wire};
use mrpdu_codec::DecodeErr;
use srp_base::{Cs, NoMemory, PortNo, Seq};

// A PDU that came in at a port acts, or it is malformed and nothing does.
pub(crate) fn take<A: LinkApp>(
    app: &mut A,
    now: Cs,
    port: PortNo,
    pdu: &Wire<A::Name>,
) -> Result<StepReply, NoMemory>
    requires now { now.0 < 2 ^ 62 }
    requires port { IsLinkPort port (A.words.ports_of (A.state app.old)) }
    ensures reply { IfOk result (λ reply. reply
        ≡ reply_of (A.words.reading pdu.now.app pdu.now.octets)) }
    ensures ok { OnOk result (A.state app.new
        ≡ A.words.after_receipt pdu.now.app now (place_of port) pdu.now.octets (A.state app.old)) }
    ensures err { OnErr result (A.state app.new ≡ A.state app.old) }
    ensures ports { A.words.ports_of (A.state app.new) ≡ A.words.ports_of (A.state app.old) }
{
    A::laws();
    match app.receive(pdu.app(), now, port, pdu.octets()) {
        Ok(events) => Ok(StepReply::Received(events)),
        Err(DecodeErr::Malformed(place)) => Ok(StepReply::Discarded(place)),
        Err(DecodeErr::NoMemory) => Err(NoMemory),
    }
}

// Fires all timers of a port that are due.
pub(crate) fn fire<A: LinkApp>(app: &mut A, now: Cs, port: PortNo) -> Result<StepReply, NoMemory>
    requires now { now.0 < 2 ^ 62 }
    requires port { IsLinkPort port (A.words.ports_of (A.state app.old)) }
    ensures reply { IfOk result (λ reply. reply
        ≡ StepReply.Fired (count_of (A.words.due_count now (place_of port) (A.state app.old)))) }
    ensures ok { OnOk result (A.state app.new
        ≡ A.words.after_due now (place_of port) (A.state app.old)) }
    ensures err { OnErr result (A.state app.new ≡ A.state app.old) }
    ensures ports { A.words.ports_of (A.state app.new) ≡ A.words.ports_of (A.state app.old) }
{
    A::laws();
    Ok(StepReply::Fired(app.due(now, port)?))
}

// Settles the attributes that await at a port.
pub(crate) fn settle<A: LinkApp>(app: &mut A, port: PortNo) -> Result<StepReply, NoMemory>
    requires { IsLinkPort port (A.words.ports_of (A.state app.old)) }
    ensures reply { IfOk result (λ reply. reply
        ≡ StepReply.Settled (count_of (A.words.awaiting_count (place_of port) (A.state app.old)))) }
    ensures ok { OnOk result (A.state app.new
        ≡ A.words.after_settling (place_of port) (A.state app.old)) }
    ensures err { OnErr result (A.state app.new ≡ A.state app.old) }
    ensures ports { A.words.ports_of (A.state app.new) ≡ A.words.ports_of (A.state app.old) }
{
    A::laws();
    Ok(StepReply::Settled(app.settle(port)?))
}

// Ends the leave timer of an attribute.
pub(crate) fn leave<A: LinkApp>(
    app: &mut A,
    port: PortNo,
    key: A::Key,
) -> Result<StepReply, NoMemory>
    requires { IsLinkPort port (A.words.ports_of (A.state app.old)) }
    ensures reply { IfOk result (λ reply. reply
        ≡ fired_one (A.words.is_leaving key (place_of port) (A.state app.old))) }
    ensures ok { OnOk result (A.state app.new
        ≡ A.words.after_leave key (place_of port) (A.state app.old)) }
    ensures err { OnErr result (A.state app.new ≡ A.state app.old) }
    ensures ports { A.words.ports_of (A.state app.new) ≡ A.words.ports_of (A.state app.old) }
{
    A::laws();
    let was = app.leave_now(port, key)?;
    Ok(StepReply::Fired(u32::from(was)))
}

// Fires the LeaveAll timer of an application.
pub(crate) fn leave_all<A: LinkApp>(app: &mut A, name: A::Name, now: Cs, port: PortNo)
    requires now { now.0 < 2 ^ 62 }
    requires port { IsLinkPort port (A.words.ports_of (A.state app.old)) }
    ensures after { A.state app.new
        ≡ A.words.after_leave_all name now (place_of port) (A.state app.old) }
    ensures ports { A.words.ports_of (A.state app.new) ≡ A.words.ports_of (A.state app.old) }
{
    A::laws();
    app.leaveall_now(name, now, port);
}

// Fires the periodic timer of an application.
pub(crate) fn periodic<A: LinkApp>(app: &mut A, name: A::Name, port: PortNo)
    requires { IsLinkPort port (A.words.ports_of (A.state app.old)) }
    ensures after { A.state app.new
        ≡ A.words.after_periodic name (place_of port) (A.state app.old) }
    ensures ports { A.words.ports_of (A.state app.new) ≡ A.words.ports_of (A.state app.old) }
{
    A::laws();
    app.periodic_now(name, port);
}

// What an application has to say at a port goes to the end of an outbox, for which there is room
// first.
pub(crate) fn say<A: LinkApp>(
    app: &mut A,
    name: A::Name,
    now: Cs,
    port: PortNo,
    outbox: &mut Vec<Wire<A::Name>>,
) -> Result<StepReply, NoMemory>
    requires now { now.0 < 2 ^ 62 }
    requires port { IsLinkPort port (A.words.ports_of (A.state app.old)) }
    ensures said { IsSaying name (A.words.octets_to_say name now (place_of port) (A.state app.old))
        (A.state app.old) (A.words.after_sending name now (place_of port) (A.state app.old))
        outbox.old.items result (A.state app.new) outbox.new.items }
    ensures ports { A.words.ports_of (A.state app.new) ≡ A.words.ports_of (A.state app.old) }
{
    A::laws();
    outbox.try_reserve(1)?;
    match app.send(name, now, port)? {
        Some(octets) => Ok(put_last(outbox, name, octets)),
        None => Ok(StepReply::Silent),
    }
}

// Octets of an application go to the end of an outbox that has room for them.
fn put_last<N: Copy>(outbox: &mut Vec<Wire<N>>, app: N, octets: Seq<u8>) -> StepReply
    requires room { vec_len outbox.old < vec_capacity outbox.old }
    requires octets { length octets ≤ 1500 }
    ensures put { outbox.new.items
        ≡ outbox.old.items ++ (record { app = app; octets = octets } ∷ []) }
    ensures reply { result ≡ StepReply.Sent (count_of (length octets)) }
{
    let count = u32::try_from(octets.len()).unwrap_or(u32::MAX);
    match outbox.push(Wire::new(app, octets)) {
        Ok(()) => StepReply::Sent(count),
        Err(_) => unreachable!(),
    }
}
