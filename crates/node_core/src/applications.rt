//! What a step of a node does at its applications, MVRP and MSRP. Each function says what it makes
//! of them, as the words of `specs/Step.antt` have it; what stays of a node at each step is a law
//! over those (`every_step_keeps_a_node_proper`).

ghost use Rattle.std.specs.Prelude.{◌≡◌, ◌<◌, ◌≤◌, ◌^◌, length, slice_get, vec_len, vec_capacity, true, false, Some, IsOk, IfOk, IfSome, OnOk, OnErr};
ghost use Rattle.std.specs.List.{list_any};
ghost use Rattle.mrp_participant.specs.State.{due_count};
ghost use Rattle.attribute_propagation.specs.Ports.{IsLinkPort, place_of, count_of};
ghost use Rattle.mvrp_codec.specs.Meaning.{mvrp_reading};
ghost use Rattle.msrp_codec.specs.Meaning.{msrp_reading};
ghost use Rattle.flat_side.specs.Side.{awaiting_at};
ghost use Rattle.mvrp.specs.Side.{requested_vlans, due_vlans, leave_all_vlans, periodic_vlans, settled_vlans, spoilt_vlans, sent_vlans};
ghost use Rattle.msrp.specs.Side.{clocked_streams, requested_streams, due_streams, leave_all_streams, periodic_streams, settled_streams, shows_at, spoilt_streams, sent_streams};
ghost use Rattle.node_core.specs.Holding.{is_ready_at};
ghost use Rattle.node_core.specs.Calls.{HasOneTaken, HasOneSaid, IsSaying};
ghost use Rattle.node_core.specs.Step.{all_due, all_awaiting, left_key_now, left_vid_now, said_mvrp, said_msrp, with_octets, worked_mvrp, worked_msrp};
ghost use Rattle.node_core.specs.Wires.{IsShort};

use crate::types::{StepReply, Wire};
use mrpdu_codec::DecodeErr;
use msrp::{MsrpSide, SrpRequest};
use msrp_codec::MsrpKey;
use mvrp::MvrpSide;
use srp_base::{App, Cs, NoMemory, PortNo, Seq, Vid};

// ---- either application, or both

// A PDU that came in at a port is taken by its application.
pub(crate) fn worked_on(
    mvrp: &mut MvrpSide,
    msrp: &mut MsrpSide,
    now: Cs,
    port: PortNo,
    wire: &Wire,
) -> Result<StepReply, NoMemory>
    requires now { now.0 < 2 ^ 62 }
    requires port { IsLinkPort port (length mvrp.old.state.parts) }
    requires same { length msrp.old.state.ports ≡ length mvrp.old.state.parts }
    requires short { IsShort wire.now }
    ensures ok { IfOk result (λ reply.
        HasOneTaken wire.now.app now (place_of port) wire.now.octets mvrp.old.state msrp.old.state
        reply mvrp.new.state msrp.new.state) }
    ensures err_vlans { OnErr result (mvrp.new.state ≡ mvrp.old.state) }
    ensures err_streams { OnErr result (msrp.new.state ≡ msrp.old.state) }
{
    match wire.app {
        App::Mvrp => receive_vlans(mvrp, now, port, wire),
        App::Msrp => receive_streams(msrp, now, port, wire),
    }
}

// What an application has to say at a port goes to the end of an outbox.
pub(crate) fn put_out(
    mvrp: &mut MvrpSide,
    msrp: &mut MsrpSide,
    app: App,
    now: Cs,
    port: PortNo,
    outbox: &mut Vec<Wire>,
) -> Result<StepReply, NoMemory>
    requires now { now.0 < 2 ^ 62 }
    requires port { IsLinkPort port (length mvrp.old.state.parts) }
    requires same { length msrp.old.state.ports ≡ length mvrp.old.state.parts }
    ensures put { HasOneSaid app now (place_of port) mvrp.old.state msrp.old.state outbox.old.items
        result mvrp.new.state msrp.new.state outbox.new.items }
{
    match app {
        App::Mvrp => put_vlans(mvrp, now, port, outbox),
        App::Msrp => put_streams(msrp, now, port, outbox),
    }
}

// Fires all timers of a port that are due, of both applications or of neither.
pub(crate) fn due_of(
    mvrp: &mut MvrpSide,
    msrp: &mut MsrpSide,
    now: Cs,
    port: PortNo,
) -> Result<StepReply, NoMemory>
    requires now { now.0 < 2 ^ 62 }
    requires port { IsLinkPort port (length mvrp.old.state.parts) }
    requires same { length msrp.old.state.ports ≡ length mvrp.old.state.parts }
    ensures fired { IfOk result (λ reply. reply
        ≡ StepReply.Fired (count_of (all_due now (place_of port) mvrp.old.state msrp.old.state))) }
    ensures ok_vlans { OnOk result (mvrp.new.state ≡ due_vlans now (place_of port) mvrp.old.state) }
    ensures ok_streams { OnOk result
        (msrp.new.state ≡ due_streams now (place_of port) msrp.old.state) }
    ensures err_vlans { OnErr result (mvrp.new.state ≡ mvrp.old.state) }
    ensures err_streams { OnErr result (msrp.new.state ≡ msrp.old.state) }
{
    mvrp.room(port)?;
    let fired = msrp.due(now, port)?;
    let count = fire_vlans(mvrp, now, port);
    Ok(StepReply::Fired(count.saturating_add(fired)))
}

// Settles what awaits at a port, of both applications or of neither.
pub(crate) fn settle_of(
    mvrp: &mut MvrpSide,
    msrp: &mut MsrpSide,
    now: Cs,
    port: PortNo,
) -> Result<StepReply, NoMemory>
    requires now { now.0 < 2 ^ 62 }
    requires moment { now.0 ≡ msrp.old.state.moment }
    requires port { IsLinkPort port (length mvrp.old.state.parts) }
    requires same { length msrp.old.state.ports ≡ length mvrp.old.state.parts }
    ensures settled { IfOk result (λ reply. reply
        ≡ StepReply.Settled
        (count_of (all_awaiting (place_of port) mvrp.old.state msrp.old.state))) }
    ensures ok_vlans { OnOk result (mvrp.new.state ≡ settled_vlans (place_of port) mvrp.old.state) }
    ensures ok_streams { OnOk result
        (msrp.new.state ≡ settled_streams (place_of port) msrp.old.state) }
    ensures err_vlans { OnErr result (mvrp.new.state ≡ mvrp.old.state) }
    ensures err_streams { OnErr result (msrp.new.state ≡ msrp.old.state) }
{
    mvrp.room(port)?;
    let settled = msrp.settle(now, port)?;
    let count = settle_vlans(mvrp, now, port);
    Ok(StepReply::Settled(count.saturating_add(settled)))
}

// ---- MVRP

// A VID is declared or withdrawn.
pub(crate) fn ask_vlan(side: &mut MvrpSide, vid: Vid, declared: bool) -> Result<StepReply, NoMemory>
    ensures ok { OnOk result (side.new.state ≡ requested_vlans vid declared side.old.state) }
    ensures taken { IfOk result (λ reply. reply ≡ StepReply.Taken) }
    ensures err { OnErr result (side.new.state ≡ side.old.state) }
{
    side.request(vid, declared)?;
    Ok(StepReply::Taken)
}

// What a PDU that came in at a port makes of MVRP.
pub(crate) fn receive_vlans(
    side: &mut MvrpSide,
    now: Cs,
    port: PortNo,
    wire: &Wire,
) -> Result<StepReply, NoMemory>
    requires now { now.0 < 2 ^ 62 }
    requires port { IsLinkPort port (length side.old.state.parts) }
    requires short { IsShort wire.now }
    ensures ok { IfOk result (λ reply.
        worked_mvrp now (place_of port) (mvrp_reading wire.now.octets) side.old.state
        ≡ (side.new.state, reply)) }
    ensures err { OnErr result (side.new.state ≡ side.old.state) }
{
    match side.receive(now, port, wire.octets.as_slice()) {
        Ok(events) => Ok(StepReply::Received(events)),
        Err(DecodeErr::Malformed(place)) => Ok(StepReply::Discarded(place)),
        Err(DecodeErr::NoMemory) => Err(NoMemory),
    }
}

// Fires the timers of a port that are due, for which the memory is taken. Answers how many.
fn fire_vlans(side: &mut MvrpSide, now: Cs, port: PortNo) -> u32
    requires now { now.0 < 2 ^ 62 }
    requires port { IsLinkPort port (length side.old.state.parts) }
    requires ready { side.old.ready ≡ Some (place_of port) }
    ensures after { side.new.state ≡ due_vlans now (place_of port) side.old.state }
    ensures count { IfSome (slice_get side.old.state.parts (place_of port))
        (λ s. result ≡ count_of (due_count now s)) }
{
    match side.due(now, port) {
        Ok(fired) => fired,
        Err(_) => unreachable!(),
    }
}

// Settles the VIDs that await at a port, for which the memory is taken. Answers how many.
fn settle_vlans(side: &mut MvrpSide, now: Cs, port: PortNo) -> u32
    requires now { now.0 < 2 ^ 62 }
    requires port { IsLinkPort port (length side.old.state.parts) }
    requires ready { side.old.ready ≡ Some (place_of port) }
    ensures after { side.new.state ≡ settled_vlans (place_of port) side.old.state }
    ensures count { result ≡ count_of (length (awaiting_at (place_of port) side.old.state)) }
{
    match side.settle(now, port) {
        Ok(settled) => settled,
        Err(_) => unreachable!(),
    }
}

// Ends the leave timer of a VID.
pub(crate) fn left_vid(side: &mut MvrpSide, port: PortNo, vid: Vid) -> Result<StepReply, NoMemory>
    requires { IsLinkPort port (length side.old.state.parts) }
    ensures ok { IfOk result (λ reply. left_vid_now vid (place_of port) side.old.state
        ≡ (side.new.state, reply)) }
    ensures err { OnErr result (side.new.state ≡ side.old.state) }
{
    let was = side.leave_now(port, vid)?;
    Ok(StepReply::Fired(u32::from(was)))
}

// Fires the LeaveAll timer.
pub(crate) fn leave_all_vlans(side: &mut MvrpSide, now: Cs, port: PortNo) -> StepReply
    requires now { now.0 < 2 ^ 62 }
    requires port { IsLinkPort port (length side.old.state.parts) }
    ensures after { side.new.state ≡ leave_all_vlans now (place_of port) side.old.state }
    ensures fired { result ≡ StepReply.Fired 1 }
{
    side.leaveall_now(now, port);
    StepReply::Fired(1)
}

// Fires the periodic timer.
pub(crate) fn periodic_vlans(side: &mut MvrpSide, port: PortNo) -> StepReply
    requires { IsLinkPort port (length side.old.state.parts) }
    ensures after { side.new.state ≡ periodic_vlans (place_of port) side.old.state }
    ensures fired { result ≡ StepReply.Fired 1 }
{
    side.periodic_now(port);
    StepReply::Fired(1)
}

// What MVRP has to say at a port goes to the end of an outbox, for which there is room first.
pub(crate) fn put_vlans(
    side: &mut MvrpSide,
    now: Cs,
    port: PortNo,
    outbox: &mut Vec<Wire>,
) -> Result<StepReply, NoMemory>
    requires now { now.0 < 2 ^ 62 }
    requires port { IsLinkPort port (length side.old.state.parts) }
    ensures put { IsSaying App.Mvrp (said_mvrp now (place_of port) side.old.state) side.old.state
        (sent_vlans now (place_of port) side.old.state) outbox.old.items
        result side.new.state outbox.new.items }
{
    outbox.try_reserve(1)?;
    match side.send(now, port)? {
        Some(octets) => Ok(put_last(App::Mvrp, outbox, octets)),
        None => Ok(StepReply::Silent),
    }
}

// Ends the soundness of the participant at a port.
pub(crate) fn spoil_vlans(side: &mut MvrpSide, port: PortNo)
    requires { IsLinkPort port (length side.old.state.parts) }
    ensures { side.new.state ≡ spoilt_vlans (place_of port) side.old.state }
{
    side.spoil(port);
}

// ---- MSRP

// The application asks for something.
pub(crate) fn ask_srp(side: &mut MsrpSide, request: SrpRequest) -> Result<StepReply, NoMemory>
    ensures ok { OnOk result (side.new.state ≡ requested_streams request side.old.state) }
    ensures taken { IfOk result (λ reply. reply ≡ StepReply.Taken) }
    ensures err { OnErr result (side.new.state ≡ side.old.state) }
{
    side.request(request)?;
    Ok(StepReply::Taken)
}

// What a PDU that came in at a port makes of MSRP.
pub(crate) fn receive_streams(
    side: &mut MsrpSide,
    now: Cs,
    port: PortNo,
    wire: &Wire,
) -> Result<StepReply, NoMemory>
    requires now { now.0 < 2 ^ 62 }
    requires port { IsLinkPort port (length side.old.state.ports) }
    requires short { IsShort wire.now }
    ensures ok { IfOk result (λ reply.
        worked_msrp now (place_of port) (msrp_reading wire.now.octets) side.old.state
        ≡ (side.new.state, reply)) }
    ensures err { OnErr result (side.new.state ≡ side.old.state) }
{
    match side.receive(now, port, wire.octets.as_slice()) {
        Ok(events) => Ok(StepReply::Received(events)),
        Err(DecodeErr::Malformed(place)) => Ok(StepReply::Discarded(place)),
        Err(DecodeErr::NoMemory) => Err(NoMemory),
    }
}

// Ends the leave timer of a key.
pub(crate) fn left_key(
    side: &mut MsrpSide,
    port: PortNo,
    key: MsrpKey,
) -> Result<StepReply, NoMemory>
    requires { IsLinkPort port (length side.old.state.ports) }
    ensures ok { IfOk result (λ reply. left_key_now key (place_of port) side.old.state
        ≡ (side.new.state, reply)) }
    ensures err { OnErr result (side.new.state ≡ side.old.state) }
{
    let was = side.leave_now(port, key)?;
    Ok(StepReply::Fired(u32::from(was)))
}

// Fires the LeaveAll timer.
pub(crate) fn leave_all_streams(side: &mut MsrpSide, now: Cs, port: PortNo) -> StepReply
    requires now { now.0 < 2 ^ 62 }
    requires port { IsLinkPort port (length side.old.state.ports) }
    ensures after { side.new.state ≡ leave_all_streams now (place_of port) side.old.state }
    ensures fired { result ≡ StepReply.Fired 1 }
{
    side.leaveall_now(now, port);
    StepReply::Fired(1)
}

// Fires the periodic timer.
pub(crate) fn periodic_streams(side: &mut MsrpSide, port: PortNo) -> StepReply
    requires { IsLinkPort port (length side.old.state.ports) }
    ensures after { side.new.state ≡ periodic_streams (place_of port) side.old.state }
    ensures fired { result ≡ StepReply.Fired 1 }
{
    side.periodic_now(port);
    StepReply::Fired(1)
}

// What MSRP has to say at a port goes to the end of an outbox, for which there is room first.
pub(crate) fn put_streams(
    side: &mut MsrpSide,
    now: Cs,
    port: PortNo,
    outbox: &mut Vec<Wire>,
) -> Result<StepReply, NoMemory>
    requires now { now.0 < 2 ^ 62 }
    requires port { IsLinkPort port (length side.old.state.ports) }
    ensures put { IsSaying App.Msrp (said_msrp now (place_of port) side.old.state) side.old.state
        (sent_streams now (place_of port) side.old.state) outbox.old.items
        result side.new.state outbox.new.items }
{
    outbox.try_reserve(1)?;
    match side.send(now, port)? {
        Some(octets) => Ok(put_last(App::Msrp, outbox, octets)),
        None => Ok(StepReply::Silent),
    }
}

// Ends the soundness of the participant at a port.
pub(crate) fn spoil_streams(side: &mut MsrpSide, port: PortNo)
    requires { IsLinkPort port (length side.old.state.ports) }
    ensures { side.new.state ≡ spoilt_streams (place_of port) side.old.state }
{
    side.spoil(port);
}

// Makes the side ready for a clock that is set to a moment. It takes memory only where that shows
// something.
pub(crate) fn make_ready(side: &mut MsrpSide, now: Cs) -> Result<(), NoMemory>
    ensures state { side.new.state ≡ side.old.state }
    ensures ready { OnOk result (is_ready_at now.0 side.new ≡ true) }
    ensures again { is_ready_at now.0 side.old ≡ true → IsOk result }
    ensures none { list_any (shows_at now.0) side.old.state.ports ≡ false → IsOk result }
{
    if side.clock_shows(now) {
        side.clock_room()
    } else {
        Ok(())
    }
}

// The clock goes on to a moment that isn't before the last.
pub(crate) fn go_on(side: &mut MsrpSide, now: Cs) -> Result<(), NoMemory>
    requires { side.old.state.moment ≤ now.0 }
    ensures ok { OnOk result (side.new.state ≡ clocked_streams now.0 side.old.state) }
    ensures err { OnErr result (side.new.state ≡ side.old.state) }
    ensures room { is_ready_at now.0 side.old ≡ true → IsOk result }
{
    side.clock(now)
}

// ---- what goes into an outbox

// Octets of an application go to the end of an outbox that has room for them.
pub(crate) fn put_last(app: App, outbox: &mut Vec<Wire>, octets: Seq<u8>) -> StepReply
    requires room { vec_len outbox.old < vec_capacity outbox.old }
    ensures put { outbox.new.items ≡ with_octets app octets outbox.old.items }
    ensures reply { result ≡ StepReply.Sent (count_of (length octets)) }
{
    let count = u32::try_from(octets.len()).unwrap_or(u32::MAX);
    let wire = Wire { app, octets };
    match outbox.push(wire) {
        Ok(()) => StepReply::Sent(count),
        Err(_) => unreachable!(),
    }
}
