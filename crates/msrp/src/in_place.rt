//! What the link port at a place does, in its place, and what it tells the ports. None of this
//! takes memory but what answers that there was none.

ghost use Rattle.std.specs.Prelude.{◌≡◌, ◌<◌, ◌^◌, false, length, slice_get, ℕ, List, IsOk, IfOk, IfSome, OnOk, OnErr};
ghost use Rattle.std.specs.List.{AllByRecursion};
ghost use Rattle.srp_base.specs.declared.{numbers.StreamId.StreamId, streams.Talker.Talker};
ghost use Rattle.attribute_propagation.specs.{Dirty.KeySet, Ports.count_of, Ports.keys_in};
ghost use Rattle.mrp_participant.specs.{Lookup.find, Row.is_leaving_in, State.AreRows, State.due_count};
ghost use Rattle.msrp_codec.specs.declared.pdu.MsrpKey.{MsrpKey};
ghost use Rattle.msrp.specs.Part.{key_cmp};
ghost use Rattle.msrp.specs.Holding.{ports_in, streams_of};
ghost use Rattle.msrp.specs.Side.{due_streams, leave_all_streams, left_streams, periodic_streams, received_streams, sent_streams, spoilt_streams};

use crate::app::MsrpApp;
use crate::port::Port;
use crate::told::{any_domain, heard_domain, heeds, known_where, may_leave, room_to_tell, tell};
use crate::view::{PortView, port_at};
use attribute_propagation::{Dirty, told_where};
use mrp_participant::Msgs;
use mrp_participant::laws::{each_key_after_receive, receive_tells_each_change, told_keys_are_few};
use msrp_codec::MsrpKey;
use srp_base::{Cs, NoMemory, StreamId, Talker};
use std::alloc::Global;

// ---- what tells none

// The LeaveAll timer of the port at a place fires at a moment.
pub(crate) fn leave_all_at(ports: &mut Vec<Port>, at: usize, now: Cs)
    requires now { now.0 < 2 ^ 62 }
    requires place { at < length ports.old.items }
    ensures { (sets : List (KeySet MsrpKey)) (talks : List Talker)
        (listens : List StreamId) (moment : ℕ)
        → streams_of ports.new.items sets talks listens moment
        ≡ leave_all_streams now at (streams_of ports.old.items sets talks listens moment) }
{
    ports[at].leaveall_due(now);
}

// Each key of the port at a place takes the periodic event.
pub(crate) fn periodic_at(ports: &mut Vec<Port>, at: usize)
    requires { at < length ports.old.items }
    ensures { (sets : List (KeySet MsrpKey)) (talks : List Talker)
        (listens : List StreamId) (moment : ℕ)
        → streams_of ports.new.items sets talks listens moment
        ≡ periodic_streams at (streams_of ports.old.items sets talks listens moment) }
{
    ports[at].periodic_due();
}

// The port at a place isn't sound any more.
pub(crate) fn spoil_at(ports: &mut Vec<Port>, at: usize)
    requires { at < length ports.old.items }
    ensures { (sets : List (KeySet MsrpKey)) (talks : List Talker)
        (listens : List StreamId) (moment : ℕ)
        → streams_of ports.new.items sets talks listens moment
        ≡ spoilt_streams at (streams_of ports.old.items sets talks listens moment) }
{
    ports[at].spoil();
}

// What the port at a place had to say has gone out.
pub(crate) fn sent_at(ports: &mut Vec<Port>, at: usize, now: Cs)
    requires now { now.0 < 2 ^ 62 }
    requires place { at < length ports.old.items }
    ensures { (sets : List (KeySet MsrpKey)) (talks : List Talker)
        (listens : List StreamId) (moment : ℕ)
        → streams_of ports.new.items sets talks listens moment
        ≡ sent_streams now at (streams_of ports.old.items sets talks listens moment) }
{
    ports[at].sent(now);
}

// ---- what tells keys

// The port at a place receives messages, and the keys whose registration that changes are told.
// After want of memory all are as they were.
pub(crate) fn receive_at(
    ports: &mut Vec<Port>,
    sets: &mut Vec<Dirty<MsrpKey>>,
    talks: &[Talker],
    listens: &[StreamId],
    at: usize,
    now: Cs,
    msgs: &Msgs<MsrpApp>,
) -> Result<(), NoMemory>
    requires now { now.0 < 2 ^ 62 }
    requires place { at < length ports.old.items }
    requires sets { length sets.old.items ≡ length ports.old.items }
    requires rows { AllByRecursion (λ p. AreRows key_cmp p.part.rows) (ports_in ports.old.items) }
    ensures ok { OnOk result ((moment : ℕ)
        → streams_of ports.new.items sets.new.items talks.now listens.now moment
        ≡ received_streams now at
        (record { leave_all = msgs.now.leave_all; events = msgs.now.events })
        (streams_of ports.old.items sets.old.items talks.now listens.now moment)) }
    ensures ports { OnErr result (ports_in ports.new.items ≡ ports_in ports.old.items) }
    ensures sets { OnErr result (keys_in sets.new.items ≡ keys_in sets.old.items) }
{
    told_keys_are_few::<MsrpApp>();
    receive_tells_each_change::<MsrpApp>();
    each_key_after_receive::<MsrpApp>();
    let alloc = *ports.allocator();
    let view = PortView {
        talks,
        listens,
        ports: ports.as_slice(),
        at,
    };
    let domain = view.port().domain();
    let known = known_where(
        alloc,
        heeds(domain, heard_domain(msgs.events.as_slice())),
        &view,
    )?;
    room_to_tell(sets, msgs.events.len(), known.len())?;
    let told = ports[at].receive(now, msgs)?;
    tell(sets, at, domain, told.as_slice(), known.as_slice());
    Ok(())
}

// The timers that are due at a place fire, and the keys that leave are told. Answers how many
// fired. After want of memory all are as they were.
pub(crate) fn fire_at(
    ports: &mut Vec<Port>,
    sets: &mut Vec<Dirty<MsrpKey>>,
    talks: &[Talker],
    listens: &[StreamId],
    at: usize,
    now: Cs,
) -> Result<u32, NoMemory>
    requires now { now.0 < 2 ^ 62 }
    requires place { at < length ports.old.items }
    requires sets { length sets.old.items ≡ length ports.old.items }
    ensures ok { OnOk result ((moment : ℕ)
        → streams_of ports.new.items sets.new.items talks.now listens.now moment
        ≡ due_streams now at
        (streams_of ports.old.items sets.old.items talks.now listens.now moment)) }
    ensures count { IfOk result (λ n. IfSome (slice_get (ports_in ports.old.items) at)
        (λ p. n ≡ count_of (due_count now p.part))) }
    ensures ports { OnErr result (ports_in ports.new.items ≡ ports_in ports.old.items) }
    ensures sets { OnErr result (keys_in sets.new.items ≡ keys_in sets.old.items) }
{
    told_keys_are_few::<MsrpApp>();
    let alloc = *ports.allocator();
    let view = PortView {
        talks,
        listens,
        ports: ports.as_slice(),
        at,
    };
    let domain = view.port().domain();
    let rows = view.port().part().rows();
    let known = known_where(alloc, heeds(domain, may_leave(view.port().part())), &view)?;
    room_to_tell(sets, rows, known.len())?;
    let (fired, left) = ports[at].due(now)?;
    tell(sets, at, domain, left.as_slice(), known.as_slice());
    Ok(fired)
}

// The leave timer of one key ends at a place, and where the key leaves, it is told. True exactly
// where its registrar was LV; else no memory is taken. After want of memory all are as they were.
pub(crate) fn leave_at(
    ports: &mut Vec<Port>,
    sets: &mut Vec<Dirty<MsrpKey>>,
    talks: &[Talker],
    listens: &[StreamId],
    at: usize,
    key: MsrpKey,
) -> Result<bool, NoMemory>
    requires place { at < length ports.old.items }
    requires sets { length sets.old.items ≡ length ports.old.items }
    ensures ok { OnOk result ((moment : ℕ)
        → streams_of ports.new.items sets.new.items talks.now listens.now moment
        ≡ left_streams at key
        (streams_of ports.old.items sets.old.items talks.now listens.now moment)) }
    ensures was { IfOk result (λ b. IfSome (slice_get (ports_in ports.old.items) at)
        (λ p. b ≡ is_leaving_in (find key_cmp key p.part.rows))) }
    ensures stays { IfSome (slice_get (ports_in ports.old.items) at)
        (λ p. is_leaving_in (find key_cmp key p.part.rows) ≡ false → IsOk result) }
    ensures ports { OnErr result (ports_in ports.new.items ≡ ports_in ports.old.items) }
    ensures sets { OnErr result (keys_in sets.new.items ≡ keys_in sets.old.items) }
{
    let alloc = *ports.allocator();
    let view = PortView {
        talks,
        listens,
        ports: ports.as_slice(),
        at,
    };
    let domain = view.port().domain();
    let was = view.port().is_leaving(key);
    let keys = [key];
    let told = told_where(was, keys.as_slice());
    let known = known_where(alloc, heeds(domain, any_domain(told)), &view)?;
    room_to_tell(sets, told.len(), known.len())?;
    ports[at].leave_due(key);
    tell(sets, at, domain, told, known.as_slice());
    Ok(was)
}
