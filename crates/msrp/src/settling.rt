//! Settling the keys that await at a link port.

ghost use Rattle.std.specs.Prelude.{◌≡◌, ◌≢◌, ◌+◌, ◌≤◌, ◌<◌, ◌++◌, ℕ, List, Some, [], length, map, slice_get, vec_capacity, vec_len, false, IsOk, IfOk, IfSome, OnOk, OnErr};
ghost use Rattle.attribute_propagation.specs.Ports.{HasRoom, IsLinkPort, count_of, keys_at, keys_in, marked_elsewhere, place_of};
ghost use Rattle.mrp_participant.specs.State.{declared_state};
ghost use Rattle.port_ledger.specs.Book.{Book, entry_of};
ghost use Rattle.msrp_codec.specs.declared.pdu.MsrpKey.{MsrpKey};
ghost use Rattle.msrp.specs.PortState.{PortState};
ghost use Rattle.msrp.specs.Part.{key_cmp, same_content, settled_as};
ghost use Rattle.msrp.specs.Settling.{book_with, book_without, listener_keys, settling_keys, talker_keys};
ghost use Rattle.msrp.specs.Side.{IsKept, Streams, awaiting_at, settled_streams};
ghost use Rattle.msrp.specs.Holding.{ports_in, streams_of};
ghost use Rattle.msrp.specs.Plan.{HasRoomFor, IsPlan, asked_in, asked_out, missing_row, missing_rows, new_row, new_rows, stated_of, stated_part, stated_with};
ghost use Rattle.msrp.specs.View.{registrations_from};

use crate::app::MsrpApp;
use crate::plan::{Asked, Plan, Stated, plan_of};
use crate::port::Port;
use crate::side::MsrpSide;
use crate::stream::stated_at;
use crate::talker_keys::{mark_talkers, sum};
use crate::view::PortView;
use attribute_propagation::laws::{each_key_awaits, each_port_is_told};
use attribute_propagation::{Dirty, empty_at, room_everywhere, saturated, set_at, tell_elsewhere};
use mrp_participant::Participant;
use mrp_participant::laws::{
    a_place_for_each_key, one_key_changes, registrations_stay, rows_stay_rows, what_is_asked_holds,
};
use msrp_codec::{MsrpContent, MsrpKey};
use msrp_listener::PortListener;
use port_ledger::Ledger;
use port_ledger::laws::{
    every_step_keeps_a_book, fits_stay, nothing_changed_where_both_lists_are_empty,
    other_wants_stay, what_has_not_moved_is_booked_as_before,
};
use srp_base::{Cs, NoMemory, PortNo, StreamId, Talker};
use stream_importance::Want;

impl MsrpSide {
    /// Settles the keys that await at a link port (IEEE Std 802.1Q-2018, 35.2.4). Of their streams
    /// those that want no bandwidth there are taken out of the port's ledger, ascending, and then
    /// those that want it are entered, ascending. Then Talkers and Listeners are declared or
    /// withdrawn as what is registered at all ports says: those whose keys await, and where the
    /// booked set changed the Talkers of all streams. Answers how many keys awaited; none does
    /// afterwards. The Listener keys of the streams that were booked or dropped await at every
    /// other link port. All memory is taken before anything changes; where no key awaits none is
    /// taken, and nothing changes, readiness either. `now`, in cs, is the moment of the last clock,
    /// or 0 before the first.
    pub fn settle(&mut self, now: Cs, port: PortNo) -> Result<u32, NoMemory>
        requires now { now.0 ≡ self.old.state.moment }
        requires port { IsLinkPort port (length self.old.state.ports) }
        ensures after { OnOk result (self.new.state
            ≡ settled_streams (place_of port) self.old.state) }
        ensures count { IfOk result (λ n. n
            ≡ count_of (length (awaiting_at (place_of port) self.old.state))) }
        ensures err { OnErr result (self.new.state ≡ self.old.state) }
        ensures none { awaiting_at (place_of port) self.old.state ≡ [] → IsOk result }
        // What settles ends readiness, and nothing else does.
        ensures stays { awaiting_at (place_of port) self.old.state ≡ [] → self.new ≡ self.old }
        ensures ready { OnOk result (awaiting_at (place_of port) self.old.state ≢ []
            → self.new.ready ≡ false) }
    {
        self.keeps();
        each_port_is_told::<MsrpKey>();
        nothing_changed_where_both_lists_are_empty();
        let at = usize::from(port.0) - 1;
        if set_at(self.awaiting.as_slice(), at).is_empty() {
            return Ok(0);
        }
        self.settle_keys(at)
    }

    // Settles the keys that await at the link port at a place.
    fn settle_keys(&mut self, at: usize) -> Result<u32, NoMemory>
        requires { at < length self.old.state.ports }
        ensures after { OnOk result (self.new.state ≡ settled_streams at self.old.state) }
        ensures count { IfOk result (λ n. n ≡ count_of (length (awaiting_at at self.old.state))) }
        ensures err { OnErr result (self.new.state ≡ self.old.state) }
        ensures ready { self.new.ready ≡ false }
    {
        settling_keeps_a_side();
        self.keeps();
        self.ready = false;
        settle_at(
            &mut self.ports,
            &mut self.awaiting,
            self.talks.as_slice(),
            self.listens.as_slice(),
            at,
        )
    }
}

// What every side keeps, settling a port keeps.
pub(crate) fn settling_keeps_a_side()
    ensures { (at : ℕ) (side : Streams) → IsKept side → IsKept (settled_streams at side) }
{
    each_port_is_told::<MsrpKey>();
    each_key_awaits::<StreamId>();
    what_is_asked_holds::<MsrpApp>();
    registrations_stay::<MsrpApp>();
    rows_stay_rows::<MsrpApp>();
    one_key_changes::<MsrpApp>();
    a_place_for_each_key::<MsrpApp>();
    every_step_keeps_a_book();
    other_wants_stay();
    fits_stay();
    what_has_not_moved_is_booked_as_before();
    nothing_changed_where_both_lists_are_empty();
}

// A row comes only for a key that awaits and has none: what is declared of a key that doesn't await
// has its row.
fn rows_come_for_awaiting_keys()
    ensures { (at : ℕ) (side : Streams) (port : PortState) (keys : List MsrpKey)
        → IsKept side → slice_get side.ports at ≡ Some port → slice_get side.awaiting at ≡ Some keys
        → (book : Book) (tried : List MsrpKey)
        → new_rows (stated_with at side (record port { ledger = book }) tried) port.part
        ≤ missing_rows keys port.part }
{
    rows_stay_rows::<MsrpApp>();
    one_key_changes::<MsrpApp>();
}

// The keys that await at a place are settled, and none awaits there afterwards. Answers how many
// there were. After want of memory all are as they were.
fn settle_at(
    ports: &mut Vec<Port>,
    sets: &mut Vec<Dirty<MsrpKey>>,
    talks: &[Talker],
    listens: &[StreamId],
    at: usize,
) -> Result<u32, NoMemory>
    requires place { at < length ports.old.items }
    requires sets { length sets.old.items ≡ length ports.old.items }
    requires kept { (moment : ℕ) × IsKept
        (streams_of ports.old.items sets.old.items talks.now listens.now moment) }
    ensures after { OnOk result ((moment : ℕ)
        → streams_of ports.new.items sets.new.items talks.now listens.now moment
        ≡ settled_streams at
        (streams_of ports.old.items sets.old.items talks.now listens.now moment)) }
    ensures count { IfOk result (λ n. n ≡ count_of (length (keys_at at (keys_in sets.old.items)))) }
    ensures ports { OnErr result (ports_in ports.new.items ≡ ports_in ports.old.items) }
    ensures sets { OnErr result (keys_in sets.new.items ≡ keys_in sets.old.items) }
{
    let keys = set_at(sets.as_slice(), at);
    let count = saturated(keys.len());
    let alloc = *ports.allocator();
    let view = PortView {
        talks,
        listens,
        ports: ports.as_slice(),
        at,
    };
    let mut plan = plan_of(alloc, &view, view.port(), keys.as_slice())?;
    room_at(ports, sets, at, &plan)?;
    carry_out(ports, sets, talks, listens, at, &mut plan);
    Ok(count)
}

// Makes room for so many new rows and streams at the port at a place. No state changes.
fn port_room(ports: &mut Vec<Port>, at: usize, rows: usize, wants: usize) -> Result<(), NoMemory>
    requires { at < length ports.old.items }
    ensures ports { ports_in ports.new.items ≡ ports_in ports.old.items }
    ensures rows { OnOk result (IfSome (slice_get ports.new.items at) (λ p. rows ≤ p.rows)) }
    ensures wants { OnOk result (IfSome (slice_get ports.new.items at) (λ p. wants ≤ p.wants)) }
{
    ports[at].room(rows, wants)
}

// Makes room for so many more keys in the set at a place, and takes none from any.
fn set_room(sets: &mut Vec<Dirty<MsrpKey>>, at: usize, keys: usize) -> Result<(), NoMemory>
    requires { at < length sets.old.items }
    ensures keys { keys_in sets.new.items ≡ keys_in sets.old.items }
    ensures room { OnOk result (IfSome (slice_get sets.new.items at) (λ set. keys ≤ set.spare)) }
    ensures others { (n : ℕ) → HasRoom n sets.old.items → HasRoom n sets.new.items }
{
    sets[at].room(keys)
}

// Makes room for what a plan may put into the port at a place and into the sets of awaiting keys.
// No state changes.
fn room_at(
    ports: &mut Vec<Port>,
    sets: &mut Vec<Dirty<MsrpKey>>,
    at: usize,
    plan: &Plan,
) -> Result<(), NoMemory>
    requires place { at < length ports.old.items }
    requires sets { length sets.old.items ≡ length ports.old.items }
    ensures ports { ports_in ports.new.items ≡ ports_in ports.old.items }
    ensures sets { keys_in sets.new.items ≡ keys_in sets.old.items }
    ensures room { OnOk result (HasRoomFor at plan.now ports.new.items sets.new.items) }
{
    let own = sum(plan.stated.capacity(), plan.moved.capacity())?;
    port_room(ports, at, plan.missing, plan.asked.len())?;
    room_everywhere(sets, plan.moved.capacity())?;
    set_room(sets, at, own)
}

// What is planned for the port at a place is done. It takes no memory.
fn carry_out(
    ports: &mut Vec<Port>,
    sets: &mut Vec<Dirty<MsrpKey>>,
    talks: &[Talker],
    listens: &[StreamId],
    at: usize,
    plan: &mut Plan,
)
    requires place { at < length ports.old.items }
    requires sets { length sets.old.items ≡ length ports.old.items }
    requires plan { IfSome (slice_get (ports_in ports.old.items) at)
        (IsPlan at talks.now (ports_in ports.old.items) (keys_at at (keys_in sets.old.items))
        plan.old) }
    requires room { HasRoomFor at plan.old ports.old.items sets.old.items }
    requires kept { (moment : ℕ) × IsKept
        (streams_of ports.old.items sets.old.items talks.now listens.now moment) }
    ensures { (moment : ℕ) → streams_of ports.new.items sets.new.items talks.now listens.now moment
        ≡ settled_streams at
        (streams_of ports.old.items sets.old.items talks.now listens.now moment) }
{
    nothing_changed_where_both_lists_are_empty();
    rows_come_for_awaiting_keys();
    ports[at].decide(
        plan.asked.as_slice(),
        plan.before.as_slice(),
        &mut plan.moved,
    );
    mark_moved(
        &mut sets[at],
        plan.moved.as_slice(),
        talks,
        ports.as_slice(),
    );
    let view = PortView {
        talks,
        listens,
        ports: ports.as_slice(),
        at,
    };
    let keys = set_at(sets.as_slice(), at);
    state_all(&view, keys.as_slice(), &mut plan.rows, &mut plan.stated);
    ports[at].restate(plan.stated.as_slice());
    tell_moved(sets, at, plan.moved.as_slice(), &mut plan.told);
    empty_at(sets, at);
}

// ---- which keys are settled

// Where the booking of some stream moved, the Talker keys of all streams with a Talker are put in.
// There is room for them.
fn mark_moved(set: &mut Dirty<MsrpKey>, moved: &[StreamId], talks: &[Talker], ports: &[Port])
    requires { length (talker_keys talks.now (ports_in ports.now)) ≤ set.old.spare }
    ensures keys { set.new.keys
        ≡ settling_keys moved.now (talker_keys talks.now (ports_in ports.now)) set.old.keys }
    ensures spare { set.old.spare
        ≤ set.new.spare + length (talker_keys talks.now (ports_in ports.now)) }
{
    if moved.is_empty() {
        return;
    }
    mark_talkers(set, talks, ports);
}

// Puts the Listener keys of streams at the end. There is room for as many.
fn push_listeners(out: &mut Vec<MsrpKey>, streams: &[StreamId])
    requires { vec_len out.old + length streams.now ≤ vec_capacity out.old }
    ensures { out.new.items ≡ out.old.items ++ listener_keys streams.now }
{
    for stream in streams {
        out.push_reserved(MsrpKey::Listener(*stream));
    }
}

// The Listener keys of streams await at every place but one, by way of an empty list with room for
// them.
fn tell_moved(
    sets: &mut Vec<Dirty<MsrpKey>>,
    at: usize,
    moved: &[StreamId],
    told: &mut Vec<MsrpKey>,
)
    requires told { told.old.items ≡ [] }
    requires room { vec_len told.old + length moved.now ≤ vec_capacity told.old }
    requires spare { HasRoom (length moved.now) sets.old.items }
    ensures { keys_in sets.new.items
        ≡ marked_elsewhere key_cmp at (listener_keys moved.now) (keys_in sets.old.items) }
{
    push_listeners(told, moved);
    tell_elsewhere(sets, at, told.as_slice());
}

// ---- the ledger

// A stream that wants nothing is taken out.
fn take_out(ledger: &mut Ledger, stream: StreamId, want: Option<Want>)
    ensures book { ledger.new.book ≡ book_without stream want ledger.old.book }
    ensures spare { ledger.old.spare ≤ ledger.new.spare }
{
    match want {
        Some(_) => {}
        None => {
            let now = ledger.moment();
            ledger.unwant(now, stream);
        }
    }
}

// Those of these streams that want nothing are taken out.
pub(crate) fn take_out_all(ledger: &mut Ledger, asked: &[Asked])
    ensures book { ledger.new.book ≡ asked_out asked.now ledger.old.book }
    ensures spare { ledger.old.spare ≤ ledger.new.spare }
{
    for one in asked {
        take_out(ledger, one.stream, one.want);
    }
}

// A stream that wants bandwidth is entered. There is room for it.
fn enter(ledger: &mut Ledger, want: Option<Want>)
    requires { 1 ≤ ledger.old.spare }
    ensures book { ledger.new.book ≡ book_with want ledger.old.book }
    ensures spare { ledger.old.spare ≤ ledger.new.spare + 1 }
{
    match want {
        Some(want) => {
            let now = ledger.moment();
            ledger.enter(now, want);
        }
        None => {}
    }
}

// Those of these streams that want bandwidth are entered. There is room for all.
pub(crate) fn enter_all(ledger: &mut Ledger, asked: &[Asked])
    requires { length asked.now ≤ ledger.old.spare }
    ensures { ledger.new.book ≡ asked_in asked.now ledger.old.book }
{
    for one in asked {
        enter(ledger, one.want);
    }
}

// ---- the participant

// What the port of a view declares of each of these keys is put at the end of a list that has room
// for as many.
fn state_all(
    view: &PortView<'_>,
    keys: &[MsrpKey],
    rows: &mut Vec<PortListener>,
    stated: &mut Vec<Stated>,
)
    requires place { view.now.at < length view.now.ports.now }
    requires rows { length view.now.ports.now < vec_capacity rows.old }
    requires room { length keys.now + vec_len stated.old ≤ vec_capacity stated.old }
    ensures { IfSome (slice_get view.now.ports.now view.now.at) (λ p. stated.new.items
        ≡ stated.old.items
        ++ map (stated_of view.now.at p.state (registrations_from view.now)) keys.now) }
{
    let port = view.port();
    for key in keys {
        let content = stated_at(rows, view, port, *key);
        stated.push_reserved(Stated { key: *key, content });
    }
}

// A key is declared with a content. Where it has no row there is room for one.
fn declare(part: &mut Participant<MsrpApp>, key: MsrpKey, content: MsrpContent)
    requires { missing_row key part.old.state ≤ part.old.spare }
    ensures state { part.new.state
        ≡ declared_state key_cmp same_content key content part.old.state }
    ensures spare { part.old.spare ≤ part.new.spare + missing_row key part.old.state }
{
    match part.declare(key, content) {
        Ok(()) => {}
        Err(_) => unreachable!(),
    }
}

// A key is declared with a content, or withdrawn where it has none. There is room for the row that
// comes.
fn settle_as(part: &mut Participant<MsrpApp>, key: MsrpKey, content: Option<MsrpContent>)
    requires { new_row key content part.old.state ≤ part.old.spare }
    ensures state { part.new.state ≡ settled_as key content part.old.state }
    ensures spare { part.old.spare ≤ part.new.spare + new_row key content part.old.state }
{
    match content {
        Some(content) => declare(part, key, content),
        None => part.withdraw(key),
    }
}

// Each of these keys is declared or withdrawn, in this order. There is room for the rows that come.
pub(crate) fn declare_all(part: &mut Participant<MsrpApp>, stated: &[Stated])
    requires { new_rows stated.now part.old.state ≤ part.old.spare }
    ensures { part.new.state ≡ stated_part stated.now part.old.state }
{
    for one in stated {
        settle_as(part, one.key, one.content);
    }
}
