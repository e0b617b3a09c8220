//! Which streams are booked at the port at an end of a link.

ghost use Rattle.std.specs.Prelude.{◌≡◌, [], slice_get, option_to_list, Some, IfOk, OnOk};
ghost use Rattle.std.specs.Option.{option_map_or};
ghost use Rattle.attribute_propagation.specs.Dirty.{all_marked};
ghost use Rattle.link_replay.specs.BothWays.{way_of};
ghost use Rattle.msrp.specs.Part.{listener_kind_of};
ghost use Rattle.msrp.specs.Stream.{is_ready as is_ready_spec};
ghost use Rattle.replay_words.specs.Bookings.{booking_cmp, booking_in as booking_in_spec, asked_by as asked_by_spec, booked_at, row_booked, bookings_of as bookings_of_spec};

use crate::apps::Streams;
use attribute_propagation::Dirty;
use link_replay::{End, LinkWatch};
use msrp_codec::{MsrpContent, MsrpKey};
use msrp_talker::class_of;
use srp_base::{Class, ListenerKind, NoMemory, StreamId, Talker};
use std::alloc::Global;
use stream_importance::slope_of;

/// What a stream takes of a port. Bookings are ordered by StreamID first.
#[derive(Clone, Copy, PartialEq, Eq, PartialOrd, Ord)]
pub struct Booking {
    /// The stream.
    pub stream: StreamId,
    /// Its SR class.
    pub class: Class,
    /// Its bandwidth, in bit/s.
    pub slope: u64,
}

/// The bookings of the ports at both ends.
#[derive(Drop)]
pub(crate) struct Booked {
    pub(crate) a: Dirty<Booking>,
    pub(crate) b: Dirty<Booking>,
}

/// The bookings of the port at an end.
#[tactic(auto, unfolding(crate::specs::Bookings::bookings_of))]
pub(crate) fn bookings_of(
    alloc: Global,
    who: End,
    watch: &LinkWatch<Streams>,
) -> Result<Dirty<Booking>, NoMemory>
    ensures { IfOk result (λ set. set.keys ≡ bookings_of_spec who watch.now.ways) }
{
    let mut set = Dirty::new(alloc);
    for i in 0..watch.rows(who) {
        mark_row(&mut set, who, watch, i)?;
    }
    Ok(set)
}

// Puts the booking of the row at a place in, where its stream is booked.
#[tactic(auto, using(crate::proofs::BookingLemmas::by_key))]
fn mark_row(
    set: &mut Dirty<Booking>,
    who: End,
    watch: &LinkWatch<Streams>,
    i: usize,
) -> Result<(), NoMemory>
    ensures { OnOk result (set.new.keys ≡ all_marked booking_cmp
        (option_map_or (row_booked watch.now.ways who)
        (slice_get (way_of who watch.now.ways).observer.rows i) []) set.old.keys) }
{
    match watch.key_at(who, i) {
        Some(key) => mark_key(set, who, watch, key),
        None => Ok(()),
    }
}

// Puts the booking of a key in, where its stream is booked.
#[tactic(auto, unfolding(crate::specs::Bookings::booked_at))]
fn mark_key(
    set: &mut Dirty<Booking>,
    who: End,
    watch: &LinkWatch<Streams>,
    key: MsrpKey,
) -> Result<(), NoMemory>
    ensures { OnOk result (set.new.keys
        ≡ all_marked booking_cmp (booked_at watch.now.ways who key) set.old.keys) }
{
    match key {
        MsrpKey::Talker(stream) => mark_stream(set, who, watch, stream),
        MsrpKey::Listener(_) => Ok(()),
        MsrpKey::Domain(_) => Ok(()),
    }
}

// Puts the booking of a stream in, where it is booked.
#[tactic(auto, unfolding(crate::specs::Bookings::booked_at))]
fn mark_stream(
    set: &mut Dirty<Booking>,
    who: End,
    watch: &LinkWatch<Streams>,
    stream: StreamId,
) -> Result<(), NoMemory>
    ensures { OnOk result (set.new.keys
        ≡ all_marked booking_cmp (booked_at watch.now.ways who (MsrpKey.Talker stream)) set.old.keys) }
{
    if !is_ready(watch.registered(who.other(), MsrpKey::Listener(stream))) {
        return Ok(());
    }
    match asked_by(watch.registered(who, MsrpKey::Talker(stream))) {
        Some(booking) => set.mark(booking),
        None => Ok(()),
    }
}

// Whether Listeners by what stands of them can have the stream: Ready or Ready Failed.
fn is_ready(content: Option<MsrpContent>) -> bool
    ensures { result ≡ is_ready_spec (listener_kind_of content) }
{
    match content {
        Some(MsrpContent::Listener(kind)) => is_ready_kind(kind),
        Some(MsrpContent::Advertise(_)) => false,
        Some(MsrpContent::Failed(_, _)) => false,
        Some(MsrpContent::Domain { .. }) => false,
        None => false,
    }
}

fn is_ready_kind(kind: ListenerKind) -> bool
    ensures { result ≡ is_ready_spec (Some kind) }
{
    match kind {
        ListenerKind::AskingFailed => false,
        ListenerKind::Ready | ListenerKind::ReadyFailed => true,
    }
}

// What a Talker Advertise asks of a port, where its priority has an SR class.
fn asked_by(content: Option<MsrpContent>) -> Option<Booking>
    ensures { option_to_list result ≡ asked_by_spec content }
{
    match content {
        Some(MsrpContent::Advertise(talker)) => asked_by_talker(&talker),
        Some(MsrpContent::Failed(_, _)) => None,
        Some(MsrpContent::Listener(_)) => None,
        Some(MsrpContent::Domain { .. }) => None,
        None => None,
    }
}

// What a Talker asks of a port, where its priority has an SR class.
fn asked_by_talker(talker: &Talker) -> Option<Booking>
    ensures { option_to_list result ≡ asked_by_spec (Some (MsrpContent.Advertise talker.now)) }
{
    class_of(talker.priority.get()).map(|class| booking_in(talker, class))
}

// What a Talker asks of a port in a class.
fn booking_in(talker: &Talker, class: Class) -> Booking
    ensures { result ≡ booking_in_spec talker.now class }
{
    Booking {
        stream: talker.stream,
        class,
        slope: slope_of(class, talker.max_frame, talker.frames),
    }
}
