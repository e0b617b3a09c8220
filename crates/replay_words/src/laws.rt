//! Laws of replays. Each is a function that does nothing; calling it brings the law to a proof.

ghost use Rattle.std.specs.Prelude.{◌≡◌, ◌↔◌, ◌≤◌, ◌++◌, ℕ, Bool, true, if◌then◌else◌, List, [], flat_map, Option, Ok};
ghost use Rattle.srp_base.specs.declared.numbers.Cs.{Cs};
ghost use Rattle.capture_file.specs.Packets.{Packet};
ghost use Rattle.stream_importance.specs.declared.slope.Caps.{Caps};
ghost use Rattle.attribute_propagation.specs.Dirty.{IsAscending, is_awaiting};
ghost use Rattle.link_replay.specs.declared.lines.End.{End};
ghost use Rattle.replay_words.specs.Bookings.{StreamWays, booking_cmp, bookings_of, has_new, caps_text, changes_text};
ghost use Rattle.replay_words.specs.Changes.{IsBookedFor, change_line, after_changes, changes_to, packets_changes};
ghost use Rattle.replay_words.specs.CoreLink.{Pairs, LinkTick, HaveSaidNothing, AreCaptured, frames_of, HasNoBrokenWords, PrintsNoneBroken};
ghost use Rattle.replay_words.specs.Ends.{ends_of};
ghost use Rattle.replay_words.specs.Printed.{PrintsChanges, run_changes};
ghost use Rattle.replay_words.specs.Replay.{after_run, capture_text};
ghost use Rattle.replay_words.specs.Seen.{LinkSeen, new_seen, after_packet, after_packets, packets_text};

use crate::apps::{Groups, Streams, Vlans};
use crate::booking::Booking;
use crate::ends::Ends;
use crate::head::Head;
use attribute_propagation::laws::{each_key_awaits, keys_stay_ascending};
use link_replay::laws::a_replay_follows_a_run;
use mrp_participant::laws::each_key_in_what_is_sent;
use msrp_codec::laws::{
    each_key_keeps_its_event, reading_is_the_grammar, the_order_of_types_is_a_permutation,
    what_is_read_belongs_to_its_keys,
};
use srp_base::{Cs, StreamId};

/// A replay goes on where it stopped: what is printed of frames and of more behind them is what is
/// printed of the first, and then of the others from what was seen of the first.
pub fn a_replay_goes_on()
    ensures text { (caps : Caps) (ends : Ends) (s : LinkSeen) (packets more : List Packet)
        → packets_text caps ends s (packets ++ more)
        ≡ packets_text caps ends s packets
        ++ packets_text caps ends (after_packets ends s packets) more }
    ensures seen { (ends : Ends) (s : LinkSeen) (packets more : List Packet)
        → after_packets ends s (packets ++ more)
        ≡ after_packets ends (after_packets ends s packets) more }
{}

/// From frame to frame the moment never falls.
pub fn moments_never_fall()
    ensures { (ends : Ends) (s : LinkSeen) (packet : Packet)
        → s.at.0 ≤ (after_packet ends s packet).at.0 }
{}

/// What two nodes of this project say over a link is never broken: from a tick on before which they
/// have said nothing they go by ticks of 1 cs, by the capture's clock, whatever is asked for at
/// either and in whichever of the ticks each application of either sends, and all that they send is
/// captured, of each application in each tick either end first, with other frames between or not.
/// Then nothing is counted as broken, neither a word on a registrar nor a Talker that is declared
/// twice; behind no tick a line says that a word is; and what is printed ends with `broken 0`.
pub fn what_this_core_sends_is_never_broken()
    ensures counted { (ends : Ends) (leave_time first : Cs) (pairs : Pairs)
        (ticks : List LinkTick)
        → 1 ≤ leave_time.0
        → HaveSaidNothing leave_time pairs
        → AreCaptured ends first pairs ticks
        → (after_run ends (new_seen leave_time) (frames_of ticks)).counts.broken ≡ 0 }
    ensures words { (ends : Ends) (leave_time first : Cs) (pairs : Pairs)
        (ticks : List LinkTick)
        → 1 ≤ leave_time.0
        → HaveSaidNothing leave_time pairs
        → AreCaptured ends first pairs ticks
        → HasNoBrokenWords (after_packets ends (new_seen leave_time) (frames_of ticks)) }
    ensures printed { (head : Head) (first : Cs) (pairs : Pairs) (ticks : List LinkTick)
        (broken_off : Option ℕ)
        → 1 ≤ head.leave_time.0
        → HaveSaidNothing head.leave_time pairs
        → AreCaptured (ends_of head.ends (frames_of ticks)) first pairs ticks
        → PrintsNoneBroken (capture_text head (Ok (frames_of ticks, broken_off))) }
{
    a_replay_follows_a_run::<Vlans>();
    a_replay_follows_a_run::<Streams>();
    a_replay_follows_a_run::<Groups>();
    each_key_awaits::<Cs>();
    each_key_awaits::<StreamId>();
    each_key_in_what_is_sent::<Streams>();
    each_key_keeps_its_event();
    the_order_of_types_is_a_permutation();
    reading_is_the_grammar();
    what_is_read_belongs_to_its_keys();
}

/// A booking is in the set of those of a port exactly where it is one of a stream whose Talker
/// Advertise stands at the other end and a Listener Ready or Ready Failed of which stands at this
/// one; and the set has each once.
pub fn what_is_booked_stands()
    ensures booked { (who : End) (ways : StreamWays) (booking : Booking)
        → (is_awaiting booking_cmp booking (bookings_of who ways) ≡ true)
        ↔ IsBookedFor who ways booking }
    ensures once { (who : End) (ways : StreamWays)
        → IsAscending booking_cmp (bookings_of who ways) }
{
    each_key_awaits::<Booking>();
    keys_stay_ascending::<Booking>();
}

/// The lines `booked` and `dropped` tell what is booked: in a text of changes they are those of
/// what is gone and of what is new, in front of the caps that are passed. All that is printed is
/// lines, of which those of a port's bookings tell just its changes, in order: of frames, and of a
/// whole capture those too that come with what is on its way behind the last frame. Who begins with
/// what is booked at a port, and keeps a ledger by these lines, has behind every frame and at the
/// end exactly what is booked there.
pub fn the_lines_tell_the_bookings()
    ensures lines { (at : Cs) (who : End) (caps : Caps) (before after : List Booking)
        → changes_text at who caps before after
        ≡ flat_map (change_line at who) (changes_to before after)
        ++ (if has_new before after then caps_text at who caps after else []) }
    ensures ledger { (who : End) (ends : Ends) (s : LinkSeen) (packets : List Packet)
        (booking : Booking)
        → is_awaiting booking_cmp booking (after_changes (bookings_of who s.watched.streams.ways)
        (packets_changes who ends s packets))
        ≡ is_awaiting booking_cmp booking
        (bookings_of who (after_packets ends s packets).watched.streams.ways) }
    ensures ledger_at_the_end { (who : End) (ends : Ends) (s : LinkSeen) (packets : List Packet)
        (booking : Booking)
        → is_awaiting booking_cmp booking (after_changes (bookings_of who s.watched.streams.ways)
        (run_changes ends s packets who))
        ≡ is_awaiting booking_cmp booking
        (bookings_of who (after_run ends s packets).watched.streams.ways) }
    ensures frames { (caps : Caps) (ends : Ends) (s : LinkSeen) (packets : List Packet)
        → PrintsChanges (packets_text caps ends s packets)
        (λ who. packets_changes who ends s packets) }
    ensures print { (head : Head) (packets : List Packet) (broken_off : Option ℕ)
        → PrintsChanges (capture_text head (Ok (packets, broken_off)))
        (run_changes (ends_of head.ends packets) (new_seen head.leave_time) packets) }
{
    each_key_awaits::<Booking>();
}
