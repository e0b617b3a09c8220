//! What settling a port does to the keys that await, what MSRP at a node keeps at each call, and
//! what it sends: laws over the states that contracts see. Each is a function that does nothing;
//! calling it brings the law to a proof.

ghost use Rattle.std.specs.Prelude.{◌≡◌, ◌≢◌, ◌⊎◌, ◌↔◌, ◌||◌, ◌<◌, ◌≤◌, ◌^◌, ℕ, suc, Bool, true, false, List, [], length, slice_get, Some, None};
ghost use Rattle.std.specs.List.{AllByRecursion};
ghost use Rattle.srp_base.specs.declared.{numbers.BridgeId.BridgeId, numbers.Cs.Cs, bandwidth.Class.Class, numbers.StreamId.StreamId, ports.PortSetup.PortSetup, streams.Talker.Talker, streams.TalkerReg.TalkerReg, streams.TalkerReg.TheVariants.Advertise, streams.TalkerReg.TheVariants.Failed};
ghost use Rattle.attribute_propagation.specs.{Dirty.is_awaiting, Ports.marked_everywhere};
ghost use Rattle.mrp_participant.specs.{Lookup.Ascends, Lookup.same, State.AreRows, State.is_silent, State.registered_at};
ghost use Rattle.msrp_codec.specs.declared.{pdu.MsrpKey.MsrpKey, pdu.MsrpPdu.MsrpPdu};
ghost use Rattle.msrp_codec.specs.{Content.Belongs, Writing.AreInRange, Writing.as_written, Writing.msrp_spelling, Writing.of_key};
ghost use Rattle.msrp.specs.declared.asking.SrpRequest.{SrpRequest};
ghost use Rattle.msrp_talker.specs.TalkerOut.{check_of, delayed_by};
ghost use Rattle.msrp.specs.declared.domain.DomainSet.{DomainSet};
ghost use Rattle.msrp.specs.declared.domain.DomainSet.TheVariants.{Off};
ghost use Rattle.msrp.specs.PortState.{PortState};
ghost use Rattle.msrp.specs.Part.{HasOwnContents, Part, key_cmp, pdu_sent};
ghost use Rattle.msrp.specs.Domain.{are_counted, domain_content, domain_key, domain_part, domain_stated, has_class, is_boundary, is_edge};
ghost use Rattle.msrp.specs.Stream.{edge_at, first_talker, is_talker_port, talker_at, wanted_at};
ghost use Rattle.msrp.specs.Settling.{all_keys_with, listener_keys, moved_streams, told_sets};
ghost use Rattle.msrp.specs.Side.{IsKept, IsWritten, Streams, awaiting_at, clocked_streams, due_streams, leave_all_streams, left_streams, new_streams, periodic_streams, received_streams, requested_streams, sent_streams, settled_streams, spoilt_streams};
ghost use Rattle.msrp.specs.Proper.{HasRanges, IsProper, IsRequestInRange, setups_of};

use crate::app::MsrpApp;
use attribute_propagation::laws::{each_key_awaits, each_port_is_told};
use mrp_participant::laws::{
    a_place_for_each_key, declarations_stay, due_tells_each_change, each_key_after_due,
    each_key_after_periodic, each_key_after_receive, each_key_after_send, each_key_in_what_is_sent,
    one_key_changes, receive_tells_each_change, registrations_stay, rows_stay_rows,
    what_is_asked_holds, what_is_sent_is_a_pdu, what_is_sent_is_declared,
};
use msrp_codec::MsrpKey;
use msrp_codec::laws::{each_key_keeps_its_event, stated_octets_suffice, what_is_written_is_read};
use port_ledger::laws::{
    every_step_keeps_a_book, fits_stay, nothing_changed_where_both_lists_are_empty,
    other_wants_stay, what_has_not_moved_is_booked_as_before,
};
use srp_base::StreamId;

/// Settling a port once leaves nothing awaiting there. At each other port it leaves what awaits,
/// and adds exactly the Listener keys of the streams that it booked or dropped; of the ports it
/// changes its own alone.
pub fn one_settling_is_enough()
    ensures here { (at : ℕ) (side : Streams) (port : PortState)
        → slice_get side.ports at ≡ Some port
        → awaiting_at at (settled_streams at side) ≡ [] }
    ensures elsewhere { (at other : ℕ) (side : Streams) (before after : PortState) (key : MsrpKey)
        → slice_get side.ports at ≡ Some before
        → slice_get (settled_streams at side).ports at ≡ Some after
        → at ≢ other → other < length side.awaiting
        → is_awaiting key_cmp key (awaiting_at other (settled_streams at side))
        ≡ (is_awaiting key_cmp key (listener_keys (moved_streams before.ledger after.ledger))
        || is_awaiting key_cmp key (awaiting_at other side)) }
    ensures ports { (at other : ℕ) (side : Streams)
        → at ≢ other
        → slice_get (settled_streams at side).ports other ≡ slice_get side.ports other }
{
    each_port_is_told::<MsrpKey>();
}

/// A new side keeps what every side keeps, and all of it fits in the fields in which it is sent.
pub fn a_new_side_is_proper()
    ensures { (bridge : BridgeId) (leave_time : Cs) (periodic : Bool) (domain : DomainSet)
        (ports : List PortSetup)
        → bridge.0 < 2 ^ 64 → IsProper (new_streams bridge leave_time periodic domain ports) }
{
    every_step_keeps_a_book();
}

// What every side keeps, each call keeps, where what is received is of its keys.
pub(crate) fn every_call_keeps_a_side()
    ensures receive { (now : Cs) (at : ℕ) (pdu : MsrpPdu) (side : Streams)
        → AllByRecursion (λ e. Belongs e.1 e.2) pdu.events
        → IsKept side → IsKept (received_streams now at pdu side) }
    ensures due { (now : Cs) (at : ℕ) (side : Streams) → IsKept side
        → IsKept (due_streams now at side) }
    ensures leave_now { (at : ℕ) (key : MsrpKey) (side : Streams) → IsKept side
        → IsKept (left_streams at key side) }
    ensures leaveall_now { (now : Cs) (at : ℕ) (side : Streams) → IsKept side
        → IsKept (leave_all_streams now at side) }
    ensures periodic_now { (at : ℕ) (side : Streams) → IsKept side
        → IsKept (periodic_streams at side) }
    ensures spoil { (at : ℕ) (side : Streams) → IsKept side → IsKept (spoilt_streams at side) }
    ensures send { (now : Cs) (at : ℕ) (side : Streams) → IsKept side
        → IsKept (sent_streams now at side) }
    ensures clock { (now : ℕ) (side : Streams) → side.moment ≤ now
        → IsKept side → IsKept (clocked_streams now side) }
{
    each_port_is_told::<MsrpKey>();
    a_place_for_each_key::<MsrpApp>();
    rows_stay_rows::<MsrpApp>();
    declarations_stay::<MsrpApp>();
    registrations_stay::<MsrpApp>();
    receive_tells_each_change::<MsrpApp>();
    due_tells_each_change::<MsrpApp>();
    each_key_after_receive::<MsrpApp>();
    each_key_after_due::<MsrpApp>();
    each_key_after_periodic::<MsrpApp>();
    each_key_after_send::<MsrpApp>();
    one_key_changes::<MsrpApp>();
    what_is_asked_holds::<MsrpApp>();
    every_step_keeps_a_book();
    fits_stay();
}

/// Each call on a port keeps it, where what is received is of its keys and fits.
pub fn every_call_keeps_a_side_proper()
    ensures receive { (now : Cs) (at : ℕ) (pdu : MsrpPdu) (side : Streams)
        → AllByRecursion (λ e. Belongs e.1 e.2) pdu.events → AreInRange pdu.events
        → IsProper side → IsProper (received_streams now at pdu side) }
    ensures due { (now : Cs) (at : ℕ) (side : Streams) → IsProper side
        → IsProper (due_streams now at side) }
    ensures leave_now { (at : ℕ) (key : MsrpKey) (side : Streams) → IsProper side
        → IsProper (left_streams at key side) }
    ensures leaveall_now { (now : Cs) (at : ℕ) (side : Streams) → IsProper side
        → IsProper (leave_all_streams now at side) }
    ensures periodic_now { (at : ℕ) (side : Streams) → IsProper side
        → IsProper (periodic_streams at side) }
    ensures spoil { (at : ℕ) (side : Streams) → IsProper side → IsProper (spoilt_streams at side) }
    ensures send { (now : Cs) (at : ℕ) (side : Streams) → IsProper side
        → IsProper (sent_streams now at side) }
{
    each_port_is_told::<MsrpKey>();
    a_place_for_each_key::<MsrpApp>();
    rows_stay_rows::<MsrpApp>();
    declarations_stay::<MsrpApp>();
    registrations_stay::<MsrpApp>();
    receive_tells_each_change::<MsrpApp>();
    due_tells_each_change::<MsrpApp>();
    each_key_after_receive::<MsrpApp>();
    each_key_after_due::<MsrpApp>();
    each_key_after_periodic::<MsrpApp>();
    each_key_after_send::<MsrpApp>();
    one_key_changes::<MsrpApp>();
    what_is_asked_holds::<MsrpApp>();
}

/// So do settling, a request of the application whose Talker fits, and a clock that doesn't go
/// back.
pub fn settling_and_requests_keep_a_side_proper()
    ensures settle { (at : ℕ) (side : Streams) → IsProper side
        → IsProper (settled_streams at side) }
    ensures request { (request : SrpRequest) (side : Streams) → IsRequestInRange request
        → IsProper side → IsProper (requested_streams request side) }
    ensures clock { (now : ℕ) (side : Streams) → side.moment ≤ now
        → IsProper side → IsProper (clocked_streams now side) }
{
    each_port_is_told::<MsrpKey>();
    each_key_awaits::<StreamId>();
    a_place_for_each_key::<MsrpApp>();
    rows_stay_rows::<MsrpApp>();
    registrations_stay::<MsrpApp>();
    one_key_changes::<MsrpApp>();
    what_is_asked_holds::<MsrpApp>();
    every_step_keeps_a_book();
    other_wants_stay();
    fits_stay();
    nothing_changed_where_both_lists_are_empty();
    what_has_not_moved_is_booked_as_before();
}

/// What a participant sends, where it isn't silent, is written in octets that read as it, its
/// events in the order of types, at most 1,500. The keys of its events ascend strictly, and what is
/// read has of each key the same one event, or none; each event is of its key and fits.
pub fn what_is_sent_is_read()
    ensures written { (now : Cs) (s : Part) → AreRows key_cmp s.rows → HasOwnContents s
        → HasRanges s → is_silent s ≡ false
        → IsWritten (pdu_sent now s) (msrp_spelling (pdu_sent now s)) }
    ensures ascending { (now : Cs) (s : Part) → AreRows key_cmp s.rows
        → Ascends key_cmp (λ e. e.1) (pdu_sent now s).events }
    ensures one { (now : Cs) (s : Part) (key : MsrpKey) → AreRows key_cmp s.rows
        → length (of_key (λ k. same key_cmp k key) (pdu_sent now s).events) ≤ 1 }
    ensures each_key { (now : Cs) (s : Part) (key : MsrpKey) → AreRows key_cmp s.rows
        → of_key (λ k. same key_cmp k key) (as_written (pdu_sent now s)).events
        ≡ of_key (λ k. same key_cmp k key) (pdu_sent now s).events }
    ensures belong { (now : Cs) (s : Part) → AreRows key_cmp s.rows → HasOwnContents s
        → AllByRecursion (λ e. Belongs e.1 e.2) (as_written (pdu_sent now s)).events }
    ensures in_range { (now : Cs) (s : Part) → AreRows key_cmp s.rows → HasRanges s
        → AreInRange (as_written (pdu_sent now s)).events }
{
    what_is_sent_is_a_pdu::<MsrpApp>();
    what_is_sent_is_declared::<MsrpApp>();
    each_key_in_what_is_sent::<MsrpApp>();
    each_key_keeps_its_event();
    what_is_written_is_read();
    stated_octets_suffice();
}

/// Every call keeps the link ports and how they are set up, so also their number.
pub fn calls_keep_the_ports()
    ensures receive { (now : Cs) (at : ℕ) (pdu : MsrpPdu) (side : Streams)
        → setups_of (received_streams now at pdu side) ≡ setups_of side }
    ensures due { (now : Cs) (at : ℕ) (side : Streams)
        → setups_of (due_streams now at side) ≡ setups_of side }
    ensures leave_now { (at : ℕ) (key : MsrpKey) (side : Streams)
        → setups_of (left_streams at key side) ≡ setups_of side }
    ensures leaveall_now { (now : Cs) (at : ℕ) (side : Streams)
        → setups_of (leave_all_streams now at side) ≡ setups_of side }
    ensures periodic_now { (at : ℕ) (side : Streams)
        → setups_of (periodic_streams at side) ≡ setups_of side }
    ensures spoil { (at : ℕ) (side : Streams) → setups_of (spoilt_streams at side)
        ≡ setups_of side }
    ensures send { (now : Cs) (at : ℕ) (side : Streams)
        → setups_of (sent_streams now at side) ≡ setups_of side }
    ensures settle { (at : ℕ) (side : Streams)
        → setups_of (settled_streams at side) ≡ setups_of side }
    ensures request { (request : SrpRequest) (side : Streams)
        → setups_of (requested_streams request side) ≡ setups_of side }
    ensures clock { (now : ℕ) (side : Streams)
        → setups_of (clocked_streams now side) ≡ setups_of side }
    ensures count { (a b : Streams) → setups_of a ≡ setups_of b → length a.ports ≡ length b.ports }
{}

/// A port is at the boundary of a class's SRP domain exactly where Domains are heeded, and its node
/// doesn't declare the Domain value of the class, or something else than that very value is
/// registered there, or nothing.
pub fn a_boundary_lacks_the_domain_value()
    ensures { (domain : DomainSet) (s : Part) (class : Class)
        → (is_boundary domain s class ≡ true)
        ↔ ((are_counted domain ≡ true) × ((has_class domain class ≡ false)
        ⊎ (registered_at key_cmp (domain_key class) s ≢ Some (domain_content class)))) }
{}

/// At the boundary of the domain of its class no stream is wanted, and an advertised Talker that
/// each port could serve is declared failed, with this bridge and code 8.
pub fn a_boundary_serves_no_stream()
    ensures wanted { (at : ℕ) (port : PortState) (talkers : List TalkerReg) (stream : StreamId)
        → edge_at port talkers ≡ true → wanted_at at port talkers stream ≡ None }
    ensures refused { (at : ℕ) (port : PortState) (talkers : List TalkerReg) (talker : Talker)
        → edge_at port talkers ≡ true → is_talker_port (suc at) talkers ≡ false
        → first_talker talkers ≡ Advertise talker → check_of talker ≡ None
        → talker_at at port talkers ≡ Failed (delayed_by port.config.latency talker)
        (record { bridge = port.config.bridge; code = 8 }) }
{}

/// Where Domains are off a port is at no boundary, declares none, and one that is told makes no
/// more await than if there were none.
pub fn domains_that_are_off_are_nothing()
    ensures boundary { (s : Part) (reg : TalkerReg) → is_edge Off s reg ≡ false }
    ensures made { (s : Part) → domain_part Off s ≡ s }
    ensures stated { (id : ℕ) → domain_stated Off id ≡ None }
    ensures told { (at : ℕ) (told known : List MsrpKey) (sets : List (List MsrpKey))
        → told_sets at Off told known sets
        ≡ marked_everywhere key_cmp (all_keys_with told) sets }
{}
