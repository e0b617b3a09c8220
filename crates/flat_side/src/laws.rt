//! What a flat side keeps at each call, and what it sends: laws over the states that contracts see.
//! Each is a function that does nothing; calling it brings the law to a proof.

ghost use Rattle.std.specs.Prelude.{◌≡◌, ℕ, Bool, false, List};
ghost use Rattle.srp_base.specs.declared.{mrp.MrpEvent.MrpEvent, numbers.Cs.Cs, ports.PortSetup.PortSetup};
ghost use Rattle.mrp_participant.specs.State.{AreRows, is_active, is_silent, sent_events};
ghost use Rattle.flat_side.specs.Part.{Part, key_events};
ghost use Rattle.flat_side.specs.Codec.{IsFitting};
ghost use Rattle.flat_side.specs.Side.{FlatState, IsKept, new_flat, received_flat, due_flat, left_flat, leave_all_flat, periodic_flat, spoilt_flat, settled_flat, sent_flat, requested_flat};
ghost use Rattle.flat_side.specs.Keys.{AreOfKeys, HasKeyRows, IsProper};

use crate::app::FlatApp;
use attribute_propagation::laws::{each_key_awaits, each_port_is_told, keys_stay_ascending};
use mrp_participant::laws::{
    a_row_where_something_is_kept, declarations_stay, due_tells_each_change, each_key_after_due,
    each_key_after_periodic, each_key_after_receive, each_key_after_send, one_key_changes,
    receive_tells_each_change, registrations_stay, rows_stay_rows, told_keys_ascend,
    what_is_asked_holds, what_is_sent_is_a_pdu, what_is_sent_is_declared,
};

/// A new side keeps what every side keeps, of the application's keys alone.
pub fn a_new_side_is_proper<A: FlatApp>()
    ensures { (leave_time : Cs) (periodic : Bool) (ports : List PortSetup)
        → IsProper A.Key.cmp A.is_key (new_flat leave_time periodic ports) }
{
    each_port_is_told::<A::Key>();
}

/// What each call leaves keeps what every side keeps.
pub(crate) fn every_call_keeps_a_side<A: FlatApp>()
    ensures receive { (now : Cs) (at : ℕ) (leave_all : Bool) (events : List (MrpEvent × A.Key))
        (side : FlatState A.Key) → IsKept A.Key.cmp side
        → IsKept A.Key.cmp (received_flat A.Key.cmp now at leave_all events side) }
    ensures due { (now : Cs) (at : ℕ) (side : FlatState A.Key) → IsKept A.Key.cmp side
        → IsKept A.Key.cmp (due_flat A.Key.cmp now at side) }
    ensures leave_now { (at : ℕ) (key : A.Key) (side : FlatState A.Key) → IsKept A.Key.cmp side
        → IsKept A.Key.cmp (left_flat A.Key.cmp at key side) }
    ensures leaveall_now { (now : Cs) (at : ℕ) (side : FlatState A.Key) → IsKept A.Key.cmp side
        → IsKept A.Key.cmp (leave_all_flat now at side) }
    ensures periodic_now { (at : ℕ) (side : FlatState A.Key) → IsKept A.Key.cmp side
        → IsKept A.Key.cmp (periodic_flat at side) }
    ensures spoil { (at : ℕ) (side : FlatState A.Key) → IsKept A.Key.cmp side
        → IsKept A.Key.cmp (spoilt_flat at side) }
    ensures send { (now : Cs) (at : ℕ) (side : FlatState A.Key) → IsKept A.Key.cmp side
        → IsKept A.Key.cmp (sent_flat A.Key.cmp A.base A.octets now at side) }
    ensures settle { (at : ℕ) (side : FlatState A.Key) → IsKept A.Key.cmp side
        → IsKept A.Key.cmp (settled_flat A.Key.cmp at side) }
    ensures request { (key : A.Key) (declared : Bool) (side : FlatState A.Key)
        → IsKept A.Key.cmp side
        → IsKept A.Key.cmp (requested_flat A.Key.cmp key declared side) }
{
    each_key_awaits::<A::Key>();
    each_port_is_told::<A::Key>();
    keys_stay_ascending::<A::Key>();
    rows_stay_rows::<A>();
    declarations_stay::<A>();
    registrations_stay::<A>();
    receive_tells_each_change::<A>();
    due_tells_each_change::<A>();
    what_is_asked_holds::<A>();
}

/// Each call on a port keeps it, a received PDU where its events are of such keys.
pub fn every_call_keeps_a_side_proper<A: FlatApp>()
    ensures receive { (now : Cs) (at : ℕ) (leave_all : Bool) (events : List (MrpEvent × A.Key))
        (side : FlatState A.Key) → AreOfKeys A.is_key events
        → IsProper A.Key.cmp A.is_key side
        → IsProper A.Key.cmp A.is_key (received_flat A.Key.cmp now at leave_all events side) }
    ensures due { (now : Cs) (at : ℕ) (side : FlatState A.Key)
        → IsProper A.Key.cmp A.is_key side
        → IsProper A.Key.cmp A.is_key (due_flat A.Key.cmp now at side) }
    ensures leave_now { (at : ℕ) (key : A.Key) (side : FlatState A.Key)
        → IsProper A.Key.cmp A.is_key side
        → IsProper A.Key.cmp A.is_key (left_flat A.Key.cmp at key side) }
    ensures leaveall_now { (now : Cs) (at : ℕ) (side : FlatState A.Key)
        → IsProper A.Key.cmp A.is_key side
        → IsProper A.Key.cmp A.is_key (leave_all_flat now at side) }
    ensures periodic_now { (at : ℕ) (side : FlatState A.Key)
        → IsProper A.Key.cmp A.is_key side
        → IsProper A.Key.cmp A.is_key (periodic_flat at side) }
    ensures spoil { (at : ℕ) (side : FlatState A.Key)
        → IsProper A.Key.cmp A.is_key side
        → IsProper A.Key.cmp A.is_key (spoilt_flat at side) }
    ensures send { (now : Cs) (at : ℕ) (side : FlatState A.Key)
        → IsProper A.Key.cmp A.is_key side
        → IsProper A.Key.cmp A.is_key (sent_flat A.Key.cmp A.base A.octets now at side) }
{
    each_port_is_told::<A::Key>();
    rows_stay_rows::<A>();
    declarations_stay::<A>();
    registrations_stay::<A>();
    receive_tells_each_change::<A>();
    due_tells_each_change::<A>();
    told_keys_ascend::<A>();
    a_row_where_something_is_kept::<A>();
    each_key_after_receive::<A>();
    each_key_after_due::<A>();
    each_key_after_periodic::<A>();
    each_key_after_send::<A>();
    one_key_changes::<A>();
    what_is_asked_holds::<A>();
}

/// So do settling, and a request of the application that names one of its keys.
pub fn settling_and_requests_keep_a_side_proper<A: FlatApp>()
    ensures settle { (at : ℕ) (side : FlatState A.Key)
        → IsProper A.Key.cmp A.is_key side
        → IsProper A.Key.cmp A.is_key (settled_flat A.Key.cmp at side) }
    ensures request { (key : A.Key) (declared : Bool) (side : FlatState A.Key)
        → A.is_key key
        → IsProper A.Key.cmp A.is_key side
        → IsProper A.Key.cmp A.is_key (requested_flat A.Key.cmp key declared side) }
{
    each_key_awaits::<A::Key>();
    each_port_is_told::<A::Key>();
    keys_stay_ascending::<A::Key>();
    rows_stay_rows::<A>();
    registrations_stay::<A>();
    one_key_changes::<A>();
    what_is_asked_holds::<A>();
}

/// What a participant sends, where it isn't silent, can be written, and is of the application's
/// keys.
pub fn what_is_sent_can_be_written<A: FlatApp>()
    ensures fitting { (now : Cs) (s : Part A.Key) → AreRows A.Key.cmp s.rows
        → is_silent s ≡ false
        → IsFitting A.base (A.octets tt) (is_active s.leave_all)
        (key_events (sent_events A.base A.octets A.Key.cmp now s)) }
    ensures keys { (now : Cs) (s : Part A.Key) → AreRows A.Key.cmp s.rows
        → HasKeyRows A.Key.cmp A.is_key s
        → AreOfKeys A.is_key (key_events (sent_events A.base A.octets A.Key.cmp now s)) }
{
    each_port_is_told::<A::Key>();
    what_is_sent_is_a_pdu::<A>();
    what_is_sent_is_declared::<A>();
}
