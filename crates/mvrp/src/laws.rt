//! What MVRP at a node keeps at each call, and what it sends: laws over the states that contracts
//! see. Each is a function that does nothing; calling it brings the law to a proof.

ghost use Rattle.std.specs.Prelude.{◌≡◌, ℕ, Bool, false, List};
ghost use Rattle.std.specs.Ordering.{nat_cmp};
ghost use Rattle.srp_base.specs.declared.{numbers.Cs.Cs, ports.PortSetup.PortSetup};
ghost use Rattle.mvrp_codec.specs.declared.pdu.MvrpPdu.{MvrpPdu};
ghost use Rattle.mvrp_codec.specs.Writing.{AreVids, mvrp_spelling};
ghost use Rattle.mrp_participant.specs.State.{AreRows, is_silent};
ghost use Rattle.mvrp.specs.Part.{Part, pdu_sent};
ghost use Rattle.mvrp.specs.Side.{Vlans, IsWritten, new_vlans, received_vlans, due_vlans, left_vlans, leave_all_vlans, periodic_vlans, spoilt_vlans, settled_vlans, sent_vlans, requested_vlans};
ghost use Rattle.mvrp.specs.Vids.{IsVid, HasVidRows, IsProper};

use crate::app::MvrpApp;
use flat_side::laws as of_flat;
use mvrp_codec::what_is_written_is_read;

/// A new side keeps what every side keeps, of VIDs alone.
pub fn a_new_side_is_proper()
    ensures { (leave_time : Cs) (periodic : Bool) (ports : List PortSetup)
        → IsProper (new_vlans leave_time periodic ports) }
{
    of_flat::a_new_side_is_proper::<MvrpApp>();
}

/// Each call on a port keeps it.
pub fn every_call_keeps_a_side_proper()
    ensures receive { (now : Cs) (at : ℕ) (pdu : MvrpPdu) (side : Vlans)
        → AreVids pdu.events → IsProper side → IsProper (received_vlans now at pdu side) }
    ensures due { (now : Cs) (at : ℕ) (side : Vlans) → IsProper side
        → IsProper (due_vlans now at side) }
    ensures leave_now { (at vid : ℕ) (side : Vlans) → IsProper side
        → IsProper (left_vlans at vid side) }
    ensures leaveall_now { (now : Cs) (at : ℕ) (side : Vlans) → IsProper side
        → IsProper (leave_all_vlans now at side) }
    ensures periodic_now { (at : ℕ) (side : Vlans) → IsProper side
        → IsProper (periodic_vlans at side) }
    ensures spoil { (at : ℕ) (side : Vlans) → IsProper side → IsProper (spoilt_vlans at side) }
    ensures send { (now : Cs) (at : ℕ) (side : Vlans) → IsProper side
        → IsProper (sent_vlans now at side) }
{
    of_flat::every_call_keeps_a_side_proper::<MvrpApp>();
}

/// So do settling, and a request of the application that names a VID.
pub fn settling_and_requests_keep_a_side_proper()
    ensures settle { (at : ℕ) (side : Vlans) → IsProper side → IsProper (settled_vlans at side) }
    ensures request { (vid : ℕ) (declared : Bool) (side : Vlans)
        → IsVid vid → IsProper side → IsProper (requested_vlans vid declared side) }
{
    of_flat::settling_and_requests_keep_a_side_proper::<MvrpApp>();
}

/// What a participant sends, where it isn't silent, is written in octets that read as it, at most
/// 1,500.
pub fn what_is_sent_is_read()
    ensures { (now : Cs) (s : Part) → AreRows nat_cmp s.rows → HasVidRows s → is_silent s ≡ false
        → IsWritten (pdu_sent now s) (mvrp_spelling (pdu_sent now s)) }
{
    of_flat::what_is_sent_can_be_written::<MvrpApp>();
    what_is_written_is_read();
}
