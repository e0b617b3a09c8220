//! What waits at a link port, and whether it has LeaveAll, or what is next sent there.

ghost use Rattle.std.specs.Prelude.{◌≡◌, ◌<◌, ◌^◌, length, slice_get, option_map, IfOk, IfSome};
ghost use Rattle.attribute_propagation.specs.Ports.{IsLinkPort, place_of};
ghost use Rattle.mvrp_codec.specs.Meaning.{mvrp_reading};
ghost use Rattle.msrp_codec.specs.Meaning.{msrp_reading};
ghost use Rattle.mrp_participant.specs.State.{is_active};
ghost use Rattle.node_core.specs.Leaving.{vlans_leave, streams_leave, has_leave_all, is_leave_all_at};
ghost use Rattle.node_core.specs.State.{ports_of, box_at};
ghost use Rattle.node_core.specs.Wires.{IsShort};

use crate::node::Node;
use crate::types::Wire;
use leaveall::LeaveAll;
use mrpdu_codec::DecodeErr;
use srp_base::{App, NoMemory, PortNo, Seq};
use std::alloc::Global;

impl Node {
    /// The PDUs that wait in a port's inbox, in order.
    pub fn waiting(&self, port: PortNo) -> Result<Seq<Wire>, NoMemory>
        requires { IsLinkPort port (ports_of self.now.state) }
        ensures { IfOk result (λ wires. wires ≡ box_at (place_of port) self.now.state.inboxes) }
    {
        let alloc = *self.inboxes.allocator();
        self.inboxes[usize::from(port.0) - 1].copied(alloc)
    }

    /// The PDU that waits first in a port's inbox, which the port's next `Work` takes; `None` where
    /// none waits. A PDU that waits has at most 1,500 octets. It takes no memory.
    pub fn front_pdu(&self, port: PortNo) -> Option<&Wire>
        requires { IsLinkPort port (ports_of self.now.state) }
        ensures front { option_map (λ w. w.now) result
            ≡ slice_get (box_at (place_of port) self.now.state.inboxes) 0 }
        ensures short { IfSome result (λ w. IsShort w.now) }
    {
        self.keeps();
        self.inboxes[usize::from(port.0) - 1].get(0)
    }

    /// The number of PDUs that are to go out at a port.
    pub fn outgoing_pdus(&self, port: PortNo) -> usize
        requires { IsLinkPort port (ports_of self.now.state) }
        ensures { result ≡ length (box_at (place_of port) self.now.state.outboxes) }
    {
        self.outboxes[usize::from(port.0) - 1].len()
    }

    /// Whether the LeaveAll machine of an application at a port is Active, so that the next PDU
    /// that it sends there has LeaveAll (IEEE Std 802.1Q-2018, 10.7.10).
    pub fn leaves_next(&self, port: PortNo, app: App) -> bool
        requires { IsLinkPort port (ports_of self.now.state) }
        ensures { result ≡ is_leave_all_at app (place_of port) self.now.state }
    {
        match app {
            App::Mvrp => is_on(self.mvrp.participant(port).leave_all()),
            App::Msrp => is_on(self.msrp.participant(port).leave_all()),
        }
    }
}

/// Whether what the octets of a PDU say has LeaveAll; malformed octets say nothing. There are fewer
/// than 2^32 octets, as each `decode` asks.
pub fn wire_leaves(alloc: Global, wire: &Wire) -> Result<bool, NoMemory>
    requires { length wire.now.octets < 2 ^ 32 }
    ensures { IfOk result (λ leaves. leaves ≡ has_leave_all wire.now) }
{
    match wire.app {
        App::Mvrp => vlans_leave_in(alloc, wire.octets.as_slice()),
        App::Msrp => streams_leave_in(alloc, wire.octets.as_slice()),
    }
}

// Whether a LeaveAll machine is Active.
fn is_on(machine: LeaveAll) -> bool
    ensures { result ≡ is_active machine }
{
    matches!(machine, LeaveAll::Active)
}

// Whether octets of MVRP have LeaveAll.
fn vlans_leave_in(alloc: Global, octets: &[u8]) -> Result<bool, NoMemory>
    requires { length octets.now < 2 ^ 32 }
    ensures { IfOk result (λ leaves. leaves ≡ vlans_leave (mvrp_reading octets.now)) }
{
    match mvrp_codec::decode(alloc, octets) {
        Ok(pdu) => Ok(pdu.leave_all),
        Err(DecodeErr::Malformed(_)) => Ok(false),
        Err(DecodeErr::NoMemory) => Err(NoMemory),
    }
}

// Whether octets of MSRP have LeaveAll.
fn streams_leave_in(alloc: Global, octets: &[u8]) -> Result<bool, NoMemory>
    requires { length octets.now < 2 ^ 32 }
    ensures { IfOk result (λ leaves. leaves ≡ streams_leave (msrp_reading octets.now)) }
{
    match msrp_codec::decode(alloc, octets) {
        Ok(pdu) => Ok(pdu.leave_all),
        Err(DecodeErr::Malformed(_)) => Ok(false),
        Err(DecodeErr::NoMemory) => Err(NoMemory),
    }
}
