//! The PDUs that wait at a link port: what comes in, what goes out, what is lost, what comes twice,
//! and what is forged.

ghost use Rattle.std.specs.Prelude.{◌≡◌, ◌<◌, ◌≤◌, ◌++◌, [], if◌then◌else◌, length, OnOk, OnErr, IfErr, IfOk};
ghost use Rattle.attribute_propagation.specs.Ports.{IsLinkPort, place_of};
ghost use Rattle.node_core.specs.State.{ports_of, box_at};
ghost use Rattle.node_core.specs.Wires.{IsShort, AreShort, without, with_wire};
ghost use Rattle.node_core.specs.Proper.{AreProperWires};
ghost use Rattle.node_core.specs.Links.{with_outbox, with_carried, has_index, has_place, lost_at, repeated_at, forged_at, spoilt_at};
ghost use Rattle.mrp_participant.specs.Link.{with_repeat};

use crate::applications::{spoil_streams, spoil_vlans};
use crate::laws::{links_keep_a_node_proper, octets_say_what_fits};
use crate::node::Node;
use crate::types::Wire;
use srp_base::{App, NoMemory, PortNo, Seq};
use std::mem;

impl Node {
    /// The PDUs of a port's outbox, which is empty afterwards. It takes no memory.
    pub fn take_out(&mut self, port: PortNo) -> Seq<Wire>
        requires { IsLinkPort port (ports_of self.old.state) }
        ensures taken { result ≡ box_at (place_of port) self.old.state.outboxes }
        ensures short { AreShort result }
        ensures after { self.new.state ≡ with_outbox (place_of port) [] self.old.state }
    {
        links_keep_a_node_proper();
        let alloc = *self.inboxes.allocator();
        let at = usize::from(port.0) - 1;
        mem::replace(&mut self.outboxes[at], Seq::new(alloc))
    }

    /// Puts PDUs of at most 1,500 octets behind those of a port's inbox. After want of memory the
    /// node is as it was, and the PDUs are handed back.
    pub fn put_in(&mut self, port: PortNo, wires: Seq<Wire>) -> Result<(), (NoMemory, Seq<Wire>)>
        requires port { IsLinkPort port (ports_of self.old.state) }
        requires short { AreShort wires }
        ensures ok { OnOk result (self.new.state
            ≡ with_carried (place_of port) wires self.old.state) }
        ensures err { OnErr result (self.new.state ≡ self.old.state) }
        ensures back { IfErr result (λ e. e.1 ≡ wires) }
    {
        links_keep_a_node_proper();
        each_says_what_fits(wires.as_slice());
        self.inboxes[usize::from(port.0) - 1].append(wires)
    }

    /// Makes these PDUs of at most 1,500 octets a port's outbox, which was empty. It takes no
    /// memory.
    pub fn put_back(&mut self, port: PortNo, wires: Seq<Wire>)
        requires port { IsLinkPort port (ports_of self.old.state) }
        requires short { AreShort wires }
        requires empty { box_at (place_of port) self.old.state.outboxes ≡ [] }
        ensures { self.new.state ≡ with_outbox (place_of port) wires self.old.state }
    {
        links_keep_a_node_proper();
        each_says_what_fits(wires.as_slice());
        let at = usize::from(port.0) - 1;
        self.outboxes[at] = wires;
    }

    /// Loses the PDU with this index from a port's inbox, counted from 0. False exactly where no
    /// PDU has it; then nothing changes.
    pub fn lose(&mut self, port: PortNo, index: u32) -> bool
        requires { IsLinkPort port (ports_of self.old.state) }
        ensures done { result ≡ has_index (place_of port) index self.old.state }
        ensures after { self.new.state
            ≡ (if result then lost_at (place_of port) index self.old.state else self.old.state) }
    {
        let at = usize::from(port.0) - 1;
        if self.inboxes[at].len() <= index as usize {
            return false;
        }
        links_keep_a_node_proper();
        self.inboxes[at].remove(index as usize);
        true
    }

    /// Puts a copy of the PDU with this index in a port's inbox right behind it. False exactly
    /// where no PDU has the index; then nothing changes.
    pub fn repeat(&mut self, port: PortNo, index: u32) -> Result<bool, NoMemory>
        requires { IsLinkPort port (ports_of self.old.state) }
        ensures done { IfOk result (λ done. done ≡ has_index (place_of port) index self.old.state) }
        ensures after { IfOk result (λ done. self.new.state
            ≡ (if done then repeated_at (place_of port) index self.old.state else self.old.state)) }
        ensures err { OnErr result (self.new.state ≡ self.old.state) }
    {
        let at = usize::from(port.0) - 1;
        if self.inboxes[at].len() <= index as usize {
            return Ok(false);
        }
        links_keep_a_node_proper();
        let alloc = *self.inboxes.allocator();
        self.inboxes[at].repeat(alloc, index as usize)?;
        Ok(true)
    }

    /// Puts a PDU of at most 1,500 octets that no neighbour sent at the place of this index in a
    /// port's inbox, counted from 0; those from there on come behind it. It stands for a device
    /// that doesn't run MRP as this node does, or for a frame that was corrupted and passed its
    /// check. False exactly where the index is above the number of PDUs that wait; then nothing
    /// changes.
    pub fn forge(&mut self, port: PortNo, index: u32, wire: Wire) -> Result<bool, NoMemory>
        requires port { IsLinkPort port (ports_of self.old.state) }
        requires short { IsShort wire }
        ensures done { IfOk result (λ done. done ≡ has_place (place_of port) index self.old.state) }
        ensures after { IfOk result (λ done. self.new.state
            ≡ (if done then forged_at (place_of port) index wire self.old.state
            else self.old.state)) }
        ensures err { OnErr result (self.new.state ≡ self.old.state) }
    {
        let at = usize::from(port.0) - 1;
        if self.inboxes[at].len() < index as usize {
            return Ok(false);
        }
        links_keep_a_node_proper();
        octets_say_what_fits();
        wire.keeps();
        self.inboxes[at].insert(index as usize, wire)?;
        Ok(true)
    }

    /// Ends the soundness of an application's participant at a port, as after a loss on its link.
    /// It takes no memory.
    pub fn spoil(&mut self, port: PortNo, app: App)
        requires { IsLinkPort port (ports_of self.old.state) }
        ensures { self.new.state ≡ spoilt_at app (place_of port) self.old.state }
    {
        links_keep_a_node_proper();
        match app {
            App::Mvrp => spoil_vlans(&mut self.mvrp, port),
            App::Msrp => spoil_streams(&mut self.msrp, port),
        }
    }
}

// What each of these PDUs says fits: it is of octets.
fn each_says_what_fits(wires: &[Wire])
    ensures { AreProperWires wires.now }
{
    octets_say_what_fits();
    for wire in wires {
        wire.keeps();
    }
}
