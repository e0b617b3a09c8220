//! Both sides of the law of groups, in any network, and which groups are registered at a port.

ghost use Rattle.std.specs.Prelude.{◌≡◌, ◌++◌, ◌&&◌, slice_get, option_and_then, option_to_list, IfOk, OnOk};
ghost use Rattle.tree_topology.specs.{Topology.HasNode, Topology.HasPort, Walk.is_behind};
ghost use Rattle.mmrp.specs.Match.{IsAtRest, groups_at, is_joined_at, is_joined_behind, is_registered, registered_in, registered_mac};

use crate::app::MmrpApp;
use crate::laws::groups_are_those_joined_behind;
use crate::net::GroupNet;
use mrp_participant::Participant;
use srp_base::{EgressPort, Mac, NoMemory, NodeNo, Seq};
use std::alloc::Global;

/// The two sides of the law of groups at one port, for one MAC address. They are equal where the
/// network is at rest.
#[derive(Clone, Copy, PartialEq, Eq)]
pub struct GroupSides {
    /// The MAC address is registered at the port.
    pub found: bool,
    /// A station behind the port has joined it.
    pub expected: bool,
}

impl GroupNet {
    /// Whether a MAC address is registered at a port, its Registrar IN or LV, and whether a station
    /// behind the port has joined it (IEEE Std 802.1Q-2018, 10.12), each by its own definition in
    /// every network. The port exists.
    pub fn groups_match(&self, at: EgressPort, mac: Mac) -> GroupSides
        requires { HasPort self.now.tree at }
        ensures found { result.found ≡ is_registered self.now mac at }
        ensures expected { result.expected ≡ is_joined_behind self.now mac at }
        ensures at_rest { IsAtRest self.now → result.found ≡ result.expected }
    {
        groups_are_those_joined_behind();
        self.keeps();
        GroupSides {
            found: is_registered_at(self, at, mac),
            expected: is_joined_by_some(self, at, mac),
        }
    }

    /// The MAC addresses that are registered at a port, ascending. The port exists.
    pub fn groups(&self, at: EgressPort) -> Result<Seq<Mac>, NoMemory>
        requires { HasPort self.now.tree at }
        ensures { IfOk result (λ macs. macs ≡ groups_at self.now at) }
    {
        macs_of(self.allocator(), self.participant(at))
    }
}

// Whether a MAC address is registered at a port.
fn is_registered_at(net: &GroupNet, at: EgressPort, mac: Mac) -> bool
    requires { HasPort net.now.tree at }
    ensures { result ≡ is_registered net.now mac at }
{
    net.participant(at).registered(mac).is_some()
}

// Whether some station behind a port has joined a MAC address.
fn is_joined_by_some(net: &GroupNet, at: EgressPort, mac: Mac) -> bool
    requires { HasPort net.now.tree at }
    ensures { result ≡ is_joined_behind net.now mac at }
{
    for y in 0..net.tree().nodes() {
        if is_joined_there(net, at, mac, y + 1) {
            return true;
        }
    }
    false
}

// Whether a node lies behind a port, and is a station that has joined a MAC address.
fn is_joined_there(net: &GroupNet, at: EgressPort, mac: Mac, y: u16) -> bool
    requires port { HasPort net.now.tree at }
    requires node { HasNode net.now.tree y }
    ensures { result ≡ (is_behind net.now.tree.links at y && is_joined_at net.now mac y) }
{
    let number = NodeNo(y);
    net.tree().behind(at, number) && net.has_joined(number, mac)
}

// The MAC addresses that a participant has registered, ascending.
fn macs_of(alloc: Global, part: &Participant<MmrpApp>) -> Result<Seq<Mac>, NoMemory>
    ensures { IfOk result (λ macs. macs ≡ registered_in part.now.state) }
{
    let mut macs = Vec::new(alloc);
    push_macs(&mut macs, part)?;
    Ok(Seq::from_vec(macs))
}

// They go to the end of a list.
fn push_macs(macs: &mut Vec<Mac>, part: &Participant<MmrpApp>) -> Result<(), NoMemory>
    ensures { OnOk result (macs.new.items ≡ macs.old.items ++ registered_in part.now.state) }
{
    for i in 0..part.rows() {
        push_mac(macs, part, i)?;
    }
    Ok(())
}

// The MAC address of the row at a place goes to the end of a list, where it is registered.
fn push_mac(macs: &mut Vec<Mac>, part: &Participant<MmrpApp>, i: usize) -> Result<(), NoMemory>
    ensures { OnOk result (macs.new.items ≡ macs.old.items
        ++ option_to_list (option_and_then registered_mac (slice_get part.now.state.rows i))) }
{
    if let Some(mac) = mac_at(part, i) {
        macs.push(mac)?;
    }
    Ok(())
}

// The MAC address of the row at a place, where it is registered.
fn mac_at(part: &Participant<MmrpApp>, i: usize) -> Option<Mac>
    ensures { result ≡ option_and_then registered_mac (slice_get part.now.state.rows i) }
{
    let mac = part.key_at(i)?;
    let registrar = part.registrar_at(i)?;
    if registrar.is_registered() {
        Some(mac)
    } else {
        None
    }
}
