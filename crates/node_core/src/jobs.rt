//! What a link port has to do in one tick.

ghost use Rattle.std.specs.Prelude.{◌≡◌, ◌++◌, ◌∷◌, [], None, IfOk, if◌then◌else◌};
ghost use Rattle.attribute_propagation.specs.Ports.{IsLinkPort, place_of};
ghost use Rattle.node_core.specs.declared.types.PortStep.TheVariants.{Due, Settle, Send};
ghost use Rattle.srp_base.specs.declared.mrp.App.TheVariants.{Mvrp, Msrp};
ghost use Rattle.node_core.specs.State.{ports_of, is_at_rest, is_busy_at, is_busy_node, is_sending_time, works, job_list};

use crate::inbox::{Inbox, all_taken};
use crate::node::Node;
use crate::types::{NodeKey, PortStep};
use srp_base::{App, Cs, NoMemory, PortNo, Seq};
use std::alloc::{AllocError, Global};

impl Node {
    /// The steps of a link port in one tick. Where the node is busy, that is where a PDU came in at
    /// some port, a timer is due or an attribute awaits: a Work for each PDU in the port's inbox,
    /// Due and Settle. At moments divisible by JoinTime, of any node, a Send of each application
    /// follows.
    pub fn jobs(&self, port: PortNo) -> Result<Seq<PortStep>, NoMemory>
        requires { IsLinkPort port (ports_of self.now.state) }
        ensures { IfOk result (λ steps. steps ≡ job_list (place_of port) self.now.state) }
    {
        let alloc = *self.inboxes.allocator();
        let inbox = &self.inboxes[usize::from(port.0) - 1];
        let steps = steps_where(alloc, self.is_busy(), inbox)?;
        Ok(with_send(steps, is_sending_time(self.clock))?)
    }

    /// Whether the node is busy: a PDU came in at some port, a timer is due there, or an attribute
    /// awaits.
    pub fn is_busy(&self) -> bool
        ensures { result ≡ is_busy_node self.now.state }
    {
        self.is_busy_at(self.clock)
    }

    /// Whether the node is at rest up to a moment, in cs: it isn't busy then, and at no port a want
    /// that isn't booked may fit otherwise once the clock goes on. So it has nothing to do but send
    /// up to then, unless something happens to it.
    pub fn is_at_rest(&self, until: Cs) -> bool
        ensures { result ≡ is_at_rest until self.now.state }
    {
        !self.is_busy_at(until) && !self.msrp.clock_shows(Cs(self.clock.0 + 1))
    }

    // Whether the node is busy at a moment.
    fn is_busy_at(&self, now: Cs) -> bool
        ensures { result ≡ is_busy_at now self.now.state }
    {
        !all_taken(self.inboxes.as_slice()) || self.mvrp.is_busy(now) || self.msrp.is_busy(now)
    }
}

/// JoinTime, in cs: the time between two moments at which each application sends (IEEE Std
/// 802.1Q-2018, 10.7.11).
pub const JOIN_TIME: u64 = 20;

/// Whether each application sends at a moment.
pub fn is_sending_time(now: Cs) -> bool
    ensures { result ≡ is_sending_time now }
{
    now.0 % JOIN_TIME == 0
}

/// No attribute. A function that makes a list of steps has to have a value of a step's key beside
/// it, so that the check finds where that type stands; it begins with this.
pub fn no_key() -> Option<NodeKey>
    ensures { result ≡ None }
{
    None
}

// Where the node is busy, a Work for each PDU of an inbox, Due and Settle.
fn steps_where(alloc: Global, is_busy: bool, inbox: &Inbox) -> Result<Vec<PortStep>, AllocError>
    ensures { IfOk result (λ v. v.items
        ≡ (if is_busy then works inbox.now ++ (Due ∷ Settle ∷ []) else [])) }
{
    if is_busy {
        busy_steps(alloc, inbox)
    } else {
        Ok(Vec::new(alloc))
    }
}

// A Work for each PDU of an inbox, Due and Settle.
fn busy_steps(alloc: Global, inbox: &Inbox) -> Result<Vec<PortStep>, AllocError>
    ensures { IfOk result (λ v. v.items ≡ works inbox.now ++ (Due ∷ Settle ∷ [])) }
{
    let _ = no_key();
    let mut steps = inbox.works(alloc)?;
    steps.push(PortStep::Due)?;
    steps.push(PortStep::Settle)?;
    Ok(steps)
}

// These steps, and at a moment of sending a Send of each application.
fn with_send(steps: Vec<PortStep>, is_time: bool) -> Result<Seq<PortStep>, AllocError>
    ensures { IfOk result (λ all. all ≡ steps.items
        ++ (if is_time then Send Mvrp ∷ Send Msrp ∷ [] else [])) }
{
    let _ = no_key();
    let mut steps = steps;
    if is_time {
        steps.push(PortStep::Send(App::Mvrp))?;
        steps.push(PortStep::Send(App::Msrp))?;
    }
    Ok(Seq::from_vec(steps))
}
