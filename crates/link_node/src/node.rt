//! A node over any application at its link ports.

ghost use Rattle.std.specs.Prelude.{◌≡◌, ◌<◌, ◌^◌, IfOk, OnErr};
ghost use Rattle.attribute_propagation.specs.Ports.{IsLinkPort, place_of};
ghost use Rattle.link_node.specs.Boxes.{box_at};
ghost use Rattle.link_node.specs.State.{new_node, state_of};
ghost use Rattle.link_node.specs.Step.{after_work, sent_octets};

use crate::boxes::{empty_at, fill_at, inbox_at, lose_at, new_inboxes, new_outboxes, place};
use crate::inbox::Inbox;
use crate::steps::StepReply;
use crate::work::{say, take};
use link_app::{LinkApp, Wire};
use srp_base::{Cs, NoMemory, PortNo, Seq};
use std::alloc::Global;
use std::marker::Model;

/// A node: an application at its link ports, and at each port an inbox and an outbox. Contracts see
/// a `NodeState`, with the application as contracts see that; what they say is of its state.
#[derive(Drop)]
pub struct Node<A: LinkApp> {
    pub(crate) app: A,
    pub(crate) inboxes: Vec<Inbox<A::Name>>,
    pub(crate) outboxes: Vec<Seq<Wire<A::Name>>>,
}

impl<A: LinkApp> Model for Node<A> {
    ghost use Rattle.link_node.specs.State.{NodeState, HasBoxes};

    ghost Value = { NodeState A A.Name };

    ghost view = { λ n. record {
      app = n.app;
      inboxes = n.inboxes.items;
      outboxes = n.outboxes.items;
    } };

    ghost invariant = { λ n. HasBoxes {App = A} {Name = A.Name} (A.words.ports_of (A.state n.app))
        (record { app = n.app; inboxes = n.inboxes.items; outboxes = n.outboxes.items }) };
}

impl<A: LinkApp> Node<A> {
    /// A node with this application, at whose link ports no PDU waits.
    pub fn new(alloc: Global, app: A) -> Result<Node<A>, NoMemory>
        ensures { IfOk result (λ node. state_of A.state node
            ≡ new_node A.words (A.state app)) }
    {
        let ports = app.ports();
        let inboxes = new_inboxes(alloc, ports)?;
        let outboxes = new_outboxes(alloc, ports)?;
        Ok(Node {
            app,
            inboxes,
            outboxes,
        })
    }

    /// The application.
    pub fn app(&self) -> &A
        ensures { result.now ≡ self.now.app }
    {
        &self.app
    }

    /// The number of link ports.
    pub fn ports(&self) -> usize
        ensures { result ≡ A.words.ports_of (A.state self.now.app) }
    {
        self.app.ports()
    }

    // Takes the front PDU of a port's inbox.
    pub(crate) fn work(&mut self, now: Cs, port: PortNo) -> Result<StepReply, NoMemory>
        requires now { now.0 < 2 ^ 62 }
        requires port { IsLinkPort port (A.words.ports_of (A.state self.old.app)) }
        ensures ok { IfOk result (λ reply. after_work A.words now (place_of port)
            (box_at (place_of port) self.old.inboxes) (state_of A.state self.old)
            ≡ (state_of A.state self.new, reply)) }
        ensures err { OnErr result (state_of A.state self.new ≡ state_of A.state self.old) }
    {
        let at = place(port);
        let reply = match inbox_at(self.inboxes.as_slice(), at).get(0) {
            None => return Ok(StepReply::Nothing),
            Some(pdu) => take(&mut self.app, now, port, pdu)?,
        };
        lose_at(&mut self.inboxes, at, 0);
        Ok(reply)
    }

    // Sends what an application has to say at a port.
    pub(crate) fn send(
        &mut self,
        app: A::Name,
        now: Cs,
        port: PortNo,
    ) -> Result<StepReply, NoMemory>
        requires now { now.0 < 2 ^ 62 }
        requires port { IsLinkPort port (A.words.ports_of (A.state self.old.app)) }
        ensures ok { IfOk result (λ reply. sent_octets A.words app now (place_of port)
            (A.words.octets_to_say app now (place_of port) (A.state self.old.app))
            (state_of A.state self.old)
            ≡ (state_of A.state self.new, reply)) }
        ensures err { OnErr result (state_of A.state self.new ≡ state_of A.state self.old) }
    {
        let at = place(port);
        let mut outbox = empty_at(&mut self.outboxes, at).into_vec();
        let reply = say(&mut self.app, app, now, port, &mut outbox);
        fill_at(&mut self.outboxes, at, Seq::from_vec(outbox));
        reply
    }
}
