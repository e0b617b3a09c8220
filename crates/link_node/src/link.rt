//! A node stands in a network: what happens at its link ports.

ghost use Rattle.std.specs.Prelude.{◌≡◌, ◌≤◌, ◌++◌, length, IfErr, OnOk, OnErr};
ghost use Rattle.attribute_propagation.specs.Ports.{IsLinkPort, place_of};
ghost use Rattle.link_net.specs.Meaning.{with_one};
ghost use Rattle.link_node.specs.Boxes.{box_at};
ghost use Rattle.link_node.specs.State.{state_of as node_of, with_inbox, with_outbox};

use crate::boxes::{
    all_gone, all_taken, append_at, empty_at, fill_at, inbox_at, insert_at, lose_at, place,
    repeat_at,
};
use crate::node::Node;
use crate::steps::{PortStep, StepReply};
use crate::work::{fire, leave, leave_all, periodic, settle};
use link_app::{LinkApp, Wire};
use link_net::LinkNode;
use srp_base::{Cs, NoMemory, PortNo, Seq};

impl<A: LinkApp> LinkNode for Node<A> {
    ghost use Rattle.link_node.specs.State.{state_of};
    ghost use Rattle.link_node.specs.Meaning.{node_meaning};

    type Name = A::Name;

    type Step = PortStep<A::Name, A::Key>;

    type Reply = StepReply;

    type Request = A::Request;

    type Pdu = Wire<A::Name>;

    ghost meaning = { node_meaning A.words };

    ghost state = { λ node. state_of A.state node };

    ghost is_ready = { λ node. A.IsReadyForClock node.app };

    fn step(
        &mut self,
        now: Cs,
        port: PortNo,
        step: PortStep<A::Name, A::Key>,
    ) -> Result<StepReply, NoMemory> {
        match step {
            PortStep::Work => self.work(now, port),
            PortStep::LeaveNow(key) => leave(&mut self.app, port, key),
            PortStep::LeaveAllNow(app) => {
                leave_all(&mut self.app, app, now, port);
                Ok(StepReply::Fired(1))
            }
            PortStep::PeriodicNow(app) => {
                periodic(&mut self.app, app, port);
                Ok(StepReply::Fired(1))
            }
            PortStep::Due => fire(&mut self.app, now, port),
            PortStep::Settle => settle(&mut self.app, port),
            PortStep::Send(app) => self.send(app, now, port),
        }
    }

    fn ask(&mut self, request: A::Request) -> Result<StepReply, NoMemory> {
        A::laws();
        self.app.request(request)?;
        Ok(StepReply::Taken)
    }

    fn make_ready(&mut self) -> Result<(), NoMemory> {
        self.app.clock_room()
    }

    fn tick(&mut self, now: Cs) {
        A::laws();
        match self.app.clock(now) {
            Ok(()) => {}
            Err(_) => unreachable!(),
        }
    }

    fn pending(&self, port: PortNo) -> usize {
        inbox_at(self.inboxes.as_slice(), place(port)).len()
    }

    fn name_at(&self, port: PortNo, index: usize) -> Option<A::Name> {
        match inbox_at(self.inboxes.as_slice(), place(port)).get(index) {
            Some(pdu) => Some(pdu.app()),
            None => None,
        }
    }

    fn lose(&mut self, port: PortNo, index: usize) {
        lose_at(&mut self.inboxes, place(port), index);
    }

    fn repeat(&mut self, port: PortNo, index: usize) -> Result<(), NoMemory> {
        repeat_at(&mut self.inboxes, place(port), index)
    }

    fn forge(&mut self, port: PortNo, index: usize, pdu: Wire<A::Name>) -> Result<(), NoMemory>
        requires port { IsLinkPort port (A.words.ports_of (A.state self.old.app)) }
        requires reaches { index ≤ length (box_at (place_of port) self.old.inboxes) }
        ensures ok { OnOk result (node_of A.state self.new
            ≡ with_inbox (place_of port)
            (with_one index pdu (box_at (place_of port) self.old.inboxes))
            (node_of A.state self.old)) }
        ensures err { OnErr result (node_of A.state self.new ≡ node_of A.state self.old) }
    {
        insert_at(&mut self.inboxes, place(port), index, pdu)
    }

    fn spoil(&mut self, port: PortNo, name: A::Name) {
        A::laws();
        self.app.spoil(name, port);
    }

    fn take_out(&mut self, port: PortNo) -> Seq<Wire<A::Name>> {
        empty_at(&mut self.outboxes, place(port))
    }

    fn put_in(
        &mut self,
        port: PortNo,
        pdus: Seq<Wire<A::Name>>,
    ) -> Result<(), (NoMemory, Seq<Wire<A::Name>>)>
        requires { IsLinkPort port (A.words.ports_of (A.state self.old.app)) }
        ensures ok { OnOk result (node_of A.state self.new
            ≡ with_inbox (place_of port) (box_at (place_of port) self.old.inboxes ++ pdus)
            (node_of A.state self.old)) }
        ensures err { OnErr result (node_of A.state self.new ≡ node_of A.state self.old) }
        ensures back { IfErr result (λ e. e.1 ≡ pdus) }
    {
        append_at(&mut self.inboxes, place(port), pdus)
    }

    fn put_back(&mut self, port: PortNo, pdus: Seq<Wire<A::Name>>)
        requires { IsLinkPort port (A.words.ports_of (A.state self.old.app)) }
        ensures { node_of A.state self.new
            ≡ with_outbox (place_of port) pdus (node_of A.state self.old) }
    {
        fill_at(&mut self.outboxes, place(port), pdus);
    }

    fn is_still(&self) -> bool {
        all_taken(self.inboxes.as_slice()) && all_gone(self.outboxes.as_slice()) && self.app.still()
    }

    fn is_sound(&self) -> bool {
        self.app.all_sound()
    }

    fn is_busy(&self, now: Cs) -> bool {
        !all_taken(self.inboxes.as_slice()) || self.app.is_busy(now)
    }

    fn name_of(pdu: &Wire<A::Name>) -> A::Name {
        pdu.app()
    }

    fn keeps_request(request: A::Request) {
        A::keeps_request(request);
    }

    fn keeps_pdu(pdu: &Wire<A::Name>) {
        A::keeps_octets(pdu.app(), pdu.octets());
    }

    fn keeps_laws() {
        A::laws();
    }
}
