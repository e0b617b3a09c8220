//! One step of a node.

ghost use Rattle.std.specs.Prelude.{◌+◌, ◌≡◌, ◌<◌, ◌^◌, true, false, IsOk, IfOk, OnOk, OnErr};
ghost use Rattle.std.specs.List.{list_any};
ghost use Rattle.attribute_propagation.specs.Ports.{IsLinkPort, place_of};
ghost use Rattle.mvrp.specs.Side.{requested_vlans};
ghost use Rattle.msrp.specs.Side.{requested_streams, shows_at};
ghost use Rattle.tree_topology.specs.declared.graph.NodeKind.TheVariants.{Station};
ghost use Rattle.node_core.specs.State.{ports_of, box_at};
ghost use Rattle.node_core.specs.Step.{CanStep, node_step, on_vlans, on_streams, port_step, after_asking, after_work, left_now, leave_all_now, periodic_now, fired_due, after_settling, after_send};

use crate::applications::{
    ask_srp, ask_vlan, due_of, go_on, leave_all_streams, leave_all_vlans, left_key, left_vid,
    make_ready, periodic_streams, periodic_vlans, put_out, settle_of, worked_on,
};
use crate::laws::every_step_keeps_a_node_proper;
use crate::node::Node;
use crate::types::{
    AppRequest, NodeEvent, NodeKey, PortStep, StepReply, srp_in_range, vid_in_range,
};
use msrp::SrpRequest;
use srp_base::{App, Cs, NoMemory, PortNo, Seq, Vid};
use std::mem;

impl Node {
    /// Makes one step, and answers what came of it. A port is a link port of the node, a request is
    /// made at a station, and the clock goes on from below 2^61. After want of memory, which a
    /// clock of a ready node doesn't meet, the node is as it was, in both applications. Each step
    /// ends the readiness.
    pub fn step(&mut self, event: NodeEvent) -> Result<StepReply, NoMemory>
        requires { CanStep event self.old.state }
        ensures ok { IfOk result (λ reply. node_step event self.old.state
            ≡ (self.new.state, reply)) }
        ensures err { OnErr result (self.new.state ≡ self.old.state) }
        ensures clock { event ≡ NodeEvent.Clock → self.old.ready ≡ true → IsOk result }
        ensures ready { self.new.ready ≡ false }
    {
        let reply = self.happen(event);
        self.ready = false;
        reply
    }

    /// Makes the node ready for the clock: afterwards a `Clock` takes no memory, and all else is as
    /// before. So the clocks of many nodes go on together or not at all: each is made ready before
    /// the first goes on. It takes memory only where the next clock shows something of a ledger,
    /// and the node isn't ready. Each step ends the readiness. After want of memory the state is as
    /// it was.
    pub fn clock_room(&mut self) -> Result<(), NoMemory>
        ensures state { self.new.state ≡ self.old.state }
        ensures ready { OnOk result (self.new.ready ≡ true) }
        ensures again { self.old.ready ≡ true → IsOk result }
        // Where the next clock shows nothing at any port, no memory is taken.
        ensures none { list_any (shows_at (self.old.state.clock.0 + 1)) self.old.state.streams.ports
            ≡ false → IsOk result }
    {
        make_ready(&mut self.msrp, Cs(self.clock.0 + 1))?;
        self.ready = true;
        Ok(())
    }

    // What happens at the node, which ends no readiness yet.
    fn happen(&mut self, event: NodeEvent) -> Result<StepReply, NoMemory>
        requires { CanStep event self.old.state }
        ensures ok { IfOk result (λ reply. node_step event self.old.state
            ≡ (self.new.state, reply)) }
        ensures err { OnErr result (self.new.state ≡ self.old.state) }
        ensures clock { event ≡ NodeEvent.Clock → self.old.ready ≡ true → IsOk result }
    {
        match event {
            NodeEvent::Request(request) => self.request(request),
            NodeEvent::Port(port, step) => self.port_step(port, step),
            NodeEvent::Clock => self.clock_step(),
        }
    }

    // The clock goes on, or there is no memory for it.
    fn clock_step(&mut self) -> Result<StepReply, NoMemory>
        requires { self.old.state.clock.0 < 2 ^ 61 }
        ensures ok { IfOk result (λ reply. node_step NodeEvent.Clock self.old.state
            ≡ (self.new.state, reply)) }
        ensures err { OnErr result (self.new.state ≡ self.old.state) }
        ensures room { self.old.ready ≡ true → IsOk result }
    {
        every_step_keeps_a_node_proper();
        let now = Cs(self.clock.0 + 1);
        go_on(&mut self.msrp, now)?;
        self.clock = now;
        Ok(StepReply::Taken)
    }

    // What the application of a station asks for.
    fn request(&mut self, request: AppRequest) -> Result<StepReply, NoMemory>
        requires { self.old.state.kind ≡ Station }
        ensures ok { IfOk result (λ reply. after_asking request self.old.state
            ≡ (self.new.state, reply)) }
        ensures err { OnErr result (self.new.state ≡ self.old.state) }
    {
        match request {
            AppRequest::Declare(vid) => self.ask_vlan(vid, true),
            AppRequest::Withdraw(vid) => self.ask_vlan(vid, false),
            AppRequest::Talk(talker) => self.ask_srp(SrpRequest::Talk(talker)),
            AppRequest::Hush(stream) => self.ask_srp(SrpRequest::Hush(stream)),
            AppRequest::Listen(stream) => self.ask_srp(SrpRequest::Listen(stream)),
            AppRequest::Unlisten(stream) => self.ask_srp(SrpRequest::Unlisten(stream)),
        }
    }

    // The application of a station declares a VID, or withdraws it.
    fn ask_vlan(&mut self, vid: Vid, declared: bool) -> Result<StepReply, NoMemory>
        requires { self.old.state.kind ≡ Station }
        ensures ok { IfOk result (λ reply. on_vlans self.old.state
            (requested_vlans vid declared self.old.state.vlans, StepReply.Taken)
            ≡ (self.new.state, reply)) }
        ensures err { OnErr result (self.new.state ≡ self.old.state) }
    {
        every_step_keeps_a_node_proper();
        vid_in_range(vid);
        ask_vlan(&mut self.mvrp, vid, declared)
    }

    // The application of a station asks MSRP for something.
    fn ask_srp(&mut self, request: SrpRequest) -> Result<StepReply, NoMemory>
        requires { self.old.state.kind ≡ Station }
        ensures ok { IfOk result (λ reply. on_streams self.old.state
            (requested_streams request self.old.state.streams, StepReply.Taken)
            ≡ (self.new.state, reply)) }
        ensures err { OnErr result (self.new.state ≡ self.old.state) }
    {
        every_step_keeps_a_node_proper();
        srp_in_range(&request);
        ask_srp(&mut self.msrp, request)
    }

    // A step of a link port.
    fn port_step(&mut self, port: PortNo, step: PortStep) -> Result<StepReply, NoMemory>
        requires { IsLinkPort port (ports_of self.old.state) }
        ensures ok { IfOk result (λ reply. port_step step (place_of port) self.old.state
            ≡ (self.new.state, reply)) }
        ensures err { OnErr result (self.new.state ≡ self.old.state) }
    {
        match step {
            PortStep::Work => self.work(port),
            PortStep::LeaveNow(key) => self.leave_now(port, key),
            PortStep::LeaveAllNow(app) => Ok(self.leave_all_now(port, app)),
            PortStep::PeriodicNow(app) => Ok(self.periodic_now(port, app)),
            PortStep::Due => self.due(port),
            PortStep::Settle => self.settle(port),
            PortStep::Send(app) => self.send(port, app),
        }
    }

    // Ends the leave timer of an attribute.
    fn leave_now(&mut self, port: PortNo, key: NodeKey) -> Result<StepReply, NoMemory>
        requires { IsLinkPort port (ports_of self.old.state) }
        ensures ok { IfOk result (λ reply. left_now key (place_of port) self.old.state
            ≡ (self.new.state, reply)) }
        ensures err { OnErr result (self.new.state ≡ self.old.state) }
    {
        every_step_keeps_a_node_proper();
        match key {
            NodeKey::Vlan(vid) => left_vid(&mut self.mvrp, port, vid),
            NodeKey::Srp(key) => left_key(&mut self.msrp, port, key),
        }
    }

    // Fires the LeaveAll timer of an application.
    fn leave_all_now(&mut self, port: PortNo, app: App) -> StepReply
        requires { IsLinkPort port (ports_of self.old.state) }
        ensures { leave_all_now app (place_of port) self.old.state ≡ (self.new.state, result) }
    {
        every_step_keeps_a_node_proper();
        match app {
            App::Mvrp => leave_all_vlans(&mut self.mvrp, self.clock, port),
            App::Msrp => leave_all_streams(&mut self.msrp, self.clock, port),
        }
    }

    // Fires the periodic timer of an application.
    fn periodic_now(&mut self, port: PortNo, app: App) -> StepReply
        requires { IsLinkPort port (ports_of self.old.state) }
        ensures { periodic_now app (place_of port) self.old.state ≡ (self.new.state, result) }
    {
        every_step_keeps_a_node_proper();
        match app {
            App::Mvrp => periodic_vlans(&mut self.mvrp, port),
            App::Msrp => periodic_streams(&mut self.msrp, port),
        }
    }

    // Fires all timers of both applications that are due at a port.
    fn due(&mut self, port: PortNo) -> Result<StepReply, NoMemory>
        requires { IsLinkPort port (ports_of self.old.state) }
        ensures ok { IfOk result (λ reply. fired_due (place_of port) self.old.state
            ≡ (self.new.state, reply)) }
        ensures err { OnErr result (self.new.state ≡ self.old.state) }
    {
        every_step_keeps_a_node_proper();
        due_of(&mut self.mvrp, &mut self.msrp, self.clock, port)
    }

    // Settles what awaits at a port, of both applications.
    fn settle(&mut self, port: PortNo) -> Result<StepReply, NoMemory>
        requires { IsLinkPort port (ports_of self.old.state) }
        ensures ok { IfOk result (λ reply. after_settling (place_of port) self.old.state
            ≡ (self.new.state, reply)) }
        ensures err { OnErr result (self.new.state ≡ self.old.state) }
    {
        every_step_keeps_a_node_proper();
        settle_of(&mut self.mvrp, &mut self.msrp, self.clock, port)
    }

    // Takes the front PDU of a port's inbox.
    fn work(&mut self, port: PortNo) -> Result<StepReply, NoMemory>
        requires { IsLinkPort port (ports_of self.old.state) }
        ensures ok { IfOk result
            (λ reply. after_work (place_of port)
            (box_at (place_of port) self.old.state.inboxes) self.old.state
            ≡ (self.new.state, reply)) }
        ensures err { OnErr result (self.new.state ≡ self.old.state) }
    {
        let at = usize::from(port.0) - 1;
        if self.inboxes[at].is_empty() {
            return Ok(StepReply::Nothing);
        }
        every_step_keeps_a_node_proper();
        let reply = worked_on(
            &mut self.mvrp,
            &mut self.msrp,
            self.clock,
            port,
            self.inboxes[at].at(0),
        )?;
        self.inboxes[at].remove(0);
        Ok(reply)
    }

    // Sends what an application has to say at a port.
    fn send(&mut self, port: PortNo, app: App) -> Result<StepReply, NoMemory>
        requires { IsLinkPort port (ports_of self.old.state) }
        ensures ok { IfOk result (λ reply. after_send app (place_of port) self.old.state
            ≡ (self.new.state, reply)) }
        ensures err { OnErr result (self.new.state ≡ self.old.state) }
    {
        every_step_keeps_a_node_proper();
        let alloc = *self.inboxes.allocator();
        let at = usize::from(port.0) - 1;
        let mut outbox = mem::replace(&mut self.outboxes[at], Seq::new(alloc)).into_vec();
        let reply = put_out(
            &mut self.mvrp,
            &mut self.msrp,
            app,
            self.clock,
            port,
            &mut outbox,
        );
        self.outboxes[at] = Seq::from_vec(outbox);
        reply
    }
}
