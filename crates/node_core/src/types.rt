//! What happens at a node, and what it answers.

ghost use Rattle.std.specs.Prelude.{◌≡◌};
ghost use Rattle.msrp_codec.specs.FirstValue.{IsTalker};
ghost use Rattle.mrpdu_codec.specs.Octets.{AreOctets};
ghost use Rattle.msrp.specs.Proper.{IsRequestInRange};
ghost use Rattle.mvrp.specs.Vids.{IsVid};
ghost use Rattle.node_core.specs.Proper.{AsksInRange};
ghost use Rattle.node_core.specs.Step.{key_of_step};

use mrpdu_codec::are_octets;
use msrp::SrpRequest;
use msrp_codec::MsrpKey;
use srp_base::{App, PortNo, Seq, StreamId, Talker, Vid};

/// A PDU on a link: the application that it belongs to, and its octets.
#[derive(Clone, PartialEq, Eq, Drop)]
pub struct Wire {
    pub app: App,
    pub octets: Seq<u8>,
}

impl Wire {
    /// What every PDU keeps by its type: each of its octets is below 256. It is a law, and does
    /// nothing.
    pub fn keeps(&self)
        ensures { AreOctets self.now.octets }
    {
        are_octets(self.octets.as_slice())
    }
}

/// What the application of a station asks for.
#[derive(Clone, Copy, PartialEq, Eq)]
pub enum AppRequest {
    /// It declares a VID (IEEE Std 802.1Q-2018, 11.2.3.2).
    Declare(Vid),
    /// It withdraws a VID.
    Withdraw(Vid),
    /// It talks a stream, as this Talker states it (IEEE Std 802.1Q-2018, 35.2.3.1). A Talker takes
    /// the place of another of its stream.
    Talk(Talker),
    /// It talks a stream no more.
    Hush(StreamId),
    /// It listens to a stream.
    Listen(StreamId),
    /// It listens to a stream no more.
    Unlisten(StreamId),
}

impl AppRequest {
    /// What every request keeps by its type: its VID is one (IEEE Std 802.1Q-2018, 9.6), and its
    /// Talker's numbers fit in their fields (35.2.2.8). It is a law, and does nothing.
    pub fn keeps(&self)
        ensures { AsksInRange self.now }
    {
        match self {
            AppRequest::Declare(vid) | AppRequest::Withdraw(vid) => vid_in_range(*vid),
            AppRequest::Talk(talker) => talker_in_range(*talker),
            AppRequest::Hush(_) | AppRequest::Listen(_) | AppRequest::Unlisten(_) => {}
        }
    }
}

// A VID is one by its type.
pub(crate) fn vid_in_range(vid: Vid)
    ensures { IsVid vid }
{
    let _ = vid.get();
}

// Each field of a Talker fits by its type.
fn talker_in_range(talker: Talker)
    ensures { IsTalker talker }
{
    let _ = (talker.dest.get(), talker.priority.get());
}

// What MSRP is asked for fits by its type.
pub(crate) fn srp_in_range(request: &SrpRequest)
    ensures { IsRequestInRange request.now }
{
    match request {
        SrpRequest::Talk(talker) => talker_in_range(*talker),
        SrpRequest::Hush(_) | SrpRequest::Listen(_) | SrpRequest::Unlisten(_) => {}
    }
}

/// An attribute of some application.
#[derive(Clone, Copy, PartialEq, Eq)]
pub enum NodeKey {
    /// A VID, which MVRP registers.
    Vlan(Vid),
    /// A Talker, Listeners or a Domain, which MSRP registers.
    Srp(MsrpKey),
}

/// One step of a link port.
#[derive(Clone, Copy, PartialEq, Eq)]
pub enum PortStep {
    /// Takes the front PDU of the inbox.
    Work,
    /// Ends the leave timer of one attribute, whatever the moment.
    LeaveNow(NodeKey),
    /// Fires the LeaveAll timer of an application, whatever the moment.
    LeaveAllNow(App),
    /// Fires the periodic timer of an application, whatever the moment.
    PeriodicNow(App),
    /// Fires all timers of both applications that are due.
    Due,
    /// Settles what awaits at the port, of both applications.
    Settle,
    /// Sends what an application has to say.
    Send(App),
}

impl PortStep {
    /// The attribute whose leave timer the step ends, if it is such a step.
    pub fn key(self) -> Option<NodeKey>
        ensures { result ≡ key_of_step self }
    {
        match self {
            PortStep::LeaveNow(key) => Some(key),
            PortStep::Work
            | PortStep::LeaveAllNow(_)
            | PortStep::PeriodicNow(_)
            | PortStep::Due
            | PortStep::Settle
            | PortStep::Send(_) => None,
        }
    }
}

/// What happens at a node.
#[derive(Clone, Copy, PartialEq, Eq)]
pub enum NodeEvent {
    /// The application of a station asks for something.
    Request(AppRequest),
    /// A link port makes a step.
    Port(PortNo, PortStep),
    /// The clock goes on by 1 cs.
    Clock,
}

/// What a node answers. Each number is at most 4,294,967,295, and stands still there.
#[derive(Clone, Copy, PartialEq, Eq)]
pub enum StepReply {
    /// The inbox was empty.
    Nothing,
    /// The front PDU was malformed at this offset; it was taken out.
    Discarded(u32),
    /// The front PDU had so many attribute events.
    Received(u32),
    /// So many timers fired.
    Fired(u32),
    /// So many attributes awaited.
    Settled(u32),
    /// There was nothing to say.
    Silent,
    /// A PDU of so many octets was sent.
    Sent(u32),
    /// The request was taken, or the clock went on.
    Taken,
}

/// One step that a node made, with its answer.
#[derive(Clone, Copy, PartialEq, Eq)]
pub struct NodeStep {
    pub port: PortNo,
    pub step: PortStep,
    pub reply: StepReply,
}
