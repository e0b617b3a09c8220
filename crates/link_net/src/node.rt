//! A node of a network, as the network sees it.

ghost use Rattle.std.specs.Prelude.{◌≡◌, ◌<◌, ◌≤◌, ◌^◌, [], length, slice_get, option_map, IfOk, IfErr, OnOk, OnErr};
ghost use Rattle.std.specs.List.{AllByRecursion};
ghost use Rattle.attribute_propagation.specs.Ports.{IsLinkPort, place_of};
ghost use Rattle.link_net.specs.Meaning.{NodeMeaning, carried_at, forged_at, lost_at, repeated_at};
ghost use Rattle.link_net.specs.NodeLaws.{HasNodeLaws};

use srp_base::{Cs, NoMemory, PortNo, Seq};

/// A node that stands in a network: link ports, each with a participant of each application, an
/// inbox and an outbox.
pub trait LinkNode: Drop {
    /// Which of several applications.
    type Name: Copy;

    /// A step of a link port.
    type Step: Copy;

    /// What a node answers.
    type Reply;

    /// What the node's application may ask for.
    type Request: Copy;

    /// A PDU on a link.
    type Pdu: Drop;

    // What the node means, and the state of each.
    ghost meaning: { NodeMeaning Self.Name Self.Step Self.Reply Self.Request Self.Pdu };

    ghost state: { Self → meaning.State };

    // The node is ready for the clock: it has the memory of the next moment.
    ghost is_ready: { Self → Type 0 };

    /// A link port, which there is, makes a step at the moment `now`, in cs, below 2^62. After want
    /// of memory the node is as it was.
    fn step(&mut self, now: Cs, port: PortNo, step: Self::Step) -> Result<Self::Reply, NoMemory>
        requires now { now.0 < 2 ^ 62 }
        requires port { IsLinkPort port (meaning.ports_of (state self.old)) }
        ensures ok { IfOk result (λ reply. meaning.stepped now step (place_of port) (state self.old)
            ≡ (state self.new, reply)) }
        ensures err { OnErr result (state self.new ≡ state self.old) };

    /// The node's application asks for something that it may ask for. After want of memory the node
    /// is as it was.
    fn ask(&mut self, request: Self::Request) -> Result<Self::Reply, NoMemory>
        requires { meaning.CanAsk request (state self.old) }
        ensures ok { IfOk result (λ reply. meaning.asked request (state self.old)
            ≡ (state self.new, reply)) }
        ensures err { OnErr result (state self.new ≡ state self.old) };

    /// Makes the node ready for the next moment: afterwards its `tick` takes no memory. The state
    /// is as it was.
    fn make_ready(&mut self) -> Result<(), NoMemory>
        ensures state { state self.new ≡ state self.old }
        ensures ready { OnOk result (is_ready self.new) };

    /// The clock has come to the moment `now`, which it may. The node is ready, so it takes no
    /// memory.
    fn tick(&mut self, now: Cs)
        requires can { meaning.CanTick now (state self.old) }
        requires ready { is_ready self.old }
        ensures { state self.new ≡ meaning.ticked now (state self.old) };

    /// The number of PDUs that came in at a link port.
    fn pending(&self, port: PortNo) -> usize
        requires { IsLinkPort port (meaning.ports_of (state self.now)) }
        ensures { result ≡ length (meaning.inbox (place_of port) (state self.now)) };

    /// The application of the PDU with this index, counted from 0, in a link port's inbox, where
    /// there is one.
    fn name_at(&self, port: PortNo, index: usize) -> Option<Self::Name>
        requires { IsLinkPort port (meaning.ports_of (state self.now)) }
        ensures { result ≡ option_map meaning.name_of (slice_get
            (meaning.inbox (place_of port) (state self.now)) index) };

    /// Loses the PDU with this index, which there is, from a link port's inbox. It takes no memory.
    fn lose(&mut self, port: PortNo, index: usize)
        requires port { IsLinkPort port (meaning.ports_of (state self.old)) }
        requires there { index < length (meaning.inbox (place_of port) (state self.old)) }
        ensures { state self.new ≡ lost_at meaning (place_of port) index (state self.old) };

    /// Puts a copy of the PDU with this index, which there is, in a link port's inbox right behind
    /// it. After want of memory the node is as it was.
    fn repeat(&mut self, port: PortNo, index: usize) -> Result<(), NoMemory>
        requires port { IsLinkPort port (meaning.ports_of (state self.old)) }
        requires there { index < length (meaning.inbox (place_of port) (state self.old)) }
        ensures ok { OnOk result (state self.new
            ≡ repeated_at meaning (place_of port) index (state self.old)) }
        ensures err { OnErr result (state self.new ≡ state self.old) };

    /// Puts a PDU, as short as a frame allows, at the place of an index in a link port's inbox,
    /// which reaches so far. After want of memory the node is as it was.
    fn forge(&mut self, port: PortNo, index: usize, pdu: Self::Pdu) -> Result<(), NoMemory>
        requires port { IsLinkPort port (meaning.ports_of (state self.old)) }
        requires reaches { index ≤ length (meaning.inbox (place_of port) (state self.old)) }
        requires short { meaning.IsShort pdu }
        ensures ok { OnOk result (state self.new
            ≡ forged_at meaning (place_of port) index pdu (state self.old)) }
        ensures err { OnErr result (state self.new ≡ state self.old) };

    /// Ends the soundness of a participant at a link port. It takes no memory.
    fn spoil(&mut self, port: PortNo, name: Self::Name)
        requires { IsLinkPort port (meaning.ports_of (state self.old)) }
        ensures { state self.new ≡ meaning.spoilt name (place_of port) (state self.old) };

    /// The PDUs of a link port's outbox, which is empty afterwards. It takes no memory.
    fn take_out(&mut self, port: PortNo) -> Seq<Self::Pdu>
        requires { IsLinkPort port (meaning.ports_of (state self.old)) }
        ensures taken { result ≡ meaning.outbox (place_of port) (state self.old) }
        ensures short { AllByRecursion meaning.IsShort result }
        ensures after { state self.new ≡ meaning.with_outbox (place_of port) [] (state self.old) };

    /// Puts PDUs, as short as a frame allows, behind those of a link port's inbox. After want of
    /// memory the node is as it was, and the PDUs are handed back.
    fn put_in(
        &mut self,
        port: PortNo,
        pdus: Seq<Self::Pdu>,
    ) -> Result<(), (NoMemory, Seq<Self::Pdu>)>
        requires port { IsLinkPort port (meaning.ports_of (state self.old)) }
        requires short { AllByRecursion meaning.IsShort pdus }
        ensures ok { OnOk result (state self.new
            ≡ carried_at meaning (place_of port) pdus (state self.old)) }
        ensures err { OnErr result (state self.new ≡ state self.old) }
        ensures back { IfErr result (λ e. e.1 ≡ pdus) };

    /// Makes these PDUs, as short as a frame allows, a link port's outbox, which is empty. It takes
    /// no memory.
    fn put_back(&mut self, port: PortNo, pdus: Seq<Self::Pdu>)
        requires port { IsLinkPort port (meaning.ports_of (state self.old)) }
        requires short { AllByRecursion meaning.IsShort pdus }
        requires empty { meaning.outbox (place_of port) (state self.old) ≡ [] }
        ensures { state self.new ≡ meaning.with_outbox (place_of port) pdus (state self.old) };

    /// Whether nothing is pending at the node.
    fn is_still(&self) -> bool
        ensures { result ≡ meaning.is_still (state self.now) };

    /// Whether every participant is sound.
    fn is_sound(&self) -> bool
        ensures { result ≡ meaning.is_sound (state self.now) };

    /// Whether there is something to do at the node at the moment `now`.
    fn is_busy(&self, now: Cs) -> bool
        ensures { result ≡ meaning.is_busy now (state self.now) };

    /// The application that a PDU is of.
    fn name_of(pdu: &Self::Pdu) -> Self::Name
        ensures { result ≡ meaning.name_of pdu.now };

    /// A request is what its type says of it. It is a law, and does nothing.
    fn keeps_request(request: Self::Request)
        ensures { meaning.IsRequest request };

    /// So is a PDU. It is a law, and does nothing.
    fn keeps_pdu(pdu: &Self::Pdu)
        ensures { meaning.IsPdu pdu.now };

    /// The laws of the node, from which those of its network follow. It does nothing.
    fn keeps_laws()
        ensures { HasNodeLaws meaning };
}
