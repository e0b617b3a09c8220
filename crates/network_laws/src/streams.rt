//! Both sides of the law of Ready, and the refusal that a failure names, in any network.

ghost use Rattle.std.specs.Prelude.{◌≡◌, ◌+◌, true, false, ◌&&◌, option_map, IfOk, IfSome, IsSome};
ghost use Rattle.std.specs.List.{AllByRecursion, list_all};
ghost use Rattle.tree_topology.specs.Topology.{HasNode, HasPort};
ghost use Rattle.attribute_propagation.specs.Ports.{IsLinkPort};
ghost use Rattle.msrp.specs.Part.{talker_reg_of};
ghost use Rattle.node_core.specs.State.{ports_of};
ghost use Rattle.network_laws.specs.Vlans.{IsAtRest};
ghost use Rattle.network_laws.specs.Streams.{bandwidth_failure, failure_at, failure_in, first_refusal, has_booked, hears_ready, is_listened_at, is_path_booked, is_ready_heard, is_talked_at, IsRefusalTo, IsTalkedOnce, refusal_at, refusal_in, refusal_of, refusal_to, slope_of_reg, slope_of_talker, talking_node};

use crate::laws::{a_refusal_says_why, streams_keep_their_laws};
use crate::vlans::Sides;
use msrp_codec::{MsrpContent, MsrpKey};
use msrp_talker::class_of;
use node_core::Node;
use srp_base::{
    EgressPort, Failure, ListenerKind, NoMemory, NodeNo, PortNo, StreamId, Talker, TalkerReg,
};
use std::alloc::Global;
use stream_importance::{Fit, slope_of};
use tree_topology::NodeKind;
use tree_topology::laws::ports;
use world_core::World;

/// A port that refuses a stream for want of bandwidth, with what its ledger says.
#[derive(Clone, Copy, PartialEq, Eq)]
pub struct Refusal {
    /// The port.
    pub at: EgressPort,
    /// The slopes of the more important booked streams together, in bit/s, without the stream's
    /// own.
    pub more_important: u128,
    /// The stream's own slope, in bit/s.
    pub slope: u64,
    /// The cap of the stream's class, in bit/s, which the two together pass.
    pub cap: u128,
    /// The failure code: 1 or 6 (IEEE Std 802.1Q-2018, 35.2.2.8.7).
    pub code: u8,
}

/// Whether a listener's application hears that it has a stream (IEEE Std 802.1Q-2018, 35.2.4), and
/// whether every egress port from the Talker's station to the listener has booked the stream, each
/// by its own definition in every network. The Talker's station is the lowest-numbered that talks
/// the stream; where there is none, no path has booked. The listener exists.
pub fn ready_on_path(
    alloc: Global,
    world: &World,
    listener: NodeNo,
    stream: StreamId,
) -> Result<Sides, NoMemory>
    requires { HasNode world.now.tree listener.0 }
    ensures found { IfOk result (λ s. s.found ≡ hears_ready world.now stream listener.0) }
    ensures expected { IfOk result (λ s. s.expected ≡ is_path_booked world.now stream listener.0) }
    ensures at_rest { IsAtRest world.now → IsTalkedOnce world.now stream
        → is_listened_at world.now stream listener.0 ≡ true
        → is_talked_at world.now stream listener.0 ≡ false
        → IfOk result (λ s. s.found ≡ s.expected) }
{
    streams_keep_their_laws();
    world.keeps();
    let found = is_ready(world, listener, stream);
    let expected = is_booked_to(alloc, world, listener, stream)?;
    Ok(Sides { found, expected })
}

/// Why a listener's port has a Talker Failed with a code of bandwidth, 1 or 6 (IEEE Std
/// 802.1Q-2018, 35.2.2.8.7): the first port along the path from the Talker's station whose node has
/// the BridgeID that the failure names, and whose ledger refuses the stream with that code. None
/// exactly where the listener's port has no Talker Failed of the stream, where its code is another,
/// where no node with a port on the path has that BridgeID, or where no such port refuses the
/// stream with that code. The Talker's station is the lowest-numbered that talks the stream; where
/// there is none, there is no path. The listener exists.
pub fn refusal_shown(
    alloc: Global,
    world: &World,
    listener: NodeNo,
    stream: StreamId,
) -> Result<Option<Refusal>, NoMemory>
    requires { HasNode world.now.tree listener.0 }
    ensures value { IfOk result (λ r. r ≡ refusal_to world.now stream listener.0) }
    ensures says { IfOk result (λ r. IfSome r (IsRefusalTo world.now stream listener.0)) }
    ensures at_rest { IsAtRest world.now → IsTalkedOnce world.now stream
        → IsSome (failure_at world.now stream listener.0)
        → IfOk result (λ r. IsSome r) }
{
    streams_keep_their_laws();
    a_refusal_says_why();
    world.keeps();
    refusal_there(alloc, world, listener, stream)
}

// Whether the application of a node hears that it has a stream.
fn is_ready(world: &World, listener: NodeNo, stream: StreamId) -> bool
    requires { HasNode world.now.tree listener.0 }
    ensures { result ≡ hears_ready world.now stream listener.0 }
{
    is_ready_kind(world.node(listener).heard(stream))
}

fn is_ready_kind(heard: Option<ListenerKind>) -> bool
    ensures { result ≡ is_ready_heard heard }
{
    match heard {
        Some(ListenerKind::Ready) => true,
        Some(ListenerKind::AskingFailed | ListenerKind::ReadyFailed) | None => false,
    }
}

// Whether every egress port from the Talker's station to a node has booked a stream.
fn is_booked_to(
    alloc: Global,
    world: &World,
    listener: NodeNo,
    stream: StreamId,
) -> Result<bool, NoMemory>
    requires { HasNode world.now.tree listener.0 }
    ensures { IfOk result (λ b. b ≡ is_path_booked world.now stream listener.0) }
{
    world.keeps();
    ports();
    let Some(talker) = talking_station(world, stream) else {
        return Ok(false);
    };
    let path = world.tree().path(alloc, talker, listener)?;
    Ok(are_booked(world, path.as_slice(), stream))
}

// The lowest-numbered station that talks a stream.
fn talking_station(world: &World, stream: StreamId) -> Option<NodeNo>
    ensures value { option_map (λ n. n.0) result ≡ talking_node world.now stream }
    ensures node { IfSome result (λ n. HasNode world.now.tree n.0) }
{
    for y in 0..world.tree().nodes() {
        if is_talked_there(world, y + 1, stream) {
            return Some(NodeNo(y + 1));
        }
    }
    None
}

// Whether a node is a station that talks a stream.
fn is_talked_there(world: &World, y: u16, stream: StreamId) -> bool
    requires { HasNode world.now.tree y }
    ensures { result ≡ is_talked_at world.now stream y }
{
    let node = world.node(NodeNo(y));
    node.kind() == NodeKind::Station && node.talks(stream)
}

// Whether each of some ports has booked a stream.
fn are_booked(world: &World, path: &[EgressPort], stream: StreamId) -> bool
    requires { AllByRecursion (HasPort world.now.tree) path.now }
    ensures { result ≡ list_all (has_booked world.now stream) path.now }
{
    for at in path {
        if !is_booked(world, *at, stream) {
            return false;
        }
    }
    true
}

// Whether a port has booked a stream.
fn is_booked(world: &World, at: EgressPort, stream: StreamId) -> bool
    requires { HasPort world.now.tree at }
    ensures { result ≡ has_booked world.now stream at }
{
    world.keeps();
    world.node(at.node).booked(at.port, stream).is_some()
}

// The refusal that a listener's failure names.
fn refusal_there(
    alloc: Global,
    world: &World,
    listener: NodeNo,
    stream: StreamId,
) -> Result<Option<Refusal>, NoMemory>
    requires { HasNode world.now.tree listener.0 }
    ensures { IfOk result (λ r. r ≡ refusal_to world.now stream listener.0) }
{
    world.keeps();
    ports();
    let Some(failure) = failure_there(world, listener, stream) else {
        return Ok(None);
    };
    let Some(talker) = talking_station(world, stream) else {
        return Ok(None);
    };
    let path = world.tree().path(alloc, talker, listener)?;
    Ok(refusal_along(world, path.as_slice(), stream, failure))
}

// The failure for want of bandwidth of a stream's Talker at a node's first port.
fn failure_there(world: &World, listener: NodeNo, stream: StreamId) -> Option<Failure>
    requires { HasNode world.now.tree listener.0 }
    ensures { result ≡ failure_at world.now stream listener.0 }
{
    failure_of_node(world.node(listener), stream)
}

fn failure_of_node(node: &Node, stream: StreamId) -> Option<Failure>
    ensures { result ≡ failure_in stream node.now.state }
{
    node.keeps();
    if node.ports() == 0 {
        return None;
    }
    failure_of_content(node.content(PortNo(1), MsrpKey::Talker(stream)))
}

fn failure_of_content(content: Option<MsrpContent>) -> Option<Failure>
    ensures { result ≡ bandwidth_failure (talker_reg_of content) }
{
    match content {
        Some(MsrpContent::Failed(_, failure)) => {
            if failure.code == 1 || failure.code == 6 {
                Some(failure)
            } else {
                None
            }
        }
        Some(MsrpContent::Advertise(_) | MsrpContent::Listener(_) | MsrpContent::Domain { .. })
        | None => None,
    }
}

// The first refusal along some ports.
fn refusal_along(
    world: &World,
    path: &[EgressPort],
    stream: StreamId,
    failure: Failure,
) -> Option<Refusal>
    requires { AllByRecursion (HasPort world.now.tree) path.now }
    ensures { result ≡ first_refusal (refusal_at world.now stream failure) path.now }
{
    for port in path {
        let refusal = refusal_by(world, *port, stream, failure);
        if refusal.is_some() {
            return refusal;
        }
    }
    None
}

// The refusal of a port, where its node has the failure's BridgeID.
fn refusal_by(world: &World, at: EgressPort, stream: StreamId, failure: Failure) -> Option<Refusal>
    requires { HasPort world.now.tree at }
    ensures { result ≡ refusal_at world.now stream failure at }
{
    world.keeps();
    refusal_of_node(world.node(at.node), at, stream, failure)
}

fn refusal_of_node(
    node: &Node,
    at: EgressPort,
    stream: StreamId,
    failure: Failure,
) -> Option<Refusal>
    requires { IsLinkPort at.port (ports_of node.now.state) }
    ensures { result ≡ refusal_in stream failure at node.now.state }
{
    if node.bridge() != failure.bridge {
        return None;
    }
    refusal_with(
        at,
        slope_asked(node.talker(stream)),
        failure.code,
        node.fit(at.port, stream),
    )
}

// What doesn't fit at a port, where it has this code.
fn refusal_with(at: EgressPort, slope: u64, code: u8, fit: Option<Fit>) -> Option<Refusal>
    ensures { result ≡ refusal_of at slope code fit }
{
    match fit {
        Some(
            Fit::TooLittle {
                more_important,
                cap,
                code: given,
            },
        ) => {
            if given == code {
                Some(Refusal {
                    at,
                    more_important,
                    slope,
                    cap,
                    code: given,
                })
            } else {
                None
            }
        }
        Some(Fit::Fits) | None => None,
    }
}

// The slope that a registered Talker asks; 0 where it asks for none.
fn slope_asked(reg: TalkerReg) -> u64
    ensures { result ≡ slope_of_reg reg }
{
    match reg {
        TalkerReg::Absent => 0,
        TalkerReg::Advertise(talker) => slope_by(talker),
        TalkerReg::Failed(talker, _) => slope_by(talker),
    }
}

fn slope_by(talker: Talker) -> u64
    ensures { result ≡ slope_of_talker talker }
{
    match class_of(talker.priority.get()) {
        Some(class) => slope_of(class, talker.max_frame, talker.frames),
        None => 0,
    }
}
