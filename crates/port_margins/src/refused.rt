//! The streams that a port refuses.

ghost use Rattle.std.specs.Prelude.{◌≡◌, ◌++◌, flat_map, option_and_then, OnOk};
ghost use Rattle.attribute_propagation.specs.Ports.{IsLinkPort, place_of};
ghost use Rattle.msrp.specs.Stream.{want_of_talker as want_of_talker_spec};
ghost use Rattle.msrp_talker.specs.TalkerOut.{talker_in};
ghost use Rattle.node_core.specs.State.{ports_of};
ghost use Rattle.port_margins.specs.Margins.{asked_of as asked_of_spec, fit_line, has_listeners as has_listeners_spec, refused_lines, stream_line};

use crate::lines::{Lack, put_refused};
use msrp_codec::MsrpKey;
use msrp_talker::class_of;
use node_core::Node;
use srp_base::{NoMemory, PortNo, StreamId, Talker, TalkerReg};
use stream_importance::{Fit, Want, slope_of};
use topology_file::{Scenario, StreamEntry};

// What a Talker asks of a port; None where its priority is of no SR class.
fn want_of_talker(talker: Talker) -> Option<Want>
    ensures { result ≡ want_of_talker_spec talker }
{
    match class_of(talker.priority.get()) {
        Some(class) => Some(Want {
            stream: talker.stream,
            class,
            rank: talker.rank,
            slope: slope_of(class, talker.max_frame, talker.frames),
        }),
        None => None,
    }
}

// What a registered Talker asks of a port, advertised or failed.
fn want_of_reg(reg: TalkerReg) -> Option<Want>
    ensures { result ≡ option_and_then want_of_talker_spec (talker_in reg) }
{
    match reg {
        TalkerReg::Absent => None,
        TalkerReg::Advertise(talker) => want_of_talker(talker),
        TalkerReg::Failed(talker, _) => want_of_talker(talker),
    }
}

/// What a stream's Talker, as it is registered at a node, asks of each other port.
pub(crate) fn asked_of(node: &Node, stream: StreamId) -> Option<Want>
    ensures { result ≡ asked_of_spec stream node.now.state }
{
    want_of_reg(node.talker(stream))
}

// Whether Listeners of a stream are registered at a port.
fn has_listeners(node: &Node, at: PortNo, stream: StreamId) -> bool
    requires { IsLinkPort at (ports_of node.now.state) }
    ensures { result ≡ has_listeners_spec stream (place_of at) node.now.state }
{
    node.content(at, MsrpKey::Listener(stream)).is_some()
}

// The line of a want that doesn't fit, of a stream of this name.
fn put_fit(
    out: &mut Vec<u8>,
    port: &[u8],
    name: &[u8],
    heard: bool,
    want: Option<Want>,
    fit: Option<Fit>,
) -> Result<(), NoMemory>
    ensures { OnOk result (out.new.items
        ≡ out.old.items ++ fit_line port.now name.now heard want fit) }
{
    match (want, fit) {
        (
            Some(want),
            Some(
                Fit::TooLittle {
                    more_important,
                    cap,
                    code,
                },
            ),
        ) => {
            let lack = Lack {
                more_important,
                cap,
                code,
            };
            put_refused(out, port, name, &want, lack, heard)
        }
        _ => Ok(()),
    }
}

// The line of a stream, where it doesn't fit.
fn put_stream(
    out: &mut Vec<u8>,
    port: &[u8],
    node: &Node,
    at: PortNo,
    entry: &StreamEntry,
) -> Result<(), NoMemory>
    requires { IsLinkPort at (ports_of node.now.state) }
    ensures { OnOk result (out.new.items
        ≡ out.old.items ++ stream_line port.now (place_of at) node.now.state entry.now) }
{
    let stream = entry.id;
    let heard = has_listeners(node, at, stream);
    put_fit(
        out,
        port,
        entry.name.as_slice(),
        heard,
        asked_of(node, stream),
        node.fit(at, stream),
    )
}

/// The lines of a scenario's streams that don't fit at a port.
pub(crate) fn put_refusals(
    out: &mut Vec<u8>,
    port: &[u8],
    node: &Node,
    at: PortNo,
    scenario: &Scenario,
) -> Result<(), NoMemory>
    requires { IsLinkPort at (ports_of node.now.state) }
    ensures { OnOk result (out.new.items ≡ out.old.items
        ++ refused_lines port.now (place_of at) node.now.state scenario.now.streams) }
{
    put_streams(out, port, node, at, scenario.streams.as_slice())
}

// Those of these streams.
fn put_streams(
    out: &mut Vec<u8>,
    port: &[u8],
    node: &Node,
    at: PortNo,
    streams: &[StreamEntry],
) -> Result<(), NoMemory>
    requires { IsLinkPort at (ports_of node.now.state) }
    ensures { OnOk result (out.new.items
        ≡ out.old.items ++ refused_lines port.now (place_of at) node.now.state streams.now) }
{
    for entry in streams {
        put_stream(out, port, node, at, entry)?;
    }
    Ok(())
}
