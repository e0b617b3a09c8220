//! What a port would have booked with what it refuses.

ghost use Rattle.std.specs.Prelude.{◌≡◌, ◌<◌, ◌+◌, ◌^◌, ◌++◌, is_some, sum_by, OnOk};
ghost use Rattle.std.specs.List.{list_any};
ghost use Rattle.attribute_propagation.specs.Ports.{IsLinkPort, place_of};
ghost use Rattle.node_core.specs.State.{ports_of};
ghost use Rattle.port_margins.specs.Margins.{is_short as is_short_spec, refused_at as refused_at_spec, refused_want as refused_want_spec, shortage_at, shortage_line, slope_in as slope_in_spec, want_at as want_at_spec};

use crate::lines::put_short;
use crate::refused::asked_of;
use node_core::Node;
use srp_base::{Class, NoMemory, PortNo};
use stream_importance::{Caps, Fit, Want};
use topology_file::StreamEntry;

// A want that doesn't fit.
fn refused_want(want: Option<Want>, fit: Option<Fit>) -> Option<Want>
    ensures { result ≡ refused_want_spec want fit }
{
    match (want, fit) {
        (Some(want), Some(Fit::TooLittle { .. })) => Some(want),
        _ => None,
    }
}

// That of a stream at a port.
fn want_at(node: &Node, at: PortNo, entry: &StreamEntry) -> Option<Want>
    requires { IsLinkPort at (ports_of node.now.state) }
    ensures { result ≡ want_at_spec (place_of at) node.now.state entry.now }
{
    let stream = entry.id;
    refused_want(asked_of(node, stream), node.fit(at, stream))
}

// The slope of a want in bit/s, if it is of a class.
fn slope_in(class: Class, want: Option<Want>) -> u64
    ensures { result ≡ slope_in_spec class want }
{
    match want {
        None => 0,
        Some(want) => { if want.class == class { want.slope } else { 0 } }
    }
}

// The slopes of the streams of a class that don't fit at a port, together, in bit/s.
fn refused_at(node: &Node, at: PortNo, class: Class, streams: &[StreamEntry]) -> u128
    requires { IsLinkPort at (ports_of node.now.state) }
    ensures sum { result ≡ refused_at_spec class (place_of at) node.now.state streams.now }
    ensures small { result < 2 ^ 126 }
{
    let mut sum: u128 = 0;
    for entry in streams {
        sum += u128::from(slope_in(class, want_at(node, at, entry)));
    }
    sum
}

// Whether any of these streams doesn't fit at a port.
fn is_short(node: &Node, at: PortNo, streams: &[StreamEntry]) -> bool
    requires { IsLinkPort at (ports_of node.now.state) }
    ensures { result ≡ is_short_spec (place_of at) node.now.state streams.now }
{
    for entry in streams {
        if want_at(node, at, entry).is_some() {
            return true;
        }
    }
    false
}

// The line of a port, where it refuses any stream, by what its classes have booked and refuse.
fn put_line(
    out: &mut Vec<u8>,
    port: &[u8],
    caps: Caps,
    short: bool,
    class_a: u128,
    class_b: u128,
) -> Result<(), NoMemory>
    requires { class_a + class_b < 2 ^ 128 }
    ensures { OnOk result (out.new.items
        ≡ out.old.items ++ shortage_line port.now caps short class_a class_b) }
{
    if !short {
        return Ok(());
    }
    put_short(out, port, caps, class_a, class_a + class_b)
}

/// The line of what a port has booked, in bit/s, with what it refuses of these streams, where it
/// refuses any.
pub(crate) fn put_shortage(
    out: &mut Vec<u8>,
    port: &[u8],
    caps: Caps,
    streams: &[StreamEntry],
    node: &Node,
    at: PortNo,
    class_a: u64,
    class_b: u64,
) -> Result<(), NoMemory>
    requires { IsLinkPort at (ports_of node.now.state) }
    ensures { OnOk result (out.new.items ≡ out.old.items
        ++ shortage_at port.now caps streams.now (place_of at) node.now.state class_a class_b) }
{
    let short = is_short(node, at, streams);
    let more_a = u128::from(class_a) + refused_at(node, at, Class::A, streams);
    let more_b = u128::from(class_b) + refused_at(node, at, Class::B, streams);
    put_line(out, port, caps, short, more_a, more_b)
}
