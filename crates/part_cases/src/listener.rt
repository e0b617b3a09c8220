//! Kinds of Listener, merged two by two, and those of a bridge's ports.

use msrp_listener::{PortListener, listener_out, merge};
use srp_base::ListenerKind::{AskingFailed, Ready, ReadyFailed};

#[test]
fn two_kinds_are_merged(rt: HostRuntime) {
    for (x, y, merged) in [
        (AskingFailed, AskingFailed, AskingFailed),
        (AskingFailed, Ready, ReadyFailed),
        (AskingFailed, ReadyFailed, ReadyFailed),
        (Ready, AskingFailed, ReadyFailed),
        (Ready, Ready, Ready),
        (Ready, ReadyFailed, ReadyFailed),
        (ReadyFailed, AskingFailed, ReadyFailed),
        (ReadyFailed, Ready, ReadyFailed),
        (ReadyFailed, ReadyFailed, ReadyFailed),
    ] {
        assert!(rt; merge(x, y) == merged);
    }
}

const READY: PortListener = PortListener {
    kind: Ready,
    booked: true,
};

const WAITS: PortListener = PortListener {
    kind: Ready,
    booked: false,
};

#[test]
fn a_port_without_a_booking_counts_as_asking_failed(rt: HostRuntime) {
    assert!(rt; listener_out(&[]).is_none());
    assert!(rt; listener_out(&[WAITS]) == Some(AskingFailed));
    assert!(rt; listener_out(&[READY, READY]) == Some(Ready));
    assert!(rt; listener_out(&[READY, WAITS, READY]) == Some(ReadyFailed));
}
