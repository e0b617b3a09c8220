//! What is found in what is reckoned.

ghost use Rattle.std.specs.Prelude.{◌≡◌, ◌==◌, ◌&&◌, find, map, option_map};
ghost use Rattle.class_delays.specs.Table.{delays_at, is_same, longest_of};

use crate::delays::{FedStream, PortDelays};
use delay_bound::ClassStream;
use srp_base::EgressPort;

/// What is reckoned for a port.
pub fn delays_at(ports: &[PortDelays], at: EgressPort) -> Option<&PortDelays>
    ensures { option_map (λ e. e.now) result ≡ delays_at ports.now at }
{
    for e in ports {
        if e.at == at {
            return Some(e);
        }
    }
    None
}

/// What is reckoned for a stream, among a port's.
pub fn stream_in(fed: &[FedStream], stream: &ClassStream) -> Option<FedStream>
    ensures { result ≡ find (λ f. is_same f.stream stream.now) fed.now }
{
    for f in fed {
        if is_same(&f.stream, stream) {
            return Some(*f);
        }
    }
    None
}

/// Whether two streams are one.
fn is_same(x: &ClassStream, y: &ClassStream) -> bool
    ensures { result ≡ is_same x.now y.now }
{
    x.id.0 == y.id.0
        && x.talker.0 == y.talker.0
        && x.limits.most == y.limits.most
        && x.limits.burst == y.limits.burst
        && x.limits.slope == y.limits.slope
        && x.least == y.least
}

/// The bits of the longest frame that a port's streams may send.
pub(crate) fn longest(fed: &[FedStream]) -> u64
    ensures { result ≡ longest_of (map (λ f. f.stream) fed.now) }
{
    let mut most = 0;
    for f in fed {
        most = most.max(f.stream.limits.most);
    }
    most
}
