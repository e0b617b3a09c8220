//! How long class B waits at a port.

ghost use Rattle.std.specs.Prelude.{◌≡◌, ◌++◌, OnOk};
ghost use Rattle.port_margins.specs.Margins.{waits_line};
ghost use Rattle.port_margins.specs.Waits.{micros_of as micros_of_spec};

use crate::lines::put_wait;
use srp_base::{NoMemory, Rate};

// So many bit times of a port in µs, rounded up.
fn micros_of(rate: Rate, bits: u64) -> u128
    ensures { result ≡ micros_of_spec rate bits }
{
    (u128::from(bits) * 1_000_000).div_ceil(u128::from(rate.bits()))
}

/// The line of a wait at a port of this rate, in bit times.
pub(crate) fn put_bits(
    out: &mut Vec<u8>,
    port: &[u8],
    rate: Rate,
    bits: u64,
) -> Result<(), NoMemory>
    ensures { OnOk result (out.new.items ≡ out.old.items ++ waits_line port.now rate bits) }
{
    put_wait(out, port, bits, micros_of(rate, bits))
}
