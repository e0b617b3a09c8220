//! The shapers of a port's classes, and how long class B waits there.

ghost use Rattle.std.specs.Prelude.{◌≡◌, ◌++◌, OnOk};
ghost use Rattle.class_b_bound.specs.Bound.{AreCaps};
ghost use Rattle.port_margins.specs.Margins.{shaper_line, shaper_lines};

use crate::cbs::{FRAME_BITS, cbs_of};
use crate::lines::put_cbs;
use crate::waits::put_bits;
use class_b_bound::tight_bound_b;
use srp_base::{NoMemory, Rate};
use stream_importance::Caps;

// The line of a class, where it has booked something.
fn put_shaper(
    out: &mut Vec<u8>,
    port: &[u8],
    class: &str,
    rate: Rate,
    wait: u64,
    slope: u64,
) -> Result<(), NoMemory>
    ensures { OnOk result (out.new.items
        ≡ out.old.items ++ shaper_line port.now class.now rate wait slope) }
{
    if slope == 0 {
        return Ok(());
    }
    put_cbs(out, port, class, cbs_of(rate, wait, slope))
}

/// The lines of both classes at a port of this rate with these caps, by what they have booked, in
/// bit/s, and the line of how long class B waits at most.
pub(crate) fn put_shapers(
    out: &mut Vec<u8>,
    port: &[u8],
    rate: Rate,
    caps: Caps,
    class_a: u64,
    class_b: u64,
) -> Result<(), NoMemory>
    requires { AreCaps rate caps.class_a caps.both }
    ensures { OnOk result (out.new.items
        ≡ out.old.items ++ shaper_lines port.now rate caps class_a class_b) }
{
    let bound = tight_bound_b(rate, caps.class_a, caps.both);
    put_shaper(out, port, "A", rate, FRAME_BITS, class_a)?;
    put_shaper(out, port, "B", rate, bound.wait, class_b)?;
    put_bits(out, port, rate, bound.wait)?;
    Ok(())
}
