//! The lines of groups. Each is put at the end of a text.

ghost use Rattle.std.specs.Prelude.{◌≡◌, ◌++◌, OnOk};
ghost use Rattle.group_run.specs.Lines.{group_line};

use registrar::Registrar;
use report_words::{put, put_octets, state_name};
use srp_base::{Mac, NoMemory};

/// The line of a MAC address that is registered at a port.
pub(crate) fn put_group(
    out: &mut Vec<u8>,
    port: &[u8],
    mac: Mac,
    state: Registrar,
) -> Result<(), NoMemory>
    ensures { OnOk result (out.new.items ≡ out.old.items ++ group_line port.now mac state) }
{
    let alloc = *out.allocator();
    let name = state_name(state);
    let registered = format!(in alloc; " {mac} {name}\n")?;
    put(out, "group ")?;
    put_octets(out, port)?;
    put(out, &registered)
}
