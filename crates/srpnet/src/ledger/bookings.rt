//! The wants of a file, applied to a port.

ghost use Rattle.std.specs.Prelude.{◌≡◌, ◌+◌, ◌≤◌, None, IfOk};
ghost use Rattle.stream_importance.specs.Bandwidth.{caps_of};
ghost use Rattle.toml_rules.specs.Rules.{first_fall};
ghost use Rattle.srpnet.specs.LedgerFile.{want_ticks};
ghost use Rattle.srpnet.specs.LedgerRun.{fresh, Leads};
ghost use Rattle.srpnet.specs.LedgerText.{HasLines};

use crate::ledger::file::LedgerFile;
use port_ledger::Ledger;
use srp_base::{Cs, NoMemory};
use std::alloc::Global;

/// The ledger once the wants are applied in file order at their ticks, and the moment of the last
/// one in cs, 0 where there is none. Each stream that the file mentions has its line in the text.
pub fn bookings(alloc: Global, file: &LedgerFile) -> Result<(Ledger, Cs), NoMemory>
    requires shares { file.now.delta_a + file.now.delta_b ≤ 90 }
    requires ticks { first_fall 1 0 (want_ticks file.now.wants) ≡ None }
    ensures applied { IfOk result (λ r. Leads (fresh file.now) file.now.wants r.0.book) }
    ensures caps { IfOk result (λ r. r.0.book.caps
        ≡ caps_of file.now.rate file.now.delta_a file.now.delta_b) }
    ensures lines { IfOk result (λ r. HasLines r.0.book file.now.wants) }
    ensures moment { IfOk result (λ r. r.1.0 ≡ r.0.book.moment) }
{
    let mut ledger = Ledger::new(alloc, file.rate, file.delta_a, file.delta_b);
    let mut now = Cs(0);
    let wants = file.wants.as_slice();
    for want in wants {
        now = want.tick;
        let _ = ledger.want(now, want.want)?;
    }
    ledger.stands();
    Ok((ledger, now))
}
