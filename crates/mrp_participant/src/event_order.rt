//! Events in the order of their keys. Each key hears its own events alone, so what a list of
//! messages makes of the rows is the same in each order that keeps those of one key as they came.

ghost use Rattle.std.specs.Prelude.{◌≡◌, Bool, Option, IfOk};
ghost use Rattle.srp_base.specs.declared.numbers.Cs.{Cs as Moment};
ghost use Rattle.mrp_participant.specs.declared.row.Row.{Row as RowOf};
ghost use Rattle.mrp_participant.specs.Row.{row_after_receive};

use srp_base::{MrpEvent, NoMemory};
use std::alloc::Global;

/// Whether the keys of events don't fall. It is asked for the sake of speed alone.
pub(crate) fn keys_ascend<K: Copy + Ord, C: Copy>(events: &[(MrpEvent, K, C)]) -> bool {
    events.is_sorted_by_key(|event| event.1)
}

/// The events in the order of their keys, those of one key as they came. That their keys ascend is
/// for the sake of speed alone, and no clause says it.
pub(crate) fn by_key<K: Copy + Ord, C: Copy>(
    alloc: Global,
    events: &[(MrpEvent, K, C)],
) -> Result<Vec<(MrpEvent, K, C)>, NoMemory>
    ensures { IfOk result (λ v. (leave : Moment) (leave_all : Bool) (k : K)
        (row : Option (RowOf K C))
        → row_after_receive K.cmp leave leave_all v.items k row
        ≡ row_after_receive K.cmp leave leave_all events.now k row) }
{
    let mut sorted = Vec::from_slice(alloc, events)?;
    sorted.sort_by_key(|event| event.1)?;
    Ok(sorted)
}
